//! Field values where they lie.

ghost use Rattle.std.specs.Prelude.{◌≡◌, MatchOption, IfOk, None, Some};
ghost use Rattle.amqp_value.specs.Lent.{array_ref_view, table_ref_view, value_ref_view};
ghost use Rattle.amqp_value.specs.Queries.{truth_in, whole_in, natural_of, octets_in, items_in, pairs_in, value_in};
ghost use Rattle.amqp_value.specs.View.{view};

use crate::array_ref::ArrayRef;
use crate::fault::OutOfMemory;
use crate::own::own_value;
use crate::table_ref::TableRef;
use crate::values::Value;
use std::alloc::Global;

/// A field value that lies in octets which are lent: one variant for each tag, as [`Value`](crate::Value) has them.
/// Numbers are read, all else stays where it is.
#[derive(Clone, Copy)]
pub enum ValueRef<'a> {
    /// `t`: one octet, 0 where it doesn't hold.
    Boolean(bool),
    /// `b`
    ShortShortInt(i8),
    /// `B`
    ShortShortUint(u8),
    /// `s`: the standard's short string, which the errata that RabbitMQ published made a signed number.
    ErrataShortInt(i16),
    /// `U`
    ShortInt(i16),
    /// `u`
    ShortUint(u16),
    /// `I`
    LongInt(i32),
    /// `i`
    LongUint(u32),
    /// `l`: unsigned in the standard, signed after the same errata.
    ErrataLongLongInt(i64),
    /// `L`
    LongLongInt(i64),
    /// `f`: four octets, unread.
    Float([u8; 4]),
    /// `d`: eight octets, unread.
    Double([u8; 8]),
    /// `D`: a scale octet and 32 bits, unread.
    Decimal { scale: u8, number: u32 },
    /// `T`: 64 bits, unread.
    Timestamp(u64),
    /// `V`: no octets.
    Void,
    /// `S`: any octets, after a count of 32 bits.
    LongString(&'a [u8]),
    /// `x`: any octets, after a count of 32 bits.
    ByteArray(&'a [u8]),
    /// `A`: tags with values, after a count of 32 bits.
    Array(ArrayRef<'a>),
    /// `F`: names and tags with values, after a count of 32 bits.
    Table(TableRef<'a>),
}

impl<'a> ValueRef<'a> {
    /// The truth value, if it is one.
    pub fn as_bool(self) -> Option<bool>
        ensures { result ≡ truth_in (value_ref_view self.entry) }
    {
        match self {
            ValueRef::Boolean(holds) => Some(holds),
            _ => None,
        }
    }

    /// The whole number, signed or unsigned and of any width, if it is one. Each fits. A timestamp is none.
    pub fn as_i64(self) -> Option<i64>
        ensures { result ≡ whole_in (value_ref_view self.entry) }
    {
        match self {
            ValueRef::ShortShortInt(number) => Some(i64::from(number)),
            ValueRef::ShortShortUint(number) => Some(i64::from(number)),
            ValueRef::ErrataShortInt(number) => Some(i64::from(number)),
            ValueRef::ShortInt(number) => Some(i64::from(number)),
            ValueRef::ShortUint(number) => Some(i64::from(number)),
            ValueRef::LongInt(number) => Some(i64::from(number)),
            ValueRef::LongUint(number) => Some(i64::from(number)),
            ValueRef::ErrataLongLongInt(number) => Some(number),
            ValueRef::LongLongInt(number) => Some(number),
            _ => None,
        }
    }

    /// The whole number, if it is one and not negative.
    pub fn as_u64(self) -> Option<u64>
        ensures { result ≡ natural_of (whole_in (value_ref_view self.entry)) }
    {
        let number = self.as_i64()?;
        if number < 0 {
            return None;
        }
        Some(number as u64)
    }

    /// The octets of a long string or a byte array, where they lie.
    pub fn as_bytes(self) -> Option<&'a [u8]>
        ensures { MatchOption result (octets_in (value_ref_view self.entry) ≡ None)
            (λ octets. octets_in (value_ref_view self.entry) ≡ Some octets.now) }
    {
        match self {
            ValueRef::LongString(octets) => Some(octets),
            ValueRef::ByteArray(octets) => Some(octets),
            _ => None,
        }
    }

    /// The array, if it is one.
    pub fn as_array(self) -> Option<ArrayRef<'a>>
        ensures { MatchOption result (items_in (value_ref_view self.entry) ≡ None)
            (λ values. items_in (value_ref_view self.entry) ≡ Some (array_ref_view values)) }
    {
        match self {
            ValueRef::Array(values) => Some(values),
            _ => None,
        }
    }

    /// The nested table, if it is one.
    pub fn as_table(self) -> Option<TableRef<'a>>
        ensures { MatchOption result (pairs_in (value_ref_view self.entry) ≡ None)
            (λ pairs. pairs_in (value_ref_view self.entry) ≡ Some (table_ref_view pairs)) }
    {
        match self {
            ValueRef::Table(table) => Some(table),
            _ => None,
        }
    }

    /// The value of the first pair with this name, where the value is a nested table that has one.
    pub fn get(self, name: &[u8]) -> Option<ValueRef<'a>>
        ensures { MatchOption result (value_in name.now (value_ref_view self.entry) ≡ None)
            (λ value. value_in name.now (value_ref_view self.entry) ≡ Some (value_ref_view value)) }
    {
        self.as_table()?.get(name)
    }

    /// The same value, with memory of its own.
    pub fn to_owned(self, alloc: Global) -> Result<Value, OutOfMemory>
        ensures { IfOk result (λ v. view v ≡ value_ref_view self.entry) }
    {
        own_value(alloc, self)
    }
}
