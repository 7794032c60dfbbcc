//! An argument that lies in a payload.
ghost use Rattle.std.specs.Prelude.{◌≡◌, ◌≤◌, ℕ, length, IfOk, Ok, Some, None, MatchOption};
ghost use Rattle.amqp_method.specs.ArgRefView.{arg_ref_view};
ghost use Rattle.amqp_method.specs.Arguments.{kind_of};
ghost use Rattle.amqp_method.specs.BitsView.{bits_view};
ghost use Rattle.amqp_method.specs.Owning.{IsValueOf};
ghost use Rattle.amqp_method.specs.Places.{bit_of, octet_of, short_of, long_of, long_long_of, short_string_of, long_string_of, table_of};
ghost use Rattle.amqp_method.specs.Reading.{Equals, field_at, field_table_at};
ghost use Rattle.amqp_value.specs.Lent.{table_ref_view};
ghost use Rattle.amqp_value.specs.Whole.{BeginsTable};
ghost use Rattle.amqp_method.specs.declared.fields.FieldKind.TheVariants as kinds;

use crate::faults::MethodFault;
use crate::field_octets::{
    Bits, read_bit, read_long, read_long_long, read_long_octets, read_octet, read_short,
    read_short_octets,
};
use crate::fields::FieldKind;
use amqp_value::TableRef;

/// An argument as it lies in a payload: numbers by value, strings and tables lent. Beside it stands
/// [`Arg`](crate::Arg), which owns them.
#[derive(Clone, Copy)]
pub enum ArgRef<'a> {
    Bit(bool),
    Octet(u8),
    Short(u16),
    Long(u32),
    LongLong(u64),
    ShortStr(&'a [u8]),
    LongStr(&'a [u8]),
    Table(TableRef<'a>),
}

/// A field table that was checked before, and the octets after it.
#[inline(always)]
pub(crate) fn read_table<'a>(octets: &'a [u8]) -> (TableRef<'a>, &'a [u8])
    requires { BeginsTable octets.now }
    ensures read { (end : ℕ) → field_table_at end octets.now ≡ Ok (table_ref_view result.0, result.1.now) }
    ensures within { length result.1.now ≤ length octets.now }
{
    let table = TableRef::of_checked(octets);
    (table, &octets[table.octets().len()..])
}

/// The value of a field of a kind, and the octets after it; of its own octet, the bits that are left are in `bits`. A
/// table was checked before.
#[inline(always)]
#[tactic(auto, unfolding(crate::specs::Reading::field_at))]
pub(crate) fn read_arg<'a>(
    kind: FieldKind,
    bits: &mut Bits,
    octets: &'a [u8],
    end: usize,
) -> Result<(ArgRef<'a>, &'a [u8]), MethodFault>
    requires within { length octets.now ≤ end }
    requires checked { kind ≡ kinds.Table → BeginsTable octets.now }
    ensures read { Equals (λ x. ((arg_ref_view x.0, bits_view bits.new), x.1.now)) result
        (field_at kind (bits_view bits.old) end octets.now) }
    ensures within { IfOk result (λ x. length x.1.now ≤ length octets.now) }
    ensures value { IfOk result (λ x. IsValueOf kind (arg_ref_view x.0)) }
{
    match kind {
        FieldKind::Bit => {
            let (holds, after) = read_bit(bits, octets, end)?;
            Ok((ArgRef::Bit(holds), after))
        }
        FieldKind::Octet => {
            let (number, after) = read_octet(octets, end)?;
            *bits = Bits::NONE;
            Ok((ArgRef::Octet(number), after))
        }
        FieldKind::Short => {
            let (number, after) = read_short(octets, end)?;
            *bits = Bits::NONE;
            Ok((ArgRef::Short(number), after))
        }
        FieldKind::Long => {
            let (number, after) = read_long(octets, end)?;
            *bits = Bits::NONE;
            Ok((ArgRef::Long(number), after))
        }
        FieldKind::LongLong => {
            let (number, after) = read_long_long(octets, end)?;
            *bits = Bits::NONE;
            Ok((ArgRef::LongLong(number), after))
        }
        FieldKind::ShortStr => {
            let (text, after) = read_short_octets(octets, end)?;
            *bits = Bits::NONE;
            Ok((ArgRef::ShortStr(text), after))
        }
        FieldKind::LongStr => {
            let (text, after) = read_long_octets(octets, end)?;
            *bits = Bits::NONE;
            Ok((ArgRef::LongStr(text), after))
        }
        FieldKind::Table => {
            let (table, after) = read_table(octets);
            *bits = Bits::NONE;
            Ok((ArgRef::Table(table), after))
        }
    }
}

impl<'a> ArgRef<'a> {
    /// The kind of field that it is an argument for.
    pub fn kind(self) -> FieldKind
        ensures { result ≡ kind_of (arg_ref_view self.entry) }
    {
        match self {
            ArgRef::Bit(_) => FieldKind::Bit,
            ArgRef::Octet(_) => FieldKind::Octet,
            ArgRef::Short(_) => FieldKind::Short,
            ArgRef::Long(_) => FieldKind::Long,
            ArgRef::LongLong(_) => FieldKind::LongLong,
            ArgRef::ShortStr(_) => FieldKind::ShortStr,
            ArgRef::LongStr(_) => FieldKind::LongStr,
            ArgRef::Table(_) => FieldKind::Table,
        }
    }

    /// The bit, if it is one.
    pub fn as_bit(self) -> Option<bool>
        ensures { result ≡ bit_of (arg_ref_view self.entry) }
    {
        if let ArgRef::Bit(holds) = self {
            return Some(holds);
        }
        None
    }

    /// The number of eight bits, if it is one.
    pub fn as_octet(self) -> Option<u8>
        ensures { result ≡ octet_of (arg_ref_view self.entry) }
    {
        if let ArgRef::Octet(number) = self {
            return Some(number);
        }
        None
    }

    /// The number of 16 bits, if it is one.
    pub fn as_short(self) -> Option<u16>
        ensures { result ≡ short_of (arg_ref_view self.entry) }
    {
        if let ArgRef::Short(number) = self {
            return Some(number);
        }
        None
    }

    /// The number of 32 bits, if it is one.
    pub fn as_long(self) -> Option<u32>
        ensures { result ≡ long_of (arg_ref_view self.entry) }
    {
        if let ArgRef::Long(number) = self {
            return Some(number);
        }
        None
    }

    /// The number of 64 bits, if it is one.
    pub fn as_long_long(self) -> Option<u64>
        ensures { result ≡ long_long_of (arg_ref_view self.entry) }
    {
        if let ArgRef::LongLong(number) = self {
            return Some(number);
        }
        None
    }

    /// The octets of the short string, if it is one.
    pub fn as_short_str(self) -> Option<&'a [u8]>
        ensures { MatchOption result (short_string_of (arg_ref_view self.entry) ≡ None)
            (λ text. short_string_of (arg_ref_view self.entry) ≡ Some text.now) }
    {
        if let ArgRef::ShortStr(text) = self {
            return Some(text);
        }
        None
    }

    /// The octets of the long string, if it is one.
    pub fn as_long_str(self) -> Option<&'a [u8]>
        ensures { MatchOption result (long_string_of (arg_ref_view self.entry) ≡ None)
            (λ text. long_string_of (arg_ref_view self.entry) ≡ Some text.now) }
    {
        if let ArgRef::LongStr(text) = self {
            return Some(text);
        }
        None
    }

    /// The table, if it is one.
    pub fn as_table(self) -> Option<TableRef<'a>>
        ensures { MatchOption result (table_of (arg_ref_view self.entry) ≡ None)
            (λ t. table_of (arg_ref_view self.entry) ≡ Some (table_ref_view t)) }
    {
        if let ArgRef::Table(table) = self {
            return Some(table);
        }
        None
    }
}
