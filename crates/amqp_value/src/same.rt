//! Whether values that are lent are the same.

ghost use Rattle.std.specs.Prelude.{◌≡◌};
ghost use Rattle.amqp_value.specs.Same.{same_datum, same_items as alike_items, same_pairs as alike_pairs};
ghost use Rattle.amqp_value.specs.Lent.{value_ref_view};
ghost use Rattle.amqp_value.specs.Values.{items_of, pairs_of};
ghost use Rattle.amqp_value.specs.Whole.{items_encoded, pairs_encoded, AreItems, ArePairs};

use crate::array_ref::ArrayRef;
use crate::split::{split_pair, split_value};
use crate::table_ref::TableRef;
use crate::value_ref::ValueRef;

/// Whether two values have one tag, and the same content.
#[cycle(same)]
pub fn same_values(value: ValueRef<'_>, other: ValueRef<'_>) -> bool
    ensures { result ≡ same_datum (value_ref_view value.entry) (value_ref_view other.entry) }
{
    match value {
        ValueRef::Boolean(held) => matches!(other, ValueRef::Boolean(holds) if holds == held),
        ValueRef::ShortShortInt(held) => matches!(other, ValueRef::ShortShortInt(n) if n == held),
        ValueRef::ShortShortUint(held) => matches!(other, ValueRef::ShortShortUint(n) if n == held),
        ValueRef::ErrataShortInt(held) => matches!(other, ValueRef::ErrataShortInt(n) if n == held),
        ValueRef::ShortInt(held) => matches!(other, ValueRef::ShortInt(n) if n == held),
        ValueRef::ShortUint(held) => matches!(other, ValueRef::ShortUint(n) if n == held),
        ValueRef::LongInt(held) => matches!(other, ValueRef::LongInt(n) if n == held),
        ValueRef::LongUint(held) => matches!(other, ValueRef::LongUint(n) if n == held),
        ValueRef::ErrataLongLongInt(held) =>
            matches!(other, ValueRef::ErrataLongLongInt(n) if n == held),
        ValueRef::LongLongInt(held) => matches!(other, ValueRef::LongLongInt(n) if n == held),
        ValueRef::Float(held) => matches!(other, ValueRef::Float(octets) if octets == held),
        ValueRef::Double(held) => matches!(other, ValueRef::Double(octets) if octets == held),
        ValueRef::Decimal { scale, number } =>
            matches!(other, ValueRef::Decimal { scale: digits, number: n } if digits == scale && n == number),
        ValueRef::Timestamp(held) => matches!(other, ValueRef::Timestamp(n) if n == held),
        ValueRef::Void => matches!(other, ValueRef::Void),
        ValueRef::LongString(held) => matches!(other, ValueRef::LongString(text) if text == held),
        ValueRef::ByteArray(held) => matches!(other, ValueRef::ByteArray(octets) if octets == held),
        ValueRef::Array(held) =>
            matches!(other, ValueRef::Array(values) if same_items(held.body(), values.body())),
        ValueRef::Table(held) =>
            matches!(other, ValueRef::Table(table) if same_pairs(held.body(), table.body())),
    }
}

/// Whether two arrays, whose octets these are, have the same values.
#[cycle(same)]
pub fn same_items(body: &[u8], other: &[u8]) -> bool
    requires body { AreItems body.now }
    requires other { AreItems other.now }
    ensures { result ≡ alike_items (items_of (items_encoded body.now)) (items_of (items_encoded other.now)) }
{
    let mut rest = body;
    let mut beside = other;
    while !rest.is_empty() {
        if beside.is_empty() {
            return false;
        }
        let (value, after) = split_value(rest);
        let (held, behind) = split_value(beside);
        if !same_values(value, held) {
            return false;
        }
        rest = after;
        beside = behind;
    }
    beside.is_empty()
}

/// Whether two tables, whose octets after the count these are, have the same names with the same values.
#[cycle(same)]
pub fn same_pairs(body: &[u8], other: &[u8]) -> bool
    requires body { ArePairs body.now }
    requires other { ArePairs other.now }
    ensures { result ≡ alike_pairs (pairs_of (pairs_encoded body.now)) (pairs_of (pairs_encoded other.now)) }
{
    let mut rest = body;
    let mut beside = other;
    while !rest.is_empty() {
        if beside.is_empty() {
            return false;
        }
        let (name, value, after) = split_pair(rest);
        let (other_name, held, behind) = split_pair(beside);
        if name != other_name || !same_values(value, held) {
            return false;
        }
        rest = after;
        beside = behind;
    }
    beside.is_empty()
}

impl<'a> PartialEq for ValueRef<'a> {
    ghost use Rattle.std.specs.Cmp.{partial_equiv_from_equiv, on_equiv};
    ghost use Rattle.std.specs.Ordering.{on};
    ghost use Rattle.amqp_value.specs.Same.{same_datum};
    ghost use Rattle.amqp_value.specs.Lent.{value_ref_view};
    ghost use Rattle.amqp_value.specs.Equality.{datum_equiv};

    ghost eq = { on value_ref_view same_datum };

    ghost laws = { partial_equiv_from_equiv (on_equiv value_ref_view datum_equiv) };

    /// Whether they have one tag and the same content, however it is encoded.
    fn eq(&self, other: &ValueRef<'a>) -> bool {
        same_values(*self, *other)
    }
}

impl<'a> Eq for ValueRef<'a> {
    ghost use Rattle.std.specs.Cmp.{on_equiv};
    ghost use Rattle.amqp_value.specs.Lent.{value_ref_view};
    ghost use Rattle.amqp_value.specs.Equality.{datum_equiv};

    ghost laws = { on_equiv value_ref_view datum_equiv };
}

impl<'a> PartialEq for ArrayRef<'a> {
    ghost use Rattle.std.specs.Cmp.{partial_equiv_from_equiv, on_equiv};
    ghost use Rattle.std.specs.Ordering.{on};
    ghost use Rattle.amqp_value.specs.Same.{same_items as alike_items};
    ghost use Rattle.amqp_value.specs.Lent.{array_ref_view};
    ghost use Rattle.amqp_value.specs.Equality.{items_equiv};

    ghost eq = { on array_ref_view alike_items };

    ghost laws = { partial_equiv_from_equiv (on_equiv array_ref_view items_equiv) };

    /// Whether they have the same values in the same order, however they are encoded.
    fn eq(&self, other: &ArrayRef<'a>) -> bool {
        same_items(self.body(), other.body())
    }
}

impl<'a> Eq for ArrayRef<'a> {
    ghost use Rattle.std.specs.Cmp.{on_equiv};
    ghost use Rattle.amqp_value.specs.Lent.{array_ref_view};
    ghost use Rattle.amqp_value.specs.Equality.{items_equiv};

    ghost laws = { on_equiv array_ref_view items_equiv };
}

impl<'a> PartialEq for TableRef<'a> {
    ghost use Rattle.std.specs.Cmp.{partial_equiv_from_equiv, on_equiv};
    ghost use Rattle.std.specs.Ordering.{on};
    ghost use Rattle.amqp_value.specs.Same.{same_pairs as alike_pairs};
    ghost use Rattle.amqp_value.specs.Lent.{table_ref_view};
    ghost use Rattle.amqp_value.specs.Equality.{pairs_equiv};

    ghost eq = { on table_ref_view alike_pairs };

    ghost laws = { partial_equiv_from_equiv (on_equiv table_ref_view pairs_equiv) };

    /// Whether they have the same names with the same values in the same order, however they are encoded.
    fn eq(&self, other: &TableRef<'a>) -> bool {
        same_pairs(self.body(), other.body())
    }
}

impl<'a> Eq for TableRef<'a> {
    ghost use Rattle.std.specs.Cmp.{on_equiv};
    ghost use Rattle.amqp_value.specs.Lent.{table_ref_view};
    ghost use Rattle.amqp_value.specs.Equality.{pairs_equiv};

    ghost laws = { on_equiv table_ref_view pairs_equiv };
}
