//! What is lent, built with memory of its own: of octets that were checked, so that it fails for memory alone.

ghost use Rattle.std.specs.Prelude.{◌≡◌, ◌++◌, ◌∷◌, [], ◌-◌, ◌≤◌, ◌<◌, ℕ, length, drop, map, IfOk, IfSome, OnOk, None, Ok, vec_len, vec_capacity};
ghost use Rattle.amqp_value.specs.Lent.{value_ref_view};
ghost use Rattle.amqp_value.specs.Reading.{AddsOne, width_of, scalar_of, named, value_at};
ghost use Rattle.amqp_value.specs.Values.{scalar};
ghost use Rattle.amqp_value.specs.View.{view, named_view};
ghost use Rattle.amqp_value.specs.Whole.{items_encoded, pairs_encoded, AreItems, ArePairs, BeginsPair};

use crate::fault::OutOfMemory;
use crate::octets::Octets;
use crate::short_str::ShortStr;
use crate::split::{split_counted, split_name, split_tag, split_value};
use crate::tag::{ScalarTag, Tag};
use crate::value_ref::ValueRef;
use crate::values::Value;
use byteorder::{BigEndian, ByteOrder};
use std::alloc::Global;

/// How many octets a pair of a table, and a value of an array, are expected to have. Room for as many as the
/// octets then hold is made at once, but for no more than a few, since a long value looks like many. What is left over
/// is given back, so a table takes the memory of its pairs and values and no more.
pub const EXPECTED_PAIR: usize = 12;

const EXPECTED_VALUE: usize = 8;

pub const FEW: usize = 8;

/// The value of fixed size that the octets after its tag are.
#[inline(always)]
fn scalar_value(tag: ScalarTag, field: &[u8]) -> Value
    requires { length field.now ≡ width_of tag }
    ensures { view result ≡ scalar (scalar_of tag field.now) }
{
    match tag {
        ScalarTag::Boolean => Value::Boolean(field[0] != 0),
        ScalarTag::ShortShortInt => Value::ShortShortInt(field[0].cast_signed()),
        ScalarTag::ShortShortUint => Value::ShortShortUint(field[0]),
        ScalarTag::ErrataShortInt => Value::ErrataShortInt(BigEndian::read_i16(field)),
        ScalarTag::ShortInt => Value::ShortInt(BigEndian::read_i16(field)),
        ScalarTag::ShortUint => Value::ShortUint(BigEndian::read_u16(field)),
        ScalarTag::LongInt => Value::LongInt(BigEndian::read_i32(field)),
        ScalarTag::LongUint => Value::LongUint(BigEndian::read_u32(field)),
        ScalarTag::ErrataLongLongInt => Value::ErrataLongLongInt(BigEndian::read_i64(field)),
        ScalarTag::LongLongInt => Value::LongLongInt(BigEndian::read_i64(field)),
        ScalarTag::Float => {
            let mut octets = [0; 4];
            octets.copy_from_slice(field);
            Value::Float(octets)
        }
        ScalarTag::Double => {
            let mut octets = [0; 8];
            octets.copy_from_slice(field);
            Value::Double(octets)
        }
        ScalarTag::Decimal => Value::Decimal {
            scale: field[0],
            number: BigEndian::read_u32(&field[1..]),
        },
        ScalarTag::Timestamp => Value::Timestamp(BigEndian::read_u64(field)),
        ScalarTag::Void => Value::Void,
    }
}

/// Adds a pair whose value is of fixed size, where there is room for it.
#[inline(always)]
pub fn push_one(pairs: &mut Vec<(ShortStr, Value)>, name: ShortStr, tag: ScalarTag, field: &[u8])
    requires room { vec_len pairs.old < vec_capacity pairs.old }
    requires width { length field.now ≡ width_of tag }
    ensures { map named_view pairs.new.items ≡ map named_view pairs.old.items
        ++ (name, scalar (scalar_of tag field.now)) ∷ [] }
{
    pairs.push_reserved((name, scalar_value(tag, field)));
}

/// Adds a pair whose value is of fixed size, where there is room for it.
///
/// Each kind is added by a call of its own: values of all kinds that meet in one place are put together octet by octet.
#[inline(always)]
fn push_scalar(pairs: &mut Vec<(ShortStr, Value)>, name: ShortStr, tag: ScalarTag, field: &[u8])
    requires room { vec_len pairs.old < vec_capacity pairs.old }
    requires width { length field.now ≡ width_of tag }
    ensures { map named_view pairs.new.items ≡ map named_view pairs.old.items
        ++ (name, scalar (scalar_of tag field.now)) ∷ [] }
{
    match tag {
        ScalarTag::Boolean => push_one(pairs, name, ScalarTag::Boolean, field),
        ScalarTag::ShortShortInt => push_one(pairs, name, ScalarTag::ShortShortInt, field),
        ScalarTag::ShortShortUint => push_one(pairs, name, ScalarTag::ShortShortUint, field),
        ScalarTag::ErrataShortInt => push_one(pairs, name, ScalarTag::ErrataShortInt, field),
        ScalarTag::ShortInt => push_one(pairs, name, ScalarTag::ShortInt, field),
        ScalarTag::ShortUint => push_one(pairs, name, ScalarTag::ShortUint, field),
        ScalarTag::LongInt => push_one(pairs, name, ScalarTag::LongInt, field),
        ScalarTag::LongUint => push_one(pairs, name, ScalarTag::LongUint, field),
        ScalarTag::ErrataLongLongInt => push_one(pairs, name, ScalarTag::ErrataLongLongInt, field),
        ScalarTag::LongLongInt => push_one(pairs, name, ScalarTag::LongLongInt, field),
        ScalarTag::Float => push_one(pairs, name, ScalarTag::Float, field),
        ScalarTag::Double => push_one(pairs, name, ScalarTag::Double, field),
        ScalarTag::Decimal => push_one(pairs, name, ScalarTag::Decimal, field),
        ScalarTag::Timestamp => push_one(pairs, name, ScalarTag::Timestamp, field),
        ScalarTag::Void => push_one(pairs, name, ScalarTag::Void, field),
    }
}

/// Builds a pair that takes no memory, and adds it: the name is short, the value has a fixed size or is a short text,
/// and there is room among the pairs. The answer is the octets after it.
///
/// Most pairs are such: [`own_pair`] builds what this one leaves. What the octets are known to hold is not looked at: a
/// whole name with a whole value, whose tag is one of the nineteen.
#[inline(always)]
fn own_short_pair<'a>(pairs: &mut Vec<(ShortStr, Value)>, octets: &'a [u8]) -> Option<&'a [u8]>
    requires { BeginsPair octets.now }
    ensures added { IfSome result (λ rest. AddsOne (map named_view pairs.old.items) (named (value_at 31) 0 octets.now)
        rest.now (map named_view pairs.new.items)) }
    ensures kept { result ≡ None → pairs.new.items ≡ pairs.old.items }
{
    if pairs.len() == pairs.capacity() {
        return None;
    }
    let (name, field) = split_name(octets);
    let name = ShortStr::words(&octets[1..], name.len())?;
    let (tag, rest) = split_tag(field);
    match tag {
        Tag::Fixed(tag) => {
            let (value, after) = rest.split_at(tag.width());
            push_scalar(pairs, name, tag, value);
            Some(after)
        }
        Tag::LongString => {
            let (text, after) = split_counted(rest);
            let text = Octets::words(&rest[4..], text.len())?;
            pairs.push_reserved((name, Value::LongString(text)));
            Some(after)
        }
        Tag::ByteArray | Tag::Array | Tag::Table => None,
    }
}

/// Builds a pair of a table, and adds it. The answer is how many octets are left after it.
#[inline(never)]
#[cycle(own)]
pub fn own_pair(
    alloc: Global,
    pairs: &mut Vec<(ShortStr, Value)>,
    octets: &[u8],
) -> Result<usize, OutOfMemory>
    requires { BeginsPair octets.now }
    ensures added { IfOk result (λ left. AddsOne (map named_view pairs.old.items) (named (value_at 31) 0 octets.now)
        (drop (length octets.now - left) octets.now) (map named_view pairs.new.items)) }
    ensures within { IfOk result (λ left. left ≤ length octets.now) }
{
    let (name, field) = split_name(octets);
    let (value, after) = split_value(field);
    let name = ShortStr::prefix(alloc, name, name.len())?;
    let value = own_value(alloc, value)?;
    pairs.push((name, value))?;
    Ok(after.len())
}

/// Builds the pairs of a table, whose octets these are, in the place of what was there. The answer is whether all of
/// them are known to lie in place, so that none has memory of its own.
///
/// After a fault, what was there may still stand there, or some of the new pairs.
#[cycle(own)]
pub fn fill_pairs(
    alloc: Global,
    pairs: &mut Vec<(ShortStr, Value)>,
    body: &[u8],
) -> Result<bool, OutOfMemory>
    requires { ArePairs body.now }
    ensures { OnOk result (map named_view pairs.new.items ≡ pairs_encoded body.now) }
{
    *pairs = Vec::with_capacity(alloc, body.len().div_ceil(EXPECTED_PAIR).min(FEW))?;
    let mut rest = body;
    let mut in_place = true;
    while !rest.is_empty() {
        rest = match own_short_pair(pairs, rest) {
            Some(after) => after,
            None => {
                in_place = false;
                let left = own_pair(alloc, pairs, rest)?;
                &rest[rest.len() - left..]
            }
        };
    }
    pairs.shrink_to_fit();
    Ok(in_place)
}

/// The pairs of a table, whose octets these are.
#[cycle(own)]
fn own_pairs(alloc: Global, body: &[u8]) -> Result<Vec<(ShortStr, Value)>, OutOfMemory>
    requires { ArePairs body.now }
    ensures { IfOk result (λ pairs. map named_view pairs.items ≡ pairs_encoded body.now) }
{
    let mut pairs = Vec::new(alloc);
    fill_pairs(alloc, &mut pairs, body)?;
    Ok(pairs)
}

/// The values of an array, whose octets these are.
#[cycle(own)]
pub fn own_items(alloc: Global, body: &[u8]) -> Result<Vec<Value>, OutOfMemory>
    requires { AreItems body.now }
    ensures { IfOk result (λ values. map view values.items ≡ items_encoded body.now) }
{
    let mut values = Vec::with_capacity(alloc, body.len().div_ceil(EXPECTED_VALUE).min(FEW))?;
    let mut rest = body;
    while !rest.is_empty() {
        let (value, after) = split_value(rest);
        values.push(own_value(alloc, value)?)?;
        rest = after;
    }
    values.shrink_to_fit();
    Ok(values)
}

/// The same value.
#[cycle(own)]
pub fn own_value(alloc: Global, value: ValueRef<'_>) -> Result<Value, OutOfMemory>
    ensures { IfOk result (λ v. view v ≡ value_ref_view value.entry) }
{
    let owned = match value {
        ValueRef::Boolean(holds) => Value::Boolean(holds),
        ValueRef::ShortShortInt(number) => Value::ShortShortInt(number),
        ValueRef::ShortShortUint(number) => Value::ShortShortUint(number),
        ValueRef::ErrataShortInt(number) => Value::ErrataShortInt(number),
        ValueRef::ShortInt(number) => Value::ShortInt(number),
        ValueRef::ShortUint(number) => Value::ShortUint(number),
        ValueRef::LongInt(number) => Value::LongInt(number),
        ValueRef::LongUint(number) => Value::LongUint(number),
        ValueRef::ErrataLongLongInt(number) => Value::ErrataLongLongInt(number),
        ValueRef::LongLongInt(number) => Value::LongLongInt(number),
        ValueRef::Float(octets) => Value::Float(octets),
        ValueRef::Double(octets) => Value::Double(octets),
        ValueRef::Decimal { scale, number } => Value::Decimal { scale, number },
        ValueRef::Timestamp(number) => Value::Timestamp(number),
        ValueRef::Void => Value::Void,
        ValueRef::LongString(text) => Value::LongString(Octets::new(alloc, text)?),
        ValueRef::ByteArray(octets) => Value::ByteArray(Octets::new(alloc, octets)?),
        ValueRef::Array(values) => Value::Array(own_items(alloc, values.body())?),
        ValueRef::Table(table) => Value::Table(own_pairs(alloc, table.body())?),
    };
    Ok(owned)
}
