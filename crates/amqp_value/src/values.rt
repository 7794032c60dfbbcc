//! Field values.

ghost use Rattle.std.specs.Prelude.{◌≡◌, ◌≤◌, ◌↔◌, IsTrue, IfOk};
ghost use Rattle.amqp_value.specs.Values.{depth, pairs_depth, long_string, no_pairs};
ghost use Rattle.amqp_value.specs.View.{view, items_view, pairs_view};

use crate::fault::OutOfMemory;
use crate::octets::Octets;
use crate::short_str::ShortStr;
use std::alloc::Global;
use std::mem::forget;

/// A field value, one variant for each tag. A value that is written again keeps its tag.
#[derive(Debug, Drop, PartialEq, Eq)]
pub enum Value {
    /// `t`: one octet, 0 where it doesn't hold.
    Boolean(bool),
    /// `b`
    ShortShortInt(i8),
    /// `B`
    ShortShortUint(u8),
    /// `s`: the standard's short string, which the errata that RabbitMQ published made a signed number.
    ErrataShortInt(i16),
    /// `U`
    ShortInt(i16),
    /// `u`
    ShortUint(u16),
    /// `I`
    LongInt(i32),
    /// `i`
    LongUint(u32),
    /// `l`: unsigned in the standard, signed after the same errata.
    ErrataLongLongInt(i64),
    /// `L`
    LongLongInt(i64),
    /// `f`: four octets, unread.
    Float([u8; 4]),
    /// `d`: eight octets, unread.
    Double([u8; 8]),
    /// `D`: a scale octet and 32 bits, unread.
    Decimal { scale: u8, number: u32 },
    /// `T`: 64 bits, unread.
    Timestamp(u64),
    /// `V`: no octets.
    Void,
    /// `S`: any octets, after a count of 32 bits.
    LongString(Octets),
    /// `x`: any octets, after a count of 32 bits.
    ByteArray(Octets),
    /// `A`: tags with values, after a count of 32 bits.
    Array(Vec<Value>),
    /// `F`: names and tags with values, after a count of 32 bits.
    Table(Vec<(ShortStr, Value)>),
}

impl Value {
    /// A long string of this text.
    pub fn string(alloc: Global, text: &str) -> Result<Value, OutOfMemory>
        ensures { IfOk result (λ v. view v ≡ long_string text.now) }
    {
        Ok(Value::LongString(Octets::new(alloc, text.as_bytes())?))
    }

    /// An equal value.
    pub fn copy(&self) -> Result<Value, OutOfMemory>
        ensures { IfOk result (λ v. view v ≡ view self.now) }
    {
        copy_value(self)
    }
}

#[cycle(copy)]
fn copy_value(value: &Value) -> Result<Value, OutOfMemory>
    ensures { IfOk result (λ v. view v ≡ view value.now) }
{
    let copied = match value {
        Value::Boolean(holds) => Value::Boolean(*holds),
        Value::ShortShortInt(number) => Value::ShortShortInt(*number),
        Value::ShortShortUint(number) => Value::ShortShortUint(*number),
        Value::ErrataShortInt(number) => Value::ErrataShortInt(*number),
        Value::ShortInt(number) => Value::ShortInt(*number),
        Value::ShortUint(number) => Value::ShortUint(*number),
        Value::LongInt(number) => Value::LongInt(*number),
        Value::LongUint(number) => Value::LongUint(*number),
        Value::ErrataLongLongInt(number) => Value::ErrataLongLongInt(*number),
        Value::LongLongInt(number) => Value::LongLongInt(*number),
        Value::Float(octets) => Value::Float(*octets),
        Value::Double(octets) => Value::Double(*octets),
        Value::Decimal { scale, number } => Value::Decimal {
            scale: *scale,
            number: *number,
        },
        Value::Timestamp(number) => Value::Timestamp(*number),
        Value::Void => Value::Void,
        Value::LongString(text) => Value::LongString(text.copy()?),
        Value::ByteArray(octets) => Value::ByteArray(octets.copy()?),
        Value::Array(values) => Value::Array(copy_items(values)?),
        Value::Table(pairs) => Value::Table(copy_pairs(pairs)?),
    };
    Ok(copied)
}

#[cycle(copy)]
fn copy_items(values: &Vec<Value>) -> Result<Vec<Value>, OutOfMemory>
    ensures { IfOk result (λ v. items_view v.items ≡ items_view values.now.items) }
{
    let mut copies = Vec::with_capacity(*values.allocator(), values.len())?;
    for value in values {
        copies.push(copy_value(value)?)?;
    }
    Ok(copies)
}

/// Equal pairs in the same order.
#[cycle(copy)]
pub(crate) fn copy_pairs(
    pairs: &Vec<(ShortStr, Value)>,
) -> Result<Vec<(ShortStr, Value)>, OutOfMemory>
    ensures { IfOk result (λ v. pairs_view v.items ≡ pairs_view pairs.now.items) }
{
    let mut copies = Vec::with_capacity(*pairs.allocator(), pairs.len())?;
    for pair in pairs {
        let name = pair.0.copy()?;
        copies.push((name, copy_value(&pair.1)?))?;
    }
    Ok(copies)
}

/// Whether a value lies in place, so that no memory is to be given back for it.
#[inline(always)]
fn is_in_place(value: &Value) -> bool {
    match value {
        Value::LongString(text) => text.are_in_place(),
        Value::ByteArray(octets) => octets.are_in_place(),
        Value::Array(_) | Value::Table(_) => false,
        Value::Boolean(_)
        | Value::ShortShortInt(_)
        | Value::ShortShortUint(_)
        | Value::ErrataShortInt(_)
        | Value::ShortInt(_)
        | Value::ShortUint(_)
        | Value::LongInt(_)
        | Value::LongUint(_)
        | Value::ErrataLongLongInt(_)
        | Value::LongLongInt(_)
        | Value::Float(_)
        | Value::Double(_)
        | Value::Decimal { .. }
        | Value::Timestamp(_)
        | Value::Void => true,
    }
}

/// Drops pairs, the last first. Each is looked at where it lies: what has no memory to give back, as most haven't,
/// isn't read to be dropped.
#[inline(always)]
pub(crate) fn drop_pairs(mut pairs: Vec<(ShortStr, Value)>) {
    while let Some((name, value)) = pairs.last() {
        if name.is_in_place() && is_in_place(value) {
            forget(pairs.pop());
        } else {
            drop(pairs.pop());
        }
    }
    pairs.destroy_empty();
}

/// Drops pairs of which none has memory of its own: their own room alone is given back.
#[inline(always)]
pub(crate) fn forget_pairs(mut pairs: Vec<(ShortStr, Value)>) {
    while let Some(pair) = pairs.pop() {
        forget(pair);
    }
    pairs.destroy_empty();
}

/// Takes all pairs out: where memory ran out before the last of them was built.
#[cold]
#[inline(never)]
pub(crate) fn clear_pairs(pairs: &mut Vec<(ShortStr, Value)>)
    ensures { pairs_view pairs.new.items ≡ no_pairs }
{
    pairs.clear();
}

/// Whether arrays and tables nest at most so many levels deep in a value, which is one level itself
/// where it is an array or a table. It goes no deeper than that.
pub(crate) fn nests_within(value: &Value, levels: usize) -> bool
    ensures { IsTrue result ↔ (depth (view value.now) ≤ levels) }
{
    match value {
        Value::Array(values) => {
            let Some(inner) = levels.checked_sub(1) else {
                return false;
            };
            for item in values {
                if !nests_within(item, inner) {
                    return false;
                }
            }
            true
        }
        Value::Table(pairs) => {
            let Some(inner) = levels.checked_sub(1) else {
                return false;
            };
            for pair in pairs {
                if !nests_within(&pair.1, inner) {
                    return false;
                }
            }
            true
        }
        _ => true,
    }
}

/// The same of each value of pairs.
pub(crate) fn pairs_nest_within(pairs: &[(ShortStr, Value)], levels: usize) -> bool
    ensures { IsTrue result ↔ (pairs_depth (pairs_view pairs.now) ≤ levels) }
{
    for pair in pairs {
        if !nests_within(&pair.1, levels) {
            return false;
        }
    }
    true
}
