//! Checking a table at the start of octets: the grammar, with the first fault, and no memory.

ghost use Rattle.std.specs.Prelude.{◌≡◌, ◌-◌, ◌≤◌, ℕ, length, drop, IfOk, IfSome, Ok};
ghost use Rattle.amqp_value.specs.Checking.{Equals, skipped, measured, fault_in};
ghost use Rattle.amqp_value.specs.ChecksTable.{ChecksTable};
ghost use Rattle.amqp_value.specs.Reading.{elements, named, value_at, table_at};

use crate::fault::{ValueFault, ValueFaultKind};
use crate::fields::{counted_octets, fault_here, name_octets, prefix};
use crate::tables::MAX_DEPTH;
use crate::tag::{Tag, tag_from};
use byteorder::{BigEndian, ByteOrder};

/// Checks a tag with its value. The answer is the octets after it.
#[inline(always)]
#[cycle(check)]
#[tactic(auto, unfolding(crate::specs::Reading::value_at, crate::specs::Reading::tagged, crate::specs::Reading::after_tag))]
fn check_value(octets: &[u8], end: usize, levels: usize) -> Result<&[u8], ValueFault>
    requires { length octets.now ≤ end }
    ensures { Equals (λ x. x.now) result (skipped (value_at levels end octets.now)) }
{
    let Some((octet, rest)) = octets.split_first() else {
        return Err(fault_here(octets, end, ValueFaultKind::PassesItsEnd));
    };
    let Some(tag) = tag_from(*octet) else {
        return Err(fault_here(octets, end, ValueFaultKind::UnknownTag));
    };
    match tag {
        Tag::Fixed(tag) => {
            let (_, after) = prefix(rest, tag.width(), end)?;
            Ok(after)
        }
        Tag::LongString => {
            let (_, after) = counted_octets(rest, end)?;
            Ok(after)
        }
        Tag::ByteArray => {
            let (_, after) = counted_octets(rest, end)?;
            Ok(after)
        }
        Tag::Array => {
            let Some(inner) = levels.checked_sub(1) else {
                return Err(fault_here(octets, end, ValueFaultKind::TooDeep));
            };
            let (body, after) = counted_octets(rest, end)?;
            check_items(body, end - after.len(), inner)?;
            Ok(after)
        }
        Tag::Table => {
            let Some(inner) = levels.checked_sub(1) else {
                return Err(fault_here(octets, end, ValueFaultKind::TooDeep));
            };
            let (body, after) = counted_octets(rest, end)?;
            check_pairs(body, end - after.len(), inner)?;
            Ok(after)
        }
    }
}

/// Checks the values of an array, whose octets these are.
#[cycle(check)]
pub fn check_items(body: &[u8], end: usize, levels: usize) -> Result<(), ValueFault>
    requires { length body.now ≤ end }
    ensures { fault_in result ≡ fault_in (elements (value_at levels) end body.now) }
{
    let mut rest = body;
    while !rest.is_empty() {
        rest = check_value(rest, end, levels)?;
    }
    Ok(())
}

/// The octets after a value that lies whole in these, and is of fixed size or a long string.
#[inline(always)]
fn past_plain_value(octets: &[u8]) -> Option<&[u8]>
    ensures { IfSome result (λ after. (levels end : ℕ) → skipped (value_at levels end octets.now) ≡ Ok after.now) }
{
    let (octet, rest) = octets.split_first()?;
    match tag_from(*octet)? {
        Tag::Fixed(tag) => {
            let width = tag.width();
            if rest.len() < width {
                return None;
            }
            Some(&rest[width..])
        }
        Tag::LongString => {
            if rest.len() < 4 {
                return None;
            }
            let count = BigEndian::read_u32(rest) as usize;
            let text = &rest[4..];
            if text.len() < count {
                return None;
            }
            Some(&text[count..])
        }
        _ => None,
    }
}

/// The octets after a pair that lies whole in these, and whose value is of fixed size or a long string.
///
/// Most pairs are such: [`check_pair`] checks what this leaves, and finds the faults.
#[inline(always)]
fn past_plain_pair(octets: &[u8]) -> Option<&[u8]>
    ensures { IfSome result (λ after. (levels end : ℕ)
        → skipped (named (value_at levels) end octets.now) ≡ Ok after.now) }
{
    let (length, after) = octets.split_first()?;
    let length = usize::from(*length);
    if after.len() < length {
        return None;
    }
    past_plain_value(&after[length..])
}

/// Checks a name and the value under it. The answer is how many octets are left after both.
#[inline(never)]
#[cycle(check)]
pub fn check_pair(octets: &[u8], end: usize, levels: usize) -> Result<usize, ValueFault>
    requires { length octets.now ≤ end }
    ensures checked { Equals (λ left. drop (length octets.now - left) octets.now) result
        (skipped (named (value_at levels) end octets.now)) }
    ensures within { IfOk result (λ left. left ≤ length octets.now) }
{
    let (_, field) = name_octets(octets, end)?;
    let after = check_value(field, end, levels)?;
    Ok(after.len())
}

/// Checks the pairs of a table, whose octets these are.
#[cycle(check)]
fn check_pairs(body: &[u8], end: usize, levels: usize) -> Result<(), ValueFault>
    requires { length body.now ≤ end }
    ensures { fault_in result ≡ fault_in (elements (named (value_at levels)) end body.now) }
{
    let mut rest = body;
    while !rest.is_empty() {
        rest = match past_plain_pair(rest) {
            Some(after) => after,
            None => {
                let left = check_pair(rest, end, levels)?;
                &rest[rest.len() - left..]
            }
        };
    }
    Ok(())
}

/// The size in octets of the table that a prefix of the octets encodes: a count of 32 bits, and that many octets of
/// pairs. It reads what [`read_table`](crate::read_table) reads, takes no memory, and reports the same faults.
///
/// A fault names the first element that can't be read, in order: the outer count, a name with its length octet, a tag
/// octet, the value after a tag with its count where it has one. Ends is reported at 0 only, where the octets have
/// fewer than four, or fewer than the outer count says; inside, what doesn't fit the table or the array round it passes
/// its end. UnknownTag and TooDeep are reported at the tag.
pub fn check_table(octets: &[u8]) -> Result<usize, ValueFault>
    ensures { ChecksTable octets.now result }
{
    table_size(octets)
}

#[inline(always)]
#[tactic(auto, unfolding(crate::specs::Reading::table_at))]
fn table_size(octets: &[u8]) -> Result<usize, ValueFault>
    ensures { result ≡ measured (table_at octets.now) }
{
    if octets.len() < 4 {
        return Err(ValueFault {
            at: 0,
            kind: ValueFaultKind::Ends,
        });
    }
    let (count, rest) = octets.split_at(4);
    let count = BigEndian::read_u32(count) as usize;
    if rest.len() < count {
        return Err(ValueFault {
            at: 0,
            kind: ValueFaultKind::Ends,
        });
    }
    check_pairs(&rest[..count], 4 + count, MAX_DEPTH - 1)?;
    Ok(4 + count)
}
