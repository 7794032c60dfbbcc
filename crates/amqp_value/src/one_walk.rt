//! Reading a table of octets of which nothing is known: each pair is checked and built before the next.

ghost use Rattle.std.specs.Prelude.{◌≡◌, ◌++◌, ◌∷◌, [], ◌+◌, ◌-◌, ◌≤◌, ◌<◌, ℕ, length, take, drop, map, IfSome, None, Ok, vec_len, vec_capacity};
ghost use Rattle.byteorder.specs.Endian.{big_number};
ghost use Rattle.amqp_value.specs.Reading.{AddsOne, width_of, scalar_of, elements, named, value_at, table_at};
ghost use Rattle.amqp_value.specs.Values.{scalar};
ghost use Rattle.amqp_value.specs.View.{named_view, pairs_view};

use crate::check::check_pair;
use crate::octets::Octets;
use crate::own::{EXPECTED_PAIR, FEW, own_pair, push_one};
use crate::short_str::ShortStr;
use crate::tables::MAX_DEPTH;
use crate::tag::{ScalarTag, Tag, tag_from};
use crate::values::Value;
use byteorder::{BigEndian, ByteOrder};
use std::alloc::Global;

/// Adds a pair whose value is of fixed size, where it lies whole in the octets after the tag. The answer is the octets
/// after it.
#[inline(always)]
fn read_one<'a>(
    pairs: &mut Vec<(ShortStr, Value)>,
    name: ShortStr,
    tag: ScalarTag,
    rest: &'a [u8],
) -> Option<&'a [u8]>
    requires { vec_len pairs.old < vec_capacity pairs.old }
    ensures within { IfSome result (λ after. width_of tag ≤ length rest.now) }
    ensures after { IfSome result (λ after. after.now ≡ drop (width_of tag) rest.now) }
    ensures added { IfSome result (λ after. map named_view pairs.new.items ≡ map named_view pairs.old.items
        ++ (name, scalar (scalar_of tag (take (width_of tag) rest.now))) ∷ []) }
    ensures kept { result ≡ None → pairs.new.items ≡ pairs.old.items }
{
    if rest.len() < tag.width() {
        return None;
    }
    let (value, after) = rest.split_at(tag.width());
    push_one(pairs, name, tag, value);
    Some(after)
}

/// Adds a pair whose value is of fixed size, where it lies whole in the octets after the tag. The answer is the octets
/// after it.
///
/// Each kind is read by a call of its own, so that a tag is met by one jump, and the octets left are compared with a
/// constant.
#[inline(always)]
fn read_scalar<'a>(
    pairs: &mut Vec<(ShortStr, Value)>,
    name: ShortStr,
    tag: ScalarTag,
    rest: &'a [u8],
) -> Option<&'a [u8]>
    requires { vec_len pairs.old < vec_capacity pairs.old }
    ensures within { IfSome result (λ after. width_of tag ≤ length rest.now) }
    ensures after { IfSome result (λ after. after.now ≡ drop (width_of tag) rest.now) }
    ensures added { IfSome result (λ after. map named_view pairs.new.items ≡ map named_view pairs.old.items
        ++ (name, scalar (scalar_of tag (take (width_of tag) rest.now))) ∷ []) }
    ensures kept { result ≡ None → pairs.new.items ≡ pairs.old.items }
{
    match tag {
        ScalarTag::Boolean => read_one(pairs, name, ScalarTag::Boolean, rest),
        ScalarTag::ShortShortInt => read_one(pairs, name, ScalarTag::ShortShortInt, rest),
        ScalarTag::ShortShortUint => read_one(pairs, name, ScalarTag::ShortShortUint, rest),
        ScalarTag::ErrataShortInt => read_one(pairs, name, ScalarTag::ErrataShortInt, rest),
        ScalarTag::ShortInt => read_one(pairs, name, ScalarTag::ShortInt, rest),
        ScalarTag::ShortUint => read_one(pairs, name, ScalarTag::ShortUint, rest),
        ScalarTag::LongInt => read_one(pairs, name, ScalarTag::LongInt, rest),
        ScalarTag::LongUint => read_one(pairs, name, ScalarTag::LongUint, rest),
        ScalarTag::ErrataLongLongInt => read_one(pairs, name, ScalarTag::ErrataLongLongInt, rest),
        ScalarTag::LongLongInt => read_one(pairs, name, ScalarTag::LongLongInt, rest),
        ScalarTag::Float => read_one(pairs, name, ScalarTag::Float, rest),
        ScalarTag::Double => read_one(pairs, name, ScalarTag::Double, rest),
        ScalarTag::Decimal => read_one(pairs, name, ScalarTag::Decimal, rest),
        ScalarTag::Timestamp => read_one(pairs, name, ScalarTag::Timestamp, rest),
        ScalarTag::Void => read_one(pairs, name, ScalarTag::Void, rest),
    }
}

/// Reads a pair that takes no memory, and adds it: the name is short, the value has a fixed size or is a short text,
/// both lie whole in the octets, and there is room among the pairs. The answer is the octets after it.
///
/// Most pairs are such: [`read_pair`] reads what this one leaves, and finds what is no pair.
#[inline(always)]
fn read_short_pair<'a>(pairs: &mut Vec<(ShortStr, Value)>, octets: &'a [u8]) -> Option<&'a [u8]>
    ensures added { IfSome result (λ rest. (levels end : ℕ)
        → AddsOne (map named_view pairs.old.items) (named (value_at levels) end octets.now) rest.now
        (map named_view pairs.new.items)) }
    ensures kept { result ≡ None → pairs.new.items ≡ pairs.old.items }
{
    if pairs.len() == pairs.capacity() {
        return None;
    }
    let (length, after) = octets.split_first()?;
    let length = usize::from(*length);
    if after.len() < length {
        return None;
    }
    let name = ShortStr::words(after, length)?;
    let (octet, rest) = after[length..].split_first()?;
    match tag_from(*octet)? {
        Tag::Fixed(tag) => {
            let after = read_scalar(pairs, name, tag, rest)?;
            Some(after)
        }
        Tag::LongString => {
            if rest.len() < 4 {
                return None;
            }
            let count = BigEndian::read_u32(rest) as usize;
            let text = &rest[4..];
            if text.len() < count {
                return None;
            }
            let own = Octets::words(text, count)?;
            pairs.push_reserved((name, Value::LongString(own)));
            Some(&text[count..])
        }
        Tag::ByteArray | Tag::Array | Tag::Table => None,
    }
}

/// Checks a pair, builds it and adds it. The answer is how many octets are left after it.
#[inline(never)]
fn read_pair(alloc: Global, pairs: &mut Vec<(ShortStr, Value)>, octets: &[u8]) -> Option<usize>
    ensures added { IfSome result (λ left. AddsOne (map named_view pairs.old.items) (named (value_at 31) 0 octets.now)
        (drop (length octets.now - left) octets.now) (map named_view pairs.new.items)) }
    ensures within { IfSome result (λ left. left ≤ length octets.now) }
{
    let Ok(_) = check_pair(octets, octets.len(), MAX_DEPTH - 1) else {
        return None;
    };
    let Ok(left) = own_pair(alloc, pairs, octets) else {
        return None;
    };
    Some(left)
}

/// Reads the pairs of a table, whose octets these should be, in the place of what was there. The answer is whether all
/// of them are known to lie in place, so that none has memory of its own.
///
/// Where none is answered, what was there may still stand there, or some of the new pairs.
fn read_pairs(alloc: Global, pairs: &mut Vec<(ShortStr, Value)>, body: &[u8]) -> Option<bool>
    ensures { IfSome result (λ in_place.
        elements (named (value_at 31)) 0 body.now ≡ Ok (map named_view pairs.new.items)) }
{
    let Ok(room) = Vec::with_capacity(alloc, body.len().div_ceil(EXPECTED_PAIR).min(FEW)) else {
        return None;
    };
    *pairs = room;
    let mut rest = body;
    let mut in_place = true;
    while !rest.is_empty() {
        rest = match read_short_pair(pairs, rest) {
            Some(after) => after,
            None => {
                in_place = false;
                let left = read_pair(alloc, pairs, rest)?;
                &rest[rest.len() - left..]
            }
        };
    }
    pairs.shrink_to_fit();
    Some(in_place)
}

/// What the count that octets begin with counts, where so many octets follow it.
#[inline(always)]
fn counted_body(octets: &[u8]) -> Option<&[u8]>
    ensures four { IfSome result (λ body. 4 ≤ length octets.now) }
    ensures count { IfSome result (λ body. length body.now ≡ big_number 4 octets.now) }
    ensures body { IfSome result (λ body. body.now ≡ take (big_number 4 octets.now) (drop 4 octets.now)) }
{
    if octets.len() < 4 {
        return None;
    }
    let count = BigEndian::read_u32(octets) as usize;
    let rest = &octets[4..];
    if rest.len() < count {
        return None;
    }
    Some(&rest[..count])
}

/// Reads the pairs of the table that a prefix of the octets encodes, in the place of what was there. The answer is how
/// many octets the table has, and whether all the pairs are known to lie in place.
///
/// Where none is answered, what was there may still stand there, or some of the new pairs.
#[inline(always)]
pub fn read_counted(
    alloc: Global,
    pairs: &mut Vec<(ShortStr, Value)>,
    octets: &[u8],
) -> Option<(usize, bool)>
    ensures { IfSome result (λ x. table_at octets.now ≡ Ok (pairs_view pairs.new.items, x.0)) }
{
    let body = counted_body(octets)?;
    let in_place = read_pairs(alloc, pairs, body)?;
    Some((4 + body.len(), in_place))
}
