//! Checking content headers: the faults of reading, without what is read.
ghost use Rattle.std.specs.Prelude.{◌≡◌, ◌-◌, ◌%◌, ◌≤◌, ◌<◌, ℕ, List, [], length, drop, IfOk, IfSome, IsTrue, Ok};
ghost use Rattle.byteorder.specs.Endian.{big_number};
ghost use Rattle.amqp_method.specs.HeaderChecking.{kind_at, size_read, Starts};
ghost use Rattle.amqp_method.specs.HeaderReading.{has_flag, optional_at, properties_at, header_at};
ghost use Rattle.amqp_method.specs.Properties.{property_kinds};
ghost use Rattle.amqp_method.specs.Reading.{Equals, rest_of};
ghost use Rattle.amqp_method.specs.ReadsHeader.{ChecksHeader};

use crate::checker::past_field;
use crate::faults::MethodFault;
use crate::field_octets::read_end;
use crate::header_start::{START_LENGTH, Start, read_start};
use crate::properties::{PROPERTIES, property_at};
use amqp_value::check_table;

/// The flags of the properties from the sixth on are those below this one.
pub(crate) const LATER_FLAGS: u16 = 2048;

/// How many properties come before the sixth.
const EARLIER: usize = 5;

/// Up to which place properties may be there. Most headers have none, or none from the sixth on.
#[inline(always)]
#[tactic(auto, using(crate::proofs::HeaderLemmas::none_there, crate::proofs::HeaderLemmas::no_later), unfolding(crate::specs::HeaderReading::properties_at))]
fn places_flagged(flags: u16) -> usize
    ensures within { result ≤ 14 }
    ensures rest { (end : ℕ) (octets : List ℕ) → rest_of (properties_at (drop result property_kinds) flags end octets)
        ≡ Ok octets }
{
    if flags == 0 {
        0
    } else if flags % LATER_FLAGS == 0 {
        EARLIER
    } else {
        PROPERTIES
    }
}

/// The octets after a property, if it is there.
#[inline(always)]
fn past_property(place: usize, flags: u16, octets: &[u8], end: usize) -> Result<&[u8], MethodFault>
    requires place { place < 14 }
    requires within { length octets.now ≤ end }
    ensures read { Equals (λ after. after.now) result (rest_of
        (optional_at (has_flag (15 - place) flags) (kind_at place) end octets.now)) }
    ensures within { IfOk result (λ after. length after.now ≤ length octets.now) }
{
    let property = property_at(place);
    if !property.is_flagged(flags) {
        return Ok(octets);
    }
    let (_, after) = past_field(property.kind, 0, octets, end)?;
    Ok(after)
}

/// The octets after the properties whose flags are set.
fn past_properties(flags: u16, octets: &[u8], end: usize) -> Result<&[u8], MethodFault>
    requires { length octets.now ≤ end }
    ensures read { Equals (λ after. after.now) result (rest_of (properties_at property_kinds flags end octets.now)) }
    ensures within { IfOk result (λ after. length after.now ≤ length octets.now) }
{
    let mut rest = octets;
    for place in 0..places_flagged(flags) {
        let after = past_property(place, flags, rest, end)?;
        rest = after;
    }
    Ok(rest)
}

/// The octets after the table of headers, if it is flagged and there.
#[inline(always)]
fn past_headers(flags: u16, octets: &[u8]) -> Option<&[u8]>
    ensures read { IfSome result (λ after. (end : ℕ)
        → rest_of (optional_at (has_flag 13 flags) (kind_at 2) end octets.now) ≡ Ok after.now) }
    ensures within { IfSome result (λ after. length after.now ≤ length octets.now) }
{
    let property = property_at(2);
    if !property.is_flagged(flags) {
        return Some(octets);
    }
    match check_table(octets) {
        Ok(length) => {
            let (_, after) = octets.split_at(length);
            Some(after)
        }
        Err(_) => None,
    }
}

/// The octets after a property that is no table, if it is flagged and there.
#[inline(always)]
fn past_flagged(place: usize, flags: u16, octets: &[u8], end: usize) -> Option<&[u8]>
    requires place { place < 14 }
    requires within { length octets.now ≤ end }
    ensures read { IfSome result (λ after. rest_of
        (optional_at (has_flag (15 - place) flags) (kind_at place) end octets.now) ≡ Ok after.now) }
    ensures within { IfSome result (λ after. length after.now ≤ length octets.now) }
{
    past_property(place, flags, octets, end).ok()
}

/// The octets after the properties, of which none is flagged from the sixth on, if all that are flagged are there.
#[inline(always)]
fn past_earlier(flags: u16, octets: &[u8], end: usize) -> Option<&[u8]>
    requires within { length octets.now ≤ end }
    requires earlier { flags % 2048 ≡ 0 }
    ensures { IfSome result (λ after. rest_of (properties_at property_kinds flags end octets.now) ≡ Ok after.now) }
{
    let first = past_flagged(0, flags, octets, end)?;
    let second = past_flagged(1, flags, first, end)?;
    let third = past_headers(flags, second)?;
    let fourth = past_flagged(3, flags, third, end)?;
    let fifth = past_flagged(4, flags, fourth, end)?;
    Some(fifth)
}

/// Whether these are the properties that are flagged, of which none is from the sixth on, and nothing stands after them.
#[inline(never)]
fn are_earlier(flags: u16, octets: &[u8], end: usize) -> bool
    requires within { length octets.now ≤ end }
    requires earlier { flags % 2048 ≡ 0 }
    ensures { IsTrue result → rest_of (properties_at property_kinds flags end octets.now) ≡ Ok [] }
{
    let Some(after) = past_earlier(flags, octets, end) else {
        return false;
    };
    after.is_empty()
}

/// Whether these are the properties that are flagged, and nothing stands after them: most headers have none, or none
/// from the sixth on. Of others nothing is said.
#[inline(always)]
fn are_common(flags: u16, octets: &[u8], end: usize) -> bool
    requires { length octets.now ≤ end }
    ensures { IsTrue result → rest_of (properties_at property_kinds flags end octets.now) ≡ Ok [] }
{
    if flags == 0 {
        return octets.is_empty();
    }
    if flags % LATER_FLAGS != 0 {
        return false;
    }
    are_earlier(flags, octets, end)
}

/// Checks that a payload encodes a content header, and answers the size of the body.
///
/// What [`read_header`](crate::read_header) reads is what passes, and the faults are the same; but nothing is kept, and
/// no memory taken.
pub fn check_header(payload: &[u8]) -> Result<u64, MethodFault>
    ensures { ChecksHeader payload.now result }
{
    exact_size(payload)
}

fn exact_size(payload: &[u8]) -> Result<u64, MethodFault>
    ensures { result ≡ size_read (header_at payload.now) }
{
    let start = check_start(payload)?;
    Ok(start.body_size)
}

/// Checks the whole header, and answers what stands before its properties.
#[inline(always)]
pub(crate) fn check_start(payload: &[u8]) -> Result<Start, MethodFault>
    ensures read { Equals (λ start. start.body_size) result (size_read (header_at payload.now)) }
    ensures starts { IfOk result (λ start. Starts payload.now start.body_size start.flags) }
    ensures flags { IfOk result (λ start. start.flags ≡ big_number 2 (drop 12 payload.now)) }
{
    let start = read_start(payload)?;
    let (_, properties) = payload.split_at(START_LENGTH);
    if are_common(start.flags, properties, payload.len()) {
        return Ok(start);
    }
    let after = past_properties(start.flags, properties, payload.len())?;
    read_end(after, payload.len())?;
    Ok(start)
}
