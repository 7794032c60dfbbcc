//! The parts of an element of a table: a name, a count with what it counts, a number of octets. None takes memory.

ghost use Rattle.std.specs.Prelude.{◌≡◌, ◌+◌, ◌≤◌, ◌<◌, length, IfOk};
ghost use Rattle.amqp_value.specs.Checking.{Equals};
ghost use Rattle.amqp_value.specs.Reading.{fault_here as place_fault, prefix_of, counted, name_at};

use crate::fault::{ValueFault, ValueFaultKind};
use byteorder::{BigEndian, ByteOrder};

/// The fault of an element whose first octet is the first of these, which end at `end`.
pub fn fault_here(octets: &[u8], end: usize, kind: ValueFaultKind) -> ValueFault
    requires { length octets.now ≤ end }
    ensures { result ≡ place_fault end octets.now kind }
{
    ValueFault {
        at: end - octets.len(),
        kind,
    }
}

/// The first `n` octets, and those after them.
#[inline(always)]
pub fn prefix(octets: &[u8], n: usize, end: usize) -> Result<(&[u8], &[u8]), ValueFault>
    requires { length octets.now ≤ end }
    ensures read { Equals (λ x. (x.0.now, x.1.now)) result (prefix_of n end octets.now) }
    ensures within { IfOk result (λ x. length x.0.now + length x.1.now ≡ length octets.now) }
    ensures width { IfOk result (λ x. length x.0.now ≡ n) }
{
    if octets.len() < n {
        return Err(fault_here(octets, end, ValueFaultKind::PassesItsEnd));
    }
    Ok(octets.split_at(n))
}

/// A count of four octets and that many octets, and those after them.
#[inline(always)]
pub fn counted_octets(octets: &[u8], end: usize) -> Result<(&[u8], &[u8]), ValueFault>
    requires { length octets.now ≤ end }
    ensures read { Equals (λ x. (x.0.now, x.1.now)) result (counted end octets.now) }
    ensures within { IfOk result (λ x. length x.0.now + length x.1.now ≤ length octets.now) }
{
    if octets.len() < 4 {
        return Err(fault_here(octets, end, ValueFaultKind::PassesItsEnd));
    }
    let (count, after) = octets.split_at(4);
    let count = BigEndian::read_u32(count) as usize;
    if after.len() < count {
        return Err(fault_here(octets, end, ValueFaultKind::PassesItsEnd));
    }
    Ok(after.split_at(count))
}

/// A length octet and that many octets, and those after them.
#[inline(always)]
pub fn name_octets(octets: &[u8], end: usize) -> Result<(&[u8], &[u8]), ValueFault>
    requires { length octets.now ≤ end }
    ensures read { Equals (λ x. (x.0.now, x.1.now)) result (name_at end octets.now) }
    ensures within { IfOk result (λ x. length x.0.now + length x.1.now < length octets.now) }
    ensures short { IfOk result (λ x. length x.0.now ≤ 255) }
{
    let Some((length, after)) = octets.split_first() else {
        return Err(fault_here(octets, end, ValueFaultKind::PassesItsEnd));
    };
    let length = *length as usize;
    if after.len() < length {
        return Err(fault_here(octets, end, ValueFaultKind::PassesItsEnd));
    }
    Ok(after.split_at(length))
}
