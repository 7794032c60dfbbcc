//! The octets of one field, lent: each call answers what the field holds and the octets after it, and takes no memory.
//! The faults of fields are found here alone.
ghost use Rattle.std.specs.Prelude.{◌≡◌, ◌+◌, ◌^◌, ◌≤◌, ◌<◌, length, drop, IfOk, IfErr};
ghost use Rattle.byteorder.specs.Endian.{big_number};
ghost use Rattle.amqp_method.specs.Arguments.{bit};
ghost use Rattle.amqp_method.specs.BitsView.{bits_view};
ghost use Rattle.amqp_method.specs.Faults.{in_table};
ghost use Rattle.amqp_method.specs.Owning.{IsTextOf};
ghost use Rattle.amqp_method.specs.Reading.{Equals, read_bit, ends_at, read_number, short_string_at, long_string_at, field_table_at, nothing_after, rest_of};

use crate::faults::{MethodFault, MethodFaultKind};
use amqp_value::{ValueFault, ValueFaultKind, check_table};
use byteorder::{BigEndian, ByteOrder};

/// The fault of a field that begins with the first of these octets, which end at `end`, and has more than these.
fn ends_here(octets: &[u8], end: usize) -> MethodFault
    requires { length octets.now ≤ end }
    ensures { result ≡ ends_at end octets.now }
{
    MethodFault {
        at: end - octets.len(),
        kind: MethodFaultKind::Value(ValueFaultKind::Ends),
    }
}

/// Nothing: a fault where octets are left.
pub(crate) fn read_end(octets: &[u8], end: usize) -> Result<(), MethodFault>
    requires { length octets.now ≤ end }
    ensures { Equals (λ x. x) result (nothing_after end octets.now) }
{
    if !octets.is_empty() {
        return Err(MethodFault {
            at: end - octets.len(),
            kind: MethodFaultKind::Trailing,
        });
    }
    Ok(())
}

/// A number of one octet, and the octets after it.
pub(crate) fn read_octet(octets: &[u8], end: usize) -> Result<(u8, &[u8]), MethodFault>
    requires { length octets.now ≤ end }
    ensures read { Equals (λ x. (x.0, x.1.now)) result (read_number 1 end octets.now) }
    ensures within { IfOk result (λ x. length x.1.now ≤ length octets.now) }
{
    let Some((octet, after)) = octets.split_first() else {
        return Err(ends_here(octets, end));
    };
    Ok((*octet, after))
}

/// A number of two octets, and the octets after it.
pub(crate) fn read_short(octets: &[u8], end: usize) -> Result<(u16, &[u8]), MethodFault>
    requires { length octets.now ≤ end }
    ensures read { Equals (λ x. (x.0, x.1.now)) result (read_number 2 end octets.now) }
    ensures within { IfOk result (λ x. length x.1.now ≤ length octets.now) }
    ensures number { IfOk result (λ x. (2 ≤ length octets.now) × (x.0 ≡ big_number 2 octets.now)
        × (x.1.now ≡ drop 2 octets.now)) }
    ensures ends { IfErr result (λ e. (length octets.now < 2) × (e ≡ ends_at end octets.now)) }
{
    if octets.len() < 2 {
        return Err(ends_here(octets, end));
    }
    Ok((BigEndian::read_u16(octets), &octets[2..]))
}

/// A number of four octets, and the octets after it.
pub(crate) fn read_long(octets: &[u8], end: usize) -> Result<(u32, &[u8]), MethodFault>
    requires { length octets.now ≤ end }
    ensures read { Equals (λ x. (x.0, x.1.now)) result (read_number 4 end octets.now) }
    ensures within { IfOk result (λ x. length x.1.now ≤ length octets.now) }
{
    if octets.len() < 4 {
        return Err(ends_here(octets, end));
    }
    Ok((BigEndian::read_u32(octets), &octets[4..]))
}

/// A number of eight octets, and the octets after it.
pub(crate) fn read_long_long(octets: &[u8], end: usize) -> Result<(u64, &[u8]), MethodFault>
    requires { length octets.now ≤ end }
    ensures read { Equals (λ x. (x.0, x.1.now)) result (read_number 8 end octets.now) }
    ensures within { IfOk result (λ x. length x.1.now ≤ length octets.now) }
    ensures number { IfOk result (λ x. (8 ≤ length octets.now) × (x.1.now ≡ drop 8 octets.now)) }
    ensures ends { IfErr result (λ e. (length octets.now < 8) × (e ≡ ends_at end octets.now)) }
{
    if octets.len() < 8 {
        return Err(ends_here(octets, end));
    }
    Ok((BigEndian::read_u64(octets), &octets[8..]))
}

/// The octets of a short string, which stand after a length octet, and the octets after them.
pub(crate) fn read_short_octets(octets: &[u8], end: usize) -> Result<(&[u8], &[u8]), MethodFault>
    requires { length octets.now ≤ end }
    ensures read { Equals (λ x. (x.0.now, x.1.now)) result (short_string_at end octets.now) }
    ensures within { IfOk result (λ x. length x.1.now ≤ length octets.now) }
    ensures short { IfOk result (λ x. length x.0.now < 2 ^ 8) }
    ensures text { IfOk result (λ x. IsTextOf octets.now x.0.now) }
{
    let Some((length, after)) = octets.split_first() else {
        return Err(ends_here(octets, end));
    };
    let length = *length as usize;
    if after.len() < length {
        return Err(ends_here(octets, end));
    }
    Ok(after.split_at(length))
}

/// The octets of a long string, which stand after a length of four octets, and the octets after them.
pub(crate) fn read_long_octets(octets: &[u8], end: usize) -> Result<(&[u8], &[u8]), MethodFault>
    requires { length octets.now ≤ end }
    ensures read { Equals (λ x. (x.0.now, x.1.now)) result (long_string_at end octets.now) }
    ensures within { IfOk result (λ x. length x.1.now ≤ length octets.now) }
{
    if octets.len() < 4 {
        return Err(ends_here(octets, end));
    }
    let (length, after) = octets.split_at(4);
    let length = BigEndian::read_u32(length) as usize;
    if after.len() < length {
        return Err(ends_here(octets, end));
    }
    Ok(after.split_at(length))
}

/// The fault of a table that begins at a place.
pub(crate) fn fault_in_table(place: usize, fault: ValueFault) -> MethodFault
    requires { place + fault.at < 2 ^ 64 }
    ensures { result ≡ in_table place fault }
{
    match fault.kind {
        ValueFaultKind::OutOfMemory => MethodFault::NO_MEMORY,
        kind => MethodFault {
            at: place + fault.at,
            kind: MethodFaultKind::Value(kind),
        },
    }
}

/// The octets after a field table.
pub(crate) fn past_table(octets: &[u8], end: usize) -> Result<&[u8], MethodFault>
    requires { length octets.now ≤ end }
    ensures read { Equals (λ after. after.now) result (rest_of (field_table_at end octets.now)) }
    ensures within { IfOk result (λ after. length after.now ≤ length octets.now) }
{
    match check_table(octets) {
        Ok(length) => {
            let (_, after) = octets.split_at(length);
            Ok(after)
        }
        Err(fault) => Err(fault_in_table(end - octets.len(), fault)),
    }
}

/// The bits of an octet that are still to be read.
#[derive(Clone, Copy)]
pub(crate) struct Bits {
    /// how many
    left: u8,
    /// the octet without those that were read
    packed: u8,
}

impl Bits {
    pub(crate) const NONE: Bits = Bits { left: 0, packed: 0 };
}

/// The next bit of a run, in a new octet where none is left of the last one, and the octets after it.
#[inline(always)]
pub(crate) fn read_bit<'a>(
    bits: &mut Bits,
    octets: &'a [u8],
    end: usize,
) -> Result<(bool, &'a [u8]), MethodFault>
    requires { length octets.now ≤ end }
    ensures read { Equals (λ x. ((bit x.0, bits_view bits.new), x.1.now)) result
        (read_bit bits.old.left bits.old.packed end octets.now) }
    ensures within { IfOk result (λ x. length x.1.now ≤ length octets.now) }
{
    if bits.left == 0 {
        let (packed, after) = read_octet(octets, end)?;
        *bits = Bits {
            left: 7,
            packed: packed / 2,
        };
        return Ok((packed % 2 == 1, after));
    }
    let holds = bits.packed % 2 == 1;
    *bits = Bits {
        left: bits.left - 1,
        packed: bits.packed / 2,
    };
    Ok((holds, octets))
}
