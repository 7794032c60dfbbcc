//! Checking methods: the faults of reading, without what is read.
ghost use Rattle.std.specs.Prelude.{◌≡◌, ◌≤◌, length, map, Ok, Some, IfOk, IfSome};
ghost use Rattle.amqp_method.specs.Checking.{kind_read, past_bit as bit_past, past_field as field_past, past_fields as fields_past};
ghost use Rattle.amqp_method.specs.Reading.{Equals, call_at, method_at};
ghost use Rattle.amqp_method.specs.ReadsMethod.{ChecksMethod};
ghost use Rattle.amqp_method.specs.Rows.{field_view};

use crate::faults::{MethodFault, MethodFaultKind};
use crate::field_octets::{
    past_table, read_end, read_long, read_long_long, read_long_octets, read_octet, read_short,
    read_short_octets,
};
use crate::fields::{Field, FieldKind};
use crate::kinds::Kind;
use crate::table::row_for;

/// The octets after a bit, where so many are left of the octet before it, and how many are left then.
#[inline(always)]
fn past_bit(left: u8, octets: &[u8], end: usize) -> Result<(u8, &[u8]), MethodFault>
    requires { length octets.now ≤ end }
    ensures read { Equals (λ x. (x.0, x.1.now)) result (bit_past left end octets.now) }
    ensures within { IfOk result (λ x. length x.1.now ≤ length octets.now) }
{
    if left > 0 {
        return Ok((left - 1, octets));
    }
    let (_, after) = read_octet(octets, end)?;
    Ok((7, after))
}

/// The octets after a field, and how many bits are left then of the octet before them.
#[inline(always)]
#[tactic(auto, unfolding(crate::specs::Checking::past_field))]
pub(crate) fn past_field(
    kind: FieldKind,
    left: u8,
    octets: &[u8],
    end: usize,
) -> Result<(u8, &[u8]), MethodFault>
    requires { length octets.now ≤ end }
    ensures read { Equals (λ x. (x.0, x.1.now)) result (field_past kind left end octets.now) }
    ensures within { IfOk result (λ x. length x.1.now ≤ length octets.now) }
{
    match kind {
        FieldKind::Bit => past_bit(left, octets, end),
        FieldKind::Octet => {
            let (_, after) = read_octet(octets, end)?;
            Ok((0, after))
        }
        FieldKind::Short => {
            let (_, after) = read_short(octets, end)?;
            Ok((0, after))
        }
        FieldKind::Long => {
            let (_, after) = read_long(octets, end)?;
            Ok((0, after))
        }
        FieldKind::LongLong => {
            let (_, after) = read_long_long(octets, end)?;
            Ok((0, after))
        }
        FieldKind::ShortStr => {
            let (_, after) = read_short_octets(octets, end)?;
            Ok((0, after))
        }
        FieldKind::LongStr => {
            let (_, after) = read_long_octets(octets, end)?;
            Ok((0, after))
        }
        FieldKind::Table => Ok((0, past_table(octets, end)?)),
    }
}

/// The octets after these fields.
#[inline(always)]
#[tactic(auto, unfolding(crate::specs::Checking::past_fields))]
fn past_fields<'a>(fields: &[Field], octets: &'a [u8], end: usize) -> Result<&'a [u8], MethodFault>
    requires { length octets.now ≤ end }
    ensures read { Equals (λ after. after.now) result (fields_past (map field_view fields.now) 0 end octets.now) }
    ensures within { IfOk result (λ after. length after.now ≤ length octets.now) }
{
    let mut left = 0;
    let mut rest = octets;
    for field in fields {
        let (more, after) = past_field(field.kind, left, rest, end)?;
        left = more;
        rest = after;
    }
    Ok(rest)
}

/// Checks the arguments of a method of a kind, and that nothing stands after them.
#[inline(always)]
fn check_args(kind: Kind, octets: &[u8], end: usize) -> Result<(), MethodFault>
    requires { length octets.now ≤ end }
    ensures { Equals (λ done. kind) result (kind_read (call_at end octets.now (Some kind))) }
{
    let after = past_fields(row_for(kind).fields, octets, end)?;
    read_end(after, end)
}

/// The octets after a field, if it is there.
#[inline(always)]
fn past(kind: FieldKind, left: u8, octets: &[u8], end: usize) -> Option<(u8, &[u8])>
    requires { length octets.now ≤ end }
    ensures read { IfSome result (λ x. field_past kind left end octets.now ≡ Ok (x.0, x.1.now)) }
    ensures within { IfSome result (λ x. length x.1.now ≤ length octets.now) }
{
    past_field(kind, left, octets, end).ok()
}

/// Whether these are the arguments of a basic.ack, and nothing stands after them.
#[inline(always)]
fn are_of_ack(octets: &[u8], end: usize) -> Option<()>
    requires { length octets.now ≤ end }
    ensures { IfSome result (λ done. kind_read (call_at end octets.now (Some Kind.BasicAck)) ≡ Ok Kind.BasicAck) }
{
    let (left, octets) = past(FieldKind::LongLong, 0, octets, end)?;
    let (_, octets) = past(FieldKind::Bit, left, octets, end)?;
    read_end(octets, end).ok()
}

/// The same of a basic.publish.
#[inline(always)]
fn are_of_publish(octets: &[u8], end: usize) -> Option<()>
    requires { length octets.now ≤ end }
    ensures { IfSome result (λ done.
        kind_read (call_at end octets.now (Some Kind.BasicPublish)) ≡ Ok Kind.BasicPublish) }
{
    let (left, octets) = past(FieldKind::Short, 0, octets, end)?;
    let (left, octets) = past(FieldKind::ShortStr, left, octets, end)?;
    let (left, octets) = past(FieldKind::ShortStr, left, octets, end)?;
    let (left, octets) = past(FieldKind::Bit, left, octets, end)?;
    let (_, octets) = past(FieldKind::Bit, left, octets, end)?;
    read_end(octets, end).ok()
}

/// The same of a basic.deliver.
#[inline(always)]
fn are_of_deliver(octets: &[u8], end: usize) -> Option<()>
    requires { length octets.now ≤ end }
    ensures { IfSome result (λ done.
        kind_read (call_at end octets.now (Some Kind.BasicDeliver)) ≡ Ok Kind.BasicDeliver) }
{
    let (left, octets) = past(FieldKind::ShortStr, 0, octets, end)?;
    let (left, octets) = past(FieldKind::LongLong, left, octets, end)?;
    let (left, octets) = past(FieldKind::Bit, left, octets, end)?;
    let (left, octets) = past(FieldKind::ShortStr, left, octets, end)?;
    let (_, octets) = past(FieldKind::ShortStr, left, octets, end)?;
    read_end(octets, end).ok()
}

/// The kind of the method that a payload encodes, if it is one of those that most methods are of.
///
/// Their fields are looked at by calls for each, where [`check_method`] reads a row field by field: an ack takes half
/// as many instructions so.
#[inline(never)]
pub(crate) fn common_kind(payload: &[u8]) -> Option<Kind>
    ensures { IfSome result (λ kind. kind_read (method_at payload.now) ≡ Ok kind) }
{
    let end = payload.len();
    let (class, after) = read_short(payload, end).ok()?;
    let (id, after) = read_short(after, end).ok()?;
    if class != 60 {
        return None;
    }
    match id {
        40 => {
            are_of_publish(after, end)?;
            Some(Kind::BasicPublish)
        }
        60 => {
            are_of_deliver(after, end)?;
            Some(Kind::BasicDeliver)
        }
        80 => {
            are_of_ack(after, end)?;
            Some(Kind::BasicAck)
        }
        _ => None,
    }
}

/// Checks that a payload encodes a method, and of which kind.
///
/// What [`read_method`](crate::read_method) reads is what passes, and the faults are the same; but nothing is kept, and
/// no memory taken.
pub fn check_method(payload: &[u8]) -> Result<Kind, MethodFault>
    ensures { ChecksMethod payload.now result }
{
    exact_kind(payload)
}

#[tactic(auto, unfolding(crate::specs::Reading::method_at))]
fn exact_kind(payload: &[u8]) -> Result<Kind, MethodFault>
    ensures { result ≡ kind_read (method_at payload.now) }
{
    let end = payload.len();
    let (class, after) = read_short(payload, end)?;
    let (id, after) = read_short(after, end)?;
    let Some(kind) = Kind::from_ids(class, id) else {
        return Err(MethodFault {
            at: 0,
            kind: MethodFaultKind::UnknownMethod,
        });
    };
    check_args(kind, after, end)?;
    Ok(kind)
}
