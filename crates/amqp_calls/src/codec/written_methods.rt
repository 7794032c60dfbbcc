//! Methods as C writes them.
ghost use Rattle.std.specs.Prelude.{◌≡◌, ◌<◌, ◌≤◌, List, length, IfOk, IfErr};
ghost use Rattle.amqp_method.specs.Arguments.{wanted};
ghost use Rattle.amqp_method.specs.Kinds.{fields_of};
ghost use Rattle.amqp_method.specs.MethodView.{method_view};
ghost use Rattle.amqp_method.specs.Plain.{plain_method};
ghost use Rattle.amqp_calls.specs.Writing.{field_number, first_unlike, kind_numbered, IsMethod, NotEncoded, NotMethod, PastValue, WritesMethod};
ghost use Rattle.amqp_method.specs.declared.fields.FieldKind.{FieldKind};

use crate::codec::owned::own_args;
use crate::codec::values::{
    BIT, LONG, LONG_LONG, LONG_STRING, OCTET, SHORT, SHORT_STRING, TABLE, Value,
};
use crate::codec::writing::{WriteFault, put};
use amqp_method::{Field, FieldKind, Kind, Method, MethodFaultKind, schema, write_method};
use std::alloc::Global;

/// The kind with this number, if it is one.
pub(crate) fn kind_of(number: u32) -> Option<Kind>
    ensures { result ≡ kind_numbered number }
{
    Kind::from_ids((number / 65536) as u16, (number % 65536) as u16)
}

/// The number of a kind of field.
fn number_of(kind: FieldKind) -> u8
    ensures { result ≡ field_number kind }
{
    match kind {
        FieldKind::Bit => BIT,
        FieldKind::Octet => OCTET,
        FieldKind::Short => SHORT,
        FieldKind::Long => LONG,
        FieldKind::LongLong => LONG_LONG,
        FieldKind::ShortStr => SHORT_STRING,
        FieldKind::LongStr => LONG_STRING,
        FieldKind::Table => TABLE,
    }
}

/// The place after the value of a field, if that value is of the field's kind. A reserved field has none.
#[tactic(auto, using(crate::proofs::Unwritten::value_here))]
fn past_value(field: &Field, values: &[Value<'_>], place: usize) -> Option<usize>
    requires { place ≤ length values.now }
    ensures { (kinds : List FieldKind) → PastValue field.now.reserved field.now.kind kinds values.now place result }
{
    if field.reserved {
        return Some(place);
    }
    if place == values.len() {
        return None;
    }
    if values[place].kind != number_of(field.kind) {
        return None;
    }
    Some(place + 1)
}

/// The first place at which the values aren't of the kinds of a method's fields.
fn unlike(kind: Kind, values: &[Value<'_>]) -> usize
    ensures { result ≡ first_unlike (wanted (fields_of kind)) values.now }
{
    let mut place = 0;
    for field in schema(kind) {
        let Some(next) = past_value(field, values, place) else {
            return place;
        };
        place = next;
    }
    place
}

/// The method of a kind with the arguments that values stand for.
#[tactic(auto, using(crate::proofs::Unwritten::not_method))]
fn own_method(alloc: Global, number: u32, values: &[Value<'_>]) -> Result<Method, WriteFault>
    ensures ok { IfOk result (λ m. IsMethod number values.now (method_view m)) }
    ensures err { IfErr result (λ e. NotMethod number values.now e) }
{
    let Some(kind) = kind_of(number) else {
        return Err(WriteFault::UnknownKind);
    };
    match own_args(alloc, values) {
        Ok(args) => {
            let Ok(method) = Method::try_new(kind, args) else {
                return Err(WriteFault::Misfit(unlike(kind, values)));
            };
            Ok(method)
        }
        Err(fault) => Err(fault),
    }
}

/// The octets of a method.
pub(crate) fn encoded(alloc: Global, method: &Method) -> Result<Vec<u8>, WriteFault>
    ensures ok { IfOk result (λ octets. octets.items ≡ plain_method (method_view method.now)) }
    ensures err { IfErr result (λ e. NotEncoded (method_view method.now) e) }
{
    let mut octets = Vec::new(alloc);
    match write_method(method, &mut octets) {
        Ok(()) => Ok(octets),
        Err(fault) => {
            if fault.kind == MethodFaultKind::OutOfMemory {
                return Err(WriteFault::OutOfMemory);
            }
            Err(WriteFault::TooLong)
        }
    }
}

/// Writes a method at the start of the room.
pub fn put_method(
    alloc: Global,
    number: u32,
    values: &[Value<'_>],
    room: &mut [u8],
) -> Result<usize, WriteFault>
    ensures { WritesMethod number values.now room.old result room.new }
{
    match own_method(alloc, number, values) {
        Ok(method) => match encoded(alloc, &method) {
            Ok(octets) => put(&octets, room),
            Err(fault) => Err(fault),
        },
        Err(fault) => Err(fault),
    }
}
