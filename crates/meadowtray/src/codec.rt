//! Methods, content headers and tables, read and written without a handle.
ghost use Rattle.amqp_calls.specs.Headers.{ReadsHeader};
ghost use Rattle.amqp_calls.specs.Methods.{PeeksMethod, ReadsMethod};
ghost use Rattle.amqp_calls.specs.Tables.{GetsValue, ReadsArray, ReadsTable};
ghost use Rattle.amqp_calls.specs.Writing.{TellsMethod};
ghost use Rattle.amqp_calls.specs.WritingHeaders.{TellsHeader};
ghost use Rattle.amqp_calls.specs.WritingTables.{TellsTable};
ghost use Rattle.amqp_method.specs.Ids.{kind_of_ids};

use amqp_calls::codec::headers::{HeaderRead, PROPERTIES, tell_properties};
use amqp_calls::codec::methods::{MethodRead, fill, number_of};
use amqp_calls::codec::statuses::{NO_ROOM, NOT_THERE, method_fault, value_fault};
use amqp_calls::codec::tables::{Pair, TableRead, tell_items, tell_pairs};
use amqp_calls::codec::values::Value;
use amqp_calls::codec::writing::{Written, tell};
use amqp_calls::codec::written_headers::put_header;
use amqp_calls::codec::written_methods::put_method;
use amqp_calls::codec::written_tables::put_table;
use amqp_method::{HeaderRef, MethodFaultKind, MethodRef, peek_kind};
use amqp_value::{ArrayRef, TableRef};
use std::alloc::Global;

/// The kind that the first four octets of a payload name. The arguments are not looked at.
#[unsafe(no_mangle)]
pub extern "C" fn proved_method_peek(payload: &[u8], kind: &mut u32) -> u32
    ensures { PeeksMethod (kind_of_ids payload.now) result kind.old kind.new }
{
    match peek_kind(payload) {
        Some(found) => {
            *kind = number_of(found);
            0
        }
        None => method_fault(MethodFaultKind::UnknownMethod),
    }
}

/// Reads the method that a payload encodes, as `MethodRef::new` does, and puts its arguments into the first of
/// `fields`.
#[unsafe(no_mangle)]
pub extern "C" fn proved_method_read<'a>(
    payload: &'a [u8],
    fields: &mut [Value<'a>],
    out: &mut MethodRead,
) -> u32
    ensures { ReadsMethod payload.now fields.old result fields.new out.new }
{
    match MethodRef::new(payload) {
        Ok(method) => {
            out.kind = number_of(method.kind());
            match fill(method.args(), fields) {
                Some(count) => {
                    out.count = count;
                    0
                }
                None => NO_ROOM,
            }
        }
        Err(fault) => {
            out.at = fault.at;
            method_fault(fault.kind)
        }
    }
}

/// Writes the payload of a method into the room, as `write_method` does: `kind` is its number, and the values are its
/// fields without those that are reserved.
#[unsafe(no_mangle)]
pub extern "C" fn proved_method_write(
    alloc: Global,
    kind: u32,
    values: &[Value<'_>],
    room: &mut [u8],
    out: &mut Written,
) -> u32
    ensures { TellsMethod kind values.now room.old result out.new room.new }
{
    tell(put_method(alloc, kind, values, room), out)
}

/// Reads the content header that a payload encodes, as `HeaderRef::new` does, and puts its properties into the first
/// fourteen of `values`.
#[unsafe(no_mangle)]
pub extern "C" fn proved_header_read<'a>(
    payload: &'a [u8],
    values: &mut [Value<'a>],
    out: &mut HeaderRead,
) -> u32
    ensures { ReadsHeader payload.now values.old result values.new out.new }
{
    match HeaderRef::new(payload) {
        Ok(header) => {
            out.body_size = header.body_size();
            out.flags = header.flags();
            if values.len() < PROPERTIES {
                return NO_ROOM;
            }
            tell_properties(header, values);
            0
        }
        Err(fault) => {
            out.at = fault.at;
            method_fault(fault.kind)
        }
    }
}

/// Writes the payload of a content header into the room. The values are its fourteen properties in the order of their
/// flags; one that isn't there has no kind.
#[unsafe(no_mangle)]
pub extern "C" fn proved_header_write(
    alloc: Global,
    body_size: u64,
    values: &[Value<'_>],
    room: &mut [u8],
    out: &mut Written,
) -> u32
    ensures { TellsHeader body_size values.now room.old result out.new room.new }
{
    tell(put_header(alloc, body_size, values, room), out)
}

/// Reads the table that a prefix of the octets encodes, as `TableRef::new` does, and puts its pairs into the first of
/// `pairs`.
#[unsafe(no_mangle)]
pub extern "C" fn proved_table_read<'a>(
    octets: &'a [u8],
    pairs: &mut [Pair<'a>],
    out: &mut TableRead,
) -> u32
    ensures { ReadsTable octets.now pairs.old result pairs.new out.new }
{
    match TableRef::new(octets) {
        Ok(table) => tell_pairs(table, pairs, out),
        Err(fault) => {
            out.at = fault.at;
            value_fault(fault.kind)
        }
    }
}

/// The value of the first pair with this name, of the table that a prefix of the octets encodes.
#[unsafe(no_mangle)]
pub extern "C" fn proved_table_get<'a>(
    octets: &'a [u8],
    name: &[u8],
    out: &mut Value<'a>,
    at: &mut usize,
) -> u32
    ensures { GetsValue octets.now name.now result out.new at.new }
{
    match TableRef::new(octets) {
        Ok(table) => match table.get(name) {
            Some(value) => {
                *out = Value::of_value(value);
                0
            }
            None => NOT_THERE,
        },
        Err(fault) => {
            *at = fault.at;
            value_fault(fault.kind)
        }
    }
}

/// Reads the array whose octets these are, without a count before them, as `ArrayRef::new` does, and puts its values
/// into the first of `values`.
#[unsafe(no_mangle)]
pub extern "C" fn proved_array_read<'a>(
    octets: &'a [u8],
    values: &mut [Value<'a>],
    out: &mut TableRead,
) -> u32
    ensures { ReadsArray octets.now values.old result values.new out.new }
{
    match ArrayRef::new(octets) {
        Ok(array) => tell_items(array, values, out),
        Err(fault) => {
            out.at = fault.at;
            value_fault(fault.kind)
        }
    }
}

/// Writes the table of these pairs into the room, as `write_table` does: its count with it.
#[unsafe(no_mangle)]
pub extern "C" fn proved_table_write(
    alloc: Global,
    pairs: &[Pair<'_>],
    room: &mut [u8],
    out: &mut Written,
) -> u32
    ensures { TellsTable pairs.now room.old result out.new room.new }
{
    tell(put_table(alloc, pairs, room), out)
}
