//! Content headers as C writes them.
ghost use Rattle.std.specs.Prelude.{◌≡◌, ◌<◌, ◌++◌, length, map, IfOk, IfErr, OnOk};
ghost use Rattle.byteorder.specs.Endian.{big_bytes};
ghost use Rattle.amqp_value.specs.Plain.{plain_table};
ghost use Rattle.amqp_value.specs.Whole.{table_encoded};
ghost use Rattle.amqp_value.specs.Fields.{plain_short_string};
ghost use Rattle.amqp_method.specs.HeaderChecking.{kind_at};
ghost use Rattle.amqp_method.specs.Plain.{plain_property, plain_present, plain_start};
ghost use Rattle.amqp_method.specs.Properties.{flags_of, property_kinds, HaveKinds};
ghost use Rattle.amqp_method.specs.declared.fields.FieldKind.{FieldKind};
ghost use Rattle.amqp_calls.specs.Values.{argument_there};
ghost use Rattle.amqp_calls.specs.Writing.{NotCounted, NotTable};
ghost use Rattle.amqp_calls.specs.WritingHeaders.{bit_for, header_octets, NotHeader, NotProperty, OfKind, WritesHeader};
ghost use Rattle.amqp_calls.specs.declared.codec.owned.ArgFault.TheVariants as arg;
ghost use Rattle.amqp_calls.specs.declared.codec.writing.WriteFault.TheVariants.{OutOfMemory};

use crate::codec::owned::{ArgFault, own_table};
use crate::codec::values::{LONG_LONG, NONE, OCTET, SHORT_STRING, TABLE, Value};
use crate::codec::writing::{WriteFault, put};
use amqp_method::FieldKind;
use amqp_value::write_table;
use byteorder::{BigEndian, ByteOrder};
use std::alloc::Global;

/// How many properties a content has.
const PROPERTIES: usize = 14;

/// The class id of a content header, of which the upper eight bits are 0.
const BASIC: u8 = 60;

/// The kind of the property at a place.
fn kind_of(place: usize) -> FieldKind
    requires { place < 14 }
    ensures { result ≡ kind_at place }
{
    match place {
        0 | 1 | 5 | 6 | 7 | 8 | 10 | 11 | 12 | 13 => FieldKind::ShortStr,
        2 => FieldKind::Table,
        9 => FieldKind::LongLong,
        _ => FieldKind::Octet,
    }
}

/// Appends a short string.
fn append_text(octets: &[u8], out: &mut Vec<u8>) -> Result<(), ArgFault>
    ensures ok { OnOk result (out.new.items ≡ out.old.items ++ plain_short_string octets.now) }
    ensures err { IfErr result (λ e. NotCounted 256 octets.now e) }
{
    if octets.len() > 255 {
        return Err(ArgFault::Misfit);
    }
    let Ok(()) = out.push(octets.len() as u8) else {
        return Err(ArgFault::OutOfMemory);
    };
    let Ok(()) = out.extend_from_slice(octets) else {
        return Err(ArgFault::OutOfMemory);
    };
    Ok(())
}

/// Appends a table. A count that is too long to be written is reported as refused memory: no octets that are read
/// have one.
fn append_table(alloc: Global, octets: &[u8], out: &mut Vec<u8>) -> Result<(), ArgFault>
    ensures ok { OnOk result (out.new.items ≡ out.old.items ++ plain_table (table_encoded octets.now)) }
    ensures err { IfErr result (λ e. NotTable octets.now e) }
{
    match own_table(alloc, octets) {
        Ok(owned) => match write_table(&owned, out) {
            Ok(()) => Ok(()),
            Err(_) => Err(ArgFault::OutOfMemory),
        },
        Err(fault) => Err(fault),
    }
}

/// Appends octets as they are.
fn append(octets: &[u8], out: &mut Vec<u8>) -> Result<(), ArgFault>
    ensures ok { OnOk result (out.new.items ≡ out.old.items ++ octets.now) }
    ensures err { IfErr result (λ e. e ≡ arg.OutOfMemory) }
{
    let Ok(()) = out.extend_from_slice(octets) else {
        return Err(ArgFault::OutOfMemory);
    };
    Ok(())
}

/// Appends a number of 64 bits.
fn append_long_long(number: u64, out: &mut Vec<u8>) -> Result<(), ArgFault>
    ensures ok { OnOk result (out.new.items ≡ out.old.items ++ big_bytes 8 number) }
    ensures err { IfErr result (λ e. e ≡ arg.OutOfMemory) }
{
    let mut octets = [0; 8];
    BigEndian::write_u64(&mut octets, number);
    append(&octets, out)
}

/// Appends what stands before the properties.
fn append_start(body_size: u64, flags: u16, out: &mut Vec<u8>) -> Result<(), ArgFault>
    ensures ok { OnOk result (out.new.items ≡ out.old.items ++ plain_start body_size flags) }
    ensures err { IfErr result (λ e. e ≡ arg.OutOfMemory) }
{
    let mut start = [0; 14];
    start[1] = BASIC;
    BigEndian::write_u64(&mut start[4..], body_size);
    BigEndian::write_u16(&mut start[12..], flags);
    append(&start, out)
}

/// Appends the property of a kind that a value stands for, if it stands for one.
fn append_property(
    alloc: Global,
    kind: FieldKind,
    value: &Value<'_>,
    out: &mut Vec<u8>,
) -> Result<(), ArgFault>
    ensures ok { OnOk result (out.new.items ≡ out.old.items ++ plain_property (argument_there value.now)) }
    ensures kind { OnOk result (OfKind (argument_there value.now) kind) }
    ensures err { IfErr result (λ e. NotProperty kind value.now e) }
{
    if value.kind == NONE {
        return Ok(());
    }
    match kind {
        FieldKind::ShortStr => {
            if value.kind != SHORT_STRING {
                return Err(ArgFault::Misfit);
            }
            append_text(value.octets, out)
        }
        FieldKind::Table => {
            if value.kind != TABLE {
                return Err(ArgFault::Misfit);
            }
            append_table(alloc, value.octets, out)
        }
        FieldKind::Octet => {
            if value.kind != OCTET || value.number > 255 {
                return Err(ArgFault::Misfit);
            }
            append(&[value.number as u8], out)
        }
        FieldKind::LongLong => {
            if value.kind != LONG_LONG {
                return Err(ArgFault::Misfit);
            }
            append_long_long(value.number, out)
        }
        FieldKind::Bit | FieldKind::Short | FieldKind::Long | FieldKind::LongStr => {
            Err(ArgFault::Misfit)
        }
    }
}

/// Appends the properties that values stand for.
fn append_properties(
    alloc: Global,
    values: &[Value<'_>],
    out: &mut Vec<u8>,
) -> Result<(), WriteFault>
    requires { length values.now ≡ 14 }
    ensures ok { OnOk result (out.new.items ≡ out.old.items ++ plain_present (map argument_there values.now)) }
    ensures kinds { OnOk result (HaveKinds (map argument_there values.now) property_kinds) }
    ensures err { IfErr result (λ e. NotHeader values.now e) }
{
    let mut place = 0;
    while place < PROPERTIES {
        if let Err(fault) = append_property(alloc, kind_of(place), &values[place], out) {
            return Err(fault.at(place));
        }
        place += 1;
    }
    Ok(())
}

/// The bit of a property, if a value stands for one.
fn bit_of(value: &Value<'_>, bit: u32) -> u32
    ensures { result ≡ bit_for (argument_there value.now) bit }
{
    if value.kind != NONE && value.kind <= TABLE {
        bit
    } else {
        0
    }
}

/// The flags of the properties that values stand for: the last has bit 2, and each other one the bit above.
fn flags(values: &[Value<'_>]) -> u16
    requires { length values.now ≡ 14 }
    ensures { result ≡ flags_of (map argument_there values.now) }
{
    let mut flags: u32 = 0;
    let mut bit: u32 = 4;
    let mut place = PROPERTIES;
    while place > 0 {
        place -= 1;
        flags += bit_of(&values[place], bit);
        bit *= 2;
    }
    flags as u16
}

/// The payload of a content header.
fn encoded(alloc: Global, body_size: u64, values: &[Value<'_>]) -> Result<Vec<u8>, WriteFault>
    ensures ok { IfOk result (λ octets. octets.items ≡ header_octets body_size values.now) }
    ensures kinds { IfOk result (λ octets. HaveKinds (map argument_there values.now) property_kinds) }
    ensures err { IfErr result (λ e. NotHeader values.now e) }
{
    if values.len() != PROPERTIES {
        return Err(WriteFault::Misfit(values.len()));
    }
    let mut octets = Vec::new(alloc);
    let Ok(()) = append_start(body_size, flags(values), &mut octets) else {
        return Err(WriteFault::OutOfMemory);
    };
    match append_properties(alloc, values, &mut octets) {
        Ok(()) => Ok(octets),
        Err(fault) => Err(fault),
    }
}

/// Writes a content header at the start of the room.
#[tactic(auto, using(crate::proofs::WrittenHeaders::header_put, crate::proofs::WrittenHeaders::header_not))]
pub fn put_header(
    alloc: Global,
    body_size: u64,
    values: &[Value<'_>],
    room: &mut [u8],
) -> Result<usize, WriteFault>
    ensures { WritesHeader body_size values.now room.old result room.new }
{
    match encoded(alloc, body_size, values) {
        Ok(octets) => put(&octets, room),
        Err(fault) => Err(fault),
    }
}
