//! Values of C as values of a table, where they lie.
ghost use Rattle.std.specs.Prelude.{◌≡◌, ◌≤◌, ◌+◌, ◌≤ℤ◌, length, false, nat_lt, Some, IfOk, IfErr};
ghost use Rattle.byteorder.specs.Endian.{big_bytes};
ghost use Rattle.amqp_value.specs.Lent.{array_ref_view, table_ref_view, value_ref_view};
ghost use Rattle.amqp_value.specs.Values.{items_of};
ghost use Rattle.amqp_value.specs.Whole.{items_encoded, table_encoded};
ghost use Rattle.amqp_calls.specs.Values.{datum_there, signed_number};
ghost use Rattle.amqp_calls.specs.Writing.{NotTable};
ghost use Rattle.amqp_calls.specs.WritingTables.{within, NotArray, NotDatum};
ghost use Rattle.amqp_calls.specs.declared.codec.owned.ArgFault.TheVariants as arg;

use crate::codec::owned::ArgFault;
use crate::codec::values::Value;
use amqp_value::{ArrayRef, TableRef, ValueRef};
use byteorder::{BigEndian, ByteOrder};

/// The number as a signed one, within these.
fn narrow(value: &Value<'_>, least: i64, greatest: i64) -> Result<i64, ArgFault>
    ensures number { IfOk result (λ n. n ≡ signed_number value.now) }
    ensures least { IfOk result (λ n. least ≤ℤ n) }
    ensures greatest { IfOk result (λ n. n ≤ℤ greatest) }
    ensures err { IfErr result (λ e. (e ≡ arg.Misfit) × (within least greatest (signed_number value.now) ≡ false)) }
{
    let number = value.number.cast_signed();
    if number < least || number > greatest {
        return Err(ArgFault::Misfit);
    }
    Ok(number)
}

/// The number, up to this one.
fn small(value: &Value<'_>, greatest: u32) -> Result<u32, ArgFault>
    ensures number { IfOk result (λ n. n ≡ value.now.number) }
    ensures greatest { IfOk result (λ n. n ≤ greatest) }
    ensures err { IfErr result (λ e. (e ≡ arg.Misfit) × (nat_lt value.now.number (greatest + 1) ≡ false)) }
{
    if value.number > u64::from(greatest) {
        return Err(ArgFault::Misfit);
    }
    Ok(value.number as u32)
}

/// Octets that a count of 32 bits can count.
fn counted<'a>(octets: &'a [u8]) -> Result<&'a [u8], ArgFault>
    ensures ok { IfOk result (λ o. o.now ≡ octets.now) }
    ensures err { IfErr result (λ e. (e ≡ arg.Misfit) × (nat_lt (length octets.now) 4294967296 ≡ false)) }
{
    if octets.len() > 4294967295 {
        return Err(ArgFault::Misfit);
    }
    Ok(octets)
}

/// The array whose octets these are, all of them.
fn array<'a>(octets: &'a [u8]) -> Result<ArrayRef<'a>, ArgFault>
    ensures ok { IfOk result (λ a. array_ref_view a ≡ items_of (items_encoded octets.now)) }
    ensures err { IfErr result (λ e. NotArray octets.now e) }
{
    match ArrayRef::new(octets) {
        Ok(array) => Ok(array),
        Err(fault) => Err(ArgFault::Inside(fault)),
    }
}

/// The table whose octets these are, all of them.
fn table<'a>(octets: &'a [u8]) -> Result<TableRef<'a>, ArgFault>
    ensures ok { IfOk result (λ t. table_ref_view t ≡ table_encoded octets.now) }
    ensures err { IfErr result (λ e. NotTable octets.now e) }
{
    match TableRef::new(octets) {
        Ok(table) => {
            if table.octets().len() < octets.len() {
                return Err(ArgFault::Misfit);
            }
            Ok(table)
        }
        Err(fault) => Err(ArgFault::Inside(fault)),
    }
}

fn four(number: u32) -> [u8; 4]
    ensures { result ≡ big_bytes 4 number }
{
    let mut octets = [0; 4];
    BigEndian::write_u32(&mut octets, number);
    octets
}

fn eight(number: u64) -> [u8; 8]
    ensures { result ≡ big_bytes 8 number }
{
    let mut octets = [0; 8];
    BigEndian::write_u64(&mut octets, number);
    octets
}

/// The value of a pair or of an array that a value stands for.
pub(crate) fn lend<'a>(value: &Value<'a>) -> Result<ValueRef<'a>, ArgFault>
    ensures ok { IfOk result (λ r. datum_there value.now ≡ Some (value_ref_view r)) }
    ensures err { IfErr result (λ e. NotDatum value.now e) }
{
    match value.kind {
        b't' => Ok(ValueRef::Boolean(value.number != 0)),
        b'b' => Ok(ValueRef::ShortShortInt(narrow(value, -128, 127)? as i8)),
        b'B' => Ok(ValueRef::ShortShortUint(small(value, 255)? as u8)),
        b's' => Ok(ValueRef::ErrataShortInt(narrow(value, -32768, 32767)? as i16)),
        b'U' => Ok(ValueRef::ShortInt(narrow(value, -32768, 32767)? as i16)),
        b'u' => Ok(ValueRef::ShortUint(small(value, 65535)? as u16)),
        b'I' => Ok(ValueRef::LongInt(narrow(value, -2147483648, 2147483647)? as i32)),
        b'i' => Ok(ValueRef::LongUint(small(value, 4294967295)?)),
        b'l' => Ok(ValueRef::ErrataLongLongInt(value.number.cast_signed())),
        b'L' => Ok(ValueRef::LongLongInt(value.number.cast_signed())),
        b'f' => Ok(ValueRef::Float(four(small(value, 4294967295)?))),
        b'd' => Ok(ValueRef::Double(eight(value.number))),
        b'D' => Ok(ValueRef::Decimal {
            scale: value.scale,
            number: small(value, 4294967295)?,
        }),
        b'T' => Ok(ValueRef::Timestamp(value.number)),
        b'V' => Ok(ValueRef::Void),
        b'S' => Ok(ValueRef::LongString(counted(value.octets)?)),
        b'x' => Ok(ValueRef::ByteArray(counted(value.octets)?)),
        b'A' => Ok(ValueRef::Array(array(value.octets)?)),
        b'F' => Ok(ValueRef::Table(table(value.octets)?)),
        _ => Err(ArgFault::Misfit),
    }
}
