//! Writing a table, each value in its one plain encoding.

ghost use Rattle.std.specs.Prelude.{◌≡◌, ◌⊎◌, ◌+◌, ◌-◌, ◌≤◌, ◌<◌, ◌^◌, ◌↔◌, ◌++◌, [], ◌∷◌, length, take, drop, OnOk, OnErr, IfErr, Err};
ghost use Rattle.std.specs.Int.{w8, w16, w32, w64, cast_unsigned};
ghost use Rattle.byteorder.specs.Endian.{big_bytes};
ghost use Rattle.amqp_value.specs.Faults.{fault_at, out_of_memory};
ghost use Rattle.amqp_value.specs.Fields.{EncodesShortString, plain_short_string, plain_long_string};
ghost use Rattle.amqp_value.specs.Plain.{plain_value, plain_field, plain_items, plain_pairs, plain_table, CountsFit, ItemsCountsFit, PairsCountsFit};
ghost use Rattle.amqp_value.specs.Encoding.{EncodesField, EncodesItems, EncodesPairs};
ghost use Rattle.amqp_value.specs.Tables.{table_view};
ghost use Rattle.amqp_value.specs.Values.{array, table as table_of};
ghost use Rattle.amqp_value.specs.View.{view, items_view, pairs_view};
ghost use Rattle.amqp_value.specs.WritesTable.{WritesTable};
ghost use Rattle.amqp_value.specs.declared.fault.ValueFaultKind.TheVariants.{TooLong};

use crate::fault::{ValueFault, ValueFaultKind};
use crate::short_str::ShortStr;
use crate::tables::Table;
use crate::values::Value;
use byteorder::{BigEndian, ByteOrder};

const TOO_LONG: ValueFault = ValueFault {
    at: 0,
    kind: ValueFaultKind::TooLong,
};

/// A tag and the octets of a value of fixed size.
fn put_field(out: &mut Vec<u8>, field: &[u8]) -> Result<(), ValueFault>
    ensures ok { OnOk result (out.new.items ≡ out.old.items ++ field.now) }
    ensures err { IfErr result (λ e. e ≡ out_of_memory) }
    ensures same { OnErr result (out.new.items ≡ out.old.items) }
{
    out.extend_from_slice(field)?;
    Ok(())
}

/// A tag and a number of 16 bits.
fn put_u16(out: &mut Vec<u8>, tag: u8, number: u16) -> Result<(), ValueFault>
    ensures ok { OnOk result (out.new.items ≡ out.old.items ++ tag ∷ big_bytes 2 number) }
    ensures err { IfErr result (λ e. e ≡ out_of_memory) }
    ensures same { OnErr result (out.new.items ≡ out.old.items) }
{
    let mut field = [tag, 0, 0];
    BigEndian::write_u16(&mut field[1..], number);
    put_field(out, &field)
}

/// A tag and a number of 32 bits.
fn put_u32(out: &mut Vec<u8>, tag: u8, number: u32) -> Result<(), ValueFault>
    ensures ok { OnOk result (out.new.items ≡ out.old.items ++ tag ∷ big_bytes 4 number) }
    ensures err { IfErr result (λ e. e ≡ out_of_memory) }
    ensures same { OnErr result (out.new.items ≡ out.old.items) }
{
    let mut field = [tag, 0, 0, 0, 0];
    BigEndian::write_u32(&mut field[1..], number);
    put_field(out, &field)
}

/// A tag and a number of 64 bits.
fn put_u64(out: &mut Vec<u8>, tag: u8, number: u64) -> Result<(), ValueFault>
    ensures ok { OnOk result (out.new.items ≡ out.old.items ++ tag ∷ big_bytes 8 number) }
    ensures err { IfErr result (λ e. e ≡ out_of_memory) }
    ensures same { OnErr result (out.new.items ≡ out.old.items) }
{
    let mut field = [tag, 0, 0, 0, 0, 0, 0, 0, 0];
    BigEndian::write_u64(&mut field[1..], number);
    put_field(out, &field)
}

/// A tag, a scale octet and a number of 32 bits.
fn put_decimal(out: &mut Vec<u8>, tag: u8, scale: u8, number: u32) -> Result<(), ValueFault>
    ensures ok { OnOk result (out.new.items ≡ out.old.items ++ tag ∷ scale ∷ big_bytes 4 number) }
    ensures err { IfErr result (λ e. e ≡ out_of_memory) }
    ensures same { OnErr result (out.new.items ≡ out.old.items) }
{
    let mut field = [tag, scale, 0, 0, 0, 0];
    BigEndian::write_u32(&mut field[2..], number);
    put_field(out, &field)
}

/// A tag, and octets as they are.
fn put_octets(out: &mut Vec<u8>, tag: u8, octets: &[u8]) -> Result<(), ValueFault>
    ensures ok { OnOk result (out.new.items ≡ out.old.items ++ tag ∷ octets.now) }
    ensures err { IfErr result (λ e. e ≡ out_of_memory) }
    ensures kept { OnErr result (take (length out.old.items) out.new.items ≡ out.old.items) }
{
    put_field(out, &[tag])?;
    put_field(out, octets)
}

/// A tag, a count of 32 bits, and the octets that it counts.
fn put_text(out: &mut Vec<u8>, tag: u8, text: &[u8]) -> Result<(), ValueFault>
    ensures ok { OnOk result (out.new.items
        ≡ out.old.items ++ tag ∷ (big_bytes 4 (length text.now) ++ text.now)) }
    ensures fits { OnOk result (length text.now < 2 ^ 32) }
    ensures err { IfErr result (λ e. (e ≡ fault_at 0 TooLong) ⊎ (e ≡ out_of_memory)) }
    ensures too_long { result ≡ Err (fault_at 0 TooLong) → 2 ^ 32 ≤ length text.now }
    ensures kept { OnErr result (take (length out.old.items) out.new.items ≡ out.old.items) }
{
    if text.len() > u32::MAX as usize {
        return Err(TOO_LONG);
    }
    put_u32(out, tag, text.len() as u32)?;
    put_field(out, text)
}

/// Writes the count of all that stands after the four octets at `hole` into them.
fn fill_count(out: &mut Vec<u8>, hole: usize) -> Result<(), ValueFault>
    requires { hole + 4 ≤ length out.old.items }
    ensures ok { OnOk result (out.new.items ≡ take hole out.old.items
        ++ (big_bytes 4 (length (drop (hole + 4) out.old.items)) ++ drop (hole + 4) out.old.items)) }
    ensures fits { OnOk result (length (drop (hole + 4) out.old.items) < 2 ^ 32) }
    ensures err { IfErr result (λ e. e ≡ fault_at 0 TooLong) }
    ensures too_long { OnErr result (2 ^ 32 ≤ length (drop (hole + 4) out.old.items)) }
    ensures same { OnErr result (out.new.items ≡ out.old.items) }
{
    let count = out.len() - hole - 4;
    if count > u32::MAX as usize {
        return Err(TOO_LONG);
    }
    let mut octets = [0; 4];
    BigEndian::write_u32(&mut octets, count as u32);
    let place = &mut out.as_mut_slice()[hole..hole + 4];
    place.copy_from_slice(&octets);
    Ok(())
}

/// A tag with its value.
#[cycle(write)]
fn put_value(out: &mut Vec<u8>, value: &Value) -> Result<(), ValueFault>
    ensures ok { OnOk result (out.new.items ≡ out.old.items ++ plain_value (view value.now)) }
    ensures encoded { OnOk result (EncodesField (view value.now) (plain_field (view value.now))) }
    ensures err { IfErr result (λ e. (e ≡ fault_at 0 TooLong) ⊎ (e ≡ out_of_memory)) }
    ensures too_long { result ≡ Err (fault_at 0 TooLong) → CountsFit (view value.now) → ⊥ }
    ensures kept { OnErr result (take (length out.old.items) out.new.items ≡ out.old.items) }
{
    match value {
        Value::Boolean(holds) => put_field(out, &[b't', u8::from(*holds)]),
        Value::ShortShortInt(number) => put_field(out, &[b'b', number.cast_unsigned()]),
        Value::ShortShortUint(number) => put_field(out, &[b'B', *number]),
        Value::ErrataShortInt(number) => put_u16(out, b's', number.cast_unsigned()),
        Value::ShortInt(number) => put_u16(out, b'U', number.cast_unsigned()),
        Value::ShortUint(number) => put_u16(out, b'u', *number),
        Value::LongInt(number) => put_u32(out, b'I', number.cast_unsigned()),
        Value::LongUint(number) => put_u32(out, b'i', *number),
        Value::ErrataLongLongInt(number) => put_u64(out, b'l', number.cast_unsigned()),
        Value::LongLongInt(number) => put_u64(out, b'L', number.cast_unsigned()),
        Value::Float(octets) => put_octets(out, b'f', octets),
        Value::Double(octets) => put_octets(out, b'd', octets),
        Value::Decimal { scale, number } => put_decimal(out, b'D', *scale, *number),
        Value::Timestamp(number) => put_u64(out, b'T', *number),
        Value::Void => put_field(out, b"V"),
        Value::LongString(text) => put_text(out, b'S', text.as_bytes()),
        Value::ByteArray(octets) => put_text(out, b'x', octets.as_bytes()),
        Value::Array(values) => put_array(out, values),
        Value::Table(pairs) => put_table(out, pairs),
    }
}

/// An array: its tag, its count and its values.
#[cycle(write)]
fn put_array(out: &mut Vec<u8>, values: &[Value]) -> Result<(), ValueFault>
    ensures ok { OnOk result (out.new.items ≡ out.old.items ++ plain_value (array (items_view values.now))) }
    ensures encoded { OnOk result (EncodesField (array (items_view values.now))
        (plain_field (array (items_view values.now)))) }
    ensures err { IfErr result (λ e. (e ≡ fault_at 0 TooLong) ⊎ (e ≡ out_of_memory)) }
    ensures too_long { result ≡ Err (fault_at 0 TooLong) → CountsFit (array (items_view values.now)) → ⊥ }
    ensures kept { OnErr result (take (length out.old.items) out.new.items ≡ out.old.items) }
{
    let hole = out.len() + 1;
    put_field(out, &[b'A', 0, 0, 0, 0])?;
    put_items(out, values)?;
    fill_count(out, hole)
}

/// A table as a value: its tag, its count and its pairs.
#[cycle(write)]
fn put_table(out: &mut Vec<u8>, pairs: &[(ShortStr, Value)]) -> Result<(), ValueFault>
    ensures ok { OnOk result (out.new.items ≡ out.old.items ++ plain_value (table_of (pairs_view pairs.now))) }
    ensures encoded { OnOk result (EncodesField (table_of (pairs_view pairs.now))
        (plain_field (table_of (pairs_view pairs.now)))) }
    ensures err { IfErr result (λ e. (e ≡ fault_at 0 TooLong) ⊎ (e ≡ out_of_memory)) }
    ensures too_long { result ≡ Err (fault_at 0 TooLong) → CountsFit (table_of (pairs_view pairs.now)) → ⊥ }
    ensures kept { OnErr result (take (length out.old.items) out.new.items ≡ out.old.items) }
{
    let hole = out.len() + 1;
    put_field(out, &[b'F', 0, 0, 0, 0])?;
    put_pairs(out, pairs)?;
    fill_count(out, hole)
}

/// Tags with values, one after the other.
#[cycle(write)]
fn put_items(out: &mut Vec<u8>, values: &[Value]) -> Result<(), ValueFault>
    ensures ok { OnOk result (out.new.items ≡ out.old.items ++ plain_items (items_view values.now)) }
    ensures encoded { OnOk result (EncodesItems (items_view values.now) (plain_items (items_view values.now))) }
    ensures err { IfErr result (λ e. (e ≡ fault_at 0 TooLong) ⊎ (e ≡ out_of_memory)) }
    ensures too_long { result ≡ Err (fault_at 0 TooLong) → ItemsCountsFit (items_view values.now) → ⊥ }
    ensures kept { OnErr result (take (length out.old.items) out.new.items ≡ out.old.items) }
{
    for value in values {
        put_value(out, value)?;
    }
    Ok(())
}

/// Names and tags with values, one after the other.
#[cycle(write)]
fn put_pairs(out: &mut Vec<u8>, pairs: &[(ShortStr, Value)]) -> Result<(), ValueFault>
    ensures ok { OnOk result (out.new.items ≡ out.old.items ++ plain_pairs (pairs_view pairs.now)) }
    ensures encoded { OnOk result (EncodesPairs (pairs_view pairs.now) (plain_pairs (pairs_view pairs.now))) }
    ensures err { IfErr result (λ e. (e ≡ fault_at 0 TooLong) ⊎ (e ≡ out_of_memory)) }
    ensures too_long { result ≡ Err (fault_at 0 TooLong) → PairsCountsFit (pairs_view pairs.now) → ⊥ }
    ensures kept { OnErr result (take (length out.old.items) out.new.items ≡ out.old.items) }
{
    for pair in pairs {
        put_name(out, &pair.0)?;
        put_value(out, &pair.1)?;
    }
    Ok(())
}

/// A name after its length octet.
fn put_name(out: &mut Vec<u8>, name: &ShortStr) -> Result<(), ValueFault>
    ensures ok { OnOk result (out.new.items ≡ out.old.items ++ plain_short_string name.now) }
    ensures encoded { EncodesShortString name.now (plain_short_string name.now) }
    ensures err { IfErr result (λ e. e ≡ out_of_memory) }
    ensures kept { OnErr result (take (length out.old.items) out.new.items ≡ out.old.items) }
{
    let octets = name.as_bytes();
    put_field(out, &[octets.len() as u8])?;
    put_field(out, octets)
}

/// Appends the table's one plain encoding. TooLong at 0 where a count inside passes 4294967295; after a
/// fault the output is as it was.
pub fn write_table(table: &Table, out: &mut Vec<u8>) -> Result<(), ValueFault>
    ensures { WritesTable (table_view table.now) out.old.items result out.new.items }
{
    let start = out.len();
    if let Err(fault) = put_outer(out, table.pairs()) {
        out.truncate(start);
        return Err(fault);
    }
    Ok(())
}

/// A table without a tag: its count and its pairs.
fn put_outer(out: &mut Vec<u8>, pairs: &[(ShortStr, Value)]) -> Result<(), ValueFault>
    ensures ok { OnOk result (out.new.items ≡ out.old.items ++ plain_table (pairs_view pairs.now)) }
    ensures encoded { OnOk result (EncodesField (table_of (pairs_view pairs.now))
        (plain_table (pairs_view pairs.now))) }
    ensures err { IfErr result (λ e. (e ≡ fault_at 0 TooLong) ⊎ (e ≡ out_of_memory)) }
    ensures too_long { result ≡ Err (fault_at 0 TooLong) → CountsFit (table_of (pairs_view pairs.now)) → ⊥ }
    ensures kept { OnErr result (take (length out.old.items) out.new.items ≡ out.old.items) }
{
    let hole = out.len();
    put_field(out, &[0; 4])?;
    put_pairs(out, pairs)?;
    fill_count(out, hole)
}
