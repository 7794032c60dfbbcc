//! Values: each variant made and read, and every octet in quotes.
use crate::octets::{QUOTED, every_octet};
use crate::showing::{assert_for, assert_same, assert_text};
use crate::values::tables::{push, written};
use amqp_value::{Octets, ShortStr, Table, Value, read_table, table_text, text_of};
use std::alloc::Global;
use std::process::Abort;
use std::test::Fail;

/// A value of each variant that takes no memory, with its tag.
fn scalars(alloc: Global) -> Result<Vec<(u8, Value)>, Fail> {
    let decimal = Value::Decimal {
        scale: 2,
        number: 4294967295,
    };
    Ok(vec![in alloc;
        (b't', Value::Boolean(true)),
        (b'b', Value::ShortShortInt(-128)),
        (b'B', Value::ShortShortUint(255)),
        (b's', Value::ErrataShortInt(-2)),
        (b'U', Value::ShortInt(-32768)),
        (b'u', Value::ShortUint(65535)),
        (b'I', Value::LongInt(-1)),
        (b'i', Value::LongUint(4294967295)),
        (b'l', Value::ErrataLongLongInt(-9223372036854775808)),
        (b'L', Value::LongLongInt(9223372036854775807)),
        (b'f', Value::Float([0x3f, 0x80, 0, 0])),
        (b'd', Value::Double([0x3f, 0xf0, 0, 0, 0, 0, 0, 0])),
        (b'D', decimal),
        (b'T', Value::Timestamp(18446744073709551615)),
        (b'V', Value::Void),
    ]?)
}

fn array(alloc: Global) -> Result<Value, Fail> {
    let empty = Value::Array(Vec::new(alloc));
    let values = vec![in alloc; Value::Boolean(false), empty, Value::Void]?;
    Ok(Value::Array(values))
}

fn nested(alloc: Global) -> Result<Value, Fail> {
    let first = (ShortStr::new(alloc, b"k")?, Value::Void);
    let second = (ShortStr::new(alloc, b"")?, Value::Table(Vec::new(alloc)));
    Ok(Value::Table(vec![in alloc; first, second]?))
}

/// Adds a value of each variant that takes memory, with its tag.
fn push_owned(alloc: Global, values: &mut Vec<(u8, Value)>) -> Result<(), Fail> {
    let text = Octets::new(alloc, b"\"\\A\x7f\n")?;
    values.push((b'S', Value::LongString(text)))?;
    let octets = Octets::new(alloc, b"\x00\xff\x80")?;
    values.push((b'x', Value::ByteArray(octets)))?;
    values.push((b'A', array(alloc)?))?;
    values.push((b'F', nested(alloc)?))?;
    Ok(())
}

/// Adds each value to a table, under the letter of its tag.
fn push_each(alloc: Global, table: &mut Table, values: Vec<(u8, Value)>) -> Result<(), Fail> {
    for (letter, value) in values {
        push(alloc, table, &[letter], value)?;
    }
    Ok(())
}

/// A table with a value of each variant, under the letter of its tag.
fn every_variant(alloc: Global) -> Result<Table, Fail> {
    let mut values = scalars(alloc)?;
    push_owned(alloc, &mut values)?;
    let mut table = Table::new(alloc);
    push_each(alloc, &mut table, values)?;
    Ok(table)
}

/// Whether the value is of the variant of that tag, and has the number that [`every_variant`] gave it.
fn is_of_tag(letter: u8, value: &Value) -> bool {
    match value {
        Value::Boolean(holds) => letter == b't' && *holds,
        Value::ShortShortInt(number) => letter == b'b' && *number == -128,
        Value::ShortShortUint(number) => letter == b'B' && *number == 255,
        Value::ErrataShortInt(number) => letter == b's' && *number == -2,
        Value::ShortInt(number) => letter == b'U' && *number == -32768,
        Value::ShortUint(number) => letter == b'u' && *number == 65535,
        Value::LongInt(number) => letter == b'I' && *number == -1,
        Value::LongUint(number) => letter == b'i' && *number == 4294967295,
        Value::ErrataLongLongInt(number) => letter == b'l' && *number == -9223372036854775808,
        Value::LongLongInt(number) => letter == b'L' && *number == 9223372036854775807,
        Value::Float(octets) => letter == b'f' && *octets == [0x3f, 0x80, 0, 0],
        Value::Double(octets) => letter == b'd' && *octets == [0x3f, 0xf0, 0, 0, 0, 0, 0, 0],
        Value::Decimal { scale, number } => letter == b'D' && *scale == 2 && *number == 4294967295,
        Value::Timestamp(number) => letter == b'T' && *number == 18446744073709551615,
        Value::Void => letter == b'V',
        Value::LongString(octets) => letter == b'S' && octets.len() == 5,
        Value::ByteArray(octets) => letter == b'x' && octets.len() == 3,
        Value::Array(values) => letter == b'A' && values.len() == 3,
        Value::Table(pairs) => letter == b'F' && pairs.len() == 2,
    }
}

const EVERY_VARIANT: &str = "\
0000009c\
01747401\
01626280\
014242ff\
017373fffe\
0155558000\
017575ffff\
014949ffffffff\
016969ffffffff\
016c6c8000000000000000\
014c4c7fffffffffffffff\
0166663f800000\
0164643ff0000000000000\
01444402ffffffff\
015454ffffffffffffffff\
015656\
01535300000005225c417f0a\
0178780000000300ff80\
014141000000087400410000000056\
01464600000009016b56004600000000";

fn assert_variant(rt: &impl Abort, name: &ShortStr, value: &Value) -> Result<(), Fail> {
    let letter = *name.as_bytes().first().ok_or("a name")?;
    assert_for(rt, is_of_tag(letter, value), letter);
    assert_for(rt, is_of_tag(letter, &value.copy()?), letter);
    Ok(())
}

fn assert_each_variant(rt: &impl Abort, table: &Table) -> Result<(), Fail> {
    assert_same(rt, table.pairs().len(), 19);
    for (name, value) in table.pairs() {
        assert_variant(rt, name, value)?;
    }
    Ok(())
}

fn assert_every_variant_read(rt: &impl Abort, alloc: Global) -> Result<(), Fail> {
    let octets = hex::decode(alloc, EVERY_VARIANT)?;
    let (table, length) = read_table(alloc, &octets)?;
    assert_same(rt, length, 160);
    assert_each_variant(rt, &table)
}

fn assert_every_variant_written(rt: &impl Abort, alloc: Global) -> Result<(), Fail> {
    let table = every_variant(alloc)?;
    let octets = written(alloc, &table)?;
    let digits = hex::encode(alloc, octets.as_slice())?;
    assert_text(rt, digits.as_str(), EVERY_VARIANT);
    Ok(())
}

#[test]
fn each_variant_is_written_and_read(rt: HostRuntime) -> Result<(), Fail> {
    assert_every_variant_written(&rt, rt.alloc())?;
    assert_every_variant_read(&rt, rt.alloc())
}

/// The text of each variant in a format string, one after the other.
const EVERY_TEXT: &str =
    "t:1;b:-128;B:255;s:-2;U:-32768;u:65535;I:-1;i:4294967295;l:-9223372036854775808;\
L:9223372036854775807;f:3f800000;d:3ff0000000000000;D:2:4294967295;T:18446744073709551615;V;\
S:\"\\x22\\x5cA\\x7f\\x0a\";x:00ff80;A[t:0,A[],V];F{\"k\"=V,\"\"=F{}};";

/// Each value of a table in a format string, one after the other.
fn values_text(alloc: Global, table: &Table) -> Result<String, Fail> {
    let mut text = String::new(alloc);
    for (_, value) in table.pairs() {
        write!(text, "{value};")?;
    }
    Ok(text)
}

#[test]
fn each_variant_in_a_format_string(rt: HostRuntime) -> Result<(), Fail> {
    let table = every_variant(rt.alloc())?;
    assert_text(&rt, values_text(rt.alloc(), &table)?.as_str(), EVERY_TEXT);
    Ok(())
}

/// A table of one pair: a name of the first half of the octets, and a string of them all.
fn table_of_octets(alloc: Global, octets: &[u8]) -> Result<Table, Fail> {
    let name = octets.get(..128).ok_or("short")?;
    let text = Value::LongString(Octets::new(alloc, octets)?);
    let mut table = Table::new(alloc);
    push(alloc, &mut table, name, text)?;
    Ok(table)
}

fn assert_table_text(rt: &impl Abort, alloc: Global, octets: &[u8]) -> Result<(), Fail> {
    let text = table_text(&table_of_octets(alloc, octets)?)?;
    let all = QUOTED;
    let (half, _) = all.split_once("\\x80").ok_or("no 80")?;
    let wanted = format!(in alloc; "{{\"{half}\"=S:\"{all}\"}}")?;
    assert_text(rt, text.as_str(), wanted.as_str());
    Ok(())
}

fn assert_string_text(rt: &impl Abort, alloc: Global, octets: Vec<u8>) -> Result<(), Fail> {
    let text = text_of(alloc, &Value::from(octets))?;
    let all = QUOTED;
    let wanted = format!(in alloc; "S:\"{all}\"")?;
    assert_text(rt, text.as_str(), wanted.as_str());
    Ok(())
}

#[test]
fn every_octet_is_quoted(rt: HostRuntime) -> Result<(), Fail> {
    let octets = every_octet(rt.alloc())?;
    assert_table_text(&rt, rt.alloc(), &octets)?;
    assert_string_text(&rt, rt.alloc(), octets)
}
