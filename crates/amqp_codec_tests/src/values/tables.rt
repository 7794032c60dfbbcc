//! Tables: read, written and printed, their faults, their depth and their size.
use crate::showing::{assert_same, assert_text};
use amqp_value::ValueFaultKind::{self, Ends, PassesItsEnd, TooDeep, TooLong, UnknownTag};
use amqp_value::{
    ShortStr, Table, Value, ValueFault, read_table, table_text, text_of, write_table,
};
use std::alloc::Global;
use std::process::Abort;
use std::test::Fail;

fn octets_of(alloc: Global, digits: &str) -> Result<Vec<u8>, Fail> {
    Ok(hex::decode(alloc, digits)?)
}

/// The octets that a table is written in.
pub(crate) fn written(alloc: Global, table: &Table) -> Result<Vec<u8>, Fail> {
    let mut octets = Vec::new(alloc);
    write_table(table, &mut octets)?;
    Ok(octets)
}

fn assert_fault(rt: &impl Abort, told: Option<ValueFault>, at: usize, kind: ValueFaultKind) {
    assert_same(rt, told, Some(ValueFault { at, kind }));
}

fn assert_printed(
    rt: &impl Abort,
    alloc: Global,
    table: &Table,
    text: &str,
    digits: &str,
) -> Result<(), Fail> {
    assert_text(rt, table_text(table)?.as_str(), text);
    let octets = written(alloc, table)?;
    assert_text(rt, hex::encode(alloc, octets.as_slice())?.as_str(), digits);
    Ok(())
}

/// The octets are read as this table in the place of another, and have so many octets.
fn assert_read_from(rt: &impl Abort, alloc: Global, octets: &[u8], table: &Table, length: usize) {
    let mut place = Table::new(alloc);
    assert_same(rt, place.read_from(alloc, octets), Some(length));
    assert!(rt; place == *table);
}

/// The octets are those of a table with that text, which is written in the octets `again`.
///
/// Who has a table leaves by as few ways as can be: each is a proof that all of it is dropped.
pub(crate) fn assert_shown(
    rt: &impl Abort,
    alloc: Global,
    digits: &str,
    text: &str,
    again: &str,
) -> Result<(), Fail> {
    let octets = octets_of(alloc, digits)?;
    let (table, length) = read_table(alloc, &octets)?;
    assert_read_from(rt, alloc, &octets, &table, length);
    assert_printed(rt, alloc, &table, text, again)
}

fn fault(alloc: Global, digits: &str) -> Result<Option<ValueFault>, Fail> {
    let octets = octets_of(alloc, digits)?;
    Ok(read_table(alloc, &octets).err())
}

/// A chain of so many tables, one in another, each but the last with the name `a`.
fn chain(alloc: Global, tables: u32) -> Result<Vec<u8>, Fail> {
    let mut octets = Vec::new(alloc);
    for inside in 0..tables {
        let count = (tables - 1 - inside).wrapping_mul(7);
        octets.extend_from_slice(&count.to_be_bytes())?;
        if count > 0 {
            octets.extend_from_slice(b"\x01aF")?;
        }
    }
    Ok(octets)
}

const EVERY_TAG: &str =
    "0000009c0174740101626280014242ff017373fffe0155558000017575ffff014949ffffffff016969ffffffff016c6c8000000000000000014c4c7fffffffffffffff0166663f8000000164643ff000000000000001444402ffffffff015454ffffffffffffffff01565601535300000005225c417f0a0178780000000300ff8001414100000008740041000000005601464600000009016b56004600000000";

const EVERY_TEXT: &str =
    "{\"t\"=t:1,\"b\"=b:-128,\"B\"=B:255,\"s\"=s:-2,\"U\"=U:-32768,\"u\"=u:65535,\"I\"=I:-1,\"i\"=i:4294967295,\"l\"=l:-9223372036854775808,\"L\"=L:9223372036854775807,\"f\"=f:3f800000,\"d\"=d:3ff0000000000000,\"D\"=D:2:4294967295,\"T\"=T:18446744073709551615,\"V\"=V,\"S\"=S:\"\\x22\\x5cA\\x7f\\x0a\",\"x\"=x:00ff80,\"A\"=A[t:0,A[],V],\"F\"=F{\"k\"=V,\"\"=F{}}}";

#[test]
fn every_tag_once(rt: HostRuntime) -> Result<(), Fail> {
    assert_shown(&rt, rt.alloc(), EVERY_TAG, EVERY_TEXT, EVERY_TAG)
}

/// Octets of a table, its text, and the octets that it is written in.
static TABLES: [(&str, &str, &str); 6] = [
    ("00000000", "{}", "00000000"),
    ("0000000401617401", "{\"a\"=t:1}", "0000000401617401"),
    ("0000000401617402", "{\"a\"=t:1}", "0000000401617401"),
    ("00000005016173ffff", "{\"a\"=s:-1}", "00000005016173ffff"),
    (
        "0000000b01616cffffffffffffffff",
        "{\"a\"=l:-1}",
        "0000000b01616cffffffffffffffff",
    ),
    (
        "0000000a0161780000000300ff80",
        "{\"a\"=x:00ff80}",
        "0000000a0161780000000300ff80",
    ),
];

#[test]
fn tables_as_text_and_written_again(rt: HostRuntime) -> Result<(), Fail> {
    for (octets, text, again) in TABLES.iter().copied() {
        assert_shown(&rt, rt.alloc(), octets, text, again)?;
    }
    Ok(())
}

/// Octets that are no table, and their first fault with its place.
static BROKEN_TABLES: [(&str, ValueFaultKind, usize); 9] = [
    ("0000000301617a", UnknownTag, 6),
    ("00000003016174", PassesItsEnd, 7),
    ("0000000501617401", Ends, 0),
    ("ffffffff", Ends, 0),
    ("0000000105", PassesItsEnd, 4),
    ("000000020161", PassesItsEnd, 6),
    ("00000007016153ffffffff", PassesItsEnd, 7),
    ("00000007016141ffffffff", PassesItsEnd, 7),
    ("00000009016141000000017401", PassesItsEnd, 12),
];

/// Octets that are no table leave none in the place of another, though it had a pair.
fn assert_not_read_from(rt: &impl Abort, alloc: Global, octets: &[u8]) {
    let mut place = Table::new(alloc);
    assert_same(rt, place.read_from(alloc, ONE_PAIR), Some(8));
    assert_same(rt, place.pairs().len(), 1);
    assert_same(rt, place.read_from(alloc, octets), None);
    assert_same(rt, place.pairs().len(), 0);
}

/// The octets of a table of one pair.
static ONE_PAIR: &[u8] = b"\x00\x00\x00\x04\x01at\x01";

#[test]
fn the_first_fault(rt: HostRuntime) -> Result<(), Fail> {
    for (octets, kind, at) in BROKEN_TABLES.iter().copied() {
        assert_fault(&rt, fault(rt.alloc(), octets)?, at, kind);
        assert_not_read_from(&rt, rt.alloc(), &octets_of(rt.alloc(), octets)?);
    }
    Ok(())
}

/// The octets are those of a table of so many pairs, and no octet is left.
fn assert_read(rt: &impl Abort, alloc: Global, octets: &[u8], pairs: usize) -> Result<(), Fail> {
    let (table, length) = read_table(alloc, octets)?;
    assert_same(rt, length, octets.len());
    assert_same(rt, table.pairs().len(), pairs);
    assert_read_from(rt, alloc, octets, &table, length);
    Ok(())
}

#[test]
fn tables_nest_thirty_two_deep(rt: HostRuntime) -> Result<(), Fail> {
    let deepest = chain(rt.alloc(), 32)?;
    assert_read(&rt, rt.alloc(), &deepest, 1)?;
    let deeper = chain(rt.alloc(), 33)?;
    assert_fault(&rt, read_table(rt.alloc(), &deeper).err(), 223, TooDeep);
    assert_not_read_from(&rt, rt.alloc(), &deeper);
    Ok(())
}

fn array_of(alloc: Global, value: Value) -> Result<Value, Fail> {
    let mut values = Vec::new(alloc);
    values.push(value)?;
    Ok(Value::Array(values))
}

/// Arrays in arrays, so many levels deep.
fn arrays(alloc: Global, levels: u32) -> Result<Value, Fail> {
    let mut value = Value::Void;
    for _ in 0..levels {
        value = array_of(alloc, value)?;
    }
    Ok(value)
}

fn table_with(alloc: Global, value: Value) -> Result<Table, Fail> {
    let name = ShortStr::new(alloc, b"a")?;
    let mut table = Table::new(alloc);
    table.push(name, value)?;
    Ok(table)
}

fn assert_refused(
    rt: &impl Abort,
    alloc: Global,
    table: &mut Table,
    value: Value,
) -> Result<(), Fail> {
    let name = ShortStr::new(alloc, b"b")?;
    assert_fault(rt, table.push(name, value).err(), 0, TooDeep);
    assert_same(rt, table.pairs().len(), 1);
    Ok(())
}

#[test]
fn push_refuses_a_thirty_third_level(rt: HostRuntime) -> Result<(), Fail> {
    let deepest = arrays(rt.alloc(), 31)?;
    let mut table = table_with(rt.alloc(), deepest.copy()?)?;
    let deeper = array_of(rt.alloc(), deepest)?;
    assert_refused(&rt, rt.alloc(), &mut table, deeper)
}

pub(crate) fn push(
    alloc: Global,
    table: &mut Table,
    name: &[u8],
    value: Value,
) -> Result<(), Fail> {
    table.push(ShortStr::new(alloc, name)?, value)?;
    Ok(())
}

fn push_under_a_copy(
    alloc: Global,
    table: &mut Table,
    name: &[u8],
    value: Value,
) -> Result<(), Fail> {
    table.push(ShortStr::new(alloc, name)?.copy()?, value)?;
    Ok(())
}

fn three_pairs(alloc: Global) -> Result<Table, Fail> {
    let mut table = Table::new(alloc);
    push(alloc, &mut table, b"x", Value::ShortInt(-7))?;
    push(alloc, &mut table, b"x", Value::Void)?;
    push_under_a_copy(alloc, &mut table, &[b'n'; 255], Value::Boolean(false))?;
    Ok(table)
}

fn assert_copied(rt: &impl Abort, alloc: Global, table: &Table) -> Result<(), Fail> {
    let copied = table.copy()?;
    let again = written(alloc, &copied)?;
    let octets = written(alloc, table)?;
    assert_same(rt, octets.as_slice(), again.as_slice());
    assert_same(rt, octets.len(), 4 + 5 + 3 + 258);
    Ok(())
}

#[test]
fn a_table_is_made_and_copied(rt: HostRuntime) -> Result<(), Fail> {
    let text = text_of(rt.alloc(), &Value::ShortInt(-7))?;
    assert_text(&rt, text.as_str(), "U:-7");
    let table = three_pairs(rt.alloc())?;
    assert_copied(&rt, rt.alloc(), &table)
}

#[test]
fn a_name_has_at_most_255_octets(rt: HostRuntime) -> Result<(), Fail> {
    let name = ShortStr::new(rt.alloc(), &[0xff; 255])?;
    assert_same(&rt, name.as_bytes().len(), 255);
    assert_fault(&rt, ShortStr::new(rt.alloc(), &[0; 256]).err(), 0, TooLong);
    Ok(())
}

fn assert_written(
    rt: &impl Abort,
    alloc: Global,
    table: &Table,
    octets: &[u8],
) -> Result<(), Fail> {
    assert!(rt; written(alloc, table)?.as_slice() == octets);
    Ok(())
}

/// The octets, so many, are those of a table of so many pairs, and are written again.
fn assert_again(
    rt: &impl Abort,
    alloc: Global,
    octets: &[u8],
    count: usize,
    pairs: usize,
) -> Result<(), Fail> {
    let (table, length) = read_table(alloc, octets)?;
    assert_same(rt, length, count);
    assert_same(rt, table.pairs().len(), pairs);
    assert_written(rt, alloc, &table, octets)
}

#[test]
fn a_million_pairs(rt: HostRuntime) -> Result<(), Fail> {
    let mut octets = Vec::new(rt.alloc());
    octets.extend_from_slice(&2_000_000u32.to_be_bytes())?;
    for _ in 0..1_000_000 {
        octets.extend_from_slice(b"\0V")?;
    }
    assert_again(&rt, rt.alloc(), &octets, 2_000_004, 1_000_000)
}

#[test]
fn a_value_of_a_hundred_megabytes(rt: HostRuntime) -> Result<(), Fail> {
    let mut octets = Vec::new(rt.alloc());
    octets.extend_from_slice(b"\x05\xf5\xe1\x07\x01aS\x05\xf5\xe1\x00")?;
    octets.resize(100_000_011, 7)?;
    assert_again(&rt, rt.alloc(), &octets, 100_000_011, 1)
}
