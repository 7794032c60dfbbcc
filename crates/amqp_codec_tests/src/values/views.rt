//! Views: tables, arrays and values where they lie in octets, and the check before them.
use crate::showing::{assert_printed, assert_same, assert_same_for, assert_text};
use amqp_value::ValueFaultKind::{self, Ends, PassesItsEnd, TooDeep, UnknownTag};
use amqp_value::{TableRef, ValueFault, ValueRef, check_table, read_table, table_text, text_of};
use std::alloc::Global;
use std::process::Abort;
use std::test::Fail;

/// A pair of each tag, under the letter of the tag.
const EVERY_TAG: &str =
    "0000008d0174740101626280014242ff017373fffe0155558000017575ffff014949ffffffff016969ffffffff016c6c8000000000000000014c4c7fffffffffffffff0166663f8000000164643ff00000000000000144440200000003015454ffffffffffffffff0156560153530000000268690178780000000100014141000000047401620501464600000003016b56";

/// The numbers that stand there, each under the letter of its tag.
static NUMBERS: [(&[u8], i64); 9] = [
    (b"b", -128),
    (b"B", 255),
    (b"s", -2),
    (b"U", -32768),
    (b"u", 65535),
    (b"I", -1),
    (b"i", 4294967295),
    (b"l", -9223372036854775808),
    (b"L", 9223372036854775807),
];

/// The text of each value that is no number, as an owned value has it.
static OTHERS: [(&[u8], &str); 10] = [
    (b"t", "t:1"),
    (b"f", "f:3f800000"),
    (b"d", "d:3ff0000000000000"),
    (b"D", "D:2:3"),
    (b"T", "T:18446744073709551615"),
    (b"V", "V"),
    (b"S", "S:\"hi\""),
    (b"x", "x:00"),
    (b"A", "A[t:1,b:5]"),
    (b"F", "F{\"k\"=V}"),
];

fn get<'a>(rt: &impl Abort, table: TableRef<'a>, name: &[u8]) -> ValueRef<'a> {
    match table.get(name) {
        Some(value) => value,
        None => panic!(rt; "no pair has the name"),
    }
}

fn assert_number(
    rt: &impl Abort,
    alloc: Global,
    value: ValueRef<'_>,
    number: i64,
) -> Result<(), Fail> {
    assert_same(rt, value.as_i64(), Some(number));
    assert_same(rt, value.to_owned(alloc)?.as_i64(), Some(number));
    assert_same(rt, value.as_u64(), u64::try_from(number).ok());
    assert_same(rt, value.as_bool(), None);
    assert!(rt; value.as_bytes().is_none());
    Ok(())
}

#[test]
fn numbers_where_they_lie(rt: HostRuntime) -> Result<(), Fail> {
    let octets = hex::decode(rt.alloc(), EVERY_TAG)?;
    let table = TableRef::new(&octets)?;
    for (name, number) in NUMBERS.iter().copied() {
        assert_number(&rt, rt.alloc(), get(&rt, table, name), number)?;
    }
    Ok(())
}

#[test]
fn other_values_where_they_lie(rt: HostRuntime) -> Result<(), Fail> {
    let octets = hex::decode(rt.alloc(), EVERY_TAG)?;
    let table = TableRef::new(&octets)?;
    for (name, text) in OTHERS.iter().copied() {
        let value = get(&rt, table, name);
        assert_same(&rt, value.as_i64(), None);
        assert_text(
            &rt,
            text_of(rt.alloc(), &value.to_owned(rt.alloc())?)?.as_str(),
            text,
        );
        assert_printed(&rt, rt.alloc(), &value, text, text)?;
    }
    Ok(())
}

#[test]
fn pairs_in_their_order(rt: HostRuntime) -> Result<(), Fail> {
    let octets = hex::decode(rt.alloc(), EVERY_TAG)?;
    let mut names = Vec::new(rt.alloc());
    for (name, _) in TableRef::new(&octets)?.iter() {
        names.extend_from_slice(name)?;
    }
    assert!(rt; names.as_slice() == b"tbBsUuIilLfdDTVSxAF".as_slice());
    Ok(())
}

#[test]
fn what_lent_values_hold(rt: HostRuntime) -> Result<(), Fail> {
    let octets = hex::decode(rt.alloc(), EVERY_TAG)?;
    let table = TableRef::new(&octets)?;
    assert_same(&rt, get(&rt, table, b"t").as_bool(), Some(true));
    assert!(rt; get(&rt, table, b"S").as_bytes() == Some(b"hi"));
    assert!(rt; get(&rt, table, b"x").as_bytes() == Some(b"\x00"));
    assert!(rt; get(&rt, table, b"S").as_array().is_none());
    assert!(rt; get(&rt, table, b"A").as_table().is_none());
    assert!(rt; get(&rt, table, b"F").get(b"k").is_some());
    assert!(rt; get(&rt, table, b"F").get(b"K").is_none());
    assert!(rt; table.get(b"z").is_none());
    Ok(())
}

#[test]
fn values_of_a_lent_array(rt: HostRuntime) -> Result<(), Fail> {
    let octets = hex::decode(rt.alloc(), EVERY_TAG)?;
    let Some(array) = get(&rt, TableRef::new(&octets)?, b"A").as_array() else {
        panic!(rt; "no array");
    };
    let mut values = array.iter();
    assert_same(
        &rt,
        values.next().and_then(|value| value.as_bool()),
        Some(true),
    );
    assert_same(&rt, values.next().and_then(|value| value.as_i64()), Some(5));
    assert!(rt; values.next().is_none());
    Ok(())
}

/// A name twice, and the second pair's value a table with a table in it: the first pair counts.
const REPEATED: &str = "0000001c01614900000001016149000000020162460000000701634600000000";

#[test]
fn the_first_pair_of_a_name(rt: HostRuntime) -> Result<(), Fail> {
    let octets = hex::decode(rt.alloc(), REPEATED)?;
    let table = TableRef::new(&octets)?;
    assert_same(&rt, table.octets().len(), 32);
    assert_same(&rt, get(&rt, table, b"a").as_i64(), Some(1));
    let Some(inner) = get(&rt, table, b"b")
        .get(b"c")
        .and_then(|value| value.as_table())
    else {
        panic!(rt; "no nested table");
    };
    assert!(rt; inner.is_empty());
    assert!(rt; inner.octets() == b"\x00\x00\x00\x00".as_slice());
    assert!(rt; !table.is_empty());
    Ok(())
}

/// Its text.
const REPEATED_TEXT: &str = "{\"a\"=I:1,\"a\"=I:2,\"b\"=F{\"c\"=F{}}}";

#[test]
fn a_lent_table_made_owned(rt: HostRuntime) -> Result<(), Fail> {
    let octets = hex::decode(rt.alloc(), REPEATED)?;
    let lent = TableRef::new(&octets)?;
    let table = lent.to_owned(rt.alloc())?;
    assert_text(&rt, table_text(&table)?.as_str(), REPEATED_TEXT);
    assert_printed(&rt, rt.alloc(), &lent, REPEATED_TEXT, REPEATED_TEXT)
}

/// Tables beside `{"a"=t:1,"b"=A[b:5]}`, and whether they are the same. A truth value that holds is any octet but 0.
static BESIDE: [(&str, bool); 7] = [
    ("0000000d01617401016241000000026205", true),
    ("0000000d016174ff016241000000026205", true),
    ("0000000d01617400016241000000026205", false),
    ("0000000d01617401016241000000024205", false),
    ("0000000d01617401016341000000026205", false),
    ("0000000f016174010162410000000462056205", false),
    ("0000000401617401", false),
];

#[test]
fn lent_tables_compared(rt: HostRuntime) -> Result<(), Fail> {
    let octets = hex::decode(rt.alloc(), "0000000d01617401016241000000026205")?;
    let table = TableRef::new(&octets)?;
    for (digits, same) in BESIDE.iter().copied() {
        let others = hex::decode(rt.alloc(), digits)?;
        let other = TableRef::new(&others)?;
        assert_same_for(&rt, table == other, same, digits);
        assert_same_for(&rt, other == table, same, digits);
    }
    Ok(())
}

/// Octets that are no table, and their first fault with its place.
static BROKEN_TABLES: [(&str, ValueFaultKind, usize); 12] = [
    ("", Ends, 0),
    ("000000", Ends, 0),
    ("0000000501617401", Ends, 0),
    ("ffffffff", Ends, 0),
    ("0000000301617a", UnknownTag, 6),
    ("00000003016174", PassesItsEnd, 7),
    ("0000000105", PassesItsEnd, 4),
    ("000000020161", PassesItsEnd, 6),
    ("00000007016153ffffffff", PassesItsEnd, 7),
    ("00000007016146ffffffff", PassesItsEnd, 7),
    ("0000000a01614600000003016b74", PassesItsEnd, 14),
    ("00000009016141000000017401", PassesItsEnd, 12),
];

/// The check, the view and the owned reader report the same.
fn assert_broken(rt: &impl Abort, alloc: Global, octets: &[u8], kind: ValueFaultKind, at: usize) {
    let fault = Some(ValueFault { kind, at });
    assert_same(rt, check_table(octets).err(), fault);
    assert_same(rt, TableRef::new(octets).err(), fault);
    assert_same(rt, read_table(alloc, octets).err(), fault);
}

#[test]
fn the_first_fault_of_a_check(rt: HostRuntime) -> Result<(), Fail> {
    for (digits, kind, at) in BROKEN_TABLES.iter().copied() {
        let octets = hex::decode(rt.alloc(), digits)?;
        assert_broken(&rt, rt.alloc(), &octets, kind, at);
    }
    Ok(())
}

#[test]
fn a_check_stops_at_the_end_of_the_table(rt: HostRuntime) -> Result<(), Fail> {
    let octets = hex::decode(rt.alloc(), "0000000401617401ce")?;
    assert_same(&rt, check_table(&octets).ok(), Some(8));
    assert_same(&rt, TableRef::new(&octets)?.octets().len(), 8);
    Ok(())
}

/// A chain of so many arrays in a table, each with the next in it.
fn arrays(alloc: Global, levels: u32) -> Result<Vec<u8>, Fail> {
    let mut octets = Vec::new(alloc);
    let count = levels.wrapping_mul(5).wrapping_add(2);
    octets.extend_from_slice(&count.to_be_bytes())?;
    octets.extend_from_slice(b"\x01a")?;
    for level in 0..levels {
        octets.push(b'A')?;
        let inside = (levels - 1 - level).wrapping_mul(5);
        octets.extend_from_slice(&inside.to_be_bytes())?;
    }
    Ok(octets)
}

#[test]
fn a_check_goes_thirty_two_levels_deep(rt: HostRuntime) -> Result<(), Fail> {
    let deepest = arrays(rt.alloc(), 31)?;
    assert_same(&rt, check_table(&deepest).ok(), Some(161));
    let deeper = arrays(rt.alloc(), 32)?;
    assert_broken(&rt, rt.alloc(), &deeper, TooDeep, 161);
    Ok(())
}
