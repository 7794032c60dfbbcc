//! What calls ask of the allocator. By themselves these tests compare answers; where requests are counted between the marks
//! (`checks/memory/count.c`, preloaded), they show which call takes how much.
use crate::marking::mark;
use crate::showing::assert_same_for;
use amqp_value::{Table, Value, ValueFault, ValueFaultKind, read_table};
use std::alloc::Global;
use std::process::Abort;
use std::test::Fail;

/// Reads a table between the marks, and says how many pairs it has, if it is one.
fn read_between(
    rt: &impl Abort,
    alloc: Global,
    part: u8,
    digits: &str,
) -> Result<Option<usize>, Fail> {
    let octets = hex::decode(alloc, digits)?;
    mark(rt, alloc, part)?;
    let read = read_table(alloc, &octets).ok();
    mark(rt, alloc, 0)?;
    Ok(read.map(|(table, _)| table.pairs().len()))
}

/// The part of the count, octets in hexadecimal, and how many pairs they have, if they are a table.
static TABLES: [(u8, &str, Option<usize>); 12] = [
    // an outer count, a string's, an array's and a table's that are greater than what is there
    (10, "ffffffff", None),
    (11, "00000007016153ffffffff", None),
    (12, "00000007016141ffffffff", None),
    (13, "00000007016146ffffffff", None),
    // no pairs, one, nine
    (14, "00000000", Some(0)),
    (15, "0000000401617401", Some(1)),
    (
        16,
        "0000001b016156016256016356016456016556016656016756016856016956",
        Some(9),
    ),
    // arrays in arrays, as they are and with a count that is greater than what is there
    (17, "000000110161410000000a41000000054100000000", Some(1)),
    (18, "000000110161410000000a41000000ff4100000000", None),
    // a string of 23 octets, one of 24, and a byte array of as many
    (
        19,
        "0000001e016153000000176162636465666768696a6b6c6d6e6f7071727374757677",
        Some(1),
    ),
    (
        20,
        "0000001f016153000000186162636465666768696a6b6c6d6e6f707172737475767778",
        Some(1),
    ),
    (
        21,
        "0000001f016178000000186162636465666768696a6b6c6d6e6f707172737475767778",
        Some(1),
    ),
];

#[test]
fn tables_take_what_they_have(rt: HostRuntime) -> Result<(), Fail> {
    for (part, digits, pairs) in TABLES.iter().copied() {
        assert_same_for(
            &rt,
            read_between(&rt, rt.alloc(), part, digits)?,
            pairs,
            digits,
        );
    }
    Ok(())
}

/// The count 4, and the pair of the name `a` and the truth value that holds.
static ONE_PAIR: [u8; 8] = [0, 0, 0, 4, 1, b'a', b't', 1];

/// Whether a table has that pair alone.
fn is_one_pair(table: &Table) -> bool {
    match table.pairs() {
        [(name, Value::Boolean(true))] => name.as_bytes() == b"a".as_slice(),
        _ => false,
    }
}

/// What is said of the octets of one pair.
fn read_one_pair(alloc: Global) -> Result<&'static str, ValueFault> {
    let (table, taken) = match read_table(alloc, &ONE_PAIR) {
        Ok(read) => read,
        Err(fault) => return Err(fault),
    };
    let is_read = taken == ONE_PAIR.len() && is_one_pair(&table);
    drop(table);
    Ok(if is_read { "one pair" } else { "another table" })
}

/// A table is read, or memory is refused, and what came of it is printed.
#[test]
fn a_table_is_read_or_memory_is_refused(rt: HostRuntime) -> Result<(), Fail> {
    match read_one_pair(rt.alloc()) {
        Ok(read) => println!(rt; "table: {read}")?,
        Err(fault) => {
            assert!(rt; fault.kind == ValueFaultKind::OutOfMemory);
            println!(rt; "table: no memory")?;
        }
    }
    Ok(())
}
