//! Values and tables that are large in each of their dimensions, with ample memory, and the answers whole. A body that gives up with
//! "out of memory" where memory is at hand is proved; it is here that it is seen.
use crate::octets::{joined, octets};
use crate::showing::assert_same;
use crate::values::tables::written;
use amqp_value::{ShortStr, Table, Value, read_table, table_text, text_of};
use std::alloc::Global;
use std::process::Abort;
use std::test::Fail;

/// The count 100,000, in 32 bits.
const COUNT: [u8; 4] = [0, 1, 0x86, 0xa0];

fn assert_table(
    rt: &impl Abort,
    alloc: Global,
    table: &Table,
    octets: &[u8],
    text: usize,
) -> Result<(), Fail> {
    assert_same(rt, table_text(table)?.len(), text);
    assert!(rt; written(alloc, table)?.as_slice() == octets);
    Ok(())
}

/// A copy of a table has that text's length and those octets, and so has the table.
fn assert_copied(
    rt: &impl Abort,
    alloc: Global,
    table: &Table,
    octets: &[u8],
    text: usize,
) -> Result<(), Fail> {
    let copy = table.copy()?;
    assert_table(rt, alloc, table, octets, text)?;
    assert_table(rt, alloc, &copy, octets, text)
}

/// A table of one pair, whose value has that tag and 100,000 octets.
fn long_value(alloc: Global, tag: u8) -> Result<Vec<u8>, Fail> {
    let text = octets(alloc, 100_000)?;
    let start = [0, 1, 0x86, 0xa7, 1, b'v', tag];
    joined(alloc, &[&start, &COUNT, &text])
}

fn assert_long(rt: &impl Abort, alloc: Global, tag: u8, text: usize) -> Result<(), Fail> {
    let whole = long_value(alloc, tag)?;
    let (table, read) = read_table(alloc, &whole)?;
    assert_same(rt, read, whole.len());
    assert_copied(rt, alloc, &table, &whole, text)
}

#[test]
fn long_values_are_read_copied_written_and_printed(rt: HostRuntime) -> Result<(), Fail> {
    assert_long(&rt, rt.alloc(), b'S', 288_764)?;
    assert_long(&rt, rt.alloc(), b'x', 200_008)
}

fn ten_thousand_numbers(alloc: Global) -> Result<Value, Fail> {
    let mut values = Vec::new(alloc);
    for _ in 0..10_000 {
        values.push(Value::ShortUint(65_535))?;
    }
    Ok(Value::Array(values))
}

fn push_long_name(alloc: Global, table: &mut Table) -> Result<(), Fail> {
    table.push(ShortStr::new(alloc, &[7; 255])?, Value::Void)?;
    Ok(())
}

fn ten_thousand_names(alloc: Global) -> Result<Table, Fail> {
    let mut table = Table::new(alloc);
    for _ in 0..10_000 {
        push_long_name(alloc, &mut table)?;
    }
    Ok(table)
}

fn assert_numbers(rt: &impl Abort, alloc: Global) -> Result<(), Fail> {
    let copy = ten_thousand_numbers(alloc)?.copy()?;
    assert_same(rt, text_of(alloc, &copy)?.len(), 80_002);
    Ok(())
}

fn assert_names(rt: &impl Abort, alloc: Global) -> Result<(), Fail> {
    let copy = ten_thousand_names(alloc)?.copy()?;
    assert_same(rt, copy.pairs().len(), 10_000);
    assert_same(rt, written(alloc, &copy)?.len(), 2_570_004);
    Ok(())
}

#[test]
fn many_values_are_copied_and_printed(rt: HostRuntime) -> Result<(), Fail> {
    assert_numbers(&rt, rt.alloc())?;
    assert_names(&rt, rt.alloc())
}
