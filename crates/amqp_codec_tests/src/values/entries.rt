//! The pairs of a table: set, removed, and taken over.
use crate::showing::{assert_same, assert_text};
use amqp_value::ValueFaultKind::TooDeep;
use amqp_value::{ShortStr, Table, Value, ValueFault, table_text};
use std::alloc::Global;
use std::process::Abort;
use std::test::Fail;

fn name(alloc: Global, octets: &[u8]) -> Result<ShortStr, Fail> {
    Ok(ShortStr::new(alloc, octets)?)
}

/// The pairs `a` twice and `b`, with the numbers 1, 2 and 3.
fn pairs(alloc: Global) -> Result<Vec<(ShortStr, Value)>, Fail> {
    Ok(vec![in alloc;
        (name(alloc, b"a")?, Value::LongInt(1)),
        (name(alloc, b"a")?, Value::LongInt(2)),
        (name(alloc, b"b")?, Value::LongInt(3)),
    ]?)
}

fn table(alloc: Global, rt: &impl Abort) -> Result<Table, Fail> {
    match Table::from_pairs(pairs(alloc)?) {
        Ok(table) => Ok(table),
        Err(_) => panic!(rt; "too deep"),
    }
}

fn assert_table(rt: &impl Abort, table: &Table, text: &str) -> Result<(), Fail> {
    assert_text(rt, table_text(table)?.as_str(), text);
    Ok(())
}

#[test]
fn pairs_taken_over(rt: HostRuntime) -> Result<(), Fail> {
    let table = table(rt.alloc(), &rt)?;
    assert_table(&rt, &table, "{\"a\"=I:1,\"a\"=I:2,\"b\"=I:3}")
}

#[test]
fn a_value_set_where_the_name_stands(rt: HostRuntime) -> Result<(), Fail> {
    let mut table = table(rt.alloc(), &rt)?;
    let held = table.set(name(rt.alloc(), b"a")?, Value::Void)?;
    assert_same(&rt, held, Some(Value::LongInt(1)));
    assert_table(&rt, &table, "{\"a\"=V,\"a\"=I:2,\"b\"=I:3}")
}

#[test]
fn a_value_set_under_a_new_name(rt: HostRuntime) -> Result<(), Fail> {
    let mut table = table(rt.alloc(), &rt)?;
    let held = table.set(name(rt.alloc(), b"c")?, Value::Void)?;
    assert_same(&rt, held, None);
    assert_table(&rt, &table, "{\"a\"=I:1,\"a\"=I:2,\"b\"=I:3,\"c\"=V}")
}

#[test]
fn the_first_pair_of_a_name_removed(rt: HostRuntime) -> Result<(), Fail> {
    let mut table = table(rt.alloc(), &rt)?;
    assert_same(&rt, table.remove(b"a"), Some(Value::LongInt(1)));
    assert_table(&rt, &table, "{\"a\"=I:2,\"b\"=I:3}")?;
    assert_same(&rt, table.remove(b"z"), None);
    assert_table(&rt, &table, "{\"a\"=I:2,\"b\"=I:3}")
}

/// Arrays, one in another, so many levels deep.
fn arrays(alloc: Global, levels: u32) -> Result<Value, Fail> {
    let mut value = Value::Void;
    for _ in 0..levels {
        value = Value::Array(vec![in alloc; value]?);
    }
    Ok(value)
}

#[test]
fn no_value_is_set_too_deep(rt: HostRuntime) -> Result<(), Fail> {
    let mut table = table(rt.alloc(), &rt)?;
    let held = table.set(name(rt.alloc(), b"b")?, arrays(rt.alloc(), 31)?)?;
    assert_same(&rt, held, Some(Value::LongInt(3)));
    let refused = table.set(name(rt.alloc(), b"a")?, arrays(rt.alloc(), 32)?);
    assert_same(
        &rt,
        refused.err(),
        Some(ValueFault {
            at: 0,
            kind: TooDeep,
        }),
    );
    assert!(rt; table.get(b"a") == Some(&Value::LongInt(1)));
    Ok(())
}

#[test]
fn pairs_that_nest_too_deep_are_given_back(rt: HostRuntime) -> Result<(), Fail> {
    let mut deep = Vec::new(rt.alloc());
    deep.push((name(rt.alloc(), b"a")?, arrays(rt.alloc(), 32)?))?;
    assert_same(
        &rt,
        Table::from_pairs(deep).err().map(|pairs| pairs.len()),
        Some(1),
    );
    Ok(())
}
