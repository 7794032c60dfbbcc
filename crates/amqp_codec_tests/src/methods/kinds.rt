//! Each kind of method: made, written, read and printed, against octets and texts that are known.
use crate::methods::samples::{
    BASIC, CHANNEL, CONNECTION, EXCHANGE, Given, QUEUE, Sample, TABLE, TX_AND_CONFIRM,
};
use crate::showing::{assert_for, assert_same, assert_same_for, assert_text};
use amqp_method::{Arg, Kind, Method, fits, method_text, read_method, write_method};
use amqp_value::{ShortStr, Table, Value, write_table};
use std::alloc::Global;
use std::process::Abort;
use std::test::Fail;

/// The table whose octets are [`TABLE`].
fn table(alloc: Global) -> Result<Table, Fail> {
    let name = ShortStr::new(alloc, b"k")?;
    let mut table = Table::new(alloc);
    table.push(name, Value::Boolean(true))?;
    Ok(table)
}

/// The argument that is given.
fn made(alloc: Global, given: Given) -> Result<Arg, Fail> {
    Ok(match given {
        Given::Bit(holds) => Arg::Bit(holds),
        Given::Octet(number) => Arg::Octet(number),
        Given::Short(number) => Arg::Short(number),
        Given::Long(number) => Arg::Long(number),
        Given::LongLong(number) => Arg::LongLong(number),
        Given::Text(text) => Arg::ShortStr(ShortStr::new(alloc, text.as_bytes())?),
        Given::LongText(text) => Arg::LongStr(Vec::from_slice(alloc, text.as_bytes())?),
        Given::Table => Arg::Table(table(alloc)?),
    })
}

fn is_text(octets: &[u8], wanted: &str) -> bool {
    octets == wanted.as_bytes()
}

fn is_table(alloc: Global, table: &Table) -> Result<bool, Fail> {
    let mut octets = Vec::new(alloc);
    write_table(table, &mut octets)?;
    let digits = hex::encode(alloc, octets.as_slice())?;
    Ok(is_text(digits.as_bytes(), TABLE))
}

/// Whether the argument is of the kind that is given, and has its value.
fn is_given(alloc: Global, arg: &Arg, given: Given) -> Result<bool, Fail> {
    Ok(match (arg, given) {
        (Arg::Bit(holds), Given::Bit(wanted)) => *holds == wanted,
        (Arg::Octet(number), Given::Octet(wanted)) => *number == wanted,
        (Arg::Short(number), Given::Short(wanted)) => *number == wanted,
        (Arg::Long(number), Given::Long(wanted)) => *number == wanted,
        (Arg::LongLong(number), Given::LongLong(wanted)) => *number == wanted,
        (Arg::ShortStr(text), Given::Text(wanted)) => is_text(text.as_bytes(), wanted),
        (Arg::LongStr(octets), Given::LongText(wanted)) => is_text(octets, wanted),
        (Arg::Table(table), Given::Table) => is_table(alloc, table)?,
        _ => false,
    })
}

fn written(alloc: Global, method: &Method) -> Result<String, Fail> {
    let mut octets = Vec::new(alloc);
    write_method(method, &mut octets)?;
    Ok(hex::encode(alloc, octets.as_slice())?)
}

fn made_all(alloc: Global, given: &[Given]) -> Result<Vec<Arg>, Fail> {
    let mut args = Vec::new(alloc);
    for one in given {
        args.push(made(alloc, *one)?)?;
    }
    Ok(args)
}

fn assert_written(
    rt: &impl Abort,
    alloc: Global,
    method: &Method,
    octets: &str,
    text: &str,
) -> Result<(), Fail> {
    assert_text(rt, written(alloc, method)?.as_str(), octets);
    assert_text(rt, method_text(method)?.as_str(), text);
    Ok(())
}

/// A method of that kind is made of the arguments that are given, and has those octets and that text.
fn assert_made(
    rt: &impl Abort,
    alloc: Global,
    kind: Kind,
    given: &[Given],
    octets: &str,
    text: &str,
) -> Result<(), Fail> {
    let args = made_all(alloc, given)?;
    assert!(rt; fits(kind, &args), "for {text}");
    let method = Method::new(kind, args);
    assert_written(rt, alloc, &method, octets, text)
}

fn assert_args(
    rt: &impl Abort,
    alloc: Global,
    args: &[Arg],
    given: &[Given],
    octets: &str,
) -> Result<(), Fail> {
    assert_same_for(rt, args.len(), given.len(), octets);
    for (arg, wanted) in args.iter().zip(given.iter()) {
        assert_for(rt, is_given(alloc, arg, *wanted)?, (wanted, octets));
    }
    Ok(())
}

/// A copy of a method is of its kind, with the arguments that are given.
fn assert_copied(
    rt: &impl Abort,
    alloc: Global,
    method: &Method,
    given: &[Given],
    octets: &str,
) -> Result<(), Fail> {
    let copy = method.copy()?;
    assert_same(rt, copy.kind(), method.kind());
    assert_args(rt, alloc, copy.args(), given, octets)
}

/// The octets are read as a method of that kind with the arguments that are given, and so is a copy of it.
fn assert_read(
    rt: &impl Abort,
    alloc: Global,
    kind: Kind,
    given: &[Given],
    octets: &str,
) -> Result<(), Fail> {
    let read = read_method(alloc, hex::decode(alloc, octets)?.as_slice())?;
    assert_same(rt, read.kind(), kind);
    assert_args(rt, alloc, read.args(), given, octets)?;
    assert_copied(rt, alloc, &read, given, octets)
}

fn assert_samples(rt: &impl Abort, alloc: Global, samples: &[Sample]) -> Result<(), Fail> {
    for (kind, given, octets, text) in samples.iter().copied() {
        assert_made(rt, alloc, kind, given, octets, text)?;
        assert_read(rt, alloc, kind, given, octets)?;
    }
    Ok(())
}

#[test]
fn each_method_has_its_octets(rt: HostRuntime) -> Result<(), Fail> {
    assert_samples(&rt, rt.alloc(), &CONNECTION)?;
    assert_samples(&rt, rt.alloc(), &CHANNEL)?;
    assert_samples(&rt, rt.alloc(), &EXCHANGE)?;
    assert_samples(&rt, rt.alloc(), &QUEUE)?;
    assert_samples(&rt, rt.alloc(), &BASIC)?;
    assert_samples(&rt, rt.alloc(), &TX_AND_CONFIRM)
}
