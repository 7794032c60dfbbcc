//! What calls ask of the allocator. By themselves these tests compare answers; where requests are counted between the marks
//! (`checks/memory/count.c`, preloaded), they show which call takes how much.
use crate::marking::mark;
use crate::showing::{assert_same, assert_same_for};
use amqp_method::{Method, read_method, write_method};
use std::alloc::Global;
use std::process::Abort;
use std::test::Fail;

/// Writes a method between the marks, and compares what is written.
fn write_between(
    rt: &impl Abort,
    alloc: Global,
    part: u8,
    method: &Method,
    octets: &[u8],
) -> Result<(), Fail> {
    let mut out = Vec::with_capacity(alloc, 100)?;
    mark(rt, alloc, part)?;
    write_method(method, &mut out)?;
    mark(rt, alloc, 0)?;
    assert_same(rt, out.as_slice(), octets);
    Ok(())
}

/// Reads a method between the marks, writes it between the next, and says how many arguments it has, if it is one.
fn method_between(
    rt: &impl Abort,
    alloc: Global,
    part: u8,
    digits: &str,
) -> Result<Option<usize>, Fail> {
    let octets = hex::decode(alloc, digits)?;
    mark(rt, alloc, part)?;
    let read = read_method(alloc, &octets).ok();
    mark(rt, alloc, 0)?;
    let Some(method) = read else {
        return Ok(None);
    };
    write_between(rt, alloc, part.wrapping_add(1), &method, &octets)?;
    Ok(Some(method.args().len()))
}

/// The first of two parts of the count, octets in hexadecimal, and how many arguments they have, if they are a method.
static METHODS: [(u8, &str, Option<usize>); 4] = [
    // tx.select, basic.publish with two short names, a string that is announced, an unknown method
    (30, "005a000a", Some(0)),
    (32, "003c002800000165016200", Some(4)),
    (34, "000a0014ffffffff", None),
    (36, "003c0079", None),
];

#[test]
fn methods_take_what_they_have(rt: HostRuntime) -> Result<(), Fail> {
    for (part, digits, args) in METHODS.iter().copied() {
        assert_same_for(
            &rt,
            method_between(&rt, rt.alloc(), part, digits)?,
            args,
            digits,
        );
    }
    Ok(())
}
