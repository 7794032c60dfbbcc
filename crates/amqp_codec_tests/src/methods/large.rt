//! A method with an argument that is long, with ample memory, and the answers whole. A body that gives up with "out of memory" where
//! memory is at hand is proved; it is here that it is seen.
use crate::octets::{joined, octets};
use crate::showing::assert_same;
use amqp_method::{Arg, Kind, Method, fits, method_text, read_method, write_method};
use std::alloc::Global;
use std::process::Abort;
use std::test::Fail;

/// The count 100,000, in 32 bits.
const COUNT: [u8; 4] = [0, 1, 0x86, 0xa0];

fn assert_method(
    rt: &impl Abort,
    alloc: Global,
    method: &Method,
    octets: &[u8],
    text: usize,
) -> Result<(), Fail> {
    assert_same(rt, method_text(method)?.len(), text);
    let mut written = Vec::new(alloc);
    write_method(method, &mut written)?;
    assert!(rt; written.as_slice() == octets);
    Ok(())
}

fn assert_copied(
    rt: &impl Abort,
    alloc: Global,
    method: &Method,
    octets: &[u8],
    text: usize,
) -> Result<(), Fail> {
    let copy = method.copy()?;
    assert_method(rt, alloc, &copy, octets, text)
}

fn assert_read(rt: &impl Abort, alloc: Global, octets: &[u8], text: usize) -> Result<(), Fail> {
    let method = read_method(alloc, octets)?;
    assert_method(rt, alloc, &method, octets, text)?;
    assert_copied(rt, alloc, &method, octets, text)
}

/// A connection.secure with that challenge.
fn secure(rt: &impl Abort, alloc: Global, challenge: Vec<u8>) -> Result<Method, Fail> {
    let args = vec![in alloc; Arg::LongStr(challenge)]?;
    assert!(rt; fits(Kind::ConnectionSecure, &args));
    Ok(Method::new(Kind::ConnectionSecure, args))
}

#[test]
fn a_long_string_in_a_method(rt: HostRuntime) -> Result<(), Fail> {
    let challenge = octets(rt.alloc(), 100_000)?;
    let whole = joined(rt.alloc(), &[&[0, 10, 0, 20], &COUNT, &challenge])?;
    let method = secure(&rt, rt.alloc(), challenge)?;
    assert_method(&rt, rt.alloc(), &method, &whole, 288_784)?;
    assert_read(&rt, rt.alloc(), &whole, 288_784)
}
