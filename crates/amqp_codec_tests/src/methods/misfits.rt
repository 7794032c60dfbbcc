//! Arguments that don't fit a method: the place of the first of them, and all of them given back.
use crate::showing::{assert_same_for, assert_shown};
use amqp_method::{Arg, Kind, Method, Misfit};
use std::alloc::Global;
use std::process::Abort;
use std::test::Fail;

/// The arguments of these kinds, in order: `n` for a number of 64 bits, `b` for a bit.
fn made(alloc: Global, kinds: &str) -> Result<Vec<Arg>, Fail> {
    let mut args = Vec::new(alloc);
    for kind in kinds.as_bytes() {
        args.push(if *kind == b'n' {
            Arg::LongLong(7)
        } else {
            Arg::Bit(true)
        })?;
    }
    Ok(args)
}

fn assert_misfit(
    rt: &impl Abort,
    alloc: Global,
    misfit: &Misfit,
    kinds: &str,
    text: &str,
) -> Result<(), Fail> {
    assert_same_for(rt, misfit.args.len(), kinds.len(), kinds);
    assert_shown(rt, alloc, misfit, text)
}

/// A basic.ack of arguments of these kinds.
fn assert_refused(rt: &impl Abort, alloc: Global, kinds: &str, text: &str) -> Result<(), Fail> {
    match Method::try_new(Kind::BasicAck, made(alloc, kinds)?) {
        Ok(_) => assert!(rt; false, "for {kinds}"),
        Err(misfit) => assert_misfit(rt, alloc, &misfit, kinds, text)?,
    }
    Ok(())
}

/// A basic.ack has a delivery tag and a bit.
#[test]
fn a_misfit_has_its_place(rt: HostRuntime) -> Result<(), Fail> {
    let alloc = rt.alloc();
    assert_refused(&rt, alloc, "", "argument 0 doesn't fit the method")?;
    assert_refused(&rt, alloc, "bb", "argument 0 doesn't fit the method")?;
    assert_refused(&rt, alloc, "n", "argument 1 doesn't fit the method")?;
    assert_refused(&rt, alloc, "nn", "argument 1 doesn't fit the method")?;
    assert_refused(&rt, alloc, "nbb", "argument 2 doesn't fit the method")
}
