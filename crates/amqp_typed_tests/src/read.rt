//! Each method read from its octets: into its struct, and back.
use crate::samples::{BASIC, CHANNEL, CONFIRM, CONNECTION, EXCHANGE, QUEUE, Sample, TX};
use crate::showing::{assert_method, assert_text};
use amqp_method::{Method, read_method};
use amqp_typed::AnyMethod;
use std::alloc::Global;
use std::process::Abort;
use std::test::Fail;

fn read(alloc: Global, octets: &str) -> Result<Method, Fail> {
    Ok(read_method(alloc, hex::decode(alloc, octets)?.as_slice())?)
}

fn assert_printed(
    rt: &impl Abort,
    alloc: Global,
    method: &AnyMethod,
    wanted: &str,
) -> Result<(), Fail> {
    assert_text(rt, format!(in alloc; "{method:?}")?.as_str(), wanted);
    Ok(())
}

fn assert_sample(rt: &impl Abort, alloc: Global, octets: &str, wanted: &str) -> Result<(), Fail> {
    let method = AnyMethod::from_method(read(alloc, octets)?);
    let printed = assert_printed(rt, alloc, &method, wanted);
    let back = method.into_method(alloc);
    printed?;
    assert_method(rt, alloc, back?, octets)
}

fn assert_samples(rt: &impl Abort, alloc: Global, samples: &[Sample]) -> Result<(), Fail> {
    for (octets, wanted) in samples.iter().copied() {
        assert_sample(rt, alloc, octets, wanted)?;
    }
    Ok(())
}

#[test]
fn each_method_is_read_and_written(rt: HostRuntime) -> Result<(), Fail> {
    assert_samples(&rt, rt.alloc(), &CONNECTION)?;
    assert_samples(&rt, rt.alloc(), &CHANNEL)?;
    assert_samples(&rt, rt.alloc(), &EXCHANGE)?;
    assert_samples(&rt, rt.alloc(), &QUEUE)?;
    assert_samples(&rt, rt.alloc(), &BASIC)?;
    assert_samples(&rt, rt.alloc(), &TX)?;
    assert_samples(&rt, rt.alloc(), &CONFIRM)
}
