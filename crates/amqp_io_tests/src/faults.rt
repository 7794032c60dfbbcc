//! The numbers and the texts of faults.
use crate::steps::assert_text;
use amqp_core::CoreFault;
use amqp_io::{IoFault, OutOfMemory, StreamFailed};
use std::alloc::Global;
use std::process::Abort;
use std::test::Fail;

#[test]
fn texts_of_failures(rt: HostRuntime) -> Result<(), Fail> {
    let text = format!(in rt.alloc(); "{}", StreamFailed)?;
    assert_text(&rt, text.as_str(), "the stream failed", "StreamFailed");
    let text = format!(in rt.alloc(); "{}", OutOfMemory)?;
    assert_text(&rt, text.as_str(), "out of memory", "OutOfMemory");
    Ok(())
}

/// The fault's number and text, one after the other.
fn assert_fault(rt: &impl Abort, alloc: Global, fault: IoFault, wanted: &str) -> Result<(), Fail> {
    let number = fault.number();
    let text = format!(in alloc; "{number} {fault}")?;
    assert_text(rt, text.as_str(), wanted, "a fault");
    Ok(())
}

#[test]
fn numbers_and_texts_of_faults(rt: HostRuntime) -> Result<(), Fail> {
    let alloc = rt.alloc();
    let core = IoFault::Core(CoreFault::Failed);
    assert_fault(&rt, alloc, IoFault::Read, "1 the stream failed in a read")?;
    assert_fault(&rt, alloc, IoFault::Write, "2 the stream failed in a write")?;
    assert_fault(&rt, alloc, IoFault::EndOfInput, "3 the input has ended")?;
    assert_fault(&rt, alloc, core, "4 fed after a fault")?;
    assert!(rt; IoFault::Core(CoreFault::Fatal).number() == 4);
    assert_fault(&rt, alloc, IoFault::OutOfMemory, "5 out of memory")
}
