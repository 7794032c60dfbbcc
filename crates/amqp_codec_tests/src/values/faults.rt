//! The number and the text of every fault of a value.
use crate::showing::{assert_number, assert_printed, assert_shown};
use amqp_value::{OutOfMemory, ValueFault, ValueFaultKind};
use std::alloc::Global;
use std::process::Abort;
use std::test::Fail;

/// Each kind with its number, its text and its name.
static KINDS: [(ValueFaultKind, u8, &str, &str); 6] = [
    (ValueFaultKind::Ends, 1, "the octets end early", "Ends"),
    (ValueFaultKind::UnknownTag, 2, "unknown tag", "UnknownTag"),
    (
        ValueFaultKind::PassesItsEnd,
        3,
        "an element passes the end of its table or array",
        "PassesItsEnd",
    ),
    (
        ValueFaultKind::TooDeep,
        4,
        "tables and arrays nest too deep",
        "TooDeep",
    ),
    (
        ValueFaultKind::OutOfMemory,
        5,
        "out of memory",
        "OutOfMemory",
    ),
    (
        ValueFaultKind::TooLong,
        6,
        "too long to be written",
        "TooLong",
    ),
];

fn assert_kinds(rt: &impl Abort, alloc: Global) -> Result<(), Fail> {
    for (kind, number, text, name) in KINDS.iter().copied() {
        assert_number(rt, kind.number(), number, name);
        assert_printed(rt, alloc, &kind, text, name)?;
    }
    Ok(())
}

#[test]
fn faults_of_values(rt: HostRuntime) -> Result<(), Fail> {
    assert_kinds(&rt, rt.alloc())?;
    let fault = ValueFault {
        at: 70_000,
        kind: ValueFaultKind::UnknownTag,
    };
    assert_shown(&rt, rt.alloc(), &fault, "unknown tag at octet 70000")?;
    assert_shown(&rt, rt.alloc(), &OutOfMemory, "out of memory")
}
