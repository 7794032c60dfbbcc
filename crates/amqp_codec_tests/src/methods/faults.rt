//! The number and the text of every fault of a method or a header, and how a kind of field prints for debugging.
use crate::showing::{assert_debug, assert_number, assert_printed, assert_same, assert_shown};
use amqp_method::{FieldKind, MethodFault, MethodFaultKind, OutOfMemory};
use amqp_value::ValueFaultKind;
use std::alloc::Global;
use std::process::Abort;
use std::test::Fail;

/// Each kind with its number, its text and its name, but for the faults of a value.
static KINDS: [(MethodFaultKind, u8, &str, &str); 5] = [
    (
        MethodFaultKind::UnknownMethod,
        1,
        "unknown method",
        "UnknownMethod",
    ),
    (
        MethodFaultKind::Trailing,
        3,
        "octets after the last field",
        "Trailing",
    ),
    (
        MethodFaultKind::BadWeight,
        4,
        "weight other than 0",
        "BadWeight",
    ),
    (MethodFaultKind::BadFlags, 5, "flag 1 or 0 set", "BadFlags"),
    (
        MethodFaultKind::OutOfMemory,
        6,
        "out of memory",
        "OutOfMemory",
    ),
];

fn assert_kinds(rt: &impl Abort, alloc: Global) -> Result<(), Fail> {
    for (kind, number, text, name) in KINDS.iter().copied() {
        assert_number(rt, kind.number(), number, name);
        assert_printed(rt, alloc, &kind, text, name)?;
    }
    Ok(())
}

#[test]
fn faults_of_methods(rt: HostRuntime) -> Result<(), Fail> {
    assert_kinds(&rt, rt.alloc())?;
    assert_same(
        &rt,
        MethodFaultKind::Value(ValueFaultKind::TooDeep).number(),
        2,
    );
    let fault = MethodFault {
        at: 70_000,
        kind: MethodFaultKind::Trailing,
    };
    assert_shown(
        &rt,
        rt.alloc(),
        &fault,
        "octets after the last field at octet 70000",
    )?;
    assert_shown(&rt, rt.alloc(), &OutOfMemory, "out of memory")?;
    assert_debug(&rt, rt.alloc(), &FieldKind::LongLong, "LongLong")
}
