//! The number and the text of every fault of a stream, and how kinds and faults print for debugging.
use crate::showing::{assert_debug, assert_number, assert_printed, assert_shown};
use amqp_frame::{FrameFault, FrameFaultKind, FrameKind, OutOfMemory};
use std::alloc::Global;
use std::process::Abort;
use std::test::Fail;

/// Each kind with its number, its text and its name.
static KINDS: [(FrameFaultKind, u8, &str, &str); 5] = [
    (
        FrameFaultKind::UnknownType,
        1,
        "unknown frame type",
        "UnknownType",
    ),
    (
        FrameFaultKind::TooLarge,
        2,
        "frame longer than the limit",
        "TooLarge",
    ),
    (FrameFaultKind::BadEnd, 3, "wrong frame end octet", "BadEnd"),
    (
        FrameFaultKind::OutOfMemory,
        4,
        "out of memory",
        "OutOfMemory",
    ),
    (FrameFaultKind::Failed, 5, "fed after a fault", "Failed"),
];

fn assert_kinds(rt: &impl Abort, alloc: Global) -> Result<(), Fail> {
    for (kind, number, text, name) in KINDS.iter().copied() {
        assert_number(rt, kind.number(), number, name);
        assert_printed(rt, alloc, &kind, text, name)?;
    }
    Ok(())
}

#[test]
fn faults_of_frames(rt: HostRuntime) -> Result<(), Fail> {
    assert_kinds(&rt, rt.alloc())?;
    let fault = FrameFault {
        at: 18446744073709551615,
        kind: FrameFaultKind::BadEnd,
    };
    assert_shown(
        &rt,
        rt.alloc(),
        &fault,
        "wrong frame end octet at octet 18446744073709551615",
    )?;
    assert_shown(&rt, rt.alloc(), &OutOfMemory, "out of memory")?;
    assert_debug(&rt, rt.alloc(), &FrameKind::Heartbeat, "Heartbeat")
}
