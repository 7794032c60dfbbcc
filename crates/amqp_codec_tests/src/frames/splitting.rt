//! Frames of known octets, each call with ample memory.
ghost use Rattle.std.specs.Prelude.{◌≤◌};

use crate::showing::{assert_same, assert_shown};
use amqp_frame::{
    Fed, FrameFault, FrameFaultKind, FrameKind, FrameRef, RawFrame, Splitter, write_frame,
};
use std::alloc::Global;
use std::process::Abort;
use std::test::Fail;

/// channel.open on channel 1.
const OPEN: [u8; 13] = [1, 0, 1, 0, 0, 0, 5, 0, 20, 0, 10, 0, 0xce];

fn open_frame(alloc: Global) -> Result<RawFrame, Fail> {
    Ok(RawFrame {
        kind: FrameKind::Method,
        channel: 1,
        payload: vec![in alloc; 0, 20, 0, 10, 0]?,
    })
}

#[test]
fn a_frame_is_written(rt: HostRuntime) -> Result<(), Fail> {
    let frame = open_frame(rt.alloc())?;
    let mut out = vec![in rt.alloc(); 7u8]?;
    assert_eq!(rt; frame.payload.len(), 5);
    write_frame(&frame, &mut out)?;
    assert_same(&rt, out[0], 7);
    assert_same(&rt, out[1..].to_vec(rt.alloc())?, OPEN.to_vec(rt.alloc())?);
    Ok(())
}

fn assert_open(rt: &impl Abort, alloc: Global, frame: &RawFrame) -> Result<(), Fail> {
    let open = open_frame(alloc)?;
    assert_same(rt, frame, &open);
    Ok(())
}

/// Feeds the octet of [`OPEN`] at a place, of which the last alone gives the frame.
fn assert_octet_fed(
    rt: &impl Abort,
    alloc: Global,
    splitter: &mut Splitter,
    place: usize,
    octet: u8,
) -> Result<(), Fail> {
    assert_same(rt, splitter.pending(), place);
    let fed = splitter.feed(&[octet])?;
    assert_same(rt, fed.taken, 1);
    assert_same(rt, fed.frame.is_some(), place == 12);
    match &fed.frame {
        Some(frame) => assert_open(rt, alloc, frame),
        None => Ok(()),
    }
}

#[test]
fn a_frame_comes_with_its_last_octet(rt: HostRuntime) -> Result<(), Fail> {
    let mut splitter = Splitter::new(rt.alloc(), 13);
    for (place, octet) in OPEN.iter().enumerate() {
        assert_octet_fed(&rt, rt.alloc(), &mut splitter, place, *octet)?;
    }
    assert_same(&rt, splitter.pending(), 0);
    Ok(())
}

/// The octets begin with a frame, [`OPEN`], of which so many octets are taken; it is lent.
fn assert_open_lent(
    rt: &impl Abort,
    alloc: Global,
    splitter: &mut Splitter,
    octets: &[u8],
    taken: usize,
) -> Result<(), Fail> {
    let fed = splitter.feed_ref(octets)?;
    assert_same(rt, fed.taken, taken);
    let frame = fed.frame.ok_or("no frame")?;
    assert_open(rt, alloc, &frame.to_raw(alloc)?)
}

fn assert_open_fed(
    rt: &impl Abort,
    alloc: Global,
    splitter: &mut Splitter,
    octets: &[u8],
) -> Result<(), Fail> {
    let fed = splitter.feed(octets)?;
    assert_same(rt, fed.taken, 13);
    assert_open(rt, alloc, fed.frame.as_ref().ok_or("no frame")?)
}

fn assert_kept(rt: &impl Abort, splitter: &mut Splitter, octets: &[u8]) -> Result<(), Fail> {
    let none = Fed {
        taken: 4,
        frame: None,
    };
    assert_same(rt, splitter.feed(octets)?, none);
    assert_same(rt, splitter.pending(), 4);
    Ok(())
}

#[test]
fn a_piece_gives_one_frame_and_keeps_the_rest(rt: HostRuntime) -> Result<(), Fail> {
    let mut splitter = Splitter::new(rt.alloc(), 4096);
    let mut octets = OPEN.to_vec(rt.alloc())?;
    octets.extend_from_slice(&OPEN)?;
    octets.extend_from_slice(&OPEN[..4])?;
    assert_open_fed(&rt, rt.alloc(), &mut splitter, &octets)?;
    assert_open_lent(&rt, rt.alloc(), &mut splitter, &octets[13..], 13)?;
    assert_kept(&rt, &mut splitter, &octets[26..])?;
    assert_open_lent(&rt, rt.alloc(), &mut splitter, &OPEN[4..], 9)
}

#[test]
fn an_empty_piece_gives_nothing(rt: HostRuntime) -> Result<(), Fail> {
    let mut splitter = Splitter::new(rt.alloc(), 8);
    let nothing = Fed {
        taken: 0,
        frame: None,
    };
    assert_same(&rt, splitter.feed(&[])?, nothing);
    let heartbeat = [8, 0, 0, 0, 0, 0, 0, 0xce];
    let fed = splitter.feed_ref(&heartbeat)?;
    let frame = fed.frame.ok_or("no frame")?;
    assert_same(&rt, frame.kind, FrameKind::Heartbeat);
    assert_same(&rt, frame.payload.len(), 0);
    Ok(())
}

/// The fault that the octets tell under a limit, after they were fed whole and again.
fn fault_of(alloc: Global, limit: u32, octets: &[u8]) -> (Option<FrameFault>, Option<FrameFault>)
    requires { 8 ≤ limit }
{
    let mut splitter = Splitter::new(alloc, limit);
    let first = splitter.feed(octets).err();
    (first, splitter.feed(octets).err())
}

fn assert_fault(
    rt: &impl Abort,
    alloc: Global,
    limit: u32,
    octets: &[u8],
    at: u64,
    kind: FrameFaultKind,
) {
    assert!(rt; limit >= 8);
    let (first, second) = fault_of(alloc, limit, octets);
    assert_same(rt, first, Some(FrameFault { at, kind }));
    let failed = FrameFaultKind::Failed;
    assert_same(rt, second, Some(FrameFault { at, kind: failed }));
}

#[test]
fn a_fault_has_its_place_and_stays(rt: HostRuntime) {
    let mut wrong_end = OPEN;
    wrong_end[12] = 0xcd;
    let too_large = [1, 0, 1, 0xff, 0xff, 0xff, 0xff];
    let alloc = rt.alloc();
    assert_fault(&rt, alloc, 4096, &[4], 0, FrameFaultKind::UnknownType);
    assert_fault(&rt, alloc, 4096, &too_large, 6, FrameFaultKind::TooLarge);
    assert_fault(&rt, alloc, 4096, &wrong_end, 12, FrameFaultKind::BadEnd);
    assert_fault(&rt, alloc, 12, &OPEN, 6, FrameFaultKind::TooLarge);
}

#[test]
fn a_limit_changes_between_frames(rt: HostRuntime) -> Result<(), Fail> {
    let mut splitter = Splitter::new(rt.alloc(), 8);
    splitter.set_limit(13);
    let fed = splitter.feed(&OPEN)?;
    assert_same(&rt, fed.frame, Some(open_frame(rt.alloc())?));
    Ok(())
}

/// Each kind with its octet and its name.
static KINDS: [(FrameKind, u8, &str); 4] = [
    (FrameKind::Method, 1, "method"),
    (FrameKind::Header, 2, "header"),
    (FrameKind::Body, 3, "body"),
    (FrameKind::Heartbeat, 8, "heartbeat"),
];

#[test]
fn kinds_and_faults_are_printed(rt: HostRuntime) -> Result<(), Fail> {
    for (kind, octet, name) in KINDS.iter().copied() {
        assert_same(&rt, kind.octet(), octet);
        assert_same(&rt, FrameKind::from_octet(octet), Some(kind));
        assert_shown(&rt, rt.alloc(), &kind, name)?;
    }
    let fault = FrameFault {
        at: 6,
        kind: FrameFaultKind::TooLarge,
    };
    assert_same(&rt, fault.kind.number(), 2);
    assert_shown(
        &rt,
        rt.alloc(),
        &fault,
        "frame longer than the limit at octet 6",
    )
}
