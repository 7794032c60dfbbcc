//! Where a splitter says that a frame lies, and the frame that it lends of its buffer afterwards: of known octets, with
//! ample memory.
ghost use Rattle.std.specs.Prelude.{◌≤◌, vec_len, IfOk};

use crate::showing::{assert_same, assert_same_for};
use amqp_frame::{Advanced, FrameFaultKind, FrameKind, FrameRef, Place, Splitter};
use std::alloc::Global;
use std::process::Abort;
use std::test::Fail;

/// channel.open on channel 258.
const OPEN: [u8; 13] = [1, 1, 2, 0, 0, 0, 5, 0, 20, 0, 10, 0, 0xce];

const OPEN_FRAME: FrameRef<'static> = FrameRef {
    kind: FrameKind::Method,
    channel: 258,
    payload: &[0, 20, 0, 10, 0],
};

const HEARTBEAT: [u8; 8] = [8, 0, 0, 0, 0, 0, 0, 0xce];

const HEARTBEAT_FRAME: FrameRef<'static> = FrameRef {
    kind: FrameKind::Heartbeat,
    channel: 0,
    payload: &[],
};

/// The piece gives no frame, and all of it is taken.
fn assert_begun(rt: &impl Abort, splitter: &mut Splitter, piece: &[u8]) -> Result<(), Fail> {
    let begun = Advanced {
        taken: piece.len(),
        place: None,
    };
    assert_same(rt, splitter.advance(piece)?, begun);
    assert_same(rt, splitter.buffered(), None);
    Ok(())
}

/// So many octets of the piece end this frame, which lies in the buffer.
fn assert_buffered(
    rt: &impl Abort,
    splitter: &mut Splitter,
    piece: &[u8],
    taken: usize,
    frame: FrameRef,
) -> Result<(), Fail> {
    let advanced = splitter.advance(piece)?;
    assert_same(rt, advanced.taken, taken);
    assert_same(rt, advanced.place, Some(Place::Buffer));
    assert_same_for(rt, splitter.buffered(), Some(frame), taken);
    assert_same(rt, splitter.pending(), 0);
    assert_same(rt, splitter.buffered(), Some(frame));
    Ok(())
}

/// So many octets of the piece are this frame, which lies there.
fn assert_in_piece(
    rt: &impl Abort,
    splitter: &mut Splitter,
    piece: &[u8],
    taken: usize,
    frame: FrameRef,
) -> Result<(), Fail> {
    let advanced = splitter.advance(piece)?;
    assert_same(rt, advanced.taken, taken);
    assert_same(rt, advanced.place, Some(Place::Piece(frame)));
    assert_same(rt, splitter.buffered(), None);
    Ok(())
}

/// The frame is cut after so many octets, of which there is one at least, and an octet follows it.
fn assert_cut(rt: &impl Abort, alloc: Global, cut: usize) -> Result<(), Fail>
    requires { cut ≤ 13 }
{
    let mut splitter = Splitter::new(alloc, 13);
    assert_same(rt, splitter.buffered(), None);
    assert_begun(rt, &mut splitter, &OPEN[..cut])?;
    let mut rest = OPEN[cut..].to_vec(alloc)?;
    rest.push(8)?;
    let taken = OPEN[cut..].len();
    assert_buffered(rt, &mut splitter, &rest, taken, OPEN_FRAME)
}

#[test]
fn a_cut_frame_lies_in_the_buffer(rt: HostRuntime) -> Result<(), Fail> {
    for cut in 1..13 {
        assert_cut(&rt, rt.alloc(), cut)?;
    }
    Ok(())
}

#[test]
fn a_whole_frame_lies_in_the_piece(rt: HostRuntime) -> Result<(), Fail> {
    let mut splitter = Splitter::new(rt.alloc(), 13);
    let mut octets = OPEN.to_vec(rt.alloc())?;
    octets.extend_from_slice(&HEARTBEAT)?;
    assert_in_piece(&rt, &mut splitter, &octets, 13, OPEN_FRAME)?;
    assert_in_piece(&rt, &mut splitter, &octets[13..], 8, HEARTBEAT_FRAME)
}

#[test]
fn a_frame_of_the_buffer_is_there_until_the_next_call(rt: HostRuntime) -> Result<(), Fail> {
    let mut splitter = Splitter::new(rt.alloc(), 13);
    assert_begun(&rt, &mut splitter, &OPEN[..4])?;
    assert_buffered(&rt, &mut splitter, &OPEN[4..], 9, OPEN_FRAME)?;
    assert_eq!(rt; splitter.pending(), 0);
    splitter.set_limit(8);
    assert_same(&rt, splitter.buffered(), Some(OPEN_FRAME));
    assert_in_piece(&rt, &mut splitter, &HEARTBEAT, 8, HEARTBEAT_FRAME)?;

    assert_begun(&rt, &mut splitter, &HEARTBEAT[..7])?;
    assert_buffered(&rt, &mut splitter, &HEARTBEAT[7..], 1, HEARTBEAT_FRAME)?;
    assert_begun(&rt, &mut splitter, &[])?;

    assert_begun(&rt, &mut splitter, &HEARTBEAT[..1])?;
    assert_buffered(&rt, &mut splitter, &HEARTBEAT[1..], 7, HEARTBEAT_FRAME)?;
    assert_begun(&rt, &mut splitter, &HEARTBEAT[..2])
}

/// The fault of a piece, after which nothing lies in the buffer.
fn assert_fault(rt: &impl Abort, splitter: &mut Splitter, piece: &[u8], kind: FrameFaultKind) {
    let fault = splitter.advance(piece).err();
    assert_same(rt, fault.map(|fault| fault.kind), Some(kind));
    assert_same(rt, splitter.buffered(), None);
}

#[test]
fn after_a_fault_no_frame_is_there(rt: HostRuntime) -> Result<(), Fail> {
    let mut splitter = Splitter::new(rt.alloc(), 13);
    assert_begun(&rt, &mut splitter, &OPEN[..12])?;
    assert_buffered(&rt, &mut splitter, &OPEN[12..], 1, OPEN_FRAME)?;
    assert_fault(&rt, &mut splitter, &[4], FrameFaultKind::UnknownType);
    assert_fault(&rt, &mut splitter, &OPEN, FrameFaultKind::Failed);

    let mut splitter = Splitter::new(rt.alloc(), 13);
    assert_begun(&rt, &mut splitter, &OPEN[..12])?;
    assert_fault(&rt, &mut splitter, &[0xcd], FrameFaultKind::BadEnd);
    Ok(())
}

/// A body frame with a payload of 20,000 times this octet, on channel 1.
fn body_frame(rt: &impl Abort, alloc: Global, octet: u8) -> Result<Vec<u8>, Fail>
    ensures { IfOk result (λ octets. 8 ≤ vec_len octets) }
{
    let mut octets = Vec::from_slice(alloc, &[3, 0, 1, 0, 0, 0x4e, 0x20])?;
    octets.resize(20_007, octet)?;
    octets.push(0xce)?;
    assert_eq!(rt; octets.len(), 20_008);
    Ok(octets)
}

/// A long frame whose last octet comes alone.
fn assert_long(
    rt: &impl Abort,
    alloc: Global,
    splitter: &mut Splitter,
    octet: u8,
) -> Result<(), Fail> {
    let octets = body_frame(rt, alloc, octet)?;
    let last = octets.len() - 1;
    assert_begun(rt, splitter, &octets[..last])?;
    let frame = FrameRef {
        kind: FrameKind::Body,
        channel: 1,
        payload: &octets[7..last],
    };
    assert_buffered(rt, splitter, &octets[last..], 1, frame)
}

#[test]
fn a_buffer_given_back_lends_no_frame(rt: HostRuntime) -> Result<(), Fail> {
    let mut splitter = Splitter::new(rt.alloc(), 1_048_576);
    assert_long(&rt, rt.alloc(), &mut splitter, 7)?;
    for _ in 0..40 {
        assert_in_piece(&rt, &mut splitter, &OPEN, 13, OPEN_FRAME)?;
    }
    assert_long(&rt, rt.alloc(), &mut splitter, 9)?;
    assert_in_piece(&rt, &mut splitter, &HEARTBEAT, 8, HEARTBEAT_FRAME)
}
