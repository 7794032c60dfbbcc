//! Frames that are large in each of their dimensions, with ample memory, and the answers whole. A body that gives up with "out of
//! memory" where memory is at hand is proved; it is here that it is seen.
ghost use Rattle.std.specs.Prelude.{◌≤◌, ◌≡◌, length, vec_len, IfOk};

use crate::octets::octets;
use crate::showing::{assert_for, assert_same};
use amqp_frame::{FrameFault, FrameFaultKind, FrameKind, RawFrame, Splitter, write_frame};
use std::alloc::Global;
use std::process::Abort;
use std::test::Fail;

/// How many octets a frame may have here.
const LIMIT: u32 = 1_048_576;

/// The octets of a body frame on channel 65535.
fn body_frame(rt: &impl Abort, alloc: Global, size: u32) -> Result<Vec<u8>, Fail>
    ensures { IfOk result (λ octets. 8 ≤ vec_len octets) }
{
    let frame = RawFrame {
        kind: FrameKind::Body,
        channel: 65535,
        payload: octets(alloc, size as usize)?,
    };
    assert!(rt; frame.payload.len() <= 2_000_000);
    let mut out = Vec::new(alloc);
    write_frame(&frame, &mut out)?;
    let [first, second, third, fourth] = size.to_be_bytes();
    let header = [3, 0xff, 0xff, first, second, third, fourth];
    assert_eq!(rt; out.len(), size as usize + 8);
    assert_same(rt, &out[..7], header.as_slice());
    assert_same(rt, out.last().copied(), Some(0xce));
    Ok(out)
}

/// The frame that comes of pieces of that size, of which no octet is left.
fn fed_in_pieces(
    rt: &impl Abort,
    alloc: Global,
    octets: &[u8],
    size: usize,
) -> Result<RawFrame, Fail>
    requires { 1 ≤ size }
{
    let mut splitter = Splitter::new(alloc, LIMIT);
    let mut taken = 0;
    for piece in octets.chunks(size) {
        assert_same(rt, splitter.pending(), taken);
        let fed = splitter.feed(piece)?;
        assert_same(rt, fed.taken, piece.len());
        taken = taken.wrapping_add(fed.taken);
        if let Some(frame) = fed.frame {
            assert_same(rt, taken, octets.len());
            return Ok(frame);
        }
    }
    Err("no frame")?
}

/// A frame that was fed in pieces of that size is a body frame with this payload.
fn assert_split(rt: &impl Abort, frame: &RawFrame, payload: &[u8], piece: usize) {
    assert_same(rt, frame.kind, FrameKind::Body);
    assert_same(rt, frame.channel, 65535);
    let size = payload.len();
    assert_for(rt, frame.payload.as_slice() == payload, (size, piece));
}

fn assert_size(rt: &impl Abort, alloc: Global, size: u32) -> Result<(), Fail> {
    let octets = body_frame(rt, alloc, size)?;
    let payload = &octets[7..octets.len() - 1];
    assert_split(rt, &fed_in_pieces(rt, alloc, &octets, 100)?, payload, 100);
    assert_split(
        rt,
        &fed_in_pieces(rt, alloc, &octets, 65_536)?,
        payload,
        65_536,
    );
    assert_split(
        rt,
        &fed_in_pieces(rt, alloc, &octets, 1_048_576)?,
        payload,
        1_048_576,
    );
    Ok(())
}

static SIZES: [u32; 7] = [0, 57, 4088, 4089, 65_535, 70_000, 1_048_568];

#[test]
fn long_frames_are_written_and_split(rt: HostRuntime) -> Result<(), Fail> {
    for size in SIZES.iter().copied() {
        assert_size(&rt, rt.alloc(), size)?;
    }
    Ok(())
}

#[test]
fn faults_come_after_many_pending_octets(rt: HostRuntime) -> Result<(), Fail> {
    let mut octets = body_frame(&rt, rt.alloc(), 70_000)?;
    let last = octets.len() - 1;
    octets[last] = 0xcd;
    let mut splitter = Splitter::new(rt.alloc(), LIMIT);
    for piece in [&octets[..last], &[]] {
        let fed = splitter.feed(piece)?;
        assert_same(&rt, fed.taken, piece.len());
        assert!(rt; fed.frame.is_none());
        assert_same(&rt, splitter.pending(), 70_007);
    }
    let kind = FrameFaultKind::BadEnd;
    let fault = splitter.feed(&octets[last..]).err();
    assert_same(&rt, fault, Some(FrameFault { at: 70_007, kind }));

    let mut splitter = Splitter::new(rt.alloc(), LIMIT);
    assert_same(&rt, splitter.feed(&[3, 0, 0, 0xff, 0xff, 0xff])?.taken, 6);
    assert_same(&rt, splitter.feed(&[])?.taken, 0);
    let kind = FrameFaultKind::TooLarge;
    assert_same(
        &rt,
        splitter.feed(&[0xff]).err(),
        Some(FrameFault { at: 6, kind }),
    );
    Ok(())
}

#[test]
fn a_thousand_frames_in_one_piece(rt: HostRuntime) -> Result<(), Fail> {
    let open = [1, 0, 1, 0, 0, 0, 5, 0, 20, 0, 10, 0, 0xce];
    let mut octets = Vec::new(rt.alloc());
    for _ in 0..1000 {
        octets.extend_from_slice(&open)?;
    }
    octets.push(9)?;
    let mut splitter = Splitter::new(rt.alloc(), LIMIT);
    let mut rest = octets.as_slice();
    for _ in 0..1000 {
        let fed = splitter.feed(rest)?;
        assert_same(&rt, fed.taken, 13);
        assert_same(
            &rt,
            fed.frame.ok_or("no frame")?.payload.as_slice(),
            [0, 20, 0, 10, 0].as_slice(),
        );
        rest = rest.get(13..).ok_or("no rest")?;
    }
    let kind = FrameFaultKind::UnknownType;
    assert_same(
        &rt,
        splitter.feed(rest).err(),
        Some(FrameFault { at: 13_000, kind }),
    );
    Ok(())
}
