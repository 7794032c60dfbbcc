//! What calls ask of the allocator. By themselves these tests compare answers; where requests are counted between the marks
//! (`checks/memory/count.c`, preloaded), they show which call takes how much.
use crate::marking::mark;
use crate::showing::assert_same;
use amqp_frame::{FrameKind, FrameRef, RawFrame, Splitter, write_frame};
use std::alloc::Global;
use std::process::Abort;
use std::test::Fail;

/// A body frame with a payload of so many zeros.
fn body_frame(alloc: Global, size: u16) -> Result<Vec<u8>, Fail> {
    let mut octets = Vec::from_slice(alloc, &[3, 0, 1, 0, 0])?;
    octets.extend_from_slice(&size.to_be_bytes())?;
    octets.resize(size as usize + 7, 0)?;
    octets.push(0xce)?;
    Ok(octets)
}

#[test]
fn frames_in_place_take_none(rt: HostRuntime) -> Result<(), Fail> {
    let octets = body_frame(rt.alloc(), 60_000)?;
    mark(&rt, rt.alloc(), 1)?;
    let mut splitter = Splitter::new(rt.alloc(), 1_048_576);
    let fed = splitter.feed_ref(&octets)?;
    let taken = fed.taken;
    let size = fed.frame.map(|frame| frame.payload.len());
    mark(&rt, rt.alloc(), 0)?;
    assert_same(&rt, taken, 60_008);
    assert_same(&rt, size, Some(60_000));

    mark(&rt, rt.alloc(), 2)?;
    let fed = splitter.feed(&octets)?;
    mark(&rt, rt.alloc(), 0)?;
    assert_same(&rt, fed.taken, 60_008);
    Ok(())
}

#[test]
fn announced_octets_take_none(rt: HostRuntime) -> Result<(), Fail> {
    let begun = [3, 0, 1, 0, 15, 0xff, 0xf8, 1, 2, 3, 4, 5, 6, 7, 8, 9];
    let mut splitter = Splitter::new(rt.alloc(), 1_048_576);
    mark(&rt, rt.alloc(), 3)?;
    let fed = splitter.feed(&begun)?;
    mark(&rt, rt.alloc(), 0)?;
    assert_same(&rt, fed.taken, 16);
    assert_same(&rt, splitter.pending(), 16);
    Ok(())
}

#[test]
fn frames_take_what_they_have(rt: HostRuntime) -> Result<(), Fail> {
    let payload = [7; 50_000];
    let lent = FrameRef {
        kind: FrameKind::Body,
        channel: 1,
        payload: &payload,
    };
    mark(&rt, rt.alloc(), 4)?;
    let frame: RawFrame = lent.to_raw(rt.alloc())?;
    mark(&rt, rt.alloc(), 0)?;
    assert_same(&rt, frame.payload.len(), 50_000);

    let mut out = Vec::new(rt.alloc());
    mark(&rt, rt.alloc(), 5)?;
    write_frame(&frame, &mut out)?;
    mark(&rt, rt.alloc(), 0)?;
    assert_same(&rt, out.len(), 50_008);

    out.clear();
    mark(&rt, rt.alloc(), 6)?;
    write_frame(&frame, &mut out)?;
    mark(&rt, rt.alloc(), 0)?;
    assert_same(&rt, out.len(), 50_008);
    Ok(())
}
