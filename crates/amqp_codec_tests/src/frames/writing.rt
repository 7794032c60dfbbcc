//! Frames that are written from where their payload lies, and payloads that are written straight into the output.
use crate::showing::assert_same;
use amqp_frame::{
    FrameKind, FrameRef, HEADER_LENGTH, HEARTBEAT, OVERHEAD, begin_frame, finish_frame,
    write_frame_ref,
};
use std::test::Fail;

/// What stood in the output, and then the frame: type, channel, size, payload and end.
const AFTER_ONE: &[u8] = b"\xff\x03\x01\x02\x00\x00\x00\x02hi\xce";

#[test]
fn a_lent_frame_is_written(rt: HostRuntime) -> Result<(), Fail> {
    let frame = FrameRef {
        kind: FrameKind::Body,
        channel: 0x0102,
        payload: b"hi",
    };
    let mut out = Vec::from_slice(rt.alloc(), b"\xff")?;
    write_frame_ref(frame, &mut out)?;
    assert_same(&rt, out.as_slice(), AFTER_ONE);
    Ok(())
}

#[test]
fn a_frame_is_begun_and_finished(rt: HostRuntime) -> Result<(), Fail> {
    let mut out = Vec::from_slice(rt.alloc(), b"\xff")?;
    let start = begin_frame(FrameKind::Body, 0x0102, &mut out)?;
    out.extend_from_slice(b"hi")?;
    finish_frame(start, &mut out)?;
    assert_same(&rt, out.as_slice(), AFTER_ONE);
    Ok(())
}

#[test]
fn the_same_frame_on_another_channel(rt: HostRuntime) -> Result<(), Fail> {
    let frame = FrameRef {
        kind: FrameKind::Body,
        channel: 5,
        payload: b"hi",
    };
    let mut out = Vec::from_slice(rt.alloc(), b"\xff")?;
    write_frame_ref(frame.on_channel(0x0102), &mut out)?;
    assert_same(&rt, out.as_slice(), AFTER_ONE);
    Ok(())
}

#[test]
fn a_heartbeat_is_a_frame_without_payload(rt: HostRuntime) -> Result<(), Fail> {
    let frame = FrameRef {
        kind: FrameKind::Heartbeat,
        channel: 0,
        payload: b"",
    };
    let mut out = Vec::new(rt.alloc());
    write_frame_ref(frame, &mut out)?;
    assert_same(&rt, out.as_slice(), HEARTBEAT.as_slice());
    assert_same(
        &rt,
        out.as_slice(),
        b"\x08\x00\x00\x00\x00\x00\x00\xce".as_slice(),
    );
    assert_same(&rt, (HEADER_LENGTH, OVERHEAD), (7, 8));
    Ok(())
}
