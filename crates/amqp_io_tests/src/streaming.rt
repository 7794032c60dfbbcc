//! Sessions whose end lends: bodies that are longer than the room for a read.
ghost use Rattle.std.specs.Prelude.{◌<◌, ◌≤◌, length, IfOk};

use crate::ends::server;
use crate::octets::octets_of;
use crate::scripts::script_of;
use amqp_core::{AskFault, EventRef, LendFault, Phase, SendQueue, Server, StreamEnd};
use amqp_io::{IoFault, Script, StreamSession};
use amqp_method::{Method, Properties, read_method};
use std::alloc::Global;
use std::process::Abort;
use std::test::Fail;

/// What a client writes up to the open of its first channel, and then basic.publish with empty texts, a header that
/// announces ten octets, and two body frames with `abcd` and `efghij`: 101, 17, 22, 12 and 14 octets.
const CONTENT: &str = "header start-ok tune-ok open open-channel
    01000100000009003c00280000000000ce
    0200010000000e003c0000000000000000000a0000ce
    0300010000000461626364ce
    0300010000000665666768696ace";

/// What a session brought.
#[derive(Drop)]
struct Heard {
    /// the octets of the body, part by part
    body: Vec<u8>,
    /// how many contents were whole
    contents: usize,
}

/// Feeds octets of a piece, and keeps the octets of the body. It answers how many were taken.
fn hear_some(end: &mut StreamEnd<Server>, piece: &[u8], heard: &mut Heard) -> Result<usize, Fail>
    requires { 0 < length piece.now }
    ensures within { IfOk result (λ octets. octets ≤ length piece.now) }
    ensures some { IfOk result (λ octets. 0 < octets) }
{
    let taken = end.feed_ref(piece)?;
    if let Some(EventRef::Part(_, octets, whole)) = taken.event {
        heard.body.extend_from_slice(octets)?;
        heard.contents = heard.contents.saturating_add(usize::from(whole));
    }
    Ok(taken.octets)
}

fn hear(end: &mut StreamEnd<Server>, piece: &[u8], heard: &mut Heard) -> Result<(), Fail> {
    let mut rest = piece;
    for _ in 0..200 {
        if rest.is_empty() {
            break;
        }
        let octets = hear_some(end, rest, heard)?;
        rest = &rest[octets..];
    }
    Ok(())
}

/// Pulls until the input ends, and writes what is put.
fn pull_all(
    session: &mut StreamSession<Server, Script>,
    room: &mut [u8],
    heard: &mut Heard,
) -> Result<(), Fail> {
    for _ in 0..200 {
        if room.is_empty() {
            break;
        }
        match session.pull(room) {
            Ok(piece) => hear(&mut session.end, piece, heard)?,
            Err(IoFault::EndOfInput) => break,
            Err(fault) => return Err(fault.into()),
        }
        session.push(usize::MAX)?;
    }
    Ok(())
}

fn assert_heard(
    rt: &impl Abort,
    session: &mut StreamSession<Server, Script>,
    room: &mut [u8],
    heard: &mut Heard,
) -> Result<(), Fail> {
    pull_all(session, room, heard)?;
    assert!(rt; heard.contents == 1);
    assert!(rt; heard.body.as_slice() == b"abcdefghij".as_slice());
    assert!(rt; session.end.phase() == Phase::Running);
    assert!(rt; session.end.output().is_empty());
    assert!(rt; session.stream.unread().is_empty());
    Ok(())
}

/// A session that reads so many octets at once.
fn assert_room(rt: &impl Abort, alloc: Global, room: usize) -> Result<(), Fail> {
    let stream = script_of(alloc, CONTENT, "")?;
    let end = server(alloc)?.into_stream();
    let mut room = vec![in alloc; 0x5a; room]?;
    let mut session = StreamSession { end, stream };
    let mut heard = Heard {
        body: Vec::new(alloc),
        contents: 0,
    };
    let assertion = assert_heard(rt, &mut session, &mut room, &mut heard);
    drop(session);
    drop(heard);
    assertion
}

#[test]
fn bodies_stream_through_any_room(rt: HostRuntime) -> Result<(), Fail> {
    let alloc = rt.alloc();
    assert_room(&rt, alloc, 1)?;
    assert_room(&rt, alloc, 7)?;
    assert_room(&rt, alloc, 100)?;
    assert_room(&rt, alloc, 65_536)
}

/// What a client writes up to the open of its first channel, and what a server answers: frames of 36, 20, 13 and 16
/// octets.
const ASKS: &str = "header start-ok tune-ok open open-channel";

const REPLIES: &str = "start tune open-ok channel-opened";

/// After one read the stream takes five octets, fails, takes nothing, and then all of each slice that it is given: it
/// is a stream that writes the first slice alone.
const TAKES: &str = "1000 5 fail 0";

fn assert_pieces(
    rt: &impl Abort,
    alloc: Global,
    session: &mut StreamSession<Server, Script>,
    queue: &mut SendQueue,
) -> Result<(), Fail> {
    let mut room = vec![in alloc; 0; 1000]?;
    let mut heard = Heard {
        body: Vec::new(alloc),
        contents: 0,
    };
    let piece = session.pull(&mut room)?;
    hear(&mut session.end, piece, &mut heard)?;
    assert!(rt; session.push_pieces(queue) == Ok(0));
    session.end.hand_over(queue)?;
    assert!(rt; session.end.output().is_empty());
    assert!(rt; session.push_pieces(queue) == Ok(5));
    assert!(rt; session.push_pieces(queue) == Err(IoFault::Write));
    assert!(rt; session.push_pieces(queue) == Err(IoFault::Write));
    assert!(rt; queue.waiting_in_all() == 80);
    for count in [31, 20, 13, 16, 0] {
        assert!(rt; session.push_pieces(queue) == Ok(count));
    }
    let replies = octets_of(alloc, REPLIES)?;
    assert!(rt; session.stream.written() == replies.as_slice());
    Ok(())
}

#[test]
fn pieces_of_a_queue_are_written_in_parts(rt: HostRuntime) -> Result<(), Fail> {
    let alloc = rt.alloc();
    let stream = script_of(alloc, ASKS, TAKES)?;
    let end = server(alloc)?.into_stream();
    let mut session = StreamSession { end, stream };
    let mut queue = SendQueue::new(alloc);
    let assertion = assert_pieces(&rt, alloc, &mut session, &mut queue);
    drop(session);
    drop(queue);
    assertion
}

/// basic.deliver with empty texts and the delivery tag 1.
static DELIVER: [u8; 16] = *b"\x00\x3c\x00\x3c\x00\0\0\0\0\0\0\0\x01\x00\x00\x00";

/// It in a frame, a header that announces ten octets, and one body frame.
const LENT: &str = "start tune open-ok channel-opened
    01000100000010003c003c000000000000000001000000ce
    0200010000000e003c0000000000000000000a0000ce
    0300010000000a6162636465666768696ace";

/// Reads what a client asks first, and feeds it.
fn open_first(alloc: Global, session: &mut StreamSession<Server, Script>) -> Result<(), Fail> {
    let mut room = vec![in alloc; 0; 1000]?;
    let mut heard = Heard {
        body: Vec::new(alloc),
        contents: 0,
    };
    let piece = session.pull(&mut room)?;
    hear(&mut session.end, piece, &mut heard)
}

/// A content isn't lent while replies wait, with a method that begins none, or on a channel that isn't open.
fn assert_not_lent(
    rt: &impl Abort,
    session: &mut StreamSession<Server, Script>,
    deliver: &Method,
    flow: &Method,
    octets: &mut Vec<u8>,
) -> Result<(), Fail> {
    assert!(rt; fault(session, 1, deliver, octets) == Some(LendFault::Waits));
    session.push(usize::MAX)?;
    let refused = Some(LendFault::Refused(AskFault::NotSendable));
    assert!(rt; fault(session, 1, flow, octets) == refused);
    let refused = Some(LendFault::Refused(AskFault::NotOpen));
    assert!(rt; fault(session, 2, deliver, octets) == refused);
    Ok(())
}

fn assert_flow_not_lent(
    rt: &impl Abort,
    alloc: Global,
    session: &mut StreamSession<Server, Script>,
    deliver: &Method,
    octets: &mut Vec<u8>,
) -> Result<(), Fail> {
    let flow = read_method(alloc, b"\x00\x14\x00\x14\x01")?;
    let assertion = assert_not_lent(rt, session, deliver, &flow, octets);
    drop(flow);
    assertion
}

fn assert_frames(
    rt: &impl Abort,
    alloc: Global,
    session: &mut StreamSession<Server, Script>,
    deliver: &Method,
    properties: &Properties,
    octets: &mut Vec<u8>,
) -> Result<(), Fail> {
    let mut frames = session
        .end
        .lend_content(1, deliver, properties, b"abcdefghij", octets)?;
    assert!(rt; session.end.output().is_empty());
    assert!(rt; session.push_frames(&mut frames) == Err(IoFault::Write));
    assert!(rt; session.push_frames(&mut frames) == Err(IoFault::Write));
    assert!(rt; !frames.is_empty());
    assert!(rt; session.push_frames(&mut frames) == Ok(()));
    assert!(rt; frames.is_empty());
    let lent = octets_of(alloc, LENT)?;
    assert!(rt; session.stream.written() == lent.as_slice());
    Ok(())
}

fn assert_deliver(
    rt: &impl Abort,
    alloc: Global,
    session: &mut StreamSession<Server, Script>,
    deliver: &Method,
) -> Result<(), Fail> {
    let mut octets = Vec::new(alloc);
    open_first(alloc, session)?;
    assert_flow_not_lent(rt, alloc, session, deliver, &mut octets)?;
    let properties = Properties::default();
    let assertion = assert_frames(rt, alloc, session, deliver, &properties, &mut octets);
    drop(properties);
    assertion
}

fn assert_lent(
    rt: &impl Abort,
    alloc: Global,
    session: &mut StreamSession<Server, Script>,
) -> Result<(), Fail> {
    let deliver = read_method(alloc, &DELIVER)?;
    let assertion = assert_deliver(rt, alloc, session, &deliver);
    drop(deliver);
    assertion
}

/// Why no content with this method is lent.
fn fault(
    session: &mut StreamSession<Server, Script>,
    channel: u16,
    method: &Method,
    octets: &mut Vec<u8>,
) -> Option<LendFault> {
    let properties = Properties::default();
    let lent = session
        .end
        .lend_content(channel, method, &properties, b"", octets);
    match lent {
        Ok(_) => None,
        Err(fault) => Some(fault),
    }
}

/// The replies are written at once; of the frames the stream takes five octets, fails, and takes nothing, and then all
/// of each slice that it is given.
#[test]
fn lent_contents_are_written_in_parts(rt: HostRuntime) -> Result<(), Fail> {
    let alloc = rt.alloc();
    let stream = script_of(alloc, ASKS, "1000 1000 5 fail 0")?;
    let end = server(alloc)?.into_stream();
    let mut session = StreamSession { end, stream };
    let assertion = assert_lent(&rt, alloc, &mut session);
    drop(session);
    assertion
}

fn write_lent(
    alloc: Global,
    body: &[u8],
    session: &mut StreamSession<Server, Script>,
    deliver: &Method,
    properties: &Properties,
) -> Result<(), Fail> {
    let mut octets = Vec::new(alloc);
    open_first(alloc, session)?;
    session.push(usize::MAX)?;
    let mut frames = session
        .end
        .lend_content(1, deliver, properties, body, &mut octets)?;
    session.push_frames(&mut frames)?;
    Ok(())
}

fn write_sent(
    alloc: Global,
    body: &[u8],
    session: &mut StreamSession<Server, Script>,
    deliver: &Method,
    properties: &Properties,
) -> Result<(), Fail> {
    open_first(alloc, session)?;
    session.end.send_content(1, deliver, properties, body)?;
    session.push(usize::MAX)?;
    Ok(())
}

/// Writes a content that is lent, and the same content that is sent.
fn write_both(
    alloc: Global,
    body: &[u8],
    lending: &mut StreamSession<Server, Script>,
    sending: &mut StreamSession<Server, Script>,
    deliver: &Method,
) -> Result<(), Fail> {
    let properties = Properties::default();
    let written = match write_lent(alloc, body, lending, deliver, &properties) {
        Ok(()) => write_sent(alloc, body, sending, deliver, &properties),
        failed => failed,
    };
    drop(properties);
    written
}

fn assert_alike(
    rt: &impl Abort,
    alloc: Global,
    body: &[u8],
    lending: &mut StreamSession<Server, Script>,
    sending: &mut StreamSession<Server, Script>,
) -> Result<(), Fail> {
    let deliver = read_method(alloc, &DELIVER)?;
    let written = write_both(alloc, body, lending, sending, &deliver);
    drop(deliver);
    written?;
    assert!(rt; lending.stream.written() == sending.stream.written());
    assert!(rt; lending.stream.written().len() > body.len());
    Ok(())
}

fn assert_length(rt: &impl Abort, alloc: Global, length: usize) -> Result<(), Fail> {
    let body = vec![in alloc; b'x'; length]?;
    let mut lending = StreamSession {
        end: server(alloc)?.into_stream(),
        stream: script_of(alloc, ASKS, "")?,
    };
    let mut sending = StreamSession {
        end: server(alloc)?.into_stream(),
        stream: script_of(alloc, ASKS, "")?,
    };
    let assertion = assert_alike(rt, alloc, &body, &mut lending, &mut sending);
    drop(lending);
    drop(sending);
    assertion
}

#[test]
fn lent_contents_are_those_that_are_sent(rt: HostRuntime) -> Result<(), Fail> {
    let alloc = rt.alloc();
    for length in [0, 1, 4_087, 4_088, 4_089, 131_064, 131_065, 500_000] {
        assert_length(&rt, alloc, length)?;
    }
    Ok(())
}
