//! What a session asks by name: the octets that come of it.
use crate::ends::client;
use crate::scripts::script_of;
use crate::turns::{assert_output, feed, qos};
use amqp_core::{AskFault, Chunks, Client};
use amqp_io::{Script, Session};
use amqp_method::{Kind, Properties, read_method};
use amqp_value::ShortStr;
use std::alloc::Global;
use std::process::Abort;
use std::test::Fail;

/// The protocol header, start-ok, tune-ok and connection.open are written before; these are channel.open and what
/// follows on it: basic.qos, basic.publish with a content of two octets, twice, channel.flow with active false,
/// channel.close with 200, and connection.close with 320.
const ASKED: &str = "01 0001 00000005 0014000a 00 ce
    01 0001 0000000b 003c000a 00000000 0001 00 ce
    01 0001 00000009 003c0028 0000 00 00 00 ce
    02 0001 0000000e 003c0000 0000000000000002 0000 ce
    03 0001 00000002 6869 ce
    01 0001 00000009 003c0028 0000 00 00 00 ce
    02 0001 0000000e 003c0000 0000000000000002 0000 ce
    03 0001 00000002 6869 ce
    01 0001 00000005 00140014 00 ce
    01 0001 0000000b 00140028 00c8 00 0000 0000 ce
    01 0000 0000000b 000a0032 0140 00 0000 0000 ce";

/// The handshake; all that the client says in it is written.
fn shaken(alloc: Global) -> Result<Session<Client, Script>, Fail> {
    let mut end = client(alloc)?;
    feed(alloc, &mut end, "start tune open-ok")?;
    let waiting = end.output().len();
    end.wrote(waiting);
    let stream = script_of(alloc, "channel-opened", "")?;
    Ok(Session::new(alloc, end, stream))
}

/// Sends the content `hi` after basic.publish, which names no exchange and no queue.
fn send_by_parts(alloc: Global, session: &mut Session<Client, Script>) -> Result<(), Fail> {
    let octets = hex::decode(alloc, "003c00280000000000")?;
    let method = read_method(alloc, &octets)?;
    session.send_content(1, &method, &Properties::default(), b"hi")?;
    Ok(())
}

/// Sends the same with its body in two chunks.
fn send_in_chunks(alloc: Global, session: &mut Session<Client, Script>) -> Result<(), Fail> {
    let octets = hex::decode(alloc, "003c00280000000000")?;
    let method = read_method(alloc, &octets)?;
    let mut body = Chunks::new(alloc);
    body.push(Vec::from_slice(alloc, b"h")?)?;
    body.push(Vec::from_slice(alloc, b"i")?)?;
    session.send_chunks(1, &method, &Properties::default(), &mut body)?;
    Ok(())
}

fn ask_all(
    rt: &impl Abort,
    alloc: Global,
    session: &mut Session<Client, Script>,
    text: &ShortStr,
) -> Result<(), Fail> {
    assert!(rt; session.blocked(text) == Err(AskFault::NotSendable));
    assert!(rt; session.open_channel() == Ok(1));
    session.pull()?;
    let message = qos(alloc, 1)?;
    let sent = session.send(1, &message);
    drop(message);
    sent?;
    send_by_parts(alloc, session)?;
    send_in_chunks(alloc, session)?;
    session.flow(1, false)?;
    session.close_channel(1, 200, text)?;
    session.close(320, text)?;
    assert!(rt; session.unblocked() == Err(AskFault::NotRunning));
    assert_output(rt, alloc, session.end(), ASKED)
}

#[test]
fn asks_by_name(rt: HostRuntime) -> Result<(), Fail> {
    let alloc = rt.alloc();
    let mut session = shaken(alloc)?;
    let text = ShortStr::new(alloc, b"")?;
    let asked = ask_all(&rt, alloc, &mut session, &text);
    drop(session);
    asked
}

/// channel.open, then channel.close with 404 for basic.publish, and connection.close with 503 for queue.declare: class
/// and method stand at the end of each.
const CLOSED: &str = "01 0001 00000005 0014000a 00 ce
    01 0001 0000000b 00140028 0194 00 003c 0028 ce
    01 0000 0000000b 000a0032 01f7 00 0032 000a ce";

fn close_all(
    rt: &impl Abort,
    alloc: Global,
    session: &mut Session<Client, Script>,
    text: &ShortStr,
) -> Result<(), Fail> {
    assert!(rt; session.open_channel() == Ok(1));
    session.pull()?;
    session.close_channel_for(1, 404, text, Kind::BasicPublish)?;
    session.close_for(503, text, Kind::QueueDeclare)?;
    assert_output(rt, alloc, session.end(), CLOSED)
}

#[test]
fn closes_for_a_method(rt: HostRuntime) -> Result<(), Fail> {
    let alloc = rt.alloc();
    let mut session = shaken(alloc)?;
    let text = ShortStr::new(alloc, b"")?;
    let closed = close_all(&rt, alloc, &mut session, &text);
    drop(session);
    closed
}
