//! A client's session and a server's, over TCP, in turns: what the one writes the other reads.
use crate::ends::{client_of, server};
use crate::octets::octets_of;
use crate::sessions::assert_events;
use crate::sockets::connected;
use crate::steps::assert_text;
use amqp_core::{Ask, AskFault, Client, Event, Phase, Role, Server};
use amqp_io::{IoFault, Session, Socket};
use amqp_method::{Message, Properties, method_text, read_method};
use amqp_value::ShortStr;
use std::alloc::Global;
use std::process::Abort;
use std::test::Fail;

/// So many octets are pushed at once, at most. The system keeps them until the other end reads.
const PART: usize = 4096;

/// Pulls until so many octets have come. Each pull brings one at least.
fn pull_octets<R: Role>(session: &mut Session<R, Socket>, octets: usize) -> Result<(), IoFault> {
    let mut left = octets;
    for _ in 0..octets {
        if left == 0 {
            return Ok(());
        }
        left = left.saturating_sub(session.pull()?);
    }
    Ok(())
}

/// Carries what the one end has to write to the other, part by part: at most so many.
fn carry<R: Role, T: Role>(
    writer: &mut Session<R, Socket>,
    reader: &mut Session<T, Socket>,
    parts: usize,
) -> Result<(), IoFault> {
    for _ in 0..parts {
        let octets = writer.push(PART)?;
        pull_octets(reader, octets)?;
    }
    Ok(())
}

/// Each end writes, and the other reads: four times, which is enough for a handshake.
fn take_turns(
    client: &mut Session<Client, Socket>,
    server: &mut Session<Server, Socket>,
) -> Result<(), IoFault> {
    for _ in 0..4 {
        carry(client, server, 1)?;
        carry(server, client, 1)?;
    }
    Ok(())
}

/// Asks, and lets go of what was asked.
fn asked<R: Role>(session: &mut Session<R, Socket>, ask: Ask) -> Result<Option<u16>, AskFault> {
    let answer = session.ask(&ask);
    drop(ask);
    answer
}

/// A body of 100,000 octets.
fn body(alloc: Global) -> Result<Vec<u8>, Fail> {
    let mut octets = Vec::new(alloc);
    for _ in 0..4000 {
        octets.extend_from_slice(b"twenty-five octets a line")?;
    }
    Ok(octets)
}

/// A content with that body, published with the routing key `q`.
fn content(rt: &impl Abort, alloc: Global, body: Vec<u8>) -> Result<Message, Fail> {
    let method = read_method(alloc, &octets_of(alloc, "003c0028 0000 00 0171 00")?)?;
    assert!(rt; method.kind().has_content());
    Ok(Message::content(method, Properties::default(), body))
}

/// It is that content, with this body.
fn assert_content(rt: &impl Abort, message: &Message, body: &[u8]) -> Result<(), Fail> {
    let Some((_, told)) = message.content_parts() else {
        return Err("no content")?;
    };
    assert!(rt; told == body);
    let text = method_text(message.method())?;
    assert_text(
        rt,
        text.as_str(),
        "basic.publish exchange=\"\" routing-key=\"q\" mandatory=0 immediate=0",
        "told",
    );
    Ok(())
}

/// That content was told on channel 1, with this body.
fn assert_told(rt: &impl Abort, event: &Option<Event>, body: &[u8]) -> Result<(), Fail> {
    match event {
        Some(Event::Told(1, message)) => assert_content(rt, message, body),
        _ => Err("no message on channel 1")?,
    }
}

fn next_is_told(
    rt: &impl Abort,
    session: &mut Session<Server, Socket>,
    body: &[u8],
) -> Result<(), Fail> {
    let event = session.next_event();
    let told = assert_told(rt, &event, body);
    drop(event);
    told
}

/// From the protocol header to an open channel.
fn open(
    rt: &impl Abort,
    alloc: Global,
    client: &mut Session<Client, Socket>,
    server: &mut Session<Server, Socket>,
) -> Result<(), Fail> {
    take_turns(client, server)?;
    assert!(rt; asked(client, Ask::Open) == Ok(Some(1)));
    take_turns(client, server)?;
    assert_events(
        rt,
        alloc,
        client,
        "quiet
        quiet
        negotiated 2047 4096
        opened 1",
    )?;
    assert_events(
        rt,
        alloc,
        server,
        "quiet
        quiet
        quiet
        negotiated 2047 4096
        opened 1",
    )
}

/// One content, of 100,000 octets. Its frames have 18 and 22 octets, 24 times 4096, and 1896.
fn publish(
    rt: &impl Abort,
    alloc: Global,
    client: &mut Session<Client, Socket>,
    server: &mut Session<Server, Socket>,
) -> Result<(), Fail> {
    let message = content(rt, alloc, body(alloc)?)?;
    assert!(rt; asked(client, Ask::Send(1, message)) == Ok(None));
    assert!(rt; client.end().output().len() == 100_240);
    carry(client, server, 24)?;
    assert_events(rt, alloc, server, "")?;
    carry(client, server, 1)?;
    next_is_told(rt, server, &body(alloc)?)
}

fn text(alloc: Global, text: &str) -> Result<ShortStr, Fail> {
    Ok(ShortStr::new(alloc, text.as_bytes())?)
}

/// The client closes channel 1 and then the connection, and both are closed at either end.
fn close(
    rt: &impl Abort,
    alloc: Global,
    client: &mut Session<Client, Socket>,
    server: &mut Session<Server, Socket>,
) -> Result<(), Fail> {
    let done = text(alloc, "done")?;
    assert!(rt; asked(client, Ask::CloseChannel(1, 200, done)) == Ok(None));
    take_turns(client, server)?;
    let bye = text(alloc, "bye")?;
    assert!(rt; asked(client, Ask::Close(200, bye)) == Ok(None));
    take_turns(client, server)?;
    assert!(rt; client.end().phase() == Phase::Closed);
    assert!(rt; server.end().phase() == Phase::Closed);
    Ok(())
}

/// What each end tells of the closes.
fn assert_closed(
    rt: &impl Abort,
    alloc: Global,
    client: &mut Session<Client, Socket>,
    server: &mut Session<Server, Socket>,
) -> Result<(), Fail> {
    assert_events(
        rt,
        alloc,
        client,
        "channel-closed 1 by-us
        connection-closed by-us",
    )?;
    assert_events(
        rt,
        alloc,
        server,
        "channel-closed 1 200 \"done\"
        connection-closed 200 \"bye\"",
    )
}

fn talk(
    rt: &impl Abort,
    alloc: Global,
    client: &mut Session<Client, Socket>,
    server: &mut Session<Server, Socket>,
) -> Result<(), Fail> {
    open(rt, alloc, client, server)?;
    publish(rt, alloc, client, server)?;
    close(rt, alloc, client, server)?;
    assert_closed(rt, alloc, client, server)
}

/// A client over this socket talks to that server.
fn client_talks(
    rt: &impl Abort,
    alloc: Global,
    near: Socket,
    server: &mut Session<Server, Socket>,
) -> Result<(), Fail> {
    let mut client = Session::new(alloc, client_of(alloc, 4096)?, near);
    let talked = talk(rt, alloc, &mut client, server);
    drop(client);
    talked
}

#[test]
fn a_connection_from_the_header_to_the_close(rt: HostRuntime) -> Result<(), Fail> {
    let alloc = rt.alloc();
    let (near, far) = connected(&rt)?;
    let mut server = Session::new(alloc, server(alloc)?, far);
    let talked = client_talks(&rt, alloc, near, &mut server);
    drop(server);
    talked
}
