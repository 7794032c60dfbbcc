//! Sessions that read into room that the caller gives, and what they give back.
use crate::ends::server;
use crate::scripts::script_of;
use crate::sessions::assert_events;
use amqp_core::{End, Event, Phase, Server, Taken};
use amqp_io::{IoFault, Parts, Script, Session};
use std::alloc::Global;
use std::collections::VecDeque;
use std::process::Abort;
use std::test::Fail;

/// What a client writes up to the open of its first channel: 101 octets.
const OPENING: &str = "header start-ok tune-ok open open-channel";

/// What comes of these octets.
const EVENTS: &str = "quiet
    quiet
    quiet
    negotiated 2047 131072
    opened 1";

/// Pulls until the input ends. It answers how many octets came, and how many the longest read brought.
fn pull_all(session: &mut Session<Server, Script>) -> Result<(usize, usize), IoFault> {
    let mut came = 0usize;
    let mut longest = 0usize;
    for _ in 0..200 {
        match session.pull() {
            Ok(count) => {
                came = came.saturating_add(count);
                longest = longest.max(count);
            }
            Err(IoFault::EndOfInput) => break,
            Err(fault) => return Err(fault),
        }
    }
    Ok((came, longest))
}

fn assert_pulled(
    rt: &impl Abort,
    alloc: Global,
    session: &mut Session<Server, Script>,
    longest: usize,
) -> Result<(), Fail> {
    let pulled = pull_all(session)?;
    assert!(rt; pulled == (101, longest));
    assert_events(rt, alloc, session, EVENTS)
}

/// A session with so much room, at least 1, reads so many octets at most.
fn assert_room(rt: &impl Abort, alloc: Global, room: usize, longest: usize) -> Result<(), Fail> {
    let stream = script_of(alloc, OPENING, "")?;
    let end = server(alloc)?;
    let room = vec![in alloc; 0x5a; room.max(1)]?;
    let mut session = Session::with_room(alloc, end, stream, room);
    let pulled = assert_pulled(rt, alloc, &mut session, longest);
    drop(session);
    pulled
}

#[test]
fn reads_as_long_as_the_room(rt: HostRuntime) -> Result<(), Fail> {
    let alloc = rt.alloc();
    assert_room(&rt, alloc, 1, 1)?;
    assert_room(&rt, alloc, 3, 3)?;
    assert_room(&rt, alloc, 100, 100)?;
    assert_room(&rt, alloc, 101, 101)?;
    assert_room(&rt, alloc, 65_536, 101)
}

/// Feeds an end what a session had read and not fed, and keeps the events.
fn feed_rest(
    end: &mut End<Server>,
    octets: &[u8],
    events: &mut VecDeque<Event>,
) -> Result<(), Fail> {
    let mut rest = octets;
    for _ in 0..10 {
        if rest.is_empty() {
            break;
        }
        let Taken { octets, event } = end.feed(rest)?;
        rest = &rest[octets..];
        if let Some(event) = event {
            events.push_back(event)?;
        }
    }
    Ok(())
}

fn assert_rest(
    rt: &impl Abort,
    alloc: Global,
    parts: &mut Parts<Server, Script>,
) -> Result<(), Fail> {
    assert!(rt; parts.stream.unread().is_empty());
    feed_rest(&mut parts.end, parts.unfed.octets(), &mut parts.events)?;
    assert!(rt; parts.end.phase() == Phase::Running);
    assert_kept(rt, alloc, &parts.events)
}

/// The events are those of the opening, in order.
fn assert_kept(rt: &impl Abort, alloc: Global, events: &VecDeque<Event>) -> Result<(), Fail> {
    assert!(rt; events.len() == 5);
    for (event, line) in events.iter().zip(EVENTS.lines()) {
        let found = format!(in alloc; "{event}")?;
        assert!(rt; found.as_str() == line.trim());
    }
    Ok(())
}

/// Says so where there was no room for an event in the middle of what came.
fn say_no_room(rt: &impl Print, pulled: Result<usize, IoFault>) -> Result<(), Fail> {
    if pulled == Err(IoFault::OutOfMemory) {
        println!(rt; "no room for an event, and none lost")?;
    }
    Ok(())
}

/// What a session holds after a pull: all that came, unless the end itself failed in it.
fn assert_taken_apart(
    rt: &impl Abort,
    alloc: Global,
    pulled: Result<usize, IoFault>,
    parts: &mut Parts<Server, Script>,
) -> Result<(), Fail> {
    match pulled {
        Err(IoFault::Core(fault)) => Err(fault.into()),
        Ok(_) | Err(_) => assert_rest(rt, alloc, parts),
    }
}

/// A session that is taken apart loses nothing, also where there was no room for an event in the middle of what came.
#[test]
fn a_session_taken_apart(rt: HostRuntime) -> Result<(), Fail> {
    let alloc = rt.alloc();
    let stream = script_of(alloc, OPENING, "")?;
    let mut session = Session::new(alloc, server(alloc)?, stream);
    let pulled = session.pull();
    let mut parts = session.into_all();
    let kept = assert_taken_apart(&rt, alloc, pulled, &mut parts);
    drop(parts);
    kept?;
    say_no_room(&rt, pulled)
}
