//! The subcommand `publish`, over a socket.
use crate::asks;
use crate::hellos::Access;
use crate::notes::Notes;
use crate::printing::Stop;
use crate::publisher::{Awaited, Outgoing, Publisher};
use crate::readiness::Readiness;
use crate::sessions::{ANSWERS, client_end_of, pull_ready, settle, waiting};
use amqp_command::{Destination, Limits};
use amqp_core::{Chunks, Client, Event, Reason};
use amqp_io::{Session, Socket};
use amqp_method::{Kind, Method, OutOfMemory, Properties};
use std::alloc::Global;
use std::io::Write;
use std::net::Net;
use std::time::Clock;

/// What is published, and by whom.
#[derive(Drop)]
pub struct Content {
    pub access: Access,
    pub destination: Destination,
    pub properties: Properties,
    pub body: Chunks,
}

/// Publishes one content and closes the connection, with an end that wants this heartbeat. It answers whether nothing
/// told that the server did not take the content.
pub fn publish<N: Net + Clock, E: Write + Drop>(
    alloc: Global,
    limits: Limits,
    heartbeat: u16,
    content: Content,
    socket: Socket,
    readiness: &mut Readiness<'_, N>,
    notes: &mut Notes<'_, E>,
) -> Result<bool, Stop> {
    let Content {
        access,
        destination,
        properties,
        body,
    } = content;
    let end = client_end_of(alloc, limits, access, heartbeat)?;
    let mut session = Session::new(alloc, end, socket);
    let run = publish_in(
        alloc,
        &mut session,
        destination,
        properties,
        body,
        readiness,
        notes,
    );
    drop(session);
    run
}

fn publish_in<N: Net + Clock, E: Write + Drop>(
    alloc: Global,
    session: &mut Session<Client, Socket>,
    destination: Destination,
    properties: Properties,
    body: Chunks,
    readiness: &mut Readiness<'_, N>,
    notes: &mut Notes<'_, E>,
) -> Result<bool, Stop> {
    let mut publisher = publisher_of(alloc, destination, properties, body)?;
    let run = run_session(session, &mut publisher, readiness, notes);
    let refused = publisher.is_refused();
    drop(publisher);
    match run {
        Ok(()) => Ok(!refused),
        // the server's answer is known, whatever became of the connection after it
        Err(stop) if refused && stop.is_of_connection() => Ok(false),
        Err(stop) => Err(stop),
    }
}

fn publisher_of(
    alloc: Global,
    destination: Destination,
    properties: Properties,
    body: Chunks,
) -> Result<Publisher, OutOfMemory> {
    let awaited = awaited_of(&destination);
    let Destination {
        exchange,
        key,
        mandatory,
        confirm,
    } = destination;
    let method = asks::publish(alloc, exchange, key, mandatory || confirm)?;
    let content = Outgoing {
        method,
        properties,
        body,
    };
    Ok(Publisher::new(alloc, content, awaited))
}

/// What is waited for. A server that confirms a content says of one that it returned, too, that it took it.
fn awaited_of(destination: &Destination) -> Awaited {
    if destination.confirm {
        return Awaited::Confirm;
    }
    if destination.mandatory {
        return Awaited::Return;
    }
    Awaited::Nothing
}

/// Takes the steps of the publisher until the connection is closed. Where a write fails, what the server had sent by
/// then is heard first.
fn run_session<N: Net + Clock, E: Write + Drop>(
    session: &mut Session<Client, Socket>,
    publisher: &mut Publisher,
    readiness: &mut Readiness<'_, N>,
    notes: &mut Notes<'_, E>,
) -> Result<(), Stop> {
    let run = take_turns(session, publisher, readiness, notes);
    if let Err(Stop::NotSent(_)) = run {
        hear_rest(session, publisher, notes)?;
    }
    run
}

/// Takes turns until the connection is closed: reads once, asks what follows from what came, and writes. Where the
/// channel is to be closed it reads nothing before: a content that is written at once and its close leave together.
fn take_turns<N: Net + Clock, E: Write + Drop>(
    session: &mut Session<Client, Socket>,
    publisher: &mut Publisher,
    readiness: &mut Readiness<'_, N>,
    notes: &mut Notes<'_, E>,
) -> Result<(), Stop> {
    let mut most = ANSWERS;
    for _ in 0..u64::MAX {
        let pulled = if publisher.closes_channel(session.end()) {
            Ok(false)
        } else {
            pull_ready(session, most)
        };
        hear_all(session, publisher, notes)?;
        let asked = ask_all(session, publisher)?;
        most = most.saturating_add(asked);
        if settle(session, pulled, readiness)? {
            break;
        }
    }
    Ok(())
}

/// Takes all steps that can be taken now. It answers how many octets they put.
fn ask_all(
    session: &mut Session<Client, Socket>,
    publisher: &mut Publisher,
) -> Result<usize, Stop> {
    let before = waiting(session);
    publisher.ask_all(session)?;
    Ok(waiting(session).saturating_sub(before))
}

/// Reads what is there, and tells the publisher the events.
fn hear_rest<E: Write + Drop>(
    session: &mut Session<Client, Socket>,
    publisher: &mut Publisher,
    notes: &mut Notes<'_, E>,
) -> Result<(), Stop> {
    for _ in 0..u64::MAX {
        let pulled = pull_ready(session, usize::MAX);
        hear_all(session, publisher, notes)?;
        let Ok(true) = pulled else {
            break;
        };
    }
    Ok(())
}

/// Tells the publisher the events that came.
fn hear_all<E: Write + Drop>(
    session: &mut Session<Client, Socket>,
    publisher: &mut Publisher,
    notes: &mut Notes<'_, E>,
) -> Result<(), OutOfMemory> {
    for _ in 0..u64::MAX {
        let Some(event) = session.next_event() else {
            break;
        };
        hear_owned(event, publisher, notes)?;
    }
    Ok(())
}

/// Tells the publisher an event, and lets it go.
fn hear_owned<E: Write + Drop>(
    event: Event,
    publisher: &mut Publisher,
    notes: &mut Notes<'_, E>,
) -> Result<(), OutOfMemory> {
    publisher.hear(&event);
    let noted = note_event(&event, notes);
    drop(event);
    noted
}

/// Says on standard error why the server did not take the content, or does not take it yet.
fn note_event<E: Write + Drop>(event: &Event, notes: &mut Notes<'_, E>) -> Result<(), OutOfMemory> {
    match event {
        Event::ChannelClosed(_, Some(reason)) => {
            notes.say_why("the server closed the channel", reason)
        }
        Event::ConnectionClosed(Some(reason)) => {
            notes.say_why("the server closed the connection", reason)
        }
        Event::Told(_, message) => note_method(message.method(), notes)?,
        Event::Flow(_, false) => notes.say("the server takes no contents for now"),
        Event::Blocked(_) => notes.say_why("the server takes no contents for now", event),
        Event::Unblocked => notes.say("the server takes contents again"),
        _ => {}
    }
    Ok(())
}

fn note_method<E: Write + Drop>(
    method: &Method,
    notes: &mut Notes<'_, E>,
) -> Result<(), OutOfMemory> {
    match method.kind() {
        Kind::BasicNack => notes.say("the server did not take the content"),
        Kind::BasicReturn => note_return(method, notes)?,
        _ => {}
    }
    Ok(())
}

fn note_return<E: Write + Drop>(
    method: &Method,
    notes: &mut Notes<'_, E>,
) -> Result<(), OutOfMemory> {
    if let (Some(code), Some(text)) = (method.short_at(0), method.short_str_at(1)) {
        let text = text.copy()?;
        let reason = Reason { code, text };
        notes.say_why("the server returned the content", &reason);
    }
    Ok(())
}
