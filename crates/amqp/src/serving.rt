//! The subcommand `serve`, over a socket.
use crate::printing::Stop;
use crate::readiness::Readiness;
use crate::sessions::{ANSWERS, pull_ready, server_end_of, settle};
use amqp_command::Limits;
use amqp_core::{Event, Server};
use amqp_io::{Session, Socket};
use amqp_text::print_event;
use amqp_text::statuses::DONE;
use std::alloc::Global;
use std::io::Write;
use std::net::Net;
use std::time::Clock;

/// Serves one connection until it is closed: prints the events of its end, and answers what the end owes. The end wants
/// this heartbeat.
pub fn serve<N: Net + Clock, W: Write>(
    alloc: Global,
    limits: Limits,
    heartbeat: u16,
    socket: Socket,
    readiness: &mut Readiness<'_, N>,
    output: &mut W,
) -> Result<u8, Stop> {
    let end = server_end_of(alloc, limits, heartbeat)?;
    let mut session = Session::new(alloc, end, socket);
    let run = serve_session(&mut session, readiness, output);
    drop(session);
    run
}

/// Takes what comes until the connection is closed. The events of each read are printed before the next.
fn serve_session<N: Net + Clock, W: Write>(
    session: &mut Session<Server, Socket>,
    readiness: &mut Readiness<'_, N>,
    output: &mut W,
) -> Result<u8, Stop> {
    let mut greeted = false;
    for _ in 0..u64::MAX {
        let pulled = pull_ready(session, ANSWERS);
        greeted |= print_events(session, output)?;
        match settle(session, pulled, readiness) {
            Ok(true) => break,
            Ok(false) => {}
            Err(stop) => return give_up(session, stop, greeted, output),
        }
    }
    Ok(DONE)
}

/// Why the run is given up. Where a write failed, what the client had sent by then is read and printed first.
fn give_up<W: Write>(
    session: &mut Session<Server, Socket>,
    stop: Stop,
    greeted: bool,
    output: &mut W,
) -> Result<u8, Stop> {
    match stop {
        Stop::NotSent(_) => {
            print_rest(session, output)?;
            Err(stop)
        }
        Stop::HungUp(pending) if !greeted && pending > 0 => Err(Stop::HungUpInHeader(pending)),
        _ => Err(stop),
    }
}

/// Reads what is there, and prints the events.
fn print_rest<W: Write>(session: &mut Session<Server, Socket>, output: &mut W) -> Result<(), Stop> {
    for _ in 0..u64::MAX {
        let pulled = pull_ready(session, usize::MAX);
        print_events(session, output)?;
        let Ok(true) = pulled else {
            break;
        };
    }
    Ok(())
}

/// Prints the events that came. It answers whether any did: the first tells that the protocol header is whole.
fn print_events<W: Write>(
    session: &mut Session<Server, Socket>,
    output: &mut W,
) -> Result<bool, Stop> {
    let mut came = false;
    for _ in 0..u64::MAX {
        let Some(event) = session.next_event() else {
            break;
        };
        came = true;
        print_owned(event, output)?;
    }
    output.flush()?;
    Ok(came)
}

/// Prints an event, and lets it go.
fn print_owned<W: Write>(event: Event, output: &mut W) -> Result<(), Stop> {
    let printed = print_event(&event, output);
    drop(event);
    Ok(printed?)
}
