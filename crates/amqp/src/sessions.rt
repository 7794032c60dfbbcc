//! What the subcommands over a stream do with a session: it is pulled, its events are dealt with, and then it is
//! settled.
//!
//! A session over a socket whose calls don't wait reads and writes by turns, and waits only where it can do neither.
//! So two ends that both write much don't wait for each other to read.
use crate::hellos::{Access, client_config, client_config_of, server_config};
use crate::printing::Stop;
use crate::readiness::Readiness;
use amqp_command::Limits;
use amqp_core::{AskFault, Client, End, Phase, Role, Server};
use amqp_io::{IoFault, Session, Socket};
use std::alloc::Global;
use std::net::Net;
use std::time::Clock;

/// At most so many octets of an end's answers wait to be written. Where more do, it reads nothing until some are
/// written, so that a peer that never reads can't fill the memory.
pub const ANSWERS: usize = 1_048_576;

/// At most so many octets are written before the next read.
const AT_ONCE: usize = 65_536;

/// A client with these limits.
pub fn client_end(alloc: Global, limits: Limits) -> Result<End<Client>, Stop> {
    let config = client_config(alloc, limits)?;
    Ok(End::new(alloc, config)?)
}

/// A client with these limits that logs in so, and wants this heartbeat.
pub fn client_end_of(
    alloc: Global,
    limits: Limits,
    access: Access,
    heartbeat: u16,
) -> Result<End<Client>, Stop> {
    let mut config = client_config_of(alloc, limits, access)?;
    config.heartbeat = heartbeat;
    Ok(End::new(alloc, config)?)
}

/// A server with these limits.
pub fn server_end(alloc: Global, limits: Limits) -> Result<End<Server>, Stop> {
    let config = server_config(alloc, limits)?;
    Ok(End::new(alloc, config)?)
}

/// A server with these limits that wants this heartbeat.
pub fn server_end_of(alloc: Global, limits: Limits, heartbeat: u16) -> Result<End<Server>, Stop> {
    let mut config = server_config(alloc, limits)?;
    config.heartbeat = heartbeat;
    Ok(End::new(alloc, config)?)
}

/// Whether the connection is closed.
pub fn is_closed<R: Role>(session: &Session<R, Socket>) -> bool {
    session.end().phase() == Phase::Closed
}

/// Why a session is given up after this fault.
pub fn stop_of<R: Role>(session: &Session<R, Socket>, fault: IoFault) -> Stop {
    match fault {
        IoFault::Read => Stop::NotRead(session.stream().failure()),
        IoFault::Write => Stop::NotSent(session.stream().failure()),
        IoFault::EndOfInput => Stop::HungUp(session.end().pending()),
        IoFault::Core(fault) => Stop::Core(fault),
        IoFault::OutOfMemory => Stop::OutOfMemory,
    }
}

/// Writes at most so many of the octets that the end has put. It answers how many.
pub fn push_some<R: Role>(session: &mut Session<R, Socket>, limit: usize) -> Result<usize, Stop> {
    match session.push(limit) {
        Ok(count) => Ok(count),
        Err(fault) => Err(stop_of(session, fault)),
    }
}

/// Reads once, and feeds the end. It answers how many octets came.
pub fn pull<R: Role>(session: &mut Session<R, Socket>) -> Result<usize, Stop> {
    match session.pull() {
        Ok(count) => Ok(count),
        Err(fault) => Err(stop_of(session, fault)),
    }
}

/// How many octets the end has put that are not written.
pub fn waiting<R: Role>(session: &Session<R, Socket>) -> usize {
    session.end().output().len()
}

/// Whether the last call that failed may be made again: it would have had to wait, or a signal interrupted it.
fn is_held_up(socket: &Socket) -> bool {
    socket.would_block() || socket.was_interrupted()
}

/// Reads once what is there, and feeds the end, unless it has more than so many octets to write. It answers whether
/// any came.
pub fn pull_ready<R: Role>(session: &mut Session<R, Socket>, most: usize) -> Result<bool, Stop> {
    if waiting(session) > most {
        return Ok(false);
    }
    match session.pull() {
        Ok(_) => Ok(true),
        Err(IoFault::Read) if is_held_up(session.stream()) => Ok(false),
        Err(fault) => Err(stop_of(session, fault)),
    }
}

/// Writes of what the end has put as much as the socket takes at once. It answers whether any octet went.
fn push_ready<R: Role>(session: &mut Session<R, Socket>) -> Result<bool, Stop> {
    let before = waiting(session);
    match session.push(AT_ONCE) {
        Ok(_) => {}
        Err(IoFault::Write) if is_held_up(session.stream()) => {}
        Err(fault) => return Err(stop_of(session, fault)),
    }
    Ok(waiting(session) < before)
}

/// Writes all that the end has put, and waits where the socket takes no more for now.
fn push_all<R: Role, N: Net + Clock>(
    session: &mut Session<R, Socket>,
    readiness: &mut Readiness<'_, N>,
) -> Result<(), Stop> {
    for _ in 0..u64::MAX {
        if waiting(session) == 0 {
            break;
        }
        if push_ready(session)? {
            readiness.moved();
        } else {
            readiness.wait(false)?;
        }
    }
    Ok(())
}

/// After a read that came to this, writes some of what the end has put, or waits where nothing came and nothing can
/// be written. Once the connection is closed, or after a fault, it writes all, so that the other end learns what was
/// wrong. It answers whether the run is over: once the connection is closed, whatever was read after the close.
pub fn settle<R: Role, N: Net + Clock>(
    session: &mut Session<R, Socket>,
    pulled: Result<bool, Stop>,
    readiness: &mut Readiness<'_, N>,
) -> Result<bool, Stop> {
    if is_closed(session) {
        push_all(session, readiness)?;
        return Ok(true);
    }
    match pulled {
        Ok(came) => {
            exchange(session, came, readiness)?;
            Ok(false)
        }
        Err(stop) => {
            // the fault that came first is told
            let _ = push_all(session, readiness);
            Err(stop)
        }
    }
}

/// Whether the end may put a heartbeat now. Where octets wait to be written, it would tell nothing more than these.
fn may_beat<R: Role>(session: &Session<R, Socket>) -> bool {
    session.end().phase() == Phase::Running && waiting(session) == 0
}

/// Puts a heartbeat, if one is due.
fn beat<R: Role, N: Net + Clock>(
    session: &mut Session<R, Socket>,
    readiness: &mut Readiness<'_, N>,
) -> Result<(), AskFault> {
    readiness.keep(session.end().heartbeat());
    if may_beat(session) && readiness.owes_beat() {
        session.beat()?;
    }
    Ok(())
}

/// Writes what can be written at once. Where nothing can, and nothing came either, waits.
fn exchange<R: Role, N: Net + Clock>(
    session: &mut Session<R, Socket>,
    came: bool,
    readiness: &mut Readiness<'_, N>,
) -> Result<(), Stop> {
    beat(session, readiness)?;
    let is_unread = waiting(session) > ANSWERS;
    let went = push_ready(session)?;
    if went {
        readiness.went();
    }
    // where nothing is read, what the other end takes tells that it is there
    if came || went && is_unread {
        readiness.came();
    }
    if came || went {
        return Ok(());
    }
    let beats = may_beat(session);
    readiness.wait(beats)
}
