//! The loop of a program: one thread waits for all sockets, and then the program does what there is to do.
use crate::keys::key_from;
use crate::sockets::{Connect, Sockets};
use mio::event::Event;
use mio::net;
use std::alloc::Global;
use std::collections::BTreeMap;
use std::net::{Net, TcpListener, TcpStream};
use std::time::Clock;

/// So many octets of one connection are read before the next has its turn.
const AT_ONCE: usize = 65_536;

/// What a program keeps of one who connected.
pub trait Served: Drop {
    /// Whether there is something to do at once.
    fn has_work(&self) -> bool;

    /// Notes that a socket of it is ready.
    fn note(&mut self, event: &Event);
}

/// A program that serves connections, each by its number.
pub trait Program: Drop {
    type Connection: Served;

    fn connections(&mut self) -> &mut BTreeMap<usize, Self::Connection>;

    /// Takes one who connects.
    fn accept(
        &mut self,
        to: &impl Connect,
        number: usize,
        stream: net::TcpStream,
    ) -> anyhow::Result<Self::Connection>;

    /// A connection has its turn: it reads and writes once where that moves octets, and what they ask for is done. The
    /// answer is whether nothing is left to do there.
    fn turn(&mut self, rt: &impl Print, number: usize, ticks: bool, room: &mut [u8]) -> bool;

    /// All connections had their turns.
    fn finish(&mut self) {}
}

/// Serves whoever connects at an address, until waiting fails.
pub fn serve<R: Net<Stream = TcpStream, Listener = TcpListener> + Clock + Print>(
    rt: &R,
    alloc: Global,
    address: &str,
    mut program: impl Program,
) -> anyhow::Result<()> {
    let mut room = vec![in alloc; 0; AT_ONCE]?;
    let mut sockets = Sockets::listen(rt, alloc, address)?;
    serve_all(rt, &mut sockets, &mut program, &mut room)
}

fn serve_all<R: Net<Stream = TcpStream, Listener = TcpListener> + Clock + Print>(
    rt: &R,
    sockets: &mut Sockets<'_, R>,
    program: &mut impl Program,
    room: &mut [u8],
) -> anyhow::Result<()> {
    announce(rt, &sockets.listener)?;
    for _ in 0..u64::MAX {
        turn(rt, sockets, program, room)?;
    }
    Ok(())
}

fn announce(rt: &impl Print, listener: &net::TcpListener) -> anyhow::Result<()> {
    let address = listener.local_addr()?;
    println!(rt; "listening {address}")?;
    Ok(())
}

/// Waits once, and then serves whoever is ready or connects.
fn turn<R: Net<Stream = TcpStream, Listener = TcpListener> + Clock + Print>(
    rt: &R,
    sockets: &mut Sockets<'_, R>,
    program: &mut impl Program,
    room: &mut [u8],
) -> anyhow::Result<()> {
    let ticks = sockets.wait(has_work(program.connections()))?;
    for event in sockets.events.iter() {
        if let Some(connection) = program.connections().get_mut(&event.token().0) {
            connection.note(event);
        }
    }
    accept(sockets, program);
    turns(rt, program, ticks, room);
    program.finish();
    Ok(())
}

fn has_work<C: Served>(connections: &BTreeMap<usize, C>) -> bool {
    connections.values().any(C::has_work)
}

fn accept<R: Net<Stream = TcpStream, Listener = TcpListener> + Clock>(
    sockets: &mut Sockets<'_, R>,
    program: &mut impl Program,
) {
    for _ in 0..u64::MAX {
        let Some((number, stream)) = sockets.accept() else {
            return;
        };
        // one that can't be served, since memory or a socket was refused, is dropped
        if let Ok(connection) = program.accept(sockets, number, stream) {
            drop(program.connections().insert(number, connection));
        }
    }
}

/// Each connection has its turn, and goes where nothing is left to do.
fn turns(rt: &impl Print, program: &mut impl Program, ticks: bool, room: &mut [u8]) {
    let mut next = 0;
    for _ in 0..program.connections().len() {
        let Some(number) = key_from(program.connections(), next) else {
            return;
        };
        if program.turn(rt, number, ticks, room) {
            drop(program.connections().remove(&number));
        }
        next = number.saturating_add(1);
    }
}
