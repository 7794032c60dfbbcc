//! One end of a connection with its socket, which never waits.
ghost use Rattle.std.specs.Prelude.{◌≡◌, ◌≤◌, IfSome, length};

use crate::ahead::Ahead;
use crate::pulse::Pulse;
use amqp_core::{EventRef, Phase, Role, StreamEnd};
use amqp_method::Kind;
use mio::event;
use mio::net::TcpStream;
use std::alloc::Global;
use std::io::{self, ErrorKind, Read, Write};

/// Where more octets wait to be written, no more are to be made: a program doesn't read who asks for them.
pub const FULL: usize = 1_048_576;

/// Where more wait or are gathered all the same, a program gives a connection up.
pub const MOST: usize = 268_435_456;

pub struct Link<R: Role> {
    /// In a box, so that what holds it is small, as a connection among others in a map.
    pub end: Box<StreamEnd<R>>,
    /// The frames of a content whose body was not there when it began. They go out before what the end puts.
    pub ahead: Ahead,
    stream: TcpStream,
    /// So many octets were written in all.
    written: u64,
    /// As far as it is known, the socket has octets to read.
    can_read: bool,
    /// As far as it is known, the socket takes octets.
    can_write: bool,
    /// The peer hung up or fell silent, or the socket failed, or its owner gives it up.
    pub is_gone: bool,
    /// Its owner doesn't want it read for now.
    pub is_held: bool,
    /// The peer sends no more. What it sent is read though it is held, so that it is seen to be gone.
    has_left: bool,
    pulse: Pulse,
}

/// Written out, so that it is proved once.
impl<R: Role> Drop for Link<R> {
    fn drop(self) {
        let Link {
            end: _,
            ahead: _,
            stream: _,
            written: _,
            can_read: _,
            can_write: _,
            is_gone: _,
            is_held: _,
            has_left: _,
            pulse: _,
        } = self;
    }
}

impl<R: Role> Link<R> {
    pub fn new(alloc: Global, stream: TcpStream, end: Box<StreamEnd<R>>) -> Link<R> {
        Link {
            end,
            ahead: Ahead::new(alloc),
            stream,
            written: 0,
            can_read: true,
            can_write: true,
            is_gone: false,
            is_held: false,
            has_left: false,
            pulse: Pulse::default(),
        }
    }

    /// Notes that the socket is ready.
    pub fn note(&mut self, event: &event::Event) {
        self.has_left |= event.is_read_closed();
        self.can_read |= event.is_readable() || self.has_left;
        self.can_write |= event.is_writable();
    }

    /// Whether nothing more is heard of the peer: the end is closed or has failed, or the peer is gone.
    pub fn is_over(&self) -> bool {
        self.is_gone || matches!(self.end.phase(), Phase::Closed | Phase::Failed)
    }

    /// Whether nothing is left to do.
    pub fn is_done(&self) -> bool {
        self.is_gone || (self.is_over() && !self.has_output())
    }

    /// Whether there is something to do at once.
    pub fn has_work(&self) -> bool {
        let can_write = self.can_write && !self.is_gone && self.has_output();
        can_write || self.is_read()
    }

    /// Whether it is read now.
    fn is_read(&self) -> bool {
        self.can_read && (self.has_left || !self.is_held) && !self.is_over()
    }

    /// Reads once what is there. It answers how many octets came.
    pub fn read(&mut self, room: &mut [u8]) -> usize
        ensures within { result ≤ length room.new }
        ensures end { self.new.end ≡ self.old.end }
    {
        if !self.is_read() {
            return 0;
        }
        match self.stream.read(room) {
            Ok(count) if count > 0 => return count,
            Err(failure) if failure.kind() == ErrorKind::WouldBlock => self.can_read = false,
            _ => self.is_gone = true,
        }
        0
    }

    /// Writes once what waits, as far as the socket takes it.
    fn write(&mut self) {
        if self.is_gone || !self.has_output() {
            return;
        }
        match self.write_next() {
            Ok(count) => self.written = self.written.saturating_add(count as u64),
            Err(failure) if failure.kind() == ErrorKind::WouldBlock => self.can_write = false,
            Err(_) => self.is_gone = true,
        }
    }

    /// Writes once of the frames that go first, or else of what the end puts. It answers how many octets went.
    fn write_next(&mut self) -> io::Result<usize> {
        if self.ahead.left().is_empty() {
            let count = self.stream.write(self.end.output())?;
            self.end.wrote(count);
            return Ok(count);
        }
        let count = self.stream.write(self.ahead.left())?;
        self.ahead.let_go(count);
        Ok(count)
    }

    /// Writes once what waits, and what half a second owes if it passed.
    pub fn settle(&mut self, ticks: bool) {
        if ticks {
            self.tick();
        }
        self.write();
    }

    /// Half a second passed: puts a heartbeat if one is due, and gives up a peer that fell silent though it is read.
    /// In the handshake and in a close a peer may be silent for half a minute.
    fn tick(&mut self) {
        let came = self.end.octets_taken();
        self.pulse.tick(came, self.written, !self.is_held);
        let heartbeat = match self.end.phase() {
            Phase::Running => self.end.heartbeat(),
            _ => 15,
        };
        if heartbeat > 0 && self.pulse.is_over(heartbeat) {
            self.is_gone = true;
        } else if heartbeat > 0 && self.pulse.owes_beat(heartbeat) && !self.has_output() {
            self.beat();
        }
    }

    /// Takes octets up to the end of a frame, and answers how many, and what the frame says, if it is whole. None: all
    /// octets are taken, or the end takes no more.
    pub fn hear<'a>(&'a mut self, octets: &'a [u8]) -> Option<(usize, Option<Heard<'a>>)>
        ensures within { IfSome result (λ taken. taken.0 ≤ length octets.now) }
    {
        if octets.is_empty() || self.is_over() {
            return None;
        }
        let end: &mut StreamEnd<R> = &mut self.end;
        let Ok(step) = end.advance(octets) else {
            return None;
        };
        let taken = step.octets;
        let about = match end.closed_for() {
            Some(cause) => cause.kind(),
            None => None,
        };
        match end.event(step) {
            Some(event) => Some((taken, Some(Heard { event, about }))),
            None => Some((taken, None)),
        }
    }
}

/// An event as it is heard.
#[derive(Clone, Copy)]
pub struct Heard<'a> {
    pub event: EventRef<'a>,
    /// Of a close: the kind of the method that it is about, if it names one.
    pub about: Option<Kind>,
}

impl Heard<'_> {
    /// Prints a line for it, if it isn't of the content that follows a method.
    pub fn print(&self, rt: &impl Print, is_client: bool) {
        if matches!(self.event, EventRef::Heads(..) | EventRef::Part(..)) {
            return;
        }
        let name = if is_client { "broker" } else { "client" };
        drop(println!(rt; "{name} {}", self.event));
    }
}
