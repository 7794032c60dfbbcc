//! The octets that a session has read and not fed yet.
ghost use Rattle.std.specs.Prelude.{◌≡◌, ◌≤◌, ◌<◌, ◌==◌, [], length, drop};
ghost use Rattle.amqp_io.specs.Streams.{Marks};
ghost use Rattle.amqp_io.specs.Refilling.{Refills};

use crate::reading::{Arrival, read_once};
use crate::stream::Stream;
use std::marker::Model;

/// At most so many octets are read at once, where the caller doesn't say otherwise.
const MOST: usize = 4096;

/// The room into which octets are read.
#[derive(Drop)]
pub(crate) enum Room {
    /// Room for [`MOST`] octets, which takes no memory.
    Own([u8; MOST]),
    /// Room that the caller gave.
    Given(Vec<u8>),
}

/// Octets that a session has read and not fed to its end. They are read into room that it keeps, so reading takes no
/// memory.
#[derive(Drop)]
pub struct Unfed {
    room: Room,
    /// how many of the octets read were fed
    fed: usize,
    /// how many octets were read
    read: usize,
}

impl Model for Unfed {
    ghost use Rattle.amqp_io.specs.Buffering.{Buffered};

    ghost Value = { Buffered };

    ghost use Rattle.amqp_io.specs.UnfedFields.{buffered_of, ReadBufferIsSound};

    ghost view = { buffered_of };

    ghost invariant = { ReadBufferIsSound };
}

impl Unfed {
    /// No octet, and room for 4096.
    pub(crate) fn new() -> Unfed
        ensures octets { result.octets ≡ [] }
        ensures room { result.room ≡ 4096 }
    {
        Unfed {
            room: Room::Own([0; MOST]),
            fed: 0,
            read: 0,
        }
    }

    /// No octet, and this room, whatever stands in it.
    pub(crate) fn with_room(room: Vec<u8>) -> Unfed
        requires { 0 < length room.items }
        ensures octets { result.octets ≡ [] }
        ensures room { result.room ≡ length room.items }
    {
        Unfed {
            room: Room::Given(room),
            fed: 0,
            read: 0,
        }
    }

    /// The octets, in the order in which they were read.
    pub fn octets(&self) -> &[u8]
        ensures { result.now ≡ self.now.octets }
    {
        match &self.room {
            Room::Own(octets) => &octets[self.fed..self.read],
            Room::Given(octets) => &octets[self.fed..self.read],
        }
    }

    /// There is none.
    pub fn is_empty(&self) -> bool
        ensures { result ≡ (length self.now.octets == 0) }
    {
        self.fed == self.read
    }

    /// So many octets from the start were fed.
    pub(crate) fn fed(&mut self, count: usize)
        requires { count ≤ length self.old.octets }
        ensures { self.new ≡ record self.old { octets = drop count self.old.octets } }
    {
        self.fed += count;
    }

    /// Drops the octets.
    pub(crate) fn clear(&mut self)
        ensures { self.new ≡ record self.old { octets = [] } }
    {
        self.fed = 0;
        self.read = 0;
    }

    /// Reads once, in place of what was there.
    pub(crate) fn refill<S: Stream>(&mut self, stream: &mut S) -> Arrival
        ensures given { Refills self.old.room result self.new.octets (S.to_give stream.old) (S.to_give stream.new) }
        ensures room { self.new.room ≡ self.old.room }
        ensures taken { S.taken stream.new ≡ S.taken stream.old }
        ensures failure { Marks (result ≡ Arrival.Failure) (S.failures stream.old) (S.failures stream.new) }
        ensures end { Marks (result ≡ Arrival.End) (S.ends stream.old) (S.ends stream.new) }
    {
        let arrival = match &mut self.room {
            Room::Own(octets) => read_once(stream, octets),
            Room::Given(octets) => read_once(stream, octets),
        };
        self.fed = 0;
        self.read = match arrival {
            Arrival::Octets(count) => count,
            Arrival::End => 0,
            Arrival::Failure => 0,
        };
        arrival
    }
}
