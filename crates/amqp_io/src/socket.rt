//! A stream over a TCP connection.
ghost use Rattle.std.specs.Prelude.{◌≡◌, ◌≤◌, ◌↔◌, IsTrue, None, is_some, length, IfOk, OnErr, OnOk, IsErr};
ghost use Rattle.std.specs.Io.Slices.{io_slices_bytes};
ghost use Rattle.amqp_io.specs.Sockets.{HasKind};
ghost use Rattle.amqp_io.specs.Streams.{Marks, MeetsEnd, WriteFails};

use crate::faults::StreamFailed;
use crate::marks::changed;
use crate::stream::Stream;
use crate::vectored::first_octets;
use std::io::{self, ErrorKind, IoSlice, Read, Write};
use std::marker::Model;
use std::net::TcpStream;

/// A TCP connection as a [`Stream`]. Nothing is known of the octets that it carries.
///
/// A read or write that a signal interrupts, or that would have to wait where the calls of the TCP stream don't, fails
/// like any other. [`Socket::would_block`] and [`Socket::was_interrupted`] tell these from a connection that is broken:
/// nothing was moved, and the call may be made again.
#[derive(Drop)]
pub struct Socket {
    stream: TcpStream,
    /// why the last call that failed did so
    failure: Option<io::Error>,
    /// changes in each call that fails
    failures: u64,
    /// changes in each read that meets the end of the input
    ends: u64,
}

impl Model for Socket {
    ghost use Rattle.amqp_io.specs.Sockets.{Connected};

    ghost Value = { Connected };

    ghost use Rattle.amqp_io.specs.SocketFields.{connected_of};

    ghost view = { connected_of };
}

impl Socket {
    /// Takes over a connected stream.
    pub fn new(stream: TcpStream) -> Socket
        ensures stream { result.stream ≡ stream }
        ensures failure { result.failure ≡ None }
    {
        Socket {
            stream,
            failure: None,
            failures: 0,
            ends: 0,
        }
    }

    /// The TCP stream, to set its options.
    pub fn get_ref(&self) -> &TcpStream
        ensures { result.now ≡ self.now.stream }
    {
        &self.stream
    }

    /// Gives the TCP stream back.
    pub fn into_inner(self) -> TcpStream
        ensures { result ≡ self.stream }
    {
        self.stream
    }

    /// Why the last read or write that failed did so. There is no reason where none has failed yet, or where a write
    /// took nothing of what there was to write.
    pub fn failure(&self) -> Option<io::Error>
        ensures { result ≡ self.now.failure }
    {
        self.failure
    }

    /// Whether the last call that failed would have had to wait. The connection stands.
    pub fn would_block(&self) -> bool
        ensures { IsTrue result ↔ HasKind ErrorKind.WouldBlock self.now.failure }
    {
        match self.failure {
            Some(why) => why.kind() == ErrorKind::WouldBlock,
            None => false,
        }
    }

    /// Whether a signal interrupted the last call that failed. The connection stands.
    pub fn was_interrupted(&self) -> bool
        ensures { IsTrue result ↔ HasKind ErrorKind.Interrupted self.now.failure }
    {
        match self.failure {
            Some(why) => why.kind() == ErrorKind::Interrupted,
            None => false,
        }
    }
}

impl Stream for Socket {
    ghost to_give = { λ _. None };

    ghost taken = { λ _. None };

    ghost failures = { λ s. s.failures };

    ghost ends = { λ s. s.ends };

    fn read(&mut self, buffer: &mut [u8]) -> Result<usize, StreamFailed>
        ensures within { IfOk result (λ n. n ≤ length buffer.new) }
        ensures failure { Marks (IsErr result) self.old.failures self.new.failures }
        ensures end { Marks (MeetsEnd result buffer.new) self.old.ends self.new.ends }
        // And it keeps why it failed, and else what there was.
        ensures reason { OnErr result (IsTrue (is_some self.new.failure)) }
        ensures no_reason { OnOk result (self.new.failure ≡ self.old.failure) }
    {
        match self.stream.read(buffer) {
            Ok(count) => {
                if count == 0 && !buffer.is_empty() {
                    self.ends = changed(self.ends);
                }
                Ok(count)
            }
            Err(why) => {
                self.failure = Some(why);
                self.failures = changed(self.failures);
                Err(StreamFailed)
            }
        }
    }

    fn write(&mut self, octets: &[u8]) -> Result<usize, StreamFailed>
        ensures within { IfOk result (λ n. n ≤ length octets.now) }
        ensures failure { Marks (WriteFails result octets.now) self.old.failures self.new.failures }
        ensures no_end { self.new.ends ≡ self.old.ends }
        // And it keeps why it failed.
        ensures reason { OnErr result (IsTrue (is_some self.new.failure)) }
    {
        match self.stream.write(octets) {
            Ok(count) => {
                if count == 0 && !octets.is_empty() {
                    self.failure = None;
                    self.failures = changed(self.failures);
                }
                Ok(count)
            }
            Err(why) => {
                self.failure = Some(why);
                self.failures = changed(self.failures);
                Err(StreamFailed)
            }
        }
    }

    /// In one call of the system, which takes the first four slices that have octets.
    fn write_vectored(&mut self, slices: &[IoSlice<'_>]) -> Result<usize, StreamFailed>
        ensures within { IfOk result (λ n. n ≤ length (io_slices_bytes slices.now)) }
        ensures failure { Marks (WriteFails result (io_slices_bytes slices.now)) self.old.failures self.new.failures }
        ensures no_end { self.new.ends ≡ self.old.ends }
        // And it keeps why it failed.
        ensures reason { OnErr result (IsTrue (is_some self.new.failure)) }
    {
        let is_empty = first_octets(slices).is_empty();
        match self.stream.write_vectored(slices) {
            Ok(count) => {
                if count == 0 && !is_empty {
                    self.failure = None;
                    self.failures = changed(self.failures);
                }
                Ok(count)
            }
            Err(why) => {
                self.failure = Some(why);
                self.failures = changed(self.failures);
                Err(StreamFailed)
            }
        }
    }
}
