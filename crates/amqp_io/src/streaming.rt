//! One end of a connection whose events lend, over a stream.
ghost use Rattle.std.specs.Prelude.{◌≡◌, ◌<◌, length};
ghost use Rattle.amqp_outbox.specs.LentFrames.{content_left};
ghost use Rattle.amqp_io.specs.StreamSessions.{Pulled, Pushed, PushedFrames, PushedPieces};

use crate::faults::IoFault;
use crate::reading::{Arrival, read_once};
use crate::stream::Stream;
use crate::vectored::{write_content, write_pieces};
use crate::writing::write_prefix;
use amqp_core::{ContentFrames, Role, SendQueue, StreamEnd};

/// One end of a connection whose events lend, over a stream.
///
/// [`StreamSession::pull`] reads into room of the caller, whose octets the caller then feeds to [`StreamSession::end`],
/// and [`StreamSession::push`] writes what the end has put. So bodies of any length stream through the room for one
/// read, and an event is lent from where it was read. What an application asks, it asks of the end.
///
///     session.push(usize::MAX)?;
///     let mut rest = session.pull(&mut room)?;
///     while !rest.is_empty() {
///         let taken = session.end.feed_ref(rest)?;
///         rest = &rest[taken.octets..];
///         if let Some(event) = taken.event {
///             handle(event)?;
///         }
///     }
#[derive(Drop)]
pub struct StreamSession<R: Role, S: Stream> {
    /// The end.
    pub end: StreamEnd<R>,
    /// The stream.
    pub stream: S,
}

impl<R: Role, S: Stream> StreamSession<R, S> {
    /// Reads once, at most as many octets as there is room for, and at least 1. They are the next that the end is to be
    /// fed. Nothing is written.
    ///
    /// Replies wait in the end's output, which has no limit: do not pull while `session.end.waiting_in_all()` is above
    /// a bound of your own.
    pub fn pull<'a>(&mut self, room: &'a mut [u8]) -> Result<&'a [u8], IoFault>
        requires { 0 < length room.old }
        ensures { Pulled S.Stream (length room.old) self.old result self.new }
    {
        match read_once(&mut self.stream, room) {
            Arrival::Octets(count) => Ok(&room[..count]),
            Arrival::End => Err(IoFault::EndOfInput),
            Arrival::Failure => Err(IoFault::Read),
        }
    }

    /// Writes octets of the output, at most so many, in as many writes as it takes. It answers how many: as many as the
    /// limit allows and there are. Where there is nothing to write, no write is called.
    pub fn push(&mut self, limit: usize) -> Result<usize, IoFault>
        ensures { Pushed S.Stream limit self.old result self.new }
    {
        let output = self.end.output();
        let count = limit.min(output.len());
        let written = write_prefix(&mut self.stream, &output[..count]);
        self.end.wrote(written.octets);
        if written.failed {
            return Err(IoFault::Write);
        }
        Ok(written.octets)
    }

    /// Writes octets from the start of what waits in a queue, in one write of several of its pieces. It answers how many
    /// the stream took. Where nothing waits, no write is called.
    ///
    /// What the end has put is not written: [`StreamEnd::hand_over`] adds it to the queue.
    pub fn push_pieces(&mut self, queue: &mut SendQueue) -> Result<usize, IoFault>
        ensures { PushedPieces S.Stream self.old queue.old result self.new queue.new }
    {
        if queue.waiting_in_all() == 0 {
            return Ok(0);
        }
        match write_pieces(&mut self.stream, queue) {
            Ok(count) if count > 0 => {
                queue.wrote(count);
                Ok(count)
            }
            _ => Err(IoFault::Write),
        }
    }

    /// Writes the frames of a content that the end lends, in as many writes as it takes. Where a write fails `frames` has
    /// what is left, which is to be written before anything else.
    ///
    ///     session.push(usize::MAX)?;
    ///     let mut frames = session.end.lend_content(channel, &method, &properties, &body, &mut octets)?;
    ///     session.push_frames(&mut frames)?;
    pub fn push_frames(&mut self, frames: &mut ContentFrames<'_>) -> Result<(), IoFault>
        ensures { PushedFrames S.Stream self.old (content_left frames.old) result self.new (content_left frames.new) }
    {
        while !frames.is_empty() {
            match write_content(&mut self.stream, frames) {
                Ok(count) if count > 0 => frames.wrote(count),
                _ => return Err(IoFault::Write),
            }
        }
        Ok(())
    }
}
