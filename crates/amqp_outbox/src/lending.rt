//! What waits, lent piece by piece.
ghost use Rattle.std.specs.Prelude.{◌≡◌, ℕ, ◌+◌, ◌<◌, ◌≤◌, List, [], ◌++◌, length, All, MatchOption};
ghost use Rattle.amqp_frame.specs.Splitting.{stream};
ghost use Rattle.amqp_model.specs.Output.Arrangement.{arranged};
ghost use Rattle.amqp_outbox.specs.PiecesQueues.{frames_of, AreSound, IsChunk, row_of_queues};
ghost use Rattle.amqp_outbox.specs.PiecesLent.{left_in};

use crate::queues::{Chunk, Queues};
use crate::ring::Ring;
use std::collections::VecDeque;
use std::marker::Model;

/// The frames of a queue, of which so many are lent.
#[derive(Drop)]
pub(crate) struct Line<'a> {
    pub(crate) frames: &'a VecDeque<Chunk>,
    pub(crate) lent: usize,
}

impl<'a> Line<'a> {
    /// The octets of the next frame.
    fn next(&mut self) -> Option<&'a [u8]>
        requires { All IsChunk self.old.frames.now.items }
        ensures frames { self.new.frames.now ≡ self.old.frames.now }
        ensures left { MatchOption result ((left_in self.old ≡ []) × (left_in self.new ≡ []))
            (λ piece. (left_in self.old ≡ piece.now ++ left_in self.new) × (0 < length piece.now)) }
    {
        let chunk = self.frames.get(self.lent)?;
        self.lent += 1;
        Some(&chunk.octets)
    }
}

/// The octets that wait, in the order in which they are to leave: what is left of the frame that is begun, and then
/// frame by frame. A piece is never empty.
#[derive(Drop)]
pub struct Pieces<'a> {
    ahead: &'a [u8],
    plain: Line<'a>,
    channels: Ring<'a>,
    leaving: Line<'a>,
}

impl<'a> Model for Pieces<'a> {
    ghost use Rattle.std.specs.Prelude.{ℕ, List};

    ghost Value = { List ℕ };

    ghost use Rattle.amqp_outbox.specs.PiecesLent.{octets_left, IsLeft};

    ghost view = { octets_left };

    ghost invariant = { IsLeft };
}

impl<'a> Pieces<'a> {
    /// What is left of a frame, and then what waits in the queues, where `last` is LAST.
    pub(crate) fn new(ahead: &'a [u8], queues: &'a Queues, last: u16) -> Pieces<'a>
        requires { AreSound queues.now }
        ensures { result ≡ ahead.now ++ stream (row_of_queues last queues.now) }
    {
        Pieces {
            ahead,
            plain: Line {
                frames: &queues.plain,
                lent: 0,
            },
            channels: Ring::new(&queues.channels, last),
            leaving: Line {
                frames: &queues.leaving,
                lent: 0,
            },
        }
    }

    /// The next piece.
    pub fn next_piece(&mut self) -> Option<&'a [u8]>
        ensures { MatchOption result ((self.old ≡ []) × (self.new ≡ []))
            (λ piece. (self.old ≡ piece.now ++ self.new) × (0 < length piece.now)) }
    {
        if !self.ahead.is_empty() {
            let ahead = self.ahead;
            self.ahead = &[];
            return Some(ahead);
        }
        if let Some(piece) = self.plain.next() {
            return Some(piece);
        }
        if let Some(chunk) = self.channels.next() {
            return Some(&chunk.octets);
        }
        self.leaving.next()
    }
}
