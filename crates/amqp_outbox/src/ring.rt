//! The frames of the channels above 0, lent in turn.
//!
//! The turn goes round the queues: from the first channel after LAST to the greatest, then from the lowest on. In
//! each round a queue lends the frame that has the number of the round, counted from 0, if it has so many. So nothing
//! is kept of a queue, and what is lent stays where it is.
ghost use Rattle.std.specs.Prelude.{◌≡◌, ℕ, suc, ◌+◌, ◌-◌, ◌^◌, ◌<◌, ◌≤◌, [], ◌∷◌, ◌++◌, length, All, MatchOption, slice_index_or};
ghost use Rattle.amqp_model.specs.Output.Arrangement.{arranged};
ghost use Rattle.amqp_outbox.specs.PiecesQueues.{frame_of, IsChunk, IsQueue, Ascends, on_channels};
ghost use Rattle.amqp_outbox.specs.PiecesRing.{queues_in, row_in, IsRound};

use crate::queues::{Chunk, Queue, count_up_to};
use amqp_model::arrangement;

/// A place on the way round the queues.
#[derive(Drop)]
pub(crate) struct Ring<'a> {
    /// the queues of the channels after the first LAST, and the others
    pub(crate) later: &'a [Queue],
    pub(crate) earlier: &'a [Queue],
    pub(crate) round: usize,
    pub(crate) at: usize,
    /// how many queues in a row were passed that had no frame to lend
    pub(crate) idle: usize,
    /// the channel that was passed last
    pub(crate) last: u16,
}

impl<'a> Ring<'a> {
    /// All queues, of which nothing is lent, where `last` is LAST.
    pub(crate) fn new(queues: &'a [Queue], last: u16) -> Ring<'a>
        requires sound { All IsQueue queues.now }
        requires ascends { Ascends queues.now }
        ensures round { IsRound result }
        ensures row { row_in result ≡ arranged last (on_channels queues.now) }
    {
        arrangement::one_row();
        let first = count_up_to(queues, last);
        Ring {
            later: &queues[first..],
            earlier: &queues[..first],
            round: 0,
            at: 0,
            idle: 0,
            last,
        }
    }

    /// The next frame.
    pub(crate) fn next(&mut self) -> Option<&'a Chunk>
        requires { IsRound self.old }
        ensures round { IsRound self.new }
        ensures row { MatchOption result ((row_in self.old ≡ []) × (row_in self.new ≡ []))
            (λ chunk. (row_in self.old ≡ frame_of chunk.now ∷ row_in self.new) × IsChunk chunk.now) }
    {
        let count = self.later.len() + self.earlier.len();
        while self.idle < count {
            self.go_round();
            if let Some(chunk) = self.pass() {
                return Some(chunk);
            }
        }
        None
    }

    /// Begins the next round, where one is at its end.
    fn go_round(&mut self)
        requires { IsRound self.old }
        ensures round { IsRound self.new }
        ensures row { row_in self.new ≡ row_in self.old }
        ensures queues { queues_in self.new ≡ queues_in self.old }
        ensures idle { self.new.idle ≡ self.old.idle }
        ensures some { 0 < length (queues_in self.old) → self.new.at < length (queues_in self.new) }
    {
        if self.at == self.later.len() + self.earlier.len() {
            self.at = 0;
            self.round = self.round.saturating_add(1);
        }
    }

    /// Passes a queue, which lends its frame of this round, if it has one.
    fn pass(&mut self) -> Option<&'a Chunk>
        requires round { IsRound self.old }
        requires within { self.old.at < length (queues_in self.old) }
        requires left { self.old.idle < length (queues_in self.old) }
        ensures round { IsRound self.new }
        ensures queues { queues_in self.new ≡ queues_in self.old }
        ensures row { MatchOption result ((row_in self.old ≡ row_in self.new) × (self.new.idle ≡ self.old.idle + 1))
            (λ chunk. (row_in self.old ≡ frame_of chunk.now ∷ row_in self.new) × IsChunk chunk.now) }
    {
        arrangement::one_row();
        let queue = queue_at(self.later, self.earlier, self.at);
        let lent = queue.frames.get(self.round);
        self.at += 1;
        self.last = queue.channel;
        match lent {
            Some(chunk) => {
                self.idle = 0;
                Some(chunk)
            }
            None => {
                self.idle += 1;
                None
            }
        }
    }
}

/// The queue at a place, where some stand after others.
fn queue_at<'a>(later: &'a [Queue], earlier: &'a [Queue], at: usize) -> &'a Queue
    requires { at < length (later.now ++ earlier.now) }
    ensures { result.now ≡ slice_index_or (later.now ++ earlier.now) at result.now }
{
    if at < later.len() {
        &later[at]
    } else {
        &earlier[at - later.len()]
    }
}
