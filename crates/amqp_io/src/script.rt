//! A stream in memory, for tests.
ghost use Rattle.std.specs.Prelude.{◌≡◌, ◌≤◌, [], ◌++◌, Some, length, min, take, drop, IfOk, OnErr, IsErr};
ghost use Rattle.amqp_io.specs.Streams.{Marks, MeetsEnd, WriteFails};
ghost use Rattle.amqp_io.specs.Tape.{moved, answer_of};

use crate::faults::StreamFailed;
use crate::marks::changed;
use crate::stream::Stream;
use std::marker::Model;

/// What a script does in one call, a read or a write.
#[derive(Clone, Copy, PartialEq, Eq, Debug)]
pub enum Answer {
    /// Moves at most so many octets.
    Octets(usize),
    /// Fails, and moves none.
    Fail,
    /// Ends the input for one read. A write takes nothing.
    End,
}

/// A stream that gives stored octets, keeps what is written, and follows a list of answers, one a call.
///
/// When the answers are used up, a read gives all that is left and fits, and a write takes everything. A write that
/// finds no memory fails.
#[derive(Drop)]
pub struct Script {
    input: Vec<u8>,
    /// how many octets of the input were given
    given: usize,
    answers: Vec<Answer>,
    /// how many answers were used
    used: usize,
    taken: Vec<u8>,
    /// changes in each call that fails
    failures: u64,
    /// changes in each read that meets the end of the input
    ends: u64,
}

impl Model for Script {
    ghost use Rattle.amqp_io.specs.Tape.{Tape};

    ghost Value = { Tape };

    ghost use Rattle.amqp_io.specs.ScriptFields.{tape_of, ScriptIsSound};

    ghost view = { tape_of };

    ghost invariant = { ScriptIsSound };
}

impl Script {
    /// A script that will give these octets, by these answers.
    pub fn new(octets: Vec<u8>, answers: Vec<Answer>) -> Script
        ensures to_give { result.to_give ≡ octets.items }
        ensures answers { result.answers ≡ answers.items }
        ensures taken { result.taken ≡ [] }
    {
        let taken = Vec::new(*octets.allocator());
        Script {
            input: octets,
            given: 0,
            answers,
            used: 0,
            taken,
            failures: 0,
            ends: 0,
        }
    }

    /// The octets that writes took so far.
    pub fn written(&self) -> &[u8]
        ensures { result.now ≡ self.now.taken }
    {
        &self.taken
    }

    /// The octets that reads will give.
    pub fn unread(&self) -> &[u8]
        ensures { result.now ≡ self.now.to_give }
    {
        &self.input[self.given..]
    }

    /// Gives the next octets of the input, as many as the part has.
    fn give(&mut self, part: &mut [u8])
        requires { length part.old ≤ length self.old.to_give }
        ensures given { part.new ≡ take (length part.old) self.old.to_give }
        ensures rest { self.new ≡ record self.old { to_give = drop (length part.old) self.old.to_give } }
    {
        let end = self.given + part.len();
        part.copy_from_slice(&self.input[self.given..end]);
        self.given = end;
    }

    /// Uses an answer, and says how many octets the call moves where it could move `most`.
    fn next_move(&mut self, most: usize) -> Option<usize>
        ensures moved { result ≡ moved self.old.answers most }
        ensures used { self.new ≡ record self.old { answers = drop 1 self.old.answers } }
    {
        if self.used == self.answers.len() {
            return Some(most);
        }
        let answer = self.answers[self.used];
        self.used += 1;
        match answer {
            Answer::Octets(limit) => Some(limit.min(most)),
            Answer::End => Some(0),
            Answer::Fail => None,
        }
    }
}

impl Stream for Script {
    ghost to_give = { λ s. Some s.to_give };

    ghost taken = { λ s. Some s.taken };

    ghost failures = { λ s. s.failures };

    ghost ends = { λ s. s.ends };

    fn read(&mut self, buffer: &mut [u8]) -> Result<usize, StreamFailed>
        ensures within { IfOk result (λ n. n ≤ length buffer.new) }
        ensures given { IfOk result (λ n. self.old.to_give ≡ take n buffer.new ++ self.new.to_give) }
        ensures kept { OnErr result (self.new.to_give ≡ self.old.to_give) }
        ensures taken { self.new.taken ≡ self.old.taken }
        ensures failure { Marks (IsErr result) self.old.failures self.new.failures }
        ensures end { Marks (MeetsEnd result buffer.new) self.old.ends self.new.ends }
        // And it follows the next answer.
        ensures answer { result ≡ answer_of
            (moved self.old.answers (min (length buffer.old) (length self.old.to_give))) }
        ensures used { self.new.answers ≡ drop 1 self.old.answers }
    {
        let most = buffer.len().min(self.unread().len());
        let Some(count) = self.next_move(most) else {
            self.failures = changed(self.failures);
            return Err(StreamFailed);
        };
        self.give(&mut buffer[..count]);
        if count == 0 && !buffer.is_empty() {
            self.ends = changed(self.ends);
        }
        Ok(count)
    }

    fn write(&mut self, octets: &[u8]) -> Result<usize, StreamFailed>
        ensures within { IfOk result (λ n. n ≤ length octets.now) }
        ensures appended { IfOk result (λ n. self.new.taken ≡ self.old.taken ++ take n octets.now) }
        ensures kept { OnErr result (self.new.taken ≡ self.old.taken) }
        ensures to_give { self.new.to_give ≡ self.old.to_give }
        ensures failure { Marks (WriteFails result octets.now) self.old.failures self.new.failures }
        ensures no_end { self.new.ends ≡ self.old.ends }
        // And it follows the next answer, where there is memory.
        ensures answer { IfOk result (λ n. moved self.old.answers (length octets.now) ≡ Some n) }
        ensures used { self.new.answers ≡ drop 1 self.old.answers }
    {
        let Some(count) = self.next_move(octets.len()) else {
            self.failures = changed(self.failures);
            return Err(StreamFailed);
        };
        let Ok(()) = self.taken.extend_from_slice(&octets[..count]) else {
            self.failures = changed(self.failures);
            return Err(StreamFailed);
        };
        if count == 0 && !octets.is_empty() {
            self.failures = changed(self.failures);
        }
        Ok(count)
    }
}
