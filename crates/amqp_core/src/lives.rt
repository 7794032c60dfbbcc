//! The lives of channels, counted by what is noted of each.
//!
//! A life begins with the open that a client puts, or that a server takes while it doesn't wait for close-ok.
ghost use Rattle.std.specs.Prelude.{◌≡◌, ◌<◌, ◌≤◌, ◌+◌, ◌^◌, ℕ, suc, OnOk, OnErr};
ghost use Rattle.std.specs.HashMap.{spare};
ghost use Rattle.amqp_channel.specs.Roles.{role_of};
ghost use Rattle.amqp_core.specs.Traced.LifeCounts.{after_word, count_with, no_lives};
ghost use Rattle.amqp_core.specs.Traced.Notes.{note_view};

use crate::faults::OutOfMemory;
use crate::notes::{Direction, Note, Word};
use amqp_channel::Side;
use std::alloc::Global;
use std::collections::HashMap;

/// What is counted of a channel.
#[derive(Clone, Copy)]
pub(crate) struct Count {
    /// how many lives began
    lives: u64,
    /// this end put close, and has taken no close-ok since
    waits: bool,
}

/// What is counted of each channel of which something is noted.
#[derive(Drop)]
pub(crate) struct Lives {
    counts: HashMap<u16, Count>,
}

impl Count {
    ghost use Rattle.amqp_core.specs.Traced.CountView.{count_view};

    fn new() -> Count
        ensures { count_view result ≡ no_lives }
    {
        Count {
            lives: 0,
            waits: false,
        }
    }

    /// One more note is counted.
    fn after(self, side: Side, note: Note) -> Count
        requires { self.lives + 1 < 2 ^ 64 }
        ensures { count_view result ≡ after_word (role_of side) (note_view note).direction (note_view note).word
            (count_view self) }
    {
        let mut after = self;
        match (note.direction, note.word, side) {
            (Direction::Put, Word::Open, Side::Client) => after.lives += 1,
            (Direction::Took, Word::Open, Side::Server) => {
                if !self.waits {
                    after.lives += 1;
                }
            }
            (Direction::Put, Word::Close, _) => after.waits = true,
            (Direction::Took, Word::CloseOk, _) => after.waits = false,
            _ => {}
        }
        after
    }
}

impl Lives {
    ghost use Rattle.amqp_core.specs.Traced.CountView.{count_view, lives_view};

    pub(crate) fn new(alloc: Global) -> Lives
        ensures { (channel : ℕ) → lives_view result channel ≡ no_lives }
    {
        Lives {
            counts: HashMap::new(alloc),
        }
    }

    /// Makes room for this many more channels.
    pub(crate) fn reserve(&mut self, channels: usize) -> Result<(), OutOfMemory>
        ensures ok { OnOk result (channels ≤ spare self.new.counts) }
        ensures same { (channel : ℕ) → lives_view self.new channel ≡ lives_view self.old channel }
    {
        self.counts.reserve(channels)?;
        Ok(())
    }

    fn count(&self, channel: u16) -> Count
        ensures { count_view result ≡ lives_view self.now channel }
    {
        match self.counts.get(&channel) {
            Some(count) => *count,
            None => Count::new(),
        }
    }

    /// How many lives of a channel began.
    pub(crate) fn of(&self, channel: u16) -> u64
        ensures { result ≡ (lives_view self.now channel).lives }
    {
        self.count(channel).lives
    }

    /// A note is counted.
    pub(crate) fn note(&mut self, side: Side, note: Note)
        requires room { 0 < spare self.old.counts }
        requires least { (lives_view self.old note.channel).lives + 1 < 2 ^ 64 }
        ensures counts { (channel : ℕ) → lives_view self.new channel ≡ count_with (role_of side) channel
            (note_view note) (lives_view self.old channel) }
        ensures spare { spare self.old.counts ≤ spare self.new.counts + 1 }
    {
        let count = self.count(note.channel).after(side, note);
        let Ok(_) = self.counts.insert(note.channel, count) else {
            unreachable!()
        };
    }
}
