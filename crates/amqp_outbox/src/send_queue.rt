//! What ends have put, kept frame by frame: a put moves nothing that waits.
//!
//! An [`Outbox`](crate::Outbox) lends all that waits as one slice, so a frame that goes before others moves octets.
//! An end that is to send beside much that waits hands its output over instead, after each call that puts. Here each
//! frame has octets of its own, and each channel's frames stand in a queue. So a put takes as long however much
//! waits, and what waits is lent frame by frame, in the same fair order, for a write that takes several slices.
ghost use Rattle.std.specs.Prelude.{◌≡◌, ℕ, ◌+◌, ◌^◌, ◌<◌, ◌≤◌, [], ◌∷◌, ◌++◌, length, IfErr, IfOk, OnOk, OnErr};
ghost use Rattle.amqp_frame.specs.Frame.{Frame, octets as encoded};
ghost use Rattle.amqp_model.specs.Output.Arrangement.{HasChannel};
ghost use Rattle.amqp_model.specs.Output.ArrangementRules.{FollowsRules};
ghost use Rattle.amqp_model.specs.Output.Outputs.{output_octets, after_writing, waiting_on};
ghost use Rattle.amqp_outbox.specs.OutboxFaults.{out_of_memory};
ghost use Rattle.amqp_outbox.specs.OutboxSlots.{slot_of};
ghost use Rattle.amqp_outbox.specs.OutboxView.{only, begins_with, with_staged, with_output, all_put, IsPutOfFirst};
ghost use Rattle.amqp_outbox.specs.PiecesWrites.{GoesOn, BeginsNext};

use crate::lending::Pieces;
use crate::queues::{Chunk, Queues};
use crate::slots::Slot;
use crate::staging::StageFault;
use amqp_model::arrangement;
use std::alloc::Global;
use std::collections::VecDeque;
use std::marker::Model;

/// Where at most so many octets waited, a queue keeps its room once none wait.
const KEPT: usize = 65_536;

/// The frames that were handed over and are not written, and those that are about to be added.
#[derive(Drop)]
pub struct SendQueue {
    alloc: Global,
    /// the frame that is begun, and how many of its octets are written
    ahead: Vec<u8>,
    written: usize,
    queues: Queues,
    staged: VecDeque<Chunk>,
    /// the channel whose frame was begun most recently, channel 0 too, 0 at first
    begun_on: u16,
    /// the channel above 0 whose frame was begun most recently, 0 at first
    last: u16,
    /// how many octets wait, and how many are staged
    waiting: usize,
    coming: usize,
    /// how many octets waited at most since room was given back
    most: usize,
}

impl Model for SendQueue {
    ghost use Rattle.amqp_outbox.specs.OutboxView.{Outgoing};

    ghost Value = { Outgoing };

    ghost use Rattle.amqp_outbox.specs.PiecesFields.{outgoing_in, IsWhole};

    ghost view = { outgoing_in };

    ghost invariant = { IsWhole };
}

impl SendQueue {
    /// Nothing to write.
    pub fn new(alloc: Global) -> SendQueue
        ensures { result ≡ begins_with [] }
    {
        SendQueue {
            alloc,
            ahead: Vec::new(alloc),
            written: 0,
            queues: Queues::new(alloc),
            staged: VecDeque::new(alloc),
            begun_on: 0,
            last: 0,
            waiting: 0,
            coming: 0,
            most: 0,
        }
    }

    /// The octets to write next, in pieces.
    pub fn pieces(&self) -> Pieces<'_>
        ensures octets { result ≡ output_octets self.now.output }
        // The frames that are not begun stand in it by the rules.
        ensures rules { FollowsRules self.now.output.last self.now.output.row }
    {
        arrangement::rows_follow_rules();
        arrangement::one_row();
        Pieces::new(&self.ahead[self.written..], &self.queues, self.last)
    }

    /// How many octets wait, those of a frame that is begun among them.
    pub fn waiting_in_all(&self) -> usize
        ensures { result ≡ length (output_octets self.now.output) }
    {
        self.waiting
    }

    /// How many octets wait of a channel: what is left of the frame that is begun, where it is the channel's, and its
    /// other frames. Of the frames of other channels none is looked at. The protocol header counts to channel 0.
    pub fn waiting(&self, channel: u16) -> usize
        ensures { result ≡ waiting_on channel self.now.output }
    {
        let waiting = self.queues.waiting(channel);
        if self.begun_on == channel {
            return self.ahead.len() - self.written + waiting;
        }
        waiting
    }

    /// So many octets of the output are written. Where none are left of more than 64 KiB, room is given back.
    pub fn wrote(&mut self, octets: usize)
        requires { octets ≤ length (output_octets self.old.output) }
        ensures { self.new ≡ with_output self.old (after_writing octets self.old.output) }
    {
        self.count_written(octets);
        self.give_back();
    }

    /// So many octets of the output are written: begins the frames of which an octet is.
    fn count_written(&mut self, octets: usize)
        requires { octets ≤ length (output_octets self.old.output) }
        ensures { self.new ≡ with_output self.old (after_writing octets self.old.output) }
    {
        let mut left = self.go_on(octets);
        while left > 0 {
            left = self.begin(left);
        }
    }

    /// So many octets are written, of the frame that is begun and then of others: gives how many of others.
    fn go_on(&mut self, octets: usize) -> usize
        ensures { GoesOn octets result self.old self.new }
    {
        let ahead = self.ahead.len() - self.written;
        if octets < ahead {
            self.written += octets;
            self.waiting -= octets;
            return 0;
        }
        self.written = self.ahead.len();
        self.waiting -= ahead;
        octets - ahead
    }

    /// Begins the next frame, of which so many octets are written, or all where it has fewer: gives how many of
    /// others.
    fn begin(&mut self, octets: usize) -> usize
        requires some { 0 < octets }
        requires none_begun { self.old.output.ahead ≡ [] }
        ensures { BeginsNext octets result self.old self.new }
    {
        let Some(chunk) = self.queues.pop(self.last) else {
            return 0;
        };
        self.begun_on = chunk.slot.channel;
        self.last = chunk.slot.last_after(self.last);
        self.ahead = chunk.octets;
        if octets < self.ahead.len() {
            self.written = octets;
            self.waiting -= octets;
            return 0;
        }
        self.written = self.ahead.len();
        self.waiting -= self.written;
        octets - self.written
    }

    /// Gives back the room of the queues, where nothing is left of much. The queues of the channels go with it, so
    /// that no turn passes those of which nothing waits.
    fn give_back(&mut self)
        ensures { self.new ≡ self.old }
    {
        if self.waiting > 0 || !self.staged.is_empty() || self.most <= KEPT {
            return;
        }
        self.ahead = Vec::new(self.alloc);
        self.written = 0;
        self.queues = Queues::new(self.alloc);
        self.staged = VecDeque::new(self.alloc);
        self.most = 0;
    }

    /// Stages a frame: a copy of its octets.
    pub(crate) fn stage(&mut self, slot: Slot, frame: &[u8]) -> Result<(), StageFault>
        requires { (f : Frame) × (slot ≡ slot_of f) × (frame.now ≡ encoded f) × HasChannel f }
        ensures ok { (f : Frame) → slot ≡ slot_of f → frame.now ≡ encoded f
            → OnOk result (self.new ≡ with_staged self.old (f ∷ [])) }
        ensures err { IfErr result (λ e. e ≡ out_of_memory) }
        ensures same { OnErr result (self.new ≡ self.old) }
    {
        let coming = coming_with(self.waiting, self.coming, frame.len())?;
        let more = self.staged.len() + 1;
        let octets = Vec::from_slice(self.alloc, frame)?;
        self.queues.make_room(self.alloc, slot, more)?;
        let chunk = Chunk { slot, octets };
        let Ok(()) = self.staged.push_back(chunk) else {
            return Err(StageFault::OutOfMemory);
        };
        self.coming = coming;
        Ok(())
    }

    /// Drops what is staged.
    pub(crate) fn discard(&mut self)
        ensures { self.new ≡ only self.old.output }
    {
        self.staged.clear();
        self.coming = 0;
    }

    /// How many frames are staged.
    fn staged(&self) -> usize
        ensures { result ≡ length self.now.staged }
    {
        self.staged.len()
    }

    /// Puts the first of the frames that are staged.
    fn put_first(&mut self)
        requires { 0 < length self.old.staged }
        ensures { IsPutOfFirst self.old self.new }
    {
        let Some(chunk) = self.staged.pop_front() else {
            return;
        };
        self.coming -= chunk.octets.len();
        self.waiting += chunk.octets.len();
        self.most = self.most.max(self.waiting);
        self.queues.push(chunk);
    }

    /// Puts all that is staged, each frame in its queue.
    pub(crate) fn put(&mut self)
        ensures { self.new ≡ all_put self.old }
    {
        for _ in 0..self.staged() {
            self.put_first();
        }
    }
}

/// How many octets are staged with so many more, where others wait: an output of 2 ^ 64 octets is refused.
fn coming_with(waiting: usize, coming: usize, more: usize) -> Result<usize, StageFault>
    ensures sum { IfOk result (λ sum. (sum ≡ coming + more) × (waiting + sum < 2 ^ 64)) }
    ensures err { IfErr result (λ e. e ≡ out_of_memory) }
{
    let Some(sum) = coming.checked_add(more) else {
        return Err(StageFault::OutOfMemory);
    };
    if waiting.checked_add(sum).is_none() {
        return Err(StageFault::OutOfMemory);
    }
    Ok(sum)
}
