//! The frames that wait, in queues: each frame in octets of its own, each channel's frames in a queue.
//!
//! A frame that is put is added to its queue, and moves no other. Which frame leaves next is found when it leaves:
//! the first of the queue whose turn it is. The queues of the channels stand in the order of their numbers, so that
//! the turn goes along them, and one is found by halving. The first frame of a channel makes its queue, which moves
//! the queues of greater channels, and none of their frames. A queue stays where no frame of it is left, and the turn
//! passes it.
ghost use Rattle.std.specs.Prelude.{◌≡◌, ℕ, ◌+◌, ◌^◌, ◌<◌, ◌≤◌, true, List, [], ◌∷◌, ◌++◌, length, take, drop, All, IfErr, OnOk, IfOk, IfSome, MatchOption};
ghost use Rattle.std.specs.VecDeque.{deque_len, deque_capacity};
ghost use Rattle.amqp_frame.specs.Splitting.{stream};
ghost use Rattle.amqp_model.specs.Output.Arrangement.{last_after, on, placed};
ghost use Rattle.amqp_outbox.specs.OutboxFaults.{out_of_memory};
ghost use Rattle.amqp_outbox.specs.PiecesQueues.{frame_of, frames_of, IsChunk, IsQueue, Ascends, AreSound, on_channels, row_of_queues, HaveRoom, HasQueue, QueuesStay, QueueTakes, QueueGives, IsUpTo, IsAfter, IsEmpty, AllEmpty, IsFirstWaiting, IsTurnOf, IsQueueOf, HasRoomOn, RoomsKept, RoomsMade};
ghost use Rattle.amqp_outbox.specs.declared.queues.Chunk.{Chunk};
ghost use Rattle.amqp_outbox.specs.declared.queues.Queue.{Queue};

use crate::slots::Slot;
use crate::staging::StageFault;
use amqp_model::arrangement;
use std::alloc::Global;
use std::collections::VecDeque;

/// A frame that waits.
#[derive(Drop)]
pub(crate) struct Chunk {
    pub(crate) slot: Slot,
    pub(crate) octets: Vec<u8>,
}

/// The frames of a channel above 0 that wait, the oldest first.
#[derive(Drop)]
pub(crate) struct Queue {
    pub(crate) channel: u16,
    pub(crate) frames: VecDeque<Chunk>,
}

/// All frames that wait: the plain ones of channel 0, those of the other channels, and those that leave the
/// connection.
#[derive(Drop)]
pub(crate) struct Queues {
    pub(crate) plain: VecDeque<Chunk>,
    pub(crate) channels: Vec<Queue>,
    pub(crate) leaving: VecDeque<Chunk>,
}

impl Queues {
    /// No frame waits.
    pub(crate) fn new(alloc: Global) -> Queues
        ensures sound { AreSound result }
        ensures row { (last : ℕ) → row_of_queues last result ≡ [] }
        ensures room { HaveRoom result [] }
    {
        Queues {
            plain: VecDeque::new(alloc),
            channels: Vec::new(alloc),
            leaving: VecDeque::new(alloc),
        }
    }

    /// Makes room in the queue of a frame, for so many.
    pub(crate) fn make_room(
        &mut self,
        alloc: Global,
        slot: Slot,
        more: usize,
    ) -> Result<(), StageFault>
        requires sound { AreSound self.old }
        requires zero { slot.leaving ≡ true → slot.channel ≡ 0 }
        ensures sound { AreSound self.new }
        ensures row { (last : ℕ) → row_of_queues last self.new ≡ row_of_queues last self.old }
        ensures kept { (staged : List Chunk) → HaveRoom self.old staged → HaveRoom self.new staged }
        ensures made { OnOk result ((staged : List Chunk) (chunk : Chunk) → chunk.slot ≡ slot → length staged < more
            → HaveRoom self.old staged → HaveRoom self.new (staged ++ chunk ∷ [])) }
        ensures err { IfErr result (λ e. e ≡ out_of_memory) }
    {
        if slot.leaving {
            self.leaving.reserve(more)?;
            return Ok(());
        }
        if slot.channel == 0 {
            self.plain.reserve(more)?;
            return Ok(());
        }
        make_room_on(&mut self.channels, alloc, slot.channel, more)
    }

    /// Adds a frame to its queue.
    pub(crate) fn push(&mut self, chunk: Chunk)
        requires sound { AreSound self.old }
        requires whole { IsChunk chunk }
        requires room { (staged : List Chunk) × HaveRoom self.old (chunk ∷ staged) }
        ensures sound { AreSound self.new }
        ensures row { (last : ℕ) → last < 2 ^ 16
            → row_of_queues last self.new ≡ placed last (frame_of chunk) (row_of_queues last self.old) }
        ensures room { (staged : List Chunk) → HaveRoom self.old (chunk ∷ staged) → HaveRoom self.new staged }
    {
        arrangement::one_row();
        arrangement::put_keeps_arranged();
        if chunk.slot.leaving {
            self.leaving.push_back_reserved(chunk);
            return;
        }
        if chunk.slot.channel == 0 {
            self.plain.push_back_reserved(chunk);
            return;
        }
        push_on(&mut self.channels, chunk);
    }

    /// How many octets wait of a channel.
    pub(crate) fn waiting(&self, channel: u16) -> usize
        requires sound { AreSound self.now }
        requires fits { (last : ℕ) × (length (stream (row_of_queues last self.now)) < 2 ^ 64) }
        ensures { (last : ℕ) → result ≡ length (stream (on channel (row_of_queues last self.now))) }
    {
        if channel == 0 {
            return length_of(&self.plain) + length_of(&self.leaving);
        }
        length_on(&self.channels, channel)
    }

    /// Takes the frame that leaves next, where `last` is LAST.
    pub(crate) fn pop(&mut self, last: u16) -> Option<Chunk>
        requires sound { AreSound self.old }
        ensures sound { AreSound self.new }
        ensures whole { IfSome result (λ chunk. IsChunk chunk) }
        ensures row { MatchOption result ((row_of_queues last self.old ≡ []) × (row_of_queues last self.new ≡ []))
            (λ chunk. row_of_queues last self.old
            ≡ frame_of chunk ∷ row_of_queues (last_after last (frame_of chunk)) self.new) }
        ensures room { (staged : List Chunk) → HaveRoom self.old staged → HaveRoom self.new staged }
    {
        arrangement::one_row();
        arrangement::steps_are_counted();
        if let Some(chunk) = self.plain.pop_front() {
            return Some(chunk);
        }
        if let Some(at) = next_of(&self.channels, last) {
            return pop_at(&mut self.channels, at);
        }
        self.leaving.pop_front()
    }
}

/// How many octets the frames of a queue have together.
fn length_of(frames: &VecDeque<Chunk>) -> usize
    requires chunks { All IsChunk frames.now.items }
    requires fits { length (stream (frames_of frames.now.items)) < 2 ^ 64 }
    ensures { result ≡ length (stream (frames_of frames.now.items)) }
{
    let mut total = 0;
    for at in 0..frames.len() {
        if let Some(chunk) = frames.get(at) {
            total += chunk.octets.len();
        }
    }
    total
}

/// How many octets the frames of a channel above 0 have together.
fn length_on(queues: &[Queue], channel: u16) -> usize
    requires queues { All IsQueue queues.now }
    requires fits { length (stream (on_channels queues.now)) < 2 ^ 64 }
    ensures { result ≡ length (stream (on channel (on_channels queues.now))) }
{
    let mut total = 0;
    for queue in queues {
        if queue.channel == channel {
            total += length_of(&queue.frames);
        }
    }
    total
}

/// Takes the oldest frame of a queue.
fn pop_at(queues: &mut Vec<Queue>, at: usize) -> Option<Chunk>
    requires { at < length queues.old.items }
    ensures { QueueGives at result queues.old.items queues.new.items }
{
    let queue = &mut queues[at];
    queue.frames.pop_front()
}

/// Makes room in the queue of a channel, for so many frames.
fn make_room_on(
    queues: &mut Vec<Queue>,
    alloc: Global,
    channel: u16,
    more: usize,
) -> Result<(), StageFault>
    requires above { 0 < channel }
    requires ascends { Ascends queues.old.items }
    ensures stay { QueuesStay queues.old.items queues.new.items }
    ensures kept { RoomsKept queues.old.items queues.new.items }
    ensures made { OnOk result (RoomsMade channel more queues.old.items queues.new.items) }
    ensures err { IfErr result (λ e. e ≡ out_of_memory) }
{
    let at = queue_of(queues, alloc, channel)?;
    let queue = &mut queues[at];
    queue.frames.reserve(more)?;
    Ok(())
}

/// The place of a channel's queue, which is made where there is none.
fn queue_of(queues: &mut Vec<Queue>, alloc: Global, channel: u16) -> Result<usize, StageFault>
    requires above { 0 < channel }
    requires ascends { Ascends queues.old.items }
    ensures stay { QueuesStay queues.old.items queues.new.items }
    ensures kept { RoomsKept queues.old.items queues.new.items }
    ensures found { IfOk result (λ at. IsQueueOf channel at queues.new.items) }
    ensures err { IfErr result (λ e. e ≡ out_of_memory) }
{
    let end = count_up_to(queues, channel);
    if end > 0 && queues[end - 1].channel == channel {
        return Ok(end - 1);
    }
    let queue = Queue {
        channel,
        frames: VecDeque::new(alloc),
    };
    let Ok(()) = queues.insert(end, queue) else {
        return Err(StageFault::OutOfMemory);
    };
    Ok(end)
}

/// Adds a frame to the queue of its channel.
fn push_on(queues: &mut Vec<Queue>, chunk: Chunk)
    requires above { 0 < chunk.slot.channel }
    requires ascends { Ascends queues.old.items }
    requires there { HasQueue chunk.slot.channel queues.old.items }
    requires room { HasRoomOn chunk.slot.channel queues.old.items }
    ensures { QueueTakes chunk queues.old.items queues.new.items }
{
    let end = count_up_to(queues, chunk.slot.channel);
    let queue = &mut queues[end - 1];
    queue.frames.push_back_reserved(chunk);
}

/// The queue whose turn is next, where `last` is LAST: of those of which a frame waits.
fn next_of(queues: &[Queue], last: u16) -> Option<usize>
    requires { Ascends queues.now }
    ensures { MatchOption result (All IsEmpty queues.now) (λ at. IsTurnOf last at queues.now) }
{
    let later = count_up_to(queues, last);
    if let Some(at) = first_waiting(queues, later, queues.len()) {
        return Some(at);
    }
    first_waiting(queues, 0, later)
}

/// The first of some queues of which a frame waits.
fn first_waiting(queues: &[Queue], from: usize, end: usize) -> Option<usize>
    requires order { from ≤ end }
    requires within { end ≤ length queues.now }
    ensures { MatchOption result (AllEmpty from end queues.now) (λ at. IsFirstWaiting from end at queues.now) }
{
    for at in from..end {
        if !queues[at].frames.is_empty() {
            return Some(at);
        }
    }
    None
}

/// How many queues are of a channel up to this one.
pub(crate) fn count_up_to(queues: &[Queue], channel: u16) -> usize
    requires { Ascends queues.now }
    ensures within { result ≤ length queues.now }
    ensures up_to { All (IsUpTo channel) (take result queues.now) }
    ensures after { All (IsAfter channel) (drop result queues.now) }
{
    let mut low = 0;
    let mut high = queues.len();
    while low < high {
        let middle = low + (high - low) / 2;
        if queues[middle].channel <= channel {
            low = middle + 1;
        } else {
            high = middle;
        }
    }
    low
}
