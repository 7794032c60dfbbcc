//! The output of an end: the octets that it has put and not written, in the fair order of their frames.
//!
//! Frames are put in two steps. Staging encodes a frame after all others and is what may want memory; [`Outbox::put`]
//! then moves each staged frame to its place and can't fail. An end stages all that a call puts, changes its own state,
//! and puts; where staging fails it discards what it staged, and the output is as before.
//!
//! A frame's place is found by laps. The writer goes round the channels again and again, and each time is a lap: the
//! frames of the row stand in the order of their laps, and within a lap in that of their channels. Where the last frame
//! of the row is of the same channel, the new one stands after it, and nothing else is looked at. Otherwise the row is
//! halved again and again, twice at most, whatever waits of the channel: to find its newest frame, in the lap that is
//! remembered of it (`newest.rt`) or, with none, in the one in which the channel is met next, and to find the place, in
//! the lap after that. Once is enough where no frame of the channel waits; where there was no memory to remember a lap,
//! it is once more for each of the channel's later frames.
//!
//! `output` lends one slice, so a frame that goes before others has to move octets. Where one channel is active each
//! frame goes last: it is encoded where it stays, and nothing moves. Where the first frame that is staged goes before
//! others that wait, it and those after it are encoded aside, out of the way of what makes room for them. Their places
//! are found first. Then one side of them makes room in one pass, the one on which fewer octets move: what waits before
//! the last place, where as many octets were written before it, or what waits after the first. What moves there moves
//! once, and what stands aside is copied once, to where it stays: the frames of the first channel that are staged. The
//! few that come after them, of other channels, then make room each for itself; so does each frame where there is no
//! memory for the places, and a frame of channel 0 that goes before others. So the worst is a row of many octets of
//! which none is written, and frames that go near its beginning: a put moves nearly all of the row. A write reads the
//! slots of the frames that it begins, and moves nothing: what it wrote is dropped later, before a frame is staged.
ghost use Rattle.std.specs.Prelude.{◌≡◌, List, ◌+◌, ◌^◌, ◌<◌, ◌≤◌, ◌==◌, [], ◌∷◌, ◌≢◌, length, take, drop, vec_capacity, IfErr, IfSome, OnOk, OnErr, Err};
ghost use Rattle.amqp_frame.specs.Frame.{Frame};
ghost use Rattle.amqp_frame.specs.Splitting.{stream};
ghost use Rattle.amqp_method.specs.HeaderView.{properties_view};
ghost use Rattle.amqp_method.specs.MethodView.{method_view};
ghost use Rattle.amqp_method.specs.Plain.{plain_method, plain_header, CountsAllFit, CountsPresentFit};
ghost use Rattle.amqp_method.specs.Properties.{header};
ghost use Rattle.amqp_model.specs.Output.ArrangementRules.{FollowsRules};
ghost use Rattle.amqp_model.specs.End.Closes.{method_frame};
ghost use Rattle.amqp_model.specs.End.Controls.{heartbeat_frame};
ghost use Rattle.amqp_model.specs.Wire.Methods.{ReadsBack};
ghost use Rattle.amqp_model.specs.Output.Outputs.{output_octets, waiting_on, after_puts, after_writing};
ghost use Rattle.amqp_outbox.specs.LentContent.{AllOn, all_written};
ghost use Rattle.amqp_outbox.specs.OutboxFaults.{begun, out_of_memory, too_long};
ghost use Rattle.amqp_outbox.specs.OutboxFrames.{header_frame, body_frame, HeaderReadsBack};
ghost use Rattle.amqp_outbox.specs.StagesChunks.{StagesChunks};
ghost use Rattle.amqp_outbox.specs.OutboxView.{only, begins_with, with_staged, with_output, all_put, IsPutOfFirst};

use crate::chunks::Chunks;
use crate::handing::{HandOverFault, stage_row};
use crate::moves::{forget, move_down, move_up, put_slot};
use crate::newest::{Newest, Writer};
use crate::parts::{append_parts, count_parts};
use crate::room::Room;
use crate::send_queue::SendQueue;
use crate::slots::{Slot, Waiting, begun_of, length_from, length_on, place_of};
use crate::staging::{
    StageFault, append_body, append_header, append_heartbeat, append_method, enlist,
};
use crate::weaving::{Ends, find_places, join, length_of, weave, weave_slots};
use amqp_frame::FrameKind;
use amqp_method::{Method, Properties};
use amqp_model::arrangement;
use std::alloc::Global;
use std::marker::Model;

/// How many octets most frames of a method or of a header have at most.
const USUAL_FRAME: usize = 512;

/// After so many writes in a row that use little of much room it gives the room back, even where it isn't large.
const SPARED: u8 = 16;

/// What an end has put and not written, and the frames that it is about to put.
///
/// The octets stand one after another: those written; those left of what no put moves, which is the frame that is
/// begun, or the protocol header; the frames of the row, in the order in which they are to leave; and the frames that
/// are staged. From the first one on that goes before others that wait, these are staged aside instead, so that they
/// don't stand in the way of what makes room for them; there is room for them after the octets. The slots are those of
/// the frames begun, of the row, and of the frames staged.
#[derive(Drop)]
pub struct Outbox {
    alloc: Global,
    octets: Vec<u8>,
    /// the frames that are staged after all others
    aside: Vec<u8>,
    /// how many octets more are announced of them
    announced: usize,
    written: usize,
    begun: usize,
    arranged: usize,
    slots: Vec<Waiting>,
    slots_begun: usize,
    slots_arranged: usize,
    /// in which laps the newest frames of channels wait
    newest: Newest,
    /// the lap in which the frame was begun that moved `last`
    lap: u64,
    /// the channel whose frame was begun most recently, channel 0 too, 0 at first
    begun_on: u16,
    /// the channel above 0 whose frame was begun most recently, 0 at first
    last: u16,
    /// how many writes in a row used little of much room
    spared: u8,
}

impl Model for Outbox {
    ghost use Rattle.amqp_outbox.specs.OutboxView.{Outgoing};

    ghost Value = { Outgoing };

    ghost use Rattle.amqp_outbox.specs.OutboxFields.{outgoing_of, OutboxIsSound};

    ghost view = { outgoing_of };

    ghost invariant = { OutboxIsSound };
}

impl Outbox {
    /// Nothing to write.
    pub fn new(alloc: Global) -> Outbox
        ensures { result ≡ begins_with [] }
    {
        Outbox {
            alloc,
            octets: Vec::new(alloc),
            aside: Vec::new(alloc),
            announced: 0,
            written: 0,
            begun: 0,
            arranged: 0,
            slots: Vec::new(alloc),
            slots_begun: 0,
            slots_arranged: 0,
            newest: Newest::new(),
            lap: 0,
            begun_on: 0,
            last: 0,
            spared: 0,
        }
    }

    /// The octets to write next.
    pub fn output(&self) -> &[u8]
        ensures octets { result.now ≡ output_octets self.now.output }
        // The frames that are not begun stand in it by the rules.
        ensures rules { FollowsRules self.now.output.last self.now.output.row }
    {
        arrangement::rows_follow_rules();
        // The rules speak of a channel's number: that it is one is known of a field that is read.
        let _last = self.last;
        &self.octets[self.written..self.arranged]
    }

    /// How many octets wait of a channel: what is left of the frame that is begun, where it is the channel's, and its
    /// other frames. The slots of all frames are looked at. The protocol header counts to channel 0.
    pub fn waiting(&self, channel: u16) -> usize
        ensures { result ≡ waiting_on channel self.now.output }
    {
        let row = &self.slots[self.slots_begun..self.slots_arranged];
        let waiting = length_on(row, channel);
        if self.begun_on == channel {
            return self.begun - self.written + waiting;
        }
        waiting
    }

    /// How many octets wait.
    pub fn waiting_in_all(&self) -> usize
        ensures { result ≡ length (output_octets self.now.output) }
    {
        self.arranged - self.written
    }

    /// Begins with these octets: what was there is dropped.
    pub fn begin_with(&mut self, octets: &[u8]) -> Result<(), StageFault>
        ensures ok { OnOk result (self.new ≡ begins_with octets.now) }
        ensures err { IfErr result (λ e. e ≡ out_of_memory) }
        ensures same { OnErr result (self.new ≡ self.old) }
    {
        let before = self.octets.len();
        self.octets.extend_from_slice(octets)?;
        forget(&mut self.octets, before);
        self.aside.clear();
        self.slots.clear();
        self.written = 0;
        self.begun = octets.len();
        self.arranged = octets.len();
        self.slots_begun = 0;
        self.slots_arranged = 0;
        self.begun_on = 0;
        self.lap = 0;
        self.last = 0;
        self.newest.forget();
        Ok(())
    }

    /// So many octets of the output are written.
    ///
    /// Room of more than 64 KiB is given back, once less than a sixteenth of it is used: of more than 4 MiB at once,
    /// where a write leaves so little, and of less after 16 writes in a row before which so little stood there. So
    /// contents that follow one another find the room that they had. It is the like with the slots.
    pub fn wrote(&mut self, octets: usize)
        requires { octets ≤ length (output_octets self.old.output) }
        ensures { self.new ≡ with_output self.old (after_writing octets self.old.output) }
    {
        self.count_written(octets);
        self.forget_newest();
        self.give_back();
    }

    /// So many octets of the output are written: counts them, and the frames that are begun.
    fn count_written(&mut self, octets: usize)
        requires { octets ≤ length (output_octets self.old.output) }
        ensures { self.new ≡ with_output self.old (after_writing octets self.old.output) }
    {
        let ahead = self.begun - self.written;
        self.written += octets;
        if ahead <= octets {
            let row = &self.slots[self.slots_begun..self.slots_arranged];
            let begun = begun_of(row, octets - ahead, self.begun_on, self.lap, self.last);
            self.begun += begun.octets;
            self.slots_begun += begun.frames;
            self.begun_on = begun.on;
            self.lap = begun.lap;
            self.last = begun.last;
        }
    }

    /// Forgets the laps of newest frames, where all frames of the row are begun.
    fn forget_newest(&mut self)
        ensures { self.new ≡ self.old }
    {
        if self.slots_begun == self.slots_arranged {
            self.newest.forget();
        }
    }

    /// Whether the octets that are written are dropped now, where so many are to come.
    ///
    /// To drop them moves those after them. So it is done where these are few, or where there is no room after them and they
    /// are fewer than those that are dropped. Hence an octet that is written pays for at most one that is moved.
    fn drops_before(&self, coming: usize) -> bool {
        let left = self.octets.len() - self.written;
        let room = self.octets.capacity().saturating_sub(self.octets.len());
        left < self.written / 4 || (room < coming && left < self.written)
    }

    /// Drops the octets that are written, if it is time to, where so many are to come.
    fn drop_written(&mut self, coming: usize)
        ensures { self.new ≡ self.old }
    {
        if self.drops_before(coming) {
            self.forget_written();
        }
    }

    /// Drops the octets that are written.
    fn forget_written(&mut self)
        ensures { self.new ≡ self.old }
    {
        forget(&mut self.octets, self.written);
        self.begun -= self.written;
        self.arranged -= self.written;
        self.written = 0;
    }

    /// Drops the slots of the frames that are begun, where these are more than the others.
    fn drop_begun(&mut self)
        ensures { self.new ≡ self.old }
    {
        if self.slots.len() - self.slots_begun < self.slots_begun {
            self.forget_begun();
        }
    }

    /// Drops the slots of the frames that are begun.
    fn forget_begun(&mut self)
        ensures { self.new ≡ self.old }
    {
        forget(&mut self.slots, self.slots_begun);
        self.slots_arranged -= self.slots_begun;
        self.slots_begun = 0;
    }

    /// Gives back room that is nearly empty, where it is large or was so for some writes.
    fn give_back(&mut self)
        ensures { self.new ≡ self.old }
    {
        let left = self.octets.len() - self.written;
        let octets = Room::of_octets(self.octets.capacity(), self.octets.len(), left);
        let aside = Room::of_octets(self.aside.capacity(), self.aside.len(), self.aside.len());
        let left = self.slots.len() - self.slots_begun;
        let slots = Room::of_slots(self.slots.capacity(), self.slots.len(), left);
        if !octets.is_spare() && !aside.is_spare() && !slots.is_spare() {
            self.spared = 0;
            return;
        }
        self.spared = self.spared.saturating_add(1);
        if self.spared > SPARED || octets.is_large() || aside.is_large() || slots.is_large() {
            self.spared = 0;
            self.shrink(octets, aside, slots);
        }
    }

    /// Gives back what is spare of its rooms.
    ///
    /// What is left is moved into a smaller room, with as much again beside it. So an eighth of the room is moved at
    /// most, and the next such move comes after as much was written or staged again.
    fn shrink(&mut self, octets: Room, aside: Room, slots: Room)
        ensures { self.new ≡ self.old }
    {
        if octets.is_spare() {
            self.forget_written();
            let held = self.octets.len().saturating_add(self.aside.len());
            self.octets.shrink_to(octets.smaller().max(held));
        }
        if aside.is_spare() {
            self.aside.shrink_to(aside.smaller());
        }
        if slots.is_spare() {
            self.forget_begun();
            self.slots.shrink_to(slots.smaller());
        }
    }

    /// Gives back all room but that of what waits or is staged, which is moved into it. It is for an end that may stay
    /// idle.
    pub fn shrink_to_fit(&mut self)
        ensures { self.new ≡ self.old }
    {
        self.forget_written();
        let held = self.octets.len().saturating_add(self.aside.len());
        self.octets.shrink_to(held);
        self.aside.shrink_to(0);
        self.forget_begun();
        self.slots.shrink_to(0);
    }

    /// Adds all frames that wait to a queue: a copy of each, or none.
    ///
    /// With what was added before, they leave the queue in the fair order, from the frame that was begun there most
    /// recently. What is left of a frame that is begun here, or of the protocol header, can't be added: then the answer
    /// is `Begun`, and it is to be written first.
    pub fn copy_into(&self, queue: &mut SendQueue) -> Result<(), HandOverFault>
        ensures added { OnOk result (queue.new ≡ only (after_puts self.now.output.row queue.old.output)) }
        ensures none_begun { OnOk result (self.now.output.ahead ≡ []) }
        ensures begun { result ≡ Err begun → self.now.output.ahead ≢ [] }
        ensures same { OnErr result (queue.new.output ≡ queue.old.output) }
    {
        if self.written < self.begun {
            return Err(HandOverFault::Begun);
        }
        queue.discard();
        let row = &self.slots[self.slots_begun..self.slots_arranged];
        let octets = &self.octets[self.begun..self.arranged];
        let Ok(()) = stage_row(row, octets, queue) else {
            queue.discard();
            return Err(HandOverFault::OutOfMemory);
        };
        queue.put();
        Ok(())
    }

    /// Frames of a channel above 0 are put, and written at once: at least one frame, where nothing waits. Their octets go
    /// to the stream from elsewhere, as [`ContentFrames`](crate::ContentFrames) lends them.
    pub fn pass(&mut self, channel: u16)
        requires above { 0 < channel }
        requires nothing { output_octets self.old.output ≡ [] }
        ensures written { (f : Frame) (later : List Frame) → AllOn channel (f ∷ later)
            → self.new ≡ with_output self.old (all_written (after_puts (f ∷ later) self.old.output)) }
        // They leave in the order put.
        ensures order { (frames : List Frame) → AllOn channel frames
            → output_octets (after_puts frames self.old.output) ≡ stream frames }
    {
        self.begun_on = channel;
        self.last = channel;
    }

    /// Makes room for so many frames of so many octets together, so that staging them grows nothing step by step.
    pub fn reserve(&mut self, frames: usize, octets: usize) -> Result<(), StageFault>
        ensures same { self.new ≡ self.old }
        ensures err { IfErr result (λ e. e ≡ out_of_memory) }
    {
        self.drop_written(octets);
        let Some(room) = self.aside.len().checked_add(octets) else {
            return Err(StageFault::OutOfMemory);
        };
        self.octets.reserve(room)?;
        self.slots.reserve(frames)?;
        self.announced = octets;
        Ok(())
    }

    /// Stages a frame with this method.
    pub fn stage_method(&mut self, channel: u16, method: &Method) -> Result<(), StageFault>
        ensures ok { OnOk result (self.new ≡ with_staged self.old (method_frame channel (method_view method.now) ∷
            [])) }
        ensures reads_back { OnOk result (ReadsBack (method_view method.now)) }
        ensures too_long { result ≡ Err too_long → length (plain_method (method_view method.now)) < 2 ^ 32
            → CountsAllFit (method_view method.now).args → ⊥ }
        ensures same { OnErr result (self.new ≡ self.old) }
    {
        self.drop_written(USUAL_FRAME);
        self.drop_begun();
        let between = self.is_between(channel)?;
        expect_lap(self.slots.len() - self.slots_begun, self.lap)?;
        let kind = FrameKind::Method;
        if !between && self.aside.is_empty() {
            let at = self.octets.len();
            append_method(&mut self.octets, channel, method)?;
            enlist(&mut self.octets, &mut self.slots, at, kind, channel)?;
            return Ok(());
        }
        let at = self.aside.len();
        append_method(&mut self.aside, channel, method)?;
        keep_room(&mut self.octets, &mut self.aside, at)?;
        enlist(&mut self.aside, &mut self.slots, at, kind, channel)?;
        Ok(())
    }

    /// Stages a frame with the header of a content: the size of its body, and its properties.
    pub fn stage_header(
        &mut self,
        channel: u16,
        body_size: u64,
        properties: &Properties,
    ) -> Result<(), StageFault>
        ensures ok { OnOk result (self.new
            ≡ with_staged self.old (header_frame channel (header body_size (properties_view properties.now)) ∷ [])) }
        ensures reads_back { OnOk result (HeaderReadsBack (header body_size (properties_view properties.now))) }
        ensures too_long { result ≡ Err too_long
            → length (plain_header (header body_size (properties_view properties.now))) < 2 ^ 32
            → CountsPresentFit (properties_view properties.now) → ⊥ }
        ensures same { OnErr result (self.new ≡ self.old) }
    {
        self.drop_written(USUAL_FRAME);
        self.drop_begun();
        let between = self.is_between(channel)?;
        expect_lap(self.slots.len() - self.slots_begun, self.lap)?;
        let kind = FrameKind::Header;
        if !between && self.aside.is_empty() {
            let at = self.octets.len();
            append_header(&mut self.octets, channel, body_size, properties)?;
            enlist(&mut self.octets, &mut self.slots, at, kind, channel)?;
            return Ok(());
        }
        let at = self.aside.len();
        append_header(&mut self.aside, channel, body_size, properties)?;
        keep_room(&mut self.octets, &mut self.aside, at)?;
        enlist(&mut self.aside, &mut self.slots, at, kind, channel)?;
        Ok(())
    }

    /// Stages a frame with this part of a body.
    pub fn stage_body(&mut self, channel: u16, part: &[u8]) -> Result<(), StageFault>
        ensures ok { OnOk result (self.new ≡ with_staged self.old (body_frame channel part.now ∷ [])) }
        ensures too_long { result ≡ Err too_long → 2 ^ 32 ≤ length part.now }
        ensures same { OnErr result (self.new ≡ self.old) }
    {
        self.drop_written(part.len());
        self.drop_begun();
        let between = self.is_between(channel)?;
        expect_lap(self.slots.len() - self.slots_begun, self.lap)?;
        let kind = FrameKind::Body;
        if !between && self.aside.is_empty() {
            let at = self.octets.len();
            append_body(&mut self.octets, channel, part)?;
            enlist(&mut self.octets, &mut self.slots, at, kind, channel)?;
            return Ok(());
        }
        let at = self.aside.len();
        append_body(&mut self.aside, channel, part)?;
        keep_room(&mut self.octets, &mut self.aside, at)?;
        enlist(&mut self.aside, &mut self.slots, at, kind, channel)?;
        Ok(())
    }

    /// Stages a body in parts, each of so many octets, the last with what is left, and lets the chunks go that it
    /// lies in. Where there is no memory, the chunks are as they were: room is made for all parts before any is staged.
    pub fn stage_chunks(
        &mut self,
        channel: u16,
        room: u32,
        chunks: &mut Chunks,
    ) -> Result<(), StageFault>
        requires { 0 < room }
        ensures { StagesChunks channel room self.old self.new chunks.old chunks.new result }
    {
        let Some(parts) = count_parts(chunks.len(), room) else {
            return Err(StageFault::OutOfMemory);
        };
        self.drop_written(parts.octets);
        self.drop_begun();
        let between = self.is_between(channel)?;
        let waiting = self.slots.len() - self.slots_begun;
        expect_lap(waiting.saturating_add(parts.count), self.lap)?;
        self.slots.reserve(parts.count)?;
        if !between && self.aside.is_empty() {
            self.octets.reserve(parts.octets)?;
            append_parts(&mut self.octets, &mut self.slots, channel, room, chunks);
            return Ok(());
        }
        let Some(after) = self.aside.len().checked_add(parts.octets) else {
            return Err(StageFault::OutOfMemory);
        };
        self.octets.reserve(after)?;
        self.aside.reserve(parts.octets)?;
        append_parts(&mut self.aside, &mut self.slots, channel, room, chunks);
        Ok(())
    }

    /// Stages a heartbeat.
    pub fn stage_heartbeat(&mut self) -> Result<(), StageFault>
        ensures ok { OnOk result (self.new ≡ with_staged self.old (heartbeat_frame ∷ [])) }
        ensures same { OnErr result (self.new ≡ self.old) }
    {
        self.drop_written(USUAL_FRAME);
        self.drop_begun();
        expect_lap(self.slots.len() - self.slots_begun, self.lap)?;
        let kind = FrameKind::Heartbeat;
        if self.aside.is_empty() {
            let at = self.octets.len();
            append_heartbeat(&mut self.octets)?;
            enlist(&mut self.octets, &mut self.slots, at, kind, 0)?;
            return Ok(());
        }
        let at = self.aside.len();
        append_heartbeat(&mut self.aside)?;
        keep_room(&mut self.octets, &mut self.aside, at)?;
        enlist(&mut self.aside, &mut self.slots, at, kind, 0)?;
        Ok(())
    }

    /// Drops what is staged.
    pub fn discard(&mut self)
        ensures { self.new ≡ only self.old.output }
    {
        self.octets.truncate(self.arranged);
        self.aside.clear();
        self.slots.truncate(self.slots_arranged);
        self.announced = 0;
    }

    /// Whether a frame of a channel above 0 that is staged first goes before others that wait.
    ///
    /// Where the frame that waits last is of the channel, the new one goes after it.
    fn goes_between(&self, channel: u16) -> bool {
        let row = &self.slots[self.slots_begun..self.slots_arranged];
        let Some(newest) = row.last() else {
            return false;
        };
        if channel == 0
            || newest.slot.channel == channel
            || self.slots_arranged < self.slots.len()
        {
            return false;
        }
        let writer = Writer::at(self.lap, self.last);
        if !newest.is_after(writer.next_lap(channel), channel) {
            return false;
        }
        let slot = Slot {
            size: 0,
            channel,
            kind: FrameKind::Body,
            leaving: false,
        };
        let remembered = self.newest.lap_of(row, channel, writer);
        place_of(row, slot, self.lap, self.last, remembered).before < row.len()
    }

    /// Whether a frame that is staged now is the first one that goes before others. Then there is room aside for all
    /// octets that were announced.
    fn is_between(&mut self, channel: u16) -> Result<bool, StageFault>
        ensures same { self.new ≡ self.old }
        ensures err { IfErr result (λ e. e ≡ out_of_memory) }
    {
        let between = self.goes_between(channel);
        if between {
            self.aside.reserve(self.announced)?;
        }
        Ok(between)
    }

    /// How many frames are staged.
    fn staged(&self) -> usize
        ensures { result ≡ length self.now.staged }
    {
        self.slots.len() - self.slots_arranged
    }

    /// Puts the first of the frames that are staged.
    ///
    /// Where its place is the last one, no octets move. Otherwise those after its place make room; or those before it,
    /// where they are fewer and enough octets were written before them.
    fn put_first(&mut self)
        requires { 0 < length self.old.staged }
        ensures { IsPutOfFirst self.old self.new }
    {
        arrangement::put_keeps_arranged();
        join(&mut self.octets, &mut self.aside);
        let waiting = self.slots[self.slots_arranged];
        let slot = waiting.slot;
        let row = &self.slots[self.slots_begun..self.slots_arranged];
        let writer = Writer::at(self.lap, self.last);
        let remembered = self.newest.lap_of(row, slot.channel, writer);
        let place = place_of(row, slot, self.lap, self.last, remembered);
        self.newest
            .note_put(self.alloc, row, slot.channel, place, writer);
        let moved = length_from(row, place.before, self.arranged - self.begun);
        let count = slot.length();
        let at = self.arranged - moved;
        let first = self.slots_begun + place.before;
        put_slot(&mut self.slots, first, self.slots_arranged, place.lap);
        self.slots_arranged += 1;
        if count <= self.written && at - self.written < moved {
            move_down(&mut self.octets, self.written, at, self.arranged, count);
            self.written -= count;
            self.begun -= count;
        } else {
            move_up(&mut self.octets, at, self.arranged + count, count);
            self.arranged += count;
        }
    }

    /// The channel of the frames that are staged first, where frames stand aside.
    fn between(&self) -> Option<u16>
        ensures { IfSome result (λ channel. 0 < channel) }
    {
        if self.aside.is_empty() {
            return None;
        }
        let channel = self.slots[self.slots_arranged..].first()?.slot.channel;
        if channel > 0 { Some(channel) } else { None }
    }

    /// Puts the first frames that stand aside in one pass: those of a channel that go before frames that wait.
    ///
    /// What waits on one side of them moves, once. Where there is no memory for their places, nothing is put.
    fn put_between(&mut self)
        ensures { all_put self.new ≡ all_put self.old }
    {
        if self.arranged < self.octets.len() {
            return;
        }
        let Some(channel) = self.between() else {
            return;
        };
        let row = &self.slots[self.slots_begun..self.slots_arranged];
        let staged = &self.slots[self.slots_arranged..];
        let writer = Writer::at(self.lap, self.last);
        let remembered = self.newest.lap_of(row, channel, writer);
        let Ok(coming) = find_places(
            self.alloc, row, staged, channel, self.lap, self.last, remembered,
        ) else {
            return;
        };
        if coming.is_empty() {
            return;
        }
        let total = length_of(&coming);
        let row = &self.slots[self.slots_begun..self.slots_arranged];
        let ends = Ends {
            written: self.written,
            begun: self.begun,
            arranged: self.arranged,
        };
        let ends = weave(&mut self.octets, ends, row, &coming, &self.aside, total);
        self.aside.clear();
        weave_slots(
            &mut self.slots,
            self.slots_begun,
            self.slots_arranged,
            &coming,
        );
        self.written = ends.written;
        self.begun = ends.begun;
        self.arranged = ends.arranged;
        self.slots_arranged += coming.len();
        self.newest.note_puts(self.alloc, &coming, writer);
    }

    /// Puts all that is staged, each frame in its place.
    pub fn put(&mut self)
        ensures { self.new ≡ all_put self.old }
    {
        self.put_between();
        for _ in 0..self.staged() {
            self.put_first();
        }
        self.announced = 0;
    }
}

/// Whether a frame more can have a lap, where so many wait and the writer stands in a lap: the 2 ^ 64th frame of an end
/// is refused, since its lap might pass the greatest number.
fn expect_lap(waiting: usize, lap: u64) -> Result<(), StageFault>
    ensures left { OnOk result (lap + waiting + 2 < 2 ^ 64) }
    ensures err { IfErr result (λ e. e ≡ out_of_memory) }
{
    if lap.saturating_add(waiting as u64) >= u64::MAX - 1 {
        return Err(StageFault::OutOfMemory);
    }
    Ok(())
}

/// Makes room after octets for all that stands aside. Where there is none, what stands there from a place on is dropped.
fn keep_room(octets: &mut Vec<u8>, aside: &mut Vec<u8>, at: usize) -> Result<(), StageFault>
    ensures octets { octets.new.items ≡ octets.old.items }
    ensures kept { vec_capacity octets.old ≤ vec_capacity octets.new }
    ensures room { OnOk result (length octets.new.items + length aside.new.items ≤ vec_capacity octets.new) }
    ensures same { OnOk result (aside.new.items ≡ aside.old.items) }
    ensures back { OnErr result (aside.new.items ≡ take at aside.old.items) }
    ensures err { IfErr result (λ e. e ≡ out_of_memory) }
{
    let Ok(()) = octets.reserve(aside.len()) else {
        aside.truncate(at);
        return Err(StageFault::OutOfMemory);
    };
    Ok(())
}
