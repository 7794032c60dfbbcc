//! Frames of one channel, put into a row in one pass.
//!
//! Their places are found first, from the first frame to the last: each stands after the one before it, so the row is
//! looked at from there on. The frames of the row between two places move together, each octet once and as far as it
//! has to go in all, and a frame is copied into the room that they leave.
//!
//! `goes_down` counts the octets that move on each side. Where what waits before the last place moves (`put_down`), it
//! goes down over octets that are written, from the beginning on. Where what waits after the first place moves
//! (`put_up`), it goes up, from the end on. The new frames stand aside, so each is copied once. The slots always move
//! up.
ghost use Rattle.std.specs.Prelude.{◌≡◌, ℕ, ◌+◌, ◌-◌, ◌^◌, ◌<◌, ◌≤◌, List, [], ◌++◌, length, map, take, drop, replicate, vec_capacity, All, IfOk, true};
ghost use Rattle.amqp_frame.specs.Frame.{Frame};
ghost use Rattle.amqp_frame.specs.Splitting.{stream};
ghost use Rattle.amqp_model.specs.Output.Arrangement.{IsArranged, HasChannel};
ghost use Rattle.amqp_outbox.specs.OutboxLaps.{laps_in, laps_of};
ghost use Rattle.amqp_outbox.specs.OutboxSlots.{slot_of, slots_in, slots_length};
ghost use Rattle.amqp_outbox.specs.OutboxWeaving.{woven, Follow, places_of, waiting_of, slots_of, ArePlaced, WeavesIn};
ghost use Rattle.amqp_outbox.specs.declared.slots.Waiting.{Waiting};

use crate::slots::{self, Waiting, length_from, place_of};
use crate::staging::StageFault;
use amqp_model::arrangement;
use std::alloc::Global;

/// A frame that is to be put, with its lap, and after how many frames of the row its place is.
#[derive(Clone, Copy)]
pub(crate) struct Coming {
    pub(crate) waiting: Waiting,
    pub(crate) place: usize,
}

/// Where parts of an outbox's octets end: those written, those of the frame that is begun, and those of the row.
#[derive(Clone, Copy)]
pub(crate) struct Ends {
    pub(crate) written: usize,
    pub(crate) begun: usize,
    pub(crate) arranged: usize,
}

/// The places of the first staged frames: of those that are of a channel and go before frames of the row. The first
/// place is looked for from the lap that is remembered of the channel, the others each from the one before.
pub(crate) fn find_places(
    alloc: Global,
    row: &[Waiting],
    staged: &[Waiting],
    channel: u16,
    lap: u64,
    last: u16,
    remembered: Option<u64>,
) -> Result<Vec<Coming>, StageFault>
    requires above { 0 < channel }
    requires laps_are { laps_in row.now ≡ laps_of lap last (slots_in row.now) }
    requires fits { lap + length row.now + length staged.now + 1 < 2 ^ 64 }
    requires row { (frames : List Frame) × (slots_in row.now ≡ map slot_of frames) × IsArranged last frames
        × All HasChannel frames }
    requires staged { (frames : List Frame) × (slots_in staged.now ≡ map slot_of frames) × All HasChannel frames }
    ensures { IfOk result (λ coming. ArePlaced lap last row.now staged.now coming.items) }
{
    arrangement::put_keeps_arranged();
    let mut coming = Vec::new(alloc);
    let mut from = 0;
    let mut now = lap;
    let mut then = last;
    let mut known = remembered;
    for waiting in staged {
        let slot = waiting.slot;
        if slot.channel != channel {
            return Ok(coming);
        }
        let found = place_of(&row[from..], slot, now, then, known);
        let place = from + found.before;
        if place == row.len() {
            return Ok(coming);
        }
        let waiting = Waiting {
            slot,
            lap: found.lap,
        };
        coming.push(Coming { waiting, place })?;
        from = place;
        now = found.lap;
        then = channel;
        known = None;
    }
    Ok(coming)
}

/// How many octets the frames have together.
pub(crate) fn length_of(coming: &[Coming]) -> usize
    requires { slots_length (slots_of coming.now) < 2 ^ 64 }
    ensures { result ≡ slots_length (slots_of coming.now) }
{
    let mut total = 0;
    for next in coming {
        total += next.waiting.slot.length();
    }
    total
}

/// Puts the octets of frames among those of a row: so many of those that stand aside, which are appended otherwise. There
/// is room for them.
///
/// Of what waits before the last place and what waits after the first the part moves that has fewer octets, each once.
/// What stands aside is copied once.
pub(crate) fn weave(
    octets: &mut Vec<u8>,
    ends: Ends,
    row: &[Waiting],
    coming: &[Coming],
    aside: &[u8],
    total: usize,
) -> Ends
    requires some { 0 < length coming.now }
    requires follow { Follow 0 (length row.now) (places_of coming.now) }
    requires begun { ends.written ≤ ends.begun }
    requires arranged { ends.arranged ≡ ends.begun + slots_length (slots_in row.now) }
    requires total { total ≡ slots_length (slots_of coming.now) }
    requires all { length octets.old.items ≡ ends.arranged }
    requires there { total ≤ length aside.now }
    requires room { length octets.old.items + length aside.now ≤ vec_capacity octets.old }
    ensures { WeavesIn ends result row.now coming.now total (octets.old.items ++ aside.now) octets.new.items }
{
    if goes_down(ends, row, coming, total) {
        return put_down(octets, ends, row, coming, aside, total);
    }
    put_up(octets, ends, row, coming, aside, total)
}

/// Whether fewer octets are moved where what waits before the last place moves down than where what waits after the
/// first place moves up. It needs as much room before.
fn goes_down(ends: Ends, row: &[Waiting], coming: &[Coming], total: usize) -> bool
    requires some { 0 < length coming.now }
    requires follow { Follow 0 (length row.now) (places_of coming.now) }
    requires begun { ends.written ≤ ends.begun }
    requires arranged { ends.arranged ≡ ends.begun + slots_length (slots_in row.now) }
    ensures { result ≡ true → total ≤ ends.written }
{
    if ends.written < total {
        return false;
    }
    let waiting = ends.arranged - ends.begun;
    let after_first = length_from(row, coming[0].place, waiting);
    let after_last = length_from(row, coming[coming.len() - 1].place, waiting);
    ends.arranged - ends.written - after_last < after_first
}

/// The same, where what waits before the last place moves down over octets that are written.
fn put_down(
    octets: &mut Vec<u8>,
    ends: Ends,
    row: &[Waiting],
    coming: &[Coming],
    aside: &[u8],
    total: usize,
) -> Ends
    requires follow { Follow 0 (length row.now) (places_of coming.now) }
    requires down { total ≤ ends.written }
    requires begun { ends.written ≤ ends.begun }
    requires arranged { ends.arranged ≡ ends.begun + slots_length (slots_in row.now) }
    requires total { total ≡ slots_length (slots_of coming.now) }
    requires all { length octets.old.items ≡ ends.arranged }
    requires there { total ≤ length aside.now }
    requires room { length octets.old.items + length aside.now ≤ vec_capacity octets.old }
    ensures { WeavesIn ends result row.now coming.now total (octets.old.items ++ aside.now) octets.new.items }
{
    let (frames, later) = aside.split_at(total);
    settle(octets, ends.written, ends.begun, total, &frames[..0]);
    weave_down(octets, ends.begun, row, coming, frames);
    append(octets, later);
    Ends {
        written: ends.written - total,
        begun: ends.begun - total,
        arranged: ends.arranged,
    }
}

/// The same, where what waits after the first place moves up.
fn put_up(
    octets: &mut Vec<u8>,
    ends: Ends,
    row: &[Waiting],
    coming: &[Coming],
    aside: &[u8],
    total: usize,
) -> Ends
    requires follow { Follow 0 (length row.now) (places_of coming.now) }
    requires begun { ends.written ≤ ends.begun }
    requires arranged { ends.arranged ≡ ends.begun + slots_length (slots_in row.now) }
    requires total { total ≡ slots_length (slots_of coming.now) }
    requires all { length octets.old.items ≡ ends.arranged }
    requires there { total ≤ length aside.now }
    requires room { length octets.old.items + length aside.now ≤ vec_capacity octets.old }
    ensures { WeavesIn ends result row.now coming.now total (octets.old.items ++ aside.now) octets.new.items }
{
    let (frames, later) = aside.split_at(total);
    open(octets, ends.arranged + total);
    append(octets, later);
    weave_octets(octets, ends.begun, ends.arranged, row, coming, frames);
    Ends {
        written: ends.written,
        begun: ends.begun,
        arranged: ends.arranged + total,
    }
}

/// Appends octets that say nothing, up to so many in all. There is room for them.
fn open(octets: &mut Vec<u8>, count: usize)
    requires more { length octets.old.items ≤ count }
    requires room { count ≤ vec_capacity octets.old }
    ensures opened { octets.new.items ≡ octets.old.items ++ replicate (count - length octets.old.items) 0 }
    ensures count { length octets.new.items ≡ count }
    ensures room { vec_capacity octets.old ≤ vec_capacity octets.new }
{
    let Ok(()) = octets.resize(count, 0) else {
        unreachable!()
    };
}

/// Appends octets. There is room for them.
fn append(octets: &mut Vec<u8>, part: &[u8])
    requires { length octets.old.items + length part.now ≤ vec_capacity octets.old }
    ensures { octets.new.items ≡ octets.old.items ++ part.now }
{
    let Ok(()) = octets.extend_from_slice(part) else {
        unreachable!()
    };
}

/// Appends what stands aside. There is room for it.
pub(crate) fn join(octets: &mut Vec<u8>, aside: &mut Vec<u8>)
    requires { length octets.old.items + length aside.old.items ≤ vec_capacity octets.old }
    ensures octets { octets.new.items ≡ octets.old.items ++ aside.old.items }
    ensures aside { aside.new.items ≡ [] }
{
    if aside.is_empty() {
        return;
    }
    append(octets, aside);
    aside.clear();
}

/// Puts the octets of frames among those of a row, which moves up: after it there are as many octets, which are dropped.
pub(crate) fn weave_octets(
    octets: &mut Vec<u8>,
    begun: usize,
    arranged: usize,
    row: &[Waiting],
    coming: &[Coming],
    frames: &[u8],
)
    requires follow { Follow 0 (length row.now) (places_of coming.now) }
    requires arranged { arranged ≡ begun + slots_length (slots_in row.now) }
    requires frames { length frames.now ≡ slots_length (slots_of coming.now) }
    requires there { arranged + length frames.now ≤ length octets.old.items }
    ensures count { length octets.new.items ≡ length octets.old.items }
    ensures octets { (before dropped after : List ℕ) (rows puts : List Frame) → slots_in row.now ≡ map slot_of rows
        → slots_of coming.now ≡ map slot_of puts → frames.now ≡ stream puts → length before ≡ begun
        → length dropped ≡ length frames.now → octets.old.items ≡ before ++ (stream rows ++ (dropped ++ after))
        → octets.new.items ≡ before ++ (stream (woven 0 (places_of coming.now) puts rows) ++ after) }
{
    let mut left = coming.len();
    let mut row_end = row.len();
    let mut end = arranged;
    let mut hole = frames.len();
    while left > 0 {
        left -= 1;
        let next = coming[left];
        let length = next.waiting.slot.length();
        let moved = length_from(&row[..row_end], next.place, end - begun);
        let place = end - moved;
        splice(octets, place, end, hole, &frames[hole - length..hole]);
        row_end = next.place;
        end = place;
        hole -= length;
    }
}

/// Puts the octets of frames among those of a row, which moves down: before it there is room for them.
pub(crate) fn weave_down(
    octets: &mut Vec<u8>,
    begun: usize,
    row: &[Waiting],
    coming: &[Coming],
    frames: &[u8],
)
    requires follow { Follow 0 (length row.now) (places_of coming.now) }
    requires frames { length frames.now ≡ slots_length (slots_of coming.now) }
    requires room { length frames.now ≤ begun }
    requires there { begun + slots_length (slots_in row.now) ≤ length octets.old.items }
    ensures count { length octets.new.items ≡ length octets.old.items }
    ensures capacity { vec_capacity octets.new ≡ vec_capacity octets.old }
    ensures octets { (after : List ℕ) (rows puts : List Frame) → slots_in row.now ≡ map slot_of rows
        → slots_of coming.now ≡ map slot_of puts → frames.now ≡ stream puts
        → drop begun octets.old.items ≡ stream rows ++ after
        → octets.new.items ≡ take (begun - length frames.now) octets.old.items
        ++ (stream (woven 0 (places_of coming.now) puts rows) ++ after) }
{
    let mut place = 0;
    let mut from = begun;
    let mut left = frames;
    for next in coming {
        let end = from + slots::length_of(&row[place..next.place]);
        let (frame, later) = left.split_at(next.waiting.slot.length());
        settle(octets, from, end, left.len(), frame);
        place = next.place;
        from = end;
        left = later;
    }
}

/// Puts the slots of frames among those of a row, which stand between two places. After them stand as many others,
/// which are dropped.
pub(crate) fn weave_slots(
    slots: &mut Vec<Waiting>,
    begun: usize,
    arranged: usize,
    coming: &[Coming],
)
    requires order { begun ≤ arranged }
    requires follow { Follow 0 (arranged - begun) (places_of coming.now) }
    requires there { arranged + length coming.now ≤ length slots.old.items }
    ensures { (before row dropped after : List Waiting) → length before ≡ begun → begun + length row ≡ arranged
        → length dropped ≡ length coming.now → slots.old.items ≡ before ++ (row ++ (dropped ++ after))
        → slots.new.items ≡ before ++ (woven 0 (places_of coming.now) (waiting_of coming.now) row ++ after) }
{
    let mut left = coming.len();
    let mut end = arranged;
    while left > 0 {
        let next = coming[left - 1];
        let place = begun + next.place;
        splice(slots, place, end, left, &[next.waiting]);
        end = place;
        left -= 1;
    }
}

/// Moves what stands from a place to an end down over room before it, and copies a part to where it ends then.
pub(crate) fn settle(octets: &mut Vec<u8>, from: usize, end: usize, room: usize, part: &[u8])
    requires order { from ≤ end }
    requires room { room ≤ from }
    requires part { length part.now ≤ room }
    requires there { end ≤ length octets.old.items }
    ensures count { length octets.new.items ≡ length octets.old.items }
    ensures capacity { vec_capacity octets.new ≡ vec_capacity octets.old }
    ensures settled { take (end - room + length part.now) octets.new.items ≡ take (from - room) octets.old.items
        ++ (drop from (take end octets.old.items) ++ part.now) }
    ensures rest { drop end octets.new.items ≡ drop end octets.old.items }
{
    octets.copy_within(from..end, from - room);
    let to = end - room;
    let gap = &mut octets.as_mut_slice()[to..to + part.len()];
    gap.copy_from_slice(part);
}

/// Moves what stands from a place to an end up over a hole of so many items, and copies a part to the end of what is
/// left of the hole.
fn splice<T: Copy + Drop>(items: &mut Vec<T>, place: usize, end: usize, hole: usize, part: &[T])
    requires order { place ≤ end }
    requires room { end + hole ≤ length items.old.items }
    requires part { length part.now ≤ hole }
    ensures count { length items.new.items ≡ length items.old.items }
    ensures before { take place items.new.items ≡ take place items.old.items }
    ensures after { drop (place + hole - length part.now) items.new.items
        ≡ part.now ++ (drop place (take end items.old.items) ++ drop (end + hole) items.old.items) }
{
    items.copy_within(place..end, place + hole);
    let to = place + hole;
    let gap = &mut items.as_mut_slice()[to - part.len()..to];
    gap.copy_from_slice(part);
}
