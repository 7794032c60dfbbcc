//! The frames of the outbox without their octets: what of a frame decides when its turn comes.
//!
//! Only lengths are kept, never offsets, so that a frame that moves leaves the other slots as they are.
ghost use Rattle.std.specs.Prelude.{◌≡◌, ◌+◌, ◌^◌, ◌<◌, ◌≤◌, length, take, drop};
ghost use Rattle.amqp_model.specs.Laws.ArrangementLaws.{PlaceIsAfterItsQueue};
ghost use Rattle.amqp_outbox.specs.OutboxLaps.{lap_after, laps_in, laps_of, laps_last, moment, is_after, Counts, IsLap};
ghost use Rattle.amqp_outbox.specs.OutboxSlots.{slot_length, slots_in, slots_length, slots_length_on, slots_begun_on, slot_last, slots_last, begun_by, EndsWithChannel, IsPlace};

use amqp_frame::FrameKind;
use amqp_model::arrangement;

/// What is kept of a frame beside its octets.
#[derive(Clone, Copy)]
pub(crate) struct Slot {
    /// how many octets the payload has
    pub(crate) size: u32,
    pub(crate) channel: u16,
    pub(crate) kind: FrameKind,
    /// it is a connection.close or a connection.close-ok
    pub(crate) leaving: bool,
}

/// A frame that waits, and the lap in which it has its turn. The lap of a frame that is staged says nothing.
#[derive(Clone, Copy)]
pub(crate) struct Waiting {
    pub(crate) slot: Slot,
    pub(crate) lap: u64,
}

/// How many frames of a row are begun, how many octets these have, the channel of the last of them, and where the writer
/// stands then: in a lap, at LAST.
#[derive(Clone, Copy)]
pub(crate) struct Begun {
    pub(crate) frames: usize,
    pub(crate) octets: usize,
    pub(crate) on: u16,
    pub(crate) lap: u64,
    pub(crate) last: u16,
}

/// The place of a frame in a row: after so many others, its turn in a lap.
#[derive(Clone, Copy)]
pub(crate) struct Place {
    pub(crate) before: usize,
    pub(crate) lap: u64,
}

impl Slot {
    /// How many octets the frame has.
    pub(crate) fn length(self) -> usize
        ensures { result ≡ slot_length self }
    {
        self.size as usize + 8
    }

    /// The lap of the writer, once the frame is begun: before, it stood in a lap at LAST.
    fn lap_after(self, lap: u64, last: u16) -> u64
        requires { lap + 1 < 2 ^ 64 }
        ensures { result ≡ lap_after lap last self }
    {
        if self.channel == 0 || last < self.channel {
            lap
        } else {
            lap + 1
        }
    }

    /// LAST, once the frame is begun.
    pub(crate) fn last_after(self, last: u16) -> u16
        ensures { result ≡ slot_last last self }
    {
        if self.channel == 0 {
            last
        } else {
            self.channel
        }
    }
}

impl Waiting {
    /// Whether the frame has its turn after that of a channel in a lap.
    pub(crate) fn is_after(self, lap: u64, channel: u16) -> bool
        ensures { result ≡ is_after (moment lap channel) self.slot self.lap }
    {
        let slot = self.slot;
        if slot.channel == 0 {
            return slot.leaving;
        }
        lap < self.lap || (lap == self.lap && channel < slot.channel)
    }
}

/// How many octets the frames have together.
pub(crate) fn length_of(row: &[Waiting]) -> usize
    requires { slots_length (slots_in row.now) < 2 ^ 64 }
    ensures { result ≡ slots_length (slots_in row.now) }
{
    let mut total = 0;
    for waiting in row {
        total += waiting.slot.length();
    }
    total
}

/// How many octets the frames of a channel have together.
pub(crate) fn length_on(row: &[Waiting], channel: u16) -> usize
    requires { slots_length (slots_in row.now) < 2 ^ 64 }
    ensures { result ≡ slots_length_on channel (slots_in row.now) }
{
    let mut total = 0;
    for waiting in row {
        if waiting.slot.channel == channel {
            total += waiting.slot.length();
        }
    }
    total
}

/// How many octets the frames have from one on, where all have so many: the fewer slots are counted.
pub(crate) fn length_from(row: &[Waiting], place: usize, total: usize) -> usize
    requires within { place ≤ length row.now }
    requires total { total ≡ slots_length (slots_in row.now) }
    ensures { result ≡ slots_length (drop place (slots_in row.now)) }
{
    if place < row.len() - place {
        total - length_of(&row[..place])
    } else {
        length_of(&row[place..])
    }
}

/// The frames of a row that are begun, once so many of its octets are written.
pub(crate) fn begun_of(row: &[Waiting], octets: usize, begun_on: u16, lap: u64, last: u16) -> Begun
    requires within { octets ≤ slots_length (slots_in row.now) }
    requires fits { slots_length (slots_in row.now) < 2 ^ 64 }
    requires laps { lap + length row.now < 2 ^ 64 }
    ensures frames { result.frames ≡ begun_by octets (slots_in row.now) }
    ensures octets { result.octets ≡ slots_length (take result.frames (slots_in row.now)) }
    ensures on { result.on ≡ slots_begun_on begun_on (take result.frames (slots_in row.now)) }
    ensures lap { result.lap ≡ laps_last lap last (take result.frames (slots_in row.now)) }
    ensures last { result.last ≡ slots_last last (take result.frames (slots_in row.now)) }
    ensures count { result.frames ≤ length row.now }
    ensures reached { octets ≤ result.octets }
{
    let mut begun = Begun {
        frames: 0,
        octets: 0,
        on: begun_on,
        lap,
        last,
    };
    for waiting in row {
        if octets <= begun.octets {
            return begun;
        }
        begun.frames += 1;
        begun.octets += waiting.slot.length();
        begun.on = waiting.slot.channel;
        begun.lap = waiting.slot.lap_after(begun.lap, begun.last);
        begun.last = waiting.slot.last_after(begun.last);
    }
    begun
}

/// Where a frame stands in the row of others, after so many of them, and in which lap its turn comes.
///
/// A channel has its frames in laps that follow one another, and a new one goes into the lap after that of the newest.
/// Where the last frame of the row is of its channel, it stands after it. Otherwise the newest frame of its channel is
/// looked for in the lap that the caller remembers, or, with none, in the one in which the channel is met next; and
/// then in the laps after it, until one has no frame of the channel: the place is there. Each look takes the logarithm
/// of the row's length. There are two where the newest frame stands in the first of these laps, and one where no frame
/// of the channel waits and no lap is remembered; each frame of the channel in a later lap takes one more. What is
/// remembered decides nothing but how many looks there are.
pub(crate) fn place_of(
    row: &[Waiting],
    slot: Slot,
    lap: u64,
    last: u16,
    remembered: Option<u64>,
) -> Place
    requires laps_are { laps_in row.now ≡ laps_of lap last (slots_in row.now) }
    requires fits { lap + length row.now + 1 < 2 ^ 64 }
    ensures within { result.before ≤ length row.now }
    ensures place { IsPlace last slot (slots_in row.now) result.before }
    ensures lap { IsLap lap last slot (slots_in row.now) result.before result.lap }
{
    arrangement::put_keeps_arranged();
    if slot.leaving {
        return Place {
            before: row.len(),
            lap: 0,
        };
    }
    if slot.channel == 0 {
        return Place {
            before: count_until(row, lap, last),
            lap: 0,
        };
    }
    place_on(row, slot, lap, last, remembered)
}

/// The same for a frame of a channel above 0.
fn place_on(row: &[Waiting], slot: Slot, lap: u64, last: u16, remembered: Option<u64>) -> Place
    requires above { 0 < slot.channel }
    requires laps_are { laps_in row.now ≡ laps_of lap last (slots_in row.now) }
    requires fits { lap + length row.now + 1 < 2 ^ 64 }
    ensures within { result.before ≤ length row.now }
    ensures place { PlaceIsAfterItsQueue → IsPlace last slot (slots_in row.now) result.before }
    ensures lap { IsLap lap last slot (slots_in row.now) result.before result.lap }
{
    let channel = slot.channel;
    let mut own = newest_of(row, channel, remembered);
    loop {
        let next = next_lap(row, own, slot, lap, last);
        let found = count_until(&row[own..], next, channel);
        let before = own + found;
        if found > 0 && row[before - 1].slot.channel == channel {
            own = before;
        } else {
            return Place { before, lap: next };
        }
    }
}

/// The lap of a channel's turn after so many of the slots: the last of these is of the channel, if there is one.
fn next_lap(row: &[Waiting], own: usize, slot: Slot, lap: u64, last: u16) -> u64
    requires above { 0 < slot.channel }
    requires laps_are { laps_in row.now ≡ laps_of lap last (slots_in row.now) }
    requires fits { lap + length row.now + 1 < 2 ^ 64 }
    requires within { own ≤ length row.now }
    requires ends { EndsWithChannel slot.channel (take own (slots_in row.now)) }
    ensures { result ≡ lap_after (laps_last lap last (take own (slots_in row.now)))
        (slots_last last (take own (slots_in row.now))) slot }
{
    if own == 0 {
        return slot.lap_after(lap, last);
    }
    row[own - 1].lap + 1
}

/// How many of the slots end with a frame of a channel: all, where the last of them is of the channel; else those up to
/// its frame in a lap, if it has one there; else none.
fn newest_of(row: &[Waiting], channel: u16, remembered: Option<u64>) -> usize
    ensures within { result ≤ length row.now }
    ensures own { EndsWithChannel channel (take result (slots_in row.now)) }
{
    match row.last() {
        Some(newest) if newest.slot.channel == channel => row.len(),
        _ => match remembered {
            Some(lap) => count_to_lap(row, channel, lap),
            None => 0,
        },
    }
}

/// How many of the slots there are up to a channel's frame in a lap: none, where it has no frame there.
fn count_to_lap(row: &[Waiting], channel: u16, lap: u64) -> usize
    ensures within { result ≤ length row.now }
    ensures own { EndsWithChannel channel (take result (slots_in row.now)) }
{
    let before = count_until(row, lap, channel);
    if before > 0 && row[before - 1].slot.channel == channel {
        return before;
    }
    0
}

/// How many frames of a row stand before the first that has its turn after a channel's in a lap.
///
/// Often that is after all of them, so the last one is looked at first.
fn count_until(row: &[Waiting], lap: u64, channel: u16) -> usize
    ensures within { result ≤ length row.now }
    ensures count { Counts (moment lap channel) result (slots_in row.now) (laps_in row.now) }
{
    let all = row.len();
    if all > 0 && !row[all - 1].is_after(lap, channel) {
        return all;
    }
    count_by_halves(row, lap, channel)
}

/// The same, by looking at the middle of what is left.
fn count_by_halves(row: &[Waiting], lap: u64, channel: u16) -> usize
    ensures within { result ≤ length row.now }
    ensures count { Counts (moment lap channel) result (slots_in row.now) (laps_in row.now) }
{
    let mut low = 0;
    let mut high = row.len();
    while low < high {
        let middle = low + (high - low) / 2;
        if row[middle].is_after(lap, channel) {
            high = middle;
        } else {
            low = middle + 1;
        }
    }
    low
}
