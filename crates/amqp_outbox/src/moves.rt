//! How what stands in an outbox is moved: octets and slots, up and down.
ghost use Rattle.std.specs.Prelude.{◌≡◌, ◌+◌, ◌<◌, ◌≤◌, length, drop, slice_set, vec_capacity};
ghost use Rattle.amqp_outbox.specs.OutboxLaps.{laps_in};
ghost use Rattle.amqp_outbox.specs.OutboxSlots.{slots_in, moved_up, moved_down};

use crate::slots::Waiting;

/// Drops the first of the items.
pub(crate) fn forget<T: Copy + Drop>(items: &mut Vec<T>, count: usize)
    requires { count ≤ length items.old.items }
    ensures items { items.new.items ≡ drop count items.old.items }
    ensures room { vec_capacity items.new ≡ vec_capacity items.old }
{
    let left = items.len() - count;
    items.copy_within(count.., 0);
    items.truncate(left);
}

/// Moves so many items, which stand last before an end, up to an earlier place.
pub(crate) fn move_up<T>(items: &mut Vec<T>, place: usize, end: usize, count: usize)
    requires room { place + count ≤ end }
    requires end { end ≤ length items.old.items }
    ensures { items.new.items ≡ moved_up place end count items.old.items }
{
    let part = &mut items.as_mut_slice()[place..end];
    part.rotate_right(count);
}

/// Gives the frame whose slot stands at an end its lap, and moves the slot up to an earlier place.
pub(crate) fn put_slot(slots: &mut Vec<Waiting>, place: usize, end: usize, lap: u64)
    requires order { place ≤ end }
    requires end { end < length slots.old.items }
    ensures slots { slots_in slots.new.items ≡ moved_up place (end + 1) 1 (slots_in slots.old.items) }
    ensures laps { laps_in slots.new.items ≡ moved_up place (end + 1) 1 (slice_set (laps_in slots.old.items) end lap) }
{
    set_lap(slots, end, lap);
    move_up(slots, place, end + 1, 1);
}

/// Gives the frame whose slot stands at a place its lap.
pub(crate) fn set_lap(slots: &mut Vec<Waiting>, at: usize, lap: u64)
    requires { at < length slots.old.items }
    ensures count { length slots.new.items ≡ length slots.old.items }
    ensures slots { slots_in slots.new.items ≡ slots_in slots.old.items }
    ensures laps { laps_in slots.new.items ≡ slice_set (laps_in slots.old.items) at lap }
{
    let waiting = slots[at];
    slots[at] = Waiting {
        slot: waiting.slot,
        lap,
    };
}

/// Moves so many octets, which stand at a place, down before those from an earlier place on. Those from a still earlier
/// place up to there make room: they move down over octets that are written, and as many are dropped.
pub(crate) fn move_down(octets: &mut Vec<u8>, from: usize, place: usize, at: usize, count: usize)
    requires room { count ≤ from }
    requires order { from ≤ place }
    requires place { place ≤ at }
    requires end { at + count ≤ length octets.old.items }
    ensures { octets.new.items ≡ moved_down from place at count octets.old.items }
{
    let length = octets.len();
    octets.copy_within(from..place, from - count);
    octets.copy_within(at..at + count, place - count);
    octets.copy_within(at + count..length, at);
    octets.truncate(length - count);
}
