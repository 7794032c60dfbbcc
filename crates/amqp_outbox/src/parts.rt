//! The frames of a body that is taken out of chunks, appended where there is room for all of them.
ghost use Rattle.std.specs.Prelude.{◌≡◌, ◌+◌, ◌-◌, ◌*◌, ◌/◌, ◌<◌, ◌≤◌, [], ◌∷◌, ◌++◌, length, take, drop, map, vec_len, vec_capacity, IfSome};
ghost use Rattle.amqp_frame.specs.Frame.{header as frame_start, octets as encoded};
ghost use Rattle.amqp_frame.specs.Splitting.{stream};
ghost use Rattle.amqp_frame.specs.declared.frames.FrameKind.TheVariants.{Body};
ghost use Rattle.amqp_outbox.specs.OutboxFrames.{body_frame, body_frames};
ghost use Rattle.amqp_outbox.specs.OutboxLaps.{laps_in, no_laps};
ghost use Rattle.amqp_outbox.specs.OutboxSlots.{slot_of, slots_in};

use crate::chunks::Chunks;
use crate::slots::{Slot, Waiting};
use amqp_frame::{FrameKind, HEADER_LENGTH, OVERHEAD};
use byteorder::{BigEndian, ByteOrder};

/// The octet that stands after a payload.
pub(crate) const END: u8 = 0xce;

/// At least as many parts as a body has, and how many octets so many frames have with the whole body in them.
#[derive(Clone, Copy)]
pub(crate) struct Parts {
    pub(crate) count: usize,
    pub(crate) octets: usize,
}

/// The parts of a body of so many octets, each as long as there is room, if these are numbers of this machine.
pub(crate) fn count_parts(octets: usize, room: u32) -> Option<Parts>
    requires { 0 < room }
    ensures { IfSome result (λ parts. ((octets + room - 1) / room ≤ parts.count)
        × (parts.octets ≡ octets + 8 * parts.count)) }
{
    let count = (octets / room as usize).checked_add(1)?;
    let around = count.checked_mul(OVERHEAD)?;
    let octets = octets.checked_add(around)?;
    Some(Parts { count, octets })
}

/// Appends the frames of a body in parts, each as long as there is room, the last with what is left, and their slots.
/// There is room for all.
pub(crate) fn append_parts(
    octets: &mut Vec<u8>,
    slots: &mut Vec<Waiting>,
    channel: u16,
    room: u32,
    chunks: &mut Chunks,
)
    requires some { 0 < room }
    requires room { vec_len octets.old + length (stream (body_frames channel room chunks.old))
        ≤ vec_capacity octets.old }
    requires slots_room { vec_len slots.old + length (body_frames channel room chunks.old) ≤ vec_capacity slots.old }
    ensures octets { octets.new.items ≡ octets.old.items ++ stream (body_frames channel room chunks.old) }
    ensures slots { slots_in slots.new.items
        ≡ slots_in slots.old.items ++ map slot_of (body_frames channel room chunks.old) }
    ensures laps { laps_in slots.new.items
        ≡ laps_in slots.old.items ++ no_laps (body_frames channel room chunks.old) }
    ensures taken { chunks.new ≡ [] }
{
    while !chunks.is_empty() {
        let size = chunks.len().min(room as usize);
        append_part(octets, slots, channel, size as u32, chunks);
    }
}

/// Appends the frame of a part of a body, and its slot. There is room for both.
fn append_part(
    octets: &mut Vec<u8>,
    slots: &mut Vec<Waiting>,
    channel: u16,
    size: u32,
    chunks: &mut Chunks,
)
    requires there { size ≤ length chunks.old }
    requires room { vec_len octets.old + (size + 8) ≤ vec_capacity octets.old }
    requires slots_room { vec_len slots.old < vec_capacity slots.old }
    ensures octets { octets.new.items ≡ octets.old.items ++ encoded (body_frame channel (take size chunks.old)) }
    ensures slots { slots_in slots.new.items
        ≡ slots_in slots.old.items ++ slot_of (body_frame channel (take size chunks.old)) ∷ [] }
    ensures laps { laps_in slots.new.items ≡ laps_in slots.old.items ++ 0 ∷ [] }
    ensures left { chunks.new ≡ drop size chunks.old }
    ensures room { vec_capacity octets.old ≤ vec_capacity octets.new }
    ensures slots_room { vec_capacity slots.old ≤ vec_capacity slots.new }
{
    append_start(octets, channel, size);
    chunks.move_into(size as usize, octets);
    octets.push_reserved(END);
    let slot = Slot {
        size,
        channel,
        kind: FrameKind::Body,
        leaving: false,
    };
    slots.push_reserved(Waiting { slot, lap: 0 });
}

/// Appends what stands before the payload of the frame of a part. There is room for it.
fn append_start(octets: &mut Vec<u8>, channel: u16, size: u32)
    requires { vec_len octets.old + 7 ≤ vec_capacity octets.old }
    ensures octets { octets.new.items ≡ octets.old.items ++ frame_start Body channel size }
    ensures room { vec_capacity octets.old ≤ vec_capacity octets.new }
{
    let Ok(()) = octets.extend_from_slice(&start_of(channel, size)) else {
        unreachable!()
    };
}

/// The octets before the payload of the frame of a part.
pub(crate) fn start_of(channel: u16, size: u32) -> [u8; HEADER_LENGTH]
    ensures { result ≡ frame_start Body channel size }
{
    let mut start = [3; HEADER_LENGTH];
    BigEndian::write_u16(&mut start[1..], channel);
    BigEndian::write_u32(&mut start[3..], size);
    start
}
