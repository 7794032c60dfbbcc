//! Frames, appended to octets: a payload is written in its place, between the start of its frame and the end octet.
ghost use Rattle.std.specs.Prelude.{◌≡◌, ◌≢◌, ◌+◌, ◌-◌, ◌^◌, ◌<◌, ◌≤◌, [], ◌∷◌, ◌++◌, length, take, drop, IfErr, OnOk, OnErr, Err};
ghost use Rattle.amqp_frame.specs.Frame.{Frame, header as frame_start, octets as encoded};
ghost use Rattle.amqp_frame.specs.Writing.{FinishesFrame};
ghost use Rattle.amqp_method.specs.Faults as method_faults;
ghost use Rattle.amqp_method.specs.HeaderView.{properties_view};
ghost use Rattle.amqp_method.specs.MethodView.{method_view};
ghost use Rattle.amqp_method.specs.Plain.{plain_method, plain_header, CountsAllFit, CountsPresentFit};
ghost use Rattle.amqp_method.specs.Properties.{header};
ghost use Rattle.amqp_model.specs.Output.Arrangement.{names_leaving};
ghost use Rattle.amqp_model.specs.End.Closes.{method_frame};
ghost use Rattle.amqp_model.specs.End.Controls.{heartbeat_frame};
ghost use Rattle.amqp_model.specs.Wire.Methods.{ReadsBack};
ghost use Rattle.amqp_outbox.specs.OutboxFaults.{out_of_memory, too_long};
ghost use Rattle.amqp_outbox.specs.OutboxFrames.{header_frame, body_frame, HeaderReadsBack};
ghost use Rattle.amqp_outbox.specs.OutboxLaps.{laps_in};
ghost use Rattle.amqp_outbox.specs.OutboxSlots.{slot_of, slots_in};

use crate::slots::{Slot, Waiting};
use amqp_frame::{FrameKind, begin_frame, finish_frame};
use amqp_method::{
    Method, MethodFault, MethodFaultKind, Properties, write_header_parts, write_method,
};
use std::alloc::{AllocError, AllocFailed};
use thiserror::Error;

/// How many octets stand before a payload: the type, the channel and the payload's size.
const HEADER_LENGTH: usize = 7;

/// Why a frame can't be staged.
#[derive(Clone, Copy, PartialEq, Eq, Debug, Error)]
pub enum StageFault {
    #[error("out of memory")]
    OutOfMemory,
    /// the payload, or a count in it, passes 4294967295
    #[error("too long for a frame")]
    TooLong,
}

impl From<AllocError> for StageFault {
    ghost from_gives = { λ _ e. e ≡ out_of_memory };

    fn from(_: AllocError) -> StageFault {
        StageFault::OutOfMemory
    }
}

impl<T: Drop> From<AllocFailed<T>> for StageFault {
    ghost from_gives = { λ _ e. e ≡ out_of_memory };

    fn from(_: AllocFailed<T>) -> StageFault {
        StageFault::OutOfMemory
    }
}

/// Begins a frame: its type and its channel, and a hole for the payload's size.
fn start_frame(octets: &mut Vec<u8>, kind: FrameKind, channel: u16) -> Result<(), StageFault>
    ensures ok { OnOk result (octets.new.items ≡ octets.old.items ++ frame_start kind channel 0) }
    ensures err { IfErr result (λ e. e ≡ out_of_memory) }
    ensures same { OnErr result (octets.new.items ≡ octets.old.items) }
{
    let Ok(_) = begin_frame(kind, channel, octets) else {
        return Err(StageFault::OutOfMemory);
    };
    Ok(())
}

/// Ends the frame that was begun at a place. A frame that can't be ended is taken back.
fn end_frame(octets: &mut Vec<u8>, at: usize) -> Result<(), StageFault>
    requires { at + 7 ≤ length octets.old.items }
    ensures ok { OnOk result (FinishesFrame at octets.old.items octets.new.items) }
    ensures fits { OnOk result (length octets.old.items - (at + 7) < 2 ^ 32) }
    ensures too_long { result ≡ Err too_long → 2 ^ 32 ≤ length octets.old.items - (at + 7) }
    ensures back { OnErr result (octets.new.items ≡ take at octets.old.items) }
{
    if octets.len() - at - HEADER_LENGTH > u32::MAX as usize {
        octets.truncate(at);
        return Err(StageFault::TooLong);
    }
    let Ok(()) = finish_frame(at, octets) else {
        octets.truncate(at);
        return Err(StageFault::OutOfMemory);
    };
    Ok(())
}

/// What the fault of a payload is for its frame.
fn fault_of(fault: MethodFault) -> StageFault
    ensures { result ≡ too_long → fault ≢ method_faults.out_of_memory }
{
    match fault.kind {
        MethodFaultKind::OutOfMemory => StageFault::OutOfMemory,
        _ => StageFault::TooLong,
    }
}

/// Appends a frame with this method.
pub(crate) fn append_method(
    octets: &mut Vec<u8>,
    channel: u16,
    method: &Method,
) -> Result<(), StageFault>
    ensures ok { OnOk result (octets.new.items ≡ octets.old.items
        ++ encoded (method_frame channel (method_view method.now))) }
    ensures fits { OnOk result (length (plain_method (method_view method.now)) < 2 ^ 32) }
    ensures reads_back { OnOk result (ReadsBack (method_view method.now)) }
    ensures too_long { result ≡ Err too_long → length (plain_method (method_view method.now)) < 2 ^ 32
        → CountsAllFit (method_view method.now).args → ⊥ }
    ensures same { OnErr result (octets.new.items ≡ octets.old.items) }
{
    amqp_method::encoded_is_read();
    let at = octets.len();
    start_frame(octets, FrameKind::Method, channel)?;
    match write_method(method, octets) {
        Ok(()) => end_frame(octets, at),
        Err(fault) => {
            octets.truncate(at);
            Err(fault_of(fault))
        }
    }
}

/// Appends a frame with the header of a content: the size of its body, and its properties.
pub(crate) fn append_header(
    octets: &mut Vec<u8>,
    channel: u16,
    body_size: u64,
    properties: &Properties,
) -> Result<(), StageFault>
    ensures ok { OnOk result (octets.new.items ≡ octets.old.items
        ++ encoded (header_frame channel (header body_size (properties_view properties.now)))) }
    ensures fits { OnOk result (length (plain_header (header body_size (properties_view properties.now))) < 2 ^ 32) }
    ensures reads_back { OnOk result (HeaderReadsBack (header body_size (properties_view properties.now))) }
    ensures too_long { result ≡ Err too_long
        → length (plain_header (header body_size (properties_view properties.now))) < 2 ^ 32
        → CountsPresentFit (properties_view properties.now) → ⊥ }
    ensures same { OnErr result (octets.new.items ≡ octets.old.items) }
{
    amqp_method::encoded_is_read();
    let at = octets.len();
    start_frame(octets, FrameKind::Header, channel)?;
    match write_header_parts(body_size, properties, octets) {
        Ok(()) => end_frame(octets, at),
        Err(fault) => {
            octets.truncate(at);
            Err(fault_of(fault))
        }
    }
}

/// Appends a frame with this part of a body, copied once.
pub(crate) fn append_body(octets: &mut Vec<u8>, channel: u16, part: &[u8]) -> Result<(), StageFault>
    ensures ok { OnOk result (octets.new.items ≡ octets.old.items ++ encoded (body_frame channel part.now)) }
    ensures fits { OnOk result (length part.now < 2 ^ 32) }
    ensures too_long { result ≡ Err too_long → 2 ^ 32 ≤ length part.now }
    ensures same { OnErr result (octets.new.items ≡ octets.old.items) }
{
    let at = octets.len();
    start_frame(octets, FrameKind::Body, channel)?;
    let Ok(()) = octets.extend_from_slice(part) else {
        octets.truncate(at);
        return Err(StageFault::OutOfMemory);
    };
    end_frame(octets, at)
}

/// Appends a heartbeat.
pub(crate) fn append_heartbeat(octets: &mut Vec<u8>) -> Result<(), StageFault>
    ensures ok { OnOk result (octets.new.items ≡ octets.old.items ++ encoded heartbeat_frame) }
    ensures same { OnErr result (octets.new.items ≡ octets.old.items) }
{
    let at = octets.len();
    start_frame(octets, FrameKind::Heartbeat, 0)?;
    end_frame(octets, at)
}

/// The payload is that of a connection.close or a connection.close-ok.
fn names_close(payload: &[u8]) -> bool
    ensures { result ≡ names_leaving payload.now }
{
    match payload {
        [0, 10, 0, 50 | 51, ..] => true,
        _ => false,
    }
}

/// The slot of a frame, by its octets.
pub(crate) fn slot_for(kind: FrameKind, channel: u16, frame: &[u8]) -> Slot
    requires room { 8 ≤ length frame.now }
    requires fits { length frame.now < 2 ^ 32 + 8 }
    ensures { (f : Frame) → f.kind ≡ kind → f.channel ≡ channel → frame.now ≡ encoded f → result ≡ slot_of f }
{
    let payload = &frame[HEADER_LENGTH..frame.len() - 1];
    let leaving = match kind {
        FrameKind::Method => channel == 0 && names_close(payload),
        FrameKind::Header | FrameKind::Body | FrameKind::Heartbeat => false,
    };
    Slot {
        size: payload.len() as u32,
        channel,
        kind,
        leaving,
    }
}

/// Adds the slot of the frame that stands last, from a place on. Where there is no memory for it, the frame is taken
/// back.
pub(crate) fn enlist(
    octets: &mut Vec<u8>,
    slots: &mut Vec<Waiting>,
    at: usize,
    kind: FrameKind,
    channel: u16,
) -> Result<(), StageFault>
    requires room { at + 8 ≤ length octets.old.items }
    requires fits { length octets.old.items < at + 8 + 2 ^ 32 }
    ensures same { OnOk result (octets.new.items ≡ octets.old.items) }
    ensures slot { (f : Frame) → f.kind ≡ kind → f.channel ≡ channel → drop at octets.old.items ≡ encoded f
        → OnOk result (slots_in slots.new.items ≡ slots_in slots.old.items ++ slot_of f ∷ []) }
    ensures laps { OnOk result (laps_in slots.new.items ≡ laps_in slots.old.items ++ 0 ∷ []) }
    ensures err { IfErr result (λ e. e ≡ out_of_memory) }
    ensures back { OnErr result (octets.new.items ≡ take at octets.old.items) }
    ensures slots_same { OnErr result (slots.new.items ≡ slots.old.items) }
{
    let slot = slot_for(kind, channel, &octets[at..]);
    let Ok(()) = add_slot(slots, slot) else {
        octets.truncate(at);
        return Err(StageFault::OutOfMemory);
    };
    Ok(())
}

/// Adds a slot. The first one gets room for itself alone: an idle end has no more of them at a time.
fn add_slot(slots: &mut Vec<Waiting>, slot: Slot) -> Result<(), StageFault>
    ensures slots { OnOk result (slots_in slots.new.items ≡ slots_in slots.old.items ++ slot ∷ []) }
    ensures laps { OnOk result (laps_in slots.new.items ≡ laps_in slots.old.items ++ 0 ∷ []) }
    ensures same { OnErr result (slots.new.items ≡ slots.old.items) }
{
    if slots.is_empty() {
        slots.reserve_exact(1)?;
    }
    slots.push(Waiting { slot, lap: 0 })?;
    Ok(())
}
