//! What the end of a handle answers of itself, of its channels and of its peer.
ghost use Rattle.amqp_calls.specs.Blaming.{BlamesEnd, LineOfEnd};
ghost use Rattle.amqp_calls.specs.EndAnswers.{ChannelOfEnd, LooksEnd, WaitsOnEnd};
ghost use Rattle.amqp_calls.specs.Hearing.{CausesEnd, ForgetsEnd, HearsEnd};

use amqp_calls::codec::writing::Written;
use amqp_calls::ends::answers::{ChannelTold, EndLook, look, tell_channel};
use amqp_calls::ends::blaming::{BlameTold, tell_blame, write_blame};
use amqp_calls::ends::hearing::{CauseTold, forget, tell_cause, write_kind};
use amqp_handle::{EndSlot, HandleFault, HeldEnd};
use std::alloc::Global;

/// What an end answers of itself.
#[unsafe(no_mangle)]
pub extern "C" fn proved_end_look(slot: &mut EndSlot, out: &mut EndLook) -> u32
    ensures { LooksEnd slot.old.value result out.new slot.new.value }
{
    if !slot.is_open() {
        return HandleFault::NotOpen.number();
    }
    match slot.held() {
        HeldEnd::Client(kept) => {
            *out = look(kept);
            0
        }
        HeldEnd::Server(kept) => {
            *out = look(kept);
            0
        }
    }
}

/// A channel's state, the octets gathered there, and the request that is due.
#[unsafe(no_mangle)]
pub extern "C" fn proved_end_channel(slot: &mut EndSlot, channel: u16, out: &mut ChannelTold) -> u32
    ensures { ChannelOfEnd slot.old.value channel result out.new slot.new.value }
{
    if !slot.is_open() {
        return HandleFault::NotOpen.number();
    }
    match slot.held() {
        HeldEnd::Client(kept) => {
            *out = tell_channel(kept, channel);
            0
        }
        HeldEnd::Server(kept) => {
            *out = tell_channel(kept, channel);
            0
        }
    }
}

/// How many octets wait of a channel, put and not sent.
#[unsafe(no_mangle)]
pub extern "C" fn proved_end_waiting(slot: &mut EndSlot, channel: u16, out: &mut usize) -> u32
    ensures { WaitsOnEnd slot.old.value channel result out.new slot.new.value }
{
    if !slot.is_open() {
        return HandleFault::NotOpen.number();
    }
    match slot.held() {
        HeldEnd::Client(kept) => {
            *out = kept.end.waiting(channel);
            0
        }
        HeldEnd::Server(kept) => {
            *out = kept.end.waiting(channel);
            0
        }
    }
}

/// Writes the payload of the method of this kind that the other end said in the handshake, as `End::heard` answers it.
#[unsafe(no_mangle)]
pub extern "C" fn proved_end_heard(
    slot: &mut EndSlot,
    alloc: Global,
    kind: u32,
    room: &mut [u8],
    out: &mut Written,
) -> u32
    ensures { HearsEnd slot.old.value kind room.old result out.new room.new slot.new.value }
{
    if !slot.is_open() {
        return HandleFault::NotOpen.number();
    }
    match slot.held() {
        HeldEnd::Client(kept) => write_kind(alloc, kept, kind, room, out),
        HeldEnd::Server(kept) => write_kind(alloc, kept, kind, room, out),
    }
}

/// Forgets what the other end said in the handshake, as `End::forget_heard` does.
#[unsafe(no_mangle)]
pub extern "C" fn proved_end_forget_heard(slot: &mut EndSlot) -> u32
    ensures { ForgetsEnd slot.old.value result slot.new.value }
{
    if !slot.is_open() {
        return HandleFault::NotOpen.number();
    }
    match slot.held() {
        HeldEnd::Client(kept) => {
            forget(kept);
            0
        }
        HeldEnd::Server(kept) => {
            forget(kept);
            0
        }
    }
}

/// What the last close of the other end was about, as `End::closed_for` answers.
#[unsafe(no_mangle)]
pub extern "C" fn proved_end_closed_for(slot: &mut EndSlot, out: &mut CauseTold) -> u32
    ensures { CausesEnd slot.old.value result out.new slot.new.value }
{
    if !slot.is_open() {
        return HandleFault::NotOpen.number();
    }
    match slot.held() {
        HeldEnd::Client(kept) => tell_cause(kept, out),
        HeldEnd::Server(kept) => tell_cause(kept, out),
    }
}

/// What was wrong where the end of a handle found fault, as `End::blame` answers.
#[unsafe(no_mangle)]
pub extern "C" fn proved_end_blame(slot: &mut EndSlot, out: &mut BlameTold) -> u32
    ensures { BlamesEnd slot.old.value result out.new slot.new.value }
{
    if !slot.is_open() {
        return HandleFault::NotOpen.number();
    }
    match slot.held() {
        HeldEnd::Client(kept) => tell_blame(kept, out),
        HeldEnd::Server(kept) => tell_blame(kept, out),
    }
}

/// Writes what was wrong as the line that a `Blame` is in a format string.
#[unsafe(no_mangle)]
pub extern "C" fn proved_end_blame_line(
    slot: &mut EndSlot,
    alloc: Global,
    room: &mut [u8],
    out: &mut Written,
) -> u32
    ensures { LineOfEnd slot.old.value room.old result out.new room.new slot.new.value }
{
    if !slot.is_open() {
        return HandleFault::NotOpen.number();
    }
    match slot.held() {
        HeldEnd::Client(kept) => write_blame(alloc, kept, room, out),
        HeldEnd::Server(kept) => write_blame(alloc, kept, room, out),
    }
}
