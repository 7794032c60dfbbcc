//! What is asked of the end of a handle: asks, controls, messages and contents.
ghost use Rattle.amqp_calls.specs.BegunContents.{BeginsEnd};
ghost use Rattle.amqp_calls.specs.Closing.{ClosesEnd};
ghost use Rattle.amqp_calls.specs.EndAsks.{AsksEnd, ControlsEnd};
ghost use Rattle.amqp_calls.specs.LentContents.{LendsEnd};
ghost use Rattle.amqp_calls.specs.Sending.{SendsEnd};

use amqp_calls::ends::asking::{GivenAsk, ask_one};
use amqp_calls::ends::beginning::begin_with;
use amqp_calls::ends::closing::{GivenClose, close_one};
use amqp_calls::ends::controlling::{GivenControl, control_one};
use amqp_calls::ends::sending::send_one;
use amqp_calls::ends::slices::{Piece, lend_with};
use amqp_handle::{EndSlot, HandleFault, HeldEnd, Slot};
use std::alloc::Global;

/// Asks something of the end of a handle, as `End::ask` does.
#[unsafe(no_mangle)]
pub extern "C" fn proved_end_ask(
    slot: &mut EndSlot,
    alloc: Global,
    given: &GivenAsk<'_>,
    channel: &mut u16,
) -> u32
    ensures { AsksEnd slot.old.value given.now result channel.new slot.new.value }
{
    if !slot.is_open() {
        return HandleFault::NotOpen.number();
    }
    match slot.held() {
        HeldEnd::Client(kept) => ask_one(alloc, kept, given, channel),
        HeldEnd::Server(kept) => ask_one(alloc, kept, given, channel),
    }
}

/// Puts a heartbeat, or what the application decides, at the end of a handle, as `End::beat` and the calls beside it
/// do.
#[unsafe(no_mangle)]
pub extern "C" fn proved_end_control(
    slot: &mut EndSlot,
    alloc: Global,
    given: &GivenControl<'_>,
) -> u32
    ensures { ControlsEnd slot.old.value given.now result slot.new.value }
{
    if !slot.is_open() {
        return HandleFault::NotOpen.number();
    }
    match slot.held() {
        HeldEnd::Client(kept) => control_one(alloc, kept, given),
        HeldEnd::Server(kept) => control_one(alloc, kept, given),
    }
}

/// Closes a channel or the connection for a method, as `End::close_channel_for` and `End::close_for` do.
#[unsafe(no_mangle)]
pub extern "C" fn proved_end_close_for(
    slot: &mut EndSlot,
    alloc: Global,
    given: &GivenClose<'_>,
) -> u32
    ensures { ClosesEnd slot.old.value given.now result slot.new.value }
{
    if !slot.is_open() {
        return HandleFault::NotOpen.number();
    }
    match slot.held() {
        HeldEnd::Client(kept) => close_one(alloc, kept, given),
        HeldEnd::Server(kept) => close_one(alloc, kept, given),
    }
}

/// Sends a message through the end of a handle, as `End::send` and `End::send_content` do: by the payloads of its
/// method and of its content header, and its body. The last two are empty where no content follows.
#[unsafe(no_mangle)]
pub extern "C" fn proved_end_send(
    slot: &mut EndSlot,
    alloc: Global,
    channel: u16,
    method: &[u8],
    header: &[u8],
    body: &[u8],
) -> u32
    ensures { SendsEnd slot.old.value channel method.now header.now body.now result slot.new.value }
{
    if !slot.is_open() {
        return HandleFault::NotOpen.number();
    }
    match slot.held() {
        HeldEnd::Client(kept) => send_one(alloc, kept, channel, method, header, body),
        HeldEnd::Server(kept) => send_one(alloc, kept, channel, method, header, body),
    }
}

/// Begins a content through the end of a handle, as `StreamEnd::begin_content` does, by the payloads of its method and
/// of its header, which says how long the body will be. What is to be written first, and the writer of the body, go to
/// the handle of a content.
#[unsafe(no_mangle)]
pub extern "C" fn proved_end_begin_content(
    slot: &mut EndSlot,
    content: &mut Slot,
    alloc: Global,
    channel: u16,
    method: &[u8],
    header: &[u8],
) -> u32
    ensures { BeginsEnd slot.old.value content.old.value channel method.now header.now result slot.new.value
        content.new.value }
{
    if !slot.is_open() {
        return HandleFault::NotOpen.number();
    }
    match slot.held() {
        HeldEnd::Client(kept) => begin_with(alloc, kept, content, channel, method, header),
        HeldEnd::Server(kept) => begin_with(alloc, kept, content, channel, method, header),
    }
}

/// Has the end of a handle lend a content, as `StreamEnd::lend_content` does, by the payloads of its method and of its
/// header, and its body. What stands around the parts of the body goes to the handle of a content.
#[unsafe(no_mangle)]
pub extern "C" fn proved_end_lend_content<'a>(
    slot: &mut EndSlot,
    content: &'a mut Slot,
    alloc: Global,
    channel: u16,
    method: &[u8],
    header: &[u8],
    body: &'a [u8],
    pieces: &mut [Piece<'a>],
    count: &mut usize,
) -> u32
    ensures { LendsEnd slot.old.value content.old.value channel method.now header.now body.now pieces.old result
        count.new pieces.new slot.new.value }
{
    if !slot.is_open() {
        return HandleFault::NotOpen.number();
    }
    match slot.held() {
        HeldEnd::Client(kept) => lend_with(
            alloc, kept, content, channel, method, header, body, pieces, count,
        ),
        HeldEnd::Server(kept) => lend_with(
            alloc, kept, content, channel, method, header, body, pieces, count,
        ),
    }
}
