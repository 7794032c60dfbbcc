//! Contents that C begins before their bodies are there.
ghost use Rattle.std.specs.Prelude.{◌≡◌, true};
ghost use Rattle.amqp_method.specs.HeaderView.{properties_view};
ghost use Rattle.amqp_method.specs.Kinds.{has_content};
ghost use Rattle.amqp_method.specs.MethodView.{method_view};
ghost use Rattle.amqp_calls.specs.BegunContents.{BeginsAfter, BeginsCall, BeginsKept, BeginsOne, BeginsWith, lend_status};

use crate::codec::statuses::MISFIT;
use crate::contents::left_of;
use crate::ends::messages::{own_header, own_method};
use crate::ends::numbers::ask_fault;
use amqp_core::{LendFault, Role, StreamEnd};
use amqp_handle::{Content, HandleFault, Held, Kept, Slot};
use amqp_method::{Header, Method};
use std::alloc::Global;

/// Octets are to be written before: of the end's output, or of the body that was begun.
pub(crate) const WAITS: u32 = 11;

/// The status of why nothing is lent.
pub(crate) fn lend_fault(fault: LendFault) -> u32
    ensures { result ≡ lend_status fault }
{
    match fault {
        LendFault::Refused(fault) => ask_fault(fault),
        LendFault::Waits => WAITS,
    }
}

/// Begins a content with this header.
fn begin<R: Role>(
    kept: &mut Kept<StreamEnd<R>>,
    content: &mut Content,
    channel: u16,
    method: &Method,
    header: &Header,
) -> u32
    requires { has_content (method_view method.now).kind ≡ true }
    ensures { BeginsKept kept.old content.old channel (method_view method.now) header.now.body_size
        (properties_view header.now.properties) result kept.new content.new }
{
    content.octets.clear();
    match kept.end.begin_content(
        channel,
        method,
        &header.properties,
        header.body_size,
        &mut content.octets,
    ) {
        Ok(writer) => {
            content.writer = Some(writer);
            0
        }
        Err(fault) => lend_fault(fault),
    }
}

/// Begins a content with the header of these octets.
fn begin_call<R: Role>(
    alloc: Global,
    kept: &mut Kept<StreamEnd<R>>,
    content: &mut Content,
    channel: u16,
    method: &Method,
    header: &[u8],
) -> u32
    requires { has_content (method_view method.now).kind ≡ true }
    ensures { BeginsCall kept.old content.old channel (method_view method.now) header.now result kept.new content.new }
{
    match own_header(alloc, header) {
        Ok(made) => {
            let answer = begin(kept, content, channel, method, &made);
            drop(made);
            answer
        }
        Err(fault) => fault.number(),
    }
}

/// Begins a content with the method, if a content follows it.
fn begin_after<R: Role>(
    alloc: Global,
    kept: &mut Kept<StreamEnd<R>>,
    content: &mut Content,
    channel: u16,
    method: &Method,
    header: &[u8],
) -> u32
    ensures { BeginsAfter kept.old content.old channel (method_view method.now) header.now result kept.new content.new }
{
    if !method.has_content() {
        return MISFIT;
    }
    begin_call(alloc, kept, content, channel, method, header)
}

/// Begins a content with the method and the header of these octets.
fn begin_one<R: Role>(
    alloc: Global,
    kept: &mut Kept<StreamEnd<R>>,
    content: &mut Content,
    channel: u16,
    method: &[u8],
    header: &[u8],
) -> u32
    ensures { BeginsOne kept.old content.old channel method.now header.now result kept.new content.new }
{
    if left_of(content) > 0 {
        return WAITS;
    }
    match own_method(alloc, method) {
        Ok(made) => begin_after(alloc, kept, content, channel, &made, header),
        Err(fault) => fault.number(),
    }
}

/// Begins a content with a handle, if it is one for contents.
pub fn begin_with<R: Role>(
    alloc: Global,
    kept: &mut Kept<StreamEnd<R>>,
    slot: &mut Slot,
    channel: u16,
    method: &[u8],
    header: &[u8],
) -> u32
    ensures { BeginsWith kept.old slot.old.value channel method.now header.now result kept.new slot.new.value }
{
    if !slot.is_open() {
        return HandleFault::NotOpen.number();
    }
    match slot.held() {
        Held::Content(content) => begin_one(alloc, kept, content, channel, method, header),
        Held::Splitter(_) => HandleFault::OtherKind.number(),
    }
}
