//! Messages that C sends, given by their octets.
ghost use Rattle.std.specs.Prelude.{◌≡◌, true, false};
ghost use Rattle.amqp_method.specs.HeaderView.{header_view, properties_view};
ghost use Rattle.amqp_method.specs.Kinds.{has_content};
ghost use Rattle.amqp_method.specs.Messages.{letter_alone, letter_with};
ghost use Rattle.amqp_method.specs.MethodView.{method_view};
ghost use Rattle.amqp_calls.specs.Sending.{SendsCall, SendsKept, SentKept, SizedOne};

use crate::codec::statuses::MISFIT;
use crate::ends::messages::{own_header, own_method};
use crate::ends::numbers::asked;
use amqp_core::{Role, StreamEnd};
use amqp_handle::Kept;
use amqp_method::{Header, Message, Method, Properties};
use std::alloc::Global;

/// Sends a method that no content follows.
fn send_alone<R: Role>(kept: &mut Kept<StreamEnd<R>>, channel: u16, method: Method) -> u32
    requires { has_content (method_view method).kind ≡ false }
    ensures { SentKept kept.old channel (letter_alone (method_view method)) result kept.new }
{
    let message = Message::plain(method);
    let answer = asked(kept.end.send(channel, &message));
    drop(message);
    answer
}

/// Sends a method with its content. The body is copied into the output alone.
fn send_whole<R: Role>(
    kept: &mut Kept<StreamEnd<R>>,
    channel: u16,
    method: &Method,
    properties: &Properties,
    body: &[u8],
) -> u32
    requires { has_content (method_view method.now).kind ≡ true }
    ensures { SentKept kept.old channel (letter_with (method_view method.now) (properties_view properties.now)
        body.now) result kept.new }
{
    asked(kept.end.send_content(channel, method, properties, body))
}

/// Sends a method with its content, if the header says the body's size.
fn send_sized<R: Role>(
    kept: &mut Kept<StreamEnd<R>>,
    channel: u16,
    method: &Method,
    header: &Header,
    body: &[u8],
) -> u32
    requires { has_content (method_view method.now).kind ≡ true }
    ensures { SizedOne kept.old channel (method_view method.now) (header_view header.now) body.now result
        kept.new }
{
    if header.body_size != body.len() as u64 {
        return MISFIT;
    }
    send_whole(kept, channel, method, &header.properties, body)
}

/// Sends a method with the content whose header has this payload.
fn send_content<R: Role>(
    alloc: Global,
    kept: &mut Kept<StreamEnd<R>>,
    channel: u16,
    method: &Method,
    header: &[u8],
    body: &[u8],
) -> u32
    requires { has_content (method_view method.now).kind ≡ true }
    ensures { SendsCall kept.old channel (method_view method.now) header.now body.now result kept.new }
{
    match own_header(alloc, header) {
        Ok(made) => {
            let answer = send_sized(kept, channel, method, &made, body);
            drop(made);
            answer
        }
        Err(fault) => fault.number(),
    }
}

/// Sends a method, with a content if one follows it.
fn send_method<R: Role>(
    alloc: Global,
    kept: &mut Kept<StreamEnd<R>>,
    channel: u16,
    method: Method,
    header: &[u8],
    body: &[u8],
) -> u32
    ensures { SendsCall kept.old channel (method_view method) header.now body.now result kept.new }
{
    if method.has_content() {
        return send_content(alloc, kept, channel, &method, header, body);
    }
    if !header.is_empty() {
        return MISFIT;
    }
    if !body.is_empty() {
        return MISFIT;
    }
    send_alone(kept, channel, method)
}

/// Sends the message of these octets.
pub fn send_one<R: Role>(
    alloc: Global,
    kept: &mut Kept<StreamEnd<R>>,
    channel: u16,
    method: &[u8],
    header: &[u8],
    body: &[u8],
) -> u32
    ensures { SendsKept kept.old channel method.now header.now body.now result kept.new }
{
    match own_method(alloc, method) {
        Ok(made) => send_method(alloc, kept, channel, made, header, body),
        Err(fault) => fault.number(),
    }
}
