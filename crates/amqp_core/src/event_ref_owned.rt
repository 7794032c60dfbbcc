//! Events of one's own, made of events that lend.
ghost use Rattle.std.specs.Prelude.{◌≡◌, IfOk};
ghost use Rattle.amqp_channel.specs.Events.EventView.{event_there, message_of};
ghost use Rattle.amqp_method.specs.MessageView.{message_view};
ghost use Rattle.amqp_method.specs.MethodRefView.{lent_call};
ghost use Rattle.amqp_core.specs.Stream.EventRefOwned.{IsOwned, IsOwnedMessage, IsOwnedReason, IsOwnedText};
ghost use Rattle.amqp_core.specs.Stream.EventRefView.{event_ref_view, reason_ref_view};

use crate::event_ref::{EventRef, ReasonRef};
use crate::faults::OutOfMemory;
use amqp_channel::{Event, Reason};
use amqp_method::{Message, MethodRef};
use amqp_value::ShortStr;
use std::alloc::Global;

/// A text that is short enough.
fn own_text(alloc: Global, octets: &[u8]) -> Result<Option<ShortStr>, OutOfMemory>
    ensures { IfOk result (λ text. IsOwnedText octets.now text) }
{
    if octets.len() > 255 {
        return Ok(None);
    }
    match ShortStr::new(alloc, octets) {
        Ok(text) => Ok(Some(text)),
        Err(_) => Err(OutOfMemory),
    }
}

/// A reason whose text is short enough.
fn own_reason(alloc: Global, reason: ReasonRef<'_>) -> Result<Option<Reason>, OutOfMemory>
    ensures { IfOk result (λ owned. IsOwnedReason (reason_ref_view reason.entry) owned) }
{
    match own_text(alloc, reason.text)? {
        Some(text) => Ok(Some(Reason {
            text,
            code: reason.code,
        })),
        None => Ok(None),
    }
}

/// A method that no content follows.
fn own_message(alloc: Global, method: MethodRef<'_>) -> Result<Option<Message>, OutOfMemory>
    ensures { IfOk result (λ message. IsOwnedMessage (lent_call method.entry) message) }
{
    let Ok(method) = method.to_owned(alloc) else {
        return Err(OutOfMemory);
    };
    match Message::try_plain(method) {
        Ok(message) => Ok(Some(message)),
        Err(_) => Ok(None),
    }
}

impl EventRef<'_> {
    /// The event that [`End`](crate::End) tells of the same frame.
    ///
    /// There is none of a content's frames ([`EventRef::Begins`], [`EventRef::Heads`], [`EventRef::Part`]), which `End`
    /// reports together, and none of a reason above 255 octets, which no end lends.
    pub fn to_owned(self, alloc: Global) -> Result<Option<Event>, OutOfMemory>
        ensures { IfOk result (λ event. IsOwned (event_ref_view self.entry) (event_there event)) }
    {
        match self {
            EventRef::AnswerAsked => Ok(Some(Event::AnswerAsked)),
            EventRef::LoginAsked => Ok(Some(Event::LoginAsked)),
            EventRef::OpenAsked => Ok(Some(Event::OpenAsked)),
            EventRef::Negotiated(agreed) => Ok(Some(Event::Negotiated(agreed))),
            EventRef::Opened(channel) => Ok(Some(Event::Opened(channel))),
            EventRef::Method(channel, method) => match own_message(alloc, method)? {
                Some(message) => Ok(Some(Event::Told(channel, message))),
                None => Ok(None),
            },
            EventRef::Begins(_, _) => Ok(None),
            EventRef::Heads(_, _, _) => Ok(None),
            EventRef::Part(_, _, _) => Ok(None),
            EventRef::Flow(channel, active) => Ok(Some(Event::Flow(channel, active))),
            EventRef::FlowOk(channel, active) => Ok(Some(Event::FlowOk(channel, active))),
            EventRef::ChannelClosed(channel, None) => {
                Ok(Some(Event::ChannelClosed(channel, None)))
            }
            EventRef::ChannelClosed(channel, Some(reason)) => match own_reason(alloc, reason)? {
                Some(reason) => Ok(Some(Event::ChannelClosed(channel, Some(reason)))),
                None => Ok(None),
            },
            EventRef::ConnectionClosed(None) => Ok(Some(Event::ConnectionClosed(None))),
            EventRef::ConnectionClosed(Some(reason)) => match own_reason(alloc, reason)? {
                Some(reason) => Ok(Some(Event::ConnectionClosed(Some(reason)))),
                None => Ok(None),
            },
            EventRef::Discarded(channel) => Ok(Some(Event::Discarded(channel))),
            EventRef::Blocked(reason) => match own_text(alloc, reason)? {
                Some(reason) => Ok(Some(Event::Blocked(reason))),
                None => Ok(None),
            },
            EventRef::Unblocked => Ok(Some(Event::Unblocked)),
            EventRef::Quiet => Ok(Some(Event::Quiet)),
        }
    }
}
