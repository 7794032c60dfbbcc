//! The events that an end reports to its application, and the closes that it puts of itself.
ghost use Rattle.std.specs.Prelude.{◌≡◌, Some, IfOk};
ghost use Rattle.amqp_model.specs.Wire.Methods.{octets_at};
ghost use Rattle.amqp_method.specs.MethodRefView.{lent_call};
ghost use Rattle.amqp_model.specs.End.Events.{event_channel, reason_in};
ghost use Rattle.amqp_channel.specs.Events.EventView.{event_view, reason_there};
ghost use Rattle.amqp_channel.specs.Events.Closes.{reason_view, IsClose};

use amqp_method::{Kind, Message, MethodRef, OutOfMemory};
use amqp_value::ShortStr;
use std::alloc::Global;

/// What tune-ok settles.
///
/// The heartbeat stands before the frame size, where it fills a gap: each verdict carries what was agreed.
#[derive(Clone, Copy, PartialEq, Eq, Debug)]
pub struct Agreed {
    /// The greatest channel number.
    pub channel_max: u16,
    /// The heartbeat, in seconds: each end puts a frame at least so often. 0 is none.
    pub heartbeat: u16,
    /// The greatest length of a frame, all its octets counted.
    pub frame_max: u32,
}

/// The code and the text of a close.
///
/// The text comes first, so that in an event its words lie over those of a method's arguments, and all are moved word by word.
#[derive(PartialEq, Eq, Debug, Drop)]
pub struct Reason {
    pub text: ShortStr,
    pub code: u16,
}

/// What an end reports of the frames that it takes.
#[derive(PartialEq, Eq, Debug, Drop)]
pub enum Event {
    /// A gated client took start: its application is to answer it.
    AnswerAsked,
    /// A gated server took start-ok: its application is to admit the login or to refuse it.
    LoginAsked,
    /// A gated server took open: its application is to admit the client to the virtual host or to refuse it.
    OpenAsked,
    /// The handshake is over.
    Negotiated(Agreed),
    /// A channel's life begins.
    Opened(u16),
    /// A method without content, or a content that is whole now.
    Told(u16, Message),
    /// The other end asks that contents be sent, or no more of them.
    Flow(u16, bool),
    /// The other end answers a flow.
    FlowOk(u16, bool),
    /// A channel's life ended: by the other end's close, which has a reason, or with close-ok.
    ChannelClosed(u16, Option<Reason>),
    /// The connection ended, likewise.
    ConnectionClosed(Option<Reason>),
    /// A frame was dropped after this end's close, or a content was refused at its header.
    Discarded(u16),
    /// The server takes no more contents, for this reason.
    Blocked(ShortStr),
    /// The server takes contents again.
    Unblocked,
    /// A step of the handshake, a heartbeat, or a close that crosses this end's own.
    Quiet,
}

impl Reason {
    /// An equal reason.
    pub fn copy(&self) -> Result<Reason, OutOfMemory>
        ensures { IfOk result (λ reason. reason_view reason ≡ reason_view self.now) }
    {
        let text = self.text.copy()?;
        Ok(Reason {
            text,
            code: self.code,
        })
    }
}

/// An equal reason, if there is one.
fn copy_reason(reason: &Option<Reason>) -> Result<Option<Reason>, OutOfMemory>
    ensures { IfOk result (λ copy. reason_there copy ≡ reason_there reason.now) }
{
    match reason {
        Some(reason) => Ok(Some(reason.copy()?)),
        None => Ok(None),
    }
}

impl Event {
    /// The number of the channel that it is about, or 0 where it is about the connection.
    pub fn channel(&self) -> u16
        ensures { result ≡ event_channel (event_view self.now) }
    {
        match self {
            Event::Opened(channel) | Event::Told(channel, _) | Event::Flow(channel, _) => *channel,
            Event::FlowOk(channel, _) | Event::ChannelClosed(channel, _) => *channel,
            Event::Discarded(channel) => *channel,
            _ => 0,
        }
    }

    /// An equal event.
    pub fn copy(&self) -> Result<Event, OutOfMemory>
        ensures { IfOk result (λ event. event_view event ≡ event_view self.now) }
    {
        let copied = match self {
            Event::AnswerAsked => Event::AnswerAsked,
            Event::LoginAsked => Event::LoginAsked,
            Event::OpenAsked => Event::OpenAsked,
            Event::Negotiated(agreed) => Event::Negotiated(*agreed),
            Event::Opened(channel) => Event::Opened(*channel),
            Event::Told(channel, message) => Event::Told(*channel, message.copy()?),
            Event::Flow(channel, active) => Event::Flow(*channel, *active),
            Event::FlowOk(channel, active) => Event::FlowOk(*channel, *active),
            Event::ChannelClosed(channel, reason) => {
                Event::ChannelClosed(*channel, copy_reason(reason)?)
            }
            Event::ConnectionClosed(reason) => Event::ConnectionClosed(copy_reason(reason)?),
            Event::Discarded(channel) => Event::Discarded(*channel),
            Event::Blocked(reason) => Event::Blocked(reason.copy()?),
            Event::Unblocked => Event::Unblocked,
            Event::Quiet => Event::Quiet,
        };
        Ok(copied)
    }
}

/// The text of these octets, which are those of a short string: it fails for memory alone.
fn text_of(alloc: Global, octets: &[u8]) -> Result<ShortStr, OutOfMemory>
    ensures { IfOk result (λ text. text ≡ octets.now) }
{
    match ShortStr::new(alloc, octets) {
        Ok(text) => Ok(text),
        Err(_) => Err(OutOfMemory),
    }
}

/// The reason in a close that lies in its payload.
#[tactic(auto, using(crate::proofs::ArgumentLemmas::of_close))]
pub fn lent_reason(alloc: Global, method: MethodRef<'_>) -> Result<Reason, OutOfMemory>
    requires { IsClose (lent_call method).kind }
    ensures { IfOk result (λ r. reason_view r ≡ reason_in (lent_call method.entry)) }
{
    // The arguments are of the kinds of their fields: a number of 16 bits and a short string come first.
    let _args = method.args();
    let Some(code) = method.short_at(0) else {
        unreachable!()
    };
    let Some(octets) = method.short_str_at(1) else {
        unreachable!()
    };
    let text = text_of(alloc, octets)?;
    Ok(Reason { text, code })
}

/// The reason in a connection.blocked that lies in its payload.
#[tactic(auto, using(crate::proofs::ArgumentLemmas::of_blocked))]
pub fn lent_blocked_reason(alloc: Global, method: MethodRef<'_>) -> Result<ShortStr, OutOfMemory>
    requires { (lent_call method).kind ≡ Kind.ConnectionBlocked }
    ensures { IfOk result (λ text. text ≡ octets_at 0 (lent_call method.entry)) }
{
    let _args = method.args();
    let Some(octets) = method.short_str_at(0) else {
        unreachable!()
    };
    text_of(alloc, octets)
}
