//! The events of an end that lends: the parts of a frame as they lie in its octets.
ghost use Rattle.std.specs.Prelude.{◌≡◌, IsTrue, Some};
ghost use Rattle.amqp_method.specs.MethodRefView.{lent_call};
ghost use Rattle.amqp_model.specs.End.Events.{reason_in};
ghost use Rattle.amqp_model.specs.Wire.Methods.{octets_at};
ghost use Rattle.amqp_channel.specs.Events.Closes.{IsClose};
ghost use Rattle.amqp_core.specs.Stream.EventRefView.{blocked_lent, channel_close_lent, close_lent, event_ref_there};
ghost use Rattle.amqp_core.specs.Stream.EventRefView.{event_ref_view, is_close_kind, method_lent, reason_ref_view};
ghost use Rattle.amqp_model.specs.Lent.Alike.{lent_channel, part_lent};
ghost use Rattle.amqp_channel.specs.ReadingView.{reading_view};

use amqp_channel::words::same;
use amqp_channel::{Agreed, Reading};
use amqp_method::{HeaderRef, Kind, MethodRef};

/// The code and the text of a close, as they lie in it.
#[derive(Clone, Copy)]
pub struct ReasonRef<'a> {
    pub code: u16,
    pub text: &'a [u8],
}

/// What an end reports of a frame that it takes, lent from the octets of the frame.
///
/// Each frame of a content is an event as it comes: the method that begins it, its header, and the parts of its body. With
/// the last of them the content is whole.
#[derive(Clone, Copy)]
pub enum EventRef<'a> {
    /// A gated client took start: its application is to answer it.
    AnswerAsked,
    /// A gated server took start-ok: its application is to admit the login or to refuse it.
    LoginAsked,
    /// A gated server took open: its application is to admit the client to the virtual host or to refuse it.
    OpenAsked,
    /// The handshake is over.
    Negotiated(Agreed),
    /// A channel's life begins.
    Opened(u16),
    /// A method without content.
    Method(u16, MethodRef<'a>),
    /// A method that begins a content.
    Begins(u16, MethodRef<'a>),
    /// The header of the content that was begun. The content is whole with it where its body has no octets.
    Heads(u16, HeaderRef<'a>, bool),
    /// A part of the body, and whether the content is whole with it.
    Part(u16, &'a [u8], bool),
    /// The other end asks that contents be sent, or no more of them.
    Flow(u16, bool),
    /// The other end answers a flow.
    FlowOk(u16, bool),
    /// A channel's life ended: by the other end's close, which has a reason, or with close-ok.
    ChannelClosed(u16, Option<ReasonRef<'a>>),
    /// The connection ended, likewise.
    ConnectionClosed(Option<ReasonRef<'a>>),
    /// A frame was dropped after this end's close, or a content was refused at its header.
    Discarded(u16),
    /// The server takes no more contents, for this reason.
    Blocked(&'a [u8]),
    /// The server takes contents again.
    Unblocked,
    /// A step of the handshake, a heartbeat, or a close that crosses this end's own.
    Quiet,
}

impl EventRef<'_> {
    /// The number of the channel that it is about, or 0 where it is about the connection.
    pub fn channel(self) -> u16
        ensures { result ≡ lent_channel (event_ref_view self.entry) }
    {
        match self {
            EventRef::Opened(number) | EventRef::Method(number, _) => number,
            EventRef::Begins(number, _) | EventRef::Heads(number, _, _) => number,
            EventRef::Part(number, _, _) | EventRef::Flow(number, _) => number,
            EventRef::FlowOk(number, _) | EventRef::ChannelClosed(number, _) => number,
            EventRef::Discarded(number) => number,
            _ => 0,
        }
    }
}

/// The reason in a close.
#[tactic(auto, using(crate::proofs::LentLemmas::of_close))]
fn reason_of<'a>(method: MethodRef<'a>) -> ReasonRef<'a>
    requires { IsClose (lent_call method).kind }
    ensures { reason_ref_view result ≡ reason_in (lent_call method.entry) }
{
    let _args = method.args();
    let Some(code) = method.short_at(0) else {
        unreachable!()
    };
    let Some(text) = method.short_str_at(1) else {
        unreachable!()
    };
    ReasonRef { code, text }
}

/// The reason in connection.blocked.
#[tactic(auto, using(crate::proofs::LentLemmas::of_blocked))]
fn blocked_reason<'a>(method: MethodRef<'a>) -> &'a [u8]
    requires { (lent_call method).kind ≡ Kind.ConnectionBlocked }
    ensures { result.now ≡ octets_at 0 (lent_call method.entry) }
{
    let _args = method.args();
    let Some(text) = method.short_str_at(0) else {
        unreachable!()
    };
    text
}

/// A method without content.
#[inline(always)]
pub(crate) fn lend_method<'a>(number: u16, reading: Reading<'a>) -> Option<EventRef<'a>>
    ensures { event_ref_there result ≡ method_lent number (reading_view reading.entry) }
{
    match reading {
        Reading::Method(method) => Some(EventRef::Method(number, method)),
        Reading::UnknownMethod => None,
        Reading::MalformedMethod => None,
        Reading::Header(_) => None,
        Reading::MalformedHeader => None,
        Reading::Body(_) => None,
        Reading::Heartbeat(_) => None,
    }
}

/// A frame of a content, and whether the content is whole with it.
#[inline(always)]
pub(crate) fn lend_part<'a>(number: u16, reading: Reading<'a>, whole: bool) -> Option<EventRef<'a>>
    ensures { event_ref_there result ≡ part_lent number (reading_view reading.entry) whole }
{
    match reading {
        Reading::Method(method) => Some(EventRef::Begins(number, method)),
        Reading::UnknownMethod => None,
        Reading::MalformedMethod => None,
        Reading::Header(header) => Some(EventRef::Heads(number, header, whole)),
        Reading::MalformedHeader => None,
        Reading::Body(octets) => Some(EventRef::Part(number, octets, whole)),
        Reading::Heartbeat(_) => None,
    }
}

/// Whether a method closes a channel or the connection.
#[tactic(auto, using(crate::proofs::KindLemmas::same_is))]
fn is_close(method: MethodRef<'_>) -> bool
    ensures value { result ≡ is_close_kind (lent_call method.entry) }
    ensures close { IsTrue result → IsClose (lent_call method.entry).kind }
{
    let kind = method.kind();
    same(kind, Kind::ChannelClose) || same(kind, Kind::ConnectionClose)
}

/// The other end's close of a channel.
pub(crate) fn lend_channel_close<'a>(number: u16, reading: Reading<'a>) -> Option<EventRef<'a>>
    ensures { event_ref_there result ≡ channel_close_lent number (reading_view reading.entry) }
{
    match reading {
        Reading::Method(method) => {
            if !is_close(method) {
                return None;
            }
            Some(EventRef::ChannelClosed(number, Some(reason_of(method))))
        }
        Reading::UnknownMethod => None,
        Reading::MalformedMethod => None,
        Reading::Header(_) => None,
        Reading::MalformedHeader => None,
        Reading::Body(_) => None,
        Reading::Heartbeat(_) => None,
    }
}

/// The other end's close of the connection.
pub(crate) fn lend_close<'a>(reading: Reading<'a>) -> Option<EventRef<'a>>
    ensures { event_ref_there result ≡ close_lent (reading_view reading.entry) }
{
    match reading {
        Reading::Method(method) => {
            if !is_close(method) {
                return None;
            }
            Some(EventRef::ConnectionClosed(Some(reason_of(method))))
        }
        Reading::UnknownMethod => None,
        Reading::MalformedMethod => None,
        Reading::Header(_) => None,
        Reading::MalformedHeader => None,
        Reading::Body(_) => None,
        Reading::Heartbeat(_) => None,
    }
}

/// The server's connection.blocked.
#[tactic(auto, using(crate::proofs::KindLemmas::same_is))]
pub(crate) fn lend_blocked<'a>(reading: Reading<'a>) -> Option<EventRef<'a>>
    ensures { event_ref_there result ≡ blocked_lent (reading_view reading.entry) }
{
    match reading {
        Reading::Method(method) => {
            if !same(method.kind(), Kind::ConnectionBlocked) {
                return None;
            }
            Some(EventRef::Blocked(blocked_reason(method)))
        }
        Reading::UnknownMethod => None,
        Reading::MalformedMethod => None,
        Reading::Header(_) => None,
        Reading::MalformedHeader => None,
        Reading::Body(_) => None,
        Reading::Heartbeat(_) => None,
    }
}
