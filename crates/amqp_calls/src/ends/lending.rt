//! Octets fed to an end whose events lend.
ghost use Rattle.std.specs.Prelude.{◌≡◌};
ghost use Rattle.std.specs.Borrow.{sem};
ghost use Rattle.std.specs.Io.BufRead.{Rests};
ghost use Rattle.amqp_core.specs.Stream.EventRefView.{event_ref_there, event_ref_view, reason_ref_there};
ghost use Rattle.amqp_core.specs.contracts.stream.StreamEnd as stream_row;
ghost use Rattle.amqp_handle.specs.contracts.kept.Kept as kept_row;
ghost use Rattle.amqp_calls.specs.LentEvents.{FeedsOne, lent_seen, LendsKept, LentAnswer, TellsEvent, TellsLent, TellsMaybe, TellsReason};

use crate::ends::events::SeenEvent;
use crate::ends::feeding::{FedEnd, tell_fault};
use amqp_core::{CoreFault, EventRef, ReasonRef, Role, Step, StreamEnd};
use amqp_handle::{HandleFault, Kept};

/// The numbers of the events that a lending end alone has: a method that begins a content, the content's header, and
/// a part of its body.
pub(crate) const BEGINS: u8 = 15;

pub(crate) const HEADS: u8 = 16;

pub(crate) const PART: u8 = 17;

/// A lending end that took octets of a piece, and what came of them.
#[derive(Clone, Copy)]
pub(crate) struct Lent<'a, R: Role> {
    pub(crate) end: &'a StreamEnd<R>,
    pub(crate) step: Step<'a>,
}

#[inline(always)]
fn show_reason<'a>(reason: Option<ReasonRef<'a>>, out: &mut SeenEvent<'a>)
    ensures reason { TellsReason (reason_ref_there reason.entry) out.new }
    ensures kind { out.new.kind ≡ out.old.kind }
    ensures channel { out.new.channel ≡ out.old.channel }
{
    match reason {
        Some(reason) => {
            out.holds = true;
            out.code = reason.code;
            out.text = reason.text;
        }
        None => out.holds = false,
    }
}

#[inline(always)]
fn on_channel<'a>(kind: u8, channel: u16, out: &mut SeenEvent<'a>)
    ensures { (out.new.kind ≡ kind) × (out.new.channel ≡ channel) }
{
    out.kind = kind;
    out.channel = channel;
}

/// Shows an event that lends. What an event of its kind hasn't stays as it is.
#[inline(always)]
pub(crate) fn show<'a>(event: EventRef<'a>, out: &mut SeenEvent<'a>)
    ensures { TellsEvent (event_ref_view event.entry) out.new }
{
    match event {
        EventRef::Method(channel, method) => {
            on_channel(3, channel, out);
            out.method = method.payload();
            out.holds = false;
        }
        EventRef::Begins(channel, method) => {
            on_channel(BEGINS, channel, out);
            out.method = method.payload();
        }
        EventRef::Heads(channel, header, whole) => {
            on_channel(HEADS, channel, out);
            out.header = header.payload();
            out.holds = whole;
        }
        EventRef::Part(channel, octets, whole) => {
            on_channel(PART, channel, out);
            out.body = octets;
            out.holds = whole;
        }
        EventRef::Negotiated(agreed) => {
            out.kind = 1;
            out.channel_max = agreed.channel_max;
            out.frame_max = agreed.frame_max;
            out.heartbeat = agreed.heartbeat;
        }
        EventRef::Opened(channel) => on_channel(2, channel, out),
        EventRef::Flow(channel, active) => {
            on_channel(4, channel, out);
            out.holds = active;
        }
        EventRef::FlowOk(channel, active) => {
            on_channel(5, channel, out);
            out.holds = active;
        }
        EventRef::ChannelClosed(channel, reason) => {
            on_channel(6, channel, out);
            show_reason(reason, out);
        }
        EventRef::ConnectionClosed(reason) => {
            out.kind = 7;
            show_reason(reason, out);
        }
        EventRef::Discarded(channel) => on_channel(8, channel, out),
        EventRef::Blocked(reason) => {
            out.kind = 9;
            out.text = reason;
        }
        EventRef::Unblocked => out.kind = 10,
        EventRef::Quiet => out.kind = 11,
        EventRef::AnswerAsked => out.kind = 12,
        EventRef::LoginAsked => out.kind = 13,
        EventRef::OpenAsked => out.kind = 14,
    }
}

/// What an end answers to a piece.
#[inline(always)]
fn lend<'a, R: Role>(
    kept: &'a mut Kept<StreamEnd<R>>,
    piece: &'a [u8],
) -> Result<Lent<'a, R>, CoreFault>
    ensures answers { LentAnswer kept.old.end.value piece.now (lent_seen result) }
    ensures* after { sem 𝓛 (Rests (kept_row.the_row (stream_row.the_row R.row R.Hello.row R.Role)) kept.entry
        (λ new. LendsKept kept.old piece.now (lent_seen result) new)) }
{
    match kept.end.advance(piece) {
        Ok(step) => {
            let kept: &'a Kept<StreamEnd<R>> = kept;
            Ok(Lent {
                end: &kept.end,
                step,
            })
        }
        Err(fault) => Err(fault),
    }
}

/// Shows an event, if there is one.
#[inline(always)]
fn tell_event<'a>(event: Option<EventRef<'a>>, fed: &mut FedEnd, out: &mut SeenEvent<'a>)
    ensures event { TellsMaybe (event_ref_there event.entry) fed.new out.new }
    ensures taken { fed.new.taken ≡ fed.old.taken }
{
    match event {
        Some(event) => {
            show(event, out);
            fed.kind = out.kind;
        }
        None => fed.kind = 0,
    }
}

/// What came of a piece, as it is reported.
#[inline(always)]
fn tell<'a, R: Role>(
    answer: Result<Lent<'a, R>, CoreFault>,
    fed: &mut FedEnd,
    out: &mut SeenEvent<'a>,
) -> u32
    ensures { TellsLent (lent_seen answer.entry) result fed.new out.new }
{
    match answer {
        Ok(lent) => {
            fed.taken = lent.step.octets;
            tell_event(lent.end.event(lent.step), fed, out);
            0
        }
        Err(fault) => tell_fault(fault, fed),
    }
}

/// Feeds an end, if it lends its events.
#[inline(always)]
pub fn lend_one<'a, R: Role>(
    kept: &'a mut Kept<StreamEnd<R>>,
    piece: &'a [u8],
    fed: &mut FedEnd,
    out: &mut SeenEvent<'a>,
) -> u32
    ensures { FeedsOne kept.old piece.now result fed.new out.new }
{
    if kept.gathering.is_some() {
        return HandleFault::OtherKind.number();
    }
    tell(lend(kept, piece), fed, out)
}
