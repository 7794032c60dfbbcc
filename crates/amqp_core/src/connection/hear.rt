//! What is kept of a frame for later: the method that the handshake awaited, and what a close of the other end is about.
ghost use Rattle.std.specs.Prelude.{◌≡◌, true, ℕ, None, Option, OnErr, OnOk};
ghost use Rattle.amqp_channel.specs.ReadingView.{reading_view};
ghost use Rattle.amqp_model.specs.End.Channels.{Channel, Phase, Running};
ghost use Rattle.amqp_model.specs.End.Heard.{heard_after};
ghost use Rattle.amqp_core.specs.Connection.Dropping.{DropsReading};
ghost use Rattle.amqp_core.specs.Heard.View.{cause_here, cause_there, closes_by, goes_by, heard_here, heard_view, methods_view, notice_closes, said_by, told_closes};
ghost use Rattle.amqp_core.specs.Connection.Rulings.{OnChannel, OnConnection};
ghost use Rattle.amqp_core.specs.Connection.Stages.{phase_at};
ghost use Rattle.amqp_core.specs.Connection.Verdicts.{FitsEventOf};

use crate::connection::Connection;
use crate::faults::OutOfMemory;
use crate::heard::{Cause, Heard};
use crate::verdict::{Notice, Verdict};
use amqp_channel::{Reading, Told, Verdict as ChannelVerdict};

/// Whether this event is a close of the other end, of a channel.
#[inline(always)]
fn is_close_told(told: Told) -> bool
    ensures { result ≡ told_closes told }
{
    match told {
        Told::ClosedByPeer => true,
        Told::Method
        | Told::Begun
        | Told::Headed
        | Told::Continued
        | Told::Completed
        | Told::Opened
        | Told::Flow(_)
        | Told::FlowOk(_)
        | Told::ClosedByUs
        | Told::Discarded
        | Told::Quiet => false,
    }
}

/// Whether this event is a close of the other end, of the connection.
fn is_close_noticed(notice: Notice) -> bool
    ensures { result ≡ notice_closes notice }
{
    match notice {
        Notice::ClosedByPeer => true,
        Notice::Quiet
        | Notice::Discarded
        | Notice::AnswerAsked
        | Notice::LoginAsked
        | Notice::OpenAsked
        | Notice::Negotiated(_)
        | Notice::ClosedByUs
        | Notice::Blocked
        | Notice::Unblocked => false,
    }
}

/// Whether the frame is a close of the other end, of its channel, that has an event.
#[inline(always)]
fn closes_on(verdict: ChannelVerdict) -> bool
    ensures { result ≡ closes_by (OnChannel verdict) }
{
    match verdict {
        ChannelVerdict::Proceeds(told, _) => is_close_told(told),
        ChannelVerdict::RefusesContent => false,
        ChannelVerdict::Faults(_) => false,
    }
}

impl Verdict {
    /// Whether the end goes on with the frame.
    pub(crate) fn goes_on(self) -> bool
        ensures { result ≡ goes_by (OnConnection self) }
    {
        match self {
            Verdict::Proceeds { .. } => true,
            Verdict::Faults(_) => false,
        }
    }

    /// Whether the frame is a close of the other end that has an event.
    fn closes(self) -> bool
        ensures { result ≡ closes_by (OnConnection self) }
    {
        match self {
            Verdict::Proceeds { notice, .. } => is_close_noticed(notice),
            Verdict::Faults(_) => false,
        }
    }
}

/// What a close of this verdict is about, if the frame is one, of its channel.
#[inline(always)]
#[tactic(auto, using(crate::proofs::HeardLemmas::is_close))]
fn cause_on(reading: Reading<'_>, verdict: ChannelVerdict) -> Option<Cause>
    requires { FitsEventOf (reading_view reading) (OnChannel verdict) }
    ensures { cause_there result ≡ cause_here (reading_view reading.entry) (closes_by (OnChannel verdict)) }
{
    if !closes_on(verdict) {
        return None;
    }
    let Reading::Method(method) = reading else {
        return None;
    };
    Some(Cause::of(method))
}

/// What a close of this verdict is about, if the frame is one, of the connection.
#[tactic(auto, using(crate::proofs::HeardLemmas::is_close))]
fn cause_of(reading: Reading<'_>, verdict: Verdict) -> Option<Cause>
    requires { FitsEventOf (reading_view reading) (OnConnection verdict) }
    ensures { cause_there result ≡ cause_here (reading_view reading.entry) (closes_by (OnConnection verdict)) }
{
    if !verdict.closes() {
        return None;
    }
    let Reading::Method(method) = reading else {
        return None;
    };
    Some(Cause::of(method))
}

/// Keeps of a frame of a channel with this verdict what an application may ask for later. Most frames leave it as it
/// is.
#[inline(always)]
pub(crate) fn keep_cause(reading: Reading<'_>, verdict: ChannelVerdict, heard: &mut Heard)
    requires { FitsEventOf (reading_view reading) (OnChannel verdict) }
    ensures { (number : ℕ) → heard_view heard.new
        ≡ said_by Running number (reading_view reading.entry) (OnChannel verdict) (heard_view heard.old) }
{
    if let Some(cause) = cause_on(reading, verdict) {
        heard.closed_for = Some(cause);
    }
}

impl Connection {
    /// The method that the handshake awaits, if the frame is it and the end goes on with it, is kept.
    fn keep_awaited(
        &self,
        number: u16,
        reading: Reading<'_>,
        verdict: Verdict,
        heard: &mut Heard,
    ) -> Result<(), OutOfMemory>
        ensures methods { OnOk result (methods_view heard.new ≡ heard_after
            (heard_here (phase_at self.now.stage) number (reading_view reading.entry) (goes_by (OnConnection verdict)))
            (methods_view heard.old)) }
        ensures cause { heard.new.closed_for ≡ heard.old.closed_for }
        ensures light { OnErr result ((phase : Phase) (channel : Channel)
            → DropsReading phase channel number (reading_view reading.entry) → ⊥) }
    {
        let Reading::Method(method) = reading else {
            return Ok(());
        };
        if self.stage.awaits(method.kind()) && number == 0 && verdict.goes_on() {
            let method = method.to_owned(self.alloc)?;
            heard.keep(self.stage, method)?;
        }
        Ok(())
    }

    /// Keeps of a frame of the connection with this verdict what an application may ask for later.
    pub(crate) fn keep_said(
        &self,
        number: u16,
        reading: Reading<'_>,
        verdict: Verdict,
        heard: &mut Heard,
    ) -> Result<(), OutOfMemory>
        requires fits { FitsEventOf (reading_view reading) (OnConnection verdict) }
        ensures heard { OnOk result (heard_view heard.new
            ≡ said_by (phase_at self.now.stage) number (reading_view reading.entry) (OnConnection verdict)
            (heard_view heard.old)) }
        ensures light { OnErr result ((phase : Phase) (channel : Channel)
            → DropsReading phase channel number (reading_view reading.entry) → ⊥) }
    {
        self.keep_awaited(number, reading, verdict, heard)?;
        if let Some(cause) = cause_of(reading, verdict) {
            heard.closed_for = Some(cause);
        }
        Ok(())
    }
}
