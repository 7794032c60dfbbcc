//! A frame that an end takes: what the rules say of it (`rules`) is carried out. The state changes, the event is made,
//! and what is owed is put.
ghost use Rattle.std.specs.Prelude.{◌≡◌, ◌<◌, true, false, ℕ, [], map, Some, None, Option, IfOk, IfSome, IsOk, OnErr, OnOk};
ghost use Rattle.amqp_model.specs.End.Channels.{Channel};
ghost use Rattle.amqp_model.specs.Wire.Contents as contents;
ghost use Rattle.amqp_model.specs.End.EndVerdict.{takes_frames};
ghost use Rattle.amqp_model.specs.Wire.Notes.{Role};
ghost use Rattle.amqp_model.specs.Wire.Readings as readings;
ghost use Rattle.amqp_channel.specs.Channels.ChannelsView.{channels_view};
ghost use Rattle.amqp_channel.specs.Contents.ContentView.{content_there};
ghost use Rattle.amqp_channel.specs.Events.PartsView.{parts_there};
ghost use Rattle.amqp_channel.specs.ReadingView.{header_said, reading_view};
ghost use Rattle.amqp_channel.specs.Verdict.VerdictView.{verdict_view as channel_verdict, Drops};
ghost use Rattle.amqp_model.specs.End.Events as events;
ghost use Rattle.amqp_core.specs.Faults.Answering.{answer_with, ran_out, AnswersFrame};
ghost use Rattle.amqp_core.specs.Faults.Blamed.{code_by, code_found};
ghost use Rattle.amqp_core.specs.Connection.Dropping.{DropsReading};
ghost use Rattle.amqp_core.specs.Heard.View.{goes_by, heard_view, said_by};
ghost use Rattle.amqp_core.specs.Connection.Rulings.{OnChannel, OnConnection};
ghost use Rattle.amqp_core.specs.Config.Settings.{role_for};
ghost use Rattle.amqp_core.specs.Connection.Stages.{leaves, phase_at};
ghost use Rattle.amqp_core.specs.Connection.Outcomes.{owed_by};
ghost use Rattle.amqp_core.specs.Connection.Owed.{owed_view, IsNothing};
ghost use Rattle.amqp_core.specs.Connection.Verdicts.{event_by, fault_by, fault_there, noticed, outcome_with, verdict_view, FitsEventOf, FitsNotice, IsLight, IsLightNotice};
ghost use Rattle.amqp_core.specs.declared.owed.Owed.{Owed};
ghost use Rattle.amqp_core.specs.declared.settings.Settings.{Settings};
ghost use Rattle.amqp_core.specs.declared.stage.Stage.{Stage};

use crate::account::Account;
use crate::connection::Connection;
use crate::connection::hear::keep_cause;
use crate::connection::reply::{owed_at, put_owed};
use crate::faults::{CoreFault, OutOfMemory};
use crate::heard::Heard;
use crate::notes::Note;
use crate::owed::Owed;
use crate::settings::Settings;
use crate::tally::Tally;
use crate::verdict::{Fault, Notice, Verdict};
use amqp_channel::words::same;
use amqp_channel::{
    Agreed, Aligned, CloseCode, EventParts, Passed, Reading, Told, Verdict as ChannelVerdict,
    lent_blocked_reason, lent_reason,
};
use amqp_frame::{FrameKind, FrameRef};
use amqp_method::{Content, HeaderRef};
use amqp_outbox::Outbox;
use std::alloc::Global;

/// What an end owes by a channel's verdict, on a connection that is Running.
#[inline(always)]
pub(crate) fn owed_on(verdict: ChannelVerdict, number: u16) -> Owed
    ensures owed { (settings : Settings) (reading : readings.Reading) (whole : Option contents.Content)
        → owed_view settings result ≡ owed_by false number (channel_verdict number reading whole verdict) }
    ensures light { Drops verdict → IsNothing result }
{
    match verdict {
        ChannelVerdict::Proceeds(_, None) => Owed::Nothing,
        ChannelVerdict::Proceeds(_, Some(reply)) => Owed::OnChannel(number, reply),
        ChannelVerdict::RefusesContent => Owed::ChannelClose(number, CloseCode::ContentTooLarge),
        ChannelVerdict::Faults(code) => owed_at(false, Fault::Peer(code)),
    }
}

/// The fault that an end finds by a channel's verdict, if it finds one.
#[inline(always)]
pub(crate) fn fault_on(verdict: ChannelVerdict) -> Option<Fault>
    ensures fault { (settings : Settings) (number : ℕ) (reading : readings.Reading) (whole : Option contents.Content)
        → fault_there result ≡ fault_by (verdict_view settings number reading whole (OnChannel verdict)) }
    ensures light { (channel : Channel) → IsLight channel (OnChannel verdict) → result ≡ None }
    ensures goes { goes_by (OnChannel verdict) ≡ true → result ≡ None }
{
    match verdict {
        ChannelVerdict::Proceeds(_, _) => None,
        ChannelVerdict::RefusesContent => None,
        ChannelVerdict::Faults(code) => Some(Fault::Peer(code)),
    }
}

impl Verdict {
    /// What the end owes, which is leaving the connection or is not.
    pub(crate) fn owed(self, closing: bool) -> Owed
        ensures owed { (settings : Settings) (number : ℕ) (reading : readings.Reading) (whole : Option contents.Content)
            → owed_view settings result
            ≡ owed_by closing number (verdict_view settings number reading whole (OnConnection self)) }
        ensures light { (channel : Channel) → IsLight channel (OnConnection self) → IsNothing result }
    {
        match self {
            Verdict::Proceeds { owed, .. } => owed,
            Verdict::Faults(fault) => owed_at(closing, fault),
        }
    }

    /// The fault that the end finds, if it finds one.
    pub(crate) fn fault(self) -> Option<Fault>
        ensures fault { (settings : Settings) (number : ℕ) (reading : readings.Reading)
            (whole : Option contents.Content)
            → fault_there result ≡ fault_by (verdict_view settings number reading whole (OnConnection self)) }
        ensures light { (channel : Channel) → IsLight channel (OnConnection self) → result ≡ None }
        ensures goes { goes_by (OnConnection self) ≡ true → result ≡ None }
    {
        match self {
            Verdict::Proceeds { .. } => None,
            Verdict::Faults(fault) => Some(fault),
        }
    }
}

/// The event of a frame of the connection, where the caller has room for it.
#[inline(never)]
fn tell_notice(
    alloc: Global,
    number: u16,
    reading: Reading<'_>,
    notice: Notice,
    place: &mut Option<EventParts>,
) -> Result<(), OutOfMemory>
    requires fits { FitsNotice (reading_view reading) notice }
    requires none { place.old ≡ None }
    ensures event { OnOk result (parts_there place.new ≡ noticed number (reading_view reading.entry) notice) }
    ensures light { IsLightNotice notice → IsOk result }
{
    match notice {
        Notice::Quiet => EventParts::Quiet.put_in(place),
        Notice::Discarded => EventParts::Discarded(Aligned::new(number)).put_in(place),
        Notice::AnswerAsked => EventParts::AnswerAsked.put_in(place),
        Notice::LoginAsked => EventParts::LoginAsked.put_in(place),
        Notice::OpenAsked => EventParts::OpenAsked.put_in(place),
        Notice::Negotiated(agreed) => EventParts::Negotiated(Aligned::new(agreed)).put_in(place),
        Notice::ClosedByPeer => {
            let Reading::Method(method) = reading else {
                unreachable!()
            };
            let reason = lent_reason(alloc, method)?;
            EventParts::ConnectionClosed(Some(reason)).put_in(place);
        }
        Notice::ClosedByUs => EventParts::ConnectionClosed(None).put_in(place),
        Notice::Blocked => {
            let Reading::Method(method) = reading else {
                unreachable!()
            };
            let reason = lent_blocked_reason(alloc, method)?;
            EventParts::Blocked(reason).put_in(place);
        }
        Notice::Unblocked => EventParts::Unblocked.put_in(place),
    }
    Ok(())
}

/// The event of a frame of a channel, where the caller has room for it. The frame makes this content whole, if any.
#[inline(always)]
fn tell_on(
    alloc: Global,
    number: u16,
    reading: Reading<'_>,
    verdict: ChannelVerdict,
    content: Option<Box<Content>>,
    place: &mut Option<EventParts>,
) -> Result<(), OutOfMemory>
    requires fits { FitsEventOf (reading_view reading) (OnChannel verdict) }
    requires none { place.old ≡ None }
    ensures event { OnOk result ((settings : Settings) → parts_there place.new ≡ event_by number
        (verdict_view settings number (reading_view reading.entry) (content_there content) (OnChannel verdict))) }
    ensures light { (channel : Channel) → IsLight channel (OnChannel verdict) → IsOk result }
{
    match verdict {
        ChannelVerdict::Proceeds(told, _) => {
            EventParts::tell(alloc, number, reading, told, content, place)?;
        }
        ChannelVerdict::RefusesContent => {
            EventParts::Discarded(Aligned::new(number)).put_in(place);
        }
        ChannelVerdict::Faults(_) => {}
    }
    Ok(())
}

/// The event of a frame that ends a state of the connection, where the caller has room for it.
fn tell_of(
    alloc: Global,
    number: u16,
    reading: Reading<'_>,
    verdict: Verdict,
    place: &mut Option<EventParts>,
) -> Result<(), OutOfMemory>
    requires fits { FitsEventOf (reading_view reading) (OnConnection verdict) }
    requires none { place.old ≡ None }
    ensures event { OnOk result ((settings : Settings) (whole : Option contents.Content) → parts_there place.new
        ≡ event_by number (verdict_view settings number (reading_view reading.entry) whole (OnConnection verdict))) }
    ensures light { (channel : Channel) → IsLight channel (OnConnection verdict) → IsOk result }
{
    match verdict {
        Verdict::Proceeds { notice, .. } => tell_notice(alloc, number, reading, notice, place)?,
        Verdict::Faults(_) => {}
    }
    Ok(())
}

/// What is answered to a frame with which this fault is found, if any, whatever it tells.
fn report(fault: Option<Fault>) -> Result<(), CoreFault>
    ensures says { (event : Option events.Event)
        → AnswersFrame (answer_with result event) (outcome_with event (fault_there fault)) }
    ensures memory { ran_out result ≡ false }
    ensures ok { fault ≡ None → IsOk result }
    ensures code { code_found result ≡ code_by (fault_there fault) }
{
    match fault {
        None => Ok(()),
        Some(fault) => Err(fault.reported()),
    }
}

impl Connection {
    ghost use Rattle.amqp_core.specs.Connection.Receiving.{Receives};
    ghost use Rattle.amqp_core.specs.Connection.View.{connection_end};
    ghost use Rattle.amqp_frame.specs.Frame.{lent};
    ghost use Rattle.amqp_model.specs.End.Channels.{Running};
    ghost use Rattle.amqp_model.specs.End.Closes.{frame_of};
    ghost use Rattle.amqp_model.specs.Stream.Traces.{IsTaken, noted};
    ghost use Rattle.amqp_core.specs.Traced.AccountView.{note_there};
    ghost use Rattle.amqp_model.specs.Output.Outputs.{after_puts};
    ghost use Rattle.amqp_model.specs.Wire.Methods.{header_at};
    ghost use Rattle.amqp_model.specs.Wire.Readings.{reading as says, header_reading};
    ghost use Rattle.amqp_outbox.specs.OutboxView.{only};
    ghost use Rattle.amqp_core.specs.Faults.Blamed.{blames_frame, tally_view};
    ghost use Rattle.amqp_core.specs.Connection.Verdicts.{content_of, end_left, ended_if, verdict_here, FitsVerdict, FrameRules, StepsFrom};
    ghost use Rattle.amqp_channel.specs.Channels.Used.{is_closing_at};
    ghost use Rattle.amqp_channel.specs.Verdict.Passing.{IsOfMessage};
    ghost use Rattle.amqp_channel.specs.Verdict.VerdictView.{IsPart};
    ghost use Rattle.amqp_channel.specs.declared.verdict.Told.TheVariants.{Headed};
    ghost use Rattle.amqp_channel.specs.declared.verdict.Verdict.TheVariants.{Proceeds};
    ghost use Rattle.amqp_model.specs.Stream.Traces.{word_of};
    ghost use Rattle.amqp_model.specs.Wire.Readings.{kind_of};
    ghost use Rattle.amqp_core.specs.Traced.Notes.{noted_as};

    /// Leaves the connection as a frame of its own with this verdict does.
    pub(crate) fn apply_own(&mut self, verdict: Verdict)
        requires { StepsFrom (connection_end self.old) verdict }
        ensures left { (role : Role) (number : ℕ) (reading : readings.Reading) → connection_end self.new
            ≡ end_left role number reading (OnConnection verdict) (connection_end self.old) }
        ensures settings { self.new.settings ≡ self.old.settings }
    {
        match verdict {
            Verdict::Proceeds { stage, .. } => self.stage = stage,
            Verdict::Faults(_) => {}
        }
    }

    /// Leaves the channel as a frame with this verdict does. What is answered is the content that the frame makes
    /// whole.
    #[tactic(auto, using(crate::proofs::ReceiveLemmas::with_channel_is))]
    fn apply_on(
        &mut self,
        number: u16,
        reading: Reading<'_>,
        verdict: ChannelVerdict,
    ) -> Result<Option<Box<Content>>, OutOfMemory>
        requires gathers { self.old.settings.lends ≡ false }
        requires fits { FitsVerdict (connection_end self.old) number (reading_view reading) (OnChannel verdict) }
        ensures content { IfOk result (λ content. content_there content
            ≡ content_of (OnChannel verdict) (channels_view self.old.channels number) (reading_view reading.entry)) }
        ensures left { OnOk result (connection_end self.new ≡ end_left (role_for self.old.settings) number
            (reading_view reading.entry) (OnChannel verdict) (connection_end self.old)) }
        ensures settings { self.new.settings ≡ self.old.settings }
        ensures stage { self.new.stage ≡ self.old.stage }
        ensures light { IsLight (channels_view self.old.channels number) (OnChannel verdict) → IsOk result }
    {
        let side = self.settings.hello.side();
        Ok(
            self.channels
                .apply(self.alloc, side, number, reading, verdict)?,
        )
    }

    /// Does what the rules say of a frame of a channel: the channel is left as it leaves it, its event is made, what is
    /// owed is put, and what may be asked for later is kept. Out of memory, nothing is put.
    fn carry_out_on(
        &mut self,
        outbox: &mut Outbox,
        number: u16,
        reading: Reading<'_>,
        verdict: ChannelVerdict,
        account: &mut Account,
        heard: &mut Heard,
    ) -> Result<(), OutOfMemory>
        requires gathers { self.old.settings.lends ≡ false }
        requires fits { FitsVerdict (connection_end self.old) number (reading_view reading) (OnChannel verdict) }
        requires staged { outbox.old.staged ≡ [] }
        requires none { account.old.parts ≡ None }
        ensures event { OnOk result (parts_there account.new.parts ≡ event_by number (verdict_here self.old.settings
            (connection_end self.old) number (reading_view reading.entry) (OnChannel verdict))) }
        ensures left { OnOk result (connection_end self.new ≡ end_left (role_for self.old.settings) number
            (reading_view reading.entry) (OnChannel verdict) (connection_end self.old)) }
        ensures put { OnOk result (outbox.new ≡ only (after_puts (map frame_of (owed_by false number
            (verdict_here self.old.settings (connection_end self.old) number (reading_view reading.entry)
            (OnChannel verdict)))) outbox.old.output)) }
        ensures kept { OnErr result (outbox.new ≡ only outbox.old.output) }
        ensures owed { OnOk result (owed_view self.old.settings account.new.owed ≡ owed_by false number
            (verdict_here self.old.settings (connection_end self.old) number (reading_view reading.entry)
            (OnChannel verdict))) }
        ensures octets { account.new.octets ≡ account.old.octets }
        ensures took { account.new.took ≡ account.old.took }
        ensures heard { OnOk result (heard_view heard.new
            ≡ said_by Running number (reading_view reading.entry) (OnChannel verdict) (heard_view heard.old)) }
        ensures light { IsLight (channels_view self.old.channels number) (OnChannel verdict) → IsOk result }
        ensures stage { self.new.stage ≡ self.old.stage }
        ensures settings { self.new.settings ≡ self.old.settings }
    {
        keep_cause(reading, verdict, heard);
        let content = self.apply_on(number, reading, verdict)?;
        tell_on(
            self.alloc,
            number,
            reading,
            verdict,
            content,
            &mut account.parts,
        )?;
        let owed = owed_on(verdict, number);
        put_owed(self.alloc, &self.settings, owed, outbox)?;
        account.owed = owed;
        Ok(())
    }

    /// Does what the rules say of a frame of the connection. Out of memory, nothing is put.
    fn carry_out(
        &mut self,
        outbox: &mut Outbox,
        number: u16,
        reading: Reading<'_>,
        verdict: Verdict,
        account: &mut Account,
        heard: &mut Heard,
    ) -> Result<(), OutOfMemory>
        requires fits { FitsVerdict (connection_end self.old) number (reading_view reading) (OnConnection verdict) }
        requires staged { outbox.old.staged ≡ [] }
        requires none { account.old.parts ≡ None }
        ensures event { OnOk result (parts_there account.new.parts ≡ event_by number (verdict_here self.old.settings
            (connection_end self.old) number (reading_view reading.entry) (OnConnection verdict))) }
        ensures left { OnOk result (connection_end self.new ≡ end_left (role_for self.old.settings) number
            (reading_view reading.entry) (OnConnection verdict) (connection_end self.old)) }
        ensures put { OnOk result (outbox.new ≡ only (after_puts (map frame_of (owed_by
            (leaves (phase_at self.old.stage)) number (verdict_here self.old.settings (connection_end self.old) number
            (reading_view reading.entry) (OnConnection verdict)))) outbox.old.output)) }
        ensures kept { OnErr result (outbox.new ≡ only outbox.old.output) }
        ensures owed { OnOk result (owed_view self.old.settings account.new.owed ≡ owed_by
            (leaves (phase_at self.old.stage)) number (verdict_here self.old.settings (connection_end self.old) number
            (reading_view reading.entry) (OnConnection verdict))) }
        ensures octets { account.new.octets ≡ account.old.octets }
        ensures took { account.new.took ≡ account.old.took }
        ensures heard { OnOk result (heard_view heard.new ≡ said_by (phase_at self.old.stage) number
            (reading_view reading.entry) (OnConnection verdict) (heard_view heard.old)) }
        ensures light { DropsReading (phase_at self.old.stage) (channels_view self.old.channels number) number
            (reading_view reading.entry)
            → IsLight (channels_view self.old.channels number) (OnConnection verdict) → IsOk result }
        ensures settings { self.new.settings ≡ self.old.settings }
    {
        let closing = self.stage.is_closing();
        self.keep_said(number, reading, verdict, heard)?;
        self.apply_own(verdict);
        tell_of(self.alloc, number, reading, verdict, &mut account.parts)?;
        let owed = verdict.owed(closing);
        put_owed(self.alloc, &self.settings, owed, outbox)?;
        account.owed = owed;
        Ok(())
    }

    /// Takes a frame of a channel that says this, if it passes: it owes no reply, and changes at most the content under
    /// way. Otherwise nothing is done.
    #[inline(always)]
    fn pass_on(
        &mut self,
        agreed: Agreed,
        number: u16,
        reading: Reading<'_>,
    ) -> Result<Option<Passed>, OutOfMemory>
        requires above { 0 < number }
        requires running { self.old.stage ≡ Stage.Running agreed }
        requires gathers { self.old.settings.lends ≡ false }
        ensures rules { IfOk result (λ passed. IfSome passed (λ it. FrameRules self.old.settings
            (connection_end self.old) number (reading_view reading.entry) (OnChannel (Proceeds it.told None)))) }
        ensures left { IfOk result (λ passed. IfSome passed (λ it. connection_end self.new
            ≡ end_left (role_for self.old.settings) number (reading_view reading.entry)
            (OnChannel (Proceeds it.told None)) (connection_end self.old))) }
        ensures content { IfOk result (λ passed. IfSome passed (λ it. content_there it.content
            ≡ content_of (OnChannel (Proceeds it.told None)) (channels_view self.old.channels number)
            (reading_view reading.entry))) }
        ensures message { IfOk result (λ passed. IfSome passed (λ it. IsOfMessage it.told)) }
        ensures settings { self.new.settings ≡ self.old.settings }
        ensures stage { self.new.stage ≡ self.old.stage }
        ensures none { IfOk result (λ passed. passed ≡ None → self.new ≡ self.old) }
        ensures drops { is_closing_at (channels_view self.old.channels number) ≡ true
            → IsPart (reading_view reading.entry) → IsOk result }
    {
        let site = self.site(number, agreed.channel_max);
        match self.channels.pass(self.alloc, site, reading) {
            Ok(Some(passed)) => Ok(Some(passed)),
            Ok(None) => Ok(None),
            Err(_) => Err(OutOfMemory),
        }
    }

    /// The same, and its event is made.
    #[inline(always)]
    fn pass_told(
        &mut self,
        agreed: Agreed,
        number: u16,
        reading: Reading<'_>,
        account: &mut Account,
        heard: &mut Heard,
    ) -> Result<Option<Told>, OutOfMemory>
        requires above { 0 < number }
        requires running { self.old.stage ≡ Stage.Running agreed }
        requires gathers { self.old.settings.lends ≡ false }
        requires none { account.old.parts ≡ None }
        ensures rules { IfOk result (λ passed. IfSome passed (λ told. FrameRules self.old.settings
            (connection_end self.old) number (reading_view reading.entry) (OnChannel (Proceeds told None)))) }
        ensures left { IfOk result (λ passed. IfSome passed (λ told. connection_end self.new
            ≡ end_left (role_for self.old.settings) number (reading_view reading.entry)
            (OnChannel (Proceeds told None)) (connection_end self.old))) }
        ensures event { IfOk result (λ passed. IfSome passed (λ told. parts_there account.new.parts
            ≡ event_by number (verdict_here self.old.settings (connection_end self.old) number
            (reading_view reading.entry) (OnChannel (Proceeds told None))))) }
        ensures heard { IfOk result (λ passed. IfSome passed (λ told. heard_view heard.new ≡ said_by Running number
            (reading_view reading.entry) (OnChannel (Proceeds told None)) (heard_view heard.old))) }
        ensures took { IfOk result (λ passed. IfSome passed (λ told. note_there account.new.took
            ≡ Some (noted_as IsTaken number (word_of (kind_of (reading_view reading.entry)))))) }
        ensures owed { IfOk result (λ passed. IfSome passed (λ told. account.new.owed ≡ Owed.Nothing)) }
        ensures octets { account.new.octets ≡ account.old.octets }
        ensures settings { self.new.settings ≡ self.old.settings }
        ensures stage { self.new.stage ≡ self.old.stage }
        ensures none { IfOk result (λ passed. passed ≡ None → self.new ≡ self.old) }
        ensures none_told { IfOk result (λ passed. passed ≡ None → account.new ≡ account.old) }
        ensures none_heard { IfOk result (λ passed. passed ≡ None → heard.new ≡ heard.old) }
        ensures drops { is_closing_at (channels_view self.old.channels number) ≡ true
            → IsPart (reading_view reading.entry) → IsOk result }
    {
        let Some(passed) = self.pass_on(agreed, number, reading)? else {
            return Ok(None);
        };
        let Passed { told, content } = passed;
        keep_cause(reading, ChannelVerdict::Proceeds(told, None), heard);
        account.took = Some(Note::taken(number, reading));
        account.owed = Owed::Nothing;
        EventParts::tell_passed(
            self.alloc,
            number,
            reading,
            told,
            content,
            &mut account.parts,
        )?;
        Ok(Some(told))
    }

    /// Takes a header of a channel, read in one walk from its payload, if it passes and more of its content is due.
    /// Otherwise nothing is done.
    #[inline(always)]
    fn pass_header_on<'a>(
        &mut self,
        agreed: Agreed,
        number: u16,
        payload: &'a [u8],
    ) -> Option<HeaderRef<'a>>
        requires above { 0 < number }
        requires running { self.old.stage ≡ Stage.Running agreed }
        requires gathers { self.old.settings.lends ≡ false }
        ensures says { IfSome result (λ header. header_said header ≡ header_reading (header_at payload.now)) }
        ensures rules { IfSome result (λ header. FrameRules self.old.settings (connection_end self.old) number
            (header_said header) (OnChannel (Proceeds Headed None))) }
        ensures left { IfSome result (λ header. connection_end self.new ≡ end_left (role_for self.old.settings) number
            (header_said header) (OnChannel (Proceeds Headed None)) (connection_end self.old)) }
        ensures settings { self.new.settings ≡ self.old.settings }
        ensures stage { self.new.stage ≡ self.old.stage }
        ensures none { result ≡ None → self.new ≡ self.old }
    {
        let site = self.site(number, agreed.channel_max);
        self.channels.pass_header(self.alloc, site, payload)
    }

    /// The same, and it is accounted for. It has no event.
    #[inline(always)]
    fn pass_header_told<'a>(
        &mut self,
        agreed: Agreed,
        number: u16,
        payload: &'a [u8],
        account: &mut Account,
        heard: &mut Heard,
    ) -> Option<HeaderRef<'a>>
        requires above { 0 < number }
        requires running { self.old.stage ≡ Stage.Running agreed }
        requires gathers { self.old.settings.lends ≡ false }
        requires none { account.old.parts ≡ None }
        ensures says { IfSome result (λ header. header_said header ≡ header_reading (header_at payload.now)) }
        ensures rules { IfSome result (λ header. FrameRules self.old.settings (connection_end self.old) number
            (header_said header) (OnChannel (Proceeds Headed None))) }
        ensures left { IfSome result (λ header. connection_end self.new ≡ end_left (role_for self.old.settings) number
            (header_said header) (OnChannel (Proceeds Headed None)) (connection_end self.old)) }
        ensures event { account.new.parts ≡ None }
        ensures heard { IfSome result (λ header. heard_view heard.new ≡ said_by Running number
            (header_said header) (OnChannel (Proceeds Headed None)) (heard_view heard.old)) }
        ensures took { IfSome result (λ header. note_there account.new.took
            ≡ Some (noted_as IsTaken number (word_of (kind_of (header_said header))))) }
        ensures owed { IfSome result (λ header. account.new.owed ≡ Owed.Nothing) }
        ensures octets { account.new.octets ≡ account.old.octets }
        ensures settings { self.new.settings ≡ self.old.settings }
        ensures stage { self.new.stage ≡ self.old.stage }
        ensures none { result ≡ None → self.new ≡ self.old }
        ensures none_told { result ≡ None → account.new ≡ account.old }
        ensures none_heard { result ≡ None → heard.new ≡ heard.old }
    {
        let header = self.pass_header_on(agreed, number, payload)?;
        let said = Reading::Header(header);
        keep_cause(said, ChannelVerdict::Proceeds(Told::Headed, None), heard);
        account.took = Some(Note::taken(number, said));
        account.owed = Owed::Nothing;
        Some(header)
    }

    /// Takes a header frame so. Nothing is done with any other frame.
    #[inline(always)]
    fn pass_header(
        &mut self,
        outbox: &Outbox,
        frame: FrameRef<'_>,
        account: &mut Account,
        heard: &mut Heard,
    ) -> Option<Result<(), CoreFault>>
        requires gathers { self.old.settings.lends ≡ false }
        requires staged { outbox.now.staged ≡ [] }
        requires none { account.old.parts ≡ None }
        ensures receives { IfSome result (λ answer. Receives self.old outbox.now.output account.old heard.old
            (lent frame.entry) answer self.new outbox.now account.new heard.new) }
        ensures faultless { IfSome result (λ answer. code_found answer ≡ None) }
        ensures none { result ≡ None → self.new ≡ self.old }
        ensures none_told { result ≡ None → account.new ≡ account.old }
        ensures none_heard { result ≡ None → heard.new ≡ heard.old }
    {
        let FrameKind::Header = frame.kind else {
            return None;
        };
        let agreed = self.agreed_on(frame.channel)?;
        self.pass_header_told(agreed, frame.channel, frame.payload, account, heard)?;
        Some(Ok(()))
    }

    /// Takes a frame that says this, if it passes: it owes no reply, and changes at most the content under way.
    /// Otherwise nothing is done.
    #[inline(always)]
    fn pass(
        &mut self,
        outbox: &Outbox,
        frame: FrameRef<'_>,
        reading: Reading<'_>,
        account: &mut Account,
        heard: &mut Heard,
    ) -> Option<Result<(), CoreFault>>
        requires gathers { self.old.settings.lends ≡ false }
        requires staged { outbox.now.staged ≡ [] }
        requires none { account.old.parts ≡ None }
        requires says { reading_view reading ≡ says (lent frame) }
        ensures receives { IfSome result (λ answer. Receives self.old outbox.now.output account.old heard.old
            (lent frame.entry) answer self.new outbox.now account.new heard.new) }
        ensures faultless { IfSome result (λ answer. code_found answer ≡ None) }
        ensures none { result ≡ None → self.new ≡ self.old }
        ensures none_told { result ≡ None → account.new ≡ account.old }
        ensures none_heard { result ≡ None → heard.new ≡ heard.old }
    {
        let Some(agreed) = self.agreed_on(frame.channel) else {
            return None;
        };
        match self.pass_told(agreed, frame.channel, reading, account, heard) {
            Ok(Some(_)) => Some(Ok(())),
            Ok(None) => None,
            Err(_) => {
                account.took = Some(Note::taken(frame.channel, reading));
                self.fail_at(self.stage);
                Some(Err(CoreFault::OutOfMemory))
            }
        }
    }

    /// Takes a frame that says this: most pass, and the rules are asked of the others.
    #[inline(always)]
    fn receive_said(
        &mut self,
        outbox: &mut Outbox,
        frame: FrameRef<'_>,
        reading: Reading<'_>,
        account: &mut Account,
        tally: &mut Tally,
        heard: &mut Heard,
    ) -> Result<(), CoreFault>
        requires gathers { self.old.settings.lends ≡ false }
        requires taking { takes_frames (phase_at self.old.stage) ≡ true }
        requires staged { outbox.old.staged ≡ [] }
        requires none { account.old.parts ≡ None }
        requires says { reading_view reading ≡ says (lent frame) }
        ensures receives { Receives self.old outbox.old.output account.old heard.old (lent frame.entry) result self.new
            outbox.new account.new heard.new }
        ensures tally { tally_view tally.new
            ≡ blames_frame (code_found result) (lent frame.entry) (tally_view tally.old) }
    {
        if let Some(answer) = self.pass(outbox, frame, reading, account, heard) {
            return answer;
        }
        let answer = self.receive_by_rules(outbox, frame, reading, account, tally, heard);
        answer
    }

    /// Takes a frame that says this, as the rules have it.
    #[inline(never)]
    pub(crate) fn receive_by_rules(
        &mut self,
        outbox: &mut Outbox,
        frame: FrameRef<'_>,
        reading: Reading<'_>,
        account: &mut Account,
        tally: &mut Tally,
        heard: &mut Heard,
    ) -> Result<(), CoreFault>
        requires gathers { self.old.settings.lends ≡ false }
        requires taking { takes_frames (phase_at self.old.stage) ≡ true }
        requires staged { outbox.old.staged ≡ [] }
        requires none { account.old.parts ≡ None }
        requires says { reading_view reading ≡ says (lent frame) }
        ensures receives { Receives self.old outbox.old.output account.old heard.old (lent frame.entry) result self.new
            outbox.new account.new heard.new }
        ensures tally { tally_view tally.new
            ≡ blames_frame (code_found result) (lent frame.entry) (tally_view tally.old) }
    {
        account.took = Some(Note::taken(frame.channel, reading));
        let Some(agreed) = self.agreed_on(frame.channel) else {
            return self.receive_own(outbox, frame, reading, account, tally, heard);
        };
        let verdict = self.judge_on(agreed, frame.channel, reading);
        let Ok(()) = self.carry_out_on(outbox, frame.channel, reading, verdict, account, heard)
        else {
            self.fail_at(self.stage);
            return Err(CoreFault::OutOfMemory);
        };
        let fault = fault_on(verdict);
        self.fail_by(fault, frame, tally);
        report(fault)
    }

    /// Takes a frame. What the end owes is put, and what came of the frame, its event too, is accounted for. Out of
    /// memory, the end fails, and nothing is put.
    ///
    /// Each kind of frame goes its own way, so that what it says is not put into memory and looked at again, and most
    /// headers are read in one walk. It is called in one place, where it is inlined, however large it is.
    #[inline(always)]
    pub(crate) fn receive(
        &mut self,
        outbox: &mut Outbox,
        frame: FrameRef<'_>,
        account: &mut Account,
        tally: &mut Tally,
        heard: &mut Heard,
    ) -> Result<(), CoreFault>
        requires gathers { self.old.settings.lends ≡ false }
        requires taking { takes_frames (phase_at self.old.stage) ≡ true }
        requires staged { outbox.old.staged ≡ [] }
        requires none { account.old.parts ≡ None }
        ensures receives { Receives self.old outbox.old.output account.old heard.old (lent frame.entry) result self.new
            outbox.new account.new heard.new }
        ensures tally { tally_view tally.new
            ≡ blames_frame (code_found result) (lent frame.entry) (tally_view tally.old) }
    {
        if let Some(answer) = self.pass_header(outbox, frame, account, heard) {
            return answer;
        }
        let reading = Reading::of(frame);
        match reading {
            Reading::Method(method) => {
                let said = Reading::Method(method);
                self.receive_said(outbox, frame, said, account, tally, heard)
            }
            Reading::Header(header) => {
                let said = Reading::Header(header);
                self.receive_said(outbox, frame, said, account, tally, heard)
            }
            Reading::Body(part) => {
                let said = Reading::Body(part);
                self.receive_said(outbox, frame, said, account, tally, heard)
            }
            Reading::UnknownMethod
            | Reading::MalformedMethod
            | Reading::MalformedHeader
            | Reading::Heartbeat(_) => {
                let answer = self.receive_by_rules(outbox, frame, reading, account, tally, heard);
                answer
            }
        }
    }

    /// The same with a frame of the connection that says this. It stands apart, since few frames are.
    #[inline(never)]
    fn receive_own(
        &mut self,
        outbox: &mut Outbox,
        frame: FrameRef<'_>,
        reading: Reading<'_>,
        account: &mut Account,
        tally: &mut Tally,
        heard: &mut Heard,
    ) -> Result<(), CoreFault>
        requires taking { takes_frames (phase_at self.old.stage) ≡ true }
        requires zero { phase_at self.old.stage ≡ Running → (lent frame).channel ≡ 0 }
        requires staged { outbox.old.staged ≡ [] }
        requires none { account.old.parts ≡ None }
        requires took { note_there account.old.took ≡ Some (noted IsTaken (lent frame)) }
        requires says { reading_view reading ≡ says (lent frame) }
        ensures receives { Receives self.old outbox.old.output account.old heard.old (lent frame.entry) result self.new
            outbox.new account.new heard.new }
        ensures tally { tally_view tally.new
            ≡ blames_frame (code_found result) (lent frame.entry) (tally_view tally.old) }
    {
        let before = self.stage;
        let verdict = self.judge(frame.channel, reading);
        let Ok(()) = self.carry_out(outbox, frame.channel, reading, verdict, account, heard) else {
            self.fail_at(before);
            return Err(CoreFault::OutOfMemory);
        };
        let fault = verdict.fault();
        self.fail_by(fault, frame, tally);
        report(fault)
    }

    /// An end that has found fault with a frame fails, and the frame is blamed.
    #[inline(always)]
    pub(crate) fn fail_by(&mut self, fault: Option<Fault>, frame: FrameRef<'_>, tally: &mut Tally)
        ensures end { connection_end self.new ≡ ended_if (fault_there fault) (connection_end self.old) }
        ensures settings { self.new.settings ≡ self.old.settings }
        ensures tally { tally_view tally.new
            ≡ blames_frame (code_by (fault_there fault)) (lent frame.entry) (tally_view tally.old) }
    {
        if let Some(fault) = fault {
            self.blame_frame(fault, frame, tally);
            self.fail();
        }
    }
}
