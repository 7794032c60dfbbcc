//! A frame that is taken by an end whose events lend: the same rules decide, and of a content under way only how far
//! it has come is kept.
ghost use Rattle.std.specs.Prelude.{◌≡◌, ◌<◌, true, false, ℕ, [], map, None, Option, IfOk, IfSome, IsOk, OnErr, OnOk};
ghost use Rattle.amqp_channel.specs.Channels.ChannelsView.{channels_view};
ghost use Rattle.amqp_channel.specs.ReadingView.{reading_view};
ghost use Rattle.amqp_model.specs.End.Channels.{Channel, End, Running};
ghost use Rattle.amqp_model.specs.End.EndVerdict.{takes_frames};
ghost use Rattle.amqp_model.specs.End.Events as events;
ghost use Rattle.amqp_model.specs.Lent.Alike.{lent as lent_of, maybe_telling, AlikeEnds};
ghost use Rattle.amqp_model.specs.Wire.Contents as contents;
ghost use Rattle.amqp_model.specs.Wire.Readings as readings;
ghost use Rattle.amqp_core.specs.Faults.Answering.{answer_with, is_out_of_memory, ran_out, stopped, AnswersFrame, Reports};
ghost use Rattle.amqp_core.specs.Faults.Blamed.{blames_frame, code_by, code_found, tally_view};
ghost use Rattle.amqp_core.specs.Connection.Dropping.{DropsReading};
ghost use Rattle.amqp_core.specs.Stream.EventRefView.{report_lent};
ghost use Rattle.amqp_core.specs.Stream.StepView.{came_lent, reported};
ghost use Rattle.amqp_frame.specs.Frame.{Frame, frame_length};
ghost use Rattle.amqp_channel.specs.declared.verdict.Verdict.TheVariants.{Proceeds};
ghost use Rattle.amqp_core.specs.Heard.View.{goes_by, heard_view, said_by};
ghost use Rattle.amqp_core.specs.Connection.Outcomes.{SameEnd, owed_by};
ghost use Rattle.amqp_model.specs.Stream.Endpoint.{Found, fault_told, owed_at_fault};
ghost use Rattle.amqp_core.specs.Connection.Rulings.{OnChannel, OnConnection};
ghost use Rattle.amqp_core.specs.Config.Settings.{role_for};
ghost use Rattle.amqp_core.specs.Connection.Stages.{leaves, phase_at};
ghost use Rattle.amqp_core.specs.Connection.Verdicts.{event_by, fault_by, outcome_with, verdict_here, verdict_view, FitsVerdict, FrameRules, IsLight};
ghost use Rattle.amqp_core.specs.declared.settings.Settings.{Settings};
ghost use Rattle.amqp_core.specs.declared.stage.Stage.{Stage};

use crate::account::Account;
use crate::connection::Connection;
use crate::connection::hear::keep_cause;
use crate::connection::receive::{fault_on, owed_on};
use crate::connection::reply::put_owed;
use crate::faults::{CoreFault, OutOfMemory};
use crate::heard::Heard;
use crate::step::{Report, Step, step_reported};
use crate::tally::Tally;
use crate::verdict::Verdict;
use amqp_channel::{Agreed, Reading, Told, Verdict as ChannelVerdict};
use amqp_frame::{FrameFaultKind, FrameRef, OVERHEAD};
use amqp_outbox::Outbox;

/// The event of a frame of a channel, or the fault that is found with it.
#[inline(always)]
#[tactic(auto, using(crate::proofs::LendLemmas::told_lends))]
fn report_on(verdict: ChannelVerdict) -> Result<Report, CoreFault>
    ensures says { (settings : Settings) (number : ℕ) (reading : readings.Reading) (whole : Option contents.Content)
        → AnswersFrame
        (answer_with result (event_by number (verdict_view settings number reading whole (OnChannel verdict))))
        (outcome_with (event_by number (verdict_view settings number reading whole (OnChannel verdict)))
        (fault_by (verdict_view settings number reading whole (OnChannel verdict)))) }
    ensures told { IfOk result
        (λ report. (settings : Settings) (end : End) (number : ℕ) (reading : readings.Reading)
        → FitsVerdict end number reading (OnChannel verdict) → report_lent number reading report
        ≡ lent_of number reading (maybe_telling (event_by number
        (verdict_here settings end number reading (OnChannel verdict))))) }
    ensures memory { ran_out result ≡ false }
    ensures light { (channel : Channel) → IsLight channel (OnChannel verdict) → IsOk result }
    ensures code { (settings : Settings) (number : ℕ) (reading : readings.Reading) (whole : Option contents.Content)
        → code_found result ≡ code_by (fault_by (verdict_view settings number reading whole (OnChannel verdict))) }
    ensures goes { goes_by (OnChannel verdict) ≡ true → IsOk result }
{
    match verdict {
        ChannelVerdict::Proceeds(told, _) => Ok(Report::OnChannel(told)),
        ChannelVerdict::RefusesContent => Ok(Report::OnChannel(Told::Discarded)),
        ChannelVerdict::Faults(code) => Err(CoreFault::Peer(code)),
    }
}

impl Verdict {
    /// The event of a frame of the connection, or the fault that is found with it.
    #[tactic(auto, using(crate::proofs::LendLemmas::notice_lends))]
    fn report(self) -> Result<Report, CoreFault>
        ensures says { (settings : Settings) (number : ℕ) (reading : readings.Reading) (whole : Option contents.Content)
            → AnswersFrame
            (answer_with result (event_by number (verdict_view settings number reading whole (OnConnection self))))
            (outcome_with (event_by number (verdict_view settings number reading whole (OnConnection self)))
            (fault_by (verdict_view settings number reading whole (OnConnection self)))) }
        ensures told { IfOk result
            (λ report. (settings : Settings) (end : End) (number : ℕ) (reading : readings.Reading)
            → FitsVerdict end number reading (OnConnection self) → report_lent number reading report
            ≡ lent_of number reading (maybe_telling (event_by number
            (verdict_here settings end number reading (OnConnection self))))) }
        ensures memory { ran_out result ≡ false }
        ensures light { (channel : Channel) → IsLight channel (OnConnection self) → IsOk result }
        ensures code { (settings : Settings) (number : ℕ) (reading : readings.Reading) (whole : Option contents.Content)
            → code_found result ≡ code_by (fault_by (verdict_view settings number reading whole (OnConnection self))) }
        ensures goes { goes_by (OnConnection self) ≡ true → IsOk result }
    {
        match self {
            Verdict::Proceeds { notice, .. } => Ok(Report::OfConnection(notice)),
            Verdict::Faults(fault) => Err(fault.reported()),
        }
    }
}

impl Connection {
    ghost use Rattle.std.specs.Prelude.{cond};
    ghost use Rattle.amqp_channel.specs.Channels.ChannelsView.{NoneUnderWay};
    ghost use Rattle.amqp_core.specs.Connection.Receiving.{lent_by, ReceivesLent};
    ghost use Rattle.amqp_core.specs.Connection.View.{connection_end};
    ghost use Rattle.amqp_frame.specs.Frame.{lent};
    ghost use Rattle.amqp_model.specs.End.Closes.{frame_of};
    ghost use Rattle.amqp_model.specs.End.Machine.{as_failed};
    ghost use Rattle.amqp_model.specs.Output.Outputs.{after_puts};
    ghost use Rattle.amqp_model.specs.Wire.Readings.{reading as says};
    ghost use Rattle.amqp_outbox.specs.OutboxView.{only};
    ghost use Rattle.amqp_core.specs.Config.Settings.{config_view};
    ghost use Rattle.amqp_core.specs.Connection.Verdicts.{end_left};

    /// From here on the end lends what it takes.
    pub(crate) fn lend(&mut self)
        ensures end { connection_end self.new ≡ connection_end self.old }
        ensures settings { self.new.settings ≡ record self.old.settings { lends = true } }
    {
        self.settings.lends = true;
    }

    /// From here on the end gathers whole contents, if none is under way. The answer is whether that is so.
    pub(crate) fn gather(&mut self) -> bool
        ensures end { connection_end self.new ≡ connection_end self.old }
        ensures settings { self.new.settings ≡ cond result (record self.old.settings {
          lends = false;
        }) self.old.settings }
        ensures none { result ≡ true → NoneUnderWay self.old.channels }
    {
        if self.channels.is_any_under_way() {
            return false;
        }
        self.settings.lends = false;
        true
    }

    /// Leaves the channel as a frame with this verdict does.
    #[inline(always)]
    #[tactic(auto, using(crate::proofs::StreamLemmas::end_itself))]
    fn apply_on_lent(
        &mut self,
        number: u16,
        reading: Reading<'_>,
        verdict: ChannelVerdict,
    ) -> Result<(), OutOfMemory>
        requires lends { self.old.settings.lends ≡ true }
        requires fits { FitsVerdict (connection_end self.old) number (reading_view reading) (OnChannel verdict) }
        ensures left { OnOk result (AlikeEnds
            (end_left (role_for self.old.settings) number (reading_view reading.entry) (OnChannel verdict)
            (connection_end self.old))
            (connection_end self.new)) }
        ensures settings { self.new.settings ≡ self.old.settings }
        ensures stage { self.new.stage ≡ self.old.stage }
        ensures light { IsLight (channels_view self.old.channels number) (OnChannel verdict) → IsOk result }
    {
        let side = self.settings.hello.side();
        self.channels
            .apply_lent(self.alloc, side, number, reading, verdict)?;
        Ok(())
    }

    /// Does what the rules say of a frame of a channel: the channel is left as it leaves it, what is owed is put, and
    /// what may be asked for later is kept. Out of memory, nothing is put.
    ///
    /// It is inlined where the frame is judged. What changes the channel, and what is put, stands apart.
    #[inline(always)]
    fn carry_out_on_lent(
        &mut self,
        outbox: &mut Outbox,
        number: u16,
        reading: Reading<'_>,
        verdict: ChannelVerdict,
        heard: &mut Heard,
    ) -> Result<(), OutOfMemory>
        requires lends { self.old.settings.lends ≡ true }
        requires fits { FitsVerdict (connection_end self.old) number (reading_view reading) (OnChannel verdict) }
        requires staged { outbox.old.staged ≡ [] }
        ensures left { OnOk result (AlikeEnds
            (end_left (role_for self.old.settings) number (reading_view reading.entry) (OnChannel verdict)
            (connection_end self.old))
            (connection_end self.new)) }
        ensures put { OnOk result (outbox.new
            ≡ only (after_puts (map frame_of (owed_by false number
            (verdict_here self.old.settings (connection_end self.old) number (reading_view reading.entry)
            (OnChannel verdict))))
            outbox.old.output)) }
        ensures kept { OnErr result (outbox.new ≡ only outbox.old.output) }
        ensures heard { OnOk result (heard_view heard.new
            ≡ said_by Running number (reading_view reading.entry) (OnChannel verdict) (heard_view heard.old)) }
        ensures light { IsLight (channels_view self.old.channels number) (OnChannel verdict) → IsOk result }
        ensures stage { self.new.stage ≡ self.old.stage }
        ensures settings { self.new.settings ≡ self.old.settings }
    {
        keep_cause(reading, verdict, heard);
        self.apply_on_lent(number, reading, verdict)?;
        let owed = owed_on(verdict, number);
        put_owed(self.alloc, &self.settings, owed, outbox)
    }

    /// Does what the rules say of a frame of the connection. Out of memory, nothing is put.
    fn carry_out_lent(
        &mut self,
        outbox: &mut Outbox,
        number: u16,
        reading: Reading<'_>,
        verdict: Verdict,
        heard: &mut Heard,
    ) -> Result<(), OutOfMemory>
        requires fits { FitsVerdict (connection_end self.old) number (reading_view reading) (OnConnection verdict) }
        requires staged { outbox.old.staged ≡ [] }
        ensures left { OnOk result (connection_end self.new ≡ end_left (role_for self.old.settings) number
            (reading_view reading.entry) (OnConnection verdict) (connection_end self.old)) }
        ensures put { OnOk result (outbox.new
            ≡ only (after_puts (map frame_of (owed_by (leaves (phase_at self.old.stage)) number
            (verdict_here self.old.settings (connection_end self.old) number (reading_view reading.entry)
            (OnConnection verdict))))
            outbox.old.output)) }
        ensures kept { OnErr result (outbox.new ≡ only outbox.old.output) }
        ensures heard { OnOk result (heard_view heard.new ≡ said_by (phase_at self.old.stage) number
            (reading_view reading.entry) (OnConnection verdict) (heard_view heard.old)) }
        ensures light { DropsReading (phase_at self.old.stage) (channels_view self.old.channels number) number
            (reading_view reading.entry)
            → IsLight (channels_view self.old.channels number) (OnConnection verdict) → IsOk result }
        ensures settings { self.new.settings ≡ self.old.settings }
    {
        let closing = self.stage.is_closing();
        self.keep_said(number, reading, verdict, heard)?;
        self.apply_own(verdict);
        let owed = verdict.owed(closing);
        put_owed(self.alloc, &self.settings, owed, outbox)
    }

    /// Judges a frame of a channel and leaves the channel, where that is done at once. Otherwise nothing is done.
    #[inline(always)]
    #[tactic(auto, using(crate::proofs::StreamLemmas::end_itself))]
    fn pass_on_lent(&mut self, agreed: Agreed, number: u16, reading: Reading<'_>) -> Option<Told>
        requires above { 0 < number }
        requires running { self.old.stage ≡ Stage.Running agreed }
        requires lends { self.old.settings.lends ≡ true }
        ensures rules { IfSome result (λ told. FrameRules self.old.settings (connection_end self.old) number
            (reading_view reading.entry) (OnChannel (Proceeds told None))) }
        ensures left { IfSome result (λ told. AlikeEnds
            (end_left (role_for self.old.settings) number (reading_view reading.entry) (OnChannel (Proceeds told None))
            (connection_end self.old))
            (connection_end self.new)) }
        ensures settings { self.new.settings ≡ self.old.settings }
        ensures stage { self.new.stage ≡ self.old.stage }
        ensures none { result ≡ None → self.new ≡ self.old }
    {
        let site = self.site(number, agreed.channel_max);
        match self.channels.pass_lent(site, reading) {
            Some(told) => Some(told),
            None => None,
        }
    }

    /// Takes a frame of a channel as [`Connection::receive_lent`] does, where that is done at once: it puts nothing,
    /// and changes at most how far a content has come. The answer is the frame's event. Otherwise nothing is done.
    #[inline(always)]
    pub(crate) fn pass_lent(
        &mut self,
        outbox: &Outbox,
        agreed: Agreed,
        frame: FrameRef<'_>,
        reading: Reading<'_>,
        heard: &mut Heard,
    ) -> Option<Told>
        requires lends { self.old.settings.lends ≡ true }
        requires running { self.old.stage ≡ Stage.Running agreed }
        requires staged { outbox.now.staged ≡ [] }
        requires says { reading_view reading ≡ says (lent frame) }
        ensures receives { IfSome result (λ told. ReceivesLent self.old outbox.now.output heard.old (lent frame.entry)
            (reported told) self.new outbox.now heard.new) }
        ensures told { IfSome result (λ told. report_lent (lent frame.entry).channel (says (lent frame.entry))
            (Report.OnChannel told) ≡ lent_by self.old (lent frame.entry)) }
        ensures stage { self.new.stage ≡ self.old.stage }
        ensures none { result ≡ None → self.new ≡ self.old }
        ensures none_heard { result ≡ None → heard.new ≡ heard.old }
    {
        if frame.channel == 0 {
            return None;
        }
        match self.pass_on_lent(agreed, frame.channel, reading) {
            Some(told) => {
                keep_cause(reading, ChannelVerdict::Proceeds(told, None), heard);
                Some(told)
            }
            None => None,
        }
    }

    /// Takes a frame that says this. What the end owes is put, and the frame's event is answered. Out of memory,
    /// the end fails, and nothing is put.
    pub(crate) fn receive_lent(
        &mut self,
        outbox: &mut Outbox,
        frame: FrameRef<'_>,
        reading: Reading<'_>,
        tally: &mut Tally,
        heard: &mut Heard,
    ) -> Result<Report, CoreFault>
        requires lends { self.old.settings.lends ≡ true }
        requires taking { takes_frames (phase_at self.old.stage) ≡ true }
        requires staged { outbox.old.staged ≡ [] }
        requires says { reading_view reading ≡ says (lent frame) }
        ensures receives { ReceivesLent self.old outbox.old.output heard.old (lent frame.entry) result self.new
            outbox.new heard.new }
        ensures told { IfOk result (λ report. report_lent (lent frame.entry).channel (says (lent frame.entry)) report
            ≡ lent_by self.old (lent frame.entry)) }
        ensures tally { tally_view tally.new
            ≡ blames_frame (code_found result) (lent frame.entry) (tally_view tally.old) }
    {
        let Some(agreed) = self.agreed_on(frame.channel) else {
            // Bound first, as in `Endpoint::advance`.
            let answer = self.receive_own_lent(outbox, frame, reading, tally, heard);
            return answer;
        };
        let verdict = self.judge_on(agreed, frame.channel, reading);
        let Ok(()) = self.carry_out_on_lent(outbox, frame.channel, reading, verdict, heard) else {
            self.fail_at(self.stage);
            return Err(CoreFault::OutOfMemory);
        };
        let fault = fault_on(verdict);
        self.fail_by(fault, frame, tally);
        report_on(verdict)
    }

    /// Takes a frame that lies in the piece and says this, as [`Connection::receive_lent`] does. It stands apart: most
    /// frames pass.
    #[inline(never)]
    pub(crate) fn take_lent<'a>(
        &mut self,
        outbox: &mut Outbox,
        frame: FrameRef<'a>,
        reading: Reading<'a>,
        tally: &mut Tally,
        heard: &mut Heard,
    ) -> Result<Step<'a>, CoreFault>
        requires lends { self.old.settings.lends ≡ true }
        requires taking { takes_frames (phase_at self.old.stage) ≡ true }
        requires staged { outbox.old.staged ≡ [] }
        requires says { reading_view reading ≡ says (lent frame) }
        ensures receives { ReceivesLent self.old outbox.old.output heard.old (lent frame.entry) result self.new
            outbox.new heard.new }
        ensures octets { IfOk result (λ step. step.octets ≡ frame_length (lent frame.entry)) }
        ensures told { IfOk result (λ step. (given : Option Frame) → came_lent step.came given
            ≡ lent_by self.old (lent frame.entry)) }
        ensures tally { tally_view tally.new
            ≡ blames_frame (code_found result) (lent frame.entry) (tally_view tally.old) }
    {
        let report = self.receive_lent(outbox, frame, reading, tally, heard)?;
        Ok(step_reported(
            frame.payload.len() + OVERHEAD,
            frame.channel,
            reading,
            report,
        ))
    }

    /// The same with a frame of the connection. It stands apart, since few frames are.
    #[inline(never)]
    fn receive_own_lent(
        &mut self,
        outbox: &mut Outbox,
        frame: FrameRef<'_>,
        reading: Reading<'_>,
        tally: &mut Tally,
        heard: &mut Heard,
    ) -> Result<Report, CoreFault>
        requires taking { takes_frames (phase_at self.old.stage) ≡ true }
        requires zero { phase_at self.old.stage ≡ Running → (lent frame).channel ≡ 0 }
        requires staged { outbox.old.staged ≡ [] }
        requires says { reading_view reading ≡ says (lent frame) }
        ensures receives { ReceivesLent self.old outbox.old.output heard.old (lent frame.entry) result self.new
            outbox.new heard.new }
        ensures told { IfOk result (λ report. report_lent (lent frame.entry).channel (says (lent frame.entry)) report
            ≡ lent_by self.old (lent frame.entry)) }
        ensures tally { tally_view tally.new
            ≡ blames_frame (code_found result) (lent frame.entry) (tally_view tally.old) }
    {
        let before = self.stage;
        let verdict = self.judge(frame.channel, reading);
        let Ok(()) = self.carry_out_lent(outbox, frame.channel, reading, verdict, heard) else {
            self.fail_at(before);
            return Err(CoreFault::OutOfMemory);
        };
        let fault = verdict.fault();
        self.fail_by(fault, frame, tally);
        verdict.report()
    }

    /// Octets are no frame: as [`Connection::stop`], where nothing is noted.
    pub(crate) fn stop_lent(&mut self, outbox: &mut Outbox, kind: FrameFaultKind) -> CoreFault
        requires { outbox.old.staged ≡ [] }
        ensures said { Reports result (Found (fault_told kind)) }
        ensures memory { kind ≡ FrameFaultKind.OutOfMemory → is_out_of_memory result ≡ true }
        ensures end { SameEnd (cond (is_out_of_memory result) (as_failed (connection_end self.old))
            (stopped (role_for self.old.settings) (config_view self.old.settings) (connection_end self.old) kind))
            (connection_end self.new) }
        ensures output { outbox.new ≡ only (cond (is_out_of_memory result) outbox.old.output
            (after_puts (map frame_of (owed_at_fault (config_view self.old.settings)
            (connection_end self.old) kind)) outbox.old.output)) }
        ensures settings { self.new.settings ≡ self.old.settings }
    {
        let mut account = Account::new();
        self.stop(outbox, kind, &mut account)
    }
}
