//! An end of a connection that is kept with its history.
ghost use Rattle.std.specs.Prelude.{◌≡◌, ◌+◌, ◌<◌, ◌≤◌, true, false, ◌++◌, length, map, vec_len, vec_capacity, Err};
ghost use Rattle.std.specs.Prelude.{IfOk, MatchOption, None, Some};
ghost use Rattle.std.specs.Option.{option_copied};
ghost use Rattle.amqp_model.specs.Output.ArrangementRules.{FollowsRules};
ghost use Rattle.amqp_model.specs.End.Amounts.{GathersOctets, KeepsOctets};
ghost use Rattle.amqp_model.specs.End.Answers.{channel_state, octets_gathered, reply_due};
ghost use Rattle.amqp_method.specs.HeaderView.{properties_view};
ghost use Rattle.amqp_method.specs.Kinds.{has_content};
ghost use Rattle.amqp_method.specs.MethodView.{method_view};
ghost use Rattle.amqp_model.specs.Stream.Endpoint.{new_endpoint};
ghost use Rattle.amqp_model.specs.End.Bounds.{OthersAreFree};
ghost use Rattle.amqp_model.specs.End.Controls.{Admit, AnswerStart, Beat, Refuse};
ghost use Rattle.amqp_model.specs.End.EndVerdict.{takes_octets};
ghost use Rattle.amqp_model.specs.End.Heard.{nothing_heard};
ghost use Rattle.amqp_model.specs.History.Histories.{History};
ghost use Rattle.amqp_model.specs.History.Negotiation.{frame_limit};
ghost use Rattle.amqp_model.specs.Output.Outputs.{output_octets, waiting_on};
ghost use Rattle.amqp_channel.specs.Events.EventView.{agreed_there, state_view};
ghost use Rattle.amqp_channel.specs.Roles.{role_of};
ghost use Rattle.amqp_core.specs.Asks.View.{ask_view, lent_view};
ghost use Rattle.amqp_core.specs.Asks.Outcomes.{content_asked};
ghost use Rattle.amqp_core.specs.Faults.Blamed.{blame_view};
ghost use Rattle.amqp_core.specs.End.Bounded.{IsBounded};
ghost use Rattle.amqp_core.specs.Asks.ControlView.{control_view};
ghost use Rattle.amqp_core.specs.End.Counted.{heartbeat_in};
ghost use Rattle.amqp_core.specs.End.View as ends;
ghost use Rattle.amqp_core.specs.Heard.OfEnd.{IsLastHeard};
ghost use Rattle.amqp_core.specs.Heard.View.{cause_there, kept_of_kind, method_there};
ghost use Rattle.amqp_core.specs.Traced.Notes.{note_view, telling_view};
ghost use Rattle.amqp_core.specs.Connection.Stages.{phase_name};
ghost use Rattle.amqp_core.specs.Traced.Fields.{kept_of};
ghost use Rattle.amqp_core.specs.Traced.Tracing.{IsTraceOf};

use crate::asks::{Ask, LentAsk};
use crate::blame::Blame;
use crate::controls::LentControl;
use crate::end::End;
use crate::faults::{AskFault, CoreFault, OutOfMemory};
use crate::heard::Cause;
use crate::ledger::Ledger;
use crate::lent_message::LentMessage;
use crate::notes::Note;
use crate::roles::Role;
use crate::stage::Phase;
use crate::taken::Taken;
use crate::tellings::Telling;
use crate::tracing::{make_room, put, put_control, room_for_ask, take};
use amqp_channel::{Agreed, ChannelState};
use amqp_method::{Kind, Method, Properties};
use amqp_model::{
    answers, arrangement, controls, fitting, heard, octets, one_end, replies, traces,
};
use amqp_value::ShortStr;

/// An end of a connection, kept with its history: a note of each frame that it put and took, the items that it told and
/// said, and all octets that it was fed and that it wrote.
///
/// It is for records, for tests, and for whoever joins two ends in memory: nothing of what it keeps is ever let go. The
/// room for what a call adds is made before the end does anything, so a call that runs out of memory adds nothing.
#[derive(Drop)]
pub struct Traced<R: Role> {
    end: End<R>,
    ledger: Ledger,
    ghost plays: { role_of ledger.side ≡ ends.role_played end },
    ghost room: { vec_len ledger.written + length (output_octets (ends.endpoint_of end).output)
        ≤ vec_capacity ledger.written },
    pub ghost traces: { ∥ ((history : History) × IsTraceOf (ends.role_played end) (ends.config_at end)
        (kept_of end ledger) history) ∥₁ },
}

/// How many octets a piece lets the output grow by, at most: two frames of 4096.
const MOST_PUT: usize = 8192;

/// How many octets a heartbeat, or a decision in the handshake, lets the output grow by, at most: a frame of 4096.
const MOST_CONTROLLED: usize = 4096;

/// How many frames a piece makes an end note, at most: one that it takes, and two that it puts.
const MOST_NOTED: usize = 3;

impl<R: Role> Traced<R> {
    ghost use Rattle.amqp_core.specs.Traced.Asks.{AskedTrace, TraceAnswersNumber};
    ghost use Rattle.amqp_core.specs.Traced.Calls.{BeginsTrace, FeedsTrace, WritesTrace};
    ghost use Rattle.amqp_core.specs.Traced.Controls.{ControlledTrace};
    ghost use Rattle.amqp_core.specs.Traced.Queries.{AgreedOfHistory, DueOfHistory, GatheredOfHistory};
    ghost use Rattle.amqp_core.specs.Traced.Queries.{HeartbeatOfHistory, OutputOfHistory, PendingOfHistory};
    ghost use Rattle.amqp_core.specs.Traced.Queries.{PhaseOfHistory, StateOfHistory};
    ghost use Rattle.amqp_core.specs.Traced.View.{config_at, heard_in, role_played, settings_at, traced_of};

    /// An end with its history, as it begins.
    pub fn new(end: End<R>) -> Result<Traced<R>, OutOfMemory>
        requires { ends.endpoint_of end ≡ new_endpoint (ends.role_played end) }
        ensures { IfOk result (λ traced. BeginsTrace end traced) }
    {
        octets::octets_follow();
        let mut ledger = Ledger::new(end.allocator(), end.side());
        ledger.written.reserve_exact(end.output().len())?;
        Ok(Traced { end, ledger })
    }

    /// Takes octets as [`End::feed`] does. Out of memory, the end has failed, and what is kept of its history is as it
    /// was.
    pub fn feed(&mut self, piece: &[u8]) -> Result<Taken, CoreFault>
        ensures { FeedsTrace self.old piece.now result self.new }
    {
        octets::cut_changes_nothing();
        one_end::record_reads();
        heard::heard_is_kept();
        one_end::failed_follows();
        traces::memory_runs_out();
        if let Some(fault) = self.end.over() {
            return Err(fault);
        }
        let room = make_room(
            &self.end,
            &mut self.ledger,
            MOST_NOTED,
            piece.len(),
            MOST_PUT,
        );
        if room.is_err() {
            self.end.run_out();
            return Err(CoreFault::OutOfMemory);
        }
        let answer = take(&mut self.end, &mut self.ledger, piece);
        self.ledger.give_back(self.end.output().len());
        answer
    }

    /// Does what an application asks, as [`End::ask`] does. Out of memory, nothing has changed.
    pub fn ask(&mut self, ask: &Ask) -> Result<Option<u16>, AskFault>
        ensures asked { AskedTrace self.old (ask_view ask.now) result self.new }
        ensures number { TraceAnswersNumber self.old (ask_view ask.now) result }
    {
        self.ask_lent(ask.lent())
    }

    /// Sends a method and its content on a channel, as [`End::send_content`] does. What is kept of the item is a copy.
    pub fn send_content(
        &mut self,
        channel: u16,
        method: &Method,
        properties: &Properties,
        body: &[u8],
    ) -> Result<(), AskFault>
        ensures asked { has_content (method_view method.now).kind ≡ true
            → AskedTrace self.old (content_asked channel (method_view method.now) (properties_view properties.now)
            body.now) result self.new }
        ensures alone { has_content (method_view method.now).kind ≡ false → (result ≡ Err AskFault.NotSendable)
            × (self.new ≡ self.old) }
    {
        if !method.has_content() {
            return Err(AskFault::NotSendable);
        }
        let message = LentMessage::content(method, properties, body);
        self.ask_lent(LentAsk::Send(channel, message))?;
        Ok(())
    }

    /// Does what an ask that is lent says.
    fn ask_lent(&mut self, ask: LentAsk<'_>) -> Result<Option<u16>, AskFault>
        ensures asked { AskedTrace self.old (lent_view ask.entry) result self.new }
        ensures number { TraceAnswersNumber self.old (lent_view ask.entry) result }
    {
        let place = self.end.allow(ask)?;
        let Ok(item) = room_for_ask(&self.end, &mut self.ledger, ask, place) else {
            return Err(AskFault::OutOfMemory);
        };
        put(&mut self.end, &mut self.ledger, ask, place, item)
    }

    /// Puts a heartbeat, or what the application decides in the handshake. Out of memory, nothing has changed.
    fn control(&mut self, control: LentControl<'_>) -> Result<(), AskFault>
        ensures { ControlledTrace self.old (control_view control.entry) result self.new }
    {
        controls::controls_follow();
        self.end.allow_control(control)?;
        let Ok(()) = make_room(&self.end, &mut self.ledger, 1, 0, MOST_CONTROLLED) else {
            return Err(AskFault::OutOfMemory);
        };
        put_control(&mut self.end, &mut self.ledger, control)
    }

    /// Puts a heartbeat, as [`End::beat`] does.
    pub fn beat(&mut self) -> Result<(), AskFault>
        ensures { ControlledTrace self.old Beat result self.new }
    {
        self.control(LentControl::Beat)
    }

    /// Admits a login or an open, as [`End::admit`] does.
    pub fn admit(&mut self) -> Result<(), AskFault>
        ensures { ControlledTrace self.old Admit result self.new }
    {
        self.control(LentControl::Admit)
    }

    /// Refuses a login or an open, as [`End::refuse`] does.
    pub fn refuse(&mut self, code: u16, text: &ShortStr) -> Result<(), AskFault>
        ensures { ControlledTrace self.old (Refuse code text.now) result self.new }
    {
        self.control(LentControl::Refuse(code, text))
    }

    /// Answers start, as [`End::answer_start`] does.
    pub fn answer_start(
        &mut self,
        mechanism: &ShortStr,
        response: &[u8],
        locale: &ShortStr,
    ) -> Result<(), AskFault>
        ensures { ControlledTrace self.old (AnswerStart mechanism.now response.now locale.now) result self.new }
    {
        self.control(LentControl::AnswerStart(mechanism, response, locale))
    }

    /// The octets to send next.
    pub fn output(&self) -> &[u8]
        ensures octets { result.now ≡ output_octets (traced_of self.now).endpoint.output }
        // The frames that are not begun stand in it by the rules.
        ensures rules { FollowsRules (traced_of self.now).endpoint.output.last
            (traced_of self.now).endpoint.output.row }
        // With what was written, those of each channel are in the order put.
        ensures order { OutputOfHistory self.now }
    {
        self.end.output()
    }

    /// How many octets wait of a channel, as [`End::waiting`] counts them.
    pub fn waiting(&self, channel: u16) -> usize
        ensures { result ≡ waiting_on channel (traced_of self.now).endpoint.output }
    {
        self.end.waiting(channel)
    }

    /// How many octets wait.
    pub fn waiting_in_all(&self) -> usize
        ensures { result ≡ length (output_octets (traced_of self.now).endpoint.output) }
    {
        self.end.waiting_in_all()
    }

    /// So many octets of the output were sent.
    pub fn wrote(&mut self, octets: usize)
        requires { octets ≤ length (output_octets (traced_of self.old).endpoint.output) }
        ensures { WritesTrace self.old octets self.new }
    {
        octets::octets_follow();
        traces::memory_runs_out();
        arrangement::write_keeps_arranged();
        self.ledger.write(&self.end.output()[..octets]);
        self.end.wrote(octets);
    }

    /// How far the connection is.
    pub fn phase(&self) -> Phase
        ensures phase { result ≡ phase_name (traced_of self.now).endpoint.end.phase }
        ensures history { PhaseOfHistory self.now result }
    {
        self.end.phase()
    }

    /// What tune-ok settled.
    pub fn agreed(&self) -> Option<Agreed>
        ensures agreed { agreed_there result ≡ (traced_of self.now).endpoint.end.agreed }
        ensures history { AgreedOfHistory self.now (agreed_there result) }
    {
        self.end.agreed()
    }

    /// The heartbeat that was agreed, in seconds; 0 is none, and what stands before tune-ok.
    pub fn heartbeat(&self) -> u16
        ensures agreed { result ≡ heartbeat_in (traced_of self.now).endpoint.end.agreed }
        ensures history { HeartbeatOfHistory self.now result }
    {
        self.end.heartbeat()
    }

    /// How many octets the end took in all: as [`End::octets_taken`].
    pub fn octets_taken(&self) -> u64
        ensures { result ≡ (ends.counters_of self.now.end).tally.taken }
    {
        self.end.octets_taken()
    }

    /// What was wrong: as [`End::blame`].
    pub fn blame(&self) -> Option<&Blame>
        ensures { MatchOption result ((ends.counters_of self.now.end).tally.blame ≡ None)
            (λ blame. (ends.counters_of self.now.end).tally.blame ≡ Some (blame_view blame.now)) }
    {
        self.end.blame()
    }

    /// What the other end said in the handshake, as [`End::heard`] lends it.
    pub fn heard(&self, kind: Kind) -> Option<&Method>
        ensures kept { method_there (option_copied result) ≡ kept_of_kind kind (heard_in self.now).methods }
        // By each history of which this is what was heard, it is the last method of this kind.
        ensures history { IsLastHeard (role_played self.now) (config_at self.now) (heard_in self.now).methods kind
            (method_there (option_copied result)) }
    {
        self.end.heard(kind)
    }

    /// Forgets what the other end said in the handshake, its credentials among it. The octets that it was fed stay.
    pub fn forget_heard(&mut self)
        ensures heard { heard_in self.new ≡ record (heard_in self.old) { methods = nothing_heard } }
        ensures same { traced_of self.new ≡ traced_of self.old }
        ensures settings { settings_at self.new ≡ settings_at self.old }
    {
        self.end.forget_heard();
    }

    /// What the last close of the other end was about that an event reported, as [`End::closed_for`].
    pub fn closed_for(&self) -> Option<Cause>
        ensures { cause_there result ≡ (heard_in self.now).cause }
    {
        self.end.closed_for()
    }

    /// The state of a channel. Channel 0 and the numbers above the agreed maximum are Free.
    pub fn channel_state(&self, channel: u16) -> ChannelState
        ensures state { state_view result ≡ channel_state (traced_of self.now).endpoint.end channel }
        // So no more channels than were agreed are other than Free.
        ensures others { OthersAreFree (traced_of self.now).endpoint.end channel }
        ensures history { StateOfHistory self.now channel (state_view result) }
    {
        one_end::answers_are_of_history();
        answers::states_are_of_notes();
        self.end.channel_state(channel)
    }

    /// How many octets were taken of a frame that isn't whole yet, or of the protocol header: fewer than a frame may
    /// have.
    pub fn pending(&self) -> usize
        ensures count { result ≡ length (traced_of self.now).endpoint.unfinished }
        ensures below { result < frame_limit (traced_of self.now).endpoint.end.agreed }
        // A closed or failed end keeps none.
        ensures none { takes_octets (traced_of self.now).endpoint.end.phase ≡ false → result ≡ 0 }
        ensures history { PendingOfHistory self.now result }
    {
        self.end.pending()
    }

    /// How many octets are kept of the body of a content that isn't whole yet, in phase Running on an Open channel.
    pub fn gathered(&self, channel: u16) -> usize
        ensures gathered { result ≡ octets_gathered (traced_of self.now).endpoint.end channel }
        ensures most { result ≤ (config_at self.now).max_body }
        ensures history { GatheredOfHistory self.now channel result }
    {
        one_end::answers_are_of_history();
        one_end::record_reads();
        answers::octets_are_of_body();
        self.end.gathered(channel)
    }

    /// How many octets the end keeps for its peer, as [`End::kept`] counts them.
    pub fn kept(&self) -> usize
        ensures { KeepsOctets (traced_of self.now).endpoint result }
    {
        self.end.kept()
    }

    /// How many octets are kept of bodies on all channels, as [`End::gathered_in_all`] counts them.
    pub fn gathered_in_all(&self) -> usize
        ensures { GathersOctets (traced_of self.now).endpoint.end result }
    {
        self.end.gathered_in_all()
    }

    /// The request that is to be answered next on a channel.
    pub fn reply_due(&self, channel: u16) -> Option<Kind>
        ensures request { result ≡ reply_due (traced_of self.now).endpoint.end channel }
        // Of each channel at most 1,024 requests are kept, and one at a client.
        ensures most { IsBounded (role_played self.now) (config_at self.now) (traced_of self.now).endpoint.end }
        ensures history { DueOfHistory self.now channel result }
    {
        one_end::answers_are_of_history();
        one_end::record_reads();
        replies::unanswered_are_kept();
        fitting::owed_read_back();
        self.end.reply_due(channel)
    }

    /// A note of each frame that was put or taken, in order.
    pub fn notes(&self) -> &[Note]
        ensures { map note_view result.now ≡ (traced_of self.now).notes }
    {
        self.ledger.notes.as_slice()
    }

    /// The items that this end acted on, in the order of their last frames.
    pub fn told(&self) -> &[Telling]
        ensures { map telling_view result.now ≡ (traced_of self.now).told }
    {
        self.ledger.told.as_slice()
    }

    /// The items that this end sent, in the order of their last frames.
    pub fn said(&self) -> &[Telling]
        ensures { map telling_view result.now ≡ (traced_of self.now).said }
    {
        self.ledger.said.as_slice()
    }

    /// The octets that the end was fed; at a fault up to the one that shows it.
    pub fn fed(&self) -> &[u8]
        ensures { result.now ≡ (traced_of self.now).fed }
    {
        self.ledger.fed.as_slice()
    }

    /// The octets of the output that were sent.
    pub fn written(&self) -> &[u8]
        ensures { result.now ≡ (traced_of self.now).written }
    {
        self.ledger.written.as_slice()
    }

    /// All octets that the end has put: those that were sent, and then the output.
    pub fn put(&self) -> Result<Vec<u8>, OutOfMemory>
        ensures { IfOk result (λ put. put.items ≡ (traced_of self.now).written
            ++ output_octets (traced_of self.now).endpoint.output) }
    {
        let mut put = Vec::from_slice(self.end.allocator(), &self.ledger.written)?;
        put.extend_from_slice(self.end.output())?;
        Ok(put)
    }
}
