//! One end of a connection, a client or a server.
ghost use Rattle.std.specs.Option.{option_copied};
ghost use Rattle.std.specs.Prelude.{ℕ, List, ◌≡◌, ◌≢◌, ◌<◌, ◌≤◌, true, false, [], length, IsOk, IfOk, IfErr, OnOk};
ghost use Rattle.std.specs.Prelude.{MatchOption, Some, None, Err, OnErr};
ghost use Rattle.amqp_method.specs.HeaderView.{properties_view};
ghost use Rattle.amqp_method.specs.Kinds.{has_content};
ghost use Rattle.amqp_method.specs.MessageView.{message_view};
ghost use Rattle.amqp_method.specs.MethodView.{method_view};
ghost use Rattle.amqp_model.specs.Output.ArrangementRules.{FollowsRules};
ghost use Rattle.amqp_model.specs.End.Answers.{channel_state, octets_gathered, reply_due};
ghost use Rattle.amqp_model.specs.End.Asks as asks;
ghost use Rattle.amqp_model.specs.End.Closes.{cause_of, no_cause};
ghost use Rattle.amqp_model.specs.End.Asks.{refusal};
ghost use Rattle.amqp_model.specs.End.Bounds.{OthersAreFree};
ghost use Rattle.amqp_model.specs.End.Controls as controls;
ghost use Rattle.amqp_model.specs.End.EndVerdict.{takes_octets};
ghost use Rattle.amqp_model.specs.Stream.Endpoint.{after_feed};
ghost use Rattle.amqp_model.specs.End.Heard.{nothing_heard};
ghost use Rattle.amqp_model.specs.History.Histories.{History};
ghost use Rattle.amqp_model.specs.History.Negotiation as negotiation;
ghost use Rattle.amqp_model.specs.History.Negotiation.{frame_limit};
ghost use Rattle.amqp_model.specs.Laws.OctetLaws.{EndpointStandsFor};
ghost use Rattle.amqp_model.specs.Output.Outputs.{output_octets, waiting_on};
ghost use Rattle.amqp_core.specs.Traced.AccountView.{IsFresh, note_there};
ghost use Rattle.amqp_core.specs.Faults.Answering.{ran_out};
ghost use Rattle.amqp_core.specs.Traced.NotedAsks.{IsChannelOf, IsSizeOf};
ghost use Rattle.amqp_core.specs.Asks.View.{ask_view, lent_view};
ghost use Rattle.amqp_core.specs.Asks.Outcomes.{content_asked};
ghost use Rattle.amqp_core.specs.Asks.Effects.{RefusesAsk};
ghost use Rattle.amqp_core.specs.End.Bounded.{IsBounded};
ghost use Rattle.amqp_core.specs.Config.Configs.{settings_of};
ghost use Rattle.amqp_core.specs.Asks.ControlView.{control_view};
ghost use Rattle.amqp_core.specs.Asks.Controlled.{refusal_by};
ghost use Rattle.amqp_core.specs.Asks.Controlling.{RefusesControl, verdict_at};
ghost use Rattle.amqp_core.specs.End.Counted.{heartbeat_in};
ghost use Rattle.amqp_core.specs.End.Counters.{counted_with};
ghost use Rattle.amqp_core.specs.End.EndpointView.{role_at};
ghost use Rattle.std.proofs.Props.{props};
ghost use Rattle.amqp_channel.specs.Events.EventView.{agreed_there, message_of, state_view};
ghost use Rattle.amqp_channel.specs.Events.PartsView.{parts_there};
ghost use Rattle.amqp_channel.specs.Roles.{role_of};
ghost use Rattle.amqp_core.specs.End.Kept.{IsKept, agreed_prop};
ghost use Rattle.amqp_core.specs.Connection.Dropping.{DropsInPlace};
ghost use Rattle.amqp_core.specs.Heard.OfEnd.{IsLastHeard};
ghost use Rattle.amqp_core.specs.Heard.Hearing.{Hears};
ghost use Rattle.amqp_core.specs.Heard.View.{cause_there, cause_view, kept_of_kind, method_there};
ghost use Rattle.amqp_core.specs.End.Feeding.{event_in, IsFed, IsMessage, SameButChannels};
ghost use Rattle.amqp_core.specs.End.Following.{GoesOn};
ghost use Rattle.amqp_core.specs.Connection.Stages.{phase_name};

use crate::account::Account;
use crate::allowing::Place;
use crate::asks::{Ask, LentAsk};
use crate::blame::Blame;
use crate::config::Config;
use crate::controls::LentControl;
use crate::endpoint::Endpoint;
use crate::faults::{AskFault, ConfigFault, CoreFault};
use crate::heard::{Cause, Heard, NO_CAUSE};
use crate::lent_message::LentMessage;
use crate::notes::Note;
use crate::roles::Role;
use crate::stage::Phase;
use crate::taken::Taken;
use amqp_channel::{Agreed, ChannelState, Side};
use amqp_method::{Kind, Message, Method, Properties};
use amqp_model::{answers, arrangement, bounds, fitting, heard, octets, one_end, replies, traces};
use amqp_outbox::{Chunks, HandOverFault, SendQueue};
use amqp_value::ShortStr;
use std::alloc::Global;
use std::marker::PhantomData;

/// One end of a connection.
///
/// It touches no socket. Octets that came are handed to [`End::feed`], piece by piece, however they were cut; octets
/// that are to be sent are read from [`End::output`], and [`End::wrote`] says how many of them were sent. What an
/// application does with the octets that one read gave it, and with those that are to be sent:
///
///     let mut rest = &buffer[..read];
///     while !rest.is_empty() {
///         let taken = end.feed(rest)?;
///         rest = &rest[taken.octets..];
///         if let Some(event) = taken.event {
///             handle(event)?;
///         }
///     }
///     let sent = stream.write(end.output())?;
///     end.wrote(sent);
///
/// After a fault, and after a close, what was put before can still be sent.
#[derive(Drop)]
pub struct End<R: Role> {
    pub(crate) inner: Endpoint,
    pub(crate) role: PhantomData<R>,
    /// how many frames were taken, and how many octets of the output were written, up to the greatest number
    pub(crate) frames_taken: u64,
    pub(crate) octets_written: u64,
    pub(crate) heard: Heard,
    pub ghost kept: { IsKept inner } by { Prim.hlevel (props, agreed_prop) },
    pub ghost plays: { role_at inner ≡ R.role },
    pub ghost gathers: { inner.connection.settings.lends ≡ false },
}

/// One more than before, where a frame was taken.
fn counted(before: u64, took: Option<Note>) -> u64
    ensures { result ≡ counted_with (note_there took) before }
{
    match took {
        Some(_) => before.saturating_add(1),
        None => before,
    }
}

impl<R: Role> End<R> {
    ghost use Rattle.amqp_core.specs.Traced.AccountView.{IsAccount, came_by, taken_by};
    ghost use Rattle.amqp_core.specs.End.Beginning.{IsFaultIn, IsNewEnd};
    ghost use Rattle.amqp_core.specs.Faults.Blamed.{blame_view, Blames};
    ghost use Rattle.amqp_core.specs.End.Controls.{Controlled};
    ghost use Rattle.amqp_core.specs.End.Asks.{AnswersLowest, AnswersNumber, Asked};
    ghost use Rattle.amqp_core.specs.End.View.{config_at, counters_of, endpoint_of, heard_in, role_played, settings_at};
    ghost use Rattle.amqp_core.specs.End.Feeds.{Feeds, fed_to};
    ghost use Rattle.amqp_core.specs.End.Feeding.{SameEndpoint, ran_out_of};
    ghost use Rattle.amqp_core.specs.End.Growth.{GrowsLittle};
    ghost use Rattle.amqp_core.specs.Faults.Overs.{IsOver};
    ghost use Rattle.amqp_core.specs.End.Queries.{AgreedOfHistory, DueOfHistory, GatheredOfHistory, HeartbeatOfHistory};
    ghost use Rattle.amqp_core.specs.End.Queries.{OutputIsInOrder, PendingOfHistory, PhaseOfHistory, StateOfHistory};
    ghost use Rattle.amqp_core.specs.End.Writes.{HandsOver, Wrote};

    /// An end as it begins. A client has the protocol header to write, a server nothing.
    pub fn new(alloc: Global, config: Config<R>) -> Result<End<R>, ConfigFault>
        ensures new { IfOk result (λ end. IsNewEnd (settings_of R.hello_of config) end) }
        ensures fault { IfErr result (λ fault. IsFaultIn (settings_of R.hello_of config) fault) }
    {
        octets::octets_follow();
        fitting::owed_read_back();
        let settings = config.into_settings(alloc)?;
        settings.try_greeting(alloc)?;
        let inner = Endpoint::new(alloc, settings)?;
        Ok(End {
            inner,
            role: PhantomData,
            frames_taken: 0,
            octets_written: 0,
            heard: Heard::nothing(alloc),
        })
    }

    /// Takes octets of a piece: up to the end of the next frame, or of the protocol header at a server that awaits it.
    /// Where the piece ends before that, all of it is taken. A piece that has octets loses at least one, unless the end
    /// is closed or has failed.
    ///
    /// Replies wait in the output, which has no limit: do not feed while [`End::output`] is longer than a bound of your
    /// own.
    pub fn feed(&mut self, piece: &[u8]) -> Result<Taken, CoreFault>
        ensures { Feeds self.old piece.now result self.new }
    {
        octets::cut_changes_nothing();
        one_end::record_reads();
        heard::heard_is_kept();
        let mut account = Account::new();
        let answer = self.advance(piece, &mut account);
        account.taken(answer)
    }

    /// Takes octets as [`End::feed`] does, and accounts for what came of them.
    pub(crate) fn advance(&mut self, piece: &[u8], account: &mut Account) -> Result<(), CoreFault>
        requires fresh { IsFresh account.old }
        ensures fed { IsFed (taken_by result account.new) (endpoint_of self.old) (after_feed (role_played self.old)
            (config_at self.old) (endpoint_of self.old) piece.now) (endpoint_of self.new) }
        ensures within { IfOk (taken_by result account.new) (λ taken. taken.octets ≤ length piece.now) }
        ensures progress { IfOk (taken_by result account.new) (λ taken. piece.now ≢ [] → 0 < taken.octets) }
        ensures in_place { DropsInPlace (role_played self.old) (endpoint_of self.old) piece.now → IsOk result }
        ensures history { (history : History) (fed written : List ℕ)
            → EndpointStandsFor (role_played self.old) (config_at self.old) (endpoint_of self.old) history fed written
            → ∥ GoesOn (role_played self.old) (config_at self.old) (ran_out result) (endpoint_of self.old) history fed
            written piece.now (after_feed (role_played self.old) (config_at self.old) (endpoint_of self.old)
            piece.now) (endpoint_of self.new) ∥₁ }
        ensures memory { ran_out result ≡ true → takes_octets (endpoint_of self.old).end.phase ≡ true }
        ensures account { takes_octets (endpoint_of self.old).end.phase ≡ true → ran_out result ≡ false
            → IsAccount (role_played self.old) (config_at self.old) (endpoint_of self.old) piece.now
            (after_feed (role_played self.old) (config_at self.old) (endpoint_of self.old) piece.now)
            account.new.octets (came_by (settings_at self.old) account.new (event_in (taken_by result account.new))) }
        // A message that is told leaves all but its channel as it was.
        ensures message { OnOk result (IsMessage (parts_there account.new.parts)
            → SameButChannels (endpoint_of self.old) (endpoint_of self.new)) }
        ensures grows { GrowsLittle (endpoint_of self.old).output (endpoint_of self.new).output }
        ensures heard { Hears (role_played self.old) (config_at self.old) result (endpoint_of self.old) piece.now
            (fed_to self.old piece.now) (heard_in self.old) (heard_in self.new) }
        ensures frames { (counters_of self.new).frames ≡ counted_with (note_there account.new.took)
            (counters_of self.old).frames }
        ensures octets { (counters_of self.new).octets ≡ (counters_of self.old).octets }
        ensures tally { Blames (role_played self.old) result (endpoint_of self.old) piece.now
            (after_feed (role_played self.old) (config_at self.old) (endpoint_of self.old) piece.now)
            (counters_of self.old).tally (counters_of self.new).tally }
        ensures settings { settings_at self.new ≡ settings_at self.old }
    {
        octets::octets_follow();
        one_end::failed_follows();
        traces::memory_runs_out();
        let answer = self.inner.feed(piece, account, &mut self.heard);
        self.frames_taken = counted(self.frames_taken, account.took);
        answer
    }

    /// Out of memory: the end has failed, and what it has put can still be sent.
    pub(crate) fn run_out(&mut self)
        requires { takes_octets (endpoint_of self.old).end.phase ≡ true }
        ensures left { SameEndpoint (ran_out_of (endpoint_of self.old)) (endpoint_of self.new) }
        ensures settings { settings_at self.new ≡ settings_at self.old }
        ensures heard { heard_in self.new ≡ heard_in self.old }
    {
        self.inner.run_out();
    }

    /// Which of the two ends it is.
    pub(crate) fn side(&self) -> Side
        ensures { role_of result ≡ role_played self.now }
    {
        self.inner.connection.settings.hello.side()
    }

    pub(crate) fn allocator(&self) -> Global {
        self.inner.connection.alloc
    }

    /// The fault that a feed answers of an end that is closed, or has failed.
    pub(crate) fn over(&self) -> Option<CoreFault>
        ensures { MatchOption result (takes_octets (endpoint_of self.now).end.phase ≡ true)
            (IsOver (endpoint_of self.now).end.phase) }
    {
        if self.inner.connection.stage.is_closed() {
            return Some(CoreFault::Closed);
        }
        if self.inner.connection.stage.is_failed() {
            return Some(CoreFault::Failed);
        }
        None
    }

    /// The octets to send next. They stay until [`End::wrote`] says that they were sent.
    pub fn output(&self) -> &[u8]
        ensures octets { result.now ≡ output_octets (endpoint_of self.now).output }
        // The frames that are not begun stand in it by the rules.
        ensures rules { FollowsRules (endpoint_of self.now).output.last (endpoint_of self.now).output.row }
        // With what was written, those of each channel are in the order put.
        ensures order { OutputIsInOrder self.now }
    {
        arrangement::output_follows();
        one_end::closes_are_put_last();
        fitting::owed_read_back();
        self.inner.outbox.output()
    }

    /// How many octets wait of a channel, put and not sent: what is left of the frame that is begun, where it is the
    /// channel's, and its other frames. The protocol header counts to channel 0. All frames that wait are looked at.
    pub fn waiting(&self, channel: u16) -> usize
        ensures { result ≡ waiting_on channel (endpoint_of self.now).output }
    {
        self.inner.outbox.waiting(channel)
    }

    /// How many octets wait, put and not sent: as many as the output has.
    pub fn waiting_in_all(&self) -> usize
        ensures { result ≡ length (output_octets (endpoint_of self.now).output) }
    {
        self.inner.outbox.waiting_in_all()
    }

    /// So many octets of the output were sent.
    pub fn wrote(&mut self, octets: usize)
        requires { octets ≤ length (output_octets (endpoint_of self.old).output) }
        ensures { Wrote self.old octets self.new }
    {
        octets::octets_follow();
        arrangement::write_keeps_arranged();
        arrangement::output_follows();
        self.inner.wrote(octets);
        self.octets_written = self.octets_written.saturating_add(octets as u64);
    }

    /// Adds what waits to a queue, and counts it as sent here: all of it, or nothing.
    ///
    /// The output is one slice, so a put that goes before others moves octets. In the queue it moves none: an end that
    /// sends beside much that waits hands its output over after each call that puts. What the queue has is what is to
    /// be sent then.
    ///
    ///     end.send(channel, &message)?;
    ///     end.hand_over(&mut queue)?;
    ///     let mut pieces = queue.pieces();
    ///     while let Some(piece) = pieces.next_piece() {
    ///         socket.write_all(piece)?;
    ///     }
    ///
    /// The frames leave the queue in the fair order, from the frame that was begun there most recently. Where the
    /// answer is `Begun`, send what the queue has and then [`End::output`]: so it is with the protocol header of a
    /// client.
    pub fn hand_over(&mut self, queue: &mut SendQueue) -> Result<(), HandOverFault>
        ensures { HandsOver self.old queue.old result self.new queue.new }
    {
        self.inner.outbox.copy_into(queue)?;
        let octets = self.waiting_in_all();
        self.wrote(octets);
        Ok(())
    }

    /// How far the connection is.
    pub fn phase(&self) -> Phase
        ensures phase { result ≡ phase_name (endpoint_of self.now).end.phase }
        ensures history { PhaseOfHistory self.now result }
    {
        self.inner.connection.stage.phase()
    }

    /// What tune-ok settled: known from the moment on that a client has put it, or that a server has taken it.
    pub fn agreed(&self) -> Option<Agreed>
        ensures agreed { agreed_there result ≡ (endpoint_of self.now).end.agreed }
        ensures history { AgreedOfHistory self.now (agreed_there result) }
    {
        self.inner.connection.stage.agreed()
    }

    /// The heartbeat that was agreed, in seconds; 0 is none, and what stands before tune-ok (section 4.2.7).
    pub fn heartbeat(&self) -> u16
        ensures agreed { result ≡ heartbeat_in (endpoint_of self.now).end.agreed }
        ensures history { HeartbeatOfHistory self.now result }
    {
        self.inner.connection.stage.heartbeat()
    }

    /// What the other end said in the handshake, as it was taken: a client hears start and tune, a server start-ok,
    /// tune-ok and open, each from the moment on that it goes on with it. Who logs in, to which virtual host, and what
    /// the other end can do stands there.
    ///
    /// Of other kinds it is None, and so it is after [`End::forget_heard`].
    pub fn heard(&self, kind: Kind) -> Option<&Method>
        ensures kept { method_there (option_copied result) ≡ kept_of_kind kind (heard_in self.now).methods }
        // By each history of which this is what was heard, it is the last method of this kind.
        ensures history { IsLastHeard (role_played self.now) (config_at self.now) (heard_in self.now).methods kind
            (method_there (option_copied result)) }
    {
        self.heard.of(kind)
    }

    /// Forgets what the other end said in the handshake, its credentials among it, and gives back room that its output
    /// doesn't need now: for an end that may stay idle.
    pub fn forget_heard(&mut self)
        ensures heard { heard_in self.new ≡ record (heard_in self.old) { methods = nothing_heard } }
        ensures same { endpoint_of self.new ≡ endpoint_of self.old }
        ensures settings { settings_at self.new ≡ settings_at self.old }
        ensures counters { counters_of self.new ≡ counters_of self.old }
    {
        self.heard.forget();
        self.inner.outbox.shrink_to_fit();
    }

    /// What the last close of the other end was about, of a channel or of the connection, that an event reported.
    pub fn closed_for(&self) -> Option<Cause>
        ensures { cause_there result ≡ (heard_in self.now).cause }
    {
        self.heard.closed_for
    }

    /// How many frames the end took, heartbeats too, whatever came of them. Where it is the same at two looks no frame
    /// came between them. It stays at the greatest number of 64 bits.
    pub fn frames_taken(&self) -> u64
        ensures { result ≡ (counters_of self.now).frames }
    {
        self.frames_taken
    }

    /// How many octets of the output were written, as [`End::wrote`] said: where it is the same at two looks, no octet
    /// went between them. It stays at the greatest number of 64 bits.
    pub fn octets_written(&self) -> u64
        ensures { result ≡ (counters_of self.now).octets }
    {
        self.octets_written
    }

    /// How many octets the end took in all, also those with which it found fault. It stays at the greatest number of 64
    /// bits.
    pub fn octets_taken(&self) -> u64
        ensures { result ≡ (counters_of self.now).tally.taken }
    {
        self.inner.tally.octets
    }

    /// What was wrong, where the end found fault with octets that it took. There is none before, nor where memory was
    /// refused.
    pub fn blame(&self) -> Option<&Blame>
        ensures { MatchOption result ((counters_of self.now).tally.blame ≡ None)
            (λ blame. (counters_of self.now).tally.blame ≡ Some (blame_view blame.now)) }
    {
        self.inner.tally.blame.as_ref()
    }

    /// The state of a channel. Channel 0 and the numbers above the agreed maximum are Free.
    pub fn channel_state(&self, channel: u16) -> ChannelState
        ensures state { state_view result ≡ channel_state (endpoint_of self.now).end channel }
        // So no more channels than were agreed are other than Free.
        ensures others { OthersAreFree (endpoint_of self.now).end channel }
        ensures history { StateOfHistory self.now channel (state_view result) }
    {
        bounds::answers_are_bounded();
        one_end::answers_are_of_history();
        answers::states_are_of_notes();
        self.inner.connection.channel_state(channel)
    }

    /// How many octets were taken of a frame that isn't whole yet, or of the protocol header: fewer than a frame may
    /// have.
    pub fn pending(&self) -> usize
        ensures count { result ≡ length (endpoint_of self.now).unfinished }
        ensures below { result < frame_limit (endpoint_of self.now).end.agreed }
        // A closed or failed end keeps none.
        ensures none { takes_octets (endpoint_of self.now).end.phase ≡ false → result ≡ 0 }
        ensures history { PendingOfHistory self.now result }
    {
        self.inner.pending()
    }

    /// How many octets are kept of the body of a content that isn't whole yet, in phase Running on an Open channel.
    pub fn gathered(&self, channel: u16) -> usize
        ensures gathered { result ≡ octets_gathered (endpoint_of self.now).end channel }
        ensures most { result ≤ (config_at self.now).max_body }
        ensures history { GatheredOfHistory self.now channel result }
    {
        bounds::answers_are_bounded();
        one_end::answers_are_of_history();
        one_end::record_reads();
        answers::octets_are_of_body();
        self.inner.connection.gathered(channel)
    }

    /// The request that is to be answered next on a channel: at a client the one that waits for its reply, at a server
    /// the oldest that it took.
    pub fn reply_due(&self, channel: u16) -> Option<Kind>
        ensures request { result ≡ reply_due (endpoint_of self.now).end channel }
        // Of each channel at most 1,024 requests are kept, and one at a client.
        ensures most { IsBounded (role_played self.now) (config_at self.now) (endpoint_of self.now).end }
        ensures history { DueOfHistory self.now channel result }
    {
        one_end::answers_are_of_history();
        one_end::record_reads();
        replies::unanswered_are_kept();
        fitting::owed_read_back();
        self.inner.connection.reply_due(channel)
    }

    /// Asks something of the end: it is refused with the first refusal that applies, which changes nothing, or its
    /// frames are put. The answer is the channel that an open takes.
    pub fn ask(&mut self, ask: &Ask) -> Result<Option<u16>, AskFault>
        ensures asked { Asked self.old (ask_view ask.now) result self.new }
        ensures number { AnswersNumber self.old (ask_view ask.now) result }
    {
        self.ask_lent(ask.lent())
    }

    /// The same of an ask that is lent.
    pub(crate) fn ask_lent(&mut self, ask: LentAsk<'_>) -> Result<Option<u16>, AskFault>
        ensures asked { Asked self.old (lent_view ask.entry) result self.new }
        ensures number { AnswersNumber self.old (lent_view ask.entry) result }
    {
        self.inner.ask(ask)
    }

    /// Where the frames of an ask go, or why it is refused.
    pub(crate) fn allow(&self, ask: LentAsk<'_>) -> Result<Place, AskFault>
        ensures allowed { OnOk result (refusal (role_played self.now) (endpoint_of self.now).end (lent_view ask.entry)
            ≡ None) }
        ensures refused { IfErr result (λ fault. RefusesAsk (role_played self.now) (lent_view ask.entry) fault
            (endpoint_of self.now) (endpoint_of self.now)) }
        ensures channel { IfOk result (λ place. IsChannelOf (endpoint_of self.now).end (lent_view ask.entry)
            place.channel) }
        ensures size { IfOk result (λ place. IsSizeOf (endpoint_of self.now).end.agreed place.frame_max) }
        ensures least { IfOk result (λ place. negotiation.FRAME_MIN ≤ place.frame_max) }
    {
        self.inner.allow(ask)
    }

    /// Why a heartbeat, or what the application decides, is refused, if it is. It takes no memory.
    pub(crate) fn allow_control(&self, control: LentControl<'_>) -> Result<(), AskFault>
        ensures allowed { OnOk result (refusal_by (verdict_at (role_played self.now) (config_at self.now)
            (control_view control.entry) (endpoint_of self.now)) ≡ None) }
        ensures refused { IfErr result (λ fault. RefusesControl (role_played self.now) (config_at self.now)
            (control_view control.entry) fault (endpoint_of self.now) (endpoint_of self.now)) }
    {
        self.inner.allow_control(control)
    }

    /// Puts a heartbeat, or what the application decides in the handshake.
    pub(crate) fn control(&mut self, control: LentControl<'_>) -> Result<(), AskFault>
        ensures { Controlled self.old (control_view control.entry) result self.new }
    {
        self.inner.control(control)
    }

    /// Puts a heartbeat, on a connection that is Running (section 4.2.7).
    ///
    /// When to beat is the application's: an end knows no clock. It owes one each [`Agreed::heartbeat`] seconds in
    /// which it writes nothing else, and where that is 0 none.
    pub fn beat(&mut self) -> Result<(), AskFault>
        ensures { Controlled self.old controls.Beat result self.new }
    {
        self.control(LentControl::Beat)
    }

    /// Admits what a gated server holds: a login, to which it then puts tune, or an open, to which it puts open-ok.
    /// With the latter the connection is Running.
    ///
    /// It is refused as [`AskFault::NotAwaited`] where no [`Event::LoginAsked`](crate::Event::LoginAsked) or
    /// [`Event::OpenAsked`](crate::Event::OpenAsked) waits for it, and always at a client.
    pub fn admit(&mut self) -> Result<(), AskFault>
        ensures { Controlled self.old controls.Admit result self.new }
    {
        self.control(LentControl::Admit)
    }

    /// Refuses what a gated server holds, a login or an open: it closes the connection, with a code and a text, as 403
    /// access-refused or 530 not-allowed. It is refused itself where [`End::admit`] is.
    pub fn refuse(&mut self, code: u16, text: &ShortStr) -> Result<(), AskFault>
        ensures { Controlled self.old (controls.Refuse code text.now) result self.new }
    {
        self.control(LentControl::Refuse(code, text))
    }

    /// Answers the start that a gated client holds: it puts start-ok with its own properties, and with the mechanism,
    /// the response and the locale that its application chose of those that the server offers.
    ///
    /// It is refused as [`AskFault::NotAwaited`] where no [`Event::AnswerAsked`](crate::Event::AnswerAsked) waits for
    /// it, and always at a server; and as [`AskFault::TooLarge`] where the frame would be longer than 4096 octets.
    pub fn answer_start(
        &mut self,
        mechanism: &ShortStr,
        response: &[u8],
        locale: &ShortStr,
    ) -> Result<(), AskFault>
        ensures { Controlled self.old (controls.AnswerStart mechanism.now response.now locale.now) result self.new }
    {
        self.control(LentControl::AnswerStart(mechanism, response, locale))
    }

    /// Opens the lowest channel that is free, which it answers. Only a client opens channels.
    pub fn open_channel(&mut self) -> Result<u16, AskFault>
        ensures asked { Asked self.old asks.Open result self.new }
        ensures number { AnswersLowest self.old result }
    {
        match self.inner.ask(LentAsk::Open)? {
            Some(number) => Ok(number),
            None => unreachable!(),
        }
    }

    /// Sends a message on a channel: a method, or a method with its content, which is cut to the agreed frame size.
    pub fn send(&mut self, channel: u16, message: &Message) -> Result<(), AskFault>
        ensures { Asked self.old (asks.Send channel (message_of (message_view message.now))) result self.new }
    {
        self.inner
            .ask(LentAsk::Send(channel, LentMessage::of(message)))?;
        Ok(())
    }

    /// Sends a method and its content on a channel, as [`End::send`] sends the message that these make. The body is
    /// copied once, into the output, and nothing else is.
    ///
    /// A method that no content follows makes no such message: it is [`AskFault::NotSendable`], whatever else is so.
    pub fn send_content(
        &mut self,
        channel: u16,
        method: &Method,
        properties: &Properties,
        body: &[u8],
    ) -> Result<(), AskFault>
        ensures asked { has_content (method_view method.now).kind ≡ true
            → Asked self.old (content_asked channel (method_view method.now) (properties_view properties.now)
            body.now) result self.new }
        ensures alone { has_content (method_view method.now).kind ≡ false → (result ≡ Err AskFault.NotSendable)
            × (self.new ≡ self.old) }
    {
        if !method.has_content() {
            return Err(AskFault::NotSendable);
        }
        let message = LentMessage::content(method, properties, body);
        self.inner.ask(LentAsk::Send(channel, message))?;
        Ok(())
    }

    /// Sends a method and its content on a channel, as [`End::send_content`] does, the body out of chunks. Each chunk
    /// is let go once its octets stand in the output, so that a large body is not in memory twice. An error leaves the
    /// body as it was.
    pub fn send_chunks(
        &mut self,
        channel: u16,
        method: &Method,
        properties: &Properties,
        body: &mut Chunks,
    ) -> Result<(), AskFault>
        ensures asked { has_content (method_view method.now).kind ≡ true
            → Asked self.old (content_asked channel (method_view method.now) (properties_view properties.now)
            body.old) result self.new }
        ensures alone { has_content (method_view method.now).kind ≡ false → (result ≡ Err AskFault.NotSendable)
            × (self.new ≡ self.old) }
        ensures taken { OnOk result (body.new ≡ []) }
        ensures kept { OnErr result (body.new ≡ body.old) }
    {
        if !method.has_content() {
            return Err(AskFault::NotSendable);
        }
        self.inner.send_chunks(channel, method, properties, body)
    }

    /// Asks the other end to send contents on a channel, or no more of them.
    pub fn flow(&mut self, channel: u16, active: bool) -> Result<(), AskFault>
        ensures { Asked self.old (asks.Flow channel active) result self.new }
    {
        self.inner.ask(LentAsk::Flow(channel, active))?;
        Ok(())
    }

    /// Closes a channel, with a code and a text.
    pub fn close_channel(
        &mut self,
        channel: u16,
        code: u16,
        text: &ShortStr,
    ) -> Result<(), AskFault>
        ensures { Asked self.old (asks.CloseChannel channel code text.now no_cause) result self.new }
    {
        self.put_channel_close(channel, code, text, NO_CAUSE)
    }

    /// Closes a channel for a method of this kind: the close names its class and its method, which the other end
    /// reads as the cause.
    pub fn close_channel_for(
        &mut self,
        channel: u16,
        code: u16,
        text: &ShortStr,
        kind: Kind,
    ) -> Result<(), AskFault>
        ensures { Asked self.old (asks.CloseChannel channel code text.now (cause_of kind)) result self.new }
    {
        let cause = Cause::by(kind);
        self.put_channel_close(channel, code, text, cause)
    }

    fn put_channel_close(
        &mut self,
        channel: u16,
        code: u16,
        text: &ShortStr,
        cause: Cause,
    ) -> Result<(), AskFault>
        ensures { Asked self.old (asks.CloseChannel channel code text.now (cause_view cause)) result self.new }
    {
        self.inner
            .ask(LentAsk::CloseChannel(channel, code, text, cause))?;
        Ok(())
    }

    /// Closes the connection, with a code and a text.
    pub fn close(&mut self, code: u16, text: &ShortStr) -> Result<(), AskFault>
        ensures { Asked self.old (asks.Close code text.now no_cause) result self.new }
    {
        self.put_close(code, text, NO_CAUSE)
    }

    /// Closes the connection for a method of this kind, as [`End::close_channel_for`] does a channel.
    pub fn close_for(&mut self, code: u16, text: &ShortStr, kind: Kind) -> Result<(), AskFault>
        ensures { Asked self.old (asks.Close code text.now (cause_of kind)) result self.new }
    {
        let cause = Cause::by(kind);
        self.put_close(code, text, cause)
    }

    fn put_close(&mut self, code: u16, text: &ShortStr, cause: Cause) -> Result<(), AskFault>
        ensures { Asked self.old (asks.Close code text.now (cause_view cause)) result self.new }
    {
        self.inner.ask(LentAsk::Close(code, text, cause))?;
        Ok(())
    }

    /// Says that the server takes no more contents, and why. Only a server says so.
    pub fn blocked(&mut self, reason: &ShortStr) -> Result<(), AskFault>
        ensures { Asked self.old (asks.Blocked reason.now) result self.new }
    {
        self.inner.ask(LentAsk::Blocked(reason))?;
        Ok(())
    }

    /// Says that the server takes contents again. Only a server says so.
    pub fn unblocked(&mut self) -> Result<(), AskFault>
        ensures { Asked self.old asks.Unblocked result self.new }
    {
        self.inner.ask(LentAsk::Unblocked)?;
        Ok(())
    }
}
