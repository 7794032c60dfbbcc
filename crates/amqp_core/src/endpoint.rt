//! One end of a connection, octet by octet: what is taken of a piece, and the octets that are to be written.
//!
//! A server compares the first octets with the protocol header. All others go to the splitter, which lends each frame
//! from the piece where it lies whole in it; the frame is taken while it is lent, so a body is copied once.
ghost use Rattle.std.specs.Prelude.{◌≡◌, ◌≢◌, ◌+◌, ◌<◌, ◌≤◌, ℕ, List, ◌++◌, length, take, true, false, [], Some, None, Ok, IsOk, IfOk};
ghost use Rattle.std.specs.Prelude.{IfErr, OnOk, OnErr};
ghost use Rattle.amqp_method.specs.HeaderView.{properties_view};
ghost use Rattle.amqp_method.specs.Kinds.{has_content};
ghost use Rattle.amqp_method.specs.MethodView.{method_view};
ghost use Rattle.amqp_model.specs.Stream.Endpoint.{after_feed, after_wrote, awaits_opening, new_endpoint};
ghost use Rattle.amqp_model.specs.End.EndVerdict.{takes_octets};
ghost use Rattle.amqp_model.specs.End.Asks.{refusal};
ghost use Rattle.amqp_model.specs.History.Negotiation as negotiation;
ghost use Rattle.amqp_model.specs.History.Negotiation.{frame_limit};
ghost use Rattle.amqp_model.specs.End.Fitting.{ConfigWrites, IfAgreedFits};
ghost use Rattle.amqp_model.specs.Stream.Octets.{opening_written};
ghost use Rattle.amqp_model.specs.Output.Outputs.{output_octets};
ghost use Rattle.amqp_model.specs.Stream.Pieces.{reads_frames};
ghost use Rattle.amqp_outbox.specs.BodyToCome.{octets_left, still_to_write};
ghost use Rattle.amqp_outbox.specs.LentFrames.{content_left};
ghost use Rattle.amqp_outbox.specs.OutboxView.{begins_with};
ghost use Rattle.amqp_channel.specs.Roles.{role_of};
ghost use Rattle.amqp_core.specs.Traced.AccountView.{IsFresh};
ghost use Rattle.amqp_core.specs.Faults.Blamed.{Blames};
ghost use Rattle.amqp_core.specs.Traced.NotedAsks.{IsChannelOf, IsSizeOf};
ghost use Rattle.amqp_core.specs.Asks.View.{lent_view};
ghost use Rattle.amqp_core.specs.Asks.Outcomes.{content_asked, number_taken};
ghost use Rattle.amqp_core.specs.Asks.Effects.{AcceptsAsk, RefusesAsk};
ghost use Rattle.amqp_core.specs.Asks.Lent.{all_wrote, asked_by};
ghost use Rattle.amqp_core.specs.Faults.Answering.{ran_out};
ghost use Rattle.amqp_core.specs.Asks.ControlView.{control_view};
ghost use Rattle.amqp_core.specs.Asks.Controlled.{refusal_by};
ghost use Rattle.amqp_core.specs.Asks.Controlling.{AcceptsControl, RefusesControl, verdict_at};
ghost use Rattle.amqp_core.specs.Connection.Dropping.{DropsInPlace};
ghost use Rattle.amqp_core.specs.Heard.Hearing.{Hears};
ghost use Rattle.amqp_core.specs.Heard.View.{heard_view};
ghost use Rattle.amqp_channel.specs.Events.PartsView.{parts_there};
ghost use Rattle.amqp_core.specs.End.Feeding.{event_in, ran_out_of, IsFed, IsMessage, SameButChannels, SameEndpoint};
ghost use Rattle.amqp_core.specs.Config.Settings.{config_view, role_for};
ghost use Rattle.amqp_core.specs.Connection.Stages.{agreed_at, phase_at};
ghost use Rattle.amqp_core.specs.declared.stage.Stage.{Stage};

use crate::account::Account;
use crate::allowing::Place;
use crate::asks::LentAsk;
use crate::blame::Rule;
use crate::connection::Connection;
use crate::controls::LentControl;
use crate::faults::{AskFault, CoreFault, OutOfMemory};
use crate::heard::Heard;
use crate::opening::going_on;
use crate::owed::Owed;
use crate::settings::Settings;
use crate::stage::Stage;
use crate::tally::Tally;
use amqp_channel::{Agreed, EventParts, Reading, Side};
use amqp_frame::{OVERHEAD, PROTOCOL_HEADER, Splitter, faults_are_judged, one_frame_at_start};
use amqp_method::{Method, Properties};
use amqp_model::{bounds, controls, fitting, octets, one_end, pieces};
use amqp_outbox::{BodyWriter, Chunks, ContentFrames, Outbox};
use std::alloc::Global;

/// What an end keeps.
pub(crate) struct Endpoint {
    pub(crate) connection: Connection,
    pub(crate) splitter: Splitter,
    /// how many octets of the protocol header a server has heard that awaits it
    pub(crate) heard: usize,
    pub(crate) outbox: Outbox,
    pub(crate) tally: Tally,
}

/// Written out, so that no crate above proves again of each part that it can be dropped.
impl Drop for Endpoint {
    fn drop(self) {
        let Endpoint {
            connection: _,
            splitter: _,
            heard: _,
            outbox: _,
            tally: _,
        } = self;
    }
}

/// No frame above this many octets is taken before a size is agreed.
const FRAME_MIN: u32 = 4096;

/// Frames are taken up to the agreed size from the moment on that it is agreed.
pub(crate) fn tune(splitter: &mut Splitter, stage: Stage)
    requires pending { splitter.old.pending ≡ [] }
    requires fits { IfAgreedFits (agreed_at stage) }
    ensures { splitter.new ≡ record splitter.old { limit = frame_limit (agreed_at stage) } }
{
    if let Stage::Running(agreed) = stage {
        splitter.set_limit(agreed.frame_max);
        return;
    }
    match stage.agreed() {
        Some(agreed) => splitter.set_limit(agreed.frame_max),
        None => splitter.set_limit(FRAME_MIN),
    }
}

/// What an end of a side has to write as it begins.
fn begun(alloc: Global, side: Side) -> Result<Outbox, OutOfMemory>
    ensures { IfOk result (λ outbox. outbox ≡ begins_with (opening_written (role_of side))) }
{
    let mut outbox = Outbox::new(alloc);
    match side {
        Side::Client => {
            outbox.begin_with(&PROTOCOL_HEADER)?;
            Ok(outbox)
        }
        Side::Server => Ok(outbox),
    }
}

impl Endpoint {
    ghost use Rattle.amqp_core.specs.Traced.AccountView.{IsAccount, came_by, taken_by};
    ghost use Rattle.amqp_core.specs.Faults.Blamed.{no_octets, tally_view};
    ghost use Rattle.amqp_core.specs.End.EndpointView.{endpoint_view, role_at, EndpointIsSound};
    ghost use Rattle.amqp_core.specs.End.Growth.{GrowsLittle};

    /// Octets of the protocol header, at a server that awaits it.
    #[inline(never)]
    pub(crate) fn hear(&mut self, piece: &[u8], account: &mut Account) -> Result<(), CoreFault>
        requires sound { EndpointIsSound self.old }
        requires fresh { IsFresh account.old }
        requires awaits { awaits_opening (role_at self.old) (phase_at self.old.connection.stage) ≡ true }
        ensures fed { IsFed (taken_by result account.new) (endpoint_view self.old) (after_feed (role_at self.old)
            (config_view self.old.connection.settings) (endpoint_view self.old) piece.now) (endpoint_view self.new) }
        ensures account { ran_out result ≡ false
            → IsAccount (role_at self.old) (config_view self.old.connection.settings) (endpoint_view self.old)
            piece.now (after_feed (role_at self.old) (config_view self.old.connection.settings)
            (endpoint_view self.old) piece.now) account.new.octets (came_by self.old.connection.settings account.new
            (event_in (taken_by result account.new))) }
        // A message that is told leaves all but its channel as it was.
        ensures message { OnOk result (IsMessage (parts_there account.new.parts)
            → SameButChannels (endpoint_view self.old) (endpoint_view self.new)) }
        ensures grows { GrowsLittle (endpoint_view self.old).output (endpoint_view self.new).output }
        ensures sound { EndpointIsSound self.new }
        ensures settings { self.new.connection.settings ≡ self.old.connection.settings }
        ensures tally { Blames (role_at self.old) result (endpoint_view self.old) piece.now
            (after_feed (role_at self.old) (config_view self.old.connection.settings) (endpoint_view self.old)
            piece.now)
            (tally_view self.old.tally) (tally_view self.new.tally) }
    {
        pieces::pieces_are_compared();
        pieces::unfinished_is_held();
        let same = going_on(self.heard, piece);
        account.octets = same;
        if self.heard + same == PROTOCOL_HEADER.len() {
            self.heard = 0;
            let Ok(()) = self.connection.greet(&mut self.outbox) else {
                return Err(CoreFault::OutOfMemory);
            };
            account.owed = Owed::Start;
            EventParts::Quiet.put_in(&mut account.parts);
            self.tally.count(same);
            return Ok(());
        }
        if same == piece.len() {
            self.heard += same;
            self.tally.count(same);
            return Ok(());
        }
        account.octets = same + 1;
        let heard = self.heard;
        self.heard = 0;
        self.connection.fail();
        let Ok(()) = self.outbox.begin_with(&PROTOCOL_HEADER) else {
            return Err(CoreFault::OutOfMemory);
        };
        self.tally
            .blame_octets(heard, same + 1, Rule::ProtocolHeader, CoreFault::Fatal);
        Err(CoreFault::Fatal)
    }

    /// Octets of frames, whatever they are.
    #[inline(never)]
    fn read(
        &mut self,
        piece: &[u8],
        account: &mut Account,
        heard: &mut Heard,
    ) -> Result<(), CoreFault>
        requires sound { EndpointIsSound self.old }
        requires gathers { self.old.connection.settings.lends ≡ false }
        requires fresh { IsFresh account.old }
        requires reads { reads_frames (role_at self.old) (phase_at self.old.connection.stage) ≡ true }
        ensures fed { IsFed (taken_by result account.new) (endpoint_view self.old) (after_feed (role_at self.old)
            (config_view self.old.connection.settings) (endpoint_view self.old) piece.now) (endpoint_view self.new) }
        // A frame that is dropped takes no memory, where it lies whole in the piece.
        ensures in_place { DropsInPlace (role_at self.old) (endpoint_view self.old) piece.now → IsOk result }
        ensures account { ran_out result ≡ false
            → IsAccount (role_at self.old) (config_view self.old.connection.settings) (endpoint_view self.old)
            piece.now (after_feed (role_at self.old) (config_view self.old.connection.settings)
            (endpoint_view self.old) piece.now) account.new.octets (came_by self.old.connection.settings account.new
            (event_in (taken_by result account.new))) }
        // A message that is told leaves all but its channel as it was.
        ensures message { OnOk result (IsMessage (parts_there account.new.parts)
            → SameButChannels (endpoint_view self.old) (endpoint_view self.new)) }
        ensures heard { Hears (role_at self.old) (config_view self.old.connection.settings) result
            (endpoint_view self.old) piece.now (after_feed (role_at self.old) (config_view self.old.connection.settings)
            (endpoint_view self.old) piece.now) (heard_view heard.old) (heard_view heard.new) }
        ensures grows { GrowsLittle (endpoint_view self.old).output (endpoint_view self.new).output }
        ensures sound { EndpointIsSound self.new }
        ensures settings { self.new.connection.settings ≡ self.old.connection.settings }
        ensures tally { Blames (role_at self.old) result (endpoint_view self.old) piece.now
            (after_feed (role_at self.old) (config_view self.old.connection.settings) (endpoint_view self.old)
            piece.now)
            (tally_view self.old.tally) (tally_view self.new.tally) }
    {
        pieces::pieces_are_split();
        pieces::unfinished_is_held();
        fitting::agreed_is_within();
        bounds::ends_are_bounded();
        one_frame_at_start();
        octets::judged_is_said();
        faults_are_judged();
        fitting::frames_are_within();
        let pending = self.splitter.pending();
        let fed = match self.splitter.feed_ref(piece) {
            Ok(fed) => fed,
            Err(fault) => {
                let octets = self.splitter.taken_to_fault();
                account.octets = octets;
                let answer = self.connection.stop(&mut self.outbox, fault.kind, account);
                self.tally
                    .blame_octets(pending, octets, Rule::Framing(fault.kind), answer);
                return Err(answer);
            }
        };
        account.octets = fed.taken;
        self.tally.count(fed.taken);
        let Some(frame) = fed.frame else {
            return Ok(());
        };
        let answer = self.connection.receive_by_rules(
            &mut self.outbox,
            frame,
            Reading::of(frame),
            account,
            &mut self.tally,
            heard,
        );
        tune(&mut self.splitter, self.connection.stage);
        answer
    }

    /// Octets of frames, on a connection that is Running. It stands where it is called, which spares each frame the way
    /// there.
    #[inline(always)]
    fn read_running(
        &mut self,
        piece: &[u8],
        agreed: Agreed,
        account: &mut Account,
        heard: &mut Heard,
    ) -> Result<(), CoreFault>
        requires sound { EndpointIsSound self.old }
        requires gathers { self.old.connection.settings.lends ≡ false }
        requires fresh { IsFresh account.old }
        requires running { self.old.connection.stage ≡ Stage.Running agreed }
        ensures fed { IsFed (taken_by result account.new) (endpoint_view self.old) (after_feed (role_at self.old)
            (config_view self.old.connection.settings) (endpoint_view self.old) piece.now) (endpoint_view self.new) }
        // A frame that is dropped takes no memory, where it lies whole in the piece.
        ensures in_place { DropsInPlace (role_at self.old) (endpoint_view self.old) piece.now → IsOk result }
        ensures account { ran_out result ≡ false
            → IsAccount (role_at self.old) (config_view self.old.connection.settings) (endpoint_view self.old)
            piece.now (after_feed (role_at self.old) (config_view self.old.connection.settings)
            (endpoint_view self.old) piece.now) account.new.octets (came_by self.old.connection.settings account.new
            (event_in (taken_by result account.new))) }
        // A message that is told leaves all but its channel as it was.
        ensures message { OnOk result (IsMessage (parts_there account.new.parts)
            → SameButChannels (endpoint_view self.old) (endpoint_view self.new)) }
        ensures heard { Hears (role_at self.old) (config_view self.old.connection.settings) result
            (endpoint_view self.old) piece.now (after_feed (role_at self.old) (config_view self.old.connection.settings)
            (endpoint_view self.old) piece.now) (heard_view heard.old) (heard_view heard.new) }
        ensures grows { GrowsLittle (endpoint_view self.old).output (endpoint_view self.new).output }
        ensures sound { EndpointIsSound self.new }
        ensures settings { self.new.connection.settings ≡ self.old.connection.settings }
        ensures tally { Blames (role_at self.old) result (endpoint_view self.old) piece.now
            (after_feed (role_at self.old) (config_view self.old.connection.settings) (endpoint_view self.old)
            piece.now)
            (tally_view self.old.tally) (tally_view self.new.tally) }
    {
        pieces::pieces_are_split();
        pieces::unfinished_is_held();
        fitting::agreed_is_within();
        bounds::ends_are_bounded();
        one_frame_at_start();
        octets::judged_is_said();
        faults_are_judged();
        fitting::frames_are_within();
        let Some(frame) = self.splitter.take_whole(piece) else {
            let answer = self.read(piece, account, heard);
            return answer;
        };
        let octets = frame.payload.len() + OVERHEAD;
        account.octets = octets;
        self.tally.count(octets);
        let answer = self
            .connection
            .receive(&mut self.outbox, frame, account, &mut self.tally, heard);
        tune(&mut self.splitter, self.connection.stage);
        answer
    }

    /// An end as it begins: a client has the protocol header to write, a server nothing.
    pub(crate) fn new(alloc: Global, settings: Settings) -> Result<Endpoint, OutOfMemory>
        requires { ConfigWrites (config_view settings) }
        ensures view { IfOk result (λ end. endpoint_view end ≡ new_endpoint (role_for settings)) }
        ensures sound { IfOk result EndpointIsSound }
        ensures settings { IfOk result (λ end. end.connection.settings ≡ settings) }
        ensures tally { IfOk result (λ end. tally_view end.tally ≡ no_octets) }
    {
        pieces::unfinished_is_held();
        bounds::ends_are_bounded();
        let outbox = begun(alloc, settings.hello.side())?;
        Ok(Endpoint {
            connection: Connection::new(alloc, settings),
            splitter: Splitter::new(alloc, FRAME_MIN),
            heard: 0,
            outbox,
            tally: Tally::new(),
        })
    }

    /// Takes octets up to the end of the next frame, or of the protocol header at a server that awaits it.
    pub(crate) fn feed(
        &mut self,
        piece: &[u8],
        account: &mut Account,
        heard: &mut Heard,
    ) -> Result<(), CoreFault>
        requires sound { EndpointIsSound self.old }
        requires gathers { self.old.connection.settings.lends ≡ false }
        requires fresh { IsFresh account.old }
        ensures fed { IsFed (taken_by result account.new) (endpoint_view self.old) (after_feed (role_at self.old)
            (config_view self.old.connection.settings) (endpoint_view self.old) piece.now) (endpoint_view self.new) }
        ensures memory { ran_out result ≡ true → takes_octets (phase_at self.old.connection.stage) ≡ true }
        // A frame that is dropped takes no memory, where it lies whole in the piece.
        ensures in_place { DropsInPlace (role_at self.old) (endpoint_view self.old) piece.now → IsOk result }
        ensures within { IfOk (taken_by result account.new) (λ taken. taken.octets ≤ length piece.now) }
        ensures progress { IfOk (taken_by result account.new) (λ taken. piece.now ≢ [] → 0 < taken.octets) }
        ensures account { takes_octets (phase_at self.old.connection.stage) ≡ true → ran_out result ≡ false
            → IsAccount (role_at self.old) (config_view self.old.connection.settings) (endpoint_view self.old)
            piece.now (after_feed (role_at self.old) (config_view self.old.connection.settings)
            (endpoint_view self.old) piece.now) account.new.octets (came_by self.old.connection.settings account.new
            (event_in (taken_by result account.new))) }
        // A message that is told leaves all but its channel as it was.
        ensures message { OnOk result (IsMessage (parts_there account.new.parts)
            → SameButChannels (endpoint_view self.old) (endpoint_view self.new)) }
        ensures heard { Hears (role_at self.old) (config_view self.old.connection.settings) result
            (endpoint_view self.old) piece.now (after_feed (role_at self.old) (config_view self.old.connection.settings)
            (endpoint_view self.old) piece.now) (heard_view heard.old) (heard_view heard.new) }
        ensures grows { GrowsLittle (endpoint_view self.old).output (endpoint_view self.new).output }
        ensures sound { EndpointIsSound self.new }
        ensures settings { self.new.connection.settings ≡ self.old.connection.settings }
        ensures tally { Blames (role_at self.old) result (endpoint_view self.old) piece.now
            (after_feed (role_at self.old) (config_view self.old.connection.settings) (endpoint_view self.old)
            piece.now)
            (tally_view self.old.tally) (tally_view self.new.tally) }
    {
        octets::cut_changes_nothing();
        if let Some(agreed) = self.connection.stage.running() {
            return self.read_running(piece, agreed, account, heard);
        }
        if self.connection.stage.is_closed() {
            return Err(CoreFault::Closed);
        }
        if self.connection.stage.is_failed() {
            return Err(CoreFault::Failed);
        }
        if self.awaits_header() {
            return self.hear(piece, account);
        }
        let answer = self.read(piece, account, heard);
        answer
    }

    /// Out of memory: the end has failed, and keeps no unfinished octets.
    pub(crate) fn run_out(&mut self)
        requires sound { EndpointIsSound self.old }
        ensures left { SameEndpoint (ran_out_of (endpoint_view self.old)) (endpoint_view self.new) }
        ensures sound { EndpointIsSound self.new }
        ensures settings { self.new.connection.settings ≡ self.old.connection.settings }
        ensures tally { tally_view self.new.tally ≡ tally_view self.old.tally }
    {
        self.connection.fail();
        self.heard = 0;
        self.splitter = Splitter::new(self.connection.alloc, FRAME_MIN);
    }

    /// Whether the protocol header is awaited.
    pub(crate) fn awaits_header(&self) -> bool
        ensures { result ≡ awaits_opening (role_at self.now) (phase_at self.now.connection.stage) }
    {
        match self.connection.stage {
            Stage::AwaitsProtocolHeader => !self.connection.settings.hello.side().is_client(),
            Stage::AwaitsStart
            | Stage::AwaitsStartOk
            | Stage::AwaitsTune
            | Stage::AwaitsTuneOk
            | Stage::AwaitsOpen(_)
            | Stage::AwaitsOpenOk(_)
            | Stage::HoldsStart
            | Stage::HoldsLogin
            | Stage::HoldsOpen(_)
            | Stage::Running(_)
            | Stage::Closing(_)
            | Stage::Closed(_)
            | Stage::Failed(_) => false,
        }
    }

    /// So many octets of the output were written.
    pub(crate) fn wrote(&mut self, octets: usize)
        requires within { octets ≤ length (output_octets (endpoint_view self.old).output) }
        requires sound { EndpointIsSound self.old }
        ensures written { endpoint_view self.new ≡ after_wrote octets (endpoint_view self.old) }
        ensures sound { EndpointIsSound self.new }
        ensures settings { self.new.connection.settings ≡ self.old.connection.settings }
        ensures tally { tally_view self.new.tally ≡ tally_view self.old.tally }
    {
        pieces::unfinished_is_held();
        self.outbox.wrote(octets);
    }

    /// How many octets were taken of a frame that isn't whole yet, or of the protocol header.
    pub(crate) fn pending(&self) -> usize
        requires { EndpointIsSound self.now }
        ensures count { result ≡ length (endpoint_view self.now).unfinished }
        ensures below { result < frame_limit (agreed_at self.now.connection.stage) }
        ensures none { takes_octets (phase_at self.now.connection.stage) ≡ false → result ≡ 0 }
    {
        self.heard + self.splitter.pending()
    }

    /// Where the frames of an ask go, or why it is refused.
    pub(crate) fn allow(&self, ask: LentAsk<'_>) -> Result<Place, AskFault>
        requires { EndpointIsSound self.now }
        ensures allowed { OnOk result (refusal (role_at self.now) (endpoint_view self.now).end (lent_view ask.entry)
            ≡ None) }
        ensures refused { IfErr result (λ fault. RefusesAsk (role_at self.now) (lent_view ask.entry) fault
            (endpoint_view self.now) (endpoint_view self.now)) }
        ensures channel { IfOk result (λ place. IsChannelOf (endpoint_view self.now).end (lent_view ask.entry)
            place.channel) }
        ensures size { IfOk result (λ place. IsSizeOf (endpoint_view self.now).end.agreed place.frame_max) }
        ensures least { IfOk result (λ place. negotiation.FRAME_MIN ≤ place.frame_max) }
    {
        one_end::ask_is_of_history();
        self.connection.allow(ask)
    }

    /// Why a heartbeat, or what an application decides in the handshake, is refused, if it is. It takes no memory.
    pub(crate) fn allow_control(&self, control: LentControl<'_>) -> Result<(), AskFault>
        ensures allowed { OnOk result (refusal_by (verdict_at (role_at self.now)
            (config_view self.now.connection.settings) (control_view control.entry) (endpoint_view self.now)) ≡ None) }
        ensures refused { IfErr result (λ fault. RefusesControl (role_at self.now)
            (config_view self.now.connection.settings) (control_view control.entry) fault (endpoint_view self.now)
            (endpoint_view self.now)) }
    {
        controls::controls_follow();
        self.connection.allow_control(control)
    }

    /// A heartbeat, or what an application decides in the handshake: it is refused, or its frame is put.
    pub(crate) fn control(&mut self, control: LentControl<'_>) -> Result<(), AskFault>
        requires { EndpointIsSound self.old }
        ensures accepted { OnOk result (AcceptsControl (role_at self.old) (config_view self.old.connection.settings)
            (control_view control.entry) (endpoint_view self.old) (endpoint_view self.new)) }
        ensures refused { IfErr result (λ fault. RefusesControl (role_at self.old)
            (config_view self.old.connection.settings) (control_view control.entry) fault (endpoint_view self.old)
            (endpoint_view self.new)) }
        ensures sound { EndpointIsSound self.new }
        ensures settings { self.new.connection.settings ≡ self.old.connection.settings }
        ensures tally { tally_view self.new.tally ≡ tally_view self.old.tally }
    {
        controls::controls_follow();
        controls::controls_follow_octets();
        fitting::owed_read_back();
        match self.connection.control(&mut self.outbox, control) {
            Ok(()) => Ok(()),
            Err(fault) => Err(fault),
        }
    }

    /// What an application asks: it is refused, or its frames are put. The answer is the channel that an open takes.
    pub(crate) fn ask(&mut self, ask: LentAsk<'_>) -> Result<Option<u16>, AskFault>
        requires { EndpointIsSound self.old }
        ensures accepted { OnOk result (AcceptsAsk (role_at self.old) (config_view self.old.connection.settings)
            (lent_view ask.entry) (endpoint_view self.old) (endpoint_view self.new)) }
        ensures number { IfOk result (λ number. number ≡ number_taken (endpoint_view self.old).end
            (lent_view ask.entry)) }
        ensures refused { IfErr result (λ fault. RefusesAsk (role_at self.old) (lent_view ask.entry) fault
            (endpoint_view self.old) (endpoint_view self.new)) }
        ensures sound { EndpointIsSound self.new }
        ensures settings { self.new.connection.settings ≡ self.old.connection.settings }
        ensures tally { tally_view self.new.tally ≡ tally_view self.old.tally }
    {
        pieces::unfinished_is_held();
        fitting::agreed_is_within();
        fitting::frames_fit();
        bounds::ends_are_bounded();
        octets::octets_follow();
        one_end::ask_is_of_history();
        match self.connection.ask(&mut self.outbox, ask) {
            Ok(number) => Ok(number),
            Err(fault) => Err(fault),
        }
    }
    /// A method and its content that an application sends: it is refused, or its frames are put, and the chunks are
    /// let go in which the body lies.
    pub(crate) fn send_chunks(
        &mut self,
        number: u16,
        method: &Method,
        properties: &Properties,
        chunks: &mut Chunks,
    ) -> Result<(), AskFault>
        requires sound { EndpointIsSound self.old }
        requires content { has_content (method_view method.now).kind ≡ true }
        ensures accepted { OnOk result (AcceptsAsk (role_at self.old) (config_view self.old.connection.settings)
            (content_asked number (method_view method.now) (properties_view properties.now) chunks.old)
            (endpoint_view self.old) (endpoint_view self.new)) }
        ensures refused { IfErr result (λ fault. RefusesAsk (role_at self.old)
            (content_asked number (method_view method.now) (properties_view properties.now) chunks.old) fault
            (endpoint_view self.old) (endpoint_view self.new)) }
        ensures taken { OnOk result (chunks.new ≡ []) }
        ensures kept { OnErr result (chunks.new ≡ chunks.old) }
        ensures sound { EndpointIsSound self.new }
        ensures settings { self.new.connection.settings ≡ self.old.connection.settings }
        ensures tally { tally_view self.new.tally ≡ tally_view self.old.tally }
    {
        pieces::unfinished_is_held();
        fitting::agreed_is_within();
        fitting::frames_fit();
        bounds::ends_are_bounded();
        octets::octets_follow();
        one_end::ask_is_of_history();
        let outbox = &mut self.outbox;
        match self
            .connection
            .send_chunks(outbox, number, method, properties, chunks)
        {
            Ok(()) => Ok(()),
            Err(fault) => Err(fault),
        }
    }

    /// A method and its content whose body is lent: it is refused, or its frames are put, and written at once. Nothing
    /// waits before.
    pub(crate) fn lend_content<'a>(
        &mut self,
        number: u16,
        method: &Method,
        properties: &Properties,
        body: &'a [u8],
        octets: &'a mut Vec<u8>,
    ) -> Result<ContentFrames<'a>, AskFault>
        requires sound { EndpointIsSound self.old }
        requires content { has_content (method_view method.now).kind ≡ true }
        requires nothing { output_octets (endpoint_view self.old).output ≡ [] }
        ensures accepted { OnOk result (AcceptsAsk (role_at self.old) (config_view self.old.connection.settings)
            (content_asked number (method_view method.now) (properties_view properties.now) body.now)
            (endpoint_view self.old) (asked_by self.old.connection.settings (content_asked number
            (method_view method.now) (properties_view properties.now) body.now) (endpoint_view self.old))) }
        ensures written { OnOk result (endpoint_view self.new ≡ all_wrote (asked_by self.old.connection.settings
            (content_asked number (method_view method.now) (properties_view properties.now) body.now)
            (endpoint_view self.old))) }
        ensures lent { IfOk result (λ frames. content_left frames
            ≡ output_octets (asked_by self.old.connection.settings (content_asked number (method_view method.now)
            (properties_view properties.now) body.now) (endpoint_view self.old)).output) }
        ensures refused { IfErr result (λ fault. RefusesAsk (role_at self.old)
            (content_asked number (method_view method.now) (properties_view properties.now) body.now) fault
            (endpoint_view self.old) (endpoint_view self.new)) }
        ensures sound { EndpointIsSound self.new }
        ensures settings { self.new.connection.settings ≡ self.old.connection.settings }
        ensures tally { tally_view self.new.tally ≡ tally_view self.old.tally }
    {
        pieces::unfinished_is_held();
        fitting::agreed_is_within();
        fitting::frames_fit();
        bounds::ends_are_bounded();
        octets::octets_follow();
        one_end::ask_is_of_history();
        match self
            .connection
            .lend_content(number, method, properties, body, octets)
        {
            Ok(frames) => {
                self.outbox.pass(number);
                Ok(frames)
            }
            Err(fault) => Err(fault),
        }
    }

    /// A method and its content whose body of so many octets is still to come: it is refused, or its frames count as put
    /// and as written at once. Nothing may wait before.
    pub(crate) fn begin_content(
        &mut self,
        number: u16,
        method: &Method,
        properties: &Properties,
        size: u64,
        octets: &mut Vec<u8>,
    ) -> Result<BodyWriter, AskFault>
        requires sound { EndpointIsSound self.old }
        requires content { has_content (method_view method.now).kind ≡ true }
        requires nothing { output_octets (endpoint_view self.old).output ≡ [] }
        ensures accepted { OnOk result ((body : List ℕ) → length body ≡ size → AcceptsAsk (role_at self.old)
            (config_view self.old.connection.settings)
            (content_asked number (method_view method.now) (properties_view properties.now) body)
            (endpoint_view self.old) (asked_by self.old.connection.settings (content_asked number
            (method_view method.now) (properties_view properties.now) body) (endpoint_view self.old))) }
        ensures written { OnOk result ((body : List ℕ) → length body ≡ size → endpoint_view self.new
            ≡ all_wrote (asked_by self.old.connection.settings
            (content_asked number (method_view method.now) (properties_view properties.now) body)
            (endpoint_view self.old))) }
        ensures begun { IfOk result (λ writer. (body : List ℕ) → length body ≡ size
            → octets.new.items ++ still_to_write writer body
            ≡ octets.old.items ++ output_octets (asked_by self.old.connection.settings (content_asked number
            (method_view method.now) (properties_view properties.now) body) (endpoint_view self.old)).output) }
        ensures left { IfOk result (λ writer. octets_left writer ≡ size) }
        ensures refused { IfErr result (λ fault. (body : List ℕ) → RefusesAsk (role_at self.old)
            (content_asked number (method_view method.now) (properties_view properties.now) body) fault
            (endpoint_view self.old) (endpoint_view self.new)) }
        ensures kept { OnErr result (octets.new.items ≡ octets.old.items) }
        ensures stays { take (length octets.old.items) octets.new.items ≡ octets.old.items }
        ensures sound { EndpointIsSound self.new }
        ensures settings { self.new.connection.settings ≡ self.old.connection.settings }
        ensures tally { tally_view self.new.tally ≡ tally_view self.old.tally }
    {
        pieces::unfinished_is_held();
        fitting::agreed_is_within();
        fitting::frames_fit();
        bounds::ends_are_bounded();
        octets::octets_follow();
        one_end::ask_is_of_history();
        match self
            .connection
            .begin_content(number, method, properties, size, octets)
        {
            Ok(writer) => {
                self.outbox.pass(number);
                Ok(writer)
            }
            Err(fault) => Err(fault),
        }
    }
}
