//! A piece that is taken by an end whose events lend.
ghost use Rattle.std.specs.Prelude.{◌≡◌, ◌≢◌, ◌<◌, ◌≤◌, length, true, false, [], Option, Some, None, IfOk, IfSome, IsOk};
ghost use Rattle.amqp_frame.specs.Frame.{lent, frame_length, Frame};
ghost use Rattle.amqp_model.specs.Stream.Endpoint.{after_feed, awaits_opening};
ghost use Rattle.amqp_model.specs.Stream.Pieces.{reads_frames};
ghost use Rattle.amqp_model.specs.End.Channels.{Running};
ghost use Rattle.amqp_model.specs.End.EndVerdict.{takes_octets};
ghost use Rattle.amqp_core.specs.Faults.Answering.{ran_out};
ghost use Rattle.amqp_core.specs.Faults.Blamed.{tally_view, Blames};
ghost use Rattle.amqp_core.specs.Connection.Dropping.{DropsInPlace};
ghost use Rattle.amqp_core.specs.Heard.Hearing.{Hears};
ghost use Rattle.amqp_core.specs.Heard.View.{heard_view};
ghost use Rattle.amqp_core.specs.Config.Settings.{config_view};
ghost use Rattle.amqp_core.specs.Connection.Stages.{phase_at};
ghost use Rattle.amqp_core.specs.Stream.Lending.{IsLent};
ghost use Rattle.amqp_core.specs.Stream.StepView.{came_lent, passed, step_seen};
ghost use Rattle.amqp_core.specs.declared.stage.Stage.{Stage};

use crate::account::Account;
use crate::blame::Rule;
use crate::endpoint::{Endpoint, tune};
use crate::faults::CoreFault;
use crate::heard::Heard;
use crate::step::{Step, step_buffered, step_heard, step_of, step_told};
use amqp_channel::{Agreed, Reading};
use amqp_frame::{FrameRef, OVERHEAD, Place, Splitter, faults_are_judged, one_frame_at_start};
use amqp_model::{bounds, fitting, octets, pieces};

/// The frame that was given by way of the buffer.
fn buffered_frame(splitter: &Splitter) -> FrameRef<'_>
    requires { splitter.now.given ≢ None }
    ensures { splitter.now.given ≡ Some (lent result) }
{
    match splitter.buffered() {
        Some(frame) => frame,
        None => unreachable!(),
    }
}

impl Endpoint {
    ghost use Rattle.amqp_channel.specs.ReadingView.{reading_view};
    ghost use Rattle.amqp_core.specs.Connection.Receiving.{lent_by, ReceivesLent};
    ghost use Rattle.amqp_core.specs.End.EndpointView.{endpoint_view, role_at, EndpointIsSound};
    ghost use Rattle.amqp_core.specs.Faults.Blamed.{blames_frame, code_found};
    ghost use Rattle.amqp_model.specs.Wire.Readings.{reading as says};

    /// Octets of the protocol header, at a server that awaits it.
    #[inline(never)]
    fn hear_lent<'a>(&mut self, piece: &'a [u8]) -> Result<Step<'a>, CoreFault>
        requires sound { EndpointIsSound self.old }
        requires awaits { awaits_opening (role_at self.old) (phase_at self.old.connection.stage) ≡ true }
        ensures lent { IsLent (role_at self.old) (config_view self.old.connection.settings)
            (step_seen result self.new.splitter.given)
            (endpoint_view self.old) piece.now
            (after_feed (role_at self.old) (config_view self.old.connection.settings)
            (endpoint_view self.old) piece.now)
            (endpoint_view self.new) }
        ensures sound { EndpointIsSound self.new }
        ensures settings { self.new.connection.settings ≡ self.old.connection.settings }
        ensures tally { Blames (role_at self.old) result (endpoint_view self.old) piece.now
            (after_feed (role_at self.old) (config_view self.old.connection.settings) (endpoint_view self.old)
            piece.now)
            (tally_view self.old.tally) (tally_view self.new.tally) }
    {
        let mut account = Account::new();
        let answer = self.hear(piece, &mut account);
        step_heard(answer, account)
    }

    /// Octets of frames, whatever they are.
    #[inline(never)]
    fn read_any<'a>(&mut self, piece: &'a [u8], heard: &mut Heard) -> Result<Step<'a>, CoreFault>
        requires sound { EndpointIsSound self.old }
        requires lends { self.old.connection.settings.lends ≡ true }
        requires reads { reads_frames (role_at self.old) (phase_at self.old.connection.stage) ≡ true }
        ensures lent { IsLent (role_at self.old) (config_view self.old.connection.settings)
            (step_seen result self.new.splitter.given)
            (endpoint_view self.old) piece.now
            (after_feed (role_at self.old) (config_view self.old.connection.settings)
            (endpoint_view self.old) piece.now)
            (endpoint_view self.new) }
        // A frame that is dropped takes no memory, where it lies whole in the piece.
        ensures in_place { DropsInPlace (role_at self.old) (endpoint_view self.old) piece.now → IsOk result }
        ensures heard { Hears (role_at self.old) (config_view self.old.connection.settings) result
            (endpoint_view self.old) piece.now (after_feed (role_at self.old) (config_view self.old.connection.settings)
            (endpoint_view self.old) piece.now) (heard_view heard.old) (heard_view heard.new) }
        ensures sound { EndpointIsSound self.new }
        ensures settings { self.new.connection.settings ≡ self.old.connection.settings }
        ensures tally { Blames (role_at self.old) result (endpoint_view self.old) piece.now
            (after_feed (role_at self.old) (config_view self.old.connection.settings) (endpoint_view self.old)
            piece.now)
            (tally_view self.old.tally) (tally_view self.new.tally) }
    {
        pieces::pieces_are_split();
        pieces::unfinished_is_held();
        fitting::agreed_is_within();
        bounds::ends_are_bounded();
        one_frame_at_start();
        octets::judged_is_said();
        faults_are_judged();
        let pending = self.splitter.pending();
        let advanced = match self.splitter.advance(piece) {
            Ok(advanced) => advanced,
            Err(fault) => {
                let answer = self.connection.stop_lent(&mut self.outbox, fault.kind);
                let octets = self.splitter.taken_to_fault();
                self.tally
                    .blame_octets(pending, octets, Rule::Framing(fault.kind), answer);
                return Err(answer);
            }
        };
        let octets = advanced.taken;
        self.tally.count(octets);
        let Some(place) = advanced.place else {
            return Ok(Step { octets, came: None });
        };
        match place {
            Place::Piece(frame) => {
                let reading = Reading::of(frame);
                let answer = self
                    .connection
                    .receive_lent(&mut self.outbox, frame, reading, &mut self.tally, heard);
                tune(&mut self.splitter, self.connection.stage);
                step_of(octets, frame.channel, reading, answer)
            }
            Place::Buffer => {
                let frame = buffered_frame(&self.splitter);
                let number = frame.channel;
                let reading = Reading::of(frame);
                let answer = self
                    .connection
                    .receive_lent(&mut self.outbox, frame, reading, &mut self.tally, heard);
                tune(&mut self.splitter, self.connection.stage);
                step_buffered(octets, number, answer)
            }
        }
    }

    /// A frame that lies whole in the piece and says this, if it passes. Otherwise nothing is done.
    #[inline(always)]
    fn pass_whole<'a>(
        &mut self,
        agreed: Agreed,
        frame: FrameRef<'a>,
        reading: Reading<'a>,
        heard: &mut Heard,
    ) -> Option<Step<'a>>
        requires lends { self.old.connection.settings.lends ≡ true }
        requires running { self.old.connection.stage ≡ Stage.Running agreed }
        requires staged { self.old.outbox.staged ≡ [] }
        requires says { reading_view reading ≡ says (lent frame) }
        ensures receives { IfSome result (λ step. ReceivesLent self.old.connection self.old.outbox.output heard.old
            (lent frame.entry) (passed step) self.new.connection self.new.outbox heard.new) }
        ensures octets { IfSome result (λ step. step.octets ≡ frame_length (lent frame.entry)) }
        ensures told { IfSome result (λ step. (given : Option Frame) → came_lent step.came given
            ≡ lent_by self.old.connection (lent frame.entry)) }
        ensures tally { IfSome result (λ step. tally_view self.new.tally
            ≡ blames_frame (code_found (passed step)) (lent frame.entry) (tally_view self.old.tally)) }
        ensures stage { self.new.connection.stage ≡ self.old.connection.stage }
        ensures splitter { self.new.splitter ≡ self.old.splitter }
        ensures opening { self.new.heard ≡ self.old.heard }
        ensures none { result ≡ None → self.new ≡ self.old }
        ensures none_heard { result ≡ None → heard.new ≡ heard.old }
    {
        match self
            .connection
            .pass_lent(&self.outbox, agreed, frame, reading, heard)
        {
            Some(told) => Some(step_told(
                frame.payload.len() + OVERHEAD,
                frame.channel,
                reading,
                told,
            )),
            None => None,
        }
    }

    /// The same. Each kind of frame goes its own way, so that what it says is not put into memory and looked at again:
    /// a content takes a quarter fewer instructions so.
    #[inline(always)]
    fn pass_by_kind<'a>(
        &mut self,
        agreed: Agreed,
        frame: FrameRef<'a>,
        reading: Reading<'a>,
        heard: &mut Heard,
    ) -> Option<Step<'a>>
        requires lends { self.old.connection.settings.lends ≡ true }
        requires running { self.old.connection.stage ≡ Stage.Running agreed }
        requires staged { self.old.outbox.staged ≡ [] }
        requires says { reading_view reading ≡ says (lent frame) }
        ensures receives { IfSome result (λ step. ReceivesLent self.old.connection self.old.outbox.output heard.old
            (lent frame.entry) (passed step) self.new.connection self.new.outbox heard.new) }
        ensures octets { IfSome result (λ step. step.octets ≡ frame_length (lent frame.entry)) }
        ensures told { IfSome result (λ step. (given : Option Frame) → came_lent step.came given
            ≡ lent_by self.old.connection (lent frame.entry)) }
        ensures tally { IfSome result (λ step. tally_view self.new.tally
            ≡ blames_frame (code_found (passed step)) (lent frame.entry) (tally_view self.old.tally)) }
        ensures stage { self.new.connection.stage ≡ self.old.connection.stage }
        ensures splitter { self.new.splitter ≡ self.old.splitter }
        ensures opening { self.new.heard ≡ self.old.heard }
        ensures none { result ≡ None → self.new ≡ self.old }
        ensures none_heard { result ≡ None → heard.new ≡ heard.old }
    {
        match reading {
            Reading::Method(method) => {
                self.pass_whole(agreed, frame, Reading::Method(method), heard)
            }
            Reading::Header(header) => {
                self.pass_whole(agreed, frame, Reading::Header(header), heard)
            }
            Reading::Body(part) => self.pass_whole(agreed, frame, Reading::Body(part), heard),
            Reading::UnknownMethod
            | Reading::MalformedMethod
            | Reading::MalformedHeader
            | Reading::Heartbeat(_) => None,
        }
    }

    /// A frame that lies whole in the piece.
    ///
    /// One that doesn't pass is taken by one call, since a function clears the room of each answer that a call may
    /// write.
    #[inline(always)]
    fn take_frame<'a>(
        &mut self,
        agreed: Agreed,
        frame: FrameRef<'a>,
        heard: &mut Heard,
    ) -> Result<Step<'a>, CoreFault>
        requires lends { self.old.connection.settings.lends ≡ true }
        requires running { self.old.connection.stage ≡ Stage.Running agreed }
        requires staged { self.old.outbox.staged ≡ [] }
        ensures receives { ReceivesLent self.old.connection self.old.outbox.output heard.old (lent frame.entry) result
            self.new.connection self.new.outbox heard.new }
        ensures octets { IfOk result (λ step. step.octets ≡ frame_length (lent frame.entry)) }
        ensures told { IfOk result (λ step. (given : Option Frame) → came_lent step.came given
            ≡ lent_by self.old.connection (lent frame.entry)) }
        ensures tally { tally_view self.new.tally
            ≡ blames_frame (code_found result) (lent frame.entry) (tally_view self.old.tally) }
        ensures splitter { self.new.splitter ≡ self.old.splitter }
        ensures opening { self.new.heard ≡ self.old.heard }
    {
        let reading = Reading::of(frame);
        if let Some(step) = self.pass_by_kind(agreed, frame, reading, heard) {
            return Ok(step);
        }
        let answer = self
            .connection
            .take_lent(&mut self.outbox, frame, reading, &mut self.tally, heard);
        answer
    }

    /// A frame that lies whole in the piece, on a connection that is Running. Otherwise nothing is done.
    #[inline(always)]
    fn read_lent<'a>(
        &mut self,
        piece: &'a [u8],
        heard: &mut Heard,
    ) -> Option<Result<Step<'a>, CoreFault>>
        requires sound { EndpointIsSound self.old }
        requires lends { self.old.connection.settings.lends ≡ true }
        ensures running { IfSome result (λ answer. phase_at self.old.connection.stage ≡ Running) }
        ensures lent { IfSome result (λ answer. IsLent (role_at self.old) (config_view self.old.connection.settings)
            (step_seen answer self.new.splitter.given)
            (endpoint_view self.old) piece.now
            (after_feed (role_at self.old) (config_view self.old.connection.settings)
            (endpoint_view self.old) piece.now)
            (endpoint_view self.new)) }
        // A frame that is dropped takes no memory.
        ensures in_place { IfSome result (λ answer. DropsInPlace (role_at self.old) (endpoint_view self.old) piece.now
            → IsOk answer) }
        ensures heard { IfSome result (λ answer. Hears (role_at self.old) (config_view self.old.connection.settings)
            answer (endpoint_view self.old) piece.now (after_feed (role_at self.old)
            (config_view self.old.connection.settings) (endpoint_view self.old) piece.now) (heard_view heard.old)
            (heard_view heard.new)) }
        ensures sound { EndpointIsSound self.new }
        ensures settings { self.new.connection.settings ≡ self.old.connection.settings }
        ensures tally { IfSome result (λ answer. Blames (role_at self.old) answer (endpoint_view self.old) piece.now
            (after_feed (role_at self.old) (config_view self.old.connection.settings) (endpoint_view self.old)
            piece.now)
            (tally_view self.old.tally) (tally_view self.new.tally)) }
        ensures none { result ≡ None → self.new ≡ self.old }
        ensures none_heard { result ≡ None → heard.new ≡ heard.old }
    {
        let agreed = self.connection.stage.running()?;
        pieces::pieces_are_split();
        pieces::unfinished_is_held();
        fitting::agreed_is_within();
        bounds::ends_are_bounded();
        one_frame_at_start();
        octets::judged_is_said();
        faults_are_judged();
        let frame = self.splitter.take_whole(piece)?;
        self.tally.count(frame.payload.len() + OVERHEAD);
        let answer = self.take_frame(agreed, frame, heard);
        tune(&mut self.splitter, self.connection.stage);
        Some(answer)
    }

    /// Takes octets as [`Endpoint::advance`] does, whatever they are and the end is.
    #[inline(never)]
    fn advance_apart<'a>(
        &mut self,
        piece: &'a [u8],
        heard: &mut Heard,
    ) -> Result<Step<'a>, CoreFault>
        requires sound { EndpointIsSound self.old }
        requires lends { self.old.connection.settings.lends ≡ true }
        ensures lent { IsLent (role_at self.old) (config_view self.old.connection.settings)
            (step_seen result self.new.splitter.given)
            (endpoint_view self.old) piece.now
            (after_feed (role_at self.old) (config_view self.old.connection.settings)
            (endpoint_view self.old) piece.now)
            (endpoint_view self.new) }
        ensures memory { ran_out result ≡ true → takes_octets (phase_at self.old.connection.stage) ≡ true }
        // A frame that is dropped takes no memory, where it lies whole in the piece.
        ensures in_place { DropsInPlace (role_at self.old) (endpoint_view self.old) piece.now → IsOk result }
        // One that is closed, or has failed, stays as it is.
        ensures over { takes_octets (phase_at self.old.connection.stage) ≡ false → endpoint_view self.new
            ≡ endpoint_view self.old }
        ensures within { IfOk result (λ step. step.octets ≤ length piece.now) }
        ensures progress { IfOk result (λ step. piece.now ≢ [] → 0 < step.octets) }
        ensures heard { Hears (role_at self.old) (config_view self.old.connection.settings) result
            (endpoint_view self.old) piece.now (after_feed (role_at self.old) (config_view self.old.connection.settings)
            (endpoint_view self.old) piece.now) (heard_view heard.old) (heard_view heard.new) }
        ensures sound { EndpointIsSound self.new }
        ensures settings { self.new.connection.settings ≡ self.old.connection.settings }
        ensures tally { Blames (role_at self.old) result (endpoint_view self.old) piece.now
            (after_feed (role_at self.old) (config_view self.old.connection.settings) (endpoint_view self.old)
            piece.now)
            (tally_view self.old.tally) (tally_view self.new.tally) }
    {
        octets::cut_changes_nothing();
        if self.connection.stage.is_closed() {
            return Err(CoreFault::Closed);
        }
        if self.connection.stage.is_failed() {
            return Err(CoreFault::Failed);
        }
        if self.awaits_header() {
            return self.hear_lent(piece);
        }
        self.read_any(piece, heard)
    }

    /// Takes octets up to the end of the next frame, or of the protocol header at a server that awaits it.
    ///
    /// All that is no frame that lies whole in the piece of a Running end is taken by one call: a function clears the
    /// room of each answer that a call may write.
    #[inline(always)]
    pub(crate) fn advance<'a>(
        &mut self,
        piece: &'a [u8],
        heard: &mut Heard,
    ) -> Result<Step<'a>, CoreFault>
        requires sound { EndpointIsSound self.old }
        requires lends { self.old.connection.settings.lends ≡ true }
        ensures lent { IsLent (role_at self.old) (config_view self.old.connection.settings)
            (step_seen result self.new.splitter.given)
            (endpoint_view self.old) piece.now
            (after_feed (role_at self.old) (config_view self.old.connection.settings)
            (endpoint_view self.old) piece.now)
            (endpoint_view self.new) }
        ensures memory { ran_out result ≡ true → takes_octets (phase_at self.old.connection.stage) ≡ true }
        // A frame that is dropped takes no memory, where it lies whole in the piece.
        ensures in_place { DropsInPlace (role_at self.old) (endpoint_view self.old) piece.now → IsOk result }
        // One that is closed, or has failed, stays as it is.
        ensures over { takes_octets (phase_at self.old.connection.stage) ≡ false → endpoint_view self.new
            ≡ endpoint_view self.old }
        ensures within { IfOk result (λ step. step.octets ≤ length piece.now) }
        ensures progress { IfOk result (λ step. piece.now ≢ [] → 0 < step.octets) }
        ensures heard { Hears (role_at self.old) (config_view self.old.connection.settings) result
            (endpoint_view self.old) piece.now (after_feed (role_at self.old) (config_view self.old.connection.settings)
            (endpoint_view self.old) piece.now) (heard_view heard.old) (heard_view heard.new) }
        ensures sound { EndpointIsSound self.new }
        ensures settings { self.new.connection.settings ≡ self.old.connection.settings }
        ensures tally { Blames (role_at self.old) result (endpoint_view self.old) piece.now
            (after_feed (role_at self.old) (config_view self.old.connection.settings) (endpoint_view self.old)
            piece.now)
            (tally_view self.old.tally) (tally_view self.new.tally) }
    {
        octets::cut_changes_nothing();
        if let Some(answer) = self.read_lent(piece, heard) {
            return answer;
        }
        // Bound first, so that it has a place of its own in memory: what is answered in place stays in registers.
        let answer = self.advance_apart(piece, heard);
        answer
    }
}
