//! The rules for a frame that an end takes, in their order: the first that applies decides. They only look.
//!
//! An end that has put connection.close drops all but the other end's close and close-ok. A heartbeat is empty and
//! stands on channel 0. A method has to be one that there is. Until the handshake is over nothing but its next method
//! is taken. What is left is for the channel, or for the connection.
ghost use Rattle.std.specs.Prelude.{◌≡◌, ◌<◌, true, false, None, Option, IfSome};
ghost use Rattle.amqp_method.specs.MethodRefView.{lent_call};
ghost use Rattle.amqp_model.specs.End.Asks.{is_free};
ghost use Rattle.amqp_model.specs.End.Channels.{Channel, Free};
ghost use Rattle.amqp_model.specs.End.EndVerdict.{takes_frames};
ghost use Rattle.amqp_channel.specs.Channels.ChannelsView.{channels_view};
ghost use Rattle.amqp_model.specs.Wire.Readings.{Beat, Calls, is_empty};
ghost use Rattle.amqp_channel.specs.ReadingView.{reading_view};
ghost use Rattle.amqp_channel.specs.declared.channels.Channels.{Channels};
ghost use Rattle.amqp_core.specs.Connection.Dropping.{DropsReading};
ghost use Rattle.amqp_core.specs.Connection.Handshakes.{answered_in, awaits_at, is_in_handshake};
ghost use Rattle.amqp_core.specs.Connection.Rulings.{OnChannel, OnConnection};
ghost use Rattle.amqp_core.specs.Config.Settings.{role_for, side_in};
ghost use Rattle.amqp_core.specs.Connection.Stages.{leaves, phase_at};
ghost use Rattle.amqp_core.specs.Connection.Verdicts.{end_at, FrameRules, IsLight};
ghost use Rattle.amqp_core.specs.declared.settings.Settings.{Settings};

use crate::connection::Connection;
use crate::connection::handshake::{
    heartbeat_in, is_too_small, is_within, smaller, smaller_heartbeat,
};
use crate::owed::Owed;
use crate::settings::Settings;
use crate::stage::Stage;
use crate::verdict::{Fault, Notice, Verdict};
use amqp_channel::words::{lent_number_at, same};
use amqp_channel::{Agreed, CloseCode, Reading, Side, Unread, Verdict as ChannelVerdict};
use amqp_method::{Kind, MethodRef};

/// The frame is dropped.
fn drops(stage: Stage) -> Verdict
    ensures { result ≡ Verdict.Proceeds Notice.Discarded stage Owed.Nothing }
{
    Verdict::Proceeds {
        notice: Notice::Discarded,
        stage,
        owed: Owed::Nothing,
    }
}

/// The other end broke the protocol.
fn closes_with(code: CloseCode) -> Verdict
    ensures { result ≡ Verdict.Faults (Fault.Peer code) }
{
    Verdict::Faults(Fault::Peer(code))
}

/// A method on channel 0, where this end has put connection.close: it answers a close that crosses its own, and
/// close-ok ends the connection.
#[tactic(auto, using(crate::proofs::VerdictLemmas::leaving_rules))]
fn judge_leaving_call(agreed: Option<Agreed>, method: MethodRef<'_>) -> Verdict
    ensures { (settings : Settings) (channels : Channels)
        → FrameRules settings (end_at (Stage.Closing agreed) channels) 0 (Calls (lent_call method.entry))
        (OnConnection result) }
{
    let kind = method.kind();
    if same(kind, Kind::ConnectionClose) {
        return Verdict::Proceeds {
            notice: Notice::Quiet,
            stage: Stage::Closing(agreed),
            owed: Owed::CloseOk,
        };
    }
    if same(kind, Kind::ConnectionCloseOk) {
        return Verdict::Proceeds {
            notice: Notice::ClosedByUs,
            stage: Stage::Closed(agreed),
            owed: Owed::Nothing,
        };
    }
    drops(Stage::Closing(agreed))
}

/// A frame, where this end has put connection.close.
#[inline(never)]
#[tactic(auto, using(crate::proofs::VerdictLemmas::dropping_rules))]
fn judge_leaving(agreed: Option<Agreed>, number: u16, reading: Reading<'_>) -> Verdict
    ensures rules { (settings : Settings) (channels : Channels)
        → FrameRules settings (end_at (Stage.Closing agreed) channels) number (reading_view reading.entry)
        (OnConnection result) }
    ensures light { (channel : Channel)
        → DropsReading (phase_at (Stage.Closing agreed)) channel number (reading_view reading.entry)
        → IsLight channel (OnConnection result) }
{
    if number != 0 {
        return drops(Stage::Closing(agreed));
    }
    match reading {
        Reading::Method(method) => judge_leaving_call(agreed, method),
        Reading::UnknownMethod => drops(Stage::Closing(agreed)),
        Reading::MalformedMethod => drops(Stage::Closing(agreed)),
        Reading::Header(_) => drops(Stage::Closing(agreed)),
        Reading::MalformedHeader => drops(Stage::Closing(agreed)),
        Reading::Body(_) => drops(Stage::Closing(agreed)),
        Reading::Heartbeat(_) => drops(Stage::Closing(agreed)),
    }
}

/// The other end closes the connection.
#[tactic(auto, using(crate::proofs::VerdictLemmas::close_rules))]
fn judge_close(stage: Stage, method: MethodRef<'_>) -> Verdict
    requires stays { leaves (phase_at stage) ≡ false }
    requires going { takes_frames (phase_at stage) ≡ true }
    requires close { (lent_call method).kind ≡ Kind.ConnectionClose }
    ensures { (settings : Settings) (channels : Channels)
        → FrameRules settings (end_at stage channels) 0 (Calls (lent_call method.entry)) (OnConnection result) }
{
    Verdict::Proceeds {
        notice: Notice::ClosedByPeer,
        stage: Stage::Closed(stage.agreed()),
        owed: Owed::CloseOk,
    }
}

/// A client answers start with start-ok, or asks its application for the answer.
#[tactic(auto, using(crate::proofs::VerdictLemmas::start_rules))]
fn judge_start(settings: &Settings, method: MethodRef<'_>) -> Verdict
    requires side { side_in settings.now.hello ≡ Side.Client }
    requires kind { (lent_call method).kind ≡ Kind.ConnectionStart }
    ensures { (channels : Channels)
        → FrameRules settings.now (end_at Stage.AwaitsStart channels) 0 (Calls (lent_call method.entry))
        (OnConnection result) }
{
    if settings.gated {
        return Verdict::Proceeds {
            notice: Notice::AnswerAsked,
            stage: Stage::HoldsStart,
            owed: Owed::Nothing,
        };
    }
    Verdict::Proceeds {
        notice: Notice::Quiet,
        stage: Stage::AwaitsTune,
        owed: Owed::StartOk,
    }
}

/// A server answers start-ok with tune, or asks its application whether to.
#[tactic(auto, using(crate::proofs::VerdictLemmas::start_ok_rules))]
fn judge_start_ok(settings: &Settings, method: MethodRef<'_>) -> Verdict
    requires side { side_in settings.now.hello ≡ Side.Server }
    requires kind { (lent_call method).kind ≡ Kind.ConnectionStartOk }
    ensures { (channels : Channels)
        → FrameRules settings.now (end_at Stage.AwaitsStartOk channels) 0 (Calls (lent_call method.entry))
        (OnConnection result) }
{
    if settings.gated {
        return Verdict::Proceeds {
            notice: Notice::LoginAsked,
            stage: Stage::HoldsLogin,
            owed: Owed::Nothing,
        };
    }
    Verdict::Proceeds {
        notice: Notice::Quiet,
        stage: Stage::AwaitsTuneOk,
        owed: Owed::Tune,
    }
}

/// A client settles on the smaller of its own limits and the server's, and opens the connection at once.
#[tactic(auto, using(crate::proofs::VerdictLemmas::tune_rules))]
fn judge_tune(settings: &Settings, method: MethodRef<'_>) -> Verdict
    requires side { side_in settings.now.hello ≡ Side.Client }
    requires kind { (lent_call method).kind ≡ Kind.ConnectionTune }
    ensures { (channels : Channels)
        → FrameRules settings.now (end_at Stage.AwaitsTune channels) 0 (Calls (lent_call method.entry))
        (OnConnection result) }
{
    let channels = lent_number_at(0, method);
    let frame = lent_number_at(1, method);
    if is_too_small(frame) {
        return closes_with(CloseCode::FrameError);
    }
    let agreed = Agreed {
        channel_max: smaller(settings.channel_max as u64, channels) as u16,
        frame_max: smaller(settings.frame_max as u64, frame) as u32,
        heartbeat: smaller_heartbeat(settings.heartbeat, heartbeat_in(method)),
    };
    Verdict::Proceeds {
        notice: Notice::Quiet,
        stage: Stage::AwaitsOpenOk(agreed),
        owed: Owed::TuneOkAndOpen(agreed),
    }
}

/// A server takes a tune-ok within its own limits.
#[tactic(auto, using(crate::proofs::VerdictLemmas::tune_ok_rules))]
fn judge_tune_ok(settings: &Settings, method: MethodRef<'_>) -> Verdict
    requires side { side_in settings.now.hello ≡ Side.Server }
    requires kind { (lent_call method).kind ≡ Kind.ConnectionTuneOk }
    ensures { (channels : Channels)
        → FrameRules settings.now (end_at Stage.AwaitsTuneOk channels) 0 (Calls (lent_call method.entry))
        (OnConnection result) }
{
    let channels = lent_number_at(0, method);
    let frame = lent_number_at(1, method);
    if !is_within(settings, channels, frame) {
        return Verdict::Faults(Fault::Fatal);
    }
    Verdict::Proceeds {
        notice: Notice::Quiet,
        stage: Stage::AwaitsOpen(Agreed {
            channel_max: channels as u16,
            frame_max: frame as u32,
            heartbeat: heartbeat_in(method),
        }),
        owed: Owed::Nothing,
    }
}

/// A server answers open with open-ok, and the connection is Running; or it asks its application whether to.
#[tactic(auto, using(crate::proofs::VerdictLemmas::open_rules))]
fn judge_open(settings: &Settings, agreed: Agreed, method: MethodRef<'_>) -> Verdict
    requires side { side_in settings.now.hello ≡ Side.Server }
    requires kind { (lent_call method).kind ≡ Kind.ConnectionOpen }
    ensures { (channels : Channels)
        → FrameRules settings.now (end_at (Stage.AwaitsOpen agreed) channels) 0 (Calls (lent_call method.entry))
        (OnConnection result) }
{
    if settings.gated {
        return Verdict::Proceeds {
            notice: Notice::OpenAsked,
            stage: Stage::HoldsOpen(agreed),
            owed: Owed::Nothing,
        };
    }
    Verdict::Proceeds {
        notice: Notice::Negotiated(agreed),
        stage: Stage::Running(agreed),
        owed: Owed::OpenOk,
    }
}

/// At a client the connection is Running with open-ok.
#[tactic(auto, using(crate::proofs::VerdictLemmas::open_ok_rules))]
fn judge_open_ok(settings: &Settings, agreed: Agreed, method: MethodRef<'_>) -> Verdict
    requires side { side_in settings.now.hello ≡ Side.Client }
    requires kind { (lent_call method).kind ≡ Kind.ConnectionOpenOk }
    ensures { (channels : Channels)
        → FrameRules settings.now (end_at (Stage.AwaitsOpenOk agreed) channels) 0 (Calls (lent_call method.entry))
        (OnConnection result) }
{
    Verdict::Proceeds {
        notice: Notice::Negotiated(agreed),
        stage: Stage::Running(agreed),
        owed: Owed::Nothing,
    }
}

/// The method that the stage awaits.
#[tactic(auto, using(crate::proofs::KindLemmas::same_is))]
fn judge_awaited(settings: &Settings, stage: Stage, method: MethodRef<'_>) -> Verdict
    requires awaited { awaits_at stage (lent_call method).kind ≡ true }
    requires answered { answered_in (role_for settings.now) (phase_at stage) ≡ true }
    ensures { (channels : Channels)
        → FrameRules settings.now (end_at stage channels) 0 (Calls (lent_call method.entry)) (OnConnection result) }
{
    match stage {
        Stage::AwaitsStart => judge_start(settings, method),
        Stage::AwaitsStartOk => judge_start_ok(settings, method),
        Stage::AwaitsTune => judge_tune(settings, method),
        Stage::AwaitsTuneOk => judge_tune_ok(settings, method),
        Stage::AwaitsOpen(agreed) => judge_open(settings, agreed, method),
        Stage::AwaitsOpenOk(agreed) => judge_open_ok(settings, agreed, method),
        Stage::AwaitsProtocolHeader => unreachable!(),
        Stage::HoldsStart => unreachable!(),
        Stage::HoldsLogin => unreachable!(),
        Stage::HoldsOpen(_) => unreachable!(),
        Stage::Running(_) => unreachable!(),
        Stage::Closing(_) => unreachable!(),
        Stage::Closed(_) => unreachable!(),
        Stage::Failed(_) => unreachable!(),
    }
}

/// A method of the handshake on channel 0.
#[tactic(auto, using(crate::proofs::VerdictLemmas::step_rules))]
fn judge_step(settings: &Settings, stage: Stage, method: MethodRef<'_>) -> Verdict
    requires handshake { is_in_handshake (phase_at stage) ≡ true }
    requires going { takes_frames (phase_at stage) ≡ true }
    ensures { (channels : Channels)
        → FrameRules settings.now (end_at stage channels) 0 (Calls (lent_call method.entry)) (OnConnection result) }
{
    let kind = method.kind();
    if same(kind, Kind::ConnectionClose) {
        return judge_close(stage, method);
    }
    let side = settings.hello.side();
    if side.is_client() && same(kind, Kind::ConnectionSecure) {
        return closes_with(CloseCode::NotImplemented);
    }
    if !stage.awaits(kind) {
        return closes_with(CloseCode::CommandInvalid);
    }
    if !stage.is_answered_by(side) {
        return closes_with(CloseCode::CommandInvalid);
    }
    judge_awaited(settings, stage, method)
}

/// A heartbeat, which is to be empty and to stand on channel 0.
#[tactic(auto, using(crate::proofs::VerdictLemmas::beat_rules))]
fn judge_beat(stage: Stage, number: u16, octets: &[u8]) -> Verdict
    requires stays { leaves (phase_at stage) ≡ false }
    requires going { takes_frames (phase_at stage) ≡ true }
    ensures rules { (settings : Settings) (channels : Channels)
        → FrameRules settings (end_at stage channels) number (Beat (is_empty octets.now)) (OnConnection result) }
    ensures light { (channel : Channel) → DropsReading (phase_at stage) channel number (Beat (is_empty octets.now))
        → IsLight channel (OnConnection result) }
{
    if number == 0 && octets.is_empty() {
        return Verdict::Proceeds {
            notice: Notice::Quiet,
            stage,
            owed: Owed::Nothing,
        };
    }
    closes_with(CloseCode::FrameError)
}

/// A frame, until the handshake is over: nothing but its next method is taken.
#[inline(never)]
#[tactic(auto, using(crate::proofs::VerdictLemmas::handshake_rules))]
fn judge_handshake(settings: &Settings, stage: Stage, number: u16, reading: Reading<'_>) -> Verdict
    requires handshake { is_in_handshake (phase_at stage) ≡ true }
    requires going { takes_frames (phase_at stage) ≡ true }
    ensures rules { (channels : Channels) → is_free (channels_view channels number) ≡ true
        → FrameRules settings.now (end_at stage channels) number (reading_view reading.entry) (OnConnection result) }
    ensures light { (channel : Channel) → is_free channel ≡ true
        → DropsReading (phase_at stage) channel number (reading_view reading.entry)
        → IsLight channel (OnConnection result) }
{
    match reading {
        Reading::Method(method) => {
            if number != 0 {
                return closes_with(CloseCode::CommandInvalid);
            }
            judge_step(settings, stage, method)
        }
        Reading::UnknownMethod => closes_with(Unread::UnknownMethod.code()),
        Reading::MalformedMethod => closes_with(Unread::MalformedMethod.code()),
        Reading::Header(_) => closes_with(CloseCode::CommandInvalid),
        Reading::MalformedHeader => closes_with(CloseCode::CommandInvalid),
        Reading::Body(_) => closes_with(CloseCode::CommandInvalid),
        Reading::Heartbeat(octets) => judge_beat(stage, number, octets),
    }
}

/// A method on channel 0 of a connection that is Running: the other end's close, and the server's blocked and
/// unblocked.
#[tactic(auto, using(crate::proofs::KindLemmas::same_is))]
fn judge_connection(settings: &Settings, agreed: Agreed, method: MethodRef<'_>) -> Verdict
    ensures { (channels : Channels)
        → FrameRules settings.now (end_at (Stage.Running agreed) channels) 0 (Calls (lent_call method.entry))
        (OnConnection result) }
{
    let stage = Stage::Running(agreed);
    let kind = method.kind();
    if same(kind, Kind::ConnectionClose) {
        return judge_close(stage, method);
    }
    let side = settings.hello.side();
    if side.is_client() && same(kind, Kind::ConnectionSecure) {
        return closes_with(CloseCode::NotImplemented);
    }
    if side.is_client() && same(kind, Kind::ConnectionBlocked) {
        return Verdict::Proceeds {
            notice: Notice::Blocked,
            stage,
            owed: Owed::Nothing,
        };
    }
    if side.is_client() && same(kind, Kind::ConnectionUnblocked) {
        return Verdict::Proceeds {
            notice: Notice::Unblocked,
            stage,
            owed: Owed::Nothing,
        };
    }
    if method.class_id() == 10 || !side.may_take(kind) {
        return closes_with(CloseCode::CommandInvalid);
    }
    closes_with(CloseCode::ChannelError)
}

/// A frame on channel 0 of a connection that is Running.
#[inline(never)]
#[tactic(auto, using(crate::proofs::VerdictLemmas::zero_rules))]
fn judge_zero(settings: &Settings, agreed: Agreed, reading: Reading<'_>) -> Verdict
    ensures rules { (channels : Channels)
        → FrameRules settings.now (end_at (Stage.Running agreed) channels) 0 (reading_view reading.entry)
        (OnConnection result) }
    ensures light { DropsReading (phase_at (Stage.Running agreed)) Free 0 (reading_view reading.entry)
        → IsLight Free (OnConnection result) }
{
    match reading {
        Reading::Method(method) => judge_connection(settings, agreed, method),
        Reading::UnknownMethod => closes_with(CloseCode::NotImplemented),
        Reading::MalformedMethod => closes_with(CloseCode::SyntaxError),
        Reading::Header(_) => closes_with(CloseCode::ChannelError),
        Reading::MalformedHeader => closes_with(CloseCode::ChannelError),
        Reading::Body(_) => closes_with(CloseCode::ChannelError),
        Reading::Heartbeat(octets) => judge_beat(Stage::Running(agreed), 0, octets),
    }
}

impl Connection {
    ghost use Rattle.amqp_core.specs.Connection.View.{connection_end};
    ghost use Rattle.amqp_model.specs.End.Channels.{Running};

    /// What was agreed, where a frame with this number is its channel's: with a number above 0, on a connection that
    /// is Running. Otherwise the frame is the connection's.
    #[inline(always)]
    pub(crate) fn agreed_on(&self, number: u16) -> Option<Agreed>
        ensures above { IfSome result (λ agreed. 0 < number) }
        ensures running { IfSome result (λ agreed. self.now.stage ≡ Stage.Running agreed) }
        ensures none { result ≡ None → phase_at self.now.stage ≡ Running → number ≡ 0 }
    {
        if number == 0 {
            return None;
        }
        self.stage.running()
    }

    /// What the rules say of a frame of a channel.
    #[inline(always)]
    #[tactic(auto, using(crate::proofs::VerdictLemmas::channel_rules))]
    pub(crate) fn judge_on(
        &self,
        agreed: Agreed,
        number: u16,
        reading: Reading<'_>,
    ) -> ChannelVerdict
        requires above { 0 < number }
        requires running { self.now.stage ≡ Stage.Running agreed }
        ensures rules { FrameRules self.now.settings (connection_end self.now) number (reading_view reading.entry)
            (OnChannel result) }
        ensures light { DropsReading (phase_at self.now.stage) (channels_view self.now.channels number) number
            (reading_view reading.entry) → IsLight (channels_view self.now.channels number) (OnChannel result) }
    {
        self.channels
            .judge(self.site(number, agreed.channel_max), reading)
    }

    /// What the rules say of a frame of the connection.
    pub(crate) fn judge(&self, number: u16, reading: Reading<'_>) -> Verdict
        requires taking { takes_frames (phase_at self.now.stage) ≡ true }
        requires zero { phase_at self.now.stage ≡ Running → number ≡ 0 }
        ensures rules { FrameRules self.now.settings (connection_end self.now) number (reading_view reading.entry)
            (OnConnection result) }
        ensures light { DropsReading (phase_at self.now.stage) (channels_view self.now.channels number) number
            (reading_view reading.entry) → IsLight (channels_view self.now.channels number) (OnConnection result) }
    {
        match self.stage {
            Stage::Running(agreed) => judge_zero(&self.settings, agreed, reading),
            Stage::Closing(agreed) => judge_leaving(agreed, number, reading),
            Stage::AwaitsStart
            | Stage::HoldsStart
            | Stage::AwaitsStartOk
            | Stage::HoldsLogin
            | Stage::AwaitsTune
            | Stage::AwaitsTuneOk
            | Stage::AwaitsOpen(_)
            | Stage::HoldsOpen(_)
            | Stage::AwaitsOpenOk(_) => judge_handshake(
                &self.settings,
                self.stage,
                number,
                reading,
            ),
            Stage::AwaitsProtocolHeader => unreachable!(),
            Stage::Closed(_) => unreachable!(),
            Stage::Failed(_) => unreachable!(),
        }
    }
}
