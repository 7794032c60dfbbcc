//! What an end owes of itself in reply to what it takes, and how it is staged.
ghost use Rattle.std.specs.Prelude.{◌≡◌, [], ◌∷◌, map, Some, OnOk, OnErr};
ghost use Rattle.amqp_model.specs.End.Closes.{frame_of, reply_to, channel_close, connection_close};
ghost use Rattle.amqp_model.specs.End.FrameVerdict.{on_channel};
ghost use Rattle.amqp_outbox.specs.OutboxView.{with_staged};
ghost use Rattle.amqp_channel.specs.Events.Closes.{code_view};
ghost use Rattle.amqp_channel.specs.Events.EventView.{agreed_view};
ghost use Rattle.amqp_channel.specs.Verdict.VerdictView.{reply_kind};
ghost use Rattle.amqp_core.specs.Connection.Owed.{owed_view, starts, answers_start, tunes, answers_tune};
ghost use Rattle.amqp_core.specs.Config.Settings.{role_for, config_view};

use crate::greeting::{open, tune};
use crate::kept_hello::Kept;
use crate::replies::{bare, close, flow_ok, tune_ok};
use crate::settings::Settings;
use amqp_channel::{Agreed, CloseCode, Reply};
use amqp_method::Kind;
use amqp_outbox::{Outbox, StageFault};
use std::alloc::Global;

/// What an end owes in reply to a frame, or as it begins.
#[derive(Clone, Copy)]
pub(crate) enum Owed {
    Nothing,
    Start,
    StartOk,
    Tune,
    /// The client opens the connection as soon as it has answered tune.
    TuneOkAndOpen(Agreed),
    OpenOk,
    Close(CloseCode),
    CloseOk,
    OnChannel(u16, Reply),
    ChannelClose(u16, CloseCode),
}

/// Stages the server's start.
fn stage_start(alloc: Global, settings: &Settings, outbox: &mut Outbox) -> Result<(), StageFault>
    ensures ok { OnOk result (outbox.new ≡ with_staged outbox.old
        (map frame_of (starts (role_for settings.now) (config_view settings.now)))) }
    ensures err { OnErr result (outbox.new.output ≡ outbox.old.output) }
{
    match &settings.hello.kept {
        Kept::Client(_) => Ok(()),
        Kept::Server(_) => {
            let method = settings.greeting(alloc)?;
            outbox.stage_method(0, &method)
        }
    }
}

/// Stages the client's start-ok.
fn stage_start_ok(alloc: Global, settings: &Settings, outbox: &mut Outbox) -> Result<(), StageFault>
    ensures ok { OnOk result (outbox.new ≡ with_staged outbox.old
        (map frame_of (answers_start (role_for settings.now) (config_view settings.now)))) }
    ensures err { OnErr result (outbox.new.output ≡ outbox.old.output) }
{
    match &settings.hello.kept {
        Kept::Client(_) => {
            let method = settings.greeting(alloc)?;
            outbox.stage_method(0, &method)
        }
        Kept::Server(_) => Ok(()),
    }
}

/// Stages the server's tune.
fn stage_tune(alloc: Global, settings: &Settings, outbox: &mut Outbox) -> Result<(), StageFault>
    ensures ok { OnOk result (outbox.new ≡ with_staged outbox.old
        (map frame_of (tunes (role_for settings.now) (config_view settings.now)))) }
    ensures err { OnErr result (outbox.new.output ≡ outbox.old.output) }
{
    match &settings.hello.kept {
        Kept::Client(_) => Ok(()),
        Kept::Server(_) => {
            let method = tune(alloc, settings)?;
            outbox.stage_method(0, &method)
        }
    }
}

/// Stages the client's tune-ok and open.
fn stage_tune_ok(
    alloc: Global,
    settings: &Settings,
    agreed: Agreed,
    outbox: &mut Outbox,
) -> Result<(), StageFault>
    ensures ok { OnOk result (outbox.new ≡ with_staged outbox.old
        (map frame_of (answers_tune (role_for settings.now) (config_view settings.now) (agreed_view agreed)))) }
    ensures err { OnErr result (outbox.new.output ≡ outbox.old.output) }
{
    match &settings.hello.kept {
        Kept::Client(hello) => {
            let settled = tune_ok(alloc, agreed)?;
            let opening = open(alloc, hello)?;
            outbox.stage_method(0, &settled)?;
            outbox.stage_method(0, &opening)
        }
        Kept::Server(_) => Ok(()),
    }
}

/// Stages a reply on a channel.
fn stage_reply(
    alloc: Global,
    number: u16,
    reply: Reply,
    outbox: &mut Outbox,
) -> Result<(), StageFault>
    ensures ok { OnOk result (outbox.new ≡ with_staged outbox.old
        (map frame_of (map (on_channel number) (reply_to (Some (reply_kind reply)))))) }
    ensures err { OnErr result (outbox.new.output ≡ outbox.old.output) }
{
    match reply {
        Reply::OpenOk => outbox.stage_method(number, &bare(alloc, Kind::ChannelOpenOk)),
        Reply::CloseOk => outbox.stage_method(number, &bare(alloc, Kind::ChannelCloseOk)),
        Reply::FlowOk(active) => {
            let method = flow_ok(alloc, active)?;
            outbox.stage_method(number, &method)
        }
    }
}

/// Stages a close of the connection.
fn stage_close(alloc: Global, code: CloseCode, outbox: &mut Outbox) -> Result<(), StageFault>
    ensures ok { OnOk result (outbox.new ≡ with_staged outbox.old (frame_of (connection_close (code_view code)) ∷ [])) }
    ensures err { OnErr result (outbox.new.output ≡ outbox.old.output) }
{
    let method = close(alloc, Kind::ConnectionClose, code)?;
    outbox.stage_method(0, &method)
}

/// Stages a close of a channel.
fn stage_channel_close(
    alloc: Global,
    number: u16,
    code: CloseCode,
    outbox: &mut Outbox,
) -> Result<(), StageFault>
    ensures ok { OnOk result (outbox.new ≡ with_staged outbox.old (frame_of (channel_close number (code_view code)) ∷
        [])) }
    ensures err { OnErr result (outbox.new.output ≡ outbox.old.output) }
{
    let method = close(alloc, Kind::ChannelClose, code)?;
    outbox.stage_method(number, &method)
}

impl Owed {
    ghost use Rattle.std.specs.Prelude.{IsOk};
    ghost use Rattle.amqp_core.specs.Connection.Owed.{IsNothing};

    /// Stages the frames of what is owed, after those that are staged.
    pub(crate) fn stage(
        self,
        alloc: Global,
        settings: &Settings,
        outbox: &mut Outbox,
    ) -> Result<(), StageFault>
        ensures ok { OnOk result (outbox.new ≡ with_staged outbox.old (map frame_of (owed_view settings.now self))) }
        ensures nothing { IsNothing self → IsOk result }
        ensures err { OnErr result (outbox.new.output ≡ outbox.old.output) }
    {
        match self {
            Owed::Nothing => Ok(()),
            Owed::Start => stage_start(alloc, settings, outbox),
            Owed::StartOk => stage_start_ok(alloc, settings, outbox),
            Owed::Tune => stage_tune(alloc, settings, outbox),
            Owed::TuneOkAndOpen(agreed) => stage_tune_ok(alloc, settings, agreed, outbox),
            Owed::OpenOk => outbox.stage_method(0, &bare(alloc, Kind::ConnectionOpenOk)),
            Owed::Close(code) => stage_close(alloc, code, outbox),
            Owed::CloseOk => outbox.stage_method(0, &bare(alloc, Kind::ConnectionCloseOk)),
            Owed::OnChannel(number, reply) => stage_reply(alloc, number, reply, outbox),
            Owed::ChannelClose(number, code) => stage_channel_close(alloc, number, code, outbox),
        }
    }
}
