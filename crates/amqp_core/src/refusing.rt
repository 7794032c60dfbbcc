//! Why what is asked is refused: the reasons in their order, of which the first that applies is answered. Nothing here
//! takes memory, and nothing that is seen changes.
ghost use Rattle.std.specs.Prelude.{◌≡◌, ◌<◌, ◌+◌, ◌&&◌, true, false, Bool, ℕ, List, Option, length, nat_lt, Some};
ghost use Rattle.std.specs.Prelude.{None, IfOk, IfErr, OnErr, OnOk};
ghost use Rattle.amqp_method.specs.HeaderView.{properties_view};
ghost use Rattle.amqp_method.specs.Kinds.{has_content};
ghost use Rattle.amqp_method.specs.MethodView.{method_view};
ghost use Rattle.amqp_method.specs.Properties.{header};
ghost use Rattle.amqp_model.specs.End.Asks.{is_pausable as is_paused_with, is_sendable as is_sent_as_message, Refusal};
ghost use Rattle.amqp_model.specs.Wire.Methods.{plain_method, plain_header};
ghost use Rattle.amqp_value.specs.Lengths.{capped};
ghost use Rattle.amqp_model.specs.Wire.Gathering.{Gathering};
ghost use Rattle.amqp_channel.specs.Channel.ChannelView.{content_on};
ghost use Rattle.amqp_channel.specs.Channel.LifeView.{life_on, IsOther};
ghost use Rattle.amqp_channel.specs.Events.EventView.{message_of};
ghost use Rattle.amqp_channel.specs.Roles.{role_of};
ghost use Rattle.amqp_core.specs.Asks.LentLetter.{lent_letter};
ghost use Rattle.amqp_channel.specs.Channel.StandingView.{paused_in, requests_in};
ghost use Rattle.amqp_core.specs.Asks.Refusals.{refusal_there, refusal_in, reply_refusal, passes as is_passed};
ghost use Rattle.amqp_core.specs.Asks.Refusals.{is_too_large as is_longer};

use crate::connection::Connection;
use crate::faults::AskFault;
use crate::lent_message::LentMessage;
use crate::stage::Stage;
use amqp_channel::words::same;
use amqp_channel::{Agreed, Side, Standing};
use amqp_method::{Kind, Method, Properties};

/// A payload of so many octets is too long for a frame, in which eight octets stand around it.
fn passes(frame_max: u32, payload: u64) -> bool
    ensures { (octets : ℕ) → payload ≡ capped octets → result ≡ nat_lt frame_max (octets + 8) }
{
    u64::from(frame_max) < payload.saturating_add(8)
}

#[tactic(auto, unfolding(amqp_model::specs::Wire::Methods::plain_method))]
fn method_passes(frame_max: u32, method: &Method) -> bool
    ensures { result ≡ is_passed frame_max (plain_method (method_view method.now)) }
{
    let length = method.payload_length();
    passes(frame_max, length)
}

#[tactic(auto, unfolding(amqp_model::specs::Wire::Methods::plain_header))]
fn header_passes(frame_max: u32, properties: &Properties) -> bool
    ensures { (size : ℕ) → result ≡ is_passed frame_max (plain_header (header size (properties_view properties.now))) }
{
    let length = properties.header_length();
    passes(frame_max, length)
}

/// The method or the content header is too long for a frame.
fn is_too_large(frame_max: u32, message: LentMessage<'_>) -> bool
    ensures { result ≡ is_longer frame_max (message_of (lent_letter message.entry)) }
{
    if method_passes(frame_max, message.method()) {
        return true;
    }
    match message.content_parts() {
        Some((properties, _)) => header_passes(frame_max, properties),
        None => false,
    }
}

/// The message has a content that a paused end may not begin.
fn is_pausable(message: LentMessage<'_>) -> bool
    ensures { result ≡ is_paused_with (message_of (lent_letter message.entry)) }
{
    match message.content_parts() {
        Some(_) => !same(message.method().kind(), Kind::BasicGetOk),
        None => false,
    }
}

/// The other end asked for no more contents, and the message has one that waits for that.
fn is_paused(standing: &Standing, message: LentMessage<'_>) -> bool
    ensures { result ≡ (is_paused_with (message_of (lent_letter message.entry)) && paused_in standing.now) }
{
    is_pausable(message) && standing.is_paused()
}

/// The side may send the method, and it is sent as a message.
fn is_sendable(side: Side, kind: Kind) -> bool
    ensures { result ≡ is_sent_as_message (role_of side) kind }
{
    side.may_send(kind) && kind.class_id() != 10 && kind.class_id() != 20
}

/// Why a request or a reply is out of turn.
fn refusal_of_turn(side: Side, standing: &Standing, method: &Method) -> Option<AskFault>
    ensures { refusal_there result ≡ reply_refusal (role_of side) (requests_in standing.now) (method_view method.now) }
{
    match side {
        Side::Client => {
            if method.is_request() && standing.requests() > 0 {
                return Some(AskFault::ReplyPending);
            }
        }
        Side::Server => {
            if method.kind().is_reply() && !standing.is_answered_by(method.kind()) {
                return Some(AskFault::NoSuchRequest);
            }
        }
    }
    None
}

/// Why a message is refused on a channel that is Open.
fn refusal_of_message(
    side: Side,
    frame_max: u32,
    standing: &Standing,
    message: LentMessage<'_>,
) -> Option<AskFault>
    ensures { (content : Gathering) → refusal_there result
        ≡ refusal_in (role_of side) frame_max (life_on content standing.now) (message_of (lent_letter message.entry)) }
{
    if is_paused(standing, message) {
        return Some(AskFault::Paused);
    }
    if !is_sendable(side, message.method().kind()) {
        return Some(AskFault::NotSendable);
    }
    if is_too_large(frame_max, message) {
        return Some(AskFault::TooLarge);
    }
    refusal_of_turn(side, standing, message.method())
}

impl Connection {
    ghost use Rattle.amqp_model.specs.End.Asks as asks;
    ghost use Rattle.amqp_model.specs.End.Asks.{is_free, is_running, lowest_free, refusal};
    ghost use Rattle.amqp_model.specs.End.Closes.{Cause};
    ghost use Rattle.amqp_model.specs.Wire.Notes.{Client, Role, Server};
    ghost use Rattle.amqp_model.specs.Wire.Readings.{Calls, kind_of};
    ghost use Rattle.amqp_channel.specs.Channels.ChannelsView.{channels_view};
    ghost use Rattle.amqp_channel.specs.Channels.Used.{is_open_at};
    ghost use Rattle.amqp_core.specs.Asks.Outcomes.{content_asked, IsAllowed, IsRefusal};
    ghost use Rattle.amqp_core.specs.Connection.View.{connection_end};
    ghost use Rattle.amqp_core.specs.Faults.Numbers.{refusal_view};
    ghost use Rattle.amqp_core.specs.Asks.Refusals.{refused_on, IsOpenIn};
    ghost use Rattle.amqp_core.specs.Config.Settings.{role_for};
    ghost use Rattle.amqp_core.specs.Connection.Stages.{phase_at};
    ghost use Rattle.amqp_core.specs.declared.stage.Stage.TheVariants.{Running};

    /// What was agreed on a connection that is Running.
    pub(crate) fn running(&self) -> Result<Agreed, AskFault>
        ensures running { IfOk result (λ agreed. self.now.stage ≡ Running agreed) }
        ensures idle { OnErr result (is_running (phase_at self.now.stage) ≡ false) }
        ensures not_running { IfErr result (λ fault. fault ≡ AskFault.NotRunning) }
        ensures refused { IfErr result (λ fault. (role : Role) (ask : asks.Ask)
            → refusal_view fault ≡ refusal role (connection_end self.now) ask) }
    {
        match self.stage {
            Stage::Running(agreed) => Ok(agreed),
            Stage::AwaitsProtocolHeader
            | Stage::AwaitsStart
            | Stage::AwaitsStartOk
            | Stage::AwaitsTune
            | Stage::AwaitsTuneOk
            | Stage::AwaitsOpen(_)
            | Stage::AwaitsOpenOk(_)
            | Stage::HoldsStart
            | Stage::HoldsLogin
            | Stage::HoldsOpen(_)
            | Stage::Closing(_)
            | Stage::Closed(_)
            | Stage::Failed(_) => Err(AskFault::NotRunning),
        }
    }

    /// What stands beside the content of a channel that is Open.
    fn open_standing(&self, agreed: Agreed, number: u16) -> Result<&Standing, AskFault>
        requires { self.now.stage ≡ Running agreed }
        ensures open { IfOk result (λ standing. IsOpenIn (connection_end self.now) number
            (life_on (content_on (channels_view self.now.channels number)) standing.now)) }
        ensures refused { IfErr result (λ fault. (later : List (Option Refusal))
            → refusal_view fault ≡ refused_on (connection_end self.now) number later) }
    {
        if number == 0 || agreed.channel_max < number {
            return Err(AskFault::BadChannel);
        }
        match self.channels.get(number) {
            Some(channel) => match channel.standing() {
                Some(standing) => Ok(standing),
                None => Err(AskFault::NotOpen),
            },
            None => Err(AskFault::NotOpen),
        }
    }

    /// The channel that an open takes, where it isn't refused.
    pub(crate) fn allow_open(&mut self) -> Result<u16, AskFault>
        ensures allowed { OnOk result (IsAllowed self.old.settings (connection_end self.old) asks.Open) }
        ensures refused { IfErr result (λ fault. IsRefusal self.old.settings (connection_end self.old) asks.Open
            fault) }
        ensures running { OnOk result (is_running (connection_end self.old).phase ≡ true) }
        ensures lowest { IfOk result (λ number. lowest_free (connection_end self.old) ≡ Some number) }
        ensures above { IfOk result (λ number. 0 < number) }
        ensures free { IfOk result (λ number. is_free (channels_view self.old.channels number) ≡ true) }
        ensures client { OnOk result (role_for self.old.settings ≡ Client) }
        ensures same { (number : ℕ) → channels_view self.new.channels number ≡ channels_view self.old.channels number }
        ensures settings { self.new.settings ≡ self.old.settings }
        ensures stage { self.new.stage ≡ self.old.stage }
    {
        let agreed = self.running()?;
        match self.settings.hello.side() {
            Side::Server => Err(AskFault::NotSendable),
            Side::Client => match self.channels.lowest_free(agreed.channel_max) {
                Some(number) => Ok(number),
                None => Err(AskFault::NoFreeChannel),
            },
        }
    }

    /// What was agreed, where a message isn't refused.
    pub(crate) fn allow_send(
        &self,
        number: u16,
        message: LentMessage<'_>,
    ) -> Result<Agreed, AskFault>
        ensures allowed { OnOk result (IsAllowed self.now.settings (connection_end self.now)
            (asks.Send number (message_of (lent_letter message.entry)))) }
        ensures refused { IfErr result (λ fault. IsRefusal self.now.settings (connection_end self.now)
            (asks.Send number (message_of (lent_letter message.entry))) fault) }
        ensures running { IfOk result (λ agreed. self.now.stage ≡ Running agreed) }
        ensures above { OnOk result (0 < number) }
        ensures open { OnOk result (is_open_at (channels_view self.now.channels number) ≡ true) }
        ensures other { OnOk result (IsOther (kind_of (Calls (lent_letter message.entry).call))) }
        ensures room { IfOk result (λ agreed. 8 < agreed.frame_max) }
    {
        let agreed = self.running()?;
        let standing = self.open_standing(agreed, number)?;
        let side = self.settings.hello.side();
        match refusal_of_message(side, agreed.frame_max, standing, message) {
            Some(fault) => Err(fault),
            None => Ok(agreed),
        }
    }

    /// What was agreed, where a method isn't refused with its content, whatever the body is.
    pub(crate) fn allow_content(
        &self,
        number: u16,
        method: &Method,
        properties: &Properties,
    ) -> Result<Agreed, AskFault>
        requires { has_content (method_view method.now).kind ≡ true }
        ensures allowed { OnOk result ((body : List ℕ) → IsAllowed self.now.settings (connection_end self.now)
            (content_asked number (method_view method.now) (properties_view properties.now) body)) }
        ensures refused { IfErr result (λ fault. (body : List ℕ) → IsRefusal self.now.settings
            (connection_end self.now)
            (content_asked number (method_view method.now) (properties_view properties.now) body) fault) }
        ensures running { IfOk result (λ agreed. self.now.stage ≡ Running agreed) }
        ensures above { OnOk result (0 < number) }
        ensures open { OnOk result (is_open_at (channels_view self.now.channels number) ≡ true) }
        ensures other { OnOk result (IsOther (kind_of (Calls (method_view method.now)))) }
        ensures room { IfOk result (λ agreed. 8 < agreed.frame_max) }
    {
        let message = LentMessage::content(method, properties, &[]);
        match self.allow_send(number, message) {
            Ok(agreed) => Ok(agreed),
            Err(fault) => Err(fault),
        }
    }

    /// What was agreed, where a flow isn't refused.
    pub(crate) fn allow_flow(&self, number: u16) -> Result<Agreed, AskFault>
        ensures allowed { OnOk result ((active : Bool) → IsAllowed self.now.settings (connection_end self.now)
            (asks.Flow number active)) }
        ensures refused { IfErr result (λ fault. (active : Bool)
            → IsRefusal self.now.settings (connection_end self.now) (asks.Flow number active) fault) }
        ensures running { IfOk result (λ agreed. self.now.stage ≡ Running agreed) }
        ensures above { OnOk result (0 < number) }
        ensures open { OnOk result (is_open_at (channels_view self.now.channels number) ≡ true) }
    {
        let agreed = self.running()?;
        let standing = self.open_standing(agreed, number)?;
        if standing.awaits_flow_ok() {
            return Err(AskFault::FlowPending);
        }
        Ok(agreed)
    }

    /// What was agreed, where a close of a channel isn't refused.
    pub(crate) fn allow_close(&self, number: u16) -> Result<Agreed, AskFault>
        ensures allowed { OnOk result ((code : ℕ) (text : List ℕ) (cause : Cause)
            → IsAllowed self.now.settings (connection_end self.now) (asks.CloseChannel number code text cause)) }
        ensures refused { IfErr result (λ fault. (code : ℕ) (text : List ℕ) (cause : Cause)
            → IsRefusal self.now.settings (connection_end self.now) (asks.CloseChannel number code text cause) fault) }
        ensures running { IfOk result (λ agreed. self.now.stage ≡ Running agreed) }
        ensures above { OnOk result (0 < number) }
        ensures open { OnOk result (is_open_at (channels_view self.now.channels number) ≡ true) }
    {
        let agreed = self.running()?;
        let _standing = self.open_standing(agreed, number)?;
        Ok(agreed)
    }

    /// What was agreed, where it isn't refused to say that contents are taken or not.
    pub(crate) fn allow_block(&self) -> Result<Agreed, AskFault>
        ensures allowed { OnOk result ((reason : List ℕ) → IsAllowed self.now.settings (connection_end self.now)
            (asks.Blocked reason)) }
        ensures unblocking { OnOk result (IsAllowed self.now.settings (connection_end self.now) asks.Unblocked) }
        ensures refused { IfErr result (λ fault. (reason : List ℕ)
            → IsRefusal self.now.settings (connection_end self.now) (asks.Blocked reason) fault) }
        ensures no_unblocking { IfErr result (λ fault. IsRefusal self.now.settings (connection_end self.now)
            asks.Unblocked fault) }
        ensures running { IfOk result (λ agreed. self.now.stage ≡ Running agreed) }
        ensures server { OnOk result (role_for self.now.settings ≡ Server) }
    {
        let agreed = self.running()?;
        match self.settings.hello.side() {
            Side::Client => Err(AskFault::NotSendable),
            Side::Server => Ok(agreed),
        }
    }
}
