//! What was wrong with a frame with which fault was found: the frame, the stage and its channel are looked at again.
ghost use Rattle.std.specs.Prelude.{◌≡◌, Some, None};
ghost use Rattle.amqp_channel.specs.Events.Closes.{code_view};
ghost use Rattle.amqp_frame.specs.Frame.{lent};
ghost use Rattle.amqp_model.specs.End.Closes as closes;
ghost use Rattle.amqp_core.specs.Faults.Blamed.{blame_view, blames_frame, code_of, frame_blamed, method_named, rule_code, tally_view};
ghost use Rattle.amqp_core.specs.Connection.View.{fault_of};

use crate::blame::{Blame, Rule};
use crate::connection::Connection;
use crate::stage::{Phase, Stage};
use crate::tally::Tally;
use crate::verdict::Fault;
use amqp_channel::words::same;
use amqp_channel::{Channel, CloseCode, Gathering, Reading, Side};
use amqp_frame::{FrameKind, FrameRef, OVERHEAD};
use amqp_method::{Kind, MethodFault, check_header, check_method, peek_kind};

/// Which of the rules with code 501 is broken: of heartbeats, of the size in tune, or of the size of a body.
fn frame_error(number: u16, reading: Reading<'_>) -> Rule
    ensures { rule_code result ≡ Some closes.FrameError }
{
    match reading {
        Reading::Heartbeat(_) => {
            if number == 0 {
                Rule::HeartbeatIsEmpty
            } else {
                Rule::HeartbeatOnZero
            }
        }
        Reading::Body(_) => Rule::BodySize,
        Reading::Method(_)
        | Reading::UnknownMethod
        | Reading::MalformedMethod
        | Reading::Header(_)
        | Reading::MalformedHeader => Rule::TuneFrameSize,
    }
}

/// Which of those with code 540.
fn not_implemented(reading: Reading<'_>) -> Rule
    ensures { rule_code result ≡ Some closes.NotImplemented }
{
    match reading {
        Reading::Method(_) => Rule::NoSecure,
        Reading::UnknownMethod
        | Reading::MalformedMethod
        | Reading::Header(_)
        | Reading::MalformedHeader
        | Reading::Body(_)
        | Reading::Heartbeat(_) => Rule::KnownMethod,
    }
}

/// Which of those with code 503, after the handshake.
fn method_out_of_turn(side: Side, number: u16, kind: Kind) -> Rule
    ensures { rule_code result ≡ Some closes.CommandInvalid }
{
    if kind.class_id() == 10 {
        if number == 0 {
            return Rule::HandshakeIsOver;
        }
        return Rule::ConnectionOnZero;
    }
    if !side.may_take(kind) {
        return Rule::SentBySide;
    }
    Rule::WasAsked
}

/// Which of those with code 505: what is due on the channel.
fn due_on(channel: &Channel) -> Rule
    ensures { rule_code result ≡ Some closes.UnexpectedFrame }
{
    match channel {
        Channel::LentHeader(_, _) => Rule::HeaderDue,
        Channel::LentBody { .. } => Rule::BodyDue,
        Channel::Open(life) => match &life.content {
            Gathering::Nothing => Rule::ContentBegun,
            Gathering::HeaderDue(_) => Rule::HeaderDue,
            Gathering::BodyDue { .. } => Rule::BodyDue,
            Gathering::Deferred(_) => Rule::BodyDue,
        },
        Channel::Free | Channel::Opening | Channel::Closing => Rule::ContentBegun,
    }
}

/// The method that a frame names.
fn named(frame: FrameRef<'_>) -> Option<Kind>
    ensures { result ≡ method_named (lent frame.entry).kind (lent frame.entry).payload }
{
    match frame.kind {
        FrameKind::Method => peek_kind(frame.payload),
        FrameKind::Header => None,
        FrameKind::Body => None,
        FrameKind::Heartbeat => None,
    }
}

/// What is wrong with the payload of a method or of a header.
fn field_at(frame: FrameRef<'_>) -> Option<MethodFault> {
    match frame.kind {
        FrameKind::Method => check_method(frame.payload).err(),
        FrameKind::Header => check_header(frame.payload).err(),
        FrameKind::Body => None,
        FrameKind::Heartbeat => None,
    }
}

/// The same, where that rule is broken.
fn field_of(rule: Rule, frame: FrameRef<'_>) -> Option<MethodFault> {
    match rule {
        Rule::Syntax => field_at(frame),
        _ => None,
    }
}

impl Connection {
    /// Which of the rules with code 503.
    fn command_invalid(&self, number: u16, reading: Reading<'_>) -> Rule
        ensures { rule_code result ≡ Some closes.CommandInvalid }
    {
        let Phase::Running = self.stage.phase() else {
            return Rule::HandshakeOrder;
        };
        match reading {
            Reading::Method(method) => {
                let side = self.settings.hello.side();
                method_out_of_turn(side, number, method.kind())
            }
            Reading::UnknownMethod
            | Reading::MalformedMethod
            | Reading::Header(_)
            | Reading::MalformedHeader
            | Reading::Body(_)
            | Reading::Heartbeat(_) => Rule::HandshakeOrder,
        }
    }

    /// Which of those with code 504.
    fn channel_error(&self, number: u16, reading: Reading<'_>) -> Rule
        ensures { rule_code result ≡ Some closes.ChannelError }
    {
        if number == 0 {
            return Rule::NotOnZero;
        }
        if let Some(agreed) = self.stage.agreed() {
            if agreed.channel_max < number {
                return Rule::ChannelMaximum;
            }
        }
        if let Reading::Method(method) = reading {
            if same(method.kind(), Kind::ChannelOpen) {
                return Rule::OpenedOnce;
            }
        }
        Rule::ChannelOpen
    }

    /// Which of those with code 505.
    fn unexpected_frame(&self, number: u16) -> Rule
        ensures { rule_code result ≡ Some closes.UnexpectedFrame }
    {
        if number == 0 {
            return Rule::ContentBegun;
        }
        match self.channels.get(number) {
            Some(channel) => due_on(channel),
            None => Rule::ContentBegun,
        }
    }

    /// Which rule the frame broke that is answered with a code.
    fn rule_of(&self, code: CloseCode, number: u16, reading: Reading<'_>) -> Rule
        ensures { rule_code result ≡ Some (code_view code) }
    {
        match code {
            CloseCode::ContentTooLarge => Rule::ContentSize,
            CloseCode::FrameError => frame_error(number, reading),
            CloseCode::SyntaxError => Rule::Syntax,
            CloseCode::CommandInvalid => self.command_invalid(number, reading),
            CloseCode::ChannelError => self.channel_error(number, reading),
            CloseCode::UnexpectedFrame => self.unexpected_frame(number),
            CloseCode::ResourceError => Rule::WaitingRequests,
            CloseCode::NotImplemented => not_implemented(reading),
        }
    }

    /// Which rule the frame broke.
    fn rule_broken(&self, fault: Fault, number: u16, reading: Reading<'_>) -> Rule
        ensures { rule_code result ≡ code_of (fault_of fault) }
    {
        match fault {
            Fault::Peer(code) => self.rule_of(code, number, reading),
            Fault::Fatal => Rule::TuneOkRange,
        }
    }

    /// What was wrong with a frame that begins there.
    fn blame_at(&self, octet: u64, fault: Fault, frame: FrameRef<'_>) -> Blame
        ensures { blame_view result ≡ frame_blamed octet (lent frame.entry) (code_of (fault_of fault)) }
    {
        let rule = self.rule_broken(fault, frame.channel, Reading::of(frame));
        Blame {
            octet,
            channel: Some(frame.channel),
            frame: Some(frame.kind),
            method: named(frame),
            field: field_of(rule, frame),
            rule,
        }
    }

    /// The end has found fault with the frame that was taken last.
    #[inline(never)]
    pub(crate) fn blame_frame(&self, fault: Fault, frame: FrameRef<'_>, tally: &mut Tally)
        ensures { tally_view tally.new ≡ blames_frame (Some (code_of (fault_of fault))) (lent frame.entry)
            (tally_view tally.old) }
    {
        let length = frame.payload.len() as u64 + OVERHEAD as u64;
        let octet = tally.octets.saturating_sub(length);
        tally.blame = Some(self.blame_at(octet, fault, frame));
    }
}
