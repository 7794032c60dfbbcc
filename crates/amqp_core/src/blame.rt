//! What was wrong with the octets with which an end found fault.
ghost use Rattle.std.specs.Prelude.{◌≡◌};

use amqp_channel::CloseCode;
use amqp_frame::{FrameFaultKind, FrameKind};
use amqp_method::{Kind, MethodFault};

/// The rules that the other end can break.
#[derive(Clone, Copy, PartialEq, Eq, Debug)]
pub enum Rule {
    /// A server hears the protocol header first, of this version.
    ProtocolHeader,
    /// Octets are frames.
    Framing(FrameFaultKind),
    /// A heartbeat is empty.
    HeartbeatIsEmpty,
    /// A heartbeat stands on channel 0.
    HeartbeatOnZero,
    /// A method is one that there is.
    KnownMethod,
    /// connection.secure is not implemented.
    NoSecure,
    /// The payload of a method or of a header is read to its end.
    Syntax,
    /// In the handshake nothing comes but its next method, or a close.
    HandshakeOrder,
    /// tune allows frames of 4096 octets.
    TuneFrameSize,
    /// tune-ok stays within the limits of tune.
    TuneOkRange,
    /// After the handshake no method of the class connection comes, but close, blocked and unblocked.
    HandshakeIsOver,
    /// Methods of the class connection stand on channel 0.
    ConnectionOnZero,
    /// The side may send the method.
    SentBySide,
    /// What answers was asked for: a reply, flow-ok, open-ok and close-ok.
    WasAsked,
    /// Channel 0 carries what is of the connection.
    NotOnZero,
    /// A channel's number is at most the agreed one.
    ChannelMaximum,
    /// A channel that is open isn't opened again.
    OpenedOnce,
    /// The channel is open.
    ChannelOpen,
    /// After the method of a content comes its header.
    HeaderDue,
    /// After a header come parts of the body until it is whole.
    BodyDue,
    /// A header or a part of a body belongs to a content that was begun.
    ContentBegun,
    /// A body is no longer than its header said.
    BodySize,
    /// At most 1,024 requests of a channel wait for their replies.
    WaitingRequests,
    /// A content is no larger than the end takes. No end finds fault for it: the content is refused on its channel.
    ContentSize,
}

impl Rule {
    ghost use Rattle.amqp_core.specs.Faults.Blamed.{code_there, rule_code};

    /// The code with which the connection is closed where the rule is broken. There is none where no close can be read.
    pub fn code(self) -> Option<CloseCode>
        ensures { code_there result ≡ rule_code self }
    {
        match self {
            Rule::ProtocolHeader => None,
            Rule::Framing(FrameFaultKind::TooLarge) => Some(CloseCode::FrameError),
            Rule::Framing(FrameFaultKind::UnknownType) => None,
            Rule::Framing(FrameFaultKind::BadEnd) => None,
            Rule::Framing(FrameFaultKind::OutOfMemory) => None,
            Rule::Framing(FrameFaultKind::Failed) => None,
            Rule::HeartbeatIsEmpty => Some(CloseCode::FrameError),
            Rule::HeartbeatOnZero => Some(CloseCode::FrameError),
            Rule::KnownMethod => Some(CloseCode::NotImplemented),
            Rule::NoSecure => Some(CloseCode::NotImplemented),
            Rule::Syntax => Some(CloseCode::SyntaxError),
            Rule::HandshakeOrder => Some(CloseCode::CommandInvalid),
            Rule::TuneFrameSize => Some(CloseCode::FrameError),
            Rule::TuneOkRange => None,
            Rule::HandshakeIsOver => Some(CloseCode::CommandInvalid),
            Rule::ConnectionOnZero => Some(CloseCode::CommandInvalid),
            Rule::SentBySide => Some(CloseCode::CommandInvalid),
            Rule::WasAsked => Some(CloseCode::CommandInvalid),
            Rule::NotOnZero => Some(CloseCode::ChannelError),
            Rule::ChannelMaximum => Some(CloseCode::ChannelError),
            Rule::OpenedOnce => Some(CloseCode::ChannelError),
            Rule::ChannelOpen => Some(CloseCode::ChannelError),
            Rule::HeaderDue => Some(CloseCode::UnexpectedFrame),
            Rule::BodyDue => Some(CloseCode::UnexpectedFrame),
            Rule::ContentBegun => Some(CloseCode::UnexpectedFrame),
            Rule::BodySize => Some(CloseCode::FrameError),
            Rule::WaitingRequests => Some(CloseCode::ResourceError),
            Rule::ContentSize => Some(CloseCode::ContentTooLarge),
        }
    }
}

/// What was wrong: where, with which frame, and by which rule.
///
/// In a format string it is one line: `octet 1043, channel 3: basic.ack while a header is due (505)`.
#[derive(Clone, Copy, PartialEq, Eq, Debug)]
pub struct Blame {
    /// The place in the stream, counted from 0, where the frame or the protocol header at fault begins.
    pub octet: u64,
    /// The frame's channel. The channel, the kind and the method are told of whole frames alone.
    pub channel: Option<u16>,
    pub frame: Option<FrameKind>,
    /// The method that the first octets of a method's payload name, if they name one.
    pub method: Option<Kind>,
    /// Where a method or a header can't be read: what is wrong with it, and where in its payload.
    pub field: Option<MethodFault>,
    pub rule: Rule,
}

impl Blame {
    ghost use Rattle.amqp_core.specs.Faults.Blamed.{blame_view, code_there, octets_blamed, rule_code};

    /// Octets from there on that are no frame.
    pub(crate) fn of_octets(octet: u64, rule: Rule) -> Blame
        ensures { blame_view result ≡ octets_blamed octet (rule_code rule) }
    {
        Blame {
            octet,
            channel: None,
            frame: None,
            method: None,
            field: None,
            rule,
        }
    }

    /// The code with which the connection is closed, as [`Rule::code`] says.
    pub fn code(self) -> Option<CloseCode>
        ensures { code_there result ≡ (blame_view self).code }
    {
        self.rule.code()
    }
}
