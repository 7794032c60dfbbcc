//! What was wrong, in a format string.
use crate::blame::{Blame, Rule};
use amqp_frame::{FrameFaultKind, FrameKind};
use amqp_method::MethodFault;
use std::fmt;

/// Prints what is wrong, of what the line names before.
impl fmt::Display for Rule {
    fn fmt<W: fmt::Write>(&self, f: &mut fmt::Formatter<W>) -> fmt::Result {
        f.write_str(match self {
            Rule::ProtocolHeader => "other than this version's protocol header",
            Rule::Framing(FrameFaultKind::UnknownType) => "of no frame type",
            Rule::Framing(FrameFaultKind::TooLarge) => "of a frame longer than the limit",
            Rule::Framing(FrameFaultKind::BadEnd) => "of a frame without its end octet",
            Rule::Framing(FrameFaultKind::OutOfMemory) => "for which there is no memory",
            Rule::Framing(FrameFaultKind::Failed) => "after a fault",
            Rule::HeartbeatIsEmpty => "that is not empty",
            Rule::HeartbeatOnZero => "on a channel",
            Rule::KnownMethod => "that there isn't",
            Rule::NoSecure => "that is not implemented",
            Rule::Syntax => "that can't be read",
            Rule::HandshakeOrder => "out of turn in the handshake",
            Rule::TuneFrameSize => "with frames below 4096 octets",
            Rule::TuneOkRange => "beyond the limits of tune",
            Rule::HandshakeIsOver => "after the handshake",
            Rule::ConnectionOnZero => "on a channel",
            Rule::SentBySide => "that this side doesn't take",
            Rule::WasAsked => "that answers nothing that was asked",
            Rule::NotOnZero => "outside a channel",
            Rule::ChannelMaximum => "on a channel above the agreed maximum",
            Rule::OpenedOnce => "on a channel that is open",
            Rule::ChannelOpen => "on a channel that is not open",
            Rule::HeaderDue => "while a header is due",
            Rule::BodyDue => "while a body is due",
            Rule::ContentBegun => "while no content is begun",
            Rule::BodySize => "longer than announced",
            Rule::WaitingRequests => "beyond 1024 requests that wait",
            Rule::ContentSize => "larger than is taken",
        })
    }
}

/// What the rule is said of: the method, if it is known, or the frame.
fn write_subject<W: fmt::Write>(f: &mut fmt::Formatter<W>, blame: &Blame) -> fmt::Result {
    if let Some(method) = blame.method {
        return write!(f, "{method}");
    }
    f.write_str(match blame.frame {
        Some(FrameKind::Method) => "a method",
        Some(FrameKind::Header) => "a header",
        Some(FrameKind::Body) => "a body",
        Some(FrameKind::Heartbeat) => "a heartbeat",
        None => "octets",
    })
}

fn write_channel<W: fmt::Write>(f: &mut fmt::Formatter<W>, channel: Option<u16>) -> fmt::Result {
    match channel {
        Some(channel) => write!(f, ", channel {channel}"),
        None => Ok(()),
    }
}

fn write_field<W: fmt::Write>(
    f: &mut fmt::Formatter<W>,
    field: Option<MethodFault>,
) -> fmt::Result {
    match field {
        Some(fault) => write!(f, ": {fault} of the payload"),
        None => Ok(()),
    }
}

fn write_code<W: fmt::Write>(f: &mut fmt::Formatter<W>, rule: Rule) -> fmt::Result {
    match rule.code() {
        Some(code) => {
            let number = code.number();
            write!(f, " ({number})")
        }
        None => Ok(()),
    }
}

/// Prints the place, the channel, what was wrong and the code of the close: a line, without a line feed at its end.
impl fmt::Display for Blame {
    fn fmt<W: fmt::Write>(&self, f: &mut fmt::Formatter<W>) -> fmt::Result {
        let octet = self.octet;
        let rule = self.rule;
        write!(f, "octet {octet}")?;
        write_channel(f, self.channel)?;
        f.write_str(": ")?;
        write_subject(f, self)?;
        write!(f, " {rule}")?;
        write_field(f, self.field)?;
        write_code(f, rule)
    }
}
