//! What comes of a step.
use amqp_core::{Agreed, AskFault, Cause, ChannelState, CoreFault, Phase};
use amqp_method::Kind;
use std::fmt;

/// What comes of a step: of what was done with an end, or was seen of it.
#[derive(Clone, Copy)]
pub(crate) enum Came {
    /// What the step says.
    AsSaid,
    /// What was asked is put.
    Put,
    /// What was asked is put. An open takes this channel.
    Opened(u16),
    Refused(AskFault),
    /// So many events.
    Events(usize),
    /// The event of this name, or `-` for none.
    Event(&'static str),
    Fault(CoreFault),
    Phase(Phase),
    State(ChannelState),
    Agreed(Option<Agreed>),
    Due(Option<Kind>),
    ClosedFor(Option<Cause>),
    Count(usize),
    Number(u64),
    /// The end has other octets to write.
    OtherOctets,
    /// No such content was completed.
    NoContent,
    /// The handshake isn't over, or the channels aren't open.
    NotOpen,
}

fn write_agreed<W: fmt::Write>(f: &mut fmt::Formatter<W>, agreed: Agreed) -> fmt::Result {
    let Agreed {
        channel_max,
        frame_max,
        ..
    } = agreed;
    write!(f, "channels {channel_max} frames {frame_max}")
}

/// The code with which the connection is closed, or the name of another fault.
fn write_fault<W: fmt::Write>(f: &mut fmt::Formatter<W>, fault: CoreFault) -> fmt::Result {
    let CoreFault::Peer(code) = fault else {
        return write!(f, "{fault:?}");
    };
    let number = code.number();
    write!(f, "{number}")
}

/// The name of a refusal, and its number.
fn write_refusal<W: fmt::Write>(f: &mut fmt::Formatter<W>, fault: AskFault) -> fmt::Result {
    let number = fault.number();
    write!(f, "{number} {fault:?}")
}

/// Nothing for what the step says, and a text for what it asks for.
impl fmt::Display for Came {
    fn fmt<W: fmt::Write>(&self, f: &mut fmt::Formatter<W>) -> fmt::Result {
        match *self {
            Came::AsSaid => Ok(()),
            Came::Put => f.write_str("put"),
            Came::Opened(channel) => write!(f, "channel {channel}"),
            Came::Refused(fault) => write_refusal(f, fault),
            Came::Events(count) => write!(f, "events {count}"),
            Came::Event(name) => f.write_str(name),
            Came::Fault(fault) => write_fault(f, fault),
            Came::Phase(phase) => write!(f, "{phase:?}"),
            Came::State(state) => write!(f, "{state:?}"),
            Came::Agreed(Some(agreed)) => write_agreed(f, agreed),
            Came::Due(Some(kind)) => f.write_str(kind.name()),
            Came::ClosedFor(Some(cause)) => write!(f, "{cause}"),
            Came::Agreed(None) | Came::Due(None) | Came::ClosedFor(None) => f.write_str("none"),
            Came::Count(count) => write!(f, "{count}"),
            Came::Number(number) => write!(f, "{number}"),
            Came::OtherOctets => f.write_str("other octets"),
            Came::NoContent => f.write_str("no content"),
            Came::NotOpen => f.write_str("not open"),
        }
    }
}
