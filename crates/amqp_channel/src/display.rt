//! Events in a format string.
ghost use Rattle.std.specs.Prelude.{◌++◌, codes, Some};
ghost use Rattle.std.specs.Fmt.{WritesOnOk, decimal};
ghost use Rattle.amqp_value.specs.Text.{quoted};
ghost use Rattle.amqp_channel.specs.Events.EventTexts.{channel_text, flow_text, reason_text, closer_text, event_text, side_text, state_text};
ghost use Rattle.amqp_method.specs.MessageView.{message_view};
ghost use Rattle.amqp_method.specs.Texts.{bit_text, text_of_message};

use crate::events::{Event, Reason};
use crate::side::Side;
use crate::states::ChannelState;
use amqp_method::Message;
use amqp_value::write_quoted;
use std::fmt;

fn write_channel<W: fmt::Write>(f: &mut fmt::Formatter<W>, word: &str, channel: u16) -> fmt::Result
    ensures { WritesOnOk W.write_str_gives f.old result (channel_text word.now channel) f.new }
{
    write!(f, "{word} {channel}")
}

fn write_bit<W: fmt::Write>(f: &mut fmt::Formatter<W>, holds: bool) -> fmt::Result
    ensures { WritesOnOk W.write_str_gives f.old result (bit_text holds) f.new }
{
    f.write_str(if holds { "1" } else { "0" })
}

fn write_flow<W: fmt::Write>(
    f: &mut fmt::Formatter<W>,
    word: &str,
    channel: u16,
    active: bool,
) -> fmt::Result
    ensures { WritesOnOk W.write_str_gives f.old result (flow_text word.now channel active) f.new }
{
    write!(f, "{word} {channel} ")?;
    write_bit(f, active)
}

fn write_told<W: fmt::Write>(
    f: &mut fmt::Formatter<W>,
    channel: u16,
    message: &Message,
) -> fmt::Result
    ensures { WritesOnOk W.write_str_gives f.old result (channel_text (codes "told") channel
        ++ (codes " " ++ text_of_message (message_view message.now))) f.new }
{
    write_channel(f, "told", channel)?;
    f.write_str(" ")?;
    write!(f, "{message}")
}

/// Prints the code and the quoted text.
impl fmt::Display for Reason {
    ghost output = { λ reason. Some (reason_text reason) };

    fn fmt<W: fmt::Write>(&self, f: &mut fmt::Formatter<W>) -> fmt::Result {
        let code = self.code;
        write!(f, "{code} ")?;
        write_quoted(f, self.text.as_bytes())
    }
}

/// Who closed: the other end with its reason, or this end.
fn write_closer<W: fmt::Write>(f: &mut fmt::Formatter<W>, reason: &Option<Reason>) -> fmt::Result
    ensures { WritesOnOk W.write_str_gives f.old result (closer_text reason.now) f.new }
{
    match reason {
        Some(reason) => write!(f, "{reason}"),
        None => f.write_str("by-us"),
    }
}

fn write_channel_closed<W: fmt::Write>(
    f: &mut fmt::Formatter<W>,
    channel: u16,
    reason: &Option<Reason>,
) -> fmt::Result
    ensures { WritesOnOk W.write_str_gives f.old result (channel_text (codes "channel-closed") channel
        ++ (codes " " ++ closer_text reason.now)) f.new }
{
    write_channel(f, "channel-closed", channel)?;
    f.write_str(" ")?;
    write_closer(f, reason)
}

fn write_connection_closed<W: fmt::Write>(
    f: &mut fmt::Formatter<W>,
    reason: &Option<Reason>,
) -> fmt::Result
    ensures { WritesOnOk W.write_str_gives f.old result (codes "connection-closed " ++ closer_text reason.now) f.new }
{
    f.write_str("connection-closed ")?;
    write_closer(f, reason)
}

fn write_blocked<W: fmt::Write>(f: &mut fmt::Formatter<W>, reason: &[u8]) -> fmt::Result
    ensures { WritesOnOk W.write_str_gives f.old result (codes "blocked " ++ quoted reason.now) f.new }
{
    f.write_str("blocked ")?;
    write_quoted(f, reason)
}

fn write_negotiated<W: fmt::Write>(
    f: &mut fmt::Formatter<W>,
    channel_max: u16,
    frame_max: u32,
) -> fmt::Result
    ensures { WritesOnOk W.write_str_gives f.old result (codes "negotiated "
        ++ (decimal channel_max ++ (codes " " ++ decimal frame_max))) f.new }
{
    write!(f, "negotiated {channel_max} {frame_max}")
}

/// Prints the event's line, without a line feed at its end. The event of a content has two more lines, as its
/// [`Message`] prints them. That takes no memory of its own.
impl fmt::Display for Event {
    ghost output = { λ event. Some (event_text event) };

    fn fmt<W: fmt::Write>(&self, f: &mut fmt::Formatter<W>) -> fmt::Result {
        match self {
            Event::AnswerAsked => f.write_str("answer-asked"),
            Event::LoginAsked => f.write_str("login-asked"),
            Event::OpenAsked => f.write_str("open-asked"),
            Event::Negotiated(agreed) => write_negotiated(f, agreed.channel_max, agreed.frame_max),
            Event::Opened(channel) => write_channel(f, "opened", *channel),
            Event::Told(channel, message) => write_told(f, *channel, message),
            Event::Flow(channel, active) => write_flow(f, "flow", *channel, *active),
            Event::FlowOk(channel, active) => write_flow(f, "flow-ok", *channel, *active),
            Event::ChannelClosed(channel, reason) => write_channel_closed(f, *channel, reason),
            Event::ConnectionClosed(reason) => write_connection_closed(f, reason),
            Event::Discarded(channel) => write_channel(f, "discarded", *channel),
            Event::Blocked(reason) => write_blocked(f, reason.as_bytes()),
            Event::Unblocked => f.write_str("unblocked"),
            Event::Quiet => f.write_str("quiet"),
        }
    }
}

/// Prints `client` or `server`.
impl fmt::Display for Side {
    ghost output = { λ side. Some (side_text side) };

    fn fmt<W: fmt::Write>(&self, f: &mut fmt::Formatter<W>) -> fmt::Result {
        f.write_str(match self {
            Side::Client => "client",
            Side::Server => "server",
        })
    }
}

/// Prints the state in one word: `free`, `opening`, `open` or `closing`.
impl fmt::Display for ChannelState {
    ghost output = { λ state. Some (state_text state) };

    fn fmt<W: fmt::Write>(&self, f: &mut fmt::Formatter<W>) -> fmt::Result {
        f.write_str(match self {
            ChannelState::Free => "free",
            ChannelState::Opening => "opening",
            ChannelState::Open => "open",
            ChannelState::Closing => "closing",
        })
    }
}
