//! Events that lend in a format string.
ghost use Rattle.std.specs.Prelude.{◌++◌, codes, Some};
ghost use Rattle.std.specs.Fmt.{WritesOnOk, decimal};
ghost use Rattle.amqp_value.specs.Text.{hexadecimal, quoted};
ghost use Rattle.amqp_method.specs.HeaderRefView.{lent_header};
ghost use Rattle.amqp_method.specs.MethodRefView.{lent_call};
ghost use Rattle.amqp_method.specs.Texts.{bit_text, text_of_header, text_of_method};
ghost use Rattle.amqp_channel.specs.Events.EventTexts.{channel_text, flow_text};
ghost use Rattle.amqp_core.specs.Stream.EventRefTexts.{event_ref_text, lent_closer_text, lent_reason_text, whole_text};

use crate::event_ref::{EventRef, ReasonRef};
use amqp_channel::Agreed;
use amqp_method::{HeaderRef, MethodRef};
use amqp_value::{write_hexadecimal, write_quoted};
use std::fmt;

fn write_channel<W: fmt::Write>(f: &mut fmt::Formatter<W>, word: &str, channel: u16) -> fmt::Result
    ensures { WritesOnOk W.write_str_gives f.old result (channel_text word.now channel) f.new }
{
    write!(f, "{word} {channel}")
}

fn write_flow<W: fmt::Write>(
    f: &mut fmt::Formatter<W>,
    word: &str,
    channel: u16,
    active: bool,
) -> fmt::Result
    ensures { WritesOnOk W.write_str_gives f.old result (flow_text word.now channel active) f.new }
{
    write!(f, "{word} {channel} ")?;
    f.write_str(if active { "1" } else { "0" })
}

fn write_whole<W: fmt::Write>(f: &mut fmt::Formatter<W>, whole: bool) -> fmt::Result
    ensures { WritesOnOk W.write_str_gives f.old result (whole_text whole) f.new }
{
    f.write_str(if whole { " whole" } else { "" })
}

fn write_method<W: fmt::Write>(
    f: &mut fmt::Formatter<W>,
    word: &str,
    channel: u16,
    method: MethodRef<'_>,
) -> fmt::Result
    ensures { WritesOnOk W.write_str_gives f.old result (channel_text word.now channel ++ (codes " "
        ++ text_of_method (lent_call method.entry))) f.new }
{
    write_channel(f, word, channel)?;
    f.write_str(" ")?;
    write!(f, "{method}")
}

fn write_heads<W: fmt::Write>(
    f: &mut fmt::Formatter<W>,
    channel: u16,
    header: HeaderRef<'_>,
    whole: bool,
) -> fmt::Result
    ensures { WritesOnOk W.write_str_gives f.old result (channel_text (codes "heads") channel ++ (codes " "
        ++ (text_of_header (lent_header header.entry) ++ whole_text whole))) f.new }
{
    write_channel(f, "heads", channel)?;
    f.write_str(" ")?;
    write!(f, "{header}")?;
    write_whole(f, whole)
}

fn write_part<W: fmt::Write>(
    f: &mut fmt::Formatter<W>,
    channel: u16,
    octets: &[u8],
    whole: bool,
) -> fmt::Result
    ensures { WritesOnOk W.write_str_gives f.old result (channel_text (codes "part") channel ++ (codes " "
        ++ (hexadecimal octets.now ++ whole_text whole))) f.new }
{
    write_channel(f, "part", channel)?;
    f.write_str(" ")?;
    write_hexadecimal(f, octets)?;
    write_whole(f, whole)
}

fn write_reason<W: fmt::Write>(f: &mut fmt::Formatter<W>, reason: ReasonRef<'_>) -> fmt::Result
    ensures { WritesOnOk W.write_str_gives f.old result (lent_reason_text reason.entry) f.new }
{
    let code = reason.code;
    write!(f, "{code} ")?;
    write_quoted(f, reason.text)
}

/// Prints the code and the quoted text.
impl<'a> fmt::Display for ReasonRef<'a> {
    ghost output = { λ reason. Some (lent_reason_text reason) };

    fn fmt<W: fmt::Write>(&self, f: &mut fmt::Formatter<W>) -> fmt::Result {
        write_reason(f, *self)
    }
}

/// Who closed: the other end with its reason, or this end.
fn write_closer<W: fmt::Write>(
    f: &mut fmt::Formatter<W>,
    reason: Option<ReasonRef<'_>>,
) -> fmt::Result
    ensures { WritesOnOk W.write_str_gives f.old result (lent_closer_text reason.entry) f.new }
{
    match reason {
        Some(reason) => write_reason(f, reason),
        None => f.write_str("by-us"),
    }
}

fn write_channel_closed<W: fmt::Write>(
    f: &mut fmt::Formatter<W>,
    channel: u16,
    reason: Option<ReasonRef<'_>>,
) -> fmt::Result
    ensures { WritesOnOk W.write_str_gives f.old result (channel_text (codes "channel-closed") channel ++ (codes " "
        ++ lent_closer_text reason.entry)) f.new }
{
    write_channel(f, "channel-closed", channel)?;
    f.write_str(" ")?;
    write_closer(f, reason)
}

fn write_connection_closed<W: fmt::Write>(
    f: &mut fmt::Formatter<W>,
    reason: Option<ReasonRef<'_>>,
) -> fmt::Result
    ensures { WritesOnOk W.write_str_gives f.old result (codes "connection-closed "
        ++ lent_closer_text reason.entry) f.new }
{
    f.write_str("connection-closed ")?;
    write_closer(f, reason)
}

fn write_blocked<W: fmt::Write>(f: &mut fmt::Formatter<W>, reason: &[u8]) -> fmt::Result
    ensures { WritesOnOk W.write_str_gives f.old result (codes "blocked " ++ quoted reason.now) f.new }
{
    f.write_str("blocked ")?;
    write_quoted(f, reason)
}

fn write_negotiated<W: fmt::Write>(f: &mut fmt::Formatter<W>, agreed: Agreed) -> fmt::Result
    ensures { WritesOnOk W.write_str_gives f.old result (codes "negotiated " ++ (decimal agreed.channel_max ++
        (codes " " ++ decimal agreed.frame_max))) f.new }
{
    let channel_max = agreed.channel_max;
    let frame_max = agreed.frame_max;
    write!(f, "negotiated {channel_max} {frame_max}")
}

/// Prints the event's line, without a line feed at its end: that of [`Event`](crate::Event) where that event is one
/// line; `begins`, `heads` and `part` for the parts of a content, with `whole` at the end of the last. That takes no
/// memory of its own.
impl<'a> fmt::Display for EventRef<'a> {
    ghost output = { λ event. Some (event_ref_text event) };

    fn fmt<W: fmt::Write>(&self, f: &mut fmt::Formatter<W>) -> fmt::Result {
        match *self {
            EventRef::AnswerAsked => f.write_str("answer-asked"),
            EventRef::LoginAsked => f.write_str("login-asked"),
            EventRef::OpenAsked => f.write_str("open-asked"),
            EventRef::Negotiated(agreed) => write_negotiated(f, agreed),
            EventRef::Opened(channel) => write_channel(f, "opened", channel),
            EventRef::Method(channel, method) => write_method(f, "told", channel, method),
            EventRef::Begins(channel, method) => write_method(f, "begins", channel, method),
            EventRef::Heads(channel, header, whole) => write_heads(f, channel, header, whole),
            EventRef::Part(channel, octets, whole) => write_part(f, channel, octets, whole),
            EventRef::Flow(channel, active) => write_flow(f, "flow", channel, active),
            EventRef::FlowOk(channel, active) => write_flow(f, "flow-ok", channel, active),
            EventRef::ChannelClosed(channel, reason) => write_channel_closed(f, channel, reason),
            EventRef::ConnectionClosed(reason) => write_connection_closed(f, reason),
            EventRef::Discarded(channel) => write_channel(f, "discarded", channel),
            EventRef::Blocked(reason) => write_blocked(f, reason),
            EventRef::Unblocked => f.write_str("unblocked"),
            EventRef::Quiet => f.write_str("quiet"),
        }
    }
}
