//! Phases, notes and asks in a format string.
ghost use Rattle.std.specs.Prelude.{◌++◌, codes, Some};
ghost use Rattle.std.specs.Fmt.{WritesOnOk};
ghost use Rattle.amqp_value.specs.Text.{quoted};
ghost use Rattle.amqp_method.specs.MessageView.{message_view};
ghost use Rattle.amqp_method.specs.Texts.{text_of_message};
ghost use Rattle.amqp_channel.specs.Events.EventTexts.{channel_text, flow_text};
ghost use Rattle.amqp_core.specs.Texts.{phase_text, direction_text, word_text, note_text, closing_text, ask_text};
ghost use Rattle.amqp_core.specs.Texts.{cause_text};

use crate::asks::Ask;
use crate::heard::Cause;
use crate::notes::{Direction, Note, Word};
use crate::stage::Phase;
use amqp_method::Message;
use amqp_value::{ShortStr, write_quoted};
use std::fmt;

/// Prints the phase in one word.
impl fmt::Display for Phase {
    ghost output = { λ phase. Some (phase_text phase) };

    fn fmt<W: fmt::Write>(&self, f: &mut fmt::Formatter<W>) -> fmt::Result {
        f.write_str(match self {
            Phase::Handshake => "handshake",
            Phase::Running => "running",
            Phase::Closing => "closing",
            Phase::Closed => "closed",
            Phase::Failed => "failed",
        })
    }
}

/// Prints the method by name, as `basic.publish`, or `class 60 method 41` where there is none.
impl fmt::Display for Cause {
    ghost output = { λ cause. Some (cause_text cause) };

    fn fmt<W: fmt::Write>(&self, f: &mut fmt::Formatter<W>) -> fmt::Result {
        let class_id = self.class_id;
        let method_id = self.method_id;
        match self.kind() {
            Some(kind) => f.write_str(kind.name()),
            None => write!(f, "class {class_id} method {method_id}"),
        }
    }
}

/// Prints `put` or `took`.
impl fmt::Display for Direction {
    ghost output = { λ direction. Some (direction_text direction) };

    fn fmt<W: fmt::Write>(&self, f: &mut fmt::Formatter<W>) -> fmt::Result {
        f.write_str(match self {
            Direction::Put => "put",
            Direction::Took => "took",
        })
    }
}

/// Prints the method's name, or `other`.
impl fmt::Display for Word {
    ghost output = { λ word. Some (word_text word) };

    fn fmt<W: fmt::Write>(&self, f: &mut fmt::Formatter<W>) -> fmt::Result {
        f.write_str(match self {
            Word::Open => "open",
            Word::OpenOk => "open-ok",
            Word::Close => "close",
            Word::CloseOk => "close-ok",
            Word::Flow => "flow",
            Word::FlowOk => "flow-ok",
            Word::Other => "other",
        })
    }
}

/// Prints the channel, and what was done there: `1 took close-ok`.
impl fmt::Display for Note {
    ghost output = { λ note. Some (note_text note) };

    fn fmt<W: fmt::Write>(&self, f: &mut fmt::Formatter<W>) -> fmt::Result {
        let channel = self.channel;
        let direction = self.direction;
        let word = self.word;
        write!(f, "{channel} {direction} {word}")
    }
}

fn write_channel<W: fmt::Write>(f: &mut fmt::Formatter<W>, word: &str, channel: u16) -> fmt::Result
    ensures { WritesOnOk W.write_str_gives f.old result (channel_text word.now channel) f.new }
{
    write!(f, "{word} {channel}")
}

fn write_send<W: fmt::Write>(
    f: &mut fmt::Formatter<W>,
    channel: u16,
    message: &Message,
) -> fmt::Result
    ensures { WritesOnOk W.write_str_gives f.old result (channel_text (codes "send") channel
        ++ (codes " " ++ text_of_message (message_view message.now))) f.new }
{
    write_channel(f, "send", channel)?;
    write!(f, " {message}")
}

fn write_flow<W: fmt::Write>(f: &mut fmt::Formatter<W>, channel: u16, active: bool) -> fmt::Result
    ensures { WritesOnOk W.write_str_gives f.old result (flow_text (codes "flow") channel active) f.new }
{
    write_channel(f, "flow", channel)?;
    f.write_str(if active { " 1" } else { " 0" })
}

/// A code and a quoted text.
fn write_closing<W: fmt::Write>(
    f: &mut fmt::Formatter<W>,
    code: u16,
    text: &ShortStr,
) -> fmt::Result
    ensures { WritesOnOk W.write_str_gives f.old result (closing_text code text.now) f.new }
{
    write!(f, "{code} ")?;
    write_quoted(f, text.as_bytes())
}

fn write_close_channel<W: fmt::Write>(
    f: &mut fmt::Formatter<W>,
    channel: u16,
    code: u16,
    text: &ShortStr,
) -> fmt::Result
    ensures { WritesOnOk W.write_str_gives f.old result (channel_text (codes "close-channel") channel
        ++ (codes " " ++ closing_text code text.now)) f.new }
{
    write_channel(f, "close-channel", channel)?;
    f.write_str(" ")?;
    write_closing(f, code, text)
}

fn write_close<W: fmt::Write>(f: &mut fmt::Formatter<W>, code: u16, text: &ShortStr) -> fmt::Result
    ensures { WritesOnOk W.write_str_gives f.old result (codes "close " ++ closing_text code text.now) f.new }
{
    f.write_str("close ")?;
    write_closing(f, code, text)
}

fn write_blocked<W: fmt::Write>(f: &mut fmt::Formatter<W>, reason: &ShortStr) -> fmt::Result
    ensures { WritesOnOk W.write_str_gives f.old result (codes "blocked " ++ quoted reason.now) f.new }
{
    f.write_str("blocked ")?;
    write_quoted(f, reason.as_bytes())
}

/// Prints the ask with its arguments: `flow 1 0`, `close 200 "bye"`. A message is printed as its own text, in three
/// lines where a content follows.
impl fmt::Display for Ask {
    ghost output = { λ ask. Some (ask_text ask) };

    fn fmt<W: fmt::Write>(&self, f: &mut fmt::Formatter<W>) -> fmt::Result {
        match self {
            Ask::Open => f.write_str("open"),
            Ask::Send(channel, message) => write_send(f, *channel, message),
            Ask::Flow(channel, active) => write_flow(f, *channel, *active),
            Ask::CloseChannel(channel, code, text) => write_close_channel(f, *channel, *code, text),
            Ask::Close(code, text) => write_close(f, *code, text),
            Ask::Blocked(reason) => write_blocked(f, reason),
            Ask::Unblocked => f.write_str("unblocked"),
        }
    }
}
