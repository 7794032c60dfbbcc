//! What an application asks of an end.
ghost use Rattle.std.specs.Prelude.{◌≡◌, ◌<◌, IfOk};
ghost use Rattle.amqp_channel.specs.Events.EventView.{message_of};
ghost use Rattle.amqp_core.specs.Traced.NotedAsks.{count_asked, frames_of_message};
ghost use Rattle.amqp_core.specs.Asks.View.{ask_view, lent_view};
ghost use Rattle.amqp_core.specs.Asks.LentLetter.{lent_letter};

use crate::faults::OutOfMemory;
use crate::heard::{Cause, NO_CAUSE};
use crate::lent_message::LentMessage;
use amqp_method::Message;
use amqp_value::ShortStr;

/// What an application asks of an end: it is refused, or its frames are put at once.
#[derive(Debug, Drop, PartialEq, Eq)]
pub enum Ask {
    /// Opens the lowest channel that is free. Only a client opens channels.
    Open,
    /// Sends a message on a channel: a method alone, or with its content. The methods of the classes connection and
    /// channel are put by the other asks, and by the end itself.
    Send(u16, Message),
    /// Asks the other end to send contents on a channel, or no more of them.
    Flow(u16, bool),
    /// Closes a channel, with a code and a text.
    CloseChannel(u16, u16, ShortStr),
    /// Closes the connection, with a code and a text.
    Close(u16, ShortStr),
    /// Says that the server takes no more contents, and why. Only a server says so.
    Blocked(ShortStr),
    /// Says that the server takes contents again. Only a server says so.
    Unblocked,
}

/// An ask whose message and texts are lent. A close has its cause too.
#[derive(Clone, Copy)]
pub(crate) enum LentAsk<'a> {
    Open,
    Send(u16, LentMessage<'a>),
    Flow(u16, bool),
    CloseChannel(u16, u16, &'a ShortStr, Cause),
    Close(u16, &'a ShortStr, Cause),
    Blocked(&'a ShortStr),
    Unblocked,
}

/// How many octets of a frame stand around its payload.
const AROUND_PAYLOAD: usize = 8;

/// How many frames a message is put in, none of them longer than so many octets.
fn frames_of(message: LentMessage<'_>, frame_max: u32) -> usize
    requires { 8 < frame_max }
    ensures { result ≡ frames_of_message frame_max (message_of (lent_letter message.entry)) }
{
    match message.content_parts() {
        Some((_, body)) => {
            let room = frame_max as usize - AROUND_PAYLOAD;
            2 + (body.len() + room - 1) / room
        }
        None => 1,
    }
}

impl LentAsk<'_> {
    /// How many frames the ask is put in, none of them longer than so many octets.
    pub(crate) fn frames(self, frame_max: u32) -> usize
        requires { 8 < frame_max }
        ensures { result ≡ count_asked frame_max (lent_view self.entry) }
    {
        match self {
            LentAsk::Send(_, message) => frames_of(message, frame_max),
            LentAsk::Open
            | LentAsk::Flow(_, _)
            | LentAsk::CloseChannel(_, _, _, _)
            | LentAsk::Close(_, _, _)
            | LentAsk::Blocked(_)
            | LentAsk::Unblocked => 1,
        }
    }
}

impl Ask {
    /// The ask, lent.
    pub(crate) fn lent(&self) -> LentAsk<'_>
        ensures { lent_view result ≡ ask_view self.now }
    {
        match self {
            Ask::Open => LentAsk::Open,
            Ask::Send(channel, message) => LentAsk::Send(*channel, LentMessage::of(message)),
            Ask::Flow(channel, active) => LentAsk::Flow(*channel, *active),
            Ask::CloseChannel(channel, code, text) => LentAsk::CloseChannel(
                *channel, *code, text, NO_CAUSE,
            ),
            Ask::Close(code, text) => LentAsk::Close(*code, text, NO_CAUSE),
            Ask::Blocked(reason) => LentAsk::Blocked(reason),
            Ask::Unblocked => LentAsk::Unblocked,
        }
    }

    /// An equal ask.
    pub fn copy(&self) -> Result<Ask, OutOfMemory>
        ensures { IfOk result (λ ask. ask_view ask ≡ ask_view self.now) }
    {
        match self {
            Ask::Open => Ok(Ask::Open),
            Ask::Send(channel, message) => {
                let Ok(message) = message.copy() else {
                    return Err(OutOfMemory);
                };
                Ok(Ask::Send(*channel, message))
            }
            Ask::Flow(channel, active) => Ok(Ask::Flow(*channel, *active)),
            Ask::CloseChannel(channel, code, text) => {
                let text = text.copy()?;
                Ok(Ask::CloseChannel(*channel, *code, text))
            }
            Ask::Close(code, text) => {
                let text = text.copy()?;
                Ok(Ask::Close(*code, text))
            }
            Ask::Blocked(reason) => {
                let reason = reason.copy()?;
                Ok(Ask::Blocked(reason))
            }
            Ask::Unblocked => Ok(Ask::Unblocked),
        }
    }
}
