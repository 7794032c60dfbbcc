//! What an end is asked, in words.
use crate::came::Came;
use crate::messages::message;
use crate::octets::{octets_of, pad};
use crate::trouble::Trouble;
use crate::words::{number, word};
use amqp_core::{Ask, AskFault, End, Role};
use amqp_method::Message;
use amqp_value::ShortStr;
use std::alloc::Global;

/// How an end is asked. The same comes of it in each way.
#[derive(Clone, Copy)]
pub(crate) enum Asking {
    /// By [`End::ask`], with a copy.
    ByAsk,
    /// By the call that the ask has of its own.
    ByCall,
    /// By that call too, but a message with a content by its parts: [`End::send_content`].
    ByParts,
}

/// The first word of what is asked, and after it:
#[derive(Clone, Copy)]
enum Asked {
    Open,
    /// Channel and method, which has no content.
    Send,
    /// Channel, method and the length of its body. The content has no properties.
    SendContent,
    /// Channel, the beginning of a method, and how many `x` follow it.
    SendPadded,
    /// Channel, the beginning of a table of headers, and how many `x` follow it: basic.publish without a body.
    SendHeaders,
    /// Channel, and `on` or `off`.
    Flow,
    /// Channel. With the code 200 and the text `bye`.
    CloseChannel,
    /// With the code 200 and the text `bye`.
    Close,
    /// For the reason `low`.
    Blocked,
    Unblocked,
}

static ASKED: [(&str, Asked); 10] = [
    ("open", Asked::Open),
    ("send", Asked::Send),
    ("send-content", Asked::SendContent),
    ("send-padded", Asked::SendPadded),
    ("send-headers", Asked::SendHeaders),
    ("flow", Asked::Flow),
    ("close-channel", Asked::CloseChannel),
    ("close", Asked::Close),
    ("blocked", Asked::Blocked),
    ("unblocked", Asked::Unblocked),
];

fn asked_by(word: &str) -> Result<Asked, Trouble> {
    for (name, asked) in ASKED.iter().copied() {
        if name == word {
            return Ok(asked);
        }
    }
    Err(Trouble::UnknownWord)
}

/// The octets of the method or of the table of headers.
fn octets_at(alloc: Global, words: &[&str]) -> Result<Vec<u8>, Trouble> {
    let word = word(words, 2)?;
    octets_of(alloc, &[word])
}

/// The same, with so many `x` after them as the next word says.
fn padded_at(alloc: Global, words: &[&str]) -> Result<Vec<u8>, Trouble> {
    let mut octets = octets_at(alloc, words)?;
    pad(&mut octets, number(words, 3)?)?;
    Ok(octets)
}

fn method_message(alloc: Global, words: &[&str]) -> Result<Message, Trouble> {
    let method = octets_at(alloc, words)?;
    message(alloc, &method, b"", 0)
}

fn content_message(alloc: Global, words: &[&str]) -> Result<Message, Trouble> {
    let method = octets_at(alloc, words)?;
    message(alloc, &method, b"", number(words, 3)?)
}

fn padded_message(alloc: Global, words: &[&str]) -> Result<Message, Trouble> {
    let method = padded_at(alloc, words)?;
    message(alloc, &method, b"", 0)
}

fn headers_message(alloc: Global, words: &[&str]) -> Result<Message, Trouble> {
    let method = octets_of(alloc, &["basic.publish"])?;
    let table = padded_at(alloc, words)?;
    message(alloc, &method, &table, 0)
}

/// The message of an ask that sends one.
fn message_in(alloc: Global, asked: Asked, words: &[&str]) -> Result<Message, Trouble> {
    match asked {
        Asked::Send => method_message(alloc, words),
        Asked::SendContent => content_message(alloc, words),
        Asked::SendPadded => padded_message(alloc, words),
        Asked::SendHeaders => headers_message(alloc, words),
        _ => Err(Trouble::UnknownWord),
    }
}

fn send(alloc: Global, asked: Asked, words: &[&str]) -> Result<Ask, Trouble> {
    let channel = number(words, 1)?;
    match message_in(alloc, asked, words) {
        Ok(message) => Ok(Ask::Send(channel, message)),
        Err(trouble) => Err(trouble),
    }
}

pub(crate) fn text(alloc: Global, octets: &[u8]) -> Result<ShortStr, Trouble> {
    match ShortStr::new(alloc, octets) {
        Ok(text) => Ok(text),
        Err(_) => Err(Trouble::OutOfMemory),
    }
}

fn is_on(words: &[&str]) -> Result<bool, Trouble> {
    match word(words, 2)?.as_bytes() {
        b"on" => Ok(true),
        b"off" => Ok(false),
        _ => Err(Trouble::UnknownWord),
    }
}

fn flow(words: &[&str]) -> Result<Ask, Trouble> {
    Ok(Ask::Flow(number(words, 1)?, is_on(words)?))
}

fn close_channel(alloc: Global, words: &[&str]) -> Result<Ask, Trouble> {
    let channel = number(words, 1)?;
    Ok(Ask::CloseChannel(channel, 200, text(alloc, b"bye")?))
}

fn close(alloc: Global) -> Result<Ask, Trouble> {
    Ok(Ask::Close(200, text(alloc, b"bye")?))
}

fn blocked(alloc: Global) -> Result<Ask, Trouble> {
    Ok(Ask::Blocked(text(alloc, b"low")?))
}

/// What words ask.
pub(crate) fn ask_in(alloc: Global, words: &[&str]) -> Result<Ask, Trouble> {
    match asked_by(word(words, 0)?)? {
        Asked::Open => Ok(Ask::Open),
        Asked::Flow => flow(words),
        Asked::CloseChannel => close_channel(alloc, words),
        Asked::Close => close(alloc),
        Asked::Blocked => blocked(alloc),
        Asked::Unblocked => Ok(Ask::Unblocked),
        asked => send(alloc, asked, words),
    }
}

/// What an end answers to a copy of an ask.
fn ask_copy<R: Role>(end: &mut End<R>, ask: &Ask) -> Result<Option<u16>, AskFault> {
    let copy = ask.copy()?;
    let answer = end.ask(&copy);
    drop(copy);
    answer
}

/// Sends a message, one with a content by its parts if so wanted.
fn send_to<R: Role>(
    asking: Asking,
    end: &mut End<R>,
    channel: u16,
    message: &Message,
) -> Result<(), AskFault> {
    match (asking, message.content_parts()) {
        (Asking::ByParts, Some((properties, body))) => {
            end.send_content(channel, message.method(), properties, body)
        }
        _ => end.send(channel, message),
    }
}

/// What an end answers to the call that an ask has of its own.
fn call<R: Role>(asking: Asking, end: &mut End<R>, ask: &Ask) -> Result<Option<u16>, AskFault> {
    let put = match ask {
        Ask::Open => return Ok(Some(end.open_channel()?)),
        Ask::Send(channel, message) => send_to(asking, end, *channel, message),
        Ask::Flow(channel, active) => end.flow(*channel, *active),
        Ask::CloseChannel(channel, code, text) => end.close_channel(*channel, *code, text),
        Ask::Close(code, text) => end.close(*code, text),
        Ask::Blocked(reason) => end.blocked(reason),
        Ask::Unblocked => end.unblocked(),
    };
    put?;
    Ok(None)
}

/// What comes of an ask.
pub(crate) fn ask_end<R: Role>(asking: Asking, end: &mut End<R>, ask: &Ask) -> Came {
    let answer = match asking {
        Asking::ByAsk => ask_copy(end, ask),
        Asking::ByCall | Asking::ByParts => call(asking, end, ask),
    };
    match answer {
        Ok(Some(channel)) => Came::Opened(channel),
        Ok(None) => Came::Put,
        Err(fault) => Came::Refused(fault),
    }
}

/// What comes of an ask in words.
pub(crate) fn ask<R: Role>(
    alloc: Global,
    asking: Asking,
    end: &mut End<R>,
    words: &[&str],
) -> Result<Came, Trouble> {
    let ask = ask_in(alloc, words)?;
    let came = ask_end(asking, end, &ask);
    drop(ask);
    Ok(came)
}
