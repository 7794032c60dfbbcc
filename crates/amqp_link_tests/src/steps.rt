//! Steps, by the words of a line.
//!
//!     begin
//!     ask N SIDE ASK
//!     carry N WAY COUNT
//!     drop N SIDE
//!
//! N is the number of a connection, here from 1. SIDE is `client` or `server`, WAY `to-server` or `to-client`, and ASK
//! one of
//!
//!     open
//!     send CHANNEL MESSAGE               the messages are those of [`message`](crate::messages::message)
//!     flow CHANNEL on                    or `off`
//!     close-channel CHANNEL CODE TEXT
//!     close CODE TEXT
//!     blocked TEXT
//!     unblocked
//!     beat
//!     admit
//!     refuse CODE TEXT
//!     answer-start MECHANISM RESPONSE LOCALE
use crate::messages::message;
use crate::trouble::Trouble;
use amqp_core::{Ask, Side};
use amqp_link::{Control, Direction, Life, Step};
use amqp_value::ShortStr;
use std::alloc::Global;
use std::str::FromStr;

pub(crate) fn number<N: FromStr>(word: &str) -> Result<N, Trouble>
where
    N::Err: Drop,
{
    match word.parse::<N>() {
        Ok(number) => Ok(number),
        Err(_) => Err(Trouble::NotNumber),
    }
}

/// The connection that a word numbers, from 1.
pub(crate) fn connection(word: &str) -> Result<usize, Trouble> {
    match number::<usize>(word)?.checked_sub(1) {
        Some(connection) => Ok(connection),
        None => Err(Trouble::NotNumber),
    }
}

fn side(word: &str) -> Result<Side, Trouble> {
    match word {
        "client" => Ok(Side::Client),
        "server" => Ok(Side::Server),
        _ => Err(Trouble::UnknownWord),
    }
}

pub(crate) fn direction(word: &str) -> Result<Direction, Trouble> {
    match word {
        "to-server" => Ok(Direction::ToServer),
        "to-client" => Ok(Direction::ToClient),
        _ => Err(Trouble::UnknownWord),
    }
}

/// A connection, a channel and the number of a life, with points between them, as in `1.1.2`.
pub(crate) fn life(word: &str) -> Result<Life, Trouble> {
    let Some((place, rest)) = word.split_once(".") else {
        return Err(Trouble::MissingWord);
    };
    let Some((channel, life)) = rest.split_once(".") else {
        return Err(Trouble::MissingWord);
    };
    Ok(Life {
        connection: connection(place)?,
        channel: number(channel)?,
        number: number(life)?,
    })
}

fn is_on(word: &str) -> Result<bool, Trouble> {
    match word {
        "on" => Ok(true),
        "off" => Ok(false),
        _ => Err(Trouble::UnknownWord),
    }
}

pub(crate) fn text(alloc: Global, word: &str) -> Result<ShortStr, Trouble> {
    match ShortStr::new(alloc, word.as_bytes()) {
        Ok(text) => Ok(text),
        Err(_) => Err(Trouble::OutOfMemory),
    }
}

/// The one word that stands there.
pub(crate) fn alone<'a>(words: &[&'a str]) -> Result<&'a str, Trouble> {
    match words {
        [word] => Ok(*word),
        _ => Err(Trouble::UnknownWord),
    }
}

/// The two words that stand there.
pub(crate) fn pair<'a>(words: &[&'a str]) -> Result<(&'a str, &'a str), Trouble> {
    match words {
        [first, second] => Ok((*first, *second)),
        _ => Err(Trouble::UnknownWord),
    }
}

/// The first word, and those after it.
pub(crate) fn split_first<'a, 'b>(
    words: &'b [&'a str],
) -> Result<(&'a str, &'b [&'a str]), Trouble> {
    match words {
        [first, rest @ ..] => Ok((*first, rest)),
        [] => Err(Trouble::UnknownWord),
    }
}

fn send(alloc: Global, words: &[&str]) -> Result<Ask, Trouble> {
    let (channel, word) = pair(words)?;
    let channel = number(channel)?;
    let message = message(alloc, word)?;
    Ok(Ask::Send(channel, message))
}

fn flow(words: &[&str]) -> Result<Ask, Trouble> {
    let (channel, word) = pair(words)?;
    Ok(Ask::Flow(number(channel)?, is_on(word)?))
}

fn close_channel(alloc: Global, words: &[&str]) -> Result<Ask, Trouble> {
    let (channel, rest) = split_first(words)?;
    let (code, word) = pair(rest)?;
    let channel = number(channel)?;
    let code = number(code)?;
    let text = text(alloc, word)?;
    Ok(Ask::CloseChannel(channel, code, text))
}

fn close(alloc: Global, words: &[&str]) -> Result<Ask, Trouble> {
    let (code, word) = pair(words)?;
    let code = number(code)?;
    let text = text(alloc, word)?;
    Ok(Ask::Close(code, text))
}

fn blocked(alloc: Global, words: &[&str]) -> Result<Ask, Trouble> {
    let text = text(alloc, alone(words)?)?;
    Ok(Ask::Blocked(text))
}

/// What the first word asks, with the words after it.
fn ask(alloc: Global, word: &str, rest: &[&str]) -> Result<Ask, Trouble> {
    match word {
        "open" if rest.is_empty() => Ok(Ask::Open),
        "send" => send(alloc, rest),
        "flow" => flow(rest),
        "close-channel" => close_channel(alloc, rest),
        "close" => close(alloc, rest),
        "blocked" => blocked(alloc, rest),
        "unblocked" if rest.is_empty() => Ok(Ask::Unblocked),
        _ => Err(Trouble::UnknownWord),
    }
}

fn refuse(alloc: Global, words: &[&str]) -> Result<Control, Trouble> {
    let (code, word) = pair(words)?;
    let code = number(code)?;
    let text = text(alloc, word)?;
    Ok(Control::Refuse(code, text))
}

/// The answer to start that three words are.
fn answer(alloc: Global, words: [&str; 3]) -> Result<Control, Trouble> {
    let mechanism = text(alloc, words[0])?;
    let response = Vec::from_slice(alloc, words[1].as_bytes())?;
    let locale = text(alloc, words[2])?;
    Ok(Control::AnswerStart(mechanism, response, locale))
}

fn answer_start(alloc: Global, words: &[&str]) -> Result<Control, Trouble> {
    match words {
        [mechanism, response, locale] => answer(alloc, [*mechanism, *response, *locale]),
        _ => Err(Trouble::UnknownWord),
    }
}

/// What the first word does with the connection itself, with the words after it.
fn control(alloc: Global, word: &str, rest: &[&str]) -> Result<Control, Trouble> {
    match word {
        "beat" if rest.is_empty() => Ok(Control::Beat),
        "admit" if rest.is_empty() => Ok(Control::Admit),
        "refuse" => refuse(alloc, rest),
        "answer-start" => answer_start(alloc, rest),
        _ => Err(Trouble::UnknownWord),
    }
}

fn is_control(word: &str) -> bool {
    matches!(word, "beat" | "admit" | "refuse" | "answer-start")
}

/// What is asked of a side by the first word, with the words after it.
fn asked(
    alloc: Global,
    connection: usize,
    side: Side,
    word: &str,
    rest: &[&str],
) -> Result<Step, Trouble> {
    if is_control(word) {
        let control = control(alloc, word, rest)?;
        return Ok(Step::Control(connection, side, control));
    }
    let ask = ask(alloc, word, rest)?;
    Ok(Step::Ask(connection, side, ask))
}

fn ask_step(alloc: Global, words: &[&str]) -> Result<Step, Trouble> {
    let (place, rest) = split_first(words)?;
    let (who, rest) = split_first(rest)?;
    let (word, rest) = split_first(rest)?;
    let connection = connection(place)?;
    let side = side(who)?;
    asked(alloc, connection, side, word, rest)
}

fn carry_step(words: &[&str]) -> Result<Step, Trouble> {
    let (place, rest) = split_first(words)?;
    let (way, count) = pair(rest)?;
    let connection = connection(place)?;
    let direction = direction(way)?;
    Ok(Step::Carry(connection, direction, number(count)?))
}

fn drop_step(words: &[&str]) -> Result<Step, Trouble> {
    let (place, who) = pair(words)?;
    let connection = connection(place)?;
    Ok(Step::Drop(connection, side(who)?))
}

/// The step of the first word, with the words after it.
fn step_by(alloc: Global, word: &str, rest: &[&str]) -> Result<Step, Trouble> {
    match word {
        "begin" if rest.is_empty() => Ok(Step::Begin),
        "ask" => ask_step(alloc, rest),
        "carry" => carry_step(rest),
        "drop" => drop_step(rest),
        _ => Err(Trouble::UnknownWord),
    }
}

pub(crate) fn step(alloc: Global, words: &[&str]) -> Result<Step, Trouble> {
    let (word, rest) = split_first(words)?;
    step_by(alloc, word, rest)
}

/// The step of a line.
fn step_of(alloc: Global, line: &str) -> Result<Step, Trouble> {
    let Ok(words) = line.split_whitespace().collect::<Vec<&str>>(alloc) else {
        return Err(Trouble::OutOfMemory);
    };
    step(alloc, &words)
}

/// The steps of some lines.
pub(crate) fn steps(alloc: Global, lines: &str) -> Result<Vec<Step>, Trouble> {
    let mut steps = Vec::new(alloc);
    for line in lines.split('\n') {
        steps.push(step_of(alloc, line)?)?;
    }
    Ok(steps)
}
