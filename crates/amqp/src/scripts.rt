//! The lines of a script for `link`.
use amqp_core::{Ask, Side};
use amqp_link::{Control, Direction};
use amqp_method::{
    Header, Message, Method, MethodFault, MethodFaultKind, OutOfMemory, read_header, read_method,
};
use amqp_value::{ShortStr, ValueFaultKind};
use hex::FromHexError;
use std::alloc::Global;
use std::str::{self, FromStr};

/// How many octets are carried.
#[derive(Clone, Copy)]
pub enum Count {
    /// All that wait.
    All,
    Octets(usize),
}

/// What a line says. Connections are numbered from 0 here, and in the script from 1.
#[derive(Drop)]
pub enum Line {
    /// An empty line, or a comment.
    Nothing,
    Begin,
    /// All octets are carried six times, in turn, those to the server first.
    Shake(usize),
    Ask(usize, Side, Ask),
    Control(usize, Side, Control),
    Carry(usize, Direction, Count),
    Drop(usize, Side),
}

/// Why a line can't be followed.
#[derive(Clone, Copy)]
pub enum LineFault {
    NotStep,
    OutOfMemory,
}

impl From<OutOfMemory> for LineFault {
    fn from(_: OutOfMemory) -> LineFault {
        LineFault::OutOfMemory
    }
}

impl From<MethodFault> for LineFault {
    fn from(fault: MethodFault) -> LineFault {
        match fault.kind {
            MethodFaultKind::OutOfMemory => LineFault::OutOfMemory,
            _ => LineFault::NotStep,
        }
    }
}

/// The number of a word of decimal digits alone.
fn number_of<N: FromStr>(word: &[u8]) -> Result<N, LineFault>
where
    N::Err: Drop,
{
    if word.iter().any(|octet| !octet.is_ascii_digit()) {
        return Err(LineFault::NotStep);
    }
    let Ok(digits) = str::from_utf8(word) else {
        return Err(LineFault::NotStep);
    };
    match digits.parse::<N>() {
        Ok(number) => Ok(number),
        Err(_) => Err(LineFault::NotStep),
    }
}

/// The connection that a word numbers, from 1.
fn connection_of(word: &[u8]) -> Result<usize, LineFault> {
    match number_of::<usize>(word)?.checked_sub(1) {
        Some(connection) => Ok(connection),
        None => Err(LineFault::NotStep),
    }
}

/// A word as text, or no text where it is none.
fn name_of(word: &[u8]) -> &str {
    str::from_utf8(word).unwrap_or("")
}

fn side_of(word: &[u8]) -> Result<Side, LineFault> {
    match name_of(word) {
        "client" => Ok(Side::Client),
        "server" => Ok(Side::Server),
        _ => Err(LineFault::NotStep),
    }
}

fn direction_of(word: &[u8]) -> Result<Direction, LineFault> {
    match name_of(word) {
        "to-server" => Ok(Direction::ToServer),
        "to-client" => Ok(Direction::ToClient),
        _ => Err(LineFault::NotStep),
    }
}

fn count_of(word: &[u8]) -> Result<Count, LineFault> {
    match name_of(word) {
        "all" => Ok(Count::All),
        _ => Ok(Count::Octets(number_of(word)?)),
    }
}

/// Whether contents are wanted. No other digits than these two say so, `01` neither.
fn active_of(word: &[u8]) -> Result<bool, LineFault> {
    match word {
        b"0" => Ok(false),
        b"1" => Ok(true),
        _ => Err(LineFault::NotStep),
    }
}

fn text_of(alloc: Global, word: &[u8]) -> Result<ShortStr, LineFault> {
    match ShortStr::new(alloc, word) {
        Ok(text) => Ok(text),
        Err(fault) => match fault.kind {
            ValueFaultKind::OutOfMemory => Err(LineFault::OutOfMemory),
            _ => Err(LineFault::NotStep),
        },
    }
}

fn octets_of(alloc: Global, word: &[u8]) -> Result<Vec<u8>, LineFault> {
    match hex::decode(alloc, word) {
        Ok(octets) => Ok(octets),
        Err(FromHexError::OutOfMemory) => Err(LineFault::OutOfMemory),
        Err(_) => Err(LineFault::NotStep),
    }
}

/// A body, or a response: `-` for none.
fn body_of(alloc: Global, word: &[u8]) -> Result<Vec<u8>, LineFault> {
    match word {
        b"-" => Ok(Vec::new(alloc)),
        digits => octets_of(alloc, digits),
    }
}

fn method_of(alloc: Global, word: &[u8]) -> Result<Method, LineFault> {
    let payload = octets_of(alloc, word)?;
    let read = read_method(alloc, &payload);
    drop(payload);
    Ok(read?)
}

fn header_of(alloc: Global, word: &[u8]) -> Result<Header, LineFault> {
    let payload = octets_of(alloc, word)?;
    let read = read_header(alloc, &payload);
    drop(payload);
    Ok(read?)
}

/// The message of a method that has no content.
fn plain_of(alloc: Global, word: &[u8]) -> Result<Message, LineFault> {
    let method = method_of(alloc, word)?;
    if method.kind().has_content() {
        drop(method);
        return Err(LineFault::NotStep);
    }
    Ok(Message::plain(method))
}

/// The content of a method, a header and a body, which fit one another.
fn content_of(method: Method, header: Header, body: Vec<u8>) -> Result<Message, LineFault> {
    if !method.kind().has_content() || header.body_size != body.len() as u64 {
        drop(method);
        drop(header);
        drop(body);
        return Err(LineFault::NotStep);
    }
    Ok(Message::content(method, header.properties, body))
}

/// The content that three words are: its method, its header and its body.
fn content_in(alloc: Global, words: [&[u8]; 3]) -> Result<Message, LineFault> {
    let method = method_of(alloc, words[0])?;
    let header = match header_of(alloc, words[1]) {
        Ok(header) => header,
        Err(fault) => {
            drop(method);
            return Err(fault);
        }
    };
    match body_of(alloc, words[2]) {
        Ok(body) => content_of(method, header, body),
        Err(fault) => {
            drop(method);
            drop(header);
            Err(fault)
        }
    }
}

/// The one word that stands there.
fn alone<'a>(words: &[&'a [u8]]) -> Result<&'a [u8], LineFault> {
    match words {
        [word] => Ok(*word),
        _ => Err(LineFault::NotStep),
    }
}

/// The two words that stand there.
fn pair<'a>(words: &[&'a [u8]]) -> Result<(&'a [u8], &'a [u8]), LineFault> {
    match words {
        [first, second] => Ok((*first, *second)),
        _ => Err(LineFault::NotStep),
    }
}

/// The first word, and those after it.
fn split_first<'a, 'b>(words: &'b [&'a [u8]]) -> Result<(&'a [u8], &'b [&'a [u8]]), LineFault> {
    match words {
        [first, rest @ ..] => Ok((*first, rest)),
        [] => Err(LineFault::NotStep),
    }
}

fn send(alloc: Global, words: &[&[u8]]) -> Result<Ask, LineFault> {
    let (channel, method) = pair(words)?;
    let channel = number_of(channel)?;
    let message = plain_of(alloc, method)?;
    Ok(Ask::Send(channel, message))
}

fn send_content(alloc: Global, words: &[&[u8]]) -> Result<Ask, LineFault> {
    match words {
        [channel, method, header, body] => {
            let channel = number_of(channel)?;
            let message = content_in(alloc, [*method, *header, *body])?;
            Ok(Ask::Send(channel, message))
        }
        _ => Err(LineFault::NotStep),
    }
}

fn flow(words: &[&[u8]]) -> Result<Ask, LineFault> {
    let (channel, bit) = pair(words)?;
    Ok(Ask::Flow(number_of(channel)?, active_of(bit)?))
}

fn close_channel(alloc: Global, words: &[&[u8]]) -> Result<Ask, LineFault> {
    let (channel, rest) = split_first(words)?;
    let (code, reason) = pair(rest)?;
    let channel = number_of(channel)?;
    let code = number_of(code)?;
    let text = text_of(alloc, reason)?;
    Ok(Ask::CloseChannel(channel, code, text))
}

fn close(alloc: Global, words: &[&[u8]]) -> Result<Ask, LineFault> {
    let (code, reason) = pair(words)?;
    let code = number_of(code)?;
    let text = text_of(alloc, reason)?;
    Ok(Ask::Close(code, text))
}

fn blocked(alloc: Global, words: &[&[u8]]) -> Result<Ask, LineFault> {
    let text = text_of(alloc, alone(words)?)?;
    Ok(Ask::Blocked(text))
}

/// What is asked by a name, with the words after it.
fn ask_of(alloc: Global, name: &str, rest: &[&[u8]]) -> Result<Ask, LineFault> {
    match name {
        "open" if rest.is_empty() => Ok(Ask::Open),
        "send" => send(alloc, rest),
        "content" => send_content(alloc, rest),
        "flow" => flow(rest),
        "close-channel" => close_channel(alloc, rest),
        "close" => close(alloc, rest),
        "blocked" => blocked(alloc, rest),
        "unblocked" if rest.is_empty() => Ok(Ask::Unblocked),
        _ => Err(LineFault::NotStep),
    }
}

fn refuse(alloc: Global, words: &[&[u8]]) -> Result<Control, LineFault> {
    let (code, reason) = pair(words)?;
    let code = number_of(code)?;
    let text = text_of(alloc, reason)?;
    Ok(Control::Refuse(code, text))
}

/// The answer to start that three words are: its mechanism, its response and its locale.
fn answer_in(alloc: Global, words: [&[u8]; 3]) -> Result<Control, LineFault> {
    let mechanism = text_of(alloc, words[0])?;
    let response = body_of(alloc, words[1])?;
    let locale = text_of(alloc, words[2])?;
    Ok(Control::AnswerStart(mechanism, response, locale))
}

fn answer_start(alloc: Global, words: &[&[u8]]) -> Result<Control, LineFault> {
    match words {
        [mechanism, response, locale] => answer_in(alloc, [*mechanism, *response, *locale]),
        _ => Err(LineFault::NotStep),
    }
}

/// The heartbeat or the decision that is named so, with the words after it.
fn control_of(alloc: Global, name: &str, rest: &[&[u8]]) -> Result<Control, LineFault> {
    match name {
        "beat" if rest.is_empty() => Ok(Control::Beat),
        "admit" if rest.is_empty() => Ok(Control::Admit),
        "refuse" => refuse(alloc, rest),
        "answer-start" => answer_start(alloc, rest),
        _ => Err(LineFault::NotStep),
    }
}

/// Whether the name is that of a heartbeat or of a decision.
fn is_control(name: &str) -> bool {
    matches!(name, "beat" | "admit" | "refuse" | "answer-start")
}

/// What is asked of a side by a name, with the words after it.
fn asked_of(
    alloc: Global,
    connection: usize,
    side: Side,
    name: &str,
    rest: &[&[u8]],
) -> Result<Line, LineFault> {
    if is_control(name) {
        let control = control_of(alloc, name, rest)?;
        return Ok(Line::Control(connection, side, control));
    }
    let ask = ask_of(alloc, name, rest)?;
    Ok(Line::Ask(connection, side, ask))
}

fn ask_line(alloc: Global, words: &[&[u8]]) -> Result<Line, LineFault> {
    let (place, rest) = split_first(words)?;
    let (who, rest) = split_first(rest)?;
    let (name, rest) = split_first(rest)?;
    let connection = connection_of(place)?;
    let side = side_of(who)?;
    asked_of(alloc, connection, side, name_of(name), rest)
}

fn carry_line(words: &[&[u8]]) -> Result<Line, LineFault> {
    let (place, rest) = split_first(words)?;
    let (way, many) = pair(rest)?;
    let connection = connection_of(place)?;
    let direction = direction_of(way)?;
    Ok(Line::Carry(connection, direction, count_of(many)?))
}

fn drop_line(words: &[&[u8]]) -> Result<Line, LineFault> {
    let (place, who) = pair(words)?;
    let connection = connection_of(place)?;
    Ok(Line::Drop(connection, side_of(who)?))
}

/// The step that is named so, with the words after it.
fn step_of(alloc: Global, name: &str, rest: &[&[u8]]) -> Result<Line, LineFault> {
    match name {
        "begin" if rest.is_empty() => Ok(Line::Begin),
        "shake" => Ok(Line::Shake(connection_of(alone(rest)?)?)),
        "ask" => ask_line(alloc, rest),
        "carry" => carry_line(rest),
        "drop" => drop_line(rest),
        _ => Err(LineFault::NotStep),
    }
}

/// The step that the words of a line are.
fn step_in(alloc: Global, words: &[&[u8]]) -> Result<Line, LineFault> {
    let (name, rest) = split_first(words)?;
    step_of(alloc, name_of(name), rest)
}

/// What a line says. Spaces part its words, and nothing else does: a tab or a carriage return is an octet of a word.
pub fn line_of(alloc: Global, line: &[u8]) -> Result<Line, LineFault> {
    if line.is_empty() || line[0] == b'#' {
        return Ok(Line::Nothing);
    }
    let words: Result<Vec<&[u8]>, _> = line
        .split(|octet| *octet == b' ')
        .filter(|word| !word.is_empty())
        .collect(alloc);
    match words {
        Ok(words) => step_in(alloc, words.as_slice()),
        Err(_) => Err(LineFault::OutOfMemory),
    }
}
