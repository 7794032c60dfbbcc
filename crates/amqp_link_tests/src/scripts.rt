//! Scripts: texts that say, line by line, what is done with a link, and what is to come of it.
//!
//! The first line is the script's name. Each other line is a step ([`step`]), or one of these:
//!
//!     carry N WAY all                all octets that wait are carried
//!     shake N                        the same six times, in turn, to the server first: the handshake
//!     waiting N WAY -> COUNT         so many octets wait
//!     sent LIFE WAY ITEM ITEM ..     these items were sent in a life, as in `sent 1.1.2 to-client deliver off-ok`
//!     acted LIFE WAY ITEM ITEM ..    and the other end acted on these
//!     tally -> TALLY                 the whole tally, by `CONNECTION.CHANNEL.LIFE WAY acted/sent`
//!
//! A step that is refused has after the arrow `refused` and the number of the fault, and that of the ask's after a
//! point. Then the tally and what waits are to be as before.
use crate::links::{Setting, new_link};
use crate::messages::are_items;
use crate::steps::{alone, connection, direction, life, pair, split_first, step};
use crate::trouble::Trouble;
use amqp_core::Item;
use amqp_link::{Direction, Life, Link, LinkFault, Step};
use std::alloc::Global;
use std::fmt;
use std::test::Fail;

/// The handshake of connection 1, and the opening of its channel 1.
static OPENING: &str = "begin
shake 1
ask 1 client open
carry 1 to-server all
carry 1 to-client all";

/// What comes of a line.
#[derive(Clone, Copy)]
enum Came {
    AsSaid,
    Refused(LinkFault),
    Count(usize),
    OtherItems,
}

/// Nothing for what a line says, and a text for what it asks for.
impl fmt::Display for Came {
    fn fmt<W: fmt::Write>(&self, f: &mut fmt::Formatter<W>) -> fmt::Result {
        match *self {
            Came::AsSaid => Ok(()),
            Came::Refused(fault) => write_refusal(f, fault),
            Came::Count(count) => write!(f, "{count}"),
            Came::OtherItems => f.write_str("other items"),
        }
    }
}

fn write_refusal<W: fmt::Write>(f: &mut fmt::Formatter<W>, fault: LinkFault) -> fmt::Result {
    let number = fault.number();
    match fault {
        LinkFault::Ask(fault) => {
            let reason = fault.number();
            write!(f, "refused {number}.{reason}")
        }
        _ => write!(f, "refused {number}"),
    }
}

fn came_of(done: Result<(), LinkFault>) -> Came {
    match done {
        Ok(()) => Came::AsSaid,
        Err(fault) => Came::Refused(fault),
    }
}

fn as_said(is_so: bool) -> Came {
    if is_so {
        Came::AsSaid
    } else {
        Came::OtherItems
    }
}

/// Carries all octets that wait.
pub(crate) fn carry_all(
    link: &mut Link,
    connection: usize,
    direction: Direction,
) -> Result<(), LinkFault> {
    let octets = link.waiting(connection, direction);
    link.step(&Step::Carry(connection, direction, octets))
}

fn shake(link: &mut Link, connection: usize) -> Result<(), LinkFault> {
    for _ in 0..3 {
        carry_all(link, connection, Direction::ToServer)?;
        carry_all(link, connection, Direction::ToClient)?;
    }
    Ok(())
}

fn do_step(alloc: Global, link: &mut Link, words: &[&str]) -> Result<Came, Trouble> {
    let step = step(alloc, words)?;
    let done = link.step(&step);
    drop(step);
    Ok(came_of(done))
}

fn compare(alloc: Global, items: Vec<Item>, words: &[&str]) -> Result<Came, Trouble> {
    let is_so = are_items(alloc, &items, words);
    drop(items);
    Ok(as_said(is_so?))
}

/// A life, a way, and the words after them.
fn listed<'a, 'b>(words: &'b [&'a str]) -> Result<(Life, Direction, &'b [&'a str]), Trouble> {
    let (name, rest) = split_first(words)?;
    let (way, items) = split_first(rest)?;
    Ok((life(name)?, direction(way)?, items))
}

fn sent(alloc: Global, link: &Link, words: &[&str]) -> Result<Came, Trouble> {
    let (life, direction, words) = listed(words)?;
    let items = link.sent(life, direction)?;
    compare(alloc, items, words)
}

fn acted(alloc: Global, link: &Link, words: &[&str]) -> Result<Came, Trouble> {
    let (life, direction, words) = listed(words)?;
    let items = link.acted(life, direction)?;
    compare(alloc, items, words)
}

fn count_waiting(link: &Link, words: &[&str]) -> Result<Came, Trouble> {
    let (place, way) = pair(words)?;
    let connection = connection(place)?;
    Ok(Came::Count(link.waiting(connection, direction(way)?)))
}

fn shake_named(link: &mut Link, words: &[&str]) -> Result<Came, Trouble> {
    let connection = connection(alone(words)?)?;
    Ok(came_of(shake(link, connection)))
}

fn carry_all_named(link: &mut Link, place: &str, way: &str) -> Result<Came, Trouble> {
    let connection = connection(place)?;
    Ok(came_of(carry_all(link, connection, direction(way)?)))
}

fn carry_named(alloc: Global, link: &mut Link, words: &[&str]) -> Result<Came, Trouble> {
    match words {
        [_, place, way, "all"] => carry_all_named(link, place, way),
        _ => do_step(alloc, link, words),
    }
}

/// Does what a line says.
fn perform(alloc: Global, link: &mut Link, words: &[&str]) -> Result<Came, Trouble> {
    let Ok((word, rest)) = split_first(words) else {
        return Ok(Came::AsSaid);
    };
    match word {
        "shake" => shake_named(link, rest),
        "carry" => carry_named(alloc, link, words),
        "waiting" => count_waiting(link, rest),
        "sent" => sent(alloc, link, rest),
        "acted" => acted(alloc, link, rest),
        _ => do_step(alloc, link, words),
    }
}

fn way_text(direction: Direction) -> &'static str {
    match direction {
        Direction::ToServer => "to-server",
        Direction::ToClient => "to-client",
    }
}

/// An entry of a tally. Connections are numbered from 1 in scripts.
fn entry_text(
    alloc: Global,
    life: Life,
    direction: Direction,
    sent: usize,
    acted: usize,
) -> Result<String, Fail> {
    let connection = life.connection.saturating_add(1);
    let channel = life.channel;
    let number = life.number;
    let way = way_text(direction);
    Ok(format!(in alloc; "{connection}.{channel}.{number} {way} {acted}/{sent}")?)
}

fn tally_text(alloc: Global, link: &Link) -> Result<String, Fail> {
    let tally = link.tally()?;
    let mut text = String::new(alloc);
    for (life, direction, sent, acted) in tally.iter().copied() {
        if !text.is_empty() {
            text.push_str(", ")?;
        }
        let entry = entry_text(alloc, life, direction, sent, acted)?;
        text.push_str(&entry)?;
    }
    Ok(text)
}

/// The tally, and what waits on the first connections.
fn seen(alloc: Global, link: &Link) -> Result<String, Fail> {
    let mut text = tally_text(alloc, link)?;
    for connection in 0..4 {
        let to_server = link.waiting(connection, Direction::ToServer);
        let to_client = link.waiting(connection, Direction::ToClient);
        let waits = format!(in alloc; "; {to_server} {to_client}")?;
        text.push_str(&waits)?;
    }
    Ok(text)
}

/// What is seen where a step is to be refused, and nothing elsewhere: a tally takes a while where much was done.
fn seen_if_refused(alloc: Global, link: &Link, wanted: &str) -> Result<String, Fail> {
    if wanted.starts_with("refused") {
        return seen(alloc, link);
    }
    Ok(String::new(alloc))
}

/// The text of what comes of words that are no tally.
fn performed(alloc: Global, link: &mut Link, words: &[&str]) -> Result<String, Fail> {
    match perform(alloc, link, words) {
        Ok(came) => Ok(format!(in alloc; "{came}")?),
        Err(trouble) => Ok(format!(in alloc; "{trouble:?}")?),
    }
}

/// The text of what comes of a line.
fn answer(alloc: Global, link: &mut Link, line: &str) -> Result<String, Fail> {
    if line.trim() == "tally" {
        return tally_text(alloc, link);
    }
    let words: Vec<&str> = line.split_whitespace().collect(alloc)?;
    performed(alloc, link, words.as_slice())
}

/// The text of what comes of a line. A step that is to be refused changes nothing.
fn answer_unchanged(
    alloc: Global,
    link: &mut Link,
    words: &str,
    wanted: &str,
) -> Result<String, Fail> {
    let before = seen_if_refused(alloc, link, wanted)?;
    let came = answer(alloc, link, words)?;
    let after = seen_if_refused(alloc, link, wanted)?;
    if before.as_str() == after.as_str() {
        return Ok(came);
    }
    Ok(format!(in alloc; "{came:?}; before {before}, after {after}")?)
}

/// Does what a line says. Where something else comes of it than is said after the arrow, or a refused step changes
/// something, the line is named.
fn follow_line(alloc: Global, link: &mut Link, name: &str, line: &str) -> Result<(), Fail> {
    let (words, wanted) = line.split_once(" -> ").unwrap_or((line, ""));
    let came = answer_unchanged(alloc, link, words, wanted)?;
    if came.as_str() == wanted {
        return Ok(());
    }
    let line = line.trim_ascii_start();
    let text = format!(in alloc; "{name}: {line}: came {came}")?;
    Err(Fail::new(text))
}

/// Does what the lines say.
pub(crate) fn follow(alloc: Global, link: &mut Link, name: &str, lines: &str) -> Result<(), Fail> {
    for line in lines.split('\n') {
        follow_line(alloc, link, name, line)?;
    }
    Ok(())
}

/// Does what the lines after the first one say.
pub(crate) fn run_on(alloc: Global, link: &mut Link, script: &str) -> Result<(), Fail> {
    let (name, lines) = script.split_once("\n").unwrap_or((script, ""));
    follow(alloc, link, name, lines)
}

/// Runs a script with a link that is set up so.
pub(crate) fn run(alloc: Global, setting: Setting, script: &str) -> Result<(), Fail> {
    let mut link = new_link(alloc, setting)?;
    let outcome = run_on(alloc, &mut link, script);
    drop(link);
    outcome
}

/// A link with a connection whose channel 1 is open.
pub(crate) fn opened_link(alloc: Global, setting: Setting) -> Result<Link, Fail> {
    let mut link = new_link(alloc, setting)?;
    follow(alloc, &mut link, "the opening", OPENING)?;
    Ok(link)
}

/// Runs a script with a link that is set up so, in which channel 1 of connection 1 is open.
pub(crate) fn run_opened(alloc: Global, setting: Setting, script: &str) -> Result<(), Fail> {
    let mut link = opened_link(alloc, setting)?;
    let outcome = run_on(alloc, &mut link, script);
    drop(link);
    outcome
}

/// Runs scripts, each with a link of its own in which channel 1 of connection 1 is open.
pub(crate) fn run_all_opened(
    alloc: Global,
    setting: Setting,
    scripts: &[&str],
) -> Result<(), Fail> {
    for script in scripts.iter().copied() {
        run_opened(alloc, setting, script)?;
    }
    Ok(())
}
