//! Ends whose events lend: the same comes of every frame in every state as at an end that gathers, and the parts of a
//! content, put together, are the whole.
ghost use Rattle.std.specs.Prelude.{◌<◌, ◌≤◌, length, IfOk};

use crate::came::Came;
use crate::octets::octets_of;
use crate::pairs::{DEFAULT, Pair};
use crate::scripts::AT_ONCE;
use crate::trouble::Trouble;
use crate::verdict_rows::{ROWS, WORDS};
use crate::verdicts::Case;
use amqp_core::{Cause, End, EventRef, Role, Server, Side, StreamEnd};
use amqp_method::Kind;
use std::alloc::Global;
use std::test::Fail;

/// The ways to the states of a server, as in `verdicts`: the steps of a pair, and then frames that the lending end
/// takes.
static SERVER_WAYS: [(&str, &str); 7] = [
    ("client carries 8", ""),
    ("both open 0", ""),
    ("both open 1", ""),
    ("both open 1", "basic.publish/1"),
    ("both open 1", "basic.publish/1 header-of-2/1"),
    (
        "both open 1
         server asks close-channel 1 -> put",
        "",
    ),
    (
        "both open 1
         server asks close -> put",
        "",
    ),
];

/// The ways to the states of a client.
static CLIENT_WAYS: [(&str, &str); 8] = [
    ("", ""),
    ("both open 0", ""),
    (
        "both open 0
         client asks open -> channel 1",
        "",
    ),
    ("both open 1", ""),
    ("both open 1", "basic.deliver/1"),
    ("both open 1", "basic.deliver/1 header-of-2/1"),
    (
        "both open 1
         client asks close-channel 1 -> put",
        "",
    ),
    (
        "both open 1
         client asks close -> put",
        "",
    ),
];

/// The name of the event of an end that gathers whole contents: `-` for a part of a content that isn't whole.
fn name_of(event: EventRef<'_>) -> &'static str {
    match event {
        EventRef::AnswerAsked => "answer-asked",
        EventRef::LoginAsked => "login-asked",
        EventRef::OpenAsked => "open-asked",
        EventRef::Negotiated(_) => "negotiated",
        EventRef::Opened(_) => "opened",
        EventRef::Method(_, _) => "told",
        EventRef::Begins(_, _) => "-",
        EventRef::Heads(_, _, whole) => name_of_part(whole),
        EventRef::Part(_, _, whole) => name_of_part(whole),
        EventRef::Flow(_, _) => "flow",
        EventRef::FlowOk(_, _) => "flow-ok",
        EventRef::ChannelClosed(_, _) => "channel-closed",
        EventRef::ConnectionClosed(_) => "connection-closed",
        EventRef::Discarded(_) => "discarded",
        EventRef::Blocked(_) => "blocked",
        EventRef::Unblocked => "unblocked",
        EventRef::Quiet => "quiet",
    }
}

fn name_of_part(whole: bool) -> &'static str {
    if whole { "told" } else { "-" }
}

/// What comes of a frame. Each frame tells an event.
fn feed<R: Role>(end: &mut StreamEnd<R>, frame: &[u8]) -> Came {
    match end.feed_ref(frame) {
        Ok(taken) => match taken.event {
            Some(event) => Came::Event(name_of(event)),
            None => Came::Event("none"),
        },
        Err(fault) => Came::Fault(fault),
    }
}

/// What comes of a frame after the frames of these words.
fn feed_after<R: Role>(
    alloc: Global,
    end: &mut StreamEnd<R>,
    words: &str,
    frame: &[u8],
) -> Result<Came, Trouble> {
    for word in words.split_whitespace() {
        let octets = octets_of(alloc, &[word])?;
        let _ = feed(end, &octets);
    }
    Ok(feed(end, frame))
}

/// What comes of a frame in one state.
fn verdict(alloc: Global, side: Side, way: (&str, &str), frame: &[u8]) -> Result<Came, Fail> {
    let mut pair = Pair::new(alloc, DEFAULT)?;
    let followed = pair.follow(alloc, AT_ONCE, "the way to a state", way.0);
    let Pair { client, server } = pair;
    let mut client = client.into_stream();
    let mut server = server.into_stream();
    let came = match side {
        Side::Client => feed_after(alloc, &mut client, way.1, frame),
        Side::Server => feed_after(alloc, &mut server, way.1, frame),
    };
    drop(client);
    drop(server);
    followed?;
    Ok(came?)
}

/// Compares what comes of a frame in each state with the words of its row.
fn check_side(
    alloc: Global,
    side: Side,
    ways: &[(&str, &str)],
    case: Case<'_>,
    words: &[&str],
) -> Result<(), Fail> {
    for (way, word) in ways.iter().copied().zip(words.iter().copied()) {
        let came = verdict(alloc, side, way, case.frame)?;
        let text = format!(in alloc; "{came}")?;
        if text.as_str() != word {
            let name = case.name;
            let channel = case.channel;
            let steps = way.0;
            return Err(Fail::new(format!(in alloc;
                "{name} on channel {channel} after {steps}: came {text}, not {word}"
            )?));
        }
    }
    Ok(())
}

fn check_row(alloc: Global, row: &[&str]) -> Result<(), Fail> {
    if row.len() != WORDS {
        return Err("a row of other words".into());
    }
    let frame = hex::decode(alloc, row[2])?;
    let case = Case {
        name: row[0],
        channel: row[1],
        frame: &frame,
    };
    check_side(alloc, Side::Server, &SERVER_WAYS, case, &row[3..10])?;
    check_side(alloc, Side::Client, &CLIENT_WAYS, case, &row[10..])
}

#[test]
fn each_frame_in_each_state_lent(rt: HostRuntime) -> Result<(), Fail> {
    let words: Vec<&str> = ROWS.split_whitespace().collect(rt.alloc())?;
    for row in words.chunks(WORDS) {
        check_row(rt.alloc(), row)?;
    }
    Ok(())
}

/// Two contents, of three octets in two parts and of none, and a method without content.
static CONTENTS: &str =
    "basic.publish/1 header-of-3/1 03 0001 00000002 'hi ce 03 0001 00000001 '! ce
    basic.publish/1 header/1 tx.select/1";

/// What is told of it: a line a frame.
static LINES: &str = "begins 1 basic.publish
heads 1 3
part 1 6869
part 1 21 whole
begins 1 basic.publish
heads 1 0 whole
method 1 tx.select
";

fn whole_word(whole: bool) -> &'static str {
    if whole { " whole" } else { "" }
}

/// Adds the line of an event.
fn add_line(alloc: Global, lines: &mut String, event: EventRef<'_>) -> Result<(), Fail> {
    let line = match event {
        EventRef::Method(channel, method) => {
            let name = method.kind().name();
            format!(in alloc; "method {channel} {name}\n")?
        }
        EventRef::Begins(channel, method) => {
            let name = method.kind().name();
            format!(in alloc; "begins {channel} {name}\n")?
        }
        EventRef::Heads(channel, header, whole) => {
            let size = header.body_size();
            let word = whole_word(whole);
            format!(in alloc; "heads {channel} {size}{word}\n")?
        }
        EventRef::Part(channel, octets, whole) => {
            let digits = hex::encode(alloc, octets)?;
            let word = whole_word(whole);
            format!(in alloc; "part {channel} {digits}{word}\n")?
        }
        _ => format!(in alloc; "another event\n")?,
    };
    lines.push_str(&line)?;
    Ok(())
}

/// Feeds octets of a piece, and adds the line of the event. The answer is how many were taken.
fn tell_some<R: Role>(
    alloc: Global,
    end: &mut StreamEnd<R>,
    piece: &[u8],
    lines: &mut String,
) -> Result<usize, Fail>
    requires { 0 < length piece.now }
    ensures within { IfOk result (λ octets. octets ≤ length piece.now) }
    ensures some { IfOk result (λ octets. 0 < octets) }
{
    let taken = end.feed_ref(piece)?;
    let octets = taken.octets;
    if let Some(event) = taken.event {
        add_line(alloc, lines, event)?;
    }
    Ok(octets)
}

/// Feeds octets in pieces of at most so many, and adds the lines of the events.
fn tell_all<R: Role>(
    alloc: Global,
    end: &mut StreamEnd<R>,
    octets: &[u8],
    part: usize,
    lines: &mut String,
) -> Result<(), Fail> {
    let part = part.max(1);
    let mut rest = octets;
    while !rest.is_empty() {
        let taken = tell_some(alloc, end, &rest[..rest.len().min(part)], lines)?;
        rest = &rest[taken..];
    }
    Ok(())
}

/// A server that lends, with channel 1 open.
fn open_server(alloc: Global) -> Result<StreamEnd<Server>, Fail> {
    server_after(alloc, "both open 1")
}

/// A server that lends after a script.
fn server_after(alloc: Global, script: &str) -> Result<StreamEnd<Server>, Fail> {
    let mut pair = Pair::new(alloc, DEFAULT)?;
    let followed = pair.follow(alloc, AT_ONCE, "the way to a state", script);
    let Pair { client, server } = pair;
    drop(client);
    let server = server.into_stream();
    match followed {
        Ok(()) => Ok(server),
        Err(fail) => {
            drop(server);
            Err(fail)
        }
    }
}

/// What a lending server has heard: open in the handshake, before it lent and after it forgot, and what the other end
/// closed a channel for.
#[derive(Clone, Copy, PartialEq, Eq, Debug)]
struct Hears {
    open: bool,
    after: bool,
    closed_for: Option<Cause>,
}

/// Channel 1 is closed for basic.publish.
const HEARS: Hears = Hears {
    open: true,
    after: false,
    closed_for: Some(Cause {
        class_id: 60,
        method_id: 40,
    }),
};

/// channel.close with 404, about class 60 and method 40.
static CLOSE: &str = "01 0001 00000014 0014 0028 0194 09 'NOT_FOUND 003c 0028 ce";

#[test]
fn lending_ends_hear(rt: HostRuntime) -> Result<(), Fail> {
    let alloc = rt.alloc();
    let words: Vec<&str> = CLOSE.split_whitespace().collect(alloc)?;
    let octets = octets_of(alloc, &words)?;
    let mut server = open_server(alloc)?;
    let open = server.heard(Kind::ConnectionOpen).is_some();
    server.forget_heard();
    let after = server.heard(Kind::ConnectionOpen).is_some();
    let _ = feed(&mut server, &octets);
    let closed_for = server.closed_for();
    drop(server);
    let hears = Hears {
        open,
        after,
        closed_for,
    };
    if hears == HEARS {
        return Ok(());
    }
    Err(Fail::new(format!(in alloc; "it hears {hears:?}")?))
}

/// Whether a lending server hears start-ok, which it awaits.
#[test]
fn lending_ends_hear_the_handshake(rt: HostRuntime) -> Result<(), Fail> {
    let alloc = rt.alloc();
    let octets = octets_of(alloc, &["connection.start-ok/0"])?;
    let mut pair = Pair::new(alloc, DEFAULT)?;
    let followed = pair.follow(alloc, AT_ONCE, "the way to a state", "client carries 8");
    let Pair { client, server } = pair;
    drop(client);
    let mut server = server.into_stream();
    let before = server.heard(Kind::ConnectionStartOk).is_some();
    let _ = feed(&mut server, &octets);
    let after = server.heard(Kind::ConnectionStartOk).is_some();
    drop(server);
    followed?;
    if after && !before {
        return Ok(());
    }
    Err("start-ok is not heard where it comes".into())
}

fn check_parts(alloc: Global, octets: &[u8], part: usize) -> Result<(), Fail> {
    let mut server = open_server(alloc)?;
    let mut lines = String::new(alloc);
    let told = tell_all(alloc, &mut server, octets, part, &mut lines);
    drop(server);
    told?;
    if lines.as_str() == LINES {
        return Ok(());
    }
    Err(Fail::new(format!(in alloc; "in pieces of {part} came:\n{lines}")?))
}

#[test]
fn parts_come_in_pieces_of_any_length(rt: HostRuntime) -> Result<(), Fail> {
    let alloc = rt.alloc();
    let words: Vec<&str> = CONTENTS.split_whitespace().collect(alloc)?;
    let octets = octets_of(alloc, &words)?;
    for part in 1..=40 {
        check_parts(alloc, &octets, part)?;
    }
    check_parts(alloc, &octets, octets.len())
}

/// Feeds the octets of words, all at once.
fn tell_words(
    alloc: Global,
    end: &mut StreamEnd<Server>,
    words: &[&str],
    lines: &mut String,
) -> Result<(), Fail> {
    let octets = octets_of(alloc, words)?;
    tell_all(alloc, end, &octets, octets.len(), lines)
}

/// How many octets of the content under way have come: after its first part, where the end was asked to turn back
/// within the content, and after its last part; and whether the end turned back then.
#[derive(Clone, Copy, PartialEq, Eq, Debug)]
struct Turned {
    came: usize,
    still: usize,
    left: usize,
    after: bool,
}

const TURNED: Turned = Turned {
    came: 2,
    still: 2,
    left: 0,
    after: true,
};

/// The end that lends, where it didn't turn back.
fn is_end(turned: Result<End<Server>, StreamEnd<Server>>) -> bool {
    match turned {
        Ok(end) => {
            drop(end);
            true
        }
        Err(stream) => {
            drop(stream);
            false
        }
    }
}

fn turn(alloc: Global, server: StreamEnd<Server>, lines: &mut String) -> Result<Turned, Fail> {
    let mut server = server;
    tell_words(alloc, &mut server, &BEGINS, lines)?;
    let came = server.came(1);
    let mut server = match server.into_end() {
        Ok(end) => {
            drop(end);
            return Err("turned back within a content".into());
        }
        Err(stream) => stream,
    };
    let still = server.came(1);
    tell_words(alloc, &mut server, &ENDS, lines)?;
    let left = server.came(1);
    Ok(Turned {
        came,
        still,
        left,
        after: is_end(server.into_end()),
    })
}

/// A content of three octets, up to its first part, and its last part.
static BEGINS: [&str; 7] = [
    "basic.publish/1",
    "header-of-3/1",
    "03",
    "0001",
    "00000002",
    "'hi",
    "ce",
];

static ENDS: [&str; 5] = ["03", "0001", "00000001", "'!", "ce"];

/// An end that lends turns back only where no content is under way.
#[test]
fn an_end_turns_back_between_contents(rt: HostRuntime) -> Result<(), Fail> {
    let alloc = rt.alloc();
    let server = open_server(alloc)?;
    let mut lines = String::new(alloc);
    let turned = turn(alloc, server, &mut lines)?;
    if turned == TURNED {
        return Ok(());
    }
    Err(Fail::new(format!(in alloc; "came {turned:?}, not {TURNED:?}")?))
}

/// The header of a content has 14 octets, and two of its body have come.
static GATHERED: &str = "both open 1
     server takes basic.publish/1 header-of-3/1 body-of-2/1 -> events 0
     server kept -> 16";

/// How many octets a server keeps that turned within a content, before the content's last part and after it, and with
/// the first part of the next content.
#[derive(Clone, Copy, PartialEq, Eq, Debug)]
struct KeptOctets {
    turned: usize,
    ended: usize,
    lent: usize,
}

const KEPT: KeptOctets = KeptOctets {
    turned: 16,
    ended: 0,
    lent: 0,
};

fn kept_by(
    alloc: Global,
    server: &mut StreamEnd<Server>,
    lines: &mut String,
) -> Result<KeptOctets, Fail> {
    let turned = server.kept();
    tell_words(alloc, server, &ENDS, lines)?;
    let ended = server.kept();
    tell_words(alloc, server, &BEGINS, lines)?;
    Ok(KeptOctets {
        turned,
        ended,
        lent: server.kept(),
    })
}

/// What was gathered of a content before its end turned is kept up to its next frame, and nothing of a content that is
/// lent.
#[test]
fn what_was_gathered_goes_with_its_next_frame(rt: HostRuntime) -> Result<(), Fail> {
    let alloc = rt.alloc();
    let mut server = server_after(alloc, GATHERED)?;
    let mut lines = String::new(alloc);
    let kept = kept_by(alloc, &mut server, &mut lines)?;
    if kept == KEPT {
        return Ok(());
    }
    Err(Fail::new(format!(in alloc; "kept {kept:?}, not {KEPT:?}")?))
}
