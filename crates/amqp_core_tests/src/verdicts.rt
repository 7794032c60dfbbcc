//! Every kind of frame, on channel 0 and on channel 1, in every state of an end.
use crate::came::Came;
use crate::pairs::{DEFAULT, Pair};
use crate::scripts::AT_ONCE;
use crate::verdict_rows::{ROWS, WORDS};
use amqp_core::{CoreFault, End, Event, Role, Side, Taken};
use std::alloc::Global;
use std::test::Fail;

/// The ways to the states of a server: in the handshake, where it awaits start-ok; its channel 1 Free, Open, with a
/// header or a body due, and Closing; and the connection Closing.
static SERVER_STATES: [&str; 7] = [
    "client carries 8",
    "both open 0",
    "both open 1",
    "both open 1
     server takes basic.publish/1 -> events 0",
    "both open 1
     server takes basic.publish/1 -> events 0
     server takes header-of-2/1 -> events 0",
    "both open 1
     server asks close-channel 1 -> put",
    "both open 1
     server asks close -> put",
];

/// The ways to the states of a client: in the handshake, where it awaits start; its channel 1 Free, Opening, Open, with
/// a header or a body due, and Closing; and the connection Closing.
static CLIENT_STATES: [&str; 8] = [
    "",
    "both open 0",
    "both open 0
     client asks open -> channel 1",
    "both open 1",
    "both open 1
     client takes basic.deliver/1 -> events 0",
    "both open 1
     client takes basic.deliver/1 -> events 0
     client takes header-of-2/1 -> events 0",
    "both open 1
     client asks close-channel 1 -> put",
    "both open 1
     client asks close -> put",
];

/// The name of an event.
fn name_of(event: &Event) -> &'static str {
    match event {
        Event::AnswerAsked => "answer-asked",
        Event::LoginAsked => "login-asked",
        Event::OpenAsked => "open-asked",
        Event::Negotiated(_) => "negotiated",
        Event::Opened(_) => "opened",
        Event::Told(_, _) => "told",
        Event::Flow(_, _) => "flow",
        Event::FlowOk(_, _) => "flow-ok",
        Event::ChannelClosed(_, _) => "channel-closed",
        Event::ConnectionClosed(_) => "connection-closed",
        Event::Discarded(_) => "discarded",
        Event::Blocked(_) => "blocked",
        Event::Unblocked => "unblocked",
        Event::Quiet => "quiet",
    }
}

/// What came of a frame.
fn came_of(outcome: &Result<Taken, CoreFault>) -> Came {
    match outcome {
        Ok(taken) => match &taken.event {
            Some(event) => Came::Event(name_of(event)),
            None => Came::Event("-"),
        },
        Err(fault) => Came::Fault(*fault),
    }
}

/// What comes of a frame.
fn feed<R: Role>(end: &mut End<R>, frame: &[u8]) -> Came {
    let outcome = end.feed(frame);
    let came = came_of(&outcome);
    drop(outcome);
    came
}

/// What comes of a frame at an end of this side, after these steps.
fn feed_after(
    alloc: Global,
    pair: &mut Pair,
    side: Side,
    steps: &str,
    frame: &[u8],
) -> Result<Came, Fail> {
    pair.follow(alloc, AT_ONCE, "the way to a state", steps)?;
    match side {
        Side::Client => Ok(feed(&mut pair.client, frame)),
        Side::Server => Ok(feed(&mut pair.server, frame)),
    }
}

/// What comes of a frame in one state.
fn verdict(alloc: Global, side: Side, steps: &str, frame: &[u8]) -> Result<Came, Fail> {
    let mut pair = Pair::new(alloc, DEFAULT)?;
    let came = feed_after(alloc, &mut pair, side, steps, frame);
    drop(pair);
    came
}

/// A frame of the table.
#[derive(Clone, Copy)]
pub(crate) struct Case<'a> {
    pub(crate) name: &'a str,
    pub(crate) channel: &'a str,
    pub(crate) frame: &'a [u8],
}

/// Says which case it is of which something else came than the word of its row.
fn fault(alloc: Global, case: Case, steps: &str, came: &str, word: &str) -> Result<Fail, Fail> {
    let Case {
        name,
        channel,
        frame: _,
    } = case;
    let text = format!(in alloc;
        "{name} on channel {channel} after {steps}: came {came}, not {word}"
    )?;
    Ok(Fail::new(text))
}

/// Compares what comes of a frame in one state with the word of its row.
fn check_state(alloc: Global, side: Side, steps: &str, case: Case, word: &str) -> Result<(), Fail> {
    let came = verdict(alloc, side, steps, case.frame)?;
    let text = format!(in alloc; "{came}")?;
    if text.as_str() == word {
        return Ok(());
    }
    Err(fault(alloc, case, steps, &text, word)?)
}

/// Compares what comes of a frame in each state with the words of its row.
fn check_side(
    alloc: Global,
    side: Side,
    states: &[&str],
    case: Case,
    words: &[&str],
) -> Result<(), Fail> {
    for (steps, word) in states.iter().copied().zip(words.iter().copied()) {
        check_state(alloc, side, steps, case, word)?;
    }
    Ok(())
}

fn check_row(alloc: Global, row: &[&str]) -> Result<(), Fail> {
    if row.len() != WORDS {
        return Err("a row of other words".into());
    }
    let frame = hex::decode(alloc, row[2])?;
    let case = Case {
        name: row[0],
        channel: row[1],
        frame: &frame,
    };
    check_side(alloc, Side::Server, &SERVER_STATES, case, &row[3..10])?;
    check_side(alloc, Side::Client, &CLIENT_STATES, case, &row[10..])
}

#[test]
fn each_frame_in_each_state(rt: HostRuntime) -> Result<(), Fail> {
    let words: Vec<&str> = ROWS.split_whitespace().collect(rt.alloc())?;
    for row in words.chunks(WORDS) {
        check_row(rt.alloc(), row)?;
    }
    Ok(())
}
