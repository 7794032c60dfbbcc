//! Closes that an application puts for a method: their octets name its class and its method, and the other end tells
//! it.
use crate::asks::text;
use crate::octets::octets_of;
use crate::pairs::{DEFAULT, Pair};
use crate::scripts::AT_ONCE;
use amqp_core::{AskFault, Cause, End, Role, StreamEnd};
use amqp_method::Kind;
use amqp_value::ShortStr;
use std::alloc::Global;
use std::test::Fail;

/// A close for a method: of channel 1 with 404, or of the connection with 503.
#[derive(Clone, Copy)]
struct Row {
    is_of_channel: bool,
    kind: Kind,
    /// the frame that is put
    frame: &'static str,
    cause: Cause,
}

/// Class and method stand after the code and the text, in two octets each.
static ROWS: [Row; 4] = [
    Row {
        is_of_channel: true,
        kind: Kind::BasicPublish,
        frame: "01 0001 00000014 0014 0028 0194 09 'NOT_FOUND 003c 0028 ce",
        cause: Cause {
            class_id: 60,
            method_id: 40,
        },
    },
    Row {
        is_of_channel: true,
        kind: Kind::QueueDeclare,
        frame: "01 0001 00000014 0014 0028 0194 09 'NOT_FOUND 0032 000a ce",
        cause: Cause {
            class_id: 50,
            method_id: 10,
        },
    },
    Row {
        is_of_channel: false,
        kind: Kind::ExchangeDeclare,
        frame: "01 0000 00000014 000a 0032 01f7 09 'NOT_FOUND 0028 000a ce",
        cause: Cause {
            class_id: 40,
            method_id: 10,
        },
    },
    Row {
        is_of_channel: false,
        kind: Kind::ConfirmSelect,
        frame: "01 0000 00000014 000a 0032 01f7 09 'NOT_FOUND 0055 000a ce",
        cause: Cause {
            class_id: 85,
            method_id: 10,
        },
    },
];

fn close<R: Role>(end: &mut End<R>, row: Row, text: &ShortStr) -> Result<(), AskFault> {
    if row.is_of_channel {
        end.close_channel_for(1, 404, text, row.kind)
    } else {
        end.close_for(503, text, row.kind)
    }
}

fn close_lending<R: Role>(
    end: &mut StreamEnd<R>,
    row: Row,
    text: &ShortStr,
) -> Result<(), AskFault> {
    if row.is_of_channel {
        end.close_channel_for(1, 404, text, row.kind)
    } else {
        end.close_for(503, text, row.kind)
    }
}

/// What came of a close: its octets are those of the row, and what the other end tells of it, and whether it tells
/// the method.
#[derive(Clone, Copy, PartialEq, Eq, Debug)]
struct Came {
    is_put: bool,
    closed_for: Option<Cause>,
    is_method: bool,
}

/// An end closes, and the other end takes the close.
fn closes<A: Role, B: Role>(
    end: &mut End<A>,
    other: &mut End<B>,
    row: Row,
    text: &ShortStr,
    frame: &[u8],
) -> Came {
    let put = close(end, row, text);
    let is_put = put.is_ok() && end.output() == frame;
    drop(other.feed(end.output()));
    let closed_for = other.closed_for();
    let is_method = match closed_for {
        Some(cause) => cause.kind() == Some(row.kind),
        None => false,
    };
    Came {
        is_put,
        closed_for,
        is_method,
    }
}

fn check(alloc: Global, name: &str, row: Row, came: Came) -> Result<(), Fail> {
    let wanted = Came {
        is_put: true,
        closed_for: Some(row.cause),
        is_method: true,
    };
    if came == wanted {
        return Ok(());
    }
    let frame = row.frame;
    Err(Fail::new(format!(in alloc; "{name}, {frame}: came {came:?}")?))
}

/// A client and a server with channel 1 open, and nothing in flight.
fn both_open(alloc: Global) -> Result<Pair, Fail> {
    let mut pair = Pair::new(alloc, DEFAULT)?;
    let followed = pair.follow(alloc, AT_ONCE, "channel 1 is open", "both open 1");
    match followed {
        Ok(()) => Ok(pair),
        Err(fail) => {
            drop(pair);
            Err(fail)
        }
    }
}

fn frame_of(alloc: Global, row: Row) -> Result<Vec<u8>, Fail> {
    let words: Vec<&str> = row.frame.split_whitespace().collect(alloc)?;
    Ok(octets_of(alloc, &words)?)
}

fn check_client(alloc: Global, row: Row) -> Result<(), Fail> {
    let frame = frame_of(alloc, row)?;
    let text = text(alloc, b"NOT_FOUND")?;
    let mut pair = both_open(alloc)?;
    let came = closes(&mut pair.client, &mut pair.server, row, &text, &frame);
    drop(pair);
    check(alloc, "a client", row, came)
}

fn check_server(alloc: Global, row: Row) -> Result<(), Fail> {
    let frame = frame_of(alloc, row)?;
    let text = text(alloc, b"NOT_FOUND")?;
    let mut pair = both_open(alloc)?;
    let came = closes(&mut pair.server, &mut pair.client, row, &text, &frame);
    drop(pair);
    check(alloc, "a server", row, came)
}

#[test]
fn closes_name_their_methods(rt: HostRuntime) -> Result<(), Fail> {
    let alloc = rt.alloc();
    for row in ROWS.iter().copied() {
        check_client(alloc, row)?;
        check_server(alloc, row)?;
    }
    Ok(())
}

fn check_lending(alloc: Global, row: Row) -> Result<(), Fail> {
    let frame = frame_of(alloc, row)?;
    let text = text(alloc, b"NOT_FOUND")?;
    let Pair { client, server } = both_open(alloc)?;
    drop(client);
    let mut server = server.into_stream();
    let put = close_lending(&mut server, row, &text);
    let is_put = put.is_ok() && server.output() == frame.as_slice();
    drop(server);
    if is_put {
        return Ok(());
    }
    let wanted = row.frame;
    Err(Fail::new(format!(in alloc; "{wanted}: not put")?))
}

#[test]
fn closes_of_lending_ends_name_their_methods(rt: HostRuntime) -> Result<(), Fail> {
    let alloc = rt.alloc();
    for row in ROWS.iter().copied() {
        check_lending(alloc, row)?;
    }
    Ok(())
}
