//! What is said where an end finds fault: the place, the frame and the rule, after octets that are written by hand.
use crate::octets::octets_of;
use crate::pairs::{DEFAULT, Pair};
use crate::scripts::AT_ONCE;
use amqp_core::{Blame, End, Role, Server, StreamEnd};
use std::alloc::Global;
use std::test::Fail;

/// A server has taken the protocol header.
const HEARD: &str = "client carries 8";

/// A server has taken 101 octets: the protocol header, start-ok in 44, tune-ok in 20, the connection's open in 16 and
/// the channel's in 13.
const OPEN: &str = "both open 1";

/// Octets that break a rule at a server: what was done before, the pieces that are fed then, how many octets the end
/// took in all, and what is said. A publish has 18 octets, a header 22, and basic.ack 21.
static SERVER_ROWS: [(&str, &str, u64, &str); 26] = [
    (
        "",
        "414d 5151",
        4,
        "octet 0: octets other than this version's protocol header",
    ),
    (HEARD, "04", 9, "octet 8: octets of no frame type"),
    (
        HEARD,
        "010000 00001000",
        15,
        "octet 8: octets of a frame longer than the limit (501)",
    ),
    (
        HEARD,
        "08000000000000 00",
        16,
        "octet 8: octets of a frame without its end octet",
    ),
    (
        HEARD,
        "0100010000000d003c0050000000000000000100ce",
        29,
        "octet 8, channel 1: basic.ack out of turn in the handshake (503)",
    ),
    (
        HEARD,
        "0200000000000e003c000000000000000000000000ce",
        30,
        "octet 8, channel 0: a header out of turn in the handshake (503)",
    ),
    (
        HEARD,
        "0800000000000100ce",
        17,
        "octet 8, channel 0: a heartbeat that is not empty (501)",
    ),
    (
        HEARD,
        "08000100000000ce",
        16,
        "octet 8, channel 1: a heartbeat on a channel (501)",
    ),
    (
        HEARD,
        "0100000000000e000a000b00000000000000000000ce 0100000000000c000a001f0000000000000000ce",
        50,
        "octet 30, channel 0: connection.tune-ok beyond the limits of tune",
    ),
    (
        OPEN,
        "0100010000000a003c002800000001 7100ce 0100010000000d003c0050000000 0000000001 00ce",
        140,
        "octet 119, channel 1: basic.ack while a header is due (505)",
    ),
    (
        OPEN,
        "0100010000000a003c0028000000017100ce 03000100000001 61ce",
        128,
        "octet 119, channel 1: a body while a header is due (505)",
    ),
    (
        OPEN,
        "0100010000000a003c0028000000017100ce 0200010000000e003c000000000000000000020000ce 0200010000000e003c000000000000000000020000ce",
        163,
        "octet 141, channel 1: a header while a body is due (505)",
    ),
    (
        OPEN,
        "0100010000000a003c0028000000017100ce 0200010000000e003c000000000000000000020000ce 03000100000003616263ce",
        152,
        "octet 141, channel 1: a body longer than announced (501)",
    ),
    (
        OPEN,
        "0100010000000a003c0028000000017100ce 0200010000000e003c000100000000000000020000ce",
        141,
        "octet 119, channel 1: a header that can't be read: weight other than 0 at octet 2 of the payload (502)",
    ),
    (
        OPEN,
        "0300010000000161ce",
        110,
        "octet 101, channel 1: a body while no content is begun (505)",
    ),
    (
        OPEN,
        "0100020000000d003c0050000000000000000100ce",
        122,
        "octet 101, channel 2: basic.ack on a channel that is not open (504)",
    ),
    (
        OPEN,
        "0108000000000d003c0050000000000000000100ce",
        122,
        "octet 101, channel 2048: basic.ack on a channel above the agreed maximum (504)",
    ),
    (
        OPEN,
        "010001000000050014000a00ce",
        114,
        "octet 101, channel 1: channel.open on a channel that is open (504)",
    ),
    (
        OPEN,
        "0100000000000d003c0050000000000000000100ce",
        122,
        "octet 101, channel 0: basic.ack outside a channel (504)",
    ),
    (
        OPEN,
        "0100000000000e000a000b00000000000000000000ce",
        123,
        "octet 101, channel 0: connection.start-ok after the handshake (503)",
    ),
    (
        OPEN,
        "0100010000000e000a000b00000000000000000000ce",
        123,
        "octet 101, channel 1: connection.start-ok on a channel (503)",
    ),
    (
        OPEN,
        "010001000000080014000b00000000ce",
        117,
        "octet 101, channel 1: channel.open-ok that this side doesn't take (503)",
    ),
    (
        OPEN,
        "0100010000000400140029ce",
        113,
        "octet 101, channel 1: channel.close-ok that answers nothing that was asked (503)",
    ),
    (
        OPEN,
        "01000000000004000a0046ce",
        113,
        "octet 101, channel 0: a method that there isn't (540)",
    ),
    (
        OPEN,
        "010001000000060014000a0000ce",
        115,
        "octet 101, channel 1: channel.open that can't be read: octets after the last field at octet 5 of the payload (502)",
    ),
    (
        OPEN,
        "01000100000004003c0050ce",
        113,
        "octet 101, channel 1: basic.ack that can't be read: field value that can't be read or written: the octets end early at octet 4 of the payload (502)",
    ),
];

/// The same at a client, to which nothing was said before.
static CLIENT_ROWS: [(&str, u64, &str); 4] = [
    ("04", 1, "octet 0: octets of no frame type"),
    (
        "01000000000008000a001400000000ce",
        16,
        "octet 0, channel 0: connection.secure that is not implemented (540)",
    ),
    (
        "0100000000000d003c0050000000000000000100ce",
        21,
        "octet 0, channel 0: basic.ack out of turn in the handshake (503)",
    ),
    (
        "01000000000012000a000a0000000000000000000000000000ce 0100000000000c000a001e000000000fff0000ce",
        46,
        "octet 26, channel 0: connection.tune with frames below 4096 octets (501)",
    ),
];

/// Feeds the pieces. Nothing is to be blamed before the last of them.
fn feed_end<R: Role>(alloc: Global, end: &mut End<R>, pieces: &str) -> Result<(), Fail> {
    for piece in pieces.split_whitespace() {
        if end.blame().is_some() {
            return Err("blamed too early".into());
        }
        let octets = octets_of(alloc, &[piece])?;
        let _ = end.feed(&octets);
    }
    Ok(())
}

fn feed_stream<R: Role>(alloc: Global, end: &mut StreamEnd<R>, pieces: &str) -> Result<(), Fail> {
    for piece in pieces.split_whitespace() {
        if end.blame().is_some() {
            return Err("blamed too early".into());
        }
        let octets = octets_of(alloc, &[piece])?;
        let _ = end.feed_ref(&octets);
    }
    Ok(())
}

/// What is said of octets, so many of which were taken.
fn said(alloc: Global, taken: u64, blame: Option<&Blame>) -> Result<String, Fail> {
    match blame {
        Some(blame) => Ok(format!(in alloc; "{taken} {blame}")?),
        None => Err("nothing is blamed".into()),
    }
}

fn wrong_in_end<R: Role>(alloc: Global, end: &mut End<R>, pieces: &str) -> Result<String, Fail> {
    feed_end(alloc, end, pieces)?;
    said(alloc, end.octets_taken(), end.blame())
}

fn wrong_at_end<R: Role>(alloc: Global, mut end: End<R>, pieces: &str) -> Result<String, Fail> {
    let wrong = wrong_in_end(alloc, &mut end, pieces);
    drop(end);
    wrong
}

fn wrong_in_stream<R: Role>(
    alloc: Global,
    end: &mut StreamEnd<R>,
    pieces: &str,
) -> Result<String, Fail> {
    feed_stream(alloc, end, pieces)?;
    said(alloc, end.octets_taken(), end.blame())
}

fn wrong_at_stream<R: Role>(
    alloc: Global,
    mut end: StreamEnd<R>,
    pieces: &str,
) -> Result<String, Fail> {
    let wrong = wrong_in_stream(alloc, &mut end, pieces);
    drop(end);
    wrong
}

/// A server after these steps.
fn server_after(alloc: Global, way: &str) -> Result<End<Server>, Fail> {
    let mut pair = Pair::new(alloc, DEFAULT)?;
    let followed = pair.follow(alloc, AT_ONCE, "the way to a fault", way);
    let Pair { client, server } = pair;
    drop(client);
    match followed {
        Ok(()) => Ok(server),
        Err(fail) => {
            drop(server);
            Err(fail)
        }
    }
}

/// What a server says of octets, which gathers or lends.
fn wrong_at_server(alloc: Global, way: &str, pieces: &str, lends: bool) -> Result<String, Fail> {
    let server = server_after(alloc, way)?;
    if lends {
        return wrong_at_stream(alloc, server.into_stream(), pieces);
    }
    wrong_at_end(alloc, server, pieces)
}

fn wrong_at_client(alloc: Global, pieces: &str, lends: bool) -> Result<String, Fail> {
    let Pair { client, server } = Pair::new(alloc, DEFAULT)?;
    drop(server);
    if lends {
        return wrong_at_stream(alloc, client.into_stream(), pieces);
    }
    wrong_at_end(alloc, client, pieces)
}

/// Compares what is said with the row.
fn compare(alloc: Global, found: &str, taken: u64, wrong: &str) -> Result<(), Fail> {
    let wanted = format!(in alloc; "{taken} {wrong}")?;
    if found == wanted.as_str() {
        return Ok(());
    }
    let text = format!(in alloc; "wanted {wanted}, and not {found}")?;
    Err(Fail::new(text))
}

fn check_rows(alloc: Global, lends: bool) -> Result<(), Fail> {
    for (way, pieces, taken, wrong) in SERVER_ROWS {
        let found = wrong_at_server(alloc, way, pieces, lends)?;
        compare(alloc, &found, taken, wrong)?;
    }
    for (pieces, taken, wrong) in CLIENT_ROWS {
        let found = wrong_at_client(alloc, pieces, lends)?;
        compare(alloc, &found, taken, wrong)?;
    }
    Ok(())
}

#[test]
fn what_is_wrong_is_said(rt: HostRuntime) -> Result<(), Fail> {
    check_rows(rt.alloc(), false)
}

#[test]
fn what_is_wrong_is_said_by_an_end_that_lends(rt: HostRuntime) -> Result<(), Fail> {
    check_rows(rt.alloc(), true)
}
