//! What an end hands over to a queue, and the pieces that the queue lends.
use crate::messages::message;
use crate::octets::octets_of;
use crate::pairs::{DEFAULT, Pair};
use crate::scripts::AT_ONCE;
use amqp_core::{Client, HandOverFault, SendQueue, StreamEnd};
use std::alloc::Global;
use std::test::Fail;

/// A client that lends, after the lines of a script.
pub(crate) fn client_after(alloc: Global, lines: &str) -> Result<StreamEnd<Client>, Fail> {
    let mut pair = Pair::new(alloc, DEFAULT)?;
    let followed = pair.follow(alloc, AT_ONCE, "the way to a state", lines);
    let Pair { client, server } = pair;
    drop(server);
    let client = client.into_stream();
    match followed {
        Ok(()) => Ok(client),
        Err(fail) => {
            drop(client);
            Err(fail)
        }
    }
}

/// Sends a method on a channel, with an empty content if it has one, and hands it over.
fn send(
    alloc: Global,
    client: &mut StreamEnd<Client>,
    channel: u16,
    method: &str,
    queue: &mut SendQueue,
) -> Result<(), Fail> {
    let method = octets_of(alloc, &[method])?;
    let message = message(alloc, &method, b"", 0)?;
    let sent = client.send(channel, &message);
    drop(message);
    sent?;
    client.hand_over(queue)?;
    Ok(())
}

/// Whether the pieces of a queue have these octets, one after another.
fn lends(alloc: Global, queue: &SendQueue, pieces: &[&[&str]]) -> Result<bool, Fail> {
    let mut lent = queue.pieces();
    for words in pieces.iter().copied() {
        let octets = octets_of(alloc, words)?;
        if lent.next_piece() != Some(octets.as_slice()) {
            return Ok(false);
        }
    }
    Ok(lent.next_piece().is_none())
}

/// The first octets of a queue are written, so many.
fn write(queue: &mut SendQueue, octets: usize) -> Result<(), Fail> {
    if queue.waiting_in_all() < octets {
        return Err("fewer octets wait".into());
    }
    queue.wrote(octets);
    Ok(())
}

/// A client hands over a content, of which five octets are written, and then a method of another channel.
fn hand_over_two(
    alloc: Global,
    client: &mut StreamEnd<Client>,
    queue: &mut SendQueue,
) -> Result<(), Fail> {
    send(alloc, client, 1, "basic.publish", queue)?;
    if !client.output().is_empty() {
        return Err("the end kept what it handed over".into());
    }
    if !lends(alloc, queue, &[&["basic.publish/1"], &["header/1"]])? {
        return Err("other pieces".into());
    }
    write(queue, 5)?;
    send(alloc, client, 2, "tx.select", queue)
}

/// Five octets of the frame of publish are written before tx.select is put: the frame stays first, and the header of
/// its content comes after the other channel's turn.
#[test]
fn frames_in_a_queue_take_turns(rt: HostRuntime) -> Result<(), Fail> {
    let alloc = rt.alloc();
    let mut client = client_after(alloc, "both open 2")?;
    let mut queue = SendQueue::new(alloc);
    let handed = hand_over_two(alloc, &mut client, &mut queue);
    drop(client);
    handed?;
    let rest: [&[&str]; 3] = [
        &["000a", "basic.publish", "ce"],
        &["tx.select/2"],
        &["header/1"],
    ];
    assert!(rt; lends(alloc, &queue, &rest)?, "other pieces after a write");
    Ok(())
}

/// What is left of the protocol header can't be handed over, and once it is written nothing is left.
#[test]
fn a_header_is_written_first(rt: HostRuntime) -> Result<(), Fail> {
    let alloc = rt.alloc();
    let mut client = client_after(alloc, "client waits all -> 8")?;
    let mut queue = SendQueue::new(alloc);
    let begun = client.hand_over(&mut queue);
    let all = client.waiting_in_all();
    client.wrote(all);
    let handed = client.hand_over(&mut queue);
    drop(client);
    assert!(rt; all == 8);
    assert!(rt; begun == Err(HandOverFault::Begun));
    assert!(rt; handed == Ok(()));
    assert!(rt; queue.waiting_in_all() == 0);
    Ok(())
}
