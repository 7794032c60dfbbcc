//! Asks that are refused, each with the first reason that applies, and what is put beside them.
use crate::octets::octets_of;
use crate::pairs::{DEFAULT, ONE_CHANNEL, Pair, SMALL_FRAMES};
use crate::scripts::{AT_ONCE, run, run_all};
use amqp_core::{AskFault, Client, End};
use amqp_method::{Properties, read_method};
use std::alloc::Global;
use std::test::Fail;

static SCRIPTS: [&str; 7] = [
    "not running yet
     client asks open -> 1 NotRunning
     client asks send 0 queue.declare -> 1 NotRunning
     client asks flow 1 on -> 1 NotRunning
     client asks close-channel 1 -> 1 NotRunning
     client asks close -> 1 NotRunning
     client asks blocked -> 1 NotRunning
     client asks unblocked -> 1 NotRunning
     client shows protocol-header
     server asks open -> 1 NotRunning
     server asks close -> 1 NotRunning
     server asks blocked -> 1 NotRunning
     server asks unblocked -> 1 NotRunning
     server shows nothing",
    "not running any more
     both open 1
     server asks close -> put
     server asks flow 1 on -> 1 NotRunning
     server asks close -> 1 NotRunning
     server carries all
     client asks send 1 tx.select -> 1 NotRunning
     client asks close -> 1 NotRunning",
    // Channel 2 is opening, and channel 1 is closing at the end.
    "no such channel, or not open
     both open 1
     client asks send 0 queue.declare-ok -> 2 BadChannel
     client asks send 2048 queue.declare -> 2 BadChannel
     client asks flow 0 on -> 2 BadChannel
     client asks close-channel 2048 -> 2 BadChannel
     client asks send 2047 queue.declare-ok -> 3 NotOpen
     client asks flow 2 on -> 3 NotOpen
     client asks close-channel 2 -> 3 NotOpen
     client shows nothing
     client asks open -> channel 2
     client asks send 2 queue.declare -> 3 NotOpen
     client asks close-channel 2 -> 3 NotOpen
     client loses 13
     client asks close-channel 1 -> put
     client asks send 1 queue.declare -> 3 NotOpen
     client asks flow 1 on -> 3 NotOpen
     client asks close-channel 1 -> 3 NotOpen
     client shows channel.close/1",
    // The client is paused until the server asks for contents again.
    "a paused client
     both open 1
     server asks flow 1 off -> put
     client asks send-content 1 basic.publish 0 -> put
     client carries all
     server carries all
     server asks flow 1 on -> 7 FlowPending
     client asks send-content 1 basic.publish 0 -> 4 Paused
     client asks send-content 1 basic.deliver 0 -> 4 Paused
     client asks send 1 tx.select -> put
     client carries all
     server asks flow 1 on -> put
     server asks flow 1 on -> 7 FlowPending
     server carries all
     client asks send-content 1 basic.deliver 0 -> 5 NotSendable
     client asks send-content 1 basic.publish 0 -> put",
    "a paused server answers basic.get with a content
     both open 1
     client asks flow 1 off -> put
     client asks flow 1 on -> 7 FlowPending
     client asks send 1 basic.get -> put
     client carries all
     server asks send-content 1 basic.deliver 0 -> 4 Paused
     server asks send-content 1 basic.get-ok 0 -> put",
    "not sendable
     both open 1
     client asks send 1 queue.declare-ok -> 5 NotSendable
     client asks send-content 1 basic.deliver 0 -> 5 NotSendable
     client asks send 1 connection.close-ok -> 5 NotSendable
     client asks send 1 channel.flow-ok -> 5 NotSendable
     client asks blocked -> 5 NotSendable
     client asks unblocked -> 5 NotSendable
     client shows nothing
     server asks open -> 5 NotSendable
     server asks send-content 1 basic.publish 0 -> 5 NotSendable
     server asks send 1 tx.select -> 5 NotSendable
     server asks send 1 connection.close-ok -> 5 NotSendable
     server asks send 1 channel.flow-ok -> 5 NotSendable
     server shows nothing",
    "a reply pending, or to no request
     both open 1
     server asks send 1 queue.declare-ok -> 11 NoSuchRequest
     server shows nothing
     client asks send 1 queue.declare -> put
     client asks send 1 tx.select -> 10 ReplyPending
     client asks send 1 basic.ack -> put
     client carries all
     server asks send 1 tx.select-ok -> 11 NoSuchRequest
     server asks send 1 queue.declare-ok -> put
     server asks send 1 queue.declare-ok -> 11 NoSuchRequest",
];

static SCRIPT_OF_SMALL_FRAMES: &str = "too large
     both open 1
     client asks send-padded 1 too-long-declare 4069 -> 6 TooLarge
     client asks send-headers 1 too-long-table 4064 -> 6 TooLarge
     client shows nothing
     client asks send-padded 1 longest-declare 4068 -> put
     client asks send-padded 1 too-long-declare 4069 -> 6 TooLarge
     client asks send-padded 1 longest-declare 4068 -> 10 ReplyPending
     client asks send-headers 1 longest-table 4063 -> put
     client begins 01000100000ff8 longest-declare
     client loses 4095
     client begins ce basic.publish/1 longest-header longest-table
     client loses 4114
     client shows ce";

/// There is one channel, whose number is kept until close-ok.
static SCRIPT_OF_ONE_CHANNEL: &str = "no free channel
     both open 1
     client asks open -> 8 NoFreeChannel
     client asks send 2 tx.select -> 2 BadChannel
     client asks close-channel 1 -> put
     client carries all
     client asks open -> 8 NoFreeChannel
     server carries all
     client asks open -> channel 1";

#[test]
fn asks_are_refused(rt: HostRuntime) -> Result<(), Fail> {
    run_all(rt.alloc(), DEFAULT, &SCRIPTS)?;
    run(rt.alloc(), SMALL_FRAMES, SCRIPT_OF_SMALL_FRAMES)?;
    run(rt.alloc(), ONE_CHANNEL, SCRIPT_OF_ONE_CHANNEL)
}

/// Whether a content is refused after a method that none follows, and nothing is put.
fn refuses_content(alloc: Global, client: &mut End<Client>, method: &str) -> Result<bool, Fail> {
    let octets = octets_of(alloc, &[method])?;
    let method = read_method(alloc, &octets)?;
    let before = client.waiting_in_all();
    let answer = client.send_content(1, &method, &Properties::default(), b"abc");
    Ok(answer == Err(AskFault::NotSendable) && client.waiting_in_all() == before)
}

/// Whether it is so before the handshake, and on an open channel.
fn refuses_always(alloc: Global, pair: &mut Pair) -> Result<bool, Fail> {
    let early = refuses_content(alloc, &mut pair.client, "tx.select")?;
    pair.follow(alloc, AT_ONCE, "a content after tx.select", "both open 1")?;
    let later = refuses_content(alloc, &mut pair.client, "tx.select")?;
    Ok(early && later)
}

/// No content follows a method that has none.
#[test]
fn contents_of_other_methods_are_refused(rt: HostRuntime) -> Result<(), Fail> {
    let alloc = rt.alloc();
    let mut pair = Pair::new(alloc, DEFAULT)?;
    let refused = refuses_always(alloc, &mut pair);
    drop(pair);
    assert!(rt; refused?);
    Ok(())
}
