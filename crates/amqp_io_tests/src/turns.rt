//! Messages that wait for their turn on a channel of a client.
use crate::ends::client;
use crate::octets::{digits, octets_of};
use crate::steps::assert_text;
use amqp_core::{AskFault, Client, End};
use amqp_method::{Arg, Kind, Message, Method, Properties};
use amqp_turns::Turns;
use amqp_value::ShortStr;
use std::alloc::Global;
use std::process::Abort;
use std::test::Fail;

/// basic.qos of one message, and of two.
const QOS_1: &str = "0100010000000b003c000a00000000000100ce";

const QOS_2: &str = "0100010000000b003c000a00000000000200ce";

const QOS_OK: &str = "01000100000004003c000bce";
/// basic.publish to the default exchange with the key `q`, and the header of a content of no octets.
const PUBLISH: &str =
    "0100010000000a003c0028000000017100ce 0200010000000e003c000000000000000000000000ce";

const PAUSE: &str = "010001000000050014001400ce";

const GO_ON: &str = "010001000000050014001401ce";

const PAUSED_AND_GOING: &str = "010001000000050014001500ce 010001000000050014001501ce";

/// Feeds an end the octets that these words stand for.
pub(crate) fn feed(alloc: Global, end: &mut End<Client>, words: &str) -> Result<(), Fail> {
    let octets = octets_of(alloc, words)?;
    let mut rest = octets.as_slice();
    for _ in 0..20 {
        if rest.is_empty() {
            break;
        }
        let taken = end.feed(rest)?;
        rest = &rest[taken.octets..];
    }
    Ok(())
}

/// The handshake, and a channel that is opened; all is written.
fn run(alloc: Global, end: &mut End<Client>) -> Result<(), Fail> {
    feed(alloc, end, "start tune open-ok")?;
    end.open_channel()?;
    feed(alloc, end, "channel-opened")?;
    let waiting = end.output().len();
    end.wrote(waiting);
    Ok(())
}

/// basic.qos: the server may send so many messages that are not acknowledged.
pub(crate) fn qos(alloc: Global, count: u16) -> Result<Message, Fail> {
    let args = vec![in alloc; Arg::Long(0), Arg::Short(count), Arg::Bit(false)]?;
    Ok(Message::plain(Method::try_new(Kind::BasicQos, args)?))
}

/// A content of no octets, to the default exchange.
fn publish(alloc: Global) -> Result<Message, Fail> {
    let exchange = Arg::ShortStr(ShortStr::new(alloc, b"")?);
    let key = Arg::ShortStr(ShortStr::new(alloc, b"q")?);
    let args = vec![in alloc; exchange, key, Arg::Bit(false), Arg::Bit(false)]?;
    let method = Method::try_new(Kind::BasicPublish, args)?;
    Ok(Message::content(method, Properties::default(), Vec::new(alloc)))
}

pub(crate) fn assert_output(
    rt: &impl Abort,
    alloc: Global,
    end: &End<Client>,
    words: &str,
) -> Result<(), Fail> {
    let found = hex::encode(alloc, end.output())?;
    let wanted = digits(alloc, words)?;
    assert_text(rt, found.as_str(), wanted.as_str(), "output");
    Ok(())
}

fn push(turns: &mut Turns, message: Message) -> Result<(), Fail> {
    turns.push(message)?;
    Ok(())
}

fn assert_in_turn(
    rt: &impl Abort,
    alloc: Global,
    end: &mut End<Client>,
    turns: &mut Turns,
) -> Result<(), Fail> {
    run(alloc, end)?;
    push(turns, qos(alloc, 1)?)?;
    push(turns, qos(alloc, 2)?)?;
    assert!(rt; turns.advance(end) == Ok(1));
    assert!(rt; turns.advance(end) == Ok(0));
    assert!(rt; turns.len() == 1);
    assert_output(rt, alloc, end, QOS_1)?;
    let waiting = end.output().len();
    end.wrote(waiting);
    feed(alloc, end, QOS_OK)?;
    assert!(rt; turns.advance(end) == Ok(1));
    assert!(rt; turns.is_empty());
    assert_output(rt, alloc, end, QOS_2)
}

fn assert_paused(
    rt: &impl Abort,
    alloc: Global,
    end: &mut End<Client>,
    turns: &mut Turns,
) -> Result<(), Fail> {
    run(alloc, end)?;
    feed(alloc, end, PAUSE)?;
    push(turns, publish(alloc)?)?;
    push(turns, qos(alloc, 1)?)?;
    assert!(rt; turns.advance(end) == Ok(0));
    assert!(rt; turns.len() == 2);
    feed(alloc, end, GO_ON)?;
    assert!(rt; turns.advance(end) == Ok(2));
    let wanted = format!(in alloc; "{PAUSED_AND_GOING} {PUBLISH} {QOS_1}")?;
    assert_output(rt, alloc, end, wanted.as_str())
}

fn assert_refused(
    rt: &impl Abort,
    alloc: Global,
    end: &mut End<Client>,
    turns: &mut Turns,
) -> Result<(), Fail> {
    run(alloc, end)?;
    assert!(rt; turns.channel() == 7);
    assert!(rt; turns.advance(end) == Ok(0));
    push(turns, qos(alloc, 1)?)?;
    assert!(rt; turns.advance(end) == Err(AskFault::NotOpen));
    assert!(rt; turns.advance(end) == Err(AskFault::NotOpen));
    assert!(rt; turns.len() == 1);
    let taken = turns.take_next().is_some();
    assert!(rt; taken);
    assert!(rt; turns.is_empty());
    assert_output(rt, alloc, end, "-")
}

/// A request goes once the one before it is answered.
#[test]
fn requests_in_turn(rt: HostRuntime) -> Result<(), Fail> {
    let alloc = rt.alloc();
    let mut end = client(alloc)?;
    let mut turns = Turns::new(alloc, 1);
    let seen = assert_in_turn(&rt, alloc, &mut end, &mut turns);
    drop(turns);
    drop(end);
    seen
}

/// A content waits while the channel is paused, and what was pushed after it waits with it.
#[test]
fn contents_while_paused(rt: HostRuntime) -> Result<(), Fail> {
    let alloc = rt.alloc();
    let mut end = client(alloc)?;
    let mut turns = Turns::new(alloc, 1);
    let seen = assert_paused(&rt, alloc, &mut end, &mut turns);
    drop(turns);
    drop(end);
    seen
}

/// A message that is refused for another reason stays first, until it is taken out.
#[test]
fn a_message_that_cannot_go(rt: HostRuntime) -> Result<(), Fail> {
    let alloc = rt.alloc();
    let mut end = client(alloc)?;
    let mut turns = Turns::new(alloc, 7);
    let seen = assert_refused(&rt, alloc, &mut end, &mut turns);
    drop(turns);
    drop(end);
    seen
}
