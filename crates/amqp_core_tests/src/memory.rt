//! What ends answer where memory is refused. With ample memory none is; where each request is refused in turn
//! (`checks/memory/refused_calls.py`), each run ends in its own answer, or in out of memory. And what a call asks of
//! the allocator, where requests are counted between the marks (`checks/memory/count.c`, preloaded).
use crate::marking::mark;
use crate::messages::message;
use crate::octets::octets_of;
use crate::pairs::{DEFAULT, Pair, SMALL_FRAMES, Setting};
use crate::scripts::AT_ONCE;
use amqp_core::{AskFault, Client, End, Event};
use amqp_method::Message;
use std::alloc::Global;
use std::process::Abort;
use std::test::Fail;

/// Two ends, after the lines of a script. Where memory is refused on the way, the script is named.
fn pair_after(alloc: Global, setting: Setting, lines: &str) -> Result<Pair, Fail> {
    let mut pair = Pair::new(alloc, setting)?;
    match pair.follow(alloc, AT_ONCE, "setting up", lines) {
        Ok(()) => Ok(pair),
        Err(fault) => {
            drop(pair);
            Err(fault)
        }
    }
}

/// A content header of no properties on channel 1, a whole frame.
static HEADER: [u8; 22] = [
    2, 0, 1, 0, 0, 0, 14, 0, 60, 0, 0, 0, 0, 0, 0, 0, 0, 0, 0, 0, 0, 0xce,
];

/// Whether the frame is taken as a whole, and dropped on channel 1.
fn drops(client: &mut End<Client>, frame: &[u8]) -> bool {
    let Ok(taken) = client.feed(frame) else {
        return false;
    };
    let is_told = matches!(&taken.event, Some(Event::Discarded(1)));
    let is_dropped = is_told && taken.octets == frame.len();
    drop(taken);
    is_dropped
}

/// What comes after an end's own close is dropped, whatever memory there is.
#[test]
fn a_header_is_dropped_without_memory(rt: HostRuntime) -> Result<(), Fail> {
    let mut pair = pair_after(
        rt.alloc(),
        DEFAULT,
        "both open 1
         client asks close-channel 1 -> put",
    )?;
    let is_dropped = drops(&mut pair.client, &HEADER);
    drop(pair);
    assert!(rt; is_dropped, "the header was not dropped");
    println!(rt; "header: dropped")?;
    Ok(())
}

/// The length of a body, and those of the frames that it is put in where a frame has 4096 octets at most.
static CUTS: [(usize, &[usize]); 3] = [
    (4089, &[18, 22, 4096, 9]),
    (4088, &[18, 22, 4096]),
    (0, &[18, 22]),
];

/// How many octets the frame has that begins with these.
fn frame_length(octets: &[u8]) -> Option<usize> {
    let (high, low) = (*octets.get(5)?, *octets.get(6)?);
    Some(usize::from(high) * 256 + usize::from(low) + 8)
}

/// Whether octets are frames of these lengths, one after another.
fn are_frames(octets: &[u8], lengths: &[usize]) -> bool {
    let mut rest = octets;
    for length in lengths.iter().copied() {
        if frame_length(rest) != Some(length) || rest.len() < length {
            return false;
        }
        rest = &rest[length..];
    }
    rest.is_empty()
}

/// Sends a message whose frames have these lengths: whether it was put. Where memory is refused, there is nothing to
/// write.
fn send(client: &mut End<Client>, message: &Message, lengths: &[usize]) -> Result<bool, AskFault> {
    match client.send(1, message) {
        Ok(()) => Ok(are_frames(client.output(), lengths)),
        Err(AskFault::OutOfMemory) if client.output().is_empty() => Err(AskFault::OutOfMemory),
        Err(_) => Ok(false),
    }
}

/// What is said of a content that was sent, and whether it is as it should be.
fn sent(
    alloc: Global,
    client: &mut End<Client>,
    size: usize,
    lengths: &[usize],
) -> Result<&'static str, Fail> {
    let method = octets_of(alloc, &["basic.publish"])?;
    let message = message(alloc, &method, b"", size)?;
    let answer = send(client, &message, lengths);
    drop(message);
    client.wrote(client.output().len());
    match answer {
        Ok(true) => Ok("put"),
        Ok(false) => Ok("other octets"),
        Err(_) => Ok("no memory"),
    }
}

/// Sends each content, and prints what came of it.
fn send_all(
    rt: &(impl Abort + Print),
    alloc: Global,
    client: &mut End<Client>,
) -> Result<(), Fail> {
    for (size, lengths) in CUTS.iter().copied() {
        let came = sent(alloc, client, size, lengths)?;
        println!(rt; "{size}: {came}")?;
    }
    Ok(())
}

/// A message is put in its frames, or none of it is.
#[test]
fn a_content_is_put_whole_or_not(rt: HostRuntime) -> Result<(), Fail> {
    let alloc = rt.alloc();
    let mut pair = pair_after(alloc, SMALL_FRAMES, "both open 1")?;
    let came = send_all(&rt, alloc, &mut pair.client);
    drop(pair);
    came
}

/// The headers of a content: the count 4, and the pair of the name `a` and the truth value that holds.
static HEADERS: [u8; 8] = [0, 0, 0, 4, 1, b'a', b't', 1];

/// The part of the count, the length of a body, and how many octets its content has in frames: the method's 18, the
/// header's 30, and a frame of the body if it has any.
static CONTENTS: [(u8, usize, usize); 4] = [
    (0, 50_000, 50_056),
    (50, 0, 48),
    (51, 1_024, 1_080),
    (52, 50_000, 50_056),
];

/// Sends a message by its parts between the marks, and says how many octets wait then.
fn send_between(
    rt: &impl Abort,
    alloc: Global,
    part: u8,
    client: &mut End<Client>,
    message: &Message,
) -> Result<usize, Fail> {
    let Some((properties, body)) = message.content_parts() else {
        return Ok(0);
    };
    mark(rt, alloc, part)?;
    let answer = client.send_content(1, message.method(), properties, body);
    mark(rt, alloc, 0)?;
    assert!(rt; answer.is_ok());
    Ok(client.waiting(1))
}

/// Sends a content with headers and loses it, and says how many octets waited.
fn count_sent(
    rt: &impl Abort,
    alloc: Global,
    part: u8,
    client: &mut End<Client>,
    size: usize,
) -> Result<usize, Fail> {
    let method = octets_of(alloc, &["basic.publish"])?;
    let message = message(alloc, &method, &HEADERS, size)?;
    let count = send_between(rt, alloc, part, client, &message);
    drop(message);
    client.wrote(client.output().len());
    count
}

/// Sends each content, the first, which isn't counted, to make room in the output.
fn count_each(rt: &impl Abort, alloc: Global, client: &mut End<Client>) -> Result<(), Fail> {
    for (part, size, octets) in CONTENTS.iter().copied() {
        let count = count_sent(rt, alloc, part, client, size)?;
        assert!(rt; count == octets, "{size}: {count} octets");
    }
    Ok(())
}

/// Contents that are sent by their parts take room in the output, and where it is there nothing.
#[test]
fn contents_take_room_alone(rt: HostRuntime) -> Result<(), Fail> {
    let alloc = rt.alloc();
    let mut pair = pair_after(alloc, DEFAULT, "both open 1")?;
    let came = count_each(&rt, alloc, &mut pair.client);
    drop(pair);
    came
}
