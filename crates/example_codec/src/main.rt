//! The codec alone: reads a frame that comes in two pieces, and writes the frame that answers it.
//!
//! `amqp_frame` splits a stream into frames, and `amqp_method` reads and writes the method in a frame. Neither keeps a
//! connection: the ends of `amqp_core` do.
#![tactic(auto)]

use amqp_frame::{FrameKind, Splitter, begin_frame, finish_frame};
use amqp_method::{Arg, Kind, Method, read_method, write_method};
use anyhow::{Result, bail, ensure};
use std::alloc::Global;

/// The longest frame that either end takes, in octets.
const FRAME_MAX: u32 = 4096;

/// What a client writes on channel 1 to declare the queue `orders`, as two reads may bring it.
const PIECES: [&[u8]; 2] = [
    b"\x01\x00\x01\x00\x00\x00\x12\x00\x32\x00\x0a\x00\x00\x06or",
    b"ders\x02\x00\x00\x00\x00\xce",
];

fn main(rt: HostRuntime) -> Result<()> {
    let alloc = rt.alloc();
    let mut splitter = Splitter::new(alloc, FRAME_MAX);
    for piece in PIECES {
        // A feed stops at the end of a frame. Had the piece more octets than were taken, the rest would be fed next.
        let fed = splitter.feed(piece)?;
        println!(rt; "{} octets taken", fed.taken)?;
        let Some(frame) = fed.frame else {
            continue;
        };
        let declare = read_method(alloc, &frame.payload)?;
        println!(rt; "{} on channel {}: {declare}", frame.kind, frame.channel)?;
        let answer = answer_to(alloc, &declare)?;
        let octets = frame_of(alloc, frame.channel, &answer)?;
        println!(rt; "answered by {answer}")?;
        println!(rt; "{}", hex::encode(alloc, &octets)?)?;
    }
    Ok(())
}

/// What a server answers once it has declared the queue: its name, and that it holds no messages and has no consumers.
fn answer_to(alloc: Global, declare: &Method) -> Result<Method> {
    let Some(Arg::ShortStr(queue)) = declare.arg("queue") else {
        bail!("no queue is named");
    };
    let args = vec![in alloc; Arg::ShortStr(queue.copy()?), Arg::Long(0), Arg::Long(0)]?;
    Ok(Method::try_new(Kind::QueueDeclareOk, args)?)
}

/// The octets of the frame that carries a method.
fn frame_of(alloc: Global, channel: u16, method: &Method) -> Result<Vec<u8>> {
    let mut octets = Vec::new(alloc);
    let start = begin_frame(FrameKind::Method, channel, &mut octets)?;
    write_method(method, &mut octets)?;
    // The octet that ends the frame is still to come.
    ensure!(octets.len() < FRAME_MAX as usize, "longer than a frame");
    finish_frame(start, &mut octets)?;
    Ok(octets)
}
