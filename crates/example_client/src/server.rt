//! What stands in for a server: its frames, one for each read.
use amqp_io::{Answer, Script};
use anyhow::Result;
use std::alloc::Global;

/// The frames of a server: start, tune, open-ok, channel.open-ok and close-ok.
const FRAMES: [&str; 5] = [
    "0100000000001c000a000a00090000000000000005504c41494e00000005656e5f5553ce",
    "0100000000000c000a001e07ff000200000000ce",
    "01000000000005000a002900ce",
    "010001000000080014000b00000000ce",
    "01000000000004000a0033ce",
];

/// A stream that gives these frames, each after a write. A write takes all octets.
pub fn script(alloc: Global) -> Result<Script> {
    let mut octets = Vec::new(alloc);
    let mut answers = Vec::new(alloc);
    for frame in FRAMES {
        let frame = hex::decode(alloc, frame)?;
        answers.push(Answer::Octets(usize::MAX))?;
        answers.push(Answer::Octets(frame.len()))?;
        octets.extend_from_slice(&frame)?;
    }
    Ok(Script::new(octets, answers))
}
