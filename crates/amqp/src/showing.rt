//! The subcommand `show`.
use crate::input::read_octets;
use crate::printing::{Stop, finish};
use amqp_command::Start;
use amqp_frame::{OutOfMemory, PROTOCOL_HEADER, RawFrame};
use amqp_text::statuses::{DONE, FAULT};
use amqp_text::{Ending, Listing, frame_line, list, payload_line};
use std::alloc::Global;
use std::io::{self, Read, Write};

/// Reads hexadecimal to its end, prints a line for the protocol header if the octets start with it, a line for each
/// frame, one below it for a method or a header, and one for what ends them otherwise, and answers the exit status.
pub fn show<R: Read, W: Write>(alloc: Global, start: Start, input: &mut R, output: &mut W) -> u8 {
    let run = match read_octets(alloc, input) {
        Ok(octets) => print_owned(alloc, start, octets, output),
        Err(fault) => Err(Stop::from(fault)),
    };
    finish(run, output)
}

/// Prints what the octets are, and lets them go.
fn print_owned<W: Write>(
    alloc: Global,
    start: Start,
    octets: Vec<u8>,
    output: &mut W,
) -> Result<u8, Stop> {
    let run = match start {
        Start::Frame => print_frames(alloc, &octets, 0, output),
        Start::ProtocolHeader => print_client(alloc, &octets, output),
    };
    drop(octets);
    run
}

/// Prints what a client's octets are, the protocol header before all.
fn print_client<W: Write>(alloc: Global, octets: &[u8], output: &mut W) -> Result<u8, Stop> {
    if octets.is_empty() {
        return Ok(DONE);
    }
    let Some(frames) = octets.strip_prefix(&PROTOCOL_HEADER) else {
        print_no_header(octets, output)?;
        return Ok(FAULT);
    };
    writeln!(output, "protocol header AMQP 0-9-1")?;
    print_frames(alloc, frames, PROTOCOL_HEADER.len() as u64, output)
}

/// Prints where octets stop being the protocol header.
fn print_no_header<W: Write>(octets: &[u8], output: &mut W) -> io::Result<()> {
    let same = octets
        .iter()
        .zip(PROTOCOL_HEADER.iter())
        .take_while(|(octet, wanted)| *octet == *wanted)
        .count();
    if same == octets.len() {
        writeln!(output, "rest {same}")
    } else {
        writeln!(output, "fault protocol-header at {same}")
    }
}

/// Prints the frames of octets before which so many others stood.
fn print_frames<W: Write>(
    alloc: Global,
    octets: &[u8],
    before: u64,
    output: &mut W,
) -> Result<u8, Stop> {
    match list(alloc, octets) {
        Ok(listing) => {
            let run = print_listing(alloc, &listing, before, output);
            drop(listing);
            run
        }
        Err(OutOfMemory) => Err(Stop::OutOfMemory),
    }
}

fn print_listing<W: Write>(
    alloc: Global,
    listing: &Listing,
    before: u64,
    output: &mut W,
) -> Result<u8, Stop> {
    let mut status = DONE;
    for frame in &listing.frames {
        let printed = print_frame(alloc, frame, output)?;
        status = status.max(printed);
    }
    let ended = print_ending(listing.end, before, output)?;
    Ok(status.max(ended))
}

/// Prints a frame's line, and the one below it, and answers the status of a run of this frame alone.
fn print_frame<W: Write>(alloc: Global, frame: &RawFrame, output: &mut W) -> Result<u8, Stop> {
    let line = frame_line(alloc, frame)?;
    writeln!(output, "{line}")?;
    let Some(below) = payload_line(alloc, frame)? else {
        return Ok(DONE);
    };
    let text = &below.text;
    writeln!(output, "{text}")?;
    Ok(if below.is_fault { FAULT } else { DONE })
}

fn print_ending<W: Write>(end: Ending, before: u64, output: &mut W) -> io::Result<u8> {
    match end {
        Ending::Whole => return Ok(DONE),
        Ending::Rest(length) => writeln!(output, "rest {length}")?,
        Ending::Fault(fault) => {
            let number = fault.kind.number();
            let at = before.saturating_add(fault.at);
            writeln!(output, "fault {number} at {at}")?;
        }
    }
    Ok(FAULT)
}
