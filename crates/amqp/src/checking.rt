//! The subcommand `check`.
ghost use Rattle.std.specs.Prelude.{◌<◌, ◌≤◌, length, IfOk};

use crate::input::read_octets;
use crate::printing::{Stop, finish, print_fault};
use crate::sessions::{client_end, server_end};
use amqp_command::Limits;
use amqp_core::{End, Event, Role, Side, Taken};
use amqp_text::print_event;
use amqp_text::statuses::{DONE, FAULT};
use std::alloc::Global;
use std::io::{Read, Write};

/// Reads hexadecimal to its end: the octets that the other end of a client or of a server writes. Feeds them to an end
/// of that side, prints its events and what it has to write, and answers the exit status. What was wrong with octets at
/// fault is said beside, in one line of `errors`.
pub fn check_side<I: Read, W: Write, E: Write>(
    alloc: Global,
    side: Side,
    limits: Limits,
    input: &mut I,
    output: &mut W,
    errors: &mut E,
) -> u8 {
    let run = match read_octets(alloc, input) {
        Ok(octets) => check_octets(alloc, side, limits, octets, output, errors),
        Err(fault) => Err(Stop::from(fault)),
    };
    finish(run, output)
}

fn check_octets<W: Write, E: Write>(
    alloc: Global,
    side: Side,
    limits: Limits,
    octets: Vec<u8>,
    output: &mut W,
    errors: &mut E,
) -> Result<u8, Stop> {
    let run = match side {
        Side::Client => check_client(alloc, limits, &octets, output, errors),
        Side::Server => check_server(alloc, limits, &octets, output, errors),
    };
    drop(octets);
    run
}

fn check_client<W: Write, E: Write>(
    alloc: Global,
    limits: Limits,
    octets: &[u8],
    output: &mut W,
    errors: &mut E,
) -> Result<u8, Stop> {
    let end = client_end(alloc, limits)?;
    check_owned(alloc, end, octets, output, errors)
}

fn check_server<W: Write, E: Write>(
    alloc: Global,
    limits: Limits,
    octets: &[u8],
    output: &mut W,
    errors: &mut E,
) -> Result<u8, Stop> {
    let end = server_end(alloc, limits)?;
    check_owned(alloc, end, octets, output, errors)
}

/// Checks the octets with an end, and lets it go.
fn check_owned<R: Role, W: Write, E: Write>(
    alloc: Global,
    mut end: End<R>,
    octets: &[u8],
    output: &mut W,
    errors: &mut E,
) -> Result<u8, Stop> {
    let run = check(alloc, &mut end, octets, output);
    say_blame(&end, errors);
    drop(end);
    run
}

/// Says what was wrong, if anything was. A line that can't be written is dropped: the printed lines and the exit status
/// say enough.
fn say_blame<R: Role, E: Write>(end: &End<R>, errors: &mut E) {
    if let Some(blame) = end.blame() {
        let _ = writeln!(errors, "amqp: {blame}");
    }
}

/// Feeds all octets to the end, and prints what comes of them.
fn check<R: Role, W: Write>(
    alloc: Global,
    end: &mut End<R>,
    octets: &[u8],
    output: &mut W,
) -> Result<u8, Stop> {
    print_output(alloc, end, output)?;
    match print_events(alloc, end, octets, output) {
        Err(Stop::Core(fault)) => {
            print_fault(fault, output)?;
            print_output(alloc, end, output)?;
            Ok(FAULT)
        }
        run => run,
    }
}

fn print_events<R: Role, W: Write>(
    alloc: Global,
    end: &mut End<R>,
    octets: &[u8],
    output: &mut W,
) -> Result<u8, Stop> {
    let mut rest = octets;
    while !rest.is_empty() {
        let taken = print_next(alloc, end, rest, output)?;
        rest = &rest[taken..];
    }
    print_rest(end.pending(), output)
}

/// Feeds octets to the end, up to the end of a frame, and prints what comes of them. It answers how many the end took.
fn print_next<R: Role, W: Write>(
    alloc: Global,
    end: &mut End<R>,
    piece: &[u8],
    output: &mut W,
) -> Result<usize, Stop>
    requires { 0 < length piece.now }
    ensures within { IfOk result (λ octets. octets ≤ length piece.now) }
    ensures some { IfOk result (λ octets. 0 < octets) }
{
    match end.feed(piece) {
        Ok(taken) => {
            let Taken { octets, event } = taken;
            print_reported(alloc, end, event, output)?;
            Ok(octets)
        }
        Err(fault) => Err(Stop::Core(fault)),
    }
}

/// Prints an event that the end reports, if it does, and what it has to write then.
fn print_reported<R: Role, W: Write>(
    alloc: Global,
    end: &mut End<R>,
    event: Option<Event>,
    output: &mut W,
) -> Result<(), Stop> {
    let Some(event) = event else {
        return Ok(());
    };
    let printed = print_event(&event, output);
    drop(event);
    printed?;
    print_output(alloc, end, output)
}

/// Prints what the end has to write, if it has anything. It counts as written then.
fn print_output<R: Role, W: Write>(
    alloc: Global,
    end: &mut End<R>,
    output: &mut W,
) -> Result<(), Stop> {
    let waiting = end.output();
    let length = waiting.len();
    if length == 0 {
        return Ok(());
    }
    let text = hex::encode(alloc, waiting)?;
    writeln!(output, "> {text}")?;
    end.wrote(length);
    Ok(())
}

/// Prints how many octets of a frame that isn't whole, or of the protocol header, stand at the end of the input.
fn print_rest<W: Write>(pending: usize, output: &mut W) -> Result<u8, Stop> {
    if pending == 0 {
        return Ok(DONE);
    }
    writeln!(output, "rest {pending}")?;
    Ok(FAULT)
}
