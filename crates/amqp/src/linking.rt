//! The subcommand `link`: a script of what is done with pairs of ends, and what was sent and acted on in each life.
use crate::hellos::{client_config, server_config};
use crate::input::read_all;
use crate::printing::{Stop, finish};
use crate::scripts::{Count, Line, LineFault, line_of};
use amqp_command::{Gates, Limits};
use amqp_core::{Ask, Side};
use amqp_link::{Control, Direction, Life, Link, LinkFault, Step};
use amqp_text::statuses::{DONE, FAULT};
use std::alloc::Global;
use std::io::{Read, Write};

/// Reads a script to its end and does what its lines say, with ends of which these are gated. Prints the refusals, and
/// then a line for each life and direction, and answers the exit status.
pub fn link<I: Read, W: Write>(
    alloc: Global,
    limits: Limits,
    gates: Gates,
    input: &mut I,
    output: &mut W,
) -> u8 {
    let run = match read_all(alloc, input) {
        Ok(script) => run_script(alloc, limits, gates, script, output),
        Err(fault) => Err(Stop::from(fault)),
    };
    finish(run, output)
}

fn run_script<W: Write>(
    alloc: Global,
    limits: Limits,
    gates: Gates,
    script: Vec<u8>,
    output: &mut W,
) -> Result<u8, Stop> {
    let run = run_with_link(alloc, limits, gates, &script, output);
    drop(script);
    run
}

fn link_of(alloc: Global, limits: Limits, gates: Gates) -> Result<Link, Stop> {
    let mut client = client_config(alloc, limits)?;
    client.gated = gates.client;
    match server_config(alloc, limits) {
        Ok(mut server) => {
            server.gated = gates.server;
            Ok(Link::new(alloc, client, server)?)
        }
        Err(fault) => {
            drop(client);
            Err(Stop::from(fault))
        }
    }
}

fn run_with_link<W: Write>(
    alloc: Global,
    limits: Limits,
    gates: Gates,
    script: &[u8],
    output: &mut W,
) -> Result<u8, Stop> {
    let mut link = link_of(alloc, limits, gates)?;
    let run = run_lines(alloc, &mut link, script, output);
    drop(link);
    run
}

fn run_lines<W: Write>(
    alloc: Global,
    link: &mut Link,
    script: &[u8],
    output: &mut W,
) -> Result<u8, Stop> {
    for (index, line) in script.split(|octet| *octet == b'\n').enumerate() {
        if !run_line(alloc, link, line, index.saturating_add(1), output)? {
            return Ok(FAULT);
        }
    }
    print_tally(link, output)?;
    Ok(DONE)
}

/// Does what a line says, and answers whether the script goes on: it ends at a line that is no step.
fn run_line<W: Write>(
    alloc: Global,
    link: &mut Link,
    line: &[u8],
    number: usize,
    output: &mut W,
) -> Result<bool, Stop> {
    match line_of(alloc, line) {
        Ok(line) => {
            print_refused(act(link, line), number, output)?;
            Ok(true)
        }
        Err(LineFault::NotStep) => {
            writeln!(output, "line {number}: not a step")?;
            Ok(false)
        }
        Err(LineFault::OutOfMemory) => Err(Stop::OutOfMemory),
    }
}

fn print_refused<W: Write>(
    done: Result<(), LinkFault>,
    line: usize,
    output: &mut W,
) -> Result<(), Stop> {
    match done {
        Ok(()) => {}
        Err(LinkFault::OutOfMemory) => return Err(Stop::OutOfMemory),
        Err(LinkFault::Ask(fault)) => {
            let reason = fault.number();
            writeln!(output, "line {line}: refused 3.{reason}")?;
        }
        Err(fault) => {
            let reason = fault.number();
            writeln!(output, "line {line}: refused {reason}")?;
        }
    }
    Ok(())
}

fn act(link: &mut Link, line: Line) -> Result<(), LinkFault> {
    match line {
        Line::Nothing => Ok(()),
        Line::Begin => link.step(&Step::Begin),
        Line::Shake(connection) => shake(link, connection),
        Line::Ask(connection, side, ask) => ask_side(link, connection, side, ask),
        Line::Control(connection, side, control) => control_side(link, connection, side, control),
        Line::Carry(connection, direction, count) => carry(link, connection, direction, count),
        Line::Drop(connection, side) => link.step(&Step::Drop(connection, side)),
    }
}

fn ask_side(link: &mut Link, connection: usize, side: Side, ask: Ask) -> Result<(), LinkFault> {
    do_step(link, Step::Ask(connection, side, ask))
}

fn control_side(
    link: &mut Link,
    connection: usize,
    side: Side,
    control: Control,
) -> Result<(), LinkFault> {
    do_step(link, Step::Control(connection, side, control))
}

/// Does a step, and lets it go.
fn do_step(link: &mut Link, step: Step) -> Result<(), LinkFault> {
    let done = link.step(&step);
    drop(step);
    done
}

fn carry(
    link: &mut Link,
    connection: usize,
    direction: Direction,
    count: Count,
) -> Result<(), LinkFault> {
    let octets = match count {
        Count::All => link.waiting(connection, direction),
        Count::Octets(octets) => octets,
    };
    link.step(&Step::Carry(connection, direction, octets))
}

/// All octets are carried six times, in turn. The first carry that is refused ends it.
fn shake(link: &mut Link, connection: usize) -> Result<(), LinkFault> {
    for _ in 0..3 {
        carry(link, connection, Direction::ToServer, Count::All)?;
        carry(link, connection, Direction::ToClient, Count::All)?;
    }
    Ok(())
}

fn direction_text(direction: Direction) -> &'static str {
    match direction {
        Direction::ToServer => "to-server",
        Direction::ToClient => "to-client",
    }
}

fn print_tally<W: Write>(link: &Link, output: &mut W) -> Result<(), Stop> {
    let Ok(tally) = link.tally() else {
        return Err(Stop::OutOfMemory);
    };
    for (life, direction, sent, acted) in tally.iter().copied() {
        print_life(life, direction, sent, acted, output)?;
    }
    Ok(())
}

/// Connections are numbered from 1 here.
fn print_life<W: Write>(
    life: Life,
    direction: Direction,
    sent: usize,
    acted: usize,
    output: &mut W,
) -> Result<(), Stop> {
    let connection = life.connection.saturating_add(1);
    let Life {
        channel,
        number,
        ..
    } = life;
    let way = direction_text(direction);
    writeln!(
        output,
        "{connection}.{channel}.{number} {way} sent {sent} acted {acted}"
    )?;
    Ok(())
}
