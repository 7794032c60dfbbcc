//! What is done with a link.
ghost use Rattle.std.specs.Prelude.{Some};
ghost use Rattle.std.specs.Fmt.{WritesOnOk};
ghost use Rattle.amqp_link.specs.StepTexts.{way_text, place_text, asked_text, step_text};

use crate::controls::Control;
use amqp_core::{Ask, Side};
use std::fmt;

/// Which way octets go on a connection.
#[derive(Clone, Copy, PartialEq, Eq, Debug)]
pub enum Direction {
    ToServer,
    ToClient,
}

impl Direction {
    ghost use Rattle.std.specs.Prelude.{◌≡◌};
    ghost use Rattle.amqp_core.specs.Roles.{role_of};
    ghost use Rattle.amqp_link.specs.ConnectionSteps.{reading_role};

    /// The side that reads.
    pub fn reader(self) -> Side
        ensures { role_of result ≡ reading_role self }
    {
        match self {
            Direction::ToServer => Side::Server,
            Direction::ToClient => Side::Client,
        }
    }
}

/// What is done with a link. Connections are numbered from 0, in the order in which they began.
#[derive(Debug, Drop, PartialEq, Eq)]
pub enum Step {
    /// A connection of a new client and a new server begins.
    Begin,
    /// The application of one side of a connection asks something of its end.
    Ask(usize, Side, Ask),
    /// The application of one side of a connection puts a heartbeat, or decides in the handshake.
    Control(usize, Side, Control),
    /// So many of the octets that wait are fed to the end that reads them, in order.
    Carry(usize, Direction, usize),
    /// One side of a connection is dropped: its end takes and asks nothing more. What it has written can still be
    /// carried.
    Drop(usize, Side),
}

/// Prints `to-server` or `to-client`.
impl fmt::Display for Direction {
    ghost output = { λ direction. Some (way_text direction) };

    fn fmt<W: fmt::Write>(&self, f: &mut fmt::Formatter<W>) -> fmt::Result {
        f.write_str(match self {
            Direction::ToServer => "to-server",
            Direction::ToClient => "to-client",
        })
    }
}

/// A word, and a connection as a script numbers it, from 1.
fn write_place<W: fmt::Write>(
    f: &mut fmt::Formatter<W>,
    word: &str,
    connection: usize,
) -> fmt::Result
    ensures { WritesOnOk W.write_str_gives f.old result (place_text word.now connection) f.new }
{
    let number = connection as u128 + 1;
    write!(f, "{word} {number}")
}

/// An ask as a script has it: texts stand without quotes.
fn write_asked<W: fmt::Write>(f: &mut fmt::Formatter<W>, ask: &Ask) -> fmt::Result
    ensures { WritesOnOk W.write_str_gives f.old result (asked_text ask.now) f.new }
{
    match ask {
        Ask::CloseChannel(channel, code, text) => {
            write!(f, "close-channel {channel} {code} {text}")
        }
        Ask::Close(code, text) => write!(f, "close {code} {text}"),
        Ask::Blocked(reason) => write!(f, "blocked {reason}"),
        _ => write!(f, "{ask}"),
    }
}

/// Prints the step as a line of a script that `amqp link` reads: `carry 1 to-server 30`, `ask 2 client close 200 bye`.
/// Two kinds of asks print what a script doesn't say in these words: a message prints as its own text, as it does in an
/// [`Ask`], and a text that isn't one word of printable ASCII prints with its other octets escaped.
impl fmt::Display for Step {
    ghost output = { λ step. Some (step_text step) };

    fn fmt<W: fmt::Write>(&self, f: &mut fmt::Formatter<W>) -> fmt::Result {
        match self {
            Step::Begin => f.write_str("begin"),
            Step::Ask(connection, side, ask) => {
                write_place(f, "ask", *connection)?;
                write!(f, " {side} ")?;
                write_asked(f, ask)
            }
            Step::Control(connection, side, control) => {
                write_place(f, "ask", *connection)?;
                write!(f, " {side} {control}")
            }
            Step::Carry(connection, direction, octets) => {
                write_place(f, "carry", *connection)?;
                write!(f, " {direction} {octets}")
            }
            Step::Drop(connection, side) => {
                write_place(f, "drop", *connection)?;
                write!(f, " {side}")
            }
        }
    }
}
