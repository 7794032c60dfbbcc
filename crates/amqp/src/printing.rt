//! What the subcommands that run an end print: its events, and why a run was given up.
use crate::input::InputFault;
use amqp_core::{AskFault, ConfigFault, CoreFault};
use amqp_method::OutOfMemory;
use amqp_text::statuses::FAULT;
use std::alloc::AllocError;
use std::io::{self, Write};

/// Why a run was given up in its middle.
#[derive(Clone, Copy)]
pub enum Stop {
    /// Standard output took no more.
    NotWritten(io::Error),
    /// Standard input gave no more.
    NotGiven(io::Error),
    /// The file of the password can't be read.
    NoPassword(io::Error),
    /// This line of standard input isn't hexadecimal of whole octets.
    NotHex(usize),
    OutOfMemory,
    /// There is no end with such limits.
    Config(ConfigFault),
    /// The end refused what was asked of it.
    Refused(AskFault),
    /// The end found a fault in what came.
    Core(CoreFault),
    /// A read of the connection failed, for this reason where there is one.
    NotRead(Option<io::Error>),
    /// A write to the connection failed, likewise.
    NotSent(Option<io::Error>),
    /// The connection can't be waited for.
    NotAwaited(io::Error),
    /// No octet came or could be written for as long as the time-out.
    TimedOut,
    /// No octet came for two heartbeats.
    NoHeartbeat,
    /// The other end hung up, with so many octets of a frame that isn't whole.
    HungUp(usize),
    /// The other end hung up, with so many octets of a protocol header that isn't whole: at least 1.
    HungUpInHeader(usize),
}

impl Stop {
    /// Whether the connection failed or ended, or nothing moved on it for too long.
    pub fn is_of_connection(self) -> bool {
        match self {
            Stop::NotRead(_)
            | Stop::NotSent(_)
            | Stop::NotAwaited(_)
            | Stop::TimedOut
            | Stop::NoHeartbeat
            | Stop::HungUp(_)
            | Stop::HungUpInHeader(_) => true,
            Stop::NotWritten(_)
            | Stop::NotGiven(_)
            | Stop::NoPassword(_)
            | Stop::NotHex(_)
            | Stop::OutOfMemory
            | Stop::Config(_)
            | Stop::Refused(_)
            | Stop::Core(_) => false,
        }
    }
}

impl From<io::Error> for Stop {
    fn from(failure: io::Error) -> Stop {
        Stop::NotWritten(failure)
    }
}

impl From<InputFault> for Stop {
    fn from(fault: InputFault) -> Stop {
        match fault {
            InputFault::Read(failure) => Stop::NotGiven(failure),
            InputFault::NotHex(line) => Stop::NotHex(line),
            InputFault::OutOfMemory => Stop::OutOfMemory,
        }
    }
}

impl From<OutOfMemory> for Stop {
    fn from(_: OutOfMemory) -> Stop {
        Stop::OutOfMemory
    }
}

impl From<amqp_frame::OutOfMemory> for Stop {
    fn from(_: amqp_frame::OutOfMemory) -> Stop {
        Stop::OutOfMemory
    }
}

impl From<AllocError> for Stop {
    fn from(_: AllocError) -> Stop {
        Stop::OutOfMemory
    }
}

impl From<ConfigFault> for Stop {
    fn from(fault: ConfigFault) -> Stop {
        match fault {
            ConfigFault::OutOfMemory => Stop::OutOfMemory,
            _ => Stop::Config(fault),
        }
    }
}

impl From<AskFault> for Stop {
    fn from(fault: AskFault) -> Stop {
        match fault {
            AskFault::OutOfMemory => Stop::OutOfMemory,
            _ => Stop::Refused(fault),
        }
    }
}

/// Prints why the run was given up, if it was, and answers the exit status.
pub fn finish<W: Write>(run: Result<u8, Stop>, output: &mut W) -> u8 {
    match flushed(run, output) {
        Ok(status) => status,
        Err(stop) => {
            let _ = print_stop(stop, output);
            let _ = output.flush();
            FAULT
        }
    }
}

/// The run, where all that it printed reached the output; else that it did not.
pub fn flushed<W: Write>(run: Result<u8, Stop>, output: &mut W) -> Result<u8, Stop> {
    let status = run?;
    output.flush()?;
    Ok(status)
}

fn print_stop<W: Write>(stop: Stop, output: &mut W) -> io::Result<()> {
    match stop {
        Stop::NotWritten(_) => Ok(()),
        Stop::NotHex(line) => writeln!(output, "line {line}: not hex"),
        Stop::Config(fault) => print_number("config", u16::from(fault.number()), output),
        Stop::Core(fault) => print_fault(fault, output),
        Stop::NotGiven(_) => print_word("read", output),
        Stop::NoPassword(_) => print_word("read", output),
        Stop::OutOfMemory => print_word("memory", output),
        // what was to be sent can't be sent
        Stop::Refused(_) => print_word("short", output),
        Stop::NotRead(_) => print_word("read", output),
        Stop::NotSent(_) => print_word("write", output),
        Stop::NotAwaited(_) => print_word("read", output),
        Stop::TimedOut => print_word("time-out", output),
        Stop::NoHeartbeat => print_word("time-out", output),
        Stop::HungUp(_) => print_word("end-of-input", output),
        Stop::HungUpInHeader(_) => print_word("end-of-input", output),
    }
}

/// Prints the line of an end's fault.
pub fn print_fault<W: Write>(fault: CoreFault, output: &mut W) -> io::Result<()> {
    match fault {
        CoreFault::Peer(code) => print_number("peer", code.number(), output),
        CoreFault::Fatal => print_word("fatal", output),
        CoreFault::OutOfMemory => print_word("memory", output),
        CoreFault::Failed => print_word("failed", output),
        CoreFault::Closed => print_word("closed", output),
    }
}

fn print_word<W: Write>(word: &str, output: &mut W) -> io::Result<()> {
    writeln!(output, "fault {word}")
}

fn print_number<W: Write>(word: &str, number: u16, output: &mut W) -> io::Result<()> {
    writeln!(output, "fault {word} {number}")
}
