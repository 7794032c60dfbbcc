//! What is said on standard error beside the lines that are printed: with whom something went wrong, in which step, and
//! why.
use crate::printing::Stop;
use std::fmt::Display;
use std::io::{self, Write};

/// Where notes about a connection are written. A note that can't be written is dropped: the printed lines and the exit
/// status say enough.
#[derive(Drop)]
pub struct Notes<'a, E: Write + Drop> {
    address: &'a str,
    errors: E,
}

impl<'a, E: Write + Drop> Notes<'a, E> {
    pub fn new(address: &'a str, errors: E) -> Notes<'a, E> {
        Notes { address, errors }
    }

    /// Says what happened.
    pub fn say(&mut self, what: &str) {
        let address = self.address;
        let _ = writeln!(self.errors, "amqp: {address}: {what}");
    }

    /// Says what happened, and why.
    pub fn say_why<D: Display>(&mut self, what: &str, why: &D) {
        let address = self.address;
        let _ = writeln!(self.errors, "amqp: {address}: {what}: {why}");
    }

    /// Says why a run was given up.
    pub fn say_stop(&mut self, stop: Stop) {
        match stop {
            Stop::NotWritten(why) => self.say_why("standard output can't be written", &why),
            Stop::OutOfMemory => self.say("out of memory"),
            Stop::NotGiven(why) => self.say_why("standard input can't be read", &why),
            Stop::NoPassword(why) => self.say_why("the file of the password can't be read", &why),
            Stop::NotHex(_) => self.say("standard input isn't hexadecimal"),
            Stop::Config(fault) => self.say_why("no session with these limits", &fault),
            Stop::NotRead(failure) => self.say_failure("the connection failed in a read", failure),
            Stop::NotSent(failure) => self.say_failure("the connection failed in a write", failure),
            Stop::NotAwaited(why) => self.say_why("the connection can't be waited for", &why),
            Stop::TimedOut => self.say(
                "no octet came or could be written for as long as the time-out",
            ),
            Stop::NoHeartbeat => self.say("no octet came for two heartbeats"),
            Stop::HungUp(pending) => self.say_end("a frame", pending),
            Stop::HungUpInHeader(pending) => self.say_end("the protocol header", pending),
            Stop::Core(fault) => self.say_why("what came is at fault", &fault),
            Stop::Refused(fault) => self.say_why("nothing can be sent", &fault),
        }
    }

    fn say_failure(&mut self, what: &str, failure: Option<io::Error>) {
        match failure {
            Some(why) => self.say_why(what, &why),
            None => self.say(what),
        }
    }

    /// Says that the other end hung up, and how many octets came of what isn't whole.
    fn say_end(&mut self, what: &str, pending: usize) {
        if pending == 0 {
            return self.say("the other end hung up without a close");
        }
        let address = self.address;
        let _ = writeln!(
            self.errors,
            "amqp: {address}: the other end hung up inside {what}, of which {pending} octets came"
        );
    }
}
