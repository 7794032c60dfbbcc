//! How far a long run is, said on standard error where that is a terminal.
use std::io::Write;

/// Where it is said how far a run is.
#[derive(Drop)]
pub struct Progress<E: Write + Drop> {
    errors: E,
    /// standard error is a terminal
    shown: bool,
    /// the hundredths that were said last
    percent: u64,
    /// a line was begun
    begun: bool,
}

impl<E: Write + Drop> Progress<E> {
    pub fn new(errors: E, shown: bool) -> Progress<E> {
        Progress {
            errors,
            shown,
            percent: 0,
            begun: false,
        }
    }

    /// Says how many contents came of so many, in place of what it said before, where that changes by a hundredth. A
    /// line that can't be written is dropped.
    pub fn show(&mut self, done: u64, count: u32) {
        if !self.shown || count == 0 {
            return;
        }
        let percent = done.saturating_mul(100) / u64::from(count);
        if percent != self.percent {
            self.percent = percent;
            self.begun = true;
            let _ = write!(self.errors, "\ramqp: {done} of {count} contents");
        }
    }

    /// Ends the line that was begun.
    pub fn end(&mut self) {
        if self.begun {
            self.begun = false;
            let _ = writeln!(self.errors);
        }
    }
}
