//! The exit statuses of the program. Status 2, for a command line that can't be read, is `clap`'s.

/// The run met no fault.
pub const DONE: u8 = 0;

/// The run printed a fault, or could not print.
pub const FAULT: u8 = 1;
