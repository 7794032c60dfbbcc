//! What the program `amqp` makes of text, and what it makes into text: octets of hexadecimal, the lines of frames, of
//! what their payloads say and of events, and the line that `loop` ends with, beside the contents that it publishes and
//! counts.
//!
//! Nothing here reads a command line or opens a stream. What each call does is stated by its contract with the
//! definitions of `specs/`: `Hexadecimal` has what the lines of a text encode, `Listing` what it is to list the frames
//! of octets, and
//! `Tallies` which contents `loop` counts. The text of an event is that of `amqp_channel`.
#![tactic(auto)]

mod events;
mod hexadecimal;
mod listing;
mod payloads;
pub mod statuses;
mod tally;

pub use crate::events::print_event;
pub use crate::hexadecimal::{HexFault, octets_of};
pub use crate::listing::{Ending, LIMIT, Listing, frame_line, list, payload_text};
pub use crate::payloads::{PayloadLine, payload_line};
pub use crate::tally::{EXCHANGE, KEY, Load, Tally, pattern, print_outcome};
