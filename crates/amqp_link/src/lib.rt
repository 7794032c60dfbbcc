//! Links: pairs of ends in memory, each a client and a server of which the one reads what the other writes, and what is
//! done with them: connections begin, applications ask, octets are carried, ends are dropped.
//!
//! Whatever is done, in whatever order: what an end acts on in a life of a channel is a prefix of what the other sent
//! in that life. [`Link::step`] and [`Link::run`] ensure this, and all that the definitions of `specs/Headline` say
//! beside it.
#![tactic(auto)]

mod connection;
mod controls;
mod faults;
mod link;
mod lives;
mod promises;
mod seat;
mod steps;

pub use crate::controls::Control;
pub use crate::faults::{LinkFault, OutOfMemory};
pub use crate::link::Link;
pub use crate::lives::Life;
pub use crate::steps::{Direction, Step};
