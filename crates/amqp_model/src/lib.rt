//! What the two ends of an AMQP 0-9-1 connection mean to each other: definitions over histories, and the laws that
//! hold of them. No code runs here.
//!
//! A history is the list of what one end put and took. The definitions in `specs/` read everything off it by
//! counting: states, lives, what was dropped, what was acted on. A law is the contract of a function that does
//! nothing. Who needs it calls the function and has its clauses.
#![tactic(auto)]

pub mod agreement;
pub mod answers;
pub mod arrangement;
pub mod blame;
pub mod bounds;
pub mod contents;
pub mod controls;
pub mod fitting;
pub mod heard;
pub mod lives;
pub mod octets;
pub mod one_end;
pub mod pieces;
pub mod replies;
pub mod streaming;
pub mod traces;
pub mod two_ends;
pub mod verdicts;
