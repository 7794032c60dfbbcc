//! Messages of a channel that wait for their turn.
//!
//! A client has one request in flight on a channel, and an end whose channel the peer has paused sends no contents
//! there. [`amqp_core::End::send`] refuses what may not go yet. [`Turns`] keeps it, and sends it in its turn: the order
//! on the channel is the order of the pushes, and no message is lost.
#![tactic(auto)]

mod turns;

pub use crate::turns::Turns;
