//! The cores of AMQP 0-9-1: what a client and a server do with the octets that they take, and with what their
//! applications ask. No socket is touched and no thread started.
//!
//! [`End`] is one end of a connection, [`Traced`] one that is kept with its history. What each call does is stated by
//! its contract, with the definitions of `amqp_model`; the laws of these can be named from [`laws`]. What is kept of
//! the channels, and what comes of the frames there, is `amqp_channel`; the output is `amqp_outbox`.
#![tactic(auto)]

mod account;
mod advance;
mod allowing;
mod asking;
mod asks;
mod blame;
mod blame_display;
mod config;
mod connection;
mod controls;
mod display;
mod end;
mod endpoint;
mod event_ref;
mod event_ref_display;
mod event_ref_owned;
mod faults;
mod greeting;
mod heard;
mod keeping;
mod kept_hello;
pub mod laws;
mod ledger;
mod lent_message;
mod lives;
mod notes;
mod opening;
mod owed;
mod queries;
mod refusing;
mod replies;
mod roles;
mod sending;
mod settings;
mod stage;
mod step;
mod stream;
mod stream_asks;
mod stream_controls;
mod taken;
mod tally;
mod tellings;
mod traced;
mod tracing;
mod turning;
mod verdict;

pub use crate::asks::Ask;
pub use crate::blame::{Blame, Rule};
pub use crate::config::Config;
pub use crate::end::End;
pub use crate::event_ref::{EventRef, ReasonRef};
pub use crate::faults::{AskFault, ConfigFault, CoreFault, LendFault, OutOfMemory};
pub use crate::heard::Cause;
pub use crate::notes::{Direction, Note, Word};
pub use crate::roles::{Client, Role, Server};
pub use crate::settings::{ClientHello, Hello, ServerHello};
pub use crate::stage::Phase;
pub use crate::step::Step;
pub use crate::stream::StreamEnd;
pub use crate::taken::{Taken, TakenRef};
pub use crate::tellings::{Item, Telling};
pub use crate::traced::Traced;
pub use amqp_channel::{Agreed, ChannelState, CloseCode, Event, Reason, Side};
pub use amqp_outbox::{
    BodyFault, BodyWriter, Chunks, ContentFrames, HandOverFault, Pieces, SendQueue,
};
