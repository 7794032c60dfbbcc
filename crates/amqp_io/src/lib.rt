//! Sessions of AMQP 0-9-1 connections, and the streams of octets below them.
//!
//! [`Session`] is one end of a connection over a stream: it feeds the end what it reads, and writes what the end has
//! put. What each of its calls does, also one that fails, is stated by its contract with the definitions of
//! `specs/Sessions`. [`StreamSession`] is the same for an end whose events lend, whose octets the caller feeds.
//!
//! [`Stream`] is what a session reads from and writes to. [`Socket`] is a stream over TCP, [`Script`] one in memory
//! that follows a list of answers, for tests. What each call does to the octets of a stream, and when a stream counts
//! as failed, is stated by the contract of [`Stream`] with the definitions of `specs/Streams`.
#![tactic(auto)]

mod faults;
mod marks;
mod reading;
mod script;
mod session;
mod socket;
mod stream;
mod streaming;
mod unfed;
mod vectored;
mod writing;

pub use crate::faults::{IoFault, OutOfMemory, StreamFailed};
pub use crate::script::{Answer, Script};
pub use crate::session::{Parts, Session};
pub use crate::socket::Socket;
pub use crate::stream::Stream;
pub use crate::streaming::StreamSession;
pub use crate::unfed::Unfed;
