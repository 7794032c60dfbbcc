//! The output of an end of an AMQP 0-9-1 connection: the octets that it has put and not written, in the fair order of
//! their frames.
//!
//! An [`Outbox`] is handed methods, content headers and parts of bodies. They are staged, which encodes them and is what
//! may want memory, and then put, each frame in its place, which can't fail. What each call does is stated by its
//! contract: `specs/OutboxView` has what callers see of an outbox, and `amqp_model` the fair order. The parts of a body
//! may come out of [`Chunks`], which lets their octets go as they are staged.
#![tactic(auto)]

mod body;
mod chunks;
mod handing;
mod lending;
mod lent;
mod moves;
mod newest;
mod outbox;
mod parts;
mod queues;
mod ring;
mod room;
mod send_queue;
mod slots;
mod staging;
mod weaving;

pub use crate::body::{BodyFault, BodyWriter};
pub use crate::chunks::Chunks;
pub use crate::handing::HandOverFault;
pub use crate::lending::Pieces;
pub use crate::lent::ContentFrames;
pub use crate::outbox::Outbox;
pub use crate::send_queue::SendQueue;
pub use crate::staging::StageFault;
