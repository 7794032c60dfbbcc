//! Ends of a connection behind handles: clients and servers.
//!
//! The exports take each kind of end, and refuse a handle that isn't open.

pub mod answers;
pub mod asking;
pub mod batching;
pub mod beginning;
pub mod blaming;
pub mod closing;
pub mod controlling;
pub mod events;
pub mod feeding;
pub mod gathering;
pub mod hearing;
pub mod lending;
pub mod messages;
pub mod numbers;
pub mod opening;
pub mod output;
pub mod sending;
pub mod slices;
