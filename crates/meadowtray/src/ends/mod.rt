//! Ends of a connection behind handles: clients and servers.
//!
//! The exports take each kind of end, and refuse a handle that isn't open.

mod answers;
mod asking;
mod feeding;
mod opening;
mod output;
