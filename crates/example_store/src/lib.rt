//! A broker in memory without its connections: exchanges, queues, channels and messages, what the methods of clients
//! make of them, and who may log in.
#![tactic(auto)]

mod channel;
mod credit;
mod declaring;
mod exchanges;
mod fault;
mod headers;
mod messages;
mod messaging;
mod queues;
mod store;
mod topic;
mod users;

pub use crate::channel::Channel;
pub use crate::fault::{Done, Fault, Result};
pub use crate::messages::Content;
pub use crate::store::{Answer, BOUND, Outlet, Place, Store};
pub use crate::users::Users;
