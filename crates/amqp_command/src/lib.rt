//! The command line of the program `amqp`: what it may ask for, its subcommands and options, and the texts of its help.
#![tactic(auto)]

mod arguments;
mod environment;
mod help;
mod options;
mod publishing;
mod requests;
mod servers;
mod words;

pub use crate::arguments::request_of;
pub use crate::environment::Environment;
pub use crate::options::{Gates, Limits};
pub use crate::requests::{Destination, Login, Password, Peer, Publication, Request, Start};
