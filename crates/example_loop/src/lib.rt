//! What programs on ends share: the wait for many sockets in one thread, an end with its socket, contents that come in
//! parts, and a hello.
#![tactic(auto)]

mod ahead;
mod asking;
mod contents;
mod hello;
mod keys;
mod link;
mod plain;
mod pulse;
mod running;
mod sockets;
mod streaming;

pub use crate::asking::Asking;
pub use crate::contents::{Coming, Content, may_go_later};
pub use crate::hello::{ABILITIES, BROKER_ABILITIES, client_end, has_word, server_end, word_after};
pub use crate::keys::key_from;
pub use crate::link::{FULL, Heard, Link, MOST};
pub use crate::plain::{alone, let_in, send_plain};
pub use crate::running::{Program, Served, serve};
pub use crate::sockets::Connect;
