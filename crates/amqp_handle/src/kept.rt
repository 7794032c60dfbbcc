//! An end that a handle holds.
use crate::gathering::Gathering;
use amqp_core::{Client, Server, StreamEnd};

/// An end, in a box of its own, and what is gathered of its events, unless it lends them.
#[derive(Drop)]
pub struct Kept<E> {
    pub end: Box<E>,
    pub gathering: Option<Box<Gathering>>,
}

/// What an end's handle holds while it is open.
#[derive(Drop)]
pub enum HeldEnd {
    Client(Kept<StreamEnd<Client>>),
    Server(Kept<StreamEnd<Server>>),
}
