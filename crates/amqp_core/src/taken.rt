//! What came of a piece of the stream.

use crate::event_ref::EventRef;
use amqp_channel::Event;

/// How many octets of a piece were taken, and what came of them: no event where no frame was finished, or where the
/// frame is a part of a content that isn't whole.
#[derive(PartialEq, Eq, Debug, Drop)]
pub struct Taken {
    pub octets: usize,
    pub event: Option<Event>,
}

/// The same with an event that is lent, from the piece or from the end. Every whole frame has one.
#[derive(Clone, Copy)]
pub struct TakenRef<'a> {
    pub octets: usize,
    pub event: Option<EventRef<'a>>,
}
