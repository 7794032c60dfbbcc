//! What a handle holds.
use crate::content::Content;
use amqp_frame::Splitter;

/// What a handle holds while it is open.
#[derive(Drop)]
pub enum Held {
    Splitter(Splitter),
    Content(Content),
}
