//! A content that an end begins before its body is there.
use amqp_outbox::BodyWriter;

/// What is to be written next of a content, and the writer of its body, once a content was begun.
#[derive(Drop)]
pub struct Content {
    pub writer: Option<BodyWriter>,
    pub octets: Vec<u8>,
}
