//! Octets and texts, compared with those that are wanted.
//!
//! Who has a method or a message leaves by one way alone: where there are several, each is a proof that all of it is
//! dropped.
use amqp_method::{Message, Method, write_method};
use amqp_value::ShortStr;
use std::alloc::Global;
use std::process::Abort;
use std::test::Fail;

pub(crate) fn assert_text(rt: &impl Abort, text: &str, wanted: &str) {
    assert_eq!(rt; text, wanted);
}

fn assert_written(
    rt: &impl Abort,
    alloc: Global,
    method: &Method,
    wanted: &str,
) -> Result<(), Fail> {
    let mut octets = Vec::new(alloc);
    write_method(method, &mut octets)?;
    assert_text(rt, hex::encode(alloc, octets.as_slice())?.as_str(), wanted);
    Ok(())
}

/// The method has these octets, in hexadecimal.
pub(crate) fn assert_method(
    rt: &impl Abort,
    alloc: Global,
    method: Method,
    wanted: &str,
) -> Result<(), Fail> {
    let written = assert_written(rt, alloc, &method, wanted);
    drop(method);
    written
}

/// Whether the message has a content of this delivery mode and this body.
fn has_content(message: &Message, delivery_mode: Option<u8>, body: &[u8]) -> bool {
    match message.content_parts() {
        Some((properties, found)) => { properties.delivery_mode == delivery_mode && found == body }
        None => false,
    }
}

/// The message has a content of this delivery mode and this body, and a method of these octets.
pub(crate) fn assert_message(
    rt: &impl Abort,
    alloc: Global,
    message: Message,
    delivery_mode: Option<u8>,
    body: &[u8],
    wanted: &str,
) -> Result<(), Fail> {
    assert!(rt; has_content(&message, delivery_mode, body));
    let written = assert_written(rt, alloc, message.method(), wanted);
    drop(message);
    written
}

pub(crate) fn text(alloc: Global, text: &str) -> Result<ShortStr, Fail> {
    Ok(ShortStr::new(alloc, text.as_bytes())?)
}
