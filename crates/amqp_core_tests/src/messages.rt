//! Messages, made of octets.
use crate::octets::counted_octets;
use crate::trouble::Trouble;
use amqp_method::{Message, Method, Properties, read_method};
use amqp_value::read_table;
use std::alloc::Global;

/// No properties, or those with the table of headers that octets encode.
fn properties(alloc: Global, table: &[u8]) -> Result<Properties, Trouble> {
    if table.is_empty() {
        return Ok(Properties::default());
    }
    let Ok((headers, _)) = read_table(alloc, table) else {
        return Err(Trouble::NotReadable);
    };
    Ok(Properties {
        headers: Some(headers),
        ..Properties::default()
    })
}

/// A method with its content, or alone if none follows it.
fn assembled(method: Method, properties: Properties, body: Vec<u8>) -> Message {
    if method.kind().has_content() {
        return Message::content(method, properties, body);
    }
    drop(properties);
    Message::plain(method)
}

/// A message, by the octets of its method and of its table of headers, and the length of its body.
pub(crate) fn message(
    alloc: Global,
    method: &[u8],
    table: &[u8],
    size: usize,
) -> Result<Message, Trouble> {
    let body = counted_octets(alloc, size)?;
    let properties = properties(alloc, table)?;
    match read_method(alloc, method) {
        Ok(method) => Ok(assembled(method, properties, body)),
        Err(_) => Err(Trouble::NotReadable),
    }
}
