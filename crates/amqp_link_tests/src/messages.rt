//! Messages and items, by words.
//!
//! A message is the name of its method, and of a content after it `:` and the body in hexadecimal, as in
//! `publish:6869`. Contents have no properties.
use crate::trouble::Trouble;
use amqp_core::Item;
use amqp_method::{Message, Method, Properties, read_method};
use std::alloc::Global;

/// The payloads of methods, each after its name. Queues and keys are `q`, consumers `t`, delivery tags 1.
static METHODS: &str = "
    publish 003c0028000000017100
    deliver 003c003c0174000000000000000100000171
    get 003c00460000017100
    get-ok 003c004700000000000000010000017100000000
    get-empty 003c004800
    ack 003c0050000000000000000100
    nack 003c0078000000000000000100
    cancel 003c001e017400
    cancel-ok 003c001f0174
    declare 0032000a000001710000000000
    declare-ok 0032000b01710000000000000000
    bind-ok 00320015
    select 005a000a
    select-ok 005a000b
    open 0014000a00
    flow-ok 0014001501";

fn digits_of(name: &str) -> Result<&'static str, Trouble> {
    for line in METHODS.split('\n') {
        if let Some((first, digits)) = line.trim_ascii_start().split_once(" ") {
            if first == name {
                return Ok(digits);
            }
        }
    }
    Err(Trouble::UnknownWord)
}

fn octets_of(alloc: Global, digits: &str) -> Result<Vec<u8>, Trouble> {
    match hex::decode(alloc, digits) {
        Ok(octets) => Ok(octets),
        Err(_) => Err(Trouble::NotOctets),
    }
}

/// The method that octets encode.
pub(crate) fn method(alloc: Global, octets: &[u8]) -> Result<Method, Trouble> {
    match read_method(alloc, octets) {
        Ok(method) => Ok(method),
        Err(_) => Err(Trouble::NotMethod),
    }
}

fn named(alloc: Global, name: &str) -> Result<Method, Trouble> {
    let octets = octets_of(alloc, digits_of(name)?)?;
    method(alloc, &octets)
}

/// A method with this body, or alone if no content follows it.
fn assembled(method: Method, body: Vec<u8>) -> Message {
    if method.kind().has_content() {
        return Message::content(method, Properties::default(), body);
    }
    drop(body);
    Message::plain(method)
}

/// The message with a method of this name, and with this body if a content follows it.
pub(crate) fn with_body(alloc: Global, name: &str, body: Vec<u8>) -> Result<Message, Trouble> {
    match named(alloc, name) {
        Ok(method) => Ok(assembled(method, body)),
        Err(trouble) => {
            drop(body);
            Err(trouble)
        }
    }
}

pub(crate) fn message(alloc: Global, word: &str) -> Result<Message, Trouble> {
    let (name, digits) = word.split_once(":").unwrap_or((word, ""));
    let body = octets_of(alloc, digits)?;
    with_body(alloc, name, body)
}

/// A message, or `flow-on`, `flow-off`, and the answers `on-ok` and `off-ok`.
fn item(alloc: Global, word: &str) -> Result<Item, Trouble> {
    match word {
        "flow-on" => Ok(Item::Flow(true)),
        "flow-off" => Ok(Item::Flow(false)),
        "on-ok" => Ok(Item::FlowOk(true)),
        "off-ok" => Ok(Item::FlowOk(false)),
        _ => {
            let message = message(alloc, word)?;
            Ok(Item::Message(message))
        }
    }
}

/// Whether this is the item that the word stands for.
fn is_item(alloc: Global, found: &Item, word: &str) -> Result<bool, Trouble> {
    let wanted = item(alloc, word)?;
    let is_same = *found == wanted;
    drop(wanted);
    Ok(is_same)
}

/// Whether these are the items that the words stand for, in this order.
pub(crate) fn are_items(alloc: Global, items: &[Item], words: &[&str]) -> Result<bool, Trouble> {
    if items.len() != words.len() {
        return Ok(false);
    }
    for (found, word) in items.iter().zip(words.iter().copied()) {
        if !is_item(alloc, found, word)? {
            return Ok(false);
        }
    }
    Ok(true)
}
