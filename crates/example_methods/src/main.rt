//! Ten methods that a client sends or takes, each by its struct: printed as text, and as the octets of its payload.
#![tactic(auto)]

use amqp_method::{
    Header, Message, Method, OutOfMemory, Properties, read_method, write_header, write_method,
};
use amqp_typed::{Typed, TypedRef, basic, channel, confirm, delivery_mode, queue};
use amqp_value::{ShortStr, Table, Value, ValueFault};
use anyhow::{Result, bail};
use std::alloc::Global;

/// What a server writes of a message that it could not route: the payload of basic.return.
const RETURN: &[u8] = b"\x00\x3c\x00\x32\x01\x38\x08NO_ROUTE\x00\x07missing";

/// What a server writes to acknowledge what was published, up to number 7: the payload of basic.ack.
const CONFIRM: &[u8] = b"\x00\x3c\x00\x50\x00\x00\x00\x00\x00\x00\x00\x07\x01";

/// What a server writes before a message that it delivers: the payload of basic.deliver.
const DELIVER: &[u8] = b"\x00\x3c\x00\x3c\x02c1\x00\x00\x00\x00\x00\x00\x00\x03\x00\x00\x06orders";

fn main(rt: HostRuntime) -> Result<()> {
    let alloc = rt.alloc();
    show(&rt, alloc, declare(alloc)?)?;
    show_message(&rt, alloc, publish(alloc)?)?;
    show(&rt, alloc, consume(alloc)?)?;
    show(&rt, alloc, basic::Qos::new(100).into_method(alloc)?)?;
    show(&rt, alloc, basic::Ack::new(3).into_method(alloc)?)?;
    show(&rt, alloc, nack(alloc)?)?;
    show(&rt, alloc, confirm::Select::new().into_method(alloc)?)?;
    show(&rt, alloc, close(alloc)?)?;
    show_message(&rt, alloc, forward(alloc, read_method(alloc, DELIVER)?)?)?;
    tell_return(&rt, &read_method(alloc, RETURN)?)?;
    tell_confirm(&rt, &read_method(alloc, CONFIRM)?)
}

/// A queue that holds at most 1,000 messages, each for a minute.
fn declare(alloc: Global) -> Result<Method> {
    let mut declare = queue::Declare::new(alloc, text(alloc, b"orders")?);
    add(alloc, &mut declare.arguments, b"x-max-length", 1_000)?;
    add(alloc, &mut declare.arguments, b"x-message-ttl", 60_000)?;
    Ok(declare.into_method(alloc)?)
}

/// A message that outlives a restart of the server.
fn publish(alloc: Global) -> Result<Message> {
    let publish = basic::Publish::new(text(alloc, b"")?, text(alloc, b"orders")?);
    let body = Vec::from_slice(alloc, b"hello")?;
    let mut properties = Properties::default();
    properties.delivery_mode = Some(delivery_mode::PERSISTENT);
    Ok(publish.message(alloc, properties, body)?)
}

fn consume(alloc: Global) -> Result<Method> {
    let mut consume = basic::Consume::new(alloc, text(alloc, b"orders")?, text(alloc, b"c1")?);
    consume.exclusive = true;
    Ok(consume.into_method(alloc)?)
}

fn nack(alloc: Global) -> Result<Method, OutOfMemory> {
    let mut nack = basic::Nack::new(4);
    nack.requeue = true;
    nack.into_method(alloc)
}

/// The channel is closed since the method basic.publish was at fault.
fn close(alloc: Global) -> Result<Method> {
    let mut close = channel::Close::new(404, text(alloc, b"NOT_FOUND")?);
    close.class_id = 60;
    close.method_id = 40;
    Ok(close.into_method(alloc)?)
}

/// What was delivered is published again, to the exchange `copies` under the same key.
fn forward(alloc: Global, deliver: Method) -> Result<Message> {
    let (exchange, body) = (text(alloc, b"copies")?, Vec::from_slice(alloc, b"hello")?);
    let Ok(deliver) = basic::Deliver::from_method(deliver) else {
        bail!("no delivery");
    };
    let publish = basic::Publish::new(exchange, deliver.routing_key);
    Ok(publish.message(alloc, Properties::default(), body)?)
}

/// Why a message came back. What the method holds is only lent.
fn tell_return(rt: &impl Print, method: &Method) -> Result<()> {
    let Some(returned) = basic::ReturnRef::from_ref(method) else {
        bail!("no return");
    };
    println!(rt;
        "returned: code {}, {} octets of routing key",
        returned.reply_code,
        returned.routing_key.len()
    )?;
    Ok(())
}

/// What the server has taken.
fn tell_confirm(rt: &impl Print, method: &Method) -> Result<()> {
    let Some(ack) = basic::Ack::from_ref(method) else {
        bail!("no ack");
    };
    println!(rt;
        "confirmed: {}, and those before it: {}",
        ack.delivery_tag, ack.multiple
    )?;
    Ok(())
}

/// Adds a number to a table.
fn add(alloc: Global, table: &mut Table, name: &[u8], number: i32) -> Result<()> {
    table.push(text(alloc, name)?, Value::from(number))?;
    Ok(())
}

fn text(alloc: Global, octets: &[u8]) -> Result<ShortStr, ValueFault> {
    ShortStr::new(alloc, octets)
}

/// Prints a method, and the octets of its payload.
fn show(rt: &impl Print, alloc: Global, method: Method) -> Result<()> {
    let shown = show_method(rt, alloc, &method);
    drop(method);
    shown
}

fn show_method(rt: &impl Print, alloc: Global, method: &Method) -> Result<()> {
    let mut octets = Vec::new(alloc);
    write_method(method, &mut octets)?;
    println!(rt; "{method}")?;
    println!(rt; "{}", hex::encode(alloc, &octets)?)?;
    Ok(())
}

/// The same of a message: its method, and the header of its content.
fn show_message(rt: &impl Print, alloc: Global, message: Message) -> Result<()> {
    let shown = show_parts(rt, alloc, &message);
    drop(message);
    shown
}

fn show_parts(rt: &impl Print, alloc: Global, message: &Message) -> Result<()> {
    show_method(rt, alloc, message.method())?;
    let Some((properties, body)) = message.content_parts() else {
        bail!("no content");
    };
    let header = Header {
        body_size: body.len() as u64,
        properties: properties.copy()?,
    };
    let shown = show_header(rt, alloc, &header);
    drop(header);
    shown
}

fn show_header(rt: &impl Print, alloc: Global, header: &Header) -> Result<()> {
    let mut octets = Vec::new(alloc);
    write_header(header, &mut octets)?;
    println!(rt; "{header}")?;
    println!(rt; "{}", hex::encode(alloc, &octets)?)?;
    Ok(())
}
