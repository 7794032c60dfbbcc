//! Ten operations by the structs of `amqp_typed`: the same as those of [`by_place`](crate::by_place).
use crate::showing::text;
use amqp_method::{Message, Method, Properties};
use amqp_typed::{Typed, TypedRef, basic, channel, delivery_mode, queue};
use amqp_value::Value;
use std::alloc::Global;
use std::test::Fail;

pub(crate) fn declare(alloc: Global) -> Result<Method, Fail> {
    let mut declare = queue::Declare::new(alloc, text(alloc, "orders")?);
    declare.durable = true;
    let (length, ttl) = (text(alloc, "x-max-length")?, text(alloc, "x-message-ttl")?);
    declare.arguments.push(length, Value::from(1_000))?;
    declare.arguments.push(ttl, Value::from(60_000))?;
    Ok(declare.into_method(alloc)?)
}

pub(crate) fn publish(alloc: Global) -> Result<Message, Fail> {
    let mut publish = basic::Publish::new(text(alloc, "")?, text(alloc, "orders")?);
    publish.mandatory = true;
    let body = Vec::from_slice(alloc, b"hello")?;
    let mut properties = Properties::default();
    properties.delivery_mode = Some(delivery_mode::PERSISTENT);
    Ok(publish.message(alloc, properties, body)?)
}

pub(crate) fn consume(alloc: Global) -> Result<Method, Fail> {
    let mut consume = basic::Consume::new(alloc, text(alloc, "orders")?, text(alloc, "c1")?);
    consume.exclusive = true;
    Ok(consume.into_method(alloc)?)
}

pub(crate) fn ack(alloc: Global) -> Result<Method, Fail> {
    Ok(basic::Ack::new(3).into_method(alloc)?)
}

pub(crate) fn nack(alloc: Global) -> Result<Method, Fail> {
    let mut nack = basic::Nack::new(4);
    nack.requeue = true;
    Ok(nack.into_method(alloc)?)
}

pub(crate) fn qos(alloc: Global) -> Result<Method, Fail> {
    Ok(basic::Qos::new(100).into_method(alloc)?)
}

/// Why a message came back, and the length of its routing key.
pub(crate) fn returned(method: &Method) -> Option<(u16, usize)> {
    let returned = basic::ReturnRef::from_ref(method)?;
    Some((returned.reply_code, returned.routing_key.len()))
}

/// The number up to which the server has taken what was published.
pub(crate) fn confirmed(method: &Method) -> Option<(u64, bool)> {
    let ack = basic::Ack::from_ref(method)?;
    Some((ack.delivery_tag, ack.multiple))
}

pub(crate) fn close(alloc: Global) -> Result<Method, Fail> {
    let mut close = channel::Close::new(404, text(alloc, "NOT_FOUND")?);
    close.class_id = 60;
    close.method_id = 40;
    Ok(close.into_method(alloc)?)
}

/// What was delivered is published again, to another exchange.
pub(crate) fn forward(alloc: Global, deliver: Method) -> Result<Message, Fail> {
    let deliver = basic::Deliver::from_method(deliver)
        .ok()
        .ok_or("no delivery")?;
    let publish = basic::Publish::new(text(alloc, "copies")?, deliver.routing_key);
    let body = Vec::from_slice(alloc, b"hello")?;
    Ok(publish.message(alloc, Properties::default(), body)?)
}
