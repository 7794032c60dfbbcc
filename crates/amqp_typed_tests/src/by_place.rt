//! Ten operations with arguments by place, as [`Method::new`] wants them: the same as those of
//! [`by_name`](crate::by_name).
use crate::showing::text;
use amqp_method::{Arg, Kind, Message, Method, Properties};
use amqp_typed::delivery_mode;
use amqp_value::{Table, Value};
use std::alloc::Global;
use std::test::Fail;

pub(crate) fn declare(alloc: Global) -> Result<Method, Fail> {
    let mut arguments = Table::new(alloc);
    arguments.push(text(alloc, "x-max-length")?, Value::from(1_000))?;
    arguments.push(text(alloc, "x-message-ttl")?, Value::from(60_000))?;
    let args = [
        Arg::ShortStr(text(alloc, "orders")?),
        Arg::Bit(false),
        Arg::Bit(true),
        Arg::Bit(false),
        Arg::Bit(false),
        Arg::Bit(false),
        Arg::Table(arguments),
    ];
    Ok(Method::new(Kind::QueueDeclare, Vec::from_array(alloc, args)?))
}

pub(crate) fn publish(alloc: Global) -> Result<Message, Fail> {
    let body = Vec::from_slice(alloc, b"hello")?;
    let args = [
        Arg::ShortStr(text(alloc, "")?),
        Arg::ShortStr(text(alloc, "orders")?),
        Arg::Bit(true),
        Arg::Bit(false),
    ];
    let method = Method::new(Kind::BasicPublish, Vec::from_array(alloc, args)?);
    let mut properties = Properties::default();
    properties.delivery_mode = Some(delivery_mode::PERSISTENT);
    Ok(Message::content(method, properties, body))
}

pub(crate) fn consume(alloc: Global) -> Result<Method, Fail> {
    let args = [
        Arg::ShortStr(text(alloc, "orders")?),
        Arg::ShortStr(text(alloc, "c1")?),
        Arg::Bit(false),
        Arg::Bit(false),
        Arg::Bit(true),
        Arg::Bit(false),
        Arg::Table(Table::new(alloc)),
    ];
    Ok(Method::new(Kind::BasicConsume, Vec::from_array(alloc, args)?))
}

pub(crate) fn ack(alloc: Global) -> Result<Method, Fail> {
    let args = [Arg::LongLong(3), Arg::Bit(false)];
    Ok(Method::new(Kind::BasicAck, Vec::from_array(alloc, args)?))
}

pub(crate) fn nack(alloc: Global) -> Result<Method, Fail> {
    let args = [Arg::LongLong(4), Arg::Bit(false), Arg::Bit(true)];
    Ok(Method::new(Kind::BasicNack, Vec::from_array(alloc, args)?))
}

pub(crate) fn qos(alloc: Global) -> Result<Method, Fail> {
    let args = [Arg::Long(0), Arg::Short(100), Arg::Bit(false)];
    Ok(Method::new(Kind::BasicQos, Vec::from_array(alloc, args)?))
}

/// Why a message came back, and the length of its routing key.
pub(crate) fn returned(method: &Method) -> Option<(u16, usize)> {
    if method.kind() != Kind::BasicReturn {
        return None;
    }
    let code = method.arg("reply-code")?.as_short()?;
    let routing_key = method.arg("routing-key")?.as_short_str()?;
    Some((code, routing_key.len()))
}

/// The number up to which the server has taken what was published.
pub(crate) fn confirmed(method: &Method) -> Option<(u64, bool)> {
    if method.kind() != Kind::BasicAck {
        return None;
    }
    let number = method.arg("delivery-tag")?.as_long_long()?;
    let multiple = method.arg("multiple")?.as_bit()?;
    Some((number, multiple))
}

pub(crate) fn close(alloc: Global) -> Result<Method, Fail> {
    let args = [
        Arg::Short(404),
        Arg::ShortStr(text(alloc, "NOT_FOUND")?),
        Arg::Short(60),
        Arg::Short(40),
    ];
    Ok(Method::new(Kind::ChannelClose, Vec::from_array(alloc, args)?))
}

/// What was delivered is published again, to another exchange.
pub(crate) fn forward(alloc: Global, deliver: Method) -> Result<Message, Fail> {
    let routing_key = deliver.short_str_at(4).ok_or("no delivery")?.copy()?;
    drop(deliver);
    let args = [
        Arg::ShortStr(text(alloc, "copies")?),
        Arg::ShortStr(routing_key),
        Arg::Bit(false),
        Arg::Bit(false),
    ];
    let method = Method::new(Kind::BasicPublish, Vec::from_array(alloc, args)?);
    let body = Vec::from_slice(alloc, b"hello")?;
    Ok(Message::content(method, Properties::default(), body))
}
