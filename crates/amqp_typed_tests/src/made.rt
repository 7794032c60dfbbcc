//! Methods made by their fields, and fields that are lent.
use crate::showing::{assert_method, text};
use amqp_method::{Kind, Method, read_method};
use amqp_typed::{Typed, TypedRef, basic, connection, exchange, queue, tx};
use std::alloc::Global;
use std::test::Fail;

fn declared_queue(alloc: Global) -> Result<Method, Fail> {
    let mut declare = queue::Declare::new(alloc, text(alloc, "a")?);
    declare.durable = true;
    declare.auto_delete = true;
    Ok(declare.into_method(alloc)?)
}

fn declared_exchange(alloc: Global) -> Result<Method, Fail> {
    let mut declare = exchange::Declare::new(alloc, text(alloc, "a")?, text(alloc, "bb")?);
    declare.durable = true;
    declare.internal = true;
    Ok(declare.into_method(alloc)?)
}

fn binding(alloc: Global) -> Result<Method, Fail> {
    let queue = text(alloc, "a")?;
    let bind = queue::Bind::new(alloc, queue, text(alloc, "bb")?, text(alloc, "c")?);
    Ok(bind.into_method(alloc)?)
}

fn consumer(alloc: Global) -> Result<Method, Fail> {
    let mut consume = basic::Consume::new(alloc, text(alloc, "a")?, text(alloc, "bb")?);
    consume.exclusive = true;
    Ok(consume.into_method(alloc)?)
}

fn close(alloc: Global) -> Result<Method, Fail> {
    Ok(connection::Close::new(200, text(alloc, "bb")?).into_method(alloc)?)
}

fn start(alloc: Global) -> Result<Method, Fail> {
    let mechanisms = Vec::from_slice(alloc, b"DDD")?;
    let start = connection::Start::new(alloc, mechanisms, Vec::from_slice(alloc, b"EE")?);
    Ok(start.into_method(alloc)?)
}

#[test]
fn a_queue(rt: HostRuntime) -> Result<(), Fail> {
    let octets = "0032000a000001610a00000000";
    assert_method(&rt, rt.alloc(), declared_queue(rt.alloc())?, octets)
}

#[test]
fn an_exchange(rt: HostRuntime) -> Result<(), Fail> {
    let octets = "0028000a000001610262620a00000000";
    assert_method(&rt, rt.alloc(), declared_exchange(rt.alloc())?, octets)
}

#[test]
fn a_binding(rt: HostRuntime) -> Result<(), Fail> {
    let octets = "003200140000016102626201630000000000";
    assert_method(&rt, rt.alloc(), binding(rt.alloc())?, octets)
}

#[test]
fn a_consumer(rt: HostRuntime) -> Result<(), Fail> {
    let octets = "003c0014000001610262620400000000";
    assert_method(&rt, rt.alloc(), consumer(rt.alloc())?, octets)
}

#[test]
fn limits_and_a_close(rt: HostRuntime) -> Result<(), Fail> {
    let qos = basic::Qos::new(1).into_method(rt.alloc())?;
    assert_method(&rt, rt.alloc(), qos, "003c000a00000000000100")?;
    assert_method(
        &rt,
        rt.alloc(),
        close(rt.alloc())?,
        "000a003200c802626200000000",
    )
}

#[test]
fn a_start_of_version_0_9(rt: HostRuntime) -> Result<(), Fail> {
    let octets = "000a000a00090000000000000003444444000000024545";
    assert_method(&rt, rt.alloc(), start(rt.alloc())?, octets)
}

fn delivery(alloc: Global) -> Result<Method, Fail> {
    let octets = b"\x00\x3c\x00\x3c\x01a\x00\x00\x00\x00\x00\x00\x00\x07\x01\x02bb\x01c";
    Ok(read_method(alloc, octets)?)
}

fn is_delivery(deliver: basic::DeliverRef<'_>) -> bool {
    deliver.consumer_tag.as_bytes() == b"a".as_slice()
        && deliver.delivery_tag == 7
        && deliver.redelivered
        && deliver.exchange.as_bytes() == b"bb".as_slice()
        && deliver.routing_key.as_bytes() == b"c".as_slice()
}

fn lends_delivery(method: &Method) -> bool {
    match basic::DeliverRef::from_ref(method) {
        Some(deliver) => is_delivery(deliver),
        None => false,
    }
}

#[test]
fn a_delivery_is_lent(rt: HostRuntime) -> Result<(), Fail> {
    let method = delivery(rt.alloc())?;
    assert!(rt; lends_delivery(&method));
    Ok(())
}

/// Whether the delivery is no select, and lent as no declaration.
fn comes_back(method: Method) -> bool {
    match tx::Select::from_method(method) {
        Ok(_) => false,
        Err(other) => {
            other.kind() == Kind::BasicDeliver && queue::DeclareRef::from_ref(&other).is_none()
        }
    }
}

#[test]
fn another_method_comes_back(rt: HostRuntime) -> Result<(), Fail> {
    assert!(rt; comes_back(delivery(rt.alloc())?));
    Ok(())
}
