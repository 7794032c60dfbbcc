//! Messages: a method that a content follows, with the content.
use crate::showing::{assert_message, text};
use amqp_method::{Message, Properties};
use amqp_typed::{basic, delivery_mode};
use std::alloc::Global;
use std::test::Fail;

fn persistent() -> Properties {
    let mut properties = Properties::default();
    properties.delivery_mode = Some(delivery_mode::PERSISTENT);
    properties
}

fn publish(alloc: Global) -> Result<Message, Fail> {
    let publish = basic::Publish::new(text(alloc, "a")?, text(alloc, "bb")?);
    let body = Vec::from_slice(alloc, b"hi")?;
    Ok(publish.message(alloc, persistent(), body)?)
}

fn returned(alloc: Global) -> Result<Message, Fail> {
    let reason = text(alloc, "bb")?;
    let returned = basic::Return::new(312, reason, text(alloc, "c")?, text(alloc, "dd")?);
    let body = Vec::from_slice(alloc, b"hi")?;
    Ok(returned.message(alloc, persistent(), body)?)
}

fn delivery(alloc: Global) -> Result<Message, Fail> {
    let tag = text(alloc, "a")?;
    let deliver = basic::Deliver::new(tag, 7, text(alloc, "c")?, text(alloc, "dd")?);
    let body = Vec::from_slice(alloc, b"hi")?;
    Ok(deliver.message(alloc, persistent(), body)?)
}

fn got(alloc: Global) -> Result<Message, Fail> {
    let got = basic::GetOk::new(7, text(alloc, "c")?, text(alloc, "dd")?, 9);
    let body = Vec::from_slice(alloc, b"hi")?;
    Ok(got.message(alloc, persistent(), body)?)
}

#[test]
fn a_publish(rt: HostRuntime) -> Result<(), Fail> {
    let octets = "003c00280000016102626200";
    assert_message(
        &rt,
        rt.alloc(),
        publish(rt.alloc())?,
        Some(2),
        b"hi",
        octets,
    )
}

#[test]
fn a_return(rt: HostRuntime) -> Result<(), Fail> {
    let octets = "003c003201380262620163026464";
    assert_message(
        &rt,
        rt.alloc(),
        returned(rt.alloc())?,
        Some(2),
        b"hi",
        octets,
    )
}

#[test]
fn a_delivery(rt: HostRuntime) -> Result<(), Fail> {
    let octets = "003c003c01610000000000000007000163026464";
    assert_message(
        &rt,
        rt.alloc(),
        delivery(rt.alloc())?,
        Some(2),
        b"hi",
        octets,
    )
}

#[test]
fn a_message_that_was_asked_for(rt: HostRuntime) -> Result<(), Fail> {
    let octets = "003c0047000000000000000700016302646400000009";
    assert_message(&rt, rt.alloc(), got(rt.alloc())?, Some(2), b"hi", octets)
}
