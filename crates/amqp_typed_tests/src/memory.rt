//! What ten operations ask of the allocator, with arguments by place and by name. By themselves these tests compare
//! what is made; where requests are counted between the marks (`checks/memory/count.c`, preloaded), they show how much
//! each way takes. Part 40 is an operation by place, and part 41 the same by name.
use crate::marking::mark;
use crate::showing::{assert_message, assert_method};
use crate::{by_name, by_place};
use amqp_method::{Message, Method, read_method};
use std::alloc::Global;
use std::process::Abort;
use std::test::Fail;

const BY_PLACE: u8 = 40;

const BY_NAME: u8 = 41;

const RETURN: &[u8] = b"\x00\x3c\x00\x32\x01\x38\x08NO_ROUTE\x00\x07missing";

const CONFIRM: &[u8] = b"\x00\x3c\x00\x50\x00\x00\x00\x00\x00\x00\x00\x07\x01";

const DELIVER: &[u8] = b"\x00\x3c\x00\x3c\x02c1\x00\x00\x00\x00\x00\x00\x00\x03\x00\x00\x06orders";

/// What an operation makes, between the marks of a part.
fn made<T: Drop, F: Fn(Global) -> Result<T, Fail>>(
    rt: &impl Abort,
    alloc: Global,
    part: u8,
    make: F,
) -> Result<T, Fail>
    requires { F.IsAlwaysCallable make }
{
    mark(rt, alloc, part)?;
    let made = make(alloc)?;
    mark(rt, alloc, 0)?;
    Ok(made)
}

/// What an operation makes of a method that came, between the marks of a part.
fn made_of<T: Drop, F: Fn(Global, Method) -> Result<T, Fail>>(
    rt: &impl Abort,
    alloc: Global,
    part: u8,
    octets: &[u8],
    make: F,
) -> Result<T, Fail>
    requires { F.IsAlwaysCallable make }
{
    let method = read_method(alloc, octets)?;
    mark(rt, alloc, part)?;
    let made = make(alloc, method)?;
    mark(rt, alloc, 0)?;
    Ok(made)
}

/// What an operation reads in a method that came, between the marks of a part.
fn read_in<T: Copy, F: Fn(&Method) -> T>(
    rt: &impl Abort,
    alloc: Global,
    part: u8,
    octets: &[u8],
    read: F,
) -> Result<T, Fail>
    requires { F.IsAlwaysCallable read }
{
    let method = read_method(alloc, octets)?;
    mark(rt, alloc, part)?;
    let found = read(&method);
    mark(rt, alloc, 0)?;
    Ok(found)
}

#[test]
fn declaring_a_queue(rt: HostRuntime) -> Result<(), Fail> {
    let alloc = rt.alloc();
    let octets =
        "0032000a0000066f726465727302000000250c782d6d61782d6c656e67746849000003e80d782d6d6573736167652d74746c490000ea60";
    assert_method(
        &rt,
        alloc,
        made(&rt, alloc, BY_PLACE, by_place::declare)?,
        octets,
    )?;
    assert_method(
        &rt,
        alloc,
        made(&rt, alloc, BY_NAME, by_name::declare)?,
        octets,
    )
}

#[test]
fn consuming(rt: HostRuntime) -> Result<(), Fail> {
    let alloc = rt.alloc();
    let octets = "003c00140000066f72646572730263310400000000";
    assert_method(
        &rt,
        alloc,
        made(&rt, alloc, BY_PLACE, by_place::consume)?,
        octets,
    )?;
    assert_method(
        &rt,
        alloc,
        made(&rt, alloc, BY_NAME, by_name::consume)?,
        octets,
    )
}

#[test]
fn acknowledging(rt: HostRuntime) -> Result<(), Fail> {
    let alloc = rt.alloc();
    let octets = "003c0050000000000000000300";
    assert_method(
        &rt,
        alloc,
        made(&rt, alloc, BY_PLACE, by_place::ack)?,
        octets,
    )?;
    assert_method(&rt, alloc, made(&rt, alloc, BY_NAME, by_name::ack)?, octets)
}

#[test]
fn rejecting(rt: HostRuntime) -> Result<(), Fail> {
    let alloc = rt.alloc();
    let octets = "003c0078000000000000000402";
    assert_method(
        &rt,
        alloc,
        made(&rt, alloc, BY_PLACE, by_place::nack)?,
        octets,
    )?;
    assert_method(
        &rt,
        alloc,
        made(&rt, alloc, BY_NAME, by_name::nack)?,
        octets,
    )
}

#[test]
fn limiting(rt: HostRuntime) -> Result<(), Fail> {
    let alloc = rt.alloc();
    let octets = "003c000a00000000006400";
    assert_method(
        &rt,
        alloc,
        made(&rt, alloc, BY_PLACE, by_place::qos)?,
        octets,
    )?;
    assert_method(&rt, alloc, made(&rt, alloc, BY_NAME, by_name::qos)?, octets)
}

#[test]
fn closing_a_channel(rt: HostRuntime) -> Result<(), Fail> {
    let alloc = rt.alloc();
    let octets = "001400280194094e4f545f464f554e44003c0028";
    assert_method(
        &rt,
        alloc,
        made(&rt, alloc, BY_PLACE, by_place::close)?,
        octets,
    )?;
    assert_method(
        &rt,
        alloc,
        made(&rt, alloc, BY_NAME, by_name::close)?,
        octets,
    )
}

#[test]
fn publishing(rt: HostRuntime) -> Result<(), Fail> {
    let alloc = rt.alloc();
    let octets = "003c0028000000066f726465727301";
    let placed: Message = made(&rt, alloc, BY_PLACE, by_place::publish)?;
    assert_message(&rt, alloc, placed, Some(2), b"hello", octets)?;
    let named: Message = made(&rt, alloc, BY_NAME, by_name::publish)?;
    assert_message(&rt, alloc, named, Some(2), b"hello", octets)
}

#[test]
fn forwarding(rt: HostRuntime) -> Result<(), Fail> {
    let alloc = rt.alloc();
    let octets = "003c0028000006636f70696573066f726465727300";
    let placed: Message = made_of(&rt, alloc, BY_PLACE, DELIVER, by_place::forward)?;
    assert_message(&rt, alloc, placed, None, b"hello", octets)?;
    let named: Message = made_of(&rt, alloc, BY_NAME, DELIVER, by_name::forward)?;
    assert_message(&rt, alloc, named, None, b"hello", octets)
}

#[test]
fn reading_a_return(rt: HostRuntime) -> Result<(), Fail> {
    let alloc = rt.alloc();
    let placed = read_in(&rt, alloc, BY_PLACE, RETURN, by_place::returned)?;
    let named = read_in(&rt, alloc, BY_NAME, RETURN, by_name::returned)?;
    assert!(rt; placed == Some((312, 7)) && named == Some((312, 7)));
    Ok(())
}

#[test]
fn reading_a_confirm(rt: HostRuntime) -> Result<(), Fail> {
    let alloc = rt.alloc();
    let placed = read_in(&rt, alloc, BY_PLACE, CONFIRM, by_place::confirmed)?;
    let named = read_in(&rt, alloc, BY_NAME, CONFIRM, by_name::confirmed)?;
    assert!(rt; placed == Some((7, true)) && named == Some((7, true)));
    Ok(())
}
