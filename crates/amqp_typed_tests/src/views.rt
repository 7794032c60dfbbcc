//! Methods by name as they lie in their payloads. The octets are written from the profile's table of methods.
use crate::samples::{BASIC, CHANNEL, CONFIRM, CONNECTION, EXCHANGE, QUEUE, Sample, TX};
use amqp_method::{Kind, MethodRef};
use amqp_typed::{AnyMethodView, TypedView, basic, connection, queue, tx};
use amqp_value::TableRef;
use std::alloc::Global;
use std::process::Abort;
use std::test::Fail;

/// From the exchange "bb" to the consumer "a", as number 7 and again, with the routing key "c".
const DELIVERY: &[u8] = b"\x00\x3c\x00\x3c\x01a\x00\x00\x00\x00\x00\x00\x00\x07\x01\x02bb\x01c";

/// To the exchange "a" with the routing key "bb": immediate, and not mandatory.
const PUBLICATION: &[u8] = b"\x00\x3c\x00\x28\x00\x00\x01a\x02bb\x02";

/// Of the queue "a": passive, exclusive and deleted by itself.
const DECLARATION: &[u8] = b"\x00\x32\x00\x0a\x00\x00\x01a\x0d\x00\x00\x00\x04\x01kt\x01";

/// Of the messages up to number 72623859790382856.
const ACKNOWLEDGEMENT: &[u8] = b"\x00\x3c\x00\x50\x01\x02\x03\x04\x05\x06\x07\x08\x01";

/// To the virtual host "/".
const OPENING: &[u8] = b"\x00\x0a\x00\x28\x01/\x00\x00";

/// Of version 1.2, with the mechanisms "DDD" and the locale "EE".
const START: &[u8] =
    b"\x00\x0a\x00\x0a\x01\x02\x00\x00\x00\x04\x01kt\x01\x00\x00\x00\x03DDD\x00\x00\x00\x02EE";

/// At most 258 channels, frames of 16909060 octets, a heartbeat each 772 seconds.
const TUNE: &[u8] = b"\x00\x0a\x00\x1e\x01\x02\x01\x02\x03\x04\x03\x04";

const SELECT: &[u8] = b"\x00\x5a\x00\x0a";

fn is_delivery(deliver: basic::DeliverView<'_>) -> bool {
    deliver.consumer_tag == b"a".as_slice()
        && deliver.delivery_tag == 7
        && deliver.redelivered
        && deliver.exchange == b"bb".as_slice()
        && deliver.routing_key == b"c".as_slice()
}

fn lies_in_delivery(method: MethodRef<'_>) -> bool {
    match basic::DeliverView::from_view(method) {
        Some(deliver) => is_delivery(deliver),
        None => false,
    }
}

#[test]
fn a_delivery_in_its_payload(rt: HostRuntime) -> Result<(), Fail> {
    assert!(rt; lies_in_delivery(MethodRef::new(DELIVERY)?));
    Ok(())
}

fn is_publication(publish: basic::PublishView<'_>) -> bool {
    publish.exchange == b"a".as_slice()
        && publish.routing_key == b"bb".as_slice()
        && !publish.mandatory
        && publish.immediate
}

fn lies_in_publication(method: MethodRef<'_>) -> bool {
    match basic::PublishView::from_view(method) {
        Some(publish) => is_publication(publish),
        None => false,
    }
}

#[test]
fn a_publication_in_its_payload(rt: HostRuntime) -> Result<(), Fail> {
    assert!(rt; lies_in_publication(MethodRef::new(PUBLICATION)?));
    Ok(())
}

/// Whether the table has the pair `k` with the value true.
fn holds_k(table: TableRef<'_>) -> bool {
    match table.get(b"k") {
        Some(value) => value.as_bool() == Some(true),
        None => false,
    }
}

fn is_declaration(declare: queue::DeclareView<'_>) -> bool {
    declare.queue == b"a".as_slice()
        && declare.passive
        && !declare.durable
        && declare.exclusive
        && declare.auto_delete
        && !declare.no_wait
        && holds_k(declare.arguments)
}

fn lies_in_declaration(method: MethodRef<'_>) -> bool {
    match queue::DeclareView::from_view(method) {
        Some(declare) => is_declaration(declare),
        None => false,
    }
}

#[test]
fn a_declaration_in_its_payload(rt: HostRuntime) -> Result<(), Fail> {
    assert!(rt; lies_in_declaration(MethodRef::new(DECLARATION)?));
    Ok(())
}

fn lies_in_opening(method: MethodRef<'_>) -> bool {
    match connection::OpenView::from_view(method) {
        Some(open) => open.virtual_host == b"/".as_slice(),
        None => false,
    }
}

#[test]
fn an_opening_in_its_payload(rt: HostRuntime) -> Result<(), Fail> {
    assert!(rt; lies_in_opening(MethodRef::new(OPENING)?));
    Ok(())
}

fn is_start(start: connection::StartView<'_>) -> bool {
    start.version_major == 1
        && start.version_minor == 2
        && holds_k(start.server_properties)
        && start.mechanisms == b"DDD".as_slice()
        && start.locales == b"EE".as_slice()
}

fn lies_in_start(method: MethodRef<'_>) -> bool {
    match connection::StartView::from_view(method) {
        Some(start) => is_start(start),
        None => false,
    }
}

#[test]
fn a_start_in_its_payload(rt: HostRuntime) -> Result<(), Fail> {
    assert!(rt; lies_in_start(MethodRef::new(START)?));
    Ok(())
}

fn lies_in_acknowledgement(method: MethodRef<'_>) -> bool {
    let wanted = basic::Ack {
        delivery_tag: 72623859790382856,
        multiple: true,
    };
    basic::Ack::from_view(method) == Some(wanted)
}

fn lies_in_tune(method: MethodRef<'_>) -> bool {
    let wanted = connection::Tune::new(258, 16909060, 772);
    connection::Tune::from_view(method) == Some(wanted)
}

#[test]
fn numbers_and_bits_in_their_payload(rt: HostRuntime) -> Result<(), Fail> {
    assert!(rt; lies_in_acknowledgement(MethodRef::new(ACKNOWLEDGEMENT)?));
    assert!(rt; lies_in_tune(MethodRef::new(TUNE)?));
    Ok(())
}

#[test]
fn no_arguments_in_their_payload(rt: HostRuntime) -> Result<(), Fail> {
    let select = MethodRef::new(SELECT)?;
    assert!(rt; tx::Select::from_view(select).is_some());
    assert!(rt; tx::Commit::from_view(select).is_none());
    Ok(())
}

#[test]
fn another_method_in_its_payload(rt: HostRuntime) -> Result<(), Fail> {
    let delivery = MethodRef::new(DELIVERY)?;
    assert!(rt; queue::DeclareView::from_view(delivery).is_none());
    assert!(rt; connection::Tune::from_view(delivery).is_none());
    Ok(())
}

fn is_any_delivery(method: AnyMethodView<'_>) -> bool {
    match method {
        AnyMethodView::Basic(basic::AnyMethodView::Deliver(deliver)) => is_delivery(deliver),
        _ => false,
    }
}

fn is_any_select(method: AnyMethodView<'_>) -> bool {
    match method {
        AnyMethodView::Tx(method) => method.kind() == Kind::TxSelect,
        _ => false,
    }
}

#[test]
fn a_method_by_its_class(rt: HostRuntime) -> Result<(), Fail> {
    let delivery = MethodRef::new(DELIVERY)?;
    assert!(rt; is_any_delivery(AnyMethodView::from_view(delivery)));
    assert!(rt; is_any_select(AnyMethodView::from_view(MethodRef::new(SELECT)?)));
    Ok(())
}

fn assert_kind(rt: &impl Abort, payload: &[u8]) -> Result<(), Fail> {
    let method = MethodRef::new(payload)?;
    assert!(rt; AnyMethodView::from_view(method).kind() == method.kind());
    Ok(())
}

fn assert_kinds(rt: &impl Abort, alloc: Global, samples: &[Sample]) -> Result<(), Fail> {
    for (octets, _) in samples.iter().copied() {
        assert_kind(rt, hex::decode(alloc, octets)?.as_slice())?;
    }
    Ok(())
}

#[test]
fn each_method_is_one_of_any_kind(rt: HostRuntime) -> Result<(), Fail> {
    assert_kinds(&rt, rt.alloc(), &CONNECTION)?;
    assert_kinds(&rt, rt.alloc(), &CHANNEL)?;
    assert_kinds(&rt, rt.alloc(), &EXCHANGE)?;
    assert_kinds(&rt, rt.alloc(), &QUEUE)?;
    assert_kinds(&rt, rt.alloc(), &BASIC)?;
    assert_kinds(&rt, rt.alloc(), &TX)?;
    assert_kinds(&rt, rt.alloc(), &CONFIRM)
}
