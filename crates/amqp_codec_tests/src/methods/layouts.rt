//! Methods as the standard lays them out, read, written and printed.
use crate::showing::{assert_same, assert_text};
use amqp_method::{
    Method, MethodFault, MethodFaultKind, MethodRef, check_method, method_text, read_method,
    write_method,
};
use amqp_value::ValueFaultKind;
use std::alloc::Global;
use std::process::Abort;
use std::test::Fail;

fn assert_prints(rt: &impl Abort, method: &Method, text: &str) -> Result<(), Fail> {
    assert_text(rt, method_text(method)?.as_str(), text);
    Ok(())
}

fn reads_as(rt: &impl Abort, alloc: Global, octets: &[u8], text: &str) -> Result<(), Fail> {
    let method = read_method(alloc, octets)?;
    assert_prints(rt, &method, text)
}

#[test]
fn a_method_without_arguments(rt: HostRuntime) -> Result<(), Fail> {
    reads_as(
        &rt,
        rt.alloc(),
        &[0x00, 0x14, 0x00, 0x0a, 0x00],
        "channel.open",
    )
}

#[test]
fn bits_share_an_octet(rt: HostRuntime) -> Result<(), Fail> {
    reads_as(
        &rt,
        rt.alloc(),
        &[
            0x00, 0x32, 0x00, 0x0a, 0x00, 0x00, 0x01, 0x71, 0xea, 0x00, 0x00, 0x00, 0x00,
        ],
        "queue.declare queue=\"q\" passive=0 durable=1 exclusive=0 auto-delete=1 no-wait=0 arguments={}",
    )
}

#[test]
fn a_method_of_an_extension_class(rt: HostRuntime) -> Result<(), Fail> {
    reads_as(
        &rt,
        rt.alloc(),
        &[0x00, 0x55, 0x00, 0x0a, 0x00],
        "confirm.select no-wait=0",
    )
}

#[test]
fn two_bits_after_a_number(rt: HostRuntime) -> Result<(), Fail> {
    reads_as(
        &rt,
        rt.alloc(),
        &[
            0x00, 0x3c, 0x00, 0x78, 0x00, 0x00, 0x00, 0x00, 0x00, 0x00, 0x00, 0x07, 0x03,
        ],
        "basic.nack delivery-tag=7 multiple=1 requeue=1",
    )
}

#[test]
fn a_bit_between_a_string_and_a_table(rt: HostRuntime) -> Result<(), Fail> {
    reads_as(
        &rt,
        rt.alloc(),
        &[
            0x00, 0x28, 0x00, 0x1e, 0x00, 0x00, 0x01, 0x64, 0x01, 0x73, 0x01, 0x6b, 0x00, 0x00,
            0x00, 0x00, 0x00,
        ],
        "exchange.bind destination=\"d\" source=\"s\" routing-key=\"k\" no-wait=0 arguments={}",
    )
}

#[test]
fn reserved_fields_in_any_value(rt: HostRuntime) -> Result<(), Fail> {
    reads_as(
        &rt,
        rt.alloc(),
        &[
            0x00, 0x0a, 0x00, 0x28, 0x01, 0x2f, 0x03, 0x61, 0x62, 0x63, 0xff,
        ],
        "connection.open virtual-host=\"/\"",
    )
}

#[test]
fn a_delivery(rt: HostRuntime) -> Result<(), Fail> {
    reads_as(
        &rt,
        rt.alloc(),
        &[
            0x00, 0x3c, 0x00, 0x3c, 0x01, 0x74, 0x00, 0x00, 0x00, 0x00, 0x00, 0x00, 0x00, 0x01,
            0xfe, 0x00, 0x01, 0x71,
        ],
        "basic.deliver consumer-tag=\"t\" delivery-tag=1 redelivered=0 exchange=\"\" routing-key=\"q\"",
    )
}

#[test]
fn a_start_with_nested_tables(rt: HostRuntime) -> Result<(), Fail> {
    reads_as(
        &rt,
        rt.alloc(),
        &[
            0x00, 0x0a, 0x00, 0x0a, 0x00, 0x09, 0x00, 0x00, 0x00, 0x3a, 0x0c, 0x63, 0x61, 0x70,
            0x61, 0x62, 0x69, 0x6c, 0x69, 0x74, 0x69, 0x65, 0x73, 0x46, 0x00, 0x00, 0x00, 0x15,
            0x12, 0x70, 0x75, 0x62, 0x6c, 0x69, 0x73, 0x68, 0x65, 0x72, 0x5f, 0x63, 0x6f, 0x6e,
            0x66, 0x69, 0x72, 0x6d, 0x73, 0x74, 0x01, 0x07, 0x70, 0x72, 0x6f, 0x64, 0x75, 0x63,
            0x74, 0x53, 0x00, 0x00, 0x00, 0x06, 0x42, 0x72, 0x6f, 0x6b, 0x65, 0x72, 0x00, 0x00,
            0x00, 0x0e, 0x50, 0x4c, 0x41, 0x49, 0x4e, 0x20, 0x41, 0x4d, 0x51, 0x50, 0x4c, 0x41,
            0x49, 0x4e, 0x00, 0x00, 0x00, 0x05, 0x65, 0x6e, 0x5f, 0x55, 0x53,
        ],
        "connection.start version-major=0 version-minor=9 server-properties={\"capabilities\"=F{\"publisher_confirms\"=t:1},\"product\"=S:\"Broker\"} mechanisms=\"PLAIN AMQPLAIN\" locales=\"en_US\"",
    )
}

static BROKEN_METHODS: [(&[u8], MethodFault); 6] = [
    (
        &[0x00, 0x14, 0x00, 0x0a, 0x00, 0x00],
        MethodFault {
            at: 5,
            kind: MethodFaultKind::Trailing,
        },
    ),
    (
        &[0x00, 0x3c, 0x00, 0x79],
        MethodFault {
            at: 0,
            kind: MethodFaultKind::UnknownMethod,
        },
    ),
    (
        &[0x00, 0x3c, 0x00, 0x78],
        MethodFault {
            at: 4,
            kind: MethodFaultKind::Value(ValueFaultKind::Ends),
        },
    ),
    (
        &[0x00, 0x14],
        MethodFault {
            at: 2,
            kind: MethodFaultKind::Value(ValueFaultKind::Ends),
        },
    ),
    (
        &[0x00],
        MethodFault {
            at: 0,
            kind: MethodFaultKind::Value(ValueFaultKind::Ends),
        },
    ),
    (
        &[
            0x00, 0x32, 0x00, 0x0a, 0x00, 0x00, 0x01, 0x71, 0xea, 0x00, 0x00, 0x00, 0x03, 0x01,
            0x61, 0x7a,
        ],
        MethodFault {
            at: 15,
            kind: MethodFaultKind::Value(ValueFaultKind::UnknownTag),
        },
    ),
];

#[test]
fn faults_of_methods(rt: HostRuntime) {
    for (octets, fault) in BROKEN_METHODS.iter().copied() {
        assert_same(&rt, read_method(rt.alloc(), octets).err(), Some(fault));
        assert_same(&rt, check_method(octets), Err(fault));
        assert_same(&rt, MethodRef::new(octets).err(), Some(fault));
    }
}

fn assert_written(
    rt: &impl Abort,
    alloc: Global,
    method: &Method,
    octets: &[u8],
) -> Result<(), Fail> {
    let mut out = Vec::new(alloc);
    write_method(method, &mut out)?;
    assert_same(rt, out.as_slice(), octets);
    Ok(())
}

/// Reads a method, and compares what is written of it.
fn written_as(rt: &impl Abort, alloc: Global, octets: &[u8], plain: &[u8]) -> Result<(), Fail> {
    let method = read_method(alloc, octets)?;
    assert_written(rt, alloc, &method, plain)
}

#[test]
fn free_bits_and_reserved_fields_are_written_clear(rt: HostRuntime) -> Result<(), Fail> {
    written_as(
        &rt,
        rt.alloc(),
        &[
            0x00, 0x32, 0x00, 0x0a, 0x12, 0x34, 0x01, 0x71, 0xea, 0x00, 0x00, 0x00, 0x00,
        ],
        &[
            0x00, 0x32, 0x00, 0x0a, 0x00, 0x00, 0x01, 0x71, 0x0a, 0x00, 0x00, 0x00, 0x00,
        ],
    )
}
