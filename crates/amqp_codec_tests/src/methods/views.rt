//! Each kind of method as it lies in its octets: checked, looked into, and turned into one that owns its arguments.
use crate::methods::samples::{
    BASIC, CHANNEL, CONNECTION, EXCHANGE, Given, QUEUE, Sample, TABLE, TX_AND_CONFIRM,
};
use crate::showing::{assert_for, assert_printed, assert_same, assert_same_for};
use amqp_method::{ArgRef, Kind, MethodRef, check_method, peek_kind, read_method};
use std::alloc::Global;
use std::process::Abort;
use std::test::Fail;

/// Whether the argument is of the kind that is given, and has its value.
fn is_given(alloc: Global, arg: ArgRef, given: Given) -> Result<bool, Fail> {
    Ok(match (arg, given) {
        (ArgRef::Bit(holds), Given::Bit(wanted)) => holds == wanted,
        (ArgRef::Octet(number), Given::Octet(wanted)) => number == wanted,
        (ArgRef::Short(number), Given::Short(wanted)) => number == wanted,
        (ArgRef::Long(number), Given::Long(wanted)) => number == wanted,
        (ArgRef::LongLong(number), Given::LongLong(wanted)) => number == wanted,
        (ArgRef::ShortStr(text), Given::Text(wanted)) => text == wanted.as_bytes(),
        (ArgRef::LongStr(text), Given::LongText(wanted)) => text == wanted.as_bytes(),
        (ArgRef::Table(table), Given::Table) => {
            table.octets() == hex::decode(alloc, TABLE)?.as_slice()
        }
        _ => false,
    })
}

fn is_there(alloc: Global, arg: Option<ArgRef>, given: Given) -> Result<bool, Fail> {
    match arg {
        Some(arg) => is_given(alloc, arg, given),
        None => Ok(false),
    }
}

/// Each argument stands at its place, and none after them.
fn assert_placed(
    rt: &impl Abort,
    alloc: Global,
    method: MethodRef,
    given: &[Given],
    octets: &str,
) -> Result<(), Fail> {
    for (place, wanted) in given.iter().enumerate() {
        let arg = method.arg_at(place);
        assert_for(rt, is_there(alloc, arg, *wanted)?, (wanted, octets));
    }
    assert_for(rt, method.arg_at(given.len()).is_none(), octets);
    Ok(())
}

/// The arguments come in order, and none after them.
fn assert_ordered(
    rt: &impl Abort,
    alloc: Global,
    method: MethodRef,
    given: &[Given],
    octets: &str,
) -> Result<(), Fail> {
    let mut left = method.args();
    for wanted in given {
        match left.next_arg() {
            Some((arg, after)) => {
                assert_for(rt, is_given(alloc, arg, *wanted)?, (wanted, octets));
                left = after;
            }
            None => assert_for(rt, false, (wanted, octets)),
        }
    }
    assert_for(rt, left.next_arg().is_none(), octets);
    Ok(())
}

fn assert_viewed(
    rt: &impl Abort,
    alloc: Global,
    kind: Kind,
    given: &[Given],
    octets: &str,
    text: &str,
) -> Result<(), Fail> {
    let payload = hex::decode(alloc, octets)?;
    assert_same(rt, check_method(&payload), Ok(kind));
    assert_same(rt, peek_kind(&payload), Some(kind));
    let method = MethodRef::new(&payload)?;
    assert_same(rt, method.kind(), kind);
    assert_same(rt, method.payload(), payload.as_slice());
    assert_placed(rt, alloc, method, given, octets)?;
    assert_ordered(rt, alloc, method, given, octets)?;
    let owned = read_method(alloc, &payload)?;
    assert_same_for(rt, method.is_request(), owned.is_request(), octets);
    assert_for(rt, method.to_owned(alloc)? == owned, octets);
    assert_printed(rt, alloc, &method, text, text)?;
    Ok(())
}

fn assert_samples(rt: &impl Abort, alloc: Global, samples: &[Sample]) -> Result<(), Fail> {
    for (kind, given, octets, text) in samples.iter().copied() {
        assert_viewed(rt, alloc, kind, given, octets, text)?;
    }
    Ok(())
}

#[test]
fn each_method_is_seen_in_its_octets(rt: HostRuntime) -> Result<(), Fail> {
    assert_samples(&rt, rt.alloc(), &CONNECTION)?;
    assert_samples(&rt, rt.alloc(), &CHANNEL)?;
    assert_samples(&rt, rt.alloc(), &EXCHANGE)?;
    assert_samples(&rt, rt.alloc(), &QUEUE)?;
    assert_samples(&rt, rt.alloc(), &BASIC)?;
    assert_samples(&rt, rt.alloc(), &TX_AND_CONFIRM)
}

/// basic.publish to the exchange `ab` with the routing key `cde`, mandatory and not immediate.
const PUBLISH: &[u8] = b"\x00\x3c\x00\x28\x00\x00\x02ab\x03cde\x01";

#[test]
fn arguments_by_name_and_by_kind(rt: HostRuntime) -> Result<(), Fail> {
    let publish = MethodRef::new(PUBLISH)?;
    assert_same(&rt, publish.short_str_at(0), Some(b"ab".as_slice()));
    assert_same(&rt, publish.short_str_at(1), Some(b"cde".as_slice()));
    assert_same(&rt, publish.short_at(0), None);
    assert_same(&rt, publish.bit_at(2), Some(true));
    assert_same(&rt, publish.bit_at(3), Some(false));
    assert_same(&rt, publish.bit_at(4), None);
    assert_same(
        &rt,
        publish.short_str("routing-key"),
        Some(b"cde".as_slice()),
    );
    assert_same(&rt, publish.bit("mandatory"), Some(true));
    assert_same(&rt, publish.bit("immediate"), Some(false));
    assert_same(&rt, publish.bit("routing-key"), None);
    assert_same(&rt, publish.short("reserved-1"), None);
    let key = publish.arg("routing-key");
    assert!(rt; is_there(rt.alloc(), key, Given::Text("cde"))?);
    assert!(rt; publish.arg("reserved-1").is_none());
    assert!(rt; publish.has_content());
    assert!(rt; publish.is_sent_by(true));
    assert!(rt; !publish.is_sent_by(false));
    assert_same(&rt, publish.class_id(), 60);
    Ok(())
}

/// Methods beside [`PUBLISH`], and whether they are the same. A reserved field may hold anything, and so may the bits
/// that are free.
static BESIDE: [(&[u8], bool); 5] = [
    (b"\x00\x3c\x00\x28\x00\x00\x02ab\x03cde\x01", true),
    (b"\x00\x3c\x00\x28\xff\xff\x02ab\x03cde\xfd", true),
    (b"\x00\x3c\x00\x28\x00\x00\x02ab\x03cde\x03", false),
    (b"\x00\x3c\x00\x28\x00\x00\x02ab\x03cdf\x01", false),
    (
        b"\x00\x3c\x00\x47\x00\x00\x00\x00\x00\x00\x00\x01\x00\x02ab\x03cde\x00\x00\x00\x00",
        false,
    ),
];

#[test]
fn lent_methods_compared(rt: HostRuntime) -> Result<(), Fail> {
    let publish = MethodRef::new(PUBLISH)?;
    for (payload, same) in BESIDE.iter().copied() {
        let other = MethodRef::new(payload)?;
        assert_same_for(&rt, publish == other, same, other);
        assert_same_for(&rt, other == publish, same, other);
    }
    Ok(())
}

#[test]
fn a_kind_is_seen_in_four_octets(rt: HostRuntime) {
    assert_same(
        &rt,
        peek_kind(b"\x00\x3c\x00\x28"),
        Some(Kind::BasicPublish),
    );
    assert_same(
        &rt,
        peek_kind(b"\x00\x3c\x00\x28\xff"),
        Some(Kind::BasicPublish),
    );
    assert_same(&rt, peek_kind(b"\x00\x3c\x00"), None);
    assert_same(&rt, peek_kind(b"\x00\x3c\x00\x29"), None);
}
