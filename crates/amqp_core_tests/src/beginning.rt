//! Contents that begin before their bodies are there.
use crate::handing::client_after;
use crate::messages::message;
use crate::octets::octets_of;
use amqp_core::{AskFault, BodyFault, BodyWriter, Client, LendFault, StreamEnd};
use amqp_method::{Message, Method, Properties};
use std::alloc::Global;
use std::process::Abort;
use std::test::Fail;

const SIZES: [usize; 9] = [0, 1, 4_087, 4_088, 4_089, 8_175, 8_176, 8_177, 20_000];

/// The octets of a body come in parts of so many.
fn write_in_parts(
    writer: &mut BodyWriter,
    body: &[u8],
    part: usize,
    octets: &mut Vec<u8>,
) -> Result<(), Fail> {
    for now in body.chunks(part.max(1)) {
        writer.write(now, octets)?;
    }
    Ok(())
}

/// Sends a content by one end, and begins it at another, where its body comes in parts. Both count the octets alike.
fn assert_alike(
    rt: &impl Abort,
    sending: &mut StreamEnd<Client>,
    beginning: &mut StreamEnd<Client>,
    message: &Message,
    part: usize,
    octets: &mut Vec<u8>,
) -> Result<(), Fail> {
    let Some((properties, body)) = message.content_parts() else {
        return Err("no content".into());
    };
    let method = message.method();
    octets.clear();
    let mut writer = beginning.begin_content(1, method, properties, body.len() as u64, octets)?;
    assert!(rt; writer.left() == body.len() as u64);
    write_in_parts(&mut writer, body, part, octets)?;
    assert!(rt; writer.left() == 0);
    sending.send_content(1, method, properties, body)?;
    assert!(rt; sending.output() == octets.as_slice(), "other octets");
    let all = sending.waiting_in_all();
    sending.wrote(all);
    assert!(rt; beginning.output().is_empty());
    assert!(rt;
        beginning.octets_written() == sending.octets_written(),
        "other counts"
    );
    Ok(())
}

fn assert_size(
    rt: &impl Abort,
    alloc: Global,
    sending: &mut StreamEnd<Client>,
    beginning: &mut StreamEnd<Client>,
    message: &Message,
) -> Result<(), Fail> {
    let mut octets = Vec::new(alloc);
    for part in [1, 2, 7, 40, 4_087, 4_088, 4_089, 30_000] {
        assert_alike(rt, sending, beginning, message, part, &mut octets)?;
    }
    Ok(())
}

fn assert_all_alike(
    rt: &impl Abort,
    alloc: Global,
    sending: &mut StreamEnd<Client>,
    beginning: &mut StreamEnd<Client>,
) -> Result<(), Fail> {
    let publish = octets_of(alloc, &["basic.publish"])?;
    for size in SIZES {
        let message = message(alloc, &publish, b"", size)?;
        let alike = assert_size(rt, alloc, sending, beginning, &message);
        drop(message);
        alike?;
    }
    Ok(())
}

#[test]
fn begun_contents_are_those_that_are_sent(rt: HostRuntime) -> Result<(), Fail> {
    let alloc = rt.alloc();
    let mut sending = client_after(alloc, "both open 2")?;
    let mut beginning = client_after(alloc, "both open 2")?;
    let assertion = assert_all_alike(&rt, alloc, &mut sending, &mut beginning);
    drop(sending);
    drop(beginning);
    assertion
}

/// Begins a content of ten octets.
fn begin(
    client: &mut StreamEnd<Client>,
    channel: u16,
    method: &Method,
    octets: &mut Vec<u8>,
) -> Result<BodyWriter, LendFault> {
    client.begin_content(channel, method, &Properties::default(), 10, octets)
}

/// Why one doesn't begin.
fn fault(
    client: &mut StreamEnd<Client>,
    channel: u16,
    method: &Method,
    octets: &mut Vec<u8>,
) -> Option<LendFault> {
    match begin(client, channel, method, octets) {
        Ok(_) => None,
        Err(fault) => Some(fault),
    }
}

/// None begins while an open waits to be written, on a channel that isn't open, or after a method without a content.
fn assert_not_begun(
    rt: &impl Abort,
    client: &mut StreamEnd<Client>,
    publish: &Method,
    select: &Method,
    octets: &mut Vec<u8>,
) -> Result<(), Fail> {
    let third = client.open_channel()?;
    assert!(rt; fault(client, 1, publish, octets) == Some(LendFault::Waits));
    let all = client.waiting_in_all();
    client.wrote(all);
    let refused = Some(LendFault::Refused(AskFault::NotOpen));
    assert!(rt; fault(client, third, publish, octets) == refused);
    let refused = Some(LendFault::Refused(AskFault::NotSendable));
    assert!(rt; fault(client, 1, select, octets) == refused);
    Ok(())
}

/// Of a body of ten octets six come, then five, which are too many, and then four.
fn assert_part_refused(
    rt: &impl Abort,
    client: &mut StreamEnd<Client>,
    publish: &Method,
    octets: &mut Vec<u8>,
) -> Result<(), Fail> {
    let mut writer = begin(client, 1, publish, octets)?;
    writer.write(b"123456", octets)?;
    let before = octets.len();
    assert!(rt; writer.write(b"78901", octets) == Err(BodyFault::TooLong));
    assert!(rt; octets.len() == before);
    assert!(rt; writer.left() == 4);
    writer.write(b"7890", octets)?;
    assert!(rt; octets.ends_with(b"\x03\x00\x01\x00\x00\x00\x0a1234567890\xce"));
    Ok(())
}

/// What is refused leaves the octets that are there as they are.
fn assert_refused(
    rt: &impl Abort,
    client: &mut StreamEnd<Client>,
    publish: &Method,
    select: &Method,
    octets: &mut Vec<u8>,
) -> Result<(), Fail> {
    assert_not_begun(rt, client, publish, select, octets)?;
    assert!(rt; octets.as_slice() == b"abc".as_slice());
    assert_part_refused(rt, client, publish, octets)?;
    assert!(rt; octets.starts_with(b"abc"));
    Ok(())
}

/// A client with two open channels refuses them.
fn assert_client_refuses(
    rt: &impl Abort,
    alloc: Global,
    publish: &Method,
    select: &Method,
) -> Result<(), Fail> {
    let mut octets = Vec::from_slice(alloc, b"abc")?;
    let mut client = client_after(alloc, "both open 2")?;
    let assertion = assert_refused(rt, &mut client, publish, select, &mut octets);
    drop(client);
    assertion
}

fn assert_select_refused(rt: &impl Abort, alloc: Global, publish: &Method) -> Result<(), Fail> {
    let octets = octets_of(alloc, &["tx.select"])?;
    let select = message(alloc, &octets, b"", 0)?;
    let assertion = assert_client_refuses(rt, alloc, publish, select.method());
    drop(select);
    assertion
}

#[test]
fn what_is_refused_is_not_begun(rt: HostRuntime) -> Result<(), Fail> {
    let octets = octets_of(rt.alloc(), &["basic.publish"])?;
    let publish = message(rt.alloc(), &octets, b"", 0)?;
    let assertion = assert_select_refused(&rt, rt.alloc(), publish.method());
    drop(publish);
    assertion
}
