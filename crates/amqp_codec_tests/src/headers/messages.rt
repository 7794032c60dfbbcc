//! Messages, plain and with content: copied, and gathered in a box.
use crate::octets::{joined, octets};
use crate::showing::assert_same;
use amqp_method::{Carrier, Content, Message, Method, Properties, read_method, write_method};
use std::alloc::Global;
use std::process::Abort;
use std::test::Fail;

fn assert_method(
    rt: &impl Abort,
    alloc: Global,
    method: &Method,
    octets: &[u8],
) -> Result<(), Fail> {
    let mut written = Vec::new(alloc);
    write_method(method, &mut written)?;
    assert_same(rt, written.as_slice(), octets);
    Ok(())
}

/// The message of a method that no content follows.
fn plain(rt: &impl Abort, alloc: Global, octets: &[u8]) -> Result<Message, Fail> {
    let method = read_method(alloc, octets)?;
    assert!(rt; !method.kind().has_content());
    Ok(Message::plain(method))
}

fn assert_plain(
    rt: &impl Abort,
    alloc: Global,
    message: &Message,
    octets: &[u8],
) -> Result<(), Fail> {
    assert!(rt; message.content_parts().is_none());
    assert_method(rt, alloc, message.method(), octets)
}

/// A copy of a message, which is let go.
fn copied(message: Message) -> Result<Message, Fail> {
    let copy = message.copy();
    drop(message);
    Ok(copy?)
}

#[test]
fn a_message_is_copied(rt: HostRuntime) -> Result<(), Fail> {
    let octets = [0x00, 0x5a, 0x00, 0x0a];
    let copy = copied(plain(&rt, rt.alloc(), &octets)?)?;
    assert_plain(&rt, rt.alloc(), &copy, &octets)
}

/// A publish whose exchange and routing key have 255 octets each.
fn long_publish(alloc: Global) -> Result<Vec<u8>, Fail> {
    let name = octets(alloc, 255)?;
    joined(
        alloc,
        &[&[0, 60, 0, 40, 0, 0, 255], &name, &[255], &name, &[2]],
    )
}

/// The message of a method that a content follows, with this body.
fn with_body(
    rt: &impl Abort,
    alloc: Global,
    octets: &[u8],
    body: Vec<u8>,
) -> Result<Message, Fail> {
    let method = read_method(alloc, octets)?;
    assert!(rt; method.kind().has_content());
    Ok(Message::content(method, Properties::default(), body))
}

fn assert_whole(
    rt: &impl Abort,
    alloc: Global,
    message: &Message,
    octets: &[u8],
    wanted: &[u8],
) -> Result<(), Fail> {
    let (_, body) = message.content_parts().ok_or("no content")?;
    assert!(rt; body == wanted);
    assert_method(rt, alloc, message.method(), octets)
}

#[test]
fn a_message_with_a_long_body(rt: HostRuntime) -> Result<(), Fail> {
    let whole = long_publish(rt.alloc())?;
    let body = octets(rt.alloc(), 1_000_000)?;
    let message = with_body(&rt, rt.alloc(), &whole, octets(rt.alloc(), 1_000_000)?)?;
    let copy = copied(message)?;
    assert_whole(&rt, rt.alloc(), &copy, &whole, &body)
}

/// The message of a method that a content follows, gathered with this body.
fn gathered(rt: &impl Abort, alloc: Global, octets: &[u8], body: Vec<u8>) -> Result<Message, Fail> {
    let method = read_method(alloc, octets)?;
    assert!(rt; method.kind().has_content());
    let mut content = Content::begun(alloc, Carrier::new(method))?;
    content.body = body;
    Ok(Message::gathered(content))
}

/// Whether two messages are equal, and print alike.
fn are_alike(alloc: Global, one: &Message, other: &Message) -> Result<(bool, bool), Fail> {
    let one_printed = format!(in alloc; "{one:?}")?;
    let other_printed = format!(in alloc; "{other:?}")?;
    Ok((one == other, one_printed.as_str() == other_printed.as_str()))
}

#[test]
fn a_gathered_message_is_as_one_that_is_made(rt: HostRuntime) -> Result<(), Fail> {
    let alloc = rt.alloc();
    let method = long_publish(alloc)?;
    let made = with_body(&rt, alloc, &method, octets(alloc, 70)?)?;
    let same = gathered(&rt, alloc, &method, octets(alloc, 70)?)?;
    let longer = gathered(&rt, alloc, &method, octets(alloc, 71)?)?;
    let alike = are_alike(alloc, &made, &same)?;
    let unlike = are_alike(alloc, &made, &longer)?;
    assert!(rt; alike == (true, true));
    assert!(rt; unlike == (false, false));
    Ok(())
}
