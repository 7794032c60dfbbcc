//! Events of one's own, made of what is lent: those that an end which gathers tells of the same frames.
use crate::octets::octets_of;
use crate::pairs::{DEFAULT, Pair};
use crate::scripts::AT_ONCE;
use amqp_core::{End, Event, EventRef, Server, StreamEnd};
use std::alloc::Global;
use std::test::Fail;

/// Frames that a server takes with channel 1 open, none of them of a content: a heartbeat, tx.select, a flow, a close
/// of the channel with the code 320 and the text `bye`, and a close of the connection without a text. With each stands
/// the channel that it is about, or 0.
static FRAMES: [(&str, u16); 5] = [
    ("08000000000000ce", 0),
    ("tx.select/1", 1),
    ("010001000000050014001400ce", 1),
    ("0100010000000e0014002801400362796500000000ce", 1),
    ("0100000000000b000a003200000000000000ce", 0),
];

/// A server with channel 1 open.
fn open_server(alloc: Global) -> Result<End<Server>, Fail> {
    let mut pair = Pair::new(alloc, DEFAULT)?;
    let followed = pair.follow(alloc, AT_ONCE, "the way to a state", "both open 1");
    let Pair { client, server } = pair;
    drop(client);
    match followed {
        Ok(()) => Ok(server),
        Err(fail) => {
            drop(server);
            Err(fail)
        }
    }
}

fn own(alloc: Global, event: Option<EventRef<'_>>) -> Result<Option<Event>, Fail> {
    match event {
        Some(event) => Ok(event.to_owned(alloc)?),
        None => Ok(None),
    }
}

/// Whether there is an event, and about this channel.
fn is_about(event: Option<EventRef<'_>>, channel: u16) -> bool {
    match event {
        Some(event) => event.channel() == channel,
        None => false,
    }
}

fn is_told_about(event: &Option<Event>, channel: u16) -> bool {
    match event {
        Some(event) => event.channel() == channel,
        None => false,
    }
}

/// Whether the frame tells an event about this channel, and the same at both.
fn is_same(
    alloc: Global,
    gathers: &mut End<Server>,
    lends: &mut StreamEnd<Server>,
    frame: &[u8],
    channel: u16,
) -> Result<bool, Fail> {
    let lent = lends.feed_ref(frame)?.event;
    let is_lent = is_about(lent, channel);
    let owned = own(alloc, lent)?;
    let told = gathers.feed(frame)?.event;
    let same = owned == told && is_lent && is_told_about(&told, channel);
    drop(owned);
    drop(told);
    Ok(same)
}

fn check_frames(
    alloc: Global,
    gathers: &mut End<Server>,
    lends: &mut StreamEnd<Server>,
) -> Result<(), Fail> {
    for (word, channel) in FRAMES.iter().copied() {
        let frame = octets_of(alloc, &[word])?;
        if !is_same(alloc, gathers, lends, &frame, channel)? {
            return Err(Fail::new(format!(in alloc; "another event of {word}")?));
        }
    }
    Ok(())
}

#[test]
fn an_owned_event_is_that_of_an_end_that_gathers(rt: HostRuntime) -> Result<(), Fail> {
    let alloc = rt.alloc();
    let mut gathers = open_server(alloc)?;
    let mut lends = open_server(alloc)?.into_stream();
    let checked = check_frames(alloc, &mut gathers, &mut lends);
    drop(gathers);
    drop(lends);
    checked
}

/// Whether the frame tells an event about channel 1, of which none is owned.
fn owns_none(alloc: Global, lends: &mut StreamEnd<Server>, frame: &[u8]) -> Result<bool, Fail> {
    let lent = lends.feed_ref(frame)?.event;
    let is_lent = is_about(lent, 1);
    let owned = own(alloc, lent)?;
    let none = owned.is_none();
    drop(owned);
    Ok(none && is_lent)
}

fn owns_neither(
    alloc: Global,
    lends: &mut StreamEnd<Server>,
    begins: &[u8],
    heads: &[u8],
) -> Result<bool, Fail> {
    if !owns_none(alloc, lends, begins)? {
        return Ok(false);
    }
    owns_none(alloc, lends, heads)
}

/// The frames of a content are no events of an end that gathers.
#[test]
fn a_frame_of_a_content_is_not_owned(rt: HostRuntime) -> Result<(), Fail> {
    let alloc = rt.alloc();
    let begins = octets_of(alloc, &["basic.publish/1"])?;
    let heads = octets_of(alloc, &["header/1"])?;
    let mut lends = open_server(alloc)?.into_stream();
    let neither = owns_neither(alloc, &mut lends, &begins, &heads);
    drop(lends);
    if neither? {
        return Ok(());
    }
    Err("a frame of a content was owned".into())
}
