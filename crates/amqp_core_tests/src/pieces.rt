//! Octets that are fed to an end, and carried from one to the other.
ghost use Rattle.std.specs.Prelude.{◌<◌, ◌≤◌, length, IfOk};

use crate::came::Came;
use crate::octets::counted_octets;
use crate::trouble::Trouble;
use amqp_core::{CoreFault, End, Event, Role};
use std::alloc::Global;

/// What is counted of a piece that was taken.
#[derive(Clone, Copy)]
struct Counted {
    octets: usize,
    is_event: bool,
}

/// Feeds octets of a piece. The event is dropped.
fn feed_some<R: Role>(end: &mut End<R>, piece: &[u8]) -> Result<Counted, CoreFault>
    requires { 0 < length piece.now }
    ensures within { IfOk result (λ counted. counted.octets ≤ length piece.now) }
    ensures some { IfOk result (λ counted. 0 < counted.octets) }
{
    let taken = end.feed(piece)?;
    let octets = taken.octets;
    let is_event = taken.event.is_some();
    drop(taken);
    Ok(Counted { octets, is_event })
}

/// Feeds octets in pieces of at most so many, and counts the events.
fn feed_all<R: Role>(end: &mut End<R>, octets: &[u8], part: usize) -> Result<usize, CoreFault> {
    let part = part.max(1);
    let mut rest = octets;
    let mut events = 0_usize;
    while !rest.is_empty() {
        let counted = feed_some(end, &rest[..rest.len().min(part)])?;
        rest = &rest[counted.octets..];
        events = events.saturating_add(usize::from(counted.is_event));
    }
    Ok(events)
}

/// Feeds octets in pieces of at most so many. What comes of them is so many events, or a fault.
pub(crate) fn take<R: Role>(end: &mut End<R>, octets: &[u8], part: usize) -> Came {
    match feed_all(end, octets, part) {
        Ok(events) => Came::Events(events),
        Err(fault) => Came::Fault(fault),
    }
}

/// Carries octets that one end has to write to the other, so many at most.
pub(crate) fn carry<W: Role, R: Role>(
    writer: &mut End<W>,
    reader: &mut End<R>,
    most: usize,
    part: usize,
) -> Came {
    let output = writer.output();
    let count = output.len().min(most);
    let taken = feed_all(reader, &output[..count], part);
    writer.wrote(count);
    match taken {
        Ok(_) => Came::AsSaid,
        Err(fault) => Came::Fault(fault),
    }
}

/// So many octets of the output are sent, and get lost. Of a shorter output, its length comes.
pub(crate) fn lose<W: Role>(writer: &mut End<W>, count: usize) -> Came {
    let length = writer.output().len();
    if length < count {
        return Came::Count(length);
    }
    writer.wrote(count);
    Came::AsSaid
}

/// Whether an event is that of a content on a channel, with this body.
fn is_content(event: &Option<Event>, channel: u16, body: &[u8]) -> bool {
    let Some(Event::Told(number, message)) = event else {
        return false;
    };
    let Some((_, octets)) = message.content_parts() else {
        return false;
    };
    *number == channel && octets == body
}

/// Whether all of a piece is taken at once, and completes a content.
fn takes_content<R: Role>(end: &mut End<R>, piece: &[u8], channel: u16, body: &[u8]) -> bool {
    let Ok(taken) = end.feed(piece) else {
        return false;
    };
    let is_told = taken.octets == piece.len() && is_content(&taken.event, channel, body);
    drop(taken);
    is_told
}

/// Carries all octets that one end has to write to the other, of which comes a content with a body of so many octets.
pub(crate) fn deliver<W: Role, R: Role>(
    alloc: Global,
    writer: &mut End<W>,
    reader: &mut End<R>,
    channel: u16,
    size: usize,
) -> Result<Came, Trouble> {
    let body = counted_octets(alloc, size)?;
    let output = writer.output();
    let count = output.len();
    let is_told = takes_content(reader, output, channel, &body);
    writer.wrote(count);
    Ok(if is_told {
        Came::AsSaid
    } else {
        Came::NoContent
    })
}
