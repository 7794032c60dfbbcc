//! A content that a handle of its own holds: what is to be written of it next, and the rest of its body.
ghost use Rattle.std.specs.Prelude.{◌≡◌};
ghost use Rattle.std.specs.Borrow.{sem};
ghost use Rattle.std.specs.Io.BufRead.{Rests};
ghost use Rattle.amqp_handle.specs.contracts.content.Content as content_row;
ghost use Rattle.amqp_calls.specs.Contents.{AddsTo, body_left, WritesOne};

use crate::codec::statuses::{MISFIT, NOT_THERE};
use amqp_handle::{Content, HandleFault};
use amqp_outbox::BodyFault;

/// How many octets of the body are to come.
pub fn left_of(content: &Content) -> u64
    ensures { result ≡ body_left content.now }
{
    match &content.writer {
        Some(writer) => writer.left(),
        None => 0,
    }
}

pub fn with_added(content: &Content, count: u64) -> u64
    ensures { AddsTo content.now count result }
{
    match &content.writer {
        Some(writer) => writer.add_to(count),
        None => count,
    }
}

/// Writes a part of a body.
pub fn write_part(content: &mut Content, part: &[u8]) -> u32
    ensures { WritesOne content.old part.now result content.new }
{
    let Some(writer) = &mut content.writer else {
        return NOT_THERE;
    };
    if part.len() as u64 > writer.left() {
        return MISFIT;
    }
    content.octets.clear();
    match writer.write(part, &mut content.octets) {
        Ok(()) => 0,
        Err(BodyFault::TooLong) => MISFIT,
        Err(BodyFault::OutOfMemory) => HandleFault::OutOfMemory.number(),
    }
}

pub fn lend_octets<'a>(content: &'a mut Content) -> &'a [u8]
    ensures octets { result.now ≡ content.old.octets.items }
    ensures* after { sem 𝓛 (Rests content_row.the_row content.entry (λ new. new ≡ content.old)) }
{
    let content: &'a Content = content;
    &content.octets
}
