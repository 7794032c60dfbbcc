//! A content that a handle of its own holds: what is to be written of it next, and the rest of its body.
ghost use Rattle.amqp_calls.specs.Contents.{AddsTo, OctetsOf, OfContent, OpensContent, WritesBody, body_left};
ghost use Rattle.std.specs.Prelude.{◌≡◌};

use amqp_calls::contents::{left_of, lend_octets, with_added, write_part};
use amqp_calls::handles::status;
use amqp_handle::{Content, HandleFault, Held, Slot};
use std::alloc::Global;

/// Opens a handle for contents.
#[unsafe(no_mangle)]
pub extern "C" fn proved_content_open(slot: &mut Slot, alloc: Global) -> u32
    ensures { OpensContent slot.old.value result slot.new.value }
{
    let content = Content {
        writer: None,
        octets: Vec::new(alloc),
    };
    status(slot.open(alloc, Held::Content(content)))
}

/// How many octets are to come of the body of the content that was begun with a handle: 0 where none was.
#[unsafe(no_mangle)]
pub extern "C" fn proved_content_left(slot: &mut Slot, left: &mut u64) -> u32
    ensures left { OfContent slot.old.value (λ c. (result ≡ 0) × (left.new ≡ body_left c)) result }
    ensures same { slot.new.value ≡ slot.old.value }
{
    if !slot.is_open() {
        return HandleFault::NotOpen.number();
    }
    match slot.held() {
        Held::Content(content) => {
            *left = left_of(content);
            0
        }
        Held::Splitter(_) => HandleFault::OtherKind.number(),
    }
}

/// Adds to a count how many octets are to be written still, those around the body with them.
#[unsafe(no_mangle)]
pub extern "C" fn proved_content_add_to(slot: &mut Slot, count: &mut u64) -> u32
    ensures added { OfContent slot.old.value (λ c. (result ≡ 0) × AddsTo c count.old count.new) result }
    ensures same { slot.new.value ≡ slot.old.value }
{
    if !slot.is_open() {
        return HandleFault::NotOpen.number();
    }
    match slot.held() {
        Held::Content(content) => {
            *count = with_added(content, *count);
            0
        }
        Held::Splitter(_) => HandleFault::OtherKind.number(),
    }
}

/// Writes a part of the body of the content that was begun with a handle, as `BodyWriter::write` does, in the place of
/// the octets that are there.
#[unsafe(no_mangle)]
pub extern "C" fn proved_content_write(slot: &mut Slot, part: &[u8]) -> u32
    ensures { WritesBody slot.old.value part.now result slot.new.value }
{
    if !slot.is_open() {
        return HandleFault::NotOpen.number();
    }
    match slot.held() {
        Held::Content(content) => write_part(content, part),
        Held::Splitter(_) => HandleFault::OtherKind.number(),
    }
}

/// Lends the octets that are to be written next.
#[unsafe(no_mangle)]
pub extern "C" fn proved_content_octets<'a>(slot: &'a mut Slot, out: &mut &'a [u8]) -> u32
    ensures { OctetsOf slot.old.value result out.new.now }
{
    if !slot.is_open() {
        return HandleFault::NotOpen.number();
    }
    match slot.held() {
        Held::Content(content) => {
            *out = lend_octets(content);
            0
        }
        Held::Splitter(_) => HandleFault::OtherKind.number(),
    }
}
