//! Contents that C writes by several slices, their bodies where they lie.
ghost use Rattle.std.specs.Prelude.{◌≡◌, true};
ghost use Rattle.amqp_method.specs.HeaderView.{header_view, properties_view};
ghost use Rattle.amqp_method.specs.Kinds.{has_content};
ghost use Rattle.amqp_method.specs.MethodView.{method_view};
ghost use Rattle.amqp_outbox.specs.LentFrames.{content_left};
ghost use Rattle.amqp_calls.specs.LentContents.{LendsAfter, LendsCall, LendsKept, LendsOne, LendsSized, LendsWith, Places};

use crate::codec::statuses::MISFIT;
use crate::contents::left_of;
use crate::ends::beginning::{WAITS, lend_fault};
use crate::ends::messages::{own_header, own_method};
use amqp_core::{Role, StreamEnd};
use amqp_handle::{Content, HandleFault, Held, Kept, Slot};
use amqp_method::{Header, Method, Properties};
use amqp_outbox::ContentFrames;
use std::alloc::Global;

/// There are more pieces than places.
const CUT: u32 = 12;

/// Octets that lie together, as they cross to C.
#[repr(C)]
#[derive(Clone, Copy)]
pub struct Piece<'a> {
    pub octets: &'a [u8],
}

/// Puts what frames lend into places, piece by piece.
fn place<'a>(frames: ContentFrames<'a>, pieces: &mut [Piece<'a>], count: &mut usize) -> u32
    ensures { Places (content_left frames.entry) pieces.old result count.new pieces.new }
{
    let mut left = frames;
    let mut placed = 0;
    while placed < pieces.len() {
        match left.next_piece() {
            Some(octets) => {
                pieces[placed] = Piece { octets };
                placed += 1;
            }
            None => {
                *count = placed;
                return 0;
            }
        }
    }
    *count = placed;
    if left.is_empty() { 0 } else { CUT }
}

/// Lends a content.
fn lend<'a, R: Role>(
    kept: &mut Kept<StreamEnd<R>>,
    octets: &'a mut Vec<u8>,
    channel: u16,
    method: &Method,
    properties: &Properties,
    body: &'a [u8],
    pieces: &mut [Piece<'a>],
    count: &mut usize,
) -> u32
    requires { has_content (method_view method.now).kind ≡ true }
    ensures { LendsKept kept.old channel (method_view method.now) (properties_view properties.now) body.now pieces.old
        result count.new pieces.new kept.new }
{
    match kept
        .end
        .lend_content(channel, method, properties, body, octets)
    {
        Ok(frames) => place(frames, pieces, count),
        Err(fault) => lend_fault(fault),
    }
}

/// Lends a content, if its header says the body's size.
fn lend_sized<'a, R: Role>(
    kept: &mut Kept<StreamEnd<R>>,
    octets: &'a mut Vec<u8>,
    channel: u16,
    method: &Method,
    header: &Header,
    body: &'a [u8],
    pieces: &mut [Piece<'a>],
    count: &mut usize,
) -> u32
    requires { has_content (method_view method.now).kind ≡ true }
    ensures { LendsSized kept.old channel (method_view method.now) (header_view header.now) body.now pieces.old result
        count.new pieces.new kept.new }
{
    if header.body_size != body.len() as u64 {
        return MISFIT;
    }
    lend(
        kept,
        octets,
        channel,
        method,
        &header.properties,
        body,
        pieces,
        count,
    )
}

/// Lends a content with the header of these octets.
fn lend_call<'a, R: Role>(
    alloc: Global,
    kept: &mut Kept<StreamEnd<R>>,
    octets: &'a mut Vec<u8>,
    channel: u16,
    method: &Method,
    header: &[u8],
    body: &'a [u8],
    pieces: &mut [Piece<'a>],
    count: &mut usize,
) -> u32
    requires { has_content (method_view method.now).kind ≡ true }
    ensures { LendsCall kept.old channel (method_view method.now) header.now body.now pieces.old result count.new
        pieces.new kept.new }
{
    match own_header(alloc, header) {
        Ok(made) => {
            let answer = lend_sized(kept, octets, channel, method, &made, body, pieces, count);
            drop(made);
            answer
        }
        Err(fault) => fault.number(),
    }
}

/// Lends a content with the method, if a content follows it.
fn lend_after<'a, R: Role>(
    alloc: Global,
    kept: &mut Kept<StreamEnd<R>>,
    octets: &'a mut Vec<u8>,
    channel: u16,
    method: &Method,
    header: &[u8],
    body: &'a [u8],
    pieces: &mut [Piece<'a>],
    count: &mut usize,
) -> u32
    ensures { LendsAfter kept.old channel (method_view method.now) header.now body.now pieces.old result count.new
        pieces.new kept.new }
{
    if !method.has_content() {
        return MISFIT;
    }
    lend_call(
        alloc, kept, octets, channel, method, header, body, pieces, count,
    )
}

/// Lends a content with the method and the header of these octets.
fn lend_one<'a, R: Role>(
    alloc: Global,
    kept: &mut Kept<StreamEnd<R>>,
    content: &'a mut Content,
    channel: u16,
    method: &[u8],
    header: &[u8],
    body: &'a [u8],
    pieces: &mut [Piece<'a>],
    count: &mut usize,
) -> u32
    ensures { LendsOne kept.old content.old channel method.now header.now body.now pieces.old result count.new
        pieces.new kept.new }
{
    if left_of(content) > 0 {
        return WAITS;
    }
    match own_method(alloc, method) {
        Ok(made) => lend_after(
            alloc,
            kept,
            &mut content.octets,
            channel,
            &made,
            header,
            body,
            pieces,
            count,
        ),
        Err(fault) => fault.number(),
    }
}

/// Lends a content with a handle, if it is one for contents.
pub fn lend_with<'a, R: Role>(
    alloc: Global,
    kept: &mut Kept<StreamEnd<R>>,
    slot: &'a mut Slot,
    channel: u16,
    method: &[u8],
    header: &[u8],
    body: &'a [u8],
    pieces: &mut [Piece<'a>],
    count: &mut usize,
) -> u32
    ensures { LendsWith kept.old slot.old.value channel method.now header.now body.now pieces.old result count.new
        pieces.new kept.new }
{
    if !slot.is_open() {
        return HandleFault::NotOpen.number();
    }
    match slot.held() {
        Held::Content(content) => lend_one(
            alloc, kept, content, channel, method, header, body, pieces, count,
        ),
        Held::Splitter(_) => HandleFault::OtherKind.number(),
    }
}
