//! Whether octets are a frame begun, a whole frame, or none.
ghost use Rattle.std.specs.Prelude.{◌≡◌, ◌+◌, ◌≤◌, ◌^◌, ◌<◌, ◌++◌, [], length, slice_index, IfOk, IsTrue, MatchOption, None, vec_len};
ghost use Rattle.amqp_frame.specs.Splitting.{size_of};
ghost use Rattle.amqp_frame.specs.Judged.{frame_read, judged as judgement_on};
ghost use Rattle.amqp_frame.specs.Judging.{IsBegun, IsJudged, IsWhole, lent_of, IsFilled, IsPlaced, ShowsFault, ShowsNoFault, judgement_view, pending_of};

use crate::faults::FrameFaultKind;
use crate::frames::{END, FrameKind, FrameRef, HEADER_LENGTH, OVERHEAD};
use byteorder::{BigEndian, ByteOrder};
use std::alloc::AllocError;

/// What a splitter's buffer holds.
#[derive(Clone, Copy)]
pub(crate) enum Held {
    /// Octets of a frame that isn't whole yet, or none.
    Begun,
    /// The frame that the last call gave.
    Given,
    /// Octets that are needed no more.
    Spent,
}

/// What octets that a frame begins are.
#[derive(Clone, Copy)]
pub(crate) enum Judgement<'a> {
    /// A part of a frame, with nothing wrong in it.
    Begun,
    /// The octet at the place, counted from the first, is the first to show the fault.
    Wrong(FrameFaultKind, usize),
    /// They begin with this frame.
    Whole(FrameRef<'a>),
}

/// How many octets the frame has that these begin.
#[inline]
fn frame_length(octets: &[u8]) -> usize
    requires { 7 ≤ length octets.now }
    ensures value { result ≡ size_of octets.now + 8 }
    ensures bound { result < 2 ^ 33 }
{
    BigEndian::read_u32(&octets[3..]) as usize + OVERHEAD
}

/// Looks at the type octet, the payload's size and the end octet alone.
#[inline(always)]
pub(crate) fn judge(octets: &[u8], limit: u32) -> Judgement<'_>
    ensures is { IsJudged limit octets.now result }
    ensures same { judgement_view result ≡ judgement_on limit octets.now }
    ensures place { IsPlaced octets.now result }
{
    if octets.is_empty() {
        return Judgement::Begun;
    }
    let Some(kind) = FrameKind::from_octet(octets[0]) else {
        return Judgement::Wrong(FrameFaultKind::UnknownType, 0);
    };
    if octets.len() < HEADER_LENGTH {
        return Judgement::Begun;
    }
    let length = frame_length(octets);
    if length > limit as usize {
        return Judgement::Wrong(FrameFaultKind::TooLarge, HEADER_LENGTH - 1);
    }
    if octets.len() < length {
        return Judgement::Begun;
    }
    if octets[length - 1] != END {
        return Judgement::Wrong(FrameFaultKind::BadEnd, length - 1);
    }
    Judgement::Whole(FrameRef {
        kind,
        channel: BigEndian::read_u16(&octets[1..]),
        payload: &octets[HEADER_LENGTH..length - 1],
    })
}

/// The octet at a place of octets that lie in two parts.
fn octet_at(pending: &[u8], piece: &[u8], place: usize) -> u8
    requires { place < length (pending.now ++ piece.now) }
    ensures { result ≡ slice_index (pending.now ++ piece.now) place }
{
    if place < pending.len() {
        pending[place]
    } else {
        piece[place - pending.len()]
    }
}

/// The total length of the frame that starts in octets that lie in two parts.
fn frame_length_across(pending: &[u8], piece: &[u8]) -> usize
    requires { 7 ≤ length (pending.now ++ piece.now) }
    ensures value { result ≡ size_of (pending.now ++ piece.now) + 8 }
    ensures bound { result < 2 ^ 33 }
{
    let size = [
        octet_at(pending, piece, 3),
        octet_at(pending, piece, 4),
        octet_at(pending, piece, 5),
        octet_at(pending, piece, 6),
    ];
    BigEndian::read_u32(&size) as usize + OVERHEAD
}

/// The fault that octets show which lie in two parts, and the place of the octet that shows it, counted from the first.
/// It is found before an octet is kept, so that no refusal of memory comes in its place.
pub(crate) fn fault_across(
    pending: &[u8],
    piece: &[u8],
    limit: u32,
) -> Option<(FrameFaultKind, usize)>
    ensures { MatchOption result (ShowsNoFault limit (pending.now ++ piece.now))
        (ShowsFault limit (pending.now ++ piece.now)) }
{
    let count = pending.len() + piece.len();
    if count == 0 {
        return None;
    }
    let Some(_kind) = FrameKind::from_octet(octet_at(pending, piece, 0)) else {
        return Some((FrameFaultKind::UnknownType, 0));
    };
    if count < HEADER_LENGTH {
        return None;
    }
    let total = frame_length_across(pending, piece);
    if total > limit as usize {
        return Some((FrameFaultKind::TooLarge, HEADER_LENGTH - 1));
    }
    if count < total {
        return None;
    }
    if octet_at(pending, piece, total - 1) != END {
        return Some((FrameFaultKind::BadEnd, total - 1));
    }
    None
}

/// Whether no fault was told and no octets are pending.
#[inline(always)]
pub(crate) fn is_between_frames(fault: Option<u64>, held: Held, buffer: &Vec<u8>) -> bool
    ensures no_fault { IsTrue result → fault ≡ None }
    ensures none_pending { IsTrue result → pending_of held buffer.now.items ≡ [] }
    ensures otherwise { fault ≡ None → pending_of held buffer.now.items ≡ [] → IsTrue result }
{
    if fault.is_some() {
        return false;
    }
    match held {
        Held::Begun => buffer.is_empty(),
        Held::Given => true,
        Held::Spent => true,
    }
}

/// A buffer of at most so many octets keeps its room, used or not.
pub(crate) const KEPT: usize = 16_384;

/// After so many frames in a row that needed no buffer a larger one gives its room back.
const UNUSED: u8 = 16;

/// Empties a buffer that the frame of this piece does not need, and gives its room back where that has happened often
/// enough. The answer is how often it has happened, counted anew from then.
#[inline(never)]
pub(crate) fn give_back(buffer: &mut Vec<u8>, unused: u8) -> u8
    ensures { buffer.new.items ≡ [] }
{
    buffer.clear();
    if unused < UNUSED {
        return unused + 1;
    }
    buffer.shrink_to(0);
    0
}

/// Empties a buffer whose octets are pending no more.
#[inline]
pub(crate) fn renew(buffer: &mut Vec<u8>, held: Held)
    ensures { buffer.new.items ≡ pending_of held buffer.old.items }
{
    match held {
        Held::Begun => {}
        Held::Given => buffer.clear(),
        Held::Spent => buffer.clear(),
    }
}

/// The frame that these octets are, of which no more is looked at than the type octet and the channel.
pub(crate) fn whole_frame(octets: &[u8]) -> Option<FrameRef<'_>>
    requires { IsWhole octets.now }
    ensures { lent_of result ≡ frame_read octets.now }
{
    let kind = FrameKind::from_octet(octets[0])?;
    Some(FrameRef {
        kind,
        channel: BigEndian::read_u16(&octets[1..]),
        payload: &octets[HEADER_LENGTH..octets.len() - 1],
    })
}

/// Appends octets of the piece up to the end of the frame that the buffer begins, or to the octet that shows that the
/// frame is longer than the limit, and says how many. Room is made for no octet that isn't there.
pub(crate) fn fill(buffer: &mut Vec<u8>, piece: &[u8], limit: u32) -> Result<usize, AllocError>
    requires { IsBegun limit buffer.old.items }
    ensures { IfOk result (λ taken. IsFilled limit buffer.old.items piece.now buffer.new.items taken) }
{
    let header = HEADER_LENGTH.saturating_sub(buffer.len()).min(piece.len());
    buffer.extend_from_slice(&piece[..header])?;
    if buffer.len() < HEADER_LENGTH {
        return Ok(header);
    }
    let end = frame_length(buffer);
    if end > limit as usize {
        return Ok(header);
    }
    let others = end.saturating_sub(buffer.len()).min(piece.len() - header);
    buffer.extend_from_slice(&piece[header..header + others])?;
    Ok(header + others)
}
