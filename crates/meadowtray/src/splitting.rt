//! A splitter that a handle holds.
ghost use Rattle.amqp_calls.specs.SplitPieces.{SplitsHandle};
ghost use Rattle.amqp_calls.specs.Splitters.{FeedsSplitter, OfSplitter, OpensSplitter, SetsLimit};
ghost use Rattle.std.specs.Prelude.{length, ◌≡◌};

use amqp_calls::handles::status;
use amqp_calls::splitting::{
    FedFrame, LEAST_LIMIT, SplitPiece, fed, holds_splitter, split, splitter, told,
};
use amqp_frame::Splitter;
use amqp_handle::{HandleFault, Held, Slot};
use std::alloc::Global;

/// Opens a handle with a splitter at the beginning of a stream. The limit counts all octets of a frame, and is 8 at
/// least.
#[unsafe(no_mangle)]
pub extern "C" fn proved_splitter_open(slot: &mut Slot, alloc: Global, limit: u32) -> u32
    ensures { OpensSplitter slot.old.value limit result slot.new.value }
{
    if limit < LEAST_LIMIT {
        return HandleFault::Limit.number();
    }
    status(slot.open(alloc, Held::Splitter(Splitter::new(alloc, limit))))
}

/// Feeds the splitter of a handle, as `Splitter::feed_ref` does, and puts what it gave into `out`.
#[unsafe(no_mangle)]
pub extern "C" fn proved_splitter_feed<'a>(
    slot: &'a mut Slot,
    piece: &'a [u8],
    out: &mut FedFrame<'a>,
) -> u32
    ensures { FeedsSplitter slot.old.value piece.now result out.new }
{
    if !slot.is_open() {
        return HandleFault::NotOpen.number();
    }
    if !holds_splitter(slot) {
        return HandleFault::OtherKind.number();
    }
    told(fed(slot, piece), out)
}

/// Feeds the splitter of a handle with the frames that lie in a piece, and puts them into `frames`. Where a frame began
/// in an earlier piece, nothing is taken.
#[unsafe(no_mangle)]
pub extern "C" fn proved_splitter_split<'a>(
    slot: &mut Slot,
    piece: &'a [u8],
    frames: &mut [FedFrame<'a>],
    out: &mut SplitPiece,
) -> u32
    ensures { SplitsHandle slot.old.value piece.now frames.old result out.new frames.new slot.new.value }
{
    if !slot.is_open() {
        return HandleFault::NotOpen.number();
    }
    match slot.held() {
        Held::Splitter(splitter) => {
            if splitter.pending() > 0 {
                out.taken = 0;
                out.count = 0;
                out.cut = true;
                return 0;
            }
            split(splitter, piece, frames, out)
        }
        Held::Content(_) => HandleFault::OtherKind.number(),
    }
}

/// How many octets were taken of a frame that isn't whole yet.
#[unsafe(no_mangle)]
pub extern "C" fn proved_splitter_pending(slot: &mut Slot, out: &mut usize) -> u32
    ensures pending { OfSplitter slot.old.value (λ s. (result ≡ 0) × (out.new ≡ length s.pending)) result }
    ensures same { slot.new.value ≡ slot.old.value }
{
    if !slot.is_open() {
        return HandleFault::NotOpen.number();
    }
    match slot.held() {
        Held::Splitter(splitter) => {
            *out = splitter.pending();
            0
        }
        Held::Content(_) => HandleFault::OtherKind.number(),
    }
}

/// Changes the limit, between two frames.
#[unsafe(no_mangle)]
pub extern "C" fn proved_splitter_set_limit(slot: &mut Slot, limit: u32) -> u32
    ensures { SetsLimit slot.old.value limit result slot.new.value }
{
    if !slot.is_open() {
        return HandleFault::NotOpen.number();
    }
    match slot.held() {
        Held::Splitter(splitter) => {
            if limit < LEAST_LIMIT || splitter.pending() > 0 {
                return HandleFault::Limit.number();
            }
            splitter.set_limit(limit);
            0
        }
        Held::Content(_) => HandleFault::OtherKind.number(),
    }
}
