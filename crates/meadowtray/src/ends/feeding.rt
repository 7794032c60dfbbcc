//! Octets fed to the end of a handle, and the events that come of them.
ghost use Rattle.amqp_calls.specs.Batches.{FeedsBatch};
ghost use Rattle.amqp_calls.specs.LentEvents.{FeedsLent};

use amqp_calls::ends::batching::{EventPlace, batch_one};
use amqp_calls::ends::events::SeenEvent;
use amqp_calls::ends::feeding::FedEnd;
use amqp_calls::ends::lending::lend_one;
use amqp_handle::{EndSlot, HandleFault, HeldEnd};

/// Feeds the end of a handle whose events lend, as `StreamEnd::feed_ref` does, and shows the event. What an event of
/// its kind hasn't stays as it is.
#[unsafe(no_mangle)]
pub extern "C" fn proved_end_feed_lent<'a>(
    slot: &'a mut EndSlot,
    piece: &'a [u8],
    fed: &mut FedEnd,
    out: &mut SeenEvent<'a>,
) -> u32
    ensures { FeedsLent slot.old.value piece.now result fed.new out.new }
{
    if !slot.is_open() {
        return HandleFault::NotOpen.number();
    }
    match slot.held() {
        HeldEnd::Client(kept) => lend_one(kept, piece, fed, out),
        HeldEnd::Server(kept) => lend_one(kept, piece, fed, out),
    }
}

/// Feeds the end of a handle with a piece, as `StreamEnd::feed_ref` does again and again, and shows each event in a
/// place, of an end that gathers each content once it is whole. It stops where the piece ends, where no place is left,
/// at a fault, and after the first frame that doesn't lie in the piece.
#[unsafe(no_mangle)]
pub extern "C" fn proved_end_feed_batch<'a>(
    slot: &'a mut EndSlot,
    piece: &'a [u8],
    places: &mut [EventPlace<'a>],
    fed: &mut FedEnd,
    count: &mut usize,
) -> u32
    ensures { FeedsBatch slot.old.value piece.now places.old result fed.new count.new places.new }
{
    if !slot.is_open() {
        return HandleFault::NotOpen.number();
    }
    match slot.held() {
        HeldEnd::Client(kept) => batch_one(kept, piece, places, fed, count).status,
        HeldEnd::Server(kept) => batch_one(kept, piece, places, fed, count).status,
    }
}
