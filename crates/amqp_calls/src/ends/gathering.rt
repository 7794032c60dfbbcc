//! The events of a piece that is fed to an end that gathers contents, all in one call.
//!
//! The event of a frame is shown as it lies in the piece, or in the end's buffer. Of a content that is whole, what
//! came before its last part has the gathering's place of the same number; it is shown once all is fed.
ghost use Rattle.std.specs.Prelude.{◌≡◌, ◌<◌, ◌≤◌, true, is_some, length, slice_get};
ghost use Rattle.std.specs.Borrow.{sem};
ghost use Rattle.std.specs.Io.BufRead.{Rests};
ghost use Rattle.amqp_core.specs.Stream.EventRefView.{event_ref_there, event_ref_view};
ghost use Rattle.amqp_core.specs.contracts.stream.StreamEnd as stream_row;
ghost use Rattle.amqp_handle.specs.Gathered.{StaysBefore};
ghost use Rattle.amqp_handle.specs.contracts.kept.Kept as kept_row;
ghost use Rattle.amqp_calls.specs.Batches.{BatchKept, BatchOne};
ghost use Rattle.amqp_calls.specs.GatheredBatches.{Completes, CompletesAt, CompletesEach, Finishes, GathersFrames, GathersLast, GathersRest, GathersStep, ShowsAt};

use crate::ends::batching::{EventPlace, nothing_seen, show_in};
use crate::ends::events::SeenEvent;
use crate::ends::feeding::{FAILED, FedEnd, OUT_OF_MEMORY, tell_fault};
use amqp_core::{EventRef, Role, Step, StreamEnd};
use amqp_handle::{Gathered, Gathering, Kept, OutOfMemory, Parts};

/// The number of a method without content, and of a content that is whole, which holds.
const TOLD: u8 = 3;

/// Shows an event in its place, and answers whether there is one. Of a content that is whole, it shows the last
/// part.
#[inline(always)]
fn show_told<'a>(
    told: Gathered<'a>,
    none: &'a [u8],
    taken: usize,
    place: &mut EventPlace<'a>,
) -> bool
    ensures { ShowsAt told.entry taken place.old result place.new }
{
    match told {
        Gathered::Nothing => false,
        Gathered::Event(event) => {
            show_in(event, none, taken, place);
            true
        }
        Gathered::Whole(channel, last) => {
            place.taken = taken;
            place.seen = SeenEvent {
                body: last,
                channel,
                kind: TOLD,
                holds: true,
                ..nothing_seen(none)
            };
            true
        }
    }
}

/// Gathers an event that lies in the piece, and shows what comes of it in the next place.
#[inline(always)]
fn gather_event<'a>(
    gathering: &mut Gathering,
    event: EventRef<'a>,
    none: &'a [u8],
    taken: usize,
    places: &mut [EventPlace<'a>],
    count: &mut usize,
) -> Result<(), OutOfMemory>
    requires { count.old < length places.old }
    ensures step { GathersStep gathering.old (event_ref_view event.entry) taken places.old count.old result
        gathering.new places.new count.new }
    ensures stays { StaysBefore count.old gathering.old.places.items gathering.new.places.items }
{
    let alloc = *gathering.places.allocator();
    match gathering.take_event(alloc, *count, event) {
        Ok(told) => {
            if show_told(told, none, taken, &mut places[*count]) {
                *count += 1;
            }
            Ok(())
        }
        Err(fault) => {
            gathering.is_lost = true;
            Err(fault)
        }
    }
}

/// Feeds an end with the frames that lie in a piece, as long as there is a place for the next event. It
/// answers the step whose event, if there is one, doesn't lie in the piece, or the status of what went wrong.
#[inline(always)]
fn gather_frames<'a, R: Role>(
    end: &mut StreamEnd<R>,
    gathering: &mut Gathering,
    piece: &'a [u8],
    places: &mut [EventPlace<'a>],
    fed: &mut FedEnd,
    count: &mut usize,
) -> Result<Option<Step<'a>>, u32>
    ensures { GathersFrames end.old gathering.old piece.now places.old result fed.new count.new places.new end.new
        gathering.new }
{
    let none = &piece[..0];
    let mut rest = piece;
    *count = 0;
    fed.taken = 0;
    while *count < places.len() {
        match end.advance(rest) {
            Ok(step) => {
                rest = &rest[step.octets..];
                fed.taken = piece.len() - rest.len();
                let Some(event) = step.in_piece() else {
                    return Ok(Some(step));
                };
                let Ok(()) = gather_event(gathering, event, none, fed.taken, places, count) else {
                    return Err(OUT_OF_MEMORY);
                };
                if rest.is_empty() {
                    return Ok(None);
                }
            }
            Err(fault) => return Err(tell_fault(fault, fed)),
        }
    }
    Ok(None)
}

/// Gathers the event of a frame that doesn't lie in the piece, if there is one, and shows what comes of it.
#[inline(never)]
fn gather_last<'a>(
    gathering: &mut Gathering,
    event: Option<EventRef<'a>>,
    none: &'a [u8],
    taken: usize,
    places: &mut [EventPlace<'a>],
    count: &mut usize,
) -> u32
    requires { count.old < length places.old }
    ensures last { GathersLast gathering.old (event_ref_there event.entry) taken places.old count.old result
        gathering.new places.new count.new }
    ensures stays { StaysBefore count.old gathering.old.places.items gathering.new.places.items }
{
    let alloc = *gathering.places.allocator();
    match gathering.take(alloc, *count, event) {
        Ok(told) => {
            if show_told(told, none, taken, &mut places[*count]) {
                *count += 1;
            }
            0
        }
        Err(_) => {
            gathering.is_lost = true;
            OUT_OF_MEMORY
        }
    }
}

/// Shows the payloads of a content that is whole, and its body, if a part of that came before the last one.
#[inline(always)]
fn complete<'a>(parts: &'a Parts, seen: &mut SeenEvent<'a>)
    ensures { Completes parts.now seen.old seen.new }
{
    if seen.kind == TOLD && seen.holds {
        seen.method = &parts.method;
        seen.header = &parts.header;
        if !parts.body.is_empty() {
            seen.body = &parts.body;
        }
    }
}

/// Shows them of what has a place, with the gathering's place of this number, if that is there.
#[inline(always)]
fn complete_at<'a>(parts: &'a [Parts], at: usize, place: &mut EventPlace<'a>)
    ensures { CompletesAt (slice_get parts.now at) place.old place.new }
{
    if at < parts.len() {
        complete(&parts[at], &mut place.seen);
    }
}

/// Shows them of each content in the first places.
#[inline(always)]
fn complete_each<'a>(parts: &'a [Parts], places: &mut [EventPlace<'a>], count: usize)
    requires { count ≤ length places.old }
    ensures { CompletesEach parts.now count places.old places.new }
{
    for at in 0..count {
        complete_at(parts, at, &mut places[at]);
    }
}

/// The status of a batch, and the gathering that its events borrow from.
#[derive(Clone, Copy)]
pub(crate) struct GatheredBatch<'a> {
    pub(crate) status: u32,
    pub(crate) gathering: &'a Gathering,
}

/// Ends a batch: each content is shown whole.
#[inline(always)]
fn finish<'a, R: Role>(
    kept: &'a Kept<StreamEnd<R>>,
    status: u32,
    places: &mut [EventPlace<'a>],
    count: usize,
) -> GatheredBatch<'a>
    requires { (is_some kept.now.gathering ≡ true) × (count ≤ length places.old) }
    ensures status { result.status ≡ status }
    ensures whole { Finishes kept.now.gathering count places.old places.new }
{
    let Some(gathering) = &kept.gathering else {
        unreachable!()
    };
    complete_each(&gathering.places, places, count);
    GatheredBatch { status, gathering }
}

/// Gathers the event of a frame that doesn't lie in the piece, if there is one, and ends the batch.
#[inline(always)]
fn gather_rest<'a, R: Role>(
    kept: &'a mut Kept<StreamEnd<R>>,
    step: Step<'a>,
    none: &'a [u8],
    taken: usize,
    places: &mut [EventPlace<'a>],
    count: &mut usize,
) -> GatheredBatch<'a>
    requires { (is_some kept.old.gathering ≡ true) × (count.old < length places.old) }
    ensures* after { sem 𝓛 (Rests (kept_row.the_row (stream_row.the_row R.row R.Hello.row R.Role)) kept.entry
        (λ new. GathersRest kept.old step.entry taken places.old count.old result.status count.new places.new new)) }
{
    let end: &'a StreamEnd<R> = &kept.end;
    let Some(gathering) = &mut kept.gathering else {
        unreachable!()
    };
    let status = gather_last(gathering, end.event(step), none, taken, places, count);
    let gathering: &'a Gathering = gathering;
    complete_each(&gathering.places, places, *count);
    GatheredBatch { status, gathering }
}

/// Feeds an end that gathers with a piece, gathers its contents, and shows the events.
#[inline(never)]
pub(crate) fn gather_batch<'a, R: Role>(
    kept: &'a mut Kept<StreamEnd<R>>,
    piece: &'a [u8],
    places: &mut [EventPlace<'a>],
    fed: &mut FedEnd,
    count: &mut usize,
) -> GatheredBatch<'a>
    requires { is_some kept.old.gathering ≡ true }
    ensures answers { BatchOne kept.old piece.now places.old result.status fed.new count.new places.new }
    ensures* after { sem 𝓛 (Rests (kept_row.the_row (stream_row.the_row R.row R.Hello.row R.Role)) kept.entry
        (λ new. BatchKept kept.old piece.now places.old result.status fed.new count.new places.new new)) }
{
    let Kept { end, gathering } = &mut *kept;
    let Some(gathering) = gathering else {
        unreachable!()
    };
    if gathering.is_lost {
        *count = 0;
        fed.taken = 0;
        let kept: &'a Kept<StreamEnd<R>> = kept;
        return finish(kept, FAILED, places, 0);
    }
    match gather_frames(end, gathering, piece, places, fed, count) {
        Ok(None) => {
            let kept: &'a Kept<StreamEnd<R>> = kept;
            finish(kept, 0, places, *count)
        }
        Ok(Some(step)) => gather_rest(kept, step, &piece[..0], fed.taken, places, count),
        Err(status) => {
            let kept: &'a Kept<StreamEnd<R>> = kept;
            finish(kept, status, places, *count)
        }
    }
}
