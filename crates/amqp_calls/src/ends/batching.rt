//! The events of a piece that is fed to an end, all in one call: here of one whose events lend.
ghost use Rattle.std.specs.Prelude.{◌≡◌, ◌<◌, false, is_some, length};
ghost use Rattle.std.specs.Borrow.{sem};
ghost use Rattle.std.specs.Io.BufRead.{Rests};
ghost use Rattle.amqp_core.specs.Stream.EventRefView.{event_ref_there, event_ref_view};
ghost use Rattle.amqp_core.specs.contracts.stream.StreamEnd as stream_row;
ghost use Rattle.amqp_handle.specs.contracts.kept.Kept as kept_row;
ghost use Rattle.amqp_calls.specs.Batches.{BatchKept, BatchOne};
ghost use Rattle.amqp_calls.specs.LentBatches.{HasRoom, LendsFrames, RestAnswer, RestKept, ShowsLast, TellsRest};
ghost use Rattle.amqp_calls.specs.LentEvents.{TellsEvent};

use crate::ends::events::SeenEvent;
use crate::ends::feeding::{FedEnd, tell_fault};
use crate::ends::gathering::gather_batch;
use crate::ends::lending::{BEGINS, HEADS, Lent, PART, show};
use amqp_core::{CoreFault, EventRef, Role, Step, StreamEnd};
use amqp_handle::{Gathering, Kept};

/// An event in its place of a batch, and how many octets of the piece were taken up to its end.
#[repr(C)]
#[derive(Clone, Copy)]
pub struct EventPlace<'a> {
    pub seen: SeenEvent<'a>,
    pub taken: usize,
}

/// The status of a batch. With it goes the loan of the end and of its gathering, which the events borrow from too, so
/// that a clause can say how they are left.
#[derive(Clone, Copy)]
pub struct Batch<'a> {
    pub status: u32,
    pub gathering: Option<&'a Gathering>,
}

/// An event of which nothing is known.
#[inline(always)]
pub(crate) fn nothing_seen<'a>(none: &'a [u8]) -> SeenEvent<'a> {
    SeenEvent {
        method: none,
        header: none,
        body: none,
        text: none,
        frame_max: 0,
        channel: 0,
        channel_max: 0,
        heartbeat: 0,
        code: 0,
        kind: 0,
        holds: false,
    }
}

/// Shows an event in its place. The kinds that come most often write all of it at once.
#[inline(always)]
pub(crate) fn show_in<'a>(
    event: EventRef<'a>,
    none: &'a [u8],
    taken: usize,
    place: &mut EventPlace<'a>,
)
    ensures { TellsEvent (event_ref_view event.entry) place.new.seen × (place.new.taken ≡ taken) }
{
    place.taken = taken;
    match event {
        EventRef::Begins(channel, method) => {
            place.seen = SeenEvent {
                method: method.payload(),
                channel,
                kind: BEGINS,
                ..nothing_seen(none)
            };
        }
        EventRef::Heads(channel, header, whole) => {
            place.seen = SeenEvent {
                header: header.payload(),
                channel,
                kind: HEADS,
                holds: whole,
                ..nothing_seen(none)
            };
        }
        EventRef::Part(channel, octets, whole) => {
            place.seen = SeenEvent {
                body: octets,
                channel,
                kind: PART,
                holds: whole,
                ..nothing_seen(none)
            };
        }
        EventRef::Method(channel, method) => {
            place.seen = SeenEvent {
                method: method.payload(),
                channel,
                kind: 3,
                holds: false,
                ..nothing_seen(none)
            };
        }
        other => {
            place.seen = nothing_seen(none);
            show(other, &mut place.seen);
        }
    }
}

/// Feeds an end with the frames that lie in a piece, as long as there is a place for the event of each. It answers the
/// step whose event, if there is one, doesn't lie in the piece.
#[inline(always)]
fn lend_frames<'a, R: Role>(
    end: &mut StreamEnd<R>,
    piece: &'a [u8],
    places: &mut [EventPlace<'a>],
    fed: &mut FedEnd,
    count: &mut usize,
) -> Result<Option<Step<'a>>, CoreFault>
    ensures { LendsFrames end.old piece.now places.old result fed.new.taken count.new places.new end.new }
{
    let none = &piece[..0];
    let mut rest = piece;
    let mut shown = 0;
    while shown < places.len() && !rest.is_empty() {
        match end.advance(rest) {
            Ok(step) => {
                rest = &rest[step.octets..];
                let taken = piece.len() - rest.len();
                match step.in_piece() {
                    Some(event) => {
                        show_in(event, none, taken, &mut places[shown]);
                        shown += 1;
                    }
                    None => {
                        fed.taken = taken;
                        *count = shown;
                        return Ok(Some(step));
                    }
                }
            }
            Err(fault) => {
                fed.taken = piece.len() - rest.len();
                *count = shown;
                return Err(fault);
            }
        }
    }
    fed.taken = piece.len() - rest.len();
    *count = shown;
    Ok(None)
}

/// What an end answers to a piece, once the events of the frames that lie in it are shown.
#[inline(always)]
fn lend_rest<'a, R: Role>(
    kept: &'a mut Kept<StreamEnd<R>>,
    piece: &'a [u8],
    places: &mut [EventPlace<'a>],
    fed: &mut FedEnd,
    count: &mut usize,
) -> Result<Option<Lent<'a, R>>, CoreFault>
    ensures answers { RestAnswer kept.old.end.value piece.now places.old result fed.new.taken count.new places.new }
    ensures* after { sem 𝓛 (Rests (kept_row.the_row (stream_row.the_row R.row R.Hello.row R.Role)) kept.entry
        (λ new. RestKept kept.old piece.now places.old result fed.new.taken count.new places.new new)) }
{
    match lend_frames(&mut kept.end, piece, places, fed, count) {
        Ok(None) => Ok(None),
        Ok(Some(step)) => {
            let kept: &'a Kept<StreamEnd<R>> = kept;
            Ok(Some(Lent {
                end: &kept.end,
                step,
            }))
        }
        Err(fault) => Err(fault),
    }
}

/// Shows the event of a frame that doesn't lie in the piece, if there is one.
#[inline(always)]
fn show_last<'a>(
    event: Option<EventRef<'a>>,
    none: &'a [u8],
    taken: usize,
    places: &mut [EventPlace<'a>],
    count: &mut usize,
)
    requires { count.old < length places.old }
    ensures { ShowsLast (event_ref_there event.entry) count.old taken places.old count.new places.new }
{
    match event {
        Some(event) => {
            show_in(event, none, taken, &mut places[*count]);
            *count += 1;
        }
        None => {}
    }
}

/// What came of a piece after the frames that lie in it, as it is reported.
fn tell_rest<'a, R: Role>(
    answer: Result<Option<Lent<'a, R>>, CoreFault>,
    none: &'a [u8],
    places: &mut [EventPlace<'a>],
    fed: &mut FedEnd,
    count: &mut usize,
) -> u32
    requires { HasRoom answer count.old (length places.old) }
    ensures { TellsRest answer.entry fed.old.taken count.old places.old result fed.new count.new places.new }
{
    match answer {
        Ok(None) => 0,
        Ok(Some(lent)) => {
            show_last(lent.end.event(lent.step), none, fed.taken, places, count);
            0
        }
        Err(fault) => tell_fault(fault, fed),
    }
}

/// Feeds an end that lends with a piece, and shows the events.
#[inline(always)]
fn lend_batch<'a, R: Role>(
    kept: &'a mut Kept<StreamEnd<R>>,
    piece: &'a [u8],
    places: &mut [EventPlace<'a>],
    fed: &mut FedEnd,
    count: &mut usize,
) -> Batch<'a>
    requires { is_some kept.old.gathering ≡ false }
    ensures answers { BatchOne kept.old piece.now places.old result.status fed.new count.new places.new }
    ensures* after { sem 𝓛 (Rests (kept_row.the_row (stream_row.the_row R.row R.Hello.row R.Role)) kept.entry
        (λ new. BatchKept kept.old piece.now places.old result.status fed.new count.new places.new new)) }
{
    let answer = lend_rest(kept, piece, places, fed, count);
    Batch {
        status: tell_rest(answer, &piece[..0], places, fed, count),
        gathering: None,
    }
}

/// Feeds an end with a piece, and shows the events: those that it lends, or those of contents that it gathers.
#[inline(always)]
pub fn batch_one<'a, R: Role>(
    kept: &'a mut Kept<StreamEnd<R>>,
    piece: &'a [u8],
    places: &mut [EventPlace<'a>],
    fed: &mut FedEnd,
    count: &mut usize,
) -> Batch<'a>
    ensures answers { BatchOne kept.old piece.now places.old result.status fed.new count.new places.new }
    ensures* after { sem 𝓛 (Rests (kept_row.the_row (stream_row.the_row R.row R.Hello.row R.Role)) kept.entry
        (λ new. BatchKept kept.old piece.now places.old result.status fed.new count.new places.new new)) }
{
    if kept.gathering.is_none() {
        return lend_batch(kept, piece, places, fed, count);
    }
    let batch = gather_batch(kept, piece, places, fed, count);
    Batch {
        status: batch.status,
        gathering: Some(batch.gathering),
    }
}
