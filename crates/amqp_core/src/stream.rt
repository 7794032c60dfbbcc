//! One end of a connection whose events lend: each frame of a content is an event as it comes, and no octet of it is kept.
ghost use Rattle.std.specs.Prelude.{◌≡◌, ◌≢◌, ◌<◌, ◌≤◌, true, [], length, IfOk};
ghost use Rattle.std.specs.Borrow.{sem};
ghost use Rattle.std.specs.Io.BufRead.{Rests};
ghost use Rattle.std.proofs.Props.{props};
ghost use Rattle.amqp_model.specs.End.Asks as asks;
ghost use Rattle.amqp_core.specs.End.Counters.{counted_in};
ghost use Rattle.amqp_core.specs.End.EndpointView.{role_at};
ghost use Rattle.amqp_core.specs.Stream.EventRefView.{event_ref_there};
ghost use Rattle.amqp_core.specs.End.Kept.{IsKept, agreed_prop};
ghost use Rattle.amqp_core.specs.Stream.StepView.{came_lent, read_in, step_seen, told_of};

use crate::asks::{Ask, LentAsk};
use crate::endpoint::Endpoint;
use crate::event_ref::EventRef;
use crate::faults::{AskFault, CoreFault};
use crate::heard::Heard;
use crate::roles::Role;
use crate::stage::Phase;
use crate::step::{Came, Report, Step, lend_report};
use crate::taken::TakenRef;
use amqp_channel::{Agreed, ChannelState, Reading};
use amqp_method::{Kind, Message};
use amqp_model::{
    answers, arrangement, bounds, fitting, heard, octets, one_end, replies, streaming, traces,
};
use amqp_value::ShortStr;
use std::marker::PhantomData;

/// One end of a connection whose events lend: a method, a content's method, its header and the parts of its body are
/// told as they lie in the octets, frame by frame. No memory is taken for a frame that lies whole in its piece, and
/// the memory of a content under way does not grow with its body.
///
///     let mut rest = &buffer[..read];
///     while !rest.is_empty() {
///         let taken = end.feed_ref(rest)?;
///         rest = &rest[taken.octets..];
///         if let Some(event) = taken.event {
///             handle(event)?;
///         }
///     }
///
/// The event is gone with the next call. A loop that asks while it hears takes a [`Step`] with
/// [`StreamEnd::advance`], and its event with [`StreamEnd::event`].
///
/// A content that was begun ends with the event that says that it is whole. One that ends by [`EventRef::Discarded`],
/// by a close or by a fault never was. All else is as at [`End`](crate::End).
#[derive(Drop)]
pub struct StreamEnd<R: Role> {
    pub(crate) inner: Endpoint,
    pub(crate) role: PhantomData<R>,
    /// how many frames were taken, and how many octets of the output were written, up to the greatest number
    pub(crate) frames_taken: u64,
    pub(crate) octets_written: u64,
    pub(crate) heard: Heard,
    pub ghost kept: { IsKept inner } by { Prim.hlevel (props, agreed_prop) },
    pub ghost plays: { role_at inner ≡ R.role },
    pub ghost lends: { inner.connection.settings.lends ≡ true },
}

/// One more where a frame was taken.
fn counted(before: u64, answer: &Result<Step<'_>, CoreFault>) -> u64
    ensures { result ≡ counted_in answer.now before }
{
    match answer {
        Ok(Step { came: Some(_), .. }) => before.saturating_add(1),
        Ok(Step { came: None, .. }) => before,
        Err(_) => before,
    }
}

impl<R: Role> StreamEnd<R> {
    ghost use Rattle.amqp_core.specs.Stream.Lends.{Lends};
    ghost use Rattle.amqp_core.specs.Stream.View.{counters_of, given_in, taken_seen};
    ghost use Rattle.amqp_core.specs.contracts.stream.StreamEnd.{the_row};

    /// Takes octets of a piece, as [`End::feed`](crate::End::feed) does, and lends what they tell: from the piece
    /// where the frame lies whole in it, and from the end otherwise.
    #[inline(always)]
    pub fn feed_ref<'a>(&'a mut self, piece: &'a [u8]) -> Result<TakenRef<'a>, CoreFault>
        ensures within { IfOk result (λ taken. taken.octets ≤ length piece.now) }
        ensures progress { IfOk result (λ taken. piece.now ≢ [] → 0 < taken.octets) }
        ensures* after { sem 𝓛 (Rests (the_row R.row R.Hello.row R.Role) self.entry
            (λ new. Lends self.old piece.now (taken_seen result) new)) }
    {
        let step = self.advance(piece)?;
        let end: &'a StreamEnd<R> = self;
        Ok(TakenRef {
            octets: step.octets,
            event: end.event(step),
        })
    }

    /// Takes octets as [`StreamEnd::feed_ref`] does. What came of them borrows the piece alone.
    #[inline(always)]
    pub fn advance<'a>(&mut self, piece: &'a [u8]) -> Result<Step<'a>, CoreFault>
        ensures lends { Lends self.old piece.now (step_seen result (given_in self.new)) self.new }
        // A frame that is taken is counted.
        ensures frames { (counters_of self.new).frames ≡ counted_in result (counters_of self.old).frames }
    {
        octets::octets_follow();
        octets::cut_changes_nothing();
        traces::memory_runs_out();
        one_end::failed_follows();
        streaming::alike_endpoints_stay_alike();
        heard::heard_is_kept();
        let answer = self.inner.advance(piece, &mut self.heard);
        self.frames_taken = counted(self.frames_taken, &answer);
        answer
    }

    /// The event of the last step, until the next piece is taken.
    #[inline(always)]
    pub fn event<'a>(&'a self, step: Step<'a>) -> Option<EventRef<'a>>
        ensures { event_ref_there result ≡ came_lent step.entry.came (given_in self.now) }
    {
        match step.came? {
            Came::Told(event) => Some(event),
            Came::Buffered(number, report) => self.buffered_event(number, report),
        }
    }

    /// The event of the frame in the end's buffer. It stands apart, since most frames lie in the piece.
    #[inline(never)]
    fn buffered_event<'a>(&'a self, number: u16, report: Report) -> Option<EventRef<'a>>
        ensures { event_ref_there result ≡ told_of number (read_in (given_in self.now)) report }
    {
        let frame = self.inner.splitter.buffered()?;
        lend_report(number, Reading::of(frame), report)
    }
}
