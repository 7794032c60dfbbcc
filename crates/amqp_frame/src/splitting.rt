//! A stream of octets, cut into pieces anywhere, split into its frames.
ghost use Rattle.std.specs.Prelude.{◌≡◌, ◌≢◌, ◌<◌, ◌≤◌, [], length, take, None, Ok, IsOk, IfOk, IfErr, IfSome, IfNone};
ghost use Rattle.std.specs.Borrow.{sem};
ghost use Rattle.amqp_frame.specs.Judging.{lent_of};
ghost use Rattle.amqp_frame.specs.Splitter.{Completes, Waits, Faults, LacksMemoryIfNeeded, HasFrameAtStart, OfGiven, LiesAt, after_advance};

use crate::faults::{FrameFault, FrameFaultKind};
use crate::frames::{FrameRef, OVERHEAD, RawFrame};
use crate::judging::{
    Held, Judgement, KEPT, fault_across, fill, give_back, is_between_frames, judge, renew,
    whole_frame,
};
use std::alloc::Global;
use std::marker::Model;

/// What a piece gave: how many of its octets were taken, and the frame that the last of them ends.
#[derive(PartialEq, Eq, Debug, Drop)]
pub struct Fed {
    pub taken: usize,
    pub frame: Option<RawFrame>,
}

/// The same with a frame that is lent, from the piece or from the splitter.
#[derive(Clone, Copy, PartialEq, Eq, Debug)]
pub struct FedRef<'a> {
    pub taken: usize,
    pub frame: Option<FrameRef<'a>>,
}

/// Where the frame lies that the taken octets end.
#[derive(Clone, Copy, PartialEq, Eq, Debug)]
pub enum Place<'a> {
    /// In the piece.
    Piece(FrameRef<'a>),
    /// In the splitter's buffer, which [`Splitter::buffered`] lends.
    Buffer,
}

/// What a piece gave: how many of its octets were taken, and where the frame lies that the last of them ends.
#[derive(Clone, Copy, PartialEq, Eq, Debug)]
pub struct Advanced<'a> {
    pub taken: usize,
    pub place: Option<Place<'a>>,
}

/// Splits a stream into its frames, piece by piece.
///
/// A frame that is cut is gathered in a buffer. A buffer of more than 16,384 octets is given back once sixteen frames
/// in a row have lain whole in their pieces.
#[derive(Drop)]
pub struct Splitter {
    alloc: Global,
    limit: u32,
    /// what the buffer's octets are
    held: Held,
    /// how many frames in a row needed no buffer while it had more room than is kept
    unused: u8,
    /// how many octets of the stream were taken, up to the greatest number
    taken: u64,
    /// the place of the first fault
    fault: Option<u64>,
    /// how many octets of its piece were taken up to the octet that showed it
    taken_to_fault: usize,
    buffer: Vec<u8>,
}

impl Model for Splitter {
    ghost use Rattle.amqp_frame.specs.Stream.{Stream};

    ghost Value = { Stream };

    ghost use Rattle.amqp_frame.specs.SplitterFields.{stream_of, SplitterIsSound};

    ghost view = { stream_of };

    ghost invariant = { SplitterIsSound };
}

impl Splitter {
    ghost use Rattle.amqp_frame.specs.Advances.{Advances};
    ghost use Rattle.amqp_frame.specs.Beginning.{IsNewSplitter};
    ghost use Rattle.amqp_frame.specs.Feeds.{Feeds, FeedsLent};
    ghost use Rattle.amqp_frame.specs.Splitter.{LeavesAfter, all_of};

    /// A splitter at the beginning of a stream. The limit counts all octets of a frame.
    pub fn new(alloc: Global, limit: u32) -> Splitter
        requires { 8 ≤ limit }
        ensures { IsNewSplitter limit result }
    {
        Splitter {
            alloc,
            limit,
            held: Held::Begun,
            unused: 0,
            taken: 0,
            fault: None,
            taken_to_fault: 0,
            buffer: Vec::new(alloc),
        }
    }

    /// How many octets were taken of a frame that isn't whole yet. After a fault it is 0.
    pub fn pending(&self) -> usize
        ensures value { result ≡ length self.now.pending }
        ensures below_limit { result < self.now.limit }
    {
        match self.held {
            Held::Begun => self.buffer.len(),
            Held::Given => 0,
            Held::Spent => 0,
        }
    }

    /// How many octets a frame may have.
    pub fn limit(&self) -> u32
        ensures { result ≡ self.now.limit }
    {
        self.limit
    }

    /// After a fault, how many octets of the piece that showed it were taken: those up to the octet that shows it, and
    /// that one. 0 before any fault, and where memory was refused.
    pub fn taken_to_fault(&self) -> usize
        ensures { result ≡ self.now.taken_to_fault }
    {
        self.taken_to_fault
    }

    /// Changes the limit, between two frames, and nothing else.
    pub fn set_limit(&mut self, limit: u32)
        requires between_frames { self.old.pending ≡ [] }
        requires room { 8 ≤ limit }
        ensures { self.new ≡ record self.old { limit = limit } }
    {
        self.limit = limit;
    }

    /// Takes a frame that lies whole at the start of the piece, where no octet of it was pending. Otherwise it takes
    /// nothing, and the answer is `None`: [`Splitter::advance`] then says what the octets are. No memory is taken.
    #[inline(always)]
    pub fn take_whole<'a>(&mut self, piece: &'a [u8]) -> Option<FrameRef<'a>>
        ensures whole { IfSome result (λ frame. Advances self.old piece.now (Ok (all_of frame)) self.new) }
        ensures stays { IfNone result (self.new ≡ self.old) }
        ensures none { IfNone result (self.old.fault ≡ None → self.old.pending ≡ []
            → HasFrameAtStart self.old.limit piece.now → ⊥) }
    {
        if !is_between_frames(self.fault, self.held, &self.buffer) {
            return None;
        }
        match judge(piece, self.limit) {
            Judgement::Whole(frame) => {
                let taken = frame.payload.len() + OVERHEAD;
                self.taken = self.taken.saturating_add(taken as u64);
                self.held = Held::Spent;
                if self.buffer.capacity() > KEPT {
                    self.unused = give_back(&mut self.buffer, self.unused);
                }
                Some(frame)
            }
            Judgement::Wrong(_, _) => None,
            Judgement::Begun => None,
        }
    }

    /// Takes octets up to the end of the next frame and no further, and says where that frame lies.
    ///
    /// It lies in the piece where no octet of it was pending, and no memory is taken then. Otherwise it lies in the
    /// buffer: [`Splitter::buffered`] lends it, until the next call that is to take octets. An empty piece gives no
    /// frame. After a fault each call answers [`FrameFaultKind::Failed`].
    #[inline(always)]
    pub fn advance<'a>(&mut self, piece: &'a [u8]) -> Result<Advanced<'a>, FrameFault>
        ensures { Advances self.old piece.now result self.new }
    {
        if let Some(frame) = self.take_whole(piece) {
            return Ok(Advanced {
                taken: frame.payload.len() + OVERHEAD,
                place: Some(Place::Piece(frame)),
            });
        }
        // Bound first, so that it has a place of its own in memory: what is answered in place stays in registers.
        let advanced = self.advance_buffer(piece);
        advanced
    }

    /// The same by way of the buffer, where no whole frame lies in the piece. It stands apart so that the path above,
    /// which takes a frame in place, stays small.
    #[inline(never)]
    fn advance_buffer<'a>(&mut self, piece: &'a [u8]) -> Result<Advanced<'a>, FrameFault>
        requires { self.old.fault ≡ None → self.old.pending ≡ [] → HasFrameAtStart self.old.limit piece.now → ⊥ }
        ensures frame { IfOk result (λ advanced. IfSome advanced.place
            (λ place. OfGiven place self.new.given (Completes self.old (take advanced.taken piece.now)))) }
        ensures rest { IfOk result (λ advanced. IfNone advanced.place (Waits self.old piece.now advanced.taken)) }
        ensures fault { IfErr result (λ fault. Faults self.old.fault self.old piece.now fault) }
        ensures memory { IfErr result (λ fault. LacksMemoryIfNeeded fault.kind self.old piece.now) }
        ensures running { IsOk result → self.old.fault ≡ None }

        ensures within { IfOk result (λ advanced. advanced.taken ≤ length piece.now) }
        ensures progress { IfOk result (λ advanced. piece.now ≢ [] → 0 < advanced.taken) }
        ensures lies { IfOk result (λ advanced. IfSome advanced.place (LiesAt self.old.pending)) }
        ensures after { self.new ≡ after_advance self.old piece.now result }
    {
        if let Some(at) = self.fault {
            return Err(FrameFault {
                at,
                kind: FrameFaultKind::Failed,
            });
        }
        renew(&mut self.buffer, self.held);
        self.held = Held::Begun;
        self.unused = 0;
        if piece.is_empty() {
            return Ok(Advanced {
                taken: 0,
                place: None,
            });
        }
        let before = self.taken;
        if let Some((kind, place)) = fault_across(&self.buffer, piece, self.limit) {
            let passed = place - self.buffer.len();
            let at = before.saturating_add(passed as u64);
            self.fault = Some(at);
            self.taken_to_fault = passed + 1;
            self.held = Held::Spent;
            return Err(FrameFault { at, kind });
        }
        let Ok(taken) = fill(&mut self.buffer, piece, self.limit) else {
            self.fault = Some(before);
            self.taken_to_fault = 0;
            self.held = Held::Spent;
            return Err(FrameFault {
                at: before,
                kind: FrameFaultKind::OutOfMemory,
            });
        };
        match judge(&self.buffer, self.limit) {
            Judgement::Whole(_) => {
                self.taken = before.saturating_add(taken as u64);
                self.held = Held::Given;
                Ok(Advanced {
                    taken,
                    place: Some(Place::Buffer),
                })
            }
            Judgement::Wrong(_, _) => unreachable!(),
            Judgement::Begun => {
                self.taken = before.saturating_add(taken as u64);
                Ok(Advanced { taken, place: None })
            }
        }
    }

    /// The frame that the last call gave by way of the buffer. It is there until the next call that is to take octets.
    pub fn buffered(&self) -> Option<FrameRef<'_>>
        ensures { lent_of result ≡ self.now.given }
    {
        match self.held {
            Held::Begun => None,
            Held::Given => whole_frame(&self.buffer),
            Held::Spent => None,
        }
    }

    /// Takes octets as [`Splitter::advance`] does, and lends the frame.
    ///
    /// The payload is a part of the piece where the frame lies whole in it, and of the splitter's buffer otherwise.
    /// Where nothing is pending and a whole frame within the limit stands at the start, no memory is taken. An empty
    /// piece gives no frame. After a fault each call answers [`FrameFaultKind::Failed`].
    #[inline]
    pub fn feed_ref<'a>(&'a mut self, piece: &'a [u8]) -> Result<FedRef<'a>, FrameFault>
        ensures feeds { FeedsLent self.old piece.now result }
        ensures* after { sem 𝓛 (LeavesAfter self.entry piece.now result) }
    {
        let advanced = self.advance(piece)?;
        let taken = advanced.taken;
        match advanced.place {
            Some(Place::Piece(frame)) => Ok(FedRef {
                taken,
                frame: Some(frame),
            }),
            Some(Place::Buffer) => Ok(FedRef {
                taken,
                frame: self.buffered(),
            }),
            None => Ok(FedRef { taken, frame: None }),
        }
    }

    /// Takes octets as [`Splitter::feed_ref`] does, and gives the frame with a payload of its own.
    pub fn feed(&mut self, piece: &[u8]) -> Result<Fed, FrameFault>
        ensures { Feeds self.old piece.now result self.new }
    {
        let alloc = self.alloc;
        let start = self.taken;
        let fed = self.feed_ref(piece)?;
        let taken = fed.taken;
        let Some(frame) = fed.frame else {
            return Ok(Fed { taken, frame: None });
        };
        if let Ok(frame) = frame.to_raw(alloc) {
            return Ok(Fed {
                taken,
                frame: Some(frame),
            });
        }
        self.taken = start;
        self.fault = Some(start);
        self.taken_to_fault = 0;
        self.held = Held::Spent;
        Err(FrameFault {
            at: start,
            kind: FrameFaultKind::OutOfMemory,
        })
    }
}
