//! A splitter that a handle holds.
ghost use Rattle.std.specs.Prelude.{◌≡◌, ◌<◌, true, false, [], Some, is_some};
ghost use Rattle.std.specs.Borrow.{sem};
ghost use Rattle.amqp_handle.specs.declared.held.Held.TheVariants as held;
ghost use Rattle.amqp_calls.specs.Lending.{FollowsSplitter, HoldsContent, IsSplitter, LeavesSlot};
ghost use Rattle.amqp_calls.specs.SplitPieces.{SplitsPiece};
ghost use Rattle.amqp_calls.specs.Splitters.{answer_of, AnswersOf, frame_fault, frame_there};

use amqp_frame::{FedRef, FrameFault, FrameRef, Place, Splitter};
use amqp_handle::{Held, Slot};

/// The status of a splitter's fault is this and the fault's number.
const FRAME_FAULTS: u32 = 100;

/// A frame without a payload has so many octets.
pub const LEAST_LIMIT: u32 = 8;

/// What a piece gave, as it crosses to C.
///
/// With status 0, `taken` says how many octets were taken, and `kind` is the frame's type octet, or 0 where no frame
/// was finished; the channel and the payload are the frame's. After a fault, `at` is its place in the stream.
#[repr(C)]
#[derive(Clone, Copy)]
pub struct FedFrame<'a> {
    pub taken: usize,
    pub at: u64,
    pub payload: &'a [u8],
    pub channel: u16,
    pub kind: u8,
}

/// What a piece gave that was split into frames.
///
/// `taken` says how many of its octets were taken, and `count` into how many frames. With status 0, `cut` says that
/// none were, since a frame had begun in an earlier piece. After a fault, `at` is its place in the stream.
#[repr(C)]
pub struct SplitPiece {
    pub taken: usize,
    pub count: usize,
    pub at: u64,
    pub cut: bool,
}

/// The status of a fault.
#[inline(always)]
fn fault_status(fault: FrameFault) -> u32
    ensures { (100 < result) × (frame_fault result ≡ fault.kind) }
{
    FRAME_FAULTS + fault.kind.number() as u32
}

/// Puts an answer where C reads it. The result is the status.
pub fn told<'a>(answer: Result<FedRef<'a>, FrameFault>, out: &mut FedFrame<'a>) -> u32
    ensures { answer_of result out.new ≡ answer.entry }
{
    match answer {
        Ok(fed) => {
            out.taken = fed.taken;
            match fed.frame {
                Some(frame) => {
                    out.kind = frame.kind.octet();
                    out.channel = frame.channel;
                    out.payload = frame.payload;
                }
                None => out.kind = 0,
            }
            0
        }
        Err(fault) => {
            out.at = fault.at;
            fault_status(fault)
        }
    }
}

/// The splitter of an open handle that holds one.
pub fn splitter<'a>(slot: &'a mut Slot) -> &'a mut Splitter
    requires { IsSplitter slot.old.value }
    ensures value { slot.old.value ≡ Some (held.Splitter result.now) }
    ensures* follows { sem 𝓛 (FollowsSplitter slot.entry result) }
{
    match slot.held() {
        Held::Splitter(splitter) => splitter,
        Held::Content(_) => unreachable!(),
    }
}

/// Whether an open handle holds a splitter.
#[inline(always)]
pub fn holds_splitter(slot: &mut Slot) -> bool
    requires { is_some slot.old.value ≡ true }
    ensures splitter { result ≡ true → IsSplitter slot.old.value }
    ensures other { result ≡ false → HoldsContent slot.old.value }
    ensures same { slot.new.value ≡ slot.old.value }
{
    match slot.held() {
        Held::Splitter(_) => true,
        Held::Content(_) => false,
    }
}

/// What the splitter of a handle answers to a piece.
pub fn fed<'a>(slot: &'a mut Slot, piece: &'a [u8]) -> Result<FedRef<'a>, FrameFault>
    requires { IsSplitter slot.old.value }
    ensures answers { AnswersOf slot.old.value piece.now result }
    ensures* after { sem 𝓛 (LeavesSlot slot.entry piece.now result) }
{
    splitter(slot).feed_ref(piece)
}

/// A frame that lies in the piece, as it crosses to C.
#[inline(always)]
fn fed_frame<'a>(taken: usize, frame: FrameRef<'a>) -> FedFrame<'a>
    ensures { (result.taken ≡ taken) × (frame_there result ≡ Some frame.entry) }
{
    FedFrame {
        taken,
        at: 0,
        payload: frame.payload,
        channel: frame.channel,
        kind: frame.kind.octet(),
    }
}

/// Takes the frames that lie in a piece, one after the other, as long as there is a place for each.
#[inline(always)]
pub fn split<'a>(
    splitter: &mut Splitter,
    piece: &'a [u8],
    frames: &mut [FedFrame<'a>],
    out: &mut SplitPiece,
) -> u32
    requires { splitter.old.pending ≡ [] }
    ensures { SplitsPiece splitter.old piece.now frames.old result out.new frames.new splitter.new }
{
    let mut rest = piece;
    let mut count = 0;
    out.cut = false;
    while count < frames.len() && !rest.is_empty() {
        match splitter.advance(rest) {
            Ok(advanced) => {
                let Some(place) = advanced.place else {
                    out.taken = piece.len();
                    out.count = count;
                    return 0;
                };
                match place {
                    Place::Piece(frame) => {
                        frames[count] = fed_frame(advanced.taken, frame);
                        rest = &rest[advanced.taken..];
                        count += 1;
                    }
                    Place::Buffer => unreachable!(),
                }
            }
            Err(fault) => {
                out.taken = piece.len() - rest.len();
                out.count = count;
                out.at = fault.at;
                return fault_status(fault);
            }
        }
    }
    out.taken = piece.len() - rest.len();
    out.count = count;
    0
}
