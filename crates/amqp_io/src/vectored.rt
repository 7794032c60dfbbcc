//! Several runs of octets in one write.
ghost use Rattle.std.specs.Prelude.{◌≡◌, ◌≤◌, [], ◌++◌, length, take, IfOk, OnErr};
ghost use Rattle.std.specs.Io.KnownBytes.{append_known};
ghost use Rattle.std.specs.Io.Slices.{io_slice_bytes, io_slices_bytes};
ghost use Rattle.amqp_model.specs.Output.Outputs.{output_octets};
ghost use Rattle.amqp_outbox.specs.LentFrames.{content_left};
ghost use Rattle.amqp_io.specs.Streams.{Marks, WriteFails};

use crate::faults::StreamFailed;
use crate::stream::Stream;
use amqp_core::{ContentFrames, Pieces, SendQueue};
use amqp_frame::OVERHEAD;
use std::io::IoSlice;

/// The octets of the first slice that has any.
pub(crate) fn first_octets<'a>(slices: &[IoSlice<'a>]) -> &'a [u8]
    ensures starts { result.now ≡ take (length result.now) (io_slices_bytes slices.now) }
    ensures some { result.now ≡ [] → io_slices_bytes slices.now ≡ [] }
{
    for slice in slices {
        let octets = slice.as_slice();
        if !octets.is_empty() {
            return octets;
        }
    }
    &[]
}

/// The next piece, as a slice: an empty one where none is left.
fn next_slice<'a>(pieces: &mut Pieces<'a>) -> IoSlice<'a>
    ensures octets { pieces.old ≡ io_slice_bytes result ++ pieces.new }
    ensures some { io_slice_bytes result ≡ [] → pieces.old ≡ [] }
{
    match pieces.next_piece() {
        Some(piece) => IoSlice::new(piece),
        None => IoSlice::new(&[]),
    }
}

/// Writes octets from the start of what a queue lends, in one write of up to four pieces, and answers how many the
/// stream took.
pub(crate) fn write_pieces<S: Stream>(
    stream: &mut S,
    queue: &SendQueue,
) -> Result<usize, StreamFailed>
    ensures within { IfOk result (λ n. n ≤ length (output_octets queue.now.output)) }
    ensures appended { IfOk result (λ n. S.taken stream.new ≡ append_known (S.taken stream.old)
        (take n (output_octets queue.now.output))) }
    ensures kept { OnErr result (S.taken stream.new ≡ S.taken stream.old) }
    ensures to_give { S.to_give stream.new ≡ S.to_give stream.old }
    ensures failure { Marks (WriteFails result (output_octets queue.now.output)) (S.failures stream.old)
        (S.failures stream.new) }
    ensures no_end { S.ends stream.new ≡ S.ends stream.old }
{
    let mut pieces = queue.pieces();
    let first = next_slice(&mut pieces);
    let second = next_slice(&mut pieces);
    let third = next_slice(&mut pieces);
    let fourth = next_slice(&mut pieces);
    stream.write_vectored(&[first, second, third, fourth])
}

/// The next piece of a content, as a slice: an empty one where none is left.
fn next_of_content<'a>(frames: &mut ContentFrames<'a>) -> IoSlice<'a>
    ensures octets { content_left frames.old ≡ io_slice_bytes result ++ content_left frames.new }
    ensures some { io_slice_bytes result ≡ [] → content_left frames.old ≡ [] }
{
    match frames.next_piece() {
        Some(piece) => IoSlice::new(piece),
        None => IoSlice::new(&[]),
    }
}

/// The last piece of a write, as a slice: an empty one where a part of the body is next. So a write ends with what
/// stands between two parts, the end of a frame and the header of the next, and the octet after the last part is left
/// for no write of its own.
fn last_of_write<'a>(frames: &mut ContentFrames<'a>) -> IoSlice<'a>
    ensures { content_left frames.old ≡ io_slice_bytes result ++ content_left frames.new }
{
    let mut after = *frames;
    match after.next_piece() {
        Some(piece) if piece.len() <= OVERHEAD => {
            *frames = after;
            IoSlice::new(piece)
        }
        _ => IoSlice::new(&[]),
    }
}

/// Writes octets from the start of what is left of a content, in one write of up to four pieces, and answers how many
/// the stream took.
pub(crate) fn write_content<S: Stream>(
    stream: &mut S,
    frames: &ContentFrames<'_>,
) -> Result<usize, StreamFailed>
    ensures within { IfOk result (λ n. n ≤ length (content_left frames.now)) }
    ensures appended { IfOk result (λ n. S.taken stream.new ≡ append_known (S.taken stream.old)
        (take n (content_left frames.now))) }
    ensures kept { OnErr result (S.taken stream.new ≡ S.taken stream.old) }
    ensures to_give { S.to_give stream.new ≡ S.to_give stream.old }
    ensures failure { Marks (WriteFails result (content_left frames.now)) (S.failures stream.old)
        (S.failures stream.new) }
    ensures no_end { S.ends stream.new ≡ S.ends stream.old }
{
    let mut left = *frames;
    let first = next_of_content(&mut left);
    let second = next_of_content(&mut left);
    let third = next_of_content(&mut left);
    let fourth = last_of_write(&mut left);
    stream.write_vectored(&[first, second, third, fourth])
}
