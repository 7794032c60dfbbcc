//! Frames of AMQP 0-9-1 (specification, section 4.2.3): written to octets, and split from a stream that comes in
//! any pieces.
//!
//! A frame is a type octet, the channel in 16 bits, the payload's size in 32, the payload, and the octet `CE`. Numbers
//! are big-endian.
//!
//! [`Splitter::feed_ref`] lends each frame's payload out of the piece or out of the splitter's own buffer, and with
//! it the splitter; [`Splitter::advance`] says where the frame lies and leaves the splitter free, whose
//! [`Splitter::buffered`] lends a frame of the buffer; [`Splitter::feed`] copies the payload. What they are proved to
//! do is stated by the definitions of `specs/`: `Frame` has the octets of a frame, `Splitting` what it is to split
//! octets, and `Splitter` what a piece of the stream does.
#![tactic(auto)]

mod faults;
mod frames;
mod judging;
mod laws;
mod splitting;

pub use crate::faults::{FrameFault, FrameFaultKind, OutOfMemory};
pub use crate::frames::{
    FrameKind, FrameRef, HEADER_LENGTH, HEARTBEAT, OVERHEAD, PROTOCOL_HEADER, RawFrame,
    begin_frame, finish_frame, write_frame, write_frame_ref,
};
pub use crate::laws::{faults_are_judged, one_frame_at_start, one_split, prefix_has_no_fault};
pub use crate::splitting::{Advanced, Fed, FedRef, Place, Splitter};
