//! What can be wrong with a stream of frames, and where.
ghost use Rattle.std.specs.Prelude.{◌≡◌};
ghost use Rattle.amqp_frame.specs.Faults.{number_of};

use std::alloc::{AllocError, AllocFailed};
use thiserror::Error;

/// Memory for a result was refused.
#[derive(Clone, Copy, PartialEq, Eq, Debug, Error)]
#[error("out of memory")]
pub struct OutOfMemory;

impl From<AllocError> for OutOfMemory {
    fn from(_: AllocError) -> OutOfMemory {
        OutOfMemory
    }
}

impl<T: Drop> From<AllocFailed<T>> for OutOfMemory {
    fn from(_: AllocFailed<T>) -> OutOfMemory {
        OutOfMemory
    }
}

/// The kinds of fault, each with its number.
#[derive(Clone, Copy, PartialEq, Eq, Debug, Error)]
pub enum FrameFaultKind {
    /// A frame's first octet is none of 1, 2, 3 and 8: reported at that octet.
    #[error("unknown frame type")]
    UnknownType = 1,
    /// A frame is longer than the limit: reported at its seventh octet, the last of the payload's size.
    #[error("frame longer than the limit")]
    TooLarge = 2,
    /// A frame's last octet isn't `CE`: reported at that octet.
    #[error("wrong frame end octet")]
    BadEnd = 3,
    /// Memory was refused: reported at the number of octets that were taken before the call.
    #[error("out of memory")]
    OutOfMemory = 4,
    /// The splitter has reported a fault before: reported at that first fault's place.
    #[error("fed after a fault")]
    Failed = 5,
}

impl FrameFaultKind {
    /// The number under which the fault is printed.
    pub fn number(self) -> u8
        ensures { result ≡ number_of self }
    {
        self as u8
    }
}

/// A fault and its place.
///
/// `at` is the place in the stream, counted from 0, of the octet that shows the fault. The count stays at the greatest
/// `u64` once it is there.
#[derive(Clone, Copy, PartialEq, Eq, Debug, Error)]
#[error("{kind} at octet {at}")]
pub struct FrameFault {
    pub at: u64,
    pub kind: FrameFaultKind,
}
