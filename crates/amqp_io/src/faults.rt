//! What can be wrong with a stream and in a session, and that memory was refused.
ghost use Rattle.std.specs.Prelude.{◌≡◌};
ghost use Rattle.amqp_io.specs.IoFaults.{io_fault_number};

use amqp_core::CoreFault;
use std::alloc::{AllocError, AllocFailed};
use thiserror::Error;

/// A call on a stream failed, for whatever reason.
///
/// No octets were moved in that call. The stream may be used again.
#[derive(Clone, Copy, PartialEq, Eq, Debug, Error)]
#[error("the stream failed")]
pub struct StreamFailed;

/// Memory for a result was refused.
#[derive(Clone, Copy, PartialEq, Eq, Debug, Error)]
#[error("out of memory")]
pub struct OutOfMemory;

impl From<AllocError> for OutOfMemory {
    fn from(_: AllocError) -> OutOfMemory {
        OutOfMemory
    }
}

impl<T: Drop> From<AllocFailed<T>> for OutOfMemory {
    fn from(_: AllocFailed<T>) -> OutOfMemory {
        OutOfMemory
    }
}

/// Why a call of a session did not do all that it was to do. The session may be used again after each of these.
#[derive(Clone, Copy, PartialEq, Eq, Debug, Error)]
pub enum IoFault {
    /// 1: a read failed. What was kept before was fed, and nothing else.
    #[error("the stream failed in a read")]
    Read,
    /// 2: a write failed. The octets that the stream took are gone from the output, and no others.
    #[error("the stream failed in a write")]
    Write,
    /// 3: the input has ended. What was kept before was fed, and nothing else.
    #[error("the input has ended")]
    EndOfInput,
    /// 4: the end found a fault in what it was fed. The octets read after those are dropped. What the end has to write,
    /// the close that says what was wrong among it, can still be pushed.
    #[error("{0}")]
    Core(CoreFault),
    /// 5: there is no room for an event. The octets that were read and not fed are kept, and the next pull feeds them
    /// first.
    #[error("out of memory")]
    OutOfMemory,
}

impl IoFault {
    /// The number under which the fault is printed.
    pub fn number(self) -> u8
        ensures { result ≡ io_fault_number self }
    {
        match self {
            IoFault::Read => 1,
            IoFault::Write => 2,
            IoFault::EndOfInput => 3,
            IoFault::Core(_) => 4,
            IoFault::OutOfMemory => 5,
        }
    }
}
