//! Why octets can't be read, or a value can't be made or written, and at which octet.

ghost use Rattle.std.specs.Prelude.{◌≡◌};
ghost use Rattle.amqp_value.specs.Faults.{fault_number, out_of_memory};

use std::alloc::{AllocError, AllocFailed};
use thiserror::Error;

/// An allocation was refused.
#[derive(Clone, Copy, Debug, PartialEq, Eq, Error)]
#[error("out of memory")]
pub struct OutOfMemory;

/// What is wrong with octets, with a value, or with a call.
#[derive(Clone, Copy, Debug, PartialEq, Eq, Error)]
pub enum ValueFaultKind {
    /// The octets end before the table that they begin.
    #[error("the octets end early")]
    Ends = 1,
    /// A tag octet is none of the nineteen.
    #[error("unknown tag")]
    UnknownTag = 2,
    /// An element passes the end of the table or the array round it.
    #[error("an element passes the end of its table or array")]
    PassesItsEnd = 3,
    /// A table or an array stands below the deepest level.
    #[error("tables and arrays nest too deep")]
    TooDeep = 4,
    /// An allocation was refused.
    #[error("out of memory")]
    OutOfMemory = 5,
    /// A short string, or what a count counts, is too long to be written.
    #[error("too long to be written")]
    TooLong = 6,
}

impl ValueFaultKind {
    /// The number under which the fault is reported, from 1.
    pub fn number(self) -> u8
        ensures { result ≡ fault_number self }
    {
        self as u8
    }
}

/// A fault, and the place of the octet that shows it, counted from 0.
///
/// The kind comes first, so that where an answer is a table or a fault, it lies over no word that was written just
/// before.
#[derive(Clone, Copy, Debug, PartialEq, Eq, Error)]
#[error("{kind} at octet {at}")]
pub struct ValueFault {
    pub kind: ValueFaultKind,
    pub at: usize,
}

impl From<AllocError> for ValueFault {
    ghost from_gives = { λ _ e. e ≡ out_of_memory };

    fn from(_error: AllocError) -> ValueFault {
        ValueFault {
            at: 0,
            kind: ValueFaultKind::OutOfMemory,
        }
    }
}

impl<T: Drop> From<AllocFailed<T>> for ValueFault {
    ghost from_gives = { λ _ e. e ≡ out_of_memory };

    fn from(_error: AllocFailed<T>) -> ValueFault {
        ValueFault {
            at: 0,
            kind: ValueFaultKind::OutOfMemory,
        }
    }
}

impl From<OutOfMemory> for ValueFault {
    ghost from_gives = { λ _ e. e ≡ out_of_memory };

    fn from(_error: OutOfMemory) -> ValueFault {
        ValueFault {
            at: 0,
            kind: ValueFaultKind::OutOfMemory,
        }
    }
}

impl From<AllocError> for OutOfMemory {
    fn from(_error: AllocError) -> OutOfMemory {
        OutOfMemory
    }
}

impl<T: Drop> From<AllocFailed<T>> for OutOfMemory {
    fn from(_error: AllocFailed<T>) -> OutOfMemory {
        OutOfMemory
    }
}
