//! What can be wrong with the octets of a method or a header, and where.
ghost use Rattle.std.specs.Prelude.{◌≡◌};
ghost use Rattle.amqp_method.specs.Faults.{number_of, out_of_memory};

use amqp_value::ValueFaultKind;
use std::alloc::{AllocError, AllocFailed};
use thiserror::Error;

/// Memory for a result was refused.
#[derive(Clone, Copy, PartialEq, Eq, Debug, Error)]
#[error("out of memory")]
pub struct OutOfMemory;

impl From<AllocError> for OutOfMemory {
    fn from(_: AllocError) -> OutOfMemory {
        OutOfMemory
    }
}

impl<T: Drop> From<AllocFailed<T>> for OutOfMemory {
    fn from(_: AllocFailed<T>) -> OutOfMemory {
        OutOfMemory
    }
}

impl From<amqp_value::OutOfMemory> for OutOfMemory {
    fn from(_: amqp_value::OutOfMemory) -> OutOfMemory {
        OutOfMemory
    }
}

/// The kinds of fault, each with its number.
#[derive(Clone, Copy, PartialEq, Eq, Debug, Error)]
pub enum MethodFaultKind {
    /// 1: no method has this class id and this method id, or a header's class isn't 60. Reported at 0.
    #[error("unknown method")]
    UnknownMethod,
    /// 2: a field doesn't fit, reported at its first octet, or a field table can't be read, reported at the octet that
    /// shows it.
    #[error("field value that can't be read or written: {0}")]
    Value(ValueFaultKind),
    /// 3: octets stand after the last field. Reported at the first of them.
    #[error("octets after the last field")]
    Trailing,
    /// 4: a header's weight isn't 0. Reported at 2.
    #[error("weight other than 0")]
    BadWeight,
    /// 5: bit 1 or bit 0 of a header's flags is set. Reported at 12.
    #[error("flag 1 or 0 set")]
    BadFlags,
    /// 6: memory was refused. Reported at 0.
    #[error("out of memory")]
    OutOfMemory,
}

impl MethodFaultKind {
    /// The number under which the fault is reported. After number 2 stands that of the field value's own fault.
    pub fn number(self) -> u8
        ensures { result ≡ number_of self }
    {
        match self {
            MethodFaultKind::UnknownMethod => 1,
            MethodFaultKind::Value(_) => 2,
            MethodFaultKind::Trailing => 3,
            MethodFaultKind::BadWeight => 4,
            MethodFaultKind::BadFlags => 5,
            MethodFaultKind::OutOfMemory => 6,
        }
    }
}

/// A fault, and its place: the offset in the payload.
///
/// The kind comes first, so that where an answer is a method or a fault, it lies over the method's kind, and over no
/// word of the arguments.
#[derive(Clone, Copy, PartialEq, Eq, Debug, Error)]
#[error("{kind} at octet {at}")]
pub struct MethodFault {
    pub kind: MethodFaultKind,
    pub at: usize,
}

impl MethodFault {
    pub(crate) const NO_MEMORY: MethodFault = MethodFault {
        at: 0,
        kind: MethodFaultKind::OutOfMemory,
    };

    pub(crate) const TOO_LONG: MethodFault = MethodFault {
        at: 0,
        kind: MethodFaultKind::Value(ValueFaultKind::TooLong),
    };
}

impl From<OutOfMemory> for MethodFault {
    ghost from_gives = { λ _ e. e ≡ out_of_memory };

    fn from(_: OutOfMemory) -> MethodFault {
        MethodFault::NO_MEMORY
    }
}

impl From<AllocError> for MethodFault {
    ghost from_gives = { λ _ e. e ≡ out_of_memory };

    fn from(_: AllocError) -> MethodFault {
        MethodFault {
            at: 0,
            kind: MethodFaultKind::OutOfMemory,
        }
    }
}

impl<T: Drop> From<AllocFailed<T>> for MethodFault {
    ghost from_gives = { λ _ e. e ≡ out_of_memory };

    fn from(_: AllocFailed<T>) -> MethodFault {
        MethodFault {
            at: 0,
            kind: MethodFaultKind::OutOfMemory,
        }
    }
}
