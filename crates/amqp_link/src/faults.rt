//! Why a step is refused, and that memory was refused.
ghost use Rattle.std.specs.Prelude.{◌≡◌};

use amqp_core::AskFault;
use std::alloc::{AllocError, AllocFailed};
use thiserror::Error;

/// Memory was refused.
#[derive(Clone, Copy, PartialEq, Eq, Debug, Error)]
#[error("out of memory")]
pub struct OutOfMemory;

impl From<AllocError> for OutOfMemory {
    fn from(_: AllocError) -> OutOfMemory {
        OutOfMemory
    }
}

impl<T: Drop> From<AllocFailed<T>> for OutOfMemory {
    fn from(_: AllocFailed<T>) -> OutOfMemory {
        OutOfMemory
    }
}

impl From<amqp_core::OutOfMemory> for OutOfMemory {
    fn from(_: amqp_core::OutOfMemory) -> OutOfMemory {
        OutOfMemory
    }
}

/// Why a step is refused. Each of these but [`OutOfMemory`](LinkFault::OutOfMemory) leaves the link as it was.
#[derive(Clone, Copy, PartialEq, Eq, Debug, Error)]
pub enum LinkFault {
    /// 1: no connection with this number has begun.
    #[error("no such connection")]
    NoSuchConnection,
    /// 2: the side was dropped.
    #[error("the side was dropped")]
    Dropped,
    /// 3: the end refuses what is asked.
    #[error("{0}")]
    Ask(AskFault),
    /// 4: fewer octets wait.
    #[error("fewer octets wait")]
    NotSoMany,
    /// 5: memory was refused. In a carry the end that reads counts as dropped from then on, after the octets of the
    /// frames that it took; otherwise the link is as it was.
    #[error("out of memory")]
    OutOfMemory,
}

impl From<AskFault> for LinkFault {
    ghost use Rattle.amqp_link.specs.FaultView.{fault_of};

    fn from(fault: AskFault) -> LinkFault
        ensures { result ≡ fault_of fault }
    {
        match fault {
            AskFault::OutOfMemory => LinkFault::OutOfMemory,
            _ => LinkFault::Ask(fault),
        }
    }
}

impl LinkFault {
    ghost use Rattle.amqp_link.specs.FaultView.{is_of_memory, link_fault_number};

    /// Whether memory was refused.
    pub(crate) fn is_out_of_memory(self) -> bool
        ensures { result ≡ is_of_memory self }
    {
        match self {
            LinkFault::OutOfMemory => true,
            LinkFault::NoSuchConnection
            | LinkFault::Dropped
            | LinkFault::Ask(_)
            | LinkFault::NotSoMany => false,
        }
    }

    /// Its number. A refused ask has a number of its own besides: that of the refusal.
    pub fn number(self) -> u8
        ensures { result ≡ link_fault_number self }
    {
        match self {
            LinkFault::NoSuchConnection => 1,
            LinkFault::Dropped => 2,
            LinkFault::Ask(_) => 3,
            LinkFault::NotSoMany => 4,
            LinkFault::OutOfMemory => 5,
        }
    }
}
