//! Why a test doesn't go on.
use crate::rules::Rule;
use std::alloc::{AllocError, AllocFailed};

/// Why a line of a script can't be done, or a game ends.
#[derive(Clone, Copy, Debug)]
pub(crate) enum Trouble {
    OutOfMemory,
    MissingWord,
    UnknownWord,
    NotNumber,
    /// A word is neither a name nor hexadecimal.
    NotOctets,
    /// Octets are not those of a method.
    NotMethod,
    /// The answers of the link break this rule.
    Broken(Rule),
}

impl From<AllocError> for Trouble {
    fn from(_: AllocError) -> Trouble {
        Trouble::OutOfMemory
    }
}

impl<T: Drop> From<AllocFailed<T>> for Trouble {
    fn from(_: AllocFailed<T>) -> Trouble {
        Trouble::OutOfMemory
    }
}

impl From<amqp_method::OutOfMemory> for Trouble {
    fn from(_: amqp_method::OutOfMemory) -> Trouble {
        Trouble::OutOfMemory
    }
}

impl From<amqp_link::OutOfMemory> for Trouble {
    fn from(_: amqp_link::OutOfMemory) -> Trouble {
        Trouble::OutOfMemory
    }
}
