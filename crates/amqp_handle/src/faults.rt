//! Why a handle can't be used so.
ghost use Rattle.std.specs.Prelude.{◌≡◌};
ghost use Rattle.amqp_handle.specs.Statuses.{handle_number};

use thiserror::Error;

/// Why a handle can't be used so. Nothing has changed.
#[derive(Clone, Copy, PartialEq, Eq, Debug, Error)]
pub enum HandleFault {
    /// It was never opened, or it was closed.
    #[error("the handle isn't open")]
    NotOpen = 1,
    /// It is open already.
    #[error("the handle is open")]
    AlreadyOpen = 2,
    /// It holds another kind of value, as a client where a splitter is asked for.
    #[error("a handle of another kind")]
    OtherKind = 3,
    /// Memory was refused.
    #[error("out of memory")]
    OutOfMemory = 4,
    /// A frame's limit below 8 octets, or one that is changed within a frame.
    #[error("a limit that can't be set")]
    Limit = 5,
}

impl HandleFault {
    /// The status of it.
    pub fn number(self) -> u32
        ensures { result ≡ handle_number self }
    {
        self as u32
    }
}
