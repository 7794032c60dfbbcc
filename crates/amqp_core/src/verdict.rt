//! What the rules say of a frame that an end takes.
ghost use Rattle.std.specs.Prelude.{◌≡◌, false, Some};
ghost use Rattle.amqp_model.specs.Stream.Endpoint.{Found};

use crate::faults::CoreFault;
use crate::owed::Owed;
use crate::stage::Stage;
use amqp_channel::{Agreed, CloseCode};

/// Why an end can't go on with what it took.
#[derive(Clone, Copy)]
pub(crate) enum Fault {
    /// The connection is closed with this code.
    Peer(CloseCode),
    /// There is no answer.
    Fatal,
}

/// The event of a frame of the connection.
#[derive(Clone, Copy)]
pub(crate) enum Notice {
    /// A step of the handshake, a heartbeat, or a close that crosses this end's own.
    Quiet,
    Discarded,
    /// The application is to answer start.
    AnswerAsked,
    /// The application is to admit the login or to refuse it.
    LoginAsked,
    /// The application is to admit the open or to refuse it.
    OpenAsked,
    /// The handshake is over.
    Negotiated(Agreed),
    /// The other end's close, which is the frame, ended the connection.
    ClosedByPeer,
    /// This end's close, which is answered, ended the connection.
    ClosedByUs,
    Blocked,
    Unblocked,
}

/// What the rules say of a frame that is the connection's. Of one that is its channel's, the channel's rules say it.
#[derive(Clone, Copy)]
pub(crate) enum Verdict {
    /// The end goes on: the event, where the connection stands then, and what the end owes.
    Proceeds {
        notice: Notice,
        stage: Stage,
        owed: Owed,
    },
    Faults(Fault),
}

impl Fault {
    ghost use Rattle.amqp_core.specs.Faults.Answering.{Reports, is_out_of_memory};
    ghost use Rattle.amqp_core.specs.Faults.Blamed.{code_of, code_told};
    ghost use Rattle.amqp_core.specs.Connection.View.{fault_of};

    /// The fault, as the application sees it.
    pub(crate) fn reported(self) -> CoreFault
        ensures says { Reports result (Found (fault_of self)) }
        ensures fault { is_out_of_memory result ≡ false }
        ensures code { code_told result ≡ Some (code_of (fault_of self)) }
    {
        match self {
            Fault::Peer(code) => CoreFault::Peer(code),
            Fault::Fatal => CoreFault::Fatal,
        }
    }
}
