//! Where a connection stands: what an end awaits next, and what was agreed by then.
//!
//! A client awaits start, tune and open-ok, a server the protocol header, start-ok, tune-ok and open. Then:
//!
//!     Handshake --open-ok--> Running --close put--> Closing --close-ok--> Closed
//!     Handshake, Running --close taken--> Closed
//!
//! A fault of the peer, or out of memory, leads from each but Closed to Failed. An end that is gated holds start, the
//! login or open until its application has answered.
ghost use Rattle.std.specs.Prelude.{◌≡◌, ◌≢◌, true, false, None, IfSome};
ghost use Rattle.amqp_model.specs.End.Channels as model;
ghost use Rattle.amqp_model.specs.End.EndVerdict.{takes_octets};
ghost use Rattle.amqp_model.specs.End.Machine.{new_end};
ghost use Rattle.amqp_channel.specs.Roles.{role_of};
ghost use Rattle.amqp_channel.specs.Events.EventView.{agreed_there};
ghost use Rattle.amqp_core.specs.End.Counted.{heartbeat_in};
ghost use Rattle.amqp_core.specs.Connection.Decisions.{holds_client};
ghost use Rattle.amqp_core.specs.Connection.Stages.{agreed_at, phase_at, phase_name, leaves};

use amqp_channel::{Agreed, Side};

/// The phase of a connection.
#[derive(Clone, Copy, PartialEq, Eq, Debug)]
pub enum Phase {
    Handshake,
    Running,
    /// This end has put connection.close, and awaits close-ok.
    Closing,
    Closed,
    /// After a fault, or out of memory.
    Failed,
}

/// What an end awaits in the handshake, and how far it is afterwards. What was agreed is known from tune-ok on.
#[derive(Clone, Copy, PartialEq, Eq)]
pub(crate) enum Stage {
    AwaitsProtocolHeader,
    AwaitsStart,
    /// A gated client has taken start, and its application is to answer it.
    HoldsStart,
    AwaitsStartOk,
    /// A gated server has taken start-ok, and its application is to admit the login or to refuse it.
    HoldsLogin,
    AwaitsTune,
    AwaitsTuneOk,
    AwaitsOpen(Agreed),
    /// A gated server has taken open, and its application is to admit it or to refuse it.
    HoldsOpen(Agreed),
    AwaitsOpenOk(Agreed),
    Running(Agreed),
    Closing(Option<Agreed>),
    Closed(Option<Agreed>),
    Failed(Option<Agreed>),
}

impl Stage {
    /// What an end of a side awaits first.
    pub(crate) fn first(side: Side) -> Stage
        ensures phase { phase_at result ≡ (new_end (role_of side)).phase }
        ensures agreed { agreed_at result ≡ None }
    {
        match side {
            Side::Client => Stage::AwaitsStart,
            Side::Server => Stage::AwaitsProtocolHeader,
        }
    }

    pub(crate) fn phase(self) -> Phase
        ensures { result ≡ phase_name (phase_at self) }
    {
        match self {
            Stage::AwaitsProtocolHeader
            | Stage::AwaitsStart
            | Stage::HoldsStart
            | Stage::AwaitsStartOk
            | Stage::HoldsLogin
            | Stage::AwaitsTune
            | Stage::AwaitsTuneOk
            | Stage::AwaitsOpen(_)
            | Stage::HoldsOpen(_)
            | Stage::AwaitsOpenOk(_) => Phase::Handshake,
            Stage::Running(_) => Phase::Running,
            Stage::Closing(_) => Phase::Closing,
            Stage::Closed(_) => Phase::Closed,
            Stage::Failed(_) => Phase::Failed,
        }
    }

    pub(crate) fn agreed(self) -> Option<Agreed>
        ensures { agreed_there result ≡ agreed_at self }
    {
        match self {
            Stage::AwaitsProtocolHeader
            | Stage::AwaitsStart
            | Stage::HoldsStart
            | Stage::AwaitsStartOk
            | Stage::HoldsLogin
            | Stage::AwaitsTune
            | Stage::AwaitsTuneOk => None,
            Stage::AwaitsOpen(agreed)
            | Stage::HoldsOpen(agreed)
            | Stage::AwaitsOpenOk(agreed)
            | Stage::Running(agreed) => Some(agreed),
            Stage::Closing(agreed) | Stage::Closed(agreed) | Stage::Failed(agreed) => agreed,
        }
    }

    /// What was agreed, where the connection is Running.
    pub(crate) fn running(self) -> Option<Agreed>
        ensures running { IfSome result (λ agreed. self ≡ Stage.Running agreed) }
        ensures not { result ≡ None → phase_at self ≢ model.Running }
    {
        match self {
            Stage::Running(agreed) => Some(agreed),
            Stage::AwaitsProtocolHeader
            | Stage::AwaitsStart
            | Stage::HoldsStart
            | Stage::AwaitsStartOk
            | Stage::HoldsLogin
            | Stage::AwaitsTune
            | Stage::AwaitsTuneOk
            | Stage::AwaitsOpen(_)
            | Stage::HoldsOpen(_)
            | Stage::AwaitsOpenOk(_)
            | Stage::Closing(_)
            | Stage::Closed(_)
            | Stage::Failed(_) => None,
        }
    }

    /// The heartbeat that was agreed, in seconds; none, which is 0, before.
    pub(crate) fn heartbeat(self) -> u16
        ensures { result ≡ heartbeat_in (agreed_at self) }
    {
        match self.agreed() {
            Some(agreed) => agreed.heartbeat,
            None => 0,
        }
    }

    /// Whether this end has put connection.close, and goes on.
    pub(crate) fn is_closing(self) -> bool
        ensures { result ≡ leaves (phase_at self) }
    {
        match self {
            Stage::Closing(_) => true,
            Stage::AwaitsProtocolHeader
            | Stage::AwaitsStart
            | Stage::HoldsStart
            | Stage::AwaitsStartOk
            | Stage::HoldsLogin
            | Stage::AwaitsTune
            | Stage::AwaitsTuneOk
            | Stage::AwaitsOpen(_)
            | Stage::HoldsOpen(_)
            | Stage::AwaitsOpenOk(_)
            | Stage::Running(_)
            | Stage::Closed(_)
            | Stage::Failed(_) => false,
        }
    }

    /// Whether a server holds a login or an open.
    pub(crate) fn holds_client(self) -> bool
        ensures { result ≡ holds_client (phase_at self) }
    {
        match self {
            Stage::HoldsLogin | Stage::HoldsOpen(_) => true,
            Stage::AwaitsProtocolHeader
            | Stage::AwaitsStart
            | Stage::HoldsStart
            | Stage::AwaitsStartOk
            | Stage::AwaitsTune
            | Stage::AwaitsTuneOk
            | Stage::AwaitsOpen(_)
            | Stage::AwaitsOpenOk(_)
            | Stage::Running(_)
            | Stage::Closing(_)
            | Stage::Closed(_)
            | Stage::Failed(_) => false,
        }
    }

    /// Whether the connection is closed.
    pub(crate) fn is_closed(self) -> bool
        ensures closed { result ≡ true → phase_at self ≡ model.Closed }
        ensures not { result ≡ false → phase_at self ≢ model.Closed }
    {
        match self {
            Stage::Closed(_) => true,
            Stage::AwaitsProtocolHeader
            | Stage::AwaitsStart
            | Stage::HoldsStart
            | Stage::AwaitsStartOk
            | Stage::HoldsLogin
            | Stage::AwaitsTune
            | Stage::AwaitsTuneOk
            | Stage::AwaitsOpen(_)
            | Stage::HoldsOpen(_)
            | Stage::AwaitsOpenOk(_)
            | Stage::Running(_)
            | Stage::Closing(_)
            | Stage::Failed(_) => false,
        }
    }

    /// Whether the end has failed.
    pub(crate) fn is_failed(self) -> bool
        ensures failed { result ≡ true → phase_at self ≡ model.Failed }
        ensures takes { result ≡ false → phase_at self ≢ model.Closed → takes_octets (phase_at self) ≡ true }
    {
        match self {
            Stage::Failed(_) => true,
            Stage::AwaitsProtocolHeader
            | Stage::AwaitsStart
            | Stage::HoldsStart
            | Stage::AwaitsStartOk
            | Stage::HoldsLogin
            | Stage::AwaitsTune
            | Stage::AwaitsTuneOk
            | Stage::AwaitsOpen(_)
            | Stage::HoldsOpen(_)
            | Stage::AwaitsOpenOk(_)
            | Stage::Running(_)
            | Stage::Closing(_)
            | Stage::Closed(_) => false,
        }
    }
}
