//! What an end finds wrong, why it refuses what is asked, and why it can't be set up.
ghost use Rattle.std.specs.Prelude.{◌≡◌};
ghost use Rattle.amqp_outbox.specs.OutboxFaults.{out_of_memory};
ghost use Rattle.amqp_core.specs.declared.faults.CoreFault.TheVariants as core_faults;
ghost use Rattle.amqp_core.specs.declared.faults.ConfigFault.TheVariants as config_faults;
ghost use Rattle.amqp_core.specs.declared.faults.AskFault.TheVariants as ask_faults;
ghost use Rattle.amqp_core.specs.declared.faults.LendFault.TheVariants as lend_faults;
ghost use Rattle.amqp_core.specs.Faults.Numbers.{core_fault_number, config_fault_number, ask_fault_number};

use amqp_channel::CloseCode;
use amqp_outbox::StageFault;
use std::alloc::{AllocError, AllocFailed};
use thiserror::Error;

/// Memory was refused.
#[derive(Clone, Copy, PartialEq, Eq, Debug, Error)]
#[error("out of memory")]
pub struct OutOfMemory;

impl From<AllocError> for OutOfMemory {
    fn from(_: AllocError) -> OutOfMemory {
        OutOfMemory
    }
}

impl<T: Drop> From<AllocFailed<T>> for OutOfMemory {
    fn from(_: AllocFailed<T>) -> OutOfMemory {
        OutOfMemory
    }
}

impl From<amqp_value::OutOfMemory> for OutOfMemory {
    fn from(_: amqp_value::OutOfMemory) -> OutOfMemory {
        OutOfMemory
    }
}

impl From<amqp_method::OutOfMemory> for OutOfMemory {
    fn from(_: amqp_method::OutOfMemory) -> OutOfMemory {
        OutOfMemory
    }
}

/// For the methods that an end puts of itself. They are short, so staging them fails only where memory is refused.
impl From<StageFault> for OutOfMemory {
    fn from(_: StageFault) -> OutOfMemory {
        OutOfMemory
    }
}

/// For the same methods: they are made before they are staged, which wants memory too.
impl From<OutOfMemory> for StageFault {
    ghost from_gives = { λ _ e. e ≡ out_of_memory };

    fn from(_: OutOfMemory) -> StageFault {
        StageFault::OutOfMemory
    }
}

/// Why an end takes no more octets.
///
/// After each of these but [`Closed`](CoreFault::Closed) the end has failed. What it put before can still be written.
#[derive(Clone, Copy, PartialEq, Eq, Debug, Error)]
pub enum CoreFault {
    /// 1: the other end broke the protocol. One connection.close with this code was put, unless this end had put one
    /// before.
    #[error("the other end broke the protocol: {0}")]
    Peer(CloseCode),
    /// 2: there is no answer to what came: another protocol header, an unknown type of frame, a wrong end octet, or a
    /// tune-ok out of range. A server to which another protocol header came puts its own; nothing else is put.
    #[error("the other end can't be answered")]
    Fatal,
    /// 3: memory was refused. The output is as it was before the call.
    #[error("out of memory")]
    OutOfMemory,
    /// 4: the end had failed before.
    #[error("fed after a fault")]
    Failed,
    /// 5: the connection was closed before.
    #[error("fed after the connection was closed")]
    Closed,
}

impl CoreFault {
    /// The number under which the fault is printed.
    pub fn number(self) -> u8
        ensures { result ≡ core_fault_number self }
    {
        match self {
            CoreFault::Peer(_) => 1,
            CoreFault::Fatal => 2,
            CoreFault::OutOfMemory => 3,
            CoreFault::Failed => 4,
            CoreFault::Closed => 5,
        }
    }
}

/// Why an end can't be set up so.
#[derive(Clone, Copy, PartialEq, Eq, Debug, Error)]
pub enum ConfigFault {
    /// The greatest frame is below 4096 octets or above 1048576.
    #[error("frame size outside 4096 to 1048576")]
    FrameMax = 1,
    /// There is no channel.
    #[error("no channel")]
    ChannelMax = 2,
    /// The frame that says the hello, a client's start-ok or a server's start, would be longer than 4096 octets.
    #[error("hello longer than a frame of 4096 octets")]
    HelloTooLong = 3,
    #[error("out of memory")]
    OutOfMemory = 4,
}

impl ConfigFault {
    /// The number under which the fault is printed.
    pub fn number(self) -> u8
        ensures { result ≡ config_fault_number self }
    {
        self as u8
    }
}

/// Why what was asked is refused, in the order in which the reasons are looked at; out of memory comes last. A refusal
/// changes nothing.
#[derive(Clone, Copy, PartialEq, Eq, Debug, Error)]
pub enum AskFault {
    /// The handshake isn't over, or the connection is closing, closed or failed.
    #[error("the connection isn't running")]
    NotRunning = 1,
    /// The channel is 0 or above the agreed maximum.
    #[error("no such channel")]
    BadChannel = 2,
    #[error("the channel isn't open")]
    NotOpen = 3,
    /// The other end asked for no more contents. A content after basic.get-ok is sent all the same.
    #[error("the other end takes no contents now")]
    Paused = 4,
    /// The side may not send the method, or it is none that is sent as a message.
    #[error("not sent by this side, or not as a message")]
    NotSendable = 5,
    /// The method or the content header is too long for a frame of the agreed size.
    #[error("longer than a frame")]
    TooLarge = 6,
    /// A flow of this end is unanswered.
    #[error("a flow is unanswered")]
    FlowPending = 7,
    /// No channel number up to the agreed maximum is free.
    #[error("no free channel")]
    NoFreeChannel = 8,
    #[error("out of memory")]
    OutOfMemory = 9,
    /// A client's request waits for its reply.
    #[error("a request waits for its reply")]
    ReplyPending = 10,
    /// A server's reply doesn't answer the oldest request, or there is none.
    #[error("no request for this reply")]
    NoSuchRequest = 11,
    /// The end holds no start, login or open that its application could answer.
    #[error("no decision is awaited")]
    NotAwaited = 12,
}

impl AskFault {
    /// The number under which the refusal is printed.
    pub fn number(self) -> u8
        ensures { result ≡ ask_fault_number self }
    {
        self as u8
    }
}

/// Why no content is lent or begun. Nothing changes then.
#[derive(Clone, Copy, PartialEq, Eq, Debug, Error)]
pub enum LendFault {
    /// The content is refused, as it is where it is sent.
    #[error("{0}")]
    Refused(AskFault),
    /// What the end has put is to be written first.
    #[error("octets wait to be written")]
    Waits,
}

impl From<AskFault> for LendFault {
    ghost from_gives = { λ fault lend_fault. lend_fault ≡ lend_faults.Refused fault };

    fn from(fault: AskFault) -> LendFault {
        LendFault::Refused(fault)
    }
}

impl From<OutOfMemory> for CoreFault {
    ghost from_gives = { λ _ fault. fault ≡ core_faults.OutOfMemory };

    fn from(_: OutOfMemory) -> CoreFault {
        CoreFault::OutOfMemory
    }
}

impl From<OutOfMemory> for ConfigFault {
    ghost from_gives = { λ _ fault. fault ≡ config_faults.OutOfMemory };

    fn from(_: OutOfMemory) -> ConfigFault {
        ConfigFault::OutOfMemory
    }
}

impl From<OutOfMemory> for AskFault {
    ghost from_gives = { λ _ fault. fault ≡ ask_faults.OutOfMemory };

    fn from(_: OutOfMemory) -> AskFault {
        AskFault::OutOfMemory
    }
}
