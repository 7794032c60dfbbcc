//! The numbers of what ends answer.
ghost use Rattle.std.specs.Prelude.{◌≡◌};
ghost use Rattle.amqp_channel.specs.Events.EventView.{state_view};
ghost use Rattle.amqp_calls.specs.Blaming.{rule_number};
ghost use Rattle.amqp_calls.specs.EndAnswers.{state_told};
ghost use Rattle.amqp_calls.specs.EndNumbers.{ask_status, asked_status, config_status, phase_number};

use amqp_core::{AskFault, ChannelState, ConfigFault, Phase, Rule};
use amqp_frame::FrameFaultKind;

/// The status of what is wrong with settings is this and its number.
const CONFIG_FAULTS: u32 = 500;

/// The status of a refusal is this and its number.
const ASK_FAULTS: u32 = 600;

/// The status of what is wrong with settings.
pub(crate) fn config_fault(fault: ConfigFault) -> u32
    ensures { result ≡ config_status fault }
{
    CONFIG_FAULTS + u32::from(fault.number())
}

/// The status of a refusal.
pub(crate) fn ask_fault(fault: AskFault) -> u32
    ensures { result ≡ ask_status fault }
{
    ASK_FAULTS + u32::from(fault.number())
}

/// The status of an answer: 0 where what was asked is accepted.
pub(crate) fn asked(answer: Result<(), AskFault>) -> u32
    ensures { result ≡ asked_status answer }
{
    match answer {
        Ok(()) => 0,
        Err(fault) => ask_fault(fault),
    }
}

/// The number of a phase.
pub(crate) fn phase_of(phase: Phase) -> u8
    ensures { result ≡ phase_number phase }
{
    match phase {
        Phase::Handshake => 1,
        Phase::Running => 2,
        Phase::Closing => 3,
        Phase::Closed => 4,
        Phase::Failed => 5,
    }
}

/// The number of a channel's state.
pub(crate) fn state_of(state: ChannelState) -> u8
    ensures { result ≡ state_told (state_view state) }
{
    match state {
        ChannelState::Free => 1,
        ChannelState::Opening => 2,
        ChannelState::Open => 3,
        ChannelState::Closing => 4,
    }
}

/// The number of a rule.
pub(crate) fn rule_of(rule: Rule) -> u8
    ensures { result ≡ rule_number rule }
{
    match rule {
        Rule::ProtocolHeader => 1,
        Rule::Framing(FrameFaultKind::UnknownType) => 2,
        Rule::Framing(FrameFaultKind::TooLarge) => 3,
        Rule::Framing(FrameFaultKind::BadEnd) => 4,
        Rule::Framing(FrameFaultKind::OutOfMemory) => 5,
        Rule::Framing(FrameFaultKind::Failed) => 6,
        Rule::HeartbeatIsEmpty => 7,
        Rule::HeartbeatOnZero => 8,
        Rule::KnownMethod => 9,
        Rule::NoSecure => 10,
        Rule::Syntax => 11,
        Rule::HandshakeOrder => 12,
        Rule::TuneFrameSize => 13,
        Rule::TuneOkRange => 14,
        Rule::HandshakeIsOver => 15,
        Rule::ConnectionOnZero => 16,
        Rule::SentBySide => 17,
        Rule::WasAsked => 18,
        Rule::NotOnZero => 19,
        Rule::ChannelMaximum => 20,
        Rule::OpenedOnce => 21,
        Rule::ChannelOpen => 22,
        Rule::HeaderDue => 23,
        Rule::BodyDue => 24,
        Rule::ContentBegun => 25,
        Rule::BodySize => 26,
        Rule::WaitingRequests => 27,
        Rule::ContentSize => 28,
    }
}
