//! Heartbeats, and what an application decides in the handshake.
//!
//! Besides its asks an application puts heartbeats, and where an end is gated it decides: a client answers start with
//! a mechanism that it chose, a server admits a login and an open, or refuses them with a close. Each of these puts
//! one frame on channel 0, or is refused. They are steps of an end as asks are (`controls`, of `Goes`), so that all
//! laws of one end and of two hold with them; these laws say what one of them makes of an end.

ghost use Rattle.amqp_model.specs.Laws.ControlLaws.{ControlStandsTogether, ControlledFits, ControlledReadsBack};
ghost use Rattle.amqp_model.specs.Laws.ControlLaws.{EveryControlStaysPair, SettlesHeartbeat, UngatedAnswersAtOnce};
ghost use Rattle.amqp_model.specs.Laws.ControlLaws.{UngatedNeverHolds};
ghost use Rattle.amqp_model.specs.Laws.ControlsFollow.{ControlsFollow, ControlsFollowOctets};

use crate::fitting::written_reads_back;

/// What comes of a control is what the end's history gives. Where it is accepted one frame is put, on channel 0: what
/// the end keeps stands for its history with that frame. The handshake goes on, or ends, or the connection closes; no
/// channel changes, and no message is said. Above channel 0 the end leaves, if it refuses, and does nothing else.
pub fn controls_follow()
    ensures { ControlsFollow }
{}

/// What is written for a control reads back, where the control and the configuration fit their fields. Its frame fits
/// its fields, and has at most 4096 octets.
pub fn controls_are_written()
    ensures reads_back { ControlledReadsBack }
    ensures fit { ControlledFits }
{
    written_reads_back();
}

/// An endpoint that accepts a control goes on to stand for its history, and for what it was fed and wrote; one that
/// refuses it stays as it is. What is unfinished is held, and alike endpoints stay alike.
pub fn controls_follow_octets()
    ensures { ControlsFollowOctets }
{}

/// Two endpoints that stand together do so still when one of them accepts a control, and their histories are a
/// pair's.
pub fn controls_stand_together()
    ensures together { ControlStandsTogether }
    ensures pair { EveryControlStaysPair }
{
    written_reads_back();
}

/// An end that is not gated answers at once, and never waits for its application. Two ends settle on the smaller of
/// their heartbeats, and on none where either wants none.
pub fn ungated_answers_at_once()
    ensures answers { UngatedAnswersAtOnce }
    ensures holds { UngatedNeverHolds }
    ensures heartbeat { SettlesHeartbeat }
{}
