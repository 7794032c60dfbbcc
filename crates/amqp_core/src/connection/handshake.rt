//! The steps of the handshake, on channel 0: what each awaits, and what a tune settles.
//!
//! The order is protocol header, start, start-ok, tune, tune-ok, open, open-ok. A close is answered at any step, and
//! secure is not there. While an application is to decide, the other end can only close.
ghost use Rattle.std.specs.Prelude.{◌≡◌, ◌≤◌, ◌<◌, ◌^◌, ◌==◌, ◌&&◌, min, not, nat_lt, true};
ghost use Rattle.amqp_method.specs.MethodRefView.{lent_call};
ghost use Rattle.amqp_model.specs.Wire.Methods.{number_at};
ghost use Rattle.amqp_model.specs.History.Negotiation.{smaller as smaller_limit};
ghost use Rattle.amqp_channel.specs.Roles.{role_of};
ghost use Rattle.amqp_core.specs.Connection.Handshakes.{answered_in, awaits_at, within, SaysHeartbeat};
ghost use Rattle.amqp_core.specs.Connection.Stages.{phase_at};

use crate::settings::{FRAME_MIN, Settings};
use crate::stage::Stage;
use amqp_channel::Side;
use amqp_channel::words::same;
use amqp_method::{Kind, MethodRef};

/// The smaller of two limits, where the other end's 0 means none.
pub(crate) fn smaller(own: u64, others: u64) -> u64
    ensures value { result ≡ smaller_limit own others }
    ensures within { result ≤ own }
{
    if others == 0 || own < others {
        own
    } else {
        others
    }
}

/// The heartbeat that a client settles on: the smaller of the two, so none where either end wants none.
pub(crate) fn smaller_heartbeat(own: u16, others: u16) -> u16
    ensures { result ≡ min own others }
{
    if own < others { own } else { others }
}

/// The heartbeat in a tune or a tune-ok, in seconds.
pub(crate) fn heartbeat_in(method: MethodRef<'_>) -> u16
    requires { SaysHeartbeat (lent_call method).kind }
    ensures { result ≡ number_at 2 (lent_call method.entry) }
{
    // The arguments are of the kinds of their fields, so the third is a number of 16 bits.
    let _args = method.args();
    match method.short_at(2) {
        Some(heartbeat) => heartbeat,
        None => unreachable!(),
    }
}

/// Whether a server tunes to a frame that is too small; its 0 means no limit.
pub(crate) fn is_too_small(frame: u64) -> bool
    ensures { result ≡ (not (frame == 0) && nat_lt frame 4096) }
{
    frame != 0 && frame < FRAME_MIN
}

/// Whether a server takes a tune-ok with these limits. It takes any heartbeat.
pub(crate) fn is_within(settings: &Settings, channels: u64, frame: u64) -> bool
    ensures value { result ≡ within settings.now.channel_max settings.now.frame_max channels frame }
    ensures channels { result ≡ true → channels < 2 ^ 16 }
    ensures frame { result ≡ true → frame < 2 ^ 32 }
{
    0 < channels
        && channels <= settings.channel_max as u64
        && FRAME_MIN <= frame
        && frame <= settings.frame_max as u64
}

impl Stage {
    /// Whether this is the method that the stage awaits.
    pub(crate) fn awaits(self, kind: Kind) -> bool
        ensures { result ≡ awaits_at self kind }
    {
        match self {
            Stage::AwaitsStart => same(kind, Kind::ConnectionStart),
            Stage::AwaitsStartOk => same(kind, Kind::ConnectionStartOk),
            Stage::AwaitsTune => same(kind, Kind::ConnectionTune),
            Stage::AwaitsTuneOk => same(kind, Kind::ConnectionTuneOk),
            Stage::AwaitsOpen(_) => same(kind, Kind::ConnectionOpen),
            Stage::AwaitsOpenOk(_) => same(kind, Kind::ConnectionOpenOk),
            Stage::AwaitsProtocolHeader => false,
            Stage::HoldsStart => false,
            Stage::HoldsLogin => false,
            Stage::HoldsOpen(_) => false,
            Stage::Running(_) => false,
            Stage::Closing(_) => false,
            Stage::Closed(_) => false,
            Stage::Failed(_) => false,
        }
    }

    /// Whether this side answers what the stage awaits.
    pub(crate) fn is_answered_by(self, side: Side) -> bool
        ensures { result ≡ answered_in (role_of side) (phase_at self) }
    {
        match self {
            Stage::AwaitsStart | Stage::AwaitsTune | Stage::AwaitsOpenOk(_) => side.is_client(),
            Stage::AwaitsStartOk | Stage::AwaitsTuneOk | Stage::AwaitsOpen(_) => !side.is_client(),
            Stage::AwaitsProtocolHeader => false,
            Stage::HoldsStart => false,
            Stage::HoldsLogin => false,
            Stage::HoldsOpen(_) => false,
            Stage::Running(_) => false,
            Stage::Closing(_) => false,
            Stage::Closed(_) => false,
            Stage::Failed(_) => false,
        }
    }
}
