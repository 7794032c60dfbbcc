//! What an end answers of itself.
ghost use Rattle.std.specs.Prelude.{◌≡◌};
ghost use Rattle.amqp_channel.specs.Events.EventView.{agreed_there};
ghost use Rattle.amqp_core.specs.Stream.View.{endpoint_of};
ghost use Rattle.amqp_calls.specs.EndAnswers.{counts_in, LooksAt, ToldAgreed, ToldChannel};

use crate::codec::methods::number_of;
use crate::ends::numbers::{phase_of, state_of};
use amqp_core::{Agreed, Role, StreamEnd};
use amqp_handle::{Gathering, Kept};

/// What tune-ok settled, as it crosses to C: all 0 before that.
#[repr(C)]
#[derive(Clone, Copy)]
pub struct AgreedLimits {
    pub frame_max: u32,
    pub channel_max: u16,
    pub heartbeat: u16,
}

/// What an end answers of itself, as it crosses to C.
///
/// How many frames it took, how many octets of its output were written, and how many octets it took; how many of these
/// are of a frame that isn't whole yet, how many it keeps for its peer, and how many of bodies on all channels; what
/// was agreed, the heartbeat of that, and the number of its phase.
#[repr(C)]
#[derive(Clone, Copy)]
pub struct EndLook {
    pub frames_taken: u64,
    pub octets_written: u64,
    pub octets_taken: u64,
    pub pending: usize,
    pub kept: usize,
    pub gathered: usize,
    pub agreed: AgreedLimits,
    pub heartbeat: u16,
    pub phase: u8,
}

/// What an end answers of a channel, as it crosses to C.
///
/// How many octets have come of the body of a content that isn't whole yet, the number of the method that is to be
/// answered next, or 0, and the number of its state.
#[repr(C)]
#[derive(Clone, Copy)]
pub struct ChannelTold {
    pub gathered: usize,
    pub reply_due: u32,
    pub state: u8,
}

fn limits(agreed: Option<Agreed>) -> AgreedLimits
    ensures { ToldAgreed (agreed_there agreed) result }
{
    match agreed {
        Some(agreed) => AgreedLimits {
            frame_max: agreed.frame_max,
            channel_max: agreed.channel_max,
            heartbeat: agreed.heartbeat,
        },
        None => AgreedLimits {
            frame_max: 0,
            channel_max: 0,
            heartbeat: 0,
        },
    }
}

/// How many octets an end that gathers keeps of methods and headers, and of bodies.
fn gathered(gathering: &Option<Box<Gathering>>) -> (usize, usize)
    ensures { (result.0 ≡ (counts_in gathering.now).heads) × (result.1 ≡ (counts_in gathering.now).bodies) }
{
    match gathering {
        Some(gathering) => (gathering.heads, gathering.bodies),
        None => (0, 0),
    }
}

pub fn look<R: Role>(kept: &Kept<StreamEnd<R>>) -> EndLook
    ensures { LooksAt kept.now result }
{
    let end = &*kept.end;
    let (heads, bodies) = gathered(&kept.gathering);
    EndLook {
        frames_taken: end.frames_taken(),
        octets_written: end.octets_written(),
        octets_taken: end.octets_taken(),
        pending: end.pending(),
        kept: end.kept().saturating_add(heads).saturating_add(bodies),
        gathered: bodies,
        agreed: limits(end.agreed()),
        heartbeat: end.heartbeat(),
        phase: phase_of(end.phase()),
    }
}

pub fn tell_channel<R: Role>(kept: &Kept<StreamEnd<R>>, channel: u16) -> ChannelTold
    ensures { ToldChannel (endpoint_of kept.now.end.value).end channel result }
{
    let end = &*kept.end;
    let reply_due = match end.reply_due(channel) {
        Some(kind) => number_of(kind),
        None => 0,
    };
    ChannelTold {
        gathered: end.came(channel),
        reply_due,
        state: state_of(end.channel_state(channel)),
    }
}
