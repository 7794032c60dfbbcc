//! What a channel answers when it is asked: its state, how much is kept of it, and what is due on it.
ghost use Rattle.std.specs.Prelude.{◌≡◌, ◌<◌, ◌^◌, length};
ghost use Rattle.amqp_model.specs.End.Answers.{due_by, kept_by};
ghost use Rattle.amqp_model.specs.End.Channels.{state_of};
ghost use Rattle.amqp_model.specs.Wire.Gathering.{kept};
ghost use Rattle.amqp_channel.specs.Channel.ChannelView.{channel_view};
ghost use Rattle.amqp_channel.specs.Contents.GatheringView.{gathering_view};
ghost use Rattle.amqp_channel.specs.Events.EventView.{state_view};

use crate::channel::Channel;
use crate::gathering::Gathering;
use amqp_method::Kind;

/// The state of a channel.
#[derive(Clone, Copy, PartialEq, Eq, Debug)]
pub enum ChannelState {
    /// No life: the number can be opened.
    Free,
    /// A client has put open, and awaits open-ok.
    Opening,
    Open,
    /// This end has put close, and awaits close-ok.
    Closing,
}

impl Gathering {
    /// How many octets are kept of a body.
    pub(crate) fn octets(&self) -> usize
        ensures octets { result ≡ length (kept (gathering_view self.now)) }
        ensures small { result < 2 ^ 63 }
    {
        match self {
            Gathering::Nothing => 0,
            Gathering::HeaderDue(_) => 0,
            Gathering::BodyDue { content, .. } => content.body.len(),
            Gathering::Deferred(deferred) => deferred.content.body.len(),
        }
    }
}

impl Channel {
    /// Its state, as an application sees it.
    pub fn state(&self) -> ChannelState
        ensures { state_view result ≡ state_of (channel_view self.now) }
    {
        match self {
            Channel::Free => ChannelState::Free,
            Channel::Opening => ChannelState::Opening,
            Channel::Closing => ChannelState::Closing,
            Channel::Open(_) | Channel::LentHeader(_, _) | Channel::LentBody { .. } => {
                ChannelState::Open
            }
        }
    }

    /// How many octets have come of the body of the content under way.
    pub fn octets(&self) -> usize
        ensures { result ≡ length (kept_by (channel_view self.now)) }
    {
        match self {
            Channel::Free => 0,
            Channel::Opening => 0,
            Channel::Closing => 0,
            Channel::Open(life) => life.content.octets(),
            Channel::LentHeader(_, _) => 0,
            Channel::LentBody { came, .. } => *came as usize,
        }
    }

    /// The oldest request without a reply.
    pub fn due(&self) -> Option<Kind>
        ensures { result ≡ due_by (channel_view self.now) }
    {
        match self {
            Channel::Free => None,
            Channel::Opening => None,
            Channel::Closing => None,
            Channel::Open(life) => life.standing.oldest_request(),
            Channel::LentHeader(_, standing) => standing.oldest_request(),
            Channel::LentBody { standing, .. } => standing.oldest_request(),
        }
    }
}
