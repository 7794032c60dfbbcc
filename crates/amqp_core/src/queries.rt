//! What an end answers of itself: where it stands, the states of its channels, and how much it keeps of them.
ghost use Rattle.std.specs.Prelude.{◌≡◌};
ghost use Rattle.amqp_model.specs.End.Answers.{channel_state, octets_gathered, reply_due};
ghost use Rattle.amqp_model.specs.End.Asks.{channel_max};
ghost use Rattle.amqp_channel.specs.Events.EventView.{state_view};
ghost use Rattle.amqp_core.specs.Connection.View.{connection_end};

use crate::connection::Connection;
use crate::stage::Stage;
use amqp_channel::ChannelState;
use amqp_method::Kind;

impl Connection {
    /// The greatest channel number that was agreed, 0 before.
    fn channel_max(&self) -> u16
        ensures { result ≡ channel_max (connection_end self.now).agreed }
    {
        match self.stage.agreed() {
            Some(agreed) => agreed.channel_max,
            None => 0,
        }
    }

    pub(crate) fn channel_state(&self, number: u16) -> ChannelState
        ensures { state_view result ≡ channel_state (connection_end self.now) number }
    {
        if number == 0 || self.channel_max() < number {
            return ChannelState::Free;
        }
        if self.stage.is_closed() || self.stage.is_failed() {
            return ChannelState::Free;
        }
        match self.channels.get(number) {
            Some(channel) => channel.state(),
            None => ChannelState::Free,
        }
    }

    pub(crate) fn gathered(&self, number: u16) -> usize
        ensures { result ≡ octets_gathered (connection_end self.now) number }
    {
        let Stage::Running(_) = self.stage else {
            return 0;
        };
        if number == 0 {
            return 0;
        }
        match self.channels.get(number) {
            Some(channel) => channel.octets(),
            None => 0,
        }
    }

    pub(crate) fn reply_due(&self, number: u16) -> Option<Kind>
        ensures { result ≡ reply_due (connection_end self.now) number }
    {
        if number == 0 || self.stage.is_closed() || self.stage.is_failed() {
            return None;
        }
        match self.channels.get(number) {
            Some(channel) => channel.due(),
            None => None,
        }
    }
}
