//! Whether an ask is refused, and where its frames go if it isn't. An end that is kept with its history wants to know
//! this before anything is put, to make room for what the ask adds.
ghost use Rattle.std.specs.Prelude.{◌≡◌, Some, IfOk, IfErr, OnOk};
ghost use Rattle.amqp_model.specs.End.Asks as asks;
ghost use Rattle.amqp_model.specs.End.Asks.{lowest_free};
ghost use Rattle.amqp_core.specs.Traced.NotedAsks.{IsChannelOf, IsSizeOf};
ghost use Rattle.amqp_core.specs.Asks.View.{lent_view};
ghost use Rattle.amqp_core.specs.Asks.Outcomes.{IsAllowed, IsRefusal};

use crate::asks::LentAsk;
use crate::connection::Connection;
use crate::faults::AskFault;
use amqp_channel::{Agreed, Side};

/// Where the frames of an ask go.
#[derive(Clone, Copy)]
pub(crate) struct Place {
    /// their channel
    pub(crate) channel: u16,
    /// the greatest length of each
    pub(crate) frame_max: u32,
}

impl Connection {
    ghost use Rattle.amqp_core.specs.Connection.View.{connection_end};
    ghost use Rattle.amqp_core.specs.declared.stage.Stage.TheVariants.{Running};

    /// The channel that an open takes, where it isn't refused.
    fn find_free(&self, agreed: Agreed) -> Result<u16, AskFault>
        requires { self.now.stage ≡ Running agreed }
        ensures allowed { OnOk result (IsAllowed self.now.settings (connection_end self.now) asks.Open) }
        ensures refused { IfErr result (λ fault. IsRefusal self.now.settings (connection_end self.now) asks.Open
            fault) }
        ensures lowest { IfOk result (λ number. lowest_free (connection_end self.now) ≡ Some number) }
    {
        match self.settings.hello.side() {
            Side::Server => Err(AskFault::NotSendable),
            Side::Client => match self.channels.first_free(agreed.channel_max) {
                Some(number) => Ok(number),
                None => Err(AskFault::NoFreeChannel),
            },
        }
    }

    /// Where the frames of an ask go, or why it is refused.
    pub(crate) fn allow(&self, ask: LentAsk<'_>) -> Result<Place, AskFault>
        ensures allowed { OnOk result (IsAllowed self.now.settings (connection_end self.now) (lent_view ask.entry)) }
        ensures refused { IfErr result (λ fault. IsRefusal self.now.settings (connection_end self.now)
            (lent_view ask.entry) fault) }
        ensures channel { IfOk result (λ place. IsChannelOf (connection_end self.now) (lent_view ask.entry)
            place.channel) }
        ensures size { IfOk result (λ place. IsSizeOf (connection_end self.now).agreed place.frame_max) }
    {
        let agreed = self.running()?;
        let frame_max = agreed.frame_max;
        let channel = match ask {
            LentAsk::Open => self.find_free(agreed)?,
            LentAsk::Send(channel, message) => {
                let _agreed = self.allow_send(channel, message)?;
                channel
            }
            LentAsk::Flow(channel, _) => {
                let _agreed = self.allow_flow(channel)?;
                channel
            }
            LentAsk::CloseChannel(channel, _, _, _) => {
                let _agreed = self.allow_close(channel)?;
                channel
            }
            LentAsk::Close(_, _, _) => 0,
            LentAsk::Blocked(_) => {
                let _agreed = self.allow_block()?;
                0
            }
            LentAsk::Unblocked => {
                let _agreed = self.allow_block()?;
                0
            }
        };
        Ok(Place { channel, frame_max })
    }
}
