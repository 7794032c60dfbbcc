//! What an end keeps of its connection.
ghost use Rattle.amqp_core.specs.Connection.FreeBefore.{FreeBefore};
ghost use Rattle.amqp_core.specs.Connection.GathersWhole.{GathersWhole};

mod blaming;
mod handshake;
mod hear;
mod lend;
mod receive;
mod reply;
mod rules;

pub(crate) use crate::connection::reply::put_owed;
use crate::settings::Settings;
use crate::stage::Stage;
use amqp_channel::{Channels, Site};
use std::alloc::Global;

/// What an end keeps of its connection. Until the handshake is over no channel is in use.
#[derive(Drop)]
pub(crate) struct Connection {
    pub(crate) alloc: Global,
    pub(crate) settings: Settings,
    pub(crate) stage: Stage,
    pub(crate) channels: Channels,
    pub ghost free: { FreeBefore stage channels },
    pub ghost gathers: { GathersWhole settings channels },
}

impl Connection {
    ghost use Rattle.std.specs.Prelude.{◌≡◌};
    ghost use Rattle.amqp_model.specs.End.Machine.{as_failed, new_end};
    ghost use Rattle.amqp_core.specs.Connection.View.{connection_end, site_at};
    ghost use Rattle.amqp_core.specs.Config.Settings.{role_for};

    /// A connection as it begins.
    pub(crate) fn new(alloc: Global, settings: Settings) -> Connection
        ensures end { connection_end result ≡ new_end (role_for settings) }
        ensures settings { result.settings ≡ settings }
    {
        let stage = Stage::first(settings.hello.side());
        let channels = Channels::new(alloc);
        Connection {
            alloc,
            settings,
            stage,
            channels,
        }
    }

    /// Out of memory, or after a fault: the end takes nothing more. What was agreed is known still.
    pub(crate) fn fail(&mut self)
        ensures end { connection_end self.new ≡ as_failed (connection_end self.old) }
        ensures settings { self.new.settings ≡ self.old.settings }
    {
        self.stage = Stage::Failed(self.stage.agreed());
    }

    /// The channel of a frame, where so many channels were agreed.
    pub(crate) fn site(&self, number: u16, channel_max: u16) -> Site
        ensures { result ≡ site_at self.now.settings number channel_max }
    {
        Site {
            side: self.settings.hello.side(),
            number,
            channel_max,
            max_body: self.settings.max_body,
        }
    }
}
