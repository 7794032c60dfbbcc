//! What an application sets an end up with.
ghost use Rattle.std.specs.Prelude.{◌≡◌, None, IfErr, IfOk};
ghost use Rattle.amqp_model.specs.End.Fitting.{config_fault};
ghost use Rattle.amqp_core.specs.Config.Configs.{set_up_as, settings_of};
ghost use Rattle.amqp_core.specs.Config.Defaults.{HasDefaults};
ghost use Rattle.amqp_core.specs.Config.Settings.{config_view, role_for};

use crate::faults::{ConfigFault, OutOfMemory};
use crate::kept_hello::KeptHello;
use crate::roles::Role;
use crate::settings::Settings;
use std::alloc::Global;

/// What an end is set up with.
#[derive(Drop)]
pub struct Config<R: Role> {
    /// The greatest frame that the end takes, in octets, all of the frame counted: from 4096 to 1048576. A server says
    /// it in tune; a client settles on the smaller of its own and the server's.
    pub frame_max: u32,
    /// The greatest channel number, from 1 to 65535, agreed in the same way. So many channels can be open at once.
    pub channel_max: u16,
    /// The greatest body of a content that the end takes, in octets. A content whose header says more is refused, which
    /// closes its channel.
    pub max_body: u64,
    /// The heartbeat that the end wants, in seconds; 0 is none. A server says it in tune, and takes whatever the
    /// client settles; a client settles on the smaller of its own and the server's, which is none where either is 0.
    pub heartbeat: u16,
    /// Whether the application decides in the handshake: a server's what to answer to start-ok and to open, a
    /// client's what to answer to start. The end tells that it is asked, and puts nothing until the application
    /// answers. An end that is not gated answers at once.
    pub gated: bool,
    /// What the end says of itself: a server in start, a client in start-ok and in open. The frame of start or of
    /// start-ok has at most 4096 octets.
    pub hello: R::Hello,
}

impl<R: Role> Config<R> {
    /// The defaults: frames of 131072 octets, 2047 channels, bodies of 16777216 octets, no heartbeat, not gated.
    pub fn new(hello: R::Hello) -> Config<R>
        ensures { HasDefaults hello result }
    {
        Config {
            frame_max: 131_072,
            channel_max: 2047,
            max_body: 16_777_216,
            heartbeat: 0,
            gated: false,
            hello,
        }
    }

    /// An equal configuration.
    pub fn copy(&self) -> Result<Config<R>, OutOfMemory>
        ensures { IfOk result (λ copy. set_up_as (settings_of R.hello_of copy)
            ≡ set_up_as (settings_of R.hello_of self.now)) }
    {
        let hello = R::copy_hello(&self.hello)?;
        Ok(Config {
            frame_max: self.frame_max,
            channel_max: self.channel_max,
            max_body: self.max_body,
            heartbeat: self.heartbeat,
            gated: self.gated,
            hello,
        })
    }

    ghost use Rattle.amqp_core.specs.End.Beginning.{IsFaultIn};

    /// The settings of an end, whichever role it plays, or why an end can't be set up so.
    pub(crate) fn into_settings(self, alloc: Global) -> Result<Settings, ConfigFault>
        ensures settings { IfOk result (λ settings. settings ≡ settings_of R.hello_of self) }
        ensures role { IfOk result (λ settings. role_for settings ≡ R.role) }
        ensures faultless { IfOk result (λ settings. config_fault (role_for settings) (config_view settings) ≡ None) }
        ensures fault { IfErr result (λ fault. IsFaultIn (settings_of R.hello_of self) fault) }
    {
        let hello = R::into_hello(self.hello);
        if let Some(fault) = hello.fault(self.frame_max, self.channel_max) {
            return Err(fault);
        }
        Ok(Settings {
            frame_max: self.frame_max,
            channel_max: self.channel_max,
            max_body: self.max_body,
            heartbeat: self.heartbeat,
            gated: self.gated,
            hello: KeptHello::new(alloc, hello)?,
            lends: false,
        })
    }
}
