//! A client and a server in memory, and what they are set up with.
use crate::octets::pad;
use amqp_core::{
    Client, ClientHello, Config, ConfigFault, End, OutOfMemory, Role, Server, ServerHello,
};
use amqp_value::{ShortStr, Table};
use std::alloc::Global;

/// What an end is set up with.
#[derive(Clone, Copy)]
pub(crate) struct Limits {
    pub(crate) frame_max: u32,
    pub(crate) channel_max: u16,
    pub(crate) max_body: u64,
    pub(crate) heartbeat: u16,
    pub(crate) gated: bool,
    /// The response or the mechanisms are filled up, so that the frame with the hello has so many octets.
    pub(crate) hello: usize,
}

/// The limits of a client and of a server.
#[derive(Clone, Copy)]
pub(crate) struct Setting {
    pub(crate) client: Limits,
    pub(crate) server: Limits,
}

pub(crate) const LIMITS: Limits = Limits {
    frame_max: 131_072,
    channel_max: 2047,
    max_body: 16_777_216,
    heartbeat: 0,
    gated: false,
    hello: 0,
};

const SMALL: Limits = Limits {
    frame_max: 8192,
    channel_max: 10,
    ..LIMITS
};

pub(crate) const DEFAULT: Setting = Setting {
    client: LIMITS,
    server: LIMITS,
};

/// Frames of 4096 octets are agreed.
pub(crate) const SMALL_FRAMES: Setting = Setting {
    client: Limits {
        frame_max: 4096,
        ..LIMITS
    },
    server: LIMITS,
};

/// Channels up to 10 and frames of 8192 octets are agreed, since the client takes no more.
pub(crate) const SMALL_CLIENT: Setting = Setting {
    client: SMALL,
    server: LIMITS,
};

/// The same, since the server takes no more.
pub(crate) const SMALL_SERVER: Setting = Setting {
    client: LIMITS,
    server: SMALL,
};

/// The server takes bodies of one octet.
pub(crate) const SMALL_BODIES: Setting = Setting {
    client: LIMITS,
    server: Limits {
        max_body: 1,
        ..LIMITS
    },
};

/// The client's application answers start.
pub(crate) const GATED_CLIENT: Setting = Setting {
    client: Limits {
        gated: true,
        ..LIMITS
    },
    server: LIMITS,
};

/// The server's application admits logins and opens.
pub(crate) const GATED_SERVER: Setting = Setting {
    client: LIMITS,
    server: Limits {
        gated: true,
        ..LIMITS
    },
};

/// The client wants the smaller heartbeat.
pub(crate) const BEATS: Setting = Setting {
    client: Limits {
        heartbeat: 10,
        ..LIMITS
    },
    server: Limits {
        heartbeat: 30,
        ..LIMITS
    },
};

/// The client wants no heartbeat.
pub(crate) const NO_BEATS_AT_CLIENT: Setting = Setting {
    client: LIMITS,
    server: Limits {
        heartbeat: 30,
        ..LIMITS
    },
};

/// The server wants no heartbeat.
pub(crate) const NO_BEATS_AT_SERVER: Setting = Setting {
    client: Limits {
        heartbeat: 30,
        ..LIMITS
    },
    server: LIMITS,
};

/// One channel is agreed.
pub(crate) const ONE_CHANNEL: Setting = Setting {
    client: Limits {
        channel_max: 1,
        ..LIMITS
    },
    server: LIMITS,
};

fn short(alloc: Global, octets: &[u8]) -> Result<ShortStr, OutOfMemory> {
    match ShortStr::new(alloc, octets) {
        Ok(text) => Ok(text),
        Err(_) => Err(OutOfMemory),
    }
}

/// Octets, followed by so many `x`.
fn padded(alloc: Global, octets: &[u8], count: usize) -> Result<Vec<u8>, OutOfMemory> {
    let mut padded = Vec::from_slice(alloc, octets)?;
    match pad(&mut padded, count) {
        Ok(()) => Ok(padded),
        Err(_) => Err(OutOfMemory),
    }
}

/// Filled up from the 44 octets of the frame of its start-ok.
pub(crate) fn client_hello(alloc: Global, frame: usize) -> Result<ClientHello, OutOfMemory> {
    let mechanism = short(alloc, b"PLAIN")?;
    let locale = short(alloc, b"en_US")?;
    let virtual_host = short(alloc, b"/")?;
    let response = padded(alloc, b"\0guest\0guest", frame.saturating_sub(44))?;
    Ok(ClientHello {
        properties: Table::new(alloc),
        mechanism,
        response,
        locale,
        virtual_host,
    })
}

/// Filled up from the 36 octets of the frame of its start.
pub(crate) fn server_hello(alloc: Global, frame: usize) -> Result<ServerHello, OutOfMemory> {
    let locales = Vec::from_slice(alloc, b"en_US")?;
    let mechanisms = padded(alloc, b"PLAIN", frame.saturating_sub(36))?;
    Ok(ServerHello {
        properties: Table::new(alloc),
        mechanisms,
        locales,
    })
}

/// An end with these limits, set up with a copy of its configuration.
fn limited<R: Role>(alloc: Global, hello: R::Hello, limits: Limits) -> Result<End<R>, ConfigFault> {
    let config = Config {
        frame_max: limits.frame_max,
        channel_max: limits.channel_max,
        max_body: limits.max_body,
        heartbeat: limits.heartbeat,
        gated: limits.gated,
        hello,
    };
    let copy = config.copy();
    drop(config);
    End::new(alloc, copy?)
}

/// A client and a server.
#[derive(Drop)]
pub(crate) struct Pair {
    pub(crate) client: End<Client>,
    pub(crate) server: End<Server>,
}

impl Pair {
    /// Two ends that have said nothing yet, or what is wrong with the client, or else with the server.
    pub(crate) fn new(alloc: Global, setting: Setting) -> Result<Pair, ConfigFault> {
        let client = client_hello(alloc, setting.client.hello)?;
        let client = limited(alloc, client, setting.client)?;
        match server(alloc, setting.server) {
            Ok(server) => Ok(Pair { client, server }),
            Err(fault) => {
                drop(client);
                Err(fault)
            }
        }
    }
}

fn server(alloc: Global, limits: Limits) -> Result<End<Server>, ConfigFault> {
    let hello = server_hello(alloc, limits.hello)?;
    limited(alloc, hello, limits)
}
