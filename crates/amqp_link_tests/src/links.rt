//! Links, and what their ends are set up with.
use amqp_core::{Client, ClientHello, Config, ConfigFault, OutOfMemory, Role, Server, ServerHello};
use amqp_link::Link;
use amqp_value::{ShortStr, Table};
use std::alloc::Global;

/// What an end is set up with.
#[derive(Clone, Copy)]
pub(crate) struct Limits {
    pub(crate) frame_max: u32,
    pub(crate) channel_max: u16,
    pub(crate) max_body: u64,
    /// The response or the mechanisms are filled up, so that the frame with the hello has so many octets.
    pub(crate) hello: usize,
    pub(crate) gated: bool,
}

/// The limits of the clients and of the servers.
#[derive(Clone, Copy)]
pub(crate) struct Setting {
    pub(crate) client: Limits,
    pub(crate) server: Limits,
}

pub(crate) const LIMITS: Limits = Limits {
    frame_max: 131_072,
    channel_max: 2047,
    max_body: 16_777_216,
    hello: 0,
    gated: false,
};

const GATED: Limits = Limits {
    gated: true,
    ..LIMITS
};

pub(crate) const DEFAULT: Setting = Setting {
    client: LIMITS,
    server: LIMITS,
};

/// One channel is agreed.
pub(crate) const ONE_CHANNEL: Setting = Setting {
    client: Limits {
        channel_max: 1,
        ..LIMITS
    },
    server: LIMITS,
};

/// The servers take bodies of one octet.
pub(crate) const SMALL_BODIES: Setting = Setting {
    client: LIMITS,
    server: Limits {
        max_body: 1,
        ..LIMITS
    },
};

pub(crate) const GATED_SERVER: Setting = Setting {
    client: LIMITS,
    server: GATED,
};

pub(crate) const GATED_CLIENT: Setting = Setting {
    client: GATED,
    server: LIMITS,
};

pub(crate) const BOTH_GATED: Setting = Setting {
    client: GATED,
    server: GATED,
};

fn short(alloc: Global, octets: &[u8]) -> Result<ShortStr, OutOfMemory> {
    match ShortStr::new(alloc, octets) {
        Ok(text) => Ok(text),
        Err(_) => Err(OutOfMemory),
    }
}

/// Octets, followed by so many `x`.
fn padded(alloc: Global, octets: &[u8], count: usize) -> Result<Vec<u8>, OutOfMemory> {
    let mut padded = Vec::from_slice(alloc, octets)?;
    for _ in 0..count {
        padded.push(b'x')?;
    }
    Ok(padded)
}

/// Filled up from the 44 octets of the frame of its start-ok.
fn client_hello(alloc: Global, frame: usize) -> Result<ClientHello, OutOfMemory> {
    let mechanism = short(alloc, b"PLAIN")?;
    let locale = short(alloc, b"en_US")?;
    let virtual_host = short(alloc, b"/")?;
    let response = padded(alloc, b"\0guest\0guest", frame.saturating_sub(44))?;
    Ok(ClientHello {
        properties: Table::new(alloc),
        mechanism,
        response,
        locale,
        virtual_host,
    })
}

/// Filled up from the 36 octets of the frame of its start.
fn server_hello(alloc: Global, frame: usize) -> Result<ServerHello, OutOfMemory> {
    let locales = Vec::from_slice(alloc, b"en_US")?;
    let mechanisms = padded(alloc, b"PLAIN", frame.saturating_sub(36))?;
    Ok(ServerHello {
        properties: Table::new(alloc),
        mechanisms,
        locales,
    })
}

fn limited<R: Role>(hello: R::Hello, limits: Limits) -> Config<R> {
    Config {
        frame_max: limits.frame_max,
        channel_max: limits.channel_max,
        max_body: limits.max_body,
        heartbeat: 0,
        gated: limits.gated,
        hello,
    }
}

fn client(alloc: Global, limits: Limits) -> Result<Config<Client>, OutOfMemory> {
    let hello = client_hello(alloc, limits.hello)?;
    Ok(limited(hello, limits))
}

fn server(alloc: Global, limits: Limits) -> Result<Config<Server>, OutOfMemory> {
    let hello = server_hello(alloc, limits.hello)?;
    Ok(limited(hello, limits))
}

/// A link of no connection yet.
pub(crate) fn new_link(alloc: Global, setting: Setting) -> Result<Link, ConfigFault> {
    let client = client(alloc, setting.client)?;
    match server(alloc, setting.server) {
        Ok(server) => Link::new(alloc, client, server),
        Err(OutOfMemory) => {
            drop(client);
            Err(ConfigFault::OutOfMemory)
        }
    }
}
