//! What the program's ends say of themselves, and the limits that they are set up with.
use crate::words::short;
use amqp_command::Limits;
use amqp_core::{Client, ClientHello, Config, Server, ServerHello};
use amqp_method::OutOfMemory;
use amqp_value::{ShortStr, Table};
use std::alloc::Global;

/// The security mechanism of user names and passwords.
const MECHANISM: &[u8] = b"PLAIN";

/// The user that every program here is where nothing names another, and its password.
const GUEST: &[u8] = b"guest";

const LOCALE: &[u8] = b"en_US";

const VIRTUAL_HOST: &[u8] = b"/";

/// As whom a client logs in, and to which virtual host.
#[derive(Drop)]
pub struct Access {
    /// the mechanism's answer
    response: Vec<u8>,
    virtual_host: ShortStr,
}

impl Access {
    /// The mechanism's answer has no identity to act as, and then the user and the password, each after an octet of 0.
    pub fn new(
        alloc: Global,
        user: &[u8],
        password: &[u8],
        virtual_host: ShortStr,
    ) -> Result<Access, OutOfMemory> {
        let mut response = Vec::new(alloc);
        response.push(0)?;
        response.extend_from_slice(user)?;
        response.push(0)?;
        response.extend_from_slice(password)?;
        Ok(Access {
            response,
            virtual_host,
        })
    }

    fn guest(alloc: Global) -> Result<Access, OutOfMemory> {
        let virtual_host = short(alloc, VIRTUAL_HOST)?;
        Access::new(alloc, GUEST, GUEST, virtual_host)
    }
}

/// A client of these limits. It logs in as `guest`.
pub fn client_config(alloc: Global, limits: Limits) -> Result<Config<Client>, OutOfMemory> {
    client_config_of(alloc, limits, Access::guest(alloc)?)
}

/// A client of these limits that logs in so.
pub fn client_config_of(
    alloc: Global,
    limits: Limits,
    access: Access,
) -> Result<Config<Client>, OutOfMemory> {
    let hello = client_hello(alloc, access)?;
    Ok(Config {
        frame_max: limits.frame_max,
        channel_max: limits.channel_max,
        max_body: limits.max_body,
        heartbeat: 0,
        gated: false,
        hello,
    })
}

/// A server of these limits.
pub fn server_config(alloc: Global, limits: Limits) -> Result<Config<Server>, OutOfMemory> {
    let hello = server_hello(alloc)?;
    Ok(Config {
        frame_max: limits.frame_max,
        channel_max: limits.channel_max,
        max_body: limits.max_body,
        heartbeat: 0,
        gated: false,
        hello,
    })
}

fn client_hello(alloc: Global, access: Access) -> Result<ClientHello, OutOfMemory> {
    let Access {
        response,
        virtual_host,
    } = access;
    let mechanism = short(alloc, MECHANISM)?;
    let locale = short(alloc, LOCALE)?;
    Ok(ClientHello {
        properties: Table::new(alloc),
        mechanism,
        response,
        locale,
        virtual_host,
    })
}

fn server_hello(alloc: Global) -> Result<ServerHello, OutOfMemory> {
    let mechanisms = Vec::from_slice(alloc, MECHANISM)?;
    let locales = Vec::from_slice(alloc, LOCALE)?;
    Ok(ServerHello {
        properties: Table::new(alloc),
        mechanisms,
        locales,
    })
}
