//! The ends of which the sessions are.
use amqp_core::{Client, ClientHello, Config, End, Server, ServerHello};
use amqp_value::{ShortStr, Table};
use std::alloc::Global;
use std::test::Fail;

fn client_hello(alloc: Global) -> Result<ClientHello, Fail> {
    let mechanism = ShortStr::new(alloc, b"PLAIN")?;
    let response = Vec::from_slice(alloc, b"\0guest\0guest")?;
    let locale = ShortStr::new(alloc, b"en_US")?;
    let virtual_host = ShortStr::new(alloc, b"/")?;
    Ok(ClientHello {
        properties: Table::new(alloc),
        mechanism,
        response,
        locale,
        virtual_host,
    })
}

/// A client that is the guest, and takes frames of so many octets at most.
pub(crate) fn client_of(alloc: Global, frame_max: u32) -> Result<End<Client>, Fail> {
    let mut config = Config::new(client_hello(alloc)?);
    config.frame_max = frame_max;
    Ok(End::new(alloc, config)?)
}

/// The same client with the default, 131072 octets.
pub(crate) fn client(alloc: Global) -> Result<End<Client>, Fail> {
    client_of(alloc, 131_072)
}

fn server_hello(alloc: Global) -> Result<ServerHello, Fail> {
    let mechanisms = Vec::from_slice(alloc, b"PLAIN")?;
    let locales = Vec::from_slice(alloc, b"en_US")?;
    Ok(ServerHello {
        properties: Table::new(alloc),
        mechanisms,
        locales,
    })
}

/// A server, with the defaults.
pub(crate) fn server(alloc: Global) -> Result<End<Server>, Fail> {
    let hello = server_hello(alloc)?;
    Ok(End::new(alloc, Config::new(hello))?)
}
