//! What a command line asks for.
use crate::options::{Gates, Limits};
use amqp_channel::Side;
use amqp_method::Properties;
use amqp_text::Load;
use amqp_value::ShortStr;
use std::time::Duration;

/// What the command line asks for.
#[derive(Drop)]
pub enum Request {
    /// List the frames of octets that start so.
    Show(Start),
    /// Check what the other end of this side writes.
    Check(Side, Limits),
    /// Do what a script says with pairs of ends.
    Link(Limits, Gates),
    /// Serve one connection of this peer.
    Serve(Peer, Limits),
    /// Publish to this peer.
    Publish(Peer, Publication, Limits),
    /// Send contents from a client to a server here.
    Loop(Load, Limits),
}

/// What the octets that `show` reads begin with.
#[derive(Clone, Copy)]
pub enum Start {
    Frame,
    /// The protocol header, and then a frame: a client's octets from the first.
    ProtocolHeader,
}

/// Where a peer is, or is awaited.
#[derive(Drop)]
pub struct Peer {
    /// A host's name or an IP address, and a port.
    pub address: String,
    /// The connection is given up where no octet comes or goes for so long. With None it may take any time.
    pub time_out: Option<Duration>,
    /// The heartbeat that is wanted, in seconds; 0 is none.
    pub heartbeat: u16,
}

/// What is published, and by whom.
#[derive(Drop)]
pub struct Publication {
    pub login: Login,
    pub destination: Destination,
    /// The properties of the content.
    pub properties: Properties,
}

/// As whom a client logs in, and to which virtual host.
#[derive(Drop)]
pub struct Login {
    /// No octet is 0.
    pub user: Vec<u8>,
    pub password: Password,
    pub virtual_host: ShortStr,
}

/// Where the password is. It has no `Debug`, so that nothing prints it.
#[derive(Drop)]
pub enum Password {
    /// These octets.
    Given(Vec<u8>),
    /// The first line of the file at this path.
    InFile(String),
}

/// Where a content is published, and what the server is to say of it.
#[derive(Drop)]
pub struct Destination {
    pub exchange: ShortStr,
    pub key: ShortStr,
    /// The server returns the content where no queue takes it, and is waited for.
    pub mandatory: bool,
    /// The content is mandatory, and the server confirms that it took it.
    pub confirm: bool,
}
