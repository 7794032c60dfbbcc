//! The values of the property delivery-mode (`amqp0-9-1.xml`, class basic).

/// The message may be lost in a restart of the server.
pub const TRANSIENT: u8 = 1;

/// The message outlives a restart of the server, where its queue does.
pub const PERSISTENT: u8 = 2;
