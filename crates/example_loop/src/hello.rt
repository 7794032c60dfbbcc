//! The command line, and what the programs say of themselves in the handshake.
use amqp_core::{Client, ClientHello, Config, End, Role, Server, ServerHello, StreamEnd};
use amqp_value::{ShortStr, Table, Value, ValueFault};
use std::alloc::Global;

/// The greatest body of a content that is taken.
const MAX_BODY: u64 = 134_217_728;

/// The heartbeat that is proposed, in seconds.
const HEARTBEAT: u16 = 60;

/// What clients look for before they use a broker.
pub const BROKER_ABILITIES: [&str; 5] = [
    "publisher_confirms",
    "basic.nack",
    "per_consumer_qos",
    "connection.blocked",
    "authentication_failure_close",
];

/// What clients and brokers look for before they use a program that passes on what they say.
pub const ABILITIES: [&str; 3] = [
    "publisher_confirms",
    "basic.nack",
    "authentication_failure_close",
];

/// The word that stands after another on the command line, if that is there.
pub fn word_after<'a>(words: &'a [String], name: &str) -> Option<&'a str> {
    let mut is_next = false;
    for word in words {
        if is_next {
            return Some(word.as_str());
        }
        is_next = word.as_str() == name;
    }
    None
}

/// Whether a word is on the command line.
pub fn has_word(words: &[String], name: &str) -> bool {
    for word in words {
        if word.as_str() == name {
            return true;
        }
    }
    false
}

fn put(alloc: Global, table: &mut Table, name: &str, value: Value) -> Result<(), ValueFault> {
    table.push(ShortStr::text(alloc, name)?, value)?;
    Ok(())
}

/// What a program can do.
fn capabilities(alloc: Global, abilities: &[&str]) -> Result<Table, ValueFault> {
    let mut capabilities = Table::new(alloc);
    for ability in abilities {
        put(alloc, &mut capabilities, ability, Value::from(true))?;
    }
    Ok(capabilities)
}

/// The properties of a program of this name.
fn properties(alloc: Global, product: &str, abilities: &[&str]) -> Result<Table, ValueFault> {
    let (able, name) = (
        capabilities(alloc, abilities)?,
        Value::string(alloc, product)?,
    );
    let mut properties = Table::new(alloc);
    put(alloc, &mut properties, "product", name)?;
    put(alloc, &mut properties, "capabilities", Value::from(able))?;
    Ok(properties)
}

/// An end that says this of itself. One that is gated tells of each login, and lets nobody in by itself.
fn new_end<R: Role>(
    alloc: Global,
    hello: R::Hello,
    gated: bool,
) -> anyhow::Result<Box<StreamEnd<R>>> {
    let mut config = Config::new(hello);
    config.gated = gated;
    config.max_body = MAX_BODY;
    config.heartbeat = HEARTBEAT;
    let end = End::new(alloc, config)?;
    Ok(Box::new(alloc, end.into_stream())?)
}

/// A server that looks at each login itself, by PLAIN or AMQPLAIN. It is a program of this name, with these abilities.
pub fn server_end(
    alloc: Global,
    product: &str,
    abilities: &[&str],
) -> anyhow::Result<Box<StreamEnd<Server>>> {
    let hello = ServerHello {
        properties: properties(alloc, product, abilities)?,
        mechanisms: Vec::from_slice(alloc, b"PLAIN AMQPLAIN")?,
        locales: Vec::from_slice(alloc, b"en_US")?,
    };
    new_end(alloc, hello, true)
}

/// A client likewise, which logs in by PLAIN, and goes to the virtual host `/`.
pub fn client_end(
    alloc: Global,
    product: &str,
    abilities: &[&str],
    user: &str,
    password: &str,
) -> anyhow::Result<Box<StreamEnd<Client>>> {
    let response = format!(in alloc; "\0{user}\0{password}")?.into_bytes();
    let hello = client_hello(alloc, product, abilities, response)?;
    new_end(alloc, hello, false)
}

fn client_hello(
    alloc: Global,
    product: &str,
    abilities: &[&str],
    response: Vec<u8>,
) -> Result<ClientHello, ValueFault> {
    Ok(ClientHello {
        properties: properties(alloc, product, abilities)?,
        mechanism: ShortStr::text(alloc, "PLAIN")?,
        response,
        locale: ShortStr::text(alloc, "en_US")?,
        virtual_host: ShortStr::text(alloc, "/")?,
    })
}
