//! A client that logs in, opens a channel, publishes a message and closes the connection, over any stream.
//!
//! So that it runs without a network, the stream is a script of what a server writes. Over TCP it is a
//! [`Socket`](amqp_io::Socket), and `publish` stays as it is:
//!
//!     let mut stream = Socket::new(TcpStream::connect(&rt, "127.0.0.1:5672")?);
#![tactic(auto)]

mod server;

use amqp_core::{Client, ClientHello, Config, End, Event};
use amqp_io::{Session, Stream};
use amqp_method::{Arg, Kind, Message, Method, Properties};
use amqp_value::{ShortStr, Table};
use anyhow::Result;
use std::alloc::Global;

/// A connection that isn't closed after so many steps is given up.
const STEPS: usize = 1000;

fn main(rt: HostRuntime) -> Result<()> {
    let alloc = rt.alloc();
    // A stream of your own goes here.
    let mut stream = server::script(alloc)?;
    publish(&rt, alloc, &mut stream)?;
    println!(rt; "{} octets written", stream.written().len())?;
    Ok(())
}

/// Publishes one message, and prints what the client's end tells on the way.
fn publish<S: Stream>(rt: &impl Print, alloc: Global, stream: &mut S) -> Result<()> {
    let end: End<Client> = End::new(alloc, Config::new(guest(alloc)?))?;
    let mut session = Session::new(alloc, end, stream);
    for _ in 0..STEPS {
        let Some(event) = session.next_event() else {
            // All is heard. What the end has to say is written, first of all the protocol header, and more is read.
            session.push(usize::MAX)?;
            session.pull()?;
            continue;
        };
        println!(rt; "{event}")?;
        match event {
            Event::Negotiated(_) => {
                session.open_channel()?;
            }
            Event::Opened(channel) => {
                session.send(channel, &greeting(alloc)?)?;
                session.close(200, &ShortStr::new(alloc, b"bye")?)?;
            }
            Event::ConnectionClosed(_) => break,
            _ => {}
        }
    }
    // Where it was the server that closed, the answer is still to be written.
    session.push(usize::MAX)?;
    Ok(())
}

/// What the client says of itself: it is the user `guest`, and opens the virtual host `/`.
fn guest(alloc: Global) -> Result<ClientHello> {
    Ok(ClientHello {
        properties: Table::new(alloc),
        mechanism: ShortStr::new(alloc, b"PLAIN")?,
        response: Vec::from_slice(alloc, b"\0guest\0guest")?,
        locale: ShortStr::new(alloc, b"en_US")?,
        virtual_host: ShortStr::new(alloc, b"/")?,
    })
}

/// A message to the default exchange, which hands it to the queue `greetings`; neither mandatory nor immediate.
fn greeting(alloc: Global) -> Result<Message> {
    let exchange = Arg::ShortStr(ShortStr::new(alloc, b"")?);
    let queue = Arg::ShortStr(ShortStr::new(alloc, b"greetings")?);
    let args = vec![in alloc; exchange, queue, Arg::Bit(false), Arg::Bit(false)]?;
    let method = Method::try_new(Kind::BasicPublish, args)?;
    let body = Vec::from_slice(alloc, b"hello")?;
    Ok(Message::content(method, Properties::default(), body))
}
