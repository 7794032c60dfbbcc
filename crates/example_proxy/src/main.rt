//! A proxy of AMQP 0-9-1: it takes clients, connects to a broker for each, and passes on what both say, in one thread.
#![tactic(auto)]

mod asking;
mod peer;

use crate::peer::{Done, Peer};
use amqp_core::{Client, Phase, Server};
use anyhow::Result;
use example_loop::{
    ABILITIES, Connect, Link, MOST, Program, Served, client_end, has_word, server_end, word_after,
};
use mio::event::Event;
use mio::net::TcpStream;
use std::alloc::Global;
use std::collections::BTreeMap;
use std::net::SocketAddr;
use std::process::ExitCode;

const HELP: &str = "\
Usage: example_proxy LISTEN BROKER [--log] [--user USER] [--password PASSWORD]

Takes clients of AMQP 0-9-1 at the address LISTEN, as 127.0.0.1:5670, and connects to the broker at BROKER for each.";

fn main(rt: HostRuntime) -> Result<ExitCode> {
    let words: Vec<String> = std::env::args(&rt)?.collect(rt.alloc())?;
    run(&rt, &words)
}

fn run(rt: &HostRuntime, words: &[String]) -> Result<ExitCode> {
    let alloc = rt.alloc();
    let log = has_word(words, "--log");
    let user = word_after(words, "--user");
    let password = word_after(words, "--password");
    let values = usize::from(user.is_some()) + usize::from(password.is_some());
    if words.len() != 3 + usize::from(log) + 2 * values {
        eprintln!(rt; "{HELP}")?;
        return Ok(ExitCode::from(2));
    }
    let relays = Relays {
        alloc,
        broker: words[2].as_str().parse()?,
        user: user.unwrap_or("guest"),
        password: password.unwrap_or("guest"),
        log,
        relays: BTreeMap::new(alloc),
    };
    example_loop::serve(rt, alloc, words[1].as_str(), relays)?;
    Ok(ExitCode::SUCCESS)
}

#[derive(Drop)]
struct Relay {
    client: Peer<Server>,
    broker: Peer<Client>,
}

impl Served for Relay {
    fn has_work(&self) -> bool {
        self.client.link.has_work() || self.broker.link.has_work()
    }

    fn note(&mut self, event: &Event) {
        self.client.link.note(event);
        self.broker.link.note(event);
    }
}

/// Reads each side once, passes on what came, and writes what the sockets take. What the client said before it left is
/// told to the broker before that is closed, unless half a content went there.
fn pass_on(
    rt: &impl Print,
    client: &mut Peer<Server>,
    broker: &mut Peer<Client>,
    ticks: bool,
    room: &mut [u8],
) -> Done {
    client.pull(rt, broker, room)?;
    broker.pull(rt, client, room)?;
    client.answer(broker.link.end.phase() == Phase::Running);
    let source = broker.link.source();
    client.advance(true, source)?;
    broker.advance(source.is_some(), client.link.source())?;
    client.link.settle(ticks);
    broker.link.settle(ticks);
    client.begin(broker)?;
    broker.begin(client)
}

/// The relays, by the numbers of their clients, which both their sockets have.
#[derive(Drop)]
struct Relays<'a> {
    alloc: Global,
    broker: SocketAddr,
    user: &'a str,
    password: &'a str,
    log: bool,
    relays: BTreeMap<usize, Relay>,
}

impl Program for Relays<'_> {
    type Connection = Relay;

    fn connections(&mut self) -> &mut BTreeMap<usize, Relay> {
        &mut self.relays
    }

    fn accept(&mut self, to: &impl Connect, number: usize, stream: TcpStream) -> Result<Relay> {
        let alloc = self.alloc;
        let client = server_end(alloc, "example_proxy", &ABILITIES)?;
        let client = Peer::new(alloc, Link::new(alloc, stream, client), self.log);
        let stream = to.connect(number, self.broker)?;
        let broker = client_end(alloc, "example_proxy", &ABILITIES, self.user, self.password)?;
        let broker = Peer::new(alloc, Link::new(alloc, stream, broker), self.log);
        Ok(Relay { client, broker })
    }

    /// What can't be passed on ends both sides, and a side is held while too much waits at the other.
    fn turn(&mut self, rt: &impl Print, number: usize, ticks: bool, room: &mut [u8]) -> bool {
        let Some(relay) = self.relays.get_mut(&number) else {
            return true;
        };
        if ticks || relay.has_work() {
            let (client, broker) = (&mut relay.client, &mut relay.broker);
            let has_failed = pass_on(rt, client, broker, ticks, room).is_err();
            let (for_client, for_broker) = (client.octets(broker), broker.octets(client));
            client.link.is_held = broker.is_full(for_broker);
            broker.link.is_held = client.is_full(for_client);
            if has_failed || for_client.saturating_add(for_broker) > MOST {
                client.fail();
                broker.fail();
            }
        }
        relay.client.link.is_done() && relay.broker.link.is_done()
    }
}
