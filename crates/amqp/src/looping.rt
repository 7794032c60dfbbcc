//! The subcommand `loop`: both ends of a connection in one process, over two sockets.
use crate::asks::{CHANNEL, ask, close_channel, close_connection, open_channel, publish};
use crate::printing::Stop;
use crate::progress::Progress;
use crate::sessions::{client_end, is_closed, pull, push_some, server_end};
use crate::words::short;
use amqp_command::Limits;
use amqp_core::{Ask, ChannelState, Client, Phase, Role, Server};
use amqp_io::{Session, Socket};
use amqp_method::{Message, OutOfMemory, Properties};
use amqp_text::{EXCHANGE, KEY, Load, Tally, pattern};
use std::alloc::Global;
use std::io::Write;

/// At most so many octets are in flight at once.
const AT_ONCE: usize = 4096;

/// Publishes contents from a client to a server, whose streams are the two ends of one connection. It answers whether
/// the server was told exactly these.
pub fn run_loop<E: Write + Drop>(
    alloc: Global,
    limits: Limits,
    load: Load,
    to_server: Socket,
    to_client: Socket,
    progress: &mut Progress<E>,
) -> Result<bool, Stop> {
    let end = client_end(alloc, limits)?;
    let mut client = Session::new(alloc, end, to_server);
    let run = run_with_server(alloc, limits, load, &mut client, to_client, progress);
    drop(client);
    run
}

fn run_with_server<E: Write + Drop>(
    alloc: Global,
    limits: Limits,
    load: Load,
    client: &mut Session<Client, Socket>,
    to_client: Socket,
    progress: &mut Progress<E>,
) -> Result<bool, Stop> {
    let end = server_end(alloc, limits)?;
    let mut server = Session::new(alloc, end, to_client);
    let run = run_with_source(alloc, load, client, &mut server, progress);
    drop(server);
    run
}

fn run_with_source<E: Write + Drop>(
    alloc: Global,
    load: Load,
    client: &mut Session<Client, Socket>,
    server: &mut Session<Server, Socket>,
    progress: &mut Progress<E>,
) -> Result<bool, Stop> {
    let body = pattern(alloc, load.size as usize)?;
    let mut tally = Tally::new(body);
    let run = match Source::new(alloc, load) {
        Ok(source) => run_with_tally(source, load, client, server, &mut tally, progress),
        Err(OutOfMemory) => Err(Stop::OutOfMemory),
    };
    drop(tally);
    run
}

fn run_with_tally<E: Write + Drop>(
    mut source: Source,
    load: Load,
    client: &mut Session<Client, Socket>,
    server: &mut Session<Server, Socket>,
    tally: &mut Tally,
    progress: &mut Progress<E>,
) -> Result<bool, Stop> {
    let run = turn_until_still(&mut source, load, client, server, tally, progress);
    drop(source);
    run?;
    Ok(is_closed(client) && is_closed(server) && tally.is_of(load.count))
}

/// The sides take turns until nothing moves any more: both are closed then, or will never be.
fn turn_until_still<E: Write + Drop>(
    source: &mut Source,
    load: Load,
    client: &mut Session<Client, Socket>,
    server: &mut Session<Server, Socket>,
    tally: &mut Tally,
    progress: &mut Progress<E>,
) -> Result<(), Stop> {
    for _ in 0..u64::MAX {
        let moved = take_turns(client, server, source, tally)?;
        progress.show(tally.contents(), load.count);
        if !moved {
            break;
        }
    }
    Ok(())
}

/// The client asks what it can and writes, the server takes that, and then the other way round. It answers whether any
/// octet moved.
fn take_turns(
    client: &mut Session<Client, Socket>,
    server: &mut Session<Server, Socket>,
    source: &mut Source,
    tally: &mut Tally,
) -> Result<bool, Stop> {
    source.ask(client)?;
    let there = pass(client, server)?;
    hear_server(server, tally);
    let back = pass(server, client)?;
    hear_client(client);
    Ok(there != 0 || back != 0)
}

/// One end writes some octets, and the other reads until they have come. It answers how many.
fn pass<A: Role, B: Role>(
    from: &mut Session<A, Socket>,
    to: &mut Session<B, Socket>,
) -> Result<usize, Stop> {
    let written = push_some(from, AT_ONCE)?;
    let mut missing = written;
    for _ in 0..written {
        if missing == 0 {
            break;
        }
        missing = missing.saturating_sub(pull(to)?);
    }
    Ok(written)
}

fn hear_server(server: &mut Session<Server, Socket>, tally: &mut Tally) {
    for _ in 0..u64::MAX {
        let Some(event) = server.next_event() else {
            break;
        };
        tally.hear(&event);
    }
}

/// Drops the client's events. Its end knows how far it is.
fn hear_client(client: &mut Session<Client, Socket>) {
    for _ in 0..u64::MAX {
        let Some(_) = client.next_event() else {
            break;
        };
    }
}

/// What the client asks next.
#[derive(Clone, Copy)]
enum Step {
    OpenChannel,
    /// So many contents are left to publish, and then the channel is closed.
    Publish(u32),
    CloseConnection,
    Nothing,
}

/// The client of a loop.
#[derive(Drop)]
struct Source {
    alloc: Global,
    content: Ask,
    count: u32,
    next: Step,
}

/// What publishes one of the contents.
fn content_of(alloc: Global, load: Load) -> Result<Ask, OutOfMemory> {
    let exchange = short(alloc, EXCHANGE)?;
    let key = short(alloc, KEY)?;
    let body = pattern(alloc, load.size as usize)?;
    let method = publish(alloc, exchange, key, false)?;
    Ok(Ask::Send(
        CHANNEL,
        Message::content(method, Properties::default(), body),
    ))
}

impl Source {
    fn new(alloc: Global, load: Load) -> Result<Source, OutOfMemory> {
        let content = content_of(alloc, load)?;
        Ok(Source {
            alloc,
            content,
            count: load.count,
            next: Step::OpenChannel,
        })
    }

    /// Asks one thing, if nothing that was asked before waits to be written.
    fn ask(&mut self, client: &mut Session<Client, Socket>) -> Result<(), Stop> {
        if !client.end().output().is_empty() || client.end().phase() != Phase::Running {
            return Ok(());
        }
        match self.next {
            Step::OpenChannel => {
                open_channel(client)?;
                self.next = Step::Publish(self.count);
                Ok(())
            }
            Step::Publish(left) => self.publish(client, left),
            Step::CloseConnection => self.close_connection(client),
            Step::Nothing => Ok(()),
        }
    }

    /// Publishes the next content, or closes the channel, once it is open; or the connection, where the server closed
    /// the channel.
    fn publish(&mut self, client: &mut Session<Client, Socket>, left: u32) -> Result<(), Stop> {
        match client.end().channel_state(CHANNEL) {
            ChannelState::Open if left > 0 => {
                ask(client, &self.content)?;
                self.next = Step::Publish(left - 1);
                Ok(())
            }
            ChannelState::Open => {
                close_channel(self.alloc, client)?;
                self.next = Step::CloseConnection;
                Ok(())
            }
            ChannelState::Free => self.close_connection(client),
            ChannelState::Opening => Ok(()),
            ChannelState::Closing => Ok(()),
        }
    }

    fn close_connection(&mut self, client: &mut Session<Client, Socket>) -> Result<(), Stop> {
        close_connection(self.alloc, client)?;
        self.next = Step::Nothing;
        Ok(())
    }
}
