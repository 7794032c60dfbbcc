//! A client that sends contents and a server that counts them, in one thread, over two sockets that never wait.
#![tactic(auto)]

ghost use Rattle.std.specs.Prelude.{◌≡◌, ◌++◌, ◌<◌, ◌≤◌, length, Ok, IfErr, IfOk};
ghost use Rattle.std.specs.Io.Slices.{io_slice_bytes};
ghost use Rattle.amqp_model.specs.Output.Outputs.{output_octets};

use amqp_core::{
    ChannelState, Client, ClientHello, Config, End, EventRef, HandOverFault, Phase, Pieces, Role,
    SendQueue, Server, ServerHello, StreamEnd,
};
use amqp_method::{Method, Properties};
use amqp_typed::Typed;
use amqp_typed::basic::Publish;
use amqp_value::{ShortStr, Table};
use anyhow::{Result, bail};
use mio::{Events, Interest, Poll, Token};
use std::alloc::Global;
use std::io::{self, ErrorKind, IoSlice, Read, Write};
use std::net::{TcpListener, TcpStream};

/// On so many channels a content of each of these lengths is sent.
const CHANNELS: u16 = 3;

const LENGTHS: [usize; 5] = [0, 1, 131_064, 1_000_000, 3_000_000];

fn main(rt: HostRuntime) -> Result<()> {
    let alloc = rt.alloc();
    let mut poll = Poll::new(&rt)?;
    let listener = TcpListener::bind(&rt, "127.0.0.1:0")?;
    let near = TcpStream::connect(&rt, listener.local_addr()?)?;
    let (far, _) = listener.accept()?;
    let mut client: Side<Client> = Side::new(alloc, &poll, near, client_hello(alloc)?)?;
    let mut server: Side<Server> = Side::new(alloc, &poll, far, server_hello(alloc)?)?;
    serve(&rt, alloc, &mut poll, &mut client, &mut server)
}

/// Gives both sides their turns until the client's connection is closed.
fn serve(
    rt: &impl Print,
    alloc: Global,
    poll: &mut Poll,
    client: &mut Side<Client>,
    server: &mut Side<Server>,
) -> Result<()> {
    let mut events = Events::with_capacity(alloc, 8)?;
    let mut room = vec![in alloc; 0; 65_536]?;
    for _ in 0..u64::MAX {
        if client.end.phase() == Phase::Closed {
            break;
        }
        publish(alloc, client)?;
        if !(client.turn(&mut room)? | server.turn(&mut room)?) {
            poll.poll(&mut events, None)?;
        }
    }
    println!(rt; "{} contents, sum {}", server.contents, server.sum)?;
    Ok(())
}

/// Opens the channels. Once the last is open it sends all, and closes the connection: the close leaves last.
fn publish(alloc: Global, client: &mut Side<Client>) -> Result<()> {
    let (phase, last) = (client.end.phase(), client.end.channel_state(CHANNELS));
    if phase == Phase::Running && last == ChannelState::Free {
        for _ in 0..CHANNELS {
            client.end.open_channel()?;
        }
    }
    if phase == Phase::Running && last == ChannelState::Open {
        for length in LENGTHS {
            send(alloc, client, length)?;
        }
        client.end.close(200, &ShortStr::text(alloc, "bye")?)?;
    }
    Ok(())
}

/// Sends a content of this length on each channel, in which each octet is the channel's number.
fn send(alloc: Global, client: &mut Side<Client>, length: usize) -> Result<()> {
    let (exchange, key) = (ShortStr::text(alloc, "")?, ShortStr::text(alloc, "sums")?);
    let method = Publish::new(exchange, key).into_method(alloc)?;
    let sent = send_on_each(alloc, client, length, &method);
    drop(method);
    sent
}

fn send_on_each(
    alloc: Global,
    client: &mut Side<Client>,
    length: usize,
    method: &Method,
) -> Result<()> {
    for channel in 1..=CHANNELS {
        let body = vec![in alloc; u8::try_from(channel)?; length]?;
        client.send(channel, method, &body)?;
    }
    Ok(())
}

fn client_hello(alloc: Global) -> Result<ClientHello> {
    Ok(ClientHello {
        properties: Table::new(alloc),
        mechanism: ShortStr::text(alloc, "PLAIN")?,
        response: Vec::from_slice(alloc, b"\0guest\0guest")?,
        locale: ShortStr::text(alloc, "en_US")?,
        virtual_host: ShortStr::text(alloc, "/")?,
    })
}

fn server_hello(alloc: Global) -> Result<ServerHello> {
    Ok(ServerHello {
        properties: Table::new(alloc),
        mechanisms: Vec::from_slice(alloc, b"PLAIN")?,
        locales: Vec::from_slice(alloc, b"en_US")?,
    })
}

/// One side of a connection: an end, a queue of what it has put, and a socket that doesn't wait.
#[derive(Drop)]
struct Side<R: Role> {
    end: StreamEnd<R>,
    queue: SendQueue,
    stream: mio::net::TcpStream,
    /// how many contents came, and the sum of their octets
    contents: u64,
    sum: u64,
}

impl<R: Role> Side<R> {
    fn new(alloc: Global, poll: &Poll, stream: TcpStream, hello: R::Hello) -> Result<Self> {
        stream.set_nonblocking(true)?;
        let mut stream = mio::net::TcpStream::from_std(stream);
        let both_ways = Interest::READABLE | Interest::WRITABLE;
        poll.registry().register(&mut stream, Token(0), both_ways)?;
        let end: End<R> = End::new(alloc, Config::new(hello))?;
        Ok(Side {
            end: end.into_stream(),
            queue: SendQueue::new(alloc),
            stream,
            contents: 0,
            sum: 0,
        })
    }

    /// Sends a content without properties, and writes once.
    fn send(&mut self, channel: u16, method: &Method, body: &[u8]) -> Result<()> {
        let properties = Properties::default();
        let sent = self.end.send_content(channel, method, &properties, body);
        drop(properties);
        sent?;
        self.write()?;
        Ok(())
    }

    /// Reads once, takes what came, and writes once. It answers whether an octet was moved.
    fn turn(&mut self, room: &mut [u8]) -> Result<bool> {
        let came = match self.stream.read(room) {
            Ok(0) => bail!("the other side hung up"),
            moved => moved_now(moved)?,
        };
        let mut rest = &room[..came];
        while !rest.is_empty() {
            let taken = self.take(rest)?;
            rest = &rest[taken..];
        }
        Ok(self.write()? > 0 || came > 0)
    }

    /// Takes octets up to the end of a frame, and counts what it brings. It answers how many it took.
    fn take(&mut self, piece: &[u8]) -> Result<usize>
        requires { 0 < length piece.now }
        ensures within { IfOk result (λ octets. octets ≤ length piece.now) }
        ensures some { IfOk result (λ octets. 0 < octets) }
    {
        let taken = self.end.feed_ref(piece)?;
        if let Some(EventRef::Heads(_, _, true) | EventRef::Part(_, _, true)) = taken.event {
            self.contents = self.contents.saturating_add(1);
        }
        if let Some(EventRef::Part(_, part, _)) = taken.event {
            for octet in part {
                self.sum = self.sum.saturating_add(u64::from(*octet));
            }
        }
        Ok(taken.octets)
    }

    /// Hands over what the end has put, and writes once as much as the socket takes. It answers how many octets went.
    fn write(&mut self) -> Result<usize> {
        match self.end.hand_over(&mut self.queue) {
            Ok(()) => {
                let count = moved_now(write_pieces(&self.stream, &self.queue))?;
                self.queue.wrote(count);
                Ok(count)
            }
            // the protocol header, with which a client begins, is no frame, and no queue takes it
            Err(HandOverFault::Begun) => {
                let count = moved_now(self.stream.write(self.end.output()))?;
                self.end.wrote(count);
                Ok(count)
            }
            Err(fault) => Err(fault.into()),
        }
    }
}

/// How many octets a call moved: none where it would have had to wait.
fn moved_now(moved: io::Result<usize>) -> Result<usize>
    ensures some { IfOk moved (λ count. result ≡ Ok count) }
    ensures none { IfErr moved (λ _. IfOk result (λ count. count ≡ 0)) }
{
    match moved {
        Err(failure) if failure.kind() == ErrorKind::WouldBlock => Ok(0),
        moved => Ok(moved?),
    }
}

/// Writes the next four pieces of a queue, or what the socket takes of them. It answers how many octets that is.
fn write_pieces(stream: &mio::net::TcpStream, queue: &SendQueue) -> io::Result<usize>
    ensures { IfOk result (λ count. count ≤ length (output_octets queue.now.output)) }
{
    let mut pieces = queue.pieces();
    let from = &mut pieces;
    stream.write_vectored(&[next(from), next(from), next(from), next(from)])
}

/// The next piece, as a vectored write takes it: an empty one where none is left.
fn next<'a>(pieces: &mut Pieces<'a>) -> IoSlice<'a>
    ensures { pieces.old ≡ io_slice_bytes result ++ pieces.new }
{
    IoSlice::new(pieces.next_piece().unwrap_or(&[]))
}
