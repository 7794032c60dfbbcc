//! The subcommands over TCP: the sockets are opened here, and all else is done over streams.
use crate::access::access_of;
use crate::input::read_chunks;
use crate::looping::run_loop;
use crate::notes::Notes;
use crate::printing::{Stop, finish, flushed};
use crate::progress::Progress;
use crate::publishing::{Content, publish};
use crate::readiness::Readiness;
use crate::serving::serve;
use amqp_command::{Limits, Peer, Publication};
use amqp_io::Socket;
use amqp_text::statuses::{DONE, FAULT};
use amqp_text::{Load, print_outcome};
use std::alloc::{AllocError, Global};
use std::io::{self, Read, Write};
use std::net::{Net, SocketAddr, TcpListener, TcpStream, ToSocketAddrs};
use std::rt::Files;
use std::time::{Clock, Duration};

/// The step in which no connection came about.
#[derive(Clone, Copy)]
enum Step {
    Listen,
    Accept,
    Connect,
}

impl Step {
    fn line(self) -> &'static str {
        match self {
            Step::Listen => "fault listen",
            Step::Accept => "fault accept",
            Step::Connect => "fault connect",
        }
    }

    fn description(self) -> &'static str {
        match self {
            Step::Listen => "can't listen",
            Step::Accept => "can't accept a connection",
            Step::Connect => "can't connect",
        }
    }
}

/// Why there is no connection.
#[derive(Clone, Copy)]
enum Unconnected {
    Failed(Step, io::Error),
    /// Standard output took no more.
    NotWritten(io::Error),
    OutOfMemory,
}

impl From<AllocError> for Unconnected {
    fn from(_: AllocError) -> Unconnected {
        Unconnected::OutOfMemory
    }
}

impl From<io::Error> for Unconnected {
    fn from(failure: io::Error) -> Unconnected {
        Unconnected::NotWritten(failure)
    }
}

/// Says and prints why there is no connection, and answers the exit status.
fn finish_unconnected<W: Write, E: Write + Drop>(
    fault: Unconnected,
    output: &mut W,
    notes: &mut Notes<'_, E>,
) -> u8 {
    match fault {
        Unconnected::Failed(step, failure) => {
            notes.say_why(step.description(), &failure);
            finish_line(step.line(), output)
        }
        Unconnected::NotWritten(failure) => {
            finish_noted(Err(Stop::NotWritten(failure)), output, notes)
        }
        Unconnected::OutOfMemory => finish_noted(Err(Stop::OutOfMemory), output, notes),
    }
}

/// Prints the line of a fault, and answers the exit status.
fn finish_line<W: Write>(line: &str, output: &mut W) -> u8 {
    let _ = writeln!(output, "{line}");
    let _ = output.flush();
    FAULT
}

/// Says and prints why the run was given up, if it was, and answers the exit status.
fn finish_noted<W: Write, E: Write + Drop>(
    run: Result<u8, Stop>,
    output: &mut W,
    notes: &mut Notes<'_, E>,
) -> u8 {
    let run = flushed(run, output);
    if let Err(stop) = run {
        notes.say_stop(stop);
    }
    finish(run, output)
}

/// A connected stream. What is written is sent at once: the ends write whole frames, and wait for answers.
fn socket_over(stream: TcpStream) -> Socket {
    // without it the connection is slower, and no less right
    let _ = stream.set_nodelay(true);
    Socket::new(stream)
}

/// Takes one connection at an address, and serves it.
pub fn serve_at<
    R: Net<Stream = TcpStream, Listener = TcpListener> + Clock,
    W: Write,
    E: Write + Drop,
>(rt: &R, alloc: Global, peer: &Peer, limits: Limits, output: &mut W, errors: E) -> u8 {
    let address = peer.address.as_str();
    match take_connection(rt, alloc, address, output) {
        Ok((stream, client)) => {
            let mut notes = Notes::new(client.as_str(), errors);
            serve_client(rt, alloc, stream, peer, limits, output, &mut notes)
        }
        Err(fault) => finish_unconnected(fault, output, &mut Notes::new(address, errors)),
    }
}

/// Serves the connection of a client.
fn serve_client<R: Net + Clock, W: Write, E: Write + Drop>(
    rt: &R,
    alloc: Global,
    stream: TcpStream,
    peer: &Peer,
    limits: Limits,
    output: &mut W,
    notes: &mut Notes<'_, E>,
) -> u8 {
    match Readiness::new(rt, alloc, &stream, peer.time_out) {
        Ok(mut readiness) => {
            let socket = socket_over(stream);
            let run = serve(
                alloc,
                limits,
                peer.heartbeat,
                socket,
                &mut readiness,
                output,
            );
            drop(readiness);
            finish_noted(run, output, notes)
        }
        Err(failure) => {
            finish_unconnected(Unconnected::Failed(Step::Accept, failure), output, notes)
        }
    }
}

/// Says where it listens, and takes one connection, with the address that it comes from. Nobody else is listened to
/// after that.
fn take_connection<R: Net<Stream = TcpStream, Listener = TcpListener>, W: Write>(
    rt: &R,
    alloc: Global,
    address: &str,
    output: &mut W,
) -> Result<(TcpStream, String), Unconnected> {
    let listener = listen(rt, address)?;
    let taken = match say_listening(alloc, address, &listener, output) {
        Ok(()) => accept(&listener),
        Err(fault) => Err(fault),
    };
    drop(listener);
    let (stream, peer) = taken?;
    match peer.to_string(alloc) {
        Ok(peer) => Ok((stream, peer)),
        Err(AllocError) => Err(Unconnected::OutOfMemory),
    }
}

fn listen<R: Net<Stream = TcpStream, Listener = TcpListener>>(
    rt: &R,
    address: &str,
) -> Result<TcpListener, Unconnected> {
    match TcpListener::bind(rt, address) {
        Ok(listener) => Ok(listener),
        Err(failure) => Err(Unconnected::Failed(Step::Listen, failure)),
    }
}

fn accept(listener: &TcpListener) -> Result<(TcpStream, SocketAddr), Unconnected> {
    match listener.accept() {
        Ok(accepted) => Ok(accepted),
        Err(failure) => Err(Unconnected::Failed(Step::Accept, failure)),
    }
}

/// The address that the system gave the listener.
fn bound_address(listener: &TcpListener) -> Result<SocketAddr, Unconnected> {
    match listener.local_addr() {
        Ok(bound) => Ok(bound),
        Err(failure) => Err(Unconnected::Failed(Step::Listen, failure)),
    }
}

/// Prints the address as it was given, or the one that the system chose where the port was left to it.
fn say_listening<W: Write>(
    alloc: Global,
    address: &str,
    listener: &TcpListener,
    output: &mut W,
) -> Result<(), Unconnected> {
    if leaves_port(address) {
        let bound = bound_address(listener)?;
        writeln!(output, "listening {bound}")?;
    } else {
        writeln!(output, "listening {address}")?;
    }
    output.flush()?;
    Ok(())
}

/// Whether the address has the port 0, in whose place the system chooses one.
fn leaves_port(address: &str) -> bool {
    match address.rsplit_once(':') {
        Some((_, port)) => port.parse::<u16>() == Ok(0),
        None => false,
    }
}

/// Reads the password and the body, connects to an address, and publishes the body.
pub fn publish_at<
    R: Net<Stream = TcpStream, Listener = TcpListener> + Clock + Files,
    I: Read,
    W: Write,
    E: Write + Drop,
>(
    rt: &R,
    alloc: Global,
    peer: &Peer,
    publication: Publication,
    limits: Limits,
    input: &mut I,
    output: &mut W,
    notes: &mut Notes<'_, E>,
) -> u8 {
    match content_of(rt, alloc, publication, input) {
        Ok(content) => publish_content(rt, alloc, peer, content, limits, output, notes),
        Err(stop) => finish_noted(Err(stop), output, notes),
    }
}

/// The content that is asked for, with the input as its body.
fn content_of<R: Files, I: Read>(
    rt: &R,
    alloc: Global,
    publication: Publication,
    input: &mut I,
) -> Result<Content, Stop> {
    let Publication {
        login,
        destination,
        properties,
    } = publication;
    let access = access_of(rt, alloc, login)?;
    let body = read_chunks(alloc, input)?;
    Ok(Content {
        access,
        destination,
        properties,
        body,
    })
}

fn publish_content<
    R: Net<Stream = TcpStream, Listener = TcpListener> + Clock,
    W: Write,
    E: Write + Drop,
>(
    rt: &R,
    alloc: Global,
    peer: &Peer,
    content: Content,
    limits: Limits,
    output: &mut W,
    notes: &mut Notes<'_, E>,
) -> u8 {
    match connect(rt, alloc, peer) {
        Ok((stream, mut readiness)) => {
            let socket = socket_over(stream);
            let run = publish_over(
                alloc,
                socket,
                &mut readiness,
                content,
                limits,
                peer.heartbeat,
                output,
                notes,
            );
            drop(readiness);
            finish_noted(run, output, notes)
        }
        Err(failure) => {
            finish_unconnected(Unconnected::Failed(Step::Connect, failure), output, notes)
        }
    }
}

/// A connection to the peer, and what waits for it.
fn connect<'a, R: Net<Stream = TcpStream, Listener = TcpListener> + Clock>(
    rt: &'a R,
    alloc: Global,
    peer: &Peer,
) -> io::Result<(TcpStream, Readiness<'a, R>)> {
    let address = peer.address.as_str();
    let stream = match peer.time_out {
        Some(time_out) => connect_within(rt, address, time_out)?,
        None => TcpStream::connect(rt, address)?,
    };
    let readiness = Readiness::new(rt, alloc, &stream, peer.time_out)?;
    Ok((stream, readiness))
}

/// Connects to the first of the addresses that a name stands for at which a peer answers in time.
fn connect_within<R: Net<Stream = TcpStream, Listener = TcpListener>>(
    rt: &R,
    address: &str,
    time_out: Duration,
) -> io::Result<TcpStream> {
    let mut last = io::Error::from(io::ErrorKind::NotFound);
    for found in address.to_socket_addrs(rt)? {
        match TcpStream::connect_timeout(rt, &found, time_out) {
            Ok(stream) => return Ok(stream),
            Err(failure) => last = failure,
        }
    }
    Err(last)
}

fn publish_over<N: Net + Clock, W: Write, E: Write + Drop>(
    alloc: Global,
    socket: Socket,
    readiness: &mut Readiness<'_, N>,
    content: Content,
    limits: Limits,
    heartbeat: u16,
    output: &mut W,
    notes: &mut Notes<'_, E>,
) -> Result<u8, Stop> {
    let size = content.body.len();
    let taken = publish(alloc, limits, heartbeat, content, socket, readiness, notes)?;
    print_published(taken, size, output)
}

fn print_published<W: Write>(taken: bool, size: usize, output: &mut W) -> Result<u8, Stop> {
    if taken {
        writeln!(output, "published {size}")?;
        return Ok(DONE);
    }
    writeln!(output, "fault short")?;
    Ok(FAULT)
}

/// Runs both ends over a connection of this machine with itself.
pub fn loop_here<R: Net<Stream = TcpStream, Listener = TcpListener>, W: Write, E: Write + Drop>(
    rt: &R,
    alloc: Global,
    load: Load,
    limits: Limits,
    output: &mut W,
    notes: &mut Notes<'_, E>,
    progress: &mut Progress<E>,
) -> u8 {
    match connect_here(rt) {
        Ok((client, server)) => {
            loop_over(alloc, client, server, load, limits, output, notes, progress)
        }
        Err(fault) => finish_unconnected(fault, output, notes),
    }
}

fn loop_over<W: Write, E: Write + Drop>(
    alloc: Global,
    client: TcpStream,
    server: TcpStream,
    load: Load,
    limits: Limits,
    output: &mut W,
    notes: &mut Notes<'_, E>,
    progress: &mut Progress<E>,
) -> u8 {
    let client = socket_over(client);
    let server = socket_over(server);
    let run = run_loop(alloc, limits, load, client, server, progress);
    progress.end();
    let run = match run {
        Ok(came) => print_outcome(came, load, output).map_err(Stop::NotWritten),
        Err(stop) => Err(stop),
    };
    finish_noted(run, output, notes)
}

/// The loopback address, with a port that the system chooses.
pub const HERE: &str = "127.0.0.1:0";

/// The two ends of a connection of this machine with itself.
fn connect_here<R: Net<Stream = TcpStream, Listener = TcpListener>>(
    rt: &R,
) -> Result<(TcpStream, TcpStream), Unconnected> {
    let listener = listen(rt, HERE)?;
    let ends = connect_to(rt, &listener);
    drop(listener);
    ends
}

fn connect_to<R: Net<Stream = TcpStream, Listener = TcpListener>>(
    rt: &R,
    listener: &TcpListener,
) -> Result<(TcpStream, TcpStream), Unconnected> {
    let bound = bound_address(listener)?;
    match TcpStream::connect(rt, bound) {
        Ok(client) => accept_with(client, listener),
        Err(failure) => Err(Unconnected::Failed(Step::Connect, failure)),
    }
}

/// The client with the stream of the server that accepts it.
fn accept_with(
    client: TcpStream,
    listener: &TcpListener,
) -> Result<(TcpStream, TcpStream), Unconnected> {
    match accept(listener) {
        Ok((server, _)) => Ok((client, server)),
        Err(fault) => Err(fault),
    }
}
