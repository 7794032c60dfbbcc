//! The sockets of a program: who connects is accepted, and one thread waits until any of them is ready.
use mio::net::{TcpListener, TcpStream};
use mio::{Events, Interest, Poll, Token};
use std::alloc::Global;
use std::io;
use std::net::{self, Net, SocketAddr};
use std::time::{Clock, Duration, Instant};

/// So many milliseconds pass from tick to tick.
const TICK: u64 = 500;

/// Connects a program to others.
pub trait Connect {
    /// Begins to connect to an address. The socket is waited for too, under a number that may be another's as well.
    fn connect(&self, number: usize, address: SocketAddr) -> io::Result<TcpStream>;
}

/// A listening socket, and the wait for it and for those that it has accepted.
pub(crate) struct Sockets<'a, R: Net + Clock> {
    rt: &'a R,
    poll: Poll,
    /// What the last wait found ready: the listener by the token 0, connections by their numbers, from 1 on.
    pub(crate) events: Events,
    pub(crate) listener: TcpListener,
    last: usize,
    ticked: Instant,
}

/// Written out, so that it is proved once.
impl<R: Net + Clock> Drop for Sockets<'_, R> {
    fn drop(self) {
        let Sockets {
            rt: _,
            poll: _,
            events: _,
            listener: _,
            last: _,
            ticked: _,
        } = self;
    }
}

impl<'a, R: Net<Stream = net::TcpStream, Listener = net::TcpListener> + Clock> Sockets<'a, R> {
    /// Listens at an address.
    pub(crate) fn listen(
        rt: &'a R,
        alloc: Global,
        address: &str,
    ) -> anyhow::Result<Sockets<'a, R>> {
        let ticked = Instant::now(rt)?;
        let events = Events::with_capacity(alloc, 1024)?;
        let poll = Poll::new(rt)?;
        let listener = listen(rt, &poll, address)?;
        Ok(Sockets {
            rt,
            poll,
            events,
            listener,
            last: 0,
            ticked,
        })
    }

    /// Waits for a socket or the next tick, or not at all where there is something to do. Answers whether it ticks.
    pub(crate) fn wait(&mut self, is_busy: bool) -> io::Result<bool> {
        let tick = Duration::from_millis(TICK);
        let left = tick.saturating_sub(self.ticked.elapsed(self.rt)?);
        let wait = if is_busy { Duration::ZERO } else { left };
        self.poll.poll(&mut self.events, Some(wait))?;
        let is_over = self.ticked.elapsed(self.rt)? >= tick;
        if is_over {
            self.ticked = Instant::now(self.rt)?;
        }
        Ok(is_over)
    }

    /// The next who connects, with a number of its own. One that can't be served is dropped.
    pub(crate) fn accept(&mut self) -> Option<(usize, TcpStream)> {
        let (stream, _) = self.listener.accept().ok()?;
        self.last = self.last.saturating_add(1);
        Some((self.last, self.register(self.last, stream).ok()?))
    }

    fn register(&self, number: usize, mut stream: TcpStream) -> io::Result<TcpStream> {
        stream.set_nodelay(true)?;
        let (registry, both_ways) = (
            self.poll.registry(),
            Interest::READABLE | Interest::WRITABLE,
        );
        registry.register(&mut stream, Token(number), both_ways)?;
        Ok(stream)
    }
}

/// A socket that listens at an address, which is waited for.
fn listen<R: Net<Stream = net::TcpStream, Listener = net::TcpListener>>(
    rt: &R,
    poll: &Poll,
    address: &str,
) -> anyhow::Result<TcpListener> {
    let listener = net::TcpListener::bind(rt, address)?;
    listener.set_nonblocking(true)?;
    let mut listener = TcpListener::from_std(listener);
    let (registry, token) = (poll.registry(), Token(0));
    registry.register(&mut listener, token, Interest::READABLE)?;
    Ok(listener)
}

impl<R: Net<Stream = net::TcpStream, Listener = net::TcpListener> + Clock> Connect
    for Sockets<'_, R> {
    fn connect(&self, number: usize, address: SocketAddr) -> io::Result<TcpStream> {
        self.register(number, TcpStream::connect(self.rt, address)?)
    }
}
