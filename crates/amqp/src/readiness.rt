//! Waiting until a socket can move octets, for as long as nothing may come or go, and until a heartbeat is due.
use crate::printing::Stop;
use mio::unix::SourceFd;
use mio::{Events, Interest, Poll, Token};
use std::alloc::Global;
use std::io;
use std::net::{Net, TcpStream};
use std::os::fd::AsRawFd;
use std::time::{Clock, Duration, Instant};

/// What waits for a socket whose calls don't wait.
#[derive(Drop)]
pub struct Readiness<'a, R: Net + Clock> {
    rt: &'a R,
    poll: Poll,
    events: Events,
    /// no octet may come or go for so long; with None there is no such time
    time_out: Option<Duration>,
    /// the heartbeat that the ends agreed on, in seconds; 0 is none
    heartbeat: u16,
    /// when octets came last, as far as there is a time-out or a heartbeat
    came: Instant,
    /// when octets went last, likewise
    went: Instant,
}

impl<'a, R: Net + Clock> Readiness<'a, R> {
    /// Makes the calls of the stream answer at once, and watches it.
    pub fn new(
        rt: &'a R,
        alloc: Global,
        stream: &TcpStream,
        time_out: Option<Duration>,
    ) -> io::Result<Readiness<'a, R>> {
        stream.set_nonblocking(true)?;
        let poll = Poll::new(rt)?;
        let descriptor = stream.as_raw_fd();
        let both_ways = Interest::READABLE | Interest::WRITABLE;
        let mut source = SourceFd(&descriptor);
        poll.registry().register(&mut source, Token(0), both_ways)?;
        let events = Events::with_capacity(alloc, 1)?;
        let now = Instant::now(rt)?;
        Ok(Readiness {
            rt,
            poll,
            events,
            time_out,
            heartbeat: 0,
            came: now,
            went: now,
        })
    }

    /// Keeps this heartbeat, in seconds, from the moment on that it is known. 0 is none.
    pub fn keep(&mut self, heartbeat: u16) {
        if heartbeat != self.heartbeat {
            self.heartbeat = heartbeat;
            self.moved();
        }
    }

    /// Takes notice that octets came.
    pub fn came(&mut self) {
        self.came = self.now_or(self.came);
    }

    /// Takes notice that octets went.
    pub fn went(&mut self) {
        self.went = self.now_or(self.went);
    }

    /// Takes notice that octets came or went, whichever it was.
    pub fn moved(&mut self) {
        self.came();
        self.went();
    }

    /// Whether nothing went for half a heartbeat.
    pub fn owes_beat(&self) -> bool {
        self.heartbeat > 0 && self.half().saturating_sub(self.since(self.went)).is_zero()
    }

    /// Waits until more octets can move than could in the last calls of the stream, which would both have had to
    /// wait, and, with `beats`, until a heartbeat is due. It may return earlier.
    pub fn wait(&mut self, beats: bool) -> Result<(), Stop> {
        let left = self.left(beats)?;
        match self.poll.poll(&mut self.events, left) {
            Ok(()) => Ok(()),
            Err(failure) => Err(Stop::NotAwaited(failure)),
        }
    }

    /// For how long to wait at most from now on, or what is past by now.
    fn left(&self, beats: bool) -> Result<Option<Duration>, Stop> {
        let mut left = None;
        if let Some(time_out) = self.time_out {
            let idle = self.since(self.came).min(self.since(self.went));
            left = Some(rest(time_out, idle, Stop::TimedOut)?);
        }
        if self.heartbeat > 0 {
            let silent = self.since(self.came);
            left = sooner(left, rest(self.double(), silent, Stop::NoHeartbeat)?);
        }
        if self.heartbeat > 0 && beats {
            left = sooner(left, self.half().saturating_sub(self.since(self.went)));
        }
        Ok(left)
    }

    /// Half the heartbeat: the time in which one is owed where nothing else is written.
    fn half(&self) -> Duration {
        Duration::from_millis(u64::from(self.heartbeat) * 500)
    }

    /// Two heartbeats: the time in which something comes from an end that is there.
    fn double(&self) -> Duration {
        Duration::from_secs(u64::from(self.heartbeat) * 2)
    }

    /// The time since then, or none where the clock fails.
    fn since(&self, then: Instant) -> Duration {
        match then.elapsed(self.rt) {
            Ok(elapsed) => elapsed,
            Err(_) => Duration::ZERO,
        }
    }

    /// Now, where there is a time-out or a heartbeat and the clock doesn't fail, else what is given.
    fn now_or(&self, last: Instant) -> Instant {
        if self.time_out.is_none() && self.heartbeat == 0 {
            return last;
        }
        match Instant::now(self.rt) {
            Ok(now) => now,
            Err(_) => last,
        }
    }
}

/// What is left of a time of which so much is past, or what comes of it where nothing is left.
fn rest(time: Duration, past: Duration, over: Stop) -> Result<Duration, Stop> {
    let left = time.saturating_sub(past);
    if left.is_zero() {
        return Err(over);
    }
    Ok(left)
}

/// The sooner of two times, of which the first may be none.
fn sooner(first: Option<Duration>, second: Duration) -> Option<Duration> {
    match first {
        Some(first) => Some(first.min(second)),
        None => Some(second),
    }
}
