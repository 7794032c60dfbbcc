//! A connection: its login, what its events ask of the broker, and its turn.
ghost use Rattle.std.specs.Prelude.{◌≤◌, IfSome, length};

use amqp_core::{EventRef, Server, StreamEnd};
use amqp_method::{Kind, MethodRef, OutOfMemory, reply};
use amqp_typed::TypedRef;
use amqp_typed::connection::{OpenRef, StartOkRef};
use amqp_value::ShortStr;
use example_loop::{BROKER_ABILITIES, FULL, Link, Served, let_in, server_end};
use example_store::{BOUND, Channel, Done, Store, Users};
use mio::event::Event;
use mio::net::TcpStream;
use std::alloc::Global;
use std::cell::Cell;
use std::mem::replace;
use std::rc::Rc;

/// What a frame on a channel asks of the broker, once the end can be answered.
#[derive(Clone, Copy)]
pub enum Asked {
    Nothing,
    Login,
    Enter,
    Open,
    Flow(bool),
    /// By a method, whose payload is kept.
    Method,
    /// By a content that is whole.
    Content,
    Close,
    /// There is no memory for what came.
    TooMuch,
}

pub type Heard = std::result::Result<Asked, OutOfMemory>;

#[derive(Drop)]
pub struct Connection {
    alloc: Global,
    users: Rc<Users>,
    number: usize,
    pub link: Link<Server>,
    /// How many octets the contents have that aren't whole.
    unfinished: Rc<Cell<usize>>,
    hears_blocked: bool,
    /// The client published since memory is short, or since its last turn.
    publishes: bool,
    /// The client isn't read: it publishes, and memory is short.
    is_blocked: bool,
}

impl Served for Connection {
    fn has_work(&self) -> bool {
        self.link.has_work() || self.link.is_done()
    }

    fn note(&mut self, event: &Event) {
        self.link.note(event);
    }
}

impl Connection {
    pub fn new(
        alloc: Global,
        users: Rc<Users>,
        number: usize,
        stream: TcpStream,
    ) -> anyhow::Result<Connection> {
        let unfinished = Rc::new(alloc, Cell::new(0))?;
        let end = server_end(alloc, "example_broker", &BROKER_ABILITIES)?;
        Ok(Connection {
            alloc,
            users,
            number,
            link: Link::new(alloc, stream, end),
            unfinished,
            hears_blocked: false,
            publishes: false,
            is_blocked: false,
        })
    }

    pub fn end(&mut self) -> &mut StreamEnd<Server> {
        &mut self.link.end
    }

    /// Takes octets up to the end of a frame, and answers how many, and what the frame asks on which channel. The payload
    /// of a method is copied, and a part of a content goes to its channel. None: no more are taken.
    pub fn hear(
        &mut self,
        octets: &[u8],
        store: &mut Store,
        payload: &mut Vec<u8>,
    ) -> Option<(usize, u16, Asked)>
        ensures { IfSome result (λ heard. heard.0 ≤ length octets.now) }
    {
        let (taken, heard) = self.link.hear(octets)?;
        let Some(heard) = heard else {
            return Some((taken, 0, Asked::Nothing));
        };
        let number = heard.event.channel();
        let channel = store.channel((self.number, number)).ok();
        let asked = match asked_by(heard.event, channel, &self.unfinished, payload) {
            Ok(asked) => asked,
            Err(_) => Asked::TooMuch,
        };
        self.publishes |= matches!(asked, Asked::Content);
        Some((taken, number, asked))
    }

    pub fn login(&mut self) -> Done {
        let mut is_user = None;
        if let Some(start) = self.link.end.heard(Kind::ConnectionStartOk)
            && let Some(start) = StartOkRef::from_ref(start)
        {
            is_user = self.users.allow(self.alloc, &start);
            self.hears_blocked = hears_blocked(start) == Some(true);
        }
        self.admit(is_user, reply::ACCESS_REFUSED, "no such login")
    }

    /// Lets a client into the virtual host.
    pub fn enter(&mut self) -> Done {
        let mut is_host = None;
        if let Some(open) = self.link.end.heard(Kind::ConnectionOpen)
            && let Some(open) = OpenRef::from_ref(open)
        {
            is_host = Some(open.virtual_host.as_bytes() == b"/".as_slice());
        }
        self.admit(is_host, reply::NOT_ALLOWED, "no such host")
    }

    fn admit(&mut self, is_fine: Option<bool>, code: u16, why: &str) -> Done {
        if is_fine == Some(true) {
            return Ok(let_in(self.end())?);
        }
        let why = ShortStr::text(self.alloc, why)?;
        Ok(self.end().refuse(code, &why)?)
    }

    /// How many octets wait to be written, or more than can wait where none are taken any more.
    pub fn waiting(&self) -> usize {
        if self.link.is_over() {
            return usize::MAX;
        }
        self.link.waiting()
    }

    /// Writes what waits, and reads once. It answers how many octets came.
    pub fn turn(&mut self, is_short: bool, has_ticked: bool, room: &mut [u8]) -> usize
        ensures { result ≤ length room.new }
    {
        let unfinished = self.unfinished.get();
        self.publishes = is_short && (self.publishes || unfinished > 0);
        self.block(self.publishes);
        self.link.is_gone |= unfinished > BOUND;
        self.link.settle(has_ticked);
        self.link.is_held = self.is_blocked || self.waiting() > FULL;
        self.link.read(room)
    }

    /// A client that isn't read is told so, if it wants to be. It need not know where its connection closes.
    fn block(&mut self, is_blocked: bool) {
        let was_blocked = replace(&mut self.is_blocked, is_blocked);
        if was_blocked == is_blocked || !self.hears_blocked {
            return;
        }
        if !is_blocked {
            drop(self.end().unblocked());
        } else if let Ok(reason) = ShortStr::text(self.alloc, "low on memory") {
            drop(self.end().blocked(&reason));
        }
    }
}

/// Whether a client is told that it isn't read, as it says when it logs in.
fn hears_blocked(start: StartOkRef<'_>) -> Option<bool> {
    start.capabilities()?.get(b"connection.blocked")?.as_bool()
}

/// What an event asks, on a channel that is open or not.
fn asked_by(
    event: EventRef<'_>,
    channel: Option<&mut Channel>,
    unfinished: &Rc<Cell<usize>>,
    payload: &mut Vec<u8>,
) -> Heard {
    match event {
        EventRef::LoginAsked => Ok(Asked::Login),
        EventRef::OpenAsked => Ok(Asked::Enter),
        EventRef::Opened(_) => Ok(Asked::Open),
        EventRef::Flow(_, active) => Ok(Asked::Flow(active)),
        EventRef::ChannelClosed(..) | EventRef::Discarded(_) => Ok(Asked::Close),
        EventRef::Method(_, method) => keep(payload, method),
        event => match channel {
            Some(channel) => gather(channel, event, unfinished),
            None => Ok(Asked::Nothing),
        },
    }
}

fn keep(payload: &mut Vec<u8>, method: MethodRef<'_>) -> Heard {
    payload.clear();
    payload.extend_from_slice(method.payload())?;
    Ok(Asked::Method)
}

/// A frame of a content comes to its channel. Until the content is whole its octets are counted among these.
fn gather(channel: &mut Channel, event: EventRef<'_>, octets: &Rc<Cell<usize>>) -> Heard {
    match event {
        EventRef::Begins(_, method) => channel.begin(method, octets)?,
        EventRef::Heads(_, header, _) => channel.head(header)?,
        EventRef::Part(_, part, _) => channel.add(part)?,
        _ => {}
    }
    Ok(match event {
        EventRef::Heads(_, _, true) | EventRef::Part(_, _, true) => Asked::Content,
        _ => Asked::Nothing,
    })
}
