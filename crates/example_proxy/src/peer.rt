//! One side of a relay, the client or the broker: its end with its socket, and its channels.
ghost use Rattle.std.specs.Prelude.{◌≤◌, IfOk, IfSome, length};

use crate::asking::{Channel, asked_by};
use amqp_core::{Ask, EventRef, Role, StreamEnd};
use amqp_method::reply;
use amqp_value::ShortStr;
use anyhow::Result;
use example_loop::{Asking, FULL, Heard, Link, key_from, let_in};
use std::alloc::Global;
use std::collections::BTreeMap;

pub type Done = Result<()>;

/// The channels of one side, by their numbers.
#[derive(Drop)]
struct Channels {
    /// Number 0, which stands for the connection.
    connection: Channel,
    open: BTreeMap<u16, Channel>,
}

impl Channels {
    fn get_mut(&mut self, number: u16) -> Option<&mut Channel> {
        if number == 0 {
            return Some(&mut self.connection);
        }
        self.open.get_mut(&number)
    }

    /// The first that is open whose number is at least this, with its number.
    fn next(&mut self, first: u16) -> Option<(u16, &mut Channel)> {
        let number = key_from(&self.open, first)?;
        Some((number, self.open.get_mut(&number)?))
    }

    /// A channel opens, whose number at the other side is there.
    fn open(&mut self, alloc: Global, number: u16, partner: u16) -> Done {
        Ok(drop(self.open.insert(number, Channel::new(alloc, partner))?))
    }
}

#[derive(Drop)]
pub struct Peer<R: Role> {
    alloc: Global,
    pub link: Link<R>,
    channels: Channels,
    log: bool,
}

impl<R: Role> Peer<R> {
    pub fn new(alloc: Global, link: Link<R>, log: bool) -> Peer<R> {
        Peer {
            alloc,
            link,
            channels: Channels {
                connection: Channel::new(alloc, 0),
                open: BTreeMap::new(alloc),
            },
            log,
        }
    }

    /// About how many octets wait for it, or are gathered for it at the other side.
    pub fn octets<P: Role>(&self, from: &Peer<P>) -> usize {
        let asks = self.channels.connection.octets;
        let mut octets = self.link.waiting().saturating_add(asks);
        for channel in self.channels.open.values() {
            octets = octets.saturating_add(channel.octets);
        }
        for channel in from.channels.open.values() {
            octets = octets.saturating_add(channel.coming.octets());
        }
        octets
    }

    /// Whether the other side isn't read where so many octets wait for this. It has the rest of a content that goes out.
    pub fn is_full(&self, octets: usize) -> bool {
        let octets = match self.link.source() {
            Some(_) => self.link.ahead.left().len(),
            None => octets,
        };
        octets > FULL && !self.link.is_over()
    }

    /// Reads once what is there, and passes it on to the other side, which is closed once this one is over.
    pub fn pull<P: Role>(&mut self, rt: &impl Print, other: &mut Peer<P>, room: &mut [u8]) -> Done {
        let count = self.link.read(room);
        let mut rest = &room[..count];
        for _ in 0..count {
            let Some(taken) = self.hear(rt, other, rest)? else {
                break;
            };
            rest = &rest[taken..];
        }
        if self.link.is_over() {
            other.close(reply::CONNECTION_FORCED, "CONNECTION_FORCED")?;
        }
        Ok(())
    }

    /// Passes on what the next frame says, and answers how many octets it took. None: no more are taken.
    fn hear<'a, P: Role>(
        &'a mut self,
        rt: &impl Print,
        other: &mut Peer<P>,
        octets: &'a [u8],
    ) -> Result<Option<usize>>
        ensures { IfOk result (λ taken. IfSome taken (λ taken. taken ≤ length octets.now)) }
    {
        let Some((taken, heard)) = self.link.hear(octets) else {
            return Ok(None);
        };
        if let Some(heard) = heard {
            if self.log {
                heard.print(rt, R::is_client());
            }
            other.hear_of(&mut self.channels, &heard)?;
        }
        Ok(Some(taken))
    }

    /// What is said on a channel of the other side is passed on to this. One that opens there gets a partner here.
    fn hear_of(&mut self, channels: &mut Channels, heard: &Heard<'_>) -> Done {
        let number = heard.event.channel();
        let is_source = self.link.source() == Some(number);
        if let Some(channel) = channels.get_mut(number) {
            self.pass(channel, is_source, heard)?;
        } else if let EventRef::Opened(_) = heard.event {
            let partner = self.link.end.open_channel()?;
            self.channels.open(self.alloc, partner, number)?;
            channels.open(self.alloc, number, partner)?;
        }
        if let EventRef::ChannelClosed(..) | EventRef::Discarded(_) = heard.event {
            drop(channels.open.remove(&number));
            if is_source {
                self.close(reply::CONNECTION_FORCED, "CONNECTION_FORCED")?;
            }
        }
        Ok(())
    }

    /// Asks what is said on a channel, or sends a part of the content that goes out from there.
    fn pass(&mut self, channel: &mut Channel, is_source: bool, heard: &Heard<'_>) -> Done {
        if is_source && let EventRef::Part(_, part, _) = heard.event {
            self.link.ahead.pass(part)?;
        } else if let Some(partner) = channel.partner
            && let Some(ask) = asked_by(self.alloc, &mut channel.coming, partner, heard)?
        {
            self.push(partner, ask)?;
        }
        Ok(())
    }

    /// Begins a content of the other side that isn't whole, where nothing is before it.
    pub fn begin<P: Role>(&mut self, from: &mut Peer<P>) -> Done {
        let mut next = 0;
        for _ in 0..from.channels.open.len() {
            let Some((number, channel)) = from.channels.next(next) else {
                break;
            };
            if let Some(partner) = channel.partner
                && let Some(own) = self.channels.open.get(&partner)
                && own.waiting.is_empty()
            {
                channel
                    .coming
                    .pass_on(self.alloc, &mut self.link, partner, number)?;
            }
            next = number.saturating_add(1);
        }
        Ok(())
    }

    /// Asks something on a channel, after what waits there. After a close nothing is.
    fn push(&mut self, number: u16, asking: Asking) -> Done {
        match self.channels.get_mut(number) {
            Some(own) if own.partner.is_some() && !self.link.is_over() => Ok(own.push(asking)?),
            _ => Ok(drop(asking)),
        }
    }

    /// Asks what waits on the channels, then what is for the connection: that at once, or once nothing else is left.
    pub fn advance(&mut self, at_once: bool, source: Option<u16>) -> Done {
        let end: &mut StreamEnd<R> = &mut self.link.end;
        let (mut next, mut is_left) = (0, source.is_some());
        for _ in 0..self.channels.open.len() {
            let Some((number, channel)) = self.channels.next(next) else {
                break;
            };
            channel.advance(end, source != Some(number))?;
            is_left |= !channel.waiting.is_empty();
            next = number.saturating_add(1);
        }
        if at_once || !is_left {
            self.channels.connection.advance(end, true)?;
        }
        Ok(())
    }

    pub fn close(&mut self, code: u16, text: &str) -> Done {
        let text = ShortStr::text(self.alloc, text)?;
        self.push(0, Asking::Plain(Ask::Close(code, text), None))
    }

    /// Closes the connection, forgets what else waits, and lets it be read.
    pub fn fail(&mut self) {
        self.link.is_held = false;
        self.channels.open.clear();
        drop(self.close(reply::INTERNAL_ERROR, "INTERNAL_ERROR"));
        drop(self.advance(true, None));
    }

    /// Answers a client that logs in. It is let in once the broker has let in the proxy, and refused where it won't.
    pub fn answer(&mut self, lets_in: bool) {
        if lets_in {
            drop(let_in(&mut self.link.end));
        } else if let Some(first) = self.channels.connection.waiting.front()
            && let Asking::Plain(Ask::Close(code, text), _) = first
        {
            drop(self.link.end.refuse(*code, text));
        }
    }
}
