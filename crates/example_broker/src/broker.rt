//! What the broker does with what the ends of its connections tell.
use crate::connection::{Asked, Connection};
use crate::connections::Connections;
use amqp_method::{Kind, MethodRef, reply};
use amqp_value::ShortStr;
use example_loop::{Connect, Program, send_plain};
use example_store::{Answer, BOUND, Done, Fault, Place, Result, Store, Users};
use mio::net::TcpStream;
use std::alloc::Global;
use std::collections::BTreeMap;
use std::rc::Rc;

#[derive(Drop)]
pub struct Broker {
    alloc: Global,
    users: Rc<Users>,
    store: Store,
    connections: Connections,
    /// Messages hold more than `BOUND`, and since then more than three quarters of it.
    is_short: bool,
}

impl Broker {
    pub fn new(alloc: Global, users: Users) -> Result<Broker> {
        Ok(Broker {
            alloc,
            users: Rc::new(alloc, users)?,
            store: Store::new(alloc)?,
            connections: Connections(BTreeMap::new(alloc)),
            is_short: false,
        })
    }

    /// Does what a connection asks for. What can't be done ends it.
    fn hear(&mut self, id: usize, octets: &[u8]) -> Done {
        let (mut rest, mut payload) = (octets, Vec::new(self.alloc));
        for _ in 0..octets.len() {
            let connection = self.connections.get(id)?;
            let Some(heard) = connection.hear(rest, &mut self.store, &mut payload) else {
                break;
            };
            let (taken, number, asked) = heard;
            rest = &rest[taken..];
            if self.handle((id, number), asked, &payload).is_err() {
                self.connections.get(id)?.link.is_gone = true;
            }
        }
        Ok(())
    }

    fn handle(&mut self, at: Place, asked: Asked, payload: &[u8]) -> Done {
        match asked {
            Asked::Nothing => Ok(()),
            Asked::Login => self.connections.get(at.0)?.login(),
            Asked::Enter => self.connections.get(at.0)?.enter(),
            Asked::Open => self.store.open(at),
            Asked::Flow(active) => self.store.set_flow(at, active),
            Asked::Method => {
                let method = MethodRef::new(payload)?;
                let answer = self.store.tell(at, method, &mut self.connections);
                self.answer(at, method.kind(), answer)
            }
            Asked::Content => {
                let answer = self.store.publish(at, &mut self.connections);
                self.answer(at, Kind::BasicPublish, answer)
            }
            Asked::Close => self.store.close_channel(at),
            Asked::TooMuch => Err(Fault::GivenUp),
        }
    }

    /// Answers a method, or closes for it where it is refused. What the client wants no answer to isn't answered.
    fn answer(&mut self, at: Place, kind: Kind, answer: Result<Answer>) -> Done {
        match answer {
            Ok(Some(method)) => Ok(send_plain(self.connections.get(at.0)?.end(), at.1, method)?),
            Ok(None) => Ok(()),
            Err(Fault::Refused(code, text)) => self.close_for(at, code, &text, kind),
            Err(Fault::GivenUp) => Err(Fault::GivenUp),
        }
    }

    /// Closes the channel for a method that is refused, or the connection where the error is a hard one.
    fn close_for(&mut self, at: Place, code: u16, text: &ShortStr, kind: Kind) -> Done {
        let end = self.connections.get(at.0)?.end();
        if reply::is_hard(code) {
            self.store.close_channels(at.0)?;
            return Ok(end.close_for(code, text, kind)?);
        }
        self.store.close_channel(at)?;
        Ok(end.close_channel_for(at.1, code, text, kind)?)
    }

    /// A connection has its turn. The answer is whether nothing is left to do there.
    fn serve(&mut self, id: usize, ticks: bool, room: &mut [u8]) -> Result<bool> {
        let is_short = self.is_short;
        let count = self.connections.get(id)?.turn(is_short, ticks, room);
        self.hear(id, &room[..count])?;
        let is_done = self.connections.get(id)?.link.is_done();
        if is_done {
            self.store.close_connection(id)?;
        }
        Ok(is_done)
    }
}

impl Program for Broker {
    type Connection = Connection;

    fn connections(&mut self) -> &mut BTreeMap<usize, Connection> {
        &mut self.connections.0
    }

    fn accept(
        &mut self,
        _: &impl Connect,
        number: usize,
        stream: TcpStream,
    ) -> anyhow::Result<Connection> {
        Connection::new(self.alloc, self.users.clone()?, number, stream)
    }

    /// What fails in it, since memory was refused, is tried again in the next.
    fn turn(&mut self, _: &impl Print, id: usize, ticks: bool, room: &mut [u8]) -> bool {
        self.serve(id, ticks, room).unwrap_or(false)
    }

    fn finish(&mut self) {
        let bound = if self.is_short { BOUND / 4 * 3 } else { BOUND };
        self.is_short = self.store.held() > bound;
        self.store.deliver(&mut self.connections);
    }
}
