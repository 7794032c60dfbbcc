//! All that a broker in memory keeps, but for its connections, and what the methods of its clients make of it.
use crate::channel::Channel;
use crate::exchanges::{Exchange, standard_exchanges};
use crate::fault::{Done, Fault, Result, close_text};
use crate::messages::Content;
use crate::queues::{QueueId, Queues, done_with, owned_by, queue_from};
use amqp_method::{Method, MethodRef, reply};
use amqp_typed::basic::AnyMethodView as Basic;
use amqp_typed::exchange::AnyMethodView as Exchanging;
use amqp_typed::queue::AnyMethodView as Queueing;
use amqp_typed::{AnyMethodView, Typed};
use amqp_value::ShortStr;
use std::alloc::Global;
use std::cell::Cell;
use std::collections::BTreeMap;
use std::rc::Rc;

/// Where messages hold more octets, those who publish have to wait. No connection may have more under way either.
pub const BOUND: usize = 268_435_456;

/// Where more octets wait for a connection, its consumers get no messages.
pub const ROOM: usize = 1_048_576;

/// The numbers of a connection and of a channel.
pub type Place = (usize, u16);

/// The method that answers another, if one does.
pub type Answer = Option<Method>;

pub fn answer<T: Typed>(alloc: Global, method: T) -> Result<Answer> {
    Ok(Some(method.into_method(alloc)?))
}

/// The connections, to which messages go.
pub trait Outlet {
    /// How many octets wait for a connection, or more than can wait where it takes no more.
    fn waiting(&self, connection: usize) -> usize;

    /// Sends a message on a channel.
    fn send(&mut self, at: Place, method: &Method, content: &Content) -> Done;

    /// A connection can't be sent what is due.
    fn give_up(&mut self, connection: usize);
}

pub struct Store {
    pub(crate) alloc: Global,
    /// How many octets all messages hold.
    pub(crate) held: Rc<Cell<usize>>,
    pub(crate) channels: BTreeMap<Place, Channel>,
    pub(crate) exchanges: BTreeMap<Vec<u8>, Exchange>,
    pub(crate) queues: Queues,
    pub(crate) names: BTreeMap<Vec<u8>, QueueId>,
    last_id: u64,
    /// The number from which queues are asked first for what they send.
    first: QueueId,
}

/// Written out, so that it is proved once.
impl Drop for Store {
    fn drop(self) {
        let Store {
            alloc: _,
            held: _,
            channels: _,
            exchanges: _,
            queues: _,
            names: _,
            last_id: _,
            first: _,
        } = self;
    }
}

impl Store {
    pub fn new(alloc: Global) -> Result<Store> {
        Ok(Store {
            alloc,
            held: Rc::new(alloc, Cell::new(0))?,
            channels: BTreeMap::new(alloc),
            exchanges: standard_exchanges(alloc)?,
            queues: BTreeMap::new(alloc),
            names: BTreeMap::new(alloc),
            last_id: 0,
            first: 0,
        })
    }

    /// How many octets all messages hold.
    pub fn held(&self) -> usize {
        self.held.get()
    }

    /// Refuses a method: says why, and of what name, if it is about one. The codes are RabbitMQ's.
    pub(crate) fn refuse<T>(&self, code: u16, why: &str, name: &[u8]) -> Result<T> {
        let text = close_text(self.alloc, code, why, name)?;
        Err(Fault::Refused(code, text))
    }

    pub(crate) fn next_id(&mut self) -> Result<u64> {
        let Some(id) = self.last_id.checked_add(1) else {
            return Err(Fault::GivenUp);
        };
        self.last_id = id;
        Ok(id)
    }

    /// A name where the client leaves it to the broker.
    pub(crate) fn made_up_name(&mut self, start: &str) -> Result<ShortStr> {
        let id = self.next_id()?;
        let name = format!(in self.alloc; "{start}-{id}")?;
        Ok(ShortStr::text(self.alloc, name.as_str())?)
    }

    /// A channel that is open.
    pub fn channel(&mut self, at: Place) -> Result<&mut Channel> {
        match self.channels.get_mut(&at) {
            Some(channel) => Ok(channel),
            None => Err(Fault::GivenUp),
        }
    }

    /// A channel opens.
    pub fn open(&mut self, at: Place) -> Done {
        drop(self.channels.insert(at, Channel::new(self.alloc))?);
        Ok(())
    }

    /// A client takes contents on a channel, or no more of them.
    pub fn set_flow(&mut self, at: Place, active: bool) -> Done {
        self.channel(at)?.is_flowing = active;
        Ok(())
    }

    /// Does what a method asks for.
    pub fn tell(
        &mut self,
        at: Place,
        method: MethodRef<'_>,
        to: &mut impl Outlet,
    ) -> Result<Answer> {
        match AnyMethodView::from_view(method) {
            AnyMethodView::Exchange(method) => self.tell_exchange(method),
            AnyMethodView::Queue(method) => self.tell_queue(at, method),
            AnyMethodView::Basic(method) => self.tell_basic(at, method, to),
            AnyMethodView::Confirm(_) => self.select_confirms(at),
            AnyMethodView::Tx(_) => self.refuse(reply::NOT_IMPLEMENTED, "transactions", b""),
            // no client sends any other
            _ => Ok(None),
        }
    }

    fn tell_exchange(&mut self, method: Exchanging<'_>) -> Result<Answer> {
        match method {
            Exchanging::Declare(declare) => self.declare_exchange(declare),
            Exchanging::Delete(delete) => self.delete_exchange(delete),
            _ => self.refuse(reply::NOT_IMPLEMENTED, "bound exchanges", b""),
        }
    }

    fn tell_queue(&mut self, at: Place, method: Queueing<'_>) -> Result<Answer> {
        match method {
            Queueing::Declare(declare) => self.declare_queue(at, declare),
            Queueing::Bind(bind) => self.bind_queue(at, bind),
            Queueing::Unbind(unbind) => self.unbind_queue(at, unbind),
            Queueing::Purge(purge) => self.purge_queue(at, purge.queue),
            Queueing::Delete(delete) => self.delete_queue(at, delete),
            _ => Ok(None),
        }
    }

    fn tell_basic(&mut self, at: Place, method: Basic<'_>, to: &mut impl Outlet) -> Result<Answer> {
        match method {
            Basic::Qos(qos) => return self.set_qos(at, qos),
            Basic::Consume(consume) => return self.consume(at, consume),
            Basic::Cancel(cancel) => return self.cancel(at, cancel.consumer_tag),
            Basic::Get(get) => return self.get(at, get, to),
            Basic::RecoverAsync(recover) => return self.recover(at, recover.requeue),
            Basic::Recover(recover) => return self.recover(at, recover.requeue),
            Basic::Ack(ack) => self.settle(at, ack.delivery_tag, ack.multiple, false)?,
            Basic::Reject(reject) => self.settle(at, reject.delivery_tag, false, reject.requeue)?,
            Basic::Nack(nack) => self.settle(at, nack.delivery_tag, nack.multiple, nack.requeue)?,
            _ => {}
        }
        Ok(None)
    }

    /// A channel is gone: its consumers are, and what was sent on it and not acknowledged goes back.
    pub fn close_channel(&mut self, at: Place) -> Done {
        match self.channels.remove(&at) {
            Some(mut channel) => self.empty_channel(&mut channel),
            None => Ok(()),
        }
    }

    fn empty_channel(&mut self, channel: &mut Channel) -> Done {
        for (id, consumer) in channel.consumers.iter() {
            self.remove_consumer(consumer.queue, *id);
        }
        for _ in 0..u64::MAX {
            let Some(delivery) = channel.settle_next(0, u64::MAX) else {
                break;
            };
            done_with(&mut self.queues, delivery, true)?;
        }
        Ok(())
    }

    /// All channels of a connection are gone.
    pub fn close_channels(&mut self, connection: usize) -> Done {
        for _ in 0..u64::MAX {
            let Some((at, _)) = self.channels.range((connection, 0)..).next() else {
                break;
            };
            let at = *at;
            if at.0 != connection {
                break;
            }
            self.close_channel(at)?;
        }
        Ok(())
    }

    /// A connection is gone: its channels and its exclusive queues are.
    pub fn close_connection(&mut self, connection: usize) -> Done {
        self.close_channels(connection)?;
        for queue in owned_by(connection, self.alloc, &self.queues)? {
            self.remove_queue(queue);
        }
        Ok(())
    }

    /// Each queue sends what it can. Who sent first is asked last the next time, so that none waits for ever.
    pub fn deliver(&mut self, to: &mut impl Outlet) {
        let (mut next, mut sender) = (self.first, None);
        for _ in 0..self.queues.len() {
            let Some(id) = queue_from(&self.queues, next) else {
                break;
            };
            if let Some(queue) = self.queues.get_mut(&id)
                && queue.deliver(&mut self.channels, to)
            {
                sender = sender.or(Some(id));
            }
            next = id.saturating_add(1);
        }
        if let Some(id) = sender {
            self.first = id.saturating_add(1);
        }
    }
}
