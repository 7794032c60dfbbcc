//! Queues: how each was declared, its messages, and who consumes them.
use crate::channel::{Channel, Delivery};
use crate::fault::{Done, Fault, Result};
use crate::messages::{Content, Messages};
use crate::store::{Answer, Outlet, Place, ROOM, Store, answer};
use amqp_method::reply;
use amqp_typed::queue;
use amqp_value::ShortStr;
use std::alloc::Global;
use std::collections::{BTreeMap, VecDeque};
use std::rc::Rc;

/// Never used again, so what still refers to a queue that is gone finds none.
pub type QueueId = u64;

pub type Queues = BTreeMap<QueueId, Queue>;

#[derive(Drop)]
pub struct Queue {
    pub id: QueueId,
    pub name: ShortStr,
    /// The connection that alone may use the queue, and with which it ends.
    owner: Option<usize>,
    is_durable: bool,
    is_auto_deleted: bool,
    /// One consumer has the queue for itself.
    pub is_taken: bool,
    pub messages: Messages,
    /// The next to get a message comes first.
    pub consumers: VecDeque<(Place, u64)>,
}

impl Queue {
    /// One that is declared so on a channel.
    fn new(
        alloc: Global,
        id: QueueId,
        at: Place,
        declare: queue::DeclareView<'_>,
        name: &[u8],
    ) -> Result<Queue> {
        Ok(Queue {
            id,
            name: ShortStr::new(alloc, name)?,
            owner: declare.exclusive.then_some(at.0),
            is_durable: declare.durable && !declare.exclusive,
            is_auto_deleted: declare.auto_delete,
            is_taken: false,
            messages: Messages::new(alloc),
            consumers: VecDeque::new(alloc),
        })
    }

    /// Whether it was declared in this way. What is exclusive ends with its connection anyway.
    fn is_as(&self, declare: queue::DeclareView<'_>) -> bool {
        self.is_durable == (declare.durable && !declare.exclusive)
            && self.is_auto_deleted == declare.auto_delete
    }

    /// Sends what it can to the consumers, by turns. It answers whether it sent any.
    pub fn deliver(
        &mut self,
        channels: &mut BTreeMap<Place, Channel>,
        to: &mut impl Outlet,
    ) -> bool {
        let (mut passed, mut has_sent) = (0, false);
        for _ in 0..u64::MAX {
            if passed >= self.consumers.len() || self.messages.count() == 0 {
                break;
            }
            self.consumers.rotate_left(1);
            passed += 1;
            if let Some((at, id)) = self.consumers.back().copied()
                && to.waiting(at.0) <= ROOM
                && let Some(channel) = channels.get_mut(&at)
            {
                match self.offer(channel, at, id, to) {
                    Ok(true) => (passed, has_sent) = (0, true),
                    Ok(false) => {}
                    Err(_) => to.give_up(at.0),
                }
            }
        }
        has_sent
    }

    /// Sends a consumer the first message, if it may have one. It answers whether it did.
    fn offer(
        &mut self,
        channel: &mut Channel,
        at: Place,
        id: u64,
        to: &mut impl Outlet,
    ) -> Result<bool> {
        let Some(consumer) = channel.ready_consumer(id) else {
            return Ok(false);
        };
        let no_ack = consumer.no_ack;
        self.send_first(channel, at, Some(id), no_ack, to)
    }

    /// Sends the first message, to a consumer or in answer to basic.get. It answers whether there was one.
    pub fn send_first(
        &mut self,
        channel: &mut Channel,
        at: Place,
        consumer: Option<u64>,
        no_ack: bool,
        to: &mut impl Outlet,
    ) -> Result<bool> {
        let Some(first) = self.messages.first() else {
            return Ok(false);
        };
        let method = channel.send(self.id, first, consumer, no_ack)?;
        to.send(at, &method, first.content)?;
        let place = first.place;
        self.messages.remove(place);
        Ok(true)
    }
}

/// A message goes to queues.
pub fn push(queues: &mut Queues, ids: &[QueueId], content: &Rc<Content>) -> Done {
    for id in ids {
        if let Some(queue) = queues.get_mut(id) {
            queue.messages.push(content.clone()?)?;
        }
    }
    Ok(())
}

/// A message that was sent waits no more: it goes back to its queue, or is done with.
pub fn done_with(queues: &mut Queues, delivery: Delivery, requeue: bool) -> Done {
    match queues.get_mut(&delivery.queue) {
        Some(queue) if requeue => {
            let Delivery { place, content, .. } = delivery;
            Ok(queue.messages.put_back(place, content)?)
        }
        _ => Ok(drop(delivery)),
    }
}

/// A queue has one more consumer.
pub fn seat(queues: &mut Queues, queue: QueueId, seat: (Place, u64), is_exclusive: bool) -> Done {
    if let Some(queue) = queues.get_mut(&queue) {
        queue.consumers.push_back(seat)?;
        queue.is_taken = is_exclusive;
    }
    Ok(())
}

/// The first queue whose number is at least this, or else the first of all.
pub fn queue_from(queues: &Queues, id: QueueId) -> Option<QueueId> {
    match queues.range(id..).next() {
        Some((id, _)) => Some(*id),
        None => Some(*queues.first_key_value()?.0),
    }
}

/// The exclusive queues of a connection.
pub fn owned_by(owner: usize, alloc: Global, queues: &Queues) -> Result<Vec<QueueId>> {
    let mut owned = Vec::new(alloc);
    for queue in queues.values() {
        if queue.owner == Some(owner) {
            owned.push(queue.id)?;
        }
    }
    Ok(owned)
}

impl Store {
    /// The name of a queue that a method means: an empty one stands for the one declared last on the channel.
    fn queue_name<'a>(&'a self, at: Place, name: &'a [u8]) -> &'a [u8] {
        if name.is_empty()
            && let Some(channel) = self.channels.get(&at)
        {
            return &channel.last_queue;
        }
        name
    }

    pub fn queue(&self, at: Place, name: &[u8]) -> Result<&Queue> {
        let name = self.queue_name(at, name);
        if let Some(id) = self.names.get(name)
            && let Some(queue) = self.queues.get(id)
        {
            return match queue.owner {
                Some(owner) if owner != at.0 => self.locked(name),
                _ => Ok(queue),
            };
        }
        self.refuse(reply::NOT_FOUND, "no queue", name)
    }

    fn locked<T>(&self, name: &[u8]) -> Result<T> {
        self.refuse(reply::RESOURCE_LOCKED, "another has queue", name)
    }

    pub fn declare_queue(&mut self, at: Place, declare: queue::DeclareView<'_>) -> Result<Answer> {
        let is_unnamed = declare.queue.is_empty() && !declare.passive;
        let name = if is_unnamed {
            self.made_up_name("amq.gen")?
        } else {
            ShortStr::new(self.alloc, self.queue_name(at, declare.queue))?
        };
        let (ready, consumers) = self.declare_named(at, declare, &name)?;
        answer(self.alloc, queue::DeclareOk::new(name, ready, consumers))
    }

    /// Declares a queue of this name. It answers how many messages and consumers it has.
    fn declare_named(
        &mut self,
        at: Place,
        declare: queue::DeclareView<'_>,
        name: &ShortStr,
    ) -> Result<(u32, u32)> {
        let name = name.as_bytes();
        if !declare.passive && !self.names.contains_key(name) {
            self.add_queue(at, declare, name)?;
        }
        let queue = self.queue(at, name)?;
        if !declare.passive && queue.owner.is_some() != declare.exclusive {
            return self.locked(name);
        } else if !declare.passive && !queue.is_as(declare) {
            return self.refuse(reply::PRECONDITION_FAILED, "declared otherwise:", name);
        }
        let consumers = u32::try_from(queue.consumers.len()).unwrap_or(u32::MAX);
        let counts = (queue.messages.count(), consumers);
        self.channel(at)?.last_queue = Vec::from_slice(self.alloc, name)?;
        Ok(counts)
    }

    fn add_queue(&mut self, at: Place, declare: queue::DeclareView<'_>, name: &[u8]) -> Done {
        if !declare.queue.is_empty() {
            self.check_not_reserved(name)?;
        }
        let id = self.next_id()?;
        let queue = Queue::new(self.alloc, id, at, declare, name)?;
        drop(self.queues.insert(id, queue)?);
        let name = Vec::from_slice(self.alloc, name)?;
        self.names.insert(name, id)?;
        Ok(())
    }

    pub fn delete_queue(&mut self, at: Place, delete: queue::DeleteView<'_>) -> Result<Answer> {
        let is_there = self.names.contains_key(self.queue_name(at, delete.queue));
        if !is_there {
            return answer(self.alloc, queue::DeleteOk::new(0));
        }
        let queue = self.queue(at, delete.queue)?;
        let (id, name, ready) = (queue.id, queue.name.as_bytes(), queue.messages.count());
        if (delete.if_unused && !queue.consumers.is_empty()) || (delete.if_empty && ready > 0) {
            return self.refuse(reply::PRECONDITION_FAILED, "in use: queue", name);
        }
        self.remove_queue(id);
        answer(self.alloc, queue::DeleteOk::new(ready))
    }

    pub fn purge_queue(&mut self, at: Place, name: &[u8]) -> Result<Answer> {
        let id = self.queue(at, name)?.id;
        let Some(queue) = self.queues.get_mut(&id) else {
            return Err(Fault::GivenUp);
        };
        let ready = queue.messages.count();
        queue.messages.purge();
        answer(self.alloc, queue::PurgeOk::new(ready))
    }

    /// A consumer is gone, and with the last one a queue that deletes itself.
    pub fn remove_consumer(&mut self, id: QueueId, consumer: u64) {
        if let Some(queue) = self.queues.get_mut(&id) {
            queue.consumers.retain(|seat| seat.1 != consumer);
            queue.is_taken &= !queue.consumers.is_empty();
            if queue.consumers.is_empty() && queue.is_auto_deleted {
                self.remove_queue(id);
            }
        }
    }

    /// A queue is gone: its name and its consumers are.
    fn forget_queue(&mut self, queue: &Queue) {
        self.names.remove(queue.name.as_bytes());
        for (at, id) in queue.consumers.iter() {
            if let Some(channel) = self.channels.get_mut(at) {
                drop(channel.consumers.remove(id));
            }
        }
    }

    /// Removes a queue with its consumers and its bindings, and the exchanges that go with these.
    pub fn remove_queue(&mut self, id: QueueId) {
        let queue = self.queues.remove(&id);
        if let Some(queue) = &queue {
            self.forget_queue(queue);
            self.exchanges.retain(|_, own| !own.unbind_queue(id));
        }
        drop(queue);
    }
}
