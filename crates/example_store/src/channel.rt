//! A channel: its consumers, the messages that were sent on it and wait to be acknowledged, and the content that is coming.
ghost use Rattle.std.specs.Prelude.{true, false, OnOk};
ghost use Rattle.example_store.specs.Standing.{Awaits};

use crate::credit::Credit;
use crate::messages::{Content, First};
use amqp_method::{HeaderRef, Method, MethodRef, OutOfMemory};
use amqp_typed::TypedView;
use amqp_typed::basic::PublishView;
use amqp_value::ShortStr;
use std::alloc::{AllocError, Global};
use std::cell::Cell;
use std::collections::BTreeMap;
use std::rc::Rc;

pub struct Consumer {
    pub tag: ShortStr,
    /// The number of its queue.
    pub queue: u64,
    pub no_ack: bool,
    pub credit: Credit,
}

/// Written out, so that it is proved once.
impl Drop for Consumer {
    fn drop(self) {
        let Consumer {
            tag: _,
            queue: _,
            no_ack: _,
            credit: _,
        } = self;
    }
}

/// A message that was sent: of which queue, and its place there.
#[derive(Drop)]
pub struct Delivery {
    pub queue: u64,
    pub place: u64,
    pub content: Rc<Content>,
    /// None for one that basic.get took.
    pub consumer: Option<u64>,
}

pub struct Channel {
    alloc: Global,
    pub consumers: BTreeMap<u64, Consumer>,
    /// by their delivery tags
    unacked: BTreeMap<u64, Delivery>,
    last_tag: u64,
    /// The limit of each consumer that is added from now on.
    prefetch: u16,
    /// Of all consumers together.
    credit: Credit,
    /// How many messages were published since the client asked for confirms, if it did.
    published: Option<u64>,
    /// The name of the queue that was declared last.
    pub last_queue: Vec<u8>,
    pub is_flowing: bool,
    /// What has come of the content that the client publishes, until it is whole and taken.
    pub coming: Option<Rc<Content>>,
}

/// Written out, so that it is proved once.
impl Drop for Channel {
    fn drop(self) {
        let Channel {
            alloc: _,
            consumers: _,
            unacked: _,
            last_tag: _,
            prefetch: _,
            credit: _,
            published: _,
            last_queue: _,
            is_flowing: _,
            coming: _,
        } = self;
    }
}

impl Channel {
    pub fn new(alloc: Global) -> Channel {
        Channel {
            alloc,
            consumers: BTreeMap::new(alloc),
            unacked: BTreeMap::new(alloc),
            last_tag: 0,
            prefetch: 0,
            credit: Credit::new(0),
            published: None,
            last_queue: Vec::new(alloc),
            is_flowing: true,
            coming: None,
        }
    }

    /// A content begins. Its octets are counted among these.
    pub fn begin(
        &mut self,
        method: MethodRef<'_>,
        octets: &Rc<Cell<usize>>,
    ) -> Result<(), OutOfMemory> {
        // no client sends any other
        if let Some(publish) = PublishView::from_view(method) {
            let content = Content::begin(self.alloc, publish, octets)?;
            self.coming = Some(Rc::new(self.alloc, content)?);
        }
        Ok(())
    }

    /// The header of the content came.
    pub fn head(&mut self, header: HeaderRef<'_>) -> Result<(), OutOfMemory> {
        let alloc = self.alloc;
        match self.growing() {
            Some(content) => content.head(alloc, header),
            None => Ok(()),
        }
    }

    /// A part of its body came.
    pub fn add(&mut self, part: &[u8]) -> Result<(), AllocError> {
        match self.growing() {
            Some(content) => content.add(part),
            None => Ok(()),
        }
    }

    /// The content that is coming. No queue has it yet, so that it may grow.
    fn growing(&mut self) -> Option<&mut Content> {
        Rc::get_mut(self.coming.as_mut()?)
    }

    /// The client asks for confirms.
    pub fn select_confirms(&mut self) {
        self.published = self.published.or(Some(0));
    }

    /// One more message was published. It answers the tag under which that is confirmed, if the client asked for that.
    pub fn count_published(&mut self) -> Option<u64> {
        let tag = self.published?.saturating_add(1);
        self.published = Some(tag);
        Some(tag)
    }

    /// Limits each consumer that is added from now on, or the whole channel.
    pub fn limit(&mut self, count: u16, is_global: bool) {
        if is_global {
            self.credit.limit = count;
        } else {
            self.prefetch = count;
            self.credit.limit = 0;
        }
    }

    /// A consumer is added. As many of its messages may wait to be acknowledged as the client said last.
    pub fn add_consumer(
        &mut self,
        id: u64,
        queue: u64,
        tag: &ShortStr,
        no_ack: bool,
    ) -> Result<(), OutOfMemory> {
        let consumer = Consumer {
            tag: tag.copy()?,
            queue,
            no_ack,
            credit: Credit::new(self.prefetch),
        };
        drop(self.consumers.insert(id, consumer)?);
        Ok(())
    }

    pub fn consumer_with(&self, tag: &[u8]) -> Option<u64> {
        for (id, consumer) in &self.consumers {
            if consumer.tag.as_bytes() == tag {
                return Some(*id);
            }
        }
        None
    }

    /// The consumer, if it may be sent a message now.
    pub fn ready_consumer(&self, id: u64) -> Option<&Consumer> {
        let consumer = self.consumers.get(&id)?;
        let has_room = self.credit.has_room() && consumer.credit.has_room();
        (self.is_flowing && (consumer.no_ack || has_room)).then_some(consumer)
    }

    /// Whether the message under this delivery tag waits to be acknowledged.
    pub fn awaits(&self, tag: u64) -> bool {
        self.unacked.contains_key(&tag)
    }

    /// The first message of a queue is sent, under the next tag: to a consumer, or in answer to basic.get, where so many
    /// are left. It answers the method that the message is sent with.
    pub fn send(
        &mut self,
        queue: u64,
        first: First<'_>,
        consumer: Option<u64>,
        no_ack: bool,
    ) -> Result<Method, OutOfMemory> {
        let content = first.content;
        let tag = self.last_tag.saturating_add(1);
        self.last_tag = tag;
        if !no_ack {
            let delivery = Delivery {
                queue,
                place: first.place,
                content: content.clone()?,
                consumer,
            };
            self.await_ack(tag, delivery)?;
        }
        match self.consumer(consumer) {
            Some(consumer) => content.deliver(&consumer.tag, tag, first.is_redelivered),
            None => content.get_ok(tag, first.is_redelivered, first.left),
        }
    }

    fn consumer(&self, id: Option<u64>) -> Option<&Consumer> {
        self.consumers.get(&id?)
    }

    fn await_ack(&mut self, tag: u64, delivery: Delivery) -> Result<(), AllocError>
        ensures { OnOk result (Awaits self.old self.new tag true) }
    {
        if let Some(id) = delivery.consumer {
            self.credit.spend();
            if let Some(consumer) = self.consumers.get_mut(&id) {
                consumer.credit.spend();
            }
        }
        drop(self.unacked.insert(tag, delivery)?);
        Ok(())
    }

    /// The first message that waits under a tag in this range waits no more.
    pub fn settle_next(&mut self, first: u64, last: u64) -> Option<Delivery> {
        let tag = *self.unacked.range(first..).next()?.0;
        if tag > last {
            return None;
        }
        self.settle(tag)
    }

    fn settle(&mut self, tag: u64) -> Option<Delivery>
        ensures { Awaits self.old self.new tag false }
    {
        let delivery = self.unacked.remove(&tag)?;
        if let Some(id) = delivery.consumer {
            self.credit.give_back();
            if let Some(consumer) = self.consumers.get_mut(&id) {
                consumer.credit.give_back();
            }
        }
        Some(delivery)
    }
}
