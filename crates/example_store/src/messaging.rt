//! Messages: published, consumed, fetched, acknowledged.
use crate::fault::{Done, Fault, Result};
use crate::messages::Content;
use crate::queues::{QueueId, done_with, push, seat};
use crate::store::{Answer, BOUND, Outlet, Place, Store, answer};
use amqp_method::reply;
use amqp_typed::{basic, confirm};
use amqp_value::ShortStr;
use std::rc::Rc;

impl Store {
    /// Hands a message that is whole to the queues that it is bound for, and confirms it if the client asked for confirms.
    pub fn publish(&mut self, at: Place, to: &mut impl Outlet) -> Result<Answer> {
        let content = self.take_content(at)?;
        self.hand_out(at, &content, to)?;
        self.confirm(at)
    }

    fn take_content(&mut self, at: Place) -> Result<Rc<Content>> {
        let held = self.held.clone()?;
        let Some(mut content) = self.channel(at)?.coming.take() else {
            return Err(Fault::GivenUp);
        };
        if let Some(content) = Rc::get_mut(&mut content) {
            content.count_among(held);
        }
        Ok(content)
    }

    fn hand_out(&mut self, at: Place, content: &Rc<Content>, to: &mut impl Outlet) -> Done {
        if content.publish.immediate {
            return self.refuse(reply::NOT_IMPLEMENTED, "immediate=true", b"");
        }
        let queues = self.route(content)?;
        if queues.is_empty() && content.publish.mandatory {
            self.send_back(at, content, to)?;
        }
        push(&mut self.queues, &queues, content)
    }

    fn confirm(&mut self, at: Place) -> Result<Answer> {
        match self.channel(at)?.count_published() {
            Some(tag) => answer(self.alloc, basic::Ack::new(tag)),
            None => Ok(None),
        }
    }

    fn send_back(&mut self, at: Place, content: &Content, to: &mut impl Outlet) -> Done {
        if !self.channel(at)?.is_flowing {
            let why = "a return is due while the channel is paused";
            return self.refuse(reply::PRECONDITION_FAILED, why, b"");
        }
        to.send(at, &content.returned()?, content)
    }

    pub fn select_confirms(&mut self, at: Place) -> Result<Answer> {
        self.channel(at)?.select_confirms();
        answer(self.alloc, confirm::SelectOk::new())
    }

    /// Limits each consumer that is added from now on, or the whole channel.
    pub fn set_qos(&mut self, at: Place, qos: basic::Qos) -> Result<Answer> {
        if qos.prefetch_size != 0 {
            return self.refuse(reply::NOT_IMPLEMENTED, "prefetch_size!=0", b"");
        }
        self.channel(at)?.limit(qos.prefetch_count, qos.global);
        answer(self.alloc, basic::QosOk::new())
    }

    pub fn consume(&mut self, at: Place, consume: basic::ConsumeView<'_>) -> Result<Answer> {
        let queue = self.consumed(at, consume)?;
        let tag = self.consumer_tag(consume.consumer_tag)?;
        self.add_consumer(at, queue, &tag, consume)?;
        answer(self.alloc, basic::ConsumeOk::new(tag))
    }

    fn add_consumer(
        &mut self,
        at: Place,
        queue: QueueId,
        tag: &ShortStr,
        consume: basic::ConsumeView<'_>,
    ) -> Done {
        let id = self.next_id()?;
        let channel = self.channel(at)?;
        channel.add_consumer(id, queue, tag, consume.no_ack)?;
        seat(&mut self.queues, queue, (at, id), consume.exclusive)
    }

    fn consumer_tag(&mut self, tag: &[u8]) -> Result<ShortStr> {
        if tag.is_empty() {
            return self.made_up_name("amq.ctag");
        }
        Ok(ShortStr::new(self.alloc, tag)?)
    }

    /// The queue that is to be consumed, if another consumer may have it.
    fn consumed(&mut self, at: Place, consume: basic::ConsumeView<'_>) -> Result<QueueId> {
        let queue = self.queue(at, consume.queue)?;
        if queue.is_taken || (consume.exclusive && !queue.consumers.is_empty()) {
            return self.refuse(reply::ACCESS_REFUSED, "in exclusive use", b"");
        }
        let (id, tag) = (queue.id, consume.consumer_tag);
        if self.channel(at)?.consumer_with(tag).is_some() {
            return self.refuse(reply::NOT_ALLOWED, "consumer tag in use:", tag);
        }
        Ok(id)
    }

    /// Removes a consumer. What it was sent still waits to be acknowledged.
    pub fn cancel(&mut self, at: Place, tag: &[u8]) -> Result<Answer> {
        let channel = self.channel(at)?;
        if let Some(id) = channel.consumer_with(tag)
            && let Some(consumer) = channel.consumers.remove(&id)
        {
            self.remove_consumer(consumer.queue, id);
        }
        let tag = ShortStr::new(self.alloc, tag)?;
        answer(self.alloc, basic::CancelOk::new(tag))
    }

    pub fn get(
        &mut self,
        at: Place,
        get: basic::GetView<'_>,
        to: &mut impl Outlet,
    ) -> Result<Answer> {
        let id = self.queue(at, get.queue)?.id;
        if to.waiting(at.0) > BOUND {
            return self.refuse(reply::RESOURCE_ERROR, "too much is not read", b"");
        }
        if let Some(queue) = self.queues.get_mut(&id)
            && let Some(channel) = self.channels.get_mut(&at)
            && queue.send_first(channel, at, None, get.no_ack, to)?
        {
            return Ok(None);
        }
        answer(self.alloc, basic::GetEmpty::new())
    }

    /// Settles one message, or with `multiple` all up to it, where 0 stands for the last.
    pub fn settle(&mut self, at: Place, tag: u64, multiple: bool, requeue: bool) -> Done {
        let last = if multiple && tag == 0 { u64::MAX } else { tag };
        if last == tag && !self.channel(at)?.awaits(tag) {
            return self.refuse(reply::PRECONDITION_FAILED, "unknown delivery tag", b"");
        }
        let first = if multiple { 0 } else { tag };
        for _ in 0..u64::MAX {
            let Some(delivery) = self.channel(at)?.settle_next(first, last) else {
                break;
            };
            done_with(&mut self.queues, delivery, requeue)?;
        }
        Ok(())
    }

    pub fn recover(&mut self, at: Place, requeue: bool) -> Result<Answer> {
        if !requeue {
            return self.refuse(reply::NOT_IMPLEMENTED, "requeue=false", b"");
        }
        self.settle(at, 0, true, true)?;
        answer(self.alloc, basic::RecoverOk::new())
    }
}
