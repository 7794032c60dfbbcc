//! Messages: as they were published, and as a queue holds them, first in, first out.
ghost use Rattle.std.specs.Prelude.{ℕ, ◌≡◌, ◌<◌, true, is_some};
ghost use Rattle.std.specs.Ordering.{nat_cmp};
ghost use Rattle.std.specs.BTreeMap as tree;

use amqp_method::{Header, HeaderRef, Method, OutOfMemory, reply};
use amqp_typed::Typed;
use amqp_typed::basic::{Deliver, GetOk, Publish, PublishView, Return};
use amqp_value::ShortStr;
use std::alloc::{AllocError, Global};
use std::cell::Cell;
use std::collections::BTreeMap;
use std::rc::Rc;

/// What a message takes beside its header and its body, about.
const OVERHEAD: usize = 512;

/// A table takes about so many times the memory that it takes in a header.
const SPREAD: u64 = 16;

/// A message as it was published, or what has come of it. The queues that hold it share it.
#[derive(Drop)]
pub struct Content {
    pub publish: Publish,
    /// In a box, since it is large.
    pub header: Box<Header>,
    pub body: Vec<u8>,
    share: Share,
}

impl Content {
    ghost use Rattle.std.specs.Prelude.{[], ◌++◌, IfOk, OnOk};
    ghost use Rattle.amqp_method.specs.HeaderRefView.{lent_header};
    ghost use Rattle.amqp_method.specs.HeaderView.{header_view};

    /// A message that is published so, of which no more has come. Its octets are counted among these.
    pub fn begin(
        alloc: Global,
        publish: PublishView<'_>,
        octets: &Rc<Cell<usize>>,
    ) -> Result<Content, OutOfMemory>
        ensures { IfOk result (λ content. content.body.items ≡ []) }
    {
        let header = Box::new(alloc, Header::default())?;
        let publish = owned(alloc, publish)?;
        let share = Share::new(OVERHEAD, octets.clone()?);
        Ok(Content {
            publish,
            header,
            body: Vec::new(alloc),
            share,
        })
    }

    /// Its header is there.
    pub fn head(&mut self, alloc: Global, header: HeaderRef<'_>) -> Result<(), OutOfMemory>
        ensures { OnOk result (header_view self.new.header.value ≡ lent_header header.entry) }
    {
        header.read_into(alloc, &mut self.header)?;
        let length = self.header.payload_length().saturating_mul(SPREAD);
        self.share
            .add(usize::try_from(length).unwrap_or(usize::MAX));
        Ok(())
    }

    /// One more part of its body is there.
    pub fn add(&mut self, part: &[u8]) -> Result<(), AllocError>
        ensures { OnOk result (self.new.body.items ≡ self.old.body.items ++ part.now) }
    {
        self.body.extend_from_slice(part)?;
        self.share.add(part.len());
        Ok(())
    }

    /// Its octets are counted among these from now on.
    pub fn count_among(&mut self, octets: Rc<Cell<usize>>) {
        self.share = Share::new(self.share.octets, octets);
    }
}

/// What a method says is no longer than a short string may be, so that this fails for memory alone.
fn short_str(alloc: Global, octets: &[u8]) -> Result<ShortStr, OutOfMemory> {
    match ShortStr::new(alloc, octets) {
        Ok(text) => Ok(text),
        Err(_) => Err(OutOfMemory),
    }
}

/// What a method says, kept.
fn owned(alloc: Global, publish: PublishView<'_>) -> Result<Publish, OutOfMemory> {
    let exchange = short_str(alloc, publish.exchange)?;
    Ok(Publish {
        exchange,
        routing_key: short_str(alloc, publish.routing_key)?,
        mandatory: publish.mandatory,
        immediate: publish.immediate,
    })
}

/// The names of the exchange and of the key, for another method.
fn names(publish: &Publish) -> Result<(ShortStr, ShortStr), amqp_value::OutOfMemory> {
    let exchange = publish.exchange.copy()?;
    Ok((exchange, publish.routing_key.copy()?))
}

/// The methods that it is sent with.
impl Content {
    /// To a consumer with this tag.
    pub fn deliver(
        &self,
        consumer: &ShortStr,
        tag: u64,
        redelivered: bool,
    ) -> Result<Method, OutOfMemory> {
        let consumer_tag = consumer.copy()?;
        let (exchange, key) = names(&self.publish)?;
        let mut deliver = Deliver::new(consumer_tag, tag, exchange, key);
        deliver.redelivered = redelivered;
        deliver.into_method(*self.body.allocator())
    }

    /// In answer to basic.get, where so many messages are left.
    pub fn get_ok(&self, tag: u64, redelivered: bool, left: u32) -> Result<Method, OutOfMemory> {
        let (exchange, key) = names(&self.publish)?;
        let mut ok = GetOk::new(tag, exchange, key, left);
        ok.redelivered = redelivered;
        ok.into_method(*self.body.allocator())
    }

    /// Back to who published it.
    pub fn returned(&self) -> Result<Method, OutOfMemory> {
        let alloc = *self.body.allocator();
        let text = short_str(alloc, b"NO_ROUTE")?;
        let (exchange, key) = names(&self.publish)?;
        Return::new(reply::NO_ROUTE, text, exchange, key).into_method(alloc)
    }
}

/// So many octets are counted among those that all messages hold, for as long as the share is kept.
struct Share {
    octets: usize,
    all: Rc<Cell<usize>>,
}

impl Share {
    fn new(octets: usize, all: Rc<Cell<usize>>) -> Share {
        all.set(all.get().saturating_add(octets));
        Share { octets, all }
    }

    fn add(&mut self, octets: usize) {
        self.octets = self.octets.saturating_add(octets);
        self.all.set(self.all.get().saturating_add(octets));
    }
}

impl Drop for Share {
    fn drop(self) {
        let Share { octets, all } = self;
        all.set(all.get().saturating_sub(octets));
    }
}

/// The first message of a queue.
#[derive(Clone, Copy)]
pub struct First<'a> {
    pub place: u64,
    pub content: &'a Rc<Content>,
    /// It was sent before.
    pub is_redelivered: bool,
    /// How many come after it, as methods have it.
    pub left: u32,
}

/// The messages of a queue that are ready. Each has a place, which says when it came.
#[derive(Drop)]
pub struct Messages {
    ready: BTreeMap<u64, Rc<Content>>,
    /// the place of the next that comes
    next: u64,
    /// the first place that was never sent: of those before it, all were
    unsent: u64,
    ghost ready_came: { (place : ℕ) → is_some (tree.get nat_cmp ready place) ≡ true → place < next },
}

impl Messages {
    ghost use Rattle.std.specs.Prelude.{false, IfSome, IfNone, OnOk};
    ghost use Rattle.example_store.specs.Ready.{is_ready, IsFirst, Readies};

    pub fn new(alloc: Global) -> Messages
        ensures { (place : ℕ) → is_ready result place ≡ false }
    {
        let ready = BTreeMap::new(alloc);
        Messages {
            ready,
            next: 0,
            unsent: 0,
        }
    }

    /// How many are ready, as methods have it.
    pub fn count(&self) -> u32 {
        u32::try_from(self.ready.len()).unwrap_or(u32::MAX)
    }

    pub fn push(&mut self, content: Rc<Content>) -> Result<(), AllocError>
        ensures after_all { (place : ℕ) → is_ready self.old place ≡ true → place < self.old.next }
        ensures ready { OnOk result (Readies self.old self.new self.old.next true) }
    {
        let place = self.next;
        self.next = place.checked_add(1).ok_or(AllocError)?;
        drop(self.ready.insert(place, content)?);
        Ok(())
    }

    /// The message that came first. They are sent in order.
    pub fn first(&self) -> Option<First<'_>>
        ensures first { IfSome result (λ found. IsFirst self.now found.place) }
        ensures none { IfNone result ((place : ℕ) → is_ready self.now place ≡ false) }
    {
        let (place, content) = self.ready.first_key_value()?;
        Some(First {
            place: *place,
            content,
            is_redelivered: *place < self.unsent,
            left: self.count().saturating_sub(1),
        })
    }

    /// The message at a place was sent.
    pub fn remove(&mut self, place: u64)
        ensures { Readies self.old self.new place false }
    {
        drop(self.ready.remove(&place));
        self.unsent = self.unsent.max(place.saturating_add(1));
    }

    /// A message that was sent comes back.
    pub fn put_back(&mut self, place: u64, content: Rc<Content>) -> Result<(), AllocError>
        ensures { OnOk result (place < self.old.next → Readies self.old self.new place true) }
    {
        if place < self.next {
            drop(self.ready.insert(place, content)?);
        }
        Ok(())
    }

    pub fn purge(&mut self)
        ensures { (place : ℕ) → is_ready self.new place ≡ false }
    {
        self.ready.clear();
    }
}
