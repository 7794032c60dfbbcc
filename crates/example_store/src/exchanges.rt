//! Exchanges: how each was declared, its bindings, and which of them a message takes.
use crate::headers::headers_match;
use crate::messages::Content;
use crate::topic::topic_matches;
use amqp_typed::exchange::DeclareView;
use amqp_value::{ShortStr, Table};
use std::alloc::{AllocError, Global};
use std::collections::BTreeMap;

/// Which bindings of an exchange a message takes.
#[derive(Clone, Copy, PartialEq, Eq)]
pub enum ExchangeType {
    Direct,
    Fanout,
    Topic,
    Headers,
}

/// The exchanges that are there from the start, with their types.
const STANDARD: [(&[u8], ExchangeType); 5] = [
    (b"amq.direct", ExchangeType::Direct),
    (b"amq.fanout", ExchangeType::Fanout),
    (b"amq.topic", ExchangeType::Topic),
    (b"amq.headers", ExchangeType::Headers),
    (b"amq.match", ExchangeType::Headers),
];

pub fn standard_exchanges(alloc: Global) -> Result<BTreeMap<Vec<u8>, Exchange>, AllocError> {
    let mut exchanges = BTreeMap::new(alloc);
    for (name, kind) in STANDARD.iter() {
        let name = Vec::from_slice(alloc, name)?;
        drop(exchanges.insert(name, Exchange::standard(alloc, *kind))?);
    }
    Ok(exchanges)
}

impl ExchangeType {
    pub fn named(name: &[u8]) -> Option<ExchangeType> {
        if name == b"direct".as_slice() {
            Some(ExchangeType::Direct)
        } else if name == b"fanout".as_slice() {
            Some(ExchangeType::Fanout)
        } else if name == b"topic".as_slice() {
            Some(ExchangeType::Topic)
        } else if name == b"headers".as_slice() {
            Some(ExchangeType::Headers)
        } else {
            None
        }
    }
}

/// Sends messages to a queue, which has this number.
pub struct Binding {
    pub queue: u64,
    pub key: ShortStr,
    pub args: Table,
}

/// Written out, so that it is proved once.
impl Drop for Binding {
    fn drop(self) {
        let Binding {
            queue: _,
            key: _,
            args: _,
        } = self;
    }
}

impl Binding {
    /// Whether it is the same, in whatever order its arguments stand.
    fn is_same(&self, other: &Binding) -> bool {
        if self.queue != other.queue || self.key != other.key {
            return false;
        }
        for (name, value) in self.args.pairs() {
            if other.args.get(name.as_bytes()) != Some(value) {
                return false;
            }
        }
        self.args.len() == other.args.len()
    }
}

#[derive(Drop)]
pub struct Exchange {
    kind: ExchangeType,
    is_durable: bool,
    is_auto_deleted: bool,
    is_internal: bool,
    bindings: Vec<Binding>,
}

impl Exchange {
    /// One that is there from the start.
    fn standard(alloc: Global, kind: ExchangeType) -> Exchange {
        Exchange {
            kind,
            is_durable: true,
            is_auto_deleted: false,
            is_internal: false,
            bindings: Vec::new(alloc),
        }
    }

    /// One of this type that is declared so.
    pub fn declared(alloc: Global, kind: ExchangeType, declare: DeclareView<'_>) -> Exchange {
        Exchange {
            kind,
            is_durable: declare.durable,
            is_auto_deleted: declare.auto_delete,
            is_internal: declare.internal,
            bindings: Vec::new(alloc),
        }
    }

    /// Whether it was declared so.
    pub fn is_as(&self, declare: DeclareView<'_>) -> bool {
        ExchangeType::named(declare.type_name) == Some(self.kind)
            && self.is_durable == declare.durable
            && self.is_auto_deleted == declare.auto_delete
            && self.is_internal == declare.internal
    }

    /// Whether nobody may publish to it.
    pub fn is_internal(&self) -> bool {
        self.is_internal
    }

    pub fn is_bound(&self) -> bool {
        !self.bindings.is_empty()
    }

    /// Adds a binding, if it isn't there.
    pub fn bind(&mut self, binding: Binding) -> Result<(), AllocError> {
        for own in &self.bindings {
            if own.is_same(&binding) {
                return Ok(());
            }
        }
        self.bindings.push(binding)?;
        Ok(())
    }

    /// Removes a binding. It answers whether the exchange goes with its last one.
    pub fn unbind(&mut self, binding: &Binding) -> bool {
        let before = self.bindings.len();
        self.bindings.retain(|own| !own.is_same(binding));
        self.ends_after(before)
    }

    /// Removes the bindings of a queue, likewise.
    pub fn unbind_queue(&mut self, queue: u64) -> bool {
        let before = self.bindings.len();
        self.bindings.retain(|own| own.queue != queue);
        self.ends_after(before)
    }

    fn ends_after(&self, before: usize) -> bool {
        self.is_auto_deleted && before > 0 && self.bindings.is_empty()
    }

    /// The queues to which a message goes, each once.
    pub fn route(&self, alloc: Global, message: &Content) -> Result<Vec<u64>, AllocError> {
        let mut queues = Vec::new(alloc);
        for binding in &self.bindings {
            if self.takes(alloc, binding, message)? {
                queues.push(binding.queue)?;
            }
        }
        queues.sort_unstable();
        queues.dedup();
        Ok(queues)
    }

    fn takes(
        &self,
        alloc: Global,
        binding: &Binding,
        message: &Content,
    ) -> Result<bool, AllocError> {
        let key = &message.publish.routing_key;
        match self.kind {
            ExchangeType::Direct => Ok(binding.key == *key),
            ExchangeType::Fanout => Ok(true),
            ExchangeType::Topic => topic_matches(alloc, &binding.key, key),
            ExchangeType::Headers => {
                let headers = message.header.properties.headers.as_ref();
                headers_match(alloc, &binding.args, headers)
            }
        }
    }
}
