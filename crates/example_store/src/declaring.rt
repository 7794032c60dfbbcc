//! Exchanges: declared, deleted, bound.
use crate::exchanges::{Binding, Exchange, ExchangeType};
use crate::fault::{Done, Result};
use crate::messages::Content;
use crate::queues::QueueId;
use crate::store::{Answer, Place, Store, answer};
use amqp_method::reply;
use amqp_typed::{exchange, queue};
use amqp_value::{ShortStr, TableRef};

impl Store {
    /// Clients neither make nor delete what has no name, or one that begins so.
    pub fn check_not_reserved(&self, name: &[u8]) -> Done {
        if name.is_empty() || name.starts_with(b"amq.") {
            return self.refuse(reply::ACCESS_REFUSED, "reserved name", name);
        }
        Ok(())
    }

    /// Why there is no exchange of a name. Nothing is declared or bound at the one without a name.
    fn no_exchange<T>(&self, name: &[u8]) -> Result<T> {
        if name.is_empty() {
            return self.refuse(reply::ACCESS_REFUSED, "default exchange", b"");
        }
        self.refuse(reply::NOT_FOUND, "no exchange", name)
    }

    /// The queues to which a message goes, each once.
    pub fn route(&self, message: &Content) -> Result<Vec<QueueId>> {
        let name = message.publish.exchange.as_bytes();
        if name.is_empty() {
            let mut queues = Vec::new(self.alloc);
            if let Some(queue) = self.names.get(message.publish.routing_key.as_bytes()) {
                queues.push(*queue)?;
            }
            return Ok(queues);
        }
        match self.exchanges.get(name) {
            Some(exchange) if exchange.is_internal() => {
                self.refuse(reply::ACCESS_REFUSED, "internal exchange", name)
            }
            Some(exchange) => Ok(exchange.route(self.alloc, message)?),
            None => self.no_exchange(name),
        }
    }

    pub fn declare_exchange(&mut self, declare: exchange::DeclareView<'_>) -> Result<Answer> {
        let name = declare.exchange;
        match self.exchanges.get(name) {
            Some(_) if declare.passive => {}
            Some(own) if own.is_as(declare) => {}
            Some(_) => {
                let why = "declared otherwise: exchange";
                return self.refuse(reply::PRECONDITION_FAILED, why, name);
            }
            None if declare.passive => return self.no_exchange(name),
            None => self.make_exchange(declare)?,
        }
        answer(self.alloc, exchange::DeclareOk::new())
    }

    fn make_exchange(&mut self, declare: exchange::DeclareView<'_>) -> Done {
        self.check_not_reserved(declare.exchange)?;
        let Some(kind) = ExchangeType::named(declare.type_name) else {
            let (why, name) = ("unknown exchange type", declare.type_name);
            return self.refuse(reply::COMMAND_INVALID, why, name);
        };
        let name = Vec::from_slice(self.alloc, declare.exchange)?;
        let exchange = Exchange::declared(self.alloc, kind, declare);
        drop(self.exchanges.insert(name, exchange)?);
        Ok(())
    }

    pub fn delete_exchange(&mut self, delete: exchange::DeleteView<'_>) -> Result<Answer> {
        let name = delete.exchange;
        self.check_not_reserved(name)?;
        if delete.if_unused
            && let Some(exchange) = self.exchanges.get(name)
            && exchange.is_bound()
        {
            return self.refuse(reply::PRECONDITION_FAILED, "in use", name);
        }
        drop(self.exchanges.remove(name));
        answer(self.alloc, exchange::DeleteOk::new())
    }

    /// A binding of a queue. Where neither its name nor a key is given, the key is the name of the queue declared last.
    fn bound(&self, at: Place, name: &[u8], key: &[u8], args: TableRef<'_>) -> Result<Binding> {
        let queue = self.queue(at, name)?;
        let is_given = !name.is_empty() || !key.is_empty();
        let key = if is_given { key } else { queue.name.as_bytes() };
        let key = ShortStr::new(self.alloc, key)?;
        Ok(Binding {
            queue: queue.id,
            key,
            args: args.to_owned(self.alloc)?,
        })
    }

    pub fn bind_queue(&mut self, at: Place, bind: queue::BindView<'_>) -> Result<Answer> {
        let binding = self.bound(at, bind.queue, bind.routing_key, bind.arguments)?;
        self.add_binding(bind.exchange, binding)?;
        answer(self.alloc, queue::BindOk::new())
    }

    fn add_binding(&mut self, name: &[u8], binding: Binding) -> Done {
        match self.exchanges.get_mut(name) {
            Some(exchange) => Ok(exchange.bind(binding)?),
            None => self.no_exchange(name),
        }
    }

    pub fn unbind_queue(&mut self, at: Place, unbind: queue::UnbindView<'_>) -> Result<Answer> {
        let binding = self.bound(at, unbind.queue, unbind.routing_key, unbind.arguments)?;
        self.remove_binding(unbind.exchange, &binding)?;
        answer(self.alloc, queue::UnbindOk::new())
    }

    fn remove_binding(&mut self, name: &[u8], binding: &Binding) -> Done {
        let Some(exchange) = self.exchanges.get_mut(name) else {
            return self.no_exchange(name);
        };
        if exchange.unbind(binding) {
            drop(self.exchanges.remove(name));
        }
        Ok(())
    }
}
