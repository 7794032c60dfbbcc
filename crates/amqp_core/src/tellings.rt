//! What an end told its application, and what it said to the other end: items, each in a life of its channel.
ghost use Rattle.std.specs.Prelude.{◌≡◌, IfOk, OnErr};
ghost use Rattle.amqp_model.specs.Stream.Traces.{item_in_event};
ghost use Rattle.amqp_channel.specs.Events.PartsView.{parts_there};
ghost use Rattle.amqp_core.specs.Traced.NotedAsks.{item_asked};
ghost use Rattle.amqp_core.specs.Asks.View.{lent_view};
ghost use Rattle.amqp_core.specs.End.Feeding.{IsMessage};
ghost use Rattle.amqp_core.specs.Traced.Notes.{item_there, item_view};

use crate::asks::LentAsk;
use crate::faults::OutOfMemory;
use amqp_channel::EventParts;
use amqp_method::Message;
use std::alloc::Global;

/// What an application sends or receives on a channel.
#[derive(PartialEq, Eq, Debug, Drop)]
pub enum Item {
    /// A method without content, or a whole content.
    Message(Message),
    Flow(bool),
    FlowOk(bool),
}

/// An item with its channel, and with the life of the channel that it belongs to, counted from 1.
#[derive(PartialEq, Eq, Debug, Drop)]
pub struct Telling {
    pub channel: u16,
    pub life: u64,
    pub item: Item,
}

/// An equal message.
fn copied(message: &Message) -> Result<Item, OutOfMemory>
    ensures { IfOk result (λ item. item_view item ≡ item_view (Item.Message message.now)) }
{
    let message = message.copy()?;
    Ok(Item::Message(message))
}

impl Item {
    /// An equal item.
    pub fn copy(&self) -> Result<Item, OutOfMemory>
        ensures { IfOk result (λ item. item_view item ≡ item_view self.now) }
    {
        match self {
            Item::Message(message) => copied(message),
            Item::Flow(active) => Ok(Item::Flow(*active)),
            Item::FlowOk(active) => Ok(Item::FlowOk(*active)),
        }
    }

    /// The item that an ask says, if it says one.
    pub(crate) fn of_ask(ask: LentAsk<'_>, alloc: Global) -> Result<Option<Item>, OutOfMemory>
        ensures { IfOk result (λ item. item_there item ≡ item_asked (lent_view ask.entry)) }
    {
        match ask {
            LentAsk::Send(_, message) => {
                let message = message.copy(alloc)?;
                Ok(Some(Item::Message(message)))
            }
            LentAsk::Flow(_, active) => Ok(Some(Item::Flow(active))),
            LentAsk::Open
            | LentAsk::CloseChannel(_, _, _, _)
            | LentAsk::Close(_, _, _)
            | LentAsk::Blocked(_)
            | LentAsk::Unblocked => Ok(None),
        }
    }

    /// The item of an event with these parts, if it tells one. Only a message takes memory.
    pub(crate) fn of_parts(parts: &Option<EventParts>) -> Result<Option<Item>, OutOfMemory>
        ensures item { IfOk result (λ item. item_there item ≡ item_in_event (parts_there parts.now)) }
        ensures err { OnErr result (IsMessage (parts_there parts.now)) }
    {
        match parts {
            Some(EventParts::Method(_, method)) => {
                let message = method.copy_message()?;
                Ok(Some(Item::Message(message)))
            }
            Some(EventParts::Content(_, content)) => {
                let message = content.copy_message()?;
                Ok(Some(Item::Message(message)))
            }
            Some(EventParts::Flow(_, active)) => Ok(Some(Item::Flow(*active))),
            Some(EventParts::FlowOk(_, active)) => Ok(Some(Item::FlowOk(*active))),
            Some(
                EventParts::AnswerAsked
                | EventParts::LoginAsked
                | EventParts::OpenAsked
                | EventParts::Negotiated(_)
                | EventParts::Opened(_)
                | EventParts::ChannelClosed(_, _)
                | EventParts::ConnectionClosed(_)
                | EventParts::Discarded(_)
                | EventParts::Blocked(_)
                | EventParts::Unblocked
                | EventParts::Quiet,
            ) => Ok(None),
            None => Ok(None),
        }
    }
}
