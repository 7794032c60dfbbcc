//! What the answers of a link keep to, whatever was done.
use crate::trouble::Trouble;
use amqp_core::Item;
use amqp_method::Kind;
use std::alloc::{AllocError, Global};

/// What the answers of a link keep to.
#[derive(Clone, Copy, Debug)]
pub(crate) enum Rule {
    /// A step is refused only for the reason that is so, and otherwise done.
    Answer,
    /// A refused step changes neither the tally nor what waits.
    RefusedSame,
    /// What is asked adds octets that wait, and what is carried takes so many away.
    Waiting,
    /// Each life that began is listed once each way, in order.
    Listed,
    /// A tally counts what was sent and acted on.
    Tally,
    /// What was acted on is a prefix of what was sent.
    Prefix,
    /// What was sent in a life is what was asked in it, beside the answers to flows.
    Sent,
    /// Nothing is sent or acted on in a life that hasn't begun.
    NoLife,
    /// No content but get-ok is sent in a pause.
    Pause,
    /// Replies answer requests in turn.
    Replies,
    /// Where all was carried, an end whose channel is open has acted on all that was sent.
    NoLoss,
}

/// The answers of a link keep to a rule if this is so.
pub(crate) fn check(is_so: bool, rule: Rule) -> Result<(), Trouble> {
    if is_so {
        Ok(())
    } else {
        Err(Trouble::Broken(rule))
    }
}

/// Whether the items begin with those of the first list.
pub(crate) fn is_prefix(items: &[Item], of: &[Item]) -> bool {
    items.len() <= of.len() && of.iter().zip(items).all(|(one, other)| *one == *other)
}

/// From the answer to a flow that asks for no contents until the answer to one that asks for them, none is sent but
/// get-ok.
pub(crate) fn keeps_pauses(items: &[Item]) -> bool {
    let mut is_paused = false;
    for item in items {
        match item {
            Item::FlowOk(active) => is_paused = !*active,
            Item::Flow(_) => {}
            Item::Message(message) => {
                let kind = message.method().kind();
                if is_paused && kind.has_content() && kind != Kind::BasicGetOk {
                    return false;
                }
            }
        }
    }
    true
}

/// The requests of the games, and the replies to them.
#[derive(Clone, Copy, PartialEq, Eq)]
enum Matter {
    Select,
    Declare,
    Get,
}

fn request(kind: Kind) -> Option<Matter> {
    match kind {
        Kind::TxSelect => Some(Matter::Select),
        Kind::QueueDeclare => Some(Matter::Declare),
        Kind::BasicGet => Some(Matter::Get),
        _ => None,
    }
}

fn reply(kind: Kind) -> Option<Matter> {
    match kind {
        Kind::TxSelectOk => Some(Matter::Select),
        Kind::QueueDeclareOk => Some(Matter::Declare),
        Kind::BasicGetOk | Kind::BasicGetEmpty => Some(Matter::Get),
        _ => None,
    }
}

fn kind_of(item: &Item) -> Option<Kind> {
    match item {
        Item::Message(message) => Some(message.method().kind()),
        Item::Flow(_) | Item::FlowOk(_) => None,
    }
}

/// What the requests in a list are about, in order.
fn requests(alloc: Global, items: &[Item]) -> Result<Vec<Matter>, AllocError> {
    let mut matters = Vec::new(alloc);
    for item in items {
        if let Some(matter) = kind_of(item).and_then(request) {
            matters.push(matter)?;
        }
    }
    Ok(matters)
}

/// What the replies in a list are about, in order.
fn replies(alloc: Global, items: &[Item]) -> Result<Vec<Matter>, AllocError> {
    let mut matters = Vec::new(alloc);
    for item in items {
        if let Some(matter) = kind_of(item).and_then(reply) {
            matters.push(matter)?;
        }
    }
    Ok(matters)
}

/// Whether the n-th reply answers the n-th request, and at most so many requests have no reply.
pub(crate) fn are_in_turn(
    alloc: Global,
    asked: &[Item],
    answered: &[Item],
    most: usize,
) -> Result<bool, AllocError> {
    let requests = requests(alloc, asked)?;
    let replies = replies(alloc, answered)?;
    Ok(requests.starts_with(&replies) && requests.len() <= replies.len().saturating_add(most))
}
