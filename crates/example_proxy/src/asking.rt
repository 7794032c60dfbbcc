//! What one side of a relay asks of the other: what an event there asks for, and the channels on which asks wait.
ghost use Rattle.std.specs.Prelude.{◌≡◌, ◌+◌, ◌++◌, ◌∷◌, [], Some, length, true, false, IfOk, OnOk};
ghost use Rattle.amqp_core.specs.Stream.EventRefView.{event_ref_view};
ghost use Rattle.example_loop.specs.Gathering.{content_there, gathered};
ghost use Rattle.example_proxy.specs.Advancing.{Advances, Rests, partner_after};
ghost use Rattle.example_loop.specs.AskingView.{ask_there, asking_view};
ghost use Rattle.example_proxy.specs.Passing.{after, asked, sent};

use amqp_core::{Ask, AskFault, EventRef, Role, StreamEnd};
use amqp_method::reply;
use amqp_value::ShortStr;
use example_loop::{Asking, Coming, Content, Heard, alone, may_go_later};
use std::alloc::{AllocError, Global};
use std::collections::VecDeque;

pub type Asked = anyhow::Result<Option<Asking>>;

/// What an event asks of the other side, if anything, where its channel has this number there.
pub fn asked_by(alloc: Global, coming: &mut Coming, partner: u16, heard: &Heard<'_>) -> Asked
    ensures asked { IfOk result (λ ask. ask_there ask
        ≡ asked partner heard.now.about (gathered coming.old) (event_ref_view heard.now.event)) }
    ensures after { OnOk result (gathered coming.new
        ≡ after (gathered coming.old) (event_ref_view heard.now.event)) }
{
    let ask = match heard.event {
        EventRef::Method(_, method) => Ask::Send(partner, alone(alloc, method)?),
        EventRef::Begins(_, method) => {
            coming.begin(alloc, method)?;
            return Ok(None);
        }
        EventRef::Heads(_, head, whole) => return sent(partner, coming.head(alloc, head, whole)?),
        EventRef::Part(_, part, whole) => return sent(partner, coming.add(alloc, part, whole)?),
        EventRef::Flow(_, active) => Ask::Flow(partner, active),
        EventRef::ChannelClosed(_, Some(reason)) => {
            Ask::CloseChannel(partner, reason.code, ShortStr::new(alloc, reason.text)?)
        }
        // an end closes a channel of itself where a content is too large
        EventRef::Discarded(_) => {
            let text = ShortStr::new(alloc, b"CONTENT_TOO_LARGE")?;
            let ask = Ask::CloseChannel(partner, reply::CONTENT_TOO_LARGE, text);
            return Ok(Some(Asking::Plain(ask, None)));
        }
        EventRef::ConnectionClosed(Some(reason)) => {
            Ask::Close(reason.code, ShortStr::new(alloc, reason.text)?)
        }
        EventRef::Blocked(reason) => Ask::Blocked(ShortStr::new(alloc, reason)?),
        EventRef::Unblocked => Ask::Unblocked,
        _ => return Ok(None),
    };
    Ok(Some(Asking::Plain(ask, heard.about)))
}

fn sent(partner: u16, content: Option<Content>) -> Asked
    ensures { IfOk result (λ ask. ask_there ask ≡ sent partner (content_there content)) }
{
    match content {
        Some(content) => Ok(Some(Asking::Content(partner, content))),
        None => Ok(None),
    }
}

/// A channel of one side. Number 0 stands for the connection.
#[derive(Drop)]
pub struct Channel {
    /// its number at the other side, until either is to be closed
    pub partner: Option<u16>,
    pub coming: Coming,
    /// what its end is still to be asked, the oldest first: it isn't open yet, is paused, or owes a reply
    pub waiting: VecDeque<Asking>,
    /// about how many octets that takes
    pub octets: usize,
}

impl Channel {
    ghost use Rattle.example_proxy.specs.ChannelView.{standing, waiting_in};

    pub fn new(alloc: Global, partner: u16) -> Channel
        ensures partner { result.partner ≡ Some partner }
        ensures empty { waiting_in result ≡ [] }
    {
        Channel {
            partner: Some(partner),
            coming: Coming::new(),
            waiting: VecDeque::new(alloc),
            octets: 0,
        }
    }

    /// Puts an ask after those that wait. With a close the channel loses its partner, and what is gathered of it.
    pub fn push(&mut self, asking: Asking) -> Result<(), AllocError>
        ensures last { OnOk result (waiting_in self.new ≡ waiting_in self.old ++ asking_view asking ∷ []) }
        ensures partner { OnOk result (self.new.partner ≡ partner_after (asking_view asking) self.old.partner) }
    {
        if asking.closes() {
            self.partner = None;
            self.coming = Coming::new();
        }
        self.octets = self.octets.saturating_add(asking.octets());
        self.waiting.push_back(asking)?;
        Ok(())
    }

    /// Asks what waits, in order, until the end refuses an ask for now or none is left; a close only if it may go.
    pub fn advance<R: Role>(&mut self, end: &mut StreamEnd<R>, closes: bool) -> Result<(), AskFault>
        ensures advances { Advances (standing self.old end.old) (standing self.new end.new) }
        ensures rests { closes ≡ true → OnOk result (Rests (standing self.new end.new)) }
    {
        'asks: while self.ask_next(end, closes)? {}
        Ok(())
    }

    /// Asks the oldest, if there is one and it may go now, and answers whether it did.
    fn ask_next<R: Role>(&mut self, end: &mut StreamEnd<R>, closes: bool) -> Result<bool, AskFault>
        ensures advances { Advances (standing self.old end.old) (standing self.new end.new) }
        ensures one { IfOk result (λ went. went ≡ true → 1 + length (waiting_in self.new)
            ≡ length (waiting_in self.old)) }
        ensures rests { closes ≡ true → IfOk result (λ went. went ≡ false → Rests (standing self.new end.new)) }
    {
        if !closes && self.waiting.front().is_some_and(Asking::closes) {
            return Ok(false);
        }
        let Some(mut next) = self.waiting.pop_front() else {
            return Ok(false);
        };
        let octets = next.octets();
        let Err(fault) = next.put(end) else {
            self.octets = self.octets.saturating_sub(octets);
            drop(next);
            return Ok(true);
        };
        self.waiting.push_front_reserved(next);
        if may_go_later(fault) {
            return Ok(false);
        }
        Err(fault)
    }
}
