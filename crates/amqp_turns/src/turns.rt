//! The messages of one channel that wait for their turn.
ghost use Rattle.std.specs.Prelude.{◌≡◌, ◌==◌, ◌+◌, ◌++◌, ◌∷◌, [], length, drop, option_to_list, true, false, IfOk, IfErr, OnOk, OnErr, None};
ghost use Rattle.amqp_turns.specs.Advancing.{SendsInTurn};
ghost use Rattle.amqp_turns.specs.Sends.{Advances, IsNoReasonToWait, IsReasonToWait, IsRefusedFirst, Rests};
ghost use Rattle.amqp_turns.specs.TurnsView.{standing, waiting_in};

use amqp_core::{AskFault, End, Role};
use amqp_method::Message;
use std::alloc::{AllocFailed, Global};
use std::collections::VecDeque;

/// The messages of one channel that wait for their turn.
///
/// Push what is to be sent, and advance after each push and after each event of the channel: a reply lets the next
/// request go, and a flow that is lifted the next content.
///
///     turns.push(message)?;
///     turns.advance(&mut end)?;
///
/// Channels wait each for themselves: keep one for each channel that is in use, and drop it when the channel closes.
#[derive(Drop)]
pub struct Turns {
    channel: u16,
    /// the oldest first
    waiting: VecDeque<Message>,
}

impl Turns {
    /// Nothing waits on this channel yet.
    pub fn new(alloc: Global, channel: u16) -> Turns
        ensures channel { result.channel ≡ channel }
        ensures empty { waiting_in result ≡ [] }
    {
        Turns {
            channel,
            waiting: VecDeque::new(alloc),
        }
    }

    /// The channel on which it sends.
    pub fn channel(&self) -> u16
        ensures { result ≡ self.now.channel }
    {
        self.channel
    }

    /// How many messages wait.
    pub fn len(&self) -> usize
        ensures { result ≡ length (waiting_in self.now) }
    {
        self.waiting.len()
    }

    /// Whether no message waits.
    pub fn is_empty(&self) -> bool
        ensures { result ≡ (length (waiting_in self.now) == 0) }
    {
        self.waiting.is_empty()
    }

    /// Puts a message after those that wait. Where memory is refused the message comes back.
    pub fn push(&mut self, message: Message) -> Result<(), AllocFailed<Message>>
        ensures last { OnOk result (self.new.waiting.items ≡ self.old.waiting.items ++ message ∷ []) }
        ensures back { IfErr result (λ refused. refused.value ≡ message) }
        ensures same { OnErr result (waiting_in self.new ≡ waiting_in self.old) }
        ensures channel { self.new.channel ≡ self.old.channel }
    {
        self.waiting.push_back(message)
    }

    /// Takes the oldest message out without sending it.
    pub fn take_next(&mut self) -> Option<Message>
        ensures first { self.old.waiting.items ≡ option_to_list result ++ self.new.waiting.items }
        ensures none { result ≡ None → waiting_in self.old ≡ [] }
        ensures channel { self.new.channel ≡ self.old.channel }
    {
        self.waiting.pop_front()
    }

    /// Sends the oldest messages, in order, until the next has to wait or none is left, and answers how many.
    ///
    /// It waits while a request of this client is unanswered, or while the peer has paused the channel and it is a
    /// content. A message that is refused for any other reason stays first: [`Turns::take_next`] takes it out. What was
    /// sent before it has been sent.
    pub fn advance<R: Role>(&mut self, end: &mut End<R>) -> Result<usize, AskFault>
        ensures { SendsInTurn (standing self.old end.old) result (standing self.new end.new) }
    {
        let mut sent = 0;
        while self.send_next(end)? {
            sent += 1;
        }
        Ok(sent)
    }

    /// Sends the oldest message, if there is one and it may go now, and answers whether it did.
    fn send_next<R: Role>(&mut self, end: &mut End<R>) -> Result<bool, AskFault>
        ensures advances { Advances (standing self.old end.old) (standing self.new end.new) }
        ensures one { IfOk result (λ sent. sent ≡ true → 1 + length (waiting_in self.new)
            ≡ length (waiting_in self.old)) }
        ensures none { IfOk result (λ sent. sent ≡ false → waiting_in self.new ≡ waiting_in self.old) }
        ensures rests { IfOk result (λ sent. sent ≡ false → Rests (standing self.new end.new)) }
        ensures refused { IfErr result (λ fault. IsRefusedFirst fault (standing self.new end.new)) }
        ensures no_wait { IfErr result (λ fault. IsNoReasonToWait fault) }
    {
        let Some(next) = self.waiting.front() else {
            return Ok(false);
        };
        match end.send(self.channel, next) {
            Ok(()) => {
                drop_first(&mut self.waiting);
                Ok(true)
            }
            Err(fault) if may_go_later(fault) => Ok(false),
            Err(fault) => Err(fault),
        }
    }
}

/// Whether a message that is refused so only has to wait.
fn may_go_later(fault: AskFault) -> bool
    ensures wait { result ≡ true → IsReasonToWait fault }
    ensures none { result ≡ false → IsNoReasonToWait fault }
{
    fault == AskFault::ReplyPending || fault == AskFault::Paused
}

/// Drops the first of the messages.
fn drop_first(messages: &mut VecDeque<Message>)
    ensures { messages.new.items ≡ drop 1 messages.old.items }
{
    let _ = messages.pop_front();
}
