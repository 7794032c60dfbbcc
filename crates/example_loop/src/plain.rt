//! Methods that no content follows.
ghost use Rattle.std.specs.Prelude.{◌≡◌, IfOk};
ghost use Rattle.amqp_method.specs.Messages.{letter_alone};
ghost use Rattle.amqp_method.specs.MessageView.{message_view};
ghost use Rattle.amqp_method.specs.MethodRefView.{lent_call};

use amqp_core::{AskFault, Role, StreamEnd};
use amqp_method::{Message, Method, MethodRef};
use std::alloc::Global;

/// The message of a method that no content follows.
pub fn alone(alloc: Global, method: MethodRef<'_>) -> anyhow::Result<Message>
    ensures { IfOk result (λ message. message_view message ≡ letter_alone (lent_call method.entry)) }
{
    if method.has_content() {
        return Err(AskFault::NotSendable.into());
    }
    Ok(Message::plain(method.to_owned(alloc)?))
}

/// Sends a method that no content follows. One that answers a request isn't sent where no answer is wanted.
pub fn send_plain<R: Role>(
    end: &mut StreamEnd<R>,
    channel: u16,
    method: Method,
) -> Result<(), AskFault> {
    if method.kind().is_reply() && end.reply_due(channel).is_none() {
        return Ok(());
    }
    if method.has_content() {
        return Err(AskFault::NotSendable);
    }
    let message = Message::plain(method);
    let sent = end.send(channel, &message);
    drop(message);
    sent
}

/// Admits what the peer asks for in the handshake, and forgets what it said.
pub fn let_in<R: Role>(end: &mut StreamEnd<R>) -> Result<(), AskFault> {
    end.forget_heard();
    end.admit()
}
