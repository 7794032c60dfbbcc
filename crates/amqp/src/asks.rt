//! What the program's clients ask of their ends, on the one channel that they open. What is asked is made, asked and
//! let go here.
ghost use Rattle.std.specs.Prelude.{◌≡◌, true, IfOk};
ghost use Rattle.amqp_method.specs.Kinds.{has_content};
ghost use Rattle.amqp_method.specs.MethodView.{method_view};

use crate::printing::Stop;
use crate::words::short;
use amqp_core::{Ask, Role};
use amqp_io::{Session, Stream};
use amqp_method::{Arg, Kind, Message, Method, OutOfMemory};
use amqp_value::ShortStr;
use std::alloc::Global;

/// The channel on which contents are published: the first that a client opens.
pub const CHANNEL: u16 = 1;

/// The code of an ordinary close, and its name in the standard.
const REPLY_SUCCESS: u16 = 200;

const REPLY_SUCCESS_TEXT: &[u8] = b"reply-success";

/// Asks it of the session's end.
pub fn ask<R: Role, S: Stream>(session: &mut Session<R, S>, ask: &Ask) -> Result<(), Stop> {
    match session.ask(ask) {
        Ok(_) => Ok(()),
        Err(fault) => Err(Stop::from(fault)),
    }
}

/// Asks it of the session's end, and lets it go.
fn ask_once<R: Role, S: Stream>(session: &mut Session<R, S>, once: Ask) -> Result<(), Stop> {
    let asked = ask(session, &once);
    drop(once);
    asked
}

/// Opens the channel.
pub fn open_channel<R: Role, S: Stream>(session: &mut Session<R, S>) -> Result<(), Stop> {
    ask_once(session, Ask::Open)
}

/// Closes the channel.
pub fn close_channel<R: Role, S: Stream>(
    alloc: Global,
    session: &mut Session<R, S>,
) -> Result<(), Stop> {
    let text = short(alloc, REPLY_SUCCESS_TEXT)?;
    ask_once(session, Ask::CloseChannel(CHANNEL, REPLY_SUCCESS, text))
}

/// Closes the connection.
pub fn close_connection<R: Role, S: Stream>(
    alloc: Global,
    session: &mut Session<R, S>,
) -> Result<(), Stop> {
    let text = short(alloc, REPLY_SUCCESS_TEXT)?;
    ask_once(session, Ask::Close(REPLY_SUCCESS, text))
}

/// Asks the server to confirm what is published.
pub fn select_confirms<R: Role, S: Stream>(
    alloc: Global,
    session: &mut Session<R, S>,
) -> Result<(), Stop> {
    let select = select_method(alloc)?;
    ask_once(session, Ask::Send(CHANNEL, select))
}

fn select_method(alloc: Global) -> Result<Message, OutOfMemory> {
    let args = vec![in alloc; Arg::Bit(false)]?;
    Ok(Message::plain(Method::new(Kind::ConfirmSelect, args)))
}

/// Asks the server for something that changes nothing: any number of unconfirmed deliveries. Once it answers, it has
/// done what was sent on the channel before.
pub fn ask_back<R: Role, S: Stream>(
    alloc: Global,
    session: &mut Session<R, S>,
) -> Result<(), Stop> {
    let unlimited = qos_method(alloc)?;
    ask_once(session, Ask::Send(CHANNEL, unlimited))
}

fn qos_method(alloc: Global) -> Result<Message, OutOfMemory> {
    let args = vec![in alloc; Arg::Long(0), Arg::Short(0), Arg::Bit(false)]?;
    Ok(Message::plain(Method::new(Kind::BasicQos, args)))
}

/// The method that publishes a content. One that is mandatory comes back where no queue takes it.
pub fn publish(
    alloc: Global,
    exchange: ShortStr,
    key: ShortStr,
    mandatory: bool,
) -> Result<Method, OutOfMemory>
    ensures { IfOk result (λ method. has_content (method_view method).kind ≡ true) }
{
    let exchange = Arg::ShortStr(exchange);
    let key = Arg::ShortStr(key);
    let args = vec![in alloc; exchange, key, Arg::Bit(mandatory), Arg::Bit(false)]?;
    Ok(Method::new(Kind::BasicPublish, args))
}
