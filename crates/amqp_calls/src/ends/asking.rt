//! What C asks of an end.
ghost use Rattle.std.specs.Prelude.{◌≡◌, Some, IfOk, IfErr};
ghost use Rattle.amqp_core.specs.Asks.View.{ask_view};
ghost use Rattle.amqp_calls.specs.EndAsks.{ask_given, AskedKept, AsksOne, NotAsk};

use crate::ends::messages::{Unmade, own_text};
use crate::ends::numbers::ask_fault;
use amqp_core::{Ask, Role, StreamEnd};
use amqp_handle::Kept;
use std::alloc::Global;

/// What is asked of an end, as C says it: its kind, and what an ask of that kind has.
///
/// 1 opens a channel; 2 asks for contents or no more of them; 3 closes a channel, 4 the connection, with a code and a
/// text; 5 says that a server takes no more contents, and why, and 6 that it takes them again. Messages are sent by
/// another call.
#[repr(C)]
pub struct GivenAsk<'a> {
    pub text: &'a [u8],
    pub channel: u16,
    pub code: u16,
    pub kind: u8,
    pub active: bool,
}

/// The ask that C gives, with memory of its own.
fn own_ask(alloc: Global, given: &GivenAsk<'_>) -> Result<Ask, Unmade>
    ensures ok { IfOk result (λ ask. ask_given given.now ≡ Some (ask_view ask)) }
    ensures err { IfErr result (λ e. NotAsk given.now e) }
{
    match given.kind {
        1 => Ok(Ask::Open),
        2 => Ok(Ask::Flow(given.channel, given.active)),
        3 => match own_text(alloc, given.text) {
            Ok(text) => Ok(Ask::CloseChannel(given.channel, given.code, text)),
            Err(fault) => Err(fault),
        },
        4 => match own_text(alloc, given.text) {
            Ok(text) => Ok(Ask::Close(given.code, text)),
            Err(fault) => Err(fault),
        },
        5 => match own_text(alloc, given.text) {
            Ok(text) => Ok(Ask::Blocked(text)),
            Err(fault) => Err(fault),
        },
        6 => Ok(Ask::Unblocked),
        _ => Err(Unmade::Misfit),
    }
}

/// Asks something of an end. The channel is that which an open takes.
fn put_ask<R: Role>(kept: &mut Kept<StreamEnd<R>>, ask: &Ask, channel: &mut u16) -> u32
    ensures { AskedKept kept.old (ask_view ask.now) result channel.new kept.new }
{
    match kept.end.ask(ask) {
        Ok(number) => {
            *channel = number.unwrap_or(0);
            0
        }
        Err(fault) => ask_fault(fault),
    }
}

/// Asks of an end what C gives.
pub fn ask_one<R: Role>(
    alloc: Global,
    kept: &mut Kept<StreamEnd<R>>,
    given: &GivenAsk<'_>,
    channel: &mut u16,
) -> u32
    ensures { AsksOne kept.old given.now result channel.new kept.new }
{
    match own_ask(alloc, given) {
        Ok(made) => {
            let answer = put_ask(kept, &made, channel);
            drop(made);
            answer
        }
        Err(fault) => fault.number(),
    }
}
