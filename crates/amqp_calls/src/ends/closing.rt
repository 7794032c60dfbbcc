//! Closes that name the method for which they are.
ghost use Rattle.std.specs.Prelude.{◌≡◌, Some, IfOk, IfErr};
ghost use Rattle.amqp_core.specs.Stream.Asks.{StreamAsked};
ghost use Rattle.amqp_calls.specs.Closing.{close_given, close_view, ClosedKept, ClosesKept, NotClose};

use crate::codec::written_methods::kind_of;
use crate::ends::messages::{Unmade, own_text};
use crate::ends::numbers::asked;
use amqp_core::{AskFault, Role, StreamEnd};
use amqp_handle::Kept;
use amqp_method::Kind;
use amqp_value::ShortStr;
use std::alloc::Global;

/// A close as C says it: of a channel, or of the connection, with a code and a text, for a method of the kind with this
/// number.
#[repr(C)]
pub struct GivenClose<'a> {
    pub text: &'a [u8],
    pub method: u32,
    pub channel: u16,
    pub code: u16,
    pub connection: bool,
}

/// The same, with memory for its text.
#[derive(Drop)]
pub(crate) enum Close {
    Channel(u16, u16, ShortStr, Kind),
    Connection(u16, ShortStr, Kind),
}

/// The close that C gives, with memory of its own.
fn own_close(alloc: Global, given: &GivenClose<'_>) -> Result<Close, Unmade>
    ensures ok { IfOk result (λ close. close_given given.now ≡ Some (close_view close)) }
    ensures err { IfErr result (λ e. NotClose given.now e) }
{
    let Some(kind) = kind_of(given.method) else {
        return Err(Unmade::Misfit);
    };
    match own_text(alloc, given.text) {
        Ok(text) => {
            if given.connection {
                return Ok(Close::Connection(given.code, text, kind));
            }
            Ok(Close::Channel(given.channel, given.code, text, kind))
        }
        Err(fault) => Err(fault),
    }
}

/// Puts a close.
fn put<R: Role>(end: &mut StreamEnd<R>, close: &Close) -> Result<(), AskFault>
    ensures { StreamAsked end.old (close_view close.now) result end.new }
{
    match close {
        Close::Channel(channel, code, text, kind) => {
            end.close_channel_for(*channel, *code, text, *kind)
        }
        Close::Connection(code, text, kind) => end.close_for(*code, text, *kind),
    }
}

/// Puts a close at the end that is kept.
fn close_kept<R: Role>(kept: &mut Kept<StreamEnd<R>>, close: &Close) -> u32
    ensures { ClosedKept kept.old (close_view close.now) result kept.new }
{
    asked(put(&mut *kept.end, close))
}

/// Puts the close that C gives.
pub fn close_one<R: Role>(
    alloc: Global,
    kept: &mut Kept<StreamEnd<R>>,
    given: &GivenClose<'_>,
) -> u32
    ensures { ClosesKept kept.old given.now result kept.new }
{
    match own_close(alloc, given) {
        Ok(close) => {
            let answer = close_kept(kept, &close);
            drop(close);
            answer
        }
        Err(fault) => fault.number(),
    }
}
