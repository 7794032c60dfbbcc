//! What the other end said in the handshake, and what its last close was about.
ghost use Rattle.amqp_method.specs.MethodView.{method_view};
ghost use Rattle.amqp_core.specs.Heard.View.{kept_of_kind};
ghost use Rattle.amqp_core.specs.Stream.View.{heard_in};
ghost use Rattle.amqp_calls.specs.Hearing.{Forgets, TellsCause, WritesCall, WritesHeard, WritesKind};
ghost use Rattle.amqp_calls.specs.Writing.{kind_numbered};

use crate::codec::statuses::{NOT_THERE, method_fault};
use crate::codec::writing::{WriteFault, Written, put, tell};
use crate::codec::written_methods::{encoded, kind_of};
use amqp_core::{Role, StreamEnd};
use amqp_handle::Kept;
use amqp_method::{Kind, Method, MethodFaultKind};
use std::alloc::Global;

/// What a close was about, as it crosses to C: both 0 where it names no method.
#[repr(C)]
#[derive(Clone, Copy)]
pub struct CauseTold {
    pub class_id: u16,
    pub method_id: u16,
}

/// Writes the payload of a method at the start of the room.
fn write_call(alloc: Global, method: &Method, room: &mut [u8]) -> Result<usize, WriteFault>
    ensures { WritesCall (method_view method.now) room.old result room.new }
{
    match encoded(alloc, method) {
        Ok(octets) => put(&octets, room),
        Err(fault) => Err(fault),
    }
}

/// Writes what an end keeps of this kind, if it keeps one.
fn write_heard<R: Role>(
    alloc: Global,
    kept: &Kept<StreamEnd<R>>,
    kind: Kind,
    room: &mut [u8],
    out: &mut Written,
) -> u32
    ensures { WritesHeard (kept_of_kind kind (heard_in kept.now.end.value).methods) room.old result out.new room.new }
{
    let end = &*kept.end;
    match end.heard(kind) {
        Some(method) => tell(write_call(alloc, method, room), out),
        None => NOT_THERE,
    }
}

/// Writes what an end keeps of the kind with this number.
pub fn write_kind<R: Role>(
    alloc: Global,
    kept: &Kept<StreamEnd<R>>,
    number: u32,
    room: &mut [u8],
    out: &mut Written,
) -> u32
    ensures { WritesKind (kind_numbered number) (heard_in kept.now.end.value).methods room.old result out.new room.new }
{
    match kind_of(number) {
        Some(kind) => write_heard(alloc, kept, kind, room, out),
        None => method_fault(MethodFaultKind::UnknownMethod),
    }
}

pub fn forget<R: Role>(kept: &mut Kept<StreamEnd<R>>)
    ensures { Forgets kept.old kept.new }
{
    kept.end.forget_heard();
}

/// Tells what the last close of the other end was about, if it closed something.
pub fn tell_cause<R: Role>(kept: &Kept<StreamEnd<R>>, out: &mut CauseTold) -> u32
    ensures { TellsCause (heard_in kept.now.end.value).cause result out.new }
{
    let end = &*kept.end;
    match end.closed_for() {
        Some(cause) => {
            *out = CauseTold {
                class_id: cause.class_id,
                method_id: cause.method_id,
            };
            0
        }
        None => NOT_THERE,
    }
}
