//! What was wrong with the octets with which an end found fault.
ghost use Rattle.std.specs.Prelude.{◌≡◌};
ghost use Rattle.amqp_core.specs.Faults.Blamed.{code_there};
ghost use Rattle.amqp_core.specs.Stream.View.{counters_of};
ghost use Rattle.amqp_calls.specs.EndAnswers.{kind_told};
ghost use Rattle.amqp_calls.specs.Blaming.{code_number, field_place, field_told, frame_told, TellsBlame, ToldBlame, WritesLine, WritesLineOf};

use crate::codec::methods::number_of;
use crate::codec::statuses::{NOT_THERE, method_fault};
use crate::codec::writing::{WriteFault, Written, put, tell};
use crate::ends::numbers::rule_of;
use amqp_core::{Blame, CloseCode, Role, StreamEnd};
use amqp_frame::FrameKind;
use amqp_handle::Kept;
use amqp_method::{Kind, MethodFault};
use std::alloc::Global;

/// What was wrong, as it crosses to C.
///
/// `octet` is the place in the stream where the frame or the protocol header at fault begins. `frame` is the frame's
/// type octet, or 0 where no frame is whole; `channel` and `method` are that frame's. Where a method or a header can't
/// be read, `field` is the status of what is wrong with it, and `field_at` its place in the payload. `code` is that of
/// the close, or 0, and `rule` the number of the rule that was broken.
#[repr(C)]
#[derive(Clone, Copy)]
pub struct BlameTold {
    pub octet: u64,
    pub field_at: usize,
    pub field: u32,
    pub method: u32,
    pub channel: u16,
    pub code: u16,
    pub frame: u8,
    pub rule: u8,
}

/// The type octet of a frame, or 0.
fn octet_of(frame: Option<FrameKind>) -> u8
    ensures { result ≡ frame_told frame }
{
    match frame {
        Some(frame) => frame.octet(),
        None => 0,
    }
}

/// The number of a method's kind, or 0.
fn method_of(method: Option<Kind>) -> u32
    ensures { result ≡ kind_told method }
{
    match method {
        Some(kind) => number_of(kind),
        None => 0,
    }
}

/// The number of a close's code, or 0.
fn code_of(code: Option<CloseCode>) -> u16
    ensures { result ≡ code_number (code_there code) }
{
    match code {
        Some(code) => code.number(),
        None => 0,
    }
}

/// The status of what is wrong with a method or a header, or 0.
fn fault_of(field: Option<MethodFault>) -> u32
    ensures { result ≡ field_told field }
{
    match field {
        Some(fault) => method_fault(fault.kind),
        None => 0,
    }
}

/// Where it is wrong, or 0.
fn place_of(field: Option<MethodFault>) -> usize
    ensures { result ≡ field_place field }
{
    match field {
        Some(fault) => fault.at,
        None => 0,
    }
}

fn told(blame: &Blame) -> BlameTold
    ensures { TellsBlame blame.now result }
{
    BlameTold {
        octet: blame.octet,
        field_at: place_of(blame.field),
        field: fault_of(blame.field),
        method: method_of(blame.method),
        channel: blame.channel.unwrap_or(0),
        code: code_of(blame.code()),
        frame: octet_of(blame.frame),
        rule: rule_of(blame.rule),
    }
}

/// Tells what an end blames, if it blames something.
pub fn tell_blame<R: Role>(kept: &Kept<StreamEnd<R>>, out: &mut BlameTold) -> u32
    ensures { ToldBlame (counters_of kept.now.end.value) result out.new }
{
    let end = &*kept.end;
    match end.blame() {
        Some(blame) => {
            *out = told(blame);
            0
        }
        None => NOT_THERE,
    }
}

/// Writes the line of what was wrong.
fn write_line(alloc: Global, blame: &Blame, room: &mut [u8]) -> Result<usize, WriteFault>
    ensures { WritesLine room.old result room.new }
{
    let Ok(line) = format!(in alloc; "{blame}") else {
        return Err(WriteFault::OutOfMemory);
    };
    put(line.as_bytes(), room)
}

/// Writes the line of what an end blames, if it blames something.
pub fn write_blame<R: Role>(
    alloc: Global,
    kept: &Kept<StreamEnd<R>>,
    room: &mut [u8],
    out: &mut Written,
) -> u32
    ensures { WritesLineOf (counters_of kept.now.end.value) room.old result out.new room.new }
{
    let end = &*kept.end;
    match end.blame() {
        Some(blame) => tell(write_line(alloc, blame, room), out),
        None => NOT_THERE,
    }
}
