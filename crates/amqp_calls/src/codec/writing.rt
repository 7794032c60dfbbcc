//! The report of a write, as it crosses to C, and octets put into its room.
ghost use Rattle.std.specs.Prelude.{◌≡◌, ◌<◌, length, IfOk, IfErr};
ghost use Rattle.amqp_calls.specs.declared.codec.writing.WriteFault.TheVariants.{Room};
ghost use Rattle.amqp_calls.specs.Writing.{PutInto, ToldWrite};

use crate::codec::statuses::{MISFIT, NO_ROOM, method_fault, value_fault};
use amqp_handle::HandleFault;
use amqp_method::MethodFaultKind;
use amqp_value::{ValueFault, ValueFaultKind};

/// Why something isn't written. The room is as it was.
#[derive(Clone, Copy)]
pub enum WriteFault {
    /// No method has the number of the kind.
    UnknownKind,
    /// The value at this place isn't one for its field, or there is one too few or too many.
    Misfit(usize),
    /// The octets of the value at this place, a table or an array, can't be read.
    Inside(usize, ValueFault),
    /// There is less room than octets.
    Room,
    /// A count passes 4294967295.
    TooLong,
    /// Memory was refused.
    OutOfMemory,
}

/// The report of a write: with status 0 how many octets stand in the room now. Otherwise `value` is the place of
/// the value that can't be written, and `at` the place in its octets if it is a table or an array.
#[repr(C)]
pub struct Written {
    pub length: usize,
    pub value: usize,
    pub at: usize,
}

/// Tells C what was written. The result is the status.
pub fn tell(written: Result<usize, WriteFault>, out: &mut Written) -> u32
    ensures { ToldWrite written result out.new }
{
    match written {
        Ok(length) => {
            out.length = length;
            0
        }
        Err(WriteFault::UnknownKind) => method_fault(MethodFaultKind::UnknownMethod),
        Err(WriteFault::Misfit(place)) => {
            out.value = place;
            MISFIT
        }
        Err(WriteFault::Inside(place, fault)) => {
            out.value = place;
            out.at = fault.at;
            value_fault(fault.kind)
        }
        Err(WriteFault::Room) => NO_ROOM,
        Err(WriteFault::TooLong) => value_fault(ValueFaultKind::TooLong),
        Err(WriteFault::OutOfMemory) => HandleFault::OutOfMemory.number(),
    }
}

/// Puts octets at the start of the room, if there is room for all.
pub(crate) fn put(octets: &[u8], room: &mut [u8]) -> Result<usize, WriteFault>
    ensures put { IfOk result (λ n. PutInto octets.now room.old n room.new) }
    ensures room { IfErr result (λ e. (e ≡ Room) × (length room.old < length octets.now) × (room.new ≡ room.old)) }
{
    if octets.len() > room.len() {
        return Err(WriteFault::Room);
    }
    room[..octets.len()].copy_from_slice(octets);
    Ok(octets.len())
}
