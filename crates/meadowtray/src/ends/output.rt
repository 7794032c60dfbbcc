//! The output of the end of a handle.
ghost use Rattle.amqp_calls.specs.EndAnswers.{OutputOfEnd, WritesEnd};

use amqp_calls::ends::output::{end_output, wrote};
use amqp_handle::{EndSlot, HandleFault, HeldEnd};

/// Lends the octets that are to be sent next.
#[unsafe(no_mangle)]
pub extern "C" fn proved_end_output<'a>(slot: &'a mut EndSlot, out: &mut &'a [u8]) -> u32
    ensures { OutputOfEnd slot.old.value result out.new.now }
{
    if !slot.is_open() {
        return HandleFault::NotOpen.number();
    }
    *out = end_output(slot);
    0
}

/// So many octets of the output were sent.
#[unsafe(no_mangle)]
pub extern "C" fn proved_end_wrote(slot: &mut EndSlot, octets: usize) -> u32
    ensures { WritesEnd slot.old.value octets result slot.new.value }
{
    if !slot.is_open() {
        return HandleFault::NotOpen.number();
    }
    match slot.held() {
        HeldEnd::Client(kept) => wrote(kept, octets),
        HeldEnd::Server(kept) => wrote(kept, octets),
    }
}
