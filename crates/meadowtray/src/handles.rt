//! Handles of every kind: whether one is open, and closing it.
ghost use Rattle.amqp_calls.specs.Handles.{Closes};
ghost use Rattle.std.specs.Prelude.{is_some, ◌≡◌};

use amqp_calls::handles::status;
use amqp_handle::Slot;
use std::alloc::Global;

/// Closes a handle, and frees what it held.
#[unsafe(no_mangle)]
pub extern "C" fn proved_close(slot: &mut Slot, alloc: Global) -> u32
    ensures { Closes slot.old.value result slot.new.value }
{
    status(slot.close(alloc))
}

/// Whether a handle is open: 1, or 0.
#[unsafe(no_mangle)]
pub extern "C" fn proved_is_open(slot: &mut Slot) -> bool
    ensures open { result ≡ is_some slot.old.value }
    ensures same { slot.new.value ≡ slot.old.value }
{
    slot.is_open()
}
