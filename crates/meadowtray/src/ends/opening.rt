//! Handles of ends: opened as a client or a server, with places for events, and closed.
ghost use Rattle.amqp_calls.specs.EndOpening.{OpensClient, OpensServer};
ghost use Rattle.amqp_calls.specs.Handles.{Closes};

use amqp_calls::ends::opening::{ClientSettings, ServerSettings, hold_client, hold_server};
use amqp_calls::handles::status;
use amqp_core::{Client, Server};
use amqp_handle::{EndSlot, HandleFault, HeldEnd};
use std::alloc::Global;

/// Opens a handle with a client that is set up so, as `End::new` makes it, or as `End::into_stream` makes it of that.
#[unsafe(no_mangle)]
pub extern "C" fn proved_client_open(
    slot: &mut EndSlot,
    alloc: Global,
    given: &ClientSettings<'_>,
) -> u32
    ensures { OpensClient slot.old.value given.now result slot.new.value }
{
    if slot.is_open() {
        return HandleFault::AlreadyOpen.number();
    }
    match hold_client(alloc, given) {
        Ok(held) => status(slot.open(alloc, held)),
        Err(fault) => fault.number(),
    }
}

/// Opens a handle with a server that is set up so.
#[unsafe(no_mangle)]
pub extern "C" fn proved_server_open(
    slot: &mut EndSlot,
    alloc: Global,
    given: &ServerSettings<'_>,
) -> u32
    ensures { OpensServer slot.old.value given.now result slot.new.value }
{
    if slot.is_open() {
        return HandleFault::AlreadyOpen.number();
    }
    match hold_server(alloc, given) {
        Ok(held) => status(slot.open(alloc, held)),
        Err(fault) => fault.number(),
    }
}

/// Closes the handle of an end, and frees what it held.
#[unsafe(no_mangle)]
pub extern "C" fn proved_end_close(slot: &mut EndSlot, alloc: Global) -> u32
    ensures { Closes slot.old.value result slot.new.value }
{
    status(slot.close(alloc))
}
