//! The room that a C program keeps for the handle of an end.
ghost use Rattle.std.specs.Prelude.{◌≡◌, Bool, true, Option, Some, None, is_some, IfOk, IfErr, ◌≢◌};
ghost use Rattle.std.proofs.Common.{ap, sym};
ghost use Rattle.std.specs.Coded.{codes};
ghost use Rattle.amqp_handle.specs.contracts.kept.HeldEnd as kept_value;
ghost use Rattle.amqp_handle.specs.declared.kept.HeldEnd.{HeldEnd};
ghost use Rattle.amqp_handle.specs.EndSlots.{EndHandle, slot_owns, held_coded};

use crate::faults::HandleFault;
use crate::kept::HeldEnd;
use std::alloc::Global;
use std::marker::Model;
use std_alloc::room::Vacant;

/// The room that a C program keeps for the handle of an end: all octets 0 before it is opened, and while it is
/// closed.
///
/// To drop a slot that is open frees nothing: [`EndSlot::close`] does.
#[repr(C)]
#[derive(Drop)]
pub struct EndSlot {
    at: *mut u8,
    is_open: bool,
    ghost value: { Option HeldEnd } by { held_coded },
}

impl Model for EndSlot {
    ghost Value = { EndHandle };

    ghost coded = { Prim.hlevel (codes, kept_value.the_row.coded) };

    ghost view = { λ s. record { at = s.at; value = s.value } };

    ghost invariant = { λ s. s.is_open ≡ is_some s.value };

    ghost inverse = { λ h. record { at = h.at; is_open = is_some h.value; value = h.value } };

    ghost inverse_ok = { λ s is. ap (λ (y : Bool). record { at = s.at; is_open = y; value = s.value }) (sym is) };

    ghost also_owns = { λ s. slot_owns s.at s.value };
}

impl EndSlot {
    ghost use Rattle.std.specs.Borrow.{sem};
    ghost use Rattle.amqp_handle.specs.EndLending.{Follows};
    ghost use Rattle.amqp_handle.specs.Opening.{RefusesOpen};
    ghost use Rattle.amqp_handle.specs.declared.faults.HandleFault.TheVariants.{NotOpen};

    /// Whether the slot is open.
    pub fn is_open(&mut self) -> bool
        ensures { (result ≡ is_some self.old.value) × (self.new ≡ self.old) }
    {
        self.is_open
    }

    /// Keeps a value in a slot that is closed, in room that was made for it.
    fn put(&mut self, room: Vacant<HeldEnd, Global>, held: HeldEnd)
        requires { self.old.value ≡ None }
        ensures { self.new.value ≡ Some held }
    {
        let Vacant { ptr, alloc: _ } = room;
        unsafe {
            ptr.write(held);
        }
        self.at = ptr as *mut u8;
        self.is_open = true;
    }

    /// Takes what an open slot holds, and the room where it stood. The slot is closed.
    fn take(&mut self, alloc: Global) -> (HeldEnd, Vacant<HeldEnd, Global>)
        requires { is_some self.old.value ≡ true }
        ensures { (Some result.0 ≡ self.old.value) × (self.new.value ≡ None) }
    {
        let ptr = self.at as *mut HeldEnd;
        self.is_open = false;
        let held = unsafe { ptr.read() };
        (held, Vacant { ptr, alloc })
    }

    /// What the slot holds.
    pub fn held(&mut self) -> &mut HeldEnd
        requires { is_some self.old.value ≡ true }
        ensures* follows { sem 𝓛 (Follows self.entry result) }
        ensures value { Some result.now ≡ self.old.value }
    {
        unsafe { &mut *(self.at as *mut HeldEnd) }
    }

    /// Opens the slot, so that it holds this. One that is open stays as it is.
    pub fn open(&mut self, alloc: Global, held: HeldEnd) -> Result<(), HandleFault>
        ensures opened { IfOk result (λ _. (self.old.value ≡ None) × (self.new.value ≡ Some held)) }
        ensures refused { IfErr result (λ fault. RefusesOpen fault self.old.value × (self.new ≡ self.old)) }
    {
        if self.is_open() {
            return Err(HandleFault::AlreadyOpen);
        }
        let Ok(room) = Vacant::take(alloc) else {
            return Err(HandleFault::OutOfMemory);
        };
        self.put(room, held);
        Ok(())
    }

    /// Closes the slot, and frees what it held.
    pub fn close(&mut self, alloc: Global) -> Result<(), HandleFault>
        ensures closed { IfOk result (λ _. (self.old.value ≢ None) × (self.new.value ≡ None)) }
        ensures refused { IfErr result (λ fault. (fault ≡ NotOpen) × (self.old.value ≡ None) × (self.new ≡ self.old)) }
    {
        if !self.is_open() {
            return Err(HandleFault::NotOpen);
        }
        let (held, room) = self.take(alloc);
        drop(held);
        room.free();
        Ok(())
    }
}

// What it holds may go to another thread.
unsafe impl Send for EndSlot {}
