//! Handles: values of this library that a C program holds.
//!
//! C keeps a [`Slot`], which is a pointer and a flag, and hands it back with each call. What stands behind the
//! pointer is a [`Held`]: one type for every kind of handle, so that a handle of another kind is refused and not
//! misread.
#![tactic(auto)]

mod content;
mod end_slot;
mod faults;
mod gathering;
mod held;
mod kept;
mod slot;

pub use crate::content::Content;
pub use crate::end_slot::EndSlot;
pub use crate::faults::HandleFault;
pub use crate::gathering::{Gathered, Gathering, OutOfMemory, Parts};
pub use crate::held::Held;
pub use crate::kept::{HeldEnd, Kept};
pub use crate::slot::Slot;
