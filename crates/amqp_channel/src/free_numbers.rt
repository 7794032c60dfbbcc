//! Which numbers may be free, of channels that are opened and closed in any order: enough is kept that the lowest is
//! found without a look at all that are in use.
ghost use Rattle.std.specs.Prelude.{◌≡◌, ◌≢◌, ◌<◌, ◌≤◌, true, false, ℕ, suc, IfNone, IfOk, IfSome, OnOk};
ghost use Rattle.std.specs.BTreeSet.{contains};
ghost use Rattle.std.specs.Ordering.{nat_cmp};
ghost use Rattle.amqp_channel.specs.Channels.Passed.{is_freed, IsPassed};

use amqp_method::OutOfMemory;
use std::alloc::Global;
use std::collections::BTreeSet;

/// So few channels are looked at one by one, and nothing is kept.
const FEW: usize = 8;

/// The numbers below `low` were passed as in use; those that were freed since are kept in order.
///
/// No more of them are kept than channels are in use. Where there would be more, or where memory is refused, they are
/// forgotten, and the numbers are passed again from the lowest of them on. So each look at a number in use is paid for
/// by an open or a close, and each of these takes the logarithm of the channels in use. A server looks for no number:
/// it passes none, and keeps nothing.
#[derive(Drop)]
pub(crate) struct FreeNumbers {
    low: u16,
    freed: Option<Box<BTreeSet<u16>>>,
}

/// A box with the first number.
fn begun(alloc: Global, number: u16) -> Result<Box<BTreeSet<u16>>, OutOfMemory>
    ensures { IfOk result (λ freed. contains nat_cmp freed.value number ≡ true) }
{
    let mut freed = BTreeSet::new(alloc);
    freed.insert(number)?;
    Ok(Box::new(alloc, freed)?)
}

impl FreeNumbers {
    /// No channel is in use.
    pub(crate) fn new() -> FreeNumbers
        ensures { (j : ℕ) → IsPassed result (suc j) → ⊥ }
    {
        FreeNumbers {
            low: 1,
            freed: None,
        }
    }

    /// How many are kept of those freed.
    fn count_freed(&self) -> usize {
        match &self.freed {
            Some(freed) => freed.len(),
            None => 0,
        }
    }

    /// The lowest of those freed.
    fn first_freed(&self) -> Option<u16>
        ensures least { IfSome result (λ first. (number : ℕ) → number < first
            → is_freed self.now.freed number ≡ false) }
        ensures none { IfNone result ((number : ℕ) → is_freed self.now.freed number ≡ false) }
    {
        match &self.freed {
            Some(freed) => freed.first().copied(),
            None => None,
        }
    }

    /// The first number to look at for one that is free.
    pub(crate) fn lowest(&self) -> u16
        ensures above { 0 < result }
        ensures passed { (j : ℕ) → suc j < result → IsPassed self.now (suc j) }
    {
        match self.first_freed() {
            Some(first) => self.low.min(first).max(1),
            None => self.low.max(1),
        }
    }

    /// All numbers below this one are in use.
    pub(crate) fn pass(&mut self, number: u16)
        ensures { (other : ℕ) → number ≤ other → IsPassed self.new other → IsPassed self.old other }
    {
        self.low = self.low.max(number);
    }

    /// A number is in use now.
    pub(crate) fn take(&mut self, number: u16)
        ensures { (other : ℕ) → other ≢ number → IsPassed self.new other → IsPassed self.old other }
    {
        if let Some(freed) = &mut self.freed {
            let _ = freed.remove(&number);
        }
    }

    /// Adds a number to those freed.
    fn add(&mut self, alloc: Global, number: u16) -> Result<(), OutOfMemory>
        ensures low { self.new.low ≡ self.old.low }
        ensures added { OnOk result (is_freed self.new.freed number ≡ true) }
        ensures others { (other : ℕ) → is_freed self.new.freed other ≡ false → is_freed self.old.freed other ≡ false }
    {
        match &mut self.freed {
            Some(freed) => {
                freed.insert(number)?;
                Ok(())
            }
            None => {
                let freed = begun(alloc, number)?;
                self.freed = Some(freed);
                Ok(())
            }
        }
    }

    /// Forgets those freed, and this number.
    fn forget(&mut self, number: u16)
        ensures below { (other : ℕ) → IsPassed self.new other → other < number }
        ensures passed { (j : ℕ) → IsPassed self.new (suc j) → IsPassed self.old (suc j) }
    {
        self.low = self.lowest().min(number);
        self.freed = None;
    }

    /// A number is free now, and so many channels are in use.
    pub(crate) fn free(&mut self, alloc: Global, number: u16, in_use: usize)
        ensures here { IsPassed self.new number → ⊥ }
        ensures passed { (j : ℕ) → IsPassed self.new (suc j) → IsPassed self.old (suc j) }
    {
        if in_use <= self.count_freed().saturating_add(FEW) {
            self.forget(number);
            return;
        }
        if self.low <= number {
            return;
        }
        if self.add(alloc, number).is_err() {
            self.forget(number);
        }
    }
}
