//! How many octets an end has taken, and what was wrong with them.
ghost use Rattle.std.specs.Prelude.{◌≡◌};

use crate::blame::{Blame, Rule};
use crate::faults::CoreFault;

/// How many octets an end has taken, up to the greatest number, and what was wrong where it found fault with them.
#[derive(Clone, Copy)]
pub(crate) struct Tally {
    pub(crate) octets: u64,
    pub(crate) blame: Option<Blame>,
}

impl Tally {
    ghost use Rattle.amqp_core.specs.Faults.Blamed.{blames_octets, code_told, counted, no_octets, tally_view, IsBroken};

    pub(crate) fn new() -> Tally
        ensures { tally_view result ≡ no_octets }
    {
        Tally {
            octets: 0,
            blame: None,
        }
    }

    /// So many more were taken.
    #[inline(always)]
    pub(crate) fn count(&mut self, octets: usize)
        ensures { tally_view self.new ≡ record (tally_view self.old) { taken = counted self.old.octets octets } }
    {
        self.octets = self.octets.saturating_add(octets as u64);
    }

    /// So many more were taken, which are no frame with so many before, and this is answered.
    pub(crate) fn blame_octets(
        &mut self,
        pending: usize,
        octets: usize,
        rule: Rule,
        answer: CoreFault,
    )
        requires { IsBroken rule answer }
        ensures { tally_view self.new ≡ blames_octets (code_told answer) pending octets (tally_view self.old) }
    {
        let begins = self.octets.saturating_sub(pending as u64);
        self.count(octets);
        match answer {
            CoreFault::Peer(_) | CoreFault::Fatal => self.blame = Some(Blame::of_octets(
                begins, rule,
            )),
            CoreFault::OutOfMemory | CoreFault::Failed | CoreFault::Closed => {}
        }
    }
}
