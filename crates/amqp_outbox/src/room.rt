//! When an outbox gives back room that is nearly empty.

/// For how many octets an outbox keeps its room, however few wait.
const KEPT_OCTETS: usize = 65_536;

/// For how many frames it does: their slots take as much as so many octets.
const KEPT_SLOTS: usize = 4_096;

/// For how many octets it keeps its room over a few writes that use little, and for how many frames.
const LARGE_OCTETS: usize = 4_194_304;

const LARGE_SLOTS: usize = 262_144;

/// For how many items there is room, how many are there, and for how many it is kept.
#[derive(Clone, Copy)]
pub(crate) struct Room {
    all: usize,
    /// with those that are written, and not dropped yet
    filled: usize,
    /// without them
    left: usize,
    /// always
    kept: usize,
    /// over a few writes that use little
    large: usize,
}

impl Room {
    /// Of octets.
    pub(crate) fn of_octets(all: usize, filled: usize, left: usize) -> Room {
        Room {
            all,
            filled,
            left,
            kept: KEPT_OCTETS,
            large: LARGE_OCTETS,
        }
    }

    /// Of the slots of frames.
    pub(crate) fn of_slots(all: usize, filled: usize, left: usize) -> Room {
        Room {
            all,
            filled,
            left,
            kept: KEPT_SLOTS,
            large: LARGE_SLOTS,
        }
    }

    /// How many count as using it: those that are left alone, where it is more than is kept over a few writes.
    fn used(self) -> usize {
        if self.all > self.large {
            self.left
        } else {
            self.filled
        }
    }

    /// Whether it is more than is kept of it always.
    pub(crate) fn is_spare(self) -> bool {
        self.all > self.kept && self.used() < self.all / 16
    }

    /// Whether it is more than is kept over a few writes.
    pub(crate) fn is_large(self) -> bool {
        self.all > self.large && self.used() < self.all / 16
    }

    /// For how many there is to be room, once some is given back.
    pub(crate) fn smaller(self) -> usize {
        self.used().saturating_mul(2).max(self.kept)
    }
}
