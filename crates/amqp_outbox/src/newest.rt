//! In which laps the newest frames of channels wait: where a place in a row is looked for first.
//!
//! No contract speaks of it, since it decides only how many looks a search takes: a lap that is missing, or that is out
//! of date, costs looks and does no other harm.
use crate::slots::{Place, Waiting};
use crate::weaving::Coming;
use indexmap::IndexMap;
use std::alloc::Global;

/// For channels of which frames wait, the lap of the newest one.
///
/// A channel is remembered when a frame of it goes before others, or when its newest frame stops being the last of the
/// row; but not where that frame waits in the lap in which the channel is met next, since there a search begins that
/// knows no lap. So nothing is remembered while one channel alone is active, nor where each has one frame that waits. A
/// lap stays after its frame is begun, until nothing waits; where there is no memory, it isn't remembered.
pub(crate) struct Newest {
    laps: Option<Box<IndexMap<u16, u64>>>,
}

/// Where the writer stands: in a lap, at LAST.
#[derive(Clone, Copy)]
pub(crate) struct Writer {
    lap: u64,
    last: u16,
}

impl Writer {
    /// It stands in this lap, at LAST.
    pub(crate) fn at(lap: u64, last: u16) -> Writer {
        Writer { lap, last }
    }

    /// The lap in which a channel is met next.
    pub(crate) fn next_lap(self, channel: u16) -> u64 {
        if self.last < channel {
            self.lap
        } else {
            self.lap.saturating_add(1)
        }
    }
}

/// Written out, so that no crate above proves again of each part that it can be dropped.
impl Drop for Newest {
    fn drop(self) {
        let Newest { laps: _ } = self;
    }
}

/// A box with the first lap, if there is memory for it.
fn begun(alloc: Global, channel: u16, lap: u64) -> Option<Box<IndexMap<u16, u64>>> {
    let mut laps = IndexMap::new(alloc);
    laps.insert(channel, lap).ok()?;
    Box::new(alloc, laps).ok()
}

impl Newest {
    /// Nothing is remembered.
    pub(crate) fn new() -> Newest {
        Newest { laps: None }
    }

    /// The lap in which the newest frame of a channel waits, where it is remembered, and later than the one in which
    /// the channel is met next. Where the last frame of the row is of the channel, nothing is looked up.
    pub(crate) fn lap_of(&self, row: &[Waiting], channel: u16, writer: Writer) -> Option<u64> {
        let laps = self.laps.as_ref()?;
        if row.last()?.slot.channel == channel {
            return None;
        }
        let newest = *laps.get(&channel)?;
        if newest <= writer.next_lap(channel) {
            return None;
        }
        Some(newest)
    }

    /// A frame of a channel goes to a place in a row. Remembers its lap, where it goes before others; else that of the
    /// frame that was last, where that one is of another channel.
    pub(crate) fn note_put(
        &mut self,
        alloc: Global,
        row: &[Waiting],
        channel: u16,
        place: Place,
        writer: Writer,
    ) {
        if place.before < row.len() {
            self.remember(alloc, channel, place.lap, writer);
            return;
        }
        if let Some(passed) = row.last() {
            if passed.slot.channel != channel {
                self.remember(alloc, passed.slot.channel, passed.lap, writer);
            }
        }
    }

    /// The same for frames of one channel that go before others: the last of them is its newest.
    pub(crate) fn note_puts(&mut self, alloc: Global, coming: &[Coming], writer: Writer) {
        if let Some(newest) = coming.last() {
            let waiting = newest.waiting;
            self.remember(alloc, waiting.slot.channel, waiting.lap, writer);
        }
    }

    /// Remembers the lap of a channel above 0, where it is later than the one in which the channel is met next, and
    /// there is memory for it.
    fn remember(&mut self, alloc: Global, channel: u16, lap: u64, writer: Writer) {
        if channel == 0 || lap <= writer.next_lap(channel) {
            return;
        }
        match &mut self.laps {
            Some(laps) => {
                let _ = laps.insert(channel, lap);
            }
            None => {
                self.laps = begun(alloc, channel, lap);
            }
        }
    }

    /// Forgets all, and gives the memory back.
    pub(crate) fn forget(&mut self) {
        self.laps = None;
    }
}
