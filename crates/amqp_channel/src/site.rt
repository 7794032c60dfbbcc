//! Where a frame comes: its channel's number, and what the verdict on it rests on beside what is kept of the channel.

use crate::side::Side;

/// The channel of a frame, and what the verdict on it rests on beside what is kept of the channel.
#[derive(Clone, Copy)]
pub struct Site {
    /// The side that this end plays.
    pub side: Side,
    /// The channel's number.
    pub number: u16,
    /// The greatest channel number, as it was agreed.
    pub channel_max: u16,
    /// The greatest body that this end takes.
    pub max_body: u64,
}
