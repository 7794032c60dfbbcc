//! The channels of an AMQP 0-9-1 connection: what an end keeps of each, and what comes of the frames that it takes and puts
//! there.
//!
//! [`Channels`] keeps the channels in use. A frame is read once, as a [`Reading`] that is lent; [`Channels::judge`] says by
//! the rules what comes of it, which is a [`Verdict`], and changes nothing; [`Channels::apply`] leaves its channel as the
//! frame does; and [`EventParts::tell`] takes the parts of the event. What stands on channel 0, and what an end does with a
//! verdict, is for `amqp_core`. What each call does is stated by its contract: `specs/Channels` has what callers see of
//! the channels and the relation of each call, `specs/Verdict` the verdicts, and `amqp_model` the definitions that they
//! are compared with.
#![tactic(auto)]

mod aligned;
mod amounts;
mod channel;
mod channels;
mod codes;
mod deferred;
mod display;
mod events;
mod free_numbers;
mod gathering;
mod lent;
mod life;
mod parts;
mod passing;
mod progress;
mod read;
mod reading;
mod side;
mod site;
mod standing;
mod states;
mod verdict;
pub mod words;

pub use crate::aligned::Aligned;
pub use crate::channel::Channel;
pub use crate::channels::{Channels, Passed};
pub use crate::codes::CloseCode;
pub use crate::deferred::Deferred;
pub use crate::events::{Agreed, Event, Reason, lent_blocked_reason, lent_reason};
pub use crate::gathering::Gathering;
pub use crate::life::Life;
pub use crate::parts::{EventParts, PlainMethod};
pub use crate::progress::Progress;
pub use crate::reading::{Reading, Unread};
pub use crate::side::Side;
pub use crate::site::Site;
pub use crate::standing::Standing;
pub use crate::states::ChannelState;
pub use crate::verdict::{Reply, Told, Verdict};
