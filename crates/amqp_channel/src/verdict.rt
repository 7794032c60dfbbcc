//! What the rules say of a frame that comes on a channel.

use crate::codes::CloseCode;

/// What a frame tells the application: enough to make its event of it, with the frame and its channel.
#[derive(Clone, Copy)]
pub enum Told {
    /// A method without content, as it lies in the frame.
    Method,
    /// A method begins a content.
    Begun,
    /// A header continues it.
    Headed,
    /// A part of its body continues it.
    Continued,
    /// The content is whole with this frame.
    Completed,
    Opened,
    Flow(bool),
    FlowOk(bool),
    /// The channel's life ended by the other end's close, which is the frame.
    ClosedByPeer,
    /// The channel's life ended by this end's close, which is answered.
    ClosedByUs,
    Discarded,
    Quiet,
}

/// What an end puts in reply, on the same channel.
#[derive(Clone, Copy)]
pub enum Reply {
    OpenOk,
    CloseOk,
    /// flow-ok, which says whether contents are sent
    FlowOk(bool),
}

/// What the rules say of a frame.
#[derive(Clone, Copy)]
pub enum Verdict {
    /// The end goes on: the event, and the reply that it owes, if it owes one.
    Proceeds(Told, Option<Reply>),
    /// The content is refused at its header: the channel is closed with its code.
    RefusesContent,
    /// The connection is closed with this code.
    Faults(CloseCode),
}
