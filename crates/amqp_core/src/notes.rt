//! What an end writes down of the frames that it puts and takes: a note for each.
ghost use Rattle.std.specs.Prelude.{◌≡◌};
ghost use Rattle.amqp_method.specs.MethodRefView.{lent_call};
ghost use Rattle.amqp_model.specs.Wire.Readings.{Calls, kind_of};
ghost use Rattle.amqp_model.specs.Stream.Traces.{IsPut, IsTaken, word_of};
ghost use Rattle.amqp_channel.specs.ReadingView.{reading_view};
ghost use Rattle.amqp_core.specs.Traced.Notes.{note_view, noted_as, word_view};

use amqp_channel::Reading;
use amqp_method::{Kind, MethodRef};

/// Whether a frame was put or taken.
#[derive(Clone, Copy, PartialEq, Eq, Debug)]
pub enum Direction {
    Put,
    Took,
}

/// What a frame is to its channel. On channel 0 every frame is an Other.
#[derive(Clone, Copy, PartialEq, Eq, Debug)]
pub enum Word {
    Open,
    OpenOk,
    Close,
    CloseOk,
    Flow,
    FlowOk,
    /// Any other method, a content header, a part of a body, a heartbeat, and what can't be read.
    Other,
}

/// A frame that was put or taken.
#[derive(Clone, Copy, PartialEq, Eq, Debug)]
pub struct Note {
    pub channel: u16,
    pub direction: Direction,
    pub word: Word,
}

/// What a method is to its channel.
#[inline(always)]
fn word_of_method(method: MethodRef<'_>) -> Word
    ensures { word_view result ≡ word_of (kind_of (Calls (lent_call method.entry))) }
{
    match method.kind() {
        Kind::ChannelOpen => Word::Open,
        Kind::ChannelOpenOk => Word::OpenOk,
        Kind::ChannelClose => Word::Close,
        Kind::ChannelCloseOk => Word::CloseOk,
        Kind::ChannelFlow => Word::Flow,
        Kind::ChannelFlowOk => Word::FlowOk,
        _ => Word::Other,
    }
}

/// What a frame is to its channel.
#[inline(always)]
fn word_of_reading(reading: Reading<'_>) -> Word
    ensures { word_view result ≡ word_of (kind_of (reading_view reading.entry)) }
{
    match reading {
        Reading::Method(method) => word_of_method(method),
        Reading::UnknownMethod => Word::Other,
        Reading::MalformedMethod => Word::Other,
        Reading::Header(_) => Word::Other,
        Reading::MalformedHeader => Word::Other,
        Reading::Body(_) => Word::Other,
        Reading::Heartbeat(_) => Word::Other,
    }
}

impl Note {
    /// The note of a frame that is put, with what the frame is to a channel above 0.
    pub(crate) fn put(channel: u16, word: Word) -> Note
        ensures { note_view result ≡ noted_as IsPut channel (word_view word) }
    {
        let word = if channel == 0 { Word::Other } else { word };
        Note {
            channel,
            direction: Direction::Put,
            word,
        }
    }

    /// The note of a frame that is taken on a channel, and says this.
    #[inline(always)]
    pub(crate) fn taken(channel: u16, reading: Reading<'_>) -> Note
        ensures { note_view result ≡ noted_as IsTaken channel (word_of (kind_of (reading_view reading.entry))) }
    {
        let word = if channel == 0 {
            Word::Other
        } else {
            word_of_reading(reading)
        };
        Note {
            channel,
            direction: Direction::Took,
            word,
        }
    }
}
