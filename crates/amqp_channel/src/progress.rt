//! How far a content has come that is under way on a channel.
ghost use Rattle.std.specs.Prelude.{◌≡◌};
ghost use Rattle.amqp_model.specs.Lent.Streaming.{came, is_streaming, streamed};
ghost use Rattle.amqp_channel.specs.Contents.GatheringView.{gathering_view, progress_view};
ghost use Rattle.amqp_channel.specs.Verdict.LentView.{progress_with, FitsProgress};
ghost use Rattle.amqp_channel.specs.ReadingView.{reading_view};

use crate::gathering::Gathering;
use crate::reading::Reading;
use crate::verdict::Told;
use amqp_method::Kind;

/// How far a content has come: all that the rules look at.
#[derive(Clone, Copy)]
pub enum Progress {
    NoContent,
    /// The method was taken, and the header is due.
    AwaitsHeader(Kind),
    /// The header was taken too, and so many octets of the body.
    AwaitsBody { kind: Kind, size: u64, came: u64 },
}

impl Progress {
    /// Whether a content is under way.
    pub fn is_under_way(self) -> bool
        ensures { result ≡ is_streaming (progress_view self) }
    {
        match self {
            Progress::NoContent => false,
            Progress::AwaitsHeader(_) => true,
            Progress::AwaitsBody { .. } => true,
        }
    }

    /// How many octets of the body have come.
    pub fn came(self) -> u64
        ensures { result ≡ came (progress_view self) }
    {
        match self {
            Progress::NoContent => 0,
            Progress::AwaitsHeader(_) => 0,
            Progress::AwaitsBody { came, .. } => came,
        }
    }

    /// How far the content has come after a frame with this event.
    pub(crate) fn after(self, reading: Reading<'_>, told: Told) -> Progress
        requires { FitsProgress (reading_view reading) told (progress_view self) }
        ensures { progress_view result ≡ progress_with (reading_view reading.entry) told (progress_view self) }
    {
        match (told, reading, self) {
            (Told::Begun, Reading::Method(method), _) => Progress::AwaitsHeader(method.kind()),
            (Told::Headed, Reading::Header(header), Progress::AwaitsHeader(kind)) => {
                Progress::AwaitsBody {
                    kind,
                    size: header.body_size(),
                    came: 0,
                }
            }
            (Told::Continued, Reading::Body(octets), Progress::AwaitsBody { kind, size, came }) =>
                Progress::AwaitsBody {
                    kind,
                    size,
                    came: came + octets.len() as u64,
                },
            (Told::Completed, _, _) => Progress::NoContent,
            _ => self,
        }
    }
}

impl Gathering {
    /// How far the content under way has come.
    pub fn progress(&self) -> Progress
        ensures { progress_view result ≡ streamed (gathering_view self.now) }
    {
        match self {
            Gathering::Nothing => Progress::NoContent,
            Gathering::HeaderDue(begun) => Progress::AwaitsHeader(begun.kind()),
            Gathering::BodyDue { content, .. } => Progress::AwaitsBody {
                kind: content.kind(),
                size: content.header.body_size,
                came: content.body.len() as u64,
            },
            Gathering::Deferred(deferred) => Progress::AwaitsBody {
                kind: deferred.content.kind(),
                size: deferred.size(),
                came: deferred.content.body.len() as u64,
            },
        }
    }
}
