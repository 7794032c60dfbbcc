//! A channel of an end that lends contents: of one under way only how far it has come is kept.
ghost use Rattle.std.specs.Prelude.{◌≡◌, ◌+◌, ◌<◌, IsOk, OnOk, OnErr};
ghost use Rattle.amqp_model.specs.End.Channels.{Closing, Free, Open, Opening};
ghost use Rattle.amqp_model.specs.Lent.Alike.{AlikeChannels};
ghost use Rattle.amqp_model.specs.Lent.Streaming.{gathered_as, streamed};
ghost use Rattle.amqp_channel.specs.Channel.ChannelView.{channel_view, content_on};
ghost use Rattle.amqp_channel.specs.Verdict.LentView.{known_on, progress_with, stands_on, FitsProgress};
ghost use Rattle.amqp_channel.specs.Channel.LifeView.{life_on};
ghost use Rattle.amqp_channel.specs.Contents.GatheringView.{progress_view};
ghost use Rattle.amqp_channel.specs.ReadingView.{reading_view};
ghost use Rattle.amqp_channel.specs.Roles.{role_of};
ghost use Rattle.amqp_channel.specs.Verdict.VerdictView.{goes_on, left_by, told_on, Drops, Fits, FitsTold, IsDiscarded};

use crate::channel::Channel;
use crate::gathering::Gathering;
use crate::life::Life;
use crate::progress::Progress;
use crate::reading::Reading;
use crate::side::Side;
use crate::standing::Standing;
use crate::verdict::{Told, Verdict};
use amqp_method::{Method, OutOfMemory};
use std::alloc::Global;
use std::mem;

/// How many octets of a body have come with a part that leaves some of its size due.
#[inline(always)]
fn came_with(size: u64, came: u64, octets: usize) -> u64
    requires { came + octets < size }
    ensures { result ≡ came + octets }
{
    came + octets as u64
}

impl Channel {
    /// A channel that is Open, of whose content so much is kept.
    fn lent(progress: Progress, standing: Standing) -> Channel
        ensures { channel_view result ≡ Open (life_on (gathered_as (progress_view progress)) standing) }
    {
        match progress {
            Progress::NoContent => Channel::Open(Life {
                content: Gathering::Nothing,
                standing,
            }),
            Progress::AwaitsHeader(kind) => Channel::LentHeader(kind, standing),
            Progress::AwaitsBody { kind, size, came } => Channel::LentBody {
                kind,
                size,
                came,
                standing,
            },
        }
    }

    /// Keeps of a content under way only how far it has come.
    fn keep_progress(&mut self, progress: Progress)
        ensures { channel_view self.new ≡ known_on (progress_view progress) (channel_view self.old) }
    {
        match mem::replace(self, Channel::Free) {
            Channel::Open(life) => *self = Channel::lent(progress, life.standing),
            Channel::LentHeader(_, standing) => *self = Channel::lent(progress, standing),
            Channel::LentBody { standing, .. } => *self = Channel::lent(progress, standing),
            Channel::Free => {}
            Channel::Opening => *self = Channel::Opening,
            Channel::Closing => *self = Channel::Closing,
        }
    }

    /// Keeps of a content under way how far it has come with a frame, whatever was kept before.
    #[inline(never)]
    fn advance_anew(&mut self, reading: Reading<'_>, told: Told)
        requires { FitsProgress (reading_view reading) told (streamed (content_on (channel_view self.old))) }
        ensures { channel_view self.new ≡ known_on
            (progress_with (reading_view reading.entry) told (streamed (content_on (channel_view self.old))))
            (channel_view self.old) }
    {
        let progress = self.progress().after(reading, told);
        self.keep_progress(progress);
    }

    /// The same, in place where only that much is kept already. A channel that is taken out and put back whole costs a
    /// content of three frames a fifth of its time.
    #[inline(always)]
    #[tactic(auto, using(crate::proofs::LentLemmas::as_known, crate::proofs::LentLemmas::known_so_far))]
    pub(crate) fn advance(&mut self, reading: Reading<'_>, told: Told)
        requires { FitsProgress (reading_view reading) told (streamed (content_on (channel_view self.old))) }
        ensures { channel_view self.new ≡ known_on
            (progress_with (reading_view reading.entry) told (streamed (content_on (channel_view self.old))))
            (channel_view self.old) }
    {
        match (&mut *self, told, reading) {
            (Channel::Open(life), Told::Begun, Reading::Method(method)) => {
                let standing = mem::replace(&mut life.standing, Standing::new());
                *self = Channel::LentHeader(method.kind(), standing);
            }
            (Channel::LentHeader(kind, standing), Told::Headed, Reading::Header(header)) => {
                let kind = *kind;
                let standing = mem::replace(standing, Standing::new());
                *self = Channel::LentBody {
                    kind,
                    size: header.body_size(),
                    came: 0,
                    standing,
                };
            }
            (Channel::LentBody { size, came, .. }, Told::Continued, Reading::Body(octets)) => {
                *came = came_with(*size, *came, octets.len());
            }
            (Channel::LentBody { standing, .. }, Told::Completed, _) => {
                let standing = mem::replace(standing, Standing::new());
                *self = Channel::Open(Life {
                    content: Gathering::Nothing,
                    standing,
                });
            }
            _ => self.advance_anew(reading, told),
        }
    }

    /// What a frame changes beside the content under way. Out of memory, the channel stays as it was.
    #[inline(always)]
    fn apply_standing(
        &mut self,
        alloc: Global,
        side: Side,
        reading: Reading<'_>,
        told: Told,
    ) -> Result<(), OutOfMemory>
        ensures ok { OnOk result (channel_view self.new
            ≡ stands_on (role_of side) (reading_view reading.entry) told (channel_view self.old)) }
        ensures err { OnErr result (channel_view self.new ≡ channel_view self.old) }
    {
        match self {
            Channel::Open(life) => {
                let replies = life.replies();
                life.standing.take(alloc, side, reading, told, replies)
            }
            Channel::LentHeader(kind, standing) => {
                standing.take(alloc, side, reading, told, kind.is_reply())
            }
            Channel::LentBody { kind, standing, .. } => {
                standing.take(alloc, side, reading, told, kind.is_reply())
            }
            Channel::Free | Channel::Opening | Channel::Closing => Ok(()),
        }
    }

    /// What a frame leaves that neither opens nor ends a life, where contents are lent.
    #[inline(always)]
    #[tactic(auto, using(crate::proofs::LentLemmas::standing_alike, crate::proofs::LentLemmas::standing_fits, crate::proofs::LentLemmas::alike_itself))]
    fn apply_open_lent(
        &mut self,
        alloc: Global,
        side: Side,
        reading: Reading<'_>,
        told: Told,
    ) -> Result<(), OutOfMemory>
        requires { FitsTold (channel_view self.old) (reading_view reading) told }
        ensures left { OnOk result (AlikeChannels
            (goes_on (role_of side) (reading_view reading.entry) told (channel_view self.old))
            (channel_view self.new)) }
        ensures err { OnErr result (channel_view self.new ≡ channel_view self.old) }
        ensures drops { IsDiscarded told → IsOk result }
    {
        match told {
            Told::Begun | Told::Headed | Told::Continued | Told::Completed => {
                self.apply_standing(alloc, side, reading, told)?;
                self.advance(reading, told);
                Ok(())
            }
            Told::Method | Told::Flow(_) | Told::FlowOk(_) => {
                self.apply_standing(alloc, side, reading, told)
            }
            Told::Opened | Told::ClosedByPeer | Told::ClosedByUs | Told::Discarded | Told::Quiet =>
                Ok(()),
        }
    }

    /// What a frame with this event leaves, where contents are lent.
    #[inline(always)]
    #[tactic(auto, using(crate::proofs::LentLemmas::alike_itself))]
    fn apply_told_lent(
        &mut self,
        alloc: Global,
        side: Side,
        reading: Reading<'_>,
        told: Told,
    ) -> Result<(), OutOfMemory>
        requires { FitsTold (channel_view self.old) (reading_view reading) told }
        ensures left { OnOk result (AlikeChannels
            (told_on (role_of side) (reading_view reading.entry) told (channel_view self.old))
            (channel_view self.new)) }
        ensures err { OnErr result (channel_view self.new ≡ channel_view self.old) }
        ensures drops { IsDiscarded told → IsOk result }
    {
        match told {
            Told::Opened => {
                self.begin_life();
                Ok(())
            }
            Told::ClosedByPeer | Told::ClosedByUs => {
                self.end_life();
                Ok(())
            }
            Told::Method
            | Told::Begun
            | Told::Headed
            | Told::Continued
            | Told::Completed
            | Told::Flow(_)
            | Told::FlowOk(_)
            | Told::Discarded
            | Told::Quiet => self.apply_open_lent(alloc, side, reading, told),
        }
    }

    /// Leaves the channel as a frame with this verdict does, but for its content: of one under way is kept how far it
    /// has come, since its octets are lent as they come. Out of memory, the channel stays as it was.
    #[inline(always)]
    #[tactic(auto, using(crate::proofs::LentLemmas::alike_itself))]
    pub(crate) fn apply_lent(
        &mut self,
        alloc: Global,
        side: Side,
        reading: Reading<'_>,
        verdict: Verdict,
    ) -> Result<(), OutOfMemory>
        requires { Fits (channel_view self.old) (reading_view reading) verdict }
        ensures left { OnOk result (AlikeChannels
            (left_by (role_of side) (reading_view reading.entry) verdict (channel_view self.old))
            (channel_view self.new)) }
        ensures err { OnErr result (channel_view self.new ≡ channel_view self.old) }
        // What is dropped takes no memory.
        ensures drops { Drops verdict → IsOk result }
    {
        match verdict {
            Verdict::Proceeds(told, _) => self.apply_told_lent(alloc, side, reading, told),
            Verdict::RefusesContent => {
                *self = Channel::Closing;
                Ok(())
            }
            Verdict::Faults(_) => Ok(()),
        }
    }
}
