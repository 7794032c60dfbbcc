//! Frames that pass a channel: they owe no reply, and change at most the content under way. Most frames do. Each is
//! looked at first, and what it changes is done by a call for its kind.
ghost use Rattle.std.specs.Prelude.{◌≡◌, ◌<◌, ◌≤◌, true, false, IfOk, IfSome, None, Some, OnOk, OnErr};
ghost use Rattle.amqp_method.specs.HeaderRefView.{lent_header};
ghost use Rattle.amqp_method.specs.HeaderView.{headers_alone};
ghost use Rattle.amqp_method.specs.MethodRefView.{lent_call};
ghost use Rattle.amqp_model.specs.Wire.Methods.{carries_content};
ghost use Rattle.amqp_model.specs.Wire.Gathering.{HeaderDue, Nothing};
ghost use Rattle.amqp_model.specs.Wire.Readings.{BodyOf, Calls, HeaderOf};
ghost use Rattle.amqp_channel.specs.Channel.ChannelView.{channel_view, contained, is_lent, IsGathered, IsIdleOpen, IsReadOpen, content_on};
ghost use Rattle.amqp_channel.specs.Contents.ContentView.{content_view};
ghost use Rattle.amqp_channel.specs.ReadingView.{header_said, length_said, reading_view};
ghost use Rattle.amqp_channel.specs.Verdict.Passing.{Passes};
ghost use Rattle.amqp_channel.specs.Verdict.VerdictView.{continued_with, headed_with, whole_now, IsHeaderDue, IsWhole};

use crate::channel::Channel;
use crate::life::{judge_awaited, judge_part, passes_content};
use crate::reading::Reading;
use crate::side::Side;
use crate::site::Site;
use crate::verdict::Told;
use amqp_method::{Content, HeaderRef, MethodRef, OutOfMemory};
use amqp_value::Table;
use std::alloc::Global;

impl Channel {
    /// The header of a content that is lent, where nothing changes beside the content.
    #[inline(always)]
    fn passes_header(&self, site: Site, header: HeaderRef<'_>) -> Option<Told>
        requires above { 0 < site.number }
        requires within { site.number ≤ site.channel_max }
        ensures { IfSome result (Passes site (channel_view self.now)
            (HeaderOf (lent_header header.entry).body_size (lent_header header.entry).properties)) }
    {
        match self {
            Channel::LentHeader(kind, _) => {
                passes_content(site.side, *kind, judge_awaited(site, header))
            }
            Channel::Free
            | Channel::Opening
            | Channel::Closing
            | Channel::Open(_)
            | Channel::LentBody { .. } => None,
        }
    }

    /// A part of the body of a content that is lent, where nothing changes beside the content.
    #[inline(always)]
    fn passes_body(&self, site: Site, octets: &[u8]) -> Option<Told>
        requires above { 0 < site.number }
        requires within { site.number ≤ site.channel_max }
        ensures { IfSome result (Passes site (channel_view self.now) (BodyOf octets.now)) }
    {
        match self {
            Channel::LentBody {
                kind,
                size,
                came,
                ..
            } => passes_content(site.side, *kind, judge_part(site, *size, *came, octets)),
            Channel::Free
            | Channel::Opening
            | Channel::Closing
            | Channel::Open(_)
            | Channel::LentHeader(_, _) => None,
        }
    }

    /// A method that has nothing to do with requests, where no content is under way.
    #[inline(always)]
    pub(crate) fn passes_method(&self, site: Site, method: MethodRef<'_>) -> Option<Told>
        requires above { 0 < site.number }
        requires within { site.number ≤ site.channel_max }
        ensures passes { IfSome result (Passes site (channel_view self.now) (Calls (lent_call method.entry))) }
        ensures idle { IfSome result (λ told. IsIdleOpen self.now) }
    {
        match self {
            Channel::Open(life) => life.passes(site, method),
            Channel::Free
            | Channel::Opening
            | Channel::Closing
            | Channel::LentHeader(_, _)
            | Channel::LentBody { .. } => None,
        }
    }

    /// The event of a frame that changes at most how far a content that is lent has come: a method that has nothing to
    /// do with requests, or a frame of the content under way. Most frames do no more.
    #[inline(always)]
    pub(crate) fn passes(&self, site: Site, reading: Reading<'_>) -> Option<Told>
        requires above { 0 < site.number }
        requires within { site.number ≤ site.channel_max }
        ensures { IfSome result (Passes site (channel_view self.now) (reading_view reading.entry)) }
    {
        match reading {
            Reading::Method(method) => self.passes_method(site, method),
            Reading::Header(header) => self.passes_header(site, header),
            Reading::Body(octets) => self.passes_body(site, octets),
            Reading::UnknownMethod => None,
            Reading::MalformedMethod => None,
            Reading::MalformedHeader => None,
            Reading::Heartbeat(_) => None,
        }
    }

    /// The header of a content that is gathered, where nothing changes beside the content.
    #[inline(always)]
    pub(crate) fn passes_gathered_header(&self, site: Site, header: HeaderRef<'_>) -> Option<Told>
        requires above { 0 < site.number }
        requires within { site.number ≤ site.channel_max }
        ensures { IfSome result (Passes site (channel_view self.now)
            (HeaderOf (lent_header header.entry).body_size (lent_header header.entry).properties)) }
    {
        match self {
            Channel::Open(life) => life.passes_header(site, header),
            Channel::Free
            | Channel::Opening
            | Channel::Closing
            | Channel::LentHeader(_, _)
            | Channel::LentBody { .. } => None,
        }
    }

    /// A part of the body of a content that is gathered, where nothing changes beside the content.
    #[inline(always)]
    pub(crate) fn passes_gathered_body(&self, site: Site, octets: &[u8]) -> Option<Told>
        requires above { 0 < site.number }
        requires within { site.number ≤ site.channel_max }
        ensures passes { IfSome result (Passes site (channel_view self.now) (BodyOf octets.now)) }
        ensures read { IfSome result (λ told. IsReadOpen self.now) }
    {
        match self {
            Channel::Open(life) => life.passes_body(site, octets),
            Channel::Free
            | Channel::Opening
            | Channel::Closing
            | Channel::LentHeader(_, _)
            | Channel::LentBody { .. } => None,
        }
    }

    /// A method that passes begins a content. Out of memory, none is begun.
    #[inline(always)]
    pub(crate) fn begin_one_way(
        &mut self,
        alloc: Global,
        method: MethodRef<'_>,
    ) -> Result<(), OutOfMemory>
        requires idle { IsIdleOpen self.old }
        requires follows { carries_content (lent_call method) ≡ true }
        ensures ok { OnOk result (channel_view self.new ≡ contained (HeaderDue (lent_call method.entry))
            (channel_view self.old)) }
        ensures err { OnErr result (channel_view self.new ≡ channel_view self.old) }
        ensures gathers { IsGathered self.new }
        ensures was { IsGathered self.old }
    {
        match self {
            Channel::Open(life) => life.begin_one_way(alloc, method),
            Channel::Free
            | Channel::Opening
            | Channel::Closing
            | Channel::LentHeader(_, _)
            | Channel::LentBody { .. } => unreachable!(),
        }
    }

    /// A header that passes, after which the body is due. Out of memory, it is due still.
    #[inline(always)]
    pub(crate) fn head_one_way(
        &mut self,
        alloc: Global,
        side: Side,
        header: HeaderRef<'_>,
    ) -> Result<(), OutOfMemory>
        requires gathers { is_lent self.old ≡ false }
        requires due { IsHeaderDue (content_on (channel_view self.old)) }
        ensures ok { OnOk result (channel_view self.new ≡ contained (headed_with (header_said header.entry)
            (content_on (channel_view self.old))) (channel_view self.old)) }
        ensures err { OnErr result (channel_view self.new ≡ channel_view self.old) }
        ensures gathers { IsGathered self.new }
        ensures was { IsGathered self.old }
    {
        match self {
            Channel::Open(life) => life.keep_header(alloc, side, header),
            Channel::Free
            | Channel::Opening
            | Channel::Closing
            | Channel::LentHeader(_, _)
            | Channel::LentBody { .. } => unreachable!(),
        }
    }

    /// A header that passes, with its table of headers and no other property, after which the body is due.
    #[inline(always)]
    pub(crate) fn head_with(
        &mut self,
        side: Side,
        header: HeaderRef<'_>,
        length: u32,
        table: Option<Table>,
    )
        requires gathers { is_lent self.old ≡ false }
        requires due { IsHeaderDue (content_on (channel_view self.old)) }
        requires counts { length ≡ length_said header }
        requires alone { (lent_header header).properties ≡ headers_alone table }
        ensures headed { channel_view self.new ≡ contained (headed_with (header_said header.entry)
            (content_on (channel_view self.old))) (channel_view self.old) }
        ensures gathers { IsGathered self.new }
        ensures was { IsGathered self.old }
    {
        match self {
            Channel::Open(life) => life.head_with(side, header, length, table),
            Channel::Free
            | Channel::Opening
            | Channel::Closing
            | Channel::LentHeader(_, _)
            | Channel::LentBody { .. } => unreachable!(),
        }
    }

    /// Whether the header of a content that is gathered is due.
    #[inline(always)]
    pub(crate) fn awaits_header(&self) -> bool {
        match self {
            Channel::Open(life) => life.awaits_header(),
            Channel::Free
            | Channel::Opening
            | Channel::Closing
            | Channel::LentHeader(_, _)
            | Channel::LentBody { .. } => false,
        }
    }

    /// A header that passes and that makes a content whole. Out of memory, it is due still.
    ///
    /// It stands apart, since few contents have no body, as what adds a part of a body that comes in several.
    #[inline(never)]
    pub(crate) fn finish_header_one_way(
        &mut self,
        alloc: Global,
        header: HeaderRef<'_>,
    ) -> Result<Box<Content>, OutOfMemory>
        requires gathers { is_lent self.old ≡ false }
        requires whole { IsWhole (whole_now (channel_view self.old) (header_said header)) }
        ensures whole { IfOk result (λ content. whole_now (channel_view self.old) (header_said header.entry)
            ≡ Some (content_view content.value)) }
        ensures ok { OnOk result (channel_view self.new ≡ contained Nothing (channel_view self.old)) }
        ensures err { OnErr result (channel_view self.new ≡ channel_view self.old) }
        ensures gathers { IsGathered self.new }
        ensures was { IsGathered self.old }
    {
        match self {
            Channel::Open(life) => life.finish_header_one_way(alloc, header),
            Channel::Free
            | Channel::Opening
            | Channel::Closing
            | Channel::LentHeader(_, _)
            | Channel::LentBody { .. } => unreachable!(),
        }
    }

    /// A part of a body that passes, after which more is due. Out of memory, it is due still.
    #[inline(never)]
    pub(crate) fn fill_one_way(&mut self, side: Side, octets: &[u8]) -> Result<(), OutOfMemory>
        requires { IsReadOpen self.old }
        ensures ok { OnOk result (channel_view self.new ≡ contained (continued_with (BodyOf octets.now)
            (content_on (channel_view self.old))) (channel_view self.old)) }
        ensures err { OnErr result (channel_view self.new ≡ channel_view self.old) }
        ensures gathers { IsGathered self.new }
        ensures was { IsGathered self.old }
    {
        match self {
            Channel::Open(life) => life.fill(side, octets),
            Channel::Free
            | Channel::Opening
            | Channel::Closing
            | Channel::LentHeader(_, _)
            | Channel::LentBody { .. } => unreachable!(),
        }
    }

    /// A part of a body that passes and that makes a content whole. Out of memory, it is due still.
    #[inline(always)]
    pub(crate) fn finish_one_way(&mut self, octets: &[u8]) -> Result<Box<Content>, OutOfMemory>
        requires read { IsReadOpen self.old }
        requires whole { IsWhole (whole_now (channel_view self.old) (BodyOf octets.now)) }
        ensures whole { IfOk result (λ content. whole_now (channel_view self.old) (BodyOf octets.now)
            ≡ Some (content_view content.value)) }
        ensures ok { OnOk result (channel_view self.new ≡ contained Nothing (channel_view self.old)) }
        ensures err { OnErr result (channel_view self.new ≡ channel_view self.old) }
        ensures gathers { IsGathered self.new }
        ensures was { IsGathered self.old }
    {
        match self {
            Channel::Open(life) => life.finish_one_way(octets),
            Channel::Free
            | Channel::Opening
            | Channel::Closing
            | Channel::LentHeader(_, _)
            | Channel::LentBody { .. } => unreachable!(),
        }
    }
}
