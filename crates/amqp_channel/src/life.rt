//! The life of a channel that is Open: what is kept of it, what the rules say of the frames that belong to it, and what
//! these leave.
ghost use Rattle.std.specs.Prelude.{◌≡◌, ◌≢◌, ◌<◌, ◌≤◌, true, false, not, ℕ, List, length, None, Some, IfOk, IfSome, IsOk, OnOk, OnErr};
ghost use Rattle.amqp_method.specs.HeaderRefView.{lent_header};
ghost use Rattle.amqp_method.specs.HeaderView.{headers_alone};
ghost use Rattle.amqp_method.specs.MethodRefView.{lent_call};
ghost use Rattle.amqp_model.specs.End.Amounts.{header_octets};
ghost use Rattle.amqp_model.specs.End.Channels as model;
ghost use Rattle.amqp_model.specs.End.Channels.{Open, new_life};
ghost use Rattle.amqp_model.specs.End.FrameVerdict.{on_message};
ghost use Rattle.amqp_model.specs.Wire.Gathering.{BodyDue, HeaderDue, Nothing};
ghost use Rattle.amqp_model.specs.Wire.Methods as methods;
ghost use Rattle.amqp_model.specs.Wire.Methods.{carries_content as content_follows, is_reply};
ghost use Rattle.amqp_method.specs.Requests.{is_one_way};
ghost use Rattle.amqp_model.specs.Wire.Notes.{Client, Server, is_client};
ghost use Rattle.amqp_channel.specs.declared.verdict.Verdict.TheVariants.{Proceeds};
ghost use Rattle.amqp_model.specs.Wire.Readings as readings;
ghost use Rattle.amqp_model.specs.Wire.Readings.{Calls, BodyOf, HeaderOf, kind_of};
ghost use Rattle.amqp_channel.specs.Contents.ContentView.{content_there, content_view};
ghost use Rattle.amqp_channel.specs.Contents.GatheringView.{gathering_view, header_kept, IsRead};
ghost use Rattle.amqp_channel.specs.ReadingView.{header_said, length_said, reading_view};
ghost use Rattle.amqp_channel.specs.Roles.{role_of};
ghost use Rattle.amqp_channel.specs.Verdict.Passing.{IsOfContent, Passes};
ghost use Rattle.amqp_channel.specs.Verdict.VerdictView.{asked_with, replies_in, told_in, verdict_view, whole_at, whole_of, whole_with, with_content, FitsTold, IsDiscarded, IsFlow, IsHeaderDue, IsWhole, MessageRules, Rules, RulesByState, TellsMessage};

use crate::codes::CloseCode;
use crate::gathering::{Filling, Gathering, fill};
use crate::reading::Reading;
use crate::side::Side;
use crate::site::Site;
use crate::standing::Standing;
use crate::verdict::{Reply, Told, Verdict};
use crate::words::lent_bit_at;
use amqp_method::{Begun, Content, HeaderRef, Kind, MethodRef, OutOfMemory};
use amqp_value::Table;
use std::alloc::Global;
use std::mem::{forget, replace};

/// How many requests a server keeps on a channel.
pub(crate) const MOST_REQUESTS: usize = 1024;

/// What stands beside the state of a channel that is Open.
#[derive(Drop)]
pub struct Life {
    /// The content under way.
    pub content: Gathering,
    /// What waits, and what is paused.
    pub standing: Standing,
    /// What is kept as the length of the header of the content under way is that.
    pub ghost measures: { header_kept content ≡ header_octets (gathering_view content) },
}

impl Life {
    ghost use Rattle.amqp_channel.specs.Channel.LifeView.{life_view, IsIdle, IsOther};

    /// A life begins with nothing under way.
    pub(crate) fn new() -> Life
        ensures { life_view result ≡ new_life }
    {
        Life {
            content: Gathering::Nothing,
            standing: Standing::new(),
        }
    }
}

/// A message that may come: its method stands alone, or begins a content.
#[inline(always)]
fn tell_message(method: MethodRef<'_>) -> Verdict
    ensures tells { TellsMessage (lent_call method.entry) result }
    ensures verdict { (number : ℕ) → verdict_view number (Calls (lent_call method.entry)) None result
        ≡ on_message number (lent_call method.entry) }
{
    if method.has_content() {
        return Verdict::Proceeds(Told::Begun, None);
    }
    Verdict::Proceeds(Told::Method, None)
}

/// A header that is due.
#[inline(always)]
pub(crate) fn judge_awaited(site: Site, header: HeaderRef<'_>) -> Verdict
    requires above { 0 < site.number }
    requires within { site.number ≤ site.channel_max }
    ensures { (life : model.Life) (method : methods.Method) → life.content ≡ HeaderDue method → Rules site (Open life)
        (HeaderOf (lent_header header.entry).body_size (lent_header header.entry).properties) result }
{
    if site.max_body < header.body_size() {
        Verdict::RefusesContent
    } else if header.body_size() == 0 {
        Verdict::Proceeds(Told::Completed, None)
    } else {
        Verdict::Proceeds(Told::Headed, None)
    }
}

/// A part of a body of this size, of which so many octets have come.
#[inline(always)]
pub(crate) fn judge_part(site: Site, size: u64, came: u64, octets: &[u8]) -> Verdict
    requires above { 0 < site.number }
    requires within { site.number ≤ site.channel_max }
    ensures { (life : model.Life) (method : methods.Method) (properties : methods.Properties) (body : List ℕ)
        → life.content ≡ BodyDue method size properties body → length body ≡ came
        → Rules site (Open life) (BodyOf octets.now) result }
{
    match fill(size, came, octets.len()) {
        Filling::Past => Verdict::Faults(CloseCode::FrameError),
        Filling::Short => Verdict::Proceeds(Told::Continued, None),
        Filling::Full => Verdict::Proceeds(Told::Completed, None),
    }
}

/// The event of a frame of a content with this verdict, where the content answers no request with it.
#[inline(always)]
pub(crate) fn passes_content(side: Side, kind: Kind, verdict: Verdict) -> Option<Told>
    ensures verdict { IfSome result (λ told. verdict ≡ Proceeds told None) }
    ensures content { IfSome result IsOfContent }
    ensures completes { IfSome result (λ told. told ≡ Told.Completed → role_of side ≡ Client
        → is_reply kind ≡ false) }
{
    match verdict {
        Verdict::Proceeds(Told::Completed, None) => {
            if side.is_client() && kind.is_reply() {
                return None;
            }
            Some(Told::Completed)
        }
        Verdict::Proceeds(Told::Headed, None) => Some(Told::Headed),
        Verdict::Proceeds(Told::Continued, None) => Some(Told::Continued),
        Verdict::Proceeds(_, _) => None,
        Verdict::RefusesContent => None,
        Verdict::Faults(_) => None,
    }
}

impl Life {
    ghost use Rattle.amqp_channel.specs.Channel.LifeView.{life_view, IsIdle, IsOther};

    /// What a client takes: a reply has to be to the request that waits.
    #[inline(always)]
    fn judge_reply(&self, method: MethodRef<'_>) -> Verdict
        ensures rules { MessageRules Client (life_view self.now) (lent_call method.entry) result }
        ensures tells { TellsMessage (lent_call method.entry) result }
    {
        if method.kind().is_reply() && !self.standing.is_answered_by(method.kind()) {
            return Verdict::Faults(CloseCode::CommandInvalid);
        }
        tell_message(method)
    }

    /// What a server takes: so many requests are kept, and no more.
    #[inline(always)]
    fn judge_request(&self, method: MethodRef<'_>) -> Verdict
        ensures rules { MessageRules Server (life_view self.now) (lent_call method.entry) result }
        ensures tells { TellsMessage (lent_call method.entry) result }
    {
        if self.standing.requests() >= MOST_REQUESTS && method.is_request() {
            return Verdict::Faults(CloseCode::ResourceError);
        }
        tell_message(method)
    }

    /// A method that neither opens nor closes the channel nor asks for a flow or answers one, where no content is under
    /// way.
    #[inline(always)]
    #[tactic(auto, using(crate::proofs::VerdictLemmas::message_rules))]
    fn judge_message(&self, site: Site, method: MethodRef<'_>) -> Verdict
        requires idle { IsIdle self.now }
        requires other { IsOther (kind_of (Calls (lent_call method))) }
        ensures { RulesByState site (Open (life_view self.now)) (lent_call method.entry) result }
    {
        match site.side {
            Side::Client => self.judge_reply(method),
            Side::Server => self.judge_request(method),
        }
    }

    /// A method that has nothing to do with requests, where no content is under way.
    #[inline(always)]
    #[tactic(auto, using(crate::proofs::OneWayLemmas::is_other, crate::proofs::OneWayLemmas::unmatched, crate::proofs::VerdictLemmas::message_rules))]
    fn judge_one_way(&self, site: Site, method: MethodRef<'_>) -> Verdict
        requires idle { IsIdle self.now }
        requires one_way { is_one_way (not (is_client (role_of site.side))) (lent_call method).kind ≡ true }
        ensures rules { RulesByState site (Open (life_view self.now)) (lent_call method.entry) result }
        ensures tells { TellsMessage (lent_call method.entry) result }
    {
        tell_message(method)
    }

    /// The event of a method that has nothing to do with requests, where no content is under way: a publish or an ack.
    #[inline(always)]
    pub(crate) fn passes(&self, site: Site, method: MethodRef<'_>) -> Option<Told>
        ensures rules { IfSome result (λ told. RulesByState site (Open (life_view self.now)) (lent_call method.entry)
            (Proceeds told None)) }
        ensures tells { IfSome result (λ told. TellsMessage (lent_call method.entry) (Proceeds told None)) }
        ensures one_way { IfSome result (λ told. is_one_way (not (is_client (role_of site.side)))
            (lent_call method.entry).kind ≡ true) }
        ensures idle { IfSome result (λ told. IsIdle self.now) }
    {
        if self.content.is_under_way() || !method.kind().is_one_way(!site.side.is_client()) {
            return None;
        }
        match self.judge_one_way(site, method) {
            Verdict::Proceeds(told, None) => Some(told),
            Verdict::Proceeds(_, Some(_)) => None,
            Verdict::RefusesContent => None,
            Verdict::Faults(_) => None,
        }
    }

    /// The header of a content that is gathered, where nothing changes beside the content.
    #[inline(always)]
    pub(crate) fn passes_header(&self, site: Site, header: HeaderRef<'_>) -> Option<Told>
        requires above { 0 < site.number }
        requires within { site.number ≤ site.channel_max }
        ensures { IfSome result (Passes site (Open (life_view self.now))
            (HeaderOf (lent_header header.entry).body_size (lent_header header.entry).properties)) }
    {
        match &self.content {
            Gathering::HeaderDue(begun) => {
                passes_content(site.side, begun.kind(), judge_awaited(site, header))
            }
            Gathering::Nothing | Gathering::BodyDue { .. } | Gathering::Deferred(_) => None,
        }
    }

    /// Whether the header of a content is due.
    #[inline(always)]
    pub(crate) fn awaits_header(&self) -> bool {
        match &self.content {
            Gathering::HeaderDue(_) => true,
            Gathering::Nothing | Gathering::BodyDue { .. } | Gathering::Deferred(_) => false,
        }
    }

    /// A part of the body of a content that is gathered, where nothing changes beside the content. Where its header is
    /// kept as its octets, the rules are asked.
    #[inline(always)]
    pub(crate) fn passes_body(&self, site: Site, octets: &[u8]) -> Option<Told>
        requires above { 0 < site.number }
        requires within { site.number ≤ site.channel_max }
        ensures passes { IfSome result (Passes site (Open (life_view self.now)) (BodyOf octets.now)) }
        ensures read { IfSome result (λ told. IsRead self.now.content) }
    {
        match &self.content {
            Gathering::BodyDue { content, .. } => passes_content(
                site.side,
                content.kind(),
                judge_part(
                    site,
                    content.header.body_size,
                    content.body.len() as u64,
                    octets,
                ),
            ),
            Gathering::Nothing | Gathering::HeaderDue(_) | Gathering::Deferred(_) => None,
        }
    }

    /// A method that doesn't close the channel, where no content is under way.
    #[inline(always)]
    fn judge_idle(&self, site: Site, method: MethodRef<'_>) -> Verdict
        requires idle { IsIdle self.now }
        requires goes_on { (lent_call method).kind ≢ Kind.ChannelClose }
        ensures { RulesByState site (Open (life_view self.now)) (lent_call method.entry) result }
    {
        match method.kind() {
            Kind::ChannelFlow => {
                let active = lent_bit_at(0, method);
                Verdict::Proceeds(Told::Flow(active), Some(Reply::FlowOk(active)))
            }
            Kind::ChannelFlowOk => {
                if !self.standing.awaits_flow_ok() {
                    return Verdict::Faults(CloseCode::CommandInvalid);
                }
                Verdict::Proceeds(Told::FlowOk(lent_bit_at(0, method)), None)
            }
            Kind::ChannelOpen => Verdict::Faults(match site.side {
                Side::Client => CloseCode::CommandInvalid,
                Side::Server => CloseCode::ChannelError,
            }),
            Kind::ChannelOpenOk | Kind::ChannelCloseOk => Verdict::Faults(
                CloseCode::CommandInvalid,
            ),
            _ => self.judge_message(site, method),
        }
    }

    /// A method on a channel that is Open. A close ends the life at any place; no other method stands inside a content.
    #[inline(always)]
    pub(crate) fn judge_method(&self, site: Site, method: MethodRef<'_>) -> Verdict
        ensures { RulesByState site (Open (life_view self.now)) (lent_call method.entry) result }
    {
        if method.kind() == Kind::ChannelClose {
            return Verdict::Proceeds(Told::ClosedByPeer, Some(Reply::CloseOk));
        }
        if self.content.is_under_way() {
            return Verdict::Faults(CloseCode::UnexpectedFrame);
        }
        self.judge_idle(site, method)
    }

    /// A header, where one may come.
    pub(crate) fn judge_header(&self, site: Site, header: HeaderRef<'_>) -> Verdict
        requires above { 0 < site.number }
        requires within { site.number ≤ site.channel_max }
        ensures { Rules site (Open (life_view self.now)) (HeaderOf (lent_header header.entry).body_size
            (lent_header header.entry).properties) result }
    {
        match &self.content {
            Gathering::Nothing | Gathering::BodyDue { .. } | Gathering::Deferred(_) => {
                Verdict::Faults(CloseCode::UnexpectedFrame)
            }
            Gathering::HeaderDue(_) => judge_awaited(site, header),
        }
    }

    /// A part of a body, where one may come.
    pub(crate) fn judge_body(&self, site: Site, octets: &[u8]) -> Verdict
        requires above { 0 < site.number }
        requires within { site.number ≤ site.channel_max }
        ensures { Rules site (Open (life_view self.now)) (BodyOf octets.now) result }
    {
        match &self.content {
            Gathering::Nothing | Gathering::HeaderDue(_) => {
                Verdict::Faults(CloseCode::UnexpectedFrame)
            }
            Gathering::BodyDue { content, .. } => judge_part(
                site,
                content.header.body_size,
                content.body.len() as u64,
                octets,
            ),
            Gathering::Deferred(deferred) => judge_part(
                site,
                deferred.size(),
                deferred.content.body.len() as u64,
                octets,
            ),
        }
    }
}

impl Life {
    ghost use Rattle.amqp_channel.specs.Channel.LifeView.{life_view, IsIdle, IsOther};

    /// A server keeps a request that it takes.
    #[inline(always)]
    fn keep_asked(
        &mut self,
        alloc: Global,
        side: Side,
        method: MethodRef<'_>,
    ) -> Result<(), OutOfMemory>
        ensures ok { OnOk result (life_view self.new ≡ asked_with (role_of side) (Calls (lent_call method.entry))
            (life_view self.old)) }
        ensures err { OnErr result (life_view self.new ≡ life_view self.old) }
    {
        if !side.is_client() && method.is_request() {
            self.standing.keep_request(alloc, method.kind())?;
        }
        Ok(())
    }

    /// A method without content: a client's reply takes its request away, and a server keeps a request.
    #[inline(always)]
    fn apply_method(
        &mut self,
        alloc: Global,
        side: Side,
        method: MethodRef<'_>,
    ) -> Result<(), OutOfMemory>
        ensures ok { OnOk result (life_view self.new ≡ told_in (role_of side) (Calls (lent_call method.entry))
            Told.Method (life_view self.old)) }
        ensures err { OnErr result (life_view self.new ≡ life_view self.old) }
    {
        match side {
            Side::Client => {
                if method.kind().is_reply() {
                    self.standing.answer_request();
                }
                Ok(())
            }
            Side::Server => self.keep_asked(alloc, side, method),
        }
    }

    /// A method begins a content. Out of memory, none is begun.
    #[inline(always)]
    fn begin(&mut self, alloc: Global, side: Side, method: MethodRef<'_>) -> Result<(), OutOfMemory>
        requires { content_follows (lent_call method) ≡ true }
        ensures ok { OnOk result (life_view self.new ≡ told_in (role_of side) (Calls (lent_call method.entry))
            Told.Begun (life_view self.old)) }
        ensures err { OnErr result (life_view self.new ≡ life_view self.old) }
    {
        let begun = Begun::new(alloc, method)?;
        self.keep_asked(alloc, side, method)?;
        self.content = Gathering::HeaderDue(begun);
        Ok(())
    }

    /// A method that has nothing to do with requests begins a content, where none is under way. Out of memory, none is
    /// begun.
    #[inline(always)]
    pub(crate) fn begin_one_way(
        &mut self,
        alloc: Global,
        method: MethodRef<'_>,
    ) -> Result<(), OutOfMemory>
        requires idle { IsIdle self.old }
        requires follows { content_follows (lent_call method) ≡ true }
        ensures ok { OnOk result (life_view self.new ≡ with_content (life_view self.old)
            (HeaderDue (lent_call method.entry))) }
        ensures err { OnErr result (life_view self.new ≡ life_view self.old) }
    {
        let begun = Begun::new(alloc, method)?;
        forget(replace(&mut self.content, Gathering::HeaderDue(begun)));
        Ok(())
    }

    /// The header of a content without a body, which answers no request.
    #[inline(always)]
    pub(crate) fn finish_header_one_way(
        &mut self,
        alloc: Global,
        header: HeaderRef<'_>,
    ) -> Result<Box<Content>, OutOfMemory>
        requires { IsWhole (whole_at (life_view self.old).content (header_said header)) }
        ensures whole { IfOk result (λ content. whole_at (life_view self.old).content (header_said header.entry)
            ≡ Some (content_view content.value)) }
        ensures ok { OnOk result (life_view self.new ≡ with_content (life_view self.old) Nothing) }
        ensures err { OnErr result (life_view self.new ≡ life_view self.old) }
    {
        let content = self.content.finish_header(alloc, header)?;
        Ok(content)
    }

    /// The last part of the body of a content that answers no request.
    #[inline(always)]
    pub(crate) fn finish_one_way(&mut self, octets: &[u8]) -> Result<Box<Content>, OutOfMemory>
        requires read { IsRead self.old.content }
        requires whole { IsWhole (whole_with (life_view self.old).content octets.now) }
        ensures whole { IfOk result (λ content. whole_with (life_view self.old).content octets.now
            ≡ Some (content_view content.value)) }
        ensures ok { OnOk result (life_view self.new ≡ with_content (life_view self.old) Nothing) }
        ensures err { OnErr result (life_view self.new ≡ life_view self.old) }
    {
        self.content.finish_due(octets)
    }

    /// A part of a body, after which more is due.
    #[inline(always)]
    #[tactic(auto, using(crate::proofs::HeaderLemmas::header_continued))]
    pub(crate) fn fill(&mut self, side: Side, octets: &[u8]) -> Result<(), OutOfMemory>
        ensures ok { OnOk result (life_view self.new ≡ told_in (role_of side) (BodyOf octets.now) Told.Continued
            (life_view self.old)) }
        ensures err { OnErr result (life_view self.new ≡ life_view self.old) }
    {
        self.content.append(octets)
    }

    /// A header, after which the body is due.
    #[inline(always)]
    #[tactic(auto, using(crate::proofs::HeaderLemmas::measured_after))]
    pub(crate) fn keep_header(
        &mut self,
        alloc: Global,
        side: Side,
        header: HeaderRef<'_>,
    ) -> Result<(), OutOfMemory>
        requires { IsHeaderDue (life_view self.old).content }
        ensures ok { OnOk result (life_view self.new ≡ told_in (role_of side) (header_said header.entry) Told.Headed
            (life_view self.old)) }
        ensures err { OnErr result (life_view self.new ≡ life_view self.old) }
    {
        self.content.head(alloc, header)
    }

    /// A header with its table of headers and no other property, after which the body is due.
    #[inline(always)]
    #[tactic(auto, using(crate::proofs::HeaderLemmas::measured_with))]
    pub(crate) fn head_with(
        &mut self,
        side: Side,
        header: HeaderRef<'_>,
        length: u32,
        table: Option<Table>,
    )
        requires due { IsHeaderDue (life_view self.old).content }
        requires counts { length ≡ length_said header }
        requires alone { (lent_header header).properties ≡ headers_alone table }
        ensures { life_view self.new ≡ told_in (role_of side) (header_said header.entry) Told.Headed
            (life_view self.old) }
    {
        self.content.head_with(header, length, table);
    }

    /// The header of a content without a body, which is whole. A client's reply takes its request away.
    #[inline(always)]
    fn finish_header(
        &mut self,
        alloc: Global,
        side: Side,
        header: HeaderRef<'_>,
    ) -> Result<Box<Content>, OutOfMemory>
        requires { IsWhole (whole_at (life_view self.old).content (header_said header)) }
        ensures whole { IfOk result (λ content. whole_at (life_view self.old).content (header_said header.entry)
            ≡ Some (content_view content.value)) }
        ensures ok { OnOk result (life_view self.new ≡ told_in (role_of side) (header_said header.entry)
            Told.Completed (life_view self.old)) }
        ensures err { OnErr result (life_view self.new ≡ life_view self.old) }
    {
        let replies = side.is_client() && self.replies();
        let content = self.content.finish_header(alloc, header)?;
        if replies {
            self.standing.answer_request();
        }
        Ok(content)
    }

    /// The last part of a body. A client's reply takes its request away.
    #[inline(always)]
    fn finish(&mut self, side: Side, octets: &[u8]) -> Result<Box<Content>, OutOfMemory>
        requires { IsWhole (whole_with (life_view self.old).content octets.now) }
        ensures whole { IfOk result (λ content. whole_with (life_view self.old).content octets.now
            ≡ Some (content_view content.value)) }
        ensures ok { OnOk result (life_view self.new ≡ told_in (role_of side) (BodyOf octets.now) Told.Completed
            (life_view self.old)) }
        ensures err { OnErr result (life_view self.new ≡ life_view self.old) }
    {
        let replies = side.is_client() && self.replies();
        let content = self.content.finish(octets)?;
        if replies {
            self.standing.answer_request();
        }
        Ok(content)
    }

    /// Whether the content under way is a reply.
    pub(crate) fn replies(&self) -> bool
        ensures { result ≡ replies_in (life_view self.now).content }
    {
        match &self.content {
            Gathering::Nothing => false,
            Gathering::HeaderDue(begun) => begun.kind().is_reply(),
            Gathering::BodyDue { content, .. } => content.kind().is_reply(),
            Gathering::Deferred(deferred) => deferred.content.kind().is_reply(),
        }
    }

    /// A flow pauses the channel or lets it go on, and flow-ok answers this end's.
    fn apply_flow(&mut self, side: Side, told: Told)
        requires { IsFlow told }
        ensures { (reading : readings.Reading) → life_view self.new ≡ told_in (role_of side) reading told
            (life_view self.old) }
    {
        match told {
            Told::Flow(active) => self.standing.pause(!active),
            Told::FlowOk(_) => self.standing.await_flow_ok(false),
            _ => unreachable!(),
        }
    }
}

impl Life {
    ghost use Rattle.amqp_channel.specs.Channel.LifeView.{life_view, IsIdle, IsOther};

    /// The frame that makes a content whole: the last part of its body, or its header.
    #[inline(always)]
    fn finish_content(
        &mut self,
        alloc: Global,
        side: Side,
        reading: Reading<'_>,
    ) -> Result<Box<Content>, OutOfMemory>
        requires { IsWhole (whole_at (life_view self.old).content (reading_view reading)) }
        ensures whole { IfOk result (λ content. whole_at (life_view self.old).content (reading_view reading.entry)
            ≡ Some (content_view content.value)) }
        ensures ok { OnOk result (life_view self.new
            ≡ told_in (role_of side) (reading_view reading.entry) Told.Completed (life_view self.old)) }
        ensures err { OnErr result (life_view self.new ≡ life_view self.old) }
    {
        match reading {
            Reading::Body(octets) => self.finish(side, octets),
            Reading::Header(header) => self.finish_header(alloc, side, header),
            Reading::Method(_) => unreachable!(),
            Reading::UnknownMethod => unreachable!(),
            Reading::MalformedMethod => unreachable!(),
            Reading::MalformedHeader => unreachable!(),
            Reading::Heartbeat(_) => unreachable!(),
        }
    }

    /// A frame that neither opens nor ends the life. What is answered is the content that the frame makes whole.
    #[inline(always)]
    pub(crate) fn apply(
        &mut self,
        alloc: Global,
        side: Side,
        reading: Reading<'_>,
        told: Told,
    ) -> Result<Option<Box<Content>>, OutOfMemory>
        requires { FitsTold (Open (life_view self.old)) (reading_view reading) told }
        ensures content { IfOk result (λ content. content_there content
            ≡ whole_of told (whole_at (life_view self.old).content (reading_view reading.entry))) }
        ensures ok { OnOk result (life_view self.new
            ≡ told_in (role_of side) (reading_view reading.entry) told (life_view self.old)) }
        ensures err { OnErr result (life_view self.new ≡ life_view self.old) }
        ensures drops { IsDiscarded told → IsOk result }
    {
        match told {
            Told::Method => {
                let Reading::Method(method) = reading else {
                    unreachable!()
                };
                self.apply_method(alloc, side, method)?;
            }
            Told::Begun => {
                let Reading::Method(method) = reading else {
                    unreachable!()
                };
                self.begin(alloc, side, method)?;
            }
            Told::Headed => {
                let Reading::Header(header) = reading else {
                    unreachable!()
                };
                self.keep_header(alloc, side, header)?;
            }
            Told::Continued => {
                let Reading::Body(octets) = reading else {
                    unreachable!()
                };
                self.fill(side, octets)?;
            }
            Told::Completed => return Ok(Some(self.finish_content(alloc, side, reading)?)),
            Told::Flow(_) | Told::FlowOk(_) => self.apply_flow(side, told),
            Told::Opened | Told::ClosedByPeer | Told::ClosedByUs | Told::Discarded | Told::Quiet =>
                {}
        }
        Ok(None)
    }
}
