//! What an end keeps of a channel, what the rules say of a frame that comes there, and what the frame leaves.
//!
//! A channel's number is Free, then Opening at a client whose open-ok is due, then Open, then Closing at the end that
//! put the close, and Free again:
//!
//!     Free --open put--> Opening --open-ok--> Open --close put--> Closing --close-ok--> Free
//!     Free --open taken--> Open --close taken--> Free
//!
//! The rules only look. What a frame changes is done after, by its event: by an end that gathers contents, or by
//! one that lends them as they come.
ghost use Rattle.std.specs.Prelude.{◌≡◌, ◌<◌, ◌≤◌, ◌==◌, true, false, ℕ, List, IfOk, IsOk, None, Some, MatchOption, OnOk, OnErr};
ghost use Rattle.amqp_method.specs.HeaderRefView.{lent_header};
ghost use Rattle.amqp_method.specs.MethodRefView.{lent_call};
ghost use Rattle.amqp_method.specs.MethodView.{method_view};
ghost use Rattle.amqp_method.specs.Requests.{is_request};
ghost use Rattle.amqp_model.specs.End.Channels as model;
ghost use Rattle.amqp_model.specs.End.Channels.{Closing, Free, Open, Opening, new_life};
ghost use Rattle.amqp_model.specs.End.FrameVerdict.{is_gathering};
ghost use Rattle.amqp_model.specs.Lent.Streaming.{streamed};
ghost use Rattle.amqp_model.specs.Wire.Frame.{Frame};
ghost use Rattle.amqp_model.specs.Wire.Gathering.{HeaderDue, Nothing};
ghost use Rattle.amqp_model.specs.Wire.Notes.{Client, Role};
ghost use Rattle.amqp_channel.specs.declared.verdict.Verdict.TheVariants.{Proceeds};
ghost use Rattle.amqp_model.specs.Wire.Readings as readings;
ghost use Rattle.amqp_model.specs.Wire.Readings.{BodyOf, Calls, HeaderOf, MalformedHeader, kind_of};
ghost use Rattle.amqp_channel.specs.Channel.ChannelView.{channel_view, is_lent, IsFree, IsOpen, content_on};
ghost use Rattle.amqp_channel.specs.Contents.ContentView.{content_there};
ghost use Rattle.amqp_channel.specs.Channel.LifeView.{life_on, IsOther};
ghost use Rattle.amqp_channel.specs.Contents.GatheringView.{progress_view};
ghost use Rattle.amqp_channel.specs.ReadingView.{reading_view, unread_view};
ghost use Rattle.amqp_channel.specs.Roles.{role_of};
ghost use Rattle.amqp_channel.specs.Channels.Used.{is_closing_at, is_open_at};
ghost use Rattle.amqp_channel.specs.Verdict.VerdictView.{goes_on, handed_out, left_by, told_on, whole_now, whole_of, Drops, Fits, FitsTold, IsDiscarded, IsPart, Rules, RulesByState, SentOnChannel};

use crate::codes::CloseCode;
use crate::gathering::Gathering;
use crate::life::{Life, judge_awaited, judge_part};
use crate::progress::Progress;
use crate::reading::{Reading, Unread};
use crate::side::Side;
use crate::site::Site;
use crate::standing::Standing;
use crate::verdict::{Reply, Told, Verdict};
use amqp_method::{Content, HeaderRef, Kind, Method, MethodRef, OutOfMemory};
use std::alloc::Global;

/// What is kept of a channel.
///
/// The fields of a lent content stand in the variant, which takes no more room than that of a channel that is Open.
#[derive(Drop)]
pub enum Channel {
    Free,
    Opening,
    Closing,
    /// Open. A content under way is gathered.
    Open(Life),
    /// Open, with a content under way that is lent: its method was taken, and its header is due.
    LentHeader(Kind, Standing),
    /// The same, where its header was taken too, and so many octets of its body.
    LentBody {
        kind: Kind,
        size: u64,
        came: u64,
        standing: Standing,
    },
}

// So much an idle channel takes.
const _: () = prove!(size_of::<Channel>() == 40);

impl Channel {
    ghost use Rattle.amqp_model.specs.End.Asks.{is_free};
    ghost use Rattle.amqp_model.specs.End.Closes.{Cause, close_for, flow_as, without_arguments};
    ghost use Rattle.amqp_model.specs.End.Events.{Message, method_of};
    ghost use Rattle.amqp_model.specs.History.Histories.{PutHere};
    ghost use Rattle.amqp_model.specs.End.Machine.{channel_after};
    ghost use Rattle.amqp_method.specs.MethodView.{method_view};
    ghost use Rattle.amqp_model.specs.End.Asks.{message_payloads};
    ghost use Rattle.amqp_channel.specs.Channels.Payloads.{after_payloads};

    pub(crate) fn is_free(&self) -> bool
        ensures { result ≡ is_free (channel_view self.now) }
    {
        match self {
            Channel::Free => true,
            Channel::Opening => false,
            Channel::Closing => false,
            Channel::Open(_) => false,
            Channel::LentHeader(_, _) => false,
            Channel::LentBody { .. } => false,
        }
    }

    /// What stands beside the content of a channel that is Open.
    pub fn standing(&self) -> Option<&Standing>
        ensures { MatchOption result (is_open_at (channel_view self.now) ≡ false)
            (λ standing. channel_view self.now ≡ Open (life_on (content_on (channel_view self.now)) standing.now)) }
    {
        match self {
            Channel::Free => None,
            Channel::Opening => None,
            Channel::Closing => None,
            Channel::Open(life) => Some(&life.standing),
            Channel::LentHeader(_, standing) => Some(standing),
            Channel::LentBody { standing, .. } => Some(standing),
        }
    }

    /// An open that a client puts.
    pub(crate) fn put_open(&mut self)
        requires { IsFree self.old }
        ensures gathers { is_lent self.new ≡ false }
        ensures after { (frame : Frame)
            → channel_view self.new ≡ channel_after Client (PutHere (Calls (without_arguments Kind.ChannelOpen))
            frame) (channel_view self.old) }
    {
        *self = Channel::Opening;
    }

    /// A close that an end puts, with any code, text and cause.
    pub(crate) fn put_close(&mut self, site: Site)
        requires { IsOpen self.old }
        ensures taken { is_free (channel_view self.new) ≡ false }
        ensures gathers { is_lent self.old ≡ false → is_lent self.new ≡ false }
        ensures after { (code : ℕ) (text : List ℕ) (cause : Cause) (frame : Frame)
            → channel_view self.new ≡ channel_after (role_of site.side)
            (PutHere (Calls (close_for Kind.ChannelClose code text cause)) frame) (channel_view self.old) }
    {
        *self = Channel::Closing;
    }

    /// A flow that an end puts.
    pub(crate) fn put_flow(&mut self, site: Site, active: bool)
        requires { IsOpen self.old }
        ensures taken { is_free (channel_view self.new) ≡ false }
        ensures gathers { is_lent self.old ≡ false → is_lent self.new ≡ false }
        ensures after { (frame : Frame) → channel_view self.new ≡ channel_after (role_of site.side)
            (PutHere (Calls (flow_as Kind.ChannelFlow active)) frame) (channel_view self.old) }
    {
        match self {
            Channel::Open(life) => life.standing.await_flow_ok(true),
            Channel::LentHeader(_, standing) => standing.await_flow_ok(true),
            Channel::LentBody { standing, .. } => standing.await_flow_ok(true),
            Channel::Free | Channel::Opening | Channel::Closing => {}
        }
    }

    /// The method of a message that an end puts. Out of memory, the channel stays as it was.
    fn put_method(&mut self, alloc: Global, site: Site, method: &Method) -> Result<(), OutOfMemory>
        requires is_open { IsOpen self.old }
        requires other { IsOther (kind_of (Calls (method_view method.now))) }
        ensures open { is_open_at (channel_view self.new) ≡ true }
        ensures gathers { is_lent self.old ≡ false → is_lent self.new ≡ false }
        ensures ok { OnOk result ((frame : Frame) → channel_view self.new
            ≡ channel_after (role_of site.side) (PutHere (Calls (method_view method.now)) frame)
            (channel_view self.old)) }
        ensures err { OnErr result (channel_view self.new ≡ channel_view self.old) }
        ensures no_room { is_request (method_view method.now) ≡ false → IsOk result }
    {
        match self {
            Channel::Open(life) => life.standing.put(alloc, site.side, method),
            Channel::LentHeader(_, standing) => standing.put(alloc, site.side, method),
            Channel::LentBody { standing, .. } => standing.put(alloc, site.side, method),
            Channel::Free => unreachable!(),
            Channel::Opening => unreachable!(),
            Channel::Closing => unreachable!(),
        }
    }

    /// A message with this method that an end puts, in frames of any size. Out of memory, the channel stays as it was.
    pub(crate) fn put_message(
        &mut self,
        alloc: Global,
        site: Site,
        method: &Method,
    ) -> Result<(), OutOfMemory>
        requires is_open { IsOpen self.old }
        requires other { IsOther (kind_of (Calls (method_view method.now))) }
        ensures taken { is_free (channel_view self.new) ≡ false }
        ensures gathers { is_lent self.old ≡ false → is_lent self.new ≡ false }
        ensures ok { OnOk result ((frame_max : ℕ) (message : Message) → method_of message ≡ method_view method.now
            → channel_view self.new ≡ after_payloads (role_of site.side) site.number
            (message_payloads frame_max message) (channel_view self.old)) }
        ensures err { OnErr result (channel_view self.new ≡ channel_view self.old) }
        ensures no_room { is_request (method_view method.now) ≡ false → IsOk result }
    {
        self.put_method(alloc, site, method)
    }
}

/// A method on a channel whose close-ok is due.
#[inline(never)]
fn judge_closing(site: Site, method: MethodRef<'_>) -> Verdict
    ensures { Rules site Closing (Calls (lent_call method.entry)) result }
{
    match method.kind() {
        Kind::ChannelClose => Verdict::Proceeds(Told::Quiet, Some(Reply::CloseOk)),
        Kind::ChannelCloseOk => Verdict::Proceeds(Told::ClosedByUs, None),
        _ => Verdict::Proceeds(Told::Discarded, None),
    }
}

/// A method on a number that is free, which the other end may put.
#[inline(never)]
fn judge_free(site: Site, method: MethodRef<'_>) -> Verdict
    requires sent { SentOnChannel site (lent_call method) }
    ensures { Rules site Free (Calls (lent_call method.entry)) result }
{
    match (site.side, method.kind()) {
        (Side::Server, Kind::ChannelOpen) => Verdict::Proceeds(Told::Opened, Some(Reply::OpenOk)),
        (Side::Server, Kind::ChannelOpenOk) | (Side::Client, Kind::ChannelOpen) => {
            Verdict::Faults(CloseCode::CommandInvalid)
        }
        _ => Verdict::Faults(CloseCode::ChannelError),
    }
}

/// A method on a number whose open-ok is due.
#[inline(never)]
fn judge_opening(site: Site, method: MethodRef<'_>) -> Verdict
    requires sent { SentOnChannel site (lent_call method) }
    ensures { Rules site Opening (Calls (lent_call method.entry)) result }
{
    match (site.side, method.kind()) {
        (_, Kind::ChannelClose) => Verdict::Proceeds(Told::ClosedByPeer, Some(Reply::CloseOk)),
        (Side::Client, Kind::ChannelOpenOk) => Verdict::Proceeds(Told::Opened, None),
        (Side::Server, Kind::ChannelOpenOk) | (Side::Client, Kind::ChannelOpen) => {
            Verdict::Faults(CloseCode::CommandInvalid)
        }
        _ => Verdict::Faults(CloseCode::ChannelError),
    }
}

/// A method inside a content that is lent: a close ends the life at any place, and no other method stands there.
#[inline(never)]
fn judge_inside(site: Site, method: MethodRef<'_>) -> Verdict
    ensures { (life : model.Life) → is_gathering life.content ≡ true
        → RulesByState site (Open life) (lent_call method.entry) result }
{
    if method.kind() == Kind::ChannelClose {
        return Verdict::Proceeds(Told::ClosedByPeer, Some(Reply::CloseOk));
    }
    Verdict::Faults(CloseCode::UnexpectedFrame)
}

impl Channel {
    /// A method, by the state of the channel.
    ///
    /// What a call out of line answers is bound before it is answered: the call writes it to a place of its own, and what
    /// the rules that are inlined answer stays in registers. An ack takes 63 ns so, and 88 ns otherwise.
    #[inline(always)]
    #[tactic(auto, using(crate::proofs::VerdictLemmas::state_rules))]
    fn judge_state(&self, site: Site, method: MethodRef<'_>) -> Verdict
        requires sent { SentOnChannel site (lent_call method) }
        ensures { Rules site (channel_view self.now) (Calls (lent_call method.entry)) result }
    {
        match self {
            Channel::Free => {
                let verdict = judge_free(site, method);
                verdict
            }
            Channel::Opening => {
                let verdict = judge_opening(site, method);
                verdict
            }
            Channel::Open(life) => life.judge_method(site, method),
            Channel::LentHeader(_, _) => {
                let verdict = judge_inside(site, method);
                verdict
            }
            Channel::LentBody { .. } => {
                let verdict = judge_inside(site, method);
                verdict
            }
            Channel::Closing => {
                let verdict = judge_closing(site, method);
                verdict
            }
        }
    }

    /// A method of any kind. An answer out of line is bound first, as above.
    #[inline(always)]
    fn judge_method(&self, site: Site, method: MethodRef<'_>) -> Verdict
        requires { 0 < site.number }
        ensures { Rules site (channel_view self.now) (Calls (lent_call method.entry)) result }
    {
        if let Channel::Closing = self {
            let verdict = judge_closing(site, method);
            return verdict;
        }
        if method.class_id() == 10 || !site.side.may_take(method.kind()) {
            return Verdict::Faults(CloseCode::CommandInvalid);
        }
        if site.channel_max < site.number {
            return Verdict::Faults(CloseCode::ChannelError);
        }
        self.judge_state(site, method)
    }

    /// A method that can't be read.
    #[inline(never)]
    fn judge_unread(&self, site: Site, unread: Unread) -> Verdict
        requires { 0 < site.number }
        ensures { Rules site (channel_view self.now) (unread_view unread) result }
    {
        match self {
            Channel::Closing => Verdict::Proceeds(Told::Discarded, None),
            Channel::Free
            | Channel::Opening
            | Channel::Open(_)
            | Channel::LentHeader(_, _)
            | Channel::LentBody { .. } => Verdict::Faults(unread.code()),
        }
    }

    /// A content header on a channel that is Open.
    fn judge_open_header(&self, site: Site, header: HeaderRef<'_>) -> Verdict
        requires above { 0 < site.number }
        requires within { site.number ≤ site.channel_max }
        requires open { IsOpen self.now }
        ensures { Rules site (channel_view self.now)
            (HeaderOf (lent_header header.entry).body_size (lent_header header.entry).properties) result }
    {
        match self {
            Channel::Open(life) => life.judge_header(site, header),
            Channel::LentHeader(_, _) => judge_awaited(site, header),
            Channel::LentBody { .. } => Verdict::Faults(CloseCode::UnexpectedFrame),
            Channel::Free | Channel::Opening | Channel::Closing => unreachable!(),
        }
    }

    /// A content header.
    fn judge_header(&self, site: Site, header: HeaderRef<'_>) -> Verdict
        requires { 0 < site.number }
        ensures rules { Rules site (channel_view self.now)
            (HeaderOf (lent_header header.entry).body_size (lent_header header.entry).properties) result }
        ensures drops { is_closing_at (channel_view self.now) ≡ true → Drops result }
    {
        match self {
            Channel::Closing => Verdict::Proceeds(Told::Discarded, None),
            Channel::Free => Verdict::Faults(CloseCode::ChannelError),
            Channel::Opening => Verdict::Faults(CloseCode::ChannelError),
            Channel::Open(_) | Channel::LentHeader(_, _) | Channel::LentBody { .. } => {
                if site.channel_max < site.number {
                    return Verdict::Faults(CloseCode::ChannelError);
                }
                self.judge_open_header(site, header)
            }
        }
    }

    /// A header that can't be read, on a channel that is Open.
    fn judge_open_malformed(&self, site: Site) -> Verdict
        requires above { 0 < site.number }
        requires within { site.number ≤ site.channel_max }
        requires open { IsOpen self.now }
        ensures { Rules site (channel_view self.now) MalformedHeader result }
    {
        match self {
            Channel::Open(life) => match &life.content {
                Gathering::HeaderDue(_) => Verdict::Faults(CloseCode::SyntaxError),
                Gathering::Nothing | Gathering::BodyDue { .. } | Gathering::Deferred(_) => {
                    Verdict::Faults(CloseCode::UnexpectedFrame)
                }
            },
            Channel::LentHeader(_, _) => Verdict::Faults(CloseCode::SyntaxError),
            Channel::LentBody { .. } => Verdict::Faults(CloseCode::UnexpectedFrame),
            Channel::Free | Channel::Opening | Channel::Closing => unreachable!(),
        }
    }

    /// A header that can't be read.
    fn judge_malformed(&self, site: Site) -> Verdict
        requires { 0 < site.number }
        ensures rules { Rules site (channel_view self.now) MalformedHeader result }
        ensures drops { is_closing_at (channel_view self.now) ≡ true → Drops result }
    {
        match self {
            Channel::Closing => Verdict::Proceeds(Told::Discarded, None),
            Channel::Free => Verdict::Faults(CloseCode::ChannelError),
            Channel::Opening => Verdict::Faults(CloseCode::ChannelError),
            Channel::Open(_) | Channel::LentHeader(_, _) | Channel::LentBody { .. } => {
                if site.channel_max < site.number {
                    return Verdict::Faults(CloseCode::ChannelError);
                }
                self.judge_open_malformed(site)
            }
        }
    }

    /// A part of a body on a channel that is Open.
    fn judge_open_body(&self, site: Site, octets: &[u8]) -> Verdict
        requires above { 0 < site.number }
        requires within { site.number ≤ site.channel_max }
        requires open { IsOpen self.now }
        ensures { Rules site (channel_view self.now) (BodyOf octets.now) result }
    {
        match self {
            Channel::Open(life) => life.judge_body(site, octets),
            Channel::LentHeader(_, _) => Verdict::Faults(CloseCode::UnexpectedFrame),
            Channel::LentBody { size, came, .. } => judge_part(site, *size, *came, octets),
            Channel::Free | Channel::Opening | Channel::Closing => unreachable!(),
        }
    }

    /// A part of a body.
    fn judge_body(&self, site: Site, octets: &[u8]) -> Verdict
        requires { 0 < site.number }
        ensures rules { Rules site (channel_view self.now) (BodyOf octets.now) result }
        ensures drops { is_closing_at (channel_view self.now) ≡ true → Drops result }
    {
        match self {
            Channel::Closing => Verdict::Proceeds(Told::Discarded, None),
            Channel::Free => Verdict::Faults(CloseCode::ChannelError),
            Channel::Opening => Verdict::Faults(CloseCode::ChannelError),
            Channel::Open(_) | Channel::LentHeader(_, _) | Channel::LentBody { .. } => {
                if site.channel_max < site.number {
                    return Verdict::Faults(CloseCode::ChannelError);
                }
                self.judge_open_body(site, octets)
            }
        }
    }

    /// What the rules say of a frame on this channel, on a connection that is Running. An answer out of line is bound
    /// first, as above.
    #[inline(always)]
    pub(crate) fn judge(&self, site: Site, reading: Reading<'_>) -> Verdict
        requires { 0 < site.number }
        ensures rules { Rules site (channel_view self.now) (reading_view reading.entry) result }
        // Where this end has closed the channel, a part of a content is dropped.
        ensures drops { is_closing_at (channel_view self.now) ≡ true → IsPart (reading_view reading.entry)
            → Drops result }
    {
        match reading {
            Reading::Method(method) => self.judge_method(site, method),
            Reading::UnknownMethod => {
                let verdict = self.judge_unread(site, Unread::UnknownMethod);
                verdict
            }
            Reading::MalformedMethod => {
                let verdict = self.judge_unread(site, Unread::MalformedMethod);
                verdict
            }
            Reading::Header(header) => {
                let verdict = self.judge_header(site, header);
                verdict
            }
            Reading::MalformedHeader => {
                let verdict = self.judge_malformed(site);
                verdict
            }
            Reading::Body(octets) => {
                let verdict = self.judge_body(site, octets);
                verdict
            }
            Reading::Heartbeat(_) => Verdict::Faults(CloseCode::FrameError),
        }
    }
}

impl Channel {
    /// An open or its answer begins a life.
    pub(crate) fn begin_life(&mut self)
        ensures life { channel_view self.new ≡ Open new_life }
        ensures gathers { is_lent self.new ≡ false }
    {
        *self = Channel::Open(Life::new());
    }

    /// A close or its answer ends it.
    pub(crate) fn end_life(&mut self)
        ensures free { channel_view self.new ≡ Free }
        ensures gathers { is_lent self.new ≡ false }
    {
        *self = Channel::Free;
    }

    /// The channel that a frame with this event leaves, where none was.
    fn begun_with(told: Told) -> Channel
        ensures left { (role : Role) (reading : readings.Reading)
            → channel_view result ≡ told_on role reading told Free }
        ensures gathers { is_lent result ≡ false }
    {
        match told {
            Told::Opened => Channel::Open(Life::new()),
            Told::ClosedByPeer
            | Told::ClosedByUs
            | Told::Method
            | Told::Begun
            | Told::Headed
            | Told::Continued
            | Told::Completed
            | Told::Flow(_)
            | Told::FlowOk(_)
            | Told::Discarded
            | Told::Quiet => Channel::Free,
        }
    }

    /// The channel that a frame with this verdict leaves, where none was.
    pub(crate) fn begun_by(verdict: Verdict) -> Channel
        ensures left { (role : Role) (reading : readings.Reading)
            → channel_view result ≡ left_by role reading verdict Free }
        ensures gathers { is_lent result ≡ false }
    {
        match verdict {
            Verdict::Proceeds(told, _) => Channel::begun_with(told),
            Verdict::RefusesContent => Channel::Closing,
            Verdict::Faults(_) => Channel::Free,
        }
    }

    /// What a frame leaves that neither opens nor ends a life: a channel that is not Open stays as it is.
    #[inline(always)]
    #[tactic(auto, using(crate::proofs::VerdictLemmas::none_whole_of))]
    pub(crate) fn apply_open(
        &mut self,
        alloc: Global,
        side: Side,
        reading: Reading<'_>,
        told: Told,
    ) -> Result<Option<Box<Content>>, OutOfMemory>
        requires fits { FitsTold (channel_view self.old) (reading_view reading) told }
        requires gathers { is_lent self.old ≡ false }
        ensures gathers { is_lent self.new ≡ false }
        ensures content { IfOk result (λ content. content_there content
            ≡ whole_of told (whole_now (channel_view self.old) (reading_view reading.entry))) }
        ensures ok { OnOk result (channel_view self.new
            ≡ goes_on (role_of side) (reading_view reading.entry) told (channel_view self.old)) }
        ensures err { OnErr result (channel_view self.new ≡ channel_view self.old) }
        ensures drops { IsDiscarded told → IsOk result }
    {
        match self {
            Channel::Open(life) => life.apply(alloc, side, reading, told),
            Channel::Free | Channel::Opening | Channel::Closing => Ok(None),
            Channel::LentHeader(_, _) => unreachable!(),
            Channel::LentBody { .. } => unreachable!(),
        }
    }

    /// What a frame with this event leaves.
    fn apply_told(
        &mut self,
        alloc: Global,
        side: Side,
        reading: Reading<'_>,
        told: Told,
    ) -> Result<Option<Box<Content>>, OutOfMemory>
        requires fits { FitsTold (channel_view self.old) (reading_view reading) told }
        requires gathers { is_lent self.old ≡ false }
        ensures gathers { is_lent self.new ≡ false }
        ensures content { IfOk result (λ content. content_there content
            ≡ whole_of told (whole_now (channel_view self.old) (reading_view reading.entry))) }
        ensures ok { OnOk result (channel_view self.new
            ≡ told_on (role_of side) (reading_view reading.entry) told (channel_view self.old)) }
        ensures err { OnErr result (channel_view self.new ≡ channel_view self.old) }
        ensures drops { IsDiscarded told → IsOk result }
    {
        match told {
            Told::Opened => {
                self.begin_life();
                Ok(None)
            }
            Told::ClosedByPeer | Told::ClosedByUs => {
                self.end_life();
                Ok(None)
            }
            Told::Method
            | Told::Begun
            | Told::Headed
            | Told::Continued
            | Told::Completed
            | Told::Flow(_)
            | Told::FlowOk(_)
            | Told::Discarded
            | Told::Quiet => self.apply_open(alloc, side, reading, told),
        }
    }

    /// Leaves the channel as a frame with this verdict does. What is answered is the content that the frame makes whole. Out of
    /// memory, the channel stays as it was.
    pub(crate) fn apply(
        &mut self,
        alloc: Global,
        side: Side,
        reading: Reading<'_>,
        verdict: Verdict,
    ) -> Result<Option<Box<Content>>, OutOfMemory>
        requires fits { Fits (channel_view self.old) (reading_view reading) verdict }
        requires gathers { is_lent self.old ≡ false }
        ensures gathers { is_lent self.new ≡ false }
        ensures content { IfOk result (λ content. content_there content
            ≡ handed_out (channel_view self.old) (reading_view reading.entry) verdict) }
        ensures left { OnOk result (channel_view self.new
            ≡ left_by (role_of side) (reading_view reading.entry) verdict (channel_view self.old)) }
        ensures err { OnErr result (channel_view self.new ≡ channel_view self.old) }
        // What is dropped takes no memory.
        ensures drops { Drops verdict → IsOk result }
    {
        match verdict {
            Verdict::Proceeds(told, _) => self.apply_told(alloc, side, reading, told),
            Verdict::RefusesContent => {
                *self = Channel::Closing;
                Ok(None)
            }
            Verdict::Faults(_) => Ok(None),
        }
    }
}

impl Channel {
    /// How far the content under way has come.
    pub fn progress(&self) -> Progress
        ensures { progress_view result ≡ streamed (content_on (channel_view self.now)) }
    {
        match self {
            Channel::Free | Channel::Opening | Channel::Closing => Progress::NoContent,
            Channel::Open(life) => life.content.progress(),
            Channel::LentHeader(kind, _) => Progress::AwaitsHeader(*kind),
            Channel::LentBody {
                kind,
                size,
                came,
                ..
            } => Progress::AwaitsBody {
                kind: *kind,
                size: *size,
                came: *came,
            },
        }
    }

    /// Whether a content is under way.
    pub fn is_under_way(&self) -> bool
        ensures { result ≡ is_gathering (content_on (channel_view self.now)) }
    {
        match self {
            Channel::Free | Channel::Opening | Channel::Closing => false,
            Channel::Open(life) => life.content.is_under_way(),
            Channel::LentHeader(_, _) | Channel::LentBody { .. } => true,
        }
    }
}
