//! How a channel stands, beside the content under way: whether it is paused, whether this end's flow is unanswered, and the
//! requests without a reply.
//!
//! A connection has up to tens of thousands of channels, most of them idle. So the marks stand in each variant, beside its tag,
//! and the requests in a box, which is there from the first request on.
ghost use Rattle.std.specs.Prelude.{◌≡◌, ◌++◌, ◌∷◌, true, false, [], drop, length, None, IfOk, IsOk, OnOk, OnErr};
ghost use Rattle.amqp_method.specs.MethodRefView.{lent_call};
ghost use Rattle.amqp_method.specs.MethodView.{method_view};
ghost use Rattle.amqp_method.specs.Requests.{is_request};
ghost use Rattle.amqp_model.specs.End.Answers.{first_request};
ghost use Rattle.amqp_model.specs.End.Channels as model;
ghost use Rattle.amqp_model.specs.End.Channels.{Open};
ghost use Rattle.amqp_model.specs.End.FrameVerdict.{answers_first};
ghost use Rattle.amqp_model.specs.End.Machine.{channel_after};
ghost use Rattle.amqp_model.specs.History.Histories.{PutHere};
ghost use Rattle.amqp_model.specs.Wire.Frame.{Frame};
ghost use Rattle.amqp_model.specs.Wire.Gathering.{Gathering};
ghost use Rattle.amqp_model.specs.Wire.Notes.{Server};
ghost use Rattle.amqp_model.specs.Wire.Readings.{Calls, kind_of};
ghost use Rattle.amqp_channel.specs.Verdict.LentView.{StandsAs};
ghost use Rattle.amqp_channel.specs.Channel.LifeView.{life_on, IsOther};
ghost use Rattle.amqp_channel.specs.ReadingView.{reading_view};
ghost use Rattle.amqp_channel.specs.Roles.{role_of};
ghost use Rattle.amqp_channel.specs.Channel.StandingView.{awaits_in, paused_in, requests_in};
ghost use Rattle.amqp_channel.specs.Verdict.VerdictView.{asked_with, goes_on, handed_out, left_by, replies_in, told_in};

use crate::reading::Reading;
use crate::side::Side;
use crate::verdict::{Told, Verdict};
use amqp_method::{Kind, Method, MethodRef, OutOfMemory};
use std::alloc::Global;
use std::collections::VecDeque;

/// How a channel stands that is Open.
#[derive(Drop)]
pub enum Standing {
    /// No request was made yet.
    Quiet {
        paused: bool,
        awaits: bool,
    },
    /// The requests without a reply, the oldest first.
    Asked {
        paused: bool,
        awaits: bool,
        requests: Box<VecDeque<Kind>>,
    },
}

/// A box with the first request.
fn begun(alloc: Global, request: Kind) -> Result<Box<VecDeque<Kind>>, OutOfMemory>
    ensures { IfOk result (λ requests. requests.value.items ≡ request ∷ []) }
{
    let mut requests = VecDeque::new(alloc);
    requests.push_back(request)?;
    Ok(Box::new(alloc, requests)?)
}

impl Standing {
    /// A life begins with nothing paused or awaited.
    pub(crate) fn new() -> Standing
        ensures paused { paused_in result ≡ false }
        ensures awaits { awaits_in result ≡ false }
        ensures requests { requests_in result ≡ [] }
    {
        Standing::Quiet {
            paused: false,
            awaits: false,
        }
    }

    /// Whether the other end asked for no more contents.
    pub fn is_paused(&self) -> bool
        ensures { result ≡ paused_in self.now }
    {
        match self {
            Standing::Quiet { paused, .. } => *paused,
            Standing::Asked { paused, .. } => *paused,
        }
    }

    /// The other end asks for no more contents, or for contents again.
    pub(crate) fn pause(&mut self, pauses: bool)
        ensures paused { paused_in self.new ≡ pauses }
        ensures awaits { awaits_in self.new ≡ awaits_in self.old }
        ensures requests { requests_in self.new ≡ requests_in self.old }
    {
        match self {
            Standing::Quiet { paused, .. } => *paused = pauses,
            Standing::Asked { paused, .. } => *paused = pauses,
        }
    }

    /// Whether this end's flow is unanswered.
    pub fn awaits_flow_ok(&self) -> bool
        ensures { result ≡ awaits_in self.now }
    {
        match self {
            Standing::Quiet { awaits, .. } => *awaits,
            Standing::Asked { awaits, .. } => *awaits,
        }
    }

    /// This end puts flow, or takes flow-ok.
    pub(crate) fn await_flow_ok(&mut self, is_due: bool)
        ensures paused { paused_in self.new ≡ paused_in self.old }
        ensures awaits { awaits_in self.new ≡ is_due }
        ensures requests { requests_in self.new ≡ requests_in self.old }
    {
        match self {
            Standing::Quiet { awaits, .. } => *awaits = is_due,
            Standing::Asked { awaits, .. } => *awaits = is_due,
        }
    }

    /// How many requests have no reply.
    pub fn requests(&self) -> usize
        ensures { result ≡ length (requests_in self.now) }
    {
        match self {
            Standing::Quiet { .. } => 0,
            Standing::Asked { requests, .. } => requests.len(),
        }
    }

    /// The oldest request without a reply.
    pub fn oldest_request(&self) -> Option<Kind>
        ensures { result ≡ first_request (requests_in self.now) }
    {
        match self {
            Standing::Quiet { .. } => None,
            Standing::Asked { requests, .. } => match requests.front() {
                Some(request) => Some(*request),
                None => None,
            },
        }
    }

    /// Whether a reply answers the oldest request.
    pub fn is_answered_by(&self, reply: Kind) -> bool
        ensures { result ≡ answers_first reply (requests_in self.now) }
    {
        match self {
            Standing::Quiet { .. } => false,
            Standing::Asked { requests, .. } => match requests.front() {
                Some(request) => reply.is_reply_to(*request),
                None => false,
            },
        }
    }

    /// One more request. Out of memory, all is as it was.
    pub(crate) fn keep_request(&mut self, alloc: Global, request: Kind) -> Result<(), OutOfMemory>
        ensures paused { paused_in self.new ≡ paused_in self.old }
        ensures awaits { awaits_in self.new ≡ awaits_in self.old }
        ensures ok { OnOk result (requests_in self.new ≡ requests_in self.old ++ (request ∷ [])) }
        ensures err { OnErr result (requests_in self.new ≡ requests_in self.old) }
    {
        match self {
            Standing::Quiet { paused, awaits } => {
                let paused = *paused;
                let awaits = *awaits;
                let requests = begun(alloc, request)?;
                *self = Standing::Asked {
                    paused,
                    awaits,
                    requests,
                };
                Ok(())
            }
            Standing::Asked { requests, .. } => {
                requests.push_back(request)?;
                Ok(())
            }
        }
    }

    /// The oldest request, if there is one, has its reply.
    pub(crate) fn answer_request(&mut self)
        ensures paused { paused_in self.new ≡ paused_in self.old }
        ensures awaits { awaits_in self.new ≡ awaits_in self.old }
        ensures requests { requests_in self.new ≡ drop 1 (requests_in self.old) }
    {
        if let Standing::Asked { requests, .. } = self {
            let _ = requests.pop_front();
        }
    }
}

impl Standing {
    /// The method of a message that an end puts: a client's request waits for its reply, a server's reply answers the oldest
    /// request that it keeps. Out of memory, all is as it was.
    pub(crate) fn put(
        &mut self,
        alloc: Global,
        side: Side,
        method: &Method,
    ) -> Result<(), OutOfMemory>
        requires { IsOther (kind_of (Calls (method_view method.now))) }
        ensures ok { OnOk result ((content : Gathering) (frame : Frame) → Open (life_on content self.new)
            ≡ channel_after (role_of side) (PutHere (Calls (method_view method.now)) frame)
            (Open (life_on content self.old))) }
        ensures err { OnErr result ((content : Gathering) → Open (life_on content self.new)
            ≡ Open (life_on content self.old)) }
        ensures no_room { is_request (method_view method.now) ≡ false → IsOk result }
    {
        match side {
            Side::Client => {
                if method.is_request() {
                    self.keep_request(alloc, method.kind())?;
                }
            }
            Side::Server => {
                if method.kind().is_reply() {
                    self.answer_request();
                }
            }
        }
        Ok(())
    }

    /// A server keeps a request that it takes.
    fn take_request(&mut self, alloc: Global, method: MethodRef<'_>) -> Result<(), OutOfMemory>
        ensures ok { OnOk result ((content : Gathering)
            → StandsAs (asked_with Server (Calls (lent_call method.entry)) (life_on content self.old)) self.new) }
        ensures err { OnErr result ((content : Gathering) → Open (life_on content self.new)
            ≡ Open (life_on content self.old)) }
    {
        if method.is_request() {
            self.keep_request(alloc, method.kind())?;
        }
        Ok(())
    }

    /// A method without content: a client's reply takes its request away, and a server keeps a request.
    #[inline(always)]
    fn take_method(
        &mut self,
        alloc: Global,
        side: Side,
        method: MethodRef<'_>,
    ) -> Result<(), OutOfMemory>
        ensures ok { OnOk result ((content : Gathering)
            → StandsAs (told_in (role_of side) (Calls (lent_call method.entry)) Told.Method
            (life_on content self.old)) self.new) }
        ensures err { OnErr result ((content : Gathering) → Open (life_on content self.new)
            ≡ Open (life_on content self.old)) }
    {
        match side {
            Side::Client => {
                if method.kind().is_reply() {
                    self.answer_request();
                }
                Ok(())
            }
            Side::Server => self.take_request(alloc, method),
        }
    }

    /// What a frame changes that neither opens nor ends a life. The content under way is a reply, or isn't. Out of memory,
    /// all is as it was.
    #[inline(always)]
    pub(crate) fn take(
        &mut self,
        alloc: Global,
        side: Side,
        reading: Reading<'_>,
        told: Told,
        replies: bool,
    ) -> Result<(), OutOfMemory>
        ensures ok { OnOk result ((content : Gathering) → replies_in content ≡ replies
            → StandsAs (told_in (role_of side) (reading_view reading.entry) told (life_on content self.old)) self.new) }
        ensures err { OnErr result ((content : Gathering) → Open (life_on content self.new)
            ≡ Open (life_on content self.old)) }
    {
        match told {
            Told::Method => {
                if let Reading::Method(method) = reading {
                    self.take_method(alloc, side, method)?;
                }
            }
            Told::Begun => {
                if let (Side::Server, Reading::Method(method)) = (side, reading) {
                    self.take_request(alloc, method)?;
                }
            }
            Told::Completed => {
                if side.is_client() && replies {
                    self.answer_request();
                }
            }
            Told::Flow(active) => self.pause(!active),
            Told::FlowOk(_) => self.await_flow_ok(false),
            Told::Headed
            | Told::Continued
            | Told::Opened
            | Told::ClosedByPeer
            | Told::ClosedByUs
            | Told::Discarded
            | Told::Quiet => {}
        }
        Ok(())
    }
}

/// Whether a method without content leaves each channel as it was: at a client one that is no reply, and at a server
/// one that is no request.
#[tactic(auto, using(crate::proofs::StayLemmas::no_reply, crate::proofs::StayLemmas::no_request))]
fn leaves_requests(side: Side, method: MethodRef<'_>) -> bool
    ensures { result ≡ true → (channel : model.Channel)
        → channel ≡ goes_on (role_of side) (Calls (lent_call method.entry)) Told.Method channel }
{
    match side {
        Side::Client => !method.kind().is_reply(),
        Side::Server => !method.is_request(),
    }
}

/// Whether a frame with this verdict is known to leave each channel as it was, and to make no content whole: most methods
/// without content do.
#[inline(always)]
pub(crate) fn leaves_channel(side: Side, reading: Reading<'_>, verdict: Verdict) -> bool
    ensures left { result ≡ true → (channel : model.Channel)
        → channel ≡ left_by (role_of side) (reading_view reading.entry) verdict channel }
    ensures content { result ≡ true → (channel : model.Channel)
        → None ≡ handed_out channel (reading_view reading.entry) verdict }
{
    if let (Verdict::Proceeds(Told::Method, _), Reading::Method(method)) = (verdict, reading) {
        return leaves_requests(side, method);
    }
    false
}
