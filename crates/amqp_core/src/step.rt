//! A step of an end whose events lend: what came of a piece, before the event is made.
//!
//! The frame lies in the piece, or in the end's own buffer. A step borrows the piece alone, so the end can be asked and
//! written before the event is taken.
ghost use Rattle.std.specs.Prelude.{◌≡◌, IfSome, IsOk, None, Ok, Option, Some};
ghost use Rattle.amqp_frame.specs.Frame.{Frame};
ghost use Rattle.amqp_channel.specs.Events.PartsView.{parts_there};
ghost use Rattle.amqp_channel.specs.ReadingView.{reading_view};
ghost use Rattle.amqp_core.specs.Faults.Answering.{ran_out};
ghost use Rattle.amqp_core.specs.Faults.Blamed.{code_found};
ghost use Rattle.amqp_core.specs.Stream.StepView.{came_lent, heard_seen, quiet_there, read_in, seen_by, step_seen};
ghost use Rattle.amqp_core.specs.Stream.EventRefView.{channel_lent, event_ref_there, notice_lent, report_lent};

use crate::account::Account;
use crate::event_ref::{
    EventRef, lend_blocked, lend_channel_close, lend_close, lend_method, lend_part,
};
use crate::faults::CoreFault;
use crate::verdict::Notice;
use amqp_channel::{EventParts, Reading, Told};

/// The event of a frame: of its channel, or of the connection.
#[derive(Clone, Copy)]
pub(crate) enum Report {
    OnChannel(Told),
    OfConnection(Notice),
}

/// Where the event of a frame lies.
#[derive(Clone, Copy)]
pub(crate) enum Came<'a> {
    /// The frame lies in the piece, and this is its event.
    Told(EventRef<'a>),
    /// The frame lies in the end's buffer, and this is its event on its channel.
    Buffered(u16, Report),
}

/// What came of a piece: how many of its octets were taken, and the event of the frame that the last of them ends.
#[derive(Clone, Copy)]
pub struct Step<'a> {
    pub octets: usize,
    pub(crate) came: Option<Came<'a>>,
}

impl<'a> Step<'a> {
    /// The event, where the frame lies in the piece: it lends of the piece alone, so the end can go on. None where no
    /// frame was finished, and where the frame lies in the end's buffer, whose event
    /// [`StreamEnd::event`](crate::StreamEnd::event) lends.
    #[inline(always)]
    pub fn in_piece(self) -> Option<EventRef<'a>>
        ensures event { event_ref_there result ≡ came_lent self.entry.came None }
        ensures alone { IfSome result (λ event. (given : Option Frame) → came_lent self.entry.came given
            ≡ came_lent self.entry.came None) }
    {
        match self.came? {
            Came::Told(event) => Some(event),
            Came::Buffered(_, _) => None,
        }
    }
}

/// The event of a frame of a channel that is no message.
///
/// It stands apart, as few frames do: with it in line, what takes a frame would be too large to stand where it is called.
#[inline(never)]
fn lend_apart<'a>(number: u16, reading: Reading<'a>, told: Told) -> Option<EventRef<'a>>
    ensures { event_ref_there result ≡ channel_lent number (reading_view reading.entry) told }
{
    match told {
        Told::Method => lend_method(number, reading),
        Told::Begun | Told::Continued | Told::Headed => lend_part(number, reading, false),
        Told::Completed => lend_part(number, reading, true),
        Told::Opened => Some(EventRef::Opened(number)),
        Told::Flow(active) => Some(EventRef::Flow(number, active)),
        Told::FlowOk(active) => Some(EventRef::FlowOk(number, active)),
        Told::ClosedByPeer => lend_channel_close(number, reading),
        Told::ClosedByUs => Some(EventRef::ChannelClosed(number, None)),
        Told::Discarded => Some(EventRef::Discarded(number)),
        Told::Quiet => Some(EventRef::Quiet),
    }
}

/// The event of a frame of a channel.
#[inline(always)]
fn lend_told<'a>(number: u16, reading: Reading<'a>, told: Told) -> Option<EventRef<'a>>
    ensures { event_ref_there result ≡ channel_lent number (reading_view reading.entry) told }
{
    match told {
        Told::Method => lend_method(number, reading),
        Told::Begun => lend_part(number, reading, false),
        Told::Headed => lend_part(number, reading, false),
        Told::Continued => lend_part(number, reading, false),
        Told::Completed => lend_part(number, reading, true),
        Told::Opened
        | Told::Flow(_)
        | Told::FlowOk(_)
        | Told::ClosedByPeer
        | Told::ClosedByUs
        | Told::Discarded
        | Told::Quiet => {
            let event = lend_apart(number, reading, told);
            event
        }
    }
}

/// The event of a frame of the connection.
fn lend_notice<'a>(number: u16, reading: Reading<'a>, notice: Notice) -> Option<EventRef<'a>>
    ensures { event_ref_there result ≡ notice_lent number (reading_view reading.entry) notice }
{
    match notice {
        Notice::Quiet => Some(EventRef::Quiet),
        Notice::Discarded => Some(EventRef::Discarded(number)),
        Notice::AnswerAsked => Some(EventRef::AnswerAsked),
        Notice::LoginAsked => Some(EventRef::LoginAsked),
        Notice::OpenAsked => Some(EventRef::OpenAsked),
        Notice::Negotiated(agreed) => Some(EventRef::Negotiated(agreed)),
        Notice::ClosedByPeer => lend_close(reading),
        Notice::ClosedByUs => Some(EventRef::ConnectionClosed(None)),
        Notice::Blocked => lend_blocked(reading),
        Notice::Unblocked => Some(EventRef::Unblocked),
    }
}

/// The event of a frame that says this.
#[inline(always)]
pub(crate) fn lend_report<'a>(
    number: u16,
    reading: Reading<'a>,
    report: Report,
) -> Option<EventRef<'a>>
    ensures { event_ref_there result ≡ report_lent number (reading_view reading.entry) report }
{
    match report {
        Report::OnChannel(told) => lend_told(number, reading, told),
        Report::OfConnection(notice) => lend_notice(number, reading, notice),
    }
}

/// The event of a frame, if it is there, as what came.
#[inline(always)]
fn came_of<'a>(event: Option<EventRef<'a>>) -> Option<Came<'a>>
    ensures { (given : Option Frame) → came_lent result given ≡ event_ref_there event.entry }
{
    match event {
        Some(event) => Some(Came::Told(event)),
        None => None,
    }
}

/// What came of a frame of this channel in the piece, which says this and has this answer.
pub(crate) fn step_of<'a>(
    octets: usize,
    number: u16,
    reading: Reading<'a>,
    answer: Result<Report, CoreFault>,
) -> Result<Step<'a>, CoreFault>
    ensures seen { (given : Option Frame) → step_seen result given ≡ seen_by answer octets number
        (Some (reading_view reading.entry)) }
    ensures ok { IsOk answer → IsOk result }
    ensures code { code_found result ≡ code_found answer }
    ensures memory { ran_out result ≡ ran_out answer }
{
    match answer {
        Ok(report) => Ok(step_reported(octets, number, reading, report)),
        Err(fault) => Err(fault),
    }
}

/// What came of a frame of this channel in the piece, which says this and has this event.
pub(crate) fn step_reported<'a>(
    octets: usize,
    number: u16,
    reading: Reading<'a>,
    report: Report,
) -> Step<'a>
    ensures octets { result.octets ≡ octets }
    ensures came { (given : Option Frame) → came_lent result.came given
        ≡ report_lent number (reading_view reading.entry) report }
{
    Step {
        octets,
        came: came_of(lend_report(number, reading, report)),
    }
}

/// What came of a frame of this channel in the end's buffer, which has this answer.
pub(crate) fn step_buffered<'a>(
    octets: usize,
    number: u16,
    answer: Result<Report, CoreFault>,
) -> Result<Step<'a>, CoreFault>
    ensures seen { (given : Option Frame) → step_seen result given ≡ seen_by answer octets number (read_in given) }
    ensures ok { IsOk answer → IsOk result }
    ensures code { code_found result ≡ code_found answer }
    ensures memory { ran_out result ≡ ran_out answer }
{
    match answer {
        Ok(report) => Ok(Step {
            octets,
            came: Some(Came::Buffered(number, report)),
        }),
        Err(fault) => Err(fault),
    }
}

/// The same of a frame that passes: its event is of its channel.
#[inline(always)]
pub(crate) fn step_told<'a>(
    octets: usize,
    number: u16,
    reading: Reading<'a>,
    told: Told,
) -> Step<'a>
    ensures octets { result.octets ≡ octets }
    ensures came { (given : Option Frame) → came_lent result.came given
        ≡ channel_lent number (reading_view reading.entry) told }
{
    Step {
        octets,
        came: came_of(lend_told(number, reading, told)),
    }
}

/// What came of so many octets of the protocol header, with this event or none.
fn quiet_step<'a>(octets: usize, parts: Option<EventParts>) -> Step<'a>
    ensures octets { result.octets ≡ octets }
    ensures event { (given : Option Frame) → came_lent result.came given ≡ quiet_there (parts_there parts) }
{
    let Some(_parts) = parts else {
        return Step { octets, came: None };
    };
    Step {
        octets,
        came: Some(Came::Told(EventRef::Quiet)),
    }
}

/// What came of octets of the protocol header, with this answer and as it is noted.
pub(crate) fn step_heard<'a>(
    answer: Result<(), CoreFault>,
    account: Account,
) -> Result<Step<'a>, CoreFault>
    ensures seen { (given : Option Frame)
        → step_seen result given ≡ heard_seen answer account.octets (parts_there account.parts) }
    ensures code { code_found result ≡ code_found answer }
    ensures memory { ran_out result ≡ ran_out answer }
{
    let Account {
        octets,
        took: _,
        owed: _,
        parts,
    } = account;
    match answer {
        Ok(()) => Ok(quiet_step(octets, parts)),
        Err(fault) => {
            drop(parts);
            Err(fault)
        }
    }
}
