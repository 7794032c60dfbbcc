//! One side of a connection: an end that is kept with its history.
ghost use Rattle.std.specs.Prelude.{◌≡◌, ◌<◌, ◌≤◌, ◌+◌, false, All, length, map, IfOk};
ghost use Rattle.amqp_model.specs.End.Fitting.{ConfigWrites};
ghost use Rattle.amqp_model.specs.Laws.OctetLaws.{IsOctet};
ghost use Rattle.amqp_core.specs.Asks.View.{ask_view};
ghost use Rattle.amqp_core.specs.Config.Configs.{set_up_as, settings_of};
ghost use Rattle.amqp_core.specs.Traced.Notes.{note_view, telling_view};
ghost use Rattle.amqp_core.specs.Traced.Controls.{ControlledTrace};
ghost use Rattle.amqp_link.specs.ControlView.{control_view};
ghost use Rattle.amqp_link.specs.JoinLaws.{BothJoinLaws};
ghost use Rattle.amqp_link.specs.Joined.{IsJoinedTo};
ghost use Rattle.amqp_link.specs.SeatSteps.{HandsOverOr, IsNew, SideAsked, SideControlled, SideDropped, SidesCarry, to_write};
ghost use Rattle.amqp_link.specs.SeatView.{seat_view};

use crate::controls::Control;
use crate::faults::{LinkFault, OutOfMemory};
use amqp_core::laws::{
    agreement, arrangement, fitting, octets, one_end, two_ends, unfailed_traces_stand,
};
use amqp_core::{Ask, AskFault, Config, End, Note, Role, Telling, Traced};
use std::alloc::Global;

/// An end with its history, which takes and asks nothing more once it is dropped.
#[derive(Drop)]
pub(crate) struct Seat<R: Role> {
    end: Traced<R>,
    dropped: bool,
}

/// The laws by which two sides stay joined as octets are carried.
fn sides_stay_joined()
    ensures { BothJoinLaws }
{
    agreement::no_fault_over_octets();
    arrangement::output_follows();
    arrangement::write_keeps_arranged();
    fitting::owed_read_back();
    octets::cut_changes_nothing();
    octets::octets_follow();
    one_end::closes_are_put_last();
    one_end::failed_follows();
    two_ends::octets_carry_channels();
    unfailed_traces_stand();
}

/// What a slice holds are octets.
fn are_octets(octets: &[u8])
    ensures { All IsOctet octets.now }
{}

/// Feeds a reader the first octets of what a writer has to write, as far as the end of a frame, and takes them off
/// there. Out of memory, the reader is dropped.
fn hand_over<W: Role, R: Role>(
    writer: &mut Seat<W>,
    reader: &mut Seat<R>,
    octets: usize,
) -> Result<usize, OutOfMemory>
    requires joined { ∥ IsJoinedTo R.role (seat_view reader.old) (seat_view writer.old) ∥₁ }
    requires there { (seat_view reader.old).dropped ≡ false }
    requires some { 0 < octets }
    requires within { octets ≤ length (to_write (seat_view writer.old)) }
    ensures hands { HandsOverOr octets result (seat_view writer.old) (seat_view reader.old) (seat_view writer.new)
        (seat_view reader.new) }
    ensures left { IfOk result (λ count. length (to_write (seat_view writer.new)) + count
        ≡ length (to_write (seat_view writer.old))) }
    ensures joined { ∥ IsJoinedTo R.role (seat_view reader.new) (seat_view writer.new) ∥₁ }
{
    sides_stay_joined();
    arrangement::write_keeps_arranged();
    let piece = &writer.end.output()[..octets];
    are_octets(piece);
    let Ok(taken) = reader.end.feed(piece) else {
        reader.dropped = true;
        return Err(OutOfMemory);
    };
    let count = taken.octets;
    drop(taken);
    writer.end.wrote(count);
    Ok(count)
}

/// Carries so many octets of what a writer has to write to a reader, frame by frame. Out of memory, the reader is
/// dropped.
pub(crate) fn carry<W: Role, R: Role>(
    writer: &mut Seat<W>,
    reader: &mut Seat<R>,
    octets: usize,
) -> Result<(), LinkFault>
    requires joined { ∥ IsJoinedTo R.role (seat_view reader.old) (seat_view writer.old) ∥₁ }
    ensures carries { SidesCarry octets (seat_view writer.old) (seat_view reader.old) result (seat_view writer.new)
        (seat_view reader.new) }
    ensures joined { ∥ IsJoinedTo R.role (seat_view reader.new) (seat_view writer.new) ∥₁ }
{
    if reader.dropped {
        return Err(LinkFault::Dropped);
    }
    if writer.waiting() < octets {
        return Err(LinkFault::NotSoMany);
    }
    let mut carried = 0;
    while carried < octets {
        let Ok(count) = hand_over(writer, reader, octets - carried) else {
            return Err(LinkFault::OutOfMemory);
        };
        carried += count;
    }
    Ok(())
}

/// Does it with an end.
fn do_control<R: Role>(end: &mut Traced<R>, control: &Control) -> Result<(), AskFault>
    ensures { ControlledTrace end.old (control_view control.now) result end.new }
{
    match control {
        Control::Beat => end.beat(),
        Control::Admit => end.admit(),
        Control::Refuse(code, text) => end.refuse(*code, text),
        Control::AnswerStart(mechanism, response, locale) => {
            end.answer_start(mechanism, response, locale)
        }
    }
}

impl<R: Role> Seat<R> {
    /// A new end, set up with a copy of the configuration.
    pub(crate) fn new(alloc: Global, config: &Config<R>) -> Result<Seat<R>, OutOfMemory>
        ensures new { IfOk result (λ seat. IsNew (set_up_as (settings_of R.hello_of config.now)) (seat_view seat)) }
        ensures writes { IfOk result (λ seat. ∥ ConfigWrites (seat_view seat).set_up.1 ∥₁) }
    {
        let config = config.copy()?;
        let Ok(end) = End::new(alloc, config) else {
            return Err(OutOfMemory);
        };
        let end = Traced::new(end)?;
        Ok(Seat {
            end,
            dropped: false,
        })
    }

    /// Asks something of the end.
    pub(crate) fn ask(&mut self, ask: &Ask) -> Result<(), LinkFault>
        ensures { SideAsked (ask_view ask.now) (seat_view self.old) result (seat_view self.new) }
    {
        if self.dropped {
            return Err(LinkFault::Dropped);
        }
        match self.end.ask(ask) {
            Ok(_) => Ok(()),
            Err(fault) => Err(LinkFault::from(fault)),
        }
    }

    /// Puts a heartbeat, or decides in the handshake.
    pub(crate) fn control(&mut self, control: &Control) -> Result<(), LinkFault>
        ensures { SideControlled (control_view control.now) (seat_view self.old) result (seat_view self.new) }
    {
        if self.dropped {
            return Err(LinkFault::Dropped);
        }
        match do_control(&mut self.end, control) {
            Ok(()) => Ok(()),
            Err(fault) => Err(LinkFault::from(fault)),
        }
    }

    pub(crate) fn drop_end(&mut self) -> Result<(), LinkFault>
        ensures { SideDropped (seat_view self.old) result (seat_view self.new) }
    {
        if self.dropped {
            return Err(LinkFault::Dropped);
        }
        self.dropped = true;
        Ok(())
    }

    /// Whether it was dropped.
    pub(crate) fn is_dropped(&self) -> bool
        ensures { result ≡ (seat_view self.now).dropped }
    {
        self.dropped
    }

    /// How many octets the end has to write.
    pub(crate) fn waiting(&self) -> usize
        ensures { result ≡ length (to_write (seat_view self.now)) }
    {
        self.end.output().len()
    }

    /// A note of each frame that the end put or took.
    pub(crate) fn notes(&self) -> &[Note]
        ensures { map note_view result.now ≡ (seat_view self.now).kept.notes }
    {
        self.end.notes()
    }

    /// The items that the end acted on.
    pub(crate) fn told(&self) -> &[Telling]
        ensures { map telling_view result.now ≡ (seat_view self.now).kept.told }
    {
        self.end.told()
    }

    /// The items that the end sent.
    pub(crate) fn said(&self) -> &[Telling]
        ensures { map telling_view result.now ≡ (seat_view self.now).kept.said }
    {
        self.end.said()
    }
}
