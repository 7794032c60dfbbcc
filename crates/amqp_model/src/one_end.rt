//! What one end keeps, and the history that it stands for.
//!
//! A history is the list of all frames that an end put and took. An end keeps none of it. It keeps its phase, what was
//! agreed, and a small record of each channel. These laws say that this is enough: the record of a channel follows
//! each entry of that channel, and what the end does with a frame or with an ask is what its history gives.

ghost use Rattle.amqp_model.specs.Laws.EndLaws.{AllAnswersAreOfHistory, AskFollows, EveryAskIsOfHistory, AsksActs};
ghost use Rattle.amqp_model.specs.Laws.EndLaws.{EndFollows, EndSteps, EveryLowestIsFound, FollowsPut, FollowsTaken};
ghost use Rattle.amqp_model.specs.Laws.EndLaws.{FrameFollows, LawfulStands, LeavesOthers, NewEndStands};
ghost use Rattle.amqp_model.specs.Laws.EndLaws.{EveryRecordReads, StaysAtLeaving, StaysLeaving, StepFollows, TakesActs};
ghost use Rattle.amqp_model.specs.Laws.EndLaws.{VerdictAgrees, EveryVerdictIsOfHistory, EveryStateReads};
ghost use Rattle.amqp_model.specs.Laws.LeavingLaws.{AllClosesArePutLast, AllOctetsArePutAs};
ghost use Rattle.amqp_model.specs.Pair.Pairs.{BothLawful, RunsOnEach};
ghost use Rattle.amqp_model.specs.Laws.EndsFollow.{FailedFollows};

/// What an end keeps of a channel follows from what it kept before, the entry, and the facts that its verdict rests
/// on, and stands for that channel's entries extended.
pub fn record_follows()
    ensures taken { FollowsTaken }
    ensures put { FollowsPut }
    ensures at_leaving { StaysAtLeaving }
    ensures leaving { StaysLeaving }
{}

/// An entry of another channel above 0 leaves what an end keeps of a channel, and what that stands for.
pub fn others_stay()
    ensures { LeavesOthers }
{}

/// The record of a channel is what the channel's entries count to, and its state the one of the lives of a channel.
pub fn record_reads()
    ensures channel { EveryRecordReads }
    ensures state { EveryStateReads }
{}

/// The verdict of an end on a frame is the one that every history gives for which the end stands.
pub fn verdict_is_of_history()
    ensures { EveryVerdictIsOfHistory }
{}

/// What an end does with an ask is what every history gives for which the end stands.
pub fn ask_is_of_history()
    ensures { EveryAskIsOfHistory }
{}

/// Where an end goes on after a frame of a channel above 0, the lives of a channel go on too, and owe the reply that
/// its verdict puts; or it refuses a content, of which they say that it came. Which event it is says
/// `verdict_names_event`.
pub fn verdict_agrees()
    ensures { VerdictAgrees }
{}

/// A frame that an end takes, and what it accepts to put, act on each channel above 0 as the lives of a channel allow.
/// So the histories of two ends are a run on each.
pub fn history_acts()
    ensures taken { TakesActs }
    ensures asked { AsksActs }
    ensures lawful { BothLawful }
    ensures pair { RunsOnEach }
{}

/// What an end keeps follows each entry of its history, each frame that it takes with the frames that it owes, and
/// each ask that it accepts. A new end stands for the history of nothing.
pub fn end_follows()
    ensures new { NewEndStands }
    ensures entry { EndFollows }
    ensures frame { FrameFollows }
    ensures ask { AskFollows }
{}

/// What an end that has failed keeps stands for its history too: with the frame that it found fault with and the close
/// that it put, with that close alone where octets told of a frame above the limit, or with nothing more. Of such an
/// end the phase, what was agreed and channel 0 are looked at, and no more. An end that stands for a history without a
/// failure has not failed.
pub fn failed_follows()
    ensures { FailedFollows }
{}

/// Each lawful history is one that an end stands for: what is read off it, and what an end keeps that goes on with each
/// of its steps. What the end keeps says which steps these are.
pub fn lawful_stands()
    ensures read { LawfulStands }
    ensures step { StepFollows }
    ensures steps { EndSteps }
{}

/// What an end answers of its channels is what every history gives for which it stands.
pub fn answers_are_of_history()
    ensures { AllAnswersAreOfHistory }
{}

/// After a connection.close or close-ok an end puts only these. So the octets that it has put, written or not, hold
/// each channel's frames in order, and no frame of a channel above 0 after a close.
pub fn closes_are_put_last()
    ensures frames { AllClosesArePutLast }
    ensures octets { AllOctetsArePutAs }
{}

/// The number that an open takes is the lowest that is Free, and there is none where none is found.
pub fn lowest_is_found()
    ensures { EveryLowestIsFound }
{}
