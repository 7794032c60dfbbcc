//! What an end writes down of itself.
//!
//! An end kept with its history has one note for each frame, and the items that it told and said in the order in which
//! they came, over all channels. These laws say by what each of the lists grows, so that a list that is grouped by
//! channel, or that leaves out an item, is none of them.

ghost use Rattle.amqp_model.specs.Stream.RunningOut.{RanOutStays, EveryRanOutEndWrites, EveryEndRunsOut};
ghost use Rattle.amqp_model.specs.Stream.Traces.{NotesFrame, AllPutsTellNothing, EveryAskIsSaid, SaysMessage};
ghost use Rattle.amqp_model.specs.Stream.Traces.{EveryMethodIsSaid, TakenSaysNothing, EveryEventIsTold};
ghost use Rattle.amqp_model.specs.Stream.Traces.{TraceTakes, AllPutsAreNoted};

/// Each frame put or taken is noted once, after all earlier ones, with its channel and the word for what it is to its
/// channel.
pub fn frames_are_noted()
    ensures put { AllPutsAreNoted }
    ensures taken { TraceTakes }
    ensures note { NotesFrame }
{}

/// What an end told grows by the item of the event that a frame comes to, in the life of its channel, and by nothing
/// else.
pub fn events_are_told()
    ensures event { EveryEventIsTold }
    ensures put { AllPutsTellNothing }
{}

/// What an end said grows by each message that it sends, whole and once, and by each method that is a message by
/// itself. Of its asks, a message and a flow add themselves and the others nothing. What it takes adds nothing.
pub fn messages_are_said()
    ensures method { EveryMethodIsSaid }
    ensures message { SaysMessage }
    ensures taken { TakenSaysNothing }
    ensures ask { EveryAskIsSaid }
{}

/// An end that runs out of memory has failed. What it took, put and was fed stays as it was; it still writes its
/// output, and takes no octet more.
pub fn memory_runs_out()
    ensures stands { EveryEndRunsOut }
    ensures wrote { EveryRanOutEndWrites }
    ensures fed { RanOutStays }
{}
