//! What two ends of a connection send each other, and what becomes of it.
//!
//! The frames of a channel encode items: methods that are messages of their own, whole contents, flows and flow-oks.
//! `Pair` is every two histories that two ends come to, in any interleaving, while neither fails. Of these the laws of
//! the lives of a channel are said once more, of items in place of frames, for each channel above 0 and for both ends
//! alike: `mine` is the history of the end in that role, `theirs` that of the other. The last law says which frames the
//! octets of one end carry to the other, channel by channel.

ghost use Rattle.amqp_model.specs.Laws.CarryingLaws.{CompletedComesNext, FramesAreOfChannel, NotesAreOfFrames};
ghost use Rattle.amqp_model.specs.Laws.CarryingLaws.{TakesPrefixOnEach, AllOpeningsMeet};
ghost use Rattle.amqp_model.specs.Pair.Pairs.{AllNewEndsPair, StepStaysPair};
ghost use Rattle.amqp_model.specs.Laws.SentLaws.{FaultTellsNothing, NothingIsOfChannel0, EveryEndSaysWhatItSends};
ghost use Rattle.amqp_model.specs.Laws.SentLaws.{EveryEndTellsWhatItActsOn, EveryEndActsOnPrefixOfItems};
ghost use Rattle.amqp_model.specs.Laws.SentLaws.{AllItemsActedOnAtEveryClose, AllItemsActedOnAtEveryConnectionClose};
ghost use Rattle.amqp_model.specs.Laws.SentLaws.{AllItemsActedOnOfEveryEnded, AllItemsSentAreActedOnOrInFlight};
ghost use Rattle.amqp_model.specs.Laws.SentLaws.{NoItemsBeforeAnyFirstLife};
ghost use Rattle.amqp_model.specs.Pair.WholeMessages.{EachFitsNext, FitsWhatIsKept, PutsWholeMessages};

/// Two new ends are a pair, and a pair stays one with each step of either end, where a frame that it takes is the next
/// on its channel.
pub fn steps_stay_pairs()
    ensures new { AllNewEndsPair }
    ensures step { StepStaysPair }
{}

/// What an end puts on a channel in a life is whole messages, one after another, so that each of their payloads can
/// come next after those before it. And so it is taken: what comes next to a Running end, on a channel that it has
/// Open, fits after the content that it keeps. No part of a content is out of place, and no message stands inside one.
pub fn whole_messages_are_put()
    ensures whole { PutsWholeMessages }
    ensures each { EachFitsNext }
    ensures taken { FitsWhatIsKept }
{}

/// In each life of a channel, the items that an end acted on are a prefix of those that the other sent.
pub fn items_acted_on_are_prefix()
    ensures { EveryEndActsOnPrefixOfItems }
{}

/// Where the other's close ended a life, of the channel or of the connection, and was taken before the end put one,
/// every item sent in that life was acted on.
pub fn all_items_acted_on_at_close()
    ensures channel { AllItemsActedOnAtEveryClose }
    ensures connection { AllItemsActedOnAtEveryConnectionClose }
    ensures ended { AllItemsActedOnOfEveryEnded }
{}

/// Where the channel is Opening or Open at an end that has not put connection.close, the items that the other sent in
/// that life are those that the frames acted on and then the messages in flight encode, read one after the other.
pub fn items_in_flight()
    ensures { AllItemsSentAreActedOnOrInFlight }
{}

/// Before a channel's first life its end sends nothing, and acts on nothing.
pub fn no_items_before_first_life()
    ensures { NoItemsBeforeAnyFirstLife }
{}

/// What an end that has not failed tells, item by item as they end, is for each channel above 0 and each life what it
/// acted on; a frame that it finds fault with tells nothing. What it says is what it sent. It tells and says nothing of
/// channel 0.
pub fn items_are_told_and_said()
    ensures told { EveryEndTellsWhatItActsOn }
    ensures fault { FaultTellsNothing }
    ensures said { EveryEndSaysWhatItSends }
    ensures channel_0 { NothingIsOfChannel0 }
{}

/// The frames that a history puts and takes on a channel are those that the channel's notes put and take, in order, and
/// each of these notes says what its frame is to the channel.
pub fn notes_are_of_frames()
    ensures frames { FramesAreOfChannel }
    ensures notes { NotesAreOfFrames }
{}

/// Where the octets that an end was fed are a prefix of those that the other put, the frames that it took are on each
/// channel a prefix of those that the other put, and a frame that the next octets complete comes next.
pub fn octets_carry_channels()
    ensures opening { AllOpeningsMeet }
    ensures taken { TakesPrefixOnEach }
    ensures next { CompletedComesNext }
{}
