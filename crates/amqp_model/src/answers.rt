//! What an end answers of its channels, read off its history.
//!
//! The record of a channel is what the history counts to; these laws say so of each answer, in words that know no
//! record.

ghost use Rattle.amqp_model.specs.Laws.AnswersInWords.{ClosedIsFree, AllGatheredIsUnderWay, NothingIsGatheredOfNone};
ghost use Rattle.amqp_model.specs.Laws.AnswersInWords.{OnlyOpenGathers, OnlyOpenIsDue, EveryStateIsOfNotes};

/// The state of a channel up to the agreed maximum is that of its notes, until the connection is closed and all are
/// Free.
pub fn states_are_of_notes()
    ensures open { EveryStateIsOfNotes }
    ensures closed { ClosedIsFree }
{}

/// The octets gathered on an Open channel of a Running connection are those of the body parts of the content under way,
/// and none where none is. Nowhere else are there any.
pub fn octets_are_of_body()
    ensures under_way { AllGatheredIsUnderWay }
    ensures none { NothingIsGatheredOfNone }
    ensures elsewhere { OnlyOpenGathers }
{}

/// A reply is due on an Open channel alone. Which one it is says `unanswered_are_kept`.
pub fn replies_are_due_where_open()
    ensures { OnlyOpenIsDue }
{}
