//! The arrangement of the output, so that a long content on one channel holds up no other.
//!
//! What an end puts waits in queues, one for each channel, until it is written. The row of what waits is arranged
//! anew at each put: plain frames of channel 0 first; then the channels above 0 in turn, counting up from the one
//! whose frame was begun most recently, LAST; connection.close and close-ok last. A frame of which an octet is
//! written stays before the row and is no part of it.
//!
//! `IsArranged` is such a row, `placed` what a put makes of it, and `Writes` what a write leaves of an output.
//! `IsOutputOf` joins an output with all that its end put and wrote.

ghost use Rattle.amqp_model.specs.Laws.ArrangementExamples.{BegunAndPut, LeavingOnes, LongAndShort, RoundTheTop};
ghost use Rattle.amqp_model.specs.Laws.ArrangementLaws.{AllIsInOrder, AllIsPutAs, ArrangedByRules, ClosesStandAfter};
ghost use Rattle.amqp_model.specs.Laws.ArrangementLaws.{LowestAboveComesFirst, NoFewerStepsLead, NothingLeavesAfter};
ghost use Rattle.amqp_model.specs.Laws.ArrangementLaws.{OneRow, PutsMakeRow, StepsLead, WaitsWhatIsNotBegun};
ghost use Rattle.amqp_model.specs.Laws.OutputFollows.{OutputFollows, PutKeepsArranged, WriteKeepsArranged};

/// From one channel to another it is as many steps as counting up takes, where 1 comes after 65535. So the lowest
/// channel above LAST comes first, else the lowest one.
pub fn steps_are_counted()
    ensures lead { StepsLead }
    ensures fewest { NoFewerStepsLead }
    ensures lowest { LowestAboveComesFirst }
{}

/// A row is arranged exactly when, read as a whole, it follows the rules: it stands in three parts, and where one
/// channel follows another, no channel stands after that would be met before.
pub fn rows_follow_rules()
    ensures { ArrangedByRules }
{}

/// For the frames that wait there is exactly one arranged row that has each queue in order: the one that the puts make.
pub fn one_row()
    ensures one { OneRow }
    ensures made { PutsMakeRow }
{}

/// A put keeps a row arranged. It moves no other frame, the new one is the last of its queue, and what is begun stays
/// at the start.
pub fn put_keeps_arranged()
    ensures { PutKeepsArranged }
{}

/// A write leaves exactly one output: the octets after those written, and a row that is arranged from the new LAST.
pub fn write_keeps_arranged()
    ensures { WriteKeepsArranged }
{}

/// An output is that of all the frames put and all the octets written, from the beginning on through each put and
/// each write; and its row follows the rules.
pub fn output_follows()
    ensures { OutputFollows }
{}

/// What an end wrote and its output are the frames that it put: each channel's in order, and none after a
/// connection.close or close-ok that was put before it.
pub fn frames_leave_in_order()
    ensures octets { AllIsInOrder }
    ensures waiting { WaitsWhatIsNotBegun }
    ensures after { ClosesStandAfter }
{}

/// Where nothing but connection.close and close-ok is put after one of these, nothing else leaves after one, and
/// channel 0 is in order too.
pub fn closes_leave_last()
    ensures nothing_after { NothingLeavesAfter }
    ensures octets { AllIsPutAs }
{}

/// Rows, worked out: a long content beside a short one, a put after a frame that is begun, and a count past 65535.
pub fn example_rows()
    ensures leaving { LeavingOnes }
    ensures round { RoundTheTop }
    ensures long_and_short { LongAndShort }
    ensures begun_and_put { BegunAndPut }
{}
