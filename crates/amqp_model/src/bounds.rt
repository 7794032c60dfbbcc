//! How much an end keeps, at most.
//!
//! Of each Open channel a part of one body, shorter than the body, which is no greater than the end takes; and the
//! requests without a reply, one at a client and 1,024 at a server. A new end keeps nothing, and no frame after which
//! it goes on and no ask makes it keep more than that.

ghost use Rattle.amqp_model.specs.End.Amounts.{OneHeaderLength};
ghost use Rattle.amqp_model.specs.End.Bounds.{EveryAskStaysWithin, EveryFrameStaysWithin, AllGatheredIsWithin};
ghost use Rattle.amqp_model.specs.End.Bounds.{NewIsWithin, StandsWithin, AllOthersAreFree};
ghost use Rattle.amqp_model.specs.End.Numbers.{StandsNumbered};
ghost use Rattle.amqp_model.specs.Laws.AmountLaws.{ContentsAreWithin};

/// Each Open channel of an end is within its bounds: of a new end, after each frame and each ask, and so of every end
/// that stands for a lawful history.
pub fn ends_are_bounded()
    ensures new { NewIsWithin }
    ensures frame { EveryFrameStaysWithin }
    ensures ask { EveryAskStaysWithin }
    ensures stands { StandsWithin }
{}

/// What such an end answers: no more octets of a body than the greatest that it takes, and no state but Free of channel
/// 0 and of the channels above the agreed maximum.
pub fn answers_are_bounded()
    ensures octets { AllGatheredIsWithin }
    ensures states { AllOthersAreFree }
{}

/// No channel above the agreed maximum is kept: at most so many channels are other than Free.
pub fn channels_are_numbered()
    ensures { StandsNumbered }
{}

/// Every encoding of a content header has as many octets as the plain one: a truth value has one octet in each, and all
/// else is the same.
pub fn headers_have_one_length()
    ensures { OneHeaderLength }
{}

/// An end keeps of the contents under way at most, for each channel that was agreed, a body and a frame.
pub fn contents_are_bounded()
    ensures { ContentsAreWithin }
{}
