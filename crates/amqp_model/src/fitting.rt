//! What an end writes reads as what it was made of, and fits the fields that it stands in.
//!
//! The laws of one end speak of methods whose octets read as the method. Here is when they do: the arguments are those
//! of the method's kind, numbers fit their fields and strings their lengths. `MethodFits`, `ConfigFits` and `AskFits`
//! say so of a method, of what an end is set up with and of what an application asks.

ghost use Rattle.amqp_model.specs.Laws.FittingLaws.{AgreedIsWithin, AllAgreedStaysWithin, EveryAskKeepsAgreed};
ghost use Rattle.amqp_model.specs.Laws.FittingLaws.{AllAskedAreWithin, AllAskedFit, AskedReadsBack, CloseFits};
ghost use Rattle.amqp_model.specs.Laws.FittingLaws.{CloseReadsBack, FaultlessConfigFits, FittingConfigIsFaultless};
ghost use Rattle.amqp_model.specs.Laws.FittingLaws.{FittingConfigWrites, FramesSayPayloads, MethodReadsBack};
ghost use Rattle.amqp_model.specs.Laws.FittingLaws.{AllOwedAreShort, OwedFit, OwedReadBack, StartFits};
ghost use Rattle.amqp_model.specs.Laws.FittingLaws.{EveryHeaderReadsBack, EverythingReadsBack, EveryCloseIsShort};

/// What is written of a method, and of a content header, reads as it, where it fits its fields.
pub fn written_reads_back()
    ensures method { MethodReadsBack }
    ensures header { EveryHeaderReadsBack }
{
    amqp_method::plain_is_encoded();
    amqp_method::encoded_is_read();
}

/// A configuration fits its fields exactly when it has no fault, if its numbers and its hello do. What an end says of
/// itself can be written then.
pub fn fitting_config_writes()
    ensures faultless { FaultlessConfigFits }
    ensures no_fault { FittingConfigIsFaultless }
    ensures writes { FittingConfigWrites }
{
    written_reads_back();
}

/// What is written for an ask reads back, where the ask fits its fields: its method, and the header of its content.
pub fn asked_reads_back()
    ensures { AskedReadsBack }
{
    written_reads_back();
}

/// The methods that a verdict puts read back, and so does the close that an end puts where a frame is above the limit:
/// all that an end writes of itself.
pub fn owed_read_back()
    ensures verdict { OwedReadBack }
    ensures too_large { CloseReadsBack }
    ensures all { EverythingReadsBack }
{
    written_reads_back();
}

/// Each frame of a message says the payload that it was made of, where its method and its header read back.
pub fn frames_say_payloads()
    ensures { FramesSayPayloads }
{}

/// Each frame that an end puts fits its fields: start, what verdicts and a frame above the limit make it put, and what
/// it puts for an accepted ask.
pub fn frames_fit()
    ensures start { StartFits }
    ensures verdict { OwedFit }
    ensures too_large { CloseFits }
    ensures asked { AllAskedFit }
{}

/// What was agreed in a lawful history has a channel at least, fits its fields, and has a frame size of 4096 to 1048576
/// octets. It stays so by each frame that an end takes, and no ask changes it.
pub fn agreed_is_within()
    ensures history { AgreedIsWithin }
    ensures frame { AllAgreedStaysWithin }
    ensures ask { EveryAskKeepsAgreed }
{
    written_reads_back();
}

/// The frames that verdicts make an end put have at most 4096 octets, which every end takes, and so has the close that
/// it puts where a frame is above the limit. Those that it puts for an accepted ask have at most the agreed number.
pub fn frames_are_within()
    ensures verdict { AllOwedAreShort }
    ensures too_large { EveryCloseIsShort }
    ensures asked { AllAskedAreWithin }
{}
