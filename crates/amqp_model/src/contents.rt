//! Contents: messages that carry a body.
//!
//! A content is a method, a header with the body's size, and body parts that join to the body (AMQP 0-9-1
//! specification, section 4.2.6, "Content Framing"). `IsContent` says which payloads are exactly one content, `cut` is
//! what this profile writes, and `UnderWay` says what an end has taken of a content that isn't whole. An end keeps
//! little of it: `Gathering` is that, and `step` is what a payload does to it. These laws say that this machine keeps
//! what the definitions speak of, whatever payloads come.
//!
//! Payloads are in their order, the oldest first; what was taken is a history, the newest first.

ghost use Rattle.amqp_model.specs.Laws.ContentLaws.{CutFits, CutIsContent, CutIsShortest, GathersAfresh, GoesOnAsDue};
ghost use Rattle.amqp_model.specs.Laws.ContentLaws.{StepsUnderWay, IsAtMostOneContent, IsRefusedPastSize};
ghost use Rattle.amqp_model.specs.Laws.ContentLaws.{IsToldAtHeader, IsToldAtLastPart, KeepsItsOctets, KeepsUnderWay};
ghost use Rattle.amqp_model.specs.Laws.ContentLaws.{NoContentAtStart, NothingAfterContent, NothingAfterMethod};
ghost use Rattle.amqp_model.specs.Laws.ContentLaws.{OneUnderWay, PartsInPlace, TellsItems, TellsMisfits, TellsWhole};
ghost use Rattle.amqp_model.specs.Laws.ContentLaws.{AllItemsAreEncoded, OneMoreMakesTwoParts, FullBodyIsOnePart};
ghost use Rattle.amqp_model.specs.Laws.ContentLaws.{NoBodyIsNoPart};
ghost use Rattle.amqp_model.specs.Laws.ItemsFollow.{ItemsFollow};

/// Payloads are at most one content, and no content is a prefix of another. So a list of payloads falls into contents
/// in one way only.
pub fn one_content()
    ensures unique { IsAtMostOneContent }
    ensures no_prefix { NoContentAtStart }
{}

/// What is written of a content is that content, each part as long as fits, in as few frames as can be.
pub fn cut_is_content()
    ensures content { CutIsContent }
    ensures fits { CutFits }
    ensures fewest { CutIsShortest }
    ensures parts { PartsInPlace }
{}

/// In frames of 4096 octets a body of 4088 octets is one part, one more makes two, and none has none.
pub fn sizes_of_cut()
    ensures above { OneMoreMakesTwoParts }
    ensures full { FullBodyIsOnePart }
    ensures empty { NoBodyIsNoPart }
{}

/// At most one content is under way, and what goes on with it is of the kind that is due.
pub fn under_way()
    ensures one { OneUnderWay }
    ensures due { GoesOnAsDue }
{}

/// The machine keeps what is under way: its state says what that is, and is the only one that does. The octets that
/// it keeps are those of the parts taken.
pub fn gathering_is_under_way()
    ensures state { KeepsUnderWay }
    ensures octets { KeepsItsOctets }
{}

/// Nothing is under way after a whole content, nor after a method that carries none. What comes after is gathered as
/// if nothing had come before: so what an end keeps of a channel needs no scope, since a channel is opened by a method.
pub fn gathering_begins_afresh()
    ensures content { NothingAfterContent }
    ensures method { NothingAfterMethod }
    ensures later { GathersAfresh }
{}

/// The machine's answer to a payload: a content exactly when its payloads are all there, a misfit exactly when the
/// payload can't come next, and else what is then under way.
pub fn step_tells()
    ensures whole { TellsWhole }
    ensures misfit { TellsMisfits }
    ensures goes_on { StepsUnderWay }
{}

/// A content without a body is reported at its header, another at the part that fills its size, whatever empty parts
/// came before, and a part that passes its size is refused.
pub fn told_at_last()
    ensures at_header { IsToldAtHeader }
    ensures at_last_part { IsToldAtLastPart }
    ensures past_size { IsRefusedPastSize }
{}

/// The items that the machine tells are those that the payloads encode.
pub fn items_are_encoded()
    ensures item { TellsItems }
    ensures items { AllItemsAreEncoded }
{}

/// The items of a prefix are a prefix of the items. A payload adds the item that it ends; a content's payloads add that
/// content; what is under way has added nothing; and where nothing is under way, as after a method that carries no
/// content, the items of what comes after are added.
pub fn items_follow()
    ensures { ItemsFollow }
{}
