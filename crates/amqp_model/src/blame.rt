//! What was wrong, where an end finds fault.
//!
//! A code alone doesn't tell which rule a peer broke. `Rule` has a name for each way to a fault, and `blamed` the
//! first rule that a frame breaks, in the order of the verdict on it.

ghost use Rattle.amqp_model.specs.Laws.BlameLaws.{BlamedAlike, BlamedIsFault, FaultIsBlamed, FeedTells};
ghost use Rattle.amqp_model.specs.Laws.BlameLaws.{OctetsAreBlamed};

/// An end that is neither closed nor failed finds fault with a frame exactly where the frame breaks a rule, and its
/// fault is that rule's. So it is with octets that show a fault. Ends that differ only in what they keep of contents
/// blame the same.
pub fn faults_are_blamed()
    ensures rule { BlamedIsFault }
    ensures none { FaultIsBlamed }
    ensures octets { OctetsAreBlamed }
    ensures alike { BlamedAlike }
{}

/// What is told of a piece that is fed to such an end is of the fault that comes of it, at the last octet taken; where
/// no fault comes, nothing is told.
pub fn pieces_tell_blame()
    ensures { FeedTells }
{}
