//! Laws of frames that the layers above rest on.
ghost use Rattle.amqp_frame.specs.Laws.{OneSplit, OneFrameAtStart, PrefixHasNoFault, JudgedIsShown, ShownIsJudged};

/// Octets split into frames and a rest in one way only.
pub fn one_split()
    ensures { OneSplit }
{}

/// Octets that begin with two frames begin with the same one: its kind, its channel, its payload and what follows it
/// are equal.
pub fn one_frame_at_start()
    ensures { OneFrameAtStart }
{}

/// A prefix of a frame that is no longer than the limit tells no fault.
pub fn prefix_has_no_fault()
    ensures { PrefixHasNoFault }
{}

/// Octets are judged to be wrong exactly when they show a fault: that one, first shown in its place.
pub fn faults_are_judged()
    ensures shown { JudgedIsShown }
    ensures judged { ShownIsJudged }
{}
