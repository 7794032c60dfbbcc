//! What the two ends of a connection agree on, and that neither finds fault with the other.
//!
//! The premise of these laws is `PairWrites`: both ends are set up so that what they say of themselves can be written,
//! and their histories are those that any steps of the two come to, in any interleaving, where each frame taken is the
//! next on its channel. An end that is dropped takes no further step. `mine` is the history of the end in the role,
//! `theirs` that of the other.

ghost use Rattle.amqp_model.specs.Pair.Agreement.{AgreesOnSmaller, AgreesPastHandshake, AgreesRunning, AgreesUngated};
ghost use Rattle.amqp_model.specs.Pair.Agreement.{ClosedHasTakenAll, GoesOnAtZero, RunsWhereNextIsAbove};
ghost use Rattle.amqp_model.specs.Pair.EndsAgree.{AllLivesAgree, NoContentFromAnyPaused};
ghost use Rattle.amqp_model.specs.Pair.NoFault.{EveryNextIsMatched, EveryEndTakesWhatComesNext};
ghost use Rattle.amqp_model.specs.Pair.OctetsInFlight.{EveryFeedStaysPair, NoFaultWithNextOctets, EveryGrownStaysPair};
ghost use Rattle.amqp_model.specs.Pair.OctetsInFlight.{AllItemsAreActedOnOrWaiting, NothingWaitsForAnyClosed};
ghost use Rattle.amqp_model.specs.Pair.OctetsInFlight.{AllOctetsInFlightAreFrames};
ghost use Rattle.amqp_model.specs.Laws.GatedExample.{GatedExamplesArePairs};
ghost use Rattle.amqp_model.specs.Laws.PairExample.{ExampleIsPair};
ghost use Rattle.amqp_model.specs.Pair.WellPut.{NextIsWellPut, PutsWell};
ghost use Rattle.amqp_model.specs.Laws.EndsFollow.{EndsStandTogether};

use crate::fitting::written_reads_back;

/// Whatever an end has agreed to is the smaller of the two ends' limits, and of their heartbeats, so both agree to
/// the same. An end that is past its handshake has agreed to it, unless a gated server refused the login: so each
/// that is Running has.
pub fn limits_are_the_smaller()
    ensures agreed { AgreesOnSmaller }
    ensures past_handshake { AgreesPastHandshake }
    ensures running { AgreesRunning }
    ensures ungated { AgreesUngated }
{
    written_reads_back();
}

/// An end goes on with whatever comes next on channel 0, in the handshake, while both run, and where they close. Where
/// a frame of another channel comes next, the end is Running, or has put connection.close. An end that is closed has
/// taken all that the other put, on every channel.
pub fn connection_goes_on()
    ensures zero { GoesOnAtZero }
    ensures above { RunsWhereNextIsAbove }
    ensures closed { ClosedHasTakenAll }
{
    written_reads_back();
}

/// Each frame that either end puts says a method that its sender may send, of the class connection on channel 0 and of
/// no other there; above channel 0, a content header or a part of a body; or, on channel 0, a heartbeat. On channel 0
/// it has at most 4096 octets; any other is of a channel up to the agreed maximum, and of at most the agreed size. So
/// is each frame that comes next.
pub fn frames_are_well_put()
    ensures put { PutsWell }
    ensures next { NextIsWellPut }
{
    written_reads_back();
}

/// An end can take whatever frame comes next, and goes on with it, on every channel and in every phase. A reply that
/// comes next to a client answers the request that waits, and a request that comes next to a server finds it keeping
/// fewer than it may.
pub fn no_fault_over_frames()
    ensures matched { EveryNextIsMatched }
    ensures takes { EveryEndTakesWhatComesNext }
{
    written_reads_back();
}

/// An end that is fed the next octets of what the other put finds no fault, in whatever pieces they come; and what it
/// keeps then stands for a history that is a pair with the other's again.
pub fn no_fault_over_octets()
    ensures none { NoFaultWithNextOctets }
    ensures pair { EveryFeedStaysPair }
    ensures grown { EveryGrownStaysPair }
{
    written_reads_back();
}

/// No octet waits for an end that is closed: it has none unfinished, and was fed all that the other put.
pub fn nothing_waits_for_closed()
    ensures { NothingWaitsForAnyClosed }
{
    written_reads_back();
}

/// The unfinished octets of an end and those that it was not fed yet are those of whole frames, and on each channel
/// these are what the other put after what the end took. So the items that the other sent in the life of a live end are
/// those that the frames acted on and then the waiting ones encode.
pub fn octets_in_flight_are_frames()
    ensures frames { AllOctetsInFlightAreFrames }
    ensures items { AllItemsAreActedOnOrWaiting }
{
    written_reads_back();
}

/// On each channel above 0 the i-th frame that an end took has the life, as that end counts, of the i-th frame that the
/// other put. No content but get-ok comes to an end on a channel where it took flow-ok with active 0, and has since put
/// no flow with active 1.
pub fn ends_agree_on_lives()
    ensures lives { AllLivesAgree }
    ensures pause { NoContentFromAnyPaused }
{
    written_reads_back();
}

/// Two new ends stand together: their histories are those of a pair, and each was fed what the other wrote. So they go
/// on with each ask that is accepted, and with each piece of the one's output that is fed to the other, in which no
/// fault is found.
pub fn ends_stand_together()
    ensures { EndsStandTogether }
{
    written_reads_back();
}

/// There is such a pair: two ends that fit their fields, whose limits are the smaller ones at either, come to the
/// histories of a whole connection, with a content each way, a pause, a request and its reply, and closes that cross.
pub fn pairs_run()
    ensures { ExampleIsPair }
{
    written_reads_back();
}

/// So there are two gated ends: a login and an open are admitted, each end beats, and the server closes while a
/// heartbeat is on its way to it; or the login is refused, and both are closed without having agreed.
pub fn gated_pairs_run()
    ensures { GatedExamplesArePairs }
{
    written_reads_back();
}
