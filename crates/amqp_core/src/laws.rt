//! Laws, over definitions alone: those of `amqp_model`, and of the two roles. Who needs one calls the function and has
//! its clauses.
ghost use Rattle.amqp_core.specs.Connection.OneChannel.{PutsAsEnd, StepsAsEnd};
ghost use Rattle.amqp_core.specs.End.Cuts.{CutsChangeNothing};
ghost use Rattle.amqp_core.specs.Laws.{SentIsTakenByAll};
ghost use Rattle.amqp_core.specs.Traced.Tracing.{UnfailedTracesStand};

pub use amqp_model::{
    agreement, answers, arrangement, bounds, contents, fitting, lives, octets, one_end, pieces,
    replies, traces, two_ends, verdicts,
};

/// What one role may put is what the other may take.
pub fn sent_is_taken()
    ensures { SentIsTakenByAll }
{}

/// An end that is kept with its history, and has not failed, stands for each history that it is the trace of.
pub fn unfailed_traces_stand()
    ensures { UnfailedTracesStand }
{}

/// How octets are cut into pieces changes nothing, from wherever an end stands: the same is reported, in the same
/// order, and the same end is left, with the same output. So it stands for the same histories then.
pub fn cuts_change_nothing()
    ensures { CutsChangeNothing }
{}

/// What is decided on one channel of a connection that is Running is the end's verdict, and where it goes on, what the
/// end keeps then is the channel that is left, and all else as it was.
pub(crate) fn channel_steps_as_end()
    ensures { StepsAsEnd }
{}

/// What payloads that are put leave of a channel is what the end keeps of it then, where each frame says its payload.
pub(crate) fn channel_puts_as_end()
    ensures { PutsAsEnd }
{}
