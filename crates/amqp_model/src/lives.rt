//! Lives of a channel.
//!
//! A channel's number is used again once its close is answered, and no frame says to which life of the number it
//! belongs. Each end counts for itself. It waits for close-ok once it has put close, drops what it takes meanwhile,
//! and answers a close that crosses its own. These laws say that the two counts agree, whatever the applications
//! ask, however the two directions are interleaved, and wherever an end puts connection.close or is heard no more.
//!
//! `Run` is every such interleaving. A law that speaks of `role` holds of both ends: `mine` are the notes of the end
//! in that role, `theirs` those of the other.

ghost use Rattle.amqp_model.specs.Pair.Connections.{EachChannelRuns, EveryOvertakingRuns};
ghost use Rattle.amqp_model.specs.Laws.LifeLaws.{ActsOnNothingAfterLeaving, AllSidesAgree, EveryEndTakesPrefix};
ghost use Rattle.amqp_model.specs.Laws.LifeLaws.{NoEndFindsFault, EveryEndActsOnPrefix, AllOnItsWayIsOfItsLife};
ghost use Rattle.amqp_model.specs.Laws.LifeLaws.{AllSentIsActedOnOrOnItsWay, AllActedOnAtEveryClose};
ghost use Rattle.amqp_model.specs.Laws.LifeLaws.{AllActedOnAtEveryConnectionClose, NoEndActsAfterItsClose};
ghost use Rattle.amqp_model.specs.Laws.LifeLaws.{NoEndTakesContentPaused, NoPauseBeforeAnyContent};
ghost use Rattle.amqp_model.specs.Laws.WordsRead.{ScriptsRun, WordsRead};

/// Both ends mean the same life: the i-th note that one took has the life of the i-th note that the other put, and
/// what was taken is, frame by frame, a prefix of what was put.
pub fn sides_agree()
    ensures lives { AllSidesAgree }
    ensures notes { EveryEndTakesPrefix }
{}

/// Whatever comes next to an end has a verdict that goes on.
pub fn no_fault()
    ensures { NoEndFindsFault }
{}

/// In each life, the frames that an end acted on are a prefix of those that the other sent.
pub fn acted_is_prefix_of_sent()
    ensures { EveryEndActsOnPrefix }
{}

/// Where the channel is Opening or Open at an end that has not put connection.close, all that is in flight to it is
/// of its own life, and with what it acted on it is all that the other sent in that life.
pub fn in_flight()
    ensures life { AllOnItsWayIsOfItsLife }
    ensures sent { AllSentIsActedOnOrOnItsWay }
{}

/// Where the other's close of the channel ended a life, and was taken before the end put one, everything sent in that
/// life was acted on; and so it is in a life that goes on, where the end has taken all that the other put.
pub fn all_acted_on_at_close()
    ensures channel { AllActedOnAtEveryClose }
    ensures connection { AllActedOnAtEveryConnectionClose }
{}

/// From where an end puts a close, of the channel or of the connection, it acts on nothing more of that life, or of the
/// connection.
pub fn nothing_acted_on_after_own_close()
    ensures channel { NoEndActsAfterItsClose }
    ensures connection { ActsOnNothingAfterLeaving }
{}

/// From where an end took flow-ok with active 0 in a life until it puts flow with active 1, it takes no content but
/// get-ok.
pub fn no_content_while_paused()
    ensures counted { NoEndTakesContentPaused }
    ensures plain { NoPauseBeforeAnyContent }
{}

/// A connection of many channels is a run on each of them, where each channel's frames come in order: those of
/// different channels may overtake each other, as in one that is stated.
pub fn each_channel_runs()
    ensures each { EachChannelRuns }
    ensures overtaking { EveryOvertakingRuns }
{}

/// The words that count in a history say of the whole of it what their names say.
pub fn words_read()
    ensures { WordsRead }
{}

/// There are runs: each script plays one, and one of them has closes that cross and two lives.
pub fn scripts_run()
    ensures { ScriptsRun }
{}
