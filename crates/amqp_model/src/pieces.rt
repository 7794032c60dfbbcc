//! One end, piece by piece.
//!
//! `after_feed` takes octet by octet. An end that gives a whole piece to the splitter of `amqp_frame` takes each octet
//! once and lends the frames: these laws say that the same comes of it. Each is about one answer of the splitter, in
//! the words of its contract: a frame, none, a fault. The last three are about the protocol header, which a server
//! reads before any frame. All of them rest on one fact of an end, `HoldsUnfinished`, which every call keeps.

ghost use Rattle.amqp_model.specs.Stream.Pieces.{EveryFeedBeginsOpening, EveryFeedEndsOpening, EveryFeedFindsFault};
ghost use Rattle.amqp_model.specs.Stream.Pieces.{EveryFeedGivesFrame, EveryFeedLeavesOpening, EveryFeedWaits};
ghost use Rattle.amqp_model.specs.Laws.OctetsFollow.{UnfinishedIsHeld};

/// What is unfinished at an end is a proper prefix of the protocol header where that is awaited, and octets of one
/// frame where frames are read: at a new end, at one that stands for a history, and after each piece, ask and write.
pub fn unfinished_is_held()
    ensures { UnfinishedIsHeld }
{}

/// Where a splitter answers with a frame, the end does what it does with that frame. Where it answers with none, all of
/// the piece is taken and nothing comes. Where it reports a fault of the octets, the end fails at the octet that shows
/// it.
pub fn pieces_are_split()
    ensures frame { EveryFeedGivesFrame }
    ensures rest { EveryFeedWaits }
    ensures fault { EveryFeedFindsFault }
{}

/// Where a server awaits the protocol header, a piece that begins the rest of it is taken whole, one that has the rest
/// of it ends it, and one that differs is taken up to the octet that does.
pub fn pieces_are_compared()
    ensures begins { EveryFeedBeginsOpening }
    ensures ends { EveryFeedEndsOpening }
    ensures leaves { EveryFeedLeavesOpening }
{}
