//! Contents whose octets are lent as they come.
//!
//! An end that gathers contents keeps a method, properties and octets, and tells the whole. An end that lends tells
//! each frame of a content as it comes, and keeps only how far the content has come: `Streaming`. These laws say that
//! it needs no more. Ends that differ only in what they keep of contents are `AlikeEnds`: they do the same with every
//! frame, ask and write, but for the content told, and stay alike. So an end that lends stands for the histories of
//! one that gathers.

ghost use Rattle.amqp_model.specs.Laws.StreamingLaws.{AlikeIsEquality, AnswersAlike, AskingLeavesAlike, AsksAlike};
ghost use Rattle.amqp_model.specs.Laws.StreamingLaws.{EachFrameLends, EntriesLeaveAlike, FeedsAlike, KeptIsCame};
ghost use Rattle.amqp_model.specs.Laws.StreamingLaws.{LastIsWhole, PutsAlike, PuttingLeavesAlike, StreamFeedFollows};
ghost use Rattle.amqp_model.specs.Laws.StreamingLaws.{TakingLeavesAlike, VerdictsAlike, WholeIsCame};
ghost use Rattle.amqp_model.specs.Laws.StreamingLaws.{WritingLeavesAlike};
ghost use Rattle.amqp_model.specs.Laws.ItemsFollow.{ContentsAreStreamed};

use crate::octets::octets_follow;

/// What is kept of a content that is lent is what is known of the gathered one, after any payloads: as many octets have
/// come as are gathered.
pub fn contents_are_streamed()
    ensures { ContentsAreStreamed }
{}

/// The body of a whole content is what came, followed by the octets of its last part.
pub fn parts_join()
    ensures whole { WholeIsCame }
    ensures so_far { KeptIsCame }
{}

/// Alike ends have the same verdict on a frame, but for the content told. They put the same, and stay alike.
pub fn alike_ends_take_alike()
    ensures verdict { VerdictsAlike }
    ensures puts { PutsAlike }
    ensures taken { TakingLeavesAlike }
    ensures entry { EntriesLeaveAlike }
{}

/// Alike ends answer an ask alike, and stay alike after its frames.
pub fn alike_ends_ask_alike()
    ensures answer { AsksAlike }
    ensures put { PuttingLeavesAlike }
    ensures queries { AnswersAlike }
{}

/// Alike endpoints stay alike after a piece, an ask and a write, and a piece comes to the same, but for the content
/// told.
pub fn alike_endpoints_stay_alike()
    ensures equality { AlikeIsEquality }
    ensures fed { FeedsAlike }
    ensures asked { AskingLeavesAlike }
    ensures written { WritingLeavesAlike }
{}

/// An endpoint that lends goes on to stand for the history of one that gathers.
pub fn lending_follows()
    ensures { StreamFeedFollows }
{
    octets_follow();
}

/// Each frame that is taken without a fault lends one event. The last frame of a content lends the last octets of its
/// body.
pub fn each_frame_lends()
    ensures one { EachFrameLends }
    ensures last { LastIsWhole }
{}
