//! One end, octet by octet.
//!
//! `after_octet`, of the definitions in `Endpoint`, is one end as a plain machine that takes an octet at a time: a
//! server compares the first eight with the protocol header, and all others are gathered up to the end of a frame.
//! These laws say that it is what the definitions over whole frames say: what it keeps stands for a history of whole
//! frames (`EndpointStandsFor`), the octets fed are those of the frames taken and a rest, and what it writes are the
//! octets of the frames put.

ghost use Rattle.amqp_model.specs.Laws.OctetLaws.{JudgedIsSaid, OneIsSaid};
ghost use Rattle.amqp_model.specs.Laws.OctetsFollow.{CutChangesNothing, OctetsFollow};

use crate::fitting::written_reads_back;

/// Of octets of which no shorter prefix is a frame or shows a fault, what they are judged to be is what they are: a
/// frame begun, a whole frame within the limit, or octets of which the last shows a fault. They are exactly one of
/// these.
pub fn judged_is_said()
    ensures said { JudgedIsSaid }
    ensures one { OneIsSaid }
{}

/// The same comes of octets however they are cut. Each piece that has octets loses one, none loses more than it has,
/// and where nothing comes of a piece all of it is taken. An end that is closed, or has failed, takes nothing.
pub fn cut_changes_nothing()
    ensures { CutChangesNothing }
{}

/// A new end stands for a history of nothing. What an end keeps stands for its history, for all octets fed and for all
/// octets written, after each octet and each piece by which it does not fail, each ask and each write. Where it fails,
/// the octets fed tell why, and its output is still that of what it put.
pub fn octets_follow()
    ensures { OctetsFollow }
{
    written_reads_back();
}
