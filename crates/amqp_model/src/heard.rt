//! What the other end said in the handshake.
//!
//! A server hears start-ok, tune-ok and open, a client start and tune. `heard` reads them off the history; an end
//! keeps of each kind the last. These laws say that what it keeps is what was heard, and what it is to be heard.

ghost use Rattle.amqp_model.specs.Laws.HeardLaws.{EachHearsItsOwn, HeardReads};
ghost use Rattle.amqp_model.specs.Laws.EndsFollow.{HeardIsKept};

/// What is kept is what was heard: at the beginning nothing, then with each frame that is taken and all that is put.
/// Ends that differ only in what they keep of contents hear the same.
pub fn heard_is_kept()
    ensures { HeardIsKept }
{}

/// What was heard was taken on channel 0, awaited in the handshake, and gone on with, and no such method came since.
/// A client hears start and tune alone, besides open-ok, a server start-ok, tune-ok and open.
pub fn heard_was_awaited()
    ensures reads { HeardReads }
    ensures own { EachHearsItsOwn }
{}
