//! Requests and their replies.
//!
//! A client's method to which the server replies is a request, and the server answers them in the order in which they
//! came. These laws read both off the items of a channel in a life: the n-th reply answers the n-th request, at one end
//! by itself and between two. What an end keeps is the requests that have no reply yet.

ghost use Rattle.amqp_model.specs.Pair.InTurn.{AnswersInTurn, AsksOneAtATime, EveryDueIsFirst};
ghost use Rattle.amqp_model.specs.Pair.InTurn.{KeepsUnanswered, PairAnswersInTurn};

/// In each life of a channel the n-th reply of a server answers the n-th request that it acted on, and the n-th reply
/// that a client acted on answers the n-th request that it sent. A client has at most one request without its reply.
pub fn replies_are_in_turn()
    ensures in_turn { AnswersInTurn }
    ensures one_at_a_time { AsksOneAtATime }
{}

/// An Open channel keeps the requests of its life that have no reply yet, and the reply that is due is to the first of
/// them.
pub fn unanswered_are_kept()
    ensures kept { KeepsUnanswered }
    ensures due { EveryDueIsFirst }
{}

/// In each life of a channel the replies that the server sent, and those of them that the client acted on, answer in
/// turn the requests that the client sent, and those of them that the server acted on.
pub fn replies_answer_requests()
    ensures { PairAnswersInTurn }
{}
