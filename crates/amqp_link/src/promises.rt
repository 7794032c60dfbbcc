//! The laws that carry what a link promises, gathered.
ghost use Rattle.amqp_link.specs.PromiseLaws.{AllPromiseLaws};

use amqp_core::laws::{agreement, contents, fitting, one_end, replies, two_ends};

/// Whatever two joined ends have done, they keep what they promise: each of these laws is one of the definitions.
pub(crate) fn promises_are_kept()
    ensures { AllPromiseLaws }
{
    agreement::ends_agree_on_lives();
    agreement::nothing_waits_for_closed();
    agreement::octets_in_flight_are_frames();
    contents::items_are_encoded();
    fitting::owed_read_back();
    one_end::closes_are_put_last();
    one_end::failed_follows();
    replies::replies_answer_requests();
    replies::replies_are_in_turn();
    two_ends::all_items_acted_on_at_close();
    two_ends::items_acted_on_are_prefix();
    two_ends::items_are_told_and_said();
    two_ends::no_items_before_first_life();
    two_ends::octets_carry_channels();
}
