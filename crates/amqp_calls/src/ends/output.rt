//! The output of an end.
ghost use Rattle.std.specs.Prelude.{◌≡◌, true, is_some};
ghost use Rattle.std.specs.Borrow.{sem};
ghost use Rattle.std.specs.Io.BufRead.{Rests};
ghost use Rattle.amqp_model.specs.Output.Outputs.{output_octets};
ghost use Rattle.amqp_core.specs.Stream.View.{endpoint_of};
ghost use Rattle.amqp_core.specs.contracts.stream.StreamEnd as stream_row;
ghost use Rattle.amqp_handle.specs.contracts.kept.Kept as kept_row;
ghost use Rattle.amqp_calls.specs.EndAnswers.{IsOutputOf, WritesKept};
ghost use Rattle.amqp_calls.specs.EndLending.{StaysSlot};

use amqp_core::{Role, StreamEnd};
use amqp_handle::{EndSlot, HeldEnd, Kept};

/// More octets than the output has.
const PAST_OUTPUT: u32 = 10;

fn lend_output<'a, R: Role>(kept: &'a mut Kept<StreamEnd<R>>) -> &'a [u8]
    ensures octets { result.now ≡ output_octets (endpoint_of kept.old.end.value).output }
    ensures* after { sem 𝓛 (Rests (kept_row.the_row (stream_row.the_row R.row R.Hello.row R.Role)) kept.entry (λ new. new ≡ kept.old)) }
{
    let kept: &'a Kept<StreamEnd<R>> = kept;
    kept.end.output()
}

/// The output of a handle's end.
pub fn end_output<'a>(slot: &'a mut EndSlot) -> &'a [u8]
    requires { is_some slot.old.value ≡ true }
    ensures octets { IsOutputOf slot.old.value result.now }
    ensures* after { sem 𝓛 (StaysSlot slot.entry) }
{
    match slot.held() {
        HeldEnd::Client(kept) => lend_output(kept),
        HeldEnd::Server(kept) => lend_output(kept),
    }
}

pub fn wrote<R: Role>(kept: &mut Kept<StreamEnd<R>>, octets: usize) -> u32
    ensures { WritesKept kept.old octets result kept.new }
{
    if octets > kept.end.output().len() {
        return PAST_OUTPUT;
    }
    kept.end.wrote(octets);
    0
}
