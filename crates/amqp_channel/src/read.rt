//! The octets of a header, read where a content is kept.
ghost use Rattle.std.specs.Prelude.{◌≡◌, IfOk};
ghost use Rattle.amqp_model.specs.Wire.Methods.{header_at};
ghost use Rattle.amqp_model.specs.Wire.Readings.{header_reading};
ghost use Rattle.amqp_channel.specs.ReadingView.{header_seen};

use amqp_method::{Header, MethodFaultKind, OutOfMemory, read_header_into};
use std::alloc::Global;

/// Reads the header of a content where it is kept, and answers whether the payload encodes one.
#[tactic(auto, unfolding(amqp_model::specs::Wire::Methods::header_at))]
pub(crate) fn read_content_header(
    alloc: Global,
    payload: &[u8],
    header: &mut Header,
) -> Result<bool, OutOfMemory>
    ensures { IfOk result (λ read. header_seen read header.new ≡ header_reading (header_at payload.now)) }
{
    match read_header_into(alloc, payload, header) {
        Ok(()) => Ok(true),
        Err(fault) => match fault.kind {
            MethodFaultKind::OutOfMemory => Err(OutOfMemory),
            MethodFaultKind::UnknownMethod
            | MethodFaultKind::Value(_)
            | MethodFaultKind::Trailing
            | MethodFaultKind::BadWeight
            | MethodFaultKind::BadFlags => Ok(false),
        },
    }
}
