//! Methods that say nothing of the end itself: closes, replies on a channel, and the limits that a client settles.
ghost use Rattle.std.specs.Prelude.{◌≡◌, [], IfOk};
ghost use Rattle.amqp_method.specs.Arguments.{call, Fits};
ghost use Rattle.amqp_method.specs.MethodView.{method_view};
ghost use Rattle.amqp_model.specs.End.Closes.{close_as, flow_as, number_of, text_of, without_arguments};
ghost use Rattle.amqp_model.specs.History.Negotiation as negotiation;
ghost use Rattle.amqp_channel.specs.Events.Closes.{code_view};
ghost use Rattle.amqp_channel.specs.Events.EventView.{agreed_view};

use crate::faults::OutOfMemory;
use amqp_channel::{Agreed, CloseCode};
use amqp_method::{Arg, Kind, Method};
use amqp_value::ShortStr;
use std::alloc::Global;

/// A method that has no arguments.
pub(crate) fn bare(alloc: Global, kind: Kind) -> Method
    requires { Fits (call kind []) }
    ensures { method_view result ≡ without_arguments kind }
{
    Method::new(kind, Vec::new(alloc))
}

/// A close of the connection or of a channel, with the code's number and text. It names no method as the cause.
pub(crate) fn close(alloc: Global, kind: Kind, code: CloseCode) -> Result<Method, OutOfMemory>
    requires { Fits (close_as kind (number_of (code_view code)) (text_of (code_view code))) }
    ensures { IfOk result (λ m. method_view m ≡ close_as kind (number_of (code_view code)) (text_of (code_view code))) }
{
    // Each text is shorter than 256 octets, so only memory can be lacking.
    let Ok(text) = ShortStr::new(alloc, code.text().as_bytes()) else {
        return Err(OutOfMemory);
    };
    let number = Arg::Short(code.number());
    let args = vec![in alloc; number, Arg::ShortStr(text), Arg::Short(0), Arg::Short(0)]?;
    Ok(Method::new(kind, args))
}

/// The answer to a flow.
pub(crate) fn flow_ok(alloc: Global, active: bool) -> Result<Method, OutOfMemory>
    ensures { IfOk result (λ m. method_view m ≡ flow_as Kind.ChannelFlowOk active) }
{
    let args = vec![in alloc; Arg::Bit(active)]?;
    Ok(Method::new(Kind::ChannelFlowOk, args))
}

/// What a client settles on a server's limits.
pub(crate) fn tune_ok(alloc: Global, agreed: Agreed) -> Result<Method, OutOfMemory>
    ensures { IfOk result (λ m. method_view m ≡ negotiation.tune_ok (agreed_view agreed)) }
{
    let channels = Arg::Short(agreed.channel_max);
    let heartbeat = Arg::Short(agreed.heartbeat);
    let args = vec![in alloc; channels, Arg::Long(agreed.frame_max), heartbeat]?;
    Ok(Method::new(Kind::ConnectionTuneOk, args))
}
