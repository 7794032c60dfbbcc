//! Messages that C gives by their octets.
ghost use Rattle.std.specs.Prelude.{◌≡◌, IfOk, IfErr};
ghost use Rattle.amqp_method.specs.Encoding.{EncodesMethod};
ghost use Rattle.amqp_method.specs.FirstFault.{FirstFaultOfHeader, FirstFaultOfMethod};
ghost use Rattle.amqp_method.specs.HeaderView.{header_view};
ghost use Rattle.amqp_method.specs.MethodView.{method_view};
ghost use Rattle.amqp_method.specs.Properties.{EncodesHeader};
ghost use Rattle.amqp_calls.specs.EndAsks.{NotText};
ghost use Rattle.amqp_calls.specs.Messages.{unmade_status, unread_as, NotRead};

use crate::codec::statuses::{MISFIT, method_fault};
use amqp_handle::HandleFault;
use amqp_method::{Header, Method, MethodFault, MethodFaultKind, read_header, read_method};
use amqp_value::ShortStr;
use std::alloc::Global;

/// Why what C gives isn't a message or an ask.
#[derive(Clone, Copy)]
pub(crate) enum Unmade {
    /// The payload of a method, or of a content header, can't be read.
    Unread(MethodFault),
    /// Something doesn't fit its place: there is a content where none follows, the header says another size than the
    /// body's, a text is longer than 255 octets, or nothing has this kind.
    Misfit,
    /// Memory was refused.
    OutOfMemory,
}

impl Unmade {
    /// The status of it.
    pub(crate) fn number(self) -> u32
        ensures { result ≡ unmade_status self }
    {
        match self {
            Unmade::Unread(fault) => method_fault(fault.kind),
            Unmade::Misfit => MISFIT,
            Unmade::OutOfMemory => HandleFault::OutOfMemory.number(),
        }
    }
}

/// Why a payload isn't read.
fn unread(fault: MethodFault) -> Unmade
    ensures { result ≡ unread_as fault }
{
    match fault.kind {
        MethodFaultKind::OutOfMemory => Unmade::OutOfMemory,
        MethodFaultKind::UnknownMethod => Unmade::Unread(fault),
        MethodFaultKind::Value(_) => Unmade::Unread(fault),
        MethodFaultKind::Trailing => Unmade::Unread(fault),
        MethodFaultKind::BadWeight => Unmade::Unread(fault),
        MethodFaultKind::BadFlags => Unmade::Unread(fault),
    }
}

/// The method that a payload encodes.
pub(crate) fn own_method(alloc: Global, payload: &[u8]) -> Result<Method, Unmade>
    ensures ok { IfOk result (λ method. EncodesMethod (method_view method) payload.now) }
    ensures err { IfErr result (λ e. NotRead (FirstFaultOfMethod payload.now) e) }
{
    match read_method(alloc, payload) {
        Ok(method) => Ok(method),
        Err(fault) => Err(unread(fault)),
    }
}

/// The content header that a payload encodes.
pub(crate) fn own_header(alloc: Global, payload: &[u8]) -> Result<Header, Unmade>
    ensures ok { IfOk result (λ header. EncodesHeader (header_view header) payload.now) }
    ensures err { IfErr result (λ e. NotRead (FirstFaultOfHeader payload.now) e) }
{
    match read_header(alloc, payload) {
        Ok(header) => Ok(header),
        Err(fault) => Err(unread(fault)),
    }
}

/// The text of an ask.
pub(crate) fn own_text(alloc: Global, octets: &[u8]) -> Result<ShortStr, Unmade>
    ensures ok { IfOk result (λ text. text ≡ octets.now) }
    ensures err { IfErr result (λ e. NotText octets.now e) }
{
    if octets.len() > 255 {
        return Err(Unmade::Misfit);
    }
    let Ok(text) = ShortStr::new(alloc, octets) else {
        return Err(Unmade::OutOfMemory);
    };
    Ok(text)
}
