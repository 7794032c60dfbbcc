//! The line below a frame's: what its payload says.
ghost use Rattle.std.specs.Prelude.{◌≡◌, IfOk, IsErr};
ghost use Rattle.std.specs.Option.{option_map};
ghost use Rattle.std.specs.String.{string_bytes};
ghost use Rattle.amqp_frame.specs.Frame.{owned};
ghost use Rattle.amqp_method.specs.HeaderReading.{header_at};
ghost use Rattle.amqp_method.specs.HeaderView.{header_view};
ghost use Rattle.amqp_method.specs.Reading.{method_at};
ghost use Rattle.amqp_method.specs.Texts.{text_of_header, text_of_method};
ghost use Rattle.amqp_text.specs.Payloads.{fault_line_of, line_of_read, line_view, own_fault_number, payload_line_of, text_line};

use amqp_frame::{FrameKind, OutOfMemory, RawFrame};
use amqp_method::{
    Header, MethodFault, MethodFaultKind, header_text, method_text, read_header, read_method,
};
use std::alloc::{AllocError, Global};

/// A line, and whether it shows a fault.
#[derive(Drop)]
pub struct PayloadLine {
    pub text: String,
    pub is_fault: bool,
}

/// The line below a method or header frame: two spaces and its text, or `fault N at A` with the place in the payload.
/// No line stands below any other frame.
pub fn payload_line(alloc: Global, frame: &RawFrame) -> Result<Option<PayloadLine>, OutOfMemory>
    ensures { IfOk result (λ line. option_map line_view line ≡ payload_line_of (owned frame.now)) }
{
    match frame.kind {
        FrameKind::Method => Ok(Some(method_line(alloc, &frame.payload)?)),
        FrameKind::Header => Ok(Some(header_line(alloc, &frame.payload)?)),
        FrameKind::Body => Ok(None),
        FrameKind::Heartbeat => Ok(None),
    }
}

/// The line of a method's payload.
fn method_line(alloc: Global, payload: &[u8]) -> Result<PayloadLine, OutOfMemory>
    ensures { IfOk result (λ line. line_view line ≡ line_of_read text_of_method (method_at payload.now)) }
{
    match read_method(alloc, payload) {
        Ok(method) => {
            let Ok(text) = method_text(&method) else {
                return Err(OutOfMemory);
            };
            line_with(alloc, &text)
        }
        Err(fault) => fault_line(alloc, fault),
    }
}

/// The line of a content header's payload.
fn header_line(alloc: Global, payload: &[u8]) -> Result<PayloadLine, OutOfMemory>
    ensures { IfOk result (λ line. line_view line ≡ line_of_read text_of_header (header_at payload.now)) }
{
    match read_header(alloc, payload) {
        Ok(header) => line_of_header(alloc, &header),
        Err(fault) => fault_line(alloc, fault),
    }
}

/// The line of a content header that was read.
fn line_of_header(alloc: Global, header: &Header) -> Result<PayloadLine, OutOfMemory>
    ensures { IfOk result (λ line. line_view line ≡ text_line (text_of_header (header_view header.now))) }
{
    let Ok(text) = header_text(alloc, header) else {
        return Err(OutOfMemory);
    };
    line_with(alloc, &text)
}

/// Two spaces, and the text of what was read.
fn line_with(alloc: Global, text: &str) -> Result<PayloadLine, OutOfMemory>
    ensures { IfOk result (λ line. line_view line ≡ text_line text.now) }
{
    let text = format!(in alloc; "  {text}")?;
    Ok(PayloadLine {
        text,
        is_fault: false,
    })
}

/// The line `fault N at A` of a payload that can't be read, after two spaces. `N` is `2.K` for a field value with the
/// fault `K`.
fn fault_line(alloc: Global, fault: MethodFault) -> Result<PayloadLine, OutOfMemory>
    ensures line { IfOk result (λ line. line_view line ≡ fault_line_of fault) }
    ensures memory { fault.kind ≡ MethodFaultKind.OutOfMemory → IsErr result }
{
    let at = fault.at;
    let number = match fault.kind {
        MethodFaultKind::UnknownMethod => "1".to_string(alloc)?,
        MethodFaultKind::Value(kind) => value_fault_number(alloc, kind.number())?,
        MethodFaultKind::Trailing => "3".to_string(alloc)?,
        MethodFaultKind::BadWeight => "4".to_string(alloc)?,
        MethodFaultKind::BadFlags => "5".to_string(alloc)?,
        MethodFaultKind::OutOfMemory => return Err(OutOfMemory),
    };
    let text = format!(in alloc; "  fault {number} at {at}")?;
    Ok(PayloadLine {
        text,
        is_fault: true,
    })
}

fn value_fault_number(alloc: Global, kind: u8) -> Result<String, AllocError>
    ensures { IfOk result (λ number. string_bytes number ≡ own_fault_number kind) }
{
    format!(in alloc; "2.{kind}")
}
