//! What asks put: their methods, and messages in frames. All of it is staged, which is what may want memory.
//!
//! Nothing here is too long for a frame. A message was refused before where its method or its header doesn't fit the agreed
//! size, of 32 bits, and each part of a body fits it; the other methods have a short string at most. So a frame that can't be
//! staged is one for which there is no memory.
ghost use Rattle.std.specs.Prelude.{◌≡◌, ◌<◌, ℕ, List, [], ◌∷◌, ◌++◌, length, take, map, None, IfOk, IfErr, OnOk, OnErr};
ghost use Rattle.amqp_frame.specs.Splitting.{stream};
ghost use Rattle.amqp_method.specs.Arguments.{call, short_string};
ghost use Rattle.amqp_method.specs.Fitting.{AreOctets, FitsShort};
ghost use Rattle.amqp_method.specs.HeaderView.{properties_view};
ghost use Rattle.amqp_method.specs.Messages.{letter_with};
ghost use Rattle.amqp_method.specs.MethodView.{method_view};
ghost use Rattle.amqp_method.specs.Properties.{header};
ghost use Rattle.amqp_model.specs.End.Asks.{payload_frame, message_payloads, Send};
ghost use Rattle.amqp_model.specs.End.Closes.{close_for, flow_as, method_frame};
ghost use Rattle.amqp_model.specs.Wire.Contents.{pieces};
ghost use Rattle.amqp_model.specs.End.Controls.{heartbeat_frame};
ghost use Rattle.amqp_model.specs.Wire.Methods.{ReadsBack};
ghost use Rattle.amqp_model.specs.End.ReadingBack.{AskReadsBack};
ghost use Rattle.amqp_outbox.specs.OutboxFrames.{header_frame, body_frame, HeaderReadsBack};
ghost use Rattle.amqp_outbox.specs.BodyToCome.{octets_left, still_to_write};
ghost use Rattle.amqp_outbox.specs.LentFrames.{content_left};
ghost use Rattle.amqp_outbox.specs.OutboxView.{with_staged};
ghost use Rattle.amqp_channel.specs.Events.EventView.{message_of};
ghost use Rattle.amqp_channel.specs.Events.Closes.{IsClose};
ghost use Rattle.amqp_core.specs.Faults.Numbers.{refusal_view};
ghost use Rattle.amqp_core.specs.Heard.View.{cause_view};
ghost use Rattle.amqp_core.specs.Asks.Outcomes.{content_asked};
ghost use Rattle.amqp_core.specs.Asks.LentLetter.{lent_letter};

use crate::faults::AskFault;
use crate::heard::Cause;
use crate::lent_message::LentMessage;
use amqp_method::{Arg, Kind, Method, Properties};
use amqp_outbox::{BodyWriter, Chunks, ContentFrames, Outbox};
use amqp_value::ShortStr;
use std::alloc::Global;

/// How many octets a frame has beside its payload.
const AROUND_PAYLOAD: usize = 8;

/// What a slice of octets holds are octets.
fn are_octets(octets: &[u8])
    ensures { AreOctets octets.now }
{}

/// A short string fits its field.
fn is_short(text: &ShortStr)
    ensures { FitsShort text.now }
{
    are_octets(text.as_bytes());
}

pub(crate) fn flow(alloc: Global, active: bool) -> Result<Method, AskFault>
    ensures ok { IfOk result (λ method. method_view method ≡ flow_as Kind.ChannelFlow active) }
    ensures err { IfErr result (λ fault. refusal_view fault ≡ None) }
{
    let Ok(args) = Vec::from_array(alloc, [Arg::Bit(active)]) else {
        return Err(AskFault::OutOfMemory);
    };
    Ok(Method::new(Kind::ChannelFlow, args))
}

/// A close of a channel or of the connection.
pub(crate) fn close(
    alloc: Global,
    kind: Kind,
    code: u16,
    text: &ShortStr,
    cause: Cause,
) -> Result<Method, AskFault>
    requires { IsClose kind }
    ensures ok { IfOk result (λ method. method_view method ≡ close_for kind code text.now (cause_view cause)) }
    ensures short { FitsShort text.now }
    ensures err { IfErr result (λ fault. refusal_view fault ≡ None) }
{
    is_short(text);
    let Ok(text) = text.copy() else {
        return Err(AskFault::OutOfMemory);
    };
    let args = [
        Arg::Short(code),
        Arg::ShortStr(text),
        Arg::Short(cause.class_id),
        Arg::Short(cause.method_id),
    ];
    let Ok(args) = Vec::from_array(alloc, args) else {
        return Err(AskFault::OutOfMemory);
    };
    Ok(Method::new(kind, args))
}

pub(crate) fn blocked(alloc: Global, reason: &ShortStr) -> Result<Method, AskFault>
    ensures ok { IfOk result (λ method. method_view method ≡ call Kind.ConnectionBlocked
        (short_string reason.now ∷ [])) }
    ensures short { FitsShort reason.now }
    ensures err { IfErr result (λ fault. refusal_view fault ≡ None) }
{
    is_short(reason);
    let Ok(reason) = reason.copy() else {
        return Err(AskFault::OutOfMemory);
    };
    let Ok(args) = Vec::from_array(alloc, [Arg::ShortStr(reason)]) else {
        return Err(AskFault::OutOfMemory);
    };
    Ok(Method::new(Kind::ConnectionBlocked, args))
}

/// Stages a frame with this method.
pub(crate) fn stage_method(
    outbox: &mut Outbox,
    channel: u16,
    method: &Method,
) -> Result<(), AskFault>
    ensures ok { OnOk result (outbox.new ≡ with_staged outbox.old (method_frame channel (method_view method.now) ∷
        [])) }
    ensures reads_back { OnOk result (ReadsBack (method_view method.now)) }
    ensures err { IfErr result (λ fault. refusal_view fault ≡ None) }
    ensures same { OnErr result (outbox.new ≡ outbox.old) }
{
    let Ok(()) = outbox.stage_method(channel, method) else {
        return Err(AskFault::OutOfMemory);
    };
    Ok(())
}

/// Stages a heartbeat.
pub(crate) fn stage_heartbeat(outbox: &mut Outbox) -> Result<(), AskFault>
    ensures ok { OnOk result (outbox.new ≡ with_staged outbox.old (heartbeat_frame ∷ [])) }
    ensures err { IfErr result (λ fault. refusal_view fault ≡ None) }
    ensures same { OnErr result (outbox.new ≡ outbox.old) }
{
    let Ok(()) = outbox.stage_heartbeat() else {
        return Err(AskFault::OutOfMemory);
    };
    Ok(())
}

/// Stages the header of a content.
fn stage_header(
    outbox: &mut Outbox,
    channel: u16,
    properties: &Properties,
    body: &[u8],
) -> Result<(), AskFault>
    ensures ok { OnOk result (outbox.new ≡ with_staged outbox.old
        (header_frame channel (header (length body.now) (properties_view properties.now)) ∷ [])) }
    ensures reads_back { OnOk result (HeaderReadsBack (header (length body.now) (properties_view properties.now))) }
    ensures err { IfErr result (λ fault. refusal_view fault ≡ None) }
    ensures same { OnErr result (outbox.new ≡ outbox.old) }
{
    let Ok(()) = outbox.stage_header(channel, body.len() as u64, properties) else {
        return Err(AskFault::OutOfMemory);
    };
    Ok(())
}

/// Makes room for the parts of a body.
fn reserve_parts(outbox: &mut Outbox, room: usize, body: &[u8]) -> Result<(), AskFault>
    requires { 0 < room }
    ensures same { outbox.new ≡ outbox.old }
    ensures err { IfErr result (λ fault. refusal_view fault ≡ None) }
{
    let parts = body.len() / room + 1;
    let around = parts.saturating_mul(AROUND_PAYLOAD);
    let Ok(()) = outbox.reserve(parts, body.len().saturating_add(around)) else {
        return Err(AskFault::OutOfMemory);
    };
    Ok(())
}

/// Stages a body in parts, each as long as there is room, the last with what is left.
fn stage_parts(outbox: &mut Outbox, channel: u16, room: usize, body: &[u8]) -> Result<(), AskFault>
    requires { 0 < room }
    ensures ok { OnOk result (outbox.new ≡ with_staged outbox.old (map (body_frame channel) (pieces room body.now))) }
    ensures err { IfErr result (λ fault. refusal_view fault ≡ None) }
    ensures output { outbox.new.output ≡ outbox.old.output }
{
    let mut rest = body;
    while !rest.is_empty() {
        let size = rest.len().min(room);
        let (part, later) = rest.split_at(size);
        let Ok(()) = outbox.stage_body(channel, part) else {
            return Err(AskFault::OutOfMemory);
        };
        rest = later;
    }
    Ok(())
}

/// Stages the frames of a message, its content cut to the agreed frame size.
pub(crate) fn stage_message(
    outbox: &mut Outbox,
    channel: u16,
    frame_max: u32,
    message: LentMessage<'_>,
) -> Result<(), AskFault>
    requires { 8 < frame_max }
    ensures ok { OnOk result (outbox.new ≡ with_staged outbox.old (map (payload_frame channel)
        (message_payloads frame_max (message_of (lent_letter message.entry))))) }
    ensures reads_back { OnOk result (AskReadsBack (Send channel (message_of (lent_letter message.entry)))) }
    ensures err { IfErr result (λ fault. refusal_view fault ≡ None) }
    ensures output { outbox.new.output ≡ outbox.old.output }
{
    stage_method(outbox, channel, message.method())?;
    match message.content_parts() {
        Some((properties, body)) => {
            let room = frame_max as usize - AROUND_PAYLOAD;
            stage_header(outbox, channel, properties, body)?;
            reserve_parts(outbox, room, body)?;
            stage_parts(outbox, channel, room, body)
        }
        None => Ok(()),
    }
}

/// Stages the frames of a method and its content, cut to the agreed frame size, and lets the chunks go in which the body
/// lies. They are staged last, so that out of memory they are as they were.
pub(crate) fn stage_chunks(
    outbox: &mut Outbox,
    channel: u16,
    frame_max: u32,
    method: &Method,
    properties: &Properties,
    chunks: &mut Chunks,
) -> Result<(), AskFault>
    requires { 8 < frame_max }
    ensures ok { OnOk result (outbox.new ≡ with_staged outbox.old (map (payload_frame channel)
        (message_payloads frame_max (message_of (letter_with (method_view method.now) (properties_view properties.now)
        chunks.old))))) }
    ensures reads_back { OnOk result (AskReadsBack (content_asked channel (method_view method.now)
        (properties_view properties.now) chunks.old)) }
    ensures taken { OnOk result (chunks.new ≡ []) }
    ensures err { IfErr result (λ fault. refusal_view fault ≡ None) }
    ensures output { outbox.new.output ≡ outbox.old.output }
    ensures kept { OnErr result (chunks.new ≡ chunks.old) }
{
    stage_method(outbox, channel, method)?;
    let Ok(()) = outbox.stage_header(channel, chunks.len() as u64, properties) else {
        return Err(AskFault::OutOfMemory);
    };
    let room = frame_max - AROUND_PAYLOAD as u32;
    let Ok(()) = outbox.stage_chunks(channel, room, chunks) else {
        return Err(AskFault::OutOfMemory);
    };
    Ok(())
}

/// The frames of a method and its content, cut to the agreed frame size, with the body where it lies. What stands around
/// its parts goes to `octets`.
pub(crate) fn lend_frames<'a>(
    octets: &'a mut Vec<u8>,
    channel: u16,
    frame_max: u32,
    method: &Method,
    properties: &Properties,
    body: &'a [u8],
) -> Result<ContentFrames<'a>, AskFault>
    requires { 8 < frame_max }
    ensures ok { IfOk result (λ frames. content_left frames ≡ stream (map (payload_frame channel)
        (message_payloads frame_max (message_of (letter_with (method_view method.now) (properties_view properties.now)
        body.now))))) }
    ensures reads_back { OnOk result (AskReadsBack (content_asked channel (method_view method.now)
        (properties_view properties.now) body.now)) }
    ensures err { IfErr result (λ fault. refusal_view fault ≡ None) }
{
    let room = frame_max - AROUND_PAYLOAD as u32;
    match ContentFrames::new(channel, method, properties, body, room, octets) {
        Ok(frames) => Ok(frames),
        Err(_) => Err(AskFault::OutOfMemory),
    }
}

/// The frames of a method and of the header of its content are appended to octets. The body, of so many octets, is still
/// to come, cut to the agreed frame size.
pub(crate) fn begin_frames(
    octets: &mut Vec<u8>,
    channel: u16,
    frame_max: u32,
    method: &Method,
    properties: &Properties,
    size: u64,
) -> Result<BodyWriter, AskFault>
    requires { 8 < frame_max }
    ensures ok { IfOk result (λ writer. (body : List ℕ) → length body ≡ size
        → octets.new.items ++ still_to_write writer body ≡ octets.old.items ++ stream (map (payload_frame channel)
        (message_payloads frame_max (message_of (letter_with (method_view method.now) (properties_view properties.now)
        body))))) }
    ensures left { IfOk result (λ writer. octets_left writer ≡ size) }
    ensures reads_back { OnOk result ((body : List ℕ) → length body ≡ size → AskReadsBack
        (content_asked channel (method_view method.now) (properties_view properties.now) body)) }
    ensures err { IfErr result (λ fault. refusal_view fault ≡ None) }
    ensures same { OnErr result (octets.new.items ≡ octets.old.items) }
    ensures stays { take (length octets.old.items) octets.new.items ≡ octets.old.items }
{
    let room = frame_max - AROUND_PAYLOAD as u32;
    match BodyWriter::begin(channel, method, properties, size, room, octets) {
        Ok(writer) => Ok(writer),
        Err(_) => Err(AskFault::OutOfMemory),
    }
}
