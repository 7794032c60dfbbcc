//! A frame, and its octets.
ghost use Rattle.std.specs.Prelude.{◌≡◌, ◌^◌, ◌<◌, ◌≤◌, ◌+◌, ◌∷◌, ◌++◌, codes, length, take, drop, vec_len, IfOk, OnOk, OnErr, MatchOption, Some};
ghost use Rattle.byteorder.specs.Endian.{big_bytes};
ghost use Rattle.amqp_frame.specs.Frame.{Frame, octets, type_octet, kind_name, frame_length, owned, lent, header};
ghost use Rattle.amqp_frame.specs.Splitting.{IsTypeOctet};
ghost use Rattle.amqp_frame.specs.Writing.{HasPayloadRoom, FinishesFrame};

use crate::faults::OutOfMemory;
use byteorder::{BigEndian, ByteOrder};
use std::alloc::Global;
use std::fmt;

/// How many octets stand before a payload: the type, the channel and the payload's size.
pub const HEADER_LENGTH: usize = 7;

/// Where the payload's size stands in a frame: after the type and the channel.
const SIZE_PLACE: usize = 3;

/// How many octets a frame has beside its payload: those before it, and the end octet.
pub const OVERHEAD: usize = 8;

/// What a client writes before its first frame: `AMQP`, then 0, 0, 9, 1 (section 4.2.2, "Protocol Header").
pub const PROTOCOL_HEADER: [u8; 8] = [0x41, 0x4d, 0x51, 0x50, 0, 0, 9, 1];

/// A whole heartbeat: the type octet 8, the channel 0, no payload, and the end octet (section 4.2.7, "Heartbeat
/// Frames").
pub const HEARTBEAT: [u8; OVERHEAD] = [8, 0, 0, 0, 0, 0, 0, END];

/// The octet that ends each frame (section 4.2.3, "frame-end").
pub(crate) const END: u8 = 0xce;

/// What a frame carries, with its type octet.
#[derive(Clone, Copy, PartialEq, Eq, Debug)]
pub enum FrameKind {
    Method = 1,
    Header = 2,
    Body = 3,
    Heartbeat = 8,
}

impl FrameKind {
    /// The kind that a type octet stands for, if it stands for one.
    #[inline]
    pub fn from_octet(octet: u8) -> Option<FrameKind>
        ensures { MatchOption result (IsTypeOctet octet → ⊥) (λ kind. type_octet kind ≡ octet) }
    {
        match octet {
            1 => Some(FrameKind::Method),
            2 => Some(FrameKind::Header),
            3 => Some(FrameKind::Body),
            8 => Some(FrameKind::Heartbeat),
            _ => None,
        }
    }

    /// The type octet.
    pub fn octet(self) -> u8
        ensures { result ≡ type_octet self }
    {
        self as u8
    }
}

/// Prints `method`, `header`, `body` or `heartbeat`.
impl fmt::Display for FrameKind {
    ghost output = { λ kind. Some (kind_name kind) };

    fn fmt<W: fmt::Write>(&self, f: &mut fmt::Formatter<W>) -> fmt::Result {
        match self {
            FrameKind::Method => write!(f, "method"),
            FrameKind::Header => write!(f, "header"),
            FrameKind::Body => write!(f, "body"),
            FrameKind::Heartbeat => write!(f, "heartbeat"),
        }
    }
}

/// A frame that owns its payload.
#[derive(PartialEq, Eq, Debug, Drop)]
pub struct RawFrame {
    pub kind: FrameKind,
    pub channel: u16,
    pub payload: Vec<u8>,
}

/// A frame whose payload is lent.
#[derive(Clone, Copy, PartialEq, Eq, Debug)]
pub struct FrameRef<'a> {
    pub kind: FrameKind,
    pub channel: u16,
    pub payload: &'a [u8],
}

impl<'a> FrameRef<'a> {
    /// The same frame on another channel.
    pub fn on_channel(self, channel: u16) -> FrameRef<'a>
        ensures { lent result ≡ record (lent self.entry) { channel = channel } }
    {
        FrameRef { channel, ..self }
    }

    /// The same frame with a payload of its own.
    pub fn to_raw(&self, alloc: Global) -> Result<RawFrame, OutOfMemory>
        ensures { IfOk result (λ f. owned f ≡ lent self.now) }
    {
        let payload = Vec::from_slice(alloc, self.payload)?;
        Ok(RawFrame {
            kind: self.kind,
            channel: self.channel,
            payload,
        })
    }
}

impl RawFrame {
    /// The same frame, with its payload lent.
    pub fn lend(&self) -> FrameRef<'_>
        ensures { lent result ≡ owned self.now }
    {
        FrameRef {
            kind: self.kind,
            channel: self.channel,
            payload: self.payload.as_slice(),
        }
    }
}

/// The octets before a payload.
fn header_octets(kind: FrameKind, channel: u16, size: u32) -> [u8; HEADER_LENGTH]
    ensures { result ≡ header kind channel size }
{
    let mut header = [kind.octet(); HEADER_LENGTH];
    BigEndian::write_u16(&mut header[1..], channel);
    BigEndian::write_u32(&mut header[3..], size);
    header
}

/// Appends the frame's octets to `out`: the type, the channel, the payload's size, the payload and `CE`.
pub fn write_frame(frame: &RawFrame, out: &mut Vec<u8>) -> Result<(), OutOfMemory>
    requires { vec_len frame.now.payload < 2 ^ 32 }
    ensures ok { OnOk result (out.new.items ≡ out.old.items ++ octets (owned frame.now)) }
    ensures err { OnErr result (out.new.items ≡ out.old.items) }
{
    write_frame_ref(frame.lend(), out)
}

/// Appends the octets of a frame whose payload is lent, as [`write_frame`] does.
#[tactic(auto, using(crate::proofs::FrameLemmas::written), unfolding(crate::specs::Frame::octets))]
pub fn write_frame_ref(frame: FrameRef, out: &mut Vec<u8>) -> Result<(), OutOfMemory>
    requires { length frame.payload.now < 2 ^ 32 }
    ensures ok { OnOk result (out.new.items ≡ out.old.items ++ octets (lent frame.entry)) }
    ensures err { OnErr result (out.new.items ≡ out.old.items) }
{
    let header = header_octets(frame.kind, frame.channel, frame.payload.len() as u32);
    out.reserve(frame.payload.len() + OVERHEAD)?;
    out.extend_from_slice(&header)?;
    out.extend_from_slice(frame.payload)?;
    out.push(END)?;
    Ok(())
}

/// Begins a frame whose payload is to be written straight into `out`: appends the type, the channel and four octets
/// for the payload's size, which [`finish_frame`] fills in. The answer is where the frame starts.
pub fn begin_frame(kind: FrameKind, channel: u16, out: &mut Vec<u8>) -> Result<usize, OutOfMemory>
    ensures start { IfOk result (λ start. start ≡ length out.old.items) }
    ensures ok { OnOk result (out.new.items ≡ out.old.items ++ header kind channel 0) }
    ensures err { OnErr result (out.new.items ≡ out.old.items) }
{
    let start = out.len();
    out.extend_from_slice(&header_octets(kind, channel, 0))?;
    Ok(start)
}

/// Finishes the frame that [`begin_frame`] began at `start`: what stands after its header is its payload. Fills in the
/// payload's size and appends `CE`. On an error the output is as it was.
pub fn finish_frame(start: usize, out: &mut Vec<u8>) -> Result<(), OutOfMemory>
    requires { HasPayloadRoom start out.old.items }
    ensures ok { OnOk result (FinishesFrame start out.old.items out.new.items) }
    ensures err { OnErr result (out.new.items ≡ out.old.items) }
{
    let size = out.len() - start - HEADER_LENGTH;
    out.push(END)?;
    fill_size(start + SIZE_PLACE, size as u32, out);
    Ok(())
}

/// Writes a size into the four octets at `hole`.
fn fill_size(hole: usize, size: u32, out: &mut Vec<u8>)
    requires { hole + 4 ≤ length out.old.items }
    ensures { out.new.items ≡ take hole out.old.items ++ (big_bytes 4 size ++ drop (hole + 4) out.old.items) }
{
    let mut octets = [0; 4];
    BigEndian::write_u32(&mut octets, size);
    let place = &mut out.as_mut_slice()[hole..hole + 4];
    place.copy_from_slice(&octets);
}
