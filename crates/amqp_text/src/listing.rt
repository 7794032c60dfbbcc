//! Octets as a list of frames, and a frame as a line of text.
ghost use Rattle.std.specs.Prelude.{◌≡◌, IfOk};
ghost use Rattle.std.specs.String.{string_bytes};
ghost use Rattle.amqp_frame.specs.Frame.{owned};
ghost use Rattle.amqp_text.specs.Listing.{IsListing, line_of, hexadecimal};

use amqp_frame::{Fed, FrameFault, OutOfMemory, RawFrame, Splitter};
use std::alloc::Global;

/// How many octets a frame may have.
pub const LIMIT: u32 = 1_048_576;

/// How octets end after their frames.
#[derive(Clone, Copy)]
pub enum Ending {
    /// With the last frame.
    Whole,
    /// With so many octets of a frame begun.
    Rest(usize),
    /// With octets that begin no frame.
    Fault(FrameFault),
}

/// The frames of octets, and what follows them.
#[derive(Drop)]
pub struct Listing {
    pub frames: Vec<RawFrame>,
    pub end: Ending,
}

/// Splits the octets into frames of at most [`LIMIT`] octets.
pub fn list(alloc: Global, octets: &[u8]) -> Result<Listing, OutOfMemory>
    ensures { IfOk result (IsListing octets.now) }
{
    let mut splitter = Splitter::new(alloc, LIMIT);
    let mut frames = Vec::new(alloc);
    let mut rest = octets;
    while !rest.is_empty() {
        let Fed { taken, frame } = match splitter.feed(rest) {
            Ok(fed) => fed,
            Err(fault) => {
                let end = Ending::Fault(fault);
                return Ok(Listing { frames, end });
            }
        };
        let Some(frame) = frame else {
            let end = Ending::Rest(splitter.pending());
            return Ok(Listing { frames, end });
        };
        frames.push(frame)?;
        rest = &rest[taken..];
    }
    Ok(Listing {
        frames,
        end: Ending::Whole,
    })
}

/// The line `CHANNEL KIND SIZE PAYLOAD` of a frame, with the payload in hexadecimal and `-` for an empty one.
pub fn frame_line(alloc: Global, frame: &RawFrame) -> Result<String, OutOfMemory>
    ensures { IfOk result (λ line. string_bytes line ≡ line_of (owned frame.now)) }
{
    let payload = payload_text(alloc, &frame.payload)?;
    let channel = frame.channel;
    let kind = frame.kind;
    let size = frame.payload.len();
    let line = format!(in alloc; "{channel} {kind} {size} {payload}")?;
    Ok(line)
}

/// Octets in lower-case hexadecimal, `-` for none.
pub fn payload_text(alloc: Global, octets: &[u8]) -> Result<String, OutOfMemory>
    ensures { IfOk result (λ text. string_bytes text ≡ hexadecimal octets.now) }
{
    if octets.is_empty() {
        return Ok(String::from_str(alloc, "-")?);
    }
    Ok(hex::encode(alloc, octets)?)
}
