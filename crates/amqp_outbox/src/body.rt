//! A content that begins before its body is there: the frames of the body are written as its octets come.
//!
//! The header of a content says how long its body is, so the frames of the body are known by their lengths before any
//! of its octets is. A [`BodyWriter`] appends the start of each frame where the octets of its part begin, and the octet
//! that ends it after the last of them.
ghost use Rattle.std.specs.Prelude.{◌≡◌, ◌+◌, ◌-◌, ◌^◌, ◌/◌, ◌<◌, ◌≤◌, ℕ, List, [], ◌++◌, length, min, take, Err, IfErr, IfOk, OnErr, OnOk};
ghost use Rattle.amqp_method.specs.HeaderView.{properties_view};
ghost use Rattle.amqp_method.specs.MethodView.{method_view};
ghost use Rattle.amqp_method.specs.Properties.{header};
ghost use Rattle.amqp_model.specs.End.Closes.{method_frame};
ghost use Rattle.amqp_model.specs.Wire.Methods.{ReadsBack};
ghost use Rattle.amqp_outbox.specs.LentContent.{content_octets};
ghost use Rattle.amqp_outbox.specs.OutboxFaults.{longer_than_body};
ghost use Rattle.amqp_outbox.specs.OutboxFrames.{HeaderReadsBack};

use crate::parts::{END, start_of};
use crate::staging::{StageFault, append_header, append_method};
use amqp_frame::OVERHEAD;
use amqp_method::{Method, Properties};
use std::alloc::AllocError;
use thiserror::Error;

/// Why octets of a body aren't written.
#[derive(Clone, Copy, PartialEq, Eq, Debug, Error)]
pub enum BodyFault {
    #[error("out of memory")]
    OutOfMemory,
    /// the body has fewer octets left than these
    #[error("longer than what is left of the body")]
    TooLong,
}

/// Writes the frames of a body whose octets are still to come.
#[derive(Drop)]
pub struct BodyWriter {
    channel: u16,
    /// how long a part is at most
    room: u32,
    /// how many octets of the body are to come
    left: u64,
    /// how many of these belong to the frame that was begun
    begun: u64,
    pub ghost cuts: { 0 < room },
    pub ghost within: { begun ≤ left },
}

impl BodyWriter {
    ghost use Rattle.amqp_outbox.specs.BodyToCome.{octets_left, still_to_write, Goes};

    /// Appends the frames of a method and of the header of its content, whose body has so many octets, and is written
    /// in parts, each as long as there is room, the last with what is left. Refused, nothing is appended.
    pub fn begin(
        channel: u16,
        method: &Method,
        properties: &Properties,
        size: u64,
        room: u32,
        octets: &mut Vec<u8>,
    ) -> Result<BodyWriter, StageFault>
        requires { 0 < room }
        ensures ok { IfOk result (λ writer. (body : List ℕ) → length body ≡ size
            → octets.new.items ++ still_to_write writer body ≡ octets.old.items
            ++ content_octets (method_frame channel (method_view method.now)) channel
            (header size (properties_view properties.now)) room body) }
        ensures left { IfOk result (λ writer. octets_left writer ≡ size) }
        ensures method { OnOk result (ReadsBack (method_view method.now)) }
        ensures header { OnOk result (HeaderReadsBack (header size (properties_view properties.now))) }
        ensures same { OnErr result (octets.new.items ≡ octets.old.items) }
        ensures stays { take (length octets.old.items) octets.new.items ≡ octets.old.items }
    {
        let before = octets.len();
        append_method(octets, channel, method)?;
        if let Err(fault) = append_header(octets, channel, size, properties) {
            octets.truncate(before);
            return Err(fault);
        }
        Ok(BodyWriter {
            channel,
            room,
            left: size,
            begun: 0,
        })
    }

    /// How many octets of the body are still to come. Once it is 0, all frames are written.
    pub fn left(&self) -> u64
        ensures left { result ≡ octets_left self.now }
        ensures all { result ≡ 0 → still_to_write self.now [] ≡ [] }
    {
        self.left
    }

    /// A count with so many octets more as are still to be written, those around the parts with them: 2^64 - 1 where it
    /// would pass that.
    pub fn add_to(&self, count: u64) -> u64
        ensures { (body : List ℕ) → length body ≡ octets_left self.now
            → result ≡ min (count + length (still_to_write self.now body)) (2 ^ 64 - 1) }
    {
        let later = self.left - self.begun;
        let frames = frames_of(later, self.room);
        let around = frames.saturating_mul(OVERHEAD as u64);
        let ends = self.begun.min(1);
        count
            .saturating_add(self.left)
            .saturating_add(around)
            .saturating_add(ends)
    }

    /// Appends the next octets of the body, and what stands before, between and after them. Refused, nothing is
    /// appended: they are more than are left ([`BodyFault::TooLong`]), or there is no memory.
    pub fn write(&mut self, part: &[u8], octets: &mut Vec<u8>) -> Result<(), BodyFault>
        ensures written { OnOk result (Goes self.old octets.old.items part.now self.new octets.new.items) }
        ensures too_long { result ≡ Err longer_than_body → octets_left self.old < length part.now }
        ensures same { OnErr result ((self.new ≡ self.old) × (octets.new.items ≡ octets.old.items)) }
    {
        if part.len() as u64 > self.left {
            return Err(BodyFault::TooLong);
        }
        let before = octets.len();
        let mut next = BodyWriter {
            channel: self.channel,
            room: self.room,
            left: self.left,
            begun: self.begun,
        };
        let Ok(()) = next.append(part, octets) else {
            octets.truncate(before);
            return Err(BodyFault::OutOfMemory);
        };
        *self = next;
        Ok(())
    }

    /// Appends octets of the body frame by frame. Where there is no memory, some may be appended.
    fn append(&mut self, part: &[u8], octets: &mut Vec<u8>) -> Result<(), AllocError>
        requires { length part.now ≤ octets_left self.old }
        ensures written { OnOk result (Goes self.old octets.old.items part.now self.new octets.new.items) }
        ensures stays { take (length octets.old.items) octets.new.items ≡ octets.old.items }
        ensures channel { self.new.channel ≡ self.old.channel }
        ensures room { self.new.room ≡ self.old.room }
    {
        let mut rest = part;
        while !rest.is_empty() {
            self.open_frame(octets)?;
            let (now, later) = rest.split_at(rest.len().min(self.begun as usize));
            self.fill_frame(now, octets)?;
            rest = later;
        }
        Ok(())
    }

    /// Appends the start of the next frame, unless one is begun.
    fn open_frame(&mut self, octets: &mut Vec<u8>) -> Result<(), AllocError>
        requires { 0 < octets_left self.old }
        ensures written { OnOk result (Goes self.old octets.old.items [] self.new octets.new.items) }
        ensures begun { OnOk result (0 < self.new.begun) }
        ensures stays { take (length octets.old.items) octets.new.items ≡ octets.old.items }
        ensures channel { self.new.channel ≡ self.old.channel }
        ensures room { self.new.room ≡ self.old.room }
    {
        if self.begun == 0 {
            let size = self.left.min(u64::from(self.room));
            octets.extend_from_slice(&start_of(self.channel, size as u32))?;
            self.begun = size;
        }
        Ok(())
    }

    /// Appends octets of the frame that was begun, and the octet that ends it if they are its last.
    fn fill_frame(&mut self, part: &[u8], octets: &mut Vec<u8>) -> Result<(), AllocError>
        requires some { 0 < length part.now }
        requires within { length part.now ≤ self.old.begun }
        ensures written { OnOk result (Goes self.old octets.old.items part.now self.new octets.new.items) }
        ensures stays { take (length octets.old.items) octets.new.items ≡ octets.old.items }
        ensures channel { self.new.channel ≡ self.old.channel }
        ensures room { self.new.room ≡ self.old.room }
    {
        octets.extend_from_slice(part)?;
        self.left -= part.len() as u64;
        self.begun -= part.len() as u64;
        if self.begun == 0 {
            octets.push(END)?;
        }
        Ok(())
    }
}

/// As many frames as so many octets of a body fill, the last perhaps in part.
fn frames_of(octets: u64, room: u32) -> u64
    requires { 0 < room }
    ensures { result ≡ (octets + room - 1) / room }
{
    if octets == 0 {
        return 0;
    }
    (octets - 1) / u64::from(room) + 1
}
