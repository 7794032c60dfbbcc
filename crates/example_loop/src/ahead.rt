//! Contents that go out as their bodies come.
use crate::link::FULL;
use amqp_core::{BodyFault, BodyWriter};
use std::alloc::{AllocError, Global};

/// What stands around the payload of a frame.
const AROUND: u32 = 8;

/// A frame without a payload, on channel 0.
const HEARTBEAT: [u8; 8] = [8, 0, 0, 0, 0, 0, 0, 0xce];

/// A content whose body is still to come, in part.
#[derive(Drop)]
struct UnderWay {
    writer: BodyWriter,
    /// The channel of the other side from which it comes.
    source: u16,
    /// How many octets of the body each frame has, but for the last.
    room: usize,
    /// What has come of the next frame, which is written once all has.
    begun: Vec<u8>,
}

impl UnderWay {
    /// Appends the frames that are whole with the next octets of the body.
    fn pass(&mut self, part: &[u8], octets: &mut Vec<u8>) -> Result<(), BodyFault> {
        let before = self.begun.len();
        let whole = self.in_frames(before.saturating_add(part.len()));
        let (now, later) = part.split_at(part.len().min(whole.saturating_sub(before)));
        if whole > 0 {
            self.writer.write(&self.begun, octets)?;
            self.begun.clear();
            self.writer.write(now, octets)?;
        }
        match self.begun.extend_from_slice(later) {
            Ok(()) => Ok(()),
            Err(_) => Err(BodyFault::OutOfMemory),
        }
    }

    /// How many of so many octets stand in frames that are whole.
    fn in_frames(&self, count: usize) -> usize {
        if count as u64 >= self.writer.left() {
            return count;
        }
        count - count.checked_rem(self.room).unwrap_or(0)
    }
}

/// The frames of contents that began before their bodies were there, one content after another.
#[derive(Drop)]
pub struct Ahead {
    under_way: Option<UnderWay>,
    pub(crate) octets: Vec<u8>,
    /// So many of them are written.
    gone: usize,
}

impl Ahead {
    pub(crate) fn new(alloc: Global) -> Ahead {
        Ahead {
            under_way: None,
            octets: Vec::new(alloc),
            gone: 0,
        }
    }

    /// Whether a content is under way, so that none may begin.
    pub(crate) fn is_busy(&self) -> bool {
        self.under_way.is_some()
    }

    /// The channel of the other side from which the content comes that is under way.
    pub(crate) fn source(&self) -> Option<u16> {
        match &self.under_way {
            Some(content) => Some(content.source),
            None => None,
        }
    }

    /// What waits for the socket.
    pub fn left(&self) -> &[u8] {
        self.octets.get(self.gone..).unwrap_or_default()
    }

    /// A content began, whose frames are as long as they may be.
    pub(crate) fn begin(&mut self, writer: BodyWriter, source: u16, frame_max: u32) {
        self.under_way = Some(UnderWay {
            writer,
            source,
            room: frame_max.saturating_sub(AROUND) as usize,
            begun: Vec::new(*self.octets.allocator()),
        });
        self.finish();
    }

    /// The next octets of its body.
    pub fn pass(&mut self, part: &[u8]) -> Result<(), BodyFault> {
        if let Some(content) = &mut self.under_way {
            content.pass(part, &mut self.octets)?;
        }
        self.finish();
        Ok(())
    }

    fn finish(&mut self) {
        if let Some(content) = &self.under_way
            && content.writer.left() == 0
        {
            self.under_way = None;
        }
    }

    /// A heartbeat goes out after the frames that wait.
    pub(crate) fn beat(&mut self) -> Result<(), AllocError> {
        self.octets.extend_from_slice(&HEARTBEAT)
    }

    /// Lets go what was written. No octet is moved more than once on the whole.
    pub(crate) fn let_go(&mut self, count: usize) {
        self.gone = self.octets.len().min(self.gone.saturating_add(count));
        let left = self.left().len();
        if left == 0 || (self.gone > FULL && self.gone >= left) {
            self.octets.copy_within(self.gone.., 0);
            self.octets.truncate(left);
            self.gone = 0;
        }
        if left == 0 && self.under_way.is_none() {
            self.octets.shrink_to(0);
        }
    }
}
