//! A content whose body is lent: its frames, for writes that take several slices.
//!
//! An [`Outbox`](crate::Outbox) has a copy of each body that it is handed. Where nothing waits, a content may go to the
//! stream from where its body lies instead: what stands between the parts of the body is encoded, and the octets of all
//! frames are lent slice by slice, of the one and of the other in turn.
ghost use Rattle.std.specs.Prelude.{◌≡◌, ◌==◌, ◌+◌, ◌-◌, ◌^◌, ◌<◌, ◌≤◌, [], ◌++◌, length, min, drop, IfOk, IfErr, OnOk, MatchOption};
ghost use Rattle.amqp_method.specs.HeaderView.{properties_view};
ghost use Rattle.amqp_method.specs.MethodView.{method_view};
ghost use Rattle.amqp_method.specs.Properties.{header};
ghost use Rattle.amqp_model.specs.End.Closes.{method_frame};
ghost use Rattle.amqp_model.specs.Wire.Contents.{pieces};
ghost use Rattle.amqp_model.specs.Wire.Methods.{ReadsBack};
ghost use Rattle.amqp_outbox.specs.LentContent.{around, content_octets};
ghost use Rattle.amqp_outbox.specs.OutboxFaults.{out_of_memory};
ghost use Rattle.amqp_outbox.specs.OutboxFrames.{HeaderReadsBack};

use crate::parts::{END, start_of};
use crate::staging::{StageFault, append_header, append_method};
use amqp_frame::{HEADER_LENGTH, OVERHEAD};
use amqp_method::{Method, Properties};

/// The octets of the frames of a content, lent in the order in which they are to leave.
#[derive(Clone, Copy)]
pub struct ContentFrames<'a> {
    /// what is left of a piece of which some octets were written
    begun: &'a [u8],
    /// the part that stands next, where what is before it was lent
    part: &'a [u8],
    /// what stands before the parts that are left, between them, and after the last
    between: &'a [u8],
    /// how many octets of it stand before the next of these
    before: usize,
    /// what is left of the body
    body: &'a [u8],
    /// how long a part is at most
    room: usize,
    pub ghost some: { 0 < before },
    pub ghost cuts: { 0 < room },
}

/// Appends what stands around the parts of a body, each as long as there is room, the last with what is left.
fn append_around(
    octets: &mut Vec<u8>,
    channel: u16,
    room: u32,
    body: &[u8],
) -> Result<(), StageFault>
    requires { 0 < room }
    ensures ok { OnOk result (octets.new.items ≡ octets.old.items ++ around channel (pieces room body.now)) }
    ensures err { IfErr result (λ e. e ≡ out_of_memory) }
{
    let mut rest = body;
    while !rest.is_empty() {
        let size = rest.len().min(room as usize);
        octets.extend_from_slice(&start_of(channel, size as u32))?;
        octets.push(END)?;
        let (_, later) = rest.split_at(size);
        rest = later;
    }
    Ok(())
}

impl<'a> ContentFrames<'a> {
    ghost use Rattle.amqp_outbox.specs.LentFrames.{content_left};

    /// The frames of a method and of its content: the body in parts, each as long as there is room, the last with what
    /// is left. What stands between the parts goes to `octets`, in the place of what is there.
    pub fn new(
        channel: u16,
        method: &Method,
        properties: &Properties,
        body: &'a [u8],
        room: u32,
        octets: &'a mut Vec<u8>,
    ) -> Result<ContentFrames<'a>, StageFault>
        requires { 0 < room }
        ensures ok { IfOk result (λ frames. content_left frames
            ≡ content_octets (method_frame channel (method_view method.now)) channel
            (header (length body.now) (properties_view properties.now)) room body.now) }
        ensures method { OnOk result (ReadsBack (method_view method.now)) }
        ensures header { OnOk result (HeaderReadsBack (header (length body.now) (properties_view properties.now))) }
    {
        octets.clear();
        append_method(octets, channel, method)?;
        append_header(octets, channel, body.len() as u64, properties)?;
        let ahead = octets.len();
        append_around(octets, channel, room, body)?;
        Ok(ContentFrames {
            begun: &[],
            part: &[],
            between: &*octets,
            before: ahead + HEADER_LENGTH,
            body,
            room: room as usize,
        })
    }

    /// Whether none is left.
    pub fn is_empty(&self) -> bool
        ensures { result ≡ (length (content_left self.now) == 0) }
    {
        let mut left = *self;
        left.next_piece().is_none()
    }

    /// A count with so many octets more as are left: 2^64 - 1 where it would pass that.
    pub fn add_to(&self, count: u64) -> u64
        ensures { result ≡ min (count + length (content_left self.now)) (2 ^ 64 - 1) }
    {
        let ahead = count
            .saturating_add(self.begun.len() as u64)
            .saturating_add(self.part.len() as u64);
        ahead
            .saturating_add(self.between.len() as u64)
            .saturating_add(self.body.len() as u64)
    }

    /// Lends the next piece: octets that lie together. A piece is never empty.
    pub fn next_piece(&mut self) -> Option<&'a [u8]>
        ensures lent { MatchOption result ((content_left self.old ≡ []) × (content_left self.new ≡ []))
            (λ piece. (content_left self.old ≡ piece.now ++ content_left self.new) × (0 < length piece.now)) }
        ensures begun { self.new.begun.now ≡ [] }
    {
        if !self.begun.is_empty() {
            let begun = self.begun;
            self.begun = &[];
            return Some(begun);
        }
        if self.part.is_empty() {
            if self.between.is_empty() && self.body.is_empty() {
                return None;
            }
            let before = self.pass_between();
            if !before.is_empty() {
                return Some(before);
            }
        }
        let part = self.part;
        self.part = &[];
        Some(part)
    }

    /// So many of the octets were written.
    pub fn wrote(&mut self, octets: usize)
        requires { octets ≤ length (content_left self.old) }
        ensures { content_left self.new ≡ drop octets (content_left self.old) }
    {
        let mut left = octets;
        while left > 0 {
            let Some(piece) = self.next_piece() else {
                return;
            };
            if left < piece.len() {
                self.begun = &piece[left..];
                return;
            }
            left -= piece.len();
        }
    }

    /// Lends what stands before the next part, which is next then.
    fn pass_between(&mut self) -> &'a [u8]
        requires begun { self.old.begun.now ≡ [] }
        requires part { self.old.part.now ≡ [] }
        ensures lent { content_left self.old ≡ result.now ++ content_left self.new }
        ensures begun { self.new.begun.now ≡ [] }
        ensures some { result.now ≡ [] → self.old.between.now ≡ [] }
        ensures part { 0 < length self.old.body.now → 0 < length self.new.part.now }
    {
        let (before, later) = self.between.split_at(self.before.min(self.between.len()));
        let (part, rest) = self.body.split_at(self.room.min(self.body.len()));
        self.between = later;
        // between two parts stand the octet that ends a frame, and the header of the next
        self.before = OVERHEAD;
        self.part = part;
        self.body = rest;
        before
    }
}
