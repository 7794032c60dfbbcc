//! Contents that a link sends as their bodies come.
use crate::link::Link;
use amqp_core::{LendFault, Phase, Role};
use amqp_method::{Method, Properties};

/// A link may send one content at a time before its body is there. What its end puts meanwhile waits, but for a close
/// of the connection, which makes an end of the content.
impl<R: Role> Link<R> {
    /// The channel of the other side from which a content comes that is under way, unless the peer is gone.
    pub fn source(&self) -> Option<u16> {
        if self.is_gone || self.end.phase() != Phase::Running {
            return None;
        }
        self.ahead.source()
    }

    /// Begins a content from a channel of the other side, whose body has so many octets.
    pub fn begin(
        &mut self,
        channel: u16,
        source: u16,
        method: &Method,
        properties: &Properties,
        size: u64,
    ) -> Result<(), LendFault> {
        if self.ahead.is_busy() {
            return Err(LendFault::Waits);
        }
        let frame_max = match self.end.agreed() {
            Some(agreed) => agreed.frame_max,
            None => 0,
        };
        let octets = &mut self.ahead.octets;
        let writer = (self.end).begin_content(channel, method, properties, size, octets)?;
        self.ahead.begin(writer, source, frame_max);
        Ok(())
    }

    pub(crate) fn has_output(&self) -> bool {
        let has_next = self.source().is_none() && !self.end.output().is_empty();
        has_next || !self.ahead.left().is_empty()
    }

    /// How many octets wait to be written.
    pub fn waiting(&self) -> usize {
        let ahead = self.ahead.left().len();
        self.end.waiting_in_all().saturating_add(ahead)
    }

    /// Puts a heartbeat: amid a content after the frames that wait, and else where the connection is open. Without
    /// memory for it the next tick tries again.
    pub(crate) fn beat(&mut self) {
        if self.source().is_some() {
            drop(self.ahead.beat());
        } else {
            drop(self.end.beat());
        }
    }
}
