//! Contents in parts: gathered as they come, and sent once they are whole or as they come.
ghost use Rattle.std.specs.Prelude.{◌≡◌, ◌≢◌, None, true, IfOk, OnErr, OnOk};
ghost use Rattle.amqp_core.specs.Faults.Numbers.{refusal_view};
ghost use Rattle.amqp_method.specs.HeaderRefView.{lent_header};
ghost use Rattle.amqp_method.specs.MethodRefView.{lent_call};
ghost use Rattle.amqp_core.specs.Stream.Asks.{StreamAsked};
ghost use Rattle.example_loop.specs.Gathering.{begun, content_there, gathered, left, sent_on, whole_of, with_part, with_properties};

use crate::link::Link;
use amqp_core::{AskFault, Chunks, Role, StreamEnd};
use amqp_method::{Carrier, Header, HeaderRef, Method, MethodRef};
use std::alloc::{AllocError, Global};

/// A content that is whole. Each part of its body is let go as it is sent, so that no body is in memory twice.
pub struct Content {
    method: Carrier,
    /// In a box, since it is large.
    header: Box<Header>,
    body: Chunks,
}

/// Written out, so that it is proved once.
impl Drop for Content {
    fn drop(self) {
        let Content {
            method: _,
            header: _,
            body: _,
        } = self;
    }
}

impl Content {
    /// About how many octets it takes.
    pub fn octets(&self) -> usize {
        let properties = spread(self.header.properties.header_length());
        let rest = octets_of(self.method.method()).saturating_add(properties);
        rest.saturating_add(self.body.len())
    }

    /// Sends it on a channel. A content that is refused stays as it was.
    pub fn send<R: Role>(&mut self, end: &mut StreamEnd<R>, channel: u16) -> Result<(), AskFault>
        ensures asked { StreamAsked end.old (sent_on channel self.old) result end.new }
        ensures kept { OnErr result (sent_on channel self.new ≡ sent_on channel self.old) }
    {
        let (method, properties) = (self.method.method(), &self.header.properties);
        end.send_chunks(channel, method, properties, &mut self.body)
    }

    /// Begins to send it, if it has a body and may begin now, and answers whether it did.
    fn begin_on<R: Role>(&self, link: &mut Link<R>, channel: u16, source: u16) -> bool {
        let header: &Header = &self.header;
        let (method, properties) = (self.method.method(), &header.properties);
        let size = header.body_size;
        size > 0
            && link
                .begin(channel, source, method, properties, size)
                .is_ok()
    }

    /// What has come of its body, in one piece.
    fn joined(&mut self, alloc: Global) -> Result<Vec<u8>, AllocError> {
        let mut body = Vec::new(alloc);
        self.body.append_to(&mut body)?;
        Ok(body)
    }
}

/// The content that is coming on a channel, if one is.
pub struct Coming {
    content: Option<Content>,
}

/// Written out, so that it is proved once.
impl Drop for Coming {
    fn drop(self) {
        let Coming { content: _ } = self;
    }
}

impl Coming {
    /// None is coming.
    pub fn new() -> Coming
        ensures { gathered result ≡ None }
    {
        Coming { content: None }
    }

    /// About how many octets it takes so far.
    pub fn octets(&self) -> usize {
        match &self.content {
            Some(content) => content.octets(),
            None => 0,
        }
    }

    /// A method begins a content.
    pub fn begin(&mut self, alloc: Global, method: MethodRef<'_>) -> anyhow::Result<()>
        ensures { OnOk result (gathered self.new ≡ begun (lent_call method.entry)) }
    {
        if !method.has_content() {
            return Err(AskFault::NotSendable.into());
        }
        self.content = Some(Content {
            method: Carrier::new(method.to_owned(alloc)?),
            header: Box::new(alloc, Header::default())?,
            body: Chunks::new(alloc),
        });
        Ok(())
    }

    /// The header of the content is there. It answers the content if that is whole.
    pub fn head(
        &mut self,
        alloc: Global,
        header: HeaderRef<'_>,
        whole: bool,
    ) -> anyhow::Result<Option<Content>>
        ensures whole { IfOk result (λ content. content_there content
            ≡ whole_of whole (with_properties (lent_header header.entry).properties (gathered self.old))) }
        ensures left { OnOk result (gathered self.new
            ≡ left whole (with_properties (lent_header header.entry).properties (gathered self.old))) }
    {
        self.read_header(alloc, header)?;
        Ok(self.finish(whole))
    }

    /// One more part of its body is there, likewise.
    pub fn add(
        &mut self,
        alloc: Global,
        octets: &[u8],
        whole: bool,
    ) -> anyhow::Result<Option<Content>>
        ensures whole { IfOk result (λ content. content_there content
            ≡ whole_of whole (with_part octets.now (gathered self.old))) }
        ensures left { OnOk result (gathered self.new ≡ left whole (with_part octets.now (gathered self.old))) }
    {
        self.push(Vec::from_slice(alloc, octets)?)?;
        Ok(self.finish(whole))
    }

    /// Begins to send a content that isn't whole, on a channel, from one of this number at the other side. It goes on as
    /// its body comes, and is no longer kept here. One that can't begin yet is kept.
    pub fn pass_on<R: Role>(
        &mut self,
        alloc: Global,
        link: &mut Link<R>,
        channel: u16,
        source: u16,
    ) -> anyhow::Result<()> {
        if let Some(content) = &mut self.content
            && content.begin_on(link, channel, source)
        {
            let body = content.joined(alloc)?;
            link.ahead.pass(&body)?;
            self.content = None;
        }
        Ok(())
    }

    fn read_header(&mut self, alloc: Global, header: HeaderRef<'_>) -> anyhow::Result<()>
        ensures { OnOk result (gathered self.new ≡ with_properties (lent_header header.entry).properties
            (gathered self.old)) }
    {
        if let Some(content) = &mut self.content {
            header.read_into(alloc, &mut content.header)?;
        }
        Ok(())
    }

    fn push(&mut self, part: Vec<u8>) -> Result<(), AllocError>
        ensures { OnOk result (gathered self.new ≡ with_part part.items (gathered self.old)) }
    {
        if let Some(content) = &mut self.content {
            content.body.push(part)?;
        }
        Ok(())
    }

    fn finish(&mut self, whole: bool) -> Option<Content>
        ensures whole { content_there result ≡ whole_of whole (gathered self.old) }
        ensures left { gathered self.new ≡ left whole (gathered self.old) }
    {
        if !whole {
            return None;
        }
        self.content.take()
    }
}

/// Whether an ask that is refused so only has to wait.
pub fn may_go_later(fault: AskFault) -> bool
    ensures { result ≡ true → refusal_view fault ≢ None }
{
    match fault {
        AskFault::ReplyPending | AskFault::Paused | AskFault::FlowPending => true,
        AskFault::NotOpen | AskFault::NotRunning => true,
        _ => false,
    }
}

/// About how many octets a method takes.
pub fn octets_of(method: &Method) -> usize {
    spread(method.payload_length()).saturating_add(256)
}

/// A table takes about sixteen times the memory that it takes in a frame.
fn spread(octets: u64) -> usize {
    usize::try_from(octets.saturating_mul(16)).unwrap_or(usize::MAX)
}
