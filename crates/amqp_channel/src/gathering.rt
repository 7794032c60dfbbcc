//! The content under way on a channel.
ghost use Rattle.std.specs.Prelude.{◌≡◌, ◌<◌, ◌+◌, ◌++◌, Some, IfOk, OnOk, OnErr};
ghost use Rattle.amqp_method.specs.BegunView.{begun_view};
ghost use Rattle.amqp_method.specs.HeaderRefView.{lent_header};
ghost use Rattle.amqp_method.specs.HeaderView.{headers_alone};
ghost use Rattle.amqp_model.specs.End.FrameVerdict.{is_gathering};
ghost use Rattle.amqp_model.specs.Wire.Gathering.{Nothing, HeaderDue};
ghost use Rattle.amqp_model.specs.Wire.Readings.{BodyOf};
ghost use Rattle.amqp_channel.specs.Contents.ContentView.{content_view};
ghost use Rattle.amqp_channel.specs.Contents.GatheringView.{filling_of, gathering_view, header_kept, IsBodyDue, IsKeptIn, IsRead};
ghost use Rattle.amqp_channel.specs.ReadingView.{header_said, length_said};
ghost use Rattle.amqp_channel.specs.declared.gathering.Filling.TheVariants.{Short};
ghost use Rattle.amqp_channel.specs.Verdict.VerdictView.{continued_with, headed_with, whole_at, whole_with, IsHeaderDue, IsWhole};

use crate::deferred::{Deferred, length_if_read};
use amqp_method::{Begun, Content, HeaderRef, OutOfMemory};
use amqp_value::Table;
use std::alloc::Global;
use std::mem;
use std::mem::forget;

/// What is kept of a content that isn't whole.
#[derive(Drop)]
pub enum Gathering {
    Nothing,
    /// The method was taken, and the header is due.
    HeaderDue(Begun),
    /// The header was taken too, which has so many octets, and some of the body. The number stands first, where the tag
    /// leaves room for it.
    BodyDue { header: u32, content: Box<Content> },
    /// The same, where the header is kept as its octets.
    Deferred(Box<Deferred>),
}

/// How octets fill a body.
pub(crate) enum Filling {
    Short,
    Full,
    Past,
}

/// How so many octets and so many more fill a body of a size.
#[inline(always)]
pub(crate) fn fill(size: u64, came: u64, more: usize) -> Filling
    ensures filling { result ≡ filling_of size (came + more) }
    ensures short { result ≡ Short → came + more < size }
{
    let more = more as u64;
    if size < came || size - came < more {
        Filling::Past
    } else if size - came == more {
        Filling::Full
    } else {
        Filling::Short
    }
}

impl Gathering {
    /// How many octets the header has of the content under way; 0 before it has come.
    pub(crate) fn header_octets(&self) -> usize
        ensures { result ≡ header_kept self.now }
    {
        match self {
            Gathering::Nothing => 0,
            Gathering::HeaderDue(_) => 0,
            Gathering::BodyDue { header, .. } => *header as usize,
            Gathering::Deferred(deferred) => deferred.header_octets(),
        }
    }

    /// Whether a content is under way.
    pub(crate) fn is_under_way(&self) -> bool
        ensures { result ≡ is_gathering (gathering_view self.now) }
    {
        match self {
            Gathering::Nothing => false,
            Gathering::HeaderDue(_) | Gathering::BodyDue { .. } | Gathering::Deferred(_) => true,
        }
    }

    /// The content whose body is all there. Nothing is kept any more.
    #[inline(always)]
    pub(crate) fn take_whole(&mut self) -> Box<Content>
        requires { IsBodyDue self.old }
        ensures whole { IsKeptIn self.old result }
        ensures left { gathering_view self.new ≡ Nothing }
        ensures header { header_kept self.new ≡ 0 }
    {
        match mem::replace(self, Gathering::Nothing) {
            Gathering::BodyDue { content, .. } => content,
            Gathering::Deferred(deferred) => Box::into_inner(deferred).content,
            Gathering::Nothing | Gathering::HeaderDue(_) => unreachable!(),
        }
    }
}

/// Appends the last part of a body. A body that one frame has whole is given as much memory as it has octets.
#[inline(always)]
pub(crate) fn append_last(body: &mut Vec<u8>, octets: &[u8]) -> Result<(), OutOfMemory>
    ensures ok { OnOk result (body.new.items ≡ body.old.items ++ octets.now) }
    ensures err { OnErr result (body.new.items ≡ body.old.items) }
{
    if body.is_empty() {
        *body = Vec::from_slice(*body.allocator(), octets)?;
    } else {
        body.extend_from_slice(octets)?;
    }
    Ok(())
}

impl Gathering {
    /// Keeps a part of a body, after which more is due. Out of memory, all is as it was.
    #[inline(always)]
    pub(crate) fn append(&mut self, octets: &[u8]) -> Result<(), OutOfMemory>
        ensures ok { OnOk result (gathering_view self.new ≡ continued_with (BodyOf octets.now)
            (gathering_view self.old)) }
        ensures err { OnErr result (gathering_view self.new ≡ gathering_view self.old) }
        ensures header { header_kept self.new ≡ header_kept self.old }
    {
        match self {
            Gathering::BodyDue { content, .. } => content.body.extend_from_slice(octets)?,
            Gathering::Deferred(deferred) => deferred.content.body.extend_from_slice(octets)?,
            Gathering::Nothing | Gathering::HeaderDue(_) => {}
        }
        Ok(())
    }

    /// The content whose header was read and that a part of its body makes whole. Nothing is kept of it any more. Out
    /// of memory, all is as it was.
    #[inline(always)]
    pub(crate) fn finish_due(&mut self, octets: &[u8]) -> Result<Box<Content>, OutOfMemory>
        requires read { IsRead self.old }
        requires whole { IsWhole (whole_with (gathering_view self.old) octets.now) }
        ensures whole { IfOk result (λ content. whole_with (gathering_view self.old) octets.now
            ≡ Some (content_view content.value)) }
        ensures left { OnOk result (gathering_view self.new ≡ Nothing) }
        ensures err { OnErr result (gathering_view self.new ≡ gathering_view self.old) }
        ensures header { OnOk result (header_kept self.new ≡ 0) }
        ensures kept { OnErr result (header_kept self.new ≡ header_kept self.old) }
    {
        match mem::replace(self, Gathering::Nothing) {
            Gathering::BodyDue {
                header,
                mut content,
            } => {
                if let Err(fault) = append_last(&mut content.body, octets) {
                    forget(mem::replace(self, Gathering::BodyDue { header, content }));
                    return Err(fault);
                }
                Ok(content)
            }
            Gathering::Nothing | Gathering::HeaderDue(_) | Gathering::Deferred(_) => unreachable!(),
        }
    }

    /// The content that a part of its body makes whole. Nothing is kept of it any more. Out of memory, all is as it
    /// was.
    #[inline(always)]
    pub(crate) fn finish(&mut self, octets: &[u8]) -> Result<Box<Content>, OutOfMemory>
        requires { IsWhole (whole_with (gathering_view self.old) octets.now) }
        ensures whole { IfOk result (λ content. whole_with (gathering_view self.old) octets.now
            ≡ Some (content_view content.value)) }
        ensures left { OnOk result (gathering_view self.new ≡ Nothing) }
        ensures err { OnErr result (gathering_view self.new ≡ gathering_view self.old) }
        ensures header { OnOk result (header_kept self.new ≡ 0) }
        ensures kept { OnErr result (header_kept self.new ≡ header_kept self.old) }
    {
        match self {
            Gathering::BodyDue { content, .. } => append_last(&mut content.body, octets)?,
            Gathering::Deferred(deferred) => {
                let alloc = *deferred.content.body.allocator();
                deferred.read_header(alloc)?;
                append_last(&mut deferred.content.body, octets)?;
            }
            Gathering::Nothing | Gathering::HeaderDue(_) => unreachable!(),
        }
        Ok(self.take_whole())
    }
}

impl Gathering {
    /// Takes the header that is due, after which the body is due. Out of memory, the header is due still.
    #[inline(always)]
    pub(crate) fn head(&mut self, alloc: Global, header: HeaderRef<'_>) -> Result<(), OutOfMemory>
        requires { IsHeaderDue (gathering_view self.old) }
        ensures ok { OnOk result (gathering_view self.new ≡ headed_with (header_said header.entry)
            (gathering_view self.old)) }
        ensures header { OnOk result (header_kept self.new ≡ length_said header.entry) }
        ensures err { OnErr result (gathering_view self.new ≡ gathering_view self.old) }
        ensures kept { OnErr result (header_kept self.new ≡ header_kept self.old) }
    {
        match mem::replace(self, Gathering::Nothing) {
            Gathering::HeaderDue(begun) => self.keep_headed(alloc, header, begun),
            Gathering::Nothing | Gathering::BodyDue { .. } | Gathering::Deferred(_) =>
                unreachable!(),
        }
    }

    /// Takes the header that is due, with its table of headers, after which the body is due. It has no other property.
    #[inline(always)]
    pub(crate) fn head_with(&mut self, header: HeaderRef<'_>, octets: u32, table: Option<Table>)
        requires due { IsHeaderDue (gathering_view self.old) }
        requires counts { octets ≡ length_said header }
        requires alone { (lent_header header).properties ≡ headers_alone table }
        ensures headed { gathering_view self.new ≡ headed_with (header_said header.entry) (gathering_view self.old) }
        ensures header { header_kept self.new ≡ length_said header.entry }
    {
        match mem::replace(self, Gathering::Nothing) {
            Gathering::HeaderDue(begun) => {
                let content = begun.with_headers(header, table);
                forget(mem::replace(
                    self,
                    Gathering::BodyDue {
                        header: octets,
                        content,
                    },
                ));
            }
            Gathering::Nothing | Gathering::BodyDue { .. } | Gathering::Deferred(_) =>
                unreachable!(),
        }
    }

    /// The content that its header makes whole, since its body is empty. Nothing is kept of it any more.
    pub(crate) fn finish_header(
        &mut self,
        alloc: Global,
        header: HeaderRef<'_>,
    ) -> Result<Box<Content>, OutOfMemory>
        requires { IsWhole (whole_at (gathering_view self.old) (header_said header)) }
        ensures whole { IfOk result (λ content. whole_at (gathering_view self.old) (header_said header.entry)
            ≡ Some (content_view content.value)) }
        ensures left { OnOk result (gathering_view self.new ≡ Nothing) }
        ensures err { OnErr result (gathering_view self.new ≡ gathering_view self.old) }
        ensures header { OnOk result (header_kept self.new ≡ 0) }
        ensures kept { OnErr result (header_kept self.new ≡ header_kept self.old) }
    {
        match mem::replace(self, Gathering::Nothing) {
            Gathering::HeaderDue(begun) => match begun.with_header(alloc, header) {
                Ok(content) => Ok(content),
                Err(begun) => {
                    *self = Gathering::HeaderDue(begun);
                    Err(OutOfMemory)
                }
            },
            Gathering::Nothing | Gathering::BodyDue { .. } | Gathering::Deferred(_) =>
                unreachable!(),
        }
    }

    /// Keeps a header, after which the body is due: read where the content is, or, if it is long and has a table, as
    /// its octets.
    #[inline(always)]
    fn keep_headed(
        &mut self,
        alloc: Global,
        header: HeaderRef<'_>,
        begun: Begun,
    ) -> Result<(), OutOfMemory>
        ensures ok { OnOk result (gathering_view self.new ≡ headed_with (header_said header.entry)
            (HeaderDue (begun_view begun))) }
        ensures header { OnOk result (header_kept self.new ≡ length_said header.entry) }
        ensures err { OnErr result (gathering_view self.new ≡ HeaderDue (begun_view begun)) }
        ensures kept { OnErr result (header_kept self.new ≡ 0) }
    {
        let Some(length) = length_if_read(header) else {
            return self.defer(alloc, header, begun);
        };
        match begun.with_header(alloc, header) {
            Ok(content) => {
                forget(mem::replace(
                    self,
                    Gathering::BodyDue {
                        header: length,
                        content,
                    },
                ));
                Ok(())
            }
            Err(begun) => {
                *self = Gathering::HeaderDue(begun);
                Err(OutOfMemory)
            }
        }
    }

    /// Keeps a header as its octets.
    fn defer(
        &mut self,
        alloc: Global,
        header: HeaderRef<'_>,
        begun: Begun,
    ) -> Result<(), OutOfMemory>
        ensures ok { OnOk result (gathering_view self.new ≡ headed_with (header_said header.entry)
            (HeaderDue (begun_view begun))) }
        ensures header { OnOk result (header_kept self.new ≡ length_said header.entry) }
        ensures err { OnErr result (gathering_view self.new ≡ HeaderDue (begun_view begun)) }
        ensures kept { OnErr result (header_kept self.new ≡ 0) }
    {
        match Deferred::new(alloc, header, begun) {
            Ok(deferred) => {
                *self = Gathering::Deferred(deferred);
                Ok(())
            }
            Err(begun) => {
                *self = Gathering::HeaderDue(begun);
                Err(OutOfMemory)
            }
        }
    }
}
