//! A content under way whose header is kept as its octets.
//!
//! A table takes up to 40 times its octets in memory, and a peer may begin a content on each channel and leave it
//! there. So of a long header with a table the octets are kept, and read when the body is whole.
ghost use Rattle.std.specs.Prelude.{◌≡◌, ◌++◌, ◌+◌, [], length, IfOk, IfErr, IfSome, OnOk, OnErr};
ghost use Rattle.amqp_method.specs.BegunView.{begun_view};
ghost use Rattle.amqp_method.specs.CarrierView.{carrier_view};
ghost use Rattle.amqp_method.specs.HeaderRefView.{lent_header};
ghost use Rattle.amqp_method.specs.HeaderView.{properties_view};
ghost use Rattle.amqp_model.specs.Wire.Methods.{header_at};
ghost use Rattle.amqp_model.specs.Wire.Readings.{HeaderOf, header_reading};
ghost use Rattle.amqp_channel.specs.Contents.ContentView.{content_view};
ghost use Rattle.amqp_channel.specs.Contents.DeferredView.{properties_of, IsHeaderOf};
ghost use Rattle.amqp_channel.specs.ReadingView.{length_said};

use crate::read::read_content_header;
use amqp_method::{Begun, Content, HeaderRef, OutOfMemory};
use amqp_model::bounds::headers_have_one_length;
use std::alloc::Global;

/// How many octets a header with a table may have that is kept as what was read of it: that takes at most 5 KiB.
pub(crate) const KEPT_READ: usize = 128;

/// A content under way of whose header only the octets are kept.
#[derive(Drop)]
pub struct Deferred {
    /// the method, and what came of the body
    pub content: Box<Content>,
    size: u64,
    header: Vec<u8>,
    pub ghost reads: { IsHeaderOf size header.items },
}

/// How many octets a header has that is kept as what was read of it. Any other is kept as its octets: one that is long
/// and has a table, or whose length has no room beside a content.
#[inline(always)]
#[tactic(auto, using(crate::proofs::HeaderLemmas::length_measured))]
pub(crate) fn length_if_read(header: HeaderRef<'_>) -> Option<u32>
    ensures { IfSome result (λ octets. octets ≡ length_said header.entry) }
{
    headers_have_one_length();
    let octets = header.payload().len();
    if KEPT_READ < octets && header.headers().is_some() {
        return None;
    }
    u32::try_from(octets).ok()
}

impl Deferred {
    /// Keeps the octets of the header of a content that is begun. Out of memory, that is given back.
    #[tactic(auto, unfolding(amqp_model::specs::Wire::Methods::header_at), using(crate::proofs::HeaderLemmas::length_measured))]
    pub(crate) fn new(
        alloc: Global,
        header: HeaderRef<'_>,
        begun: Begun,
    ) -> Result<Box<Deferred>, Begun>
        ensures properties { IfOk result (λ d. properties_of d.value.header.items
            ≡ (lent_header header.entry).properties) }
        ensures size { IfOk result (λ d. d.value.size ≡ (lent_header header.entry).body_size) }
        ensures length { IfOk result (λ d. length d.value.header.items ≡ length_said header.entry) }
        ensures method { IfOk result (λ d. carrier_view d.value.content.value.method ≡ begun_view begun) }
        ensures body { IfOk result (λ d. d.value.content.value.body.items ≡ []) }
        ensures back { IfErr result (λ back. begun_view back ≡ begun_view begun) }
    {
        headers_have_one_length();
        let size = header.body_size();
        let Ok(header) = Vec::from_slice(alloc, header.payload()) else {
            return Err(begun);
        };
        match Box::new(
            alloc,
            Deferred {
                content: begun.into_content(),
                size,
                header,
            },
        ) {
            Ok(deferred) => Ok(deferred),
            Err(refused) => Err(Begun::from_blank(refused.value.content)),
        }
    }

    /// How many octets the header has.
    pub(crate) fn header_octets(&self) -> usize
        ensures { result ≡ length self.now.header.items }
    {
        self.header.len()
    }

    /// How many octets the body has.
    pub(crate) fn size(&self) -> u64
        ensures { result ≡ self.now.size }
    {
        self.size
    }

    /// Reads the header where it is to stay. Out of memory, what is kept is as it was.
    pub(crate) fn read_header(&mut self, alloc: Global) -> Result<(), OutOfMemory>
        ensures same { (self.new.size ≡ self.old.size) × (self.new.header.items ≡ self.old.header.items) }
        ensures method { carrier_view self.new.content.value.method ≡ carrier_view self.old.content.value.method }
        ensures body { self.new.content.value.body.items ≡ self.old.content.value.body.items }
        ensures read { OnOk result (properties_view self.new.content.value.header.properties
            ≡ properties_of self.old.header.items) }
    {
        match read_content_header(alloc, &self.header, &mut self.content.header) {
            Ok(true) => Ok(()),
            Ok(false) => unreachable!(),
            Err(fault) => Err(fault),
        }
    }
}
