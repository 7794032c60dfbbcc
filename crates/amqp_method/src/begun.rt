//! Contents that are begun: a method, before the header of the content that follows it.
ghost use Rattle.std.specs.Prelude.{◌≡◌, [], true};
ghost use Rattle.amqp_method.specs.Blank.{are_none};
ghost use Rattle.amqp_method.specs.CarrierView.{carrier_view};
ghost use Rattle.amqp_method.specs.HeaderView.{properties_view};
ghost use Rattle.amqp_method.specs.Kinds.{has_content};
ghost use Rattle.amqp_method.specs.Messages.{IsBlank};
ghost use Rattle.amqp_method.specs.MethodView.{method_view};

use crate::contents::{Carrier, Content};
use crate::faults::OutOfMemory;
use crate::header_ref::HeaderRef;
use crate::kinds::Kind;
use crate::method_ref::MethodRef;
use crate::methods::Method;
use amqp_value::Table;
use std::alloc::Global;
use std::mem::{forget, replace};

/// A content of which the method alone came. The place for what follows it is there, and blank.
#[derive(Drop)]
pub struct Begun {
    content: Box<Content>,
    ghost size: { content.value.header.body_size ≡ 0 },
    ghost none: { are_none (properties_view content.value.header.properties) ≡ true },
    ghost body: { content.value.body.items ≡ [] },
}

/// The content, blank again after a part of a header was read in it.
#[cold]
#[inline(never)]
#[tactic(auto, using(crate::proofs::BegunLemmas::none_there))]
fn blanked(mut content: Box<Content>) -> Begun
    requires size { content.value.header.body_size ≡ 0 }
    requires body { content.value.body.items ≡ [] }
    ensures { carrier_view result.content.value.method ≡ carrier_view content.value.method }
{
    content.header.properties.clear();
    Begun { content }
}

impl Begun {
    ghost use Rattle.std.specs.Prelude.{◌≡◌, IfOk, IfErr};
    ghost use Rattle.amqp_method.specs.BegunView.{begun_view};
    ghost use Rattle.amqp_method.specs.CarrierView.{carrier_view};
    ghost use Rattle.amqp_method.specs.HeaderRefView.{lent_header};
    ghost use Rattle.amqp_method.specs.HeaderView.{header_view, headers_alone};
    ghost use Rattle.amqp_method.specs.MethodRefView.{lent_call};

    /// The content that a method begins, with memory of its own. Nothing is checked again, so it fails for memory
    /// alone.
    ///
    /// Most contents are of two kinds, whose arguments are built in line, so that they go right into the box.
    #[inline(never)]
    pub fn new(alloc: Global, method: MethodRef<'_>) -> Result<Begun, OutOfMemory>
        requires { has_content (lent_call method).kind ≡ true }
        ensures { IfOk result (λ begun. begun_view begun ≡ lent_call method.entry) }
    {
        match method.kind() {
            Kind::BasicPublish => {
                let args = method.lent_args().own_publish(alloc)?;
                Begun::of(alloc, Method::new(Kind::BasicPublish, args))
            }
            Kind::BasicDeliver => {
                let args = method.lent_args().own_deliver(alloc)?;
                Begun::of(alloc, Method::new(Kind::BasicDeliver, args))
            }
            _ => Begun::of(alloc, method.to_owned(alloc)?),
        }
    }

    #[inline(always)]
    #[tactic(auto, using(crate::proofs::BegunLemmas::none_there))]
    fn of(alloc: Global, method: Method) -> Result<Begun, OutOfMemory>
        requires { has_content (method_view method).kind ≡ true }
        ensures { IfOk result (λ begun. begun_view begun ≡ method_view method) }
    {
        let content = Content::begun(alloc, Carrier::new(method))?;
        Ok(Begun { content })
    }

    /// A content of which the method alone is there.
    #[tactic(auto, using(crate::proofs::BegunLemmas::none_there))]
    pub fn from_blank(content: Box<Content>) -> Begun
        requires { IsBlank content.value }
        ensures { begun_view result ≡ carrier_view content.value.method }
    {
        Begun { content }
    }

    /// The content, blank but for the method.
    #[tactic(auto, using(crate::proofs::BegunLemmas::no_property))]
    pub fn into_content(self) -> Box<Content>
        ensures method { carrier_view result.value.method ≡ begun_view self }
        ensures blank { IsBlank result.value }
    {
        self.content
    }

    /// The kind of the method.
    pub fn kind(&self) -> Kind
        ensures { result ≡ (begun_view self.now).kind }
    {
        self.content.kind()
    }

    /// The content with a header, which is built where the content is. Nothing is checked again, so it fails for memory
    /// alone, after which the content is begun as before.
    ///
    /// Where no property was before, none is looked at but those whose flags are set.
    #[inline(always)]
    #[tactic(auto, using(crate::proofs::BegunLemmas::no_property))]
    pub fn with_header(self, alloc: Global, header: HeaderRef<'_>) -> Result<Box<Content>, Begun>
        ensures method { IfOk result (λ content. carrier_view content.value.method ≡ begun_view self) }
        ensures header { IfOk result (λ content. header_view content.value.header ≡ lent_header header.entry) }
        ensures body { IfOk result (λ content. content.value.body.items ≡ []) }
        ensures back { IfErr result (λ begun. begun_view begun ≡ begun_view self) }
    {
        let mut content = self.content;
        if header
            .own_properties(alloc, &mut content.header.properties)
            .is_err()
        {
            return Err(blanked(content));
        }
        content.header.body_size = header.body_size();
        Ok(content)
    }

    /// The content with a header and its table of headers, which is its only property if it has any. It takes no
    /// memory.
    #[inline(always)]
    #[tactic(auto, using(crate::proofs::BegunLemmas::no_property, crate::proofs::BegunLemmas::third_alone))]
    pub fn with_headers(self, header: HeaderRef<'_>, headers: Option<Table>) -> Box<Content>
        requires alone { (lent_header header).properties ≡ headers_alone headers }
        ensures method { carrier_view result.value.method ≡ begun_view self }
        ensures header { header_view result.value.header ≡ lent_header header.entry }
        ensures body { result.value.body.items ≡ [] }
    {
        let mut content = self.content;
        forget(replace(&mut content.header.properties.headers, headers));
        content.header.body_size = header.body_size();
        content
    }
}
