//! Contents: a method that a content follows, and what is there of the content.
ghost use Rattle.std.specs.Prelude.{◌≡◌, true};
ghost use Rattle.amqp_method.specs.Kinds.{has_content};
ghost use Rattle.amqp_method.specs.MethodView.{method_view};

use crate::faults::OutOfMemory;
use crate::fields::drop_args;
use crate::headers::Header;
use crate::kinds::Kind;
use crate::maybe_boxed::DropInBox;
use crate::messages::Message;
use crate::methods::Method;
use std::alloc::Global;
use std::mem::forget;

/// A method that a content follows: basic.publish, return, deliver or get-ok.
#[derive(Debug, Drop, PartialEq, Eq)]
pub struct Carrier {
    method: Method,
    pub ghost carries: { has_content (method_view method).kind ≡ true },
}

/// A content: the method that it follows, its header, and its body, or what was taken of it.
///
/// It is large, so who gathers it from frames keeps it in a box. [`Message::gathered`] makes a message of it, and moves
/// nothing.
#[derive(Debug, Drop, PartialEq, Eq)]
pub struct Content {
    pub method: Carrier,
    pub header: Header,
    pub body: Vec<u8>,
}

impl Carrier {
    ghost use Rattle.std.specs.Prelude.{◌≡◌, true};
    ghost use Rattle.amqp_method.specs.Kinds.{has_content};
    ghost use Rattle.amqp_method.specs.MethodView.{method_view};
    ghost use Rattle.amqp_method.specs.CarrierView.{carrier_view};

    pub fn new(method: Method) -> Carrier
        requires { has_content (method_view method).kind ≡ true }
        ensures { carrier_view result ≡ method_view method }
    {
        Carrier { method }
    }

    /// The method.
    pub fn method(&self) -> &Method
        ensures { method_view result.now ≡ carrier_view self.now }
    {
        &self.method
    }

    /// The method, out of the carrier.
    pub fn into_method(self) -> Method
        ensures { method_view result ≡ carrier_view self }
    {
        self.method
    }

    pub fn kind(&self) -> Kind
        ensures { result ≡ (carrier_view self.now).kind }
    {
        self.method.kind()
    }
}

impl Content {
    ghost use Rattle.std.specs.Prelude.{◌≡◌, IfOk};
    ghost use Rattle.amqp_method.specs.CarrierView.{carrier_view};
    ghost use Rattle.amqp_method.specs.Messages.{content_letter, IsBlank};
    ghost use Rattle.amqp_method.specs.MessageView.{message_view};

    /// A content of which the method alone is there: no property, and no octet of a body.
    ///
    /// It is put together where it is called, so that what is known of the method there goes right into the box.
    #[inline(always)]
    pub fn begun(alloc: Global, method: Carrier) -> Result<Box<Content>, OutOfMemory>
        ensures method { IfOk result (λ content. carrier_view content.value.method ≡ carrier_view method) }
        ensures blank { IfOk result (λ content. IsBlank content.value) }
    {
        let header = Header::default();
        let body = Vec::new(alloc);
        let content = Box::new(
            alloc,
            Content {
                method,
                header,
                body,
            },
        )?;
        Ok(content)
    }

    /// The kind of the method.
    pub fn kind(&self) -> Kind
        ensures { result ≡ (carrier_view self.now.method).kind }
    {
        self.method.kind()
    }

    /// A message equal to the one that the content makes.
    pub fn copy_message(&self) -> Result<Message, OutOfMemory>
        ensures { IfOk result (λ message. message_view message ≡ content_letter self.now) }
    {
        let body = Vec::from_slice(*self.body.allocator(), &self.body)?;
        let method = self.method.method.copy()?;
        let properties = self.header.properties.copy()?;
        Ok(Message::content(method, properties, body))
    }
}

impl DropInBox for Content {
    #[inline(never)]
    fn drop_in_box(content: Box<Content>) {
        if content.header.properties.is_empty() {
            drop_parts(content);
        } else {
            drop_with_properties(content);
        }
    }
}

/// The properties go first, each where it lies. None is left then, so the header, which is large, has nothing more to
/// give back.
#[inline(never)]
fn drop_with_properties(mut content: Box<Content>) {
    content.header.properties.clear();
    let Content {
        method,
        header,
        body: _,
    } = Box::into_inner(content);
    forget(header);
    drop_args(method.into_method().into_args());
}

/// Where the properties are known to be none, only the method and the body are read.
#[inline(always)]
fn drop_parts(content: Box<Content>) {
    let Content {
        method,
        header,
        body: _,
    } = Box::into_inner(content);
    header.properties.drop_parts();
    drop_args(method.into_method().into_args());
}
