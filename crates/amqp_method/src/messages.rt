//! A message: a method, and the content that follows it, if it has one.
ghost use Rattle.amqp_method.specs.Messages.{KindFits, SizeFits};

use crate::contents::{Carrier, Content};
use crate::faults::OutOfMemory;
use crate::headers::{Header, Properties};
use crate::maybe_boxed::{Boxed, MaybeBoxed};
use crate::methods::Method;

#[derive(Debug, Drop, PartialEq, Eq)]
enum Form {
    Plain(Method),
    Content(MaybeBoxed<Content>),
}

/// A message: a method alone, or one of the four methods that a content follows (basic.publish, return, deliver and
/// get-ok) with the content's properties and its body.
#[derive(Debug, Drop, PartialEq, Eq)]
pub struct Message {
    form: Form,
    pub ghost kind_fits: { KindFits form },
    pub ghost size_fits: { SizeFits form },
}

impl Message {
    ghost use Rattle.std.specs.Prelude.{◌≡◌, ◌↔◌, true, false, Some, None, IsOk, IfOk, IfErr, MatchOption};
    ghost use Rattle.amqp_method.specs.HeaderView.{properties_view};
    ghost use Rattle.amqp_method.specs.Kinds.{has_content};
    ghost use Rattle.amqp_method.specs.Messages.{letter_alone, letter_with, content_letter};
    ghost use Rattle.amqp_method.specs.MessageView.{message_view};
    ghost use Rattle.amqp_method.specs.MethodView.{method_view};

    /// A method alone.
    pub fn plain(method: Method) -> Message
        requires { has_content (method_view method).kind ≡ false }
        ensures { message_view result ≡ letter_alone (method_view method) }
    {
        Message {
            form: Form::Plain(method),
        }
    }

    /// A method alone, if no content follows it. One that a content follows is given back.
    pub fn try_plain(method: Method) -> Result<Message, Method>
        ensures ok { IfOk result (λ m. message_view m ≡ letter_alone (method_view method)) }
        ensures when { IsOk result ↔ (has_content (method_view method).kind ≡ false) }
        ensures back { IfErr result (λ m. method_view m ≡ method_view method) }
    {
        if method.has_content() {
            return Err(method);
        }
        Ok(Message::plain(method))
    }

    /// A method with its content.
    pub fn content(method: Method, properties: Properties, body: Vec<u8>) -> Message
        requires { has_content (method_view method).kind ≡ true }
        ensures { message_view result ≡ letter_with (method_view method) (properties_view properties) body.items }
    {
        let content = Content {
            method: Carrier::new(method),
            header: Header {
                body_size: body.len() as u64,
                properties,
            },
            body,
        };
        Message {
            form: Form::Content(MaybeBoxed::Here(content)),
        }
    }

    /// A method with its content, if a content follows it. Otherwise all is given back.
    pub fn try_content(
        method: Method,
        properties: Properties,
        body: Vec<u8>,
    ) -> Result<Message, (Method, Properties, Vec<u8>)>
        ensures ok { IfOk result (λ m. message_view m ≡ letter_with (method_view method)
            (properties_view properties) body.items) }
        ensures when { IsOk result ↔ (has_content (method_view method).kind ≡ true) }
        ensures back { IfErr result (λ p. (method_view p.0 ≡ method_view method)
            × (properties_view p.1 ≡ properties_view properties) × (p.2.items ≡ body.items)) }
    {
        if !method.has_content() {
            return Err((method, properties, body));
        }
        Ok(Message::content(method, properties, body))
    }

    /// The message that a content makes. Its octets stay in the box, so little is moved.
    ///
    /// What its header says of the size is the length of its body from then on.
    #[inline(always)]
    pub fn gathered(mut content: Box<Content>) -> Message
        ensures { message_view result ≡ content_letter content.value }
    {
        content.header.body_size = content.body.len() as u64;
        Message {
            form: Form::Content(MaybeBoxed::Boxed(Boxed::new(content))),
        }
    }

    /// The method.
    pub fn method(&self) -> &Method
        ensures { method_view result.now ≡ (message_view self.now).call }
    {
        match &self.form {
            Form::Plain(method) => method,
            Form::Content(content) => content.get().method.method(),
        }
    }

    /// The properties and the body of the content, if the message has one.
    pub fn content_parts(&self) -> Option<(&Properties, &[u8])>
        ensures { MatchOption result ((message_view self.now).properties ≡ None)
            (λ p. ((message_view self.now).properties ≡ Some (properties_view p.0.now))
            × ((message_view self.now).body ≡ p.1.now)) }
    {
        match &self.form {
            Form::Plain(_) => None,
            Form::Content(content) => {
                let content = content.get();
                Some((&content.header.properties, content.body.as_slice()))
            }
        }
    }

    /// The method, and the properties and the body of the content if the message has one, out of the message.
    pub fn into_parts(self) -> (Method, Option<(Properties, Vec<u8>)>)
        ensures method { method_view result.0 ≡ (message_view self).call }
        ensures content { MatchOption result.1 ((message_view self).properties ≡ None)
            (λ p. ((message_view self).properties ≡ Some (properties_view p.0))
            × ((message_view self).body ≡ p.1.items)) }
    {
        let form = self.form;
        match form {
            Form::Plain(method) => (method, None),
            Form::Content(content) => {
                let Content {
                    method,
                    header,
                    body,
                } = content.into_inner();
                let Header { properties, .. } = header;
                (method.into_method(), Some((properties, body)))
            }
        }
    }

    /// An equal message.
    pub fn copy(&self) -> Result<Message, OutOfMemory>
        ensures { IfOk result (λ m. message_view m ≡ message_view self.now) }
    {
        match &self.form {
            Form::Plain(method) => {
                let method = method.copy()?;
                Ok(Message {
                    form: Form::Plain(method),
                })
            }
            Form::Content(content) => content.get().copy_message(),
        }
    }
}
