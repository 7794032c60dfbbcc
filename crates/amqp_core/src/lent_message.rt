//! Messages whose parts are lent, so that sending copies none of them but into the output.
ghost use Rattle.amqp_core.specs.Asks.LentForm.{KindFits};

use crate::faults::OutOfMemory;
use amqp_method::{Message, Method, Properties};
use std::alloc::Global;

/// The parts of a message: a method alone, or with the properties and the body of its content.
#[derive(Clone, Copy)]
enum Form<'a> {
    Plain(&'a Method),
    Content(&'a Method, &'a Properties, &'a [u8]),
}

/// A message whose parts are lent.
#[derive(Clone, Copy)]
pub(crate) struct LentMessage<'a> {
    form: Form<'a>,
    pub ghost kind_fits: { KindFits form },
}

impl<'a> LentMessage<'a> {
    ghost use Rattle.std.specs.Prelude.{◌≡◌, true, Some, None, IfOk, MatchOption};
    ghost use Rattle.amqp_method.specs.HeaderView.{properties_view};
    ghost use Rattle.amqp_method.specs.Kinds.{has_content};
    ghost use Rattle.amqp_method.specs.Messages.{letter_with};
    ghost use Rattle.amqp_method.specs.MessageView.{message_view};
    ghost use Rattle.amqp_method.specs.MethodView.{method_view};
    ghost use Rattle.amqp_channel.specs.Events.EventView.{message_of};
    ghost use Rattle.amqp_core.specs.Asks.LentLetter.{lent_letter};

    /// A message, lent.
    pub(crate) fn of(message: &'a Message) -> LentMessage<'a>
        ensures { message_of (lent_letter result) ≡ message_of (message_view message.now) }
    {
        let method = message.method();
        let form = match message.content_parts() {
            Some((properties, body)) => Form::Content(method, properties, body),
            None => Form::Plain(method),
        };
        LentMessage { form }
    }

    /// A method with its content.
    pub(crate) fn content(
        method: &'a Method,
        properties: &'a Properties,
        body: &'a [u8],
    ) -> LentMessage<'a>
        requires { has_content (method_view method.now).kind ≡ true }
        ensures { lent_letter result ≡ letter_with (method_view method.now) (properties_view properties.now) body.now }
    {
        LentMessage {
            form: Form::Content(method, properties, body),
        }
    }

    /// The method.
    pub(crate) fn method(self) -> &'a Method
        ensures { method_view result.now ≡ (lent_letter self.entry).call }
    {
        match self.form {
            Form::Plain(method) => method,
            Form::Content(method, _, _) => method,
        }
    }

    /// The properties and the body of the content, if the message has one.
    pub(crate) fn content_parts(self) -> Option<(&'a Properties, &'a [u8])>
        ensures { MatchOption result ((lent_letter self.entry).properties ≡ None)
            (λ p. ((lent_letter self.entry).properties ≡ Some (properties_view p.0.now))
            × ((lent_letter self.entry).body ≡ p.1.now)) }
    {
        match self.form {
            Form::Plain(_) => None,
            Form::Content(_, properties, body) => Some((properties, body)),
        }
    }

    /// A message with equal parts.
    pub(crate) fn copy(self, alloc: Global) -> Result<Message, OutOfMemory>
        ensures { IfOk result (λ message. message_of (message_view message) ≡ message_of (lent_letter self.entry)) }
    {
        match self.form {
            Form::Plain(method) => {
                let method = method.copy()?;
                Ok(Message::plain(method))
            }
            Form::Content(method, properties, body) => {
                let body = Vec::from_slice(alloc, body)?;
                let method = method.copy()?;
                let properties = properties.copy()?;
                Ok(Message::content(method, properties, body))
            }
        }
    }
}
