//! Methods with the content that follows them.
ghost use Rattle.std.specs.Prelude.{◌≡◌, IfOk, true};
ghost use Rattle.amqp_method.specs.Arguments.{Call};
ghost use Rattle.amqp_method.specs.HeaderView.{properties_view};
ghost use Rattle.amqp_method.specs.Kinds.{has_content};
ghost use Rattle.amqp_method.specs.MessageView.{message_view};
ghost use Rattle.amqp_method.specs.Messages.{letter_with};
ghost use Rattle.amqp_method.specs.MethodView.{method_view};

use amqp_method::{Message, Method, OutOfMemory, Properties};

/// The message of a method that was made, if there was memory for it, and of its content.
pub(crate) fn content_of(
    method: Result<Method, OutOfMemory>,
    properties: Properties,
    body: Vec<u8>,
) -> Result<Message, OutOfMemory>
    requires { IfOk method (λ m. has_content (method_view m).kind ≡ true) }
    ensures { (call : Call) → IfOk method (λ m. method_view m ≡ call)
        → IfOk result (λ m. message_view m ≡ letter_with call (properties_view properties) body.items) }
{
    match method {
        Ok(method) => Ok(Message::content(method, properties, body)),
        Err(error) => {
            drop(properties);
            Err(error)
        }
    }
}
