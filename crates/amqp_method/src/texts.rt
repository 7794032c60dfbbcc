//! Methods and headers as text.
ghost use Rattle.std.specs.Prelude.{◌≡◌, IfOk};
ghost use Rattle.std.specs.String.{string_bytes};
ghost use Rattle.amqp_method.specs.HeaderView.{header_view};
ghost use Rattle.amqp_method.specs.MethodView.{method_view};
ghost use Rattle.amqp_method.specs.Texts.{text_of_method, text_of_header};

use crate::faults::OutOfMemory;
use crate::headers::Header;
use crate::methods::Method;
use std::alloc::Global;

/// `class.method`, and for each argument a space, its name, `=` and its value: bits as 0 or 1, numbers in decimal,
/// strings in quotes.
pub fn method_text(method: &Method) -> Result<String, OutOfMemory>
    ensures { IfOk result (λ text. string_bytes text ≡ text_of_method (method_view method.now)) }
{
    Ok(format!(in method.allocator(); "{method}")?)
}

/// `header size=N`, and for each property that is there a space, its name, `=` and its value, in the order of the
/// flags.
pub fn header_text(alloc: Global, header: &Header) -> Result<String, OutOfMemory>
    ensures { IfOk result (λ text. string_bytes text ≡ text_of_header (header_view header.now)) }
{
    Ok(format!(in alloc; "{header}")?)
}
