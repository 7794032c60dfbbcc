//! Methods, headers, properties and messages in a format string.
ghost use Rattle.std.specs.Prelude.{◌≡◌, ◌≤◌, ◌&&◌, length, map, is_none, Some};
ghost use Rattle.std.specs.Fmt.{WritesOnOk};
ghost use Rattle.amqp_method.specs.HeaderView.{header_view, properties_view};
ghost use Rattle.amqp_method.specs.MessageView.{message_view};
ghost use Rattle.amqp_method.specs.Lent.{value_view, lent_view, lent_views};
ghost use Rattle.amqp_method.specs.MethodView.{method_view};
ghost use Rattle.amqp_method.specs.Methods.{row};
ghost use Rattle.amqp_method.specs.Plain.{args_left_by};
ghost use Rattle.amqp_method.specs.Rows.{field_view};
ghost use Rattle.amqp_method.specs.Texts.{bit_text, argument_text, field_text, fields_text, text_of_method, space_text, parted, property_names, property_text, properties_text, text_of_properties, text_of_header, body_text, content_text, text_of_message};
ghost use Rattle.amqp_method.specs.Views.{arg_view, args_view};

use crate::fields::{Arg, Field};
use crate::headers::{Header, Properties};
use crate::kinds::{Kind, schema};
use crate::messages::Message;
use crate::methods::Method;
use crate::properties::{Lent, lent_properties, property_name};
use amqp_value::{write_hexadecimal, write_quoted};
use std::fmt;

pub(crate) fn write_bit<W: fmt::Write>(f: &mut fmt::Formatter<W>, holds: bool) -> fmt::Result
    ensures { WritesOnOk W.write_str_gives f.old result (bit_text holds) f.new }
{
    f.write_str(if holds { "1" } else { "0" })
}

fn write_arg<W: fmt::Write>(f: &mut fmt::Formatter<W>, arg: &Arg) -> fmt::Result
    ensures { WritesOnOk W.write_str_gives f.old result (argument_text (arg_view arg.now)) f.new }
{
    match arg {
        Arg::Bit(holds) => write_bit(f, *holds),
        Arg::Octet(number) => write!(f, "{number}"),
        Arg::Short(number) => write!(f, "{number}"),
        Arg::Long(number) => write!(f, "{number}"),
        Arg::LongLong(number) => write!(f, "{number}"),
        Arg::ShortStr(octets) => write_quoted(f, octets.as_bytes()),
        Arg::LongStr(octets) => write_quoted(f, octets),
        Arg::Table(table) => write!(f, "{table}"),
    }
}

/// The first of the arguments with its field's name, unless the field is reserved.
fn write_field<W: fmt::Write>(f: &mut fmt::Formatter<W>, field: &Field, args: &[Arg]) -> fmt::Result
    ensures { WritesOnOk W.write_str_gives f.old result
        (field_text field.now.reserved field.now.name.now (args_view args.now)) f.new }
{
    if field.reserved {
        return Ok(());
    }
    let Some(arg) = args.first() else {
        return Ok(());
    };
    let name = field.name;
    write!(f, " {name}=")?;
    write_arg(f, arg)
}

/// The arguments after a field's: all of them, if it is reserved.
fn args_after<'a>(field: &Field, args: &'a [Arg]) -> &'a [Arg]
    ensures { args_view result.now ≡ args_left_by field.now.reserved (args_view args.now) }
{
    if field.reserved {
        return args;
    }
    match args.split_first() {
        None => args,
        Some((_, others)) => others,
    }
}

/// The arguments, each with its field's name.
fn write_fields<W: fmt::Write>(
    f: &mut fmt::Formatter<W>,
    fields: &[Field],
    args: &[Arg],
) -> fmt::Result
    ensures { WritesOnOk W.write_str_gives f.old result
        (fields_text (map field_view fields.now) (args_view args.now)) f.new }
{
    let mut rest = args;
    for field in fields {
        write_field(f, field, rest)?;
        rest = args_after(field, rest);
    }
    Ok(())
}

/// Prints the class and the method by name, as `basic.get-ok`.
impl fmt::Display for Kind {
    ghost output = { λ kind. Some (row kind).name };

    fn fmt<W: fmt::Write>(&self, f: &mut fmt::Formatter<W>) -> fmt::Result {
        f.write_str(self.name())
    }
}

/// Prints the argument as a method's text has it after its name: a bit as 0 or 1, a number in decimal, strings in
/// quotes.
impl fmt::Display for Arg {
    ghost output = { λ arg. Some (argument_text (arg_view arg)) };

    fn fmt<W: fmt::Write>(&self, f: &mut fmt::Formatter<W>) -> fmt::Result {
        write_arg(f, self)
    }
}

/// Prints what [`method_text`](crate::method_text) gives, without memory of its own.
impl fmt::Display for Method {
    ghost output = { λ m. Some (text_of_method (method_view m)) };

    fn fmt<W: fmt::Write>(&self, f: &mut fmt::Formatter<W>) -> fmt::Result {
        let kind = self.kind();
        f.write_str(kind.name())?;
        write_fields(f, schema(kind), self.args())
    }
}

fn write_lent<W: fmt::Write>(f: &mut fmt::Formatter<W>, value: Lent) -> fmt::Result
    ensures { WritesOnOk W.write_str_gives f.old result (argument_text (value_view value.entry)) f.new }
{
    match value {
        Lent::Octet(number) => write!(f, "{number}"),
        Lent::LongLong(number) => write!(f, "{number}"),
        Lent::ShortStr(octets) => write_quoted(f, octets.as_bytes()),
        Lent::Table(table) => write!(f, "{table}"),
    }
}

/// The space before a property, unless it is the first.
fn write_space<W: fmt::Write>(f: &mut fmt::Formatter<W>, is_first: bool) -> fmt::Result
    ensures { WritesOnOk W.write_str_gives f.old result (space_text is_first) f.new }
{
    f.write_str(if is_first { "" } else { " " })
}

/// A property with its name, if it is there.
#[tactic(auto, using(crate::proofs::TextLemmas::parted_name))]
fn write_property<W: fmt::Write>(
    f: &mut fmt::Formatter<W>,
    is_first: bool,
    name: &str,
    property: Option<Lent>,
) -> fmt::Result
    ensures { WritesOnOk W.write_str_gives f.old result
        (parted is_first (property_text name.now (lent_view property.entry))) f.new }
{
    let Some(value) = property else {
        return Ok(());
    };
    write_space(f, is_first)?;
    write!(f, "{name}=")?;
    write_lent(f, value)
}

/// Whether the next property is the first that is there, after this one.
fn is_first_after(is_first: bool, property: &Option<Lent>) -> bool
    ensures { result ≡ (is_first && is_none (lent_view property.now)) }
{
    match property {
        Some(_) => false,
        None => is_first,
    }
}

/// The properties that are there, each after a space, but for the first of a text.
fn write_properties<W: fmt::Write>(
    f: &mut fmt::Formatter<W>,
    starts: bool,
    properties: &[Option<Lent>],
) -> fmt::Result
    requires { length properties.now ≤ 14 }
    ensures { WritesOnOk W.write_str_gives f.old result
        (parted starts (properties_text property_names (lent_views properties.now))) f.new }
{
    let mut is_first = starts;
    for (index, property) in properties.iter().enumerate() {
        write_property(f, is_first, property_name(index), *property)?;
        is_first = is_first_after(is_first, property);
    }
    Ok(())
}

/// The text of a header.
fn write_header<W: fmt::Write>(
    f: &mut fmt::Formatter<W>,
    body_size: u64,
    properties: &Properties,
) -> fmt::Result
    ensures { WritesOnOk W.write_str_gives f.old result
        (text_of_header (record { body_size = body_size; properties = properties_view properties.now })) f.new }
{
    write!(f, "header size={body_size}")?;
    write_properties(f, false, &lent_properties(properties))
}

/// Prints what [`header_text`](crate::header_text) gives, without memory of its own.
impl fmt::Display for Header {
    ghost output = { λ h. Some (text_of_header (header_view h)) };

    fn fmt<W: fmt::Write>(&self, f: &mut fmt::Formatter<W>) -> fmt::Result {
        write_header(f, self.body_size, &self.properties)
    }
}

/// Prints the properties as a header's text has them, parted by spaces.
impl fmt::Display for Properties {
    ghost output = { λ p. Some (text_of_properties (properties_view p)) };

    fn fmt<W: fmt::Write>(&self, f: &mut fmt::Formatter<W>) -> fmt::Result {
        write_properties(f, true, &lent_properties(self))
    }
}

/// A body, `-` where it has no octets.
fn write_body<W: fmt::Write>(f: &mut fmt::Formatter<W>, body: &[u8]) -> fmt::Result
    ensures { WritesOnOk W.write_str_gives f.old result (body_text body.now) f.new }
{
    if body.is_empty() {
        return f.write_str("-");
    }
    write_hexadecimal(f, body)
}

/// The lines of a content.
fn write_content<W: fmt::Write>(
    f: &mut fmt::Formatter<W>,
    properties: &Properties,
    body: &[u8],
) -> fmt::Result
    ensures { WritesOnOk W.write_str_gives f.old result
        (content_text (Some (properties_view properties.now)) body.now) f.new }
{
    f.write_str("\n  ")?;
    write_header(f, body.len() as u64, properties)?;
    f.write_str("\n  body ")?;
    write_body(f, body)
}

/// The content of a message, if it has one.
fn write_parts<W: fmt::Write>(f: &mut fmt::Formatter<W>, message: &Message) -> fmt::Result
    ensures { WritesOnOk W.write_str_gives f.old result
        (content_text (message_view message.now).properties (message_view message.now).body) f.new }
{
    let Some((properties, body)) = message.content_parts() else {
        return Ok(());
    };
    write_content(f, properties, body)
}

/// Prints the method, and below it, where a content follows, a line with its header and one with its body in
/// hexadecimal, each after two spaces. That takes no memory of its own.
impl fmt::Display for Message {
    ghost output = { λ m. Some (text_of_message (message_view m)) };

    fn fmt<W: fmt::Write>(&self, f: &mut fmt::Formatter<W>) -> fmt::Result {
        let method = self.method();
        write!(f, "{method}")?;
        write_parts(f, self)
    }
}
