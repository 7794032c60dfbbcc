//! Arguments, methods and content headers that are lent, in a format string: with the texts of the owned ones.
ghost use Rattle.std.specs.Prelude.{◌≡◌, map, Some};
ghost use Rattle.std.specs.Fmt.{WritesOnOk};
ghost use Rattle.amqp_method.specs.ArgRefView.{arg_ref_view};
ghost use Rattle.amqp_method.specs.HeaderRefView.{lent_header, property_ref_view};
ghost use Rattle.amqp_method.specs.MethodRefs.{args_left};
ghost use Rattle.amqp_method.specs.MethodRefView.{lent_call};
ghost use Rattle.amqp_method.specs.Plain.{args_left_by};
ghost use Rattle.amqp_method.specs.Rows.{field_view};
ghost use Rattle.amqp_method.specs.Texts.{argument_text, field_text, fields_text, text_of_method, property_names, property_text, properties_text, text_of_header};

use crate::arg_ref::ArgRef;
use crate::args_ref::ArgsRef;
use crate::display::write_bit;
use crate::fields::Field;
use crate::header_ref::HeaderRef;
use crate::kinds::schema;
use crate::method_ref::MethodRef;
use crate::properties::{PROPERTIES, property_name};
use amqp_value::write_quoted;
use std::fmt;

fn write_arg_ref<W: fmt::Write>(f: &mut fmt::Formatter<W>, arg: ArgRef<'_>) -> fmt::Result
    ensures { WritesOnOk W.write_str_gives f.old result (argument_text (arg_ref_view arg.entry)) f.new }
{
    match arg {
        ArgRef::Bit(holds) => write_bit(f, holds),
        ArgRef::Octet(number) => write!(f, "{number}"),
        ArgRef::Short(number) => write!(f, "{number}"),
        ArgRef::Long(number) => write!(f, "{number}"),
        ArgRef::LongLong(number) => write!(f, "{number}"),
        ArgRef::ShortStr(octets) => write_quoted(f, octets),
        ArgRef::LongStr(octets) => write_quoted(f, octets),
        ArgRef::Table(table) => write!(f, "{table}"),
    }
}

/// The first of the arguments that are left with its field's name, unless the field is reserved.
fn write_field_ref<W: fmt::Write>(
    f: &mut fmt::Formatter<W>,
    field: &Field,
    args: ArgsRef<'_>,
) -> fmt::Result
    ensures { WritesOnOk W.write_str_gives f.old result
        (field_text field.now.reserved field.now.name.now (args_left args.entry)) f.new }
{
    if field.reserved {
        return Ok(());
    }
    let Some((arg, _)) = args.next_arg() else {
        return Ok(());
    };
    let name = field.name;
    write!(f, " {name}=")?;
    write_arg_ref(f, arg)
}

/// The arguments that are left after a field's: all of them, if it is reserved.
fn args_ref_after<'a>(field: &Field, args: ArgsRef<'a>) -> ArgsRef<'a>
    ensures { args_left result ≡ args_left_by field.now.reserved (args_left args.entry) }
{
    if field.reserved {
        return args;
    }
    match args.next_arg() {
        None => args,
        Some((_, others)) => others,
    }
}

/// The arguments, each with its field's name.
fn write_fields_ref<W: fmt::Write>(
    f: &mut fmt::Formatter<W>,
    fields: &[Field],
    args: ArgsRef<'_>,
) -> fmt::Result
    ensures { WritesOnOk W.write_str_gives f.old result
        (fields_text (map field_view fields.now) (args_left args.entry)) f.new }
{
    let mut left = args;
    for field in fields {
        write_field_ref(f, field, left)?;
        left = args_ref_after(field, left);
    }
    Ok(())
}

/// A property with its name after a space, if it is there.
fn write_property_ref<W: fmt::Write>(
    f: &mut fmt::Formatter<W>,
    name: &str,
    property: Option<ArgRef<'_>>,
) -> fmt::Result
    ensures { WritesOnOk W.write_str_gives f.old result
        (property_text name.now (property_ref_view property.entry)) f.new }
{
    let Some(value) = property else {
        return Ok(());
    };
    write!(f, " {name}=")?;
    write_arg_ref(f, value)
}

/// The properties that are there, each after a space.
fn write_properties_ref<W: fmt::Write>(
    f: &mut fmt::Formatter<W>,
    header: HeaderRef<'_>,
) -> fmt::Result
    ensures { WritesOnOk W.write_str_gives f.old result
        (properties_text property_names (lent_header header.entry).properties) f.new }
{
    for place in 0..PROPERTIES {
        write_property_ref(f, property_name(place), header.at(place))?;
    }
    Ok(())
}

/// Prints what an [`Arg`](crate::Arg) of the same value prints.
impl<'a> fmt::Display for ArgRef<'a> {
    ghost output = { λ arg. Some (argument_text (arg_ref_view arg)) };

    fn fmt<W: fmt::Write>(&self, f: &mut fmt::Formatter<W>) -> fmt::Result {
        write_arg_ref(f, *self)
    }
}

/// Prints what a [`Method`](crate::Method) of the same kind and arguments prints.
impl<'a> fmt::Display for MethodRef<'a> {
    ghost output = { λ m. Some (text_of_method (lent_call m)) };

    fn fmt<W: fmt::Write>(&self, f: &mut fmt::Formatter<W>) -> fmt::Result {
        let kind = self.kind();
        f.write_str(kind.name())?;
        write_fields_ref(f, schema(kind), self.args())
    }
}

/// Prints what a [`Header`](crate::Header) of the same size and properties prints.
impl<'a> fmt::Display for HeaderRef<'a> {
    ghost output = { λ h. Some (text_of_header (lent_header h)) };

    fn fmt<W: fmt::Write>(&self, f: &mut fmt::Formatter<W>) -> fmt::Result {
        let size = self.body_size();
        write!(f, "header size={size}")?;
        write_properties_ref(f, *self)
    }
}

impl<'a> fmt::Debug for ArgRef<'a> {
    /// As `Display` prints it.
    fn fmt<W: fmt::Write>(&self, f: &mut fmt::Formatter<W>) -> fmt::Result {
        fmt::Display::fmt(self, f)
    }
}

impl<'a> fmt::Debug for MethodRef<'a> {
    /// As `Display` prints it.
    fn fmt<W: fmt::Write>(&self, f: &mut fmt::Formatter<W>) -> fmt::Result {
        fmt::Display::fmt(self, f)
    }
}

impl<'a> fmt::Debug for HeaderRef<'a> {
    /// As `Display` prints it.
    fn fmt<W: fmt::Write>(&self, f: &mut fmt::Formatter<W>) -> fmt::Result {
        fmt::Display::fmt(self, f)
    }
}
