//! How many octets a method or a content header is written in, without writing it.
ghost use Rattle.std.specs.Prelude.{◌≡◌, ◌+◌, length, map};
ghost use Rattle.amqp_value.specs.Lengths.{capped};
ghost use Rattle.amqp_method.specs.Arguments.{nothing, kind_of, long_string};
ghost use Rattle.amqp_method.specs.FirstFault.{bits_left_by as bits_left_by, left_by_bit};
ghost use Rattle.amqp_method.specs.HeaderView.{properties_view};
ghost use Rattle.amqp_method.specs.Lengths.{octets_of, octets_of_bit};
ghost use Rattle.amqp_method.specs.Lent.{value_view, lent_view, lent_views};
ghost use Rattle.amqp_method.specs.Plain.{plain_argument, plain_values, plain_property, plain_present, value_for, args_left_by, complete};
ghost use Rattle.amqp_method.specs.Rows.{field_view};
ghost use Rattle.amqp_method.specs.Views.{arg_view, args_view};

use crate::fields::{Arg, Field, FieldKind};
use crate::headers::Properties;
use crate::properties::{Lent, lent_properties};
use amqp_value::ShortStr;

/// The octets of values, and how many bits are left in the last of them.
#[derive(Clone, Copy)]
struct Counted {
    octets: u64,
    left: u8,
}

impl Counted {
    /// With a value that has octets of its own.
    fn with_octets(self, more: u64) -> Counted
        ensures octets { result.octets ≡ capped (self.octets + more) }
        ensures left { result.left ≡ 0 }
    {
        Counted {
            octets: self.octets.saturating_add(more),
            left: 0,
        }
    }

    /// With one bit more.
    #[tactic(auto, using(crate::proofs::LengthLemmas::bit_in_octet))]
    fn with_bit(self) -> Counted
        ensures octets { result.octets ≡ capped (self.octets + octets_of_bit self.left) }
        ensures left { result.left ≡ left_by_bit self.left }
    {
        if self.left == 0 {
            return Counted {
                octets: self.octets.saturating_add(1),
                left: 7,
            };
        }
        Counted {
            octets: self.octets,
            left: self.left - 1,
        }
    }
}

fn short_string_length(text: &ShortStr) -> u64
    ensures { result ≡ 1 + length text.now }
{
    1 + text.as_bytes().len() as u64
}

fn long_string_length(text: &[u8]) -> u64
    ensures { result ≡ capped (length (plain_argument (long_string text.now))) }
{
    4_u64.saturating_add(text.len() as u64)
}

/// The octets of a value that has octets of its own.
fn argument_length(arg: &Arg) -> u64
    ensures { result ≡ capped (length (plain_argument (arg_view arg.now))) }
{
    match arg {
        Arg::Bit(_) => 0,
        Arg::Octet(_) => 1,
        Arg::Short(_) => 2,
        Arg::Long(_) => 4,
        Arg::LongLong(_) => 8,
        Arg::ShortStr(text) => short_string_length(text),
        Arg::LongStr(text) => long_string_length(text),
        Arg::Table(table) => table.encoded_length(),
    }
}

/// The octets of the kind's zero, or of nothing.
fn zero_length(kind: FieldKind) -> u64
    ensures { result ≡ length (plain_argument (nothing kind)) }
{
    match kind {
        FieldKind::Bit => 0,
        FieldKind::Octet | FieldKind::ShortStr => 1,
        FieldKind::Short => 2,
        FieldKind::Long | FieldKind::LongStr | FieldKind::Table => 4,
        FieldKind::LongLong => 8,
    }
}

fn with_arg(before: Counted, arg: &Arg) -> Counted
    ensures octets { result.octets ≡ capped (before.octets + octets_of (arg_view arg.now) before.left) }
    ensures left { result.left ≡ bits_left_by (kind_of (arg_view arg.now)) before.left }
{
    if let Arg::Bit(_) = arg {
        return before.with_bit();
    }
    before.with_octets(argument_length(arg))
}

fn with_nothing(before: Counted, kind: FieldKind) -> Counted
    ensures octets { result.octets ≡ capped (before.octets + octets_of (nothing kind) before.left) }
    ensures left { result.left ≡ bits_left_by (kind_of (nothing kind)) before.left }
{
    if kind.is(FieldKind::Bit) {
        return before.with_bit();
    }
    before.with_octets(zero_length(kind))
}

/// The value of a field, of the arguments that are left, and those after it.
fn with_field<'a>(before: Counted, field: &Field, args: &'a [Arg]) -> (Counted, &'a [Arg])
    ensures octets { result.0.octets
        ≡ capped (before.octets + octets_of (value_for field.now.reserved field.now.kind
        (args_view args.now)) before.left) }
    ensures left { result.0.left
        ≡ bits_left_by (kind_of (value_for field.now.reserved field.now.kind (args_view args.now))) before.left }
    ensures after { args_view result.1.now ≡ args_left_by field.now.reserved (args_view args.now) }
{
    if field.reserved {
        return (with_nothing(before, field.kind), args);
    }
    match args.split_first() {
        None => (with_nothing(before, field.kind), args),
        Some((arg, others)) => (with_arg(before, arg), others),
    }
}

/// The octets of the arguments, each reserved field with them.
pub(crate) fn args_length(fields: &[Field], args: &[Arg]) -> u64
    ensures { result ≡ capped (length (plain_values (complete (map field_view fields.now) (args_view args.now)))) }
{
    let mut counted = Counted { octets: 0, left: 0 };
    let mut rest = args;
    for field in fields {
        let (next, others) = with_field(counted, field, rest);
        counted = next;
        rest = others;
    }
    counted.octets
}

fn lent_length(value: Lent) -> u64
    ensures { result ≡ capped (length (plain_argument (value_view value.entry))) }
{
    match value {
        Lent::Octet(_) => 1,
        Lent::LongLong(_) => 8,
        Lent::ShortStr(text) => short_string_length(text),
        Lent::Table(table) => table.encoded_length(),
    }
}

fn property_length(property: &Option<Lent>) -> u64
    ensures { result ≡ capped (length (plain_property (lent_view property.now))) }
{
    match property {
        Some(value) => lent_length(*value),
        None => 0,
    }
}

fn present_length(properties: &[Option<Lent>]) -> u64
    ensures { result ≡ capped (length (plain_present (lent_views properties.now))) }
{
    let mut octets = 0_u64;
    for property in properties {
        octets = octets.saturating_add(property_length(property));
    }
    octets
}

/// The octets of the properties that are there.
pub(crate) fn properties_length(properties: &Properties) -> u64
    ensures { result ≡ capped (length (plain_present (properties_view properties.now))) }
{
    present_length(&lent_properties(properties))
}
