//! Whether arguments, methods and content headers that are lent are the same.
ghost use Rattle.std.specs.Prelude.{◌≡◌};
ghost use Rattle.amqp_method.specs.Same.{same_argument, same_arguments, same_property as alike_property, same_properties as alike_properties};
ghost use Rattle.amqp_method.specs.ArgRefView.{arg_ref_view};
ghost use Rattle.amqp_method.specs.HeaderRefView.{lent_header, property_ref_view};
ghost use Rattle.amqp_method.specs.MethodRefs.{args_left};

use crate::arg_ref::ArgRef;
use crate::args_ref::ArgsRef;
use crate::header_ref::HeaderRef;
use crate::method_ref::MethodRef;
use crate::properties::PROPERTIES;

impl<'a> PartialEq for ArgRef<'a> {
    ghost use Rattle.std.specs.Cmp.{partial_equiv_from_equiv, on_equiv};
    ghost use Rattle.std.specs.Ordering.{on};
    ghost use Rattle.amqp_method.specs.Same.{same_argument};
    ghost use Rattle.amqp_method.specs.ArgRefView.{arg_ref_view};
    ghost use Rattle.amqp_method.specs.Equality.{argument_equiv};

    ghost eq = { on arg_ref_view same_argument };

    ghost laws = { partial_equiv_from_equiv (on_equiv arg_ref_view argument_equiv) };

    /// Whether they have one kind and the same content: tables are compared pair by pair.
    fn eq(&self, other: &ArgRef<'a>) -> bool {
        match *self {
            ArgRef::Bit(held) => matches!(*other, ArgRef::Bit(holds) if held == holds),
            ArgRef::Octet(held) => matches!(*other, ArgRef::Octet(n) if held == n),
            ArgRef::Short(held) => matches!(*other, ArgRef::Short(n) if held == n),
            ArgRef::Long(held) => matches!(*other, ArgRef::Long(n) if held == n),
            ArgRef::LongLong(held) => matches!(*other, ArgRef::LongLong(n) if held == n),
            ArgRef::ShortStr(held) => matches!(*other, ArgRef::ShortStr(text) if held == text),
            ArgRef::LongStr(held) => matches!(*other, ArgRef::LongStr(text) if held == text),
            ArgRef::Table(held) => matches!(*other, ArgRef::Table(table) if held == table),
        }
    }
}

impl<'a> Eq for ArgRef<'a> {
    ghost use Rattle.std.specs.Cmp.{on_equiv};
    ghost use Rattle.amqp_method.specs.ArgRefView.{arg_ref_view};
    ghost use Rattle.amqp_method.specs.Equality.{argument_equiv};

    ghost laws = { on_equiv arg_ref_view argument_equiv };
}

/// Whether arguments are the same, each as the other at its place.
fn same_args(args: ArgsRef<'_>, other: ArgsRef<'_>) -> bool
    ensures { result ≡ same_arguments (args_left args.entry) (args_left other.entry) }
{
    let mut left = args;
    let mut beside = other;
    while let Some((arg, after)) = left.next_arg() {
        let Some((held, behind)) = beside.next_arg() else {
            return false;
        };
        if arg != held {
            return false;
        }
        left = after;
        beside = behind;
    }
    beside.next_arg().is_none()
}

impl<'a> PartialEq for MethodRef<'a> {
    ghost use Rattle.std.specs.Cmp.{partial_equiv_from_equiv, on_equiv};
    ghost use Rattle.std.specs.Ordering.{on};
    ghost use Rattle.amqp_method.specs.Same.{same_call};
    ghost use Rattle.amqp_method.specs.Equality.{call_equiv};
    ghost use Rattle.amqp_method.specs.MethodRefView.{lent_call};

    ghost eq = { on lent_call same_call };

    ghost laws = { partial_equiv_from_equiv (on_equiv lent_call call_equiv) };

    /// Whether they have one kind and the same arguments, however these are encoded. Reserved fields don't count.
    fn eq(&self, other: &MethodRef<'a>) -> bool {
        self.kind().is_same(other.kind()) && same_args(self.args(), other.args())
    }
}

impl<'a> Eq for MethodRef<'a> {
    ghost use Rattle.std.specs.Cmp.{on_equiv};
    ghost use Rattle.amqp_method.specs.Equality.{call_equiv};
    ghost use Rattle.amqp_method.specs.MethodRefView.{lent_call};

    ghost laws = { on_equiv lent_call call_equiv };
}

/// Whether both properties are there with the same value, or neither is.
fn same_property(property: Option<ArgRef<'_>>, other: Option<ArgRef<'_>>) -> bool
    ensures { result ≡ alike_property (property_ref_view property.entry) (property_ref_view other.entry) }
{
    match property {
        None => other.is_none(),
        Some(value) => matches!(other, Some(held) if value == held),
    }
}

/// Whether two headers have the same properties.
fn same_properties(header: HeaderRef<'_>, other: HeaderRef<'_>) -> bool
    ensures { result ≡ alike_properties (lent_header header.entry).properties (lent_header other.entry).properties }
{
    for place in 0..PROPERTIES {
        if !same_property(header.at(place), other.at(place)) {
            return false;
        }
    }
    true
}

impl<'a> PartialEq for HeaderRef<'a> {
    ghost use Rattle.std.specs.Cmp.{partial_equiv_from_equiv, on_equiv};
    ghost use Rattle.std.specs.Ordering.{on};
    ghost use Rattle.amqp_method.specs.Same.{same_header};
    ghost use Rattle.amqp_method.specs.Equality.{header_equiv};
    ghost use Rattle.amqp_method.specs.HeaderRefView.{lent_header};

    ghost eq = { on lent_header same_header };

    ghost laws = { partial_equiv_from_equiv (on_equiv lent_header header_equiv) };

    /// Whether they have one body size and the same properties, however these are encoded.
    fn eq(&self, other: &HeaderRef<'a>) -> bool {
        self.body_size() == other.body_size() && same_properties(*self, *other)
    }
}

impl<'a> Eq for HeaderRef<'a> {
    ghost use Rattle.std.specs.Cmp.{on_equiv};
    ghost use Rattle.amqp_method.specs.Equality.{header_equiv};
    ghost use Rattle.amqp_method.specs.HeaderRefView.{lent_header};

    ghost laws = { on_equiv lent_header header_equiv };
}
