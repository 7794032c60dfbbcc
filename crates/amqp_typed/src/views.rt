//! The arguments of a method that lies in its payload.
ghost use Rattle.std.specs.Prelude.{◌≡◌, ◌↔◌, IsSome, IsTrue, Some};
ghost use Rattle.amqp_value.specs.Lent.{table_ref_view};
ghost use Rattle.amqp_method.specs.ArgRefView.{arg_ref_view};
ghost use Rattle.amqp_method.specs.Arguments.{Fits, kind_of, bit, octet, short, long, long_long, short_string, long_string, table};
ghost use Rattle.amqp_method.specs.MethodRefView.{lent_call};
ghost use Rattle.amqp_method.specs.Places.{argument_at};
ghost use Rattle.amqp_typed.specs.Kinds.{kind_at};

use crate::args::is_same;
use amqp_method::{ArgRef, FieldKind, Kind, MethodRef};
use amqp_value::TableRef;

/// The kind of the method, which its arguments fit.
pub(crate) fn kind_in(method: MethodRef<'_>) -> Kind
    ensures kind { result ≡ (lent_call method.entry).kind }
    ensures fit { Fits (lent_call method.entry) }
{
    let _args = method.args();
    method.kind()
}

/// Whether the method is of this kind.
pub(crate) fn is_view_of(method: MethodRef<'_>, kind: Kind) -> bool
    ensures kind { IsTrue result ↔ ((lent_call method.entry).kind ≡ kind) }
    ensures fit { Fits (lent_call method.entry) }
{
    is_same(kind_in(method), kind)
}

/// The argument at a place.
fn arg_in<'a>(method: MethodRef<'a>, place: usize) -> ArgRef<'a>
    requires { IsSome (kind_at place (lent_call method)) }
    ensures arg { argument_at place (lent_call method.entry).args ≡ Some (arg_ref_view result) }
    ensures kind { kind_at place (lent_call method.entry) ≡ Some (kind_of (arg_ref_view result)) }
{
    let _args = method.args();
    let Some(arg) = method.arg_at(place) else {
        unreachable!()
    };
    arg
}

/// The argument at a place, which is of this kind.
pub(crate) fn bit_in(method: MethodRef<'_>, place: usize) -> bool
    requires { kind_at place (lent_call method) ≡ Some FieldKind.Bit }
    ensures { argument_at place (lent_call method.entry).args ≡ Some (bit result) }
{
    let ArgRef::Bit(value) = arg_in(method, place) else {
        unreachable!()
    };
    value
}

/// The argument at a place, which is of this kind.
pub(crate) fn octet_in(method: MethodRef<'_>, place: usize) -> u8
    requires { kind_at place (lent_call method) ≡ Some FieldKind.Octet }
    ensures { argument_at place (lent_call method.entry).args ≡ Some (octet result) }
{
    let ArgRef::Octet(value) = arg_in(method, place) else {
        unreachable!()
    };
    value
}

/// The argument at a place, which is of this kind.
pub(crate) fn short_in(method: MethodRef<'_>, place: usize) -> u16
    requires { kind_at place (lent_call method) ≡ Some FieldKind.Short }
    ensures { argument_at place (lent_call method.entry).args ≡ Some (short result) }
{
    let ArgRef::Short(value) = arg_in(method, place) else {
        unreachable!()
    };
    value
}

/// The argument at a place, which is of this kind.
pub(crate) fn long_in(method: MethodRef<'_>, place: usize) -> u32
    requires { kind_at place (lent_call method) ≡ Some FieldKind.Long }
    ensures { argument_at place (lent_call method.entry).args ≡ Some (long result) }
{
    let ArgRef::Long(value) = arg_in(method, place) else {
        unreachable!()
    };
    value
}

/// The argument at a place, which is of this kind.
pub(crate) fn long_long_in(method: MethodRef<'_>, place: usize) -> u64
    requires { kind_at place (lent_call method) ≡ Some FieldKind.LongLong }
    ensures { argument_at place (lent_call method.entry).args ≡ Some (long_long result) }
{
    let ArgRef::LongLong(value) = arg_in(method, place) else {
        unreachable!()
    };
    value
}

/// The argument at a place, which is of this kind.
pub(crate) fn short_str_in<'a>(method: MethodRef<'a>, place: usize) -> &'a [u8]
    requires { kind_at place (lent_call method) ≡ Some FieldKind.ShortStr }
    ensures { argument_at place (lent_call method.entry).args ≡ Some (short_string result.now) }
{
    let ArgRef::ShortStr(value) = arg_in(method, place) else {
        unreachable!()
    };
    value
}

/// The argument at a place, which is of this kind.
pub(crate) fn long_str_in<'a>(method: MethodRef<'a>, place: usize) -> &'a [u8]
    requires { kind_at place (lent_call method) ≡ Some FieldKind.LongStr }
    ensures { argument_at place (lent_call method.entry).args ≡ Some (long_string result.now) }
{
    let ArgRef::LongStr(value) = arg_in(method, place) else {
        unreachable!()
    };
    value
}

/// The argument at a place, which is of this kind.
pub(crate) fn table_in<'a>(method: MethodRef<'a>, place: usize) -> TableRef<'a>
    requires { kind_at place (lent_call method) ≡ Some FieldKind.Table }
    ensures { argument_at place (lent_call method.entry).args ≡ Some (table (table_ref_view result)) }
{
    let ArgRef::Table(value) = arg_in(method, place) else {
        unreachable!()
    };
    value
}
