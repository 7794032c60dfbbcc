//! The arguments of a method, made and taken apart.
ghost use Rattle.std.specs.Prelude.{◌≡◌, ◌↔◌, IfOk, IsSome, IsTrue, length, ◌∷◌, [], Some};
ghost use Rattle.amqp_method.specs.Arguments.{call, Fits, kind_of, wanted, bit as bit_argument, octet as octet_argument, short as short_argument, long as long_argument, long_long as long_long_argument, short_string, long_string};
ghost use Rattle.amqp_method.specs.HeaderView.{table_argument};
ghost use Rattle.amqp_method.specs.Kinds.{fields_of};
ghost use Rattle.amqp_method.specs.MethodView.{method_view};
ghost use Rattle.amqp_method.specs.Places.{argument_at};
ghost use Rattle.amqp_method.specs.Views.{arg_view, args_view};
ghost use Rattle.amqp_typed.specs.Kinds.{kind_at};

use amqp_method::{Arg, FieldKind, Kind, Method, OutOfMemory};
use amqp_value::{ShortStr, Table};
use std::alloc::Global;

/// The method of a kind with these arguments, which fit it.
pub(crate) fn method_of<const N: usize>(
    alloc: Global,
    kind: Kind,
    args: [Arg; N],
) -> Result<Method, OutOfMemory>
    requires { Fits (call kind (args_view args)) }
    ensures { IfOk result (λ m. method_view m ≡ call kind (args_view args.entry)) }
{
    let args = Vec::from_array(alloc, args)?;
    Ok(Method::new(kind, args))
}

/// The method of a kind that has no arguments.
pub(crate) fn bare_method(alloc: Global, kind: Kind) -> Method
    requires { Fits (call kind []) }
    ensures { method_view result ≡ call kind [] }
{
    Method::new(kind, Vec::new(alloc))
}

/// Whether the kinds are one.
pub(crate) fn is_same(kind: Kind, other: Kind) -> bool
    ensures { IsTrue result ↔ (kind ≡ other) }
{
    kind == other
}

/// Whether the method is of this kind.
pub(crate) fn is_kind(method: &Method, kind: Kind) -> bool
    ensures { IsTrue result ↔ ((method_view method.now).kind ≡ kind) }
{
    is_same(method.kind(), kind)
}

/// The arguments of a method of this kind.
pub(crate) fn own_args<const N: usize>(method: Method, kind: Kind) -> [Arg; N]
    requires { ((method_view method).kind ≡ kind) × (length (wanted (fields_of kind)) ≡ N) }
    ensures args { call kind (args_view result) ≡ method_view method }
    ensures fit { Fits (call kind (args_view result)) }
{
    let Ok(args) = <[Arg; N]>::try_from(method.into_args()) else {
        unreachable!()
    };
    args
}

/// The value of an argument of this kind.
pub(crate) fn bit(arg: Arg) -> bool
    requires { kind_of (arg_view arg) ≡ FieldKind.Bit }
    ensures { arg_view arg ≡ bit_argument result }
{
    let Arg::Bit(holds) = arg else { unreachable!() };
    holds
}

/// The value of an argument of this kind.
pub(crate) fn octet(arg: Arg) -> u8
    requires { kind_of (arg_view arg) ≡ FieldKind.Octet }
    ensures { arg_view arg ≡ octet_argument result }
{
    let Arg::Octet(number) = arg else {
        unreachable!()
    };
    number
}

/// The value of an argument of this kind.
pub(crate) fn short(arg: Arg) -> u16
    requires { kind_of (arg_view arg) ≡ FieldKind.Short }
    ensures { arg_view arg ≡ short_argument result }
{
    let Arg::Short(number) = arg else {
        unreachable!()
    };
    number
}

/// The value of an argument of this kind.
pub(crate) fn long(arg: Arg) -> u32
    requires { kind_of (arg_view arg) ≡ FieldKind.Long }
    ensures { arg_view arg ≡ long_argument result }
{
    let Arg::Long(number) = arg else {
        unreachable!()
    };
    number
}

/// The value of an argument of this kind.
pub(crate) fn long_long(arg: Arg) -> u64
    requires { kind_of (arg_view arg) ≡ FieldKind.LongLong }
    ensures { arg_view arg ≡ long_long_argument result }
{
    let Arg::LongLong(number) = arg else {
        unreachable!()
    };
    number
}

/// The value of an argument of this kind.
pub(crate) fn short_str(arg: Arg) -> ShortStr
    requires { kind_of (arg_view arg) ≡ FieldKind.ShortStr }
    ensures { arg_view arg ≡ short_string result }
{
    let Arg::ShortStr(text) = arg else {
        unreachable!()
    };
    text
}

/// The value of an argument of this kind.
pub(crate) fn long_str(arg: Arg) -> Vec<u8>
    requires { kind_of (arg_view arg) ≡ FieldKind.LongStr }
    ensures { arg_view arg ≡ long_string result.items }
{
    let Arg::LongStr(octets) = arg else {
        unreachable!()
    };
    octets
}

/// The value of an argument of this kind.
pub(crate) fn table(arg: Arg) -> Table
    requires { kind_of (arg_view arg) ≡ FieldKind.Table }
    ensures { arg_view arg ≡ table_argument result }
{
    let Arg::Table(table) = arg else {
        unreachable!()
    };
    table
}

/// The argument at a place.
fn arg_at(method: &Method, place: usize) -> &Arg
    requires { IsSome (kind_at place (method_view method.now)) }
    ensures arg { argument_at place (method_view method.now).args ≡ Some (arg_view result.now) }
    ensures kind { kind_at place (method_view method.now) ≡ Some (kind_of (arg_view result.now)) }
{
    let Some(arg) = method.arg_at(place) else {
        unreachable!()
    };
    arg
}

/// The argument at a place, which is of this kind.
pub(crate) fn bit_at(method: &Method, place: usize) -> bool
    requires { kind_at place (method_view method.now) ≡ Some FieldKind.Bit }
    ensures { argument_at place (method_view method.now).args ≡ Some (bit_argument result) }
{
    let Arg::Bit(holds) = arg_at(method, place) else {
        unreachable!()
    };
    *holds
}

/// The argument at a place, which is of this kind.
pub(crate) fn octet_at(method: &Method, place: usize) -> u8
    requires { kind_at place (method_view method.now) ≡ Some FieldKind.Octet }
    ensures { argument_at place (method_view method.now).args ≡ Some (octet_argument result) }
{
    let Arg::Octet(number) = arg_at(method, place) else {
        unreachable!()
    };
    *number
}

/// The argument at a place, which is of this kind.
pub(crate) fn short_at(method: &Method, place: usize) -> u16
    requires { kind_at place (method_view method.now) ≡ Some FieldKind.Short }
    ensures { argument_at place (method_view method.now).args ≡ Some (short_argument result) }
{
    let Arg::Short(number) = arg_at(method, place) else {
        unreachable!()
    };
    *number
}

/// The argument at a place, which is of this kind.
pub(crate) fn long_at(method: &Method, place: usize) -> u32
    requires { kind_at place (method_view method.now) ≡ Some FieldKind.Long }
    ensures { argument_at place (method_view method.now).args ≡ Some (long_argument result) }
{
    let Arg::Long(number) = arg_at(method, place) else {
        unreachable!()
    };
    *number
}

/// The argument at a place, which is of this kind.
pub(crate) fn long_long_at(method: &Method, place: usize) -> u64
    requires { kind_at place (method_view method.now) ≡ Some FieldKind.LongLong }
    ensures { argument_at place (method_view method.now).args ≡ Some (long_long_argument result) }
{
    let Arg::LongLong(number) = arg_at(method, place) else {
        unreachable!()
    };
    *number
}

/// The argument at a place, which is of this kind.
pub(crate) fn short_str_at(method: &Method, place: usize) -> &ShortStr
    requires { kind_at place (method_view method.now) ≡ Some FieldKind.ShortStr }
    ensures { argument_at place (method_view method.now).args ≡ Some (short_string result.now) }
{
    let Arg::ShortStr(text) = arg_at(method, place) else {
        unreachable!()
    };
    text
}

/// The argument at a place, which is of this kind.
pub(crate) fn long_str_at(method: &Method, place: usize) -> &[u8]
    requires { kind_at place (method_view method.now) ≡ Some FieldKind.LongStr }
    ensures { argument_at place (method_view method.now).args ≡ Some (long_string result.now) }
{
    let Arg::LongStr(octets) = arg_at(method, place) else {
        unreachable!()
    };
    octets.as_slice()
}

/// The argument at a place, which is of this kind.
pub(crate) fn table_at(method: &Method, place: usize) -> &Table
    requires { kind_at place (method_view method.now) ≡ Some FieldKind.Table }
    ensures { argument_at place (method_view method.now).args ≡ Some (table_argument result.now) }
{
    let Arg::Table(table) = arg_at(method, place) else {
        unreachable!()
    };
    table
}

/// The arguments of an array, each for itself. So are those of the functions below.
pub(crate) fn one(args: [Arg; 1]) -> Arg
    ensures { args ≡ result ∷ [] }
{
    let [a] = args;
    a
}

pub(crate) fn two(args: [Arg; 2]) -> (Arg, Arg)
    ensures { args ≡ result.0 ∷ result.1 ∷ [] }
{
    let [a, b] = args;
    (a, b)
}

pub(crate) fn three(args: [Arg; 3]) -> (Arg, Arg, Arg)
    ensures { args ≡ result.0 ∷ result.1 ∷ result.2 ∷ [] }
{
    let [a, b, c] = args;
    (a, b, c)
}

pub(crate) fn four(args: [Arg; 4]) -> (Arg, Arg, Arg, Arg)
    ensures { args ≡ result.0 ∷ result.1 ∷ result.2 ∷ result.3 ∷ [] }
{
    let [a, b, c, d] = args;
    (a, b, c, d)
}

pub(crate) fn five(args: [Arg; 5]) -> (Arg, Arg, Arg, Arg, Arg)
    ensures { args ≡ result.0 ∷ result.1 ∷ result.2 ∷ result.3 ∷ result.4 ∷ [] }
{
    let [a, b, c, d, e] = args;
    (a, b, c, d, e)
}

#[tactic(auto, using(crate::proofs::Arrays::items_7))]
pub(crate) fn seven(args: [Arg; 7]) -> (Arg, Arg, Arg, Arg, Arg, Arg, Arg)
    ensures { args ≡ result.0 ∷ result.1 ∷ result.2 ∷ result.3 ∷ result.4 ∷ result.5 ∷ result.6 ∷ [] }
{
    let [a, b, c, d, e, f, g] = args;
    (a, b, c, d, e, f, g)
}

#[tactic(auto, using(crate::proofs::Arrays::items_8))]
pub(crate) fn eight(args: [Arg; 8]) -> (Arg, Arg, Arg, Arg, Arg, Arg, Arg, Arg)
    ensures { args ≡ result.0 ∷ result.1 ∷ result.2 ∷ result.3 ∷ result.4 ∷ result.5 ∷ result.6 ∷ result.7 ∷ [] }
{
    let [a, b, c, d, e, f, g, h] = args;
    (a, b, c, d, e, f, g, h)
}
