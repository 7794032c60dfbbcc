//! What is asked of a method, in the words of the model: a bit or a number by its place, 0 where there is none.
ghost use Rattle.std.specs.Prelude.{◌≡◌};
ghost use Rattle.amqp_method.specs.MethodRefView.{lent_call};
ghost use Rattle.amqp_model.specs.Wire.Methods.{bit_at as bit_held, number_at as number_held, same_kind};

use amqp_method::{ArgRef, Kind, MethodRef};

/// Whether two kinds are the same.
pub fn same(kind: Kind, other: Kind) -> bool
    ensures { result ≡ same_kind kind other }
{
    kind.class_id() == other.class_id() && kind.method_id() == other.method_id()
}

/// The bit at a place among the arguments of a method that lies in its payload; 0 where there is none.
#[inline(never)]
pub(crate) fn lent_bit_at(place: usize, method: MethodRef<'_>) -> bool
    ensures { result ≡ bit_held place (lent_call method.entry) }
{
    match method.bit_at(place) {
        Some(holds) => holds,
        None => false,
    }
}

/// The number at a place among the arguments of a method that lies in its payload; 0 where there is none.
pub fn lent_number_at(place: usize, method: MethodRef<'_>) -> u64
    ensures { result ≡ number_held place (lent_call method.entry) }
{
    match method.arg_at(place) {
        Some(ArgRef::Octet(number)) => u64::from(number),
        Some(ArgRef::Short(number)) => u64::from(number),
        Some(ArgRef::Long(number)) => u64::from(number),
        Some(ArgRef::LongLong(number)) => number,
        Some(ArgRef::Bit(_)) => 0,
        Some(ArgRef::ShortStr(_)) => 0,
        Some(ArgRef::LongStr(_)) => 0,
        Some(ArgRef::Table(_)) => 0,
        None => 0,
    }
}
