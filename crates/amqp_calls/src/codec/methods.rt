//! Methods as C reads them.
ghost use Rattle.std.specs.Prelude.{◌≡◌, ◌<◌, length, map, take, drop, Some, IfSome, IfNone};
ghost use Rattle.amqp_method.specs.MethodRefs.{args_left};
ghost use Rattle.amqp_calls.specs.Methods.{kind_number};
ghost use Rattle.amqp_calls.specs.Values.{argument_there, all_there};

use crate::codec::values::Value;
use amqp_method::{ArgsRef, Kind};

/// The report of a method beside its fields: with status 0 its kind and how many fields it has, after a fault the
/// place.
#[repr(C)]
pub struct MethodRead {
    pub at: usize,
    pub count: usize,
    pub kind: u32,
}

/// The number of a kind: the class id in the upper 16 bits, the method id in the lower ones.
pub fn number_of(kind: Kind) -> u32
    ensures { result ≡ kind_number kind }
{
    u32::from(kind.class_id()) * 65536 + u32::from(kind.method_id())
}

/// Puts the arguments into the first of the fields, if there is room for all. The answer is how many they are.
pub fn fill<'a>(args: ArgsRef<'a>, fields: &mut [Value<'a>]) -> Option<usize>
    ensures filled { IfSome result (λ n. map argument_there (take n fields.new) ≡ all_there (args_left args.entry)) }
    ensures count { IfSome result (λ n. n ≡ length (args_left args.entry)) }
    ensures others { IfSome result (λ n. drop n fields.new ≡ drop n fields.old) }
    ensures room { IfNone result (length fields.old < length (args_left args.entry)) }
    ensures same { length fields.new ≡ length fields.old }
{
    let mut left = args;
    let mut count = 0;
    while let Some((arg, after)) = left.next_arg() {
        if count == fields.len() {
            return None;
        }
        fields[count] = Value::of_arg(arg);
        count += 1;
        left = after;
    }
    Some(count)
}
