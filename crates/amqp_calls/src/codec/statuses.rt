//! The statuses of what can be wrong with octets.
ghost use Rattle.std.specs.Prelude.{◌≡◌};
ghost use Rattle.amqp_calls.specs.CodecStatuses.{method_status, value_status};

use amqp_method::MethodFaultKind;
use amqp_value::ValueFaultKind;

/// The status of a method's fault is this and the fault's number.
const METHOD_FAULTS: u32 = 200;

/// The status of a field value's fault is this and the fault's number.
const VALUE_FAULTS: u32 = 300;

/// There is less room than what is to be put into it.
pub const NO_ROOM: u32 = 7;

/// A table has no pair with the name that is asked for.
pub const NOT_THERE: u32 = 8;

/// A value isn't one for its field, or there is one too few or too many.
pub(crate) const MISFIT: u32 = 9;

/// The status of a fault in a field value or in a table.
pub fn value_fault(kind: ValueFaultKind) -> u32
    ensures { result ≡ value_status kind }
{
    VALUE_FAULTS + u32::from(kind.number())
}

/// The status of a fault in a method or a header. One in a field value has the status of that value's fault.
pub fn method_fault(kind: MethodFaultKind) -> u32
    ensures { result ≡ method_status kind }
{
    match kind {
        MethodFaultKind::Value(kind) => value_fault(kind),
        MethodFaultKind::UnknownMethod => METHOD_FAULTS + 1,
        MethodFaultKind::Trailing => METHOD_FAULTS + 3,
        MethodFaultKind::BadWeight => METHOD_FAULTS + 4,
        MethodFaultKind::BadFlags => METHOD_FAULTS + 5,
        MethodFaultKind::OutOfMemory => METHOD_FAULTS + 6,
    }
}
