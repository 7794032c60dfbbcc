//! What a piece gave that was fed to an end.
ghost use Rattle.std.specs.Prelude.{◌≡◌};
ghost use Rattle.amqp_calls.specs.EndNumbers.{core_status};
ghost use Rattle.amqp_calls.specs.Feeding.{TellsCode};

use amqp_core::CoreFault;

/// The status of an end's fault is this and the fault's number.
const CORE_FAULTS: u32 = 400;

pub(crate) const OUT_OF_MEMORY: u32 = 403;

pub(crate) const FAILED: u32 = 404;

/// What a piece gave, as it crosses to C.
///
/// With status 0, `taken` says how many octets were taken, and `kind`, which a batch leaves, is that of the event, or 0
/// where there was none. After a fault of the other end, `code` is that of the close.
#[repr(C)]
pub struct FedEnd {
    pub taken: usize,
    pub code: u16,
    pub kind: u8,
}

/// The status of a fault, and the code of the close that was put.
pub(crate) fn tell_fault(fault: CoreFault, out: &mut FedEnd) -> u32
    ensures status { result ≡ core_status fault }
    ensures code { TellsCode fault out.new.code }
    ensures taken { out.new.taken ≡ out.old.taken }
{
    match fault {
        CoreFault::Peer(code) => {
            out.code = code.number();
            CORE_FAULTS + 1
        }
        CoreFault::Fatal => CORE_FAULTS + 2,
        CoreFault::OutOfMemory => CORE_FAULTS + 3,
        CoreFault::Failed => CORE_FAULTS + 4,
        CoreFault::Closed => CORE_FAULTS + 5,
    }
}
