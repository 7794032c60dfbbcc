//! What stands before the properties of a content header.
ghost use Rattle.std.specs.Prelude.{◌≡◌, drop, IfOk, IfErr, Err};
ghost use Rattle.byteorder.specs.Endian.{big_number};
ghost use Rattle.amqp_method.specs.HeaderChecking.{Starts};
ghost use Rattle.amqp_method.specs.HeaderReading.{header_at};

use crate::faults::{MethodFault, MethodFaultKind};
use crate::field_octets::{read_long_long, read_short};

/// The class of each content header, basic (section 4.2.6.1).
pub(crate) const BASIC: u16 = 60;

/// How many octets stand before the properties: class, weight, body size and flags.
pub(crate) const START_LENGTH: usize = 14;

/// The size of the body, and the flags of the properties.
#[derive(Clone, Copy)]
pub(crate) struct Start {
    pub(crate) body_size: u64,
    pub(crate) flags: u16,
}

/// The class, which is 60, the weight, which is 0, the size of the body and the flags.
#[inline(always)]
#[tactic(auto, unfolding(crate::specs::HeaderReading::header_at))]
pub(crate) fn read_start(payload: &[u8]) -> Result<Start, MethodFault>
    ensures starts { IfOk result (λ start. Starts payload.now start.body_size start.flags) }
    ensures flags { IfOk result (λ start. start.flags ≡ big_number 2 (drop 12 payload.now)) }
    ensures err { IfErr result (λ e. header_at payload.now ≡ Err e) }
{
    let end = payload.len();
    let (class, after) = read_short(payload, end)?;
    if class != BASIC {
        return Err(MethodFault {
            at: 0,
            kind: MethodFaultKind::UnknownMethod,
        });
    }
    let (weight, after) = read_short(after, end)?;
    if weight != 0 {
        return Err(MethodFault {
            at: 2,
            kind: MethodFaultKind::BadWeight,
        });
    }
    let (body_size, after) = read_long_long(after, end)?;
    let (flags, _) = read_short(after, end)?;
    if flags % 4 != 0 {
        return Err(MethodFault {
            at: 12,
            kind: MethodFaultKind::BadFlags,
        });
    }
    Ok(Start { body_size, flags })
}
