//! The ids at the start of a method's payload.
ghost use Rattle.std.specs.Prelude.{◌≡◌};
ghost use Rattle.amqp_method.specs.Ids.{kind_of_ids};

use crate::kinds::Kind;
use byteorder::{BigEndian, ByteOrder};

/// The kind that the first four octets of a payload name, if they name one. The arguments are not looked at.
pub fn peek_kind(payload: &[u8]) -> Option<Kind>
    ensures { result ≡ kind_of_ids payload.now }
{
    if payload.len() < 4 {
        return None;
    }
    let class = BigEndian::read_u16(payload);
    let id = BigEndian::read_u16(&payload[2..]);
    Kind::from_ids(class, id)
}
