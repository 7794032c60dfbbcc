//! Content headers that were not checked before, checked and built in one walk.
//!
//! Most long headers have one property, a table of headers. To check such a table, and then to build it of octets that
//! are known, is to go over it twice.
ghost use Rattle.std.specs.Prelude.{◌≡◌, ℕ, [], Ok, IfSome};
ghost use Rattle.amqp_method.specs.HeaderReading.{header_at, properties_at};
ghost use Rattle.amqp_method.specs.HeaderRefView.{lent_header, lent_header_payload};
ghost use Rattle.amqp_method.specs.HeaderView.{headers_alone};
ghost use Rattle.amqp_method.specs.Properties.{property_kinds};

use crate::header_ref::HeaderRef;
use crate::header_start::{START_LENGTH, read_start};
use amqp_value::Table;
use std::alloc::Global;

/// The flags of a header with a table of headers, and no other property.
const HEADERS_ALONE: u16 = 8192;

/// The header that a payload encodes, and its table of headers, which is its only property if it has any. The header is
/// checked, and its table built, in one walk.
///
/// None for any other header, where the payload encodes none, and out of memory: [`HeaderRef::new`] tells which it was.
#[inline(never)]
pub fn read_headers<'a>(alloc: Global, payload: &'a [u8]) -> Option<(HeaderRef<'a>, Option<Table>)>
    ensures payload { IfSome result (λ x. lent_header_payload x.0 ≡ payload.now) }
    ensures read { IfSome result (λ x. header_at payload.now ≡ Ok (lent_header x.0)) }
    ensures alone { IfSome result (λ x. (lent_header x.0).properties ≡ headers_alone x.1) }
{
    let Ok(start) = read_start(payload) else {
        return None;
    };
    let (_, octets) = payload.split_at(START_LENGTH);
    let headers = read_alone(alloc, start.flags, octets)?;
    let header = HeaderRef::of_read(payload, start);
    Some((header, headers))
}

/// The table of headers that these octets are, whole, where by the flags it is the only property; and none where there
/// is no property and no octet.
#[inline(always)]
fn read_alone(alloc: Global, flags: u16, octets: &[u8]) -> Option<Option<Table>>
    ensures { IfSome result (λ headers. (end : ℕ)
        → properties_at property_kinds flags end octets.now ≡ Ok (headers_alone headers, [])) }
{
    if flags == 0 && octets.is_empty() {
        return Some(None);
    }
    if flags != HEADERS_ALONE {
        return None;
    }
    let mut table = Table::new(alloc);
    let size = table.read_from(alloc, octets)?;
    if size != octets.len() {
        return None;
    }
    Some(Some(table))
}
