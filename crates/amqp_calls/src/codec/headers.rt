//! Content headers as C reads them.
ghost use Rattle.std.specs.Prelude.{◌≡◌, ◌≤◌, length, map, take, drop};
ghost use Rattle.amqp_method.specs.HeaderRefView.{lent_header};
ghost use Rattle.amqp_method.specs.Properties.{property_kinds, HaveKinds};
ghost use Rattle.amqp_calls.specs.Headers.{long_long_there, octet_there, table_there, text_there};
ghost use Rattle.amqp_calls.specs.Values.{argument_there};

use crate::codec::values::{LONG_LONG, OCTET, SHORT_STRING, TABLE, Value};
use amqp_method::HeaderRef;
use amqp_value::TableRef;

/// How many properties a content has.
pub const PROPERTIES: usize = 14;

/// The report of a content header beside its properties: the size of the body and the flags; after a fault, the
/// place.
#[repr(C)]
pub struct HeaderRead {
    pub body_size: u64,
    pub at: usize,
    pub flags: u16,
}

fn text<'a>(found: Option<&'a [u8]>) -> Value<'a>
    ensures { argument_there result ≡ text_there found.entry }
{
    match found {
        Some(text) => Value::octets(SHORT_STRING, text),
        None => Value::none(),
    }
}

fn table<'a>(found: Option<TableRef<'a>>) -> Value<'a>
    ensures { argument_there result ≡ table_there found.entry }
{
    match found {
        Some(table) => Value::octets(TABLE, table.octets()),
        None => Value::none(),
    }
}

fn octet<'a>(found: Option<u8>) -> Value<'a>
    ensures { argument_there result ≡ octet_there found }
{
    match found {
        Some(number) => Value::number(OCTET, u64::from(number)),
        None => Value::none(),
    }
}

fn long_long<'a>(found: Option<u64>) -> Value<'a>
    ensures { argument_there result ≡ long_long_there found }
{
    match found {
        Some(number) => Value::number(LONG_LONG, number),
        None => Value::none(),
    }
}

/// The properties in the order of their flags; one that isn't there has no kind.
fn properties<'a>(header: HeaderRef<'a>) -> [Value<'a>; PROPERTIES]
    requires { HaveKinds (lent_header header).properties property_kinds }
    ensures { map argument_there result ≡ (lent_header header.entry).properties }
{
    [
        text(header.content_type()),
        text(header.content_encoding()),
        table(header.headers()),
        octet(header.delivery_mode()),
        octet(header.priority()),
        text(header.correlation_id()),
        text(header.reply_to()),
        text(header.expiration()),
        text(header.message_id()),
        long_long(header.timestamp()),
        text(header.type_name()),
        text(header.user_id()),
        text(header.app_id()),
        text(header.cluster_id()),
    ]
}

/// Puts the properties into the first fourteen of values.
pub fn tell_properties<'a>(header: HeaderRef<'a>, values: &mut [Value<'a>])
    requires kinds { HaveKinds (lent_header header).properties property_kinds }
    requires room { 14 ≤ length values.old }
    ensures properties { map argument_there (take 14 values.new) ≡ (lent_header header.entry).properties }
    ensures others { drop 14 values.new ≡ drop 14 values.old }
{
    let told = properties(header);
    values[..PROPERTIES].copy_from_slice(&told);
}
