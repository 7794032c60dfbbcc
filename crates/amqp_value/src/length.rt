//! How many octets a table is written in, without writing it.

ghost use Rattle.std.specs.Prelude.{◌≡◌, ◌+◌, length};
ghost use Rattle.amqp_value.specs.Fields.{plain_short_string, plain_long_string};
ghost use Rattle.amqp_value.specs.Lengths.{capped};
ghost use Rattle.amqp_value.specs.Plain.{plain_value, plain_items, plain_pairs, plain_table};
ghost use Rattle.amqp_value.specs.View.{view, items_view, pairs_view};

use crate::short_str::ShortStr;
use crate::values::Value;

/// The octets of a count.
const COUNT: u64 = 4;

/// So many octets, and so many after them.
fn followed_by(octets: u64, more: u64) -> u64
    ensures { result ≡ capped (octets + more) }
{
    octets.saturating_add(more)
}

/// A count, and the octets that it counts.
fn counted(octets: u64) -> u64
    ensures { result ≡ capped (4 + octets) }
{
    followed_by(COUNT, octets)
}

/// A length octet, and the octets of the name.
fn name_length(name: &ShortStr) -> u64
    ensures { result ≡ length (plain_short_string name.now) }
{
    1 + name.as_bytes().len() as u64
}

fn text_length(text: &[u8]) -> u64
    ensures { result ≡ capped (length (plain_long_string text.now)) }
{
    counted(text.len() as u64)
}

/// A tag, and octets as they are.
fn tagged(octets: &[u8]) -> u64
    ensures { result ≡ capped (1 + length octets.now) }
{
    followed_by(1, octets.len() as u64)
}

/// A tag with its value.
#[cycle(length)]
fn value_length(value: &Value) -> u64
    ensures { result ≡ capped (length (plain_value (view value.now))) }
{
    match value {
        Value::Boolean(_) => 2,
        Value::ShortShortInt(_) => 2,
        Value::ShortShortUint(_) => 2,
        Value::ErrataShortInt(_) => 3,
        Value::ShortInt(_) => 3,
        Value::ShortUint(_) => 3,
        Value::LongInt(_) => 5,
        Value::LongUint(_) => 5,
        Value::ErrataLongLongInt(_) => 9,
        Value::LongLongInt(_) => 9,
        Value::Float(octets) => tagged(octets),
        Value::Double(octets) => tagged(octets),
        Value::Decimal { .. } => 6,
        Value::Timestamp(_) => 9,
        Value::Void => 1,
        Value::LongString(text) => followed_by(1, text_length(text.as_bytes())),
        Value::ByteArray(octets) => followed_by(1, text_length(octets.as_bytes())),
        Value::Array(values) => followed_by(1, counted(items_length(values))),
        Value::Table(pairs) => followed_by(1, counted(pairs_length(pairs))),
    }
}

/// Tags with values, one after the other.
#[cycle(length)]
fn items_length(values: &[Value]) -> u64
    ensures { result ≡ capped (length (plain_items (items_view values.now))) }
{
    let mut octets = 0;
    for value in values {
        octets = followed_by(octets, value_length(value));
    }
    octets
}

/// Names and tags with values, one after the other.
#[cycle(length)]
fn pairs_length(pairs: &[(ShortStr, Value)]) -> u64
    ensures { result ≡ capped (length (plain_pairs (pairs_view pairs.now))) }
{
    let mut octets = 0;
    for pair in pairs {
        let named = followed_by(octets, name_length(&pair.0));
        octets = followed_by(named, value_length(&pair.1));
    }
    octets
}

/// A table without a tag: its count and its pairs.
pub(crate) fn table_length(pairs: &[(ShortStr, Value)]) -> u64
    ensures { result ≡ capped (length (plain_table (pairs_view pairs.now))) }
{
    counted(pairs_length(pairs))
}
