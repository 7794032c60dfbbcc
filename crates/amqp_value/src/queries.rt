//! What a value holds, whichever of the tags for it it has.

ghost use Rattle.std.specs.Prelude.{◌≡◌, MatchOption, None, Some};
ghost use Rattle.amqp_value.specs.Pairs.{value_named};
ghost use Rattle.amqp_value.specs.Places.{StandsAt};
ghost use Rattle.amqp_value.specs.Queries.{truth_in, whole_in, natural_of, octets_in, items_in, pairs_in, value_in};
ghost use Rattle.amqp_value.specs.View.{view, items_view, pairs_view};

use crate::short_str::ShortStr;
use crate::values::Value;

/// The value of the first pair with a name.
pub(crate) fn find<'a>(pairs: &'a [(ShortStr, Value)], name: &[u8]) -> Option<&'a Value>
    ensures { MatchOption result (value_named name.now (pairs_view pairs.now) ≡ None)
        (λ value. value_named name.now (pairs_view pairs.now) ≡ Some (view value.now)) }
{
    for pair in pairs {
        if pair.0.as_bytes() == name {
            return Some(&pair.1);
        }
    }
    None
}

/// The place of the first pair with a name.
#[tactic(auto, using(crate::proofs::Places::none_after))]
pub(crate) fn place_of(pairs: &[(ShortStr, Value)], name: &[u8]) -> Option<usize>
    ensures { MatchOption result (value_named name.now (pairs_view pairs.now) ≡ None)
        (λ place. StandsAt name.now pairs.now place) }
{
    let mut place = 0;
    while place < pairs.len() {
        if pairs[place].0.as_bytes() == name {
            return Some(place);
        }
        place += 1;
    }
    None
}

impl Value {
    /// The truth value, if it is one.
    pub fn as_bool(&self) -> Option<bool>
        ensures { result ≡ truth_in (view self.now) }
    {
        match self {
            Value::Boolean(holds) => Some(*holds),
            Value::ShortShortInt(_)
            | Value::ShortShortUint(_)
            | Value::ErrataShortInt(_)
            | Value::ShortInt(_)
            | Value::ShortUint(_)
            | Value::LongInt(_)
            | Value::LongUint(_)
            | Value::ErrataLongLongInt(_)
            | Value::LongLongInt(_)
            | Value::Float(_)
            | Value::Double(_)
            | Value::Decimal { .. }
            | Value::Timestamp(_)
            | Value::Void
            | Value::LongString(_)
            | Value::ByteArray(_)
            | Value::Array(_)
            | Value::Table(_) => None,
        }
    }

    /// The whole number, signed or unsigned and of any width, if it is one. Each fits. A timestamp is none.
    pub fn as_i64(&self) -> Option<i64>
        ensures { result ≡ whole_in (view self.now) }
    {
        match self {
            Value::ShortShortInt(number) => Some(i64::from(*number)),
            Value::ShortShortUint(number) => Some(i64::from(*number)),
            Value::ErrataShortInt(number) => Some(i64::from(*number)),
            Value::ShortInt(number) => Some(i64::from(*number)),
            Value::ShortUint(number) => Some(i64::from(*number)),
            Value::LongInt(number) => Some(i64::from(*number)),
            Value::LongUint(number) => Some(i64::from(*number)),
            Value::ErrataLongLongInt(number) => Some(*number),
            Value::LongLongInt(number) => Some(*number),
            Value::Boolean(_)
            | Value::Float(_)
            | Value::Double(_)
            | Value::Decimal { .. }
            | Value::Timestamp(_)
            | Value::Void
            | Value::LongString(_)
            | Value::ByteArray(_)
            | Value::Array(_)
            | Value::Table(_) => None,
        }
    }

    /// The whole number, if it is one and not negative.
    pub fn as_u64(&self) -> Option<u64>
        ensures { result ≡ natural_of (whole_in (view self.now)) }
    {
        let number = self.as_i64()?;
        if number < 0 {
            return None;
        }
        Some(number as u64)
    }

    /// The octets of a long string or a byte array.
    pub fn as_bytes(&self) -> Option<&[u8]>
        ensures { MatchOption result (octets_in (view self.now) ≡ None)
            (λ octets. octets_in (view self.now) ≡ Some octets.now) }
    {
        match self {
            Value::LongString(octets) => Some(octets.as_bytes()),
            Value::ByteArray(octets) => Some(octets.as_bytes()),
            Value::Boolean(_)
            | Value::ShortShortInt(_)
            | Value::ShortShortUint(_)
            | Value::ErrataShortInt(_)
            | Value::ShortInt(_)
            | Value::ShortUint(_)
            | Value::LongInt(_)
            | Value::LongUint(_)
            | Value::ErrataLongLongInt(_)
            | Value::LongLongInt(_)
            | Value::Float(_)
            | Value::Double(_)
            | Value::Decimal { .. }
            | Value::Timestamp(_)
            | Value::Void
            | Value::Array(_)
            | Value::Table(_) => None,
        }
    }

    /// The values of an array, in order.
    pub fn as_array(&self) -> Option<&[Value]>
        ensures { MatchOption result (items_in (view self.now) ≡ None)
            (λ values. items_in (view self.now) ≡ Some (items_view values.now)) }
    {
        match self {
            Value::Array(values) => Some(values.as_slice()),
            Value::Boolean(_)
            | Value::ShortShortInt(_)
            | Value::ShortShortUint(_)
            | Value::ErrataShortInt(_)
            | Value::ShortInt(_)
            | Value::ShortUint(_)
            | Value::LongInt(_)
            | Value::LongUint(_)
            | Value::ErrataLongLongInt(_)
            | Value::LongLongInt(_)
            | Value::Float(_)
            | Value::Double(_)
            | Value::Decimal { .. }
            | Value::Timestamp(_)
            | Value::Void
            | Value::LongString(_)
            | Value::ByteArray(_)
            | Value::Table(_) => None,
        }
    }

    /// The pairs of a nested table, in order.
    pub fn as_table(&self) -> Option<&[(ShortStr, Value)]>
        ensures { MatchOption result (pairs_in (view self.now) ≡ None)
            (λ pairs. pairs_in (view self.now) ≡ Some (pairs_view pairs.now)) }
    {
        match self {
            Value::Table(pairs) => Some(pairs.as_slice()),
            Value::Boolean(_)
            | Value::ShortShortInt(_)
            | Value::ShortShortUint(_)
            | Value::ErrataShortInt(_)
            | Value::ShortInt(_)
            | Value::ShortUint(_)
            | Value::LongInt(_)
            | Value::LongUint(_)
            | Value::ErrataLongLongInt(_)
            | Value::LongLongInt(_)
            | Value::Float(_)
            | Value::Double(_)
            | Value::Decimal { .. }
            | Value::Timestamp(_)
            | Value::Void
            | Value::LongString(_)
            | Value::ByteArray(_)
            | Value::Array(_) => None,
        }
    }

    /// The value of the first pair with this name, where the value is a nested table that has one.
    pub fn get(&self, name: &[u8]) -> Option<&Value>
        ensures { MatchOption result (value_in name.now (view self.now) ≡ None)
            (λ value. value_in name.now (view self.now) ≡ Some (view value.now)) }
    {
        find(self.as_table()?, name)
    }
}
