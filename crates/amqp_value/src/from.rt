//! Values out of plain numbers, strings and tables, and tables out of values. Nothing here takes memory.

ghost use Rattle.std.specs.Prelude.{◌≡◌, ◌≤◌, IsTrue, IsOk, IfOk, IfErr};
ghost use Rattle.std.specs.String.{string_bytes};
ghost use Rattle.amqp_value.specs.Pairs.{is_table};
ghost use Rattle.amqp_value.specs.Tables.{table_view};
ghost use Rattle.amqp_value.specs.Values.{boolean, short_short_int, short_short_uint, errata_short_int, short_uint, long_int, long_uint, errata_long_long_int, scalar, long_string, table as table_datum, depth};
ghost use Rattle.amqp_value.specs.View.{view};

use crate::tables::{MAX_DEPTH, Table};
use crate::values::{Value, nests_within};

impl From<bool> for Value {
    ghost from_gives = { λ x v. view v ≡ scalar (boolean x) };

    fn from(holds: bool) -> Value {
        Value::Boolean(holds)
    }
}

impl From<i8> for Value {
    ghost from_gives = { λ x v. view v ≡ scalar (short_short_int x) };

    fn from(number: i8) -> Value {
        Value::ShortShortInt(number)
    }
}

impl From<u8> for Value {
    ghost from_gives = { λ x v. view v ≡ scalar (short_short_uint x) };

    fn from(number: u8) -> Value {
        Value::ShortShortUint(number)
    }
}

impl From<i16> for Value {
    ghost from_gives = { λ x v. view v ≡ scalar (errata_short_int x) };

    /// With the tag `s`, the one of 16 signed bits that RabbitMQ reads.
    fn from(number: i16) -> Value {
        Value::ErrataShortInt(number)
    }
}

impl From<u16> for Value {
    ghost from_gives = { λ x v. view v ≡ scalar (short_uint x) };

    fn from(number: u16) -> Value {
        Value::ShortUint(number)
    }
}

impl From<i32> for Value {
    ghost from_gives = { λ x v. view v ≡ scalar (long_int x) };

    fn from(number: i32) -> Value {
        Value::LongInt(number)
    }
}

impl From<u32> for Value {
    ghost from_gives = { λ x v. view v ≡ scalar (long_uint x) };

    fn from(number: u32) -> Value {
        Value::LongUint(number)
    }
}

impl From<i64> for Value {
    ghost from_gives = { λ x v. view v ≡ scalar (errata_long_long_int x) };

    /// With the tag `l`, the one of 64 signed bits that RabbitMQ reads.
    fn from(number: i64) -> Value {
        Value::ErrataLongLongInt(number)
    }
}

impl From<Vec<u8>> for Value {
    ghost from_gives = { λ x v. view v ≡ long_string x.items };

    /// A long string of these octets.
    fn from(octets: Vec<u8>) -> Value {
        Value::LongString(octets.into())
    }
}

impl From<String> for Value {
    ghost from_gives = { λ x v. view v ≡ long_string (string_bytes x) };

    /// A long string.
    fn from(text: String) -> Value {
        Value::LongString(text.into_bytes().into())
    }
}

impl From<Table> for Value {
    ghost from_gives = { λ x v. view v ≡ table_datum (table_view x) };

    /// The table as a value, to stand in another table or in an array.
    fn from(table: Table) -> Value {
        Value::Table(table.into_pairs())
    }
}

impl Value {
    /// The table that the value is. A value that is no table, or that nests deeper than [`MAX_DEPTH`], is given back.
    pub fn into_table(self) -> Result<Table, Value>
        ensures table { IfOk result (λ t. table_datum (table_view t) ≡ view self) }
        ensures when { IsTrue (is_table (view self)) → depth (view self) ≤ 32 → IsOk result }
        ensures same { IfErr result (λ v. view v ≡ view self) }
    {
        let shallow = nests_within(&self, MAX_DEPTH);
        match self {
            Value::Table(pairs) => {
                if shallow {
                    Ok(Table::of_checked(pairs))
                } else {
                    Err(Value::Table(pairs))
                }
            }
            Value::Boolean(holds) => Err(Value::Boolean(holds)),
            Value::ShortShortInt(number) => Err(Value::ShortShortInt(number)),
            Value::ShortShortUint(number) => Err(Value::ShortShortUint(number)),
            Value::ErrataShortInt(number) => Err(Value::ErrataShortInt(number)),
            Value::ShortInt(number) => Err(Value::ShortInt(number)),
            Value::ShortUint(number) => Err(Value::ShortUint(number)),
            Value::LongInt(number) => Err(Value::LongInt(number)),
            Value::LongUint(number) => Err(Value::LongUint(number)),
            Value::ErrataLongLongInt(number) => Err(Value::ErrataLongLongInt(number)),
            Value::LongLongInt(number) => Err(Value::LongLongInt(number)),
            Value::Float(octets) => Err(Value::Float(octets)),
            Value::Double(octets) => Err(Value::Double(octets)),
            Value::Decimal { scale, number } => Err(Value::Decimal { scale, number }),
            Value::Timestamp(number) => Err(Value::Timestamp(number)),
            Value::Void => Err(Value::Void),
            Value::LongString(octets) => Err(Value::LongString(octets)),
            Value::ByteArray(octets) => Err(Value::ByteArray(octets)),
            Value::Array(values) => Err(Value::Array(values)),
        }
    }
}
