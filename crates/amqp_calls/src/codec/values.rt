//! A value as it crosses to C.
ghost use Rattle.std.specs.Prelude.{◌≡◌, length, Some};

use amqp_method::ArgRef;
use amqp_value::ValueRef;
use byteorder::{BigEndian, ByteOrder};

/// The kinds of what isn't there, and of a method's fields.
pub(crate) const NONE: u8 = 0;

pub(crate) const BIT: u8 = 1;

pub(crate) const OCTET: u8 = 2;

pub(crate) const SHORT: u8 = 3;

pub(crate) const LONG: u8 = 4;

pub(crate) const LONG_LONG: u8 = 5;

pub(crate) const SHORT_STRING: u8 = 6;

pub(crate) const LONG_STRING: u8 = 7;

pub(crate) const TABLE: u8 = 8;

/// A value as it crosses to C: its kind, a number, and octets that are lent.
///
/// The kind of a method's argument or of a property is one of those above, the kind of a value in a table its tag
/// octet. A number, or a truth value as 0 or 1, stands in `number`, a signed one in two's complement, a float by its
/// bits; a decimal's scale in `scale`. A string's octets stand in `octets`, as do a table's with its count, and an
/// array's without.
#[repr(C)]
#[derive(Clone, Copy)]
pub struct Value<'a> {
    pub octets: &'a [u8],
    pub number: u64,
    pub kind: u8,
    pub scale: u8,
}

impl<'a> Value<'a> {
    ghost use Rattle.amqp_method.specs.ArgRefView.{arg_ref_view};
    ghost use Rattle.amqp_method.specs.Arguments.{table};
    ghost use Rattle.amqp_value.specs.Lent.{value_ref_view};
    ghost use Rattle.byteorder.specs.Endian.{big_bytes};
    ghost use Rattle.std.specs.Int.{w64, cast_signed};
    ghost use Rattle.amqp_calls.specs.Values.{argument_there, datum_there};

    /// What isn't there.
    pub(crate) fn none() -> Value<'a>
        ensures { result.kind ≡ 0 }
    {
        Value::number(NONE, 0)
    }

    pub(crate) fn number(kind: u8, number: u64) -> Value<'a>
        ensures kind { result.kind ≡ kind }
        ensures number { result.number ≡ number }
    {
        Value {
            octets: &[],
            number,
            kind,
            scale: 0,
        }
    }

    pub(crate) fn octets(kind: u8, octets: &'a [u8]) -> Value<'a>
        ensures kind { result.kind ≡ kind }
        ensures octets { result.octets.now ≡ octets.now }
    {
        Value {
            octets,
            number: 0,
            kind,
            scale: 0,
        }
    }

    /// A signed number.
    fn signed(tag: u8, number: i64) -> Value<'a>
        ensures kind { result.kind ≡ tag }
        ensures number { cast_signed w64 result.number ≡ number }
    {
        Value::number(tag, number.cast_unsigned())
    }

    /// Four octets that are read as a number.
    fn float(octets: &[u8]) -> Value<'a>
        requires { length octets.now ≡ 4 }
        ensures kind { result.kind ≡ 102 }
        ensures octets { big_bytes 4 result.number ≡ octets.now }
    {
        Value::number(b'f', u64::from(BigEndian::read_u32(octets)))
    }

    /// Eight octets that are read as a number.
    fn double(octets: &[u8]) -> Value<'a>
        requires { length octets.now ≡ 8 }
        ensures kind { result.kind ≡ 100 }
        ensures octets { big_bytes 8 result.number ≡ octets.now }
    {
        Value::number(b'd', BigEndian::read_u64(octets))
    }

    /// The value of a pair or of an array.
    pub fn of_value(value: ValueRef<'a>) -> Value<'a>
        ensures { datum_there result ≡ Some (value_ref_view value.entry) }
    {
        match value {
            ValueRef::Boolean(holds) => Value::number(b't', u64::from(holds)),
            ValueRef::ShortShortInt(number) => Value::signed(b'b', i64::from(number)),
            ValueRef::ShortShortUint(number) => Value::number(b'B', u64::from(number)),
            ValueRef::ErrataShortInt(number) => Value::signed(b's', i64::from(number)),
            ValueRef::ShortInt(number) => Value::signed(b'U', i64::from(number)),
            ValueRef::ShortUint(number) => Value::number(b'u', u64::from(number)),
            ValueRef::LongInt(number) => Value::signed(b'I', i64::from(number)),
            ValueRef::LongUint(number) => Value::number(b'i', u64::from(number)),
            ValueRef::ErrataLongLongInt(number) => Value::signed(b'l', number),
            ValueRef::LongLongInt(number) => Value::signed(b'L', number),
            ValueRef::Float(octets) => Value::float(&octets),
            ValueRef::Double(octets) => Value::double(&octets),
            ValueRef::Decimal { scale, number } => Value {
                octets: &[],
                number: u64::from(number),
                kind: b'D',
                scale,
            },
            ValueRef::Timestamp(number) => Value::number(b'T', number),
            ValueRef::Void => Value::number(b'V', 0),
            ValueRef::LongString(octets) => Value::octets(b'S', octets),
            ValueRef::ByteArray(octets) => Value::octets(b'x', octets),
            ValueRef::Array(values) => Value::octets(b'A', values.body()),
            ValueRef::Table(pairs) => Value::octets(b'F', pairs.octets()),
        }
    }

    /// The value of an argument.
    pub(crate) fn of_arg(arg: ArgRef<'a>) -> Value<'a>
        ensures { argument_there result ≡ Some (arg_ref_view arg.entry) }
    {
        match arg {
            ArgRef::Bit(holds) => Value::number(BIT, u64::from(holds)),
            ArgRef::Octet(number) => Value::number(OCTET, u64::from(number)),
            ArgRef::Short(number) => Value::number(SHORT, u64::from(number)),
            ArgRef::Long(number) => Value::number(LONG, u64::from(number)),
            ArgRef::LongLong(number) => Value::number(LONG_LONG, number),
            ArgRef::ShortStr(text) => Value::octets(SHORT_STRING, text),
            ArgRef::LongStr(text) => Value::octets(LONG_STRING, text),
            ArgRef::Table(table) => Value::octets(TABLE, table.octets()),
        }
    }
}
