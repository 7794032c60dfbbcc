//! Reading what was checked: each part is cut off from the octets after it, and no fault can come.

ghost use Rattle.std.specs.Prelude.{◌≡◌, ◌≤◌, ◌<◌, ◌+◌, ◌∷◌, length, take, Ok};
ghost use Rattle.amqp_value.specs.Lent.{value_ref_view, octets_inside};
ghost use Rattle.amqp_value.specs.Reading.{name_at, counted, named, value_at, width_of, scalar_of};
ghost use Rattle.amqp_value.specs.Values.{scalar, pairs_of, table_depth};
ghost use Rattle.amqp_value.specs.Whole.{pairs_encoded, table_encoded, ArePairs, IsTable, BeginsName, BeginsCounted, BeginsPair, BeginsValue, Tagged};

use crate::array_ref::ArrayRef;
use crate::table_ref::TableRef;
use crate::tag::{ScalarTag, Tag, tag_from};
use crate::value_ref::ValueRef;
use byteorder::{BigEndian, ByteOrder};

/// The name that octets begin with, and the octets after it.
#[inline(always)]
pub fn split_name(octets: &[u8]) -> (&[u8], &[u8])
    requires { BeginsName octets.now }
    ensures read { name_at 0 octets.now ≡ Ok (result.0.now, result.1.now) }
    ensures short { length result.0.now ≤ 255 }
    ensures within { length result.1.now < length octets.now }
{
    let (length, after) = split_octet(octets);
    after.split_at(usize::from(length))
}

/// What a count of four octets counts, and the octets after it.
#[inline(always)]
pub fn split_counted(octets: &[u8]) -> (&[u8], &[u8])
    requires { BeginsCounted octets.now }
    ensures { counted 0 octets.now ≡ Ok (result.0.now, result.1.now) }
{
    let count = BigEndian::read_u32(octets) as usize;
    octets[4..].split_at(count)
}

/// What stands after the count of a table.
#[inline(always)]
pub fn after_count(table: &[u8]) -> &[u8]
    requires { IsTable table.now }
    ensures pairs { pairs_of (pairs_encoded result.now) ≡ table_encoded table.now }
    ensures whole { ArePairs result.now }
    ensures within { length result.now ≤ length table.now }
    ensures deep { table_depth (table_encoded table.now) ≤ 32 }
{
    &table[4..]
}

/// The value of fixed size that the octets after its tag are.
#[inline(always)]
pub fn scalar_ref(tag: ScalarTag, field: &[u8]) -> ValueRef<'_>
    requires { length field.now ≡ width_of tag }
    ensures value { value_ref_view result ≡ scalar (scalar_of tag field.now) }
    ensures flat { octets_inside result ≡ 0 }
{
    match tag {
        ScalarTag::Boolean => ValueRef::Boolean(field[0] != 0),
        ScalarTag::ShortShortInt => ValueRef::ShortShortInt(field[0].cast_signed()),
        ScalarTag::ShortShortUint => ValueRef::ShortShortUint(field[0]),
        ScalarTag::ErrataShortInt => ValueRef::ErrataShortInt(BigEndian::read_i16(field)),
        ScalarTag::ShortInt => ValueRef::ShortInt(BigEndian::read_i16(field)),
        ScalarTag::ShortUint => ValueRef::ShortUint(BigEndian::read_u16(field)),
        ScalarTag::LongInt => ValueRef::LongInt(BigEndian::read_i32(field)),
        ScalarTag::LongUint => ValueRef::LongUint(BigEndian::read_u32(field)),
        ScalarTag::ErrataLongLongInt => ValueRef::ErrataLongLongInt(BigEndian::read_i64(field)),
        ScalarTag::LongLongInt => ValueRef::LongLongInt(BigEndian::read_i64(field)),
        ScalarTag::Float => {
            let mut octets = [0; 4];
            octets.copy_from_slice(field);
            ValueRef::Float(octets)
        }
        ScalarTag::Double => {
            let mut octets = [0; 8];
            octets.copy_from_slice(field);
            ValueRef::Double(octets)
        }
        ScalarTag::Decimal => ValueRef::Decimal {
            scale: field[0],
            number: BigEndian::read_u32(&field[1..]),
        },
        ScalarTag::Timestamp => ValueRef::Timestamp(BigEndian::read_u64(field)),
        ScalarTag::Void => ValueRef::Void,
    }
}

/// The first of octets, and those after it.
#[inline(always)]
fn split_octet(octets: &[u8]) -> (u8, &[u8])
    requires { 0 < length octets.now }
    ensures { octets.now ≡ result.0 ∷ result.1.now }
{
    (octets[0], &octets[1..])
}

/// The tag that octets begin with, and the octets after it.
#[inline(always)]
pub fn split_tag(octets: &[u8]) -> (Tag, &[u8])
    requires { BeginsValue octets.now }
    ensures { Tagged octets.now result.0 result.1.now }
{
    let (octet, rest) = split_octet(octets);
    (tag_from(octet).unwrap(), rest)
}

/// The tag with its value that octets begin with, and the octets after it.
#[inline(always)]
pub fn split_value(octets: &[u8]) -> (ValueRef<'_>, &[u8])
    requires { BeginsValue octets.now }
    ensures read { value_at 31 0 octets.now ≡ Ok (value_ref_view result.0, result.1.now) }
    ensures inside { octets_inside result.0 < length octets.now }
{
    let (tag, rest) = split_tag(octets);
    match tag {
        Tag::Fixed(tag) => {
            let (field, after) = rest.split_at(tag.width());
            (scalar_ref(tag, field), after)
        }
        Tag::LongString => {
            let (text, after) = split_counted(rest);
            (ValueRef::LongString(text), after)
        }
        Tag::ByteArray => {
            let (octets, after) = split_counted(rest);
            (ValueRef::ByteArray(octets), after)
        }
        Tag::Array => {
            let (body, after) = split_counted(rest);
            (ValueRef::Array(ArrayRef::of_checked(body)), after)
        }
        Tag::Table => {
            let table = TableRef::of_checked(rest);
            (ValueRef::Table(table), &rest[table.octets().len()..])
        }
    }
}

/// The name with its value that octets begin with, and the octets after them.
#[inline(always)]
pub fn split_pair(octets: &[u8]) -> (&[u8], ValueRef<'_>, &[u8])
    requires { BeginsPair octets.now }
    ensures read { named (value_at 31) 0 octets.now ≡ Ok ((result.0.now, value_ref_view result.1), result.2.now) }
    ensures inside { octets_inside result.1 < length octets.now }
{
    let (name, field) = split_name(octets);
    let (value, after) = split_value(field);
    (name, value, after)
}
