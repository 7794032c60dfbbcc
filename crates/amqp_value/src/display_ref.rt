//! Values and tables that are lent, in a format string: the texts of those that own what they hold, without memory.

ghost use Rattle.std.specs.Prelude.{◌≡◌, ◌++◌, codes, Some};
ghost use Rattle.std.specs.Fmt.{WritesOnOk};
ghost use Rattle.amqp_value.specs.Lent.{value_ref_view, array_ref_view, table_ref_view};
ghost use Rattle.amqp_value.specs.Text.{quoted, value_text, items_text, pairs_text, text_of_table};
ghost use Rattle.amqp_value.specs.Values.{array, items_of, pairs_of};
ghost use Rattle.amqp_value.specs.Whole.{items_encoded, pairs_encoded, AreItems, ArePairs};

use crate::array_ref::ArrayRef;
use crate::display::{
    write_decimal, write_name, write_octets, write_quoted, write_signed, write_string, write_truth,
    write_unsigned,
};
use crate::split::{split_pair, split_value};
use crate::table_ref::TableRef;
use crate::value_ref::ValueRef;
use std::fmt;

/// A value: its tag, a colon and what it holds.
#[cycle(display_ref)]
fn write_value_ref<W: fmt::Write>(f: &mut fmt::Formatter<W>, value: ValueRef<'_>) -> fmt::Result
    ensures { WritesOnOk W.write_str_gives f.old result (value_text (value_ref_view value.entry)) f.new }
{
    match value {
        ValueRef::Boolean(holds) => write_truth(f, holds),
        ValueRef::ShortShortInt(number) => write_signed(f, "b:", i64::from(number)),
        ValueRef::ShortShortUint(number) => write_unsigned(f, "B:", u64::from(number)),
        ValueRef::ErrataShortInt(number) => write_signed(f, "s:", i64::from(number)),
        ValueRef::ShortInt(number) => write_signed(f, "U:", i64::from(number)),
        ValueRef::ShortUint(number) => write_unsigned(f, "u:", u64::from(number)),
        ValueRef::LongInt(number) => write_signed(f, "I:", i64::from(number)),
        ValueRef::LongUint(number) => write_unsigned(f, "i:", u64::from(number)),
        ValueRef::ErrataLongLongInt(number) => write_signed(f, "l:", number),
        ValueRef::LongLongInt(number) => write_signed(f, "L:", number),
        ValueRef::Float(octets) => write_octets(f, "f:", &octets),
        ValueRef::Double(octets) => write_octets(f, "d:", &octets),
        ValueRef::Decimal { scale, number } => write_decimal(f, scale, number),
        ValueRef::Timestamp(number) => write_unsigned(f, "T:", number),
        ValueRef::Void => f.write_str("V"),
        ValueRef::LongString(text) => write_string(f, text),
        ValueRef::ByteArray(octets) => write_octets(f, "x:", octets),
        ValueRef::Array(values) => write_array_ref(f, values.body()),
        ValueRef::Table(table) => write_braced_ref(f, "F{", table.body()),
    }
}

/// The values of an array whose octets these are, in brackets.
#[cycle(display_ref)]
fn write_array_ref<W: fmt::Write>(f: &mut fmt::Formatter<W>, body: &[u8]) -> fmt::Result
    requires { AreItems body.now }
    ensures { WritesOnOk W.write_str_gives f.old result
        (codes "A[" ++ (items_text (items_of (items_encoded body.now)) ++ codes "]")) f.new }
{
    f.write_str("A[")?;
    write_items_ref(f, body)?;
    f.write_str("]")
}

/// The values of an array whose octets these are, parted by commas.
#[cycle(display_ref)]
fn write_items_ref<W: fmt::Write>(f: &mut fmt::Formatter<W>, body: &[u8]) -> fmt::Result
    requires { AreItems body.now }
    ensures { WritesOnOk W.write_str_gives f.old result (items_text (items_of (items_encoded body.now))) f.new }
{
    let mut rest = body;
    let mut comma = "";
    while !rest.is_empty() {
        let (value, after) = split_value(rest);
        f.write_str(comma)?;
        write_value_ref(f, value)?;
        rest = after;
        comma = ",";
    }
    Ok(())
}

/// The pairs of a table, whose octets after the count these are, between braces; the first may have its tag before it.
#[cycle(display_ref)]
fn write_braced_ref<W: fmt::Write>(
    f: &mut fmt::Formatter<W>,
    brace: &str,
    body: &[u8],
) -> fmt::Result
    requires { ArePairs body.now }
    ensures { WritesOnOk W.write_str_gives f.old result
        (brace.now ++ (pairs_text (pairs_of (pairs_encoded body.now)) ++ codes "}")) f.new }
{
    f.write_str(brace)?;
    write_pairs_ref(f, body)?;
    f.write_str("}")
}

/// The quoted names of a table whose octets after the count these are, each with `=` and its value, parted by commas.
#[cycle(display_ref)]
fn write_pairs_ref<W: fmt::Write>(f: &mut fmt::Formatter<W>, body: &[u8]) -> fmt::Result
    requires { ArePairs body.now }
    ensures { WritesOnOk W.write_str_gives f.old result (pairs_text (pairs_of (pairs_encoded body.now))) f.new }
{
    let mut rest = body;
    let mut comma = "";
    while !rest.is_empty() {
        let (name, value, after) = split_pair(rest);
        f.write_str(comma)?;
        write_name(f, name)?;
        write_value_ref(f, value)?;
        rest = after;
        comma = ",";
    }
    Ok(())
}

impl<'a> fmt::Display for ValueRef<'a> {
    ghost output = { λ v. Some (value_text (value_ref_view v)) };

    /// What [`Value`](crate::Value) prints. It takes no memory.
    fn fmt<W: fmt::Write>(&self, f: &mut fmt::Formatter<W>) -> fmt::Result {
        write_value_ref(f, *self)
    }
}

impl<'a> fmt::Display for ArrayRef<'a> {
    ghost output = { λ a. Some (value_text (array (array_ref_view a))) };

    /// Values, parted by commas, in brackets after the tag. It takes no memory.
    fn fmt<W: fmt::Write>(&self, f: &mut fmt::Formatter<W>) -> fmt::Result {
        write_array_ref(f, self.body())
    }
}

impl<'a> fmt::Display for TableRef<'a> {
    ghost output = { λ t. Some (text_of_table (table_ref_view t)) };

    /// What [`Table`](crate::Table) prints. It takes no memory.
    fn fmt<W: fmt::Write>(&self, f: &mut fmt::Formatter<W>) -> fmt::Result {
        write_braced_ref(f, "{", self.body())
    }
}

impl<'a> fmt::Debug for ValueRef<'a> {
    /// As `Display` prints it.
    fn fmt<W: fmt::Write>(&self, f: &mut fmt::Formatter<W>) -> fmt::Result {
        write_value_ref(f, *self)
    }
}

impl<'a> fmt::Debug for ArrayRef<'a> {
    /// As `Display` prints it.
    fn fmt<W: fmt::Write>(&self, f: &mut fmt::Formatter<W>) -> fmt::Result {
        write_array_ref(f, self.body())
    }
}

impl<'a> fmt::Debug for TableRef<'a> {
    /// As `Display` prints it.
    fn fmt<W: fmt::Write>(&self, f: &mut fmt::Formatter<W>) -> fmt::Result {
        write_braced_ref(f, "{", self.body())
    }
}
