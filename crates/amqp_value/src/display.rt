//! Values and tables in a format string: the one printer of both, which takes no memory of its own.

ghost use Rattle.std.specs.Prelude.{◌≡◌, ◌<◌, [], ◌∷◌, ◌++◌, codes, Some};
ghost use Rattle.std.specs.Fmt.{WritesOnOk, decimal, signed_decimal};
ghost use Rattle.amqp_value.specs.Tables.{table_view};
ghost use Rattle.amqp_value.specs.Text.{octet_digits, hexadecimal, quoted_octet, escaped, quoted, truth_text, comma_before, value_text, items_text, pairs_text, text_of_table};
ghost use Rattle.amqp_value.specs.View.{view, items_view, pairs_view};

use crate::short_str::ShortStr;
use crate::tables::Table;
use crate::values::Value;
use std::{fmt, str};

/// The two digits of an octet, lower case.
fn write_octet<W: fmt::Write>(f: &mut fmt::Formatter<W>, octet: u8) -> fmt::Result
    ensures { WritesOnOk W.write_str_gives f.old result (octet_digits octet) f.new }
{
    // two digits have room and are text, so neither error comes
    let mut digits = [0; 2];
    let Ok(()) = hex::encode_to_slice([octet], &mut digits) else {
        return Err(fmt::Error);
    };
    let Ok(text) = str::from_utf8(&digits) else {
        return Err(fmt::Error);
    };
    f.write_str(text)
}

/// Writes octets in hexadecimal, two digits each, lower case, without memory of its own.
pub fn write_hexadecimal<W: fmt::Write>(f: &mut fmt::Formatter<W>, octets: &[u8]) -> fmt::Result
    ensures { WritesOnOk W.write_str_gives f.old result (hexadecimal octets.now) f.new }
{
    for octet in octets {
        write_octet(f, *octet)?;
    }
    Ok(())
}

/// An octet that isn't printed as its character.
fn write_escape<W: fmt::Write>(f: &mut fmt::Formatter<W>, octet: u8) -> fmt::Result
    ensures { WritesOnOk W.write_str_gives f.old result (codes "\\x" ++ octet_digits octet) f.new }
{
    f.write_str("\\x")?;
    write_octet(f, octet)
}

fn write_quoted_octet<W: fmt::Write>(f: &mut fmt::Formatter<W>, octet: u8) -> fmt::Result
    ensures { WritesOnOk W.write_str_gives f.old result (quoted_octet octet) f.new }
{
    if 32 <= octet && octet <= 126 && octet != b'"' && octet != b'\\' {
        return f.write_char(char::from(octet));
    }
    write_escape(f, octet)
}

/// Writes octets without memory of its own: those from 20 to 7e but the quote and the backslash as their characters,
/// every other one as `\x` and two digits.
fn write_escaped<W: fmt::Write>(f: &mut fmt::Formatter<W>, octets: &[u8]) -> fmt::Result
    ensures { WritesOnOk W.write_str_gives f.old result (escaped octets.now) f.new }
{
    for octet in octets {
        write_quoted_octet(f, *octet)?;
    }
    Ok(())
}

/// Writes octets in quotes, without memory of its own: those from 20 to 7e but the quote and the backslash as their
/// characters, every other one as `\x` and two digits.
pub fn write_quoted<W: fmt::Write>(f: &mut fmt::Formatter<W>, octets: &[u8]) -> fmt::Result
    ensures { WritesOnOk W.write_str_gives f.old result (quoted octets.now) f.new }
{
    f.write_str("\"")?;
    write_escaped(f, octets)?;
    f.write_str("\"")
}

pub(crate) fn write_string<W: fmt::Write>(f: &mut fmt::Formatter<W>, octets: &[u8]) -> fmt::Result
    ensures { WritesOnOk W.write_str_gives f.old result (codes "S:" ++ quoted octets.now) f.new }
{
    f.write_str("S:")?;
    write_quoted(f, octets)
}

pub(crate) fn write_truth<W: fmt::Write>(f: &mut fmt::Formatter<W>, holds: bool) -> fmt::Result
    ensures { WritesOnOk W.write_str_gives f.old result (truth_text holds) f.new }
{
    f.write_str(if holds { "t:1" } else { "t:0" })
}

pub(crate) fn write_signed<W: fmt::Write>(
    f: &mut fmt::Formatter<W>,
    tag: &str,
    number: i64,
) -> fmt::Result
    ensures { WritesOnOk W.write_str_gives f.old result (tag.now ++ signed_decimal number) f.new }
{
    write!(f, "{tag}{number}")
}

pub(crate) fn write_unsigned<W: fmt::Write>(
    f: &mut fmt::Formatter<W>,
    tag: &str,
    number: u64,
) -> fmt::Result
    ensures { WritesOnOk W.write_str_gives f.old result (tag.now ++ decimal number) f.new }
{
    write!(f, "{tag}{number}")
}

pub(crate) fn write_decimal<W: fmt::Write>(
    f: &mut fmt::Formatter<W>,
    scale: u8,
    number: u32,
) -> fmt::Result
    ensures { WritesOnOk W.write_str_gives f.old result
        (codes "D:" ++ (decimal scale ++ (codes ":" ++ decimal number))) f.new }
{
    write!(f, "D:{scale}:{number}")
}

/// A tag and octets in hexadecimal.
pub(crate) fn write_octets<W: fmt::Write>(
    f: &mut fmt::Formatter<W>,
    tag: &str,
    octets: &[u8],
) -> fmt::Result
    ensures { WritesOnOk W.write_str_gives f.old result (tag.now ++ hexadecimal octets.now) f.new }
{
    f.write_str(tag)?;
    write_hexadecimal(f, octets)
}

/// The comma before an element, unless it is the first.
fn write_comma<W: fmt::Write>(f: &mut fmt::Formatter<W>, index: usize) -> fmt::Result
    ensures { WritesOnOk W.write_str_gives f.old result (comma_before index) f.new }
{
    f.write_str(if index == 0 { "" } else { "," })
}

/// A quoted name and the equals sign.
pub(crate) fn write_name<W: fmt::Write>(f: &mut fmt::Formatter<W>, name: &[u8]) -> fmt::Result
    ensures { WritesOnOk W.write_str_gives f.old result (quoted name.now ++ codes "=") f.new }
{
    write_quoted(f, name)?;
    f.write_str("=")
}

/// A value: its tag, a colon and what it holds.
#[cycle(display)]
fn write_value<W: fmt::Write>(f: &mut fmt::Formatter<W>, value: &Value) -> fmt::Result
    ensures { WritesOnOk W.write_str_gives f.old result (value_text (view value.now)) f.new }
{
    match value {
        Value::Boolean(holds) => write_truth(f, *holds),
        Value::ShortShortInt(number) => write_signed(f, "b:", i64::from(*number)),
        Value::ShortShortUint(number) => write_unsigned(f, "B:", u64::from(*number)),
        Value::ErrataShortInt(number) => write_signed(f, "s:", i64::from(*number)),
        Value::ShortInt(number) => write_signed(f, "U:", i64::from(*number)),
        Value::ShortUint(number) => write_unsigned(f, "u:", u64::from(*number)),
        Value::LongInt(number) => write_signed(f, "I:", i64::from(*number)),
        Value::LongUint(number) => write_unsigned(f, "i:", u64::from(*number)),
        Value::ErrataLongLongInt(number) => write_signed(f, "l:", *number),
        Value::LongLongInt(number) => write_signed(f, "L:", *number),
        Value::Float(octets) => write_octets(f, "f:", octets),
        Value::Double(octets) => write_octets(f, "d:", octets),
        Value::Decimal { scale, number } => write_decimal(f, *scale, *number),
        Value::Timestamp(number) => write_unsigned(f, "T:", *number),
        Value::Void => f.write_str("V"),
        Value::LongString(octets) => write_string(f, octets.as_bytes()),
        Value::ByteArray(octets) => write_octets(f, "x:", octets.as_bytes()),
        Value::Array(values) => write_array(f, values),
        Value::Table(pairs) => write_braced(f, "F{", pairs),
    }
}

/// Values, in brackets.
#[cycle(display)]
fn write_array<W: fmt::Write>(f: &mut fmt::Formatter<W>, values: &[Value]) -> fmt::Result
    ensures { WritesOnOk W.write_str_gives f.old result
        (codes "A[" ++ (items_text (items_view values.now) ++ codes "]")) f.new }
{
    f.write_str("A[")?;
    write_items(f, values)?;
    f.write_str("]")
}

/// Values, parted by commas.
#[cycle(display)]
fn write_items<W: fmt::Write>(f: &mut fmt::Formatter<W>, values: &[Value]) -> fmt::Result
    ensures { WritesOnOk W.write_str_gives f.old result (items_text (items_view values.now)) f.new }
{
    for (index, value) in values.iter().enumerate() {
        write_comma(f, index)?;
        write_value(f, value)?;
    }
    Ok(())
}

/// Pairs, after a brace that may have its tag before it, and the brace that closes it.
#[cycle(display)]
fn write_braced<W: fmt::Write>(
    f: &mut fmt::Formatter<W>,
    brace: &str,
    pairs: &[(ShortStr, Value)],
) -> fmt::Result
    ensures { WritesOnOk W.write_str_gives f.old result
        (brace.now ++ (pairs_text (pairs_view pairs.now) ++ codes "}")) f.new }
{
    f.write_str(brace)?;
    write_pairs(f, pairs)?;
    f.write_str("}")
}

/// Quoted names, each with `=` and its value, parted by commas.
#[cycle(display)]
fn write_pairs<W: fmt::Write>(f: &mut fmt::Formatter<W>, pairs: &[(ShortStr, Value)]) -> fmt::Result
    ensures { WritesOnOk W.write_str_gives f.old result (pairs_text (pairs_view pairs.now)) f.new }
{
    for (index, pair) in pairs.iter().enumerate() {
        write_comma(f, index)?;
        write_name(f, pair.0.as_bytes())?;
        write_value(f, &pair.1)?;
    }
    Ok(())
}

impl fmt::Display for ShortStr {
    ghost output = { λ text. Some (escaped text) };

    /// The octets from 20 to 7e but the quote and the backslash as their characters, every other one as `\x` and two
    /// digits.
    fn fmt<W: fmt::Write>(&self, f: &mut fmt::Formatter<W>) -> fmt::Result {
        write_escaped(f, self.as_bytes())
    }
}

impl fmt::Display for Value {
    ghost output = { λ v. Some (value_text (view v)) };

    /// Its tag, a colon and what it holds; an array in brackets, a table inside in braces. It takes no memory.
    fn fmt<W: fmt::Write>(&self, f: &mut fmt::Formatter<W>) -> fmt::Result {
        write_value(f, self)
    }
}

impl fmt::Display for Table {
    ghost output = { λ t. Some (text_of_table (table_view t)) };

    /// Pairs of a quoted name, `=` and a value, parted by commas, in braces. It takes no memory.
    fn fmt<W: fmt::Write>(&self, f: &mut fmt::Formatter<W>) -> fmt::Result {
        write_braced(f, "{", self.pairs())
    }
}
