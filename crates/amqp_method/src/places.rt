//! The arguments of a method by their place, and by the name of their field.
ghost use Rattle.std.specs.Prelude.{◌≡◌, ◌+◌, ◌≤◌, ℕ, length, map, false, Some, None, IfSome, MatchOption};
ghost use Rattle.amqp_value.specs.Tables.{table_view};
ghost use Rattle.amqp_method.specs.MethodView.{method_view};
ghost use Rattle.amqp_method.specs.Places.{argument_at, argument_named, found, bit_of, octet_of, short_of, long_of, long_long_of, short_string_of, long_string_of, table_of, bit_at, number_at, octets_at, place_named};
ghost use Rattle.amqp_method.specs.Rows.{field_view};
ghost use Rattle.amqp_method.specs.Views.{arg_view};

use crate::fields::{Arg, Field};
use crate::kinds::schema;
use crate::methods::Method;
use amqp_value::{ShortStr, Table};

impl Arg {
    /// The bit, if it is one.
    pub fn as_bit(&self) -> Option<bool>
        ensures { result ≡ bit_of (arg_view self.now) }
    {
        if let Arg::Bit(holds) = self {
            return Some(*holds);
        }
        None
    }

    /// The number of eight bits, if it is one.
    pub fn as_octet(&self) -> Option<u8>
        ensures { result ≡ octet_of (arg_view self.now) }
    {
        if let Arg::Octet(number) = self {
            return Some(*number);
        }
        None
    }

    /// The number of 16 bits, if it is one.
    pub fn as_short(&self) -> Option<u16>
        ensures { result ≡ short_of (arg_view self.now) }
    {
        if let Arg::Short(number) = self {
            return Some(*number);
        }
        None
    }

    /// The number of 32 bits, if it is one.
    pub fn as_long(&self) -> Option<u32>
        ensures { result ≡ long_of (arg_view self.now) }
    {
        if let Arg::Long(number) = self {
            return Some(*number);
        }
        None
    }

    /// The number of 64 bits, if it is one.
    pub fn as_long_long(&self) -> Option<u64>
        ensures { result ≡ long_long_of (arg_view self.now) }
    {
        if let Arg::LongLong(number) = self {
            return Some(*number);
        }
        None
    }

    /// The short string, if it is one.
    pub fn as_short_str(&self) -> Option<&ShortStr>
        ensures { MatchOption result (short_string_of (arg_view self.now) ≡ None)
            (λ text. short_string_of (arg_view self.now) ≡ Some text.now) }
    {
        if let Arg::ShortStr(text) = self {
            return Some(text);
        }
        None
    }

    /// The octets of the long string, if it is one.
    pub fn as_long_str(&self) -> Option<&[u8]>
        ensures { MatchOption result (long_string_of (arg_view self.now) ≡ None)
            (λ text. long_string_of (arg_view self.now) ≡ Some text.now) }
    {
        if let Arg::LongStr(text) = self {
            return Some(text.as_slice());
        }
        None
    }

    /// The table, if it is one.
    pub fn as_table(&self) -> Option<&Table>
        ensures { MatchOption result (table_of (arg_view self.now) ≡ None)
            (λ t. table_of (arg_view self.now) ≡ Some (table_view t.now)) }
    {
        if let Arg::Table(table) = self {
            return Some(table);
        }
        None
    }
}

/// The place of the field with a name: how many fields before it aren't reserved.
pub(crate) fn place_of(fields: &[Field], name: &str) -> Option<usize>
    ensures { result ≡ place_named 0 (map field_view fields.now) name.now }
{
    let mut place = 0;
    for field in fields {
        if !field.reserved {
            if field.name == name {
                return Some(place);
            }
            place += 1;
        }
    }
    None
}

impl Method {
    /// The argument at a place, from 0. Reserved fields have no place.
    pub fn arg_at(&self, place: usize) -> Option<&Arg>
        ensures { MatchOption result (argument_at place (method_view self.now).args ≡ None)
            (λ arg. argument_at place (method_view self.now).args ≡ Some (arg_view arg.now)) }
    {
        self.args().get(place)
    }

    /// The argument for the field with this name in `amqp0-9-1.xml`, as `routing-key`. Reserved fields have none.
    pub fn arg(&self, name: &str) -> Option<&Arg>
        ensures { MatchOption result (argument_named name.now (method_view self.now) ≡ None)
            (λ arg. argument_named name.now (method_view self.now) ≡ Some (arg_view arg.now)) }
    {
        self.arg_at(place_of(schema(self.kind()), name)?)
    }

    /// The bit that is the argument for the field with this name, if one is.
    pub fn bit(&self, name: &str) -> Option<bool>
        ensures { result ≡ found bit_of (argument_named name.now (method_view self.now)) }
    {
        self.arg(name)?.as_bit()
    }

    /// The number of eight bits that is the argument for the field with this name, if one is.
    pub fn octet(&self, name: &str) -> Option<u8>
        ensures { result ≡ found octet_of (argument_named name.now (method_view self.now)) }
    {
        self.arg(name)?.as_octet()
    }

    /// The number of 16 bits that is the argument for the field with this name, if one is.
    pub fn short(&self, name: &str) -> Option<u16>
        ensures { result ≡ found short_of (argument_named name.now (method_view self.now)) }
    {
        self.arg(name)?.as_short()
    }

    /// The number of 32 bits that is the argument for the field with this name, if one is.
    pub fn long(&self, name: &str) -> Option<u32>
        ensures { result ≡ found long_of (argument_named name.now (method_view self.now)) }
    {
        self.arg(name)?.as_long()
    }

    /// The number of 64 bits that is the argument for the field with this name, if one is.
    pub fn long_long(&self, name: &str) -> Option<u64>
        ensures { result ≡ found long_long_of (argument_named name.now (method_view self.now)) }
    {
        self.arg(name)?.as_long_long()
    }

    /// The short string that is the argument for the field with this name, if one is.
    pub fn short_str(&self, name: &str) -> Option<&ShortStr>
        ensures { MatchOption result (found short_string_of (argument_named name.now (method_view self.now)) ≡ None)
            (λ text. found short_string_of (argument_named name.now (method_view self.now)) ≡ Some text.now) }
    {
        self.arg(name)?.as_short_str()
    }

    /// The octets of the long string that is the argument for the field with this name, if one is.
    pub fn long_str(&self, name: &str) -> Option<&[u8]>
        ensures { MatchOption result (found long_string_of (argument_named name.now (method_view self.now)) ≡ None)
            (λ text. found long_string_of (argument_named name.now (method_view self.now)) ≡ Some text.now) }
    {
        self.arg(name)?.as_long_str()
    }

    /// The table that is the argument for the field with this name, if one is.
    pub fn table(&self, name: &str) -> Option<&Table>
        ensures { MatchOption result (found table_of (argument_named name.now (method_view self.now)) ≡ None)
            (λ table. found table_of (argument_named name.now (method_view self.now)) ≡ Some (table_view table.now)) }
    {
        self.arg(name)?.as_table()
    }

    /// The bit at a place, if a bit stands there.
    pub fn bit_at(&self, place: usize) -> Option<bool>
        ensures found { result ≡ found bit_of (argument_at place (method_view self.now).args) }
        ensures bit { MatchOption result (bit_at place (method_view self.now) ≡ false)
            (λ holds. bit_at place (method_view self.now) ≡ holds) }
    {
        self.arg_at(place)?.as_bit()
    }

    /// The number of eight bits at a place, if one stands there.
    pub fn octet_at(&self, place: usize) -> Option<u8>
        ensures found { result ≡ found octet_of (argument_at place (method_view self.now).args) }
        ensures number { IfSome result (λ n. number_at place (method_view self.now) ≡ n) }
    {
        self.arg_at(place)?.as_octet()
    }

    /// The number of 16 bits at a place, if one stands there.
    pub fn short_at(&self, place: usize) -> Option<u16>
        ensures found { result ≡ found short_of (argument_at place (method_view self.now).args) }
        ensures number { IfSome result (λ n. number_at place (method_view self.now) ≡ n) }
    {
        self.arg_at(place)?.as_short()
    }

    /// The number of 32 bits at a place, if one stands there.
    pub fn long_at(&self, place: usize) -> Option<u32>
        ensures found { result ≡ found long_of (argument_at place (method_view self.now).args) }
        ensures number { IfSome result (λ n. number_at place (method_view self.now) ≡ n) }
    {
        self.arg_at(place)?.as_long()
    }

    /// The number of 64 bits at a place, if one stands there.
    pub fn long_long_at(&self, place: usize) -> Option<u64>
        ensures found { result ≡ found long_long_of (argument_at place (method_view self.now).args) }
        ensures number { IfSome result (λ n. number_at place (method_view self.now) ≡ n) }
    {
        self.arg_at(place)?.as_long_long()
    }

    /// The short string at a place, if one stands there.
    pub fn short_str_at(&self, place: usize) -> Option<&ShortStr>
        ensures found { MatchOption result (found short_string_of (argument_at place (method_view self.now).args)
            ≡ None)
            (λ text. found short_string_of (argument_at place (method_view self.now).args) ≡ Some text.now) }
        ensures octets { IfSome result (λ text. octets_at place (method_view self.now) ≡ text.now) }
    {
        self.arg_at(place)?.as_short_str()
    }

    /// The octets of the long string at a place, if one stands there.
    pub fn long_str_at(&self, place: usize) -> Option<&[u8]>
        ensures found { MatchOption result (found long_string_of (argument_at place (method_view self.now).args) ≡ None)
            (λ text. found long_string_of (argument_at place (method_view self.now).args) ≡ Some text.now) }
        ensures octets { IfSome result (λ text. octets_at place (method_view self.now) ≡ text.now) }
    {
        self.arg_at(place)?.as_long_str()
    }

    /// The table at a place, if one stands there.
    pub fn table_at(&self, place: usize) -> Option<&Table>
        ensures { MatchOption result (found table_of (argument_at place (method_view self.now).args) ≡ None)
            (λ table. found table_of (argument_at place (method_view self.now).args) ≡ Some (table_view table.now)) }
    {
        self.arg_at(place)?.as_table()
    }
}
