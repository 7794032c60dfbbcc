//! The arguments of a method that lies in its payload, by their place, and by the name of their field.
ghost use Rattle.std.specs.Prelude.{◌≡◌, false, Some, None, IfSome, MatchOption};
ghost use Rattle.amqp_method.specs.ArgRefView.{arg_ref_view};
ghost use Rattle.amqp_method.specs.MethodRefs.{args_left};
ghost use Rattle.amqp_method.specs.MethodRefView.{lent_call};
ghost use Rattle.amqp_method.specs.Places.{argument_at, argument_named, found, bit_of, octet_of, short_of, long_of, long_long_of, short_string_of, long_string_of, table_of, bit_at, number_at, octets_at};
ghost use Rattle.amqp_method.specs.Requests.{is_request as asks};
ghost use Rattle.amqp_value.specs.Lent.{table_ref_view};

use crate::arg_ref::ArgRef;
use crate::args_ref::ArgsRef;
use crate::kinds::schema;
use crate::method_ref::MethodRef;
use crate::places::place_of;
use crate::table::{Wanted, row_for};
use amqp_value::TableRef;

impl<'a> ArgsRef<'a> {
    /// The argument at a place among those that are left, from 0.
    fn at(self, place: usize) -> Option<ArgRef<'a>>
        ensures { MatchOption result (argument_at place (args_left self.entry) ≡ None)
            (λ arg. argument_at place (args_left self.entry) ≡ Some (arg_ref_view arg)) }
    {
        let mut left = self;
        for _ in 0..place {
            let (_, after) = left.next_arg()?;
            left = after;
        }
        let (arg, _) = left.next_arg()?;
        Some(arg)
    }
}

impl<'a> MethodRef<'a> {
    /// The argument at a place, from 0. Reserved fields have no place.
    pub fn arg_at(self, place: usize) -> Option<ArgRef<'a>>
        ensures { MatchOption result (argument_at place (lent_call self.entry).args ≡ None)
            (λ arg. argument_at place (lent_call self.entry).args ≡ Some (arg_ref_view arg)) }
    {
        self.args().at(place)
    }

    /// The argument for the field with this name in `amqp0-9-1.xml`, as `routing-key`. Reserved fields have none.
    pub fn arg(self, name: &str) -> Option<ArgRef<'a>>
        ensures { MatchOption result (argument_named name.now (lent_call self.entry) ≡ None)
            (λ arg. argument_named name.now (lent_call self.entry) ≡ Some (arg_ref_view arg)) }
    {
        self.arg_at(place_of(schema(self.kind()), name)?)
    }

    /// The bit that is the argument for the field with this name, if one is.
    pub fn bit(self, name: &str) -> Option<bool>
        ensures { result ≡ found bit_of (argument_named name.now (lent_call self.entry)) }
    {
        self.arg(name)?.as_bit()
    }

    /// The number of eight bits that is the argument for the field with this name, if one is.
    pub fn octet(self, name: &str) -> Option<u8>
        ensures { result ≡ found octet_of (argument_named name.now (lent_call self.entry)) }
    {
        self.arg(name)?.as_octet()
    }

    /// The number of 16 bits that is the argument for the field with this name, if one is.
    pub fn short(self, name: &str) -> Option<u16>
        ensures { result ≡ found short_of (argument_named name.now (lent_call self.entry)) }
    {
        self.arg(name)?.as_short()
    }

    /// The number of 32 bits that is the argument for the field with this name, if one is.
    pub fn long(self, name: &str) -> Option<u32>
        ensures { result ≡ found long_of (argument_named name.now (lent_call self.entry)) }
    {
        self.arg(name)?.as_long()
    }

    /// The number of 64 bits that is the argument for the field with this name, if one is.
    pub fn long_long(self, name: &str) -> Option<u64>
        ensures { result ≡ found long_long_of (argument_named name.now (lent_call self.entry)) }
    {
        self.arg(name)?.as_long_long()
    }

    /// The short string that is the argument for the field with this name, if one is.
    pub fn short_str(self, name: &str) -> Option<&'a [u8]>
        ensures { MatchOption result (found short_string_of (argument_named name.now (lent_call self.entry)) ≡ None)
            (λ text. found short_string_of (argument_named name.now (lent_call self.entry)) ≡ Some text.now) }
    {
        self.arg(name)?.as_short_str()
    }

    /// The octets of the long string that is the argument for the field with this name, if one is.
    pub fn long_str(self, name: &str) -> Option<&'a [u8]>
        ensures { MatchOption result (found long_string_of (argument_named name.now (lent_call self.entry)) ≡ None)
            (λ text. found long_string_of (argument_named name.now (lent_call self.entry)) ≡ Some text.now) }
    {
        self.arg(name)?.as_long_str()
    }

    /// The table that is the argument for the field with this name, if one is.
    pub fn table(self, name: &str) -> Option<TableRef<'a>>
        ensures { MatchOption result (found table_of (argument_named name.now (lent_call self.entry)) ≡ None)
            (λ table. found table_of (argument_named name.now (lent_call self.entry)) ≡ Some (table_ref_view table)) }
    {
        self.arg(name)?.as_table()
    }

    /// The bit at a place, if a bit stands there.
    pub fn bit_at(self, place: usize) -> Option<bool>
        ensures found { result ≡ found bit_of (argument_at place (lent_call self.entry).args) }
        ensures bit { MatchOption result (bit_at place (lent_call self.entry) ≡ false)
            (λ holds. bit_at place (lent_call self.entry) ≡ holds) }
    {
        self.arg_at(place)?.as_bit()
    }

    /// The number of eight bits at a place, if one stands there.
    pub fn octet_at(self, place: usize) -> Option<u8>
        ensures found { result ≡ found octet_of (argument_at place (lent_call self.entry).args) }
        ensures number { IfSome result (λ n. number_at place (lent_call self.entry) ≡ n) }
    {
        self.arg_at(place)?.as_octet()
    }

    /// The number of 16 bits at a place, if one stands there.
    pub fn short_at(self, place: usize) -> Option<u16>
        ensures found { result ≡ found short_of (argument_at place (lent_call self.entry).args) }
        ensures number { IfSome result (λ n. number_at place (lent_call self.entry) ≡ n) }
    {
        self.arg_at(place)?.as_short()
    }

    /// The number of 32 bits at a place, if one stands there.
    pub fn long_at(self, place: usize) -> Option<u32>
        ensures found { result ≡ found long_of (argument_at place (lent_call self.entry).args) }
        ensures number { IfSome result (λ n. number_at place (lent_call self.entry) ≡ n) }
    {
        self.arg_at(place)?.as_long()
    }

    /// The number of 64 bits at a place, if one stands there.
    pub fn long_long_at(self, place: usize) -> Option<u64>
        ensures found { result ≡ found long_long_of (argument_at place (lent_call self.entry).args) }
        ensures number { IfSome result (λ n. number_at place (lent_call self.entry) ≡ n) }
    {
        self.arg_at(place)?.as_long_long()
    }

    /// The short string at a place, if one stands there.
    pub fn short_str_at(self, place: usize) -> Option<&'a [u8]>
        ensures found { MatchOption result (found short_string_of (argument_at place (lent_call self.entry).args)
            ≡ None)
            (λ text. found short_string_of (argument_at place (lent_call self.entry).args) ≡ Some text.now) }
        ensures octets { IfSome result (λ text. octets_at place (lent_call self.entry) ≡ text.now) }
    {
        self.arg_at(place)?.as_short_str()
    }

    /// The octets of the long string at a place, if one stands there.
    pub fn long_str_at(self, place: usize) -> Option<&'a [u8]>
        ensures found { MatchOption result (found long_string_of (argument_at place (lent_call self.entry).args) ≡ None)
            (λ text. found long_string_of (argument_at place (lent_call self.entry).args) ≡ Some text.now) }
        ensures octets { IfSome result (λ text. octets_at place (lent_call self.entry) ≡ text.now) }
    {
        self.arg_at(place)?.as_long_str()
    }

    /// The table at a place, if one stands there.
    pub fn table_at(self, place: usize) -> Option<TableRef<'a>>
        ensures { MatchOption result (found table_of (argument_at place (lent_call self.entry).args) ≡ None)
            (λ table. found table_of (argument_at place (lent_call self.entry).args) ≡ Some (table_ref_view table)) }
    {
        self.arg_at(place)?.as_table()
    }

    /// Whether the server replies to the method, as [`Method::is_request`](crate::Method::is_request) says it.
    pub fn is_request(self) -> bool
        ensures { result ≡ asks (lent_call self.entry) }
    {
        match row_for(self.kind()).wanted {
            Wanted::Always => true,
            Wanted::Never => false,
            Wanted::UnlessNoWait(place) => self.bit_at(place) != Some(true),
        }
    }
}
