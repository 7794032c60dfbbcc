//! A content header that lies in its payload.
ghost use Rattle.std.specs.Prelude.{◌≡◌, drop, Ok};
ghost use Rattle.byteorder.specs.Endian.{big_number};
ghost use Rattle.amqp_method.specs.Checking.{AreBelow256};
ghost use Rattle.amqp_method.specs.HeaderChecking.{size_read};
ghost use Rattle.amqp_method.specs.HeaderReading.{header_at};

use crate::arg_ref::{ArgRef, read_arg};
use crate::faults::MethodFault;
use crate::field_octets::Bits;
use crate::header_checker::check_start;
use crate::header_start::{START_LENGTH, Start};
use crate::properties::property_at;
use amqp_value::TableRef;

/// A content header as it lies in its payload, which is known to encode it. Beside it stands [`Header`], which owns its
/// properties.
#[derive(Clone, Copy)]
pub struct HeaderRef<'a> {
    pub(crate) payload: &'a [u8],
    pub(crate) flags: u16,
    body_size: u64,
    ghost below: { AreBelow256 payload.now },
    ghost flagged: { flags ≡ big_number 2 (drop 12 payload.now) },
    pub ghost reads: { size_read (header_at payload.now) ≡ Ok body_size },
}

impl<'a> HeaderRef<'a> {
    ghost use Rattle.std.specs.Prelude.{◌≡◌, ◌<◌, ℕ, IfOk, IfErr, Ok, Some, None, MatchOption};
    ghost use Rattle.amqp_method.specs.FirstFault.{FirstFaultOfHeader};
    ghost use Rattle.amqp_method.specs.HeaderRefs.{PropertiesLeft, ReadsProperty};
    ghost use Rattle.amqp_method.specs.ArgRefView.{arg_ref_view};
    ghost use Rattle.amqp_method.specs.HeaderRefView.{lent_header, lent_header_payload, property_at as at_place, property_ref_view};
    ghost use Rattle.amqp_method.specs.Places.{found, octet_of, long_long_of, short_string_of, table_of};
    ghost use Rattle.amqp_method.specs.Properties.{ContentHeader, EncodesHeader, flags_of};
    ghost use Rattle.amqp_method.specs.Reading.{Equals};
    ghost use Rattle.amqp_value.specs.Lent.{table_ref_view};

    /// The header that a payload encodes. The faults are those of [`read_header`](crate::read_header), and no memory is
    /// taken.
    pub fn new(payload: &'a [u8]) -> Result<HeaderRef<'a>, MethodFault>
        ensures exact { Equals lent_header result (header_at payload.now) }
        ensures payload { IfOk result (λ h. lent_header_payload h ≡ payload.now) }
        ensures only { (h : ContentHeader) → EncodesHeader h payload.now → IfOk result (λ r. lent_header r ≡ h) }
        ensures fault { IfErr result (λ e. FirstFaultOfHeader payload.now e) }
    {
        let start = check_start(payload)?;
        Ok(HeaderRef {
            body_size: start.body_size,
            flags: start.flags,
            payload,
        })
    }

    /// The header of a payload that is known to encode one, with what stands before the properties. Nothing is checked
    /// again.
    #[inline(always)]
    pub(crate) fn of_read(payload: &'a [u8], start: Start) -> HeaderRef<'a>
        requires flags { start.flags ≡ big_number 2 (drop 12 payload.now) }
        requires size { size_read (header_at payload.now) ≡ Ok start.body_size }
        ensures payload { lent_header_payload result ≡ payload.now }
        ensures read { header_at payload.now ≡ Ok (lent_header result) }
    {
        HeaderRef {
            body_size: start.body_size,
            flags: start.flags,
            payload,
        }
    }

    /// The payload, whole.
    pub fn payload(self) -> &'a [u8]
        ensures payload { result.now ≡ lent_header_payload self.entry }
        ensures encodes { EncodesHeader (lent_header self.entry) result.now }
        ensures read { header_at result.now ≡ Ok (lent_header self.entry) }
    {
        self.payload
    }

    /// How many octets the body has.
    pub fn body_size(self) -> u64
        ensures { result ≡ (lent_header self.entry).body_size }
    {
        self.body_size
    }

    /// The flags: bit 15 for the first property, bit 2 for the last.
    pub fn flags(self) -> u16
        ensures { result ≡ flags_of (lent_header self.entry).properties }
    {
        self.flags
    }

    /// The octets of the properties.
    #[inline(always)]
    pub(crate) fn properties(self) -> &'a [u8]
        ensures { PropertiesLeft self.entry 0 result.now }
    {
        let (_, properties) = self.payload.split_at(START_LENGTH);
        properties
    }

    /// The property at a place, if its flag is set, and the octets after it.
    #[inline(always)]
    pub(crate) fn next_property(
        self,
        place: usize,
        octets: &'a [u8],
    ) -> (Option<ArgRef<'a>>, &'a [u8])
        requires place { place < 14 }
        requires left { PropertiesLeft self place octets.now }
        ensures { ReadsProperty self.entry place (property_ref_view result.0) result.1.now }
    {
        let property = property_at(place);
        if !property.is_flagged(self.flags) {
            return (None, octets);
        }
        let mut bits = Bits::NONE;
        match read_arg(property.kind, &mut bits, octets, self.payload.len()) {
            Ok((value, after)) => (Some(value), after),
            Err(_) => unreachable!(),
        }
    }

    /// The property at a place, if it is there. One whose flag isn't set is not looked for.
    #[inline(always)]
    pub(crate) fn at(self, place: usize) -> Option<ArgRef<'a>>
        requires { place < 14 }
        ensures { MatchOption result (at_place place (lent_header self.entry).properties ≡ None)
            (λ value. at_place place (lent_header self.entry).properties ≡ Some (arg_ref_view value)) }
    {
        if !property_at(place).is_flagged(self.flags) {
            return None;
        }
        self.past_earlier(place)
    }

    /// The property at a place, if it is there, after the octets of those before it.
    #[inline(never)]
    fn past_earlier(self, place: usize) -> Option<ArgRef<'a>>
        requires { place < 14 }
        ensures { MatchOption result (at_place place (lent_header self.entry).properties ≡ None)
            (λ value. at_place place (lent_header self.entry).properties ≡ Some (arg_ref_view value)) }
    {
        let mut rest = self.properties();
        for earlier in 0..place {
            let (_, after) = self.next_property(earlier, rest);
            rest = after;
        }
        let (value, _) = self.next_property(place, rest);
        value
    }

    /// The type of the content, as `text/plain`, if it is there.
    pub fn content_type(self) -> Option<&'a [u8]>
        ensures { MatchOption result (found short_string_of (at_place 0 (lent_header self.entry).properties) ≡ None)
            (λ text. found short_string_of (at_place 0 (lent_header self.entry).properties) ≡ Some text.now) }
    {
        self.at(0)?.as_short_str()
    }

    /// The encoding of the content, if it is there.
    pub fn content_encoding(self) -> Option<&'a [u8]>
        ensures { MatchOption result (found short_string_of (at_place 1 (lent_header self.entry).properties) ≡ None)
            (λ text. found short_string_of (at_place 1 (lent_header self.entry).properties) ≡ Some text.now) }
    {
        self.at(1)?.as_short_str()
    }

    /// The application's headers, if it is there.
    pub fn headers(self) -> Option<TableRef<'a>>
        ensures { MatchOption result (found table_of (at_place 2 (lent_header self.entry).properties) ≡ None)
            (λ table. found table_of (at_place 2 (lent_header self.entry).properties) ≡ Some (table_ref_view table)) }
    {
        self.at(2)?.as_table()
    }

    /// 1: not persistent, 2: persistent, if it is there.
    pub fn delivery_mode(self) -> Option<u8>
        ensures { result ≡ found octet_of (at_place 3 (lent_header self.entry).properties) }
    {
        self.at(3)?.as_octet()
    }

    /// The priority, 0 to 9, if it is there.
    pub fn priority(self) -> Option<u8>
        ensures { result ≡ found octet_of (at_place 4 (lent_header self.entry).properties) }
    {
        self.at(4)?.as_octet()
    }

    /// The request that the message answers, if it is there.
    pub fn correlation_id(self) -> Option<&'a [u8]>
        ensures { MatchOption result (found short_string_of (at_place 5 (lent_header self.entry).properties) ≡ None)
            (λ text. found short_string_of (at_place 5 (lent_header self.entry).properties) ≡ Some text.now) }
    {
        self.at(5)?.as_short_str()
    }

    /// Where replies are to go, if it is there.
    pub fn reply_to(self) -> Option<&'a [u8]>
        ensures { MatchOption result (found short_string_of (at_place 6 (lent_header self.entry).properties) ≡ None)
            (λ text. found short_string_of (at_place 6 (lent_header self.entry).properties) ≡ Some text.now) }
    {
        self.at(6)?.as_short_str()
    }

    /// When the message expires, if it is there.
    pub fn expiration(self) -> Option<&'a [u8]>
        ensures { MatchOption result (found short_string_of (at_place 7 (lent_header self.entry).properties) ≡ None)
            (λ text. found short_string_of (at_place 7 (lent_header self.entry).properties) ≡ Some text.now) }
    {
        self.at(7)?.as_short_str()
    }

    /// The message's identifier, if it is there.
    pub fn message_id(self) -> Option<&'a [u8]>
        ensures { MatchOption result (found short_string_of (at_place 8 (lent_header self.entry).properties) ≡ None)
            (λ text. found short_string_of (at_place 8 (lent_header self.entry).properties) ≡ Some text.now) }
    {
        self.at(8)?.as_short_str()
    }

    /// When the message was sent, in seconds of POSIX time, if it is there.
    pub fn timestamp(self) -> Option<u64>
        ensures { result ≡ found long_long_of (at_place 9 (lent_header self.entry).properties) }
    {
        self.at(9)?.as_long_long()
    }

    /// The message's type, if it is there.
    pub fn type_name(self) -> Option<&'a [u8]>
        ensures { MatchOption result (found short_string_of (at_place 10 (lent_header self.entry).properties) ≡ None)
            (λ text. found short_string_of (at_place 10 (lent_header self.entry).properties) ≡ Some text.now) }
    {
        self.at(10)?.as_short_str()
    }

    /// The user who sent the message, if it is there.
    pub fn user_id(self) -> Option<&'a [u8]>
        ensures { MatchOption result (found short_string_of (at_place 11 (lent_header self.entry).properties) ≡ None)
            (λ text. found short_string_of (at_place 11 (lent_header self.entry).properties) ≡ Some text.now) }
    {
        self.at(11)?.as_short_str()
    }

    /// The application that sent the message, if it is there.
    pub fn app_id(self) -> Option<&'a [u8]>
        ensures { MatchOption result (found short_string_of (at_place 12 (lent_header self.entry).properties) ≡ None)
            (λ text. found short_string_of (at_place 12 (lent_header self.entry).properties) ≡ Some text.now) }
    {
        self.at(12)?.as_short_str()
    }

    /// The property that the standard reserves, if it is there.
    pub fn cluster_id(self) -> Option<&'a [u8]>
        ensures { MatchOption result (found short_string_of (at_place 13 (lent_header self.entry).properties) ≡ None)
            (λ text. found short_string_of (at_place 13 (lent_header self.entry).properties) ≡ Some text.now) }
    {
        self.at(13)?.as_short_str()
    }
}
