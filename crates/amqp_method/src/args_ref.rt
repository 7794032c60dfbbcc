//! The arguments of a method, one after another, as they lie in its payload.
ghost use Rattle.std.specs.Prelude.{◌≡◌, ◌≤◌, length, map, IsOk};
ghost use Rattle.amqp_method.specs.BitsView.{bits_view};
ghost use Rattle.amqp_method.specs.Reading.{args_at};
ghost use Rattle.amqp_method.specs.Rows.{field_view};

use crate::arg_ref::{ArgRef, read_arg};
use crate::field_octets::{Bits, read_bit, read_long_long, read_short, read_short_octets};
use crate::fields::{Field, FieldKind};

/// The arguments of a method that are left, as they lie in its payload. Reserved fields have none.
#[derive(Clone, Copy)]
pub struct ArgsRef<'a> {
    pub(crate) fields: &'static [Field],
    bits: Bits,
    pub(crate) octets: &'a [u8],
    end: usize,
    ghost within: { length octets.now ≤ end },
    ghost reads: { IsOk (args_at (map field_view fields.now) (bits_view bits) end octets.now) },
}

impl<'a> ArgsRef<'a> {
    ghost use Rattle.std.specs.Prelude.{◌∷◌, ◌<◌, ◌^◌, MatchOption, [], Some, drop, true, false};
    ghost use Rattle.amqp_method.specs.Arguments.{bit, keep, long_long, short_string};
    ghost use Rattle.amqp_method.specs.ArgRefView.{arg_ref_view};
    ghost use Rattle.amqp_method.specs.KnownFields.{BeginsWith};
    ghost use Rattle.amqp_method.specs.MethodRefs.{args_left, values_read, NextArg, FirstValue};
    ghost use Rattle.amqp_method.specs.Owning.{IsShort, IsTextOf};
    ghost use Rattle.amqp_method.specs.declared.fields.FieldKind.TheVariants as kinds;
    ghost use Rattle.amqp_method.specs.Reading.{no_bits};

    /// The arguments for these fields, which begin with the first of the octets, in a payload that ends at `end`.
    pub(crate) fn new(fields: &'static [Field], octets: &'a [u8], end: usize) -> ArgsRef<'a>
        requires within { length octets.now ≤ end }
        requires reads { IsOk (args_at (map field_view fields.now) no_bits end octets.now) }
        ensures args { args_left result ≡ values_read (args_at (map field_view fields.now) no_bits end octets.now) }
        ensures fields { result.fields.now ≡ fields.now }
    {
        ArgsRef {
            fields,
            bits: Bits::NONE,
            octets,
            end,
        }
    }

    /// The value of the first field, which is of this kind, and what is left after it.
    #[inline(always)]
    pub(crate) fn first_value(
        self,
        kind: FieldKind,
        field: &Field,
        fields: &'static [Field],
    ) -> (ArgRef<'a>, ArgsRef<'a>)
        requires first { self.fields.now ≡ field.now ∷ fields.now }
        requires kind { kind ≡ field.now.kind }
        ensures value { args_left self.entry ≡ keep field.now.reserved (arg_ref_view result.0) (args_left result.1) }
        ensures left { result.1.fields.now ≡ fields.now }
        ensures short { IsShort (arg_ref_view result.0) }
    {
        let mut bits = self.bits;
        match read_arg(kind, &mut bits, self.octets, self.end) {
            Ok((arg, octets)) => (
                arg,
                ArgsRef {
                    fields,
                    bits,
                    octets,
                    end: self.end,
                },
            ),
            Err(_) => unreachable!(),
        }
    }

    /// What is left after a reserved number of 16 bits, which stands first.
    #[inline(always)]
    pub(crate) fn past_short(self) -> ArgsRef<'a>
        requires { BeginsWith kinds.Short true (map field_view self.fields.now) }
        ensures value { args_left self.entry ≡ args_left result }
        ensures left { map field_view result.fields.now ≡ drop 1 (map field_view self.entry.fields.now) }
    {
        let Some((_, fields)) = self.fields.split_first() else {
            unreachable!()
        };
        let Ok((_, octets)) = read_short(self.octets, self.end) else {
            unreachable!()
        };
        ArgsRef {
            fields,
            bits: Bits::NONE,
            octets,
            end: self.end,
        }
    }

    /// The number of 64 bits that stands first, and what is left after it.
    #[inline(always)]
    pub(crate) fn first_long_long(self) -> (u64, ArgsRef<'a>)
        requires { BeginsWith kinds.LongLong false (map field_view self.fields.now) }
        ensures value { args_left self.entry ≡ long_long result.0 ∷ args_left result.1 }
        ensures left { map field_view result.1.fields.now ≡ drop 1 (map field_view self.entry.fields.now) }
    {
        let Some((_, fields)) = self.fields.split_first() else {
            unreachable!()
        };
        let Ok((number, octets)) = read_long_long(self.octets, self.end) else {
            unreachable!()
        };
        (
            number,
            ArgsRef {
                fields,
                bits: Bits::NONE,
                octets,
                end: self.end,
            },
        )
    }

    /// The bit that stands first, and what is left after it.
    #[inline(always)]
    pub(crate) fn first_bit(self) -> (bool, ArgsRef<'a>)
        requires { BeginsWith kinds.Bit false (map field_view self.fields.now) }
        ensures value { args_left self.entry ≡ bit result.0 ∷ args_left result.1 }
        ensures left { map field_view result.1.fields.now ≡ drop 1 (map field_view self.entry.fields.now) }
    {
        let Some((_, fields)) = self.fields.split_first() else {
            unreachable!()
        };
        let mut bits = self.bits;
        let Ok((holds, octets)) = read_bit(&mut bits, self.octets, self.end) else {
            unreachable!()
        };
        (
            holds,
            ArgsRef {
                fields,
                bits,
                octets,
                end: self.end,
            },
        )
    }

    /// The octets of the short string that stands first, and what is left after it.
    #[inline(always)]
    pub(crate) fn first_text(self) -> (&'a [u8], ArgsRef<'a>)
        requires { BeginsWith kinds.ShortStr false (map field_view self.fields.now) }
        ensures value { args_left self.entry ≡ short_string result.0.now ∷ args_left result.1 }
        ensures left { map field_view result.1.fields.now ≡ drop 1 (map field_view self.entry.fields.now) }
        ensures text { IsTextOf self.entry.octets.now result.0.now }
        ensures short { length result.0.now < 2 ^ 8 }
    {
        let Some((_, fields)) = self.fields.split_first() else {
            unreachable!()
        };
        let Ok((text, octets)) = read_short_octets(self.octets, self.end) else {
            unreachable!()
        };
        (
            text,
            ArgsRef {
                fields,
                bits: Bits::NONE,
                octets,
                end: self.end,
            },
        )
    }

    /// The value of the next field, whether the field is reserved, and what is left after it.
    #[inline(always)]
    fn next_value(self) -> Option<(bool, ArgRef<'a>, ArgsRef<'a>)>
        ensures { FirstValue self.entry result }
    {
        let (field, fields) = self.fields.split_first()?;
        let (arg, after) = self.first_value(field.kind, field, fields);
        Some((field.reserved, arg, after))
    }

    /// The next argument, and those after it.
    pub fn next_arg(self) -> Option<(ArgRef<'a>, ArgsRef<'a>)>
        ensures { NextArg (args_left self.entry) result }
    {
        let mut left = self;
        while let Some((reserved, arg, after)) = left.next_value() {
            if !reserved {
                return Some((arg, after));
            }
            left = after;
        }
        None
    }
}
