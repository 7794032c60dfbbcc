//! Lent arguments, built with memory of their own: of octets that were checked, so that it fails for memory alone.
ghost use Rattle.std.specs.Prelude.{◌≡◌, ◌+◌, ◌<◌, ◌≤◌, ◌++◌, ◌∷◌, [], length, map, drop, vec_len, vec_capacity, false, IfOk, OnOk};
ghost use Rattle.amqp_method.specs.ArgRefView.{arg_ref_view};
ghost use Rattle.amqp_method.specs.Arguments.{keep as keeping, short_string};
ghost use Rattle.amqp_method.specs.MethodRefs.{args_left, AddsFirst};
ghost use Rattle.amqp_method.specs.KnownFields.{BeginsWith};
ghost use Rattle.amqp_method.specs.Kinds.{fields_of};
ghost use Rattle.amqp_method.specs.Owning.{IsShort};
ghost use Rattle.amqp_method.specs.Rows.{field_view};
ghost use Rattle.amqp_method.specs.Views.{args_view};
ghost use Rattle.amqp_method.specs.declared.fields.FieldKind.TheVariants as kinds;
ghost use Rattle.amqp_method.specs.declared.kinds.Kind.TheVariants.{BasicPublish, BasicDeliver, BasicAck};

use crate::arg_ref::ArgRef;
use crate::args_ref::ArgsRef;
use crate::faults::OutOfMemory;
use crate::fields::{Arg, Field, FieldKind};
use amqp_value::{ShortStr, ValueFaultKind};
use std::alloc::Global;

/// A short string of these octets.
pub(crate) fn own_short_string(alloc: Global, octets: &[u8]) -> Result<ShortStr, OutOfMemory>
    requires { length octets.now ≤ 255 }
    ensures { IfOk result (λ text. text ≡ octets.now) }
{
    match ShortStr::new(alloc, octets) {
        Ok(text) => Ok(text),
        Err(fault) => {
            let memory = fault.kind == ValueFaultKind::OutOfMemory;
            prove!(memory);
            Err(OutOfMemory)
        }
    }
}

/// Adds a short string. Where there is room for it, as there is for each argument of a method's row, it is written in
/// place: a publish takes a tenth less time so.
#[inline(always)]
fn add_text(args: &mut Vec<Arg>, text: ShortStr) -> Result<(), OutOfMemory>
    ensures { OnOk result (args_view args.new.items ≡ args_view args.old.items ++ short_string text ∷ []) }
{
    if args.len() < args.capacity() {
        args.push_reserved(Arg::ShortStr(text));
        return Ok(());
    }
    args.push(Arg::ShortStr(text))?;
    Ok(())
}

/// Adds an argument, unless its field is reserved.
#[inline(always)]
fn keep_owned(args: &mut Vec<Arg>, reserved: bool, arg: ArgRef<'_>) -> Result<(), OutOfMemory>
    requires { IsShort (arg_ref_view arg) }
    ensures { OnOk result (args_view args.new.items
        ≡ args_view args.old.items ++ keeping reserved (arg_ref_view arg.entry) []) }
{
    if reserved {
        return Ok(());
    }
    let alloc = *args.allocator();
    match arg {
        ArgRef::Bit(holds) => args.push(Arg::Bit(holds))?,
        ArgRef::Octet(number) => args.push(Arg::Octet(number))?,
        ArgRef::Short(number) => args.push(Arg::Short(number))?,
        ArgRef::Long(number) => args.push(Arg::Long(number))?,
        ArgRef::LongLong(number) => args.push(Arg::LongLong(number))?,
        ArgRef::ShortStr(text) => add_text(args, own_short_string(alloc, text)?)?,
        ArgRef::LongStr(text) => args.push(Arg::LongStr(Vec::from_slice(alloc, text)?))?,
        ArgRef::Table(table) => args.push(Arg::Table(table.to_owned(alloc)?))?,
    }
    Ok(())
}

impl<'a> ArgsRef<'a> {
    /// Builds the value of the first field, which is of this kind, and adds it, unless the field is reserved. The
    /// answer is what is left after it.
    #[inline(always)]
    fn own_kind(
        self,
        kind: FieldKind,
        field: &Field,
        fields: &'static [Field],
        args: &mut Vec<Arg>,
    ) -> Result<ArgsRef<'a>, OutOfMemory>
        requires first { self.fields.now ≡ field.now ∷ fields.now }
        requires kind { kind ≡ field.now.kind }
        ensures { IfOk result (λ after.
            AddsFirst self.entry (args_view args.old.items) fields.now (args_view args.new.items) after) }
    {
        let (arg, after) = self.first_value(kind, field, fields);
        keep_owned(args, field.reserved, arg)?;
        Ok(after)
    }

    /// The same for a field of any kind.
    ///
    /// Each kind is built by a call of its own: arguments of all kinds that meet in one place are put together octet by
    /// octet.
    #[inline(always)]
    fn own_first(
        self,
        field: &Field,
        fields: &'static [Field],
        args: &mut Vec<Arg>,
    ) -> Result<ArgsRef<'a>, OutOfMemory>
        requires { self.fields.now ≡ field.now ∷ fields.now }
        ensures { IfOk result (λ after.
            AddsFirst self.entry (args_view args.old.items) fields.now (args_view args.new.items) after) }
    {
        match field.kind {
            FieldKind::Bit => self.own_kind(FieldKind::Bit, field, fields, args),
            FieldKind::Octet => self.own_kind(FieldKind::Octet, field, fields, args),
            FieldKind::Short => self.own_kind(FieldKind::Short, field, fields, args),
            FieldKind::Long => self.own_kind(FieldKind::Long, field, fields, args),
            FieldKind::LongLong => self.own_kind(FieldKind::LongLong, field, fields, args),
            FieldKind::ShortStr => self.own_kind(FieldKind::ShortStr, field, fields, args),
            FieldKind::LongStr => self.own_kind(FieldKind::LongStr, field, fields, args),
            FieldKind::Table => self.own_kind(FieldKind::Table, field, fields, args),
        }
    }

    /// Builds the short string that stands first, for which there is room, and adds it. The answer is what is left
    /// after it.
    ///
    /// It is built of its octets and those that go on after it: so a short one is copied by whole words.
    #[inline(always)]
    fn own_known_text(self, args: &mut Vec<Arg>) -> Result<ArgsRef<'a>, OutOfMemory>
        requires first { BeginsWith kinds.ShortStr false (map field_view self.fields.now) }
        requires room { vec_len args.old < vec_capacity args.old }
        ensures added { IfOk result (λ after.
            args_view args.new.items ++ args_left after ≡ args_view args.old.items ++ args_left self.entry) }
        ensures left { IfOk result (λ after.
            map field_view after.fields.now ≡ drop 1 (map field_view self.entry.fields.now)) }
        ensures len { vec_len args.new ≤ vec_len args.old + 1 }
        ensures capacity { vec_capacity args.new ≡ vec_capacity args.old }
    {
        let (text, after) = self.first_text();
        let text = ShortStr::prefix(*args.allocator(), &self.octets[1..], text.len())?;
        args.push_reserved(Arg::ShortStr(text));
        Ok(after)
    }

    /// Adds the bit that stands first, for which there is room. The answer is what is left after it.
    #[inline(always)]
    fn own_known_bit(self, args: &mut Vec<Arg>) -> ArgsRef<'a>
        requires first { BeginsWith kinds.Bit false (map field_view self.fields.now) }
        requires room { vec_len args.old < vec_capacity args.old }
        ensures added { args_view args.new.items ++ args_left result
            ≡ args_view args.old.items ++ args_left self.entry }
        ensures left { map field_view result.fields.now ≡ drop 1 (map field_view self.entry.fields.now) }
        ensures len { vec_len args.new ≤ vec_len args.old + 1 }
        ensures capacity { vec_capacity args.new ≡ vec_capacity args.old }
    {
        let (holds, after) = self.first_bit();
        args.push_reserved(Arg::Bit(holds));
        after
    }

    /// Adds the number of 64 bits that stands first, for which there is room. The answer is what is left after it.
    #[inline(always)]
    fn own_known_long_long(self, args: &mut Vec<Arg>) -> ArgsRef<'a>
        requires first { BeginsWith kinds.LongLong false (map field_view self.fields.now) }
        requires room { vec_len args.old < vec_capacity args.old }
        ensures added { args_view args.new.items ++ args_left result
            ≡ args_view args.old.items ++ args_left self.entry }
        ensures left { map field_view result.fields.now ≡ drop 1 (map field_view self.entry.fields.now) }
        ensures len { vec_len args.new ≤ vec_len args.old + 1 }
        ensures capacity { vec_capacity args.new ≡ vec_capacity args.old }
    {
        let (number, after) = self.first_long_long();
        args.push_reserved(Arg::LongLong(number));
        after
    }

    /// Builds the arguments of a basic.ack.
    #[inline(always)]
    pub(crate) fn own_ack(self, alloc: Global) -> Result<Vec<Arg>, OutOfMemory>
        requires { map field_view self.fields.now ≡ fields_of BasicAck }
        ensures { IfOk result (λ args. args_view args.items ≡ args_left self.entry) }
    {
        let mut args = Vec::with_capacity(alloc, 2)?;
        let left = self.own_known_long_long(&mut args);
        let _ = left.own_known_bit(&mut args);
        Ok(args)
    }

    /// Builds the arguments of a basic.publish.
    #[inline(always)]
    pub(crate) fn own_publish(self, alloc: Global) -> Result<Vec<Arg>, OutOfMemory>
        requires { map field_view self.fields.now ≡ fields_of BasicPublish }
        ensures { IfOk result (λ args. args_view args.items ≡ args_left self.entry) }
    {
        let mut args = Vec::with_capacity(alloc, 4)?;
        let left = self.past_short();
        let left = left.own_known_text(&mut args)?;
        let left = left.own_known_text(&mut args)?;
        let left = left.own_known_bit(&mut args);
        let _ = left.own_known_bit(&mut args);
        Ok(args)
    }

    /// Builds the arguments of a basic.deliver.
    #[inline(always)]
    pub(crate) fn own_deliver(self, alloc: Global) -> Result<Vec<Arg>, OutOfMemory>
        requires { map field_view self.fields.now ≡ fields_of BasicDeliver }
        ensures { IfOk result (λ args. args_view args.items ≡ args_left self.entry) }
    {
        let mut args = Vec::with_capacity(alloc, 5)?;
        let left = self.own_known_text(&mut args)?;
        let left = left.own_known_long_long(&mut args);
        let left = left.own_known_bit(&mut args);
        let left = left.own_known_text(&mut args)?;
        let _ = left.own_known_text(&mut args)?;
        Ok(args)
    }

    /// Builds the arguments that are left, into a vector that has none yet.
    #[inline(always)]
    pub(crate) fn own_into(self, args: &mut Vec<Arg>) -> Result<(), OutOfMemory>
        requires { args.old.items ≡ [] }
        ensures { OnOk result (args_view args.new.items ≡ args_left self.entry) }
    {
        let mut left = self;
        while let Some((field, fields)) = left.fields.split_first() {
            left = left.own_first(field, fields, args)?;
        }
        Ok(())
    }
}
