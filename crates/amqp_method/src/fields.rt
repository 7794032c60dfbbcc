//! The fields of a method, and its arguments.
ghost use Rattle.std.specs.Prelude.{◌≡◌, ◌↔◌, IfOk, IsTrue};
ghost use Rattle.amqp_method.specs.Arguments.{kind_of};
ghost use Rattle.amqp_method.specs.Views.{arg_view, args_view};

use crate::faults::OutOfMemory;
use amqp_value::{ShortStr, Table};

/// The kinds of field, after the elementary domains of the standard (section 4.2.5).
#[derive(Clone, Copy, PartialEq, Eq, Debug)]
pub enum FieldKind {
    /// One bit. Bits that follow one another share octets, the lowest bit first.
    Bit,
    /// Eight bits.
    Octet,
    /// 16 bits.
    Short,
    /// 32 bits.
    Long,
    /// 64 bits.
    LongLong,
    /// A length octet, and that many octets.
    ShortStr,
    /// A length of 32 bits, and that many octets.
    LongStr,
    /// A field table.
    Table,
}

impl FieldKind {
    /// Whether the kinds are equal.
    pub(crate) fn is(self, other: FieldKind) -> bool
        ensures { IsTrue result ↔ (self ≡ other) }
    {
        self == other
    }
}

/// A field of a method: its name in `amqp0-9-1.xml`, its kind, and whether it is reserved.
///
/// A reserved field is read in any value and dropped, and written zero or empty. It has no argument.
#[derive(Clone, Copy, PartialEq, Eq, Debug)]
pub struct Field {
    pub name: &'static str,
    pub kind: FieldKind,
    pub reserved: bool,
}

/// An argument of a method.
#[derive(Debug, Drop, PartialEq, Eq)]
pub enum Arg {
    Bit(bool),
    Octet(u8),
    Short(u16),
    Long(u32),
    LongLong(u64),
    ShortStr(ShortStr),
    LongStr(Vec<u8>),
    Table(Table),
}

impl Arg {
    /// The kind of field that it is an argument for.
    pub fn kind(&self) -> FieldKind
        ensures { result ≡ kind_of (arg_view self.now) }
    {
        match self {
            Arg::Bit(_) => FieldKind::Bit,
            Arg::Octet(_) => FieldKind::Octet,
            Arg::Short(_) => FieldKind::Short,
            Arg::Long(_) => FieldKind::Long,
            Arg::LongLong(_) => FieldKind::LongLong,
            Arg::ShortStr(_) => FieldKind::ShortStr,
            Arg::LongStr(_) => FieldKind::LongStr,
            Arg::Table(_) => FieldKind::Table,
        }
    }

    /// An equal argument.
    pub fn copy(&self) -> Result<Arg, OutOfMemory>
        ensures { IfOk result (λ a. arg_view a ≡ arg_view self.now) }
    {
        let copied = match self {
            Arg::Bit(holds) => Arg::Bit(*holds),
            Arg::Octet(number) => Arg::Octet(*number),
            Arg::Short(number) => Arg::Short(*number),
            Arg::Long(number) => Arg::Long(*number),
            Arg::LongLong(number) => Arg::LongLong(*number),
            Arg::ShortStr(text) => Arg::ShortStr(text.copy()?),
            Arg::LongStr(octets) => Arg::LongStr(Vec::from_slice(*octets.allocator(), octets)?),
            Arg::Table(table) => Arg::Table(table.copy()?),
        };
        Ok(copied)
    }
}

/// Equal arguments in the same order.
pub(crate) fn copy_args(args: &Vec<Arg>) -> Result<Vec<Arg>, OutOfMemory>
    ensures { IfOk result (λ v. args_view v.items ≡ args_view args.now.items) }
{
    let mut copies = Vec::with_capacity(*args.allocator(), args.len())?;
    for arg in args {
        copies.push(arg.copy()?)?;
    }
    Ok(copies)
}

/// Drops each argument, the last first. Most hold no memory, so the few kinds that do are looked for first.
#[inline(always)]
pub(crate) fn drop_args(mut args: Vec<Arg>) {
    while let Some(arg) = args.pop() {
        match arg {
            Arg::ShortStr(text) => drop(text),
            Arg::LongStr(_) | Arg::Table(_) => drop_large(arg),
            Arg::Bit(_) | Arg::Octet(_) | Arg::Short(_) | Arg::Long(_) | Arg::LongLong(_) => {}
        }
    }
}

/// The same, out of line, for the many places that drop a method.
#[inline(never)]
pub(crate) fn drop_args_apart(args: Vec<Arg>) {
    drop_args(args);
}

/// Drops a long string or a table, of which there are few.
#[inline(never)]
fn drop_large(arg: Arg) {
    drop(arg);
}
