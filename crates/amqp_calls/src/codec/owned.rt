//! Values of C as arguments of a method.
ghost use Rattle.std.specs.Prelude.{◌≡◌, map, Some, IfOk, IfErr};
ghost use Rattle.amqp_value.specs.Tables.{table_view};
ghost use Rattle.amqp_value.specs.Whole.{table_encoded};
ghost use Rattle.amqp_method.specs.Arguments.{long_string, short_string};
ghost use Rattle.amqp_method.specs.Views.{arg_view, args_view};
ghost use Rattle.amqp_calls.specs.Values.{argument_there, all_there};
ghost use Rattle.amqp_calls.specs.Writing.{fault_of, NotAllOwned, NotCounted, NotOwned, NotTable};

use crate::codec::values::{
    BIT, LONG, LONG_LONG, LONG_STRING, OCTET, SHORT, SHORT_STRING, TABLE, Value,
};
use crate::codec::writing::WriteFault;
use amqp_method::Arg;
use amqp_value::{ShortStr, Table, TableRef, ValueFault};
use std::alloc::Global;

/// Why a value isn't an argument.
#[derive(Clone, Copy)]
pub enum ArgFault {
    /// It isn't one for any field.
    Misfit,
    /// Its octets can't be read as a table.
    Inside(ValueFault),
    /// Memory was refused.
    OutOfMemory,
}

impl ArgFault {
    /// The same of the value at this place.
    pub(crate) fn at(self, place: usize) -> WriteFault
        ensures { result ≡ fault_of place self }
    {
        match self {
            ArgFault::Misfit => WriteFault::Misfit(place),
            ArgFault::Inside(fault) => WriteFault::Inside(place, fault),
            ArgFault::OutOfMemory => WriteFault::OutOfMemory,
        }
    }
}

/// The table that these octets are, all of them, with memory of its own.
pub(crate) fn own_table(alloc: Global, octets: &[u8]) -> Result<Table, ArgFault>
    ensures ok { IfOk result (λ t. table_view t ≡ table_encoded octets.now) }
    ensures err { IfErr result (λ e. NotTable octets.now e) }
{
    match TableRef::new(octets) {
        Ok(table) => {
            if table.octets().len() < octets.len() {
                return Err(ArgFault::Misfit);
            }
            let Ok(owned) = table.to_owned(alloc) else {
                return Err(ArgFault::OutOfMemory);
            };
            Ok(owned)
        }
        Err(fault) => Err(ArgFault::Inside(fault)),
    }
}

/// The argument of a short string.
fn own_short_string(alloc: Global, octets: &[u8]) -> Result<Arg, ArgFault>
    ensures ok { IfOk result (λ a. arg_view a ≡ short_string octets.now) }
    ensures err { IfErr result (λ e. NotCounted 256 octets.now e) }
{
    if octets.len() > 255 {
        return Err(ArgFault::Misfit);
    }
    let Ok(text) = ShortStr::new(alloc, octets) else {
        return Err(ArgFault::OutOfMemory);
    };
    Ok(Arg::ShortStr(text))
}

/// The argument of a long string.
fn own_long_string(alloc: Global, octets: &[u8]) -> Result<Arg, ArgFault>
    ensures ok { IfOk result (λ a. arg_view a ≡ long_string octets.now) }
    ensures err { IfErr result (λ e. NotCounted 4294967296 octets.now e) }
{
    if octets.len() > 4294967295 {
        return Err(ArgFault::Misfit);
    }
    let Ok(text) = Vec::from_slice(alloc, octets) else {
        return Err(ArgFault::OutOfMemory);
    };
    Ok(Arg::LongStr(text))
}

/// The argument that a value stands for, with memory of its own.
pub(crate) fn own_arg(alloc: Global, value: &Value<'_>) -> Result<Arg, ArgFault>
    ensures ok { IfOk result (λ a. argument_there value.now ≡ Some (arg_view a)) }
    ensures err { IfErr result (λ e. NotOwned value.now e) }
{
    match value.kind {
        BIT => Ok(Arg::Bit(value.number != 0)),
        OCTET => {
            if value.number > 255 {
                return Err(ArgFault::Misfit);
            }
            Ok(Arg::Octet(value.number as u8))
        }
        SHORT => {
            if value.number > 65535 {
                return Err(ArgFault::Misfit);
            }
            Ok(Arg::Short(value.number as u16))
        }
        LONG => {
            if value.number > 4294967295 {
                return Err(ArgFault::Misfit);
            }
            Ok(Arg::Long(value.number as u32))
        }
        LONG_LONG => Ok(Arg::LongLong(value.number)),
        SHORT_STRING => own_short_string(alloc, value.octets),
        LONG_STRING => own_long_string(alloc, value.octets),
        TABLE => match own_table(alloc, value.octets) {
            Ok(table) => Ok(Arg::Table(table)),
            Err(fault) => Err(fault),
        },
        _ => Err(ArgFault::Misfit),
    }
}

/// The arguments that values stand for, with memory of their own.
pub(crate) fn own_args(alloc: Global, values: &[Value<'_>]) -> Result<Vec<Arg>, WriteFault>
    ensures ok { IfOk result (λ args. map argument_there values.now ≡ all_there (args_view args.items)) }
    ensures err { IfErr result (λ e. NotAllOwned values.now e) }
{
    let mut args = Vec::new(alloc);
    let mut place = 0;
    while place < values.len() {
        let arg = match own_arg(alloc, &values[place]) {
            Ok(arg) => arg,
            Err(fault) => return Err(fault.at(place)),
        };
        let Ok(()) = args.push(arg) else {
            return Err(WriteFault::OutOfMemory);
        };
        place += 1;
    }
    Ok(args)
}
