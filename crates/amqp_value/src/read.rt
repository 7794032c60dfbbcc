//! Reading a table from the prefix of octets into memory of its own.

ghost use Rattle.std.specs.Prelude.{◌≡◌, Err};
ghost use Rattle.amqp_value.specs.Faults.{fault_at};
ghost use Rattle.amqp_value.specs.Tables.{read_view};
ghost use Rattle.amqp_value.specs.FirstFault.{PassesCounted};
ghost use Rattle.amqp_value.specs.Reading.{Gives, table_at};
ghost use Rattle.amqp_value.specs.ReadsTable.{ReadsTable};
ghost use Rattle.amqp_value.specs.declared.fault.ValueFaultKind.TheVariants.{Ends};

use crate::fault::ValueFault;
use crate::table_ref::TableRef;
use crate::tables::Table;
use std::alloc::Global;

/// The table that a prefix of the octets encodes, and how many octets that prefix has: a count of 32 bits,
/// and that many octets of pairs.
///
/// A fault tells the first element that can't be read, in order: the outer count, a name with its length
/// octet, a tag octet, the value after a tag with its count where it has one. Ends is reported at 0 only,
/// where the octets have fewer than four, or fewer than the outer count says; inside, what doesn't fit
/// the table or the array round it passes its end. UnknownTag and TooDeep are reported at the tag. Out of
/// memory is reported at 0. Memory is asked only for octets that are there, whatever a count says.
pub fn read_table(alloc: Global, octets: &[u8]) -> Result<(Table, usize), ValueFault>
    ensures { ReadsTable octets.now result }
{
    table_prefix(alloc, octets)
}

/// Checks the octets, and then builds what they encode.
#[inline(always)]
fn table_prefix(alloc: Global, octets: &[u8]) -> Result<(Table, usize), ValueFault>
    ensures exact { Gives read_view result (table_at octets.now) }
    ensures ends { PassesCounted octets.now → result ≡ Err (fault_at 0 Ends) }
{
    let table = TableRef::new(octets)?;
    Ok((table.to_owned(alloc)?, table.octets().len()))
}
