//! A field table where it lies.

ghost use Rattle.amqp_value.specs.Whole.{IsTable};

use crate::check::check_table;
use crate::fault::{OutOfMemory, ValueFault};
use crate::pairs_ref::PairsRef;
use crate::split::after_count;
use crate::tables::Table;
use crate::value_ref::ValueRef;
use byteorder::{BigEndian, ByteOrder};
use std::alloc::Global;

/// A field table that lies in octets which are lent: a count of 32 bits, and that many octets of names with values. It
/// was checked, so reading it never fails, and takes no memory.
#[derive(Clone, Copy)]
pub struct TableRef<'a> {
    octets: &'a [u8],
    pub ghost is_table: { IsTable octets.now },
}

impl<'a> TableRef<'a> {
    ghost use Rattle.std.specs.Prelude.{◌≡◌, ◌==◌, ◌≤◌, length, take, IfOk, Ok, OnOk, OnErr, MatchOption, Some, None};
    ghost use Rattle.amqp_value.specs.Checking.{Equals};
    ghost use Rattle.amqp_value.specs.Lent.{octets_of, table_ref_view, pairs_left, value_ref_view};
    ghost use Rattle.amqp_value.specs.Pairs.{pair_count, value_named};
    ghost use Rattle.amqp_value.specs.Reading.{table_at};
    ghost use Rattle.amqp_value.specs.Tables.{table_view};
    ghost use Rattle.amqp_value.specs.Values.{no_pairs, pairs_of, table_depth};
    ghost use Rattle.amqp_value.specs.Whole.{pairs_encoded, ArePairs, BeginsTable};

    /// The table that a prefix of the octets encodes. Faults are those of [`check_table`](crate::check_table).
    pub fn new(octets: &'a [u8]) -> Result<TableRef<'a>, ValueFault>
        ensures exact { Equals (λ t. (table_ref_view t, length (octets_of t))) result (table_at octets.now) }
        ensures prefix { IfOk result (λ t. octets_of t ≡ take (length (octets_of t)) octets.now) }
    {
        let size = check_table(octets)?;
        Ok(TableRef {
            octets: &octets[..size],
        })
    }

    /// The table that a prefix of the octets encodes, where that is known: the count is read, and nothing is checked
    /// again.
    pub fn of_checked(octets: &'a [u8]) -> TableRef<'a>
        requires { BeginsTable octets.now }
        ensures exact { table_at octets.now ≡ Ok (table_ref_view result, length (octets_of result)) }
        ensures prefix { octets_of result ≡ take (length (octets_of result)) octets.now }
    {
        let count = BigEndian::read_u32(octets) as usize;
        TableRef {
            octets: &octets[..4 + count],
        }
    }

    /// The table's own octets, its count with them.
    pub fn octets(self) -> &'a [u8]
        ensures octets { result.now ≡ octets_of self.entry }
        ensures table { table_at result.now ≡ Ok (table_ref_view self.entry, length result.now) }
    {
        self.octets
    }

    /// The octets of the names with their values, after the count.
    pub(crate) fn body(self) -> &'a [u8]
        ensures pairs { pairs_of (pairs_encoded result.now) ≡ table_ref_view self.entry }
        ensures whole { ArePairs result.now }
        ensures within { length result.now ≤ length (octets_of self.entry) }
        ensures deep { table_depth (table_ref_view self.entry) ≤ 32 }
    {
        after_count(self.octets)
    }

    /// The names with their values, in order.
    pub fn iter(self) -> PairsRef<'a>
        ensures { pairs_of (pairs_left result) ≡ table_ref_view self.entry }
    {
        PairsRef::of_checked(self.body())
    }

    pub fn is_empty(self) -> bool
        ensures { result ≡ (pair_count (table_ref_view self.entry) == 0) }
    {
        self.body().is_empty()
    }

    /// The value of the first pair with this name: a name may stand more than once.
    pub fn get(self, name: &[u8]) -> Option<ValueRef<'a>>
        ensures { MatchOption result (value_named name.now (table_ref_view self.entry) ≡ None)
            (λ value. value_named name.now (table_ref_view self.entry) ≡ Some (value_ref_view value)) }
    {
        for (first, value) in self.iter() {
            if first == name {
                return Some(value);
            }
        }
        None
    }

    /// The same table, with memory of its own.
    pub fn to_owned(self, alloc: Global) -> Result<Table, OutOfMemory>
        ensures { IfOk result (λ t. table_view t ≡ table_ref_view self.entry) }
    {
        let mut table = Table::new(alloc);
        self.read_into(alloc, &mut table)?;
        Ok(table)
    }

    /// Makes another table the same as this one, with memory of its own: what it was before is gone. After a fault the
    /// table has no pairs.
    pub fn read_into(self, alloc: Global, table: &mut Table) -> Result<(), OutOfMemory>
        ensures same { OnOk result (table_view table.new ≡ table_ref_view self.entry) }
        ensures fault { OnErr result (table_view table.new ≡ no_pairs) }
    {
        table.fill(alloc, self.body())
    }
}
