//! Field tables.

ghost use Rattle.std.specs.Prelude.{◌≤◌};
ghost use Rattle.amqp_value.specs.Values.{table_depth};
ghost use Rattle.amqp_value.specs.View.{pairs_view};

use crate::fault::{OutOfMemory, ValueFault, ValueFaultKind};
use crate::length::table_length;
use crate::one_walk::read_counted;
use crate::own::fill_pairs;
use crate::queries::{find, place_of};
use crate::short_str::ShortStr;
use crate::values::{
    Value, clear_pairs, copy_pairs, drop_pairs, forget_pairs, nests_within, pairs_nest_within,
};
use std::alloc::Global;
use std::mem::replace;
use std::{fmt, slice};

/// How deep tables and arrays may nest: a table has depth 1, and each table or array inside adds 1.
pub const MAX_DEPTH: usize = 32;

/// A field table: names with values, in order, repeats kept, at most [`MAX_DEPTH`] deep.
#[derive_where(PartialEq, Eq)]
pub struct Table {
    pairs: Vec<(ShortStr, Value)>,
    /// Whether it is known that no pair has memory of its own to give back, so that none is looked at to be dropped.
    #[derive_where(skip(EqHashOrd))]
    in_place: bool,
    pub ghost depth_is_bounded: { table_depth (pairs_view pairs.items) ≤ 32 },
}

/// Written out, so that no crate above proves again of each part that it can be dropped, and so that few octets are
/// moved.
impl Drop for Table {
    #[inline(always)]
    fn drop(self) {
        let Table { pairs, in_place } = self;
        if in_place {
            forget_pairs(pairs);
        } else {
            drop_pairs(pairs);
        }
    }
}

impl fmt::Debug for Table {
    /// The pairs alone: whether they lie in place doesn't show.
    fn fmt<W: fmt::Write>(&self, f: &mut fmt::Formatter<W>) -> fmt::Result {
        f.debug_struct("Table").field("pairs", &self.pairs).finish()
    }
}

impl Table {
    ghost use Rattle.std.specs.Prelude.{◌≡◌, ◌<◌, ◌↔◌, ◌⊎◌, OnOk, OnErr, length, ◌==◌, IfOk, IfErr, IsOk, IfSome, MatchOption, Some, None, Ok, Err};
    ghost use Rattle.std.specs.Slice.Iter.{iter_rest};
    ghost use Rattle.amqp_value.specs.Pairs.{pair_count, value_named, without};
    ghost use Rattle.amqp_value.specs.SetsValue.{SetsValue};
    ghost use Rattle.amqp_value.specs.Lengths.{capped};
    ghost use Rattle.amqp_value.specs.Plain.{plain_table};
    ghost use Rattle.amqp_value.specs.Faults.{fault_at, out_of_memory};
    ghost use Rattle.amqp_value.specs.Reading.{table_at};
    ghost use Rattle.amqp_value.specs.Tables.{table_view};
    ghost use Rattle.amqp_value.specs.Values.{no_pairs, pairs_of, with_pair};
    ghost use Rattle.amqp_value.specs.View.{view};
    ghost use Rattle.amqp_value.specs.Whole.{pairs_encoded, ArePairs};
    ghost use Rattle.amqp_value.specs.declared.fault.ValueFaultKind.TheVariants.{TooDeep};

    /// A table of no pairs, which takes no memory yet.
    pub fn new(alloc: Global) -> Table
        ensures { table_view result ≡ no_pairs }
    {
        Table {
            pairs: Vec::new(alloc),
            in_place: true,
        }
    }

    /// Puts the pairs that these octets encode in the place of those that were there. After a fault there are none.
    pub(crate) fn fill(&mut self, alloc: Global, body: &[u8]) -> Result<(), OutOfMemory>
        requires whole { ArePairs body.now }
        requires deep { table_depth (pairs_of (pairs_encoded body.now)) ≤ 32 }
        ensures filled { OnOk result (table_view self.new ≡ pairs_of (pairs_encoded body.now)) }
        ensures fault { OnErr result (table_view self.new ≡ no_pairs) }
    {
        match fill_pairs(alloc, &mut self.pairs, body) {
            Ok(in_place) => {
                self.in_place = in_place;
                Ok(())
            }
            Err(fault) => {
                clear_pairs(&mut self.pairs);
                Err(fault)
            }
        }
    }

    /// Reads the table that a prefix of the octets encodes, in the place of what was there: it is checked and built in
    /// one walk. The answer is its size in octets.
    ///
    /// None where the octets begin with no table, or memory ran out; the table then has no pairs. The fault is told by
    /// [`check_table`](crate::check_table).
    pub fn read_from(&mut self, alloc: Global, octets: &[u8]) -> Option<usize>
        ensures read { IfSome result (λ size. table_at octets.now ≡ Ok (table_view self.new, size)) }
        ensures within { IfSome result (λ size. size ≤ length octets.now) }
        ensures none { result ≡ None → table_view self.new ≡ no_pairs }
    {
        match read_counted(alloc, &mut self.pairs, octets) {
            Some((size, in_place)) => {
                self.in_place = in_place;
                Some(size)
            }
            None => {
                clear_pairs(&mut self.pairs);
                None
            }
        }
    }

    pub(crate) fn of_checked(pairs: Vec<(ShortStr, Value)>) -> Table
        requires { table_depth (pairs_view pairs.items) ≤ 32 }
        ensures { table_view result ≡ pairs_view pairs.items }
    {
        Table {
            pairs,
            in_place: false,
        }
    }

    /// The table of these pairs. Pairs that would nest deeper than [`MAX_DEPTH`] are given back.
    pub fn from_pairs(pairs: Vec<(ShortStr, Value)>) -> Result<Table, Vec<(ShortStr, Value)>>
        ensures table { IfOk result (λ t. table_view t ≡ pairs_view pairs.items) }
        ensures when { IsOk result ↔ (table_depth (pairs_view pairs.items) ≤ 32) }
        ensures same { IfErr result (λ back. back.items ≡ pairs.items) }
    {
        if pairs_nest_within(&pairs, MAX_DEPTH - 1) {
            Ok(Table {
                pairs,
                in_place: false,
            })
        } else {
            Err(pairs)
        }
    }

    /// Adds a pair after the last. TooDeep at 0 where the table would nest deeper than [`MAX_DEPTH`];
    /// after a fault the table is as it was, and the pair is dropped.
    pub fn push(&mut self, name: ShortStr, value: Value) -> Result<(), ValueFault>
        ensures ok { OnOk result (table_view self.new ≡ with_pair (table_view self.old) name (view value)) }
        ensures too_deep { (result ≡ Err (fault_at 0 TooDeep))
            ↔ (32 < table_depth (with_pair (table_view self.old) name (view value))) }
        ensures err { IfErr result (λ e. (e ≡ fault_at 0 TooDeep) ⊎ (e ≡ out_of_memory)) }
        ensures same { OnErr result (table_view self.new ≡ table_view self.old) }
    {
        if !nests_within(&value, MAX_DEPTH - 1) {
            return Err(ValueFault {
                at: 0,
                kind: ValueFaultKind::TooDeep,
            });
        }
        self.in_place = false;
        self.pairs.push((name, value))?;
        Ok(())
    }

    /// Puts a value under a name: in place of that of the first pair with the name, which is the answer, or else in a
    /// pair after the last. TooDeep at 0 where the table would nest deeper than [`MAX_DEPTH`]; after a fault the table
    /// is as it was, and name and value are dropped.
    pub fn set(&mut self, name: ShortStr, value: Value) -> Result<Option<Value>, ValueFault>
        ensures { SetsValue name (view value) (table_view self.old) result (table_view self.new) }
    {
        let fits = nests_within(&value, MAX_DEPTH - 1);
        if !fits {
            return Err(ValueFault {
                at: 0,
                kind: ValueFaultKind::TooDeep,
            });
        }
        self.in_place = false;
        match place_of(&self.pairs, name.as_bytes()) {
            Some(place) => Ok(Some(replace(&mut self.pairs[place].1, value))),
            None => {
                self.pairs.push((name, value))?;
                Ok(None)
            }
        }
    }

    /// Takes the first pair with this name out of the table. The answer is its value.
    pub fn remove(&mut self, name: &[u8]) -> Option<Value>
        ensures table { table_view self.new ≡ without name.now (table_view self.old) }
        ensures value { MatchOption result (value_named name.now (table_view self.old) ≡ None)
            (λ v. value_named name.now (table_view self.old) ≡ Some (view v)) }
    {
        let place = place_of(&self.pairs, name)?;
        let (_, value) = self.pairs.remove(place);
        Some(value)
    }

    /// Where the table takes its memory.
    pub(crate) fn allocator(&self) -> Global {
        *self.pairs.allocator()
    }

    /// The pairs, in order.
    pub fn pairs(&self) -> &[(ShortStr, Value)]
        ensures pairs { pairs_view result.now ≡ table_view self.now }
        ensures deep { table_depth (table_view self.now) ≤ 32 }
    {
        self.pairs.as_slice()
    }

    /// The pairs, out of the table.
    pub fn into_pairs(self) -> Vec<(ShortStr, Value)>
        ensures pairs { pairs_view result.items ≡ table_view self }
        ensures deep { table_depth (pairs_view result.items) ≤ 32 }
    {
        let Table { pairs, in_place: _ } = self;
        pairs
    }

    /// How many pairs.
    #[tactic(auto, using(crate::proofs::PairLemmas::count_of))]
    pub fn len(&self) -> usize
        ensures { result ≡ pair_count (table_view self.now) }
    {
        self.pairs().len()
    }

    #[tactic(auto, using(crate::proofs::PairLemmas::count_of))]
    pub fn is_empty(&self) -> bool
        ensures { result ≡ (pair_count (table_view self.now) == 0) }
    {
        self.pairs().is_empty()
    }

    /// The pairs, in order.
    pub fn iter(&self) -> slice::Iter<'_, (ShortStr, Value)>
        ensures { pairs_view (iter_rest result) ≡ table_view self.now }
    {
        self.pairs.iter()
    }

    /// The value of the first pair with this name: a name may stand more than once.
    pub fn get(&self, name: &[u8]) -> Option<&Value>
        ensures { MatchOption result (value_named name.now (table_view self.now) ≡ None)
            (λ value. value_named name.now (table_view self.now) ≡ Some (view value.now)) }
    {
        find(&self.pairs, name)
    }

    /// How many octets [`write_table`](crate::write_table) writes of the table. `u64::MAX` stands for every number from
    /// there on, which no table in memory reaches.
    pub fn encoded_length(&self) -> u64
        ensures { result ≡ capped (length (plain_table (table_view self.now))) }
    {
        table_length(&self.pairs)
    }

    /// An equal table.
    pub fn copy(&self) -> Result<Table, OutOfMemory>
        ensures { IfOk result (λ t. table_view t ≡ table_view self.now) }
    {
        let pairs = copy_pairs(&self.pairs)?;
        Ok(Table {
            pairs,
            in_place: false,
        })
    }
}
