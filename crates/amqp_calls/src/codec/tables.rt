//! Tables and arrays as C reads them.
ghost use Rattle.std.specs.Prelude.{◌≡◌, ◌+◌, ◌≤◌, ◌⊎◌, [], length, take, drop};
ghost use Rattle.amqp_value.specs.Lent.{body_of, items_left, octets_of, pairs_left, table_ref_view};
ghost use Rattle.amqp_value.specs.Whole.{items_encoded};
ghost use Rattle.amqp_calls.specs.Tables.{PairsMakeUp, ToldItems, ToldPairs, ValuesMakeUp};

use crate::codec::statuses::NO_ROOM;
use crate::codec::values::Value;
use amqp_value::{ArrayRef, ItemsRef, PairsRef, TableRef};

/// A name with its value, as they cross to C.
#[repr(C)]
#[derive(Clone, Copy)]
pub struct Pair<'a> {
    pub name: &'a [u8],
    pub value: Value<'a>,
}

/// The report of a table or an array beside what stands in it: how many octets it has, how many pairs or values,
/// and how many of those were put into their places; after a fault, the place.
#[repr(C)]
pub struct TableRead {
    pub at: usize,
    pub length: usize,
    pub count: usize,
    pub placed: usize,
}

/// Puts the first pairs into their places, as far as there is room. The answer is how many, and those that are left.
fn fill_pairs<'a>(named: PairsRef<'a>, pairs: &mut [Pair<'a>]) -> (usize, PairsRef<'a>)
    ensures pairs { PairsMakeUp (take result.0 pairs.new) (pairs_left result.1) (pairs_left named.entry) }
    ensures counted { result.0 + length (pairs_left result.1) ≡ length (pairs_left named.entry) }
    ensures full { (pairs_left result.1 ≡ []) ⊎ (result.0 ≡ length pairs.old) }
    ensures within { result.0 ≤ length pairs.old }
    ensures others { drop result.0 pairs.new ≡ drop result.0 pairs.old }
{
    let mut left = named;
    let mut count = 0;
    while count < pairs.len() {
        let Some((name, value)) = left.next() else {
            return (count, left);
        };
        pairs[count] = Pair {
            name,
            value: Value::of_value(value),
        };
        count += 1;
    }
    (count, left)
}

/// How many pairs are left, which are no more than the limit.
fn count_pairs(named: PairsRef<'_>, limit: usize) -> usize
    requires { length (pairs_left named) ≤ limit }
    ensures count { result ≡ length (pairs_left named.entry) }
    ensures within { result ≤ limit }
{
    let mut count = 0;
    for _ in named {
        count += 1;
    }
    count
}

/// Tells the pairs of a table, with so many of them in their places as there are. The answer is the status.
pub fn tell_pairs<'a>(table: TableRef<'a>, pairs: &mut [Pair<'a>], out: &mut TableRead) -> u32
    ensures { ToldPairs (table_ref_view table.entry) (length (octets_of table.entry)) pairs.old pairs.new result
        out.new }
{
    let size = table.octets().len();
    let (placed, left) = fill_pairs(table.iter(), pairs);
    let others = count_pairs(left, size - placed);
    out.length = size;
    out.placed = placed;
    out.count = placed + others;
    if others > 0 { NO_ROOM } else { 0 }
}

/// Puts the first values into their places, as far as there is room. The answer is how many, and those that are left.
fn fill_items<'a>(items: ItemsRef<'a>, values: &mut [Value<'a>]) -> (usize, ItemsRef<'a>)
    ensures values { ValuesMakeUp (take result.0 values.new) (items_left result.1) (items_left items.entry) }
    ensures counted { result.0 + length (items_left result.1) ≡ length (items_left items.entry) }
    ensures full { (items_left result.1 ≡ []) ⊎ (result.0 ≡ length values.old) }
    ensures within { result.0 ≤ length values.old }
    ensures others { drop result.0 values.new ≡ drop result.0 values.old }
{
    let mut left = items;
    let mut count = 0;
    while count < values.len() {
        let Some(value) = left.next() else {
            return (count, left);
        };
        values[count] = Value::of_value(value);
        count += 1;
    }
    (count, left)
}

/// How many values are left, which are no more than the limit.
fn count_items(items: ItemsRef<'_>, limit: usize) -> usize
    requires { length (items_left items) ≤ limit }
    ensures count { result ≡ length (items_left items.entry) }
    ensures within { result ≤ limit }
{
    let mut count = 0;
    for _ in items {
        count += 1;
    }
    count
}

/// Tells the values of an array, with so many of them in their places as there are. The answer is the status.
pub fn tell_items<'a>(array: ArrayRef<'a>, values: &mut [Value<'a>], out: &mut TableRead) -> u32
    ensures { ToldItems (items_encoded (body_of array.entry)) (length (body_of array.entry)) values.old values.new
        result out.new }
{
    let size = array.body().len();
    let (placed, left) = fill_items(array.iter(), values);
    let others = count_items(left, size - placed);
    out.length = size;
    out.placed = placed;
    out.count = placed + others;
    if others > 0 { NO_ROOM } else { 0 }
}
