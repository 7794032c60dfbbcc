//! Tables as C writes them.
ghost use Rattle.std.specs.Prelude.{◌≡◌, [], map, IfOk, IfErr, OnOk};
ghost use Rattle.amqp_value.specs.Tables.{table_view};
ghost use Rattle.amqp_value.specs.Plain.{plain_table};
ghost use Rattle.amqp_value.specs.View.{named_view};
ghost use Rattle.amqp_calls.specs.Tables.{pair_there, named_there};
ghost use Rattle.amqp_calls.specs.Writing.{NotMade};
ghost use Rattle.amqp_calls.specs.WritingTables.{one_there, IsTable, LongTable, NotPair, NotPairs, NotTableOf, WritesTable};

use crate::codec::lent::lend;
use crate::codec::owned::ArgFault;
use crate::codec::tables::Pair;
use crate::codec::writing::{WriteFault, put};
use amqp_value::{ShortStr, Table, Value, ValueFault, ValueFaultKind, write_table};
use std::alloc::Global;

/// The name with its value that a pair of C stands for, with memory of their own.
fn own_pair(alloc: Global, pair: &Pair<'_>) -> Result<(ShortStr, Value), ArgFault>
    ensures ok { IfOk result (λ p. pair_there pair.now ≡ one_there (named_view p)) }
    ensures err { IfErr result (λ e. NotPair pair.now e) }
{
    if pair.name.len() > 255 {
        return Err(ArgFault::Misfit);
    }
    match lend(&pair.value) {
        Ok(lent) => {
            let Ok(name) = ShortStr::new(alloc, pair.name) else {
                return Err(ArgFault::OutOfMemory);
            };
            let Ok(value) = lent.to_owned(alloc) else {
                return Err(ArgFault::OutOfMemory);
            };
            Ok((name, value))
        }
        Err(fault) => Err(fault),
    }
}

/// Makes the names with their values those that pairs of C stand for.
fn own_pairs(
    alloc: Global,
    pairs: &[Pair<'_>],
    named: &mut Vec<(ShortStr, Value)>,
) -> Result<(), WriteFault>
    requires { named.old.items ≡ [] }
    ensures ok { OnOk result (map pair_there pairs.now ≡ named_there (map named_view named.new.items)) }
    ensures err { IfErr result (λ e. NotPairs pairs.now e) }
{
    let mut place = 0;
    while place < pairs.len() {
        let one = match own_pair(alloc, &pairs[place]) {
            Ok(one) => one,
            Err(fault) => return Err(fault.at(place)),
        };
        let Ok(()) = named.push(one) else {
            return Err(WriteFault::OutOfMemory);
        };
        place += 1;
    }
    Ok(())
}

/// The table that pairs of C stand for.
#[tactic(auto, using(crate::proofs::WrittenTables::not_table))]
fn table_of(alloc: Global, pairs: &[Pair<'_>]) -> Result<Table, WriteFault>
    ensures ok { IfOk result (λ t. IsTable pairs.now (table_view t)) }
    ensures err { IfErr result (λ e. NotTableOf pairs.now e) }
{
    let mut named = Vec::new(alloc);
    match own_pairs(alloc, pairs, &mut named) {
        Ok(()) => match Table::from_pairs(named) {
            Ok(table) => Ok(table),
            Err(back) => {
                drop(back);
                Err(WriteFault::Inside(
                    pairs.len(),
                    ValueFault {
                        kind: ValueFaultKind::TooDeep,
                        at: 0,
                    },
                ))
            }
        },
        Err(fault) => {
            drop(named);
            Err(fault)
        }
    }
}

/// The octets of a table.
fn encoded(alloc: Global, table: &Table) -> Result<Vec<u8>, WriteFault>
    ensures ok { IfOk result (λ octets. octets.items ≡ plain_table (table_view table.now)) }
    ensures err { IfErr result (λ e. NotMade (LongTable (table_view table.now)) e) }
{
    let mut octets = Vec::new(alloc);
    match write_table(table, &mut octets) {
        Ok(()) => Ok(octets),
        Err(fault) => {
            if fault.kind == ValueFaultKind::OutOfMemory {
                return Err(WriteFault::OutOfMemory);
            }
            Err(WriteFault::TooLong)
        }
    }
}

/// Writes a table at the start of the room.
#[tactic(auto, using(crate::proofs::WrittenTables::table_put, crate::proofs::WrittenTables::table_not, crate::proofs::WrittenTables::table_not_made))]
pub fn put_table(alloc: Global, pairs: &[Pair<'_>], room: &mut [u8]) -> Result<usize, WriteFault>
    ensures { WritesTable pairs.now room.old result room.new }
{
    match table_of(alloc, pairs) {
        Ok(table) => match encoded(alloc, &table) {
            Ok(octets) => put(&octets, room),
            Err(fault) => Err(fault),
        },
        Err(fault) => Err(fault),
    }
}
