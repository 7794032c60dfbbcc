//! Writing arguments to octets.
ghost use Rattle.std.specs.Prelude.{◌≡◌, ◌+◌, ◌^◌, ◌<◌, ◌≤◌, ◌++◌, ◌⊎◌, length, map, take, OnOk, OnErr, IfOk, IfErr, IfSome, Err};
ghost use Rattle.amqp_method.specs.Arguments.{bit, octet, short, long, long_long, short_string, long_string, nothing, kind_of};
ghost use Rattle.amqp_method.specs.Faults.{out_of_memory, too_long};
ghost use Rattle.amqp_method.specs.GatheredView.{gathered};
ghost use Rattle.amqp_method.specs.Plain.{plain_argument, CountFits, CountsAllFit, value_for, args_left_by, complete};
ghost use Rattle.amqp_method.specs.HeaderView.{table_argument};
ghost use Rattle.amqp_method.specs.Rows.{field_view};
ghost use Rattle.amqp_method.specs.Encoding.{EncodesArgument};
ghost use Rattle.amqp_method.specs.Views.{arg_view, args_view};
ghost use Rattle.amqp_method.specs.Writing.{gathered_octets, none_gathered, with_one, written_for, gathered_after, written_values, Fitting, AllFitting};

use crate::bit_run::BitRun;
use crate::faults::MethodFault;
use crate::fields::{Arg, Field, FieldKind};
use amqp_value::{ShortStr, Table, ValueFaultKind, write_table};
use byteorder::{BigEndian, ByteOrder};

/// A short string: its length in an octet, and its octets.
pub(crate) fn append_short_string(text: &ShortStr, out: &mut Vec<u8>) -> Result<(), MethodFault>
    ensures ok { OnOk result (out.new.items ≡ out.old.items ++ plain_argument (short_string text.now)) }
    ensures fits { OnOk result (Fitting (short_string text.now)) }
    ensures err { IfErr result (λ e. e ≡ out_of_memory) }
    ensures kept { OnErr result (take (length out.old.items) out.new.items ≡ out.old.items) }
{
    let octets = text.as_bytes();
    out.push(octets.len() as u8)?;
    out.extend_from_slice(octets)?;
    Ok(())
}

/// A long string: its length in four octets, and its octets.
fn append_long_string(text: &[u8], out: &mut Vec<u8>) -> Result<(), MethodFault>
    ensures ok { OnOk result (out.new.items ≡ out.old.items ++ plain_argument (long_string text.now)) }
    ensures fits { OnOk result (Fitting (long_string text.now)) }
    ensures too_long { result ≡ Err too_long → CountFits (long_string text.now) → ⊥ }
    ensures err { IfErr result (λ e. (e ≡ too_long) ⊎ (e ≡ out_of_memory)) }
    ensures kept { OnErr result (take (length out.old.items) out.new.items ≡ out.old.items) }
{
    if text.len() > u32::MAX as usize {
        return Err(MethodFault::TOO_LONG);
    }
    let mut length = [0; 4];
    BigEndian::write_u32(&mut length, text.len() as u32);
    out.extend_from_slice(&length)?;
    out.extend_from_slice(text)?;
    Ok(())
}

/// A field table: its count in four octets, and its pairs.
pub(crate) fn append_table(table: &Table, out: &mut Vec<u8>) -> Result<(), MethodFault>
    ensures ok { OnOk result (out.new.items ≡ out.old.items ++ plain_argument (table_argument table.now)) }
    ensures fits { OnOk result (Fitting (table_argument table.now)) }
    ensures too_long { result ≡ Err too_long → CountFits (table_argument table.now) → ⊥ }
    ensures err { IfErr result (λ e. (e ≡ too_long) ⊎ (e ≡ out_of_memory)) }
    ensures kept { OnErr result (take (length out.old.items) out.new.items ≡ out.old.items) }
{
    match write_table(table, out) {
        Ok(()) => Ok(()),
        Err(fault) => Err(match fault.kind {
            ValueFaultKind::TooLong => MethodFault::TOO_LONG,
            _ => MethodFault::NO_MEMORY,
        }),
    }
}

/// The value of a field, after the bits gathered.
fn append_arg(arg: &Arg, run: BitRun, out: &mut Vec<u8>) -> Result<BitRun, MethodFault>
    ensures ok { OnOk result (out.new.items ≡ out.old.items ++ written_for (arg_view arg.now) (gathered run)) }
    ensures after { IfOk result (λ next. gathered next ≡ gathered_after (arg_view arg.now) (gathered run)) }
    ensures fits { OnOk result (Fitting (arg_view arg.now)) }
    ensures too_long { result ≡ Err too_long → CountFits (arg_view arg.now) → ⊥ }
    ensures err { IfErr result (λ e. (e ≡ too_long) ⊎ (e ≡ out_of_memory)) }
    ensures kept { OnErr result (take (length out.old.items) out.new.items ≡ out.old.items) }
{
    if let Arg::Bit(holds) = arg {
        return run.push(*holds, out);
    }
    run.finish(out)?;
    append_alone(arg, out)?;
    Ok(BitRun::none())
}

/// A value that has octets of its own.
fn append_alone(arg: &Arg, out: &mut Vec<u8>) -> Result<(), MethodFault>
    ensures ok { OnOk result (out.new.items ≡ out.old.items ++ plain_argument (arg_view arg.now)) }
    ensures fits { OnOk result (Fitting (arg_view arg.now)) }
    ensures too_long { result ≡ Err too_long → CountFits (arg_view arg.now) → ⊥ }
    ensures err { IfErr result (λ e. (e ≡ too_long) ⊎ (e ≡ out_of_memory)) }
    ensures kept { OnErr result (take (length out.old.items) out.new.items ≡ out.old.items) }
{
    match arg {
        Arg::Bit(_) => Ok(()),
        Arg::Octet(number) => append_octet(*number, out),
        Arg::Short(number) => append_short(*number, out),
        Arg::Long(number) => append_long(*number, out),
        Arg::LongLong(number) => append_long_long(*number, out),
        Arg::ShortStr(text) => append_short_string(text, out),
        Arg::LongStr(text) => append_long_string(text, out),
        Arg::Table(table) => append_table(table, out),
    }
}

/// A number of one octet.
pub(crate) fn append_octet(number: u8, out: &mut Vec<u8>) -> Result<(), MethodFault>
    ensures ok { OnOk result (out.new.items ≡ out.old.items ++ plain_argument (octet number)) }
    ensures fits { OnOk result (Fitting (octet number)) }
    ensures err { IfErr result (λ e. e ≡ out_of_memory) }
    ensures kept { OnErr result (take (length out.old.items) out.new.items ≡ out.old.items) }
{
    out.push(number)?;
    Ok(())
}

/// A number of two octets.
pub(crate) fn append_short(number: u16, out: &mut Vec<u8>) -> Result<(), MethodFault>
    ensures ok { OnOk result (out.new.items ≡ out.old.items ++ plain_argument (short number)) }
    ensures fits { OnOk result (Fitting (short number)) }
    ensures err { IfErr result (λ e. e ≡ out_of_memory) }
    ensures kept { OnErr result (take (length out.old.items) out.new.items ≡ out.old.items) }
{
    let mut octets = [0; 2];
    BigEndian::write_u16(&mut octets, number);
    out.extend_from_slice(&octets)?;
    Ok(())
}

/// A number of four octets.
pub(crate) fn append_long(number: u32, out: &mut Vec<u8>) -> Result<(), MethodFault>
    ensures ok { OnOk result (out.new.items ≡ out.old.items ++ plain_argument (long number)) }
    ensures fits { OnOk result (Fitting (long number)) }
    ensures err { IfErr result (λ e. e ≡ out_of_memory) }
    ensures kept { OnErr result (take (length out.old.items) out.new.items ≡ out.old.items) }
{
    let mut octets = [0; 4];
    BigEndian::write_u32(&mut octets, number);
    out.extend_from_slice(&octets)?;
    Ok(())
}

/// A number of eight octets.
pub(crate) fn append_long_long(number: u64, out: &mut Vec<u8>) -> Result<(), MethodFault>
    ensures ok { OnOk result (out.new.items ≡ out.old.items ++ plain_argument (long_long number)) }
    ensures fits { OnOk result (Fitting (long_long number)) }
    ensures err { IfErr result (λ e. e ≡ out_of_memory) }
    ensures kept { OnErr result (take (length out.old.items) out.new.items ≡ out.old.items) }
{
    let mut octets = [0; 8];
    BigEndian::write_u64(&mut octets, number);
    out.extend_from_slice(&octets)?;
    Ok(())
}

/// The kind's zero, or nothing, in octets of its own.
#[tactic(auto, using(crate::proofs::WritingLemmas::nothing_fits))]
fn append_zero(kind: FieldKind, out: &mut Vec<u8>) -> Result<(), MethodFault>
    ensures ok { OnOk result (out.new.items ≡ out.old.items ++ plain_argument (nothing kind)) }
    ensures err { IfErr result (λ e. e ≡ out_of_memory) }
    ensures kept { OnErr result (take (length out.old.items) out.new.items ≡ out.old.items) }
{
    match kind {
        FieldKind::Bit => Ok(()),
        FieldKind::Octet | FieldKind::ShortStr => append_octet(0, out),
        FieldKind::Short => append_short(0, out),
        FieldKind::Long | FieldKind::LongStr | FieldKind::Table => append_long(0, out),
        FieldKind::LongLong => append_long_long(0, out),
    }
}

/// A reserved field, after the bits gathered.
fn append_nothing(kind: FieldKind, run: BitRun, out: &mut Vec<u8>) -> Result<BitRun, MethodFault>
    ensures ok { OnOk result (out.new.items ≡ out.old.items ++ written_for (nothing kind) (gathered run)) }
    ensures after { IfOk result (λ next. gathered next ≡ gathered_after (nothing kind) (gathered run)) }
    ensures err { IfErr result (λ e. e ≡ out_of_memory) }
    ensures kept { OnErr result (take (length out.old.items) out.new.items ≡ out.old.items) }
{
    if kind.is(FieldKind::Bit) {
        return run.push(false, out);
    }
    run.finish(out)?;
    append_zero(kind, out)?;
    Ok(BitRun::none())
}

/// The value of a field, of the arguments that are left, and those after it.
fn append_value<'a>(
    field: &Field,
    args: &'a [Arg],
    run: BitRun,
    out: &mut Vec<u8>,
) -> Result<(BitRun, &'a [Arg]), MethodFault>
    ensures ok { OnOk result (out.new.items ≡ out.old.items
        ++ written_for (value_for field.now.reserved field.now.kind (args_view args.now)) (gathered run)) }
    ensures after { IfOk result (λ x. gathered x.0 ≡ gathered_after
        (value_for field.now.reserved field.now.kind (args_view args.now)) (gathered run)) }
    ensures left { IfOk result (λ x. args_view x.1.now ≡ args_left_by field.now.reserved (args_view args.now)) }
    ensures fits { OnOk result (Fitting (value_for field.now.reserved field.now.kind (args_view args.now))) }
    ensures too_long { result ≡ Err too_long → CountFits
        (value_for field.now.reserved field.now.kind (args_view args.now)) → ⊥ }
    ensures err { IfErr result (λ e. (e ≡ too_long) ⊎ (e ≡ out_of_memory)) }
    ensures kept { OnErr result (take (length out.old.items) out.new.items ≡ out.old.items) }
{
    if field.reserved {
        let run = append_nothing(field.kind, run, out)?;
        return Ok((run, args));
    }
    let Some((arg, others)) = args.split_first() else {
        let run = append_nothing(field.kind, run, out)?;
        return Ok((run, args));
    };
    let run = append_arg(arg, run, out)?;
    Ok((run, others))
}

/// The arguments, each reserved field with them.
pub(crate) fn append_args(
    fields: &[Field],
    args: &[Arg],
    out: &mut Vec<u8>,
) -> Result<(), MethodFault>
    ensures ok { OnOk result (out.new.items ≡ out.old.items
        ++ written_values (complete (map field_view fields.now) (args_view args.now)) none_gathered) }
    ensures fits { OnOk result (AllFitting (complete (map field_view fields.now) (args_view args.now))) }
    ensures too_long { result ≡ Err too_long → CountsAllFit (complete (map field_view fields.now) (args_view args.now))
        → ⊥ }
    ensures err { IfErr result (λ e. (e ≡ too_long) ⊎ (e ≡ out_of_memory)) }
    ensures kept { OnErr result (take (length out.old.items) out.new.items ≡ out.old.items) }
{
    let mut run = BitRun::none();
    let mut rest = args;
    for field in fields {
        let (next, others) = append_value(field, rest, run, out)?;
        run = next;
        rest = others;
    }
    run.finish(out)
}
