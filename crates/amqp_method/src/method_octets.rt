//! Methods as octets.
ghost use Rattle.std.specs.Prelude.{◌⊎◌, ◌≡◌, ◌++◌, length, take, IfErr, OnOk, OnErr, Err};
ghost use Rattle.amqp_method.specs.Encoding.{EncodesMethod};
ghost use Rattle.amqp_method.specs.Faults.{out_of_memory, too_long};
ghost use Rattle.amqp_method.specs.MethodView.{method_view};
ghost use Rattle.amqp_method.specs.Plain.{plain_method, CountsAllFit};
ghost use Rattle.amqp_method.specs.Reading.{Gives, method_at};
ghost use Rattle.amqp_method.specs.ReadsMethod.{ReadsMethod};
ghost use Rattle.amqp_method.specs.Writes.{WritesMethod};
ghost use Rattle.amqp_method.specs.declared.faults.MethodFault.{MethodFault};

use crate::faults::MethodFault;
use crate::kinds::schema;
use crate::method_ref::MethodRef;
use crate::methods::Method;
use crate::writing::{append_args, append_short};
use std::alloc::Global;

/// The method that a payload encodes: the class id and the method id, 16 bits each, and the arguments (AMQP 0-9-1
/// specification, section 2.3.5.2).
///
/// Free bits and reserved fields are read in any value and dropped. A fault tells the first field that can't be read,
/// by its first octet; for a field table, the octet in it.
pub fn read_method(alloc: Global, octets: &[u8]) -> Result<Method, MethodFault>
    ensures { ReadsMethod octets.now result }
{
    exact_method(alloc, octets)
}

fn exact_method(alloc: Global, octets: &[u8]) -> Result<Method, MethodFault>
    ensures exact { Gives method_view result (method_at octets.now) }
    ensures faulty { (e : MethodFault) → method_at octets.now ≡ Err e → result ≡ Err e }
{
    let lent = MethodRef::new(octets)?;
    let args = lent.own_args(alloc)?;
    Ok(Method::new(lent.kind(), args))
}

/// Appends the method's payload: the class id, the method id and the arguments. Free bits are 0, and reserved fields
/// are zero or empty.
///
/// [`TooLong`](amqp_value::ValueFaultKind::TooLong) where a count passes 4294967295. After a fault the output is as it
/// was.
pub fn write_method(method: &Method, out: &mut Vec<u8>) -> Result<(), MethodFault>
    ensures { WritesMethod (method_view method.now) out.old.items result out.new.items }
{
    let before = out.len();
    let written = append_method(method, out);
    if written.is_err() {
        out.truncate(before);
    }
    written
}

fn append_method(method: &Method, out: &mut Vec<u8>) -> Result<(), MethodFault>
    ensures ok { OnOk result (out.new.items ≡ out.old.items ++ plain_method (method_view method.now)) }
    ensures encoded { OnOk result (EncodesMethod (method_view method.now) (plain_method (method_view method.now))) }
    ensures too_long { result ≡ Err too_long → CountsAllFit (method_view method.now).args → ⊥ }
    ensures err { IfErr result (λ e. (e ≡ too_long) ⊎ (e ≡ out_of_memory)) }
    ensures kept { OnErr result (take (length out.old.items) out.new.items ≡ out.old.items) }
{
    let kind = method.kind();
    append_short(kind.class_id(), out)?;
    append_short(kind.method_id(), out)?;
    append_args(schema(kind), method.args(), out)
}
