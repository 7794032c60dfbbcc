//! Content headers as octets.
ghost use Rattle.std.specs.Prelude.{◌≡◌, ◌<◌, ◌⊎◌, ◌++◌, ◌^◌, length, take, IfOk, IfErr, OnOk, OnErr, Ok, Err};
ghost use Rattle.amqp_method.specs.Faults.{out_of_memory, too_long};
ghost use Rattle.amqp_method.specs.HeaderReading.{header_at};
ghost use Rattle.amqp_method.specs.HeaderView.{header_view, properties_view};
ghost use Rattle.amqp_method.specs.Plain.{plain_start, plain_header, CountsPresentFit};
ghost use Rattle.amqp_method.specs.Properties.{header};
ghost use Rattle.amqp_method.specs.Reading.{Gives};
ghost use Rattle.amqp_method.specs.ReadsHeader.{ReadsHeader};
ghost use Rattle.amqp_method.specs.Writes.{WritesHeader};
ghost use Rattle.amqp_method.specs.Writing.{PresentFitting};
ghost use Rattle.amqp_method.specs.declared.faults.MethodFault.{MethodFault};

use crate::faults::MethodFault;
use crate::header_ref::HeaderRef;
use crate::header_start::{BASIC, START_LENGTH};
use crate::headers::{Header, Properties};
use crate::properties::{append_present, flags_word, lent_properties};
use byteorder::{BigEndian, ByteOrder};
use std::alloc::Global;

/// The content header that a payload encodes: the class id 60 and the weight 0, 16 bits each, the size of the body in
/// 64 bits, the flags in 16, and the properties whose flags are set (AMQP 0-9-1 specification, section 4.2.6.1).
///
/// A fault tells the first field that can't be read, by its first octet; for a field table, the octet in it.
///
/// A header is large. It stands apart, so that it is moved as one piece, and not property by property.
#[inline(never)]
pub fn read_header(alloc: Global, octets: &[u8]) -> Result<Header, MethodFault>
    ensures { ReadsHeader octets.now result }
{
    exact_header(alloc, octets)
}

fn exact_header(alloc: Global, octets: &[u8]) -> Result<Header, MethodFault>
    ensures exact { Gives header_view result (header_at octets.now) }
    ensures faulty { (e : MethodFault) → header_at octets.now ≡ Err e → result ≡ Err e }
{
    let mut header = Header::default();
    read_header_into(alloc, octets, &mut header)?;
    Ok(header)
}

/// Reads as [`read_header`] does, in a header that is there already: what it was before is gone. After a fault of the
/// octets it is as it was, and out of memory it has some of the properties.
///
/// A header is large, so who keeps it in a box reads it there.
pub fn read_header_into(
    alloc: Global,
    octets: &[u8],
    header: &mut Header,
) -> Result<(), MethodFault>
    ensures exact { Gives (λ done. header_view header.new) result (header_at octets.now) }
    // A fault of the octets is reported whatever memory there is, and the header is as it was.
    ensures faulty { (e : MethodFault) → header_at octets.now ≡ Err e
        → (result ≡ Err e) × (header_view header.new ≡ header_view header.old) }
{
    let lent = HeaderRef::new(octets)?;
    lent.read_into(alloc, header)?;
    Ok(())
}

/// Appends the header's payload: the class id 60, the weight 0, the size of the body, the flags, and the properties
/// that are there.
///
/// [`TooLong`](amqp_value::ValueFaultKind::TooLong) where a count passes 4294967295. After a fault the output is as it
/// was.
pub fn write_header(header: &Header, out: &mut Vec<u8>) -> Result<(), MethodFault>
    ensures { WritesHeader (header_view header.now) out.old.items result out.new.items }
{
    write_header_parts(header.body_size, &header.properties, out)
}

/// Appends the payload of a header with this size of the body and these properties, as [`write_header`] does.
pub fn write_header_parts(
    body_size: u64,
    properties: &Properties,
    out: &mut Vec<u8>,
) -> Result<(), MethodFault>
    ensures { WritesHeader (header body_size (properties_view properties.now)) out.old.items result out.new.items }
{
    let before = out.len();
    let written = append_header(body_size, properties, out);
    if written.is_err() {
        out.truncate(before);
    }
    written
}

fn append_header(
    body_size: u64,
    properties: &Properties,
    out: &mut Vec<u8>,
) -> Result<(), MethodFault>
    ensures ok { OnOk result (out.new.items ≡ out.old.items
        ++ plain_header (header body_size (properties_view properties.now))) }
    ensures fits { OnOk result (PresentFitting (properties_view properties.now)) }
    ensures size { OnOk result (body_size < 2 ^ 64) }
    ensures too_long { result ≡ Err too_long → CountsPresentFit (properties_view properties.now) → ⊥ }
    ensures err { IfErr result (λ e. (e ≡ too_long) ⊎ (e ≡ out_of_memory)) }
    ensures kept { OnErr result (take (length out.old.items) out.new.items ≡ out.old.items) }
{
    let present = lent_properties(properties);
    append_prefix(body_size, flags_word(&present), out)?;
    append_present(&present, out)
}

/// The octets of a header before its properties.
fn prefix_octets(body_size: u64, flags: u16) -> [u8; START_LENGTH]
    ensures { result ≡ plain_start body_size flags }
{
    let mut prefix = [0; START_LENGTH];
    BigEndian::write_u16(&mut prefix, BASIC);
    BigEndian::write_u64(&mut prefix[4..], body_size);
    BigEndian::write_u16(&mut prefix[12..], flags);
    prefix
}

/// Appends them.
fn append_prefix(body_size: u64, flags: u16, out: &mut Vec<u8>) -> Result<(), MethodFault>
    ensures ok { OnOk result (out.new.items ≡ out.old.items ++ plain_start body_size flags) }
    ensures size { OnOk result (body_size < 2 ^ 64) }
    ensures err { IfErr result (λ e. e ≡ out_of_memory) }
    ensures kept { OnErr result (take (length out.old.items) out.new.items ≡ out.old.items) }
{
    let prefix = prefix_octets(body_size, flags);
    out.extend_from_slice(&prefix)?;
    Ok(())
}
