//! Strings on both sides of the lengths at which they are kept otherwise: two words, what lies in place, what a length octet says.
use crate::octets::{joined, octets};
use crate::showing::assert_same;
use crate::values::tables::written;
use amqp_value::{Octets, Table, Value, read_table};
use std::alloc::Global;
use std::process::Abort;
use std::test::Fail;

static LENGTHS: [usize; 11] = [0, 1, 8, 15, 16, 17, 22, 23, 24, 255, 256];

/// Octets that are kept, copied and given back are what they were made of, wherever they lie.
fn assert_kept(rt: &impl Abort, alloc: Global, text: &[u8]) -> Result<(), Fail> {
    let kept = Octets::new(alloc, text)?;
    assert!(rt; kept.as_bytes() == text);
    assert_same(rt, kept.len(), text.len());
    assert_same(rt, kept.is_empty(), text.is_empty());
    let allocated = Octets::from(Vec::from_slice(alloc, text)?);
    assert!(rt; allocated == kept);
    assert!(rt; allocated.copy()? == kept.copy()?);
    assert!(rt; kept.into_vec(alloc)?.as_slice() == text);
    assert!(rt; allocated.into_vec(alloc)?.as_slice() == text);
    Ok(())
}

#[test]
fn octets_are_kept(rt: HostRuntime) -> Result<(), Fail> {
    for length in LENGTHS.iter().copied() {
        let text = octets(rt.alloc(), length)?;
        assert_kept(&rt, rt.alloc(), &text)?;
    }
    Ok(())
}

/// How many octets there are, in 32 bits.
fn count_of(octets: &[u8]) -> [u8; 4] {
    u32::try_from(octets.len())
        .unwrap_or(u32::MAX)
        .to_be_bytes()
}

/// A table of two pairs, `a` and `b`, with a value of this tag and these octets each: in the middle and at the end.
fn table_of(alloc: Global, tag: u8, text: &[u8]) -> Result<Vec<u8>, Fail> {
    let count = count_of(text);
    let [first, second] = [[1, b'a', tag], [1, b'b', tag]];
    let pairs = joined(alloc, &[&first, &count, text, &second, &count, text])?;
    joined(alloc, &[&count_of(&pairs), &pairs])
}

/// The octets of a string or a byte array.
fn text_in(value: Option<&Value>) -> Option<&[u8]> {
    match value {
        Some(Value::LongString(text)) => Some(text.as_bytes()),
        Some(Value::ByteArray(octets)) => Some(octets.as_bytes()),
        _ => None,
    }
}

fn assert_texts(rt: &impl Abort, table: &Table, text: &[u8]) {
    assert_same(rt, table.len(), 2);
    assert!(rt; text_in(table.get(b"a")) == Some(text));
    assert!(rt; text_in(table.get(b"b")) == Some(text));
}

fn assert_read(rt: &impl Abort, alloc: Global, tag: u8, text: &[u8]) -> Result<(), Fail> {
    let whole = table_of(alloc, tag, text)?;
    let (table, read) = read_table(alloc, &whole)?;
    assert_same(rt, read, whole.len());
    assert_texts(rt, &table, text);
    assert!(rt; written(alloc, &table)? == whole);
    Ok(())
}

#[test]
fn strings_are_read_and_written(rt: HostRuntime) -> Result<(), Fail> {
    for length in LENGTHS.iter().copied() {
        let text = octets(rt.alloc(), length)?;
        assert_read(&rt, rt.alloc(), b'S', &text)?;
        assert_read(&rt, rt.alloc(), b'x', &text)?;
    }
    Ok(())
}
