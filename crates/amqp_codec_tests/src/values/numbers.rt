//! Whole numbers at both ends of their widths: a table of one pair, read, printed and written again.
use crate::values::tables::assert_shown;
use std::alloc::Global;
use std::process::Abort;
use std::test::Fail;

/// The least and the greatest number of each tag of 8 and 16 bits, and the text.
static SHORT: [(&str, &str); 10] = [
    ("00000004016e6280", "{\"n\"=b:-128}"),
    ("00000004016e627f", "{\"n\"=b:127}"),
    ("00000004016e4200", "{\"n\"=B:0}"),
    ("00000004016e42ff", "{\"n\"=B:255}"),
    ("00000005016e738000", "{\"n\"=s:-32768}"),
    ("00000005016e737fff", "{\"n\"=s:32767}"),
    ("00000005016e558000", "{\"n\"=U:-32768}"),
    ("00000005016e557fff", "{\"n\"=U:32767}"),
    ("00000005016e750000", "{\"n\"=u:0}"),
    ("00000005016e75ffff", "{\"n\"=u:65535}"),
];

/// The least and the greatest number of each tag of 32 and 64 bits, and the text.
static LONG: [(&str, &str); 10] = [
    ("00000007016e4980000000", "{\"n\"=I:-2147483648}"),
    ("00000007016e497fffffff", "{\"n\"=I:2147483647}"),
    ("00000007016e6900000000", "{\"n\"=i:0}"),
    ("00000007016e69ffffffff", "{\"n\"=i:4294967295}"),
    (
        "0000000b016e6c8000000000000000",
        "{\"n\"=l:-9223372036854775808}",
    ),
    (
        "0000000b016e6c7fffffffffffffff",
        "{\"n\"=l:9223372036854775807}",
    ),
    (
        "0000000b016e4c8000000000000000",
        "{\"n\"=L:-9223372036854775808}",
    ),
    (
        "0000000b016e4c7fffffffffffffff",
        "{\"n\"=L:9223372036854775807}",
    ),
    ("0000000b016e540000000000000000", "{\"n\"=T:0}"),
    (
        "0000000b016e54ffffffffffffffff",
        "{\"n\"=T:18446744073709551615}",
    ),
];

fn assert_numbers(
    rt: &impl Abort,
    alloc: Global,
    rows: &[(&'static str, &'static str)],
) -> Result<(), Fail> {
    for (octets, text) in rows.iter().copied() {
        assert_shown(rt, alloc, octets, text, octets)?;
    }
    Ok(())
}

#[test]
fn numbers_of_8_and_16_bits(rt: HostRuntime) -> Result<(), Fail> {
    assert_numbers(&rt, rt.alloc(), &SHORT)
}

#[test]
fn numbers_of_32_and_64_bits(rt: HostRuntime) -> Result<(), Fail> {
    assert_numbers(&rt, rt.alloc(), &LONG)
}
