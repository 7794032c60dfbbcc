//! Content headers as they lie in their octets: each property alone, and all.
use crate::headers::properties::{ALONE, text_of};
use crate::showing::{assert_for, assert_printed, assert_same, assert_same_for};
use amqp_method::{Header, HeaderRef, check_header, read_header, read_headers};
use std::alloc::Global;
use std::process::Abort;
use std::test::Fail;

/// The size of each body here.
const SIZE: u64 = 0xf1f2_f3f4_f5f6_f7f8;

/// All properties, with the values that they have alone: the flags, and each value.
const ALL: &str = "fffc02706102706200000004016b7401f4f5027066027067027068027069\
f1f2f3f4f5f6f7f802706b02706c02706d02706e";

/// The text of that header.
const ALL_TEXT: &str =
    "header size=17434265340928784376 content-type=\"pa\" content-encoding=\"pb\" \
headers={\"k\"=t:1} delivery-mode=244 priority=245 correlation-id=\"pf\" reply-to=\"pg\" \
expiration=\"ph\" message-id=\"pi\" timestamp=17434265340928784376 type=\"pk\" user-id=\"pl\" \
app-id=\"pm\" cluster-id=\"pn\"";

fn is_text(text: Option<&[u8]>, bit: u8) -> bool {
    text == Some(text_of(bit).as_slice())
}

fn has_table(header: HeaderRef) -> bool {
    match header.headers() {
        Some(table) => table.octets() == b"\x00\x00\x00\x04\x01kt\x01".as_slice(),
        None => false,
    }
}

/// Whether the property of that bit is there with the value that it has alone.
fn has_bit(header: HeaderRef, bit: u8) -> bool {
    match bit {
        15 => is_text(header.content_type(), 15),
        14 => is_text(header.content_encoding(), 14),
        13 => has_table(header),
        12 => header.delivery_mode() == Some(0xf4),
        11 => header.priority() == Some(0xf5),
        10 => is_text(header.correlation_id(), 10),
        9 => is_text(header.reply_to(), 9),
        8 => is_text(header.expiration(), 8),
        7 => is_text(header.message_id(), 7),
        6 => header.timestamp() == Some(0xf1f2_f3f4_f5f6_f7f8),
        5 => is_text(header.type_name(), 5),
        4 => is_text(header.user_id(), 4),
        3 => is_text(header.app_id(), 3),
        2 => is_text(header.cluster_id(), 2),
        _ => false,
    }
}

/// A header is read in one walk, with its table of headers, exactly when it has no other property.
fn assert_one_walk(rt: &impl Abort, alloc: Global, header: HeaderRef) -> Result<(), Fail> {
    let owned = read_header(alloc, header.payload())?;
    let is_alone = header.flags() == 0 || header.flags() == 0x2000;
    match read_headers(alloc, header.payload()) {
        Some((read, headers)) => {
            assert!(rt; is_alone);
            assert!(rt; read == header);
            assert!(rt; headers == owned.properties.headers);
        }
        None => assert!(rt; !is_alone),
    }
    Ok(())
}

/// Whether it is this header once it is owned.
fn is_owned_as(alloc: Global, header: HeaderRef, wanted: &Header) -> Result<bool, Fail> {
    let owned = header.to_owned(alloc)?;
    Ok(owned == *wanted)
}

/// The octets are a header's, and owned it is the one that they are read as.
fn assert_owned(rt: &impl Abort, alloc: Global, header: HeaderRef) -> Result<(), Fail> {
    assert_one_walk(rt, alloc, header)?;
    assert_same(rt, check_header(header.payload()), Ok(SIZE));
    assert_same(rt, header.body_size(), SIZE);
    let read = read_header(alloc, header.payload())?;
    let is_same = is_owned_as(alloc, header, &read);
    drop(read);
    assert!(rt; is_same?);
    Ok(())
}

#[test]
fn each_property_is_seen_alone(rt: HostRuntime) -> Result<(), Fail> {
    for (bit, rest) in ALONE {
        let digits = format!(in rt.alloc(); "003c0000f1f2f3f4f5f6f7f8{rest}")?;
        let octets = hex::decode(rt.alloc(), digits.as_str())?;
        let header = HeaderRef::new(&octets)?;
        assert_owned(&rt, rt.alloc(), header)?;
        assert_same_for(&rt, header.flags(), 1u16.wrapping_shl(u32::from(bit)), bit);
        for (other, _) in ALONE {
            assert_same_for(&rt, has_bit(header, other), other == bit, (other, bit));
        }
    }
    Ok(())
}

#[test]
fn lent_headers_compared(rt: HostRuntime) -> Result<(), Fail> {
    let digits = format!(in rt.alloc(); "003c0000f1f2f3f4f5f6f7f8{ALL}")?;
    let octets = hex::decode(rt.alloc(), digits.as_str())?;
    let header = HeaderRef::new(&octets)?;
    for (bit, rest) in ALONE {
        let digits = format!(in rt.alloc(); "003c0000f1f2f3f4f5f6f7f8{rest}")?;
        let octets = hex::decode(rt.alloc(), digits.as_str())?;
        let alone = HeaderRef::new(&octets)?;
        assert_for(&rt, alone == alone, bit);
        assert_for(&rt, alone != header, bit);
        assert_for(&rt, header != alone, bit);
    }
    Ok(())
}

#[test]
fn all_properties_are_seen(rt: HostRuntime) -> Result<(), Fail> {
    let digits = format!(in rt.alloc(); "003c0000f1f2f3f4f5f6f7f8{ALL}")?;
    let octets = hex::decode(rt.alloc(), digits.as_str())?;
    let header = HeaderRef::new(&octets)?;
    assert_owned(&rt, rt.alloc(), header)?;
    assert_same(&rt, header.flags(), 0xfffc);
    for (bit, _) in ALONE {
        assert_for(&rt, has_bit(header, bit), bit);
    }
    assert_printed(&rt, rt.alloc(), &header, ALL_TEXT, ALL_TEXT)
}

#[test]
fn a_header_without_properties(rt: HostRuntime) -> Result<(), Fail> {
    let digits = "003c0000f1f2f3f4f5f6f7f80000";
    let octets = hex::decode(rt.alloc(), digits)?;
    let header = HeaderRef::new(&octets)?;
    assert_owned(&rt, rt.alloc(), header)?;
    assert_same(&rt, header.flags(), 0);
    for (bit, _) in ALONE {
        assert_for(&rt, !has_bit(header, bit), bit);
    }
    Ok(())
}

/// Headers that can't be read: with octets after the table, without its last octet, with a tag that no value has, of
/// another class, with an octet after no property.
static BROKEN: [&str; 5] = [
    "003c0000f1f2f3f4f5f6f7f8200000000004016b740100",
    "003c0000f1f2f3f4f5f6f7f8200000000004016b74",
    "003c0000f1f2f3f4f5f6f7f8200000000004016b7a01",
    "003d0000f1f2f3f4f5f6f7f8200000000004016b7401",
    "003c0000f1f2f3f4f5f6f7f8000000",
];

#[test]
fn a_broken_header_is_not_read_in_one_walk(rt: HostRuntime) -> Result<(), Fail> {
    for digits in BROKEN.iter().copied() {
        let octets = hex::decode(rt.alloc(), digits)?;
        assert_for(&rt, read_headers(rt.alloc(), &octets).is_none(), digits);
        assert_for(&rt, HeaderRef::new(&octets).is_err(), digits);
    }
    Ok(())
}
