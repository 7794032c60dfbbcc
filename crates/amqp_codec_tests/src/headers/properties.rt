//! Each property by the name of its field: written alone to known octets, and read from them into that field.
use crate::showing::{assert_same, assert_same_for};
use amqp_method::{Header, Properties, read_header, write_header};
use amqp_value::{ShortStr, Table, Value};
use std::alloc::Global;
use std::process::Abort;
use std::test::Fail;

/// The text of the property of that bit: `pa` for bit 15, `pb` for bit 14, and so on.
pub(crate) fn text_of(bit: u8) -> [u8; 2] {
    [b'p', b'a'.wrapping_add(15u8.wrapping_sub(bit))]
}

/// The table `{"k"=t:1}`.
fn table(alloc: Global) -> Result<Table, Fail> {
    let mut table = Table::new(alloc);
    table.push(ShortStr::new(alloc, b"k")?, Value::Boolean(true))?;
    Ok(table)
}

/// Sets the property of that bit, which is a text.
fn set_text(properties: &mut Properties, bit: u8, text: ShortStr) {
    let text = Some(text);
    match bit {
        15 => properties.content_type = text,
        14 => properties.content_encoding = text,
        10 => properties.correlation_id = text,
        9 => properties.reply_to = text,
        8 => properties.expiration = text,
        7 => properties.message_id = text,
        5 => properties.type_name = text,
        4 => properties.user_id = text,
        3 => properties.app_id = text,
        2 => properties.cluster_id = text,
        _ => drop(text),
    }
}

/// Sets the property of that bit of the flags.
fn set_bit(alloc: Global, properties: &mut Properties, bit: u8) -> Result<(), Fail> {
    match bit {
        13 => properties.headers = Some(table(alloc)?),
        12 => properties.delivery_mode = Some(0xf4),
        11 => properties.priority = Some(0xf5),
        6 => properties.timestamp = Some(0xf1f2_f3f4_f5f6_f7f8),
        _ => set_text(properties, bit, ShortStr::new(alloc, &text_of(bit))?),
    }
    Ok(())
}

/// The property of that bit, and no other.
fn with_bit(alloc: Global, bit: u8) -> Result<Properties, Fail> {
    let mut properties = Properties::default();
    set_bit(alloc, &mut properties, bit)?;
    Ok(properties)
}

fn is_text(text: &Option<ShortStr>, bit: u8) -> bool {
    match text {
        Some(text) => text.as_bytes() == text_of(bit).as_slice(),
        None => false,
    }
}

/// Whether the property of that bit is there with the value that [`with_bit`] gives it.
fn has_bit(properties: &Properties, bit: u8) -> bool {
    match bit {
        15 => is_text(&properties.content_type, 15),
        14 => is_text(&properties.content_encoding, 14),
        13 => match &properties.headers {
            Some(table) => table.pairs().len() == 1,
            None => false,
        },
        12 => properties.delivery_mode == Some(0xf4),
        11 => properties.priority == Some(0xf5),
        10 => is_text(&properties.correlation_id, 10),
        9 => is_text(&properties.reply_to, 9),
        8 => is_text(&properties.expiration, 8),
        7 => is_text(&properties.message_id, 7),
        6 => properties.timestamp == Some(0xf1f2_f3f4_f5f6_f7f8),
        5 => is_text(&properties.type_name, 5),
        4 => is_text(&properties.user_id, 4),
        3 => is_text(&properties.app_id, 3),
        2 => is_text(&properties.cluster_id, 2),
        _ => false,
    }
}

/// The bit, the flags with it and the octets of the value.
pub(crate) static ALONE: [(u8, &str); 14] = [
    (15, "8000027061"),
    (14, "4000027062"),
    (13, "200000000004016b7401"),
    (12, "1000f4"),
    (11, "0800f5"),
    (10, "0400027066"),
    (9, "0200027067"),
    (8, "0100027068"),
    (7, "0080027069"),
    (6, "0040f1f2f3f4f5f6f7f8"),
    (5, "002002706b"),
    (4, "001002706c"),
    (3, "000802706d"),
    (2, "000402706e"),
];

fn assert_octets(
    rt: &impl Abort,
    alloc: Global,
    header: &Header,
    wanted: &str,
) -> Result<(), Fail> {
    let mut octets = Vec::new(alloc);
    write_header(header, &mut octets)?;
    let digits = hex::encode(alloc, octets.as_slice())?;
    assert_same(rt, digits.as_str(), wanted);
    Ok(())
}

/// The header with the property of that bit alone is written to the octets.
fn assert_written(rt: &impl Abort, alloc: Global, bit: u8, wanted: &str) -> Result<(), Fail> {
    let header = Header {
        body_size: 0xf1f2_f3f4_f5f6_f7f8,
        properties: with_bit(alloc, bit)?,
    };
    assert_octets(rt, alloc, &header, wanted)
}

fn assert_has_alone(rt: &impl Abort, properties: &Properties, bit: u8) {
    for (other, _) in ALONE {
        assert_same_for(rt, has_bit(properties, other), other == bit, (other, bit));
    }
}

/// A copy has the property of that bit alone too.
fn assert_copied(rt: &impl Abort, properties: &Properties, bit: u8) -> Result<(), Fail> {
    let copy = properties.copy()?;
    assert_has_alone(rt, &copy, bit);
    Ok(())
}

fn assert_alone(rt: &impl Abort, header: &Header, bit: u8) -> Result<(), Fail> {
    assert_same(rt, header.body_size, 0xf1f2_f3f4_f5f6_f7f8);
    assert_has_alone(rt, &header.properties, bit);
    assert_copied(rt, &header.properties, bit)
}

/// The octets are read as a header with the property of that bit alone.
fn assert_read(rt: &impl Abort, alloc: Global, bit: u8, digits: &str) -> Result<(), Fail> {
    let octets = hex::decode(alloc, digits)?;
    let header = read_header(alloc, &octets)?;
    assert_alone(rt, &header, bit)
}

#[test]
fn each_property_has_its_field_and_its_bit(rt: HostRuntime) -> Result<(), Fail> {
    for (bit, rest) in ALONE {
        let wanted = format!(in rt.alloc(); "003c0000f1f2f3f4f5f6f7f8{rest}")?;
        assert_written(&rt, rt.alloc(), bit, wanted.as_str())?;
        assert_read(&rt, rt.alloc(), bit, wanted.as_str())?;
    }
    Ok(())
}

#[test]
fn properties_are_made_in_a_line(rt: HostRuntime) -> Result<(), Fail> {
    let text = ShortStr::new(rt.alloc(), b"pa")?;
    let none = Properties::default();
    assert!(rt; none.is_empty());
    let properties = none.with_content_type(text).with_delivery_mode(2);
    assert!(rt; !properties.is_empty());
    let header = Header {
        body_size: 1,
        properties,
    };
    let wanted = "003c00000000000000000001900002706102";
    assert_octets(&rt, rt.alloc(), &header, wanted)
}
