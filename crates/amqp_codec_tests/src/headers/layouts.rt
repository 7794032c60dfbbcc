//! Content headers as the standard lays them out, read, written and printed.
use crate::octets::{joined, octets};
use crate::showing::assert_same;
use amqp_method::{
    Header, HeaderRef, MethodFault, MethodFaultKind, Properties, check_header, header_text,
    read_header, read_header_into, write_header,
};
use amqp_value::ValueFaultKind;
use std::alloc::Global;
use std::process::Abort;
use std::test::Fail;

fn assert_text(rt: &impl Abort, alloc: Global, header: &Header, text: &str) -> Result<(), Fail> {
    assert_same(rt, header_text(alloc, header)?.as_str(), text);
    Ok(())
}

fn header_reads_as(rt: &impl Abort, alloc: Global, octets: &[u8], text: &str) -> Result<(), Fail> {
    let header = read_header(alloc, octets)?;
    assert_text(rt, alloc, &header, text)
}

static BROKEN_HEADERS: [(&[u8], MethodFault); 6] = [
    (
        &[
            0x00, 0x3c, 0x00, 0x01, 0x00, 0x00, 0x00, 0x00, 0x00, 0x00, 0x00, 0x00, 0x00, 0x00,
        ],
        MethodFault {
            at: 2,
            kind: MethodFaultKind::BadWeight,
        },
    ),
    (
        &[
            0x00, 0x3c, 0x00, 0x00, 0x00, 0x00, 0x00, 0x00, 0x00, 0x00, 0x00, 0x00, 0x00, 0x01,
        ],
        MethodFault {
            at: 12,
            kind: MethodFaultKind::BadFlags,
        },
    ),
    (
        &[
            0x00, 0x32, 0x00, 0x00, 0x00, 0x00, 0x00, 0x00, 0x00, 0x00, 0x00, 0x00, 0x00, 0x00,
        ],
        MethodFault {
            at: 0,
            kind: MethodFaultKind::UnknownMethod,
        },
    ),
    (
        &[0x00, 0x32],
        MethodFault {
            at: 0,
            kind: MethodFaultKind::UnknownMethod,
        },
    ),
    (
        &[
            0x00, 0x3c, 0x00, 0x00, 0x00, 0x00, 0x00, 0x00, 0x00, 0x00, 0x00, 0x00, 0x00, 0x00,
            0x00,
        ],
        MethodFault {
            at: 14,
            kind: MethodFaultKind::Trailing,
        },
    ),
    (
        &[
            0x00, 0x3c, 0x00, 0x00, 0x00, 0x00, 0x00, 0x00, 0x00, 0x00, 0x00, 0x00, 0x80, 0x00,
        ],
        MethodFault {
            at: 14,
            kind: MethodFaultKind::Value(ValueFaultKind::Ends),
        },
    ),
];

#[test]
fn faults_of_headers(rt: HostRuntime) {
    for (octets, fault) in BROKEN_HEADERS {
        assert_same(&rt, read_header(rt.alloc(), octets).err(), Some(fault));
        assert_same(&rt, check_header(octets), Err(fault));
        assert_same(&rt, HeaderRef::new(octets).err(), Some(fault));
    }
}

#[test]
fn a_header_with_two_properties(rt: HostRuntime) -> Result<(), Fail> {
    header_reads_as(
        &rt,
        rt.alloc(),
        &[
            0x00, 0x3c, 0x00, 0x00, 0x00, 0x00, 0x00, 0x00, 0x00, 0x00, 0x00, 0x02, 0x90, 0x00,
            0x0a, 0x74, 0x65, 0x78, 0x74, 0x2f, 0x70, 0x6c, 0x61, 0x69, 0x6e, 0x02,
        ],
        "header size=2 content-type=\"text/plain\" delivery-mode=2",
    )
}

/// Headers with no property, with each one alone and with all, and their texts.
static HEADERS: [(&[u8], &str); 16] = [
    (
        &[
            0x00, 0x3c, 0x00, 0x00, 0x00, 0x00, 0x00, 0x00, 0x00, 0x00, 0x00, 0x07, 0x00, 0x00,
        ],
        "header size=7",
    ),
    (
        &[
            0x00, 0x3c, 0x00, 0x00, 0x00, 0x00, 0x00, 0x00, 0x00, 0x00, 0x00, 0x07, 0x80, 0x00,
            0x02, 0x70, 0x61,
        ],
        "header size=7 content-type=\"pa\"",
    ),
    (
        &[
            0x00, 0x3c, 0x00, 0x00, 0x00, 0x00, 0x00, 0x00, 0x00, 0x00, 0x00, 0x07, 0x40, 0x00,
            0x02, 0x70, 0x62,
        ],
        "header size=7 content-encoding=\"pb\"",
    ),
    (
        &[
            0x00, 0x3c, 0x00, 0x00, 0x00, 0x00, 0x00, 0x00, 0x00, 0x00, 0x00, 0x07, 0x20, 0x00,
            0x00, 0x00, 0x00, 0x04, 0x01, 0x6b, 0x74, 0x01,
        ],
        "header size=7 headers={\"k\"=t:1}",
    ),
    (
        &[
            0x00, 0x3c, 0x00, 0x00, 0x00, 0x00, 0x00, 0x00, 0x00, 0x00, 0x00, 0x07, 0x10, 0x00,
            0x04,
        ],
        "header size=7 delivery-mode=4",
    ),
    (
        &[
            0x00, 0x3c, 0x00, 0x00, 0x00, 0x00, 0x00, 0x00, 0x00, 0x00, 0x00, 0x07, 0x08, 0x00,
            0x05,
        ],
        "header size=7 priority=5",
    ),
    (
        &[
            0x00, 0x3c, 0x00, 0x00, 0x00, 0x00, 0x00, 0x00, 0x00, 0x00, 0x00, 0x07, 0x04, 0x00,
            0x02, 0x70, 0x66,
        ],
        "header size=7 correlation-id=\"pf\"",
    ),
    (
        &[
            0x00, 0x3c, 0x00, 0x00, 0x00, 0x00, 0x00, 0x00, 0x00, 0x00, 0x00, 0x07, 0x02, 0x00,
            0x02, 0x70, 0x67,
        ],
        "header size=7 reply-to=\"pg\"",
    ),
    (
        &[
            0x00, 0x3c, 0x00, 0x00, 0x00, 0x00, 0x00, 0x00, 0x00, 0x00, 0x00, 0x07, 0x01, 0x00,
            0x02, 0x70, 0x68,
        ],
        "header size=7 expiration=\"ph\"",
    ),
    (
        &[
            0x00, 0x3c, 0x00, 0x00, 0x00, 0x00, 0x00, 0x00, 0x00, 0x00, 0x00, 0x07, 0x00, 0x80,
            0x02, 0x70, 0x69,
        ],
        "header size=7 message-id=\"pi\"",
    ),
    (
        &[
            0x00, 0x3c, 0x00, 0x00, 0x00, 0x00, 0x00, 0x00, 0x00, 0x00, 0x00, 0x07, 0x00, 0x40,
            0x00, 0x00, 0x00, 0x00, 0x00, 0x00, 0x03, 0xf1,
        ],
        "header size=7 timestamp=1009",
    ),
    (
        &[
            0x00, 0x3c, 0x00, 0x00, 0x00, 0x00, 0x00, 0x00, 0x00, 0x00, 0x00, 0x07, 0x00, 0x20,
            0x02, 0x70, 0x6b,
        ],
        "header size=7 type=\"pk\"",
    ),
    (
        &[
            0x00, 0x3c, 0x00, 0x00, 0x00, 0x00, 0x00, 0x00, 0x00, 0x00, 0x00, 0x07, 0x00, 0x10,
            0x02, 0x70, 0x6c,
        ],
        "header size=7 user-id=\"pl\"",
    ),
    (
        &[
            0x00, 0x3c, 0x00, 0x00, 0x00, 0x00, 0x00, 0x00, 0x00, 0x00, 0x00, 0x07, 0x00, 0x08,
            0x02, 0x70, 0x6d,
        ],
        "header size=7 app-id=\"pm\"",
    ),
    (
        &[
            0x00, 0x3c, 0x00, 0x00, 0x00, 0x00, 0x00, 0x00, 0x00, 0x00, 0x00, 0x07, 0x00, 0x04,
            0x02, 0x70, 0x6e,
        ],
        "header size=7 cluster-id=\"pn\"",
    ),
    (
        &[
            0x00, 0x3c, 0x00, 0x00, 0x00, 0x00, 0x00, 0x00, 0x00, 0x00, 0x00, 0x07, 0xff, 0xfc,
            0x02, 0x70, 0x61, 0x02, 0x70, 0x62, 0x00, 0x00, 0x00, 0x04, 0x01, 0x6b, 0x74, 0x01,
            0x04, 0x05, 0x02, 0x70, 0x66, 0x02, 0x70, 0x67, 0x02, 0x70, 0x68, 0x02, 0x70, 0x69,
            0x00, 0x00, 0x00, 0x00, 0x00, 0x00, 0x03, 0xf1, 0x02, 0x70, 0x6b, 0x02, 0x70, 0x6c,
            0x02, 0x70, 0x6d, 0x02, 0x70, 0x6e,
        ],
        "header size=7 content-type=\"pa\" content-encoding=\"pb\" headers={\"k\"=t:1} delivery-mode=4 priority=5 correlation-id=\"pf\" reply-to=\"pg\" expiration=\"ph\" message-id=\"pi\" timestamp=1009 type=\"pk\" user-id=\"pl\" app-id=\"pm\" cluster-id=\"pn\"",
    ),
];

/// A header has that text, and so has its display.
fn assert_shown(rt: &impl Abort, alloc: Global, header: &Header, text: &str) -> Result<(), Fail> {
    assert_text(rt, alloc, header, text)?;
    assert_same(rt, format!(in alloc; "{header}")?.as_str(), text);
    Ok(())
}

/// Properties, displayed alone, have that text without its start.
fn assert_properties_shown(
    rt: &impl Abort,
    alloc: Global,
    properties: &Properties,
    text: &str,
) -> Result<(), Fail> {
    let shown = format!(in alloc; "{properties}")?;
    match text.split_once("size=7 ") {
        Some((_, wanted)) => assert_same(rt, shown.as_str(), wanted),
        None => assert_same(rt, shown.as_str(), ""),
    }
    Ok(())
}

fn assert_written(
    rt: &impl Abort,
    alloc: Global,
    header: &Header,
    octets: &[u8],
) -> Result<(), Fail> {
    let mut written = Vec::new(alloc);
    write_header(header, &mut written)?;
    assert!(rt; written.as_slice() == octets);
    Ok(())
}

fn copy_of(header: &Header) -> Result<Header, Fail> {
    let properties = header.properties.copy()?;
    Ok(Header {
        body_size: header.body_size,
        properties,
    })
}

/// A copy of a header is written to these octets.
fn assert_copied(
    rt: &impl Abort,
    alloc: Global,
    header: &Header,
    octets: &[u8],
) -> Result<(), Fail> {
    let copy = copy_of(header)?;
    assert_written(rt, alloc, &copy, octets)
}

fn assert_whole(
    rt: &impl Abort,
    alloc: Global,
    header: &Header,
    octets: &[u8],
    text: &str,
) -> Result<(), Fail> {
    assert_shown(rt, alloc, header, text)?;
    assert_properties_shown(rt, alloc, &header.properties, text)?;
    assert_copied(rt, alloc, header, octets)
}

/// The header of the octets is shown as that text, and copied to the same octets.
///
/// Who has a header leaves by one way alone: where there are several, each is a proof that all of it is dropped.
fn assert_row(rt: &impl Abort, alloc: Global, octets: &[u8], text: &str) -> Result<(), Fail> {
    let header = read_header(alloc, octets)?;
    assert_whole(rt, alloc, &header, octets, text)
}

#[test]
fn each_property_alone_all_and_none(rt: HostRuntime) -> Result<(), Fail> {
    for (octets, text) in HEADERS.iter().copied() {
        assert_row(&rt, rt.alloc(), octets, text)?;
    }
    Ok(())
}

fn assert_empty(rt: &impl Abort, alloc: Global, header: Header) -> Result<(), Fail> {
    let empty = [0, 60, 0, 0, 0, 0, 0, 0, 0, 0, 0, 0, 0, 0];
    assert_written(rt, alloc, &header, &empty)
}

#[test]
fn a_default_header_is_empty(rt: HostRuntime) -> Result<(), Fail> {
    assert_empty(&rt, rt.alloc(), Header::default())
}

#[test]
fn default_properties_are_none(rt: HostRuntime) -> Result<(), Fail> {
    let header = Header {
        body_size: 0,
        properties: Properties::default(),
    };
    assert_empty(&rt, rt.alloc(), header)
}

/// A header with a body of a million octets and with all properties, of which each text has 255 octets, and the table a thousand pairs.
fn long_header(alloc: Global) -> Result<Vec<u8>, Fail> {
    let text = octets(alloc, 255)?;
    let name = joined(alloc, &[&[255], &text])?;
    let start = [0, 60, 0, 0, 0, 0, 0, 0, 0, 0x0f, 0x42, 0x40, 0xff, 0xfc];
    let mut table = Vec::from_slice(alloc, &[0, 0, 7, 0xd0])?;
    for _ in 0..1000 {
        table.extend_from_slice(&[0, b'V'])?;
    }
    let parts: [&[u8]; 14] = [
        &start,
        &name,
        &name,
        &table,
        &[2, 9],
        &name,
        &name,
        &name,
        &name,
        &[0xff; 8],
        &name,
        &name,
        &name,
        &name,
    ];
    joined(alloc, &parts)
}

fn assert_long(rt: &impl Abort, alloc: Global, header: &Header, octets: &[u8]) -> Result<(), Fail> {
    assert_same(rt, header.body_size, 1_000_000);
    assert_written(rt, alloc, header, octets)?;
    assert_copied(rt, alloc, header, octets)
}

fn assert_long_read(rt: &impl Abort, alloc: Global, octets: &[u8]) -> Result<(), Fail> {
    let header = read_header(alloc, octets)?;
    assert_long(rt, alloc, &header, octets)
}

#[test]
fn a_header_with_long_properties(rt: HostRuntime) -> Result<(), Fail> {
    let octets = long_header(rt.alloc())?;
    assert_long_read(&rt, rt.alloc(), &octets)
}

/// Reads headers one after another into one, which has the text of the last one each time.
fn read_into(rt: &impl Abort, alloc: Global, header: &mut Header) -> Result<(), Fail> {
    for (octets, text) in HEADERS.iter().copied() {
        read_header_into(alloc, octets, header)?;
        assert_text(rt, alloc, header, text)?;
    }
    Ok(())
}

#[test]
fn a_header_is_read_over_another(rt: HostRuntime) -> Result<(), Fail> {
    let mut header = Header::default();
    let read = read_into(&rt, rt.alloc(), &mut header);
    drop(header);
    read
}
