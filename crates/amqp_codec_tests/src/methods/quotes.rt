//! Every octet in the quotes of a method's text and of a header's.
use crate::octets::{QUOTED, every_octet, joined};
use crate::showing::assert_text;
use amqp_method::{Header, header_text, method_text, read_header, read_method};
use std::alloc::Global;
use std::process::Abort;
use std::test::Fail;

/// The text of the method that these octets are.
fn method_text_of(alloc: Global, octets: &[u8]) -> Result<String, Fail> {
    let method = read_method(alloc, octets)?;
    Ok(method_text(&method)?)
}

fn printed(alloc: Global, header: &Header) -> Result<String, Fail> {
    Ok(header_text(alloc, header)?)
}

/// The text of the header that these octets are.
fn header_text_of(alloc: Global, octets: &[u8]) -> Result<String, Fail> {
    let header = read_header(alloc, octets)?;
    printed(alloc, &header)
}

/// A text is that start, `=`, and what is quoted in quotes.
fn assert_in_quotes(
    rt: &impl Abort,
    alloc: Global,
    text: &str,
    start: &str,
    quoted: &str,
) -> Result<(), Fail> {
    let wanted = format!(in alloc; "{start}=\"{quoted}\"")?;
    assert_text(rt, text, wanted.as_str());
    Ok(())
}

#[test]
fn every_octet_is_quoted_in_a_long_string(rt: HostRuntime) -> Result<(), Fail> {
    let octets = every_octet(rt.alloc())?;
    let whole = joined(rt.alloc(), &[&[0, 10, 0, 20, 0, 0, 1, 0], &octets])?;
    let text = method_text_of(rt.alloc(), &whole)?;
    let start = "connection.secure challenge";
    assert_in_quotes(&rt, rt.alloc(), text.as_str(), start, QUOTED)
}

fn assert_quoted_in_a_method(
    rt: &impl Abort,
    alloc: Global,
    octets: &[u8],
    quoted: &str,
) -> Result<(), Fail> {
    let whole = joined(alloc, &[&[0, 10, 0, 60, 128], octets])?;
    let text = method_text_of(alloc, &whole)?;
    assert_in_quotes(
        rt,
        alloc,
        text.as_str(),
        "connection.blocked reason",
        quoted,
    )
}

fn assert_quoted_in_a_header(
    rt: &impl Abort,
    alloc: Global,
    octets: &[u8],
    quoted: &str,
) -> Result<(), Fail> {
    let most = [
        0, 60, 0, 0, 255, 255, 255, 255, 255, 255, 255, 255, 0, 8, 128,
    ];
    let whole = joined(alloc, &[&most, octets])?;
    let text = header_text_of(alloc, &whole)?;
    let start = "header size=18446744073709551615 app-id";
    assert_in_quotes(rt, alloc, text.as_str(), start, quoted)
}

fn assert_quoted(rt: &impl Abort, alloc: Global, octets: &[u8], quoted: &str) -> Result<(), Fail> {
    assert_quoted_in_a_method(rt, alloc, octets, quoted)?;
    assert_quoted_in_a_header(rt, alloc, octets, quoted)
}

#[test]
fn every_octet_is_quoted_in_short_strings(rt: HostRuntime) -> Result<(), Fail> {
    let octets = every_octet(rt.alloc())?;
    let all = QUOTED;
    let (lower, _) = all.split_once("\\x80").ok_or("no 80")?;
    let (_, upper) = all.split_once("\\x7f").ok_or("no 7f")?;
    assert_quoted(&rt, rt.alloc(), octets.get(..128).ok_or("short")?, lower)?;
    assert_quoted(&rt, rt.alloc(), octets.get(128..).ok_or("short")?, upper)
}
