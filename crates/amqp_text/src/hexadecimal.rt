//! Octets as hexadecimal text, read line by line.
ghost use Rattle.std.specs.Prelude.{◌≡◌, ◌+◌, ◌≤◌, ◌∷◌, ℕ, length, Err, IsErr, IfOk, IfSome, OnOk, position};
ghost use Rattle.std.specs.Option.{option_copied};
ghost use Rattle.hex.specs.Hex.{decode_of};
ghost use Rattle.amqp_text.specs.Hexadecimal.{is_space, is_line_feed, bare, lines, lines_after, EncodeOctets, IsFirstWrong, AppendsLine};

use hex::FromHexError;
use std::alloc::Global;
use thiserror::Error;

/// Why a text is no octets.
#[derive(Clone, Copy, PartialEq, Eq, Debug, Error)]
pub enum HexFault {
    /// This line, counted from 1, is the first that isn't hexadecimal of whole octets.
    #[error("line {0}: not hex")]
    NotHex(usize),
    #[error("out of memory")]
    OutOfMemory,
}

/// The octets that the lines of a text encode, joined. Spaces, tabs and carriage returns are skipped.
pub fn octets_of(alloc: Global, text: &[u8]) -> Result<Vec<u8>, HexFault>
    ensures octets { IfOk result (λ octets. EncodeOctets (lines text.now) octets.items) }
    ensures wrong { (n : ℕ) → result ≡ Err (HexFault.NotHex n) → IsFirstWrong (lines text.now) n }
{
    let mut octets = Vec::new(alloc);
    let mut rest = text;
    let mut before = 0usize;
    loop {
        let (line, after) = cut_line(rest);
        match append_line(alloc, line, &mut octets) {
            Ok(()) => {}
            Err(LineFault::NotHex) => return Err(HexFault::NotHex(before + 1)),
            Err(LineFault::OutOfMemory) => return Err(HexFault::OutOfMemory),
        }
        let Some(after) = after else {
            return Ok(octets);
        };
        rest = after;
        before += 1;
    }
}

/// Where the first line feed stands.
fn line_end(text: &[u8]) -> Option<usize>
    ensures { result ≡ position is_line_feed text.now }
{
    text.iter().position(|octet| *octet == b'\n')
}

/// A line, and the text after the line feed that ends it.
fn cut_line(text: &[u8]) -> (&[u8], Option<&[u8]>)
    ensures lines { lines text.now ≡ result.0.now ∷ lines_after (option_copied result.1) }
    ensures shorter { IfSome result.1 (λ after. length result.0.now + 1 + length after.now ≡ length text.now) }
    ensures within { length result.0.now ≤ length text.now }
{
    match line_end(text) {
        Some(end) => (&text[..end], Some(&text[end + 1..])),
        None => (text, None),
    }
}

/// Why a line was not appended.
enum LineFault {
    NotHex,
    OutOfMemory,
}

/// Whether the octet is skipped wherever it stands in a line.
fn is_skipped(octet: u8) -> bool
    ensures { result ≡ is_space octet }
{
    octet == b' ' || octet == b'\t' || octet == b'\r'
}

/// Appends the octets that a line encodes.
fn append_line(alloc: Global, line: &[u8], octets: &mut Vec<u8>) -> Result<(), LineFault>
    ensures ok { OnOk result (AppendsLine line.now octets.old.items octets.new.items) }
    ensures wrong { result ≡ Err LineFault.NotHex → IsErr (decode_of (bare line.now)) }
{
    let digits: Vec<u8> = line
        .iter()
        .copied()
        .filter(|octet| !is_skipped(*octet))
        .collect(alloc)
        .map_err(|_| LineFault::OutOfMemory)?;
    match hex::decode(alloc, digits.as_slice()) {
        Ok(decoded) => octets
            .extend_from_slice(&decoded)
            .map_err(|_| LineFault::OutOfMemory),
        Err(FromHexError::OutOfMemory) => Err(LineFault::OutOfMemory),
        Err(_) => Err(LineFault::NotHex),
    }
}
