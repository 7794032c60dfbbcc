//! Octets as hexadecimal digits, and those of a handshake by name.
use std::alloc::Global;
use std::test::Fail;

/// What the ends of `ends` write, by name: connection.start with the mechanism PLAIN and the locale en_US, start-ok of
/// the guest, tune and tune-ok with 2047 channels and frames of 131072 octets, open of the host `/`, open-ok,
/// channel.open and its answer on channel 1, and connection.close with the code 501 and the text `frame-error`. `-` is
/// the name of no octets.
static NAMES: &str = "-
header 414d515000000901
start 0100000000001c000a000a00090000000000000005504c41494e00000005656e5f5553ce
start-ok 01000000000024000a000b0000000005504c41494e0000000c00677565737400677565737405656e5f5553ce
tune 0100000000000c000a001e07ff000200000000ce
tune-ok 0100000000000c000a001f07ff000200000000ce
open 01000000000008000a0028012f0000ce
open-ok 01000000000005000a002900ce
open-channel 010001000000050014000a00ce
channel-opened 010001000000080014000b00000000ce
close-501 01000000000016000a003201f50b6672616d652d6572726f7200000000ce";

/// The digits that a word stands for: those of its name, or itself.
fn digits_of(word: &str) -> &str {
    for line in NAMES.lines() {
        let (name, digits) = line.split_once(' ').unwrap_or((line, ""));
        if name == word {
            return digits;
        }
    }
    word
}

/// The octets that the words stand for, one after the other.
pub(crate) fn octets_of(alloc: Global, words: &str) -> Result<Vec<u8>, Fail> {
    let mut octets = Vec::new(alloc);
    for word in words.split_whitespace() {
        let more = hex::decode(alloc, digits_of(word))?;
        octets.extend_from_slice(&more)?;
    }
    Ok(octets)
}

/// The digits of the octets that the words stand for.
pub(crate) fn digits(alloc: Global, words: &str) -> Result<String, Fail> {
    let octets = octets_of(alloc, words)?;
    Ok(hex::encode(alloc, octets)?)
}
