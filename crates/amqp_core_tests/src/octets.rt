//! The octets that words stand for.
use crate::frames::NAMED;
use crate::trouble::Trouble;
use std::alloc::Global;

/// What stands after a name in its line.
fn named(name: &str) -> Option<&'static str> {
    for line in NAMED.split('\n') {
        if let Some((first, parts)) = line.trim_ascii_start().split_once(' ') {
            if first == name {
                return Some(parts);
            }
        }
    }
    None
}

fn add(octets: &mut Vec<u8>, more: &[u8]) -> Result<(), Trouble> {
    match octets.extend_from_slice(more) {
        Ok(()) => Ok(()),
        Err(_) => Err(Trouble::OutOfMemory),
    }
}

/// Adds octets that are written in hexadecimal.
fn add_digits(alloc: Global, octets: &mut Vec<u8>, digits: &str) -> Result<(), Trouble> {
    match hex::decode(alloc, digits) {
        Ok(more) => add(octets, &more),
        Err(_) => Err(Trouble::NotOctets),
    }
}

/// Adds the octets of a text after `'`, or of hexadecimal digits.
fn add_part(alloc: Global, octets: &mut Vec<u8>, part: &str) -> Result<(), Trouble> {
    match part.strip_prefix('\'') {
        Some(text) => add(octets, text.as_bytes()),
        None => add_digits(alloc, octets, part),
    }
}

fn add_parts(alloc: Global, octets: &mut Vec<u8>, parts: &str) -> Result<(), Trouble> {
    for part in parts.split_whitespace() {
        add_part(alloc, octets, part)?;
    }
    Ok(())
}

fn add_word(alloc: Global, octets: &mut Vec<u8>, word: &str) -> Result<(), Trouble> {
    match named(word) {
        Some(parts) => add_parts(alloc, octets, parts),
        None => add_part(alloc, octets, word),
    }
}

fn add_words(alloc: Global, octets: &mut Vec<u8>, words: &[&str]) -> Result<(), Trouble> {
    for word in words.iter().copied() {
        add_word(alloc, octets, word)?;
    }
    Ok(())
}

/// The octets that words stand for, one after another: those of a name, of a text after `'`, or in hexadecimal.
pub(crate) fn octets_of(alloc: Global, words: &[&str]) -> Result<Vec<u8>, Trouble> {
    let mut octets = Vec::new(alloc);
    add_words(alloc, &mut octets, words)?;
    Ok(octets)
}

/// So many octets, which differ from their neighbours: 0 to 250, over and over.
pub(crate) fn counted_octets(alloc: Global, count: usize) -> Result<Vec<u8>, Trouble> {
    let mut octets = Vec::new(alloc);
    for place in 0..count {
        let Ok(()) = octets.push((place % 251) as u8) else {
            return Err(Trouble::OutOfMemory);
        };
    }
    Ok(octets)
}

/// Adds so many `x`.
pub(crate) fn pad(octets: &mut Vec<u8>, count: usize) -> Result<(), Trouble> {
    for _ in 0..count {
        add(octets, b"x")?;
    }
    Ok(())
}
