//! What a reader gives, read whole: octets, in one piece or in chunks, or hexadecimal.
use amqp_core::Chunks;
use amqp_text::{HexFault, octets_of};
use std::alloc::{AllocError, AllocFailed, Global};
use std::io::{self, Read};
use thiserror::Error;

/// Why an input is no octets, as the line that says so.
#[derive(Clone, Copy, Debug, Error)]
pub enum InputFault {
    #[error("fault read")]
    Read(io::Error),
    /// This line, counted from 1, is the first that isn't hexadecimal of whole octets.
    #[error("line {0}: not hex")]
    NotHex(usize),
    #[error("fault memory")]
    OutOfMemory,
}

impl From<AllocError> for InputFault {
    fn from(_: AllocError) -> InputFault {
        InputFault::OutOfMemory
    }
}

impl<T: Drop> From<AllocFailed<T>> for InputFault {
    fn from(_: AllocFailed<T>) -> InputFault {
        InputFault::OutOfMemory
    }
}

/// How many octets are read into a chunk. Of a block as large as this, the system gets the memory back at once.
const CHUNK: usize = 1_048_576;

/// All that the input gives, in chunks.
pub fn read_chunks<I: Read>(alloc: Global, input: &mut I) -> Result<Chunks, InputFault> {
    let mut chunks = Chunks::new(alloc);
    for _ in 0..u64::MAX {
        let mut chunk = vec![in alloc; 0; CHUNK]?;
        let count = match fill(input, &mut chunk) {
            Ok(count) => count,
            Err(fault) => return Err(InputFault::Read(fault)),
        };
        chunk.truncate(count);
        chunk.shrink_to_fit();
        chunks.push(chunk)?;
        if count < CHUNK {
            break;
        }
    }
    Ok(chunks)
}

/// Reads into a room until it is full or the input ends. It answers how many octets it read.
fn fill<I: Read>(input: &mut I, room: &mut [u8]) -> io::Result<usize> {
    let mut count = 0;
    for _ in 0..u64::MAX {
        let Some(rest) = room.get_mut(count..) else {
            break;
        };
        if rest.is_empty() {
            break;
        }
        match input.read(rest) {
            Ok(0) => break,
            Ok(read) => count = count.saturating_add(read),
            Err(fault) if fault.kind() == io::ErrorKind::Interrupted => {}
            Err(fault) => return Err(fault),
        }
    }
    Ok(count)
}

/// All that the input gives.
pub fn read_all<I: Read>(alloc: Global, input: &mut I) -> Result<Vec<u8>, InputFault> {
    let mut octets = Vec::new(alloc);
    if let Err(fault) = input.read_to_end(&mut octets) {
        if fault.kind() == io::ErrorKind::OutOfMemory {
            return Err(InputFault::OutOfMemory);
        }
        return Err(InputFault::Read(fault));
    }
    Ok(octets)
}

/// The first line that the input gives, without its end.
pub fn first_line<I: Read>(alloc: Global, input: &mut I) -> Result<Vec<u8>, InputFault> {
    let mut text = read_all(alloc, input)?;
    let end = text.iter().position(|octet| *octet == b'\n');
    text.truncate(end.unwrap_or(text.len()));
    if text.last() == Some(&b'\r') {
        text.pop();
    }
    Ok(text)
}

/// The octets that all lines of the input encode.
pub fn read_octets<I: Read>(alloc: Global, input: &mut I) -> Result<Vec<u8>, InputFault> {
    let text = read_all(alloc, input)?;
    match octets_of(alloc, &text) {
        Ok(octets) => Ok(octets),
        Err(HexFault::NotHex(line)) => Err(InputFault::NotHex(line)),
        Err(HexFault::OutOfMemory) => Err(InputFault::OutOfMemory),
    }
}
