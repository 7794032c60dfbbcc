//! Words of the program as short strings.
use amqp_method::OutOfMemory;
use amqp_value::ShortStr;
use std::alloc::Global;

/// A short string of one of the program's own words. None is longer than 255 octets.
pub fn short(alloc: Global, octets: &[u8]) -> Result<ShortStr, OutOfMemory> {
    match ShortStr::new(alloc, octets) {
        Ok(text) => Ok(text),
        Err(_) => Err(OutOfMemory),
    }
}
