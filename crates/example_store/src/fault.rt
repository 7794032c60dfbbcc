//! Why a method isn't done.
use amqp_method::reply;
use amqp_value::ShortStr;
use std::alloc::Global;
use std::error::Error;

#[derive(Drop)]
pub enum Fault {
    /// Its channel or connection is closed with this code and this text.
    Refused(u16, ShortStr),
    /// The connection is given up: there is no memory, or its end refuses what is to be said.
    GivenUp,
}

pub type Result<T> = std::result::Result<T, Fault>;

pub type Done = Result<()>;

impl<E: Error + Drop> From<E> for Fault {
    fn from(_: E) -> Fault {
        Fault::GivenUp
    }
}

/// As much of the text of a close as that takes: why, and of what name, if it is about one.
pub fn close_text(alloc: Global, code: u16, why: &str, name: &[u8]) -> Result<ShortStr> {
    let kind = reply::reply_name(code).unwrap_or("refused");
    let gap = if name.is_empty() { "" } else { " " };
    let mut text = format!(in alloc; "{kind} - {why}{gap}")?.into_bytes();
    text.extend_from_slice(name)?;
    Ok(ShortStr::new(alloc, &text[..text.len().min(255)])?)
}
