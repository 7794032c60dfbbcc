//! What an application does with the connection itself, in words: heartbeats, and what it decides in the handshake.
use crate::asks::text;
use crate::came::Came;
use crate::octets::octets_of;
use crate::trouble::Trouble;
use crate::words::{number, word};
use amqp_core::{AskFault, End, Role};
use amqp_method::read_method;
use std::alloc::Global;

/// What comes of what is put, or refused.
pub(crate) fn came_of(answer: Result<(), AskFault>) -> Came {
    match answer {
        Ok(()) => Came::Put,
        Err(fault) => Came::Refused(fault),
    }
}

/// A refusal with a code and a text.
pub(crate) fn refuses<R: Role>(
    alloc: Global,
    end: &mut End<R>,
    words: &[&str],
) -> Result<Came, Trouble> {
    let code = number(words, 0)?;
    let reason = text(alloc, word(words, 1)?.as_bytes())?;
    let answer = end.refuse(code, &reason);
    drop(reason);
    Ok(came_of(answer))
}

/// An answer to start: a mechanism, without a response, in the locale en_US.
pub(crate) fn answers<R: Role>(
    alloc: Global,
    end: &mut End<R>,
    words: &[&str],
) -> Result<Came, Trouble> {
    let mechanism = text(alloc, word(words, 0)?.as_bytes())?;
    let locale = text(alloc, b"en_US")?;
    let answer = end.answer_start(&mechanism, &[], &locale);
    drop(mechanism);
    drop(locale);
    Ok(came_of(answer))
}

/// Whether the end heard the method of these octets in the handshake, and kept it.
pub(crate) fn heard<R: Role>(alloc: Global, end: &End<R>, words: &[&str]) -> Result<bool, Trouble> {
    let octets = octets_of(alloc, words)?;
    let Ok(method) = read_method(alloc, &octets) else {
        return Err(Trouble::NotReadable);
    };
    let is_heard = match end.heard(method.kind()) {
        Some(kept) => *kept == method,
        None => false,
    };
    drop(method);
    Ok(is_heard)
}
