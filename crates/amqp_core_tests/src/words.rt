//! The words of a line.
use crate::trouble::Trouble;
use std::str::FromStr;

/// The word at a place.
pub(crate) fn word<'a>(words: &[&'a str], place: usize) -> Result<&'a str, Trouble> {
    match words.get(place) {
        Some(word) => Ok(*word),
        None => Err(Trouble::MissingWord),
    }
}

/// The number at a place.
pub(crate) fn number<N: FromStr>(words: &[&str], place: usize) -> Result<N, Trouble>
where
    N::Err: Drop,
{
    match word(words, place)?.parse::<N>() {
        Ok(number) => Ok(number),
        Err(_) => Err(Trouble::NotNumber),
    }
}
