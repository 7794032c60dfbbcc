//! Values that begin at a word.

use std::marker::Model;

/// A value that begins at a word of memory, and after which a word begins.
///
/// An enum is moved from the place on at which the first of its variants begins. Where that is no word, what is written in words
/// is read across them a moment later, and each such read is waited for.
#[derive(Drop)]
pub struct Aligned<T: Drop> {
    word: [u64; 0],
    value: T,
}

impl<T: Drop> Model for Aligned<T> {
    ghost Value = { T };

    ghost view = { λ a. a.value };
}

impl<T: Drop> Aligned<T> {
    ghost use Rattle.std.specs.Prelude.{◌≡◌};

    #[inline(always)]
    pub fn new(value: T) -> Aligned<T>
        ensures { result ≡ value }
    {
        Aligned { word: [], value }
    }

    #[inline(always)]
    pub fn get(self) -> T
        ensures { result ≡ self }
    {
        self.value
    }
}
