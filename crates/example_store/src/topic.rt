//! Topics: routing keys and patterns of words that dots part.
ghost use Rattle.std.specs.List.{slice_split};
ghost use Rattle.std.specs.Prelude.{◌≡◌, ◌==◌, ◌↔◌, ◌+◌, ◌∷◌, IfOk, IsTrue, List, ℕ, length};
ghost use Rattle.example_store.specs.Topic.{Matches, lent, words};
ghost use Rattle.example_store.specs.TopicRows.{IsRow, is_match, word_match};

use amqp_value::ShortStr;
use std::alloc::{AllocError, Global};

pub fn topic_matches(alloc: Global, pattern: &ShortStr, key: &ShortStr) -> Result<bool, AllocError>
    ensures { IfOk result (λ matches. IsTrue matches ↔ Matches (words pattern.now) (words key.now)) }
{
    let pattern = split_words(alloc, pattern.as_bytes())?;
    let key = split_words(alloc, key.as_bytes())?;
    words_match(alloc, &pattern, &key)
}

/// The words of a text: one without octets has none.
fn split_words(alloc: Global, text: &[u8]) -> Result<Vec<&[u8]>, AllocError>
    ensures { IfOk result (λ v. lent v.items ≡ words text.now) }
{
    if text.is_empty() {
        return Ok(Vec::new(alloc));
    }
    text.split(|octet| *octet == b'.').collect(alloc)
}

/// Takes the pattern's words from the last on, and keeps for each rest of the key whether the words taken match it. So
/// the work grows with the product of the two lengths alone.
fn words_match(alloc: Global, pattern: &[&[u8]], key: &[&[u8]]) -> Result<bool, AllocError>
    ensures { IfOk result (λ matches. matches ≡ is_match (lent pattern.now) (lent key.now)) }
{
    let mut row = vec![in alloc; false; key.len()]?;
    row.push(true)?;
    let mut taken = pattern.len();
    while taken > 0 {
        taken -= 1;
        take_word(pattern[taken], key, &mut row);
    }
    Ok(row[0])
}

/// Takes the word before those that were taken.
fn take_word(word: &[u8], key: &[&[u8]], row: &mut [bool])
    requires { length row.old ≡ length key.now + 1 }
    ensures length { length row.new ≡ length row.old }
    ensures row { (ps : List (List ℕ)) → IsRow ps (lent key.now) row.old
        → IsRow (word.now ∷ ps) (lent key.now) row.new }
{
    let mut n = key.len();
    let mut after = row[n];
    row[n] = after && word == b"#".as_slice();
    while n > 0 {
        let above = row[n];
        n -= 1;
        let here = row[n];
        row[n] = word_matches(word, key[n], here, above, after);
        after = here;
    }
}

/// Whether the pattern from a word on matches the key from a word on. `here` says whether the rest of the pattern does,
/// and `after` whether it matches the key from the next word on; `above` says whether all of it does from there on.
fn word_matches(word: &[u8], first: &[u8], here: bool, above: bool, after: bool) -> bool
    ensures { result ≡ word_match word.now first.now here above after }
{
    if word == b"#".as_slice() {
        return here || above;
    }
    after && (word == b"*".as_slice() || word == first)
}
