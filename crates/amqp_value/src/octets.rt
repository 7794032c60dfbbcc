//! Octets of which a few lie in place.

ghost use Rattle.std.specs.Prelude.{◌≡◌, ◌≤◌, ◌<◌, length, take, slice_index, IfOk, IfSome};
ghost use Rattle.std.specs.Prelude.{nat_eq, ◌==◌};
ghost use Rattle.std.specs.Cmp.{partial_equiv_from_equiv};
ghost use Rattle.std.specs.Cmp.Lexicographic.{pointwise, nat_list_eq_equiv};

use crate::display::write_quoted;
use crate::fault::OutOfMemory;
use byteorder::{BigEndian, ByteOrder};
use std::alloc::{AllocError, Global};
use std::convert::AsSlice;
use std::fmt;
use std::marker::Model;

/// How many octets stand in place, without an allocation, which with their length are three words: most names of
/// headers, and many of their texts, have fewer.
pub(crate) const IN_PLACE: usize = 23;

/// How many octets three words have.
const ROOM: usize = 24;

/// How many octets a word has.
const WORD: usize = 8;

/// How many octets two words have.
const TWO_WORDS: usize = 16;

/// Any octets: a long string or a byte array of a table. At most 23 lie in place and take no memory of their own when
/// they are read or copied.
#[derive(Drop)]
pub struct Octets {
    store: Store,
}

/// In place the last octet is how many of the others count; those after them say nothing. They begin at a word, so that
/// they are moved word by word.
#[derive(Drop)]
enum Store {
    InPlace { word: [u64; 0], octets: [u8; ROOM] },
    Allocated(Vec<u8>),
}

impl Model for Octets {
    ghost use Rattle.std.specs.Prelude.{ℕ, List};
    ghost use Rattle.amqp_value.specs.Stored.{stored, IsStored};

    ghost Value = { List ℕ };

    ghost view = { λ s. stored s.store };

    ghost invariant = { λ s. IsStored s.store };
}

impl AsSlice<u8> for Octets {
    ghost items = { λ octets. octets };

    fn as_slice(&self) -> &[u8] {
        self.as_bytes()
    }
}

impl PartialEq for Octets {
    ghost eq = { pointwise nat_eq };

    ghost laws = { partial_equiv_from_equiv nat_list_eq_equiv };

    fn eq(&self, other: &Octets) -> bool {
        self.as_bytes() == other.as_bytes()
    }
}

impl Eq for Octets {
    ghost laws = { nat_list_eq_equiv };
}

impl fmt::Debug for Octets {
    /// In quotes, as in the texts of methods.
    fn fmt<W: fmt::Write>(&self, f: &mut fmt::Formatter<W>) -> fmt::Result {
        write_quoted(f, self.as_bytes())
    }
}

impl From<Vec<u8>> for Octets {
    ghost from_gives = { λ x octets. octets ≡ x.items };

    /// The octets of the vector, which stay where they are.
    fn from(octets: Vec<u8>) -> Octets {
        Octets {
            store: Store::Allocated(octets),
        }
    }
}

impl Octets {
    /// The octets.
    pub fn as_bytes(&self) -> &[u8]
        ensures { result.now ≡ self.now }
    {
        match &self.store {
            Store::InPlace { octets, .. } => &octets[..usize::from(octets[IN_PLACE])],
            Store::Allocated(octets) => octets.as_slice(),
        }
    }

    /// How many octets.
    pub fn len(&self) -> usize
        ensures { result ≡ length self.now }
    {
        self.as_bytes().len()
    }

    pub fn is_empty(&self) -> bool
        ensures { result ≡ (length self.now == 0) }
    {
        self.as_bytes().is_empty()
    }

    /// These octets.
    pub fn new(alloc: Global, octets: &[u8]) -> Result<Octets, OutOfMemory>
        ensures { IfOk result (λ s. s ≡ octets.now) }
    {
        Ok(Octets::prefix(alloc, octets, octets.len())?)
    }

    /// The octets as a vector, which takes memory where they lie in place.
    pub fn into_vec(self, alloc: Global) -> Result<Vec<u8>, OutOfMemory>
        ensures { IfOk result (λ octets. octets.items ≡ self) }
    {
        match self.store {
            Store::InPlace { octets, .. } => Ok(Vec::from_slice(
                alloc,
                &octets[..usize::from(octets[IN_PLACE])],
            )?),
            Store::Allocated(octets) => Ok(octets),
        }
    }

    /// Equal octets.
    pub fn copy(&self) -> Result<Octets, OutOfMemory>
        ensures { IfOk result (λ s. s ≡ self.now) }
    {
        let store = match &self.store {
            Store::InPlace { octets, .. } => Store::InPlace {
                word: [],
                octets: *octets,
            },
            Store::Allocated(octets) => {
                Store::Allocated(Vec::from_slice(*octets.allocator(), octets)?)
            }
        };
        Ok(Octets { store })
    }

    /// The first `len` octets, of which there may be more. Where there are, the room in place is filled with them,
    /// which is one copy of a fixed size.
    #[inline(always)]
    pub(crate) fn prefix(alloc: Global, octets: &[u8], len: usize) -> Result<Octets, AllocError>
        requires within { len ≤ length octets.now }
        ensures { IfOk result (λ s. s ≡ take len octets.now) }
    {
        if len > IN_PLACE {
            return Ok(Octets {
                store: Store::Allocated(Vec::from_slice(alloc, &octets[..len])?),
            });
        }
        Ok(Octets::in_place(in_place(octets, len)))
    }

    /// The first `len` octets, where they are few, and so many stand there that words can be copied in place of them.
    #[inline(always)]
    pub(crate) fn words(octets: &[u8], len: usize) -> Option<Octets>
        requires within { len ≤ length octets.now }
        ensures { IfSome result (λ s. s ≡ take len octets.now) }
    {
        if len <= TWO_WORDS && octets.len() >= TWO_WORDS {
            return Some(Octets::in_place(two_words(octets, len)));
        }
        if len <= IN_PLACE && octets.len() >= IN_PLACE {
            return Some(Octets::in_place(filled(octets, len)));
        }
        if len <= WORD && octets.len() >= WORD {
            return Some(Octets::in_place(one_word(octets, len)));
        }
        None
    }

    /// Octets that lie in place.
    #[inline(always)]
    fn in_place(octets: [u8; ROOM]) -> Octets
        requires { slice_index octets 23 ≤ 23 }
        ensures { result ≡ take (slice_index octets 23) octets }
    {
        Octets {
            store: Store::InPlace { word: [], octets },
        }
    }

    /// Whether they lie in place, so that no memory is to be given back for them.
    #[inline(always)]
    pub(crate) fn are_in_place(&self) -> bool {
        match &self.store {
            Store::InPlace { .. } => true,
            Store::Allocated(_) => false,
        }
    }
}

/// Room that begins with the first `len` octets, and ends with their number.
///
/// Few are copied as they are moved later, in words. Their number is written as a word too: a word that was written in
/// parts is waited for when it is read.
#[inline(always)]
fn in_place(octets: &[u8], len: usize) -> [u8; ROOM]
    requires within { len ≤ length octets.now }
    requires room { len ≤ 23 }
    ensures octets { take len result ≡ take len octets.now }
    ensures len { slice_index result 23 ≡ len }
{
    if len <= TWO_WORDS && octets.len() >= TWO_WORDS {
        return two_words(octets, len);
    }
    if octets.len() >= IN_PLACE {
        return filled(octets, len);
    }
    if len > WORD && len <= TWO_WORDS {
        return to_end(octets, len);
    }
    copied(octets, len)
}

/// One word of them, whatever stands after the first `len`.
#[inline(always)]
fn one_word(octets: &[u8], len: usize) -> [u8; ROOM]
    requires within { len ≤ 8 }
    requires room { 8 ≤ length octets.now }
    ensures octets { take len result ≡ take len octets.now }
    ensures len { slice_index result 23 ≡ len }
{
    let word = BigEndian::read_u64(octets);
    let mut room = [0; ROOM];
    BigEndian::write_u64(&mut room, word);
    BigEndian::write_u64(&mut room[TWO_WORDS..], len as u64);
    room
}

/// Two words of them, whatever stands after the first `len`.
#[inline(always)]
fn two_words(octets: &[u8], len: usize) -> [u8; ROOM]
    requires within { len ≤ 16 }
    requires room { 16 ≤ length octets.now }
    ensures octets { take len result ≡ take len octets.now }
    ensures len { slice_index result 23 ≡ len }
{
    let first = BigEndian::read_u64(octets);
    let second = BigEndian::read_u64(&octets[WORD..]);
    let mut room = [0; ROOM];
    BigEndian::write_u64(&mut room, first);
    BigEndian::write_u64(&mut room[WORD..], second);
    BigEndian::write_u64(&mut room[TWO_WORDS..], len as u64);
    room
}

/// Two words of them, of which the second ends with the last of the first `len`.
///
/// The words overlap. Those octets of the second that stand in the first too are shifted out of it.
#[inline(always)]
fn to_end(octets: &[u8], len: usize) -> [u8; ROOM]
    requires within { len ≤ length octets.now }
    requires long { 8 < len }
    requires room { len ≤ 16 }
    ensures octets { take len result ≡ take len octets.now }
    ensures len { slice_index result 23 ≡ len }
{
    let first = BigEndian::read_u64(octets);
    let last = BigEndian::read_u64(&octets[len - WORD..]);
    let mut room = [0; ROOM];
    BigEndian::write_u64(&mut room, first);
    BigEndian::write_u64(&mut room[WORD..], last << (8 * (TWO_WORDS - len)));
    BigEndian::write_u64(&mut room[TWO_WORDS..], len as u64);
    room
}

/// All that there is room for, whatever stands after the first `len`.
#[inline(always)]
fn filled(octets: &[u8], len: usize) -> [u8; ROOM]
    requires within { len ≤ 23 }
    requires room { 23 ≤ length octets.now }
    ensures octets { take len result ≡ take len octets.now }
    ensures len { slice_index result 23 ≡ len }
{
    let mut room = [0; ROOM];
    room[..IN_PLACE].copy_from_slice(&octets[..IN_PLACE]);
    room[IN_PLACE] = len as u8;
    room
}

/// The first `len` alone.
#[inline(always)]
fn copied(octets: &[u8], len: usize) -> [u8; ROOM]
    requires within { len ≤ length octets.now }
    requires room { len ≤ 23 }
    ensures octets { take len result ≡ take len octets.now }
    ensures len { slice_index result 23 ≡ len }
{
    let mut room = [0; ROOM];
    room[..len].copy_from_slice(&octets[..len]);
    room[IN_PLACE] = len as u8;
    room
}
