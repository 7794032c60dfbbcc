//! A body in chunks: octets that are let go chunk by chunk, as they are taken.
ghost use Rattle.std.specs.Prelude.{◌≡◌, ◌+◌, ◌<◌, ◌≤◌, ◌==◌, [], ◌++◌, length, take, drop, vec_len, vec_capacity, IfErr, OnOk, OnErr};
ghost use Rattle.amqp_outbox.specs.Chunks.{joined_after};

use std::alloc::{AllocError, AllocFailed, Global};
use std::collections::VecDeque;
use std::marker::Model;

/// A body in chunks, which is sent without a copy of the whole: each chunk is let go as its octets are put.
///
/// Chunks of 1 MiB or more go back to the system at once. What waits to be put is then in memory once, and not twice.
#[derive(Drop)]
pub struct Chunks {
    /// the chunk from which octets are taken
    first: Vec<u8>,
    /// how many of its octets are taken
    taken: usize,
    /// the chunks after it
    later: VecDeque<Vec<u8>>,
    /// how many octets are left in all chunks
    left: usize,
}

impl Model for Chunks {
    ghost use Rattle.std.specs.Prelude.{ℕ, List};

    ghost Value = { List ℕ };

    ghost use Rattle.amqp_outbox.specs.ChunksFields.{octets_in_chunks, IsCounted};

    ghost view = { octets_in_chunks };

    ghost invariant = { IsCounted };
}

impl Chunks {
    /// No octets.
    pub fn new(alloc: Global) -> Chunks
        ensures { result ≡ [] }
    {
        Chunks {
            first: Vec::new(alloc),
            taken: 0,
            later: VecDeque::new(alloc),
            left: 0,
        }
    }

    /// How many octets there are.
    pub fn len(&self) -> usize
        ensures { result ≡ length self.now }
    {
        self.left
    }

    /// Whether there are none.
    pub fn is_empty(&self) -> bool
        ensures { result ≡ (length self.now == 0) }
    {
        self.left == 0
    }

    /// Adds a chunk after the others. Where there is no memory for its place, it is given back.
    pub fn push(&mut self, chunk: Vec<u8>) -> Result<(), AllocFailed<Vec<u8>>>
        ensures ok { OnOk result (self.new ≡ self.old ++ chunk.items) }
        ensures same { OnErr result (self.new ≡ self.old) }
        ensures given_back { IfErr result (λ failed. failed.value ≡ chunk) }
    {
        let Some(left) = self.left.checked_add(chunk.len()) else {
            return Err(AllocFailed { value: chunk });
        };
        self.later.push_back(chunk)?;
        self.left = left;
        Ok(())
    }

    /// Takes all octets off and appends them to others. Where there is no memory, both stay as they were.
    pub fn append_to(&mut self, octets: &mut Vec<u8>) -> Result<(), AllocError>
        ensures ok { OnOk result ((octets.new.items ≡ octets.old.items ++ self.old) × (self.new ≡ [])) }
        ensures same { OnErr result ((octets.new.items ≡ octets.old.items) × (self.new ≡ self.old)) }
    {
        let count = self.len();
        octets.reserve(count)?;
        self.move_into(count, octets);
        Ok(())
    }

    /// Takes so many octets off and appends them to others, which have room for them. The chunks that are used up are
    /// let go, but for the last of them.
    pub(crate) fn move_into(&mut self, count: usize, octets: &mut Vec<u8>)
        requires there { count ≤ length self.old }
        requires room { vec_len octets.old + count ≤ vec_capacity octets.old }
        ensures octets { octets.new.items ≡ octets.old.items ++ take count self.old }
        ensures left { self.new ≡ drop count self.old }
        ensures room { vec_capacity octets.old ≤ vec_capacity octets.new }
    {
        self.taken = move_octets(&mut self.first, self.taken, &mut self.later, count, octets);
        self.left -= count;
    }
}

/// Takes so many octets off a first chunk and later ones, and appends them to others, which have room for them. It
/// answers how many of what is the first chunk then are taken.
fn move_octets(
    first: &mut Vec<u8>,
    before: usize,
    later: &mut VecDeque<Vec<u8>>,
    count: usize,
    octets: &mut Vec<u8>,
) -> usize
    requires within { before ≤ length first.old.items }
    requires there { count ≤ length (joined_after before first.old.items later.old.items) }
    requires room { vec_len octets.old + count ≤ vec_capacity octets.old }
    ensures within { result ≤ length first.new.items }
    ensures octets { octets.new.items
        ≡ octets.old.items ++ take count (joined_after before first.old.items later.old.items) }
    ensures left { joined_after result first.new.items later.new.items
        ≡ drop count (joined_after before first.old.items later.old.items) }
    ensures room { vec_capacity octets.old ≤ vec_capacity octets.new }
{
    let mut taken = before;
    let mut missing = count;
    while missing > 0 {
        if taken == first.len() {
            begin_next(first, later);
            taken = 0;
            continue;
        }
        let run = missing.min(first.len() - taken);
        append_run(octets, first, taken, run);
        taken += run;
        missing -= run;
    }
    taken
}

/// Lets a chunk go that is used up, and begins the next.
fn begin_next(first: &mut Vec<u8>, later: &mut VecDeque<Vec<u8>>)
    requires { 0 < length later.old.items }
    ensures left { joined_after 0 first.new.items later.new.items ≡ joined_after 0 [] later.old.items }
    ensures fewer { length later.new.items < length later.old.items }
{
    match later.pop_front() {
        Some(next) => *first = next,
        None => unreachable!(),
    }
}

/// Appends so many octets from a place on to others, which have room for them.
fn append_run(octets: &mut Vec<u8>, source: &[u8], at: usize, count: usize)
    requires within { at + count ≤ length source.now }
    requires room { vec_len octets.old + count ≤ vec_capacity octets.old }
    ensures octets { octets.new.items ≡ octets.old.items ++ take count (drop at source.now) }
    ensures room { vec_capacity octets.old ≤ vec_capacity octets.new }
{
    let Ok(()) = octets.extend_from_slice(&source[at..at + count]) else {
        unreachable!()
    };
}
