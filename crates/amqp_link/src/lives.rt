//! Lives of channels, and how much was sent and acted on in each.
ghost use Rattle.std.specs.Prelude.{◌≡◌, ◌<◌, ◌+◌, ◌^◌, ◌==◌, ◌++◌, [], ◌∷◌, ℕ, cond, map, replicate, length, slice_index, IfOk, OnOk};
ghost use Rattle.amqp_core.specs.Traced.Notes.{item_view, note_view, telling_view};
ghost use Rattle.amqp_model.specs.Pair.Sent as sent;
ghost use Rattle.amqp_link.specs.Tallies as tallied;
ghost use Rattle.amqp_link.specs.TallyView as view;
ghost use Rattle.amqp_link.specs.TallyView.{tally_view};

use crate::faults::OutOfMemory;
use crate::steps::Direction;
use amqp_core::{Direction as Way, Item, Note, Telling, Word};
use std::alloc::Global;

/// A life of a channel of a connection: from the open that its client puts. The number counts the opens of that
/// channel, from 1.
#[derive(Clone, Copy, PartialEq, Eq, Debug)]
pub struct Life {
    pub connection: usize,
    pub channel: u16,
    pub number: u64,
}

/// Copies of the items of a life, in order.
pub(crate) fn items_of(
    alloc: Global,
    tellings: &[Telling],
    channel: u16,
    number: u64,
) -> Result<Vec<Item>, OutOfMemory>
    ensures { IfOk result (λ items. map item_view items.items ≡ sent.items_of channel number
        (map telling_view tellings.now)) }
{
    let mut items = Vec::new(alloc);
    for telling in tellings {
        if telling.channel == channel && telling.life == number {
            let item = telling.item.copy()?;
            items.push(item)?;
        }
    }
    Ok(items)
}

/// A life begins, as a client notes it.
fn begins(note: &Note) -> bool
    ensures { result ≡ tallied.begins (note_view note.now) }
{
    note.direction == Way::Put && note.word == Word::Open
}

/// The greatest channel of which a life began, or 0.
fn last_begun(notes: &[Note]) -> u16
    ensures { result ≡ tallied.last_begun (map note_view notes.now) }
{
    let mut last = 0;
    for note in notes {
        if begins(note) && note.channel > last {
            last = note.channel;
        }
    }
    last
}

/// One more at a number, if its count is kept: that of number 1 stands first.
fn count(counts: &mut [usize], number: u64)
    requires { (k : ℕ) → k < length counts.old → slice_index counts.old k + 1 < 2 ^ 64 }
    ensures { (k : ℕ) → k < length counts.old → slice_index counts.new k ≡ slice_index counts.old k + cond
        (k + 1 == number) 1 0 }
{
    if number != 0 && number <= counts.len() as u64 {
        counts[(number - 1) as usize] += 1;
    }
}

/// How many lives of each channel began, of the channels from 1 to this one.
fn begun_to(alloc: Global, last: u16, notes: &[Note]) -> Result<Vec<usize>, OutOfMemory>
    ensures { IfOk result (λ begun. begun.items ≡ view.begun_to last (map note_view notes.now)) }
{
    let mut begun = vec![in alloc; 0_usize; last as usize]?;
    for note in notes {
        if begins(note) {
            count(&mut begun, note.channel as u64);
        }
    }
    Ok(begun)
}

/// No items yet of so many lives of each channel.
fn nothing_counted(alloc: Global, begun: &[usize]) -> Result<Vec<Vec<usize>>, OutOfMemory>
    ensures { IfOk result (λ counts. map (λ lives. lives.items) counts.items ≡ map (λ lives. replicate lives 0)
        begun.now) }
{
    let mut counts = Vec::new(alloc);
    for lives in begun {
        let none = vec![in alloc; 0_usize; *lives]?;
        counts.push(none)?;
    }
    Ok(counts)
}

/// How many items there are of each of so many lives of each channel, of the channels from 1 on.
fn counts_of(
    alloc: Global,
    tellings: &[Telling],
    begun: &[usize],
) -> Result<Vec<Vec<usize>>, OutOfMemory>
    ensures { IfOk result (λ counts. map (λ lives. lives.items) counts.items ≡ view.counts_of begun.now
        (map telling_view tellings.now)) }
{
    let mut counts = nothing_counted(alloc, begun)?;
    for telling in tellings {
        let channel = telling.channel as usize;
        if channel != 0 && channel <= counts.len() {
            count(&mut counts[channel - 1], telling.life);
        }
    }
    Ok(counts)
}

/// What the two ends of a connection wrote down, of which lives are counted.
#[derive(Clone, Copy)]
pub(crate) struct Written<'a> {
    pub(crate) notes: &'a [Note],
    pub(crate) client_said: &'a [Telling],
    pub(crate) server_told: &'a [Telling],
    pub(crate) server_said: &'a [Telling],
    pub(crate) client_told: &'a [Telling],
}

/// Adds what was counted in a life, to the server first.
fn add_life(
    tallies: &mut Vec<(Life, Direction, usize, usize)>,
    life: Life,
    to_server: (usize, usize),
    to_client: (usize, usize),
) -> Result<(), OutOfMemory>
    ensures { OnOk result (tallies.new.items ≡ tallies.old.items
        ++ (life, Direction.ToServer, to_server.0, to_server.1) ∷ (life, Direction.ToClient, to_client.0, to_client.1)
        ∷ []) }
{
    tallies.push((life, Direction::ToServer, to_server.0, to_server.1))?;
    tallies.push((life, Direction::ToClient, to_client.0, to_client.1))?;
    Ok(())
}

/// Adds the tallies of a channel of a connection, in the order of its lives.
fn add_lives(
    tallies: &mut Vec<(Life, Direction, usize, usize)>,
    connection: usize,
    channel: u16,
    to_server: (&[usize], &[usize]),
    to_client: (&[usize], &[usize]),
) -> Result<(), OutOfMemory>
    requires acted_to_server { length to_server.1.now ≡ length to_server.0.now }
    requires sent_to_client { length to_client.0.now ≡ length to_server.0.now }
    requires acted_to_client { length to_client.1.now ≡ length to_server.0.now }
    ensures { OnOk result (map tally_view tallies.new.items ≡ map tally_view tallies.old.items
        ++ view.tallies_by connection channel (length to_server.entry.0.now) to_server.entry.0.now
        to_server.entry.1.now to_client.entry.0.now to_client.entry.1.now) }
{
    let lives = to_server.0.len();
    for before in 0..lives {
        let life = Life {
            connection,
            channel,
            number: before as u64 + 1,
        };
        let to_server = (to_server.0[before], to_server.1[before]);
        let to_client = (to_client.0[before], to_client.1[before]);
        add_life(tallies, life, to_server, to_client)?;
    }
    Ok(())
}

/// Adds the tallies of a connection: of each life that began, one in each direction, in the order of the channels and
/// of the lives, to the server first.
pub(crate) fn add_tallies(
    alloc: Global,
    tallies: &mut Vec<(Life, Direction, usize, usize)>,
    connection: usize,
    written: Written<'_>,
) -> Result<(), OutOfMemory>
    ensures { OnOk result (map tally_view tallies.new.items ≡ map tally_view tallies.old.items
        ++ tallied.tallies_of connection (map note_view written.entry.notes.now)
        (map telling_view written.entry.client_said.now) (map telling_view written.entry.server_told.now)
        (map telling_view written.entry.server_said.now) (map telling_view written.entry.client_told.now)) }
{
    let last = last_begun(written.notes);
    let begun = begun_to(alloc, last, written.notes)?;
    let client_said = counts_of(alloc, written.client_said, &begun)?;
    let server_told = counts_of(alloc, written.server_told, &begun)?;
    let server_said = counts_of(alloc, written.server_said, &begun)?;
    let client_told = counts_of(alloc, written.client_told, &begun)?;
    for before in 0..last {
        let at = before as usize;
        let to_server = (client_said[at].as_slice(), server_told[at].as_slice());
        let to_client = (server_said[at].as_slice(), client_told[at].as_slice());
        add_lives(tallies, connection, before + 1, to_server, to_client)?;
    }
    Ok(())
}
