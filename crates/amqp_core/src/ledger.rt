//! What an end that is kept with its history has noted, told and said, the octets that it was fed, and those that it
//! wrote.
//!
//! Room for all that a call adds is made before the call, so what is added takes no memory.
ghost use Rattle.std.specs.Prelude.{◌≡◌, ◌+◌, ◌<◌, ◌≤◌, [], ◌∷◌, ◌++◌, ℕ, length, map, replicate, vec_len};
ghost use Rattle.std.specs.Prelude.{vec_capacity, option_to_list, Some, OnOk};
ghost use Rattle.std.specs.HashMap.{spare};
ghost use Rattle.std.proofs.Props.{props};
ghost use Rattle.amqp_model.specs.Wire.Items.{FlowOkItem};
ghost use Rattle.amqp_model.specs.Stream.Traces as traces;
ghost use Rattle.amqp_model.specs.Stream.Traces.{IsPut, telling_above, telling_at};
ghost use Rattle.amqp_channel.specs.Roles.{role_of};
ghost use Rattle.amqp_core.specs.Traced.AccountView.{note_there};
ghost use Rattle.amqp_core.specs.Traced.NotedAsks.{count_asked, notes_asked};
ghost use Rattle.amqp_core.specs.Asks.View.{lent_view};
ghost use Rattle.amqp_core.specs.Traced.CountsLives.{CountsLives};
ghost use Rattle.amqp_core.specs.Traced.Notes.{item_there, note_view, noted_as, word_view};
ghost use Rattle.amqp_core.specs.Traced.Noting.{lives_in, notes_owed, said_by_owed, note_tells};
ghost use Rattle.amqp_core.specs.Traced.Noting.{word_of_reply as reply_word};

use crate::account::Account;
use crate::allowing::Place;
use crate::asks::LentAsk;
use crate::faults::OutOfMemory;
use crate::lives::Lives;
use crate::notes::{Note, Word};
use crate::owed::Owed;
use crate::tellings::{Item, Telling};
use amqp_channel::{Reply, Side};
use std::alloc::Global;

/// How many channels a call notes something of, at most.
const MOST_CHANNELS: usize = 3;

/// As long as so many octets at most are written and to be written, room that isn't used is given back.
const FEW_OCTETS: usize = 4096;

/// What is kept beside an end.
pub(crate) struct Ledger {
    side: Side,
    pub(crate) notes: Vec<Note>,
    pub(crate) told: Vec<Telling>,
    pub(crate) said: Vec<Telling>,
    pub(crate) fed: Vec<u8>,
    pub(crate) written: Vec<u8>,
    lives: Lives,
    ghost counts: { CountsLives side notes.items lives } by { Prim.hlevel props },
}

/// Written out, so that no crate above proves again of each part that it can be dropped.
impl Drop for Ledger {
    fn drop(self) {
        let Ledger {
            side: _,
            notes: _,
            told: _,
            said: _,
            fed: _,
            written: _,
            lives: _,
        } = self;
    }
}

/// Pushes an item for which there is room.
fn push_within<T: Drop>(items: &mut Vec<T>, item: T)
    requires { vec_len items.old < vec_capacity items.old }
    ensures items { items.new.items ≡ items.old.items ++ item ∷ [] }
    ensures len { vec_len items.new ≡ vec_len items.old + 1 }
    ensures capacity { vec_capacity items.old ≤ vec_capacity items.new }
{
    let Ok(()) = items.push(item) else {
        unreachable!()
    };
}

/// Appends octets for which there is room.
fn append_within(octets: &mut Vec<u8>, more: &[u8])
    requires { vec_len octets.old + length more.now ≤ vec_capacity octets.old }
    ensures items { octets.new.items ≡ octets.old.items ++ more.now }
    ensures len { vec_len octets.new ≡ vec_len octets.old + length more.now }
    ensures capacity { vec_capacity octets.old ≤ vec_capacity octets.new }
{
    let Ok(()) = octets.extend_from_slice(more) else {
        unreachable!()
    };
}

/// What a reply is to its channel.
fn word_of_reply(reply: Reply) -> Word
    ensures { word_view result ≡ reply_word reply }
{
    match reply {
        Reply::OpenOk => Word::OpenOk,
        Reply::CloseOk => Word::CloseOk,
        Reply::FlowOk(_) => Word::FlowOk,
    }
}

impl Ledger {
    ghost use Rattle.amqp_core.specs.Traced.LedgerView.{GivesBack, HasRoom, notes_in, tells_in, told_in};

    pub(crate) fn new(alloc: Global, side: Side) -> Ledger
        ensures notes { notes_in result ≡ [] }
        ensures told { told_in result ≡ [] }
        ensures said { tells_in result ≡ [] }
        ensures fed { result.fed.items ≡ [] }
        ensures written { result.written.items ≡ [] }
        ensures side { result.side ≡ side }
    {
        Ledger {
            side,
            notes: Vec::new(alloc),
            told: Vec::new(alloc),
            said: Vec::new(alloc),
            fed: Vec::new(alloc),
            written: Vec::new(alloc),
            lives: Lives::new(alloc),
        }
    }

    /// Makes room for so many notes, an item told and one said, and so many octets that are fed; and for so many octets
    /// to write.
    pub(crate) fn reserve(
        &mut self,
        notes: usize,
        fed: usize,
        written: usize,
    ) -> Result<(), OutOfMemory>
        ensures room { OnOk result (HasRoom self.new notes fed) }
        ensures written { OnOk result (vec_len self.new.written + written ≤ vec_capacity self.new.written) }
        ensures kept { vec_capacity self.old.written ≤ vec_capacity self.new.written }
        ensures notes_same { notes_in self.new ≡ notes_in self.old }
        ensures told_same { told_in self.new ≡ told_in self.old }
        ensures said_same { tells_in self.new ≡ tells_in self.old }
        ensures fed_same { self.new.fed.items ≡ self.old.fed.items }
        ensures written_same { self.new.written.items ≡ self.old.written.items }
        ensures side { self.new.side ≡ self.old.side }
    {
        self.notes.reserve(notes)?;
        self.lives.reserve(MOST_CHANNELS)?;
        self.told.reserve(1)?;
        self.said.reserve(1)?;
        self.fed.reserve(fed)?;
        self.written.reserve(written)?;
        Ok(())
    }

    /// Gives back room that isn't used, but for so many octets to write. Where much was written nothing is given back,
    /// so that what is kept grows by doubling.
    pub(crate) fn give_back(&mut self, to_write: usize)
        requires { vec_len self.old.written + to_write ≤ vec_capacity self.old.written }
        ensures { GivesBack to_write self.old self.new }
    {
        let wanted = self.written.len() + to_write;
        if wanted > FEW_OCTETS {
            return;
        }
        self.written.shrink_to(wanted);
        if self.told.is_empty() {
            self.told.shrink_to(0);
        }
        if self.said.is_empty() {
            self.said.shrink_to(0);
        }
    }

    /// A frame is noted.
    fn note(&mut self, note: Note)
        requires room { vec_len self.old.notes < vec_capacity self.old.notes }
        requires spare { 0 < spare self.old.lives.counts }
        ensures notes { notes_in self.new ≡ notes_in self.old ++ note_view note ∷ [] }
        ensures len { vec_len self.new.notes ≡ vec_len self.old.notes + 1 }
        ensures capacity { vec_capacity self.old.notes ≤ vec_capacity self.new.notes }
        ensures spare { spare self.old.lives.counts ≤ spare self.new.lives.counts + 1 }
        ensures told_same { self.new.told ≡ self.old.told }
        ensures said_same { self.new.said ≡ self.old.said }
        ensures fed_same { self.new.fed ≡ self.old.fed }
        ensures written_same { self.new.written ≡ self.old.written }
        ensures side { self.new.side ≡ self.old.side }
    {
        self.lives.note(self.side, note);
        push_within(&mut self.notes, note);
    }

    /// A frame is put that changes nothing of its channel's life.
    pub(crate) fn note_other(&mut self, channel: u16)
        requires room { vec_len self.old.notes < vec_capacity self.old.notes }
        ensures notes { notes_in self.new ≡ notes_in self.old ++ noted_as IsPut channel traces.Other ∷ [] }
        ensures len { vec_len self.new.notes ≡ vec_len self.old.notes + 1 }
        ensures capacity { vec_capacity self.old.notes ≤ vec_capacity self.new.notes }
        ensures told_same { self.new.told ≡ self.old.told }
        ensures said_same { self.new.said ≡ self.old.said }
        ensures fed_same { self.new.fed ≡ self.old.fed }
        ensures written_same { self.new.written ≡ self.old.written }
        ensures side { self.new.side ≡ self.old.side }
    {
        push_within(&mut self.notes, Note::put(channel, Word::Other));
    }

    /// As many such frames.
    fn note_others(&mut self, channel: u16, count: usize)
        requires room { vec_len self.old.notes + count ≤ vec_capacity self.old.notes }
        ensures notes { notes_in self.new ≡ notes_in self.old ++ replicate count (noted_as IsPut channel traces.Other) }
        ensures told_same { self.new.told ≡ self.old.told }
        ensures said_same { self.new.said ≡ self.old.said }
        ensures fed_same { self.new.fed ≡ self.old.fed }
        ensures written_same { self.new.written ≡ self.old.written }
        ensures side { self.new.side ≡ self.old.side }
    {
        let mut left = count;
        while left != 0 {
            self.note_other(channel);
            left -= 1;
        }
    }

    /// An item is said, if there is one.
    fn say(&mut self, channel: u16, item: Option<Item>)
        requires room { vec_len self.old.said < vec_capacity self.old.said }
        ensures said { tells_in self.new ≡ tells_in self.old ++ telling_at channel (lives_in (role_of self.old.side)
            (notes_in self.old) channel) (item_there item) }
        ensures notes_same { self.new.notes ≡ self.old.notes }
        ensures lives_same { self.new.lives ≡ self.old.lives }
        ensures told_same { self.new.told ≡ self.old.told }
        ensures fed_same { self.new.fed ≡ self.old.fed }
        ensures written_same { self.new.written ≡ self.old.written }
        ensures side { self.new.side ≡ self.old.side }
    {
        if let Some(item) = item {
            let life = self.lives.of(channel);
            push_within(
                &mut self.said,
                Telling {
                    channel,
                    life,
                    item,
                },
            );
        }
    }

    /// The frames of an ask are put, which say this item.
    pub(crate) fn put(&mut self, ask: LentAsk<'_>, place: Place, item: Option<Item>)
        requires size { 8 < place.frame_max }
        requires room { HasRoom self.old (count_asked place.frame_max (lent_view ask)) 0 }
        ensures notes { notes_in self.new ≡ notes_in self.old ++ notes_asked place.frame_max place.channel
            (lent_view ask.entry) }
        ensures said { tells_in self.new ≡ tells_in self.old ++ telling_at place.channel
            (lives_in (role_of self.old.side) (notes_in self.old) place.channel) (item_there item) }
        ensures told_same { self.new.told ≡ self.old.told }
        ensures fed_same { self.new.fed ≡ self.old.fed }
        ensures written_same { self.new.written ≡ self.old.written }
        ensures side { self.new.side ≡ self.old.side }
    {
        let channel = place.channel;
        self.say(channel, item);
        match ask {
            LentAsk::Open => self.note(Note::put(channel, Word::Open)),
            LentAsk::Flow(_, _) => self.note(Note::put(channel, Word::Flow)),
            LentAsk::CloseChannel(_, _, _, _) => self.note(Note::put(channel, Word::Close)),
            LentAsk::Send(_, _) => self.note_others(channel, ask.frames(place.frame_max)),
            LentAsk::Close(_, _, _) => self.note_other(channel),
            LentAsk::Blocked(_) => self.note_other(channel),
            LentAsk::Unblocked => self.note_other(channel),
        }
    }

    /// What an end owes is noted as it is put. Each role alone has its part in the handshake.
    fn note_owed(&mut self, owed: Owed)
        requires room { vec_len self.old.notes + 2 ≤ vec_capacity self.old.notes }
        requires spare { 2 ≤ spare self.old.lives.counts }
        ensures notes { notes_in self.new ≡ notes_in self.old ++ notes_owed (role_of self.old.side) owed }
        ensures told_same { self.new.told ≡ self.old.told }
        ensures said_same { self.new.said ≡ self.old.said }
        ensures fed_same { self.new.fed ≡ self.old.fed }
        ensures written_same { self.new.written ≡ self.old.written }
        ensures side { self.new.side ≡ self.old.side }
    {
        let zero = Note::put(0, Word::Other);
        match (owed, self.side) {
            (Owed::Start, Side::Server) => self.note(zero),
            (Owed::StartOk, Side::Client) => self.note(zero),
            (Owed::Tune, Side::Server) => self.note(zero),
            (Owed::TuneOkAndOpen(_), Side::Client) => {
                self.note(zero);
                self.note(zero);
            }
            (Owed::OpenOk, _) => self.note(zero),
            (Owed::Close(_), _) => self.note(zero),
            (Owed::CloseOk, _) => self.note(zero),
            (Owed::OnChannel(number, reply), _) => {
                self.note(Note::put(number, word_of_reply(reply)));
            }
            (Owed::ChannelClose(number, _), _) => self.note(Note::put(number, Word::Close)),
            (Owed::Nothing, _) => {}
            (Owed::Start, Side::Client) => {}
            (Owed::StartOk, Side::Server) => {}
            (Owed::Tune, Side::Client) => {}
            (Owed::TuneOkAndOpen(_), Side::Server) => {}
        }
    }

    /// A flow-ok is said in the life that its channel has then.
    fn say_flow_ok(&mut self, channel: u16, active: bool)
        requires room { vec_len self.old.said < vec_capacity self.old.said }
        ensures said { tells_in self.new ≡ tells_in self.old ++ telling_above channel (lives_in (role_of self.old.side)
            (notes_in self.old) channel) (Some (FlowOkItem active)) }
        ensures notes_same { self.new.notes ≡ self.old.notes }
        ensures lives_same { self.new.lives ≡ self.old.lives }
        ensures told_same { self.new.told ≡ self.old.told }
        ensures fed_same { self.new.fed ≡ self.old.fed }
        ensures written_same { self.new.written ≡ self.old.written }
        ensures side { self.new.side ≡ self.old.side }
    {
        if channel != 0 {
            let life = self.lives.of(channel);
            let item = Item::FlowOk(active);
            push_within(
                &mut self.said,
                Telling {
                    channel,
                    life,
                    item,
                },
            );
        }
    }

    /// What is said by what an end owes: a flow-ok.
    fn say_owed(&mut self, owed: Owed)
        requires room { vec_len self.old.said < vec_capacity self.old.said }
        ensures said { tells_in self.new ≡ tells_in self.old
            ++ said_by_owed (lives_in (role_of self.old.side) (notes_in self.old)) owed }
        ensures notes_same { self.new.notes ≡ self.old.notes }
        ensures lives_same { self.new.lives ≡ self.old.lives }
        ensures told_same { self.new.told ≡ self.old.told }
        ensures fed_same { self.new.fed ≡ self.old.fed }
        ensures written_same { self.new.written ≡ self.old.written }
        ensures side { self.new.side ≡ self.old.side }
    {
        match owed {
            Owed::OnChannel(channel, Reply::FlowOk(active)) => self.say_flow_ok(channel, active),
            _ => {}
        }
    }

    /// An item is acted on, if there is one.
    fn tell(&mut self, channel: u16, item: Option<Item>)
        requires room { vec_len self.old.told < vec_capacity self.old.told }
        ensures told { told_in self.new ≡ told_in self.old ++ telling_at channel (lives_in (role_of self.old.side)
            (notes_in self.old) channel) (item_there item) }
        ensures notes_same { self.new.notes ≡ self.old.notes }
        ensures lives_same { self.new.lives ≡ self.old.lives }
        ensures said_same { self.new.said ≡ self.old.said }
        ensures fed_same { self.new.fed ≡ self.old.fed }
        ensures written_same { self.new.written ≡ self.old.written }
        ensures side { self.new.side ≡ self.old.side }
    {
        if let Some(item) = item {
            let life = self.lives.of(channel);
            push_within(
                &mut self.told,
                Telling {
                    channel,
                    life,
                    item,
                },
            );
        }
    }

    /// What came of a piece, of which these octets were taken, and the item of its event.
    pub(crate) fn enter(&mut self, octets: &[u8], account: &Account, item: Option<Item>)
        requires { HasRoom self.old 3 (length octets.now) }
        ensures notes { notes_in self.new ≡ notes_in self.old ++ (option_to_list (note_there account.now.took)
            ++ notes_owed (role_of self.old.side) account.now.owed) }
        ensures told { told_in self.new ≡ told_in self.old
            ++ note_tells (lives_in (role_of self.old.side) (notes_in self.old)) (note_there account.now.took)
            (item_there item) }
        ensures said { tells_in self.new ≡ tells_in self.old
            ++ said_by_owed (lives_in (role_of self.old.side) (notes_in self.old
            ++ option_to_list (note_there account.now.took))) account.now.owed }
        ensures fed { self.new.fed.items ≡ self.old.fed.items ++ octets.now }
        ensures written_same { self.new.written ≡ self.old.written }
        ensures side { self.new.side ≡ self.old.side }
    {
        append_within(&mut self.fed, octets);
        match account.took {
            Some(note) => {
                self.tell(note.channel, item);
                self.note(note);
            }
            None => drop(item),
        }
        self.say_owed(account.owed);
        self.note_owed(account.owed);
    }

    /// These octets of the output were written.
    pub(crate) fn write(&mut self, octets: &[u8])
        requires { vec_len self.old.written + length octets.now ≤ vec_capacity self.old.written }
        ensures written { self.new.written.items ≡ self.old.written.items ++ octets.now }
        ensures len { vec_len self.new.written ≡ vec_len self.old.written + length octets.now }
        ensures capacity { vec_capacity self.old.written ≤ vec_capacity self.new.written }
        ensures notes_same { self.new.notes ≡ self.old.notes }
        ensures told_same { self.new.told ≡ self.old.told }
        ensures said_same { self.new.said ≡ self.old.said }
        ensures fed_same { self.new.fed ≡ self.old.fed }
        ensures side { self.new.side ≡ self.old.side }
    {
        append_within(&mut self.written, octets);
    }
}
