//! What is gathered of the events of an end that lends: contents as they come.
//!
//! The content of one channel is at hand, and those of other channels stand aside, since the frames of a content
//! mostly follow one another. What is whole changes places with the octets of a content before it, so that most
//! contents take no memory. Nothing else is kept: any other event goes on as the end lends it, and so is the last part
//! of a body, where it is all of the body.
ghost use Rattle.std.specs.Prelude.{◌≡◌, ◌<◌, ◌++◌, [], ℕ, None, Some, false, length, slice_get, IfOk, OnOk};
ghost use Rattle.std.specs.HashMap.{IsUnchanged};
ghost use Rattle.amqp_core.specs.Stream.EventRefView.{event_ref_there, event_ref_view};
ghost use Rattle.amqp_handle.specs.Gathered.{coming, head_length, Added, AddsLast, Begun, EndsWith, Gathers, Headed, IsAside, IsAtHand, IsKeptAside, IsTakenAside, IsThere, LetsAllGo, LetsGo, MakesPlaces, PutsAway, StaysBefore};

use amqp_core::EventRef;
use indexmap::IndexMap;
use std::alloc::Global;
use std::mem;
use thiserror::Error;

/// Memory was refused.
#[derive(Clone, Copy, PartialEq, Eq, Debug, Error)]
#[error("out of memory")]
pub struct OutOfMemory;

/// A buffer with more room than this is let go once its octets are.
const LARGE: usize = 1_048_576;

/// The payloads of a method and of its content header, and the body of the content.
#[derive(Drop)]
pub struct Parts {
    pub method: Vec<u8>,
    pub header: Vec<u8>,
    pub body: Vec<u8>,
}

impl Parts {
    /// No octets.
    pub fn new(alloc: Global) -> Parts
        ensures { (result.method.items ≡ []) × (result.header.items ≡ []) × (result.body.items ≡ []) }
    {
        Parts {
            method: Vec::new(alloc),
            header: Vec::new(alloc),
            body: Vec::new(alloc),
        }
    }

    /// Lets the octets go, and keeps the room where it isn't large.
    fn clear(&mut self)
        ensures { (self.new.method.items ≡ []) × (self.new.header.items ≡ []) × (self.new.body.items ≡ []) }
    {
        self.method.clear();
        self.header.clear();
        self.body.clear();
        if self.body.capacity() > LARGE {
            self.body.shrink_to(0);
        }
    }

    /// How many octets the payloads of the method and of the header have.
    fn head_length(&self) -> usize
        ensures { result ≡ head_length self.now }
    {
        self.method.len().saturating_add(self.header.len())
    }
}

/// What an end that gathers tells of an event.
#[derive(Clone, Copy)]
pub enum Gathered<'a> {
    /// Nothing: it is kept until its content is whole.
    Nothing,
    /// The event itself.
    Event(EventRef<'a>),
    /// The content on this channel, which is whole. What came of it before has the place that was given. The octets are
    /// all of its body, or none, where a part of it came before.
    Whole(u16, &'a [u8]),
}

/// The contents that are coming to an end, and the places of those that are whole.
#[derive(Drop)]
pub struct Gathering {
    pub places: Vec<Parts>,
    /// The channel whose content is at hand, if one is.
    pub current: Option<u16>,
    /// What has come of that, or room for the next.
    pub at_hand: Parts,
    /// What has come of the contents of other channels.
    pub aside: IndexMap<u16, Parts>,
    /// How many octets of methods and headers are kept of contents that aren't whole, and how many of bodies.
    pub heads: usize,
    pub bodies: usize,
    /// Memory was refused for what came: what comes after it isn't told.
    pub is_lost: bool,
}

/// Keeps what has come of a channel's content aside.
///
/// It stands apart, since the frames of a content mostly follow one another.
#[inline(never)]
fn keep_aside(
    aside: &mut IndexMap<u16, Parts>,
    channel: u16,
    parts: Parts,
) -> Result<(), OutOfMemory>
    ensures { OnOk result (IsKeptAside aside.old channel parts aside.new) }
{
    match aside.insert(channel, parts) {
        Ok(_) => Ok(()),
        Err(_) => Err(OutOfMemory),
    }
}

/// Below so many contents no room is given back.
const FEW: usize = 8;

/// Gives room back as contents become fewer: where their number comes down to a power of two, the room for more than
/// twice as many.
fn give_back(aside: &mut IndexMap<u16, Parts>)
    ensures { IsUnchanged aside.old aside.new }
{
    let count = aside.len();
    if FEW <= count && count.is_power_of_two() {
        aside.shrink_to(2 * count);
    }
}

/// Takes what stands aside of a channel's content.
#[inline(never)]
fn take_aside(aside: &mut IndexMap<u16, Parts>, channel: u16) -> Option<Parts>
    ensures { IsTakenAside aside.old channel result aside.new }
{
    let taken = aside.swap_remove(&channel);
    give_back(aside);
    taken
}

/// Appends octets.
#[inline(always)]
fn append(octets: &mut Vec<u8>, more: &[u8]) -> Result<(), OutOfMemory>
    ensures { OnOk result (octets.new.items ≡ octets.old.items ++ more.now) }
{
    match octets.extend_from_slice(more) {
        Ok(()) => Ok(()),
        Err(_) => Err(OutOfMemory),
    }
}

impl Gathering {
    /// No place, and nothing that is coming.
    pub fn new(alloc: Global) -> Gathering
        ensures places { result.places.items ≡ [] }
        ensures none { (channel : ℕ) → coming result channel ≡ None }
        ensures counts { (result.heads ≡ 0) × (result.bodies ≡ 0) }
        ensures mark { result.is_lost ≡ false }
    {
        Gathering {
            places: Vec::new(alloc),
            current: None,
            at_hand: Parts::new(alloc),
            aside: IndexMap::new(alloc),
            heads: 0,
            bodies: 0,
            is_lost: false,
        }
    }

    /// Puts aside what is at hand.
    #[inline(never)]
    fn stand_aside(&mut self, alloc: Global) -> Result<(), OutOfMemory>
        ensures aside { OnOk result (IsAside self.old self.new) }
        ensures places { self.new.places ≡ self.old.places }
    {
        let Some(number) = self.current else {
            return Ok(());
        };
        let parts = mem::replace(&mut self.at_hand, Parts::new(alloc));
        keep_aside(&mut self.aside, number, parts)?;
        self.current = None;
        Ok(())
    }

    /// Takes what stands aside of a channel's content at hand, where nothing is.
    fn take_at_hand(&mut self, channel: u16)
        requires { self.old.current ≡ None }
        ensures { IsAtHand self.old channel self.new }
    {
        self.at_hand.clear();
        self.current = Some(channel);
        if self.aside.is_empty() {
            return;
        }
        if let Some(parts) = take_aside(&mut self.aside, channel) {
            self.at_hand = parts;
        }
    }

    /// Takes the content of a channel at hand.
    #[inline(always)]
    fn turn_to(&mut self, alloc: Global, channel: u16) -> Result<(), OutOfMemory>
        ensures here { OnOk result (IsAtHand self.old channel self.new) }
        ensures places { self.new.places ≡ self.old.places }
    {
        if self.current == Some(channel) {
            return Ok(());
        }
        self.stand_aside(alloc)?;
        self.take_at_hand(channel);
        Ok(())
    }

    /// A method begins a content.
    #[inline(never)]
    fn begin(&mut self, alloc: Global, channel: u16, payload: &[u8]) -> Result<(), OutOfMemory>
        ensures comes { OnOk result (Begun self.old channel payload.now self.new) }
        ensures places { self.new.places ≡ self.old.places }
    {
        self.turn_to(alloc, channel)?;
        self.heads = self.heads.saturating_sub(self.at_hand.head_length());
        self.heads = self.heads.saturating_add(payload.len());
        self.bodies = self.bodies.saturating_sub(self.at_hand.body.len());
        self.at_hand.clear();
        append(&mut self.at_hand.method, payload)
    }

    /// Its header comes.
    #[inline(never)]
    fn head(&mut self, alloc: Global, channel: u16, payload: &[u8]) -> Result<(), OutOfMemory>
        ensures comes { OnOk result (Headed self.old channel payload.now self.new) }
        ensures places { self.new.places ≡ self.old.places }
    {
        self.turn_to(alloc, channel)?;
        self.heads = self.heads.saturating_sub(self.at_hand.header.len());
        self.heads = self.heads.saturating_add(payload.len());
        self.at_hand.header.clear();
        append(&mut self.at_hand.header, payload)
    }

    /// A part of its body comes.
    #[inline(never)]
    fn add(&mut self, alloc: Global, channel: u16, part: &[u8]) -> Result<(), OutOfMemory>
        ensures comes { OnOk result (Added self.old channel part.now self.new) }
        ensures places { self.new.places ≡ self.old.places }
    {
        self.turn_to(alloc, channel)?;
        self.bodies = self.bodies.saturating_add(part.len());
        append(&mut self.at_hand.body, part)
    }

    /// Makes places up to this one.
    #[inline(never)]
    fn make_places(&mut self, alloc: Global, place: usize) -> Result<(), OutOfMemory>
        ensures made { OnOk result (MakesPlaces self.old place self.new) }
        ensures stays { StaysBefore place self.old.places.items self.new.places.items }
    {
        while self.places.len() <= place {
            let Ok(()) = self.places.push(Parts::new(alloc)) else {
                return Err(OutOfMemory);
            };
        }
        Ok(())
    }

    /// Gives what came of the content at hand a place. The octets that are there change places with it.
    #[inline(always)]
    fn put_away(&mut self, alloc: Global, place: usize) -> Result<(), OutOfMemory>
        ensures away { OnOk result (PutsAway self.old place self.new) }
        ensures stays { StaysBefore place self.old.places.items self.new.places.items }
    {
        if place >= self.places.len() {
            self.make_places(alloc, place)?;
        }
        self.heads = self.heads.saturating_sub(self.at_hand.head_length());
        self.bodies = self.bodies.saturating_sub(self.at_hand.body.len());
        self.current = None;
        mem::swap(&mut self.places[place], &mut self.at_hand);
        Ok(())
    }

    /// The last part of a body comes: what came before has the place then. Where that has a part of the body, the last
    /// one is appended there.
    #[inline(always)]
    fn add_last<'a>(
        &mut self,
        alloc: Global,
        place: usize,
        channel: u16,
        part: &'a [u8],
    ) -> Result<&'a [u8], OutOfMemory>
        ensures last { IfOk result (λ last. AddsLast self.old place channel part.now last.now self.new) }
        ensures stays { StaysBefore place self.old.places.items self.new.places.items }
    {
        self.turn_to(alloc, channel)?;
        self.put_away(alloc, place)?;
        let body = &mut self.places[place].body;
        if body.is_empty() {
            return Ok(part);
        }
        append(body, part)?;
        Ok(&part[..0])
    }

    /// Lets go what has come on a channel.
    fn let_go(&mut self, channel: u16)
        ensures { LetsGo self.old channel self.new }
    {
        let aside = take_aside(&mut self.aside, channel);
        if self.current == Some(channel) {
            self.heads = self.heads.saturating_sub(self.at_hand.head_length());
            self.bodies = self.bodies.saturating_sub(self.at_hand.body.len());
            self.current = None;
        } else if let Some(parts) = aside {
            self.heads = self.heads.saturating_sub(parts.head_length());
            self.bodies = self.bodies.saturating_sub(parts.body.len());
        }
    }

    /// Lets go all that has come.
    fn let_all_go(&mut self)
        ensures { LetsAllGo self.old self.new }
    {
        self.current = None;
        self.at_hand.clear();
        self.aside.clear();
        self.heads = 0;
        self.bodies = 0;
    }

    /// Lets go the contents that an event ends.
    #[inline(never)]
    fn end_with(&mut self, event: EventRef<'_>)
        ensures { EndsWith (event_ref_view event.entry) self.old self.new }
    {
        match event {
            EventRef::ChannelClosed(channel, _) => self.let_go(channel),
            EventRef::Discarded(channel) => self.let_go(channel),
            EventRef::ConnectionClosed(_) => self.let_all_go(),
            _ => {}
        }
    }

    /// What to tell of an event: a content once it is whole, at this place.
    #[inline(always)]
    pub fn take_event<'a>(
        &mut self,
        alloc: Global,
        place: usize,
        event: EventRef<'a>,
    ) -> Result<Gathered<'a>, OutOfMemory>
        ensures tells { IfOk result (λ told. Gathers (Some (event_ref_view event.entry)) self.old place told self.new) }
        ensures there { IfOk result (λ told. IsThere told (slice_get self.new.places.items place)) }
        ensures stays { StaysBefore place self.old.places.items self.new.places.items }
    {
        match event {
            EventRef::Part(channel, part, whole) => {
                if whole {
                    let last = self.add_last(alloc, place, channel, part)?;
                    return Ok(Gathered::Whole(channel, last));
                }
                self.add(alloc, channel, part)?;
                Ok(Gathered::Nothing)
            }
            EventRef::Begins(channel, method) => {
                self.begin(alloc, channel, method.payload())?;
                Ok(Gathered::Nothing)
            }
            EventRef::Heads(channel, header, whole) => {
                let payload = header.payload();
                self.head(alloc, channel, payload)?;
                if whole {
                    self.put_away(alloc, place)?;
                    return Ok(Gathered::Whole(channel, &payload[..0]));
                }
                Ok(Gathered::Nothing)
            }
            EventRef::Method(channel, method) => {
                Ok(Gathered::Event(EventRef::Method(channel, method)))
            }
            other => {
                self.end_with(other);
                Ok(Gathered::Event(other))
            }
        }
    }

    /// What to tell of an event, if there is one.
    #[inline(never)]
    pub fn take<'a>(
        &mut self,
        alloc: Global,
        place: usize,
        event: Option<EventRef<'a>>,
    ) -> Result<Gathered<'a>, OutOfMemory>
        ensures tells { IfOk result (λ told. Gathers (event_ref_there event.entry) self.old place told self.new) }
        ensures there { IfOk result (λ told. IsThere told (slice_get self.new.places.items place)) }
        ensures stays { StaysBefore place self.old.places.items self.new.places.items }
    {
        match event {
            Some(event) => self.take_event(alloc, place, event),
            None => Ok(Gathered::Nothing),
        }
    }
}
