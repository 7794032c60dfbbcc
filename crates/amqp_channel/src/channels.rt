//! The channels of a connection, by number.
//!
//! A channel is kept from its open to its end, and none that is Free is kept: memory is bounded by the channels in use,
//! whatever their numbers are.
ghost use Rattle.std.specs.Prelude.{◌≡◌, ◌≢◌, ◌+◌, ◌<◌, ◌≤◌, true, false, not, ℕ, suc, IfNone, IfOk, IfSome, IsOk, OnErr, OnOk, MatchOption, None, nat_eq};
ghost use Rattle.amqp_model.specs.End.Amounts.{IsSum};
ghost use Rattle.amqp_model.specs.End.Asks.{is_free, first_free};
ghost use Rattle.amqp_model.specs.End.Channels.{Free};
ghost use Rattle.amqp_model.specs.Wire.Notes.{Role};
ghost use Rattle.amqp_model.specs.Wire.Readings as model;
ghost use Rattle.amqp_channel.specs.Channel.ChannelView.{channel_view, is_lent};
ghost use Rattle.amqp_channel.specs.Channels.Used.{body_octets_at, header_octets_at, is_closing_at, used_gathered, used_view, BodiesFit, HoldsAt, IsIdleAt, IsKeptAt, IsTakenOut, KeepsEntriesAt, KeepsOthersAt, KeptAt, NoneElseFree, NoneFreeBelow, NoneKeptFree, NoneLentIn, PutAt, WritesAt};
ghost use Rattle.amqp_channel.specs.Channels.Passed.{IsPassed, PassedAreTaken};
ghost use Rattle.indexmap.specs.IndexMap.{index_map_len};
ghost use Rattle.std.specs.HashMap.{IsUnchanged, IsUnique};
ghost use Rattle.amqp_method.specs.HeaderRefView.{lent_header};
ghost use Rattle.amqp_method.specs.HeaderView.{headers_alone};
ghost use Rattle.amqp_method.specs.MethodRefView.{lent_call};
ghost use Rattle.amqp_model.specs.Wire.Methods.{header_at};
ghost use Rattle.amqp_model.specs.Wire.Readings.{header_reading, BodyOf, Calls};
ghost use Rattle.amqp_channel.specs.ReadingView.{header_said, length_said, reading_view};
ghost use Rattle.amqp_channel.specs.Verdict.VerdictView.{left_by, Drops, Fits, IsPart, Rules};

mod puts;

use crate::amounts::{Amount, Amounts};
use crate::channel::Channel;
use crate::deferred::{KEPT_READ, length_if_read};
use crate::free_numbers::FreeNumbers;
use crate::reading::Reading;
use crate::side::Side;
use crate::site::Site;
use crate::standing::leaves_channel;
use crate::verdict::{Told, Verdict};
use amqp_method::{Content, HeaderRef, MethodRef, OutOfMemory, read_headers};
use amqp_value::Table;
use indexmap::IndexMap;
use std::alloc::Global;

/// The event of a frame that is done with at once, and the content that it makes whole, if it makes one whole.
#[derive(Drop)]
pub struct Passed {
    pub told: Told,
    pub content: Option<Box<Content>>,
}

/// The channels that are in use.
pub struct Channels {
    used: IndexMap<u16, Channel>,
    /// Where the channel stood among them that was opened last, or that of the last frame.
    last: usize,
    numbers: FreeNumbers,
    /// How many octets are kept of the contents under way.
    pub(crate) amounts: Amounts,
    ghost passed_are_taken: { PassedAreTaken used numbers },
    ghost none_free: { NoneKeptFree used },
    ghost counts_headers: { IsSum (header_octets_at used) amounts.headers },
    ghost counts_bodies: { IsSum (body_octets_at used) amounts.bodies },
    ghost bodies_fit: { BodiesFit used },
}

/// Written out, so that no crate above proves again of each part that it can be dropped.
impl Drop for Channels {
    fn drop(self) {
        let Channels {
            used: _,
            last: _,
            numbers: _,
            amounts: _,
        } = self;
    }
}

/// Below so many channels no room is given back.
const FEW: usize = 8;

/// Gives room back as channels end: where their number comes down to a power of two, the room for more than twice as
/// many. If that takes memory and it is refused, the room stays as it is.
fn give_back(used: &mut IndexMap<u16, Channel>)
    ensures { IsUnchanged used.old used.new }
{
    let count = used.len();
    if FEW <= count && count.is_power_of_two() {
        used.shrink_to(2 * count);
    }
}

/// Takes the channel of a number out.
fn remove(used: &mut IndexMap<u16, Channel>, number: u16)
    ensures { IsTakenOut used.old number used.new }
{
    let _ = used.swap_remove(&number);
    give_back(used);
}

/// Takes out a channel that is Free.
///
/// It stands apart, since few frames end a channel.
#[inline(never)]
fn take_out(
    used: &mut IndexMap<u16, Channel>,
    numbers: &mut FreeNumbers,
    alloc: Global,
    number: u16,
)
    requires above { 0 < number }
    requires free { is_free (used_view used.old number) ≡ true }
    requires taken { (j : ℕ) → IsPassed numbers.old (suc j) → suc j ≢ number
        → is_free (used_view used.old (suc j)) ≡ false }
    requires none { NoneElseFree used.old number }
    ensures same { (other : ℕ) → used_view used.new other ≡ used_view used.old other }
    ensures gathered { (other : ℕ) → used_gathered used.new other ≡ used_gathered used.old other }
    ensures taken { PassedAreTaken used.new numbers.new }
    ensures none { NoneKeptFree used.new }
    ensures gathers { NoneLentIn used.old → NoneLentIn used.new }
{
    remove(used, number);
    numbers.free(alloc, number, used.len());
}

/// Takes a channel out if it is Free.
fn tidy(
    used: &mut IndexMap<u16, Channel>,
    numbers: &mut FreeNumbers,
    alloc: Global,
    number: u16,
    over: bool,
)
    requires above { 0 < number }
    requires free { over ≡ is_free (used_view used.old number) }
    requires taken { (j : ℕ) → IsPassed numbers.old (suc j) → suc j ≢ number
        → is_free (used_view used.old (suc j)) ≡ false }
    requires none { NoneElseFree used.old number }
    ensures same { (other : ℕ) → used_view used.new other ≡ used_view used.old other }
    ensures gathered { (other : ℕ) → used_gathered used.new other ≡ used_gathered used.old other }
    ensures taken { PassedAreTaken used.new numbers.new }
    ensures none { NoneKeptFree used.new }
    ensures gathers { NoneLentIn used.old → NoneLentIn used.new }
{
    if !over {
        return;
    }
    take_out(used, numbers, alloc, number);
}

/// Keeps a channel under a number. Out of memory, all is as it was.
///
/// It stands apart, so that what stood there before is dropped in one place.
fn keep(used: &mut IndexMap<u16, Channel>, number: u16, channel: Channel) -> Result<(), OutOfMemory>
    ensures ok { OnOk result (IsKeptAt used.old number channel used.new) }
    ensures err { OnErr result (IsUnchanged used.old used.new) }
{
    used.insert(number, channel)?;
    Ok(())
}

impl Channels {
    ghost use Rattle.amqp_channel.specs.Channels.ChannelsView.{channels_view, NoneLent, NoneUnderWay, OnlyAt};
    ghost use Rattle.amqp_channel.specs.Channels.Applies.{Applies, AppliesLent, PassesGathered, PassesLent};
    ghost use Rattle.amqp_channel.specs.Verdict.LentView.{known_on, progress_with, FitsProgress};
    ghost use Rattle.amqp_model.specs.Lent.Streaming.{streamed};
    ghost use Rattle.amqp_channel.specs.Channel.ChannelView.{content_on};
    ghost use Rattle.amqp_channel.specs.Channels.Finds.{FindsFree};

    /// A connection begins with no channel in use.
    pub fn new(alloc: Global) -> Channels
        ensures free { (number : ℕ) → channels_view result number ≡ Free }
        ensures gathers { NoneLent result }
    {
        Channels {
            used: IndexMap::new(alloc),
            last: 0,
            numbers: FreeNumbers::new(),
            amounts: Amounts::none(),
        }
    }

    /// The channel of this number, if it is in use.
    pub fn get(&self, number: u16) -> Option<&Channel>
        requires { 0 < number }
        ensures { MatchOption result (channels_view self.now number ≡ Free) (λ channel. channels_view self.now number
            ≡ channel_view channel.now) }
    {
        self.used.get(&number)
    }

    /// Sets a channel that was Free.
    pub(crate) fn set(&mut self, number: u16, channel: Channel) -> Result<(), OutOfMemory>
        requires above { 0 < number }
        requires free { is_free (channels_view self.old number) ≡ true }
        ensures gathers { is_lent channel ≡ false → NoneLent self.old → NoneLent self.new }
        ensures at { OnOk result (channels_view self.new number ≡ channel_view channel) }
        ensures others { OnOk result (OnlyAt number (channels_view self.old) (channels_view self.new)) }
        ensures err { OnErr result ((other : ℕ) → channels_view self.new other ≡ channels_view self.old other) }
    {
        if channel.is_free() {
            return Ok(());
        }
        let left = channel.amount();
        let place = self.used.len();
        keep(&mut self.used, number, channel)?;
        self.last = place;
        self.numbers.take(number);
        self.amounts = self.amounts.after(Amount::none(), left);
        Ok(())
    }

    /// Where the channel of this number stands, if it is in use.
    ///
    /// Most frames come on the channel of the frame before. So what stands at its place is looked at first, and the
    /// number is looked up only where that is another channel, or none.
    #[inline(always)]
    fn place_of(&self, number: u16) -> Option<usize>
        requires { 0 < number }
        ensures within { IfSome result (λ place. place < index_map_len self.now.used) }
        ensures holds { IfSome result (λ place. HoldsAt self.now.used place number) }
        ensures written { IfSome result (λ place. WritesAt self.now.used place number) }
        ensures kept { IfSome result (λ place. KeptAt self.now.used place number) }
        ensures put { IfSome result (λ place. PutAt self.now.used place number) }
        ensures others { IfSome result (λ place. KeepsOthersAt self.now.used place number) }
        ensures entries { IfSome result (λ place. KeepsEntriesAt self.now.used place number) }
        ensures taken { IfSome result (λ place. is_free (channels_view self.now number) ≡ false) }
        ensures none { IfNone result (channels_view self.now number ≡ Free) }
    {
        if let Some((key, _)) = self.used.as_slice().get_index(self.last) {
            if *key == number {
                return Some(self.last);
            }
        }
        self.look_up(number)
    }

    /// The same, by its number. It stands apart, since few frames come on another channel than the one before.
    #[inline(never)]
    fn look_up(&self, number: u16) -> Option<usize>
        requires above { 0 < number }
        requires unique { IsUnique nat_eq self.now.used }
        ensures within { IfSome result (λ place. place < index_map_len self.now.used) }
        ensures holds { IfSome result (λ place. HoldsAt self.now.used place number) }
        ensures written { IfSome result (λ place. WritesAt self.now.used place number) }
        ensures kept { IfSome result (λ place. KeptAt self.now.used place number) }
        ensures put { IfSome result (λ place. PutAt self.now.used place number) }
        ensures others { IfSome result (λ place. KeepsOthersAt self.now.used place number) }
        ensures entries { IfSome result (λ place. KeepsEntriesAt self.now.used place number) }
        ensures taken { IfSome result (λ place. is_free (channels_view self.now number) ≡ false) }
        ensures none { IfNone result (channels_view self.now number ≡ Free) }
    {
        let Some((place, _, _)) = self.used.get_full(&number) else {
            return None;
        };
        Some(place)
    }

    /// What the rules say of a frame on a channel.
    #[inline(always)]
    pub fn judge(&self, site: Site, reading: Reading<'_>) -> Verdict
        requires { 0 < site.number }
        ensures rules { Rules site (channels_view self.now site.number) (reading_view reading.entry) result }
        // Where this end has closed the channel, a part of a content is dropped.
        ensures drops { is_closing_at (channels_view self.now site.number) ≡ true
            → IsPart (reading_view reading.entry) → Drops result }
    {
        match self.place_of(site.number) {
            Some(place) => self.used[place].judge(site, reading),
            None => Channel::Free.judge(site, reading),
        }
    }

    /// Leaves the channel of a frame as its verdict does, where contents are gathered. What is answered is the content
    /// that the frame makes whole. Out of memory, the channel stays as it was.
    pub fn apply(
        &mut self,
        alloc: Global,
        side: Side,
        number: u16,
        reading: Reading<'_>,
        verdict: Verdict,
    ) -> Result<Option<Box<Content>>, OutOfMemory>
        requires above { 0 < number }
        requires fits { Fits (channels_view self.old number) (reading_view reading) verdict }
        requires gathers { NoneLent self.old }
        ensures { Applies side number (reading_view reading.entry) verdict self.old result self.new }
    {
        match self.place_of(number) {
            Some(place) => {
                self.last = place;
                if leaves_channel(side, reading, verdict) {
                    return Ok(None);
                }
                let channel = &mut self.used[place];
                let before = channel.amount();
                let answer = channel.apply(alloc, side, reading, verdict);
                let left = channel.amount();
                let over = channel.is_free();
                self.amounts = self.amounts.after(before, left);
                tidy(&mut self.used, &mut self.numbers, alloc, number, over);
                answer
            }
            None => {
                self.apply_unused(number, verdict)?;
                Ok(None)
            }
        }
    }

    /// Judges a frame and leaves its channel, where that is done at once and contents are gathered: where the frame
    /// owes no reply, and changes at most the content under way. The answer is its event, and the content that it makes
    /// whole. Otherwise nothing is done, and the rules are asked by [`Channels::judge`]. Out of memory, the channel
    /// stays as it was.
    ///
    /// Most frames are done with here, each kind of them in its own way, as by [`Channels::pass_lent`]: a content takes
    /// a fifth less time so than by way of a verdict.
    #[inline(always)]
    pub fn pass(
        &mut self,
        alloc: Global,
        site: Site,
        reading: Reading<'_>,
    ) -> Result<Option<Passed>, OutOfMemory>
        requires above { 0 < site.number }
        requires gathers { NoneLent self.old }
        ensures passes { IfOk result (λ passed. IfSome passed (λ it.
            PassesGathered site (reading_view reading.entry) self.old it.told it.content self.new)) }
        ensures stays { IfOk result (λ passed. passed ≡ None → self.new ≡ self.old) }
        ensures err { OnErr result (channels_view self.new site.number ≡ channels_view self.old site.number) }
        ensures others { OnErr result (OnlyAt site.number (channels_view self.old) (channels_view self.new)) }
        ensures gathers { NoneLent self.new }
        // What is dropped takes no memory.
        ensures drops { is_closing_at (channels_view self.old site.number) ≡ true → IsPart (reading_view reading.entry)
            → IsOk result }
    {
        if site.channel_max < site.number {
            return Ok(None);
        }
        let Some(place) = self.place_of(site.number) else {
            return Ok(None);
        };
        match reading {
            Reading::Method(method) => self.pass_method_at(place, alloc, site, method),
            Reading::Header(header) => self.pass_header_at(place, alloc, site, header),
            Reading::Body(octets) => self.pass_body_at(place, site, octets),
            Reading::UnknownMethod => Ok(None),
            Reading::MalformedMethod => Ok(None),
            Reading::MalformedHeader => Ok(None),
            Reading::Heartbeat(_) => Ok(None),
        }
    }

    /// The same for a method, on the channel at this place. What is kept of contents has no octets more then.
    #[inline(always)]
    fn pass_method_at(
        &mut self,
        place: usize,
        alloc: Global,
        site: Site,
        method: MethodRef<'_>,
    ) -> Result<Option<Passed>, OutOfMemory>
        requires above { 0 < site.number }
        requires most { site.number ≤ site.channel_max }
        requires gathers { NoneLent self.old }
        requires within { place < index_map_len self.old.used }
        requires holds { HoldsAt self.old.used place site.number }
        requires written { WritesAt self.old.used place site.number }
        requires kept { KeptAt self.old.used place site.number }
        requires put { PutAt self.old.used place site.number }
        requires others { KeepsOthersAt self.old.used place site.number }
        requires entries { KeepsEntriesAt self.old.used place site.number }
        ensures passes { IfOk result (λ passed. IfSome passed (λ it.
            PassesGathered site (Calls (lent_call method.entry)) self.old it.told it.content self.new)) }
        ensures stays { IfOk result (λ passed. passed ≡ None → self.new ≡ self.old) }
        ensures err { OnErr result (channels_view self.new site.number ≡ channels_view self.old site.number) }
        ensures others { OnErr result (OnlyAt site.number (channels_view self.old) (channels_view self.new)) }
        ensures gathers { NoneLent self.new }
    {
        let Some(told) = self.used[place].passes_method(site, method) else {
            return Ok(None);
        };
        match told {
            Told::Method => {
                self.last = place;
                Ok(Some(Passed {
                    told,
                    content: None,
                }))
            }
            Told::Begun => {
                let begun = self.used[place].begin_one_way(alloc, method);
                self.last = place;
                match begun {
                    Ok(()) => Ok(Some(Passed {
                        told,
                        content: None,
                    })),
                    Err(fault) => Err(fault),
                }
            }
            _ => Ok(None),
        }
    }

    /// The same for a header.
    #[inline(always)]
    fn pass_header_at(
        &mut self,
        place: usize,
        alloc: Global,
        site: Site,
        header: HeaderRef<'_>,
    ) -> Result<Option<Passed>, OutOfMemory>
        requires above { 0 < site.number }
        requires most { site.number ≤ site.channel_max }
        requires gathers { NoneLent self.old }
        requires within { place < index_map_len self.old.used }
        requires holds { HoldsAt self.old.used place site.number }
        requires written { WritesAt self.old.used place site.number }
        requires kept { KeptAt self.old.used place site.number }
        requires put { PutAt self.old.used place site.number }
        requires others { KeepsOthersAt self.old.used place site.number }
        requires entries { KeepsEntriesAt self.old.used place site.number }
        ensures passes { IfOk result (λ passed. IfSome passed (λ it.
            PassesGathered site (header_said header.entry) self.old it.told it.content self.new)) }
        ensures stays { IfOk result (λ passed. passed ≡ None → self.new ≡ self.old) }
        ensures err { OnErr result (channels_view self.new site.number ≡ channels_view self.old site.number) }
        ensures others { OnErr result (OnlyAt site.number (channels_view self.old) (channels_view self.new)) }
        ensures gathers { NoneLent self.new }
        ensures drops { is_closing_at (channels_view self.old site.number) ≡ true → IsOk result }
    {
        let Some(told) = self.used[place].passes_gathered_header(site, header) else {
            return Ok(None);
        };
        match told {
            Told::Completed => {
                let whole = self.used[place].finish_header_one_way(alloc, header);
                self.last = place;
                match whole {
                    Ok(content) => Ok(Some(Passed {
                        told,
                        content: Some(content),
                    })),
                    Err(fault) => Err(fault),
                }
            }
            Told::Headed => {
                let channel = &mut self.used[place];
                let headed = channel.head_one_way(alloc, site.side, header);
                let left = channel.amount();
                self.amounts = self.amounts.after(Amount::none(), left);
                self.last = place;
                match headed {
                    Ok(()) => Ok(Some(Passed {
                        told,
                        content: None,
                    })),
                    Err(fault) => Err(fault),
                }
            }
            _ => Ok(None),
        }
    }

    /// Judges a header and leaves its channel, as [`Channels::pass`] does with a header after which more of its content
    /// is due. It is read in one walk, checked and built, so this is for headers with a table of headers alone, or
    /// nothing. Of any other nothing is done.
    #[inline(always)]
    #[tactic(auto, unfolding(amqp_model::specs::Wire::Methods::header_at))]
    pub fn pass_header<'a>(
        &mut self,
        alloc: Global,
        site: Site,
        payload: &'a [u8],
    ) -> Option<HeaderRef<'a>>
        requires above { 0 < site.number }
        requires gathers { NoneLent self.old }
        ensures says { IfSome result (λ header. header_said header ≡ header_reading (header_at payload.now)) }
        ensures passes { IfSome result (λ header.
            PassesGathered site (header_said header) self.old Told.Headed None self.new) }
        ensures stays { result ≡ None → self.new ≡ self.old }
        ensures gathers { NoneLent self.new }
    {
        if site.channel_max < site.number || KEPT_READ < payload.len() {
            return None;
        }
        let place = self.place_of(site.number)?;
        if !self.used[place].awaits_header() {
            return None;
        }
        let (header, table) = read_headers(alloc, payload)?;
        let length = length_if_read(header)?;
        if !self.head_at(place, site, header, length, table) {
            return None;
        }
        Some(header)
    }

    /// Takes a header with its table of headers and no other property on the channel at this place, where nothing
    /// changes beside the content and more of it is due; and answers whether that is so. Otherwise nothing is done.
    #[inline(always)]
    fn head_at(
        &mut self,
        place: usize,
        site: Site,
        header: HeaderRef<'_>,
        length: u32,
        table: Option<Table>,
    ) -> bool
        requires above { 0 < site.number }
        requires most { site.number ≤ site.channel_max }
        requires gathers { NoneLent self.old }
        requires within { place < index_map_len self.old.used }
        requires holds { HoldsAt self.old.used place site.number }
        requires written { WritesAt self.old.used place site.number }
        requires kept { KeptAt self.old.used place site.number }
        requires put { PutAt self.old.used place site.number }
        requires others { KeepsOthersAt self.old.used place site.number }
        requires entries { KeepsEntriesAt self.old.used place site.number }
        requires counts { length ≡ length_said header }
        requires alone { (lent_header header).properties ≡ headers_alone table }
        ensures passes { result ≡ true
            → PassesGathered site (header_said header.entry) self.old Told.Headed None self.new }
        ensures stays { result ≡ false → self.new ≡ self.old }
        ensures gathers { NoneLent self.new }
    {
        let Some(Told::Headed) = self.used[place].passes_gathered_header(site, header) else {
            return false;
        };
        let channel = &mut self.used[place];
        channel.head_with(site.side, header, length, table);
        let left = channel.amount();
        self.amounts = self.amounts.after(Amount::none(), left);
        self.last = place;
        true
    }

    /// The same for a part of a body.
    #[inline(always)]
    fn pass_body_at(
        &mut self,
        place: usize,
        site: Site,
        octets: &[u8],
    ) -> Result<Option<Passed>, OutOfMemory>
        requires above { 0 < site.number }
        requires most { site.number ≤ site.channel_max }
        requires gathers { NoneLent self.old }
        requires within { place < index_map_len self.old.used }
        requires holds { HoldsAt self.old.used place site.number }
        requires written { WritesAt self.old.used place site.number }
        requires kept { KeptAt self.old.used place site.number }
        requires put { PutAt self.old.used place site.number }
        requires others { KeepsOthersAt self.old.used place site.number }
        requires entries { KeepsEntriesAt self.old.used place site.number }
        ensures passes { IfOk result (λ passed. IfSome passed (λ it.
            PassesGathered site (BodyOf octets.now) self.old it.told it.content self.new)) }
        ensures stays { IfOk result (λ passed. passed ≡ None → self.new ≡ self.old) }
        ensures err { OnErr result (channels_view self.new site.number ≡ channels_view self.old site.number) }
        ensures others { OnErr result (OnlyAt site.number (channels_view self.old) (channels_view self.new)) }
        ensures gathers { NoneLent self.new }
        ensures drops { is_closing_at (channels_view self.old site.number) ≡ true → IsOk result }
    {
        let Some(told) = self.used[place].passes_gathered_body(site, octets) else {
            return Ok(None);
        };
        match told {
            Told::Completed => {
                let channel = &mut self.used[place];
                let was = channel.amount();
                let whole = channel.finish_one_way(octets);
                let left = channel.amount();
                self.amounts = self.amounts.after(was, left);
                self.last = place;
                match whole {
                    Ok(content) => Ok(Some(Passed {
                        told,
                        content: Some(content),
                    })),
                    Err(fault) => Err(fault),
                }
            }
            Told::Continued => {
                let filled = &mut self.used[place];
                let before = filled.amount();
                let more = filled.fill_one_way(site.side, octets);
                let now = filled.amount();
                self.amounts = self.amounts.after(before, now);
                self.last = place;
                match more {
                    Ok(()) => Ok(Some(Passed {
                        told,
                        content: None,
                    })),
                    Err(fault) => Err(fault),
                }
            }
            _ => Ok(None),
        }
    }

    /// The same on a number that is not in use, where contents are gathered or lent. Few frames come there, so it
    /// stands apart.
    #[inline(never)]
    fn apply_unused(&mut self, number: u16, verdict: Verdict) -> Result<(), OutOfMemory>
        requires above { 0 < number }
        requires free { channels_view self.old number ≡ Free }
        ensures left { OnOk result ((role : Role) (reading : model.Reading)
            → channels_view self.new number ≡ left_by role reading verdict Free) }
        ensures others { OnOk result (OnlyAt number (channels_view self.old) (channels_view self.new)) }
        ensures err { OnErr result ((other : ℕ) → channels_view self.new other ≡ channels_view self.old other) }
        ensures gathers { NoneLent self.old → NoneLent self.new }
    {
        self.set(number, Channel::begun_by(verdict))
    }

    /// Leaves the channel of a frame as its verdict does, where contents are lent: of one under way is kept how far it
    /// has come, and the channel is otherwise as `apply` leaves it. Memory is taken for a channel that is opened, and
    /// for the requests that a server keeps. Out of memory, the channel stays as it was.
    #[inline(always)]
    #[tactic(auto, using(crate::proofs::LentLemmas::alike_same))]
    pub fn apply_lent(
        &mut self,
        alloc: Global,
        side: Side,
        number: u16,
        reading: Reading<'_>,
        verdict: Verdict,
    ) -> Result<(), OutOfMemory>
        requires above { 0 < number }
        requires fits { Fits (channels_view self.old number) (reading_view reading) verdict }
        ensures { AppliesLent side number (reading_view reading.entry) verdict self.old result self.new }
    {
        match self.place_of(number) {
            Some(place) => {
                self.last = place;
                if leaves_channel(side, reading, verdict) {
                    return Ok(());
                }
                self.apply_lent_at(place, alloc, side, number, reading, verdict)
            }
            None => self.apply_unused(number, verdict),
        }
    }

    /// The same for the channel at this place. It stands apart, so that most methods, which leave their channel as it
    /// was, are done with where they are judged.
    #[inline(never)]
    fn apply_lent_at(
        &mut self,
        place: usize,
        alloc: Global,
        side: Side,
        number: u16,
        reading: Reading<'_>,
        verdict: Verdict,
    ) -> Result<(), OutOfMemory>
        requires above { 0 < number }
        requires fits { Fits (channels_view self.old number) (reading_view reading) verdict }
        requires within { place < index_map_len self.old.used }
        requires holds { HoldsAt self.old.used place number }
        requires written { WritesAt self.old.used place number }
        requires kept { KeptAt self.old.used place number }
        requires put { PutAt self.old.used place number }
        requires others { KeepsOthersAt self.old.used place number }
        requires entries { KeepsEntriesAt self.old.used place number }
        requires taken { is_free (channels_view self.old number) ≡ false }
        ensures { AppliesLent side number (reading_view reading.entry) verdict self.old result self.new }
    {
        let channel = &mut self.used[place];
        let before = channel.amount();
        let answer = channel.apply_lent(alloc, side, reading, verdict);
        let left = channel.amount();
        let over = channel.is_free();
        self.amounts = self.amounts.after(before, left);
        tidy(&mut self.used, &mut self.numbers, alloc, number, over);
        answer
    }

    /// Keeps how far a content that is lent has come with a frame, of the channel at this place.
    #[inline(always)]
    fn advance_at(&mut self, place: usize, number: u16, reading: Reading<'_>, told: Told)
        requires above { 0 < number }
        requires fits { FitsProgress (reading_view reading) told (streamed (content_on
            (channels_view self.old number))) }
        requires within { place < index_map_len self.old.used }
        requires holds { HoldsAt self.old.used place number }
        requires written { WritesAt self.old.used place number }
        requires kept { KeptAt self.old.used place number }
        requires put { PutAt self.old.used place number }
        requires others { KeepsOthersAt self.old.used place number }
        requires entries { KeepsEntriesAt self.old.used place number }
        requires taken { is_free (channels_view self.old number) ≡ false }
        ensures at { channels_view self.new number ≡ known_on (progress_with (reading_view reading.entry) told
            (streamed (content_on (channels_view self.old number)))) (channels_view self.old number) }
        ensures others { OnlyAt number (channels_view self.old) (channels_view self.new) }
    {
        let channel = &mut self.used[place];
        let before = channel.amount();
        channel.advance(reading, told);
        let left = channel.amount();
        self.amounts = self.amounts.after(before, left);
    }

    /// Judges a frame and leaves its channel, where that is done at once: where the frame owes no reply, and changes at
    /// most how far a content that is lent has come. The answer is its event. Otherwise nothing is done, and the
    /// rules are asked by [`Channels::judge`].
    ///
    /// Most frames are done with here: an ack takes 41 ns so, and 63 ns by way of a verdict. It stands apart, since a
    /// function that would grow very large isn't inlined though it is to be: with this one in line that was a caller
    /// whose answer is an event, and an ack through the C library took 48 ns for 23.
    #[inline(never)]
    #[tactic(auto, using(crate::proofs::OneWayLemmas::passes_fits, crate::proofs::OneWayLemmas::passes_left, crate::proofs::OneWayLemmas::passes_kept))]
    pub fn pass_lent(&mut self, site: Site, reading: Reading<'_>) -> Option<Told>
        requires { 0 < site.number }
        ensures passes { IfSome result (λ told. PassesLent site (reading_view reading.entry) self.old told self.new) }
        ensures stays { result ≡ None → self.new ≡ self.old }
    {
        if site.channel_max < site.number {
            return None;
        }
        let place = self.place_of(site.number)?;
        let told = self.used[place].passes(site, reading)?;
        self.last = place;
        if let Told::Method = told {
            return Some(told);
        }
        self.advance_at(place, site.number, reading, told);
        Some(told)
    }

    /// Whether a content is under way on the channel at a place among those in use. Channel 0 is none.
    #[tactic(auto, using(crate::proofs::UnderWayLemmas::idle_at, crate::proofs::UnderWayLemmas::idle_past, crate::proofs::UnderWayLemmas::idle_zero, crate::proofs::UnderWayLemmas::busy_at))]
    fn is_under_way_at(&self, place: usize) -> bool
        ensures idle { result ≡ false → IsIdleAt self.now.used place }
        ensures busy { result ≡ true → NoneUnderWay self.now → ⊥ }
    {
        let Some((number, channel)) = self.used.as_slice().get_index(place) else {
            return false;
        };
        if *number == 0 {
            return false;
        }
        channel.is_under_way()
    }

    /// Whether a content is under way on a channel.
    pub fn is_any_under_way(&self) -> bool
        ensures none { result ≡ false → NoneUnderWay self.now }
        ensures gathers { result ≡ false → NoneLent self.now }
        ensures some { result ≡ true → NoneUnderWay self.now → ⊥ }
    {
        for place in 0..self.used.len() {
            if self.is_under_way_at(place) {
                return true;
            }
        }
        false
    }

    /// Whether a channel is in use.
    fn is_taken(&self, number: u16) -> bool
        requires { 0 < number }
        ensures { result ≡ not (is_free (channels_view self.now number)) }
    {
        match self.used.get(&number) {
            Some(channel) => !channel.is_free(),
            None => false,
        }
    }

    /// The lowest number that is free, up to the greatest.
    pub fn first_free(&self, most: u16) -> Option<u16>
        ensures lowest { result ≡ first_free (channels_view self.now) most 1 }
    {
        self.find_free(most)
    }

    /// The same, with what is known of the numbers below.
    fn find_free(&self, most: u16) -> Option<u16>
        ensures lowest { result ≡ first_free (channels_view self.now) most 1 }
        ensures above { IfSome result (λ number. (0 < number) × NoneFreeBelow self.now.used number) }
        ensures free { IfSome result (λ number. is_free (channels_view self.now number) ≡ true) }
        ensures none { result ≡ None → NoneFreeBelow self.now.used (most + 1) }
    {
        let start = self.numbers.lowest();
        for number in start..=most {
            if !self.is_taken(number) {
                return Some(number);
            }
        }
        None
    }

    /// The lowest number that is free, up to the greatest. Numbers in use below it are looked at again only once as
    /// many channels have ended as are left.
    pub fn lowest_free(&mut self, most: u16) -> Option<u16>
        ensures { FindsFree most self.old result self.new }
    {
        let found = self.find_free(most);
        self.numbers.pass(found.unwrap_or(most));
        found
    }
}
