//! What an end does, and what is kept of it beside the end: both, or, out of memory, neither.
ghost use Rattle.std.specs.Prelude.{◌≡◌, ◌≢◌, ◌+◌, ◌*◌, ◌<◌, ◌≤◌, ℕ, true, false, [], length, vec_len, vec_capacity};
ghost use Rattle.std.specs.Prelude.{IsOk, IfOk, IfErr, OnOk, OnErr};
ghost use Rattle.amqp_model.specs.End.Asks.{frames_asked};
ghost use Rattle.amqp_model.specs.Stream.Endpoint.{after_feed};
ghost use Rattle.amqp_model.specs.End.EndVerdict.{takes_octets};
ghost use Rattle.amqp_model.specs.History.Histories.{History};
ghost use Rattle.amqp_model.specs.End.LawfulHistories.{then_put};
ghost use Rattle.amqp_model.specs.Output.Outputs.{output_octets};
ghost use Rattle.amqp_model.specs.Stream.Traces.{item_in_event};
ghost use Rattle.amqp_channel.specs.Events.PartsView.{parts_there};
ghost use Rattle.amqp_channel.specs.Roles.{role_of};
ghost use Rattle.amqp_core.specs.Faults.Answering.{ran_out};
ghost use Rattle.amqp_core.specs.Traced.NotedAsks.{GrowsByFrames, IsChannelOf, IsSizeOf, count_asked, item_asked};
ghost use Rattle.amqp_core.specs.Asks.View.{lent_view};
ghost use Rattle.amqp_core.specs.Asks.Outcomes.{number_taken};
ghost use Rattle.amqp_core.specs.Asks.ControlView.{control_view};
ghost use Rattle.amqp_core.specs.Asks.Controlled.{frames_by};
ghost use Rattle.amqp_core.specs.Asks.Controlling.{AcceptsControl, RefusesControl, verdict_at};
ghost use Rattle.amqp_core.specs.Asks.Effects.{AcceptsAsk, RefusesAsk};
ghost use Rattle.amqp_core.specs.End.View.{config_at, endpoint_of, heard_in, role_played, settings_at};
ghost use Rattle.amqp_core.specs.End.Growth.{GrowsLittle};
ghost use Rattle.amqp_core.specs.End.Feeding.{event_in, seen, taken_with, IsFed, IsMessage};
ghost use Rattle.amqp_core.specs.Heard.Hearing.{Hears};
ghost use Rattle.amqp_core.specs.Traced.LedgerView.{HasRoom};
ghost use Rattle.amqp_core.specs.Traced.Notes.{item_there};
ghost use Rattle.amqp_core.specs.Traced.Fields.{kept_of};
ghost use Rattle.amqp_core.specs.Traced.Tracing.{FedGrows, IsTraceOf, SameLists, TraceGoesOn};
ghost use Rattle.amqp_model.specs.History.Negotiation as negotiation;

use crate::account::Account;
use crate::allowing::Place;
use crate::asks::LentAsk;
use crate::controls::LentControl;
use crate::end::End;
use crate::faults::{AskFault, CoreFault, OutOfMemory};
use crate::ledger::Ledger;
use crate::roles::Role;
use crate::taken::Taken;
use crate::tellings::Item;
use amqp_channel::EventParts;
use amqp_model::{controls, fitting, octets, one_end, traces};

/// Makes room for so many frames, so many octets that are fed, and as many that are written as the output has and may
/// get.
pub(crate) fn make_room<R: Role>(
    end: &End<R>,
    ledger: &mut Ledger,
    frames: usize,
    fed: usize,
    grows: usize,
) -> Result<(), OutOfMemory>
    ensures room { OnOk result (HasRoom ledger.new frames fed) }
    ensures written { OnOk result (vec_len ledger.new.written + (length (output_octets (endpoint_of end.now).output)
        + grows) ≤ vec_capacity ledger.new.written) }
    ensures kept { vec_len ledger.new.written ≡ vec_len ledger.old.written }
    ensures capacity { vec_capacity ledger.old.written ≤ vec_capacity ledger.new.written }
    ensures same { SameLists (kept_of end.now ledger.old) (kept_of end.now ledger.new) }
    ensures side { ledger.new.side ≡ ledger.old.side }
{
    let Some(written) = end.output().len().checked_add(grows) else {
        return Err(OutOfMemory);
    };
    ledger.reserve(frames, fed, written)
}

fn is_out_of_memory(answer: &Result<(), CoreFault>) -> bool
    ensures { result ≡ ran_out answer.now }
{
    match answer {
        Err(CoreFault::OutOfMemory) => true,
        Err(CoreFault::Peer(_) | CoreFault::Fatal | CoreFault::Failed | CoreFault::Closed) => false,
        Ok(()) => false,
    }
}

/// The item of a piece's event, if it has one. Only a message takes memory.
fn item_told(
    answer: &Result<(), CoreFault>,
    parts: &Option<EventParts>,
) -> Result<Option<Item>, OutOfMemory>
    ensures item { IfOk result (λ item. (octets : ℕ)
        → item_there item ≡ item_in_event (event_in (taken_with answer.now octets (parts_there parts.now)))) }
    ensures told { OnErr result (IsOk answer.now) }
    ensures err { OnErr result (IsMessage (parts_there parts.now)) }
{
    match answer {
        Ok(()) => Item::of_parts(parts),
        Err(_) => Ok(None),
    }
}

/// Takes octets, for which there is room.
pub(crate) fn take<R: Role>(
    end: &mut End<R>,
    ledger: &mut Ledger,
    piece: &[u8],
) -> Result<Taken, CoreFault>
    requires room { HasRoom ledger.old 3 (length piece.now) }
    requires takes { takes_octets (endpoint_of end.old).end.phase ≡ true }
    requires plays { role_of ledger.old.side ≡ role_played end.old }
    ensures fed { IsFed (seen result) (endpoint_of end.old) (after_feed (role_played end.old) (config_at end.old)
        (endpoint_of end.old) piece.now) (endpoint_of end.new) }
    ensures octets { FedGrows (ran_out result) piece.now (after_feed (role_played end.old) (config_at end.old)
        (endpoint_of end.old) piece.now) (kept_of end.old ledger.old) (kept_of end.new ledger.new) }
    ensures history { (history : History) → IsTraceOf (role_played end.old) (config_at end.old)
        (kept_of end.old ledger.old) history
        → ∥ TraceGoesOn (role_played end.old) (config_at end.old) (ran_out result) (endpoint_of end.old) piece.now
        (after_feed (role_played end.old) (config_at end.old) (endpoint_of end.old) piece.now) history
        (kept_of end.new ledger.new) ∥₁ }
    ensures within { IfOk result (λ taken. taken.octets ≤ length piece.now) }
    ensures progress { IfOk result (λ taken. piece.now ≢ [] → 0 < taken.octets) }
    ensures grows { GrowsLittle (endpoint_of end.old).output (endpoint_of end.new).output }
    ensures heard { Hears (role_played end.old) (config_at end.old) result (endpoint_of end.old) piece.now
        (after_feed (role_played end.old) (config_at end.old) (endpoint_of end.old) piece.now) (heard_in end.old)
        (heard_in end.new) }
    ensures written { ledger.new.written ≡ ledger.old.written }
    ensures settings { settings_at end.new ≡ settings_at end.old }
    ensures side { ledger.new.side ≡ ledger.old.side }
{
    octets::octets_follow();
    octets::cut_changes_nothing();
    one_end::failed_follows();
    one_end::verdict_is_of_history();
    one_end::record_reads();
    traces::memory_runs_out();
    traces::frames_are_noted();
    traces::events_are_told();
    traces::messages_are_said();
    fitting::owed_read_back();
    let mut account = Account::new();
    let answer = end.advance(piece, &mut account);
    if is_out_of_memory(&answer) {
        return account.taken(answer);
    }
    let Ok(item) = item_told(&answer, &account.parts) else {
        drop(account);
        end.run_out();
        return Err(CoreFault::OutOfMemory);
    };
    ledger.enter(&piece[..account.octets], &account, item);
    account.taken(answer)
}

/// Makes room for an ask that isn't refused, and answers the item that it says.
pub(crate) fn room_for_ask<R: Role>(
    end: &End<R>,
    ledger: &mut Ledger,
    ask: LentAsk<'_>,
    place: Place,
) -> Result<Option<Item>, OutOfMemory>
    requires { 8 < place.frame_max }
    ensures item { IfOk result (λ item. item_there item ≡ item_asked (lent_view ask.entry)) }
    ensures room { OnOk result (HasRoom ledger.new (count_asked place.frame_max (lent_view ask.entry)) 0) }
    ensures written { OnOk result (vec_len ledger.new.written + (length (output_octets (endpoint_of end.now).output)
        + count_asked place.frame_max (lent_view ask.entry) * place.frame_max) ≤ vec_capacity ledger.new.written) }
    ensures kept { vec_len ledger.new.written ≡ vec_len ledger.old.written }
    ensures capacity { vec_capacity ledger.old.written ≤ vec_capacity ledger.new.written }
    ensures same { SameLists (kept_of end.now ledger.old) (kept_of end.now ledger.new) }
    ensures side { ledger.new.side ≡ ledger.old.side }
{
    let item = Item::of_ask(ask, end.allocator())?;
    let frames = ask.frames(place.frame_max);
    let Some(grows) = frames.checked_mul(place.frame_max as usize) else {
        drop(item);
        return Err(OutOfMemory);
    };
    match make_room(end, ledger, frames, 0, grows) {
        Ok(()) => Ok(item),
        Err(OutOfMemory) => {
            drop(item);
            Err(OutOfMemory)
        }
    }
}

/// Does what is asked, for which there is room, and which says this item.
pub(crate) fn put<R: Role>(
    end: &mut End<R>,
    ledger: &mut Ledger,
    ask: LentAsk<'_>,
    place: Place,
    item: Option<Item>,
) -> Result<Option<u16>, AskFault>
    requires room { HasRoom ledger.old (count_asked place.frame_max (lent_view ask)) 0 }
    requires item { item_there item ≡ item_asked (lent_view ask) }
    requires place { IsChannelOf (endpoint_of end.old).end (lent_view ask) place.channel }
    requires size { IsSizeOf (endpoint_of end.old).end.agreed place.frame_max }
    requires least { negotiation.FRAME_MIN ≤ place.frame_max }
    requires plays { role_of ledger.old.side ≡ role_played end.old }
    ensures accepted { OnOk result (AcceptsAsk (role_played end.old) (config_at end.old) (lent_view ask.entry)
        (endpoint_of end.old) (endpoint_of end.new)) }
    ensures refused { IfErr result (λ fault. RefusesAsk (role_played end.old) (lent_view ask.entry) fault
        (endpoint_of end.old) (endpoint_of end.new)) }
    ensures number { IfOk result (λ number. number ≡ number_taken (endpoint_of end.old).end (lent_view ask.entry)) }
    ensures history { OnOk result ((history : History) → IsTraceOf (role_played end.old) (config_at end.old)
        (kept_of end.old ledger.old) history
        → ∥ IsTraceOf (role_played end.old) (config_at end.old) (kept_of end.new ledger.new)
        (then_put (frames_asked (endpoint_of end.old).end (lent_view ask.entry)) history) ∥₁) }
    ensures same { OnErr result (SameLists (kept_of end.old ledger.old) (kept_of end.new ledger.new)) }
    ensures grows { OnOk result (GrowsByFrames (count_asked place.frame_max (lent_view ask.entry)) place.frame_max
        (endpoint_of end.old).output (endpoint_of end.new).output) }
    ensures fed { ledger.new.fed ≡ ledger.old.fed }
    ensures written { ledger.new.written ≡ ledger.old.written }
    ensures settings { settings_at end.new ≡ settings_at end.old }
    ensures heard { heard_in end.new ≡ heard_in end.old }
    ensures side { ledger.new.side ≡ ledger.old.side }
{
    one_end::ask_is_of_history();
    traces::frames_are_noted();
    traces::events_are_told();
    traces::messages_are_said();
    fitting::owed_read_back();
    fitting::frames_are_within();
    match end.ask_lent(ask) {
        Ok(number) => {
            ledger.put(ask, place, item);
            Ok(number)
        }
        Err(fault) => {
            drop(item);
            Err(fault)
        }
    }
}

/// Puts a heartbeat, or what the application decides, for which there is room.
pub(crate) fn put_control<R: Role>(
    end: &mut End<R>,
    ledger: &mut Ledger,
    control: LentControl<'_>,
) -> Result<(), AskFault>
    requires room { HasRoom ledger.old 1 0 }
    ensures accepted { OnOk result (AcceptsControl (role_played end.old) (config_at end.old)
        (control_view control.entry) (endpoint_of end.old) (endpoint_of end.new)) }
    ensures refused { IfErr result (λ fault. RefusesControl (role_played end.old) (config_at end.old)
        (control_view control.entry) fault (endpoint_of end.old) (endpoint_of end.new)) }
    ensures history { OnOk result ((history : History) → IsTraceOf (role_played end.old) (config_at end.old)
        (kept_of end.old ledger.old) history
        → ∥ IsTraceOf (role_played end.old) (config_at end.old) (kept_of end.new ledger.new)
        (then_put (frames_by (verdict_at (role_played end.old) (config_at end.old) (control_view control.entry)
        (endpoint_of end.old))) history) ∥₁) }
    ensures same { OnErr result (SameLists (kept_of end.old ledger.old) (kept_of end.new ledger.new)) }
    ensures grows { OnOk result (GrowsByFrames 1 negotiation.FRAME_MIN (endpoint_of end.old).output
        (endpoint_of end.new).output) }
    ensures fed { ledger.new.fed ≡ ledger.old.fed }
    ensures written { ledger.new.written ≡ ledger.old.written }
    ensures settings { settings_at end.new ≡ settings_at end.old }
    ensures heard { heard_in end.new ≡ heard_in end.old }
    ensures side { ledger.new.side ≡ ledger.old.side }
{
    controls::controls_follow();
    controls::controls_are_written();
    traces::frames_are_noted();
    traces::events_are_told();
    match end.control(control) {
        Ok(()) => {
            ledger.note_other(0);
            Ok(())
        }
        Err(fault) => Err(fault),
    }
}
