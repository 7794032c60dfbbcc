//! Heartbeats, and what an application decides in the handshake.
ghost use Rattle.std.specs.Prelude.{◌≡◌, Some, IfOk, IfErr};
ghost use Rattle.amqp_core.specs.Stream.Controls.{StreamControlled};
ghost use Rattle.amqp_calls.specs.Decisions.{decision_view};
ghost use Rattle.amqp_calls.specs.EndAsks.{control_given, ControlledKept, ControlsKept, NotControl};

use crate::ends::messages::{Unmade, own_text};
use crate::ends::numbers::asked;
use amqp_core::{AskFault, Role, StreamEnd};
use amqp_handle::Kept;
use amqp_value::ShortStr;
use std::alloc::Global;

/// A heartbeat or a decision, as C says it: its kind, and what one of that kind has.
///
/// 1 is a heartbeat; 2 admits a login or an open; 3 refuses it, with a code and a text; 4 answers a start, with a
/// mechanism (the text), a response and a locale.
#[repr(C)]
pub struct GivenControl<'a> {
    pub text: &'a [u8],
    pub response: &'a [u8],
    pub locale: &'a [u8],
    pub code: u16,
    pub kind: u8,
}

/// The same, with memory for its texts.
#[derive(Drop)]
pub(crate) enum Decision<'a> {
    Beat,
    Admit,
    Refuse(u16, ShortStr),
    AnswerStart(ShortStr, &'a [u8], ShortStr),
}

/// What C gives, with memory for its texts.
fn own_decision<'a>(alloc: Global, given: &GivenControl<'a>) -> Result<Decision<'a>, Unmade>
    ensures ok { IfOk result (λ decision. control_given given.now ≡ Some (decision_view decision)) }
    ensures err { IfErr result (λ e. NotControl given.now e) }
{
    match given.kind {
        1 => Ok(Decision::Beat),
        2 => Ok(Decision::Admit),
        3 => match own_text(alloc, given.text) {
            Ok(text) => Ok(Decision::Refuse(given.code, text)),
            Err(fault) => Err(fault),
        },
        4 => {
            let mechanism = own_text(alloc, given.text)?;
            let locale = own_text(alloc, given.locale)?;
            Ok(Decision::AnswerStart(mechanism, given.response, locale))
        }
        _ => Err(Unmade::Misfit),
    }
}

/// Puts at an end what is decided.
fn control<R: Role>(end: &mut StreamEnd<R>, decision: &Decision<'_>) -> Result<(), AskFault>
    ensures { StreamControlled end.old (decision_view decision.now) result end.new }
{
    match decision {
        Decision::Beat => end.beat(),
        Decision::Admit => end.admit(),
        Decision::Refuse(code, text) => end.refuse(*code, text),
        Decision::AnswerStart(mechanism, response, locale) => {
            end.answer_start(mechanism, response, locale)
        }
    }
}

/// Does what is decided.
fn decide<R: Role>(kept: &mut Kept<StreamEnd<R>>, decision: &Decision<'_>) -> u32
    ensures { ControlledKept kept.old (decision_view decision.now) result kept.new }
{
    asked(control(&mut *kept.end, decision))
}

/// Does what C gives.
pub fn control_one<R: Role>(
    alloc: Global,
    kept: &mut Kept<StreamEnd<R>>,
    given: &GivenControl<'_>,
) -> u32
    ensures { ControlsKept kept.old given.now result kept.new }
{
    match own_decision(alloc, given) {
        Ok(decision) => {
            let answer = decide(kept, &decision);
            drop(decision);
            answer
        }
        Err(fault) => fault.number(),
    }
}
