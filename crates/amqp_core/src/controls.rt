//! What an application does with the connection itself, besides its asks: it puts heartbeats, and where an end is gated
//! it decides in the handshake. A client answers start; a server admits a login and an open, or refuses them.
//!
//! Each of these puts one frame on channel 0, or is refused, which changes nothing.
ghost use Rattle.std.specs.Prelude.{◌≡◌, true, false, [], IfOk, IfErr, OnOk, OnErr};
ghost use Rattle.amqp_method.specs.MethodView.{method_view};
ghost use Rattle.amqp_model.specs.End.Controls as controls;
ghost use Rattle.amqp_model.specs.End.Controls.{Control};
ghost use Rattle.amqp_model.specs.Wire.Notes.{is_client};
ghost use Rattle.amqp_core.specs.Asks.ControlView.{control_view};
ghost use Rattle.amqp_core.specs.Asks.Controlled.{IsAllowedControl, IsControlled, IsRefusedControl, RefusesFirst};
ghost use Rattle.amqp_core.specs.Connection.Decisions.{Decides, HoldsNone, holds_client};
ghost use Rattle.amqp_core.specs.Connection.Handshakes.{is_in_handshake};
ghost use Rattle.amqp_core.specs.Config.Settings.{role_for};
ghost use Rattle.amqp_core.specs.Connection.Stages.{phase_at};

use crate::connection::Connection;
use crate::faults::AskFault;
use crate::greeting::tune;
use crate::heard::NO_CAUSE;
use crate::replies::bare;
use crate::sending;
use crate::stage::Stage;
use amqp_method::{Kind, Method};
use amqp_outbox::Outbox;
use amqp_value::ShortStr;

/// What an application does with the connection, which lends the texts of it.
#[derive(Clone, Copy)]
pub(crate) enum LentControl<'a> {
    /// A heartbeat.
    Beat,
    /// The login or the open that a server holds is granted.
    Admit,
    /// It is refused, with the code and the text of a close.
    Refuse(u16, &'a ShortStr),
    /// The mechanism, the response and the locale of a client's start-ok.
    AnswerStart(&'a ShortStr, &'a [u8], &'a ShortStr),
}

/// What is put of a decision, and where the connection stands then.
#[derive(Drop)]
struct Decision {
    method: Method,
    then: Stage,
}

impl Connection {
    ghost use Rattle.amqp_core.specs.Connection.View.{connection_end};

    /// Nothing, where a server holds a login or an open.
    fn allow_client(&self) -> Result<(), AskFault>
        ensures server { OnOk result (is_client (role_for self.now.settings) ≡ false) }
        ensures holds { OnOk result (holds_client (phase_at self.now.stage) ≡ true) }
        ensures not_awaited { IfErr result (λ fault. fault ≡ AskFault.NotAwaited) }
        ensures none { OnErr result (HoldsNone (role_for self.now.settings) (phase_at self.now.stage)) }
    {
        if self.settings.hello.side().is_client() {
            return Err(AskFault::NotAwaited);
        }
        if !self.stage.holds_client() {
            return Err(AskFault::NotAwaited);
        }
        Ok(())
    }

    /// Nothing, where a client holds start and its answer fits a frame.
    fn allow_answer(
        &self,
        mechanism: &ShortStr,
        response: &[u8],
        locale: &ShortStr,
    ) -> Result<(), AskFault>
        ensures allowed { OnOk result (IsAllowedControl self.now.settings (controls.AnswerStart mechanism.now
            response.now locale.now) (connection_end self.now)) }
        ensures refused { IfErr result (λ fault. RefusesFirst self.now.settings (controls.AnswerStart mechanism.now
            response.now locale.now) (connection_end self.now) fault) }
    {
        match self.stage {
            Stage::HoldsStart => self.settings.allow_answer(mechanism, response, locale),
            Stage::AwaitsProtocolHeader
            | Stage::AwaitsStart
            | Stage::AwaitsStartOk
            | Stage::HoldsLogin
            | Stage::AwaitsTune
            | Stage::AwaitsTuneOk
            | Stage::AwaitsOpen(_)
            | Stage::HoldsOpen(_)
            | Stage::AwaitsOpenOk(_)
            | Stage::Running(_)
            | Stage::Closing(_)
            | Stage::Closed(_)
            | Stage::Failed(_) => Err(AskFault::NotAwaited),
        }
    }

    /// Why a heartbeat, or what the application decides, is refused, if it is. It takes no memory.
    pub(crate) fn allow_control(&self, control: LentControl<'_>) -> Result<(), AskFault>
        ensures allowed { OnOk result (IsAllowedControl self.now.settings (control_view control.entry)
            (connection_end self.now)) }
        ensures refused { IfErr result (λ fault. RefusesFirst self.now.settings (control_view control.entry)
            (connection_end self.now) fault) }
    {
        match control {
            LentControl::Beat => {
                let _agreed = self.running()?;
                Ok(())
            }
            LentControl::Admit => self.allow_client(),
            LentControl::Refuse(_, _) => self.allow_client(),
            LentControl::AnswerStart(mechanism, response, locale) => {
                self.allow_answer(mechanism, response, locale)
            }
        }
    }

    /// Puts a heartbeat.
    fn beat(&mut self, outbox: &mut Outbox) -> Result<(), AskFault>
        requires staged { outbox.old.staged ≡ [] }
        ensures accepted { OnOk result (IsControlled self.old.settings controls.Beat (connection_end self.old)
            (connection_end self.new) outbox.old outbox.new) }
        ensures refused { IfErr result (λ fault. IsRefusedControl self.old.settings controls.Beat fault
            (connection_end self.old) (connection_end self.new) outbox.old outbox.new) }
        ensures settings { self.new.settings ≡ self.old.settings }
    {
        let _agreed = self.running()?;
        sending::stage_heartbeat(outbox)?;
        outbox.put();
        Ok(())
    }

    /// A server admits the login that it holds with tune, and the open with open-ok.
    fn admission(&self) -> Result<Decision, AskFault>
        ensures decides { IfOk result (λ decision. Decides self.now.settings controls.Admit self.now.stage
            decision.then (method_view decision.method)) }
        ensures early { OnOk result (is_in_handshake (phase_at self.now.stage) ≡ true) }
        ensures refused { IfErr result (λ fault. RefusesFirst self.now.settings controls.Admit
            (connection_end self.now) fault) }
    {
        self.allow_client()?;
        match self.stage {
            Stage::HoldsLogin => {
                let method = tune(self.alloc, &self.settings)?;
                Ok(Decision {
                    method,
                    then: Stage::AwaitsTuneOk,
                })
            }
            Stage::HoldsOpen(agreed) => Ok(Decision {
                method: bare(self.alloc, Kind::ConnectionOpenOk),
                then: Stage::Running(agreed),
            }),
            Stage::AwaitsProtocolHeader
            | Stage::AwaitsStart
            | Stage::HoldsStart
            | Stage::AwaitsStartOk
            | Stage::AwaitsTune
            | Stage::AwaitsTuneOk
            | Stage::AwaitsOpen(_)
            | Stage::AwaitsOpenOk(_)
            | Stage::Running(_)
            | Stage::Closing(_)
            | Stage::Closed(_)
            | Stage::Failed(_) => unreachable!(),
        }
    }

    /// A server refuses the login or the open that it holds: it closes the connection.
    fn refusal_of_login(&self, code: u16, text: &ShortStr) -> Result<Decision, AskFault>
        ensures decides { IfOk result (λ decision. Decides self.now.settings (controls.Refuse code text.now)
            self.now.stage decision.then (method_view decision.method)) }
        ensures early { OnOk result (is_in_handshake (phase_at self.now.stage) ≡ true) }
        ensures refused { IfErr result (λ fault. RefusesFirst self.now.settings (controls.Refuse code text.now)
            (connection_end self.now) fault) }
    {
        self.allow_client()?;
        let method = sending::close(self.alloc, Kind::ConnectionClose, code, text, NO_CAUSE)?;
        Ok(Decision {
            method,
            then: Stage::Closing(self.stage.agreed()),
        })
    }

    /// A client answers the start that it holds, with its own properties.
    fn answer(
        &self,
        mechanism: &ShortStr,
        response: &[u8],
        locale: &ShortStr,
    ) -> Result<Decision, AskFault>
        ensures decides { IfOk result (λ decision. Decides self.now.settings (controls.AnswerStart mechanism.now
            response.now locale.now) self.now.stage decision.then (method_view decision.method)) }
        ensures early { OnOk result (is_in_handshake (phase_at self.now.stage) ≡ true) }
        ensures refused { IfErr result (λ fault. RefusesFirst self.now.settings (controls.AnswerStart mechanism.now
            response.now locale.now) (connection_end self.now) fault) }
    {
        match self.stage {
            Stage::HoldsStart => {
                let method = self
                    .settings
                    .answer(self.alloc, mechanism, response, locale)?;
                Ok(Decision {
                    method,
                    then: Stage::AwaitsTune,
                })
            }
            Stage::AwaitsProtocolHeader
            | Stage::AwaitsStart
            | Stage::AwaitsStartOk
            | Stage::HoldsLogin
            | Stage::AwaitsTune
            | Stage::AwaitsTuneOk
            | Stage::AwaitsOpen(_)
            | Stage::HoldsOpen(_)
            | Stage::AwaitsOpenOk(_)
            | Stage::Running(_)
            | Stage::Closing(_)
            | Stage::Closed(_)
            | Stage::Failed(_) => Err(AskFault::NotAwaited),
        }
    }

    /// Puts what was decided, and goes on.
    fn put_decision(&mut self, outbox: &mut Outbox, decision: Decision) -> Result<(), AskFault>
        requires staged { outbox.old.staged ≡ [] }
        requires early { is_in_handshake (phase_at self.old.stage) ≡ true }
        ensures accepted { OnOk result ((control : Control)
            → Decides self.old.settings control self.old.stage decision.then (method_view decision.method)
            → IsControlled self.old.settings control (connection_end self.old) (connection_end self.new) outbox.old
            outbox.new) }
        ensures refused { IfErr result (λ fault. (control : Control)
            → Decides self.old.settings control self.old.stage decision.then (method_view decision.method)
            → IsRefusedControl self.old.settings control fault (connection_end self.old) (connection_end self.new)
            outbox.old outbox.new) }
        ensures settings { self.new.settings ≡ self.old.settings }
    {
        sending::stage_method(outbox, 0, &decision.method)?;
        self.stage = decision.then;
        outbox.put();
        Ok(())
    }

    /// Puts a heartbeat, or what the application decides.
    pub(crate) fn control(
        &mut self,
        outbox: &mut Outbox,
        control: LentControl<'_>,
    ) -> Result<(), AskFault>
        requires staged { outbox.old.staged ≡ [] }
        ensures accepted { OnOk result (IsControlled self.old.settings (control_view control.entry)
            (connection_end self.old) (connection_end self.new) outbox.old outbox.new) }
        ensures refused { IfErr result (λ fault. IsRefusedControl self.old.settings (control_view control.entry) fault
            (connection_end self.old) (connection_end self.new) outbox.old outbox.new) }
        ensures settings { self.new.settings ≡ self.old.settings }
    {
        match control {
            LentControl::Beat => self.beat(outbox),
            LentControl::Admit => {
                let decision = self.admission()?;
                self.put_decision(outbox, decision)
            }
            LentControl::Refuse(code, text) => {
                let decision = self.refusal_of_login(code, text)?;
                self.put_decision(outbox, decision)
            }
            LentControl::AnswerStart(mechanism, response, locale) => {
                let decision = self.answer(mechanism, response, locale)?;
                self.put_decision(outbox, decision)
            }
        }
    }
}
