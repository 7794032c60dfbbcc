//! What an end puts of itself in reply to what it takes: all of it, or, out of memory, nothing.
ghost use Rattle.std.specs.Prelude.{◌≡◌, cond, true, false, [], map, IsOk, OnOk, OnErr};
ghost use Rattle.amqp_model.specs.End.Channels.{End, Free};
ghost use Rattle.amqp_model.specs.End.Closes.{frame_of};
ghost use Rattle.amqp_model.specs.Stream.Endpoint.{Found, fault_told, owed_at_fault};
ghost use Rattle.amqp_model.specs.End.Machine.{as_failed};
ghost use Rattle.amqp_model.specs.Output.Outputs.{after_puts};
ghost use Rattle.amqp_outbox.specs.OutboxView.{only};
ghost use Rattle.amqp_core.specs.Faults.Answering.{Reports, is_out_of_memory, stopped};
ghost use Rattle.amqp_core.specs.Connection.View.{connection_end, fault_of};
ghost use Rattle.amqp_core.specs.Connection.Outcomes.{SameEnd, owed_for};
ghost use Rattle.amqp_core.specs.Connection.Owed.{owed_view, IsNothing};
ghost use Rattle.amqp_core.specs.Config.Settings.{config_view, role_for};
ghost use Rattle.amqp_core.specs.Connection.Stages.{agreed_at};
ghost use Rattle.amqp_core.specs.declared.settings.Settings.{Settings};

use crate::account::Account;
use crate::connection::Connection;
use crate::faults::{CoreFault, OutOfMemory};
use crate::owed::Owed;
use crate::settings::Settings;
use crate::stage::Stage;
use crate::verdict::Fault;
use amqp_channel::CloseCode;
use amqp_frame::FrameFaultKind;
use amqp_outbox::Outbox;
use std::alloc::Global;

/// What an end puts that finds fault.
pub(crate) fn owed_at(closing: bool, fault: Fault) -> Owed
    ensures { (settings : Settings) → owed_view settings result ≡ owed_for closing (fault_of fault) }
{
    match fault {
        Fault::Peer(code) => {
            if closing {
                Owed::Nothing
            } else {
                Owed::Close(code)
            }
        }
        Fault::Fatal => Owed::Nothing,
    }
}

/// Puts what is owed: all of it, or nothing where memory is refused.
///
/// It stands apart, since most frames are answered by none.
#[inline(never)]
fn put_all(
    alloc: Global,
    settings: &Settings,
    owed: Owed,
    outbox: &mut Outbox,
) -> Result<(), OutOfMemory>
    requires { outbox.old.staged ≡ [] }
    ensures ok { OnOk result (outbox.new ≡ only (after_puts (map frame_of (owed_view settings.now owed))
        outbox.old.output)) }
    ensures err { OnErr result (outbox.new ≡ only outbox.old.output) }
{
    let Ok(()) = owed.stage(alloc, settings, outbox) else {
        outbox.discard();
        return Err(OutOfMemory);
    };
    outbox.put();
    Ok(())
}

/// Puts what is owed, if anything is.
#[inline(always)]
pub(crate) fn put_owed(
    alloc: Global,
    settings: &Settings,
    owed: Owed,
    outbox: &mut Outbox,
) -> Result<(), OutOfMemory>
    requires { outbox.old.staged ≡ [] }
    ensures ok { OnOk result (outbox.new ≡ only (after_puts (map frame_of (owed_view settings.now owed))
        outbox.old.output)) }
    ensures err { OnErr result (outbox.new ≡ only outbox.old.output) }
    ensures nothing { IsNothing owed → IsOk result }
{
    if let Owed::Nothing = owed {
        return Ok(());
    }
    put_all(alloc, settings, owed, outbox)
}

impl Connection {
    /// Out of memory: the end fails, and knows no more of what was agreed than at an earlier stage.
    pub(crate) fn fail_at(&mut self, before: Stage)
        ensures end { (end : End) → end.agreed ≡ agreed_at before → end.channels 0 ≡ Free
            → SameEnd (as_failed end) (connection_end self.new) }
        ensures settings { self.new.settings ≡ self.old.settings }
    {
        self.stage = Stage::Failed(before.agreed());
    }

    /// Octets are no frame: one above the limit is answered with a close of the connection, and to the others there
    /// is no answer.
    pub(crate) fn stop(
        &mut self,
        outbox: &mut Outbox,
        kind: FrameFaultKind,
        account: &mut Account,
    ) -> CoreFault
        requires { outbox.old.staged ≡ [] }
        ensures octets { account.new.octets ≡ account.old.octets }
        ensures took { account.new.took ≡ account.old.took }
        ensures owed { is_out_of_memory result ≡ false → owed_view self.old.settings account.new.owed
            ≡ owed_at_fault (config_view self.old.settings) (connection_end self.old) kind }
        ensures said { Reports result (Found (fault_told kind)) }
        ensures memory { kind ≡ FrameFaultKind.OutOfMemory → is_out_of_memory result ≡ true }
        ensures end { SameEnd (cond (is_out_of_memory result) (as_failed (connection_end self.old))
            (stopped (role_for self.old.settings) (config_view self.old.settings) (connection_end self.old) kind))
            (connection_end self.new) }
        ensures output { outbox.new ≡ only (cond (is_out_of_memory result) outbox.old.output
            (after_puts (map frame_of (owed_at_fault (config_view self.old.settings) (connection_end self.old) kind))
            outbox.old.output)) }
        ensures settings { self.new.settings ≡ self.old.settings }
    {
        let before = self.stage;
        self.fail_at(before);
        let fault = match kind {
            FrameFaultKind::OutOfMemory => return CoreFault::OutOfMemory,
            FrameFaultKind::TooLarge => Fault::Peer(CloseCode::FrameError),
            FrameFaultKind::UnknownType | FrameFaultKind::BadEnd | FrameFaultKind::Failed => {
                Fault::Fatal
            }
        };
        let owed = owed_at(before.is_closing(), fault);
        let Ok(()) = put_owed(self.alloc, &self.settings, owed, outbox) else {
            return CoreFault::OutOfMemory;
        };
        account.owed = owed;
        fault.reported()
    }
}
