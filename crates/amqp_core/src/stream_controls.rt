//! What an application does with the connection of an end whose events lend, besides its asks: as [`End`](crate::End)
//! does.
ghost use Rattle.amqp_model.specs.End.Controls as controls;
ghost use Rattle.amqp_core.specs.Asks.ControlView.{control_view};

use crate::controls::LentControl;
use crate::faults::AskFault;
use crate::roles::Role;
use crate::stream::StreamEnd;
use amqp_model::{controls as control_laws, fitting};
use amqp_value::ShortStr;

impl<R: Role> StreamEnd<R> {
    ghost use Rattle.amqp_core.specs.Stream.Controls.{StreamControlled};

    /// Puts a heartbeat, or what the application decides in the handshake.
    fn control(&mut self, control: LentControl<'_>) -> Result<(), AskFault>
        ensures { StreamControlled self.old (control_view control.entry) result self.new }
    {
        control_laws::controls_follow();
        control_laws::controls_follow_octets();
        fitting::owed_read_back();
        self.inner.control(control)
    }

    /// Puts a heartbeat, as [`End::beat`](crate::End::beat) does.
    pub fn beat(&mut self) -> Result<(), AskFault>
        ensures { StreamControlled self.old controls.Beat result self.new }
    {
        self.control(LentControl::Beat)
    }

    /// Admits what a gated server holds, as [`End::admit`](crate::End::admit) does.
    pub fn admit(&mut self) -> Result<(), AskFault>
        ensures { StreamControlled self.old controls.Admit result self.new }
    {
        self.control(LentControl::Admit)
    }

    /// Refuses what a gated server holds, as [`End::refuse`](crate::End::refuse) does.
    pub fn refuse(&mut self, code: u16, text: &ShortStr) -> Result<(), AskFault>
        ensures { StreamControlled self.old (controls.Refuse code text.now) result self.new }
    {
        self.control(LentControl::Refuse(code, text))
    }

    /// Answers the start that a gated client holds, as [`End::answer_start`](crate::End::answer_start) does.
    pub fn answer_start(
        &mut self,
        mechanism: &ShortStr,
        response: &[u8],
        locale: &ShortStr,
    ) -> Result<(), AskFault>
        ensures { StreamControlled self.old (controls.AnswerStart mechanism.now response.now locale.now) result
            self.new }
    {
        self.control(LentControl::AnswerStart(mechanism, response, locale))
    }
}
