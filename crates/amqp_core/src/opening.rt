//! The protocol header, which a server reads before any frame: "AMQP", then 0, 0, 9, 1.
ghost use Rattle.std.specs.Prelude.{◌≡◌, ◌≢◌, ◌+◌, ◌<◌, ◌≤◌, ◌++◌, true, [], length, map, take, slice_index, OnOk};
ghost use Rattle.std.specs.Prelude.{OnErr};
ghost use Rattle.amqp_model.specs.End.Closes.{frame_of};
ghost use Rattle.amqp_model.specs.Stream.Endpoint.{awaits_opening, owed_at_start};
ghost use Rattle.amqp_model.specs.End.Machine.{as_failed, end_after_owed};
ghost use Rattle.amqp_model.specs.History.Negotiation.{PROTOCOL_HEADER as HEADER};
ghost use Rattle.amqp_model.specs.Output.Outputs.{after_puts};
ghost use Rattle.amqp_outbox.specs.OutboxView.{only};
ghost use Rattle.amqp_core.specs.Connection.View.{connection_end};
ghost use Rattle.amqp_core.specs.Connection.Outcomes.{SameEnd};
ghost use Rattle.amqp_core.specs.Config.Settings.{config_view, role_for};

use crate::connection::{Connection, put_owed};
use crate::faults::OutOfMemory;
use crate::owed::Owed;
use crate::stage::Stage;
use amqp_frame::PROTOCOL_HEADER;
use amqp_outbox::Outbox;

/// How many octets agree with those that are wanted, from the first on.
fn agreeing(octets: &[u8], wanted: &[u8]) -> usize
    ensures within { result ≤ length octets.now }
    ensures wanted { result ≤ length wanted.now }
    ensures same { take result octets.now ≡ take result wanted.now }
    ensures differs { result < length octets.now → result < length wanted.now → slice_index octets.now result
        ≢ slice_index wanted.now result }
{
    let mut count = 0;
    while count < octets.len() && count < wanted.len() {
        if octets[count] != wanted[count] {
            return count;
        }
        count += 1;
    }
    count
}

/// How many octets go on with the protocol header, of which so many octets were heard.
pub(crate) fn going_on(heard: usize, octets: &[u8]) -> usize
    requires { heard ≤ 8 }
    ensures within { result ≤ length octets.now }
    ensures room { heard + result ≤ 8 }
    ensures same { take heard HEADER ++ take result octets.now ≡ take (heard + result) HEADER }
    ensures differs { result < length octets.now → heard + result < 8 → slice_index octets.now result
        ≢ slice_index HEADER (heard + result) }
{
    agreeing(octets, &PROTOCOL_HEADER[heard..])
}

impl Connection {
    /// The protocol header is whole: a server puts start. Out of memory, it fails, and nothing is put.
    pub(crate) fn greet(&mut self, outbox: &mut Outbox) -> Result<(), OutOfMemory>
        requires awaited { awaits_opening (role_for self.old.settings) (connection_end self.old).phase ≡ true }
        requires staged { outbox.old.staged ≡ [] }
        ensures end { OnOk result (connection_end self.new ≡ end_after_owed (role_for self.old.settings)
            (config_view self.old.settings) (owed_at_start (role_for self.old.settings) (config_view self.old.settings))
            (connection_end self.old)) }
        ensures output { OnOk result (outbox.new
            ≡ only (after_puts (map frame_of
            (owed_at_start (role_for self.old.settings) (config_view self.old.settings))) outbox.old.output)) }
        ensures failed { OnErr result (connection_end self.new ≡ as_failed (connection_end self.old)) }
        ensures same { OnErr result (outbox.new ≡ only outbox.old.output) }
        ensures settings { self.new.settings ≡ self.old.settings }
    {
        let Ok(()) = put_owed(self.alloc, &self.settings, Owed::Start, outbox) else {
            self.fail();
            return Err(OutOfMemory);
        };
        self.stage = Stage::AwaitsStartOk;
        Ok(())
    }
}
