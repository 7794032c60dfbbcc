//! What an end can do, by name, as it says in the handshake.
ghost use Rattle.std.specs.Prelude.{◌≡◌, codes, MatchOption, None, Some};
ghost use Rattle.amqp_value.specs.Pairs.{value_named};
ghost use Rattle.amqp_value.specs.Tables.{table_view};
ghost use Rattle.amqp_value.specs.View.{view};

use crate::connection::{StartOkRef, StartRef};
use amqp_value::Value;

impl<'a> StartRef<'a> {
    /// What the server can do: the value `capabilities` of its properties, a table with a name for each.
    pub fn capabilities(self) -> Option<&'a Value>
        ensures { MatchOption result
            (value_named (codes "capabilities") (table_view self.entry.server_properties.now) ≡ None)
            (λ value. value_named (codes "capabilities") (table_view self.entry.server_properties.now)
            ≡ Some (view value.now)) }
    {
        self.server_properties.get(b"capabilities")
    }
}

impl<'a> StartOkRef<'a> {
    /// What the client can do, likewise.
    pub fn capabilities(self) -> Option<&'a Value>
        ensures { MatchOption result
            (value_named (codes "capabilities") (table_view self.entry.client_properties.now) ≡ None)
            (λ value. value_named (codes "capabilities") (table_view self.entry.client_properties.now)
            ≡ Some (view value.now)) }
    {
        self.client_properties.get(b"capabilities")
    }
}
