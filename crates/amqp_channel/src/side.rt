//! The two sides of a connection, and which methods each may put and take.
ghost use Rattle.std.specs.Prelude.{◌≡◌};
ghost use Rattle.amqp_model.specs.Wire.Notes.{is_client as is_client_role};
ghost use Rattle.amqp_channel.specs.Roles.{role_of, sent_by, taken_by};

use amqp_method::{Kind, sends};

/// The sides of a connection, as values.
#[derive(Clone, Copy, PartialEq, Eq, Debug)]
pub enum Side {
    Client,
    Server,
}

impl Side {
    pub fn is_client(self) -> bool
        ensures { result ≡ is_client_role (role_of self) }
    {
        match self {
            Side::Client => true,
            Side::Server => false,
        }
    }

    /// Whether an end of this side may put a method.
    pub fn may_send(self, kind: Kind) -> bool
        ensures { result ≡ sent_by (role_of self) kind }
    {
        match self {
            Side::Client => sends(true, kind),
            Side::Server => sends(false, kind),
        }
    }

    /// Whether an end of this side may take a method: what the other side may put.
    pub fn may_take(self, kind: Kind) -> bool
        ensures { result ≡ taken_by (role_of self) kind }
    {
        match self {
            Side::Client => sends(false, kind),
            Side::Server => sends(true, kind),
        }
    }
}
