//! The two roles of a connection.
ghost use Rattle.std.specs.Prelude.{◌≡◌, IfOk};
ghost use Rattle.amqp_model.specs.Wire.Notes.{is_client as is_client_role};
ghost use Rattle.amqp_channel.specs.Roles.{role_of, sent_by, taken_by};

use crate::faults::OutOfMemory;
use crate::settings::{ClientHello, Hello, ServerHello};
use amqp_channel::Side;
use amqp_method::Kind;

/// The role that an end plays, known as it is compiled.
pub trait Role {
    ghost use Rattle.std.specs.Prelude.{◌≡◌, IfOk};
    ghost use Rattle.amqp_model.specs.Wire.Notes.{Role as Played, is_client as is_client_role};
    ghost use Rattle.amqp_channel.specs.Roles.{role_of, sent_by, taken_by};
    ghost use Rattle.amqp_core.specs.Config.Configs.{said_in};
    ghost use Rattle.amqp_core.specs.Config.Settings.{role_in};
    ghost use Rattle.amqp_core.specs.declared.settings.Hello.{Hello as Said};

    /// What an end of this role says of itself in the handshake: a [`ClientHello`] or a [`ServerHello`].
    type Hello: Drop;

    ghost role: { Played };

    ghost hello_of: { Self.Hello → Said };

    /// The role, as a value.
    fn side() -> Side
        ensures { role_of result ≡ role };

    /// The hello, as one of either role.
    fn into_hello(hello: Self::Hello) -> Hello
        ensures { result ≡ hello_of hello };

    /// An equal hello.
    fn copy_hello(hello: &Self::Hello) -> Result<Self::Hello, OutOfMemory>
        ensures { IfOk result (λ copy. said_in (hello_of copy) ≡ said_in (hello_of hello.now)) };

    fn is_client() -> bool
        ensures { result ≡ is_client_role role }
    {
        Self::side().is_client()
    }

    /// Whether an end of this role opens channels: only a client does.
    fn opens() -> bool
        ensures { result ≡ is_client_role role }
    {
        Self::is_client()
    }

    /// Whether an end of this role may put a method.
    fn may_send(kind: Kind) -> bool
        ensures { result ≡ sent_by role kind }
    {
        Self::side().may_send(kind)
    }

    /// Whether an end of this role may take a method: what the other role may put.
    fn may_take(kind: Kind) -> bool
        ensures { result ≡ taken_by role kind }
    {
        Self::side().may_take(kind)
    }

    ghost plays: { (hello : Self.Hello) → role_in (hello_of hello) ≡ role };
}

/// The side that opens the connection and its channels.
pub struct Client;

/// The side that is connected to.
pub struct Server;

impl Role for Client {
    ghost use Rattle.amqp_model.specs.Wire.Notes.{Client};
    ghost use Rattle.std.specs.Prelude.{refl};
    ghost use Rattle.amqp_core.specs.declared.settings.Hello.TheVariants as said;

    type Hello = ClientHello;

    ghost role = { Client };

    ghost hello_of = { λ hello. said.Client hello };

    ghost plays = { λ hello. refl };

    fn side() -> Side {
        Side::Client
    }

    fn into_hello(hello: ClientHello) -> Hello {
        Hello::Client(hello)
    }

    fn copy_hello(hello: &ClientHello) -> Result<ClientHello, OutOfMemory> {
        hello.copy()
    }
}

impl Role for Server {
    ghost use Rattle.amqp_model.specs.Wire.Notes.{Server};
    ghost use Rattle.std.specs.Prelude.{refl};
    ghost use Rattle.amqp_core.specs.declared.settings.Hello.TheVariants as said;

    type Hello = ServerHello;

    ghost role = { Server };

    ghost hello_of = { λ hello. said.Server hello };

    ghost plays = { λ hello. refl };

    fn side() -> Side {
        Side::Server
    }

    fn into_hello(hello: ServerHello) -> Hello {
        Hello::Server(hello)
    }

    fn copy_hello(hello: &ServerHello) -> Result<ServerHello, OutOfMemory> {
        hello.copy()
    }
}
