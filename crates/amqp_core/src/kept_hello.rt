//! What an end says of itself, as it is kept.
ghost use Rattle.std.specs.Prelude.{◌≡◌, IfOk};
ghost use Rattle.amqp_core.specs.Config.Settings.{side_in};

use crate::faults::OutOfMemory;
use crate::settings::{ClientHello, Hello, ServerHello};
use amqp_channel::Side;
use std::alloc::Global;
use std::marker::Model;

/// Where a hello lies: a client's, which has twice as many octets as a server's, in a box. So an end of a server has no
/// room that only a client's hello would fill.
#[derive(Drop)]
pub(crate) enum Kept {
    Client(Box<ClientHello>),
    Server(ServerHello),
}

/// What an end of either side says of itself, as it is kept.
#[derive(Drop)]
pub(crate) struct KeptHello {
    pub(crate) kept: Kept,
}

impl Model for KeptHello {
    ghost use Rattle.std.specs.Coded.{codes};
    ghost use Rattle.amqp_core.specs.Config.KeptHello.{hello_at};
    ghost use Rattle.amqp_core.specs.contracts.settings.Hello as hello;
    ghost use Rattle.amqp_core.specs.declared.settings.Hello.{Hello};

    ghost Value = { Hello };

    ghost coded = { Prim.hlevel (codes, hello.the_row.coded) };

    ghost view = { λ here. hello_at here.kept };
}

impl KeptHello {
    /// Out of memory, the hello is let go.
    pub(crate) fn new(alloc: Global, hello: Hello) -> Result<KeptHello, OutOfMemory>
        ensures { IfOk result (λ kept. kept ≡ hello) }
    {
        let kept = match hello {
            Hello::Client(hello) => Kept::Client(Box::new(alloc, hello)?),
            Hello::Server(hello) => Kept::Server(hello),
        };
        Ok(KeptHello { kept })
    }

    /// Whose hello it is.
    pub(crate) fn side(&self) -> Side
        ensures { result ≡ side_in self.now }
    {
        match &self.kept {
            Kept::Client(_) => Side::Client,
            Kept::Server(_) => Side::Server,
        }
    }
}
