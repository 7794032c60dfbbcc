//! What an end says of itself in the handshake: a server in start and tune, a client in start-ok and open.
ghost use Rattle.std.specs.Prelude.{◌≡◌, IfOk};
ghost use Rattle.amqp_value.specs.Tables.{table_view};
ghost use Rattle.amqp_method.specs.MethodView.{method_view};
ghost use Rattle.amqp_model.specs.End.Fitting as fitting;
ghost use Rattle.amqp_core.specs.Connection.HandshakeMethods.{IsStart, IsOpen, IsTune, start_ok_saying, start_ok_with};

use crate::faults::OutOfMemory;
use crate::kept_hello::Kept;
use crate::settings::{ClientHello, ServerHello, Settings};
use amqp_method::{Arg, Kind, Method};
use amqp_value::{ShortStr, Table};
use std::alloc::Global;

/// The version of the protocol, 0 and 9, and what a server says of itself.
fn start(alloc: Global, hello: &ServerHello) -> Result<Method, OutOfMemory>
    ensures { IfOk result (λ m. IsStart hello.now (method_view m)) }
{
    let properties = Arg::Table(hello.properties.copy()?);
    let mechanisms = Arg::LongStr(Vec::from_slice(alloc, &hello.mechanisms)?);
    let locales = Arg::LongStr(Vec::from_slice(alloc, &hello.locales)?);
    let args = vec![in alloc;
        Arg::Octet(0),
        Arg::Octet(9),
        properties,
        mechanisms,
        locales,
    ]?;
    Ok(Method::new(Kind::ConnectionStart, args))
}

/// A client's start-ok: what it says of itself, the mechanism that it picks with the response to it, and the locale.
pub(crate) fn start_ok(
    alloc: Global,
    properties: &Table,
    mechanism: &ShortStr,
    response: &[u8],
    locale: &ShortStr,
) -> Result<Method, OutOfMemory>
    ensures { IfOk result (λ m. method_view m ≡ start_ok_saying (table_view properties.now) mechanism.now response.now
        locale.now) }
{
    let properties = Arg::Table(properties.copy()?);
    let mechanism = Arg::ShortStr(mechanism.copy()?);
    let response = Arg::LongStr(Vec::from_slice(alloc, response)?);
    let locale = Arg::ShortStr(locale.copy()?);
    let args = vec![in alloc; properties, mechanism, response, locale]?;
    Ok(Method::new(Kind::ConnectionStartOk, args))
}

/// The start-ok that a client puts where its application chooses nothing else than its hello has.
fn own_start_ok(alloc: Global, hello: &ClientHello) -> Result<Method, OutOfMemory>
    ensures { IfOk result (λ m. method_view m ≡ start_ok_with hello.now hello.now.mechanism hello.now.response.items
        hello.now.locale) }
{
    start_ok(
        alloc,
        &hello.properties,
        &hello.mechanism,
        &hello.response,
        &hello.locale,
    )
}

/// A client opens its virtual host.
pub(crate) fn open(alloc: Global, hello: &ClientHello) -> Result<Method, OutOfMemory>
    ensures { IfOk result (λ m. IsOpen hello.now (method_view m)) }
{
    let virtual_host = Arg::ShortStr(hello.virtual_host.copy()?);
    let args = vec![in alloc; virtual_host]?;
    Ok(Method::new(Kind::ConnectionOpen, args))
}

/// A server's limits, and the heartbeat that it wants.
pub(crate) fn tune(alloc: Global, settings: &Settings) -> Result<Method, OutOfMemory>
    ensures { IfOk result (λ m. IsTune settings.now.channel_max settings.now.frame_max settings.now.heartbeat
        (method_view m)) }
{
    let channels = Arg::Short(settings.channel_max);
    let heartbeat = Arg::Short(settings.heartbeat);
    let args = vec![in alloc; channels, Arg::Long(settings.frame_max), heartbeat]?;
    Ok(Method::new(Kind::ConnectionTune, args))
}

impl Settings {
    ghost use Rattle.amqp_core.specs.Config.Settings.{role_for, config_view};

    /// The method that has an end's properties: a client's start-ok, a server's start.
    pub(crate) fn greeting(&self, alloc: Global) -> Result<Method, OutOfMemory>
        ensures { IfOk result (λ m. method_view m ≡ fitting.greeting (role_for self.now) (config_view self.now)) }
    {
        match &self.hello.kept {
            Kept::Client(hello) => own_start_ok(alloc, hello),
            Kept::Server(hello) => start(alloc, hello),
        }
    }
}
