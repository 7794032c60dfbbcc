//! Handles opened with ends.
ghost use Rattle.std.specs.Prelude.{◌≡◌, IfOk, IfErr};
ghost use Rattle.amqp_core.specs.Config.Configs.{settings_of};
ghost use Rattle.amqp_core.specs.End.Beginning.{IsFaultIn, IsNewEnd};
ghost use Rattle.amqp_core.specs.Config.Settings.{client_hello_view, server_hello_view};
ghost use Rattle.amqp_model.specs.End.Fitting.{config_fault};
ghost use Rattle.amqp_calls.specs.declared.codec.owned.ArgFault.TheVariants as arg;
ghost use Rattle.amqp_calls.specs.declared.ends.opening.OpenFault.TheVariants.{Given};
ghost use Rattle.amqp_calls.specs.EndOpening.{client_said, client_set_up, open_status, server_said, server_set_up, BeginsAs, GathersAs, HoldsClient, HoldsServer, NotClient, NotClientHello, NotServer, NotServerHello};
ghost use Rattle.amqp_calls.specs.Writing.{NotCounted};

use crate::codec::owned::{ArgFault, own_table};
use crate::codec::statuses::{MISFIT, value_fault};
use crate::ends::numbers::config_fault;
use amqp_core::{
    Client, ClientHello, Config, ConfigFault, End, Role, Server, ServerHello, StreamEnd,
};
use amqp_handle::{Gathering, HandleFault, HeldEnd, Kept};
use amqp_value::ShortStr;
use std::alloc::Global;

/// What a client is set up with, as C says it: the fields of a `Config` and of a `ClientHello`. The properties are
/// the octets of a table; `lends` says whether its events lend.
#[repr(C)]
pub struct ClientSettings<'a> {
    pub properties: &'a [u8],
    pub mechanism: &'a [u8],
    pub response: &'a [u8],
    pub locale: &'a [u8],
    pub virtual_host: &'a [u8],
    pub max_body: u64,
    pub frame_max: u32,
    pub channel_max: u16,
    pub heartbeat: u16,
    pub gated: bool,
    pub lends: bool,
}

/// What a server is set up with, likewise.
#[repr(C)]
pub struct ServerSettings<'a> {
    pub properties: &'a [u8],
    pub mechanisms: &'a [u8],
    pub locales: &'a [u8],
    pub max_body: u64,
    pub frame_max: u32,
    pub channel_max: u16,
    pub heartbeat: u16,
    pub gated: bool,
    pub lends: bool,
}

/// Why an end isn't made.
#[derive(Clone, Copy)]
pub enum OpenFault {
    /// What was given isn't what a hello is made of.
    Given(ArgFault),
    /// An end can't be set up so.
    Config(ConfigFault),
}

impl OpenFault {
    /// The status of it.
    pub fn number(self) -> u32
        ensures { result ≡ open_status self }
    {
        match self {
            OpenFault::Given(ArgFault::Misfit) => MISFIT,
            OpenFault::Given(ArgFault::Inside(fault)) => value_fault(fault.kind),
            OpenFault::Given(ArgFault::OutOfMemory) => HandleFault::OutOfMemory.number(),
            OpenFault::Config(fault) => config_fault(fault),
        }
    }
}

/// The short string of these octets.
pub(crate) fn own_text(alloc: Global, octets: &[u8]) -> Result<ShortStr, ArgFault>
    ensures ok { IfOk result (λ text. text ≡ octets.now) }
    ensures err { IfErr result (λ e. NotCounted 256 octets.now e) }
{
    if octets.len() > 255 {
        return Err(ArgFault::Misfit);
    }
    let Ok(text) = ShortStr::new(alloc, octets) else {
        return Err(ArgFault::OutOfMemory);
    };
    Ok(text)
}

/// These octets, with memory of their own.
pub(crate) fn own_octets(alloc: Global, octets: &[u8]) -> Result<Vec<u8>, ArgFault>
    ensures ok { IfOk result (λ owned. owned.items ≡ octets.now) }
    ensures err { IfErr result (λ e. e ≡ arg.OutOfMemory) }
{
    let Ok(owned) = Vec::from_slice(alloc, octets) else {
        return Err(ArgFault::OutOfMemory);
    };
    Ok(owned)
}

/// What a client says of itself.
fn client_hello(alloc: Global, given: &ClientSettings<'_>) -> Result<ClientHello, ArgFault>
    ensures ok { IfOk result (λ hello. client_hello_view hello ≡ client_said given.now) }
    ensures err { IfErr result (λ e. NotClientHello given.now e) }
{
    let properties = own_table(alloc, given.properties)?;
    let mechanism = own_text(alloc, given.mechanism)?;
    let response = own_octets(alloc, given.response)?;
    let locale = own_text(alloc, given.locale)?;
    let virtual_host = own_text(alloc, given.virtual_host)?;
    Ok(ClientHello {
        properties,
        mechanism,
        response,
        locale,
        virtual_host,
    })
}

/// What a server says of itself.
fn server_hello(alloc: Global, given: &ServerSettings<'_>) -> Result<ServerHello, ArgFault>
    ensures ok { IfOk result (λ hello. server_hello_view hello ≡ server_said given.now) }
    ensures err { IfErr result (λ e. NotServerHello given.now e) }
{
    let properties = own_table(alloc, given.properties)?;
    let mechanisms = own_octets(alloc, given.mechanisms)?;
    let locales = own_octets(alloc, given.locales)?;
    Ok(ServerHello {
        properties,
        mechanisms,
        locales,
    })
}

/// What is kept beside an end: nothing where it lends, else what it gathers.
fn gathering(alloc: Global, lends: bool) -> Result<Option<Box<Gathering>>, OpenFault>
    ensures ok { IfOk result (λ gathering. GathersAs lends gathering) }
    ensures err { IfErr result (λ fault. fault ≡ Given arg.OutOfMemory) }
{
    if lends {
        return Ok(None);
    }
    let Ok(gathering) = Box::new(alloc, Gathering::new(alloc)) else {
        return Err(OpenFault::Given(ArgFault::OutOfMemory));
    };
    Ok(Some(gathering))
}

/// An end in a box of its own, with what it gathers.
fn keep<R: Role>(
    alloc: Global,
    end: StreamEnd<R>,
    lends: bool,
) -> Result<Kept<StreamEnd<R>>, OpenFault>
    ensures ok { IfOk result (λ kept. (kept.end.value ≡ end) × GathersAs lends kept.gathering) }
    ensures err { IfErr result (λ fault. fault ≡ Given arg.OutOfMemory) }
{
    let gathering = gathering(alloc, lends)?;
    let Ok(end) = Box::new(alloc, end) else {
        return Err(OpenFault::Given(ArgFault::OutOfMemory));
    };
    Ok(Kept { end, gathering })
}

/// The end that is set up so.
fn begin<R: Role>(alloc: Global, config: Config<R>) -> Result<End<R>, ConfigFault>
    ensures ok { IfOk result (λ end. IsNewEnd (settings_of R.hello_of config) end) }
    ensures err { IfErr result (λ fault. IsFaultIn (settings_of R.hello_of config) fault) }
{
    End::new(alloc, config)
}

#[tactic(auto, using(crate::proofs::Begun::client_fault))]
fn make_client(alloc: Global, given: &ClientSettings<'_>) -> Result<End<Client>, OpenFault>
    ensures ok { IfOk result (λ end. BeginsAs (client_set_up given.now) end) }
    ensures err { IfErr result (λ fault. NotClient given.now fault) }
{
    let hello = match client_hello(alloc, given) {
        Ok(hello) => hello,
        Err(fault) => return Err(OpenFault::Given(fault)),
    };
    let config: Config<Client> = Config {
        frame_max: given.frame_max,
        channel_max: given.channel_max,
        max_body: given.max_body,
        heartbeat: given.heartbeat,
        gated: given.gated,
        hello,
    };
    match begin(alloc, config) {
        Ok(end) => Ok(end),
        Err(fault) => Err(OpenFault::Config(fault)),
    }
}

#[tactic(auto, using(crate::proofs::Begun::server_fault))]
fn make_server(alloc: Global, given: &ServerSettings<'_>) -> Result<End<Server>, OpenFault>
    ensures ok { IfOk result (λ end. BeginsAs (server_set_up given.now) end) }
    ensures err { IfErr result (λ fault. NotServer given.now fault) }
{
    let hello = match server_hello(alloc, given) {
        Ok(hello) => hello,
        Err(fault) => return Err(OpenFault::Given(fault)),
    };
    let config: Config<Server> = Config {
        frame_max: given.frame_max,
        channel_max: given.channel_max,
        max_body: given.max_body,
        heartbeat: given.heartbeat,
        gated: given.gated,
        hello,
    };
    match begin(alloc, config) {
        Ok(end) => Ok(end),
        Err(fault) => Err(OpenFault::Config(fault)),
    }
}

/// The client that C gives, of the kind that it gives.
pub fn hold_client(alloc: Global, given: &ClientSettings<'_>) -> Result<HeldEnd, OpenFault>
    ensures ok { IfOk result (λ held. HoldsClient given.now held) }
    ensures err { IfErr result (λ fault. NotClient given.now fault) }
{
    let end = make_client(alloc, given)?;
    let kept = keep(alloc, end.into_stream(), given.lends)?;
    Ok(HeldEnd::Client(kept))
}

/// The server that C gives, likewise.
pub fn hold_server(alloc: Global, given: &ServerSettings<'_>) -> Result<HeldEnd, OpenFault>
    ensures ok { IfOk result (λ held. HoldsServer given.now held) }
    ensures err { IfErr result (λ fault. NotServer given.now fault) }
{
    let end = make_server(alloc, given)?;
    let kept = keep(alloc, end.into_stream(), given.lends)?;
    Ok(HeldEnd::Server(kept))
}
