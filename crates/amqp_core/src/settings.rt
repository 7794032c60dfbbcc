//! What an end is set up with: its limits, and what it says of itself.
ghost use Rattle.std.specs.Prelude.{◌≡◌, ◌<◌, ◌≤◌, ◌^◌, ◌↔◌, length, nat_lt, false, IfErr, IfOk, IfSome, OnOk, None};
ghost use Rattle.amqp_frame.specs.Frame.{frame_length};
ghost use Rattle.amqp_value.specs.Lengths.{capped};
ghost use Rattle.amqp_value.specs.Tables.{table_view};
ghost use Rattle.amqp_method.specs.Fitting.{FitsShort};
ghost use Rattle.amqp_method.specs.MethodView.{method_view};
ghost use Rattle.amqp_model.specs.End.Channels.{Handshake, HoldsStart};
ghost use Rattle.amqp_model.specs.End.Closes.{method_frame};
ghost use Rattle.amqp_model.specs.End.Controls.{answers_in, puts_short, AnswerStart};
ghost use Rattle.amqp_model.specs.End.Fitting.{ConfigWrites, HostFits, config_fault};
ghost use Rattle.amqp_model.specs.History.Negotiation as negotiation;
ghost use Rattle.amqp_core.specs.Asks.Controlled.{refusal_by};
ghost use Rattle.amqp_core.specs.Connection.Decisions.{Decides};
ghost use Rattle.amqp_core.specs.Faults.Numbers.{config_fault_view, refusal_view};
ghost use Rattle.amqp_core.specs.Connection.HandshakeMethods.{IsStartLength, start_ok_with, start_ok_octets};
ghost use Rattle.amqp_core.specs.Config.Settings.{client_hello_view, server_hello_view, hello_view};

use crate::faults::{AskFault, ConfigFault, OutOfMemory};
use crate::greeting::start_ok;
use crate::kept_hello::{Kept, KeptHello};
use crate::stage::Stage;
use amqp_method::{Method, encoded_is_read, write_method};
use amqp_value::{ShortStr, Table};
use std::alloc::Global;
use std::fmt;

/// No smaller frame may be agreed, and no frame of the handshake may be longer.
pub(crate) const FRAME_MIN: u64 = 4096;

/// The greatest frame that an end may be set up to take.
const FRAME_MOST: u64 = 1_048_576;

/// What stands in the frame of a start beside its table and its strings: the frame's own 8 octets, the two ids, the
/// version, and the lengths of two strings.
const START_LENGTH: u64 = 8 + 4 + 2 + 4 + 4;

/// What stands in the frame of a start-ok beside its table and its strings: the frame's own 8 octets, the two ids, and
/// the lengths of a short string, a long one, and a short one.
const START_OK_LENGTH: u64 = 8 + 4 + 1 + 4 + 1;

/// What a client says of itself, in start-ok and in open.
#[derive(Drop)]
pub struct ClientHello {
    /// What the program is and can do, by name: product, version, capabilities.
    pub properties: Table,
    /// The name of the security mechanism that the client picks.
    pub mechanism: ShortStr,
    /// The mechanism's own octets, which hold the credentials.
    pub response: Vec<u8>,
    /// The name of the locale that the client picks.
    pub locale: ShortStr,
    /// The name of the virtual host that the client opens.
    pub virtual_host: ShortStr,
}

/// What a server says of itself, in start.
#[derive(Debug, Drop)]
pub struct ServerHello {
    /// What the program is and can do, by name: product, version, capabilities.
    pub properties: Table,
    /// The names of the security mechanisms, parted by spaces.
    pub mechanisms: Vec<u8>,
    /// The names of the locales, parted by spaces.
    pub locales: Vec<u8>,
}

/// Without the response, which holds the credentials.
impl fmt::Debug for ClientHello {
    fn fmt<W: fmt::Write>(&self, f: &mut fmt::Formatter<W>) -> fmt::Result {
        let properties = &self.properties;
        let mechanism = &self.mechanism;
        let locale = &self.locale;
        let virtual_host = &self.virtual_host;
        write!(
            f,
            "ClientHello {{ properties: {properties}, mechanism: {mechanism:?}, "
        )?;
        write!(
            f,
            "locale: {locale:?}, virtual_host: {virtual_host:?}, .. }}"
        )
    }
}

impl ClientHello {
    /// An equal hello.
    pub fn copy(&self) -> Result<ClientHello, OutOfMemory>
        ensures { IfOk result (λ hello. client_hello_view hello ≡ client_hello_view self.now) }
    {
        let properties = self.properties.copy()?;
        let mechanism = self.mechanism.copy()?;
        let response = Vec::from_slice(*self.response.allocator(), &self.response)?;
        let locale = self.locale.copy()?;
        let virtual_host = self.virtual_host.copy()?;
        Ok(ClientHello {
            properties,
            mechanism,
            response,
            locale,
            virtual_host,
        })
    }

    /// Whether the start-ok with what was chosen fits a frame of 4096 octets.
    fn allow_answer(
        &self,
        mechanism: &ShortStr,
        response: &[u8],
        locale: &ShortStr,
    ) -> Result<(), AskFault>
        ensures short { OnOk result (nat_lt negotiation.FRAME_MIN
            (frame_length (method_frame 0 (start_ok_with self.now mechanism.now response.now locale.now))) ≡ false) }
        ensures refused { IfErr result (λ fault. refusal_view fault
            ≡ refusal_by (puts_short (method_frame 0 (start_ok_with self.now mechanism.now response.now locale.now)))) }
    {
        if FRAME_MIN < start_ok_length(&self.properties, mechanism, response, locale) {
            return Err(AskFault::TooLarge);
        }
        Ok(())
    }

    /// The start-ok with what the client says of itself, and with a mechanism, a response and a locale that were
    /// chosen. Its frame has at most 4096 octets.
    fn answer(
        &self,
        alloc: Global,
        mechanism: &ShortStr,
        response: &[u8],
        locale: &ShortStr,
    ) -> Result<Method, AskFault>
        ensures ok { IfOk result (λ m. method_view m ≡ start_ok_with self.now mechanism.now response.now locale.now) }
        ensures short { OnOk result (nat_lt negotiation.FRAME_MIN
            (frame_length (method_frame 0 (start_ok_with self.now mechanism.now response.now locale.now))) ≡ false) }
        ensures refused { IfErr result (λ fault. refusal_view fault
            ≡ refusal_by (puts_short (method_frame 0 (start_ok_with self.now mechanism.now response.now locale.now)))) }
    {
        self.allow_answer(mechanism, response, locale)?;
        let method = start_ok(alloc, &self.properties, mechanism, response, locale)?;
        Ok(method)
    }
}

/// How long the frame of a start-ok would be. `u64::MAX` stands for every length from there on.
fn start_ok_length(
    properties: &Table,
    mechanism: &ShortStr,
    response: &[u8],
    locale: &ShortStr,
) -> u64
    ensures { result ≡ capped (start_ok_octets (table_view properties.now) mechanism.now response.now locale.now) }
{
    let texts = (mechanism.len() as u64 + locale.len() as u64).saturating_add(
        response.len() as u64,
    );
    START_OK_LENGTH
        .saturating_add(properties.encoded_length())
        .saturating_add(texts)
}

impl ServerHello {
    /// An equal hello.
    pub fn copy(&self) -> Result<ServerHello, OutOfMemory>
        ensures { IfOk result (λ hello. server_hello_view hello ≡ server_hello_view self.now) }
    {
        let properties = self.properties.copy()?;
        let mechanisms = Vec::from_slice(*self.mechanisms.allocator(), &self.mechanisms)?;
        let locales = Vec::from_slice(*self.locales.allocator(), &self.locales)?;
        Ok(ServerHello {
            properties,
            mechanisms,
            locales,
        })
    }

    /// How long the frame of the start would be. `u64::MAX` stands for every length from there on.
    fn start_length(&self) -> u64
        ensures { IsStartLength self.now result }
    {
        let texts = (self.mechanisms.len() as u64).saturating_add(self.locales.len() as u64);
        START_LENGTH
            .saturating_add(self.properties.encoded_length())
            .saturating_add(texts)
    }
}

/// What an end of either side says of itself.
#[derive(Debug, Drop)]
pub enum Hello {
    Client(ClientHello),
    Server(ServerHello),
}

impl Hello {
    ghost use Rattle.amqp_core.specs.Config.Settings.{limited, role_in};
    ghost use Rattle.amqp_core.specs.Connection.HandshakeMethods.{IsGreetingLength};

    /// How long the frame of the greeting would be, which is a client's start-ok or a server's start.
    fn greeting_length(&self) -> u64
        ensures { IsGreetingLength self.now result }
    {
        match self {
            Hello::Client(hello) => start_ok_length(
                &hello.properties,
                &hello.mechanism,
                &hello.response,
                &hello.locale,
            ),
            Hello::Server(hello) => hello.start_length(),
        }
    }

    /// Why an end with these limits can't say this, if it can't. It takes no memory.
    pub(crate) fn fault(&self, frame_max: u32, channel_max: u16) -> Option<ConfigFault>
        ensures none { (result ≡ None)
            ↔ (config_fault (role_in self.now) (limited frame_max channel_max self.now) ≡ None) }
        ensures fault { IfSome result (λ f. config_fault_view f
            ≡ config_fault (role_in self.now) (limited frame_max channel_max self.now)) }
    {
        let frame_max = u64::from(frame_max);
        if frame_max < FRAME_MIN || FRAME_MOST < frame_max {
            return Some(ConfigFault::FrameMax);
        }
        if channel_max == 0 {
            return Some(ConfigFault::ChannelMax);
        }
        if FRAME_MIN < self.greeting_length() {
            return Some(ConfigFault::HelloTooLong);
        }
        None
    }
}

/// A string of up to 255 octets fits a field of short strings.
fn fits_field(octets: &[u8])
    requires { length octets.now ≤ 255 }
    ensures { FitsShort octets.now }
{}

/// What an end is set up with, whichever side it is.
#[derive(Drop)]
pub(crate) struct Settings {
    pub(crate) frame_max: u32,
    pub(crate) channel_max: u16,
    pub(crate) max_body: u64,
    pub(crate) heartbeat: u16,
    pub(crate) gated: bool,
    /// The end lends what it takes, and keeps of a content under way only how far it has come.
    pub(crate) lends: bool,
    pub(crate) hello: KeptHello,
}

impl Settings {
    ghost use Rattle.amqp_core.specs.Config.Settings.{role_for, config_view};

    /// A channel number and a heartbeat are of 16 bits, and a virtual host is a short string.
    fn fits_fields(&self)
        ensures channel { self.now.channel_max < 2 ^ 16 }
        ensures heartbeat { self.now.heartbeat < 2 ^ 16 }
        ensures host { HostFits (hello_view self.now.hello) }
    {
        let _channel_max = self.channel_max;
        let _heartbeat = self.heartbeat;
        match &self.hello.kept {
            Kept::Client(hello) => fits_field(hello.virtual_host.as_bytes()),
            Kept::Server(_) => {}
        }
    }

    /// Whether a client can answer start with what was chosen. It takes no memory.
    pub(crate) fn allow_answer(
        &self,
        mechanism: &ShortStr,
        response: &[u8],
        locale: &ShortStr,
    ) -> Result<(), AskFault>
        ensures allowed { OnOk result (refusal_by
            (answers_in (role_for self.now) (config_view self.now) (Handshake HoldsStart) mechanism.now response.now
            locale.now) ≡ None) }
        ensures refused { IfErr result (λ fault. refusal_view fault
            ≡ refusal_by (answers_in (role_for self.now) (config_view self.now) (Handshake HoldsStart) mechanism.now
            response.now locale.now)) }
    {
        match &self.hello.kept {
            Kept::Client(hello) => hello.allow_answer(mechanism, response, locale),
            Kept::Server(_) => Err(AskFault::NotAwaited),
        }
    }

    /// What a client answers to start with the mechanism, the response and the locale that its application chose. A
    /// server answers no start.
    pub(crate) fn answer(
        &self,
        alloc: Global,
        mechanism: &ShortStr,
        response: &[u8],
        locale: &ShortStr,
    ) -> Result<Method, AskFault>
        ensures decides { IfOk result (λ m. Decides self.now (AnswerStart mechanism.now response.now locale.now)
            Stage.HoldsStart Stage.AwaitsTune (method_view m)) }
        ensures refused { IfErr result (λ fault. refusal_view fault
            ≡ refusal_by (answers_in (role_for self.now) (config_view self.now) (Handshake HoldsStart) mechanism.now
            response.now locale.now)) }
    {
        match &self.hello.kept {
            Kept::Client(hello) => hello.answer(alloc, mechanism, response, locale),
            Kept::Server(_) => Err(AskFault::NotAwaited),
        }
    }

    /// The hello is written once, on trial. What could be written reads back.
    pub(crate) fn try_greeting(&self, alloc: Global) -> Result<(), OutOfMemory>
        requires { config_fault (role_for self.now) (config_view self.now) ≡ None }
        ensures { OnOk result (ConfigWrites (config_view self.now)) }
    {
        encoded_is_read();
        self.fits_fields();
        let method = self.greeting(alloc)?;
        let mut scratch = Vec::new(alloc);
        let Ok(()) = write_method(&method, &mut scratch) else {
            return Err(OutOfMemory);
        };
        Ok(())
    }
}
