//! The methods of the class connection (`amqp0-9-1.xml`, class 10).
// Written by `tools/typed_methods.py` from the table of methods in `docs/PROTOCOL.md`: change those and run it again.
ghost use Rattle.std.specs.Prelude.{◌≡◌, IfOk, ◌∷◌, []};
ghost use Rattle.amqp_value.specs.Values.{no_pairs};
ghost use Rattle.amqp_method.specs.Arguments.{call, octet, short, long, short_string, long_string, table};
ghost use Rattle.amqp_method.specs.MethodRefView.{lent_call};
ghost use Rattle.amqp_method.specs.MethodView.{method_view};
ghost use Rattle.amqp_method.specs.Methods.{row};
ghost use Rattle.amqp_method.specs.declared.kinds.Kind.TheVariants.{ConnectionStart, ConnectionStartOk, ConnectionSecure, ConnectionSecureOk, ConnectionTune, ConnectionTuneOk, ConnectionOpen, ConnectionClose, ConnectionBlocked};
ghost use Rattle.amqp_typed.specs.Connection.{start_call, start_ok_call, secure_call, secure_ok_call, tune_call, tune_ok_call, open_call, close_call, blocked_call, start_ref_call, start_ok_ref_call, secure_ref_call, secure_ok_ref_call, open_ref_call, close_ref_call, blocked_ref_call, start_view_call, start_ok_view_call, secure_view_call, secure_ok_view_call, open_view_call, close_view_call, blocked_view_call, any_call, any_view_call};

use crate::args::{
    five, four, long_at, long_str, long_str_at, method_of, octet, octet_at, one, own_args, short,
    short_at, short_str, short_str_at, table, table_at,
};
use crate::bare::Bare;
use crate::bare_kinds::{ConnectionCloseOk, ConnectionOpenOk, ConnectionUnblocked};
use crate::typed::{Typed, TypedRef, TypedView};
use crate::views::{kind_in, long_in, long_str_in, octet_in, short_in, short_str_in, table_in};
use amqp_method::{Arg, Kind, Method, MethodRef, OutOfMemory};
use amqp_value::{ShortStr, Table, TableRef};
use std::alloc::Global;
use std::fmt;

/// Begins the negotiation: names the server, and the mechanisms and locales that it has. `connection.start`, class 10,
/// method 10.
#[derive(Debug, Drop, PartialEq, Eq)]
pub struct Start {
    pub version_major: u8,
    pub version_minor: u8,
    pub server_properties: Table,
    /// The names of the mechanisms, with spaces between.
    pub mechanisms: Vec<u8>,
    /// The names of the locales, with spaces between.
    pub locales: Vec<u8>,
}

impl Start {
    /// With an empty table, `version_major` 0 and `version_minor` 9.
    pub fn new(alloc: Global, mechanisms: Vec<u8>, locales: Vec<u8>) -> Start
        ensures { start_call result ≡ call ConnectionStart
            (octet 0 ∷ octet 9 ∷ table no_pairs ∷ long_string mechanisms.items
            ∷ long_string locales.items ∷ []) }
    {
        Start {
            version_major: 0,
            version_minor: 9,
            server_properties: Table::new(alloc),
            mechanisms,
            locales,
        }
    }
}

impl Typed for Start {
    ghost KIND = { ConnectionStart };

    ghost says = { start_call };

    const KIND: Kind = Kind::ConnectionStart;

    fn into_method(self, alloc: Global) -> Result<Method, OutOfMemory> {
        method_of(
            alloc,
            Kind::ConnectionStart,
            [
                Arg::Octet(self.version_major),
                Arg::Octet(self.version_minor),
                Arg::Table(self.server_properties),
                Arg::LongStr(self.mechanisms),
                Arg::LongStr(self.locales),
            ],
        )
    }

    fn of_method(method: Method) -> Start {
        let taken = five(own_args(method, Kind::ConnectionStart));
        Start {
            version_major: octet(taken.0),
            version_minor: octet(taken.1),
            server_properties: table(taken.2),
            mechanisms: long_str(taken.3),
            locales: long_str(taken.4),
        }
    }
}

/// [`Start`], lent by a method.
#[derive(Clone, Copy)]
pub struct StartRef<'a> {
    pub version_major: u8,
    pub version_minor: u8,
    pub server_properties: &'a Table,
    pub mechanisms: &'a [u8],
    pub locales: &'a [u8],
}

impl<'a> TypedRef<'a> for StartRef<'a> {
    type Of = Start;

    ghost lends = { start_ref_call };

    fn of_ref(method: &'a Method) -> StartRef<'a> {
        StartRef {
            version_major: octet_at(method, 0),
            version_minor: octet_at(method, 1),
            server_properties: table_at(method, 2),
            mechanisms: long_str_at(method, 3),
            locales: long_str_at(method, 4),
        }
    }
}

/// [`Start`], as it lies in its payload.
#[derive(Clone, Copy)]
pub struct StartView<'a> {
    pub version_major: u8,
    pub version_minor: u8,
    pub server_properties: TableRef<'a>,
    pub mechanisms: &'a [u8],
    pub locales: &'a [u8],
}

impl<'a> TypedView<'a> for StartView<'a> {
    type Of = Start;

    ghost shows = { start_view_call };

    fn of_view(method: MethodRef<'a>) -> StartView<'a> {
        StartView {
            version_major: octet_in(method, 0),
            version_minor: octet_in(method, 1),
            server_properties: table_in(method, 2),
            mechanisms: long_str_in(method, 3),
            locales: long_str_in(method, 4),
        }
    }
}

/// Picks a mechanism and a locale, and carries the first response of that mechanism. `connection.start-ok`, class 10,
/// method 11.
#[derive(Debug, Drop, PartialEq, Eq)]
pub struct StartOk {
    pub client_properties: Table,
    pub mechanism: ShortStr,
    /// In the format of the mechanism.
    pub response: Vec<u8>,
    pub locale: ShortStr,
}

impl StartOk {
    /// With an empty table.
    pub fn new(alloc: Global, mechanism: ShortStr, response: Vec<u8>, locale: ShortStr) -> StartOk
        ensures { start_ok_call result ≡ call ConnectionStartOk
            (table no_pairs ∷ short_string mechanism ∷ long_string response.items
            ∷ short_string locale ∷ []) }
    {
        StartOk {
            client_properties: Table::new(alloc),
            mechanism,
            response,
            locale,
        }
    }
}

impl Typed for StartOk {
    ghost KIND = { ConnectionStartOk };

    ghost says = { start_ok_call };

    const KIND: Kind = Kind::ConnectionStartOk;

    fn into_method(self, alloc: Global) -> Result<Method, OutOfMemory> {
        method_of(
            alloc,
            Kind::ConnectionStartOk,
            [
                Arg::Table(self.client_properties),
                Arg::ShortStr(self.mechanism),
                Arg::LongStr(self.response),
                Arg::ShortStr(self.locale),
            ],
        )
    }

    fn of_method(method: Method) -> StartOk {
        let taken = four(own_args(method, Kind::ConnectionStartOk));
        StartOk {
            client_properties: table(taken.0),
            mechanism: short_str(taken.1),
            response: long_str(taken.2),
            locale: short_str(taken.3),
        }
    }
}

/// [`StartOk`], lent by a method.
#[derive(Clone, Copy)]
pub struct StartOkRef<'a> {
    pub client_properties: &'a Table,
    pub mechanism: &'a ShortStr,
    pub response: &'a [u8],
    pub locale: &'a ShortStr,
}

impl<'a> TypedRef<'a> for StartOkRef<'a> {
    type Of = StartOk;

    ghost lends = { start_ok_ref_call };

    fn of_ref(method: &'a Method) -> StartOkRef<'a> {
        StartOkRef {
            client_properties: table_at(method, 0),
            mechanism: short_str_at(method, 1),
            response: long_str_at(method, 2),
            locale: short_str_at(method, 3),
        }
    }
}

/// [`StartOk`], as it lies in its payload.
#[derive(Clone, Copy)]
pub struct StartOkView<'a> {
    pub client_properties: TableRef<'a>,
    pub mechanism: &'a [u8],
    pub response: &'a [u8],
    pub locale: &'a [u8],
}

impl<'a> TypedView<'a> for StartOkView<'a> {
    type Of = StartOk;

    ghost shows = { start_ok_view_call };

    fn of_view(method: MethodRef<'a>) -> StartOkView<'a> {
        StartOkView {
            client_properties: table_in(method, 0),
            mechanism: short_str_in(method, 1),
            response: long_str_in(method, 2),
            locale: short_str_in(method, 3),
        }
    }
}

/// Challenges the client, as a mechanism in several steps wants it. `connection.secure`, class 10, method 20.
#[derive(Debug, Drop, PartialEq, Eq)]
pub struct Secure {
    /// In the format of the mechanism.
    pub challenge: Vec<u8>,
}

impl Secure {
    /// With these arguments.
    pub fn new(challenge: Vec<u8>) -> Secure
        ensures { secure_call result ≡ call ConnectionSecure (long_string challenge.items ∷ []) }
    {
        Secure { challenge }
    }
}

impl Typed for Secure {
    ghost KIND = { ConnectionSecure };

    ghost says = { secure_call };

    const KIND: Kind = Kind::ConnectionSecure;

    fn into_method(self, alloc: Global) -> Result<Method, OutOfMemory> {
        method_of(
            alloc,
            Kind::ConnectionSecure,
            [Arg::LongStr(self.challenge)],
        )
    }

    fn of_method(method: Method) -> Secure {
        let taken = one(own_args(method, Kind::ConnectionSecure));
        Secure {
            challenge: long_str(taken),
        }
    }
}

/// [`Secure`], lent by a method.
#[derive(Clone, Copy)]
pub struct SecureRef<'a> {
    pub challenge: &'a [u8],
}

impl<'a> TypedRef<'a> for SecureRef<'a> {
    type Of = Secure;

    ghost lends = { secure_ref_call };

    fn of_ref(method: &'a Method) -> SecureRef<'a> {
        SecureRef {
            challenge: long_str_at(method, 0),
        }
    }
}

/// [`Secure`], as it lies in its payload.
#[derive(Clone, Copy)]
pub struct SecureView<'a> {
    pub challenge: &'a [u8],
}

impl<'a> TypedView<'a> for SecureView<'a> {
    type Of = Secure;

    ghost shows = { secure_view_call };

    fn of_view(method: MethodRef<'a>) -> SecureView<'a> {
        SecureView {
            challenge: long_str_in(method, 0),
        }
    }
}

/// Answers a challenge. `connection.secure-ok`, class 10, method 21.
#[derive(Debug, Drop, PartialEq, Eq)]
pub struct SecureOk {
    /// In the format of the mechanism.
    pub response: Vec<u8>,
}

impl SecureOk {
    /// With these arguments.
    pub fn new(response: Vec<u8>) -> SecureOk
        ensures { secure_ok_call result ≡ call ConnectionSecureOk
            (long_string response.items ∷ []) }
    {
        SecureOk { response }
    }
}

impl Typed for SecureOk {
    ghost KIND = { ConnectionSecureOk };

    ghost says = { secure_ok_call };

    const KIND: Kind = Kind::ConnectionSecureOk;

    fn into_method(self, alloc: Global) -> Result<Method, OutOfMemory> {
        method_of(
            alloc,
            Kind::ConnectionSecureOk,
            [Arg::LongStr(self.response)],
        )
    }

    fn of_method(method: Method) -> SecureOk {
        let taken = one(own_args(method, Kind::ConnectionSecureOk));
        SecureOk {
            response: long_str(taken),
        }
    }
}

/// [`SecureOk`], lent by a method.
#[derive(Clone, Copy)]
pub struct SecureOkRef<'a> {
    pub response: &'a [u8],
}

impl<'a> TypedRef<'a> for SecureOkRef<'a> {
    type Of = SecureOk;

    ghost lends = { secure_ok_ref_call };

    fn of_ref(method: &'a Method) -> SecureOkRef<'a> {
        SecureOkRef {
            response: long_str_at(method, 0),
        }
    }
}

/// [`SecureOk`], as it lies in its payload.
#[derive(Clone, Copy)]
pub struct SecureOkView<'a> {
    pub response: &'a [u8],
}

impl<'a> TypedView<'a> for SecureOkView<'a> {
    type Of = SecureOk;

    ghost shows = { secure_ok_view_call };

    fn of_view(method: MethodRef<'a>) -> SecureOkView<'a> {
        SecureOkView {
            response: long_str_in(method, 0),
        }
    }
}

/// Proposes the limits of the connection. `connection.tune`, class 10, method 30.
#[derive(Clone, Copy, PartialEq, Eq, Debug)]
pub struct Tune {
    /// The greatest channel number; 0 sets no limit.
    pub channel_max: u16,
    /// The greatest frame, in octets with its eight of overhead; 0 sets no limit.
    pub frame_max: u32,
    /// The seconds between heartbeats; 0 wants none.
    pub heartbeat: u16,
}

impl Tune {
    /// With these arguments.
    pub fn new(channel_max: u16, frame_max: u32, heartbeat: u16) -> Tune
        ensures { tune_call result ≡ call ConnectionTune
            (short channel_max ∷ long frame_max ∷ short heartbeat ∷ []) }
    {
        Tune {
            channel_max,
            frame_max,
            heartbeat,
        }
    }
}

impl Typed for Tune {
    ghost KIND = { ConnectionTune };

    ghost says = { tune_call };

    const KIND: Kind = Kind::ConnectionTune;

    fn into_method(self, alloc: Global) -> Result<Method, OutOfMemory> {
        method_of(
            alloc,
            Kind::ConnectionTune,
            [
                Arg::Short(self.channel_max),
                Arg::Long(self.frame_max),
                Arg::Short(self.heartbeat),
            ],
        )
    }

    fn of_method(method: Method) -> Tune {
        Tune::of_ref(&method)
    }
}

impl<'a> TypedRef<'a> for Tune {
    type Of = Tune;

    ghost lends = { tune_call };

    fn of_ref(method: &'a Method) -> Tune {
        Tune {
            channel_max: short_at(method, 0),
            frame_max: long_at(method, 1),
            heartbeat: short_at(method, 2),
        }
    }
}

impl<'a> TypedView<'a> for Tune {
    type Of = Tune;

    ghost shows = { tune_call };

    fn of_view(method: MethodRef<'a>) -> Tune {
        Tune {
            channel_max: short_in(method, 0),
            frame_max: long_in(method, 1),
            heartbeat: short_in(method, 2),
        }
    }
}

/// Settles the limits of the connection. `connection.tune-ok`, class 10, method 31.
#[derive(Clone, Copy, PartialEq, Eq, Debug)]
pub struct TuneOk {
    /// The greatest channel number; 0 sets no limit.
    pub channel_max: u16,
    /// The greatest frame, in octets with its eight of overhead; 0 sets no limit.
    pub frame_max: u32,
    /// The seconds between heartbeats; 0 wants none.
    pub heartbeat: u16,
}

impl TuneOk {
    /// With these arguments.
    pub fn new(channel_max: u16, frame_max: u32, heartbeat: u16) -> TuneOk
        ensures { tune_ok_call result ≡ call ConnectionTuneOk
            (short channel_max ∷ long frame_max ∷ short heartbeat ∷ []) }
    {
        TuneOk {
            channel_max,
            frame_max,
            heartbeat,
        }
    }
}

impl Typed for TuneOk {
    ghost KIND = { ConnectionTuneOk };

    ghost says = { tune_ok_call };

    const KIND: Kind = Kind::ConnectionTuneOk;

    fn into_method(self, alloc: Global) -> Result<Method, OutOfMemory> {
        method_of(
            alloc,
            Kind::ConnectionTuneOk,
            [
                Arg::Short(self.channel_max),
                Arg::Long(self.frame_max),
                Arg::Short(self.heartbeat),
            ],
        )
    }

    fn of_method(method: Method) -> TuneOk {
        TuneOk::of_ref(&method)
    }
}

impl<'a> TypedRef<'a> for TuneOk {
    type Of = TuneOk;

    ghost lends = { tune_ok_call };

    fn of_ref(method: &'a Method) -> TuneOk {
        TuneOk {
            channel_max: short_at(method, 0),
            frame_max: long_at(method, 1),
            heartbeat: short_at(method, 2),
        }
    }
}

impl<'a> TypedView<'a> for TuneOk {
    type Of = TuneOk;

    ghost shows = { tune_ok_call };

    fn of_view(method: MethodRef<'a>) -> TuneOk {
        TuneOk {
            channel_max: short_in(method, 0),
            frame_max: long_in(method, 1),
            heartbeat: short_in(method, 2),
        }
    }
}

/// Opens the connection to a virtual host. `connection.open`, class 10, method 40.
#[derive(Debug, Drop, PartialEq, Eq)]
pub struct Open {
    pub virtual_host: ShortStr,
}

impl Open {
    /// With these arguments.
    pub fn new(virtual_host: ShortStr) -> Open
        ensures { open_call result ≡ call ConnectionOpen (short_string virtual_host ∷ []) }
    {
        Open { virtual_host }
    }
}

impl Typed for Open {
    ghost KIND = { ConnectionOpen };

    ghost says = { open_call };

    const KIND: Kind = Kind::ConnectionOpen;

    fn into_method(self, alloc: Global) -> Result<Method, OutOfMemory> {
        method_of(
            alloc,
            Kind::ConnectionOpen,
            [Arg::ShortStr(self.virtual_host)],
        )
    }

    fn of_method(method: Method) -> Open {
        let taken = one(own_args(method, Kind::ConnectionOpen));
        Open {
            virtual_host: short_str(taken),
        }
    }
}

/// [`Open`], lent by a method.
#[derive(Clone, Copy)]
pub struct OpenRef<'a> {
    pub virtual_host: &'a ShortStr,
}

impl<'a> TypedRef<'a> for OpenRef<'a> {
    type Of = Open;

    ghost lends = { open_ref_call };

    fn of_ref(method: &'a Method) -> OpenRef<'a> {
        OpenRef {
            virtual_host: short_str_at(method, 0),
        }
    }
}

/// [`Open`], as it lies in its payload.
#[derive(Clone, Copy)]
pub struct OpenView<'a> {
    pub virtual_host: &'a [u8],
}

impl<'a> TypedView<'a> for OpenView<'a> {
    type Of = Open;

    ghost shows = { open_view_call };

    fn of_view(method: MethodRef<'a>) -> OpenView<'a> {
        OpenView {
            virtual_host: short_str_in(method, 0),
        }
    }
}

/// Says that the connection is open. `connection.open-ok`, class 10, method 41.
pub type OpenOk = Bare<ConnectionOpenOk>;

/// Closes the connection, and says why. `connection.close`, class 10, method 50.
#[derive(Debug, Drop, PartialEq, Eq)]
pub struct Close {
    pub reply_code: u16,
    pub reply_text: ShortStr,
    /// The class of the method that is at fault, or 0.
    pub class_id: u16,
    /// The method that is at fault, or 0.
    pub method_id: u16,
}

impl Close {
    /// With `class_id` 0 and `method_id` 0.
    pub fn new(reply_code: u16, reply_text: ShortStr) -> Close
        ensures { close_call result ≡ call ConnectionClose
            (short reply_code ∷ short_string reply_text ∷ short 0 ∷ short 0 ∷ []) }
    {
        Close {
            reply_code,
            reply_text,
            class_id: 0,
            method_id: 0,
        }
    }
}

impl Typed for Close {
    ghost KIND = { ConnectionClose };

    ghost says = { close_call };

    const KIND: Kind = Kind::ConnectionClose;

    fn into_method(self, alloc: Global) -> Result<Method, OutOfMemory> {
        method_of(
            alloc,
            Kind::ConnectionClose,
            [
                Arg::Short(self.reply_code),
                Arg::ShortStr(self.reply_text),
                Arg::Short(self.class_id),
                Arg::Short(self.method_id),
            ],
        )
    }

    fn of_method(method: Method) -> Close {
        let taken = four(own_args(method, Kind::ConnectionClose));
        Close {
            reply_code: short(taken.0),
            reply_text: short_str(taken.1),
            class_id: short(taken.2),
            method_id: short(taken.3),
        }
    }
}

/// [`Close`], lent by a method.
#[derive(Clone, Copy)]
pub struct CloseRef<'a> {
    pub reply_code: u16,
    pub reply_text: &'a ShortStr,
    pub class_id: u16,
    pub method_id: u16,
}

impl<'a> TypedRef<'a> for CloseRef<'a> {
    type Of = Close;

    ghost lends = { close_ref_call };

    fn of_ref(method: &'a Method) -> CloseRef<'a> {
        CloseRef {
            reply_code: short_at(method, 0),
            reply_text: short_str_at(method, 1),
            class_id: short_at(method, 2),
            method_id: short_at(method, 3),
        }
    }
}

/// [`Close`], as it lies in its payload.
#[derive(Clone, Copy)]
pub struct CloseView<'a> {
    pub reply_code: u16,
    pub reply_text: &'a [u8],
    pub class_id: u16,
    pub method_id: u16,
}

impl<'a> TypedView<'a> for CloseView<'a> {
    type Of = Close;

    ghost shows = { close_view_call };

    fn of_view(method: MethodRef<'a>) -> CloseView<'a> {
        CloseView {
            reply_code: short_in(method, 0),
            reply_text: short_str_in(method, 1),
            class_id: short_in(method, 2),
            method_id: short_in(method, 3),
        }
    }
}

/// Confirms that the connection is closed. `connection.close-ok`, class 10, method 51.
pub type CloseOk = Bare<ConnectionCloseOk>;

/// Says that the server takes no more messages for now. `connection.blocked`, class 10, method 60.
#[derive(Debug, Drop, PartialEq, Eq)]
pub struct Blocked {
    pub reason: ShortStr,
}

impl Blocked {
    /// With these arguments.
    pub fn new(reason: ShortStr) -> Blocked
        ensures { blocked_call result ≡ call ConnectionBlocked (short_string reason ∷ []) }
    {
        Blocked { reason }
    }
}

impl Typed for Blocked {
    ghost KIND = { ConnectionBlocked };

    ghost says = { blocked_call };

    const KIND: Kind = Kind::ConnectionBlocked;

    fn into_method(self, alloc: Global) -> Result<Method, OutOfMemory> {
        method_of(alloc, Kind::ConnectionBlocked, [Arg::ShortStr(self.reason)])
    }

    fn of_method(method: Method) -> Blocked {
        let taken = one(own_args(method, Kind::ConnectionBlocked));
        Blocked {
            reason: short_str(taken),
        }
    }
}

/// [`Blocked`], lent by a method.
#[derive(Clone, Copy)]
pub struct BlockedRef<'a> {
    pub reason: &'a ShortStr,
}

impl<'a> TypedRef<'a> for BlockedRef<'a> {
    type Of = Blocked;

    ghost lends = { blocked_ref_call };

    fn of_ref(method: &'a Method) -> BlockedRef<'a> {
        BlockedRef {
            reason: short_str_at(method, 0),
        }
    }
}

/// [`Blocked`], as it lies in its payload.
#[derive(Clone, Copy)]
pub struct BlockedView<'a> {
    pub reason: &'a [u8],
}

impl<'a> TypedView<'a> for BlockedView<'a> {
    type Of = Blocked;

    ghost shows = { blocked_view_call };

    fn of_view(method: MethodRef<'a>) -> BlockedView<'a> {
        BlockedView {
            reason: short_str_in(method, 0),
        }
    }
}

/// Says that the server takes messages again. `connection.unblocked`, class 10, method 61.
pub type Unblocked = Bare<ConnectionUnblocked>;

/// A method of the class connection.
#[derive(Drop)]
pub enum AnyMethod {
    Start(Start),
    StartOk(StartOk),
    Secure(Secure),
    SecureOk(SecureOk),
    Tune(Tune),
    TuneOk(TuneOk),
    Open(Open),
    OpenOk(OpenOk),
    Close(Close),
    CloseOk(CloseOk),
    Blocked(Blocked),
    Unblocked(Unblocked),
}

impl AnyMethod {
    pub fn kind(&self) -> Kind
        ensures { result ≡ (any_call self.now).kind }
    {
        match self {
            AnyMethod::Start(_) => Kind::ConnectionStart,
            AnyMethod::StartOk(_) => Kind::ConnectionStartOk,
            AnyMethod::Secure(_) => Kind::ConnectionSecure,
            AnyMethod::SecureOk(_) => Kind::ConnectionSecureOk,
            AnyMethod::Tune(_) => Kind::ConnectionTune,
            AnyMethod::TuneOk(_) => Kind::ConnectionTuneOk,
            AnyMethod::Open(_) => Kind::ConnectionOpen,
            AnyMethod::OpenOk(_) => Kind::ConnectionOpenOk,
            AnyMethod::Close(_) => Kind::ConnectionClose,
            AnyMethod::CloseOk(_) => Kind::ConnectionCloseOk,
            AnyMethod::Blocked(_) => Kind::ConnectionBlocked,
            AnyMethod::Unblocked(_) => Kind::ConnectionUnblocked,
        }
    }

    /// What a method of the class says.
    pub fn from_method(method: Method) -> AnyMethod
        requires { (row (method_view method).kind).class ≡ 10 }
        ensures { any_call result ≡ method_view method }
    {
        match method.kind() {
            Kind::ConnectionStart => AnyMethod::Start(Start::of_method(method)),
            Kind::ConnectionStartOk => AnyMethod::StartOk(StartOk::of_method(method)),
            Kind::ConnectionSecure => AnyMethod::Secure(Secure::of_method(method)),
            Kind::ConnectionSecureOk => AnyMethod::SecureOk(SecureOk::of_method(method)),
            Kind::ConnectionTune => AnyMethod::Tune(Tune::of_method(method)),
            Kind::ConnectionTuneOk => AnyMethod::TuneOk(TuneOk::of_method(method)),
            Kind::ConnectionOpen => AnyMethod::Open(Open::of_method(method)),
            Kind::ConnectionOpenOk => AnyMethod::OpenOk(OpenOk::of_method(method)),
            Kind::ConnectionClose => AnyMethod::Close(Close::of_method(method)),
            Kind::ConnectionCloseOk => AnyMethod::CloseOk(CloseOk::of_method(method)),
            Kind::ConnectionBlocked => AnyMethod::Blocked(Blocked::of_method(method)),
            Kind::ConnectionUnblocked => AnyMethod::Unblocked(Unblocked::of_method(method)),
            _ => unreachable!(),
        }
    }

    /// The method with these arguments.
    pub fn into_method(self, alloc: Global) -> Result<Method, OutOfMemory>
        ensures { IfOk result (λ m. method_view m ≡ any_call self) }
    {
        match self {
            AnyMethod::Start(method) => method.into_method(alloc),
            AnyMethod::StartOk(method) => method.into_method(alloc),
            AnyMethod::Secure(method) => method.into_method(alloc),
            AnyMethod::SecureOk(method) => method.into_method(alloc),
            AnyMethod::Tune(method) => method.into_method(alloc),
            AnyMethod::TuneOk(method) => method.into_method(alloc),
            AnyMethod::Open(method) => method.into_method(alloc),
            AnyMethod::OpenOk(method) => method.into_method(alloc),
            AnyMethod::Close(method) => method.into_method(alloc),
            AnyMethod::CloseOk(method) => method.into_method(alloc),
            AnyMethod::Blocked(method) => method.into_method(alloc),
            AnyMethod::Unblocked(method) => method.into_method(alloc),
        }
    }
}

/// Prints what the struct prints.
impl fmt::Debug for AnyMethod {
    fn fmt<W: fmt::Write>(&self, f: &mut fmt::Formatter<W>) -> fmt::Result {
        match self {
            AnyMethod::Start(method) => fmt::Debug::fmt(method, f),
            AnyMethod::StartOk(method) => fmt::Debug::fmt(method, f),
            AnyMethod::Secure(method) => fmt::Debug::fmt(method, f),
            AnyMethod::SecureOk(method) => fmt::Debug::fmt(method, f),
            AnyMethod::Tune(method) => fmt::Debug::fmt(method, f),
            AnyMethod::TuneOk(method) => fmt::Debug::fmt(method, f),
            AnyMethod::Open(method) => fmt::Debug::fmt(method, f),
            AnyMethod::OpenOk(method) => fmt::Debug::fmt(method, f),
            AnyMethod::Close(method) => fmt::Debug::fmt(method, f),
            AnyMethod::CloseOk(method) => fmt::Debug::fmt(method, f),
            AnyMethod::Blocked(method) => fmt::Debug::fmt(method, f),
            AnyMethod::Unblocked(method) => fmt::Debug::fmt(method, f),
        }
    }
}

/// [`AnyMethod`], as it lies in its payload.
#[derive(Clone, Copy)]
pub enum AnyMethodView<'a> {
    Start(StartView<'a>),
    StartOk(StartOkView<'a>),
    Secure(SecureView<'a>),
    SecureOk(SecureOkView<'a>),
    Tune(Tune),
    TuneOk(TuneOk),
    Open(OpenView<'a>),
    OpenOk(OpenOk),
    Close(CloseView<'a>),
    CloseOk(CloseOk),
    Blocked(BlockedView<'a>),
    Unblocked(Unblocked),
}

impl<'a> AnyMethodView<'a> {
    pub fn kind(self) -> Kind
        ensures { result ≡ (any_view_call self.entry).kind }
    {
        match self {
            AnyMethodView::Start(_) => Kind::ConnectionStart,
            AnyMethodView::StartOk(_) => Kind::ConnectionStartOk,
            AnyMethodView::Secure(_) => Kind::ConnectionSecure,
            AnyMethodView::SecureOk(_) => Kind::ConnectionSecureOk,
            AnyMethodView::Tune(_) => Kind::ConnectionTune,
            AnyMethodView::TuneOk(_) => Kind::ConnectionTuneOk,
            AnyMethodView::Open(_) => Kind::ConnectionOpen,
            AnyMethodView::OpenOk(_) => Kind::ConnectionOpenOk,
            AnyMethodView::Close(_) => Kind::ConnectionClose,
            AnyMethodView::CloseOk(_) => Kind::ConnectionCloseOk,
            AnyMethodView::Blocked(_) => Kind::ConnectionBlocked,
            AnyMethodView::Unblocked(_) => Kind::ConnectionUnblocked,
        }
    }

    /// What a method of the class says.
    pub fn from_view(method: MethodRef<'a>) -> AnyMethodView<'a>
        requires { (row (lent_call method).kind).class ≡ 10 }
        ensures { any_view_call result ≡ lent_call method.entry }
    {
        match kind_in(method) {
            Kind::ConnectionStart => AnyMethodView::Start(StartView::of_view(method)),
            Kind::ConnectionStartOk => AnyMethodView::StartOk(StartOkView::of_view(method)),
            Kind::ConnectionSecure => AnyMethodView::Secure(SecureView::of_view(method)),
            Kind::ConnectionSecureOk => AnyMethodView::SecureOk(SecureOkView::of_view(method)),
            Kind::ConnectionTune => AnyMethodView::Tune(Tune::of_view(method)),
            Kind::ConnectionTuneOk => AnyMethodView::TuneOk(TuneOk::of_view(method)),
            Kind::ConnectionOpen => AnyMethodView::Open(OpenView::of_view(method)),
            Kind::ConnectionOpenOk => AnyMethodView::OpenOk(OpenOk::of_view(method)),
            Kind::ConnectionClose => AnyMethodView::Close(CloseView::of_view(method)),
            Kind::ConnectionCloseOk => AnyMethodView::CloseOk(CloseOk::of_view(method)),
            Kind::ConnectionBlocked => AnyMethodView::Blocked(BlockedView::of_view(method)),
            Kind::ConnectionUnblocked => AnyMethodView::Unblocked(Unblocked::of_view(method)),
            _ => unreachable!(),
        }
    }
}
