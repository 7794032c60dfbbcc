//! The methods of the class queue (`amqp0-9-1.xml`, class 50).
// Written by `tools/typed_methods.py` from the table of methods in `docs/PROTOCOL.md`: change those and run it again.
ghost use Rattle.std.specs.Prelude.{◌≡◌, IfOk, false, ◌∷◌, []};
ghost use Rattle.amqp_value.specs.Values.{no_pairs};
ghost use Rattle.amqp_method.specs.Arguments.{call, bit, long, short_string, table};
ghost use Rattle.amqp_method.specs.MethodRefView.{lent_call};
ghost use Rattle.amqp_method.specs.MethodView.{method_view};
ghost use Rattle.amqp_method.specs.Methods.{row};
ghost use Rattle.amqp_method.specs.declared.kinds.Kind.TheVariants.{QueueDeclare, QueueDeclareOk, QueueBind, QueueUnbind, QueuePurge, QueuePurgeOk, QueueDelete, QueueDeleteOk};
ghost use Rattle.amqp_typed.specs.Queue.{declare_call, declare_ok_call, bind_call, unbind_call, purge_call, purge_ok_call, delete_call, delete_ok_call, declare_ref_call, declare_ok_ref_call, bind_ref_call, unbind_ref_call, purge_ref_call, delete_ref_call, declare_view_call, declare_ok_view_call, bind_view_call, unbind_view_call, purge_view_call, delete_view_call, any_call, any_view_call};

use crate::args::{
    bit, bit_at, five, four, long, long_at, method_of, own_args, seven, short_str, short_str_at,
    table, table_at, three, two,
};
use crate::bare::Bare;
use crate::bare_kinds::{QueueBindOk, QueueUnbindOk};
use crate::typed::{Typed, TypedRef, TypedView};
use crate::views::{bit_in, kind_in, long_in, short_str_in, table_in};
use amqp_method::{Arg, Kind, Method, MethodRef, OutOfMemory};
use amqp_value::{ShortStr, Table, TableRef};
use std::alloc::Global;
use std::fmt;

/// Creates a queue if it doesn't exist yet. `queue.declare`, class 50, method 10.
#[derive(Debug, Drop, PartialEq, Eq)]
pub struct Declare {
    /// The name of the queue; empty for a name that the server makes up.
    pub queue: ShortStr,
    /// Only asks whether the queue exists.
    pub passive: bool,
    /// The queue outlives a restart of the server.
    pub durable: bool,
    /// The queue serves this connection alone, and ends with it.
    pub exclusive: bool,
    /// The queue is deleted with its last consumer.
    pub auto_delete: bool,
    /// The server sends no reply.
    pub no_wait: bool,
    pub arguments: Table,
}

impl Declare {
    /// With no bit set and an empty table.
    pub fn new(alloc: Global, queue: ShortStr) -> Declare
        ensures { declare_call result ≡ call QueueDeclare
            (short_string queue ∷ bit false ∷ bit false ∷ bit false ∷ bit false ∷ bit false
            ∷ table no_pairs ∷ []) }
    {
        Declare {
            queue,
            passive: false,
            durable: false,
            exclusive: false,
            auto_delete: false,
            no_wait: false,
            arguments: Table::new(alloc),
        }
    }
}

impl Typed for Declare {
    ghost KIND = { QueueDeclare };

    ghost says = { declare_call };

    const KIND: Kind = Kind::QueueDeclare;

    fn into_method(self, alloc: Global) -> Result<Method, OutOfMemory> {
        method_of(
            alloc,
            Kind::QueueDeclare,
            [
                Arg::ShortStr(self.queue),
                Arg::Bit(self.passive),
                Arg::Bit(self.durable),
                Arg::Bit(self.exclusive),
                Arg::Bit(self.auto_delete),
                Arg::Bit(self.no_wait),
                Arg::Table(self.arguments),
            ],
        )
    }

    fn of_method(method: Method) -> Declare {
        let taken = seven(own_args(method, Kind::QueueDeclare));
        Declare {
            queue: short_str(taken.0),
            passive: bit(taken.1),
            durable: bit(taken.2),
            exclusive: bit(taken.3),
            auto_delete: bit(taken.4),
            no_wait: bit(taken.5),
            arguments: table(taken.6),
        }
    }
}

/// [`Declare`], lent by a method.
#[derive(Clone, Copy)]
pub struct DeclareRef<'a> {
    pub queue: &'a ShortStr,
    pub passive: bool,
    pub durable: bool,
    pub exclusive: bool,
    pub auto_delete: bool,
    pub no_wait: bool,
    pub arguments: &'a Table,
}

impl<'a> TypedRef<'a> for DeclareRef<'a> {
    type Of = Declare;

    ghost lends = { declare_ref_call };

    fn of_ref(method: &'a Method) -> DeclareRef<'a> {
        DeclareRef {
            queue: short_str_at(method, 0),
            passive: bit_at(method, 1),
            durable: bit_at(method, 2),
            exclusive: bit_at(method, 3),
            auto_delete: bit_at(method, 4),
            no_wait: bit_at(method, 5),
            arguments: table_at(method, 6),
        }
    }
}

/// [`Declare`], as it lies in its payload.
#[derive(Clone, Copy)]
pub struct DeclareView<'a> {
    pub queue: &'a [u8],
    pub passive: bool,
    pub durable: bool,
    pub exclusive: bool,
    pub auto_delete: bool,
    pub no_wait: bool,
    pub arguments: TableRef<'a>,
}

impl<'a> TypedView<'a> for DeclareView<'a> {
    type Of = Declare;

    ghost shows = { declare_view_call };

    fn of_view(method: MethodRef<'a>) -> DeclareView<'a> {
        DeclareView {
            queue: short_str_in(method, 0),
            passive: bit_in(method, 1),
            durable: bit_in(method, 2),
            exclusive: bit_in(method, 3),
            auto_delete: bit_in(method, 4),
            no_wait: bit_in(method, 5),
            arguments: table_in(method, 6),
        }
    }
}

/// Confirms that the queue exists, and says how much it holds. `queue.declare-ok`, class 50, method 11.
#[derive(Debug, Drop, PartialEq, Eq)]
pub struct DeclareOk {
    pub queue: ShortStr,
    /// How many messages await delivery.
    pub message_count: u32,
    pub consumer_count: u32,
}

impl DeclareOk {
    /// With these arguments.
    pub fn new(queue: ShortStr, message_count: u32, consumer_count: u32) -> DeclareOk
        ensures { declare_ok_call result ≡ call QueueDeclareOk
            (short_string queue ∷ long message_count ∷ long consumer_count ∷ []) }
    {
        DeclareOk {
            queue,
            message_count,
            consumer_count,
        }
    }
}

impl Typed for DeclareOk {
    ghost KIND = { QueueDeclareOk };

    ghost says = { declare_ok_call };

    const KIND: Kind = Kind::QueueDeclareOk;

    fn into_method(self, alloc: Global) -> Result<Method, OutOfMemory> {
        method_of(
            alloc,
            Kind::QueueDeclareOk,
            [
                Arg::ShortStr(self.queue),
                Arg::Long(self.message_count),
                Arg::Long(self.consumer_count),
            ],
        )
    }

    fn of_method(method: Method) -> DeclareOk {
        let taken = three(own_args(method, Kind::QueueDeclareOk));
        DeclareOk {
            queue: short_str(taken.0),
            message_count: long(taken.1),
            consumer_count: long(taken.2),
        }
    }
}

/// [`DeclareOk`], lent by a method.
#[derive(Clone, Copy)]
pub struct DeclareOkRef<'a> {
    pub queue: &'a ShortStr,
    pub message_count: u32,
    pub consumer_count: u32,
}

impl<'a> TypedRef<'a> for DeclareOkRef<'a> {
    type Of = DeclareOk;

    ghost lends = { declare_ok_ref_call };

    fn of_ref(method: &'a Method) -> DeclareOkRef<'a> {
        DeclareOkRef {
            queue: short_str_at(method, 0),
            message_count: long_at(method, 1),
            consumer_count: long_at(method, 2),
        }
    }
}

/// [`DeclareOk`], as it lies in its payload.
#[derive(Clone, Copy)]
pub struct DeclareOkView<'a> {
    pub queue: &'a [u8],
    pub message_count: u32,
    pub consumer_count: u32,
}

impl<'a> TypedView<'a> for DeclareOkView<'a> {
    type Of = DeclareOk;

    ghost shows = { declare_ok_view_call };

    fn of_view(method: MethodRef<'a>) -> DeclareOkView<'a> {
        DeclareOkView {
            queue: short_str_in(method, 0),
            message_count: long_in(method, 1),
            consumer_count: long_in(method, 2),
        }
    }
}

/// Binds a queue to an exchange. `queue.bind`, class 50, method 20.
#[derive(Debug, Drop, PartialEq, Eq)]
pub struct Bind {
    pub queue: ShortStr,
    pub exchange: ShortStr,
    pub routing_key: ShortStr,
    /// The server sends no reply.
    pub no_wait: bool,
    pub arguments: Table,
}

impl Bind {
    /// With no bit set and an empty table.
    pub fn new(alloc: Global, queue: ShortStr, exchange: ShortStr, routing_key: ShortStr) -> Bind
        ensures { bind_call result ≡ call QueueBind
            (short_string queue ∷ short_string exchange ∷ short_string routing_key ∷ bit false
            ∷ table no_pairs ∷ []) }
    {
        Bind {
            queue,
            exchange,
            routing_key,
            no_wait: false,
            arguments: Table::new(alloc),
        }
    }
}

impl Typed for Bind {
    ghost KIND = { QueueBind };

    ghost says = { bind_call };

    const KIND: Kind = Kind::QueueBind;

    fn into_method(self, alloc: Global) -> Result<Method, OutOfMemory> {
        method_of(
            alloc,
            Kind::QueueBind,
            [
                Arg::ShortStr(self.queue),
                Arg::ShortStr(self.exchange),
                Arg::ShortStr(self.routing_key),
                Arg::Bit(self.no_wait),
                Arg::Table(self.arguments),
            ],
        )
    }

    fn of_method(method: Method) -> Bind {
        let taken = five(own_args(method, Kind::QueueBind));
        Bind {
            queue: short_str(taken.0),
            exchange: short_str(taken.1),
            routing_key: short_str(taken.2),
            no_wait: bit(taken.3),
            arguments: table(taken.4),
        }
    }
}

/// [`Bind`], lent by a method.
#[derive(Clone, Copy)]
pub struct BindRef<'a> {
    pub queue: &'a ShortStr,
    pub exchange: &'a ShortStr,
    pub routing_key: &'a ShortStr,
    pub no_wait: bool,
    pub arguments: &'a Table,
}

impl<'a> TypedRef<'a> for BindRef<'a> {
    type Of = Bind;

    ghost lends = { bind_ref_call };

    fn of_ref(method: &'a Method) -> BindRef<'a> {
        BindRef {
            queue: short_str_at(method, 0),
            exchange: short_str_at(method, 1),
            routing_key: short_str_at(method, 2),
            no_wait: bit_at(method, 3),
            arguments: table_at(method, 4),
        }
    }
}

/// [`Bind`], as it lies in its payload.
#[derive(Clone, Copy)]
pub struct BindView<'a> {
    pub queue: &'a [u8],
    pub exchange: &'a [u8],
    pub routing_key: &'a [u8],
    pub no_wait: bool,
    pub arguments: TableRef<'a>,
}

impl<'a> TypedView<'a> for BindView<'a> {
    type Of = Bind;

    ghost shows = { bind_view_call };

    fn of_view(method: MethodRef<'a>) -> BindView<'a> {
        BindView {
            queue: short_str_in(method, 0),
            exchange: short_str_in(method, 1),
            routing_key: short_str_in(method, 2),
            no_wait: bit_in(method, 3),
            arguments: table_in(method, 4),
        }
    }
}

/// Confirms the binding. `queue.bind-ok`, class 50, method 21.
pub type BindOk = Bare<QueueBindOk>;

/// Unbinds a queue from an exchange. `queue.unbind`, class 50, method 50.
#[derive(Debug, Drop, PartialEq, Eq)]
pub struct Unbind {
    pub queue: ShortStr,
    pub exchange: ShortStr,
    pub routing_key: ShortStr,
    pub arguments: Table,
}

impl Unbind {
    /// With an empty table.
    pub fn new(alloc: Global, queue: ShortStr, exchange: ShortStr, routing_key: ShortStr) -> Unbind
        ensures { unbind_call result ≡ call QueueUnbind
            (short_string queue ∷ short_string exchange ∷ short_string routing_key ∷ table no_pairs
            ∷ []) }
    {
        Unbind {
            queue,
            exchange,
            routing_key,
            arguments: Table::new(alloc),
        }
    }
}

impl Typed for Unbind {
    ghost KIND = { QueueUnbind };

    ghost says = { unbind_call };

    const KIND: Kind = Kind::QueueUnbind;

    fn into_method(self, alloc: Global) -> Result<Method, OutOfMemory> {
        method_of(
            alloc,
            Kind::QueueUnbind,
            [
                Arg::ShortStr(self.queue),
                Arg::ShortStr(self.exchange),
                Arg::ShortStr(self.routing_key),
                Arg::Table(self.arguments),
            ],
        )
    }

    fn of_method(method: Method) -> Unbind {
        let taken = four(own_args(method, Kind::QueueUnbind));
        Unbind {
            queue: short_str(taken.0),
            exchange: short_str(taken.1),
            routing_key: short_str(taken.2),
            arguments: table(taken.3),
        }
    }
}

/// [`Unbind`], lent by a method.
#[derive(Clone, Copy)]
pub struct UnbindRef<'a> {
    pub queue: &'a ShortStr,
    pub exchange: &'a ShortStr,
    pub routing_key: &'a ShortStr,
    pub arguments: &'a Table,
}

impl<'a> TypedRef<'a> for UnbindRef<'a> {
    type Of = Unbind;

    ghost lends = { unbind_ref_call };

    fn of_ref(method: &'a Method) -> UnbindRef<'a> {
        UnbindRef {
            queue: short_str_at(method, 0),
            exchange: short_str_at(method, 1),
            routing_key: short_str_at(method, 2),
            arguments: table_at(method, 3),
        }
    }
}

/// [`Unbind`], as it lies in its payload.
#[derive(Clone, Copy)]
pub struct UnbindView<'a> {
    pub queue: &'a [u8],
    pub exchange: &'a [u8],
    pub routing_key: &'a [u8],
    pub arguments: TableRef<'a>,
}

impl<'a> TypedView<'a> for UnbindView<'a> {
    type Of = Unbind;

    ghost shows = { unbind_view_call };

    fn of_view(method: MethodRef<'a>) -> UnbindView<'a> {
        UnbindView {
            queue: short_str_in(method, 0),
            exchange: short_str_in(method, 1),
            routing_key: short_str_in(method, 2),
            arguments: table_in(method, 3),
        }
    }
}

/// Confirms that the binding is gone. `queue.unbind-ok`, class 50, method 51.
pub type UnbindOk = Bare<QueueUnbindOk>;

/// Removes the messages of a queue that await no acknowledgement. `queue.purge`, class 50, method 30.
#[derive(Debug, Drop, PartialEq, Eq)]
pub struct Purge {
    pub queue: ShortStr,
    /// The server sends no reply.
    pub no_wait: bool,
}

impl Purge {
    /// With no bit set.
    pub fn new(queue: ShortStr) -> Purge
        ensures { purge_call result ≡ call QueuePurge (short_string queue ∷ bit false ∷ []) }
    {
        Purge {
            queue,
            no_wait: false,
        }
    }
}

impl Typed for Purge {
    ghost KIND = { QueuePurge };

    ghost says = { purge_call };

    const KIND: Kind = Kind::QueuePurge;

    fn into_method(self, alloc: Global) -> Result<Method, OutOfMemory> {
        method_of(
            alloc,
            Kind::QueuePurge,
            [Arg::ShortStr(self.queue), Arg::Bit(self.no_wait)],
        )
    }

    fn of_method(method: Method) -> Purge {
        let taken = two(own_args(method, Kind::QueuePurge));
        Purge {
            queue: short_str(taken.0),
            no_wait: bit(taken.1),
        }
    }
}

/// [`Purge`], lent by a method.
#[derive(Clone, Copy)]
pub struct PurgeRef<'a> {
    pub queue: &'a ShortStr,
    pub no_wait: bool,
}

impl<'a> TypedRef<'a> for PurgeRef<'a> {
    type Of = Purge;

    ghost lends = { purge_ref_call };

    fn of_ref(method: &'a Method) -> PurgeRef<'a> {
        PurgeRef {
            queue: short_str_at(method, 0),
            no_wait: bit_at(method, 1),
        }
    }
}

/// [`Purge`], as it lies in its payload.
#[derive(Clone, Copy)]
pub struct PurgeView<'a> {
    pub queue: &'a [u8],
    pub no_wait: bool,
}

impl<'a> TypedView<'a> for PurgeView<'a> {
    type Of = Purge;

    ghost shows = { purge_view_call };

    fn of_view(method: MethodRef<'a>) -> PurgeView<'a> {
        PurgeView {
            queue: short_str_in(method, 0),
            no_wait: bit_in(method, 1),
        }
    }
}

/// Says how many messages were removed. `queue.purge-ok`, class 50, method 31.
#[derive(Clone, Copy, PartialEq, Eq, Debug)]
pub struct PurgeOk {
    pub message_count: u32,
}

impl PurgeOk {
    /// With these arguments.
    pub fn new(message_count: u32) -> PurgeOk
        ensures { purge_ok_call result ≡ call QueuePurgeOk (long message_count ∷ []) }
    {
        PurgeOk { message_count }
    }
}

impl Typed for PurgeOk {
    ghost KIND = { QueuePurgeOk };

    ghost says = { purge_ok_call };

    const KIND: Kind = Kind::QueuePurgeOk;

    fn into_method(self, alloc: Global) -> Result<Method, OutOfMemory> {
        method_of(alloc, Kind::QueuePurgeOk, [Arg::Long(self.message_count)])
    }

    fn of_method(method: Method) -> PurgeOk {
        PurgeOk::of_ref(&method)
    }
}

impl<'a> TypedRef<'a> for PurgeOk {
    type Of = PurgeOk;

    ghost lends = { purge_ok_call };

    fn of_ref(method: &'a Method) -> PurgeOk {
        PurgeOk {
            message_count: long_at(method, 0),
        }
    }
}

impl<'a> TypedView<'a> for PurgeOk {
    type Of = PurgeOk;

    ghost shows = { purge_ok_call };

    fn of_view(method: MethodRef<'a>) -> PurgeOk {
        PurgeOk {
            message_count: long_in(method, 0),
        }
    }
}

/// Deletes a queue. `queue.delete`, class 50, method 40.
#[derive(Debug, Drop, PartialEq, Eq)]
pub struct Delete {
    pub queue: ShortStr,
    /// Only if the queue has no consumers.
    pub if_unused: bool,
    /// Only if the queue has no messages.
    pub if_empty: bool,
    /// The server sends no reply.
    pub no_wait: bool,
}

impl Delete {
    /// With no bit set.
    pub fn new(queue: ShortStr) -> Delete
        ensures { delete_call result ≡ call QueueDelete
            (short_string queue ∷ bit false ∷ bit false ∷ bit false ∷ []) }
    {
        Delete {
            queue,
            if_unused: false,
            if_empty: false,
            no_wait: false,
        }
    }
}

impl Typed for Delete {
    ghost KIND = { QueueDelete };

    ghost says = { delete_call };

    const KIND: Kind = Kind::QueueDelete;

    fn into_method(self, alloc: Global) -> Result<Method, OutOfMemory> {
        method_of(
            alloc,
            Kind::QueueDelete,
            [
                Arg::ShortStr(self.queue),
                Arg::Bit(self.if_unused),
                Arg::Bit(self.if_empty),
                Arg::Bit(self.no_wait),
            ],
        )
    }

    fn of_method(method: Method) -> Delete {
        let taken = four(own_args(method, Kind::QueueDelete));
        Delete {
            queue: short_str(taken.0),
            if_unused: bit(taken.1),
            if_empty: bit(taken.2),
            no_wait: bit(taken.3),
        }
    }
}

/// [`Delete`], lent by a method.
#[derive(Clone, Copy)]
pub struct DeleteRef<'a> {
    pub queue: &'a ShortStr,
    pub if_unused: bool,
    pub if_empty: bool,
    pub no_wait: bool,
}

impl<'a> TypedRef<'a> for DeleteRef<'a> {
    type Of = Delete;

    ghost lends = { delete_ref_call };

    fn of_ref(method: &'a Method) -> DeleteRef<'a> {
        DeleteRef {
            queue: short_str_at(method, 0),
            if_unused: bit_at(method, 1),
            if_empty: bit_at(method, 2),
            no_wait: bit_at(method, 3),
        }
    }
}

/// [`Delete`], as it lies in its payload.
#[derive(Clone, Copy)]
pub struct DeleteView<'a> {
    pub queue: &'a [u8],
    pub if_unused: bool,
    pub if_empty: bool,
    pub no_wait: bool,
}

impl<'a> TypedView<'a> for DeleteView<'a> {
    type Of = Delete;

    ghost shows = { delete_view_call };

    fn of_view(method: MethodRef<'a>) -> DeleteView<'a> {
        DeleteView {
            queue: short_str_in(method, 0),
            if_unused: bit_in(method, 1),
            if_empty: bit_in(method, 2),
            no_wait: bit_in(method, 3),
        }
    }
}

/// Says how many messages were deleted with the queue. `queue.delete-ok`, class 50, method 41.
#[derive(Clone, Copy, PartialEq, Eq, Debug)]
pub struct DeleteOk {
    pub message_count: u32,
}

impl DeleteOk {
    /// With these arguments.
    pub fn new(message_count: u32) -> DeleteOk
        ensures { delete_ok_call result ≡ call QueueDeleteOk (long message_count ∷ []) }
    {
        DeleteOk { message_count }
    }
}

impl Typed for DeleteOk {
    ghost KIND = { QueueDeleteOk };

    ghost says = { delete_ok_call };

    const KIND: Kind = Kind::QueueDeleteOk;

    fn into_method(self, alloc: Global) -> Result<Method, OutOfMemory> {
        method_of(alloc, Kind::QueueDeleteOk, [Arg::Long(self.message_count)])
    }

    fn of_method(method: Method) -> DeleteOk {
        DeleteOk::of_ref(&method)
    }
}

impl<'a> TypedRef<'a> for DeleteOk {
    type Of = DeleteOk;

    ghost lends = { delete_ok_call };

    fn of_ref(method: &'a Method) -> DeleteOk {
        DeleteOk {
            message_count: long_at(method, 0),
        }
    }
}

impl<'a> TypedView<'a> for DeleteOk {
    type Of = DeleteOk;

    ghost shows = { delete_ok_call };

    fn of_view(method: MethodRef<'a>) -> DeleteOk {
        DeleteOk {
            message_count: long_in(method, 0),
        }
    }
}

/// A method of the class queue.
#[derive(Drop)]
pub enum AnyMethod {
    Declare(Declare),
    DeclareOk(DeclareOk),
    Bind(Bind),
    BindOk(BindOk),
    Unbind(Unbind),
    UnbindOk(UnbindOk),
    Purge(Purge),
    PurgeOk(PurgeOk),
    Delete(Delete),
    DeleteOk(DeleteOk),
}

impl AnyMethod {
    pub fn kind(&self) -> Kind
        ensures { result ≡ (any_call self.now).kind }
    {
        match self {
            AnyMethod::Declare(_) => Kind::QueueDeclare,
            AnyMethod::DeclareOk(_) => Kind::QueueDeclareOk,
            AnyMethod::Bind(_) => Kind::QueueBind,
            AnyMethod::BindOk(_) => Kind::QueueBindOk,
            AnyMethod::Unbind(_) => Kind::QueueUnbind,
            AnyMethod::UnbindOk(_) => Kind::QueueUnbindOk,
            AnyMethod::Purge(_) => Kind::QueuePurge,
            AnyMethod::PurgeOk(_) => Kind::QueuePurgeOk,
            AnyMethod::Delete(_) => Kind::QueueDelete,
            AnyMethod::DeleteOk(_) => Kind::QueueDeleteOk,
        }
    }

    /// What a method of the class says.
    pub fn from_method(method: Method) -> AnyMethod
        requires { (row (method_view method).kind).class ≡ 50 }
        ensures { any_call result ≡ method_view method }
    {
        match method.kind() {
            Kind::QueueDeclare => AnyMethod::Declare(Declare::of_method(method)),
            Kind::QueueDeclareOk => AnyMethod::DeclareOk(DeclareOk::of_method(method)),
            Kind::QueueBind => AnyMethod::Bind(Bind::of_method(method)),
            Kind::QueueBindOk => AnyMethod::BindOk(BindOk::of_method(method)),
            Kind::QueueUnbind => AnyMethod::Unbind(Unbind::of_method(method)),
            Kind::QueueUnbindOk => AnyMethod::UnbindOk(UnbindOk::of_method(method)),
            Kind::QueuePurge => AnyMethod::Purge(Purge::of_method(method)),
            Kind::QueuePurgeOk => AnyMethod::PurgeOk(PurgeOk::of_method(method)),
            Kind::QueueDelete => AnyMethod::Delete(Delete::of_method(method)),
            Kind::QueueDeleteOk => AnyMethod::DeleteOk(DeleteOk::of_method(method)),
            _ => unreachable!(),
        }
    }

    /// The method with these arguments.
    pub fn into_method(self, alloc: Global) -> Result<Method, OutOfMemory>
        ensures { IfOk result (λ m. method_view m ≡ any_call self) }
    {
        match self {
            AnyMethod::Declare(method) => method.into_method(alloc),
            AnyMethod::DeclareOk(method) => method.into_method(alloc),
            AnyMethod::Bind(method) => method.into_method(alloc),
            AnyMethod::BindOk(method) => method.into_method(alloc),
            AnyMethod::Unbind(method) => method.into_method(alloc),
            AnyMethod::UnbindOk(method) => method.into_method(alloc),
            AnyMethod::Purge(method) => method.into_method(alloc),
            AnyMethod::PurgeOk(method) => method.into_method(alloc),
            AnyMethod::Delete(method) => method.into_method(alloc),
            AnyMethod::DeleteOk(method) => method.into_method(alloc),
        }
    }
}

/// Prints what the struct prints.
impl fmt::Debug for AnyMethod {
    fn fmt<W: fmt::Write>(&self, f: &mut fmt::Formatter<W>) -> fmt::Result {
        match self {
            AnyMethod::Declare(method) => fmt::Debug::fmt(method, f),
            AnyMethod::DeclareOk(method) => fmt::Debug::fmt(method, f),
            AnyMethod::Bind(method) => fmt::Debug::fmt(method, f),
            AnyMethod::BindOk(method) => fmt::Debug::fmt(method, f),
            AnyMethod::Unbind(method) => fmt::Debug::fmt(method, f),
            AnyMethod::UnbindOk(method) => fmt::Debug::fmt(method, f),
            AnyMethod::Purge(method) => fmt::Debug::fmt(method, f),
            AnyMethod::PurgeOk(method) => fmt::Debug::fmt(method, f),
            AnyMethod::Delete(method) => fmt::Debug::fmt(method, f),
            AnyMethod::DeleteOk(method) => fmt::Debug::fmt(method, f),
        }
    }
}

/// [`AnyMethod`], as it lies in its payload.
#[derive(Clone, Copy)]
pub enum AnyMethodView<'a> {
    Declare(DeclareView<'a>),
    DeclareOk(DeclareOkView<'a>),
    Bind(BindView<'a>),
    BindOk(BindOk),
    Unbind(UnbindView<'a>),
    UnbindOk(UnbindOk),
    Purge(PurgeView<'a>),
    PurgeOk(PurgeOk),
    Delete(DeleteView<'a>),
    DeleteOk(DeleteOk),
}

impl<'a> AnyMethodView<'a> {
    pub fn kind(self) -> Kind
        ensures { result ≡ (any_view_call self.entry).kind }
    {
        match self {
            AnyMethodView::Declare(_) => Kind::QueueDeclare,
            AnyMethodView::DeclareOk(_) => Kind::QueueDeclareOk,
            AnyMethodView::Bind(_) => Kind::QueueBind,
            AnyMethodView::BindOk(_) => Kind::QueueBindOk,
            AnyMethodView::Unbind(_) => Kind::QueueUnbind,
            AnyMethodView::UnbindOk(_) => Kind::QueueUnbindOk,
            AnyMethodView::Purge(_) => Kind::QueuePurge,
            AnyMethodView::PurgeOk(_) => Kind::QueuePurgeOk,
            AnyMethodView::Delete(_) => Kind::QueueDelete,
            AnyMethodView::DeleteOk(_) => Kind::QueueDeleteOk,
        }
    }

    /// What a method of the class says.
    pub fn from_view(method: MethodRef<'a>) -> AnyMethodView<'a>
        requires { (row (lent_call method).kind).class ≡ 50 }
        ensures { any_view_call result ≡ lent_call method.entry }
    {
        match kind_in(method) {
            Kind::QueueDeclare => AnyMethodView::Declare(DeclareView::of_view(method)),
            Kind::QueueDeclareOk => AnyMethodView::DeclareOk(DeclareOkView::of_view(method)),
            Kind::QueueBind => AnyMethodView::Bind(BindView::of_view(method)),
            Kind::QueueBindOk => AnyMethodView::BindOk(BindOk::of_view(method)),
            Kind::QueueUnbind => AnyMethodView::Unbind(UnbindView::of_view(method)),
            Kind::QueueUnbindOk => AnyMethodView::UnbindOk(UnbindOk::of_view(method)),
            Kind::QueuePurge => AnyMethodView::Purge(PurgeView::of_view(method)),
            Kind::QueuePurgeOk => AnyMethodView::PurgeOk(PurgeOk::of_view(method)),
            Kind::QueueDelete => AnyMethodView::Delete(DeleteView::of_view(method)),
            Kind::QueueDeleteOk => AnyMethodView::DeleteOk(DeleteOk::of_view(method)),
            _ => unreachable!(),
        }
    }
}
