//! The methods of the class exchange (`amqp0-9-1.xml`, class 40).
// Written by `tools/typed_methods.py` from the table of methods in `docs/PROTOCOL.md`: change those and run it again.
ghost use Rattle.std.specs.Prelude.{◌≡◌, IfOk, false, ◌∷◌, []};
ghost use Rattle.amqp_value.specs.Values.{no_pairs};
ghost use Rattle.amqp_method.specs.Arguments.{call, bit, short_string, table};
ghost use Rattle.amqp_method.specs.MethodRefView.{lent_call};
ghost use Rattle.amqp_method.specs.MethodView.{method_view};
ghost use Rattle.amqp_method.specs.Methods.{row};
ghost use Rattle.amqp_method.specs.declared.kinds.Kind.TheVariants.{ExchangeDeclare, ExchangeDelete, ExchangeBind, ExchangeUnbind};
ghost use Rattle.amqp_typed.specs.Exchange.{declare_call, delete_call, bind_call, unbind_call, declare_ref_call, delete_ref_call, bind_ref_call, unbind_ref_call, declare_view_call, delete_view_call, bind_view_call, unbind_view_call, any_call, any_view_call};

use crate::args::{
    bit, bit_at, eight, five, method_of, own_args, short_str, short_str_at, table, table_at, three,
};
use crate::bare::Bare;
use crate::bare_kinds::{ExchangeBindOk, ExchangeDeclareOk, ExchangeDeleteOk, ExchangeUnbindOk};
use crate::typed::{Typed, TypedRef, TypedView};
use crate::views::{bit_in, kind_in, short_str_in, table_in};
use amqp_method::{Arg, Kind, Method, MethodRef, OutOfMemory};
use amqp_value::{ShortStr, Table, TableRef};
use std::alloc::Global;
use std::fmt;

/// Creates an exchange if it doesn't exist yet. `exchange.declare`, class 40, method 10.
#[derive(Debug, Drop, PartialEq, Eq)]
pub struct Declare {
    /// The name of the exchange.
    pub exchange: ShortStr,
    /// The type of the exchange, such as `direct`, `fanout`, `topic` or `headers`: the field `type`.
    pub type_name: ShortStr,
    /// Only asks whether the exchange exists.
    pub passive: bool,
    /// The exchange outlives a restart of the server.
    pub durable: bool,
    /// The exchange is deleted with its last binding.
    pub auto_delete: bool,
    /// Nobody may publish to the exchange: it serves bindings only.
    pub internal: bool,
    /// The server sends no reply.
    pub no_wait: bool,
    pub arguments: Table,
}

impl Declare {
    /// With no bit set and an empty table.
    pub fn new(alloc: Global, exchange: ShortStr, type_name: ShortStr) -> Declare
        ensures { declare_call result ≡ call ExchangeDeclare
            (short_string exchange ∷ short_string type_name ∷ bit false ∷ bit false ∷ bit false
            ∷ bit false ∷ bit false ∷ table no_pairs ∷ []) }
    {
        Declare {
            exchange,
            type_name,
            passive: false,
            durable: false,
            auto_delete: false,
            internal: false,
            no_wait: false,
            arguments: Table::new(alloc),
        }
    }
}

impl Typed for Declare {
    ghost KIND = { ExchangeDeclare };

    ghost says = { declare_call };

    const KIND: Kind = Kind::ExchangeDeclare;

    fn into_method(self, alloc: Global) -> Result<Method, OutOfMemory> {
        method_of(
            alloc,
            Kind::ExchangeDeclare,
            [
                Arg::ShortStr(self.exchange),
                Arg::ShortStr(self.type_name),
                Arg::Bit(self.passive),
                Arg::Bit(self.durable),
                Arg::Bit(self.auto_delete),
                Arg::Bit(self.internal),
                Arg::Bit(self.no_wait),
                Arg::Table(self.arguments),
            ],
        )
    }

    fn of_method(method: Method) -> Declare {
        let taken = eight(own_args(method, Kind::ExchangeDeclare));
        Declare {
            exchange: short_str(taken.0),
            type_name: short_str(taken.1),
            passive: bit(taken.2),
            durable: bit(taken.3),
            auto_delete: bit(taken.4),
            internal: bit(taken.5),
            no_wait: bit(taken.6),
            arguments: table(taken.7),
        }
    }
}

/// [`Declare`], lent by a method.
#[derive(Clone, Copy)]
pub struct DeclareRef<'a> {
    pub exchange: &'a ShortStr,
    pub type_name: &'a ShortStr,
    pub passive: bool,
    pub durable: bool,
    pub auto_delete: bool,
    pub internal: bool,
    pub no_wait: bool,
    pub arguments: &'a Table,
}

impl<'a> TypedRef<'a> for DeclareRef<'a> {
    type Of = Declare;

    ghost lends = { declare_ref_call };

    fn of_ref(method: &'a Method) -> DeclareRef<'a> {
        DeclareRef {
            exchange: short_str_at(method, 0),
            type_name: short_str_at(method, 1),
            passive: bit_at(method, 2),
            durable: bit_at(method, 3),
            auto_delete: bit_at(method, 4),
            internal: bit_at(method, 5),
            no_wait: bit_at(method, 6),
            arguments: table_at(method, 7),
        }
    }
}

/// [`Declare`], as it lies in its payload.
#[derive(Clone, Copy)]
pub struct DeclareView<'a> {
    pub exchange: &'a [u8],
    pub type_name: &'a [u8],
    pub passive: bool,
    pub durable: bool,
    pub auto_delete: bool,
    pub internal: bool,
    pub no_wait: bool,
    pub arguments: TableRef<'a>,
}

impl<'a> TypedView<'a> for DeclareView<'a> {
    type Of = Declare;

    ghost shows = { declare_view_call };

    fn of_view(method: MethodRef<'a>) -> DeclareView<'a> {
        DeclareView {
            exchange: short_str_in(method, 0),
            type_name: short_str_in(method, 1),
            passive: bit_in(method, 2),
            durable: bit_in(method, 3),
            auto_delete: bit_in(method, 4),
            internal: bit_in(method, 5),
            no_wait: bit_in(method, 6),
            arguments: table_in(method, 7),
        }
    }
}

/// Confirms that the exchange exists. `exchange.declare-ok`, class 40, method 11.
pub type DeclareOk = Bare<ExchangeDeclareOk>;

/// Deletes an exchange. `exchange.delete`, class 40, method 20.
#[derive(Debug, Drop, PartialEq, Eq)]
pub struct Delete {
    pub exchange: ShortStr,
    /// Only if nothing is bound to the exchange.
    pub if_unused: bool,
    /// The server sends no reply.
    pub no_wait: bool,
}

impl Delete {
    /// With no bit set.
    pub fn new(exchange: ShortStr) -> Delete
        ensures { delete_call result ≡ call ExchangeDelete
            (short_string exchange ∷ bit false ∷ bit false ∷ []) }
    {
        Delete {
            exchange,
            if_unused: false,
            no_wait: false,
        }
    }
}

impl Typed for Delete {
    ghost KIND = { ExchangeDelete };

    ghost says = { delete_call };

    const KIND: Kind = Kind::ExchangeDelete;

    fn into_method(self, alloc: Global) -> Result<Method, OutOfMemory> {
        method_of(
            alloc,
            Kind::ExchangeDelete,
            [
                Arg::ShortStr(self.exchange),
                Arg::Bit(self.if_unused),
                Arg::Bit(self.no_wait),
            ],
        )
    }

    fn of_method(method: Method) -> Delete {
        let taken = three(own_args(method, Kind::ExchangeDelete));
        Delete {
            exchange: short_str(taken.0),
            if_unused: bit(taken.1),
            no_wait: bit(taken.2),
        }
    }
}

/// [`Delete`], lent by a method.
#[derive(Clone, Copy)]
pub struct DeleteRef<'a> {
    pub exchange: &'a ShortStr,
    pub if_unused: bool,
    pub no_wait: bool,
}

impl<'a> TypedRef<'a> for DeleteRef<'a> {
    type Of = Delete;

    ghost lends = { delete_ref_call };

    fn of_ref(method: &'a Method) -> DeleteRef<'a> {
        DeleteRef {
            exchange: short_str_at(method, 0),
            if_unused: bit_at(method, 1),
            no_wait: bit_at(method, 2),
        }
    }
}

/// [`Delete`], as it lies in its payload.
#[derive(Clone, Copy)]
pub struct DeleteView<'a> {
    pub exchange: &'a [u8],
    pub if_unused: bool,
    pub no_wait: bool,
}

impl<'a> TypedView<'a> for DeleteView<'a> {
    type Of = Delete;

    ghost shows = { delete_view_call };

    fn of_view(method: MethodRef<'a>) -> DeleteView<'a> {
        DeleteView {
            exchange: short_str_in(method, 0),
            if_unused: bit_in(method, 1),
            no_wait: bit_in(method, 2),
        }
    }
}

/// Confirms that the exchange is deleted. `exchange.delete-ok`, class 40, method 21.
pub type DeleteOk = Bare<ExchangeDeleteOk>;

/// Binds an exchange to an exchange. `exchange.bind`, class 40, method 30.
#[derive(Debug, Drop, PartialEq, Eq)]
pub struct Bind {
    /// The exchange that gets the messages.
    pub destination: ShortStr,
    /// The exchange that passes them on.
    pub source: ShortStr,
    pub routing_key: ShortStr,
    /// The server sends no reply.
    pub no_wait: bool,
    pub arguments: Table,
}

impl Bind {
    /// With no bit set and an empty table.
    pub fn new(
        alloc: Global,
        destination: ShortStr,
        source: ShortStr,
        routing_key: ShortStr,
    ) -> Bind
        ensures { bind_call result ≡ call ExchangeBind
            (short_string destination ∷ short_string source ∷ short_string routing_key ∷ bit false
            ∷ table no_pairs ∷ []) }
    {
        Bind {
            destination,
            source,
            routing_key,
            no_wait: false,
            arguments: Table::new(alloc),
        }
    }
}

impl Typed for Bind {
    ghost KIND = { ExchangeBind };

    ghost says = { bind_call };

    const KIND: Kind = Kind::ExchangeBind;

    fn into_method(self, alloc: Global) -> Result<Method, OutOfMemory> {
        method_of(
            alloc,
            Kind::ExchangeBind,
            [
                Arg::ShortStr(self.destination),
                Arg::ShortStr(self.source),
                Arg::ShortStr(self.routing_key),
                Arg::Bit(self.no_wait),
                Arg::Table(self.arguments),
            ],
        )
    }

    fn of_method(method: Method) -> Bind {
        let taken = five(own_args(method, Kind::ExchangeBind));
        Bind {
            destination: short_str(taken.0),
            source: short_str(taken.1),
            routing_key: short_str(taken.2),
            no_wait: bit(taken.3),
            arguments: table(taken.4),
        }
    }
}

/// [`Bind`], lent by a method.
#[derive(Clone, Copy)]
pub struct BindRef<'a> {
    pub destination: &'a ShortStr,
    pub source: &'a ShortStr,
    pub routing_key: &'a ShortStr,
    pub no_wait: bool,
    pub arguments: &'a Table,
}

impl<'a> TypedRef<'a> for BindRef<'a> {
    type Of = Bind;

    ghost lends = { bind_ref_call };

    fn of_ref(method: &'a Method) -> BindRef<'a> {
        BindRef {
            destination: short_str_at(method, 0),
            source: short_str_at(method, 1),
            routing_key: short_str_at(method, 2),
            no_wait: bit_at(method, 3),
            arguments: table_at(method, 4),
        }
    }
}

/// [`Bind`], as it lies in its payload.
#[derive(Clone, Copy)]
pub struct BindView<'a> {
    pub destination: &'a [u8],
    pub source: &'a [u8],
    pub routing_key: &'a [u8],
    pub no_wait: bool,
    pub arguments: TableRef<'a>,
}

impl<'a> TypedView<'a> for BindView<'a> {
    type Of = Bind;

    ghost shows = { bind_view_call };

    fn of_view(method: MethodRef<'a>) -> BindView<'a> {
        BindView {
            destination: short_str_in(method, 0),
            source: short_str_in(method, 1),
            routing_key: short_str_in(method, 2),
            no_wait: bit_in(method, 3),
            arguments: table_in(method, 4),
        }
    }
}

/// Confirms the binding. `exchange.bind-ok`, class 40, method 31.
pub type BindOk = Bare<ExchangeBindOk>;

/// Unbinds an exchange from an exchange. `exchange.unbind`, class 40, method 40.
#[derive(Debug, Drop, PartialEq, Eq)]
pub struct Unbind {
    /// The exchange that got the messages.
    pub destination: ShortStr,
    /// The exchange that passed them on.
    pub source: ShortStr,
    pub routing_key: ShortStr,
    /// The server sends no reply.
    pub no_wait: bool,
    pub arguments: Table,
}

impl Unbind {
    /// With no bit set and an empty table.
    pub fn new(
        alloc: Global,
        destination: ShortStr,
        source: ShortStr,
        routing_key: ShortStr,
    ) -> Unbind
        ensures { unbind_call result ≡ call ExchangeUnbind
            (short_string destination ∷ short_string source ∷ short_string routing_key ∷ bit false
            ∷ table no_pairs ∷ []) }
    {
        Unbind {
            destination,
            source,
            routing_key,
            no_wait: false,
            arguments: Table::new(alloc),
        }
    }
}

impl Typed for Unbind {
    ghost KIND = { ExchangeUnbind };

    ghost says = { unbind_call };

    const KIND: Kind = Kind::ExchangeUnbind;

    fn into_method(self, alloc: Global) -> Result<Method, OutOfMemory> {
        method_of(
            alloc,
            Kind::ExchangeUnbind,
            [
                Arg::ShortStr(self.destination),
                Arg::ShortStr(self.source),
                Arg::ShortStr(self.routing_key),
                Arg::Bit(self.no_wait),
                Arg::Table(self.arguments),
            ],
        )
    }

    fn of_method(method: Method) -> Unbind {
        let taken = five(own_args(method, Kind::ExchangeUnbind));
        Unbind {
            destination: short_str(taken.0),
            source: short_str(taken.1),
            routing_key: short_str(taken.2),
            no_wait: bit(taken.3),
            arguments: table(taken.4),
        }
    }
}

/// [`Unbind`], lent by a method.
#[derive(Clone, Copy)]
pub struct UnbindRef<'a> {
    pub destination: &'a ShortStr,
    pub source: &'a ShortStr,
    pub routing_key: &'a ShortStr,
    pub no_wait: bool,
    pub arguments: &'a Table,
}

impl<'a> TypedRef<'a> for UnbindRef<'a> {
    type Of = Unbind;

    ghost lends = { unbind_ref_call };

    fn of_ref(method: &'a Method) -> UnbindRef<'a> {
        UnbindRef {
            destination: short_str_at(method, 0),
            source: short_str_at(method, 1),
            routing_key: short_str_at(method, 2),
            no_wait: bit_at(method, 3),
            arguments: table_at(method, 4),
        }
    }
}

/// [`Unbind`], as it lies in its payload.
#[derive(Clone, Copy)]
pub struct UnbindView<'a> {
    pub destination: &'a [u8],
    pub source: &'a [u8],
    pub routing_key: &'a [u8],
    pub no_wait: bool,
    pub arguments: TableRef<'a>,
}

impl<'a> TypedView<'a> for UnbindView<'a> {
    type Of = Unbind;

    ghost shows = { unbind_view_call };

    fn of_view(method: MethodRef<'a>) -> UnbindView<'a> {
        UnbindView {
            destination: short_str_in(method, 0),
            source: short_str_in(method, 1),
            routing_key: short_str_in(method, 2),
            no_wait: bit_in(method, 3),
            arguments: table_in(method, 4),
        }
    }
}

/// Confirms that the binding is gone. `exchange.unbind-ok`, class 40, method 51.
pub type UnbindOk = Bare<ExchangeUnbindOk>;

/// A method of the class exchange.
#[derive(Drop)]
pub enum AnyMethod {
    Declare(Declare),
    DeclareOk(DeclareOk),
    Delete(Delete),
    DeleteOk(DeleteOk),
    Bind(Bind),
    BindOk(BindOk),
    Unbind(Unbind),
    UnbindOk(UnbindOk),
}

impl AnyMethod {
    pub fn kind(&self) -> Kind
        ensures { result ≡ (any_call self.now).kind }
    {
        match self {
            AnyMethod::Declare(_) => Kind::ExchangeDeclare,
            AnyMethod::DeclareOk(_) => Kind::ExchangeDeclareOk,
            AnyMethod::Delete(_) => Kind::ExchangeDelete,
            AnyMethod::DeleteOk(_) => Kind::ExchangeDeleteOk,
            AnyMethod::Bind(_) => Kind::ExchangeBind,
            AnyMethod::BindOk(_) => Kind::ExchangeBindOk,
            AnyMethod::Unbind(_) => Kind::ExchangeUnbind,
            AnyMethod::UnbindOk(_) => Kind::ExchangeUnbindOk,
        }
    }

    /// What a method of the class says.
    pub fn from_method(method: Method) -> AnyMethod
        requires { (row (method_view method).kind).class ≡ 40 }
        ensures { any_call result ≡ method_view method }
    {
        match method.kind() {
            Kind::ExchangeDeclare => AnyMethod::Declare(Declare::of_method(method)),
            Kind::ExchangeDeclareOk => AnyMethod::DeclareOk(DeclareOk::of_method(method)),
            Kind::ExchangeDelete => AnyMethod::Delete(Delete::of_method(method)),
            Kind::ExchangeDeleteOk => AnyMethod::DeleteOk(DeleteOk::of_method(method)),
            Kind::ExchangeBind => AnyMethod::Bind(Bind::of_method(method)),
            Kind::ExchangeBindOk => AnyMethod::BindOk(BindOk::of_method(method)),
            Kind::ExchangeUnbind => AnyMethod::Unbind(Unbind::of_method(method)),
            Kind::ExchangeUnbindOk => AnyMethod::UnbindOk(UnbindOk::of_method(method)),
            _ => unreachable!(),
        }
    }

    /// The method with these arguments.
    pub fn into_method(self, alloc: Global) -> Result<Method, OutOfMemory>
        ensures { IfOk result (λ m. method_view m ≡ any_call self) }
    {
        match self {
            AnyMethod::Declare(method) => method.into_method(alloc),
            AnyMethod::DeclareOk(method) => method.into_method(alloc),
            AnyMethod::Delete(method) => method.into_method(alloc),
            AnyMethod::DeleteOk(method) => method.into_method(alloc),
            AnyMethod::Bind(method) => method.into_method(alloc),
            AnyMethod::BindOk(method) => method.into_method(alloc),
            AnyMethod::Unbind(method) => method.into_method(alloc),
            AnyMethod::UnbindOk(method) => method.into_method(alloc),
        }
    }
}

/// Prints what the struct prints.
impl fmt::Debug for AnyMethod {
    fn fmt<W: fmt::Write>(&self, f: &mut fmt::Formatter<W>) -> fmt::Result {
        match self {
            AnyMethod::Declare(method) => fmt::Debug::fmt(method, f),
            AnyMethod::DeclareOk(method) => fmt::Debug::fmt(method, f),
            AnyMethod::Delete(method) => fmt::Debug::fmt(method, f),
            AnyMethod::DeleteOk(method) => fmt::Debug::fmt(method, f),
            AnyMethod::Bind(method) => fmt::Debug::fmt(method, f),
            AnyMethod::BindOk(method) => fmt::Debug::fmt(method, f),
            AnyMethod::Unbind(method) => fmt::Debug::fmt(method, f),
            AnyMethod::UnbindOk(method) => fmt::Debug::fmt(method, f),
        }
    }
}

/// [`AnyMethod`], as it lies in its payload.
#[derive(Clone, Copy)]
pub enum AnyMethodView<'a> {
    Declare(DeclareView<'a>),
    DeclareOk(DeclareOk),
    Delete(DeleteView<'a>),
    DeleteOk(DeleteOk),
    Bind(BindView<'a>),
    BindOk(BindOk),
    Unbind(UnbindView<'a>),
    UnbindOk(UnbindOk),
}

impl<'a> AnyMethodView<'a> {
    pub fn kind(self) -> Kind
        ensures { result ≡ (any_view_call self.entry).kind }
    {
        match self {
            AnyMethodView::Declare(_) => Kind::ExchangeDeclare,
            AnyMethodView::DeclareOk(_) => Kind::ExchangeDeclareOk,
            AnyMethodView::Delete(_) => Kind::ExchangeDelete,
            AnyMethodView::DeleteOk(_) => Kind::ExchangeDeleteOk,
            AnyMethodView::Bind(_) => Kind::ExchangeBind,
            AnyMethodView::BindOk(_) => Kind::ExchangeBindOk,
            AnyMethodView::Unbind(_) => Kind::ExchangeUnbind,
            AnyMethodView::UnbindOk(_) => Kind::ExchangeUnbindOk,
        }
    }

    /// What a method of the class says.
    pub fn from_view(method: MethodRef<'a>) -> AnyMethodView<'a>
        requires { (row (lent_call method).kind).class ≡ 40 }
        ensures { any_view_call result ≡ lent_call method.entry }
    {
        match kind_in(method) {
            Kind::ExchangeDeclare => AnyMethodView::Declare(DeclareView::of_view(method)),
            Kind::ExchangeDeclareOk => AnyMethodView::DeclareOk(DeclareOk::of_view(method)),
            Kind::ExchangeDelete => AnyMethodView::Delete(DeleteView::of_view(method)),
            Kind::ExchangeDeleteOk => AnyMethodView::DeleteOk(DeleteOk::of_view(method)),
            Kind::ExchangeBind => AnyMethodView::Bind(BindView::of_view(method)),
            Kind::ExchangeBindOk => AnyMethodView::BindOk(BindOk::of_view(method)),
            Kind::ExchangeUnbind => AnyMethodView::Unbind(UnbindView::of_view(method)),
            Kind::ExchangeUnbindOk => AnyMethodView::UnbindOk(UnbindOk::of_view(method)),
            _ => unreachable!(),
        }
    }
}
