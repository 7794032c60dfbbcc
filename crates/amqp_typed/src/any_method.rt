//! Every method, by its class.
// Written by `tools/typed_methods.py` from the table of methods in `docs/PROTOCOL.md`: change those and run it again.
ghost use Rattle.std.specs.Prelude.{◌≡◌, IfOk};
ghost use Rattle.amqp_method.specs.MethodRefView.{lent_call};
ghost use Rattle.amqp_method.specs.MethodView.{method_view};
ghost use Rattle.amqp_typed.specs.AnyMethod.{any_call, any_view_call};

use crate::{basic, channel, confirm, connection, exchange, queue, tx};
use amqp_method::{Kind, Method, MethodRef, OutOfMemory};
use std::alloc::Global;
use std::fmt;

/// A method of any kind, by its class.
#[derive(Drop)]
pub enum AnyMethod {
    Connection(connection::AnyMethod),
    Channel(channel::AnyMethod),
    Exchange(exchange::AnyMethod),
    Queue(queue::AnyMethod),
    Basic(basic::AnyMethod),
    Tx(tx::AnyMethod),
    Confirm(confirm::AnyMethod),
}

impl AnyMethod {
    pub fn kind(&self) -> Kind
        ensures { result ≡ (any_call self.now).kind }
    {
        match self {
            AnyMethod::Connection(method) => method.kind(),
            AnyMethod::Channel(method) => method.kind(),
            AnyMethod::Exchange(method) => method.kind(),
            AnyMethod::Queue(method) => method.kind(),
            AnyMethod::Basic(method) => method.kind(),
            AnyMethod::Tx(method) => method.kind(),
            AnyMethod::Confirm(method) => method.kind(),
        }
    }

    /// What a method says.
    pub fn from_method(method: Method) -> AnyMethod
        ensures { any_call result ≡ method_view method }
    {
        match method.kind().class_id() {
            10 => AnyMethod::Connection(connection::AnyMethod::from_method(method)),
            20 => AnyMethod::Channel(channel::AnyMethod::from_method(method)),
            40 => AnyMethod::Exchange(exchange::AnyMethod::from_method(method)),
            50 => AnyMethod::Queue(queue::AnyMethod::from_method(method)),
            60 => AnyMethod::Basic(basic::AnyMethod::from_method(method)),
            90 => AnyMethod::Tx(tx::AnyMethod::from_method(method)),
            _ => AnyMethod::Confirm(confirm::AnyMethod::from_method(method)),
        }
    }

    /// The method with these arguments.
    pub fn into_method(self, alloc: Global) -> Result<Method, OutOfMemory>
        ensures { IfOk result (λ m. method_view m ≡ any_call self) }
    {
        match self {
            AnyMethod::Connection(method) => method.into_method(alloc),
            AnyMethod::Channel(method) => method.into_method(alloc),
            AnyMethod::Exchange(method) => method.into_method(alloc),
            AnyMethod::Queue(method) => method.into_method(alloc),
            AnyMethod::Basic(method) => method.into_method(alloc),
            AnyMethod::Tx(method) => method.into_method(alloc),
            AnyMethod::Confirm(method) => method.into_method(alloc),
        }
    }
}

fn write_struct<W: fmt::Write>(f: &mut fmt::Formatter<W>, method: &AnyMethod) -> fmt::Result {
    match method {
        AnyMethod::Connection(method) => fmt::Debug::fmt(method, f),
        AnyMethod::Channel(method) => fmt::Debug::fmt(method, f),
        AnyMethod::Exchange(method) => fmt::Debug::fmt(method, f),
        AnyMethod::Queue(method) => fmt::Debug::fmt(method, f),
        AnyMethod::Basic(method) => fmt::Debug::fmt(method, f),
        AnyMethod::Tx(method) => fmt::Debug::fmt(method, f),
        AnyMethod::Confirm(method) => fmt::Debug::fmt(method, f),
    }
}

/// Prints the kind, and in parentheses what the struct prints.
impl fmt::Debug for AnyMethod {
    fn fmt<W: fmt::Write>(&self, f: &mut fmt::Formatter<W>) -> fmt::Result {
        let kind = self.kind();
        write!(f, "{kind:?}(")?;
        write_struct(f, self)?;
        f.write_str(")")
    }
}

/// [`AnyMethod`], as it lies in its payload.
#[derive(Clone, Copy)]
pub enum AnyMethodView<'a> {
    Connection(connection::AnyMethodView<'a>),
    Channel(channel::AnyMethodView<'a>),
    Exchange(exchange::AnyMethodView<'a>),
    Queue(queue::AnyMethodView<'a>),
    Basic(basic::AnyMethodView<'a>),
    Tx(tx::AnyMethod),
    Confirm(confirm::AnyMethod),
}

impl<'a> AnyMethodView<'a> {
    pub fn kind(self) -> Kind
        ensures { result ≡ (any_view_call self.entry).kind }
    {
        match self {
            AnyMethodView::Connection(method) => method.kind(),
            AnyMethodView::Channel(method) => method.kind(),
            AnyMethodView::Exchange(method) => method.kind(),
            AnyMethodView::Queue(method) => method.kind(),
            AnyMethodView::Basic(method) => method.kind(),
            AnyMethodView::Tx(method) => method.kind(),
            AnyMethodView::Confirm(method) => method.kind(),
        }
    }

    /// What a method says.
    pub fn from_view(method: MethodRef<'a>) -> AnyMethodView<'a>
        ensures { any_view_call result ≡ lent_call method.entry }
    {
        match method.class_id() {
            10 => AnyMethodView::Connection(connection::AnyMethodView::from_view(method)),
            20 => AnyMethodView::Channel(channel::AnyMethodView::from_view(method)),
            40 => AnyMethodView::Exchange(exchange::AnyMethodView::from_view(method)),
            50 => AnyMethodView::Queue(queue::AnyMethodView::from_view(method)),
            60 => AnyMethodView::Basic(basic::AnyMethodView::from_view(method)),
            90 => AnyMethodView::Tx(tx::AnyMethod::from_view(method)),
            _ => AnyMethodView::Confirm(confirm::AnyMethod::from_view(method)),
        }
    }
}
