//! The methods of the class confirm (`amqp0-9-1.xml`, class 85).
// Written by `tools/typed_methods.py` from the table of methods in `docs/PROTOCOL.md`: change those and run it again.
ghost use Rattle.std.specs.Prelude.{◌≡◌, IfOk, false, ◌∷◌, []};
ghost use Rattle.amqp_method.specs.Arguments.{call, bit};
ghost use Rattle.amqp_method.specs.MethodRefView.{lent_call};
ghost use Rattle.amqp_method.specs.MethodView.{method_view};
ghost use Rattle.amqp_method.specs.Methods.{row};
ghost use Rattle.amqp_method.specs.declared.kinds.Kind.TheVariants.{ConfirmSelect};
ghost use Rattle.amqp_typed.specs.Confirm.{select_call, any_call};

use crate::args::{bit_at, method_of};
use crate::bare::Bare;
use crate::bare_kinds::ConfirmSelectOk;
use crate::typed::{Typed, TypedRef, TypedView};
use crate::views::{bit_in, kind_in};
use amqp_method::{Arg, Kind, Method, MethodRef, OutOfMemory};
use std::alloc::Global;
use std::fmt;

/// Asks the server to confirm what is published on the channel. `confirm.select`, class 85, method 10.
#[derive(Clone, Copy, PartialEq, Eq, Debug)]
pub struct Select {
    /// The server sends no reply.
    pub no_wait: bool,
}

impl Select {
    /// With no bit set.
    pub fn new() -> Select
        ensures { select_call result ≡ call ConfirmSelect (bit false ∷ []) }
    {
        Select { no_wait: false }
    }
}

impl Typed for Select {
    ghost KIND = { ConfirmSelect };

    ghost says = { select_call };

    const KIND: Kind = Kind::ConfirmSelect;

    fn into_method(self, alloc: Global) -> Result<Method, OutOfMemory> {
        method_of(alloc, Kind::ConfirmSelect, [Arg::Bit(self.no_wait)])
    }

    fn of_method(method: Method) -> Select {
        Select::of_ref(&method)
    }
}

impl<'a> TypedRef<'a> for Select {
    type Of = Select;

    ghost lends = { select_call };

    fn of_ref(method: &'a Method) -> Select {
        Select {
            no_wait: bit_at(method, 0),
        }
    }
}

impl<'a> TypedView<'a> for Select {
    type Of = Select;

    ghost shows = { select_call };

    fn of_view(method: MethodRef<'a>) -> Select {
        Select {
            no_wait: bit_in(method, 0),
        }
    }
}

/// Confirms that the channel uses confirms. `confirm.select-ok`, class 85, method 11.
pub type SelectOk = Bare<ConfirmSelectOk>;

/// A method of the class confirm.
#[derive(Clone, Copy)]
pub enum AnyMethod {
    Select(Select),
    SelectOk(SelectOk),
}

impl AnyMethod {
    pub fn kind(&self) -> Kind
        ensures { result ≡ (any_call self.now).kind }
    {
        match self {
            AnyMethod::Select(_) => Kind::ConfirmSelect,
            AnyMethod::SelectOk(_) => Kind::ConfirmSelectOk,
        }
    }

    /// What a method of the class says.
    pub fn from_method(method: Method) -> AnyMethod
        requires { (row (method_view method).kind).class ≡ 85 }
        ensures { any_call result ≡ method_view method }
    {
        match method.kind() {
            Kind::ConfirmSelect => AnyMethod::Select(Select::of_method(method)),
            Kind::ConfirmSelectOk => AnyMethod::SelectOk(SelectOk::of_method(method)),
            _ => unreachable!(),
        }
    }

    /// The method with these arguments.
    pub fn into_method(self, alloc: Global) -> Result<Method, OutOfMemory>
        ensures { IfOk result (λ m. method_view m ≡ any_call self) }
    {
        match self {
            AnyMethod::Select(method) => method.into_method(alloc),
            AnyMethod::SelectOk(method) => method.into_method(alloc),
        }
    }

    /// What a method of the class says.
    pub fn from_view(method: MethodRef<'_>) -> AnyMethod
        requires { (row (lent_call method).kind).class ≡ 85 }
        ensures { any_call result ≡ lent_call method.entry }
    {
        match kind_in(method) {
            Kind::ConfirmSelect => AnyMethod::Select(Select::of_view(method)),
            Kind::ConfirmSelectOk => AnyMethod::SelectOk(SelectOk::of_view(method)),
            _ => unreachable!(),
        }
    }
}

/// Prints what the struct prints.
impl fmt::Debug for AnyMethod {
    fn fmt<W: fmt::Write>(&self, f: &mut fmt::Formatter<W>) -> fmt::Result {
        match self {
            AnyMethod::Select(method) => fmt::Debug::fmt(method, f),
            AnyMethod::SelectOk(method) => fmt::Debug::fmt(method, f),
        }
    }
}
