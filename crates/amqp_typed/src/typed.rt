//! What the structs of all methods have in common: of which kind they are, and how methods are made of them and read.
ghost use Rattle.std.specs.Prelude.{◌≡◌, ◌↔◌, IfOk, IfErr, IfSome, IsOk, IsSome};
ghost use Rattle.amqp_method.specs.Arguments.{Fits};
ghost use Rattle.amqp_method.specs.MethodRefView.{lent_call};
ghost use Rattle.amqp_method.specs.MethodView.{method_view};

use crate::args::is_kind;
use crate::views::is_view_of;
use amqp_method::{Kind, Method, MethodRef, OutOfMemory};
use std::alloc::Global;

/// A struct that owns the arguments of a method of one kind.
pub trait Typed: Sized {
    ghost use Rattle.amqp_method.specs.Arguments.{Call};
    ghost use Rattle.amqp_method.specs.declared.kinds.Kind.{Kind};

    ghost KIND: { Kind };

    // the call that the struct stands for; so are `lends` and `shows` below
    ghost says: { Self → Call };

    /// The kind of the method.
    const KIND: Kind;

    /// The method with these arguments.
    fn into_method(self, alloc: Global) -> Result<Method, OutOfMemory>
        ensures { IfOk result (λ m. method_view m ≡ says self) };

    /// What a method of this kind says. Nothing is copied.
    fn of_method(method: Method) -> Self
        requires { (method_view method).kind ≡ KIND }
        ensures { says result ≡ method_view method };

    /// What the method says, or the method as it was if it is another.
    final fn from_method(method: Method) -> Result<Self, Method>
        ensures args { IfOk result (λ m. says m ≡ method_view method) }
        ensures when { IsOk result ↔ ((method_view method).kind ≡ KIND) }
        ensures same { IfErr result (λ m. method_view m ≡ method_view method) }
    {
        if is_kind(&method, Self::KIND) {
            return Ok(Self::of_method(method));
        }
        Err(method)
    }
}

/// A struct whose fields are lent by a method. Takes no memory.
pub trait TypedRef<'a>: Sized {
    ghost use Rattle.amqp_method.specs.Arguments.{Call};

    /// The struct that owns such fields.
    type Of: Typed;

    ghost lends: { Self → Call };

    /// What a method of this kind says.
    fn of_ref(method: &'a Method) -> Self
        requires { (method_view method.now).kind ≡ Self.Of.KIND }
        ensures { lends result ≡ method_view method.now };

    /// What the method says, if it is this one.
    final fn from_ref(method: &'a Method) -> Option<Self>
        ensures args { IfSome result (λ m. lends m ≡ method_view method.now) }
        ensures when { IsSome result ↔ ((method_view method.now).kind ≡ Self.Of.KIND) }
    {
        if is_kind(method, Self::Of::KIND) {
            return Some(Self::of_ref(method));
        }
        None
    }
}

/// A struct whose fields lie in the payload of a method. Takes no memory.
pub trait TypedView<'a>: Sized {
    ghost use Rattle.amqp_method.specs.Arguments.{Call};

    /// The struct that owns such fields.
    type Of: Typed;

    ghost shows: { Self → Call };

    /// What a method of this kind says.
    fn of_view(method: MethodRef<'a>) -> Self
        requires { Fits (lent_call method) × ((lent_call method).kind ≡ Self.Of.KIND) }
        ensures { shows result ≡ lent_call method.entry };

    /// What the method says, if it is this one.
    final fn from_view(method: MethodRef<'a>) -> Option<Self>
        ensures args { IfSome result (λ m. shows m ≡ lent_call method.entry) }
        ensures when { IsSome result ↔ ((lent_call method.entry).kind ≡ Self.Of.KIND) }
    {
        if is_view_of(method, Self::Of::KIND) {
            return Some(Self::of_view(method));
        }
        None
    }
}
