//! Methods without arguments.
ghost use Rattle.std.specs.Prelude.{◌≡◌, IsOkAnd, true, []};
ghost use Rattle.std.specs.Cmp.Rules.{comparing};
ghost use Rattle.std.proofs.Common.{rules};
ghost use Rattle.amqp_method.specs.Arguments.{call, wanted};
ghost use Rattle.amqp_method.specs.Kinds.{fields_of};
ghost use Rattle.amqp_method.specs.MethodView.{method_view};

use crate::args::bare_method;
use crate::typed::{Typed, TypedRef, TypedView};
use amqp_method::{Kind, Method, MethodRef, OutOfMemory};
use std::alloc::Global;
use std::fmt;
use std::marker::PhantomData;

/// The kind of a method without arguments, as a type of its own.
pub trait BareKind {
    ghost use Rattle.amqp_method.specs.declared.kinds.Kind.{Kind};

    ghost KIND: { Kind };

    const KIND: Kind;

    ghost bare: { wanted (fields_of KIND) ≡ [] };
}

/// A method without arguments, such as [`tx::Select`](crate::tx::Select).
#[derive(Clone, Copy)]
pub struct Bare<K> {
    kind: PhantomData<K>,
}

impl<K: BareKind> Bare<K> {
    pub fn new() -> Bare<K> {
        Bare { kind: PhantomData }
    }
}

impl<K: BareKind> Typed for Bare<K> {
    ghost KIND = { K.KIND };

    ghost says = { λ _. call K.KIND [] };

    const KIND: Kind = K::KIND;

    /// The method, which takes no memory.
    fn into_method(self, alloc: Global) -> Result<Method, OutOfMemory>
        ensures { IsOkAnd result (λ m. method_view m ≡ call K.KIND []) }
    {
        Ok(bare_method(alloc, K::KIND))
    }

    fn of_method(_method: Method) -> Bare<K> {
        Bare::new()
    }
}

impl<'a, K: BareKind> TypedRef<'a> for Bare<K> {
    type Of = Bare<K>;

    ghost lends = { λ _. call K.KIND [] };

    fn of_ref(_method: &'a Method) -> Bare<K> {
        Bare::new()
    }
}

impl<'a, K: BareKind> TypedView<'a> for Bare<K> {
    type Of = Bare<K>;

    ghost shows = { λ _. call K.KIND [] };

    fn of_view(_method: MethodRef<'a>) -> Bare<K> {
        Bare::new()
    }
}

/// Two of one type are equal.
impl<K> PartialEq for Bare<K> {
    ghost eq = { λ _ _. true };

    ghost laws = { Prim.search (comparing, rules) };

    fn eq(&self, _other: &Self) -> bool {
        true
    }
}

impl<K> Eq for Bare<K> {
    ghost laws = { Prim.search (comparing, rules) };
}

/// Prints the method's name, as in `tx.select`.
impl<K: BareKind> fmt::Debug for Bare<K> {
    fn fmt<W: fmt::Write>(&self, f: &mut fmt::Formatter<W>) -> fmt::Result {
        write!(f, "{}", K::KIND)
    }
}
