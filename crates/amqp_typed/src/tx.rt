//! The methods of the class tx (`amqp0-9-1.xml`, class 90).
// Written by `tools/typed_methods.py` from the table of methods in `docs/PROTOCOL.md`: change those and run it again.
ghost use Rattle.std.specs.Prelude.{◌≡◌, IfOk};
ghost use Rattle.amqp_method.specs.MethodRefView.{lent_call};
ghost use Rattle.amqp_method.specs.MethodView.{method_view};
ghost use Rattle.amqp_method.specs.Methods.{row};
ghost use Rattle.amqp_typed.specs.Tx.{any_call};

use crate::bare::Bare;
use crate::bare_kinds::{TxCommit, TxCommitOk, TxRollback, TxRollbackOk, TxSelect, TxSelectOk};
use crate::typed::{Typed, TypedView};
use crate::views::kind_in;
use amqp_method::{Kind, Method, MethodRef, OutOfMemory};
use std::alloc::Global;
use std::fmt;

/// Puts the channel into transactions. `tx.select`, class 90, method 10.
pub type Select = Bare<TxSelect>;

/// Confirms that the channel uses transactions. `tx.select-ok`, class 90, method 11.
pub type SelectOk = Bare<TxSelectOk>;

/// Commits the transaction, and begins the next. `tx.commit`, class 90, method 20.
pub type Commit = Bare<TxCommit>;

/// Confirms the commit. `tx.commit-ok`, class 90, method 21.
pub type CommitOk = Bare<TxCommitOk>;

/// Rolls the transaction back, and begins the next. `tx.rollback`, class 90, method 30.
pub type Rollback = Bare<TxRollback>;

/// Confirms the rollback. `tx.rollback-ok`, class 90, method 31.
pub type RollbackOk = Bare<TxRollbackOk>;

/// A method of the class tx.
#[derive(Clone, Copy)]
pub enum AnyMethod {
    Select(Select),
    SelectOk(SelectOk),
    Commit(Commit),
    CommitOk(CommitOk),
    Rollback(Rollback),
    RollbackOk(RollbackOk),
}

impl AnyMethod {
    pub fn kind(&self) -> Kind
        ensures { result ≡ (any_call self.now).kind }
    {
        match self {
            AnyMethod::Select(_) => Kind::TxSelect,
            AnyMethod::SelectOk(_) => Kind::TxSelectOk,
            AnyMethod::Commit(_) => Kind::TxCommit,
            AnyMethod::CommitOk(_) => Kind::TxCommitOk,
            AnyMethod::Rollback(_) => Kind::TxRollback,
            AnyMethod::RollbackOk(_) => Kind::TxRollbackOk,
        }
    }

    /// What a method of the class says.
    pub fn from_method(method: Method) -> AnyMethod
        requires { (row (method_view method).kind).class ≡ 90 }
        ensures { any_call result ≡ method_view method }
    {
        match method.kind() {
            Kind::TxSelect => AnyMethod::Select(Select::of_method(method)),
            Kind::TxSelectOk => AnyMethod::SelectOk(SelectOk::of_method(method)),
            Kind::TxCommit => AnyMethod::Commit(Commit::of_method(method)),
            Kind::TxCommitOk => AnyMethod::CommitOk(CommitOk::of_method(method)),
            Kind::TxRollback => AnyMethod::Rollback(Rollback::of_method(method)),
            Kind::TxRollbackOk => AnyMethod::RollbackOk(RollbackOk::of_method(method)),
            _ => unreachable!(),
        }
    }

    /// The method with these arguments.
    pub fn into_method(self, alloc: Global) -> Result<Method, OutOfMemory>
        ensures { IfOk result (λ m. method_view m ≡ any_call self) }
    {
        match self {
            AnyMethod::Select(method) => method.into_method(alloc),
            AnyMethod::SelectOk(method) => method.into_method(alloc),
            AnyMethod::Commit(method) => method.into_method(alloc),
            AnyMethod::CommitOk(method) => method.into_method(alloc),
            AnyMethod::Rollback(method) => method.into_method(alloc),
            AnyMethod::RollbackOk(method) => method.into_method(alloc),
        }
    }

    /// What a method of the class says.
    pub fn from_view(method: MethodRef<'_>) -> AnyMethod
        requires { (row (lent_call method).kind).class ≡ 90 }
        ensures { any_call result ≡ lent_call method.entry }
    {
        match kind_in(method) {
            Kind::TxSelect => AnyMethod::Select(Select::of_view(method)),
            Kind::TxSelectOk => AnyMethod::SelectOk(SelectOk::of_view(method)),
            Kind::TxCommit => AnyMethod::Commit(Commit::of_view(method)),
            Kind::TxCommitOk => AnyMethod::CommitOk(CommitOk::of_view(method)),
            Kind::TxRollback => AnyMethod::Rollback(Rollback::of_view(method)),
            Kind::TxRollbackOk => AnyMethod::RollbackOk(RollbackOk::of_view(method)),
            _ => unreachable!(),
        }
    }
}

/// Prints what the struct prints.
impl fmt::Debug for AnyMethod {
    fn fmt<W: fmt::Write>(&self, f: &mut fmt::Formatter<W>) -> fmt::Result {
        write!(f, "{}", self.kind())
    }
}
