//! A method with its arguments.
ghost use Rattle.std.specs.Prelude.{◌≡◌, ◌↔◌, IsTrue, MatchOption};
ghost use Rattle.amqp_method.specs.Arguments.{call, Fits, FirstMisfit};
ghost use Rattle.amqp_method.specs.Kinds.{fields_of};
ghost use Rattle.amqp_method.specs.Views.{args_view};

use crate::faults::OutOfMemory;
use crate::fields::{Arg, copy_args, drop_args_apart};
use crate::kind_word::KindWord;
use crate::kinds::{Kind, schema};
use crate::lengths::args_length;
use crate::table::Row;
use std::alloc::Global;
use thiserror::Error;

/// Arguments that are not, in number, order and kind, those of a method's fields that aren't reserved.
#[derive(Debug, Drop, PartialEq, Eq, Error)]
#[error("argument {place} doesn't fit the method")]
pub struct Misfit {
    /// The place of the first that doesn't fit, from 0: of one that lacks, is over, or is of another kind.
    pub place: usize,
    /// The arguments, all of them.
    pub args: Vec<Arg>,
}

/// A method with its arguments, which fit it.
#[derive(Debug, PartialEq, Eq)]
pub struct Method {
    kind: KindWord,
    args: Vec<Arg>,
    pub ghost fit: { Fits (call kind (args_view args.items)) },
}

/// Written out, so that only those arguments are dropped that hold memory.
impl Drop for Method {
    #[inline(always)]
    fn drop(self) {
        let Method { kind: _, args } = self;
        drop_args_apart(args);
    }
}

/// The place of the first argument that doesn't fit, if not all do.
fn first_misfit(kind: Kind, args: &[Arg]) -> Option<usize>
    ensures { MatchOption result (Fits (call kind (args_view args.now)))
        (λ place. FirstMisfit (fields_of kind) (args_view args.now) place) }
{
    let mut place = 0;
    let mut rest = args;
    for field in schema(kind) {
        if !field.reserved {
            let Some((arg, others)) = rest.split_first() else {
                return Some(place);
            };
            if !arg.kind().is(field.kind) {
                return Some(place);
            }
            place += 1;
            rest = others;
        }
    }
    if rest.is_empty() { None } else { Some(place) }
}

/// Whether the arguments are, in number, order and kind, those of the method's fields that aren't reserved.
pub fn fits(kind: Kind, args: &[Arg]) -> bool
    ensures { IsTrue result ↔ Fits (call kind (args_view args.now)) }
{
    first_misfit(kind, args).is_none()
}

impl Method {
    ghost use Rattle.std.specs.Prelude.{length, IsOk, IfOk, IfErr};
    ghost use Rattle.amqp_value.specs.Lengths.{capped};
    ghost use Rattle.amqp_method.specs.MethodView.{method_view};
    ghost use Rattle.amqp_method.specs.Kinds.{class_of, has_content, sends};
    ghost use Rattle.amqp_method.specs.Methods.{row};
    ghost use Rattle.amqp_method.specs.Plain.{plain_method};
    ghost use Rattle.amqp_method.specs.Rows.{row_view};

    /// The method with these arguments. [`fits`] tells whether they fit.
    pub fn new(kind: Kind, args: Vec<Arg>) -> Method
        requires { Fits (call kind (args_view args.items)) }
        ensures { method_view result ≡ call kind (args_view args.items) }
    {
        Method {
            kind: KindWord::new(kind),
            args,
        }
    }

    /// The method with these arguments, if they fit it. Otherwise they are given back, with the place of the first that
    /// doesn't.
    pub fn try_new(kind: Kind, args: Vec<Arg>) -> Result<Method, Misfit>
        ensures ok { IfOk result (λ m. method_view m ≡ call kind (args_view args.items)) }
        ensures fits { IsOk result ↔ Fits (call kind (args_view args.items)) }
        ensures place { IfErr result (λ m. FirstMisfit (fields_of kind) (args_view args.items) m.place) }
        ensures back { IfErr result (λ m. m.args.items ≡ args.items) }
    {
        if let Some(place) = first_misfit(kind, &args) {
            return Err(Misfit { place, args });
        }
        Ok(Method::new(kind, args))
    }

    pub fn kind(&self) -> Kind
        ensures { result ≡ (method_view self.now).kind }
    {
        self.kind.kind()
    }

    /// What the table says of its kind.
    pub(crate) fn row(&self) -> &'static Row
        ensures { row_view result.now ≡ row (method_view self.now).kind }
    {
        self.kind.row()
    }

    /// The class id.
    pub fn class_id(&self) -> u16
        ensures { result ≡ class_of (method_view self.now).kind }
    {
        self.row().class
    }

    /// Whether a content header and a content body follow.
    pub fn has_content(&self) -> bool
        ensures { result ≡ has_content (method_view self.now).kind }
    {
        self.row().content
    }

    /// Whether the client sends the method, or the server.
    pub fn is_sent_by(&self, client: bool) -> bool
        ensures { result ≡ sends client (method_view self.now).kind }
    {
        self.row().sender.permits(client)
    }

    /// The arguments: one for each field of the [`schema`] that isn't reserved, in order.
    pub fn args(&self) -> &[Arg]
        ensures args { args_view result.now ≡ (method_view self.now).args }
        ensures fit { Fits (method_view self.now) }
    {
        self.args.as_slice()
    }

    /// The arguments, out of the method.
    pub fn into_args(self) -> Vec<Arg>
        ensures { args_view result.items ≡ (method_view self).args }
    {
        let Method { kind: _, args } = self;
        args
    }

    /// The kind and the arguments, out of the method.
    pub fn into_parts(self) -> (Kind, Vec<Arg>)
        ensures { call result.0 (args_view result.1.items) ≡ method_view self }
    {
        let Method { kind, args } = self;
        (kind.kind(), args)
    }

    /// How many octets [`write_method`](crate::write_method) writes of the method. `u64::MAX` stands for every number
    /// from there on, which no method in memory reaches.
    pub fn payload_length(&self) -> u64
        ensures { result ≡ capped (length (plain_method (method_view self.now))) }
    {
        4_u64.saturating_add(args_length(self.row().fields, &self.args))
    }

    /// The allocator of the arguments.
    pub(crate) fn allocator(&self) -> Global {
        *self.args.allocator()
    }

    /// An equal method.
    pub fn copy(&self) -> Result<Method, OutOfMemory>
        ensures { IfOk result (λ m. method_view m ≡ method_view self.now) }
    {
        let args = copy_args(&self.args)?;
        Ok(Method {
            kind: self.kind.copy(),
            args,
        })
    }
}
