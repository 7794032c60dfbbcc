//! The methods of AMQP 0-9-1 by name: a module for each class, and in it a struct for each method, with the fields of
//! `amqp0-9-1.xml` under their names in snake case. The field `type` is `type_name`. A reserved field doesn't exist.
//!
//! - `new` takes the fields that have no default. The defaults: a bit is false, but that a flow's `active` is given; a
//!   table is empty; a close's `class_id` and `method_id`, and `prefetch_size`, are 0; a start's version is 0-9. Other
//!   numbers and all strings are given.
//! - `into_method` makes the [`Method`](amqp_method::Method) with these arguments, in the order of the table, and
//!   `from_method` takes a method apart, without a copy, or gives back one of another kind: the trait [`Typed`].
//! - `basic::DeliverRef` and its like are lent by a method, and take no memory. They are read by `from_ref`, of
//!   [`TypedRef`].
//! - `basic::DeliverView` and its like lie in the payload of a [`MethodRef`](amqp_method::MethodRef): strings are lent
//!   as octets, tables as [`TableRef`](amqp_value::TableRef). They are read by `from_view`, of [`TypedView`].
//! - A struct of numbers and bits alone, as [`basic::Ack`], is read in all three ways itself.
//! - The methods without arguments are one struct, [`Bare`], with a type for each kind: [`tx::Select`] is one of these.
//! - [`AnyMethod`] is a method of any kind, for a `match` over all of them: an enum of the classes, each an enum of its
//!   methods, as in `AnyMethod::Basic(basic::AnyMethod::Ack(ack))`. [`AnyMethodView`] is one in its payload.
//! - The four methods that a content follows have `message`, which makes the message with its properties and its body.
//!
//! The definitions of `specs/` give the call that each struct stands for: what the functions are proved to make and to
//! read.
#![tactic(auto)]

mod any_method;
mod args;
mod bare;
mod bare_kinds;
pub mod basic;
mod capabilities;
pub mod channel;
pub mod confirm;
pub mod connection;
mod contents;
pub mod delivery_mode;
pub mod exchange;
pub mod queue;
pub mod tx;
mod typed;
mod views;

pub use crate::any_method::{AnyMethod, AnyMethodView};
pub use crate::bare::{Bare, BareKind};
pub use crate::typed::{Typed, TypedRef, TypedView};
