//! Methods, content headers and messages of AMQP 0-9-1 (`amqp0-9-1.xml`, and the specification, sections 2.3.5 and
//! 4.2).
//!
//! A method payload is the class id and the method id, 16 bits each, and the arguments in order: numbers of 1, 2, 4 and
//! 8 octets, short and long strings, field tables, and bits, of which a run shares octets, the lowest bit first. A
//! content header payload is the class id 60, the weight 0, the size of the body in 64 bits, the flags in 16, and the
//! properties whose flags are set. Numbers are big-endian.
//!
//! [`read_method`] and [`read_header`] make values that own what they hold. [`MethodRef`] and [`HeaderRef`] see the
//! same in the payload, where it lies, and take no memory; [`check_method`] and [`check_header`] only look for a fault.
//!
//! The definitions of `specs/` say what the functions are proved to do: `Methods` is the table of the methods,
//! `Encoding` and `Properties` have which octets encode a method and a header, `Plain` the one encoding that is
//! written, `FirstFault` the first field that can't be read, with its place, and `Reading` and `HeaderReading` reading
//! as functions of octets.
#![tactic(auto)]

mod arg_ref;
mod args_ref;
mod begun;
mod bit_run;
mod checker;
mod contents;
mod display;
mod display_ref;
mod faults;
mod field_octets;
mod fields;
mod header_checker;
mod header_octets;
mod header_ref;
mod header_start;
mod headers;
mod ids;
mod kind_word;
mod kinds;
mod laws;
mod lengths;
mod maybe_boxed;
mod messages;
mod method_octets;
mod method_ref;
mod methods;
mod one_walk;
mod own;
mod own_header;
mod places;
mod places_ref;
mod properties;
pub mod reply;
mod requests;
mod same;
mod table;
mod texts;
mod with_properties;
mod writing;

pub use crate::arg_ref::ArgRef;
pub use crate::args_ref::ArgsRef;
pub use crate::begun::Begun;
pub use crate::checker::check_method;
pub use crate::contents::{Carrier, Content};
pub use crate::faults::{MethodFault, MethodFaultKind, OutOfMemory};
pub use crate::fields::{Arg, Field, FieldKind};
pub use crate::header_checker::check_header;
pub use crate::header_octets::{read_header, read_header_into, write_header, write_header_parts};
pub use crate::header_ref::HeaderRef;
pub use crate::headers::{Header, Properties};
pub use crate::ids::peek_kind;
pub use crate::kinds::{Kind, schema, sends};
pub use crate::laws::{
    content_kinds, distinct_ids, each_is_sent, encoded_is_read, one_header, one_method,
    only_client_opens, plain_is_encoded, wanted_replies,
};
pub use crate::messages::Message;
pub use crate::method_octets::{read_method, write_method};
pub use crate::method_ref::MethodRef;
pub use crate::methods::{Method, Misfit, fits};
pub use crate::one_walk::read_headers;
pub use crate::texts::{header_text, method_text};
