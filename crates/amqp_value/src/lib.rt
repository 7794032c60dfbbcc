//! Field values and field tables of AMQP 0-9-1: the grammar of the nineteen tags, read with the first fault
//! that is met, and written in its one plain encoding (AMQP 0-9-1 specification, 4.2.1 and 4.2.5).
#![tactic(auto)]

mod array_ref;
mod check;
mod display;
mod display_ref;
mod fault;
mod fields;
mod from;
mod items_ref;
mod laws;
mod length;
mod octets;
mod one_walk;
mod own;
mod pairs_ref;
mod queries;
mod read;
mod same;
mod short_str;
mod split;
mod table_ref;
mod tables;
mod tag;
mod text;
mod value_ref;
mod values;
mod write;

pub use array_ref::ArrayRef;
pub use check::check_table;
pub use display::{write_hexadecimal, write_quoted};
pub use fault::{OutOfMemory, ValueFault, ValueFaultKind};
pub use items_ref::ItemsRef;
pub use laws::{one_table, one_value};
pub use octets::Octets;
pub use pairs_ref::PairsRef;
pub use read::read_table;
pub use short_str::ShortStr;
pub use table_ref::TableRef;
pub use tables::{MAX_DEPTH, Table};
pub use text::{table_text, text_of};
pub use value_ref::ValueRef;
pub use values::Value;
pub use write::write_table;
