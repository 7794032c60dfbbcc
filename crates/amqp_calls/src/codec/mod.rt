//! Methods, content headers and tables, read and written without a handle.

pub mod headers;
pub mod lent;
pub mod methods;
pub mod owned;
pub mod statuses;
pub mod tables;
pub mod values;
pub mod writing;
pub mod written_headers;
pub mod written_methods;
pub mod written_tables;
