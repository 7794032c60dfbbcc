//! Content headers, and messages.

mod layouts;
mod messages;
mod properties;
mod views;
