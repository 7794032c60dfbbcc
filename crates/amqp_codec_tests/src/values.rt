//! Short strings, values and tables.

mod entries;
mod faults;
mod large;
mod memory;
mod numbers;
mod tables;
mod texts;
mod variants;
mod views;
