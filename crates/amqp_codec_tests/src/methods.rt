//! Methods.

mod codes;
mod facts;
mod faults;
mod kinds;
mod large;
mod layouts;
mod memory;
mod misfits;
mod quotes;
mod samples;
mod views;
