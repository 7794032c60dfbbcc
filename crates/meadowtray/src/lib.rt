//! The library as C programs call it.
//!
//! The functions for a handle take its slot, numbers and octets; those for octets alone, the codec, take no handle,
//! and keep nothing. Each answers a status: 0, or the number of a fault. What they do stands in `amqp_calls`; here an
//! open handle is asked for, and the kind of what it holds. The functions that C programs see stand in `embed/c`; they
//! refuse null pointers and call these.
#![tactic(auto)]

mod codec;
mod contents;
mod ends;
mod handles;
mod splitting;
