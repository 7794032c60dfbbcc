//! Tests of `amqp_io`'s public calls: streams in memory and over TCP, sessions over streams that move octets in small
//! parts, fail or end, two sessions that talk to each other, memory that is refused, and the texts of faults. The
//! octets are written from the profile's tables (`docs/PROTOCOL.md`), and not from what the crates write.
//!
//! Most tests are data: steps, a line each, with the answer that is wanted (`scripts`, `streams`, `sessions`).
#![tactic(auto)]

#[cfg(test)]
mod asks;
#[cfg(test)]
mod connections;
#[cfg(test)]
mod ends;
#[cfg(test)]
mod faults;
#[cfg(test)]
mod memory;
#[cfg(test)]
mod octets;
#[cfg(test)]
mod rooms;
#[cfg(test)]
mod scripts;
#[cfg(test)]
mod sessions;
#[cfg(test)]
mod sockets;
#[cfg(test)]
mod steps;
#[cfg(test)]
mod streaming;
#[cfg(test)]
mod streams;
#[cfg(test)]
mod turns;
