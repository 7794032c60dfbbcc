//! Tests of the codec's public calls: of `amqp_frame`, frames written and split, and the faults of a stream; of `amqp_value`, short
//! strings, values of each tag, and tables; of `amqp_method`, one sample of each method written, read and printed, headers with each
//! property, and messages; of all of them, faults, texts, long inputs, and what they ask of the allocator. The octets and texts are
//! written from the profile's tables (`docs/PROTOCOL.md`), and not from what the crates print.
//!
//! They stand in a crate of their own since a crate with tests is proved twice, with them and without.
#![tactic(auto)]

#[cfg(test)]
mod frames;
#[cfg(test)]
mod headers;
#[cfg(test)]
mod marking;
#[cfg(test)]
mod methods;
#[cfg(test)]
mod octets;
#[cfg(test)]
mod showing;
#[cfg(test)]
mod values;
