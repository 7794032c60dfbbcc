//! Tests of `amqp_core`'s public calls: a client and a server in memory, whose octets are carried from one to the
//! other. The octets, the counts and the answers are written from the profile (`docs/PROTOCOL.md`), and not from what
//! the crate answers.
//!
//! Most tests are scripts (`scripts`): texts that say, line by line, what is done with the two ends, and what is to
//! come of it. What the events say is tested with the program, line by line.
#![tactic(auto)]

#[cfg(test)]
mod asks;
#[cfg(test)]
mod beginning;
#[cfg(test)]
mod blames;
#[cfg(test)]
mod came;
#[cfg(test)]
mod causes;
#[cfg(test)]
mod closes;
#[cfg(test)]
mod configurations;
#[cfg(test)]
mod decisions;
#[cfg(test)]
mod fairness;
#[cfg(test)]
mod frames;
#[cfg(test)]
mod handing;
#[cfg(test)]
mod handshake;
#[cfg(test)]
mod large;
#[cfg(test)]
mod lives;
#[cfg(test)]
mod marking;
#[cfg(test)]
mod memory;
#[cfg(test)]
mod messages;
#[cfg(test)]
mod octets;
#[cfg(test)]
mod owning;
#[cfg(test)]
mod pairs;
#[cfg(test)]
mod pieces;
#[cfg(test)]
mod printing;
#[cfg(test)]
mod puts;
#[cfg(test)]
mod refusals;
#[cfg(test)]
mod scripts;
#[cfg(test)]
mod streams;
#[cfg(test)]
mod traces;
#[cfg(test)]
mod trouble;
#[cfg(test)]
mod verdict_rows;
#[cfg(test)]
mod verdicts;
#[cfg(test)]
mod waiting;
#[cfg(test)]
mod words;
