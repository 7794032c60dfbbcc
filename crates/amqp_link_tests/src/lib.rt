//! Tests of `amqp_link`'s public calls. The octets, the counts and the answers are worked out from the profile
//! (`docs/PROTOCOL.md`) and from what a link promises (`docs/HEADLINE.md`), and not from what the crate answers.
//!
//! Most tests are scripts ([`scripts`]): texts that say, line by line, what is done with a link, and what is to come of
//! it. Beside them, games ([`games`]) do what dice say, and the answers of the link are looked at after each step and
//! at the end.
#![tactic(auto)]

#[cfg(test)]
mod closes;
#[cfg(test)]
mod configurations;
#[cfg(test)]
mod controls;
#[cfg(test)]
mod dice;
#[cfg(test)]
mod drops;
#[cfg(test)]
mod games;
#[cfg(test)]
mod items;
#[cfg(test)]
mod judging;
#[cfg(test)]
mod large;
#[cfg(test)]
mod links;
#[cfg(test)]
mod lives;
#[cfg(test)]
mod messages;
#[cfg(test)]
mod moves;
#[cfg(test)]
mod random;
#[cfg(test)]
mod refusals;
#[cfg(test)]
mod rules;
#[cfg(test)]
mod scripts;
#[cfg(test)]
mod steps;
#[cfg(test)]
mod tallies;
#[cfg(test)]
mod trouble;
#[cfg(test)]
mod waiting;
