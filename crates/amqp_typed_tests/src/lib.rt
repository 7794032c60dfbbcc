//! Tests of `amqp_typed`: each of the 62 methods read into its struct and written again, some made by their
//! fields, and ten operations made by place and by name. The octets are written from the profile's table of methods
//! (`docs/PROTOCOL.md`), and not from what the crates print.
#![tactic(auto)]

#[cfg(test)]
mod by_name;
#[cfg(test)]
mod by_place;
#[cfg(test)]
mod contents;
#[cfg(test)]
mod made;
#[cfg(test)]
mod marking;
#[cfg(test)]
mod memory;
#[cfg(test)]
mod read;
#[cfg(test)]
mod samples;
#[cfg(test)]
mod showing;
#[cfg(test)]
mod views;
