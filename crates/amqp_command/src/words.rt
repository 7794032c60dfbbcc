//! The words of a command line that stand without an option.
use clap::{Arg, ArgAction, ArgMatches};
use std::alloc::{AllocError, Global};

/// A word that has to be given.
pub(crate) fn word<'a>(alloc: Global, id: &'a str, name: &'a str, text: &'a str) -> Arg<'a> {
    Arg::new(alloc, id)
        .required(true)
        .action(ArgAction::Set)
        .value_name(name)
        .help(text)
}

/// The word that was given.
pub(crate) fn text_of(alloc: Global, matches: &ArgMatches, id: &str) -> Result<String, AllocError> {
    String::from_str(alloc, matches.get_str(id).unwrap_or(""))
}
