//! A broker of AMQP 0-9-1 that keeps everything in memory, in one thread.
#![tactic(auto)]

mod broker;
mod connection;
mod connections;

use crate::broker::Broker;
use anyhow::Result;
use example_loop::{has_word, serve};
use example_store::Users;
use std::process::ExitCode;
use std::{env, fs};

const HELP: &str = "\
Usage: example_broker [--users FILE] ADDRESS

Serves AMQP 0-9-1 at ADDRESS, as 127.0.0.1:5672, to any number of clients. FILE has a line name:password
for each user; without it the only user is guest, with the password guest. The virtual host is /.
Exchanges, queues and messages are kept in memory, and are gone when the program ends.";

fn main(rt: HostRuntime) -> Result<ExitCode> {
    let words: Vec<String> = env::args(&rt)?.collect(rt.alloc())?;
    run(&rt, &words)
}

fn run(rt: &HostRuntime, words: &[String]) -> Result<ExitCode> {
    if has_word(words, "--help") {
        println!(rt; "{HELP}")?;
        return Ok(ExitCode::SUCCESS);
    }
    let has_file = words.len() == 4 && words[1].as_str() == "--users";
    let has_none = words.len() == 2 && !words[1].as_str().starts_with("-");
    if !has_file && !has_none {
        eprintln!(rt; "{HELP}")?;
        return Ok(ExitCode::from(2));
    }
    let file = if has_file {
        Some(words[2].as_str())
    } else {
        None
    };
    let broker = set_up(rt, file)?;
    serve(rt, rt.alloc(), words[words.len() - 1].as_str(), broker)?;
    Ok(ExitCode::SUCCESS)
}

/// A broker for the users of a file, or for guest alone.
fn set_up(rt: &HostRuntime, file: Option<&str>) -> Result<Broker> {
    let text = match file {
        Some(file) => fs::read_to_string(rt, file)?,
        None => String::from_str(rt.alloc(), "guest:guest")?,
    };
    let Some(users) = Users::read(text) else {
        anyhow::bail!("a line of the users is not name:password");
    };
    match Broker::new(rt.alloc(), users) {
        Ok(broker) => Ok(broker),
        Err(_) => anyhow::bail!("out of memory"),
    }
}
