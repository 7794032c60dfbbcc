//! The subcommands with their options, and the request that words make of them.
use crate::environment::Environment;
use crate::help;
use crate::options::{
    gated_option, gates_of, heartbeat_of, heartbeat_option, limits_of, time_out_of,
    time_out_option, with_limits,
};
use crate::publishing::{publish_command, publish_request};
use crate::requests::{Peer, Request, Start};
use crate::words::{text_of, word};
use amqp_channel::Side;
use amqp_text::Load;
use clap::{Arg, ArgAction, ArgMatches, Command, Error, value_parser};
use std::alloc::{AllocError, Global};

static SIDES: [&str; 2] = ["client", "server"];

/// The request that the words encode, with what the environment adds to them. The first word is the program's name.
///
/// An error carries the text to print, also where help or the version was asked for. No text repeats a password, or a
/// URL that may hold one.
pub fn request_of<'a>(
    alloc: Global,
    words: &'a [String],
    environment: &Environment,
) -> Result<Request, Error> {
    let mut command = program(alloc, environment)?;
    let request = match command.try_get_matches_from_mut(words) {
        Ok(matches) => request_in_owned(alloc, matches, environment),
        Err(error) => Err(error),
    };
    drop(command);
    request
}

/// The request of the matches, which are let go.
fn request_in_owned(
    alloc: Global,
    matches: ArgMatches,
    environment: &Environment,
) -> Result<Request, Error> {
    let request = request_in(alloc, &matches, environment);
    drop(matches);
    request
}

fn request_in(
    alloc: Global,
    matches: &ArgMatches,
    environment: &Environment,
) -> Result<Request, Error> {
    if let Some(check) = matches.subcommand_matches("check") {
        return Ok(Request::Check(side_of(check), limits_of(check)));
    }
    if let Some(link) = matches.subcommand_matches("link") {
        return Ok(Request::Link(limits_of(link), gates_of(link)));
    }
    if let Some(serve) = matches.subcommand_matches("serve") {
        return Ok(Request::Serve(peer_of(alloc, serve)?, limits_of(serve)));
    }
    if let Some(publish) = matches.subcommand_matches("publish") {
        return publish_request(alloc, publish, environment);
    }
    if let Some(over) = matches.subcommand_matches("loop") {
        return Ok(Request::Loop(load_of(over), limits_of(over)));
    }
    if let Some(show) = matches.subcommand_matches("show") {
        return Ok(Request::Show(start_of(show)));
    }
    Ok(Request::Show(Start::Frame))
}

fn program<'a>(alloc: Global, environment: &Environment) -> Result<Command<'a>, AllocError> {
    let command = Command::new(alloc, "amqp")
        .version("0.1.0")
        .about(help::ABOUT)
        .subcommand_required(true)
        .arg_required_else_help(true);
    let command = with_subcommand(command, show_command(alloc))?;
    let command = with_subcommand(command, check_command(alloc))?;
    let command = with_subcommand(command, link_command(alloc))?;
    let command = with_subcommand(command, serve_command(alloc))?;
    let command = with_subcommand(command, publish_command(alloc, environment))?;
    with_subcommand(command, loop_command(alloc))
}

/// The command with one below it, where there is memory for that.
fn with_subcommand<'a>(
    command: Command<'a>,
    below: Result<Command<'a>, AllocError>,
) -> Result<Command<'a>, AllocError> {
    match below {
        Ok(below) => command.subcommand(below),
        Err(AllocError) => Err(AllocError),
    }
}

fn show_command<'a>(alloc: Global) -> Result<Command<'a>, AllocError> {
    Command::new(alloc, "show")
        .about(help::SHOW_ABOUT)
        .long_about(help::SHOW_DETAILS)
        .after_long_help(help::SHOW_EXAMPLE)
        .arg(protocol_header_option(alloc))
}

fn protocol_header_option<'a>(alloc: Global) -> Arg<'a> {
    Arg::new(alloc, "protocol-header")
        .long("protocol-header")
        .action(ArgAction::SetTrue)
        .help("The octets start with the protocol header, as a client's do")
}

fn check_command<'a>(alloc: Global) -> Result<Command<'a>, AllocError> {
    let side = Arg::new(alloc, "side")
        .required(true)
        .action(ArgAction::Set)
        .value_name("SIDE")
        .value_parser(SIDES.as_slice())
        .help("The side that is played");
    let check = Command::new(alloc, "check")
        .about(help::CHECK_ABOUT)
        .long_about(help::CHECK_DETAILS)
        .after_long_help(help::CHECK_EXAMPLE)
        .arg(side)?;
    with_limits(alloc, check)
}

fn link_command<'a>(alloc: Global) -> Result<Command<'a>, AllocError> {
    let link = Command::new(alloc, "link")
        .about(help::LINK_ABOUT)
        .long_about(help::LINK_DETAILS)
        .after_long_help(help::LINK_EXAMPLE)
        .arg(gated_option(alloc))?;
    with_limits(alloc, link)
}

fn serve_command<'a>(alloc: Global) -> Result<Command<'a>, AllocError> {
    let address = word(alloc, "address", "ADDR", "Where to listen, as HOST:PORT");
    let serve = Command::new(alloc, "serve")
        .about(help::SERVE_ABOUT)
        .long_about(help::SERVE_DETAILS)
        .after_long_help(help::SERVE_EXAMPLE)
        .arg(address)?;
    let serve = serve.arg(heartbeat_option(alloc))?;
    let serve = serve.arg(time_out_option(alloc))?;
    with_limits(alloc, serve)
}

fn loop_command<'a>(alloc: Global) -> Result<Command<'a>, AllocError> {
    let count = word(alloc, "count", "COUNT", "How many contents: 0 to 100000").value_parser(
        value_parser!(u32).range(0..=100_000),
    );
    let command = Command::new(alloc, "loop")
        .about(help::LOOP_ABOUT)
        .long_about(help::LOOP_DETAILS)
        .after_long_help(help::LOOP_EXAMPLE)
        .arg(count)?;
    let size = word(alloc, "size", "SIZE", "The octets of each: 0 to 16777216").value_parser(
        value_parser!(u32).range(0..=16_777_216),
    );
    let command = command.arg(size)?;
    with_limits(alloc, command)
}

fn start_of(matches: &ArgMatches) -> Start {
    if matches.get_flag("protocol-header") {
        Start::ProtocolHeader
    } else {
        Start::Frame
    }
}

/// The side that is named. No other words than its two are let through.
fn side_of(matches: &ArgMatches) -> Side {
    if matches.get_str("side") == Some("client") {
        Side::Client
    } else {
        Side::Server
    }
}

fn load_of(matches: &ArgMatches) -> Load {
    let count = matches.get_one::<u32>("count");
    let size = matches.get_one::<u32>("size");
    Load {
        count: count.unwrap_or(0),
        size: size.unwrap_or(0),
    }
}

fn peer_of(alloc: Global, matches: &ArgMatches) -> Result<Peer, AllocError> {
    let address = text_of(alloc, matches, "address")?;
    Ok(Peer {
        address,
        time_out: time_out_of(matches),
        heartbeat: heartbeat_of(matches),
    })
}
