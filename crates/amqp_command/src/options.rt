//! The options with which an end is set up.
use clap::{Arg, ArgAction, ArgMatches, Command, value_parser};
use std::alloc::{AllocError, Global};
use std::time::Duration;

/// The limits of an end.
#[derive(Clone, Copy)]
pub struct Limits {
    /// The greatest frame, in octets.
    pub frame_max: u32,
    /// The greatest channel number.
    pub channel_max: u16,
    /// The greatest body of a content, in octets.
    pub max_body: u64,
}

impl Limits {
    /// The limits where no option says otherwise.
    pub const DEFAULT: Limits = Limits {
        frame_max: 131_072,
        channel_max: 2047,
        max_body: 16_777_216,
    };
}

/// Which ends of a link are gated: they wait in the handshake until the script decides.
#[derive(Clone, Copy)]
pub struct Gates {
    pub client: bool,
    pub server: bool,
}

static GATED: [&str; 3] = ["client", "server", "both"];

/// The option of the ends that are gated. It has no default.
pub fn gated_option<'a>(alloc: Global) -> Arg<'a> {
    Arg::new(alloc, "gated")
        .long("gated")
        .value_name("SIDE")
        .action(ArgAction::Set)
        .value_parser(GATED.as_slice())
        .help("The sides that wait in the handshake until the script decides [default: none]")
}

/// The ends that the option names.
pub fn gates_of(matches: &ArgMatches) -> Gates {
    let named = matches.get_str("gated");
    let both = named == Some("both");
    Gates {
        client: both || named == Some("client"),
        server: both || named == Some("server"),
    }
}

/// The command with an option for each limit.
pub fn with_limits<'a>(alloc: Global, command: Command<'a>) -> Result<Command<'a>, AllocError> {
    let frame_max = limit(alloc, "frame-max", "OCTETS", "131072")
        .value_parser(value_parser!(u32).range(4096..=1_048_576))
        .help("The greatest frame, all its octets counted: 4096 to 1048576");
    let command = command.arg(frame_max)?;
    let channel_max = limit(alloc, "channel-max", "NUMBER", "2047")
        .value_parser(value_parser!(u16).range(1..=65_535))
        .help("The greatest channel number: 1 to 65535");
    let command = command.arg(channel_max)?;
    let max_body = limit(alloc, "max-body", "OCTETS", "16777216")
        .value_parser(value_parser!(u64).range(0..=1_073_741_824))
        .help("The greatest body of a content that is taken: 0 to 1073741824");
    command.arg(max_body)
}

/// An option of this name with a value, which has a default.
fn limit<'a>(alloc: Global, name: &'a str, value: &'a str, default: &'a str) -> Arg<'a> {
    Arg::new(alloc, name)
        .long(name)
        .value_name(value)
        .action(ArgAction::Set)
        .default_value(default)
}

/// The limits that the options give.
pub fn limits_of(matches: &ArgMatches) -> Limits {
    let frame_max = matches.get_one::<u32>("frame-max");
    let channel_max = matches.get_one::<u16>("channel-max");
    let max_body = matches.get_one::<u64>("max-body");
    Limits {
        frame_max: frame_max.unwrap_or(Limits::DEFAULT.frame_max),
        channel_max: channel_max.unwrap_or(Limits::DEFAULT.channel_max),
        max_body: max_body.unwrap_or(Limits::DEFAULT.max_body),
    }
}

/// The option of the heartbeat that an end wants.
pub fn heartbeat_option<'a>(alloc: Global) -> Arg<'a> {
    limit(alloc, "heartbeat", "SECONDS", "0")
        .value_parser(value_parser!(u16).range(0..=65_535))
        .help("The heartbeat that is wanted, or 0 for none: 0 to 65535")
}

/// The heartbeat that the option gives, in seconds; 0 is none.
pub fn heartbeat_of(matches: &ArgMatches) -> u16 {
    matches.get_one::<u16>("heartbeat").unwrap_or(0)
}

/// The option of how long a connection may be silent. It has no default.
pub fn time_out_option<'a>(alloc: Global) -> Arg<'a> {
    Arg::new(alloc, "timeout")
        .long("timeout")
        .value_name("SECONDS")
        .action(ArgAction::Set)
        .value_parser(value_parser!(u32).range(1..=86_400))
        .help("Give up where no octet comes or goes for so long: 1 to 86400 [default: never]")
}

/// The time for which a connection may be silent, where the option gives one.
pub fn time_out_of(matches: &ArgMatches) -> Option<Duration> {
    let seconds = matches.get_one::<u32>("timeout")?;
    Some(Duration::from_secs(u64::from(seconds)))
}
