//! What ends may be set up with.
use crate::pairs::{LIMITS, Limits, Pair, Setting, server_hello};
use amqp_core::{Config, ConfigFault, Server};
use std::alloc::Global;
use std::test::Fail;

/// The greatest frame and channel, the octets of the frame with the hello, and what is first found wrong with an end
/// that has these.
type Row = (u32, u16, usize, Option<ConfigFault>);

static ROWS: [Row; 7] = [
    (4095, 0, 4097, Some(ConfigFault::FrameMax)),
    (1_048_577, 0, 4097, Some(ConfigFault::FrameMax)),
    (1_048_576, 0, 4097, Some(ConfigFault::ChannelMax)),
    (4096, 0, 4096, Some(ConfigFault::ChannelMax)),
    (4096, 1, 4097, Some(ConfigFault::HelloTooLong)),
    (4096, 1, 4096, None),
    (1_048_576, 65_535, 4096, None),
];

/// What is wrong with two ends.
fn fault_of(alloc: Global, client: Limits, server: Limits) -> Option<ConfigFault> {
    Pair::new(alloc, Setting { client, server }).err()
}

/// Sets up a client with these limits, and a server.
fn try_out(alloc: Global, row: Row) -> Result<(), Fail> {
    let (frame_max, channel_max, hello, fault) = row;
    let limits = Limits {
        frame_max,
        channel_max,
        hello,
        ..LIMITS
    };
    if fault_of(alloc, limits, LIMITS) != fault || fault_of(alloc, LIMITS, limits) != fault {
        return Err(row.into());
    }
    Ok(())
}

#[test]
fn the_first_fault_is_reported(rt: HostRuntime) -> Result<(), Fail> {
    for row in ROWS.iter().copied() {
        try_out(rt.alloc(), row)?;
    }
    Ok(())
}

/// The limits of a new configuration.
fn defaults(alloc: Global) -> Result<(u32, u16, u64), Fail> {
    let hello = server_hello(alloc, 0)?;
    let config: Config<Server> = Config::new(hello);
    let limits = (config.frame_max, config.channel_max, config.max_body);
    drop(config);
    Ok(limits)
}

#[test]
fn configurations_have_defaults(rt: HostRuntime) -> Result<(), Fail> {
    let limits = defaults(rt.alloc())?;
    assert!(rt; limits == (131_072, 2047, 16_777_216));
    Ok(())
}
