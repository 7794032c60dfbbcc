//! What links may be set up with.
use crate::links::{LIMITS, Limits, Setting, new_link};
use amqp_core::ConfigFault;
use std::alloc::Global;
use std::test::Fail;

/// The greatest frame and channel, the octets of the frame with the hello, and what is first found wrong with an end
/// that has these.
type Row = (u32, u16, usize, Option<ConfigFault>);

static ROWS: [Row; 7] = [
    (4095, 0, 4097, Some(ConfigFault::FrameMax)),
    (1_048_577, 1, 4096, Some(ConfigFault::FrameMax)),
    (1_048_576, 0, 4097, Some(ConfigFault::ChannelMax)),
    (4096, 0, 4096, Some(ConfigFault::ChannelMax)),
    (4096, 1, 4097, Some(ConfigFault::HelloTooLong)),
    (4096, 1, 4096, None),
    (1_048_576, 65_535, 4096, None),
];

fn fault_of(alloc: Global, client: Limits, server: Limits) -> Option<ConfigFault> {
    new_link(alloc, Setting { client, server }).err()
}

fn limits_of(row: Row) -> Limits {
    let (frame_max, channel_max, hello, _) = row;
    Limits {
        frame_max,
        channel_max,
        hello,
        ..LIMITS
    }
}

#[test]
fn each_side_is_looked_at(rt: HostRuntime) -> Result<(), Fail> {
    for row in ROWS.iter().copied() {
        let limits = limits_of(row);
        let client = fault_of(rt.alloc(), limits, LIMITS);
        let server = fault_of(rt.alloc(), LIMITS, limits);
        assert!(rt; client == row.3 && server == row.3, "{row:?}");
    }
    Ok(())
}

/// What is found wrong with a client and a server.
fn first_fault(alloc: Global, client: Row, server: Row) -> Option<ConfigFault> {
    fault_of(alloc, limits_of(client), limits_of(server))
}

#[test]
fn the_fault_of_the_client_is_reported(rt: HostRuntime) {
    for client in ROWS.iter().copied() {
        for server in ROWS.iter().copied() {
            let fault = first_fault(rt.alloc(), client, server);
            assert!(rt; fault == client.3.or(server.3), "{client:?} {server:?}");
        }
    }
}
