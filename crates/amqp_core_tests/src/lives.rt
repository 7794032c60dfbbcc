//! Lives of a channel: how they begin and end, what is answered in them, and what is kept of a content.
use crate::pairs::{DEFAULT, ONE_CHANNEL, SMALL_BODIES};
use crate::scripts::{run, run_all};
use std::test::Fail;

static SCRIPTS: [&str; 5] = [
    // The server closes channel 1, and the client opens it again.
    "a number is opened again
     both open 0
     client asks open -> channel 1
     client channel 1 -> Opening
     client shows channel.open/1
     client carries all
     server channel 1 -> Open
     server shows channel.open-ok/1
     server carries all
     client channel 1 -> Open
     server asks close-channel 1 -> put
     server channel 1 -> Closing
     server carries all
     client channel 1 -> Free
     client asks open -> channel 1
     client shows channel.close-ok/1 channel.open/1
     server channel 1 -> Closing
     client carries all
     server channel 1 -> Open
     server shows channel.open-ok/1",
    "a request is answered in turn
     both open 1
     client asks send 1 queue.declare -> put
     client due 1 -> queue.declare
     server due 1 -> none
     client carries all
     server due 1 -> queue.declare
     server asks send 1 queue.declare-ok -> put
     server due 1 -> none
     client due 1 -> queue.declare
     server carries all
     client due 1 -> none
     client asks send 1 tx.select -> put",
    "a flow is answered
     both open 1
     client asks flow 1 off -> put
     client carries all
     server shows flow-off-ok/1
     server carries all
     client asks flow 1 on -> put
     client carries all
     server shows flow-on-ok/1",
    // There are 18 octets of the method's frame, 22 of the header's and 1008 of the body's, of which one is missing.
    "octets are counted
     both open 1
     client asks send-content 1 basic.publish 1000 -> put
     client carries 20
     server pending -> 2
     client carries 1027
     server pending -> 1007
     server gathered 1 -> 0
     server kept -> 1021
     client shows ce
     client carries all
     server pending -> 0
     server kept -> 0",
    // The header has 14 octets, besides those of its frame. It is kept until its content is whole, or its channel
    // closed.
    "what is kept goes with its channel
     both open 2
     server takes basic.publish/1 header-of-3/1 body-of-2/1 -> events 0
     server kept -> 16
     server takes basic.publish/2 02 0002 0000000e 003c 0000 0000000000000005 0000 ce -> events 0
     server kept -> 30
     server takes 03 0002 00000002 'hi ce -> events 0
     server gathered all -> 4
     server kept -> 32
     client asks close-channel 1 -> put
     client carries all
     server gathered all -> 2
     server kept -> 16
     server asks close-channel 2 -> put
     server gathered all -> 0
     server kept -> 0",
];

/// Both ends close the only channel at once.
static SCRIPT_OF_ONE_CHANNEL: &str = "closes cross
     both open 1
     client asks close-channel 1 -> put
     server asks close-channel 1 -> put
     client carries all
     server channel 1 -> Closing
     server shows channel.close/1 channel.close-ok/1
     client asks open -> 8 NoFreeChannel
     server carries all
     client channel 1 -> Free
     client asks open -> channel 1
     client shows channel.close-ok/1 channel.open/1
     client carries all
     server channel 1 -> Open
     server shows channel.open-ok/1";

/// The server takes bodies of one octet.
static SCRIPT_OF_SMALL_BODIES: &str = "a content too large closes its channel
     both open 1
     client asks send-content 1 basic.publish 1 -> put
     client carries all
     server channel 1 -> Open
     client asks send-content 1 basic.publish 2 -> put
     client carries all
     server channel 1 -> Closing
     server shows content-too-large/1
     server carries all
     client channel 1 -> Free
     client carries all
     server channel 1 -> Free
     server phase -> Running";

#[test]
fn channels_live(rt: HostRuntime) -> Result<(), Fail> {
    run_all(rt.alloc(), DEFAULT, &SCRIPTS)?;
    run(rt.alloc(), ONE_CHANNEL, SCRIPT_OF_ONE_CHANNEL)?;
    run(rt.alloc(), SMALL_BODIES, SCRIPT_OF_SMALL_BODIES)
}
