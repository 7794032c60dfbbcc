//! The octets that each ask puts.
use crate::pairs::{DEFAULT, SMALL_FRAMES};
use crate::scripts::{run, run_all};
use std::test::Fail;

static SCRIPTS: [&str; 2] = [
    "a client asks
     both open 1
     client asks open -> channel 2
     client shows channel.open/2
     client loses 13
     client asks send 1 tx.select -> put
     client shows tx.select/1
     client loses 12
     client asks send-content 1 basic.publish 3 -> put
     client shows basic.publish/1 header-of-3/1 body-of-3/1
     client loses 51
     client asks flow 1 off -> put
     client shows flow-off/1
     client loses 13
     client asks close-channel 1 -> put
     client shows channel.close/1
     client loses 22
     client asks close -> put
     client shows connection.close/0
     client phase -> Closing",
    "a server asks
     both open 1
     client asks send 1 queue.declare -> put
     client carries all
     server asks send 1 queue.declare-ok -> put
     server shows 0100010000000e queue.declare-ok ce
     server loses 22
     server asks send-content 1 basic.deliver 3 -> put
     server shows basic.deliver/1 header-of-3/1 body-of-3/1
     server loses 59
     server asks blocked -> put
     server shows connection.blocked/0
     server loses 16
     server asks unblocked -> put
     server shows connection.unblocked/0
     server loses 12
     server asks flow 1 on -> put
     server shows flow-on/1
     server loses 13
     server asks close-channel 1 -> put
     server shows channel.close/1
     server loses 22
     server asks close -> put
     server shows connection.close/0
     server phase -> Closing",
];

/// The frames of the method and of the header have 18 and 22 octets, and one of a long body 4096.
static SCRIPT_OF_SMALL_FRAMES: &str = "contents are cut
     both open 1
     client asks send-content 1 basic.publish 4089 -> put
     client begins basic.publish/1 header-of-4089/1 long-body
     client carries 4135
     client shows ce rest-of-body/1
     client carries all
     client asks send-content 1 basic.publish 4088 -> put
     client begins basic.publish/1 header-of-4088/1 long-body
     client carries 4135
     client shows ce
     client carries all
     client asks send-content 1 basic.publish 0 -> put
     client shows basic.publish/1 header/1";

#[test]
fn asks_put_octets(rt: HostRuntime) -> Result<(), Fail> {
    run_all(rt.alloc(), DEFAULT, &SCRIPTS)?;
    run(rt.alloc(), SMALL_FRAMES, SCRIPT_OF_SMALL_FRAMES)
}
