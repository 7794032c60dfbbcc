//! The order in which frames leave, octet by octet.
use crate::pairs::{DEFAULT, SMALL_FRAMES};
use crate::scripts::{run, run_all};
use std::test::Fail;

static SCRIPTS: [&str; 4] = [
    // The channel that wrote last is 2, so the turn begins with 1. The close comes last.
    "channels take turns
     both open 2
     client asks send-content 1 basic.publish 3 -> put
     client asks send-content 2 basic.publish 0 -> put
     client asks close -> put
     client begins basic.publish/1 basic.publish/2
     client loses 36
     client begins header-of-3/1 header/2
     client loses 44
     client shows body-of-3/1 connection.close/0",
    // The channel that wrote last is 1, so the turn begins with 2.
    "a turn goes on after the last
     both open 2
     client asks send 1 tx.select -> put
     client loses 12
     client asks send-content 1 basic.publish 0 -> put
     client asks send-content 2 basic.publish 0 -> put
     client shows basic.publish/2 basic.publish/1 header/2 header/1",
    // Five octets of the frame of publish are written.
    "a begun frame stays first
     both open 2
     client asks send-content 1 basic.publish 0 -> put
     client shows basic.publish/1 header/1
     client loses 5
     client asks send 2 tx.select -> put
     client shows 000a basic.publish ce tx.select/2 header/1",
    // The frames of channel 0 come before those of the channels, but not before one that is begun; close-ok comes last.
    "channel 0 comes first, and its close last
     both open 1
     server asks send-content 1 basic.deliver 0 -> put
     server asks blocked -> put
     server shows connection.blocked/0 basic.deliver/1 header/1
     server loses 17
     server asks blocked -> put
     client asks close -> put
     client carries all
     server phase -> Closed
     server begins 000100000012 basic.deliver ce
     server loses 25
     server shows connection.blocked/0 header/1 connection.close-ok/0",
];

/// The first 4095 octets of the frame of a long body are written together with 80 before it.
static SCRIPT_OF_SMALL_FRAMES: &str = "a long content takes turns
     both open 2
     client asks send-content 1 basic.publish 4089 -> put
     client asks send-content 2 basic.publish 0 -> put
     client asks close -> put
     client begins basic.publish/1 basic.publish/2 header-of-4089/1 header/2 long-body
     client loses 4175
     client shows ce rest-of-body/1 connection.close/0";

#[test]
fn frames_leave_in_turn(rt: HostRuntime) -> Result<(), Fail> {
    run_all(rt.alloc(), DEFAULT, &SCRIPTS)?;
    run(rt.alloc(), SMALL_FRAMES, SCRIPT_OF_SMALL_FRAMES)
}
