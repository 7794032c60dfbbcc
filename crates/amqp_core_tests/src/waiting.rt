//! How many octets wait of a channel, and in all.
use crate::pairs::{DEFAULT, SMALL_FRAMES};
use crate::scripts::{run, run_all};
use std::test::Fail;

static SCRIPTS: [&str; 3] = [
    // Frames of 18 octets, the method's, of 22, the header's, and of 11, the body's.
    "a begun frame is its channel's
     both open 2
     client waits all -> 0
     client waits 1 -> 0
     client asks send-content 1 basic.publish 3 -> put
     client waits 1 -> 51
     client waits 2 -> 0
     client asks send-content 2 basic.publish 0 -> put
     client waits 1 -> 51
     client waits 2 -> 40
     client waits all -> 91
     client loses 5
     client waits 1 -> 46
     client waits 2 -> 40
     client waits all -> 86
     client loses 13
     client waits 1 -> 33
     client waits 2 -> 40
     client loses 1
     client waits 1 -> 33
     client waits 2 -> 39
     client loses 17
     client loses 22
     client loses 21
     client waits 1 -> 11
     client waits 2 -> 1
     client loses 12
     client waits all -> 0",
    // The frame of channel 0 is begun after one of channel 1, which is LAST then.
    "a begun frame of channel 0
     both open 1
     server asks send-content 1 basic.deliver 0 -> put
     server loses 10
     server asks blocked -> put
     server waits 0 -> 16
     server waits 1 -> 38
     server loses 17
     server waits 0 -> 15
     server waits 1 -> 22
     server waits all -> 37",
    // The protocol header, of eight octets, counts to channel 0.
    "the protocol header
     client waits 0 -> 8
     client waits all -> 8
     client waits 1 -> 0
     client loses 3
     client waits 0 -> 5
     server waits all -> 0",
];

/// A body of 4089 octets is put in frames of 4096 and 9.
static SCRIPT_OF_SMALL_FRAMES: &str = "a long content
     both open 2
     client asks send-content 1 basic.publish 4089 -> put
     client asks send 2 tx.select -> put
     client waits 1 -> 4145
     client waits 2 -> 12
     client loses 4100
     client waits 1 -> 57
     client waits 2 -> 0";

#[test]
fn octets_wait_on_channels(rt: HostRuntime) -> Result<(), Fail> {
    run_all(rt.alloc(), DEFAULT, &SCRIPTS)?;
    run(rt.alloc(), SMALL_FRAMES, SCRIPT_OF_SMALL_FRAMES)
}
