//! The handshake, octet by octet, and what it settles.
use crate::pairs::{
    BEATS, DEFAULT, GATED_CLIENT, GATED_SERVER, NO_BEATS_AT_CLIENT, NO_BEATS_AT_SERVER,
    SMALL_CLIENT, SMALL_SERVER,
};
use crate::scripts::{run, run_all};
use std::test::Fail;

static SCRIPT_OF_A_SMALL_CLIENT: &str = "a client has the smaller limits
     server shows nothing
     client shows protocol-header
     client carries all
     server shows connection.start/0
     server carries all
     client shows connection.start-ok/0
     client carries all
     server shows connection.tune/0
     client agreed -> none
     server carries all
     client shows connection.tune-ok/0 connection.open/0
     client agreed -> channels 10 frames 8192
     client phase -> Handshake
     server agreed -> none
     client carries all
     server agreed -> channels 10 frames 8192
     server phase -> Running
     server shows connection.open-ok/0
     server carries all
     client phase -> Running
     client agreed -> channels 10 frames 8192
     client shows nothing";

static SCRIPT_OF_A_SMALL_SERVER: &str = "a server has the smaller limits
     both open 0
     client agreed -> channels 10 frames 8192
     server agreed -> channels 10 frames 8192";

static SCRIPT_OF_BEATS: &str = "the smaller heartbeat is settled
     client carries all
     server carries all
     client carries all
     server shows 01 0000 0000000c 000a 001e 07ff 00020000 001e ce
     server carries all
     client begins 01 0000 0000000c 000a 001f 07ff 00020000 000a ce
     client heartbeat -> 10
     server heartbeat -> 0
     client carries all
     server heartbeat -> 10";

static SCRIPT_WITHOUT_BEATS: &str = "there is no heartbeat where an end wants none
     client carries all
     server carries all
     client carries all
     server carries all
     client begins 01 0000 0000000c 000a 001f 07ff 00020000 0000 ce
     client carries all
     client heartbeat -> 0
     server heartbeat -> 0";

static SCRIPT_OF_HEARD: &str = "what is said in the handshake is heard, and forgotten
     client heard 000a 000a 00 09 00000000 00000005 'PLAIN 00000005 'en_US -> other octets
     both open 1
     client heard 000a 000a 00 09 00000000 00000005 'PLAIN 00000005 'en_US
     client heard 000a 000a 00 08 00000000 00000005 'PLAIN 00000005 'en_US -> other octets
     client heard 000a 001e 07ff 00020000 0000
     client heard 000a 0029 00 -> other octets
     client heard 000a 001f 07ff 00020000 0000 -> other octets
     server heard 000a 000b 00000000 05 'PLAIN 0000000c 00 'guest 00 'guest 05 'en_US
     server heard 000a 001f 07ff 00020000 0000
     server heard 000a 0028 01 '/ 00 00
     server heard 0014 000a 00 -> other octets
     server forgets
     server heard 000a 000b 00000000 05 'PLAIN 0000000c 00 'guest 00 'guest 05 'en_US -> other octets
     server heard 000a 0028 01 '/ 00 00 -> other octets
     client heard 000a 001e 07ff 00020000 0000
     client takes connection.close/0 -> events 1
     client heard 000a 001e 07ff 00020000 0000";

/// A tune whose frame size is too small is not gone on with.
static SCRIPT_OF_UNHEARD: &str = "what is at fault is not heard
     client carries all
     server carries all
     client takes 01 0000 0000000c 000a 001e 07ff 00000fff 0000 ce -> 501
     client heard 000a 000a 00 09 00000000 00000005 'PLAIN 00000005 'en_US
     client heard 000a 001e 07ff 00000fff 0000 -> other octets";

/// Channel 1 is closed for basic.publish, channel 2 for queue.declare, and the connection for no method. A heartbeat
/// comes between. A close that crosses this end's own is told of by no event.
static SCRIPT_OF_CAUSES: &str = "it is known what the other end closed for
     both open 4
     client closed-for -> none
     client takes 01 0001 00000014 0014 0028 0194 09 'NOT_FOUND 003c 0028 ce -> events 1
     client closed-for -> basic.publish
     client takes 08 0000 00000000 ce -> events 1
     client closed-for -> basic.publish
     client takes 01 0002 0000000e 0014 0028 0196 03 'bye 0032 000a ce -> events 1
     client closed-for -> queue.declare
     client asks close-channel 3 -> put
     client takes 01 0003 0000000e 0014 0028 00c8 03 'bye 003c 0028 ce -> events 1
     client closed-for -> queue.declare
     client takes 01 0004 0000000e 0014 0028 00c8 03 'bye 003c 0029 ce -> events 1
     client closed-for -> class 60 method 41
     client takes 01 0000 0000000e 000a 0032 0140 03 'bye 0000 0000 ce -> events 1
     client closed-for -> class 0 method 0
     server closed-for -> none";

/// The protocol header has 8 octets, and the frame of start 36.
static SCRIPT_OF_COUNTS: &str = "what comes and goes is counted
     client took -> 0
     client wrote -> 0
     client carries 7
     client wrote -> 7
     client carries all
     client wrote -> 8
     server took -> 0
     server carries 35
     server wrote -> 35
     client took -> 0
     server carries all
     server wrote -> 36
     client took -> 1
     both open 1
     client took -> 4
     server took -> 4
     client beats -> put
     client took -> 4
     client carries all
     server took -> 5
     server takes 08 0001 00000000 ce -> 501
     server took -> 6
     client takes 09 -> Fatal
     client took -> 4";

static SCRIPTS_OF_A_GATED_CLIENT: [&str; 3] = [
    "a gated client holds start
     client carries all
     server carries all
     client shows nothing
     client phase -> Handshake
     client takes connection.close/0 -> events 1
     client shows connection.close-ok/0
     client phase -> Closed",
    "a gated client takes no tune while it holds start
     client carries all
     server carries all
     client takes connection.tune/0 -> 503
     client shows command-invalid/0",
    "a gated client answers start with a mechanism of its choice
     client answers EXTERNAL -> 12 NotAwaited
     client carries all
     server carries all
     client admits -> 12 NotAwaited
     client refuses 403 no -> 12 NotAwaited
     server answers EXTERNAL -> 12 NotAwaited
     client answers EXTERNAL -> put
     client shows 01 0000 0000001b 000a 000b 00000000 08 'EXTERNAL 00000000 05 'en_US ce
     client answers EXTERNAL -> 12 NotAwaited
     client carries all
     server carries all
     client carries all
     server phase -> Running",
];

static SCRIPTS_OF_A_GATED_SERVER: [&str; 6] = [
    "a gated server has heard what it holds
     client carries all
     server carries all
     client carries all
     server shows nothing
     server heard 000a 000b 00000000 05 'PLAIN 0000000c 00 'guest 00 'guest 05 'en_US
     server forgets
     server heard 000a 000b 00000000 05 'PLAIN 0000000c 00 'guest 00 'guest 05 'en_US -> other octets
     server admits -> put
     server carries all
     client carries all
     server shows nothing
     server heard 000a 001f 07ff 00020000 0000
     server heard 000a 0028 01 '/ 00 00",
    "a gated server holds a login
     client carries all
     server carries all
     client carries all
     server shows nothing
     server phase -> Handshake
     server agreed -> none
     server takes connection.close/0 -> events 1
     server shows connection.close-ok/0
     server phase -> Closed",
    "a gated server takes no tune-ok while it holds a login
     client carries all
     server carries all
     client carries all
     server takes connection.tune-ok/0 -> 503
     server shows command-invalid/0",
    "a gated server admits a login and an open, and then beats
     client carries all
     server admits -> 12 NotAwaited
     server carries all
     client carries all
     server beats -> 1 NotRunning
     server admits -> put
     server shows connection.tune/0
     server admits -> 12 NotAwaited
     server carries all
     client carries all
     server phase -> Handshake
     server agreed -> channels 2047 frames 131072
     server shows nothing
     server admits -> put
     server shows connection.open-ok/0
     server phase -> Running
     server admits -> 12 NotAwaited
     server carries all
     client phase -> Running
     server beats -> put
     server shows 08 0000 00000000 ce
     server carries all
     client shows nothing",
    "a gated server refuses a login
     client carries all
     server carries all
     client carries all
     server refuses 403 no -> put
     server shows 01 0000 0000000d 000a 0032 0193 02 'no 0000 0000 ce
     server phase -> Closing
     server refuses 403 no -> 12 NotAwaited
     server carries all
     client phase -> Closed
     client carries all
     server phase -> Closed
     server agreed -> none",
    "a gated server refuses an open
     client carries all
     server carries all
     client carries all
     server admits -> put
     server carries all
     client carries all
     server refuses 530 no -> put
     server shows 01 0000 0000000d 000a 0032 0212 02 'no 0000 0000 ce
     server agreed -> channels 2047 frames 131072
     server carries all
     client carries all
     server phase -> Closed",
];

static SCRIPTS: [&str; 1] = [
    "another protocol header
     server takes 'AMQP 000008 -> Fatal
     server phase -> Failed
     server shows protocol-header",
];

#[test]
fn two_ends_shake_hands(rt: HostRuntime) -> Result<(), Fail> {
    run(rt.alloc(), SMALL_CLIENT, SCRIPT_OF_A_SMALL_CLIENT)?;
    run(rt.alloc(), SMALL_SERVER, SCRIPT_OF_A_SMALL_SERVER)?;
    run_all(rt.alloc(), DEFAULT, &SCRIPTS)
}

#[test]
fn heartbeats_are_settled(rt: HostRuntime) -> Result<(), Fail> {
    run(rt.alloc(), BEATS, SCRIPT_OF_BEATS)?;
    run(rt.alloc(), NO_BEATS_AT_CLIENT, SCRIPT_WITHOUT_BEATS)?;
    run(rt.alloc(), NO_BEATS_AT_SERVER, SCRIPT_WITHOUT_BEATS)
}

#[test]
fn frames_and_octets_are_counted(rt: HostRuntime) -> Result<(), Fail> {
    run(rt.alloc(), DEFAULT, SCRIPT_OF_COUNTS)
}

#[test]
fn the_handshake_is_heard(rt: HostRuntime) -> Result<(), Fail> {
    run(rt.alloc(), DEFAULT, SCRIPT_OF_HEARD)?;
    run(rt.alloc(), DEFAULT, SCRIPT_OF_UNHEARD)
}

#[test]
fn closes_tell_their_causes(rt: HostRuntime) -> Result<(), Fail> {
    run(rt.alloc(), DEFAULT, SCRIPT_OF_CAUSES)
}

#[test]
fn gated_ends_hold(rt: HostRuntime) -> Result<(), Fail> {
    run_all(rt.alloc(), GATED_CLIENT, &SCRIPTS_OF_A_GATED_CLIENT)?;
    run_all(rt.alloc(), GATED_SERVER, &SCRIPTS_OF_A_GATED_SERVER)
}
