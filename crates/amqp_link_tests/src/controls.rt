//! Heartbeats, and what is decided in the handshake of gated ends. The protocol header has 8 octets, start 36, start-ok
//! 44, tune 20, tune-ok and open 36, open-ok 13; a heartbeat has 8, a close with a text of two 21, close-ok 12.
use crate::links::{BOTH_GATED, DEFAULT, GATED_CLIENT, GATED_SERVER};
use crate::scripts::{run, run_opened};
use std::test::Fail;

static ADMITTED: &str = "a login and an open that are admitted
    begin
    ask 1 server admit -> refused 3.12
    shake 1
    waiting 1 to-client -> 0
    ask 1 client admit -> refused 3.12
    ask 1 client beat -> refused 3.1
    ask 1 server beat -> refused 3.1
    ask 1 server answer-start PLAIN x en_US -> refused 3.12
    ask 1 server admit
    waiting 1 to-client -> 20
    ask 1 server admit -> refused 3.12
    ask 1 server refuse 403 no -> refused 3.12
    carry 1 to-client 20
    carry 1 to-server 36
    waiting 1 to-client -> 0
    ask 1 client open -> refused 3.1
    ask 1 server admit
    waiting 1 to-client -> 13
    ask 1 server beat
    carry 1 to-client 21
    ask 1 client beat
    ask 1 client open
    waiting 1 to-server -> 21
    carry 1 to-server 21
    carry 1 to-client 16
    ask 1 client send 1 publish:6869
    ask 1 server send 1 deliver
    carry 1 to-server all
    carry 1 to-client all
    tally -> 1.1.1 to-server 1/1, 1.1.1 to-client 1/1";

static LOGIN_REFUSED: &str = "a login that is refused
    begin
    shake 1
    ask 1 server refuse 403 no
    waiting 1 to-client -> 21
    ask 1 server refuse 403 no -> refused 3.12
    ask 1 server beat -> refused 3.1
    carry 1 to-client 21
    waiting 1 to-server -> 12
    carry 1 to-server 12
    ask 1 client open -> refused 3.1
    ask 1 client beat -> refused 3.1
    ask 1 server admit -> refused 3.12
    tally -> ";

static OPEN_REFUSED: &str = "an open that is refused
    begin
    shake 1
    ask 1 server admit
    shake 1
    ask 1 server refuse 530 no
    waiting 1 to-client -> 21
    carry 1 to-client 21
    carry 1 to-server 12
    waiting 1 to-client -> 0
    ask 1 client open -> refused 3.1
    tally -> ";

static START_ANSWERED: &str = "a start that is answered
    begin
    ask 1 client answer-start PLAIN x en_US -> refused 3.12
    shake 1
    waiting 1 to-server -> 0
    ask 1 client admit -> refused 3.12
    ask 1 client refuse 403 no -> refused 3.12
    ask 1 client answer-start EXTERNAL x en_US
    waiting 1 to-server -> 36
    ask 1 client answer-start EXTERNAL x en_US -> refused 3.12
    shake 1
    ask 1 client open
    shake 1
    tally -> 1.1.1 to-server 0/0, 1.1.1 to-client 0/0";

static BOTH_DECIDE: &str = "both sides decide
    begin
    shake 1
    ask 1 client answer-start EXTERNAL x en_US
    carry 1 to-server 36
    ask 1 server admit
    carry 1 to-client 20
    carry 1 to-server 36
    ask 1 server admit
    carry 1 to-client 13
    begin
    ask 2 server admit -> refused 3.12
    shake 2
    ask 2 server admit -> refused 3.12
    drop 2 client
    ask 2 client answer-start EXTERNAL x en_US -> refused 2
    ask 1 client open
    shake 1
    tally -> 1.1.1 to-server 0/0, 1.1.1 to-client 0/0";

/// A heartbeat goes ahead of frames that are not begun: of the content of 50 octets, 3 octets of its header are.
static BEATS: &str = "heartbeats between the frames of a content
    ask 2 client beat -> refused 1
    ask 1 client send 1 publish:6869
    carry 1 to-server 21
    ask 1 client beat
    waiting 1 to-server -> 37
    carry 1 to-server 27
    acted 1.1.1 to-server
    ask 1 server beat
    carry 1 to-client 8
    carry 1 to-server 10
    acted 1.1.1 to-server publish:6869
    ask 1 client send 1 select
    ask 1 client beat
    ask 1 server beat
    carry 1 to-server all
    ask 1 server send 1 select-ok
    ask 1 server beat
    carry 1 to-client all
    acted 1.1.1 to-client select-ok
    ask 1 server beat
    ask 1 client close 200 bye
    ask 1 client beat -> refused 3.1
    carry 1 to-server all
    ask 1 server beat -> refused 3.1
    carry 1 to-client all
    waiting 1 to-client -> 0
    drop 1 server
    ask 1 server beat -> refused 2
    tally -> 1.1.1 to-server 2/2, 1.1.1 to-client 1/1";

#[test]
fn gated_ends_wait_for_decisions(rt: HostRuntime) -> Result<(), Fail> {
    run(rt.alloc(), GATED_SERVER, ADMITTED)?;
    run(rt.alloc(), GATED_SERVER, LOGIN_REFUSED)?;
    run(rt.alloc(), GATED_SERVER, OPEN_REFUSED)?;
    run(rt.alloc(), GATED_CLIENT, START_ANSWERED)?;
    run(rt.alloc(), BOTH_GATED, BOTH_DECIDE)
}

#[test]
fn heartbeats_change_no_life(rt: HostRuntime) -> Result<(), Fail> {
    run_opened(rt.alloc(), DEFAULT, BEATS)
}
