//! How many octets wait.
use crate::links::DEFAULT;
use crate::scripts::run;
use std::test::Fail;

/// The protocol header has 8 octets, the start 36 and its answer 44, the tune 20, its answer and the open 36, and the
/// last answer 13.
static HANDSHAKE: &str = "the octets of the handshake
    waiting 1 to-server -> 0
    waiting 1 to-client -> 0
    begin
    waiting 1 to-server -> 8
    waiting 1 to-client -> 0
    waiting 2 to-server -> 0
    carry 1 to-server 7
    waiting 1 to-server -> 1
    waiting 1 to-client -> 0
    carry 1 to-server 2 -> refused 4
    carry 1 to-server 1
    waiting 1 to-server -> 0
    waiting 1 to-client -> 36
    carry 1 to-client 0
    waiting 1 to-client -> 36
    carry 1 to-client 36
    waiting 1 to-server -> 44
    carry 1 to-server 44
    waiting 1 to-client -> 20
    carry 1 to-client 20
    waiting 1 to-server -> 36
    ask 1 client open -> refused 3.1
    carry 1 to-server 36
    waiting 1 to-client -> 13
    carry 1 to-client 13
    waiting 1 to-server -> 0
    waiting 1 to-client -> 0";

/// The frame of an open has 13 octets and its answer 16, a close with the text `bye` 22 and its answer 12, a flow and
/// its answer 13, a select 12, and an unblocked 12; a blocked has 13 beside its text.
static METHODS: &str = "the octets of methods
    begin
    shake 1
    ask 1 client open
    waiting 1 to-server -> 13
    carry 1 to-server all
    waiting 1 to-client -> 16
    carry 1 to-client all
    ask 1 client flow 1 off
    ask 1 client send 1 select
    waiting 1 to-server -> 25
    carry 1 to-server 12
    waiting 1 to-client -> 0
    carry 1 to-server 1
    waiting 1 to-client -> 13
    ask 1 server blocked low
    ask 1 server unblocked
    waiting 1 to-client -> 41
    carry 1 to-client all
    ask 1 server close-channel 1 200 bye
    waiting 1 to-client -> 22
    carry 1 to-client all
    waiting 1 to-server -> 24
    ask 1 client close 200 bye
    waiting 1 to-server -> 46
    carry 1 to-server all
    waiting 1 to-client -> 12";

#[test]
fn octets_wait(rt: HostRuntime) -> Result<(), Fail> {
    run(rt.alloc(), DEFAULT, HANDSHAKE)?;
    run(rt.alloc(), DEFAULT, METHODS)
}
