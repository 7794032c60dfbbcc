//! What is sent and acted on in a life: messages, contents, pauses, requests and replies.
use crate::links::DEFAULT;
use crate::scripts::run_all_opened;
use std::test::Fail;

static SCRIPTS: [&str; 6] = [
    // The client asks for no contents. The one that basic.get asked for comes all the same.
    "a client that pauses
    ask 1 client send 1 get
    ask 1 client flow 1 off
    ask 1 client flow 1 on -> refused 3.7
    carry 1 to-server all
    ask 1 server send 1 deliver -> refused 3.4
    ask 1 server send 1 get-ok:6869
    carry 1 to-client all
    tally -> 1.1.1 to-server 2/2, 1.1.1 to-client 2/2
    ask 1 client flow 1 on
    ask 1 server send 1 deliver -> refused 3.4
    carry 1 to-server all
    ask 1 server send 1 deliver
    carry 1 to-client all
    sent 1.1.1 to-server get flow-off flow-on
    acted 1.1.1 to-server get flow-off flow-on
    sent 1.1.1 to-client off-ok get-ok:6869 on-ok deliver
    acted 1.1.1 to-client off-ok get-ok:6869 on-ok deliver",
    // What was sent before the pause comes, and methods without contents are not held up.
    "a server that pauses
    ask 1 client send 1 publish:01
    ask 1 server flow 1 off
    carry 1 to-client all
    ask 1 client send 1 publish:02 -> refused 3.4
    ask 1 client send 1 ack
    carry 1 to-server all
    ask 1 server flow 1 on
    carry 1 to-client all
    ask 1 client send 1 publish:03
    carry 1 to-server all
    sent 1.1.1 to-client flow-off flow-on
    acted 1.1.1 to-client flow-off flow-on
    sent 1.1.1 to-server publish:01 off-ok ack on-ok publish:03
    acted 1.1.1 to-server publish:01 off-ok ack on-ok publish:03",
    "a pause ends with its life
    ask 1 server flow 1 off
    carry 1 to-client all
    ask 1 client send 1 publish -> refused 3.4
    ask 1 client close-channel 1 200 bye
    carry 1 to-server all
    carry 1 to-client all
    ask 1 client open
    carry 1 to-server all
    carry 1 to-client all
    ask 1 client send 1 publish
    ask 1 server flow 1 off
    carry 1 to-server all
    sent 1.1.1 to-server off-ok
    acted 1.1.2 to-server publish
    acted 1.1.2 to-client",
    "replies answer requests in turn
    ask 1 server send 1 declare-ok -> refused 3.11
    ask 1 client send 1 declare
    ask 1 client send 1 declare -> refused 3.10
    carry 1 to-server all
    ask 1 server send 1 bind-ok -> refused 3.11
    ask 1 server send 1 declare-ok
    ask 1 server send 1 declare-ok -> refused 3.11
    ask 1 client send 1 select -> refused 3.10
    carry 1 to-client all
    ask 1 client send 1 declare
    tally -> 1.1.1 to-server 1/2, 1.1.1 to-client 1/1
    carry 1 to-server all
    acted 1.1.1 to-server declare declare
    acted 1.1.1 to-client declare-ok",
    // Each of these is sent by both sides, or by the server.
    "messages that ask for no reply
    ask 1 server send 1 ack
    ask 1 server send 1 nack
    ask 1 server send 1 cancel
    carry 1 to-client all
    ask 1 client send 1 cancel-ok
    ask 1 client send 1 nack
    ask 1 client send 1 ack
    carry 1 to-server all
    acted 1.1.1 to-client ack nack cancel
    acted 1.1.1 to-server cancel-ok nack ack
    tally -> 1.1.1 to-server 3/3, 1.1.1 to-client 3/3",
    "lives that have not begun
    ask 1 client send 1 select
    carry 1 to-server all
    acted 1.1.1 to-server select
    acted 1.1.1 to-client
    sent 1.1.0 to-server
    acted 1.1.0 to-server
    sent 1.1.2 to-server
    acted 1.1.2 to-server
    sent 1.2.1 to-server
    acted 1.0.1 to-server
    sent 2.1.1 to-server
    acted 2.1.1 to-server",
];

#[test]
fn items_are_sent_and_acted_on(rt: HostRuntime) -> Result<(), Fail> {
    run_all_opened(rt.alloc(), DEFAULT, &SCRIPTS)
}

/// Two contents of 50 octets share the writer frame by frame: 18 and 18 octets, 22 and 22, 10 and 10.
static SHARED: [&str; 4] = [
    "before the end of the first content
    ask 1 client open
    carry 1 to-server all
    carry 1 to-client all
    ask 1 client send 1 publish:6869
    ask 1 client send 2 publish:6a6b
    carry 1 to-server 89
    tally -> 1.1.1 to-server 0/1, 1.1.1 to-client 0/0, 1.2.1 to-server 0/1, 1.2.1 to-client 0/0",
    "at the end of the first content
    ask 1 client open
    carry 1 to-server all
    carry 1 to-client all
    ask 1 client send 1 publish:6869
    ask 1 client send 2 publish:6a6b
    carry 1 to-server 90
    acted 1.1.1 to-server publish:6869
    acted 1.2.1 to-server",
    "before the end of the second content
    ask 1 client open
    carry 1 to-server all
    carry 1 to-client all
    ask 1 client send 1 publish:6869
    ask 1 client send 2 publish:6a6b
    carry 1 to-server 99
    acted 1.2.1 to-server",
    "at the end of both
    ask 1 client open
    carry 1 to-server all
    carry 1 to-client all
    ask 1 client send 1 publish:6869
    ask 1 client send 2 publish:6a6b
    carry 1 to-server 100
    acted 1.1.1 to-server publish:6869
    acted 1.2.1 to-server publish:6a6b",
];

#[test]
fn channels_share_the_octets(rt: HostRuntime) -> Result<(), Fail> {
    run_all_opened(rt.alloc(), DEFAULT, &SHARED)
}
