//! Closes of a channel and of a connection, and opens of the same number again.
use crate::links::{DEFAULT, ONE_CHANNEL, SMALL_BODIES};
use crate::scripts::{run, run_all_opened, run_opened};
use std::test::Fail;

/// With one channel. Its number is taken until the client has close-ok.
static CROSSING: &str = "closes that cross
    ask 1 client close-channel 1 200 bye
    ask 1 server close-channel 1 200 bye
    carry 1 to-server all
    ask 1 client open -> refused 3.8
    carry 1 to-client all
    ask 1 client open
    carry 1 to-server all
    carry 1 to-client all
    tally -> 1.1.1 to-server 0/0, 1.1.1 to-client 0/0, 1.1.2 to-server 0/0, 1.1.2 to-client 0/0
    ask 1 client send 1 publish:6869
    ask 1 server send 1 deliver
    carry 1 to-server all
    carry 1 to-client all
    acted 1.1.1 to-server
    acted 1.1.2 to-server publish:6869
    acted 1.1.1 to-client
    acted 1.1.2 to-client deliver";

/// The answer to the open and the close come in one piece.
static EARLY: &str = "a close right after the answer to the open
    begin
    shake 1
    ask 1 client open
    carry 1 to-server all
    ask 1 server close-channel 1 200 bye
    carry 1 to-client all
    carry 1 to-server all
    ask 1 client open
    carry 1 to-server all
    tally -> 1.1.1 to-server 0/0, 1.1.1 to-client 0/0, 1.1.2 to-server 0/0, 1.1.2 to-client 0/0";

/// So do the answer, a content and the close.
static EARLY_CONTENT: &str = "a content and a close right after the answer to the open
    begin
    shake 1
    ask 1 client open
    carry 1 to-server all
    ask 1 server send 1 deliver
    ask 1 server close-channel 1 200 bye
    carry 1 to-client all
    acted 1.1.1 to-client deliver
    carry 1 to-server all
    ask 1 client open
    carry 1 to-server all
    tally -> 1.1.1 to-server 0/0, 1.1.1 to-client 1/1, 1.1.2 to-server 0/0, 1.1.2 to-client 0/0";

static SCRIPTS: [&str; 6] = [
    "an answer to a close and the next open in one piece
    ask 1 server close-channel 1 200 bye
    carry 1 to-client all
    ask 1 client open
    ask 1 client send 1 select -> refused 3.3
    carry 1 to-server all
    ask 1 server send 1 ack
    carry 1 to-client all
    ask 1 client send 1 select
    carry 1 to-server all
    sent 1.1.2 to-client ack
    acted 1.1.2 to-client ack
    acted 1.1.2 to-server select
    tally -> 1.1.1 to-server 0/0, 1.1.1 to-client 0/0, 1.1.2 to-server 1/1, 1.1.2 to-client 1/1",
    // A deliver has 48 octets.
    "contents that come after the client's close
    ask 1 server send 1 deliver
    ask 1 server send 1 deliver:01
    ask 1 server send 1 deliver:02
    carry 1 to-client 48
    ask 1 client close-channel 1 200 bye
    carry 1 to-client all
    carry 1 to-server all
    carry 1 to-client all
    sent 1.1.1 to-client deliver deliver:01 deliver:02
    acted 1.1.1 to-client deliver
    tally -> 1.1.1 to-server 0/0, 1.1.1 to-client 1/3",
    "what was sent before a close is acted on
    ask 1 server send 1 deliver:6869
    ask 1 server send 1 cancel
    ask 1 server close-channel 1 200 bye
    ask 1 server send 1 ack -> refused 3.3
    ask 1 client send 1 publish
    carry 1 to-client all
    carry 1 to-server all
    sent 1.1.1 to-client deliver:6869 cancel
    acted 1.1.1 to-client deliver:6869 cancel
    sent 1.1.1 to-server publish
    acted 1.1.1 to-server",
    "a connection that the client closes
    ask 1 client send 1 publish:6869
    ask 1 server send 1 deliver
    ask 1 client close 200 bye
    ask 1 client send 1 publish -> refused 3.1
    ask 1 client close 200 bye -> refused 3.1
    carry 1 to-client all
    carry 1 to-server all
    ask 1 server send 1 deliver -> refused 3.1
    carry 1 to-client all
    waiting 1 to-client -> 0
    waiting 1 to-server -> 0
    tally -> 1.1.1 to-server 1/1, 1.1.1 to-client 0/1",
    "a connection that the server closes
    ask 1 client send 1 publish:6869
    ask 1 server send 1 deliver
    ask 1 server close 200 bye
    carry 1 to-server all
    carry 1 to-client all
    ask 1 client open -> refused 3.1
    carry 1 to-server all
    tally -> 1.1.1 to-server 0/1, 1.1.1 to-client 1/1",
    "a connection that both sides close
    ask 1 client close 200 bye
    ask 1 server close 200 bye
    carry 1 to-server all
    carry 1 to-client all
    carry 1 to-server all
    waiting 1 to-server -> 0
    waiting 1 to-client -> 0
    ask 1 client open -> refused 3.1
    begin
    shake 2
    ask 2 client open
    tally -> 1.1.1 to-server 0/0, 1.1.1 to-client 0/0, 2.1.1 to-server 0/0, 2.1.1 to-client 0/0",
];

/// The server takes bodies of one octet. It closes the channel at the header, and takes none of the life after it.
static TOO_LARGE: &str = "a content that is too large
    ask 1 client send 1 publish:68
    ask 1 client send 1 publish:6869
    ask 1 client send 1 publish:69
    carry 1 to-server all
    carry 1 to-client all
    carry 1 to-server all
    ask 1 client open
    carry 1 to-server all
    carry 1 to-client all
    ask 1 client send 1 publish:6a
    carry 1 to-server all
    sent 1.1.1 to-server publish:68 publish:6869 publish:69
    acted 1.1.1 to-server publish:68
    acted 1.1.2 to-server publish:6a";

#[test]
fn numbers_are_used_again(rt: HostRuntime) -> Result<(), Fail> {
    run_opened(rt.alloc(), ONE_CHANNEL, CROSSING)?;
    run(rt.alloc(), DEFAULT, EARLY)?;
    run(rt.alloc(), DEFAULT, EARLY_CONTENT)?;
    run_opened(rt.alloc(), SMALL_BODIES, TOO_LARGE)
}

#[test]
fn closes_end_lives(rt: HostRuntime) -> Result<(), Fail> {
    run_all_opened(rt.alloc(), DEFAULT, &SCRIPTS)
}
