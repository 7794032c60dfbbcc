//! Sides that are dropped, after each octet of a content.
use crate::links::DEFAULT;
use crate::scripts::{follow, opened_link, run_opened};
use amqp_link::Link;
use std::alloc::Global;
use std::test::Fail;

/// The octets of the content: 18 of the method's frame, 22 of the header's, and 10 of the body's.
const CONTENT: usize = 50;

/// 3 octets of the header's frame have been carried.
static INSIDE_A_HEADER: &str = "a drop inside a header
    ask 1 client send 1 publish:6869
    carry 1 to-server 21
    drop 1 client
    begin
    shake 2
    ask 2 client open
    carry 2 to-server all
    carry 1 to-client all -> refused 2
    ask 1 client send 1 publish -> refused 2
    drop 1 client -> refused 2
    tally -> 1.1.1 to-server 0/1, 1.1.1 to-client 0/0, 2.1.1 to-server 0/0, 2.1.1 to-client 0/0
    waiting 1 to-server -> 29
    carry 1 to-server all
    acted 1.1.1 to-server publish:6869
    ask 1 server send 1 deliver
    waiting 1 to-client -> 48
    carry 1 to-client 0 -> refused 2
    carry 1 to-client 48 -> refused 2
    tally -> 1.1.1 to-server 1/1, 1.1.1 to-client 0/1, 2.1.1 to-server 0/0, 2.1.1 to-client 0/0";

#[test]
fn what_was_written_can_be_carried(rt: HostRuntime) -> Result<(), Fail> {
    run_opened(rt.alloc(), DEFAULT, INSIDE_A_HEADER)
}

/// The other connection is as new as the first one was, whatever was left of its octets.
static BEGUN_ANEW: &str = "begin
    shake 2
    ask 2 client open
    carry 2 to-server all
    ask 2 server send 1 ack
    carry 2 to-client all
    acted 2.1.1 to-client ack";

/// Carries so many octets of a content, and drops a side. Another connection begins, and then the lines are followed.
fn drop_after(
    alloc: Global,
    link: &mut Link,
    octets: usize,
    side: &str,
    after: &str,
) -> Result<(), Fail> {
    let lines = format!(in alloc;
        "ask 1 client send 1 publish:6869
         carry 1 to-server {octets}
         drop 1 {side}"
    )?;
    follow(alloc, link, "a drop", &lines)?;
    follow(alloc, link, "another connection", BEGUN_ANEW)?;
    follow(alloc, link, side, after)
}

/// What is left can't be carried. The content was acted on if it had come whole.
fn after_server(alloc: Global, octets: usize) -> Result<String, Fail> {
    let left = CONTENT.saturating_sub(octets);
    let acted = usize::from(octets == CONTENT);
    Ok(format!(in alloc;
        "waiting 1 to-server -> {left}
         carry 1 to-server {left} -> refused 2
         tally -> 1.1.1 to-server {acted}/1, 1.1.1 to-client 0/0, 2.1.1 to-server 0/0, 2.1.1 to-client 1/1"
    )?)
}

/// What is left is carried, and the content is whole.
fn after_client(alloc: Global, octets: usize) -> Result<String, Fail> {
    let left = CONTENT.saturating_sub(octets);
    Ok(format!(in alloc;
        "waiting 1 to-server -> {left}
         carry 1 to-server {left}
         acted 1.1.1 to-server publish:6869
         tally -> 1.1.1 to-server 1/1, 1.1.1 to-client 0/0, 2.1.1 to-server 0/0, 2.1.1 to-client 1/1"
    )?)
}

/// A side is dropped after so many octets.
fn try_drop(alloc: Global, octets: usize, side: &str, lines: &str) -> Result<(), Fail> {
    let mut link = opened_link(alloc, DEFAULT)?;
    let outcome = drop_after(alloc, &mut link, octets, side, lines);
    drop(link);
    outcome
}

#[test]
fn drops_after_each_octet(rt: HostRuntime) -> Result<(), Fail> {
    for octets in 0..=CONTENT {
        let lines = after_server(rt.alloc(), octets)?;
        try_drop(rt.alloc(), octets, "server", &lines)?;
        let lines = after_client(rt.alloc(), octets)?;
        try_drop(rt.alloc(), octets, "client", &lines)?;
    }
    Ok(())
}
