//! Steps that are refused, one by one and in runs.
use crate::links::{DEFAULT, ONE_CHANNEL, new_link};
use crate::scripts::{follow, run, run_opened};
use crate::steps::steps;
use amqp_core::AskFault;
use amqp_link::{Link, LinkFault};
use std::alloc::Global;
use std::test::Fail;

/// Connections are looked for first, then dropped sides, and then what waits.
static STEPS: &str = "steps that are refused
    begin
    shake 2 -> refused 1
    ask 2 client open -> refused 1
    ask 2 server close 200 bye -> refused 1
    carry 2 to-server 0 -> refused 1
    carry 18446744073709551615 to-client 5 -> refused 1
    drop 2 client -> refused 1
    drop 2 server -> refused 1
    carry 1 to-server 9 -> refused 4
    carry 1 to-server 18446744073709551615 -> refused 4
    carry 1 to-client 1 -> refused 4
    drop 1 server
    drop 1 server -> refused 2
    ask 1 server open -> refused 2
    ask 1 server blocked low -> refused 2
    carry 1 to-server 0 -> refused 2
    carry 1 to-server 8 -> refused 2
    carry 1 to-server 9 -> refused 2
    carry 1 to-client 1 -> refused 4
    ask 1 client open -> refused 3.1
    drop 1 client
    carry 1 to-client 0 -> refused 2
    ask 1 client open -> refused 2
    tally -> ";

/// One channel is agreed.
static ASKS: &str = "asks that are refused
    ask 1 client send 0 select -> refused 3.2
    ask 1 server flow 2 on -> refused 3.2
    ask 1 client open -> refused 3.8
    ask 1 server open -> refused 3.5
    ask 1 client send 1 select-ok -> refused 3.5
    ask 1 client send 1 open -> refused 3.5
    ask 1 server send 1 flow-ok -> refused 3.5
    ask 1 server send 1 publish -> refused 3.5
    ask 1 client blocked low -> refused 3.5
    ask 1 client unblocked -> refused 3.5
    ask 1 server send 1 select-ok -> refused 3.11
    ask 1 server flow 1 off
    ask 1 server flow 1 off -> refused 3.7
    carry 1 to-client all
    ask 1 client send 1 publish -> refused 3.4
    ask 1 client send 1 select
    ask 1 client send 1 select -> refused 3.10
    ask 1 client close-channel 1 200 bye
    ask 1 client send 1 ack -> refused 3.3
    ask 1 client close-channel 1 200 bye -> refused 3.3
    tally -> 1.1.1 to-server 0/2, 1.1.1 to-client 1/1";

#[test]
fn refused_steps_change_nothing(rt: HostRuntime) -> Result<(), Fail> {
    run(rt.alloc(), DEFAULT, STEPS)?;
    run_opened(rt.alloc(), ONE_CHANNEL, ASKS)
}

#[test]
fn faults_have_numbers(rt: HostRuntime) {
    assert!(rt; LinkFault::NoSuchConnection.number() == 1);
    assert!(rt; LinkFault::Dropped.number() == 2);
    assert!(rt; LinkFault::Ask(AskFault::NotRunning).number() == 3);
    assert!(rt; LinkFault::Ask(AskFault::NoSuchRequest).number() == 3);
    assert!(rt; LinkFault::NotSoMany.number() == 4);
    assert!(rt; LinkFault::OutOfMemory.number() == 5);
}

/// The handshake and an open in whole steps, of which five are refused; the steps after each of them are done.
static RUN: &str = "ask 1 client open
carry 1 to-server 0
begin
carry 1 to-server 8
carry 1 to-client 36
carry 1 to-server 44
carry 1 to-client 21
carry 1 to-client 20
ask 1 client open
carry 1 to-server 36
carry 1 to-client 13
ask 1 client open
carry 1 to-server 13
carry 1 to-client 16
ask 1 client send 1 publish:6869
carry 1 to-server 50
drop 1 client
drop 1 client";

/// How many of the steps are refused.
fn run_steps(alloc: Global, link: &mut Link, lines: &str) -> Result<usize, Fail> {
    let steps = steps(alloc, lines)?;
    let outcome = link.run(&steps);
    drop(steps);
    Ok(outcome?)
}

/// How many steps are refused of none, and how many of the run.
fn count_in(alloc: Global, link: &mut Link) -> Result<(usize, usize), Fail> {
    let none = link.run(&[])?;
    let refused = run_steps(alloc, link, RUN)?;
    follow(alloc, link, "a run", "acted 1.1.1 to-server publish:6869")?;
    Ok((none, refused))
}

fn count_refused(alloc: Global) -> Result<(usize, usize), Fail> {
    let mut link = new_link(alloc, DEFAULT)?;
    let counts = count_in(alloc, &mut link);
    drop(link);
    counts
}

#[test]
fn runs_go_on_after_refused_steps(rt: HostRuntime) -> Result<(), Fail> {
    let counts = count_refused(rt.alloc())?;
    assert!(rt; counts == (0, 5));
    Ok(())
}
