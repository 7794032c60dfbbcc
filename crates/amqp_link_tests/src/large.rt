//! Many steps on one connection, and many connections.
use crate::links::{DEFAULT, new_link};
use crate::scripts::{follow, opened_link};
use crate::steps::steps;
use crate::tallies::{Entry, two_entries};
use amqp_link::{Life, Link, Step};
use std::alloc::Global;
use std::process::Abort;
use std::test::Fail;

/// A content each way.
static EXCHANGE: &str = "ask 1 client send 1 publish:6869
ask 1 server send 1 deliver
carry 1 to-server 50
carry 1 to-client 48";

/// Runs the steps so often. None is refused.
fn run_often(link: &mut Link, steps: &[Step], times: usize) -> Result<(), Fail> {
    for _ in 0..times {
        if link.run(steps)? != 0 {
            return Err("a step is refused".into());
        }
    }
    Ok(())
}

/// A hundred thousand steps, of which each is counted.
fn exchange_often(alloc: Global, link: &mut Link, steps: &[Step]) -> Result<(), Fail> {
    run_often(link, steps, 25_000)?;
    follow(
        alloc,
        link,
        "all exchanges",
        "tally -> 1.1.1 to-server 25000/25000, 1.1.1 to-client 25000/25000",
    )
}

fn exchange_on(alloc: Global, link: &mut Link) -> Result<(), Fail> {
    let steps = steps(alloc, EXCHANGE)?;
    let outcome = exchange_often(alloc, link, &steps);
    drop(steps);
    outcome
}

#[test]
fn a_hundred_thousand_steps(rt: HostRuntime) -> Result<(), Fail> {
    let mut link = opened_link(rt.alloc(), DEFAULT)?;
    let outcome = exchange_on(rt.alloc(), &mut link);
    drop(link);
    outcome
}

/// Opens channel 1 of a connection, sends a content there, and carries all but the last octet of it.
fn begin_content(alloc: Global, link: &mut Link, number: usize) -> Result<(), Fail> {
    let lines = format!(in alloc;
        "shake {number}
         ask {number} client open
         carry {number} to-server all
         carry {number} to-client all
         ask {number} client send 1 publish:6869
         carry {number} to-server 49"
    )?;
    follow(alloc, link, "a connection", &lines)
}

/// Carries the last octet of the content.
fn end_content(alloc: Global, link: &mut Link, number: usize) -> Result<(), Fail> {
    let line = format!(in alloc; "carry {number} to-server 1")?;
    follow(alloc, link, "the end of a content", &line)
}

/// All connections begin before the first one is used, and every other one gets the whole content.
fn use_connections(alloc: Global, link: &mut Link, count: usize) -> Result<(), Fail> {
    for _ in 0..count {
        follow(alloc, link, "a connection", "begin")?;
    }
    for before in 0..count {
        begin_content(alloc, link, before.saturating_add(1))?;
    }
    for before in (0..count).step_by(2) {
        end_content(alloc, link, before.saturating_add(1))?;
    }
    Ok(())
}

/// What is to be counted on a connection: whether its content was acted on.
fn entries(connection: usize) -> [Entry; 2] {
    let life = Life {
        connection,
        channel: 1,
        number: 1,
    };
    let acted = usize::from(connection % 2 == 0);
    two_entries(life, (1, acted), (0, 0))
}

fn is_every_other_acted(tally: &[Entry], connections: usize) -> bool {
    let mut count = 0_usize;
    for pair in tally.chunks(2) {
        if pair != entries(count).as_slice() {
            return false;
        }
        count = count.saturating_add(1);
    }
    count == connections
}

fn assert_every_other_acted(rt: &impl Abort, link: &Link, connections: usize) -> Result<(), Fail> {
    let tally = link.tally()?;
    assert!(rt; is_every_other_acted(&tally, connections));
    Ok(())
}

fn use_and_look(
    rt: &impl Abort,
    alloc: Global,
    link: &mut Link,
    connections: usize,
) -> Result<(), Fail> {
    use_connections(alloc, link, connections)?;
    assert_every_other_acted(rt, link, connections)
}

#[test]
fn a_thousand_connections(rt: HostRuntime) -> Result<(), Fail> {
    let mut link = new_link(rt.alloc(), DEFAULT)?;
    let outcome = use_and_look(&rt, rt.alloc(), &mut link, 1000);
    drop(link);
    outcome
}
