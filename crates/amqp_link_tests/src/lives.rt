//! Many lives of one channel, and the order in which lives are listed.
use crate::links::{DEFAULT, ONE_CHANNEL, new_link};
use crate::scripts::{follow, run};
use crate::tallies::{Entry, two_entries};
use amqp_link::{Direction, Life, Link, LinkFault, Step};
use std::alloc::Global;
use std::test::Fail;

/// How many octets are carried at once.
const PIECE: usize = 7;

/// Carries what waits, in pieces.
fn carry_in_pieces(link: &mut Link, direction: Direction) -> Result<(), LinkFault> {
    let waiting = link.waiting(0, direction);
    for carried in (0..waiting).step_by(PIECE) {
        let octets = waiting.saturating_sub(carried).min(PIECE);
        link.step(&Step::Carry(0, direction, octets))?;
    }
    Ok(())
}

/// Carries what waits in both directions, so often as the handshake takes.
fn exchange_in_pieces(link: &mut Link) -> Result<(), LinkFault> {
    for _ in 0..3 {
        carry_in_pieces(link, Direction::ToServer)?;
        carry_in_pieces(link, Direction::ToClient)?;
    }
    Ok(())
}

/// Does a step, and carries what waits.
fn do_line(alloc: Global, link: &mut Link, line: &str) -> Result<(), Fail> {
    follow(alloc, link, "a life", line)?;
    Ok(exchange_in_pieces(link)?)
}

/// Channel 1 is opened, given a content from each side, and closed.
fn live(alloc: Global, link: &mut Link) -> Result<(), Fail> {
    do_line(alloc, link, "ask 1 client open")?;
    do_line(alloc, link, "ask 1 client send 1 publish:6869")?;
    do_line(alloc, link, "ask 1 server send 1 deliver")?;
    do_line(alloc, link, "ask 1 client close-channel 1 200 bye")
}

/// Every life is there, both ways, and each way one item was sent and acted on.
fn is_each_acted(tally: &[Entry], lives: u64) -> bool {
    let mut number = 0_u64;
    for pair in tally.chunks(2) {
        number = number.saturating_add(1);
        let life = Life {
            connection: 0,
            channel: 1,
            number,
        };
        if pair != two_entries(life, (1, 1), (1, 1)).as_slice() {
            return false;
        }
    }
    number == lives
}

fn look(link: &Link, lives: u64) -> Result<(), Fail> {
    let tally = link.tally()?;
    if is_each_acted(&tally, lives) {
        Ok(())
    } else {
        Err("another tally".into())
    }
}

fn live_and_look(alloc: Global, link: &mut Link, lives: u64) -> Result<(), Fail> {
    do_line(alloc, link, "begin")?;
    for _ in 0..lives {
        live(alloc, link)?;
    }
    look(link, lives)
}

fn live_often(alloc: Global, lives: u64) -> Result<(), Fail> {
    let mut link = new_link(alloc, ONE_CHANNEL)?;
    let outcome = live_and_look(alloc, &mut link, lives);
    drop(link);
    outcome
}

#[test]
fn a_channel_lives_a_thousand_times(rt: HostRuntime) -> Result<(), Fail> {
    live_often(rt.alloc(), 1000)
}

/// By connection, channel and number, whatever began first.
static ORDER: &str = "lives in order
    begin
    begin
    shake 2
    shake 1
    ask 2 client open
    ask 1 client open
    ask 1 client open
    shake 1
    ask 1 client close-channel 2 200 bye
    shake 1
    ask 1 client open
    ask 2 client send 1 select -> refused 3.3
    shake 2
    ask 2 client send 1 select
    ask 1 client send 1 ack
    tally -> 1.1.1 to-server 0/1, 1.1.1 to-client 0/0, 1.2.1 to-server 0/0, 1.2.1 to-client 0/0, \
1.2.2 to-server 0/0, 1.2.2 to-client 0/0, 2.1.1 to-server 0/1, 2.1.1 to-client 0/0";

#[test]
fn lives_are_listed_in_order(rt: HostRuntime) -> Result<(), Fail> {
    run(rt.alloc(), DEFAULT, ORDER)
}
