//! A session for whose events there is no room. With ample memory there is room; where each request for memory is
//! refused in turn, it is seen that nothing is lost.
use crate::ends::server;
use crate::octets::digits;
use crate::scripts::script_of;
use crate::sessions::assert_events;
use crate::steps::assert_text;
use amqp_core::Server;
use amqp_io::{IoFault, Script, Session};
use std::alloc::Global;
use std::process::Abort;
use std::test::Fail;

/// Pulls until the input ends, also where there is no room for an event. It answers whether there was room for each.
fn pull_all(session: &mut Session<Server, Script>) -> Result<bool, IoFault> {
    let mut room = true;
    for _ in 0..10 {
        match session.pull() {
            Ok(_) => {}
            Err(IoFault::OutOfMemory) => room = false,
            Err(IoFault::EndOfInput) => return Ok(room),
            Err(fault) => return Err(fault),
        }
    }
    Ok(room)
}

/// What comes of the handshake of a client that opens a channel.
fn assert_pulled(
    rt: &impl Abort,
    alloc: Global,
    session: &mut Session<Server, Script>,
) -> Result<(), Fail> {
    assert_events(
        rt,
        alloc,
        session,
        "quiet
        quiet
        quiet
        negotiated 2047 131072
        opened 1",
    )?;
    let found = hex::encode(alloc, session.end().output())?;
    let wanted = digits(alloc, "start tune open-ok channel-opened")?;
    assert_text(rt, found.as_str(), wanted.as_str(), "output");
    Ok(())
}

fn pull_and_look(
    rt: &(impl Abort + Print),
    alloc: Global,
    session: &mut Session<Server, Script>,
) -> Result<(), Fail> {
    let room = pull_all(session)?;
    assert_pulled(rt, alloc, session)?;
    if !room {
        println!(rt; "no room for an event, and none lost")?;
    }
    Ok(())
}

#[test]
fn no_event_is_lost(rt: HostRuntime) -> Result<(), Fail> {
    let alloc = rt.alloc();
    let stream = script_of(alloc, "header start-ok tune-ok open open-channel", "60")?;
    let mut session = Session::new(alloc, server(alloc)?, stream);
    let looked = pull_and_look(&rt, alloc, &mut session);
    drop(session);
    looked
}
