//! Streams over TCP.
use crate::streams::assert_steps;
use amqp_io::{Socket, Stream};
use std::alloc::Global;
use std::io::{ErrorKind, IoSlice};
use std::net::{Net, TcpListener, TcpStream};
use std::process::Abort;
use std::test::Fail;

/// The two ends of a connection over the loopback device, the one that connects first.
pub(crate) fn connected(rt: &HostRuntime) -> Result<(Socket, Socket), Fail> {
    let listener = TcpListener::bind(rt, "127.0.0.1:0")?;
    let near = TcpStream::connect(rt, listener.local_addr()?)?;
    let (far, _) = listener.accept()?;
    Ok((Socket::new(near), Socket::new(far)))
}

fn assert_talk(
    rt: &impl Abort,
    alloc: Global,
    client: &mut Socket,
    server: &mut Socket,
) -> Result<(), Fail> {
    assert_steps(rt, alloc, client, "write 414d5150 = 4")?;
    assert_steps(rt, alloc, server, "read 16 = 414d5150")?;
    assert_steps(rt, alloc, server, "write 0100ce = 3")?;
    assert_steps(
        rt,
        alloc,
        client,
        "read 2 = 0100
        read 2 = ce",
    )
}

#[test]
fn octets_over_tcp(rt: HostRuntime) -> Result<(), Fail> {
    let (mut client, mut server) = connected(&rt)?;
    let outcome = assert_talk(&rt, rt.alloc(), &mut client, &mut server);
    drop(client);
    drop(server);
    outcome
}

/// Slices are written in one call, those without octets too.
fn assert_slices(
    rt: &impl Abort,
    alloc: Global,
    client: &mut Socket,
    server: &mut Socket,
) -> Result<(), Fail> {
    let slices = [IoSlice::new(b"AMQ"), IoSlice::new(b""), IoSlice::new(b"P")];
    let written = client.write_vectored(&slices);
    assert!(rt; written.ok() == Some(4));
    let none = client.write_vectored(&[IoSlice::new(b"")]);
    assert!(rt; none.ok() == Some(0));
    assert_steps(rt, alloc, server, "read 16 = 414d5150")
}

#[test]
fn slices_over_tcp(rt: HostRuntime) -> Result<(), Fail> {
    let (mut client, mut server) = connected(&rt)?;
    let outcome = assert_slices(&rt, rt.alloc(), &mut client, &mut server);
    drop(client);
    drop(server);
    outcome
}

/// A read that would block fails, and says so.
fn assert_blocked(rt: &impl Abort, alloc: Global, server: &mut Socket) -> Result<(), Fail> {
    assert!(rt; server.failure().is_none() && !server.would_block());
    server.get_ref().set_nonblocking(true)?;
    assert_steps(rt, alloc, server, "read 16 = fail")?;
    server.get_ref().set_nonblocking(false)?;
    assert_failure(rt, server, ErrorKind::WouldBlock);
    assert!(rt; server.would_block() && !server.was_interrupted());
    Ok(())
}

/// The last call that failed did so for a reason of this kind.
fn assert_failure(rt: &impl Abort, socket: &Socket, kind: ErrorKind) {
    let found = socket.failure().map(|why| why.kind());
    assert!(rt; found == Some(kind));
}

/// A connection whose peer is gone with octets that it did not read is broken, and does not only have to wait.
fn assert_reset(rt: &impl Abort, alloc: Global, server: &mut Socket) -> Result<(), Fail> {
    assert_steps(rt, alloc, server, "read 16 = fail")?;
    assert_failure(rt, server, ErrorKind::ConnectionReset);
    assert!(rt; !server.would_block() && !server.was_interrupted());
    Ok(())
}

#[test]
fn a_connection_that_is_reset(rt: HostRuntime) -> Result<(), Fail> {
    let (client, mut server) = connected(&rt)?;
    let written = assert_steps(&rt, rt.alloc(), &mut server, "write 414d5150 = 4");
    drop(client.into_inner());
    let reset = match written {
        Ok(()) => assert_reset(&rt, rt.alloc(), &mut server),
        Err(fail) => Err(fail),
    };
    drop(server);
    reset
}

#[test]
fn a_connection_that_has_nothing_to_read(rt: HostRuntime) -> Result<(), Fail> {
    let (client, mut server) = connected(&rt)?;
    let blocked = assert_blocked(&rt, rt.alloc(), &mut server);
    // The peer closes, and the input ends.
    drop(client.into_inner());
    blocked?;
    assert_steps(&rt, rt.alloc(), &mut server, "read 16 = end")
}
