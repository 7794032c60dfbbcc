//! How a connection ends: by a close, or by a fault.
use crate::pairs::DEFAULT;
use crate::scripts::run_all;
use std::test::Fail;

static SCRIPTS: [&str; 4] = [
    "a connection closes
     both open 1
     client asks close -> put
     client shows connection.close/0
     client phase -> Closing
     client channel 1 -> Open
     client carries all
     server phase -> Closed
     server channel 1 -> Free
     server shows connection.close-ok/0
     server carries all
     client phase -> Closed
     client channel 1 -> Free
     server takes 'x -> Closed",
    // A reply to no request is a fault. Its close can still be written, and is answered.
    "a failed end writes its close
     both open 1
     client takes tx.select-ok/1 -> 503
     client phase -> Failed
     client channel 1 -> Free
     client takes tx.select-ok/1 -> Failed
     client asks close -> 1 NotRunning
     client shows command-invalid/0
     client carries all
     client shows nothing
     client phase -> Failed
     server phase -> Closed
     server shows connection.close-ok/0
     server loses 12
     server shows nothing",
    // Before tune-ok frames of 4096 octets are taken, and no longer ones.
    "a frame too long by one octet
     client carries all
     server loses 36
     server takes 01000000000f -> events 0
     server pending -> 6
     server takes f9 -> 501
     server phase -> Failed
     server shows frame-error/0",
    "the longest frame
     client carries all
     server takes 01000000000ff8 -> events 0
     server pending -> 7",
];

#[test]
fn connections_end(rt: HostRuntime) -> Result<(), Fail> {
    run_all(rt.alloc(), DEFAULT, &SCRIPTS)
}
