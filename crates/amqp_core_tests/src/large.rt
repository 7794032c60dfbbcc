//! Many pieces, and a long body.
use crate::pairs::DEFAULT;
use crate::scripts::run;
use std::alloc::Global;
use std::test::Fail;

/// There is one event for each content, however it is cut.
fn forty_contents(alloc: Global) -> Result<String, Fail> {
    let mut script = String::from_str(alloc, "forty contents\n both open 1\n")?;
    for _ in 0..40 {
        script.push_str("server takes basic.publish/1 header-of-2/1 body-of-2/1 -> events 1\n")?;
    }
    Ok(script)
}

/// Octet by octet these are 2,000 pieces.
#[test]
fn many_pieces_are_taken(rt: HostRuntime) -> Result<(), Fail> {
    let script = forty_contents(rt.alloc())?;
    run(rt.alloc(), DEFAULT, &script)
}

/// The frames of the method and of the header have 40 octets; seven of the body have 131072, and the last one the rest.
/// The header itself has 14 octets.
static LONG_BODY: &str = "a long body
     both open 1
     client asks send-content 1 basic.publish 1000000 -> put
     client carries 40
     server gathered 1 -> 0
     server kept -> 14
     client carries 131072
     server gathered 1 -> 131064
     server kept -> 131078
     client carries 131071
     server gathered 1 -> 131064
     server pending -> 131071
     server kept -> 262149
     client carries 1
     server gathered 1 -> 262128
     client carries 131072
     server gathered 1 -> 393192
     client carries 524288
     server gathered 1 -> 917448
     server pending -> 0
     client delivers 1 1000000
     server gathered 1 -> 0
     server kept -> 0";

#[test]
fn a_long_body_is_taken(rt: HostRuntime) -> Result<(), Fail> {
    run(rt.alloc(), DEFAULT, LONG_BODY)
}
