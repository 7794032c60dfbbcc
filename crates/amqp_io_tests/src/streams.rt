//! A stream in memory that moves octets in small parts and fails in mid-stream.
use crate::octets::{digits, octets_of};
use crate::scripts::script_of;
use crate::steps::{Step, assert_answer, assert_text, no_step, step_on};
use amqp_io::{Script, Stream, StreamFailed};
use std::alloc::Global;
use std::process::Abort;
use std::test::Fail;

/// Reads into that much room, and says which octets came, that the input has ended, or that the read failed.
fn read<S: Stream>(alloc: Global, stream: &mut S, room: usize) -> Result<String, Fail> {
    let mut buffer = Vec::new(alloc);
    buffer.resize(room, 0)?;
    match stream.read(&mut buffer) {
        Ok(0) => Ok(String::from_str(alloc, "end")?),
        Ok(count) => Ok(hex::encode(alloc, &buffer[..count])?),
        Err(StreamFailed) => Ok(String::from_str(alloc, "fail")?),
    }
}

/// Writes the octets, and says how many the stream took, or that the write failed.
fn write<S: Stream>(alloc: Global, stream: &mut S, words: &str) -> Result<String, Fail> {
    let octets = octets_of(alloc, words)?;
    match stream.write(&octets) {
        Ok(count) => Ok(format!(in alloc; "{count}")?),
        Err(StreamFailed) => Ok(String::from_str(alloc, "fail")?),
    }
}

fn answer_to<S: Stream>(alloc: Global, stream: &mut S, step: Step<'_>) -> Result<String, Fail> {
    match step.word {
        "read" => read(alloc, stream, step.argument.parse::<usize>()?),
        "write" => write(alloc, stream, step.argument),
        word => no_step(alloc, word),
    }
}

fn assert_step<S: Stream>(
    rt: &impl Abort,
    alloc: Global,
    stream: &mut S,
    step: Step<'_>,
) -> Result<(), Fail> {
    let answer = answer_to(alloc, stream, step)?;
    assert_answer(rt, alloc, step, answer.as_str(), step.wanted)
}

/// The steps on the lines, one after the other.
pub(crate) fn assert_steps<S: Stream>(
    rt: &impl Abort,
    alloc: Global,
    stream: &mut S,
    steps: &str,
) -> Result<(), Fail> {
    for (place, line) in steps.lines().enumerate() {
        if let Some(step) = step_on(alloc, place, line)? {
            assert_step(rt, alloc, stream, step)?;
        }
    }
    Ok(())
}

/// What a script has still to give, and what it took.
fn assert_left(
    rt: &impl Abort,
    alloc: Global,
    script: &Script,
    unread: &str,
    written: &str,
) -> Result<(), Fail> {
    let found = hex::encode(alloc, script.unread())?;
    assert_text(
        rt,
        found.as_str(),
        digits(alloc, unread)?.as_str(),
        "unread",
    );
    let found = hex::encode(alloc, script.written())?;
    assert_text(
        rt,
        found.as_str(),
        digits(alloc, written)?.as_str(),
        "written",
    );
    Ok(())
}

/// The answers go on, whichever way the octets go, and through references too. Once they are used up, a read gives what
/// fits.
fn assert_given_and_taken(rt: &impl Abort, alloc: Global, script: &mut Script) -> Result<(), Fail> {
    assert_steps(rt, alloc, script, "read 4 = 0102")?;
    assert_steps(
        rt,
        alloc,
        &mut &mut *script,
        "write 0b0c0d0e0f10 = 3
        write 0e0f10 = 1
        write 0f10 = 2",
    )?;
    assert_left(rt, alloc, script, "0304050607", "0b0c0d0e0f10")?;
    assert_steps(
        rt,
        alloc,
        script,
        "read 4 = 03040506
        read 4 = 07
        read 4 = end",
    )
}

#[test]
fn octets_given_and_taken_in_parts(rt: HostRuntime) -> Result<(), Fail> {
    let mut script = script_of(rt.alloc(), "01020304050607", "2 3 1 9")?;
    let outcome = assert_given_and_taken(&rt, rt.alloc(), &mut script);
    drop(script);
    outcome
}

fn assert_failures(rt: &impl Abort, alloc: Global, script: &mut Script) -> Result<(), Fail> {
    assert_steps(
        rt,
        alloc,
        script,
        "write header = 3
        write 5000000901 = fail
        write 5000000901 = 3
        write 0901 = 0",
    )?;
    assert_left(rt, alloc, script, "1516", "414d51500000")?;
    assert_steps(
        rt,
        alloc,
        script,
        "read 4 = fail
        read 4 = 15
        read 4 = end",
    )?;
    // The input ended in mid-stream, and goes on.
    assert_left(rt, alloc, script, "16", "414d51500000")?;
    assert_steps(
        rt,
        alloc,
        script,
        "read 4 = 16
        write 0901 = 2",
    )?;
    assert_left(rt, alloc, script, "-", "header")
}

#[test]
fn failures_in_mid_stream(rt: HostRuntime) -> Result<(), Fail> {
    let mut script = script_of(rt.alloc(), "1516", "3 fail 3 end fail 1 end")?;
    let outcome = assert_failures(&rt, rt.alloc(), &mut script);
    drop(script);
    outcome
}

fn assert_long_write(rt: &impl Abort, script: &mut Script, octets: &[u8]) {
    assert!(rt; script.write(octets) == Ok(20_000));
    assert!(rt; script.written() == octets);
}

fn assert_long_read(
    rt: &impl Abort,
    alloc: Global,
    script: &mut Script,
    octets: &[u8],
) -> Result<(), Fail> {
    let mut buffer = vec![in alloc; 0; 4096]?;
    assert!(rt; script.read(&mut buffer) == Ok(4096));
    assert!(rt; Some(buffer.as_slice()) == octets.get(..4096));
    assert!(rt; Some(script.unread()) == octets.get(4096..));
    Ok(())
}

/// Writes the octets, and reads the same ones.
fn assert_long(rt: &impl Abort, alloc: Global, octets: &[u8]) -> Result<(), Fail> {
    let mut script = Script::new(Vec::from_slice(alloc, octets)?, Vec::new(alloc));
    assert_long_write(rt, &mut script, octets);
    let outcome = assert_long_read(rt, alloc, &mut script, octets);
    drop(script);
    outcome
}

#[test]
fn a_long_write_and_a_long_read(rt: HostRuntime) -> Result<(), Fail> {
    let octets = vec![in rt.alloc(); 0x5a; 20_000]?;
    assert_long(&rt, rt.alloc(), &octets)
}
