//! Sessions over streams in memory, step by step.
use crate::ends::{client, server};
use crate::octets::digits;
use crate::scripts::script_of;
use crate::steps::{Step, assert_answer, assert_text, no_step, step_on};
use amqp_core::{Ask, End, Event, Role};
use amqp_io::{Script, Session, Stream};
use std::alloc::Global;
use std::fmt::Debug;
use std::process::Abort;
use std::test::Fail;

/// A session, and what is to come of it.
#[derive(Clone, Copy)]
struct Case {
    /// the octets that the stream gives, by name or as digits
    reads: &'static str,
    /// what the stream does, call by call
    answers: &'static str,
    /// what is called, with the answers that are wanted, and what is seen in between
    steps: &'static str,
    /// what is seen of the end and of the stream that the session gives back
    parts: &'static str,
}

/// An answer as `Debug` prints it.
fn debugged<T: Debug + Drop>(alloc: Global, answer: T) -> Result<String, Fail> {
    Ok(format!(in alloc; "{answer:?}")?)
}

fn event_text(alloc: Global, event: &Option<Event>) -> Result<String, Fail> {
    match event {
        Some(event) => Ok(format!(in alloc; "{event}")?),
        None => Ok(String::from_str(alloc, "none")?),
    }
}

fn next_event<R: Role, S: Stream>(
    alloc: Global,
    session: &mut Session<R, S>,
) -> Result<String, Fail> {
    let event = session.next_event();
    let text = event_text(alloc, &event);
    drop(event);
    text
}

/// The session tells these events, a line each, and no others.
pub(crate) fn assert_events<R: Role, S: Stream>(
    rt: &impl Abort,
    alloc: Global,
    session: &mut Session<R, S>,
    wanted: &str,
) -> Result<(), Fail> {
    for line in wanted.lines() {
        let event = next_event(alloc, session)?;
        assert_text(rt, event.as_str(), line.trim(), "event");
    }
    let event = next_event(alloc, session)?;
    assert_text(rt, event.as_str(), "none", "event");
    Ok(())
}

fn answer_to<R: Role>(
    alloc: Global,
    session: &mut Session<R, Script>,
    step: Step<'_>,
) -> Result<String, Fail> {
    match step.word {
        "push" => debugged(alloc, session.push(step.argument.parse::<usize>()?)),
        "pull" => debugged(alloc, session.pull()),
        "turn" => debugged(alloc, session.turn()),
        "open" => debugged(alloc, session.ask(&Ask::Open)),
        "event" => next_event(alloc, session),
        word => no_step(alloc, word),
    }
}

/// Whether a word says at what to look, and not what to do.
fn looks(word: &str) -> bool {
    matches!(word, "phase" | "pending" | "output" | "written" | "unread")
}

/// What is seen of an end and its stream.
fn seen<R: Role>(alloc: Global, end: &End<R>, stream: &Script, word: &str) -> Result<String, Fail> {
    match word {
        "phase" => debugged(alloc, end.phase()),
        "pending" => debugged(alloc, end.pending()),
        "output" => Ok(hex::encode(alloc, end.output())?),
        "written" => Ok(hex::encode(alloc, stream.written())?),
        "unread" => Ok(hex::encode(alloc, stream.unread())?),
        word => no_step(alloc, word),
    }
}

/// The answer that a step wants. Octets may be named.
fn wanted(alloc: Global, step: Step<'_>) -> Result<String, Fail> {
    match step.word {
        "output" | "written" | "unread" => digits(alloc, step.wanted),
        _ => Ok(String::from_str(alloc, step.wanted)?),
    }
}

fn assert_seen<R: Role>(
    rt: &impl Abort,
    alloc: Global,
    end: &End<R>,
    stream: &Script,
    step: Step<'_>,
) -> Result<(), Fail> {
    let answer = seen(alloc, end, stream, step.word)?;
    let wanted = wanted(alloc, step)?;
    assert_answer(rt, alloc, step, answer.as_str(), wanted.as_str())
}

fn assert_step<R: Role>(
    rt: &impl Abort,
    alloc: Global,
    session: &mut Session<R, Script>,
    step: Step<'_>,
) -> Result<(), Fail> {
    if looks(step.word) {
        return assert_seen(rt, alloc, session.end(), session.stream(), step);
    }
    let answer = answer_to(alloc, session, step)?;
    assert_answer(rt, alloc, step, answer.as_str(), step.wanted)
}

fn assert_steps<R: Role>(
    rt: &impl Abort,
    alloc: Global,
    session: &mut Session<R, Script>,
    steps: &str,
) -> Result<(), Fail> {
    for (place, line) in steps.lines().enumerate() {
        if let Some(step) = step_on(alloc, place, line)? {
            assert_step(rt, alloc, session, step)?;
        }
    }
    Ok(())
}

fn assert_parts<R: Role>(
    rt: &impl Abort,
    alloc: Global,
    end: &End<R>,
    stream: &Script,
    parts: &str,
) -> Result<(), Fail> {
    for (place, line) in parts.lines().enumerate() {
        if let Some(step) = step_on(alloc, place, line)? {
            assert_seen(rt, alloc, end, stream, step)?;
        }
    }
    Ok(())
}

fn assert_session<R: Role>(
    rt: &impl Abort,
    alloc: Global,
    end: End<R>,
    stream: Script,
    case: Case,
) -> Result<(), Fail> {
    let mut session = Session::new(alloc, end, stream);
    let followed = assert_steps(rt, alloc, &mut session, case.steps);
    let (end, stream) = session.into_parts();
    let done = match followed {
        Ok(()) => assert_parts(rt, alloc, &end, &stream, case.parts),
        Err(fail) => Err(fail),
    };
    drop(end);
    drop(stream);
    done
}

fn assert_client(rt: &impl Abort, alloc: Global, case: Case) -> Result<(), Fail> {
    let stream = script_of(alloc, case.reads, case.answers)?;
    assert_session(rt, alloc, client(alloc)?, stream, case)
}

fn assert_server(rt: &impl Abort, alloc: Global, case: Case) -> Result<(), Fail> {
    let stream = script_of(alloc, case.reads, case.answers)?;
    assert_session(rt, alloc, server(alloc)?, stream, case)
}

/// What a server writes in the handshake, to a client. Tune comes in two reads.
static CLIENT: Case = Case {
    reads: "start tune open-ok",
    answers: "8 36 44 7 13 36",
    steps: "
        # The server waits for the header, so that it is pushed first.
        push 100 = Ok(8)
        written = header
        turn = Ok(())
        written = header start-ok
        # No frame is whole, and nothing is written.
        turn = Ok(())
        pending = 7
        written = header start-ok
        turn = Ok(())
        written = header start-ok tune-ok open
        pull = Ok(13)
        phase = Running
        event = quiet
        event = quiet
        event = negotiated 2047 131072
        event = none
        open = Ok(Some(1))
        push 5 = Ok(5)",
    parts: "
        output = 00050014000a00ce
        written = header start-ok tune-ok open 0100010000",
};

#[test]
fn a_client_session_from_the_header_on(rt: HostRuntime) -> Result<(), Fail> {
    assert_client(&rt, rt.alloc(), CLIENT)
}

/// What the client of that handshake writes, to a server.
static SERVER: Case = Case {
    reads: "header start-ok tune-ok open open-channel",
    answers: "8 36 44 20",
    steps: "
        turn = Ok(())
        written = start
        turn = Ok(())
        written = start tune
        # The rest comes in one read: tune-ok, open and the open of a channel.
        pull = Ok(49)
        event = quiet
        event = quiet
        event = quiet
        event = negotiated 2047 131072
        event = opened 1
        event = none
        push 13 = Ok(13)",
    parts: "
        output = channel-opened
        written = start tune open-ok",
};

#[test]
fn a_server_session_from_the_header_on(rt: HostRuntime) -> Result<(), Fail> {
    assert_server(&rt, rt.alloc(), SERVER)
}

static FAILING_PUSHES: Case = Case {
    reads: "-",
    answers: "3 fail 3 end",
    steps: "
        push 8 = Err(Write)
        output = 5000000901
        push 3 = Ok(3)
        output = 0901
        # Nothing is to be written, so that no answer is used.
        push 0 = Ok(0)
        push 8 = Err(Write)
        output = 0901
        push 8 = Ok(2)",
    parts: "
        output = -
        written = header",
};

#[test]
fn a_push_that_fails_and_goes_on(rt: HostRuntime) -> Result<(), Fail> {
    assert_client(&rt, rt.alloc(), FAILING_PUSHES)
}

static FAILING_READS: Case = Case {
    reads: "header",
    answers: "fail 4 fail end",
    steps: "
        pull = Err(Read)
        pull = Ok(4)
        turn = Err(Read)
        # The input ends in mid-stream, and goes on.
        turn = Err(EndOfInput)
        pending = 4
        event = none
        pull = Ok(4)
        event = quiet
        pull = Err(EndOfInput)",
    parts: "
        output = start
        unread = -",
};

#[test]
fn reads_that_fail_and_an_end_of_input(rt: HostRuntime) -> Result<(), Fail> {
    assert_server(&rt, rt.alloc(), FAILING_READS)
}

/// A frame above the limit, after the protocol header, with octets after it.
static FAULT: Case = Case {
    reads: "header 01000000000ff9 header",
    answers: "20",
    steps: "
        turn = Err(Core(Peer(FrameError)))
        # Nothing was written, and the event before the fault is there.
        written = -
        event = quiet
        event = none
        # The octets after the fault were dropped. The next ones are read, and the end takes no more.
        pull = Err(Core(Failed))
        unread = -
        push 1000 = Ok(66)
        phase = Failed",
    parts: "
        output = -
        written = start close-501",
};

#[test]
fn a_close_that_is_pushed_after_a_fault(rt: HostRuntime) -> Result<(), Fail> {
    assert_server(&rt, rt.alloc(), FAULT)
}

/// Writes and reads stop in the middle of a frame, by a failure and by a call that moves nothing.
static INTERRUPTED_CLIENT: Case = Case {
    reads: "start tune open-ok",
    answers: "3 fail 5 20 fail 16 10 fail fail 34 7 end 13 20 end 16 13",
    steps: "
        push 100 = Err(Write)
        written = 414d51
        push 100 = Ok(5)
        pull = Ok(20)
        pull = Err(Read)
        pending = 20
        turn = Err(Write)
        written = header 01000000000024000a00
        event = quiet
        # Where the pull fails, nothing is written.
        turn = Err(Read)
        written = header 01000000000024000a00
        push 100 = Ok(34)
        written = header start-ok
        turn = Ok(())
        turn = Err(EndOfInput)
        pending = 7
        event = none
        turn = Err(Write)
        written = header start-ok tune-ok
        push 100 = Ok(16)
        turn = Ok(())
        phase = Running
        event = quiet
        event = negotiated 2047 131072
        event = none",
    parts: "
        output = -
        unread = -
        written = header start-ok tune-ok open",
};

#[test]
fn a_client_whose_stream_fails_completes_the_handshake(rt: HostRuntime) -> Result<(), Fail> {
    assert_client(&rt, rt.alloc(), INTERRUPTED_CLIENT)
}

static INTERRUPTED_SERVER: Case = Case {
    reads: "header start-ok tune-ok open open-channel",
    answers: "fail 5 fail 3 20 fail 16 30 fail 14 10 fail end 10 25 11 1 fail 12 13 5 fail 11",
    steps: "
        turn = Err(Read)
        turn = Ok(())
        turn = Err(Read)
        pending = 5
        turn = Err(Write)
        written = 0100000000001c000a000a000900000000000000
        event = quiet
        push 100 = Ok(16)
        written = start
        turn = Ok(())
        pull = Err(Read)
        pending = 30
        turn = Err(Write)
        written = start 0100000000000c000a00
        turn = Err(EndOfInput)
        push 100 = Ok(10)
        written = start tune
        event = quiet
        # tune-ok, and five octets of open
        turn = Ok(())
        event = quiet
        event = none
        turn = Err(Write)
        written = start tune 01
        push 100 = Ok(12)
        written = start tune open-ok
        event = negotiated 2047 131072
        turn = Err(Write)
        push 100 = Ok(11)
        event = opened 1
        event = none",
    parts: "
        output = -
        unread = -
        written = start tune open-ok channel-opened",
};

#[test]
fn a_server_whose_stream_fails_completes_the_handshake(rt: HostRuntime) -> Result<(), Fail> {
    assert_server(&rt, rt.alloc(), INTERRUPTED_SERVER)
}

/// The input stays at its end, and the output can still be pushed.
static ENDED: Case = Case {
    reads: "header 0100",
    answers: "",
    steps: "
        pull = Ok(10)
        pull = Err(EndOfInput)
        turn = Err(EndOfInput)
        pull = Err(EndOfInput)
        written = -
        pending = 2
        event = quiet
        event = none
        push 100 = Ok(36)",
    parts: "
        output = -
        written = start",
};

#[test]
fn pulls_after_the_end_of_the_input(rt: HostRuntime) -> Result<(), Fail> {
    assert_server(&rt, rt.alloc(), ENDED)
}

/// The failure waits for the first call, which is no write.
static NOTHING_TO_WRITE: Case = Case {
    reads: "start",
    answers: "8 fail",
    steps: "
        push 0 = Ok(0)
        push 8 = Ok(8)
        push 0 = Ok(0)
        push 100 = Ok(0)
        pull = Err(Read)
        push 100 = Ok(0)
        pull = Ok(36)",
    parts: "
        output = start-ok
        written = header",
};

#[test]
fn a_push_of_nothing_calls_no_write(rt: HostRuntime) -> Result<(), Fail> {
    assert_client(&rt, rt.alloc(), NOTHING_TO_WRITE)
}
