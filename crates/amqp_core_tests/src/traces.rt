//! Ends that are kept with their histories: what they note, tell and say, and the octets that they were fed and have
//! put.
use crate::asks::ask_in;
use crate::octets::octets_of;
use crate::pairs::{client_hello, server_hello};
use crate::trouble::Trouble;
use amqp_core::{
    Cause, Client, Config, CoreFault, Direction, End, Item, Note, Role, Server, Telling, Traced,
};
use amqp_method::Kind;
use std::alloc::Global;
use std::process::Abort;
use std::test::Fail;

/// What the applications ask, one after another. After each ask all octets are carried.
static ASKED: &str = "client open
client send-content 1 basic.publish 2
server flow 1 off
client close-channel 1
client open
client send 1 tx.select";

/// The handshake, and then what is asked. Only the frames of channels above 0 have words of their own.
static CLIENT_NOTES: &str = "0<Other 0>Other 0<Other 0>Other 0>Other 0<Other \
     1>Open 1<OpenOk 1>Other 1>Other 1>Other 1<Flow 1>FlowOk 1>Close 1<CloseOk 1>Open 1<OpenOk 1>Other ";

static SERVER_NOTES: &str = "0>Other 0<Other 0>Other 0<Other 0<Other 0>Other \
     1<Open 1>OpenOk 1<Other 1<Other 1<Other 1>Flow 1<FlowOk 1<Close 1>CloseOk 1<Open 1>OpenOk 1<Other ";

/// Channel and life of each item: after its close the channel has its second life.
static CLIENT_SAID: &str = "1.1:message 1.1:flow-ok-off 1.2:message ";

static SERVER_SAID: &str = "1.1:flow-off ";

/// An end as it begins, kept with its history.
fn traced<R: Role>(alloc: Global, config: Config<R>) -> Result<Traced<R>, Trouble> {
    let Ok(end) = End::new(alloc, config) else {
        return Err(Trouble::NotReadable);
    };
    match Traced::new(end) {
        Ok(traced) => Ok(traced),
        Err(_) => Err(Trouble::OutOfMemory),
    }
}

fn client(alloc: Global) -> Result<Traced<Client>, Trouble> {
    match client_hello(alloc, 0) {
        Ok(hello) => traced(alloc, Config::new(hello)),
        Err(_) => Err(Trouble::OutOfMemory),
    }
}

fn server(alloc: Global) -> Result<Traced<Server>, Trouble> {
    match server_hello(alloc, 0) {
        Ok(hello) => traced(alloc, Config::new(hello)),
        Err(_) => Err(Trouble::OutOfMemory),
    }
}

/// Feeds a piece until all of it is taken, or a fault is found.
fn feed_all<R: Role>(traced: &mut Traced<R>, piece: &[u8]) -> Result<(), CoreFault> {
    let mut rest = piece;
    for _ in 0..piece.len() {
        if rest.is_empty() {
            break;
        }
        let taken = traced.feed(rest)?;
        let octets = taken.octets.min(rest.len());
        drop(taken);
        rest = &rest[octets..];
    }
    Ok(())
}

/// Carries all that one end has to write to the other.
fn carry<W: Role, R: Role>(
    writer: &mut Traced<W>,
    reader: &mut Traced<R>,
) -> Result<(), CoreFault> {
    let output = writer.output();
    let count = output.len();
    let fed = feed_all(reader, output);
    writer.wrote(count);
    fed
}

/// Carries until nothing waits: the longest way is the handshake's.
fn carry_all(client: &mut Traced<Client>, server: &mut Traced<Server>) -> Result<(), Trouble> {
    for _ in 0..3 {
        let Ok(()) = carry(client, server) else {
            return Err(Trouble::NotReadable);
        };
        let Ok(()) = carry(server, client) else {
            return Err(Trouble::NotReadable);
        };
    }
    Ok(())
}

fn ask_words<R: Role>(
    alloc: Global,
    traced: &mut Traced<R>,
    words: &[&str],
) -> Result<(), Trouble> {
    let ask = ask_in(alloc, words)?;
    let answer = traced.ask(&ask);
    drop(ask);
    match answer {
        Ok(_) => Ok(()),
        Err(_) => Err(Trouble::NotReadable),
    }
}

fn ask_line(
    alloc: Global,
    client: &mut Traced<Client>,
    server: &mut Traced<Server>,
    line: &str,
) -> Result<(), Trouble> {
    let Ok(words) = line.split_whitespace().collect::<Vec<&str>>(alloc) else {
        return Err(Trouble::OutOfMemory);
    };
    match words.as_slice() {
        ["client", asked @ ..] => ask_words(alloc, client, asked)?,
        ["server", asked @ ..] => ask_words(alloc, server, asked)?,
        _ => return Err(Trouble::UnknownWord),
    }
    carry_all(client, server)
}

fn ask_all(
    alloc: Global,
    client: &mut Traced<Client>,
    server: &mut Traced<Server>,
) -> Result<(), Trouble> {
    carry_all(client, server)?;
    for line in ASKED.split('\n') {
        ask_line(alloc, client, server, line)?;
    }
    Ok(())
}

fn note_text(alloc: Global, note: Note) -> Result<String, Fail> {
    let channel = note.channel;
    let word = note.word;
    match note.direction {
        Direction::Put => Ok(format!(in alloc; "{channel}>{word:?} ")?),
        Direction::Took => Ok(format!(in alloc; "{channel}<{word:?} ")?),
    }
}

fn notes_text(alloc: Global, notes: &[Note]) -> Result<String, Fail> {
    let mut text = String::new(alloc);
    for note in notes.iter().copied() {
        let one = note_text(alloc, note)?;
        text.push_str(&one)?;
    }
    Ok(text)
}

fn item_word(item: &Item) -> &'static str {
    match item {
        Item::Message(_) => "message",
        Item::Flow(true) => "flow-on",
        Item::Flow(false) => "flow-off",
        Item::FlowOk(true) => "flow-ok-on",
        Item::FlowOk(false) => "flow-ok-off",
    }
}

fn telling_text(alloc: Global, telling: &Telling) -> Result<String, Fail> {
    let channel = telling.channel;
    let life = telling.life;
    let item = item_word(&telling.item);
    Ok(format!(in alloc; "{channel}.{life}:{item} ")?)
}

fn tellings_text(alloc: Global, tellings: &[Telling]) -> Result<String, Fail> {
    let mut text = String::new(alloc);
    for telling in tellings {
        let one = telling_text(alloc, telling)?;
        text.push_str(&one)?;
    }
    Ok(text)
}

fn assert_text(rt: &impl Abort, found: &str, wanted: &str) {
    assert!(rt; found == wanted, "{found}, not {wanted}");
}

/// The lists of an end are these.
fn assert_lists<R: Role>(
    rt: &impl Abort,
    alloc: Global,
    traced: &Traced<R>,
    notes: &str,
    told: &str,
    said: &str,
) -> Result<(), Fail> {
    let found = notes_text(alloc, traced.notes())?;
    assert_text(rt, &found, notes);
    let found = tellings_text(alloc, traced.told())?;
    assert_text(rt, &found, told);
    let found = tellings_text(alloc, traced.said())?;
    assert_text(rt, &found, said);
    Ok(())
}

/// What one end was fed is what the other has put, all of which was written.
fn assert_carried<W: Role, R: Role>(
    rt: &impl Abort,
    writer: &Traced<W>,
    reader: &Traced<R>,
) -> Result<(), Fail> {
    let put = writer.put()?;
    assert!(rt; put.as_slice() == reader.fed());
    assert!(rt; writer.written() == reader.fed());
    assert!(rt; writer.output().is_empty());
    Ok(())
}

/// What the client closed its channel for: no method.
const NONE: Cause = Cause {
    class_id: 0,
    method_id: 0,
};

/// Each end has heard the other's part of the handshake, and a server that is made to forget it has no more of it.
fn assert_heard(rt: &impl Abort, client: &Traced<Client>, server: &mut Traced<Server>) {
    assert!(rt; client.heard(Kind::ConnectionTune).is_some());
    assert!(rt; client.closed_for() == None);
    assert!(rt; server.heard(Kind::ConnectionTuneOk).is_some());
    server.forget_heard();
    assert!(rt; server.heard(Kind::ConnectionTuneOk).is_none());
    assert!(rt; server.closed_for() == Some(NONE));
}

fn trace_both(
    rt: &impl Abort,
    alloc: Global,
    client: &mut Traced<Client>,
    server: &mut Traced<Server>,
) -> Result<(), Fail> {
    let Ok(()) = ask_all(alloc, client, server) else {
        return Err("a step was not done".into());
    };
    assert_lists(rt, alloc, client, CLIENT_NOTES, SERVER_SAID, CLIENT_SAID)?;
    assert_lists(rt, alloc, server, SERVER_NOTES, CLIENT_SAID, SERVER_SAID)?;
    assert_carried(rt, client, server)?;
    assert_carried(rt, server, client)?;
    assert_heard(rt, client, server);
    Ok(())
}

#[test]
fn a_connection_is_traced(rt: HostRuntime) -> Result<(), Fail> {
    let alloc = rt.alloc();
    let Ok(mut client) = client(alloc) else {
        return Err("no client".into());
    };
    let Ok(mut server) = server(alloc) else {
        drop(client);
        return Err("no server".into());
    };
    let traced = trace_both(&rt, alloc, &mut client, &mut server);
    drop(client);
    drop(server);
    traced
}

/// The protocol header, and a frame that would have 4097 octets: its seventh octet shows so. Two octets more come after
/// it.
static TOO_LONG: &str = "414d515000000901 01000000000ff9 0000";

fn trace_fault(rt: &impl Abort, alloc: Global, server: &mut Traced<Server>) -> Result<(), Fail> {
    let words: Vec<&str> = TOO_LONG.split_whitespace().collect(alloc)?;
    let Ok(piece) = octets_of(alloc, &words) else {
        return Err("no octets".into());
    };
    assert!(rt; feed_all(server, &piece).is_err());
    assert!(rt; server.fed() == &piece[..piece.len().saturating_sub(2)]);
    // start, and the close that is put for the fault
    assert_lists(rt, alloc, server, "0>Other 0>Other ", "", "")
}

#[test]
fn a_fault_is_traced(rt: HostRuntime) -> Result<(), Fail> {
    let Ok(mut server) = server(rt.alloc()) else {
        return Err("no server".into());
    };
    let traced = trace_fault(&rt, rt.alloc(), &mut server);
    drop(server);
    traced
}
