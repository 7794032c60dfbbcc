//! `amqp`: reads AMQP 0-9-1 octets and says what they are, and speaks AMQP 0-9-1 with other programs.
#![tactic(auto)]

mod access;
mod asks;
mod checking;
mod hellos;
mod input;
mod linking;
mod looping;
mod notes;
mod printing;
mod progress;
mod publisher;
mod publishing;
mod readiness;
mod scripts;
mod serving;
mod sessions;
mod showing;
mod sockets;
mod words;

use crate::notes::Notes;
use crate::progress::Progress;
use crate::sockets::HERE;
use amqp_command::{Environment, Limits, Peer, Publication, Request, request_of};
use amqp_text::Load;
use std::alloc::Global;
use std::env::{self, VarError};
use std::io::{self, BufWriter, IsTerminal, Write};
use std::process::ExitCode;

fn main(rt: HostRuntime) -> anyhow::Result<ExitCode> {
    let alloc = rt.alloc();
    let words: Vec<String> = env::args(&rt)?.collect(alloc)?;
    let environment = Environment {
        url: variable(&rt, "AMQP_URL")?,
        password: variable(&rt, "AMQP_PASSWORD")?,
    };
    let request = match request_of(alloc, words.as_slice(), &environment) {
        Ok(request) => request,
        Err(error) => {
            error.print(&rt)?;
            return Ok(ExitCode::from(error.exit_code() as u8));
        }
    };
    let status = answer(&rt, alloc, request)?;
    Ok(ExitCode::from(status))
}

/// The variable of the environment, if it is set.
fn variable(rt: &HostRuntime, name: &str) -> io::Result<Option<String>> {
    match env::var(rt, name) {
        Ok(text) => Ok(Some(text)),
        Err(VarError::NotPresent) => Ok(None),
        Err(VarError::OutOfMemory) => Err(io::Error::from(io::ErrorKind::OutOfMemory)),
        Err(VarError::NotUnicode) => Err(io::Error::from(io::ErrorKind::InvalidData)),
    }
}

/// Does what is asked for, and answers the exit status.
fn answer(rt: &HostRuntime, alloc: Global, request: Request) -> anyhow::Result<u8> {
    let mut output = BufWriter::new(alloc, io::writer(rt))?;
    Ok(run(rt, alloc, request, &mut output))
}

fn run<W: Write>(rt: &HostRuntime, alloc: Global, request: Request, output: &mut W) -> u8 {
    match request {
        Request::Show(start) => showing::show(alloc, start, &mut rt.reader(), output),
        Request::Check(side, limits) => {
            checking::check_side(
                alloc,
                side,
                limits,
                &mut rt.reader(),
                output,
                &mut rt.stderr(),
            )
        }
        Request::Link(limits, gates) => {
            linking::link(alloc, limits, gates, &mut rt.reader(), output)
        }
        Request::Serve(peer, limits) => {
            sockets::serve_at(rt, alloc, &peer, limits, output, rt.stderr())
        }
        Request::Publish(peer, publication, limits) => {
            publish(rt, alloc, &peer, publication, limits, output)
        }
        Request::Loop(load, limits) => run_loop(rt, alloc, load, limits, output),
    }
}

fn publish<W: Write>(
    rt: &HostRuntime,
    alloc: Global,
    peer: &Peer,
    publication: Publication,
    limits: Limits,
    output: &mut W,
) -> u8 {
    let mut notes = Notes::new(peer.address.as_str(), rt.stderr());
    let input = &mut rt.reader();
    sockets::publish_at(
        rt,
        alloc,
        peer,
        publication,
        limits,
        input,
        output,
        &mut notes,
    )
}

fn run_loop<W: Write>(
    rt: &HostRuntime,
    alloc: Global,
    load: Load,
    limits: Limits,
    output: &mut W,
) -> u8 {
    let mut notes = Notes::new(HERE, rt.stderr());
    let mut progress = Progress::new(rt.stderr(), rt.stderr().is_terminal());
    sockets::loop_here(rt, alloc, load, limits, output, &mut notes, &mut progress)
}
