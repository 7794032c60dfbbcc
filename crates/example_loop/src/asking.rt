//! Asks that are passed on as they stand.
ghost use Rattle.std.specs.Prelude.{◌≡◌, Some, OnErr};
ghost use Rattle.amqp_core.specs.Asks.View.{ask_view};
ghost use Rattle.amqp_core.specs.Stream.Asks.{StreamAsked};
ghost use Rattle.example_loop.specs.AskingView.{about_kind, asking_view, closes};

use crate::contents::{Content, octets_of};
use amqp_core::{Ask, AskFault, Role, StreamEnd};
use amqp_method::Kind;

/// An ask that waits until an end can take it.
pub enum Asking {
    /// Of a close: with the kind of the method that it is about, if it names one.
    Plain(Ask, Option<Kind>),
    Content(u16, Content),
}

/// Written out, so that it is proved once.
impl Drop for Asking {
    fn drop(self) {
        match self {
            Asking::Plain(ask, _) => drop(ask),
            Asking::Content(_, content) => drop(content),
        }
    }
}

impl Asking {
    pub fn octets(&self) -> usize {
        match self {
            Asking::Plain(Ask::Send(_, message), _) => octets_of(message.method()),
            Asking::Plain(_, _) => 512,
            Asking::Content(_, content) => content.octets(),
        }
    }

    pub fn closes(&self) -> bool
        ensures { result ≡ closes (asking_view self.now) }
    {
        matches!(
            self,
            Asking::Plain(Ask::CloseChannel(..) | Ask::Close(..), _)
        )
    }

    /// Asks it of an end. An ask that is refused stays as it was.
    pub fn put<R: Role>(&mut self, end: &mut StreamEnd<R>) -> Result<(), AskFault>
        ensures asked { StreamAsked end.old (asking_view self.old) result end.new }
        ensures kept { OnErr result (asking_view self.new ≡ asking_view self.old) }
    {
        match self {
            Asking::Plain(ask, about) => match *about {
                Some(kind) => put_about(end, ask, kind),
                None => put_ask(end, ask),
            },
            Asking::Content(channel, content) => content.send(end, *channel),
        }
    }
}

/// Asks something of an end, a close for a method of this kind.
fn put_about<R: Role>(end: &mut StreamEnd<R>, ask: &Ask, kind: Kind) -> Result<(), AskFault>
    ensures { StreamAsked end.old (about_kind (Some kind) (ask_view ask.now)) result end.new }
{
    match ask {
        Ask::CloseChannel(channel, code, text) => {
            end.close_channel_for(*channel, *code, text, kind)
        }
        Ask::Close(code, text) => end.close_for(*code, text, kind),
        _ => put_ask(end, ask),
    }
}

/// Asks something of an end. The number that an open takes isn't answered.
fn put_ask<R: Role>(end: &mut StreamEnd<R>, ask: &Ask) -> Result<(), AskFault>
    ensures { StreamAsked end.old (ask_view ask.now) result end.new }
{
    end.ask(ask)?;
    Ok(())
}
