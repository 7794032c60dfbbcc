//! The contents that a server was told, measured against those that were published to it.
ghost use Rattle.std.specs.Prelude.{◌≡◌, ◌+◌, ◌^◌, ◌⊎◌, ◌↔◌, List, [], ◌∷◌, false, true, IsTrue, IfOk, OnOk};
ghost use Rattle.std.specs.Io.KnownBytes.{Appends};
ghost use Rattle.amqp_channel.specs.declared.events.Event.{Event};
ghost use Rattle.amqp_method.specs.MessageView.{message_view};
ghost use Rattle.amqp_method.specs.MethodView.{method_view};
ghost use Rattle.amqp_text.specs.Tallies.{body_of, HasText, HasBody, Publishes, AreExactly, Heard, CountsOne, HearsAnother, outcome_line, outcome_status};

use crate::statuses::{DONE, FAULT};
use amqp_channel::Event;
use amqp_method::{Kind, Message, Method, OutOfMemory};
use std::alloc::Global;
use std::io::{self, Write};

/// How many contents are published, and how many octets each of them has.
#[derive(Clone, Copy)]
pub struct Load {
    pub count: u32,
    pub size: u32,
}

/// The exchange that the contents are published to: the one without a name.
pub const EXCHANGE: &[u8] = b"";

/// The routing key of the contents.
pub const KEY: &[u8] = b"loop";

/// A body of this size: the octet at each place is the place modulo 256.
pub fn pattern(alloc: Global, size: usize) -> Result<Vec<u8>, OutOfMemory>
    ensures { IfOk result (λ body. body.items ≡ body_of size) }
{
    let mut body = Vec::new(alloc);
    body.try_reserve_exact(size)?;
    for place in 0..size {
        body.push((place % 256) as u8)?;
    }
    Ok(body)
}

/// What a server was told.
#[derive(Drop)]
pub struct Tally {
    /// the body of each content that is awaited
    body: Vec<u8>,
    /// how many of these came
    contents: u64,
    /// something else came, or more than can be counted
    others: bool,
}

impl Tally {
    /// Nothing came yet of contents with this body.
    pub fn new(body: Vec<u8>) -> Tally
        ensures heard { Heard result [] }
        ensures body { result.body.items ≡ body.items }
    {
        Tally {
            body,
            contents: 0,
            others: false,
        }
    }

    /// How many of the contents came.
    pub fn contents(&self) -> u64
        ensures { result ≡ self.now.contents }
    {
        self.contents
    }

    /// Whether so many of the contents came, and no other message.
    pub fn is_of(&self, count: u32) -> bool
        ensures { (events : List Event) → Heard self.now events
            → IsTrue result ↔ AreExactly self.now.body.items count events }
    {
        self.contents == u64::from(count) && !self.others
    }

    /// Counts what an event reports.
    pub fn hear(&mut self, event: &Event)
        ensures counted { (events : List Event) → Heard self.old events → Heard self.new (event.now ∷ events) }
        ensures body { self.new.body.items ≡ self.old.body.items }
    {
        let Event::Told(_, message) = event else {
            return;
        };
        self.hear_message(message);
    }

    fn hear_message(&mut self, message: &Message)
        ensures content { self.new.others ≡ false → CountsOne self.old self.new (message_view message.now) }
        ensures other { self.new.others ≡ true → HearsAnother self.old (message_view message.now) }
        ensures body { self.new.body.items ≡ self.old.body.items }
    {
        if !is_content(message, &self.body) {
            self.others = true;
            return;
        }
        match self.contents.checked_add(1) {
            Some(contents) => self.contents = contents,
            None => self.others = true,
        }
    }
}

/// Whether the argument at this place is this short string.
fn has_text(method: &Method, place: usize, text: &[u8]) -> bool
    ensures { IsTrue result ↔ HasText place (method_view method.now) text.now }
{
    match method.short_str_at(place) {
        Some(found) => found.as_bytes() == text,
        None => false,
    }
}

/// Whether a content with this body follows the method.
fn has_body(message: &Message, body: &[u8]) -> bool
    ensures { IsTrue result ↔ HasBody body.now (message_view message.now) }
{
    match message.content_parts() {
        Some((_, told)) => told == body,
        None => false,
    }
}

/// Whether the message publishes this body to the exchange without a name, with the key of the loop.
fn is_content(message: &Message, body: &[u8]) -> bool
    ensures { IsTrue result ↔ Publishes body.now (message_view message.now) }
{
    let method = message.method();
    if method.kind() != Kind::BasicPublish {
        return false;
    }
    if !has_text(method, 0, EXCHANGE) || !has_text(method, 1, KEY) {
        return false;
    }
    has_body(message, body)
}

/// Prints how many contents came, or that others came or fewer, and answers the exit status.
pub fn print_outcome<W: Write>(came: bool, load: Load, output: &mut W) -> io::Result<u8>
    ensures printed { OnOk result (Appends (W.contents output.old) (W.contents output.new) (outcome_line came load)) }
    ensures status { IfOk result (λ status. status ≡ outcome_status came) }
{
    if came {
        let Load { count, size } = load;
        writeln!(output, "{count} contents of {size} octets")?;
        return Ok(DONE);
    }
    writeln!(output, "fault short")?;
    Ok(FAULT)
}
