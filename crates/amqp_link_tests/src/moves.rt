//! What is done in a game, as the dice say.
use crate::games::Game;
use crate::messages::{method, with_body};
use crate::steps::text;
use crate::trouble::Trouble;
use amqp_core::{Ask, Item, Side};
use amqp_link::Direction;
use amqp_method::Message;
use std::alloc::Global;

/// What a client sends: contents, requests, and one that it may not send.
static OF_CLIENTS: [&str; 8] = [
    "publish", "publish", "publish", "ack", "select", "declare", "get", "deliver",
];

/// What a server sends: contents, and replies to the client's requests.
static OF_SERVERS: [&str; 9] = [
    "deliver",
    "deliver",
    "deliver",
    "ack",
    "select-ok",
    "declare-ok",
    "get-ok",
    "get-empty",
    "cancel",
];

/// The most connections of a game.
const CONNECTIONS: usize = 3;

/// One of some names.
fn picked(names: &[&'static str], place: usize) -> &'static str {
    match names.get(place) {
        Some(name) => *name,
        None => "select",
    }
}

fn numbered_ack(alloc: Global, number: u64) -> Result<Message, Trouble> {
    let mut octets = Vec::from_slice(alloc, &[0, 60, 0, 80])?;
    octets.extend_from_slice(&number.to_be_bytes())?;
    octets.push(0)?;
    let method = method(alloc, &octets)?;
    if method.kind().has_content() {
        drop(method);
        return Err(Trouble::NotMethod);
    }
    Ok(Message::plain(method))
}

/// A body that begins with a number.
fn numbered_body(alloc: Global, number: u64, more: usize) -> Result<Vec<u8>, Trouble> {
    let mut body = Vec::from_slice(alloc, &number.to_be_bytes())?;
    for place in 0..more {
        body.push((place % 251) as u8)?;
    }
    Ok(body)
}

impl Game {
    /// A connection, seldom one that hasn't begun.
    fn pick_connection(&mut self) -> usize {
        let connections = self.connections();
        if self.dice.once_in(50) {
            return connections;
        }
        self.dice.below(connections)
    }

    fn pick_side(&mut self) -> Side {
        if self.dice.once_in(2) {
            Side::Client
        } else {
            Side::Server
        }
    }

    fn pick_direction(&mut self) -> Direction {
        if self.dice.once_in(2) {
            Direction::ToServer
        } else {
            Direction::ToClient
        }
    }

    /// One of the channels, seldom one of which there is none.
    fn pick_channel(&mut self) -> u16 {
        match self.dice.below(40) {
            0 => 0,
            1 => 3,
            2..=12 => 2,
            _ => 1,
        }
    }

    /// Bodies of one frame, and seldom of several. Servers take up to 40 octets.
    fn pick_length(&mut self) -> usize {
        if self.dice.once_in(60) {
            5000
        } else {
            self.dice.below(35)
        }
    }

    fn pick_name(&mut self, side: Side) -> &'static str {
        match side {
            Side::Client => picked(&OF_CLIENTS, self.dice.below(OF_CLIENTS.len())),
            Side::Server => picked(&OF_SERVERS, self.dice.below(OF_SERVERS.len())),
        }
    }

    /// A message of this name, with a body if a content follows it.
    fn pick_body(&mut self, alloc: Global, name: &str) -> Result<Message, Trouble> {
        let length = self.pick_length();
        let body = numbered_body(alloc, self.messages, length)?;
        with_body(alloc, name, body)
    }

    fn pick_message(&mut self, alloc: Global, side: Side) -> Result<Message, Trouble> {
        self.messages = self.messages.wrapping_add(1);
        match self.pick_name(side) {
            "ack" => numbered_ack(alloc, self.messages),
            name => self.pick_body(alloc, name),
        }
    }

    fn send(&mut self, alloc: Global) -> Result<(), Trouble> {
        let connection = self.pick_connection();
        let side = self.pick_side();
        let channel = self.pick_channel();
        let message = self.pick_message(alloc, side)?;
        let copy = message.copy()?;
        self.say(
            connection,
            side,
            channel,
            Item::Message(copy),
            Ask::Send(channel, message),
        )
    }

    fn flow(&mut self) -> Result<(), Trouble> {
        let connection = self.pick_connection();
        let side = self.pick_side();
        let channel = self.pick_channel();
        let active = !self.dice.once_in(3);
        self.say(
            connection,
            side,
            channel,
            Item::Flow(active),
            Ask::Flow(channel, active),
        )
    }

    /// Asks something that says no item.
    fn ask_other(&mut self, ask: Ask) -> Result<(), Trouble> {
        let connection = self.pick_connection();
        let side = self.pick_side();
        self.ask(connection, side, ask)?;
        Ok(())
    }

    /// An open, seldom of a server.
    fn open_some(&mut self) -> Result<(), Trouble> {
        let connection = self.pick_connection();
        let side = if self.dice.once_in(10) {
            Side::Server
        } else {
            Side::Client
        };
        self.open(connection, side)
    }

    fn close_channel(&mut self, alloc: Global) -> Result<(), Trouble> {
        let channel = self.pick_channel();
        let text = text(alloc, "bye")?;
        self.ask_other(Ask::CloseChannel(channel, 200, text))
    }

    fn close(&mut self, alloc: Global) -> Result<(), Trouble> {
        let text = text(alloc, "bye")?;
        self.ask_other(Ask::Close(200, text))
    }

    fn block(&mut self, alloc: Global) -> Result<(), Trouble> {
        if self.dice.once_in(2) {
            return self.ask_other(Ask::Unblocked);
        }
        let text = text(alloc, "low")?;
        self.ask_other(Ask::Blocked(text))
    }

    fn beat_some(&mut self) -> Result<(), Trouble> {
        let connection = self.pick_connection();
        let side = self.pick_side();
        self.beat(connection, side)
    }

    /// All octets that wait, some of them, a few, or more than wait.
    fn pick_count(&mut self, waiting: usize) -> usize {
        match self.dice.below(20) {
            0..=8 => waiting,
            9..=14 => self.dice.below(waiting.saturating_add(1)),
            15..=18 => self.dice.below(9).min(waiting),
            _ => waiting.saturating_add(1),
        }
    }

    fn carry_some(&mut self) -> Result<(), Trouble> {
        let connection = self.pick_connection();
        let direction = self.pick_direction();
        let waiting = self.link.waiting(connection, direction);
        let octets = self.pick_count(waiting);
        self.carry(connection, direction, octets)
    }

    fn drop_some(&mut self) -> Result<(), Trouble> {
        let connection = self.pick_connection();
        let side = self.pick_side();
        self.drop_side(connection, side)
    }

    /// A connection begins, mostly with its handshake and a channel, unless there are enough of them.
    fn begin_some(&mut self) -> Result<(), Trouble> {
        let connection = self.connections();
        if connection >= CONNECTIONS {
            return Ok(());
        }
        self.begin()?;
        if self.dice.once_in(8) {
            return Ok(());
        }
        self.exchange(connection, 3)?;
        self.open(connection, Side::Client)?;
        let times = self.dice.below(2);
        self.exchange(connection, times)
    }

    /// What ends connections, or says nothing of channels.
    fn move_seldom(&mut self, alloc: Global) -> Result<(), Trouble> {
        match self.dice.below(5) {
            0 => self.close(alloc),
            1 => self.drop_some(),
            2 => self.beat_some(),
            _ => self.block(alloc),
        }
    }

    fn exchange_some(&mut self) -> Result<(), Trouble> {
        let connection = self.pick_connection();
        self.exchange(connection, 1)
    }

    fn move_once(&mut self, alloc: Global) -> Result<(), Trouble> {
        match self.dice.below(100) {
            0 | 1 => self.begin_some(),
            2..=10 => self.open_some(),
            11..=42 => self.send(alloc),
            43..=47 => self.flow(),
            48..=52 => self.close_channel(alloc),
            53 | 54 => self.move_seldom(alloc),
            55..=60 => self.exchange_some(),
            _ => self.carry_some(),
        }
    }

    /// A connection begins, and then is done what the dice say.
    pub(crate) fn play(&mut self, alloc: Global, moves: usize) -> Result<(), Trouble> {
        self.begin_some()?;
        for _ in 0..moves {
            self.move_once(alloc)?;
        }
        Ok(())
    }
}
