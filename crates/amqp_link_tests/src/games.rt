//! Games: a link with which is done what is chosen, and of which each answer is looked at.
use crate::dice::Dice;
use crate::links::{LIMITS, Limits, Setting, new_link};
use crate::rules::{Rule, check};
use crate::tallies::Entry;
use crate::trouble::Trouble;
use amqp_core::{Ask, Item, Side};
use amqp_link::{Control, Direction, Life, Link, LinkFault, Step};
use std::alloc::Global;

/// Two channels, and bodies that take several frames. The servers take small bodies, so some contents close their
/// channels.
const SETTING: Setting = Setting {
    client: Limits {
        frame_max: 4096,
        channel_max: 2,
        ..LIMITS
    },
    server: Limits {
        max_body: 40,
        ..LIMITS
    },
};

/// How many octets wait on a connection.
#[derive(Clone, Copy, PartialEq, Eq)]
struct Waits {
    to_server: usize,
    to_client: usize,
}

impl Waits {
    fn of(self, direction: Direction) -> usize {
        match direction {
            Direction::ToServer => self.to_server,
            Direction::ToClient => self.to_client,
        }
    }
}

/// What came of a step.
#[derive(Clone, Copy)]
struct Done {
    answer: Result<(), LinkFault>,
    before: Waits,
    after: Waits,
}

/// Which sides of a connection were dropped.
#[derive(Clone, Copy)]
struct Dropped {
    client: bool,
    server: bool,
}

impl Dropped {
    fn set(&mut self, side: Side) {
        match side {
            Side::Client => self.client = true,
            Side::Server => self.server = true,
        }
    }

    fn has(self, side: Side) -> bool {
        match side {
            Side::Client => self.client,
            Side::Server => self.server,
        }
    }
}

/// What was asked on a channel and put.
#[derive(Drop)]
pub(crate) struct Said {
    pub(crate) life: Life,
    pub(crate) direction: Direction,
    pub(crate) item: Item,
}

#[derive(Drop)]
pub(crate) struct Game {
    pub(crate) link: Link,
    pub(crate) dice: Dice,
    dropped: Vec<Dropped>,
    pub(crate) said: Vec<Said>,
    /// How many opens were put.
    pub(crate) opened: usize,
    /// The tally when the last one was.
    listed: Vec<Entry>,
    /// How many messages were made. Each content says which one it is.
    pub(crate) messages: u64,
}

fn other_way(direction: Direction) -> Direction {
    match direction {
        Direction::ToServer => Direction::ToClient,
        Direction::ToClient => Direction::ToServer,
    }
}

/// Which way a side writes.
fn way_of(side: Side) -> Direction {
    match side {
        Side::Client => Direction::ToServer,
        Side::Server => Direction::ToClient,
    }
}

/// Which way a side reads.
pub(crate) fn way_to(side: Side) -> Direction {
    other_way(way_of(side))
}

/// How many lives of a channel are listed.
fn lives_in(tally: &[Entry], connection: usize, channel: u16) -> u64 {
    let mut last = 0;
    for (life, _, _, _) in tally.iter().copied() {
        if life.connection == connection && life.channel == channel {
            last = life.number;
        }
    }
    last
}

/// What is put waits the one way, and the other way as much as before.
fn check_put(done: Done, way: Direction) -> Result<(), Trouble> {
    let back = other_way(way);
    let has_grown = done.before.of(way) < done.after.of(way);
    let is_same = done.before.of(back) == done.after.of(back);
    check(has_grown && is_same, Rule::Waiting)
}

/// An ask of a side that is there is done or refused, and that of another one refused for this fault.
fn check_ask(done: Done, fault: Option<LinkFault>, way: Direction) -> Result<(), Trouble> {
    match done.answer {
        Ok(()) => {
            check(fault.is_none(), Rule::Answer)?;
            check_put(done, way)
        }
        Err(LinkFault::Ask(_)) => check(fault.is_none(), Rule::Answer),
        Err(answer) => check(fault == Some(answer), Rule::Answer),
    }
}

/// A side is dropped, or the link says why not. What waits still does.
fn check_drop(done: Done, fault: Option<LinkFault>) -> Result<(), Trouble> {
    check(done.answer.err() == fault, Rule::Answer)?;
    check(done.before == done.after, Rule::Waiting)
}

/// So many octets that were to be carried are, or the link says why not.
fn check_carry(
    direction: Direction,
    octets: usize,
    done: Done,
    wanted: Result<(), LinkFault>,
) -> Result<(), Trouble> {
    check(done.answer == wanted, Rule::Answer)?;
    match done.answer {
        Ok(()) => check_carried(direction, octets, done),
        Err(_) => Ok(()),
    }
}

/// So many octets wait no more, and the other way no fewer do.
fn check_carried(direction: Direction, octets: usize, done: Done) -> Result<(), Trouble> {
    let back = other_way(direction);
    let left = done.before.of(direction).saturating_sub(octets);
    let has_fallen = done.after.of(direction) == left;
    let has_not_fallen = done.before.of(back) <= done.after.of(back);
    check(has_fallen && has_not_fallen, Rule::Waiting)
}

impl Game {
    pub(crate) fn new(alloc: Global, dice: Dice) -> Result<Game, Trouble> {
        match new_link(alloc, SETTING) {
            Ok(link) => Ok(Game {
                link,
                dice,
                dropped: Vec::new(alloc),
                said: Vec::new(alloc),
                opened: 0,
                listed: Vec::new(alloc),
                messages: 0,
            }),
            Err(_) => Err(Trouble::OutOfMemory),
        }
    }

    /// How many connections began.
    pub(crate) fn connections(&self) -> usize {
        self.dropped.len()
    }

    /// Why a step of a side is refused whatever it is.
    fn fault(&self, connection: usize, side: Side) -> Option<LinkFault> {
        match self.dropped.get(connection) {
            Some(dropped) if dropped.has(side) => Some(LinkFault::Dropped),
            Some(_) => None,
            None => Some(LinkFault::NoSuchConnection),
        }
    }

    pub(crate) fn is_whole(&self, connection: usize) -> bool {
        self.fault(connection, Side::Client).is_none()
            && self.fault(connection, Side::Server).is_none()
    }

    fn waits(&self, connection: usize) -> Waits {
        Waits {
            to_server: self.link.waiting(connection, Direction::ToServer),
            to_client: self.link.waiting(connection, Direction::ToClient),
        }
    }

    /// Does a step, or has it refused. What waits on the connection is then as before.
    fn do_step(&mut self, connection: usize, step: &Step) -> Result<Done, Trouble> {
        let before = self.waits(connection);
        let answer = self.link.step(step);
        let after = self.waits(connection);
        check(answer.is_ok() || before == after, Rule::RefusedSame)?;
        Ok(Done {
            answer,
            before,
            after,
        })
    }

    /// Does a step that changes no tally when it is refused.
    fn do_step_between(&mut self, connection: usize, step: &Step) -> Result<Done, Trouble> {
        let before = self.link.tally()?;
        let done = self.do_step(connection, step)?;
        let after = self.link.tally()?;
        let is_same = before.as_slice() == after.as_slice();
        check(done.answer.is_ok() || is_same, Rule::RefusedSame)?;
        Ok(done)
    }

    /// Does a step. Now and then the tallies before and after it are compared, which takes longer than most steps.
    fn try_step(&mut self, connection: usize, step: &Step) -> Result<Done, Trouble> {
        if self.dice.once_in(16) {
            self.do_step_between(connection, step)
        } else {
            self.do_step(connection, step)
        }
    }

    /// A connection begins, whose client has the 8 octets of the protocol header to write.
    pub(crate) fn begin(&mut self) -> Result<(), Trouble> {
        let connection = self.connections();
        let done = self.do_step(connection, &Step::Begin)?;
        check(done.answer.is_ok(), Rule::Answer)?;
        let waits = Waits {
            to_server: 8,
            to_client: 0,
        };
        check(done.after == waits, Rule::Waiting)?;
        self.dropped.push(Dropped {
            client: false,
            server: false,
        })?;
        Ok(())
    }

    /// Asks something of a side, and answers whether it was put.
    pub(crate) fn ask(&mut self, connection: usize, side: Side, ask: Ask) -> Result<bool, Trouble> {
        let step = Step::Ask(connection, side, ask);
        let done = self.try_step(connection, &step);
        drop(step);
        let done = done?;
        check_ask(done, self.fault(connection, side), way_of(side))?;
        Ok(done.answer.is_ok())
    }

    /// A side puts a heartbeat, where its connection runs.
    pub(crate) fn beat(&mut self, connection: usize, side: Side) -> Result<(), Trouble> {
        let step = Step::Control(connection, side, Control::Beat);
        let done = self.try_step(connection, &step);
        drop(step);
        let done = done?;
        check_ask(done, self.fault(connection, side), way_of(side))
    }

    pub(crate) fn open(&mut self, connection: usize, side: Side) -> Result<(), Trouble> {
        if self.ask(connection, side, Ask::Open)? {
            self.opened = self.opened.saturating_add(1);
            self.listed = self.link.tally()?;
        }
        Ok(())
    }

    /// The last life of a channel that began, of number 0 if there is none.
    pub(crate) fn last_life(&self, connection: usize, channel: u16) -> Life {
        Life {
            connection,
            channel,
            number: lives_in(&self.listed, connection, channel),
        }
    }

    /// Takes note of what was said, if it was put.
    fn note_said(&mut self, asked: Result<bool, Trouble>, said: Said) -> Result<(), Trouble> {
        match asked {
            Ok(true) => self.said.push(said)?,
            _ => drop(said),
        }
        asked?;
        Ok(())
    }

    /// Asks something that says an item on a channel. What is put belongs to the last life that began there: while the
    /// channel of a server is open, the client has not opened it anew.
    pub(crate) fn say(
        &mut self,
        connection: usize,
        side: Side,
        channel: u16,
        item: Item,
        ask: Ask,
    ) -> Result<(), Trouble> {
        let said = Said {
            life: self.last_life(connection, channel),
            direction: way_of(side),
            item,
        };
        let asked = self.ask(connection, side, ask);
        self.note_said(asked, said)
    }

    /// What comes of carrying so many octets where so many wait, if the end that reads is there.
    fn answer_to_carry(
        &self,
        connection: usize,
        direction: Direction,
        octets: usize,
        waited: usize,
    ) -> Result<(), LinkFault> {
        match self.fault(connection, direction.reader()) {
            Some(fault) => Err(fault),
            None if waited < octets => Err(LinkFault::NotSoMany),
            None => Ok(()),
        }
    }

    /// Carries so many octets, if so many wait and the end that reads is there. They wait no more, and answers to them
    /// may wait the other way.
    pub(crate) fn carry(
        &mut self,
        connection: usize,
        direction: Direction,
        octets: usize,
    ) -> Result<(), Trouble> {
        let step = Step::Carry(connection, direction, octets);
        let done = self.try_step(connection, &step);
        drop(step);
        let done = done?;
        let waited = done.before.of(direction);
        let wanted = self.answer_to_carry(connection, direction, octets, waited);
        check_carry(direction, octets, done, wanted)
    }

    /// Takes note that a side was dropped, if there is such a connection.
    fn note_drop(&mut self, connection: usize, side: Side) {
        if let Some(dropped) = self.dropped.get_mut(connection) {
            dropped.set(side);
        }
    }

    pub(crate) fn drop_side(&mut self, connection: usize, side: Side) -> Result<(), Trouble> {
        let step = Step::Drop(connection, side);
        let done = self.do_step(connection, &step);
        drop(step);
        let done = done?;
        check_drop(done, self.fault(connection, side))?;
        self.note_drop(connection, side);
        Ok(())
    }

    /// Carries all that waits to the sides that are there, to the server first, so often.
    pub(crate) fn exchange(&mut self, connection: usize, times: usize) -> Result<(), Trouble> {
        for _ in 0..times {
            let octets = self.link.waiting(connection, Direction::ToServer);
            self.carry(connection, Direction::ToServer, octets)?;
            let octets = self.link.waiting(connection, Direction::ToClient);
            self.carry(connection, Direction::ToClient, octets)?;
        }
        Ok(())
    }

    /// Whether nothing waits on a connection.
    pub(crate) fn is_quiet(&self, connection: usize) -> bool {
        let waits = self.waits(connection);
        waits.to_server == 0 && waits.to_client == 0
    }
}
