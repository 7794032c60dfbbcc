//! What a link answers after a game: of each life, a prefix of what was sent was acted on, and what was sent is what
//! was asked.
use crate::games::{Game, Said, way_to};
use crate::rules::{Rule, are_in_turn, check, is_prefix, keeps_pauses};
use crate::tallies::Entry;
use crate::trouble::Trouble;
use amqp_core::{Ask, Item, Side};
use amqp_link::{Direction, Life, Link};
use std::alloc::Global;

/// What is counted over many games, to see that they are not empty.
#[derive(Clone, Copy, Debug)]
pub(crate) struct Score {
    /// Items that were acted on.
    pub(crate) acted: usize,
    /// The same, in lives after the first one of a channel.
    pub(crate) acted_later: usize,
    /// Channels that were open in the end.
    pub(crate) open: usize,
}

/// Whether a life comes next after another one in a list, of which the first is 0.0.0.
fn follows(before: Life, life: Life) -> bool {
    if before.connection == life.connection && before.channel == life.channel {
        return Some(life.number) == before.number.checked_add(1);
    }
    let is_later = before.connection < life.connection
        || before.connection == life.connection && before.channel < life.channel;
    is_later && life.number == 1
}

/// Whether lives stand in order, each to the server and then to the client.
fn are_in_order(tally: &[Entry]) -> bool {
    let mut before = Life {
        connection: 0,
        channel: 0,
        number: 0,
    };
    for pair in tally.chunks(2) {
        let [to_server, to_client] = pair else {
            return false;
        };
        let life = to_server.0;
        let are_ways = to_server.1 == Direction::ToServer && to_client.1 == Direction::ToClient;
        if !are_ways || to_client.0 != life || !follows(before, life) {
            return false;
        }
        before = life;
    }
    true
}

/// What was asked in a life, in order.
fn asked_in(
    alloc: Global,
    said: &[Said],
    life: Life,
    way: Direction,
) -> Result<Vec<&Item>, Trouble> {
    let mut items = Vec::new(alloc);
    for one in said {
        if one.life == life && one.direction == way {
            items.push(&one.item)?;
        }
    }
    Ok(items)
}

/// What was not put as an answer to a flow.
fn without_answers(alloc: Global, sent: &[Item]) -> Result<Vec<&Item>, Trouble> {
    let mut items = Vec::new(alloc);
    for item in sent {
        match item {
            Item::FlowOk(_) => {}
            _ => items.push(item)?,
        }
    }
    Ok(items)
}

fn are_same(items: &[&Item], others: &[&Item]) -> bool {
    items.len() == others.len()
        && items
            .iter()
            .zip(others.iter())
            .all(|(one, other)| **one == **other)
}

/// Checks what was sent in a life against what was asked, and answers how many items that were.
fn check_asked(
    alloc: Global,
    said: &[Said],
    life: Life,
    way: Direction,
    sent: &[Item],
) -> Result<usize, Trouble> {
    let asked = asked_in(alloc, said, life, way)?;
    let found = without_answers(alloc, sent)?;
    check(are_same(&asked, &found), Rule::Sent)?;
    Ok(asked.len())
}

/// Checks one entry of a tally, and answers how many items were asked there.
fn check_entry(alloc: Global, game: &Game, entry: Entry) -> Result<usize, Trouble> {
    let (life, way, count_sent, count_acted) = entry;
    let sent = game.link.sent(life, way)?;
    let acted = game.link.acted(life, way)?;
    let are_counts = sent.len() == count_sent && acted.len() == count_acted;
    check(are_counts, Rule::Tally)?;
    check(is_prefix(&acted, &sent), Rule::Prefix)?;
    check(keeps_pauses(&sent), Rule::Pause)?;
    check_asked(alloc, &game.said, life, way, &sent)
}

/// The requests of the client that were sent and those that the server acted on have replies in turn.
fn check_replies(alloc: Global, link: &Link, life: Life) -> Result<(), Trouble> {
    let sent = link.sent(life, Direction::ToServer)?;
    let replies = link.acted(life, Direction::ToClient)?;
    check(are_in_turn(alloc, &sent, &replies, 1)?, Rule::Replies)?;
    let acted = link.acted(life, Direction::ToServer)?;
    let replies = link.sent(life, Direction::ToClient)?;
    check(are_in_turn(alloc, &acted, &replies, 1)?, Rule::Replies)
}

fn is_empty(link: &Link, life: Life, way: Direction) -> Result<bool, Trouble> {
    let sent = link.sent(life, way)?;
    let acted = link.acted(life, way)?;
    Ok(sent.is_empty() && acted.is_empty())
}

/// Nothing is sent or acted on in the life after the last one of a channel, nor in one of number 0.
fn check_no_life(game: &Game, connection: usize, channel: u16) -> Result<(), Trouble> {
    let last = game.last_life(connection, channel);
    let next = Life {
        number: last.number.saturating_add(1),
        ..last
    };
    let none = Life { number: 0, ..last };
    for life in [next, none] {
        let is_empty = is_empty(&game.link, life, Direction::ToServer)?
            && is_empty(&game.link, life, Direction::ToClient)?;
        check(is_empty, Rule::NoLife)?;
    }
    Ok(())
}

impl Score {
    pub(crate) fn new() -> Score {
        Score {
            acted: 0,
            acted_later: 0,
            open: 0,
        }
    }

    fn count(&mut self, life: Life, acted: usize) {
        self.acted = self.acted.saturating_add(acted);
        if life.number > 1 {
            self.acted_later = self.acted_later.saturating_add(acted);
        }
    }
}

/// Checks all that a link answers.
fn judge(alloc: Global, game: &Game, score: &mut Score) -> Result<(), Trouble> {
    let tally = game.link.tally()?;
    check(tally.len() / 2 == game.opened, Rule::Listed)?;
    check(are_in_order(&tally), Rule::Listed)?;
    let mut asked = 0_usize;
    for entry in tally.iter().copied() {
        asked = asked.saturating_add(check_entry(alloc, game, entry)?);
        if entry.1 == Direction::ToServer {
            check_replies(alloc, &game.link, entry.0)?;
        }
        score.count(entry.0, entry.3);
    }
    check(asked == game.said.len(), Rule::Sent)
}

/// Checks the lives that have not begun.
fn judge_rest(game: &Game) -> Result<(), Trouble> {
    for connection in 0..=game.connections() {
        for channel in 0..4 {
            check_no_life(game, connection, channel)?;
        }
    }
    Ok(())
}

/// How many items were sent and acted on in the last life of a channel, if it had one.
fn last_counts(
    tally: &[Entry],
    connection: usize,
    channel: u16,
    way: Direction,
) -> Option<(usize, usize)> {
    let mut counts = None;
    for (life, direction, sent, acted) in tally.iter().copied() {
        if life.connection == connection && life.channel == channel && direction == way {
            counts = Some((sent, acted));
        }
    }
    counts
}

/// Nothing waits. Where a side still has the channel open, it has acted on all that the other side sent in the
/// channel's life. Answers whether it has.
fn check_open(
    game: &mut Game,
    tally: &[Entry],
    connection: usize,
    channel: u16,
    side: Side,
) -> Result<bool, Trouble> {
    // no flow is unanswered, so one is refused only where the channel isn't open
    if !game.ask(connection, side, Ask::Flow(channel, true))? {
        return Ok(false);
    }
    let counts = last_counts(tally, connection, channel, way_to(side));
    let is_all = counts.is_some_and(|(sent, acted)| sent == acted);
    check(is_all, Rule::NoLoss)?;
    Ok(true)
}

/// A channel is open at both sides, or at none. Answers whether it is.
fn check_channel(game: &mut Game, connection: usize, channel: u16) -> Result<bool, Trouble> {
    let tally = game.link.tally()?;
    let client = check_open(game, &tally, connection, channel, Side::Client)?;
    let server = check_open(game, &tally, connection, channel, Side::Server)?;
    check(client == server, Rule::NoLoss)?;
    Ok(client)
}

/// Carries all that can be carried. Where both sides are there, nothing waits then: no answer has an answer, but in the
/// handshake.
fn settle(game: &mut Game) -> Result<(), Trouble> {
    for connection in 0..game.connections() {
        game.exchange(connection, 5)?;
        let is_quiet = game.is_quiet(connection);
        check(is_quiet || !game.is_whole(connection), Rule::Waiting)?;
    }
    Ok(())
}

fn check_channels(game: &mut Game, score: &mut Score) -> Result<(), Trouble> {
    for connection in 0..game.connections() {
        for channel in 1..3 {
            if game.is_whole(connection) && check_channel(game, connection, channel)? {
                score.open = score.open.saturating_add(1);
            }
        }
    }
    Ok(())
}

/// Checks what a link answers as a game ends, and again once all was carried that can be.
pub(crate) fn end(alloc: Global, game: &mut Game, score: &mut Score) -> Result<(), Trouble> {
    let mut first = Score::new();
    judge(alloc, game, &mut first)?;
    judge_rest(game)?;
    settle(game)?;
    judge(alloc, game, score)?;
    check_channels(game, score)
}
