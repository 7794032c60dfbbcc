//! Scripts: texts that say, line by line, what is done with a client and a server, and what is to come of it.
//!
//! The first line is the script's name. Then come lines of these forms, where END is `client` or `server`, and OCTETS
//! are words of [`octets_of`]:
//!
//!     both open COUNT                     the handshake, and the opening of the channels up to this one
//!     END asks ASK -> put                 its application asks something of it (the words are those of `Asked`), which
//! is put;
//!     END asks open -> channel NUMBER     or takes a channel; or is refused: the refusal's number and name
//!     END beats -> put                    it puts a heartbeat,
//!     END admits -> put                   admits a login or an open,
//!     END refuses CODE TEXT -> put        refuses it,
//!     END answers MECHANISM -> put        or answers start; or any of these is refused
//!     END takes OCTETS -> events COUNT    it takes octets that the other end has not written, of which come events,
//!     END takes OCTETS -> FAULT           or a fault: the code of the close that is put, or the name of another one
//!     END carries COUNT                   so many octets of its output are carried to the other end, or `all`
//!     END delivers CHANNEL SIZE           all are, and complete a content with a body of so many octets there
//!     END loses COUNT                     so many octets of its output are sent, and get lost
//!     END shows OCTETS                    it has exactly these octets to write
//!     END begins OCTETS                   what it has to write begins with these octets
//!     END phase -> PHASE
//!     END agreed -> channels NUMBER frames NUMBER, or none
//!     END heartbeat -> SECONDS            the heartbeat that is agreed, 0 for none
//!     END channel NUMBER -> STATE
//!     END due NUMBER -> METHOD            the request that is to be answered next on a channel, or none
//!     END pending -> COUNT                so many octets were taken of a frame that isn't whole
//!     END gathered NUMBER -> COUNT        so many octets are kept of the body that comes on a channel, or, for `all`,
//! on all
//!     END kept -> COUNT                   so many octets are kept of contents and of a frame that isn't whole
//!     END took -> COUNT                   so many frames were taken
//!     END wrote -> COUNT                  so many octets of the output were written
//!     END waits NUMBER -> COUNT           so many octets wait on a channel, or, for `all`, on all of them
//!     END heard OCTETS                    it heard this method in the handshake, and kept it
//!     END forgets                         it forgets what it heard
//!     END closed-for -> METHOD            what the last close of the other end was about, or none
use crate::asks::{Asking, ask, ask_end};
use crate::came::Came;
use crate::decisions::{answers, came_of, heard, refuses};
use crate::octets::octets_of;
use crate::pairs::{Pair, Setting};
use crate::pieces::{carry, deliver, lose, take};
use crate::trouble::Trouble;
use crate::words::{number, word};
use amqp_core::{Ask, ChannelState, End, Phase, Role};
use std::alloc::Global;
use std::test::Fail;

/// How a script is run. The same comes of it in each way.
#[derive(Clone, Copy)]
pub(crate) struct Way {
    name: &'static str,
    asking: Asking,
    /// The greatest length of a piece.
    part: usize,
}

pub(crate) const AT_ONCE: Way = Way {
    name: "all at once",
    asking: Asking::ByAsk,
    part: usize::MAX,
};

pub(crate) const IN_PARTS: Way = Way {
    name: "octet by octet",
    asking: Asking::ByCall,
    part: 1,
};

pub(crate) const BY_PARTS: Way = Way {
    name: "by parts",
    asking: Asking::ByParts,
    part: usize::MAX,
};

/// What is done with an end, or seen of it.
#[derive(Clone, Copy)]
enum Verb {
    Asks,
    Beats,
    Admits,
    Refuses,
    Answers,
    Takes,
    Carries,
    Delivers,
    Loses,
    Shows,
    Begins,
    Phase,
    Agreed,
    Heartbeat,
    Channel,
    Due,
    Pending,
    Gathered,
    Kept,
    Took,
    Wrote,
    Waits,
    Heard,
    Forgets,
    ClosedFor,
}

static VERBS: [(&str, Verb); 25] = [
    ("asks", Verb::Asks),
    ("beats", Verb::Beats),
    ("admits", Verb::Admits),
    ("refuses", Verb::Refuses),
    ("answers", Verb::Answers),
    ("takes", Verb::Takes),
    ("carries", Verb::Carries),
    ("delivers", Verb::Delivers),
    ("loses", Verb::Loses),
    ("shows", Verb::Shows),
    ("begins", Verb::Begins),
    ("phase", Verb::Phase),
    ("agreed", Verb::Agreed),
    ("heartbeat", Verb::Heartbeat),
    ("channel", Verb::Channel),
    ("due", Verb::Due),
    ("pending", Verb::Pending),
    ("gathered", Verb::Gathered),
    ("kept", Verb::Kept),
    ("took", Verb::Took),
    ("wrote", Verb::Wrote),
    ("waits", Verb::Waits),
    ("heard", Verb::Heard),
    ("forgets", Verb::Forgets),
    ("closed-for", Verb::ClosedFor),
];

fn verb_by(word: &str) -> Result<Verb, Trouble> {
    for (name, verb) in VERBS.iter().copied() {
        if name == word {
            return Ok(verb);
        }
    }
    Err(Trouble::UnknownWord)
}

fn as_said(is_so: bool) -> Came {
    if is_so {
        Came::AsSaid
    } else {
        Came::OtherOctets
    }
}

/// How many octets wait on a channel, or on all of them.
fn waits<R: Role>(end: &End<R>, words: &[&str]) -> Result<usize, Trouble> {
    if word(words, 0)? == "all" {
        return Ok(end.waiting_in_all());
    }
    Ok(end.waiting(number(words, 0)?))
}

fn gathered<R: Role>(end: &End<R>, words: &[&str]) -> Result<usize, Trouble> {
    if word(words, 0)? == "all" {
        return Ok(end.gathered_in_all());
    }
    Ok(end.gathered(number(words, 0)?))
}

/// What is seen of an end. The words after the verb are its numbers.
fn seen<R: Role>(end: &End<R>, verb: Verb, words: &[&str]) -> Result<Came, Trouble> {
    match verb {
        Verb::Phase => Ok(Came::Phase(end.phase())),
        Verb::Agreed => Ok(Came::Agreed(end.agreed())),
        Verb::Heartbeat => Ok(Came::Count(usize::from(end.heartbeat()))),
        Verb::Channel => Ok(Came::State(end.channel_state(number(words, 0)?))),
        Verb::Due => Ok(Came::Due(end.reply_due(number(words, 0)?))),
        Verb::Pending => Ok(Came::Count(end.pending())),
        Verb::Gathered => Ok(Came::Count(gathered(end, words)?)),
        Verb::Kept => Ok(Came::Count(end.kept())),
        Verb::Took => Ok(Came::Number(end.frames_taken())),
        Verb::Wrote => Ok(Came::Number(end.octets_written())),
        Verb::Waits => Ok(Came::Count(waits(end, words)?)),
        Verb::ClosedFor => Ok(Came::ClosedFor(end.closed_for())),
        _ => Err(Trouble::UnknownWord),
    }
}

fn shows<R: Role>(alloc: Global, end: &End<R>, words: &[&str]) -> Result<Came, Trouble> {
    let octets = octets_of(alloc, words)?;
    Ok(as_said(end.output() == octets.as_slice()))
}

fn begins<R: Role>(alloc: Global, end: &End<R>, words: &[&str]) -> Result<Came, Trouble> {
    let octets = octets_of(alloc, words)?;
    Ok(as_said(end.output().starts_with(&octets)))
}

fn takes<R: Role>(
    alloc: Global,
    way: Way,
    end: &mut End<R>,
    words: &[&str],
) -> Result<Came, Trouble> {
    let octets = octets_of(alloc, words)?;
    Ok(take(end, &octets, way.part))
}

/// A number of octets, or all of them.
fn most(words: &[&str]) -> Result<usize, Trouble> {
    if word(words, 0)? == "all" {
        return Ok(usize::MAX);
    }
    number(words, 0)
}

fn carries<M: Role, O: Role>(
    way: Way,
    mine: &mut End<M>,
    other: &mut End<O>,
    words: &[&str],
) -> Result<Came, Trouble> {
    let most = most(words)?;
    Ok(carry(mine, other, most, way.part))
}

fn delivers<M: Role, O: Role>(
    alloc: Global,
    mine: &mut End<M>,
    other: &mut End<O>,
    words: &[&str],
) -> Result<Came, Trouble> {
    let channel = number(words, 0)?;
    let size = number(words, 1)?;
    deliver(alloc, mine, other, channel, size)
}

fn loses<R: Role>(end: &mut End<R>, words: &[&str]) -> Result<Came, Trouble> {
    let count = number(words, 0)?;
    Ok(lose(end, count))
}

/// Does with an end what a line says, or looks at it.
fn act<M: Role, O: Role>(
    alloc: Global,
    way: Way,
    mine: &mut End<M>,
    other: &mut End<O>,
    words: &[&str],
) -> Result<Came, Trouble> {
    let Some((verb, rest)) = words.split_first() else {
        return Err(Trouble::MissingWord);
    };
    match verb_by(verb)? {
        Verb::Asks => ask(alloc, way.asking, mine, rest),
        Verb::Beats => Ok(came_of(mine.beat())),
        Verb::Admits => Ok(came_of(mine.admit())),
        Verb::Refuses => refuses(alloc, mine, rest),
        Verb::Answers => answers(alloc, mine, rest),
        Verb::Heard => Ok(as_said(heard(alloc, mine, rest)?)),
        Verb::Forgets => {
            mine.forget_heard();
            Ok(Came::AsSaid)
        }
        Verb::Takes => takes(alloc, way, mine, rest),
        Verb::Carries => carries(way, mine, other, rest),
        Verb::Delivers => delivers(alloc, mine, other, rest),
        Verb::Loses => loses(mine, rest),
        Verb::Shows => shows(alloc, mine, rest),
        Verb::Begins => begins(alloc, mine, rest),
        verb => seen(mine, verb, rest),
    }
}

impl Pair {
    /// Carries all octets that the client has to write to the server, and then those of the server to the client.
    fn exchange(&mut self, way: Way) {
        carry(&mut self.client, &mut self.server, usize::MAX, way.part);
        carry(&mut self.server, &mut self.client, usize::MAX, way.part);
    }

    /// The handshake.
    fn shake_hands(&mut self, way: Way) -> bool {
        self.exchange(way);
        self.exchange(way);
        self.exchange(way);
        self.client.phase() == Phase::Running && self.server.phase() == Phase::Running
    }

    /// Opens a channel, which has to be this one.
    fn open_next(&mut self, way: Way, channel: u16) -> bool {
        let Came::Opened(opened) = ask_end(way.asking, &mut self.client, &Ask::Open) else {
            return false;
        };
        self.exchange(way);
        opened == channel && self.client.channel_state(channel) == ChannelState::Open
    }

    /// The handshake, and the opening of so many channels.
    fn open(&mut self, way: Way, count: u16) -> Came {
        if !self.shake_hands(way) {
            return Came::NotOpen;
        }
        for opened in 0..count {
            if !self.open_next(way, opened + 1) {
                return Came::NotOpen;
            }
        }
        Came::AsSaid
    }

    /// Does what a line says.
    fn perform(&mut self, alloc: Global, way: Way, words: &[&str]) -> Result<Came, Trouble> {
        let Some((who, rest)) = words.split_first() else {
            return Ok(Came::AsSaid);
        };
        match who.as_bytes() {
            b"client" => act(alloc, way, &mut self.client, &mut self.server, rest),
            b"server" => act(alloc, way, &mut self.server, &mut self.client, rest),
            b"both" => Ok(self.open(way, number(rest, 1)?)),
            _ => Err(Trouble::UnknownWord),
        }
    }

    /// The text of what comes of a line.
    fn answer(&mut self, alloc: Global, way: Way, line: &str) -> Result<String, Fail> {
        let words: Vec<&str> = line.split_whitespace().collect(alloc)?;
        match self.perform(alloc, way, &words) {
            Ok(came) => Ok(format!(in alloc; "{came}")?),
            Err(trouble) => Ok(format!(in alloc; "{trouble:?}")?),
        }
    }

    /// Does what a line says. Where something else comes of it than is said after the arrow, the line is named.
    fn follow_line(&mut self, alloc: Global, way: Way, name: &str, line: &str) -> Result<(), Fail> {
        let (step, wanted) = line.split_once(" -> ").unwrap_or((line, ""));
        let came = self.answer(alloc, way, step)?;
        if came.as_str() == wanted {
            return Ok(());
        }
        Err(self.fault(alloc, way, name, line, &came)?)
    }

    /// What is said of a line of which something else came.
    fn fault(
        &self,
        alloc: Global,
        way: Way,
        name: &str,
        line: &str,
        came: &str,
    ) -> Result<Fail, Fail> {
        let line = line.trim_ascii_start();
        let client = hex::encode(alloc, self.client.output())?;
        let server = hex::encode(alloc, self.server.output())?;
        let way = way.name;
        let text = format!(in alloc;
            "{name}, {way}: {line}: came {came:?}, client {client}, server {server}"
        )?;
        Ok(Fail::new(text))
    }

    /// Does what the lines say.
    pub(crate) fn follow(
        &mut self,
        alloc: Global,
        way: Way,
        name: &str,
        lines: &str,
    ) -> Result<(), Fail> {
        for line in lines.split('\n') {
            self.follow_line(alloc, way, name, line)?;
        }
        Ok(())
    }
}

/// Runs a script with new ends.
fn run_once(
    alloc: Global,
    way: Way,
    setting: Setting,
    name: &str,
    lines: &str,
) -> Result<(), Fail> {
    let mut pair = Pair::new(alloc, setting)?;
    let outcome = pair.follow(alloc, way, name, lines);
    drop(pair);
    outcome
}

/// Runs a script with ends that are set up so, in each way.
pub(crate) fn run(alloc: Global, setting: Setting, script: &str) -> Result<(), Fail> {
    let (name, lines) = script.split_once('\n').unwrap_or((script, ""));
    run_once(alloc, AT_ONCE, setting, name, lines)?;
    run_once(alloc, IN_PARTS, setting, name, lines)?;
    run_once(alloc, BY_PARTS, setting, name, lines)
}

/// Runs scripts with ends that are set up so.
pub(crate) fn run_all(alloc: Global, setting: Setting, scripts: &[&str]) -> Result<(), Fail> {
    for script in scripts.iter().copied() {
        run(alloc, setting, script)?;
    }
    Ok(())
}
