//! Streams in memory, from words.
use crate::octets::octets_of;
use amqp_io::{Answer, Script};
use std::alloc::Global;
use std::test::Fail;

/// An answer: a number moves at most so many octets, `fail` fails, `end` ends the input for one read.
fn answer_of(word: &str) -> Result<Answer, Fail> {
    match word {
        "fail" => Ok(Answer::Fail),
        "end" => Ok(Answer::End),
        number => Ok(Answer::Octets(number.parse::<usize>()?)),
    }
}

fn answers_of(alloc: Global, words: &str) -> Result<Vec<Answer>, Fail> {
    let mut answers = Vec::new(alloc);
    for word in words.split_whitespace() {
        answers.push(answer_of(word)?)?;
    }
    Ok(answers)
}

/// A stream that gives these octets, by these answers.
pub(crate) fn script_of(alloc: Global, octets: &str, answers: &str) -> Result<Script, Fail> {
    let octets = octets_of(alloc, octets)?;
    let answers = answers_of(alloc, answers)?;
    Ok(Script::new(octets, answers))
}
