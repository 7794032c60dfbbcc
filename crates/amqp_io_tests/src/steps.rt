//! Lists of steps: a line each, as `push 5 = Ok(5)`, with the answer that is wanted.
use std::alloc::Global;
use std::process::Abort;
use std::test::Fail;

/// A step, and what is wanted of it.
#[derive(Clone, Copy)]
pub(crate) struct Step<'a> {
    /// the place of its line in the list
    pub(crate) place: usize,
    /// what is done
    pub(crate) word: &'a str,
    /// with what, if anything
    pub(crate) argument: &'a str,
    /// the answer that is wanted
    pub(crate) wanted: &'a str,
}

/// The step on the line at a place. Empty lines and those that begin with `#` have none.
pub(crate) fn step_on(alloc: Global, place: usize, line: &str) -> Result<Option<Step<'_>>, Fail> {
    let line = line.trim();
    if line.is_empty() || line.starts_with('#') {
        return Ok(None);
    }
    let Some((call, wanted)) = line.split_once(" = ") else {
        return no_step(alloc, line);
    };
    let (word, argument) = call.split_once(' ').unwrap_or((call, ""));
    Ok(Some(Step {
        place,
        word,
        argument,
        wanted,
    }))
}

/// There is no such step.
pub(crate) fn no_step<T>(alloc: Global, text: &str) -> Result<T, Fail> {
    Err(format!(in alloc; "no step: {text}")?)?
}

/// The text that is found is the one that is wanted, of this.
pub(crate) fn assert_text(rt: &impl Abort, found: &str, wanted: &str, of: &str) {
    assert!(rt; found == wanted, "{of}: {found}, and not {wanted}");
}

/// What the step answers is what is wanted.
pub(crate) fn assert_answer(
    rt: &impl Abort,
    alloc: Global,
    step: Step<'_>,
    answer: &str,
    wanted: &str,
) -> Result<(), Fail> {
    let Step {
        place,
        word,
        argument,
        wanted: _,
    } = step;
    let of = format!(in alloc; "line {place}, {word} {argument}")?;
    assert_text(rt, answer, wanted, of.as_str());
    Ok(())
}
