//! Numbers and texts, compared with those that are wanted.
use std::alloc::Global;
use std::fmt::{Debug, Display};
use std::process::Abort;
use std::test::Fail;

/// Both are the same. A call of this function is proved at a fraction of what the macro costs where it stands.
pub(crate) fn assert_same<T: PartialEq + Debug + Drop>(rt: &impl Abort, value: T, wanted: T) {
    assert_eq!(rt; value, wanted);
}

/// Both are the same, for the case of this name.
pub(crate) fn assert_same_for<T: PartialEq + Debug + Drop, N: Debug + Drop>(
    rt: &impl Abort,
    value: T,
    wanted: T,
    name: N,
) {
    assert_eq!(rt; value, wanted, "for {name:?}");
}

/// It holds, for the case of this name.
pub(crate) fn assert_for<N: Debug + Drop>(rt: &impl Abort, holds: bool, name: N) {
    assert!(rt; holds, "for {name:?}");
}

pub(crate) fn assert_text(rt: &impl Abort, text: &str, wanted: &str) {
    assert_same(rt, text, wanted);
}

pub(crate) fn assert_number(rt: &impl Abort, number: u8, wanted: u8, name: &str) {
    assert_same_for(rt, number, wanted, name);
}

pub(crate) fn assert_shown(
    rt: &impl Abort,
    alloc: Global,
    shown: &impl Display,
    text: &str,
) -> Result<(), Fail> {
    assert_text(rt, format!(in alloc; "{shown}")?.as_str(), text);
    Ok(())
}

pub(crate) fn assert_debug(
    rt: &impl Abort,
    alloc: Global,
    shown: &impl Debug,
    text: &str,
) -> Result<(), Fail> {
    assert_text(rt, format!(in alloc; "{shown:?}")?.as_str(), text);
    Ok(())
}

/// The text of a kind, and its name.
pub(crate) fn assert_printed<T: Display + Debug>(
    rt: &impl Abort,
    alloc: Global,
    printed: &T,
    text: &str,
    name: &str,
) -> Result<(), Fail> {
    assert_shown(rt, alloc, printed, text)?;
    assert_debug(rt, alloc, printed, name)
}
