//! Headers that a binding asks for.
ghost use Rattle.std.specs.Prelude.{◌≡◌, ◌↔◌, true, false, Contains};

use amqp_value::{ShortStr, Table, Value};
use std::alloc::{AllocError, Global};

/// Whether a binding's arguments are among the headers: all, or one with `x-match` `any`. Names in `x-` don't count.
pub fn headers_match(
    alloc: Global,
    args: &Table,
    headers: Option<&Table>,
) -> Result<bool, AllocError> {
    let is_any = is_any(args);
    let mut tests = Vec::new(alloc);
    for (name, wanted) in args.pairs() {
        if !name.as_bytes().starts_with(b"x-") {
            tests.push(is_met(wanted, value_of(headers, name)))?;
        }
    }
    Ok(tests_suffice(is_any, &tests))
}

/// Whether one of the headers is enough.
fn is_any(args: &Table) -> bool {
    match args.get(b"x-match") {
        Some(x_match) => x_match.as_bytes() == Some(b"any".as_slice()),
        None => false,
    }
}

fn value_of<'a>(headers: Option<&'a Table>, name: &ShortStr) -> Option<&'a Value> {
    match headers {
        Some(headers) => headers.get(name.as_bytes()),
        None => None,
    }
}

/// Whether a header is as wanted: void asks for any, a whole number is of any width, and octets are under either tag.
fn is_met(wanted: &Value, value: Option<&Value>) -> bool {
    let Some(value) = value else {
        return false;
    };
    match (wanted.as_i64(), wanted.as_bytes()) {
        (Some(number), _) => value.as_i64() == Some(number),
        (None, Some(octets)) => value.as_bytes() == Some(octets),
        (None, None) => *wanted == Value::Void || *wanted == *value,
    }
}

fn tests_suffice(any: bool, tests: &[bool]) -> bool
    ensures any { any ≡ true → ((result ≡ true) ↔ Contains tests.now true) }
    ensures all { any ≡ false → ((result ≡ false) ↔ Contains tests.now false) }
{
    if any {
        tests.contains(&true)
    } else {
        !tests.contains(&false)
    }
}
