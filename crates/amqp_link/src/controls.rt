//! What an application does with a connection itself, besides its asks.
ghost use Rattle.std.specs.Prelude.{◌++◌, codes, Some};
ghost use Rattle.std.specs.Fmt.{WritesOnOk};
ghost use Rattle.amqp_link.specs.ControlTexts.{answer_text, control_text, response_text};

use amqp_value::{ShortStr, write_hexadecimal};
use std::fmt;

/// What an application does with a connection itself: it puts heartbeats, and where its end is gated it decides in
/// the handshake.
#[derive(Debug, Drop, PartialEq, Eq)]
pub enum Control {
    /// Puts a heartbeat.
    Beat,
    /// Admits the login or the open that a gated server holds.
    Admit,
    /// Refuses it, with the code and the text of a close.
    Refuse(u16, ShortStr),
    /// Answers the start that a gated client holds, with a mechanism, a response and a locale.
    AnswerStart(ShortStr, Vec<u8>, ShortStr),
}

/// A response in hexadecimal, `-` where it has no octets.
fn write_response<W: fmt::Write>(f: &mut fmt::Formatter<W>, response: &[u8]) -> fmt::Result
    ensures { WritesOnOk W.write_str_gives f.old result (response_text response.now) f.new }
{
    if response.is_empty() {
        return f.write_str("-");
    }
    write_hexadecimal(f, response)
}

fn write_answer<W: fmt::Write>(
    f: &mut fmt::Formatter<W>,
    mechanism: &ShortStr,
    response: &[u8],
    locale: &ShortStr,
) -> fmt::Result
    ensures { WritesOnOk W.write_str_gives f.old result (answer_text mechanism.now response.now locale.now) f.new }
{
    write!(f, "answer-start {mechanism} ")?;
    write_response(f, response)?;
    write!(f, " {locale}")
}

/// Prints it as a script of `amqp link` asks it: `beat`, `refuse 403 no`, `answer-start PLAIN 00612e00 en_US`.
impl fmt::Display for Control {
    ghost output = { λ control. Some (control_text control) };

    fn fmt<W: fmt::Write>(&self, f: &mut fmt::Formatter<W>) -> fmt::Result {
        match self {
            Control::Beat => f.write_str("beat"),
            Control::Admit => f.write_str("admit"),
            Control::Refuse(code, text) => write!(f, "refuse {code} {text}"),
            Control::AnswerStart(mechanism, response, locale) => {
                write_answer(f, mechanism, response, locale)
            }
        }
    }
}
