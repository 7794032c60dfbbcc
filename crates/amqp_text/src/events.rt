//! The line of an event.
ghost use Rattle.std.specs.Prelude.{◌++◌, codes, OnOk};
ghost use Rattle.std.specs.Io.KnownBytes.{Appends};
ghost use Rattle.amqp_channel.specs.Events.EventTexts.{event_text};

use amqp_channel::Event;
use std::io::{self, Write};

/// Prints the line of an event, and the two lines of a content. A text is written as it is made, so it takes no memory.
pub fn print_event<W: Write>(event: &Event, output: &mut W) -> io::Result<()>
    ensures { OnOk result (Appends (W.contents output.old) (W.contents output.new)
        (event_text event.now ++ codes "\n")) }
{
    writeln!(output, "{event}")
}
