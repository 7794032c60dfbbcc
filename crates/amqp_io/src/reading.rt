//! One read from a stream.
ghost use Rattle.std.specs.Prelude.{◌≡◌, ◌<◌, length};
ghost use Rattle.amqp_io.specs.Streams.{Marks};
ghost use Rattle.amqp_io.specs.Reading.{Gives};

use crate::stream::Stream;

/// What a read gave.
#[derive(Clone, Copy, PartialEq, Eq)]
pub(crate) enum Arrival {
    /// So many octets, at the start of the buffer: at least 1.
    Octets(usize),
    /// The input has ended.
    End,
    /// The stream failed.
    Failure,
}

/// Reads once, into a buffer that has room.
pub(crate) fn read_once<S: Stream>(stream: &mut S, buffer: &mut [u8]) -> Arrival
    requires { 0 < length buffer.old }
    ensures given { Gives result (S.to_give stream.old) (S.to_give stream.new) buffer.new }
    ensures taken { S.taken stream.new ≡ S.taken stream.old }
    ensures failure { Marks (result ≡ Arrival.Failure) (S.failures stream.old) (S.failures stream.new) }
    ensures end { Marks (result ≡ Arrival.End) (S.ends stream.old) (S.ends stream.new) }
{
    let Ok(count) = stream.read(buffer) else {
        return Arrival::Failure;
    };
    if count == 0 {
        return Arrival::End;
    }
    Arrival::Octets(count)
}
