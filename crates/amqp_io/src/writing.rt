//! Writing a run of octets to a stream that may take them in parts.
ghost use Rattle.std.specs.Prelude.{◌≡◌, ◌<◌, ◌≤◌, [], length, take, false, IsTrue};
ghost use Rattle.std.specs.Io.KnownBytes.{append_known};
ghost use Rattle.amqp_io.specs.Streams.{Marks};

use crate::stream::Stream;

/// How far a run of octets was written.
#[derive(Clone, Copy, PartialEq, Eq)]
pub(crate) struct Written {
    /// how many octets the stream took, from the start
    pub(crate) octets: usize,
    /// the stream failed before it took the rest
    pub(crate) failed: bool,
}

/// Writes the octets in order, in as many writes as it takes, until the stream took all or fails.
pub(crate) fn write_prefix<S: Stream>(stream: &mut S, octets: &[u8]) -> Written
    ensures within { result.octets ≤ length octets.now }
    ensures all { result.failed ≡ false → result.octets ≡ length octets.now }
    ensures part { IsTrue result.failed → result.octets < length octets.now }
    // What the stream took is what it had taken before, and then the octets written, also where it failed.
    ensures appended { S.taken stream.new ≡ append_known (S.taken stream.old) (take result.octets octets.now) }
    ensures to_give { S.to_give stream.new ≡ S.to_give stream.old }
    ensures failure { Marks (IsTrue result.failed) (S.failures stream.old) (S.failures stream.new) }
    ensures no_end { S.ends stream.new ≡ S.ends stream.old }
    // Where there is nothing to write, nothing is called.
    ensures untouched { octets.now ≡ [] → stream.new ≡ stream.old }
{
    let mut written = 0;
    while written < octets.len() {
        let Ok(count) = stream.write(&octets[written..]) else {
            return Written {
                octets: written,
                failed: true,
            };
        };
        if count == 0 {
            return Written {
                octets: written,
                failed: true,
            };
        }
        written += count;
    }
    Written {
        octets: written,
        failed: false,
    }
}
