//! What a session reads from and writes to.
ghost use Rattle.std.specs.Prelude.{◌≡◌, ℕ, ◌≤◌, List, length, take, Option, None, IsErr, IfOk, OnErr};
ghost use Rattle.std.specs.Io.KnownBytes.{append_known, prepend_known};
ghost use Rattle.std.specs.Io.Slices.{io_slices_bytes};
ghost use Rattle.amqp_io.specs.Streams.{Marks, MeetsEnd, WriteFails};

use crate::faults::StreamFailed;
use crate::vectored::first_octets;
use std::io::IoSlice;

/// A stream of octets in each direction.
///
/// A stream that tells its octets, as [`Script`](crate::Script) does, says which it will give and which it took. One
/// that doesn't, as [`Socket`](crate::Socket), says only how many a call moved. Each has two marks that contracts see:
/// one changes in each call that fails and in no other, one in each read that meets the end of the input and in no
/// other.
pub trait Stream {
    // The octets that reads will give from here on, where the stream tells them.
    ghost to_give: { Self → Option (List ℕ) } = { λ _. None };

    // The octets that writes took so far, where the stream tells them.
    ghost taken: { Self → Option (List ℕ) } = { λ _. None };

    // It changes where a call answers Err, or a write takes nothing of a slice that has octets.
    ghost failures: { Self → ℕ };

    // It changes where a read gives nothing, though there is room.
    ghost ends: { Self → ℕ };

    /// Reads octets into the start of the buffer, at most as many as it has room for, and answers how many.
    ///
    /// 0 octets, where there is room, mean that the input has ended. A read that fails gives none. What stands in the
    /// buffer after the octets given is left open.
    fn read(&mut self, buffer: &mut [u8]) -> Result<usize, StreamFailed>
        ensures within { IfOk result (λ n. n ≤ length buffer.new) }
        // What is given stood at the start of what was to give, and is gone from there.
        ensures given { IfOk result (λ n. to_give self.old ≡ prepend_known (take n buffer.new) (to_give self.new)) }
        ensures kept { OnErr result (to_give self.new ≡ to_give self.old) }
        ensures taken { taken self.new ≡ taken self.old }
        ensures failure { Marks (IsErr result) (failures self.old) (failures self.new) }
        ensures end { Marks (MeetsEnd result buffer.new) (ends self.old) (ends self.new) };

    /// Writes octets from the start of the slice, and answers how many it took.
    ///
    /// To take none of a slice that has octets is a failure too. A write that fails takes none.
    fn write(&mut self, octets: &[u8]) -> Result<usize, StreamFailed>
        ensures within { IfOk result (λ n. n ≤ length octets.now) }
        ensures appended { IfOk result (λ n. taken self.new ≡ append_known (taken self.old) (take n octets.now)) }
        ensures kept { OnErr result (taken self.new ≡ taken self.old) }
        ensures to_give { to_give self.new ≡ to_give self.old }
        ensures failure { Marks (WriteFails result octets.now) (failures self.old) (failures self.new) }
        ensures no_end { ends self.new ≡ ends self.old };

    /// Writes octets from the start of what the slices hold together, in their order, and answers how many it took. Else
    /// it is as [`Stream::write`].
    ///
    /// A stream that can't write several slices at once writes of the first that has octets.
    fn write_vectored(&mut self, slices: &[IoSlice<'_>]) -> Result<usize, StreamFailed>
        ensures within { IfOk result (λ n. n ≤ length (io_slices_bytes slices.now)) }
        ensures appended { IfOk result (λ n. taken self.new ≡ append_known (taken self.old)
            (take n (io_slices_bytes slices.now))) }
        ensures kept { OnErr result (taken self.new ≡ taken self.old) }
        ensures to_give { to_give self.new ≡ to_give self.old }
        ensures failure { Marks (WriteFails result (io_slices_bytes slices.now)) (failures self.old)
            (failures self.new) }
        ensures no_end { ends self.new ≡ ends self.old }
    {
        self.write(first_octets(slices))
    }
}

impl<S: Stream> Stream for &mut S {
    ghost to_give = { λ s. S.to_give s.now };

    ghost taken = { λ s. S.taken s.now };

    ghost failures = { λ s. S.failures s.now };

    ghost ends = { λ s. S.ends s.now };

    fn read(&mut self, buffer: &mut [u8]) -> Result<usize, StreamFailed> {
        Stream::read(&mut **self, buffer)
    }

    fn write(&mut self, octets: &[u8]) -> Result<usize, StreamFailed> {
        Stream::write(&mut **self, octets)
    }

    fn write_vectored(&mut self, slices: &[IoSlice<'_>]) -> Result<usize, StreamFailed> {
        Stream::write_vectored(&mut **self, slices)
    }
}
