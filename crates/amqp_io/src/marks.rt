//! Numbers that only tell whether something has happened since.
ghost use Rattle.std.specs.Prelude.{◌≢◌};

/// Another mark: one more, and after the greatest 0.
pub(crate) fn changed(mark: u64) -> u64
    ensures { result ≢ mark }
{
    mark.wrapping_add(1)
}
