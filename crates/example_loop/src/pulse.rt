//! Heartbeats: how long nothing came, and nothing went.
ghost use Rattle.std.specs.Prelude.{◌≡◌, ◌↔◌, ◌≤◌, ◌<◌, ◌*◌, ◌⊎◌, ◌==◌, ◌&&◌, IsTrue};
ghost use Rattle.example_loop.specs.Pulses.{ticks_after};

/// How many ticks of half a second passed with the same counts of octets taken, and of octets written.
#[derive(Clone, Copy, Default)]
pub struct Pulse {
    came: u64,
    went: u64,
    silent: u32,
    idle: u32,
}

impl Pulse {
    /// A tick is over, at these counts. Of a connection that isn't read nothing is missed.
    pub fn tick(&mut self, came: u64, went: u64, is_read: bool)
        ensures silent { self.new.silent ≡ ticks_after (is_read && came == self.old.came) self.old.silent }
        ensures idle { self.new.idle ≡ ticks_after (went == self.old.went) self.old.idle }
        ensures counts { (self.new.came ≡ came) × (self.new.went ≡ went) }
    {
        self.silent = ticks_after(is_read && came == self.came, self.silent);
        self.idle = ticks_after(went == self.went, self.idle);
        (self.came, self.went) = (came, went);
    }

    /// Whether nothing went for half a heartbeat, which is in seconds.
    pub fn owes_beat(&self, heartbeat: u16) -> bool
        ensures { IsTrue result ↔ (heartbeat ≤ self.now.idle) }
    {
        u32::from(heartbeat) <= self.idle
    }

    /// Whether nothing came, or nothing could be written, for more than two heartbeats.
    pub fn is_over(&self, heartbeat: u16) -> bool
        ensures { IsTrue result ↔ ((4 * heartbeat < self.now.silent) ⊎ (4 * heartbeat < self.now.idle)) }
    {
        let most = 4 * u32::from(heartbeat);
        most < self.silent || most < self.idle
    }
}

/// One more tick, or none where something came or went.
fn ticks_after(is_quiet: bool, before: u32) -> u32
    ensures { result ≡ ticks_after is_quiet before }
{
    if is_quiet {
        before.saturating_add(1)
    } else {
        0
    }
}
