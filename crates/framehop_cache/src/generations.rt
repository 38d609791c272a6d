//! The counter that tells lists of modules apart.
ghost use Rattle.std.specs.Prelude.{◌≡◌, ◌^◌, ◌-◌, ◌+◌, ◌<◌, ◌↔◌, IsTrue, MatchOption};

use std::marker::Model;

/// A counter from which every list of modules draws a number of its own. Unwinders that share a
/// cache must draw from one counter.
#[derive(Debug, Drop)]
pub struct Generations {
    next: u64,
}

impl Model for Generations {
    ghost use Rattle.std.specs.Prelude.{ℕ};

    ghost Value = { ℕ };

    ghost view = { λ g. g.next };
}

impl Generations {
    /// Returns a counter that starts at 0.
    pub fn new() -> Self
        ensures { result ≡ 0 }
    {
        Generations { next: 0 }
    }

    /// Returns a counter that starts at the number.
    pub fn starting_at(next: u64) -> Self
        ensures { result ≡ next }
    {
        Generations { next }
    }

    /// Returns the next generation. At 2^64 - 1 the counter is at its end, and returns `None` for good.
    pub fn next(&mut self) -> Option<u64>
        ensures { MatchOption result ((self.old ≡ 2 ^ 64 - 1) × (self.new ≡ self.old))
            (λ generation. (self.old < 2 ^ 64 - 1) × (generation ≡ self.old) × (self.new ≡ self.old + 1)) }
    {
        if self.is_exhausted() {
            return None;
        }
        let generation = self.next;
        self.next += 1;
        Some(generation)
    }

    /// Returns whether the counter is at its end.
    pub fn is_exhausted(&self) -> bool
        ensures answer { IsTrue result ↔ (self.now ≡ 2 ^ 64 - 1) }
        ensures within { self.now < 2 ^ 64 }
    {
        self.next == u64::MAX
    }
}
