//! Intervals of steps, counted without a division in each step.

ghost use Rattle.std.specs.Prelude.{◌≡◌, ◌≤◌, ◌<◌, ◌-◌, ◌%◌, ℕ};
ghost use Rattle.scrubber.specs.Interval.{left_in};

use std::marker::Model;

/// Intervals of so many steps, from step 0 on.
#[derive(Drop)]
pub struct Interval {
    every: u64,
    // The first step of an interval: that of the last step asked for. Where the next step is asked for it needs no division.
    start: u64,
}

impl Model for Interval {
    ghost use Rattle.std.specs.Prelude.{◌≡◌, ◌%◌, ℕ};

    ghost Value = { ℕ };

    ghost view = { λ i. i.every };

    ghost invariant = { λ i. i.start % i.every ≡ 0 };
}

impl Interval {
    /// Intervals of `every` steps; with 0 there are none.
    pub fn new(every: u64) -> Interval
        ensures { result ≡ every }
    {
        Interval { every, start: 0 }
    }

    /// How many steps an interval has.
    pub fn every(&self) -> u64
        ensures { result ≡ self.now }
    {
        self.every
    }

    /// How many steps are left of the interval that step `n` is in, that step counted: 1 in its last step. 0 where there are no
    /// intervals.
    pub fn left(&mut self, n: u64) -> u64
        ensures left { result ≡ left_in self.old n }
        ensures stays { self.new ≡ self.old }
    {
        if self.every == 0 {
            return 0;
        }
        self.start = start_of(self.every, self.start, n);
        self.every - (n - self.start)
    }
}

// The first step of the interval that step `n` is in, where `other` is the first step of some interval.
#[tactic(auto, using(crate::proofs::Intervals::begins, crate::proofs::Intervals::within))]
fn start_of(every: u64, other: u64, n: u64) -> u64
    requires some { 0 < every }
    requires begins { other % every ≡ 0 }
    ensures begins { result % every ≡ 0 }
    ensures low { result ≤ n }
    ensures within { n - result ≡ n % every }
{
    if n < other {
        n - n % every
    } else if n - other < every {
        other
    } else if n - other == every {
        n
    } else {
        n - n % every
    }
}
