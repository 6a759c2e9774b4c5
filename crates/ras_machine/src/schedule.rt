//! Which hart makes which step.

ghost use Rattle.std.specs.Prelude.{◌≡◌, ◌<◌, ◌≤◌, ◌%◌};
ghost use Rattle.ras_machine.specs.Schedule.{pick};

use scrubber::Interval;
use std::marker::Model;

/// The number of the hart, of so many, whose turn step `n` is: without a schedule each in its turn;
/// else the one that the schedule's byte for this step says, modulo the number of harts, where the
/// schedule begins anew at its end.
#[tactic(auto, unfolding(crate::specs::Schedule::pick))]
pub fn pick(schedule: &[u8], harts: u8, n: u64) -> u8
    requires { 1 ≤ harts }
    ensures pick { result ≡ pick schedule.now harts n }
    ensures below { result < harts }
{
    if schedule.is_empty() {
        (n % u64::from(harts)) as u8
    } else {
        schedule[(n % schedule.len() as u64) as usize] % harts
    }
}

/// Counts up whose turn it is, without a division in each step.
#[derive(Drop)]
pub(crate) struct Turns {
    round: Interval,
}

impl Model for Turns {
    ghost Value = { Unit {0} };

    ghost view = { λ t. record {} };
}

impl Turns {
    pub(crate) fn new() -> Turns {
        Turns {
            round: Interval::new(1),
        }
    }

    /// The place of step `n` in rounds of so many steps.
    #[tactic(auto, using(crate::proofs::Turning::place_in))]
    fn place(&mut self, round: u64, n: u64) -> u64
        requires { 0 < round }
        ensures place { result ≡ n % round }
        ensures below { result < round }
    {
        if self.round.every() != round {
            self.round = Interval::new(round);
        }
        round - self.round.left(n)
    }

    /// As `pick` does.
    #[tactic(auto, unfolding(crate::specs::Schedule::pick))]
    pub(crate) fn pick(&mut self, schedule: &[u8], harts: u8, n: u64) -> u8
        requires { 1 ≤ harts }
        ensures pick { result ≡ pick schedule.now harts n }
        ensures below { result < harts }
    {
        if harts == 1 {
            0
        } else if schedule.is_empty() {
            self.place(u64::from(harts), n) as u8
        } else {
            schedule[self.place(schedule.len() as u64, n) as usize] % harts
        }
    }
}
