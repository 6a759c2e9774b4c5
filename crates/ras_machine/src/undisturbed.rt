//! Steps in which nothing but a hart acts: no staged injection counts down, no critical error is
//! kept, the script has no line, no patrol is due, and the drain does nothing.

ghost use Rattle.std.specs.Prelude.{◌≡◌, ◌+◌, ◌<◌, ◌≤◌, ◌^◌, ℕ, true, None, [], length};
ghost use Rattle.std.specs.List.Sorted.{IsNonDecreasingBy};
ghost use Rattle.fault_script.specs.Steps.{step_of_line, at_step};
ghost use Rattle.ras_machine.specs.FirstLine.{IsFirstLineOf};
ghost use Rattle.ras_machine.specs.Schedule.{given_by};
ghost use Rattle.ras_machine.specs.Undisturbed.{AreCalm, IsUndisturbed, first_with_few};

use crate::ending::Ending;
use crate::state::MachineState;
use fault_script::ScriptLine;
use poison_mem::FlipBus;
use reri_bank::Banks;

/// Whether no injection is staged, and no record keeps a critical error.
fn are_calm(banks: &Banks) -> bool
    ensures { result ≡ true → AreCalm banks.now }
{
    let memory = banks.bank(0);
    let caches = banks.bank(1);
    memory.staged(0).is_none()
        && memory.staged(1).is_none()
        && caches.staged(0).is_none()
        && caches.staged(1).is_none()
        && banks.first_critical().is_none()
}

/// The first step from `n` on in which so few steps of an interval are left, where so many are left
/// in step `n`, or the last number of a step where none ever are.
fn first_with_few(n: u64, left: u64, few: u64) -> u64
    requires { n + left < 2 ^ 64 }
    ensures { result ≡ first_with_few n left few }
{
    if left == 0 {
        u64::MAX
    } else {
        n + left.saturating_sub(few)
    }
}

/// The step of line `at`, or the budget where that comes first or there is no such line.
fn silent_until(lines: &[ScriptLine], at: usize, budget: u64) -> u64
    requires { IsNonDecreasingBy step_of_line lines.now }
    ensures high { result ≤ budget }
    ensures low { (k : ℕ) → IsFirstLineOf k lines.now at → k ≤ budget → k ≤ result }
    ensures first { (k n : ℕ) → IsFirstLineOf k lines.now at → k ≤ n → n ≤ result
        → IsFirstLineOf n lines.now at }
    ensures silent { (k n : ℕ) → IsFirstLineOf k lines.now at → k ≤ n → n < result
        → at_step n lines.now ≡ [] }
{
    if at < lines.len() {
        lines[at].step.min(budget)
    } else {
        budget
    }
}

impl<B: FlipBus> MachineState<B> {
    ghost use Rattle.ras_machine.specs.Actions.{words_in, hart_acted, left_by, step_ending};
    ghost use Rattle.ras_machine.specs.Undisturbed.{step_begun};

    /// The first step, this one or a later one, in which something else than a hart may act. `at`
    /// is the number of the first line of this step or a later one, and is so up to there.
    pub(crate) fn undisturbed_until(&mut self, budget: u64, lines: &[ScriptLine], at: usize) -> u64
        requires budget { self.old.steps ≤ budget }
        requires most { budget + self.old.poll + self.old.patrol.every < 2 ^ 64 }
        requires rising { IsNonDecreasingBy step_of_line lines.now }
        requires first { IsFirstLineOf self.old.steps lines.now at }
        ensures alone { (n : ℕ) → self.old.steps ≤ n → n < result
            → IsUndisturbed budget lines.now self.old.poll self.old.patrol n }
        ensures calm { self.old.steps < result → AreCalm self.old.firmware.banks }
        ensures first { (n : ℕ) → self.old.steps ≤ n → n ≤ result → IsFirstLineOf n lines.now at }
        ensures low { self.old.steps ≤ result }
        ensures high { result ≤ budget }
        ensures stays { self.new ≡ self.old }
    {
        let n = self.steps;
        if !are_calm(&self.firmware.banks) {
            return n;
        }
        let drain = first_with_few(n, self.poll.left(n), 2);
        let patrol = first_with_few(n, self.patrol.left(n), 1);
        silent_until(lines, at, budget).min(drain).min(patrol)
    }

    /// Makes a step in which nothing but a hart acts. The ending that it brings, where it brings
    /// one, is then in `ending`.
    pub(crate) fn step_undisturbed(
        &mut self,
        input: &[u8],
        schedule: &[u8],
        ending: &mut Option<Ending>,
    )
        requires fits { self.old.steps + 1 < 2 ^ 64 }
        requires none { ending.old ≡ None }
        ensures after { let given = given_by input.now schedule.now in
            self.new ≡ left_by (hart_acted B.meaning given (step_begun self.old)) }
        ensures ending { let given = given_by input.now schedule.now in
            ending.new ≡ step_ending (hart_acted B.meaning given (step_begun self.old)) }
        ensures low { self.new.steps ≤ self.old.steps + 1 }
        ensures completed { ending.new ≡ None → self.new.steps ≡ self.old.steps + 1 }
        ensures words { words_in B.meaning self.new ≡ words_in B.meaning self.old }
        ensures harts { length self.new.shared.harts ≡ length self.old.shared.harts }
        ensures poll { self.new.poll ≡ self.old.poll }
        ensures patrol { self.new.patrol ≡ self.old.patrol }
    {
        self.firmware.begin_step(self.steps);
        self.step_hart(input, schedule, ending);
    }
}
