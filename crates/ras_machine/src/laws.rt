//! Laws of runs.

ghost use Rattle.std.specs.Prelude.{◌≡◌, ◌+◌, ℕ, List};
ghost use Rattle.fault_script.specs.declared.lines.ScriptLine.{ScriptLine};
ghost use Rattle.ras_machine.specs.Schedule.{Given};
ghost use Rattle.ras_machine.specs.Machine.{StackMachine, machine_steps};

/// So many steps, and then so many more, are as many steps as both: a run that is cut and goes on
/// is the run.
#[tactic(auto, using(crate::specs::RunsLaws::iterated_more))]
pub fn runs_go_on()
    ensures { (given : Given) (script : List ScriptLine) (m : StackMachine) (a b : ℕ) →
        machine_steps given script (a + b) m
        ≡ machine_steps given script b (machine_steps given script a m) }
{}
