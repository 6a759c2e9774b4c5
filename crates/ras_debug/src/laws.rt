//! A law of sessions.

ghost use Rattle.std.specs.Prelude.{◌≡◌, ℕ, List};
ghost use Rattle.fault_script.specs.Steps.{InRisingSteps};
ghost use Rattle.fault_script.specs.declared.lines.ScriptLine.{ScriptLine};
ghost use Rattle.ras_machine.specs.Machine.{StackMachine};
ghost use Rattle.ras_machine.specs.Schedule.{Given};
ghost use Rattle.ras_debug.specs.Session.{replies, session_of};

/// The replies under a script's lines in rising steps are those under the lines as they were read:
/// a session sees the lines of a script by their steps.
#[tactic(auto, using(crate::proofs::Scripts::replies_same))]
pub fn sessions_see_lines_by_steps()
    ensures { (m : StackMachine) (given : Given) (read script : List ScriptLine) →
        InRisingSteps read script → (lines : List (List ℕ)) →
        replies lines (session_of m given script) ≡ replies lines (session_of m given read) }
{}
