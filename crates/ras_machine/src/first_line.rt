//! Where the lines of a step begin in a script.

ghost use Rattle.std.specs.Prelude.{◌≡◌};
ghost use Rattle.std.specs.List.Sorted.{IsNonDecreasingBy};
ghost use Rattle.fault_script.specs.Steps.{step_of_line};
ghost use Rattle.ras_machine.specs.FirstLine.{IsFirstLineOf};

use fault_script::ScriptLine;

/// The number of the first line of step `n`, or of a later step, in a script.
pub(crate) fn first_line_of(lines: &[ScriptLine], n: u64) -> usize
    requires { IsNonDecreasingBy step_of_line lines.now }
    ensures { IsFirstLineOf n lines.now result }
{
    let mut low = 0;
    let mut high = lines.len();
    while low < high {
        let middle = low + (high - low) / 2;
        if lines[middle].step < n {
            low = middle + 1;
        } else {
            high = middle;
        }
    }
    low
}
