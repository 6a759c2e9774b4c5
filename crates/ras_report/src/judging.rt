//! Whether damage reached the program: the verdict on two runs of one image.

ghost use Rattle.std.specs.Prelude.{◌≡◌, ◌↔◌, List, IsTrue};
ghost use Rattle.fault_script.specs.declared.lines.ScriptLine.{ScriptLine};
ghost use Rattle.ras_machine.specs.Flat.{FlatMachine, flat_whole};
ghost use Rattle.ras_machine.specs.Schedule.{Given};
ghost use Rattle.ras_machine.specs.Ways.{EndsBy, KeepsToFlat};
ghost use Rattle.ras_report.specs.Verdicts.{IsVerdict, faulty_shown, flat_shown, is_at_error, verdict_by, verdict_of};
ghost use Rattle.ras_report.specs.VerdictWays.{JudgesByWay};

use crate::verdicts::Verdict;
use ras_machine::{Ending, Flat, Machine, Stop};

// Whether a run stopped at a poisoned word or at an injected critical error.
fn is_at_error(stop: Stop) -> bool
    ensures { result ≡ is_at_error stop }
{
    match stop {
        Stop::Consumed { .. } => true,
        Stop::Injected { .. } => true,
        Stop::Shutdown(_) => false,
        Stop::Reboot(_) => false,
        Stop::Budget => false,
        Stop::ConsoleFull => false,
    }
}

// Whether a run that ended as `e` shows what the flat machine's shows, which ended as `fe`.
fn shows_same(m: &Machine, e: &Ending, f: &Flat, fe: &Ending) -> bool
    ensures { IsTrue result ↔ (faulty_shown m.now.state e.now ≡ flat_shown f.now.state fe.now) }
{
    let same_ending = *e == *fe;
    let same_console = m.console() == f.console();
    same_ending && same_console && m.same_harts(f)
}

// The verdict, by whether a run stopped at an error, and whether it shows what the flat machine's
// shows.
fn verdict_by(is_at_error: bool, same: bool) -> Verdict
    ensures { result ≡ verdict_by is_at_error same }
{
    if is_at_error {
        Verdict::Uncorrected
    } else if same {
        Verdict::Same
    } else {
        Verdict::Silent
    }
}

/// The verdict on a run that ended as `e`, beside a run of the flat machine that ended as `fe`:
/// `Uncorrected` exactly where it stopped at a poisoned word or at an injected critical error; else
/// `Silent` exactly where console, stop, steps, harts or the place in the input differ; else
/// `Same`.
///
/// Where the flat machine made its whole run, and the other run keeps to it, as one of the same
/// image under the same input and schedule does, `Silent` comes only where there was a third flip.
pub fn verdict(m: &Machine, e: &Ending, f: &Flat, fe: &Ending) -> Verdict
    ensures verdict { result ≡ verdict_of (faulty_shown m.now.state e.now)
        (flat_shown f.now.state fe.now) }
    ensures rule { IsVerdict (faulty_shown m.now.state e.now)
        (flat_shown f.now.state fe.now) result }
    ensures third_flip { (given : Given) (flat : FlatMachine) (lines : List ScriptLine)
        → flat_whole given flat ≡ record { after = f.now.state; ending = fe.now }
        → KeepsToFlat m.now.state.beyond lines (EndsBy given flat lines e.now m.now.state)
        → JudgesByWay m.now.state.beyond lines result }
{
    verdict_by(is_at_error(e.stop), shows_same(m, e, f, fe))
}
