//! Verdicts, and their text.

ghost use Rattle.std.specs.Prelude.{◌≡◌};
ghost use Rattle.ras_report.specs.Verdicts.{verdict_line};

/// What comes of a run beside the flat machine's.
#[derive(Clone, Copy, Debug, PartialEq, Eq)]
pub enum Verdict {
    /// It shows what the flat machine's run shows.
    Same,
    /// It stopped at a poisoned word or at an injected critical error.
    Uncorrected,
    /// It did not stop at an error, and shows something else.
    Silent,
}

/// The line of a verdict.
pub fn verdict_line(verdict: Verdict) -> &'static [u8]
    ensures { result.now ≡ verdict_line verdict }
{
    match verdict {
        Verdict::Same => b"verdict same\n",
        Verdict::Uncorrected => b"verdict uncorrected\n",
        Verdict::Silent => b"verdict silent\n",
    }
}
