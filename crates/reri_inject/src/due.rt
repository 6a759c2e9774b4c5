//! Which injections are due.

ghost use Rattle.std.specs.Prelude.{◌≡◌, ◌+◌, ◌≤◌, ℕ, List};
ghost use Rattle.std.specs.List.{AllByRecursion};
ghost use Rattle.reri_inject.specs.Due.{Injection, InjectLine, IsDue};

/// Of the lines of a record at most one injection is due in a step.
pub fn at_most_one_injection_is_due()
    ensures { (n : ℕ) (lines : List InjectLine) (i j : Injection) → AllByRecursion (λ (l : InjectLine). 1 ≤ l.delay) lines
        → IsDue lines (n + 1) i → IsDue lines (n + 1) j → i ≡ j }
{}
