//! Which injections are logged, and in which steps.

ghost use Rattle.std.specs.Prelude.{◌≡◌, ◌<◌, ℕ, List, None};
ghost use Rattle.std.specs.List.{AllByRecursion};
ghost use Rattle.poison_mem.specs.RecordId.{bank_number};
ghost use Rattle.poison_mem.specs.declared.record_id.RecordId.{RecordId};
ghost use Rattle.reri_bank.specs.BanksState.{BanksState};
ghost use Rattle.reri_bank.specs.StateAt.{state_at};
ghost use Rattle.reri_inject.specs.Calls.{BanksCall, IsCall, last_step, banks_run, lines_of, GoesByLines};

/// Over any calls of `stage`, beginnings of steps with one `count_down` each, and whatever else happens to the banks and
/// stages nothing: what waits for a record is what its lines say, and the next beginning of a step logs to it exactly the
/// injection that is due in that step.
pub fn injections_are_logged_when_due()
    ensures { (id : RecordId) (step : ℕ) (calls : List BanksCall) (b : BanksState) → bank_number id < 2 → AllByRecursion IsCall calls
        → (state_at b id).staged ≡ None → GoesByLines (lines_of id step calls) (last_step step calls) id (banks_run step calls b) }
{}
