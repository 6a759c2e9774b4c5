//! Which views a record can show.

ghost use Rattle.std.specs.Prelude.{◌≡◌, ℕ, List, Some};
ghost use Rattle.poison_mem.specs.declared.event.Event.{Event};
ghost use Rattle.poison_mem.specs.declared.event.RecordView.{RecordView};
ghost use Rattle.reri_bank.specs.declared.state.RecState.{RecState};
ghost use Rattle.reri_bank.specs.State.{IsRecordHeld, RecordLists, shown};
ghost use Rattle.reri_bank.specs.Views.{IsReachable, CountFits, LeadTo};

/// What a record shows of events whose `pri` is below 4 is reachable, and each reachable view is shown of such events.
/// So each state of a record stands for lists of events.
pub fn reachable_views_are_those_of_events()
    ensures shown { (es : List Event) (v : RecordView) → LeadTo es v → IsReachable v }
    ensures reached { (v : RecordView) → CountFits (Some v) → IsReachable v
        → (es : List Event) × LeadTo es v }
    ensures stands { (bank rec : ℕ) (s : RecState) → IsRecordHeld bank rec s → CountFits s.kept
        → (r : RecordLists) × (s ≡ shown r) }
{}
