//! Where a critical event comes from that is first kept in a step.

ghost use Rattle.std.specs.Prelude.{◌≡◌, ◌==◌, ◌+◌, ◌<◌, ◌≤◌, ◌++◌, ℕ, List, Option, Some, None, true, false};
ghost use Rattle.std.specs.List.{AllByRecursion};
ghost use Rattle.poison_mem.specs.Bus.{logged_all};
ghost use Rattle.poison_mem.specs.RecordId.{bank_number, record_number};
ghost use Rattle.poison_mem.specs.declared.event.Event.{Event};
ghost use Rattle.poison_mem.specs.declared.record_id.RecordId.{RecordId};
ghost use Rattle.reri_bank.specs.declared.state.Staged.{Staged};
ghost use Rattle.reri_bank.specs.Record.{rank};
ghost use Rattle.reri_bank.specs.BanksState.{BanksState};
ghost use Rattle.reri_bank.specs.Banks.{banks_logged, banks_staged, banks_written, first_critical};
ghost use Rattle.reri_bank.specs.StateAt.{state_at};
ghost use Rattle.reri_inject.specs.Due.{InjectLine, IsDue};
ghost use Rattle.reri_inject.specs.Inject.{begun};
ghost use Rattle.reri_inject.specs.Calls.{AreStaged};
ghost use Rattle.reri_inject.specs.Critical.{BringsNoCritical, KeepsOrEmpties, critical_at, NoCriticalIsDue, KeepsDueCritical};

/// Where no record keeps a critical event when a step begins, and what happens after its count-down
/// brings none, a critical event that is kept then is due by the inject lines alone: the first record
/// that keeps one keeps that of a critical injection which is due in this step. One that is due is
/// kept where its record logs. Where none is due, and where nothing is staged, no record keeps one.
pub fn critical_events_are_due()
    ensures due { (lines : RecordId → List InjectLine) (n : ℕ) (b c : BanksState) (bank rec : ℕ)
        → AreStaged lines n b → first_critical b ≡ None → BringsNoCritical (begun (n + 1) b) c
        → first_critical c ≡ Some (bank, rec) → KeepsDueCritical lines (n + 1) c bank rec }
    ensures kept { (lines : RecordId → List InjectLine) (n : ℕ) (b : BanksState) (id : RecordId)
        (addr : ℕ) → bank_number id < 2
        → AllByRecursion (λ (l : InjectLine). 1 ≤ l.delay) (lines id) → AreStaged lines n b
        → first_critical b ≡ None → (state_at b id).control.logging ≡ true
        → IsDue (lines id) (n + 1) (critical_at addr)
        → KeepsDueCritical lines (n + 1) (begun (n + 1) b) (bank_number id) (record_number id) }
    ensures not_due { (lines : RecordId → List InjectLine) (n : ℕ) (b c : BanksState)
        → AreStaged lines n b → first_critical b ≡ None → NoCriticalIsDue lines (n + 1)
        → BringsNoCritical (begun (n + 1) b) c → first_critical c ≡ None }
    ensures unstaged { (n : ℕ) (b c : BanksState)
        → ((id : RecordId) → bank_number id < 2 → (state_at b id).staged ≡ None)
        → first_critical b ≡ None → BringsNoCritical (begun n b) c → first_critical c ≡ None }
{}

/// What else happens in a step brings no critical event: a log of another event, and of a list of
/// others; an injection that is staged or taken away; a write of a register; whatever keeps or
/// empties each record; and such calls one after the other. Where no record kept one before, none
/// keeps one after. Nor does an inject line of this step, or of a later one, make one due in it.
pub fn other_calls_bring_no_critical_event()
    ensures log { (b : BanksState) (e : Event) → (rank e.class == 2) ≡ false
        → BringsNoCritical b (banks_logged b e) }
    ensures logs { (b : BanksState) (es : List Event)
        → AllByRecursion (λ (e : Event). (rank e.class == 2) ≡ false) es
        → BringsNoCritical b (logged_all banks_logged b es) }
    ensures stage { (b : BanksState) (bank rec : ℕ) (staged : Option Staged)
        → BringsNoCritical b (banks_staged b bank rec staged) }
    ensures write { (b : BanksState) (bank offset v : ℕ)
        → BringsNoCritical b (banks_written b bank offset v) }
    ensures keep { (b c : BanksState) → KeepsOrEmpties b c → BringsNoCritical b c }
    ensures follow { (a b c : BanksState) → BringsNoCritical a b → BringsNoCritical b c
        → BringsNoCritical a c }
    ensures none { (b c : BanksState) → first_critical b ≡ None → BringsNoCritical b c
        → first_critical c ≡ None }
    ensures later { (lines more : RecordId → List InjectLine) (n : ℕ)
        → ((id : RecordId) → AllByRecursion (λ (l : InjectLine). n ≤ l.step) (more id))
        → ((id : RecordId) → AllByRecursion (λ (l : InjectLine). 1 ≤ l.delay) (more id))
        → NoCriticalIsDue lines n → NoCriticalIsDue (λ id. lines id ++ more id) n }
{}
