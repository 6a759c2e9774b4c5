//! What holds of every format.

ghost use Rattle.std.specs.Prelude.{ℕ, List, ◌≡◌, ◌++◌, length, true};
ghost use Rattle.std.specs.List.{AllByRecursion};
ghost use Rattle.byte_fields.specs.Fields.{Field, HaveWidths, StandsAtSlot, fit_between, laid_out};

/// Fields whose slots follow each other and end before the format does, each as long as its slot, stand at their slots,
/// whatever follows the format; and the format has its length. Whatever crate reads a format back does so by this law.
#[tactic(auto, using(crate::specs::FieldsLaws::length_laid_out, crate::specs::FieldsLaws::fields_stand))]
pub fn fields_stand_at_their_slots()
    ensures length { (n : ℕ) (fs : List Field) → fit_between 0 n fs ≡ true → HaveWidths fs
        → length (laid_out n fs) ≡ n }
    ensures slots { (n : ℕ) (fs : List Field) (rest : List ℕ)
        → fit_between 0 n fs ≡ true → HaveWidths fs
        → AllByRecursion (StandsAtSlot (laid_out n fs ++ rest)) fs }
{}
