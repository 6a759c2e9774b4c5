//! What makes the code correct one flip and detect two.

ghost use Rattle.std.specs.Prelude.{◌≡◌, ℕ, ◌<◌, ◌%◌, count_ones};
ghost use Rattle.hsiao_code.specs.Code.{column_at};

/// The 72 columns are distinct, and each has an odd number of set bits.
pub fn columns_are_distinct_and_odd()
    ensures distinct { (i j : ℕ) → i < 72 → j < 72 → column_at i ≡ column_at j → i ≡ j }
    ensures odd { (i : ℕ) → i < 72 → count_ones (column_at i) % 2 ≡ 1 }
{}
