//! The operations of atomic memory operations (unprivileged manual, "A" extension).

ghost use Rattle.std.specs.Prelude.{◌≡◌};
ghost use Rattle.std.specs.Int.{w32, w64};
ghost use Rattle.rv64_alu.specs.Results.{amo_result, amo_value};

use crate::registers::low;
use ras_bits::sext;
use rv64_decode::AmoOp;

/// What an atomic memory operation stores, from the old value and the register.
///
/// The narrow form works on the low 32 bits of both; the answer is the 32 bits stored, with their sign extended.
pub fn amo(op: AmoOp, old: u64, b: u64, wide: bool) -> u64
    ensures { result ≡ amo_result op old b wide }
{
    if wide {
        doubleword(op, old, b)
    } else {
        sext(word(op, low(old) as u32, low(b) as u32) as u64, 32)
    }
}

/// The value stored, at either width.
macro_rules! stored {
    ($op:expr, $old:expr, $b:expr) => {
        match $op {
            AmoOp::Swap => $b,
            AmoOp::Add => $old.wrapping_add($b),
            AmoOp::Xor => $old ^ $b,
            AmoOp::And => $old & $b,
            AmoOp::Or => $old | $b,
            AmoOp::Min => if $b.cast_signed() < $old.cast_signed() { $b } else { $old },
            AmoOp::Max => if $old.cast_signed() < $b.cast_signed() { $b } else { $old },
            AmoOp::Minu => $old.min($b),
            AmoOp::Maxu => $old.max($b),
        }
    };
}

/// The value stored by the wide form.
fn doubleword(op: AmoOp, old: u64, b: u64) -> u64
    ensures { result ≡ amo_value w64 op old b }
{
    stored!(op, old, b)
}

/// The value stored by the narrow form.
fn word(op: AmoOp, old: u32, b: u32) -> u32
    ensures { result ≡ amo_value w32 op old b }
{
    stored!(op, old, b)
}
