//! The conditions of branches (unprivileged manual, "Conditional Branches").

ghost use Rattle.std.specs.Prelude.{◌≡◌};
ghost use Rattle.rv64_alu.specs.Results.{branch_taken};

use rv64_decode::BranchOp;

/// Whether a branch is taken.
pub fn branch(op: BranchOp, a: u64, b: u64) -> bool
    ensures { result ≡ branch_taken op a b }
{
    match op {
        BranchOp::Beq => a == b,
        BranchOp::Bne => a != b,
        BranchOp::Blt => a.cast_signed() < b.cast_signed(),
        BranchOp::Bge => a.cast_signed() >= b.cast_signed(),
        BranchOp::Bltu => a < b,
        BranchOp::Bgeu => a >= b,
    }
}
