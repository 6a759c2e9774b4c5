//! The register instructions of RV64I (unprivileged manual, "Integer Computational Instructions" of RV32I and RV64I).

ghost use Rattle.std.specs.Prelude.{◌≡◌, ◌%◌, ◌^◌};
ghost use Rattle.rv64_alu.specs.Results.{alu_result, alu_w_result};

use ras_bits::sext;
use rv64_decode::{AluOp, AluWOp};

/// The result of an instruction on whole registers, modulo 2^64. A shift goes by the low six bits of `b`.
pub fn alu(op: AluOp, a: u64, b: u64) -> u64
    ensures { result ≡ alu_result op a b }
{
    match op {
        AluOp::Add => a.wrapping_add(b),
        AluOp::Sub => a.wrapping_sub(b),
        AluOp::Sll => a << (b % 64),
        AluOp::Slt => (a.cast_signed() < b.cast_signed()) as u64,
        AluOp::Sltu => (a < b) as u64,
        AluOp::Xor => a ^ b,
        AluOp::Srl => a >> (b % 64),
        AluOp::Sra => (a.cast_signed() >> (b % 64)).cast_unsigned(),
        AluOp::Or => a | b,
        AluOp::And => a & b,
    }
}

/// The result of an instruction on the low 32 bits of registers, with its sign extended to 64 bits. A shift goes
/// by the low five bits of `b`.
pub fn alu_w(op: AluWOp, a: u64, b: u64) -> u64
    ensures { result ≡ alu_w_result op a b }
{
    match op {
        AluWOp::Addw => sext(a.wrapping_add(b), 32),
        AluWOp::Subw => sext(a.wrapping_sub(b), 32),
        AluWOp::Sllw => sext(a << (b % 32), 32),
        AluWOp::Srlw => sext(low(a) >> (b % 32), 32),
        AluWOp::Sraw => (sext(a, 32).cast_signed() >> (b % 32)).cast_unsigned(),
    }
}

/// The low 32 bits.
pub fn low(a: u64) -> u64
    ensures { result ≡ a % 2 ^ 32 }
{
    a % (1 << 32)
}
