//! Multiplication, division and remainder (unprivileged manual, "M" extension).

ghost use Rattle.std.specs.Prelude.{◌≡◌};
ghost use Rattle.std.specs.Int.{int_shr};
ghost use Rattle.rv64_alu.specs.Results.{modulo, mul_result};
ghost use Rattle.rv64_decode.specs.declared.instr.MulOp.TheVariants.{Div, Divu, Rem, Remu};

use crate::registers::low;
use ras_bits::sext;
use rv64_decode::MulOp;

/// The result of a multiplication, division or remainder.
///
/// A quotient rounds toward zero and a remainder has the dividend's sign. Division by zero gives all ones, and its
/// remainder the dividend; the quotient that overflows is the dividend, and its remainder 0.
pub fn muldiv(op: MulOp, a: u64, b: u64) -> u64
    ensures { result ≡ mul_result op a b }
{
    match op {
        MulOp::Mul => a.wrapping_mul(b),
        MulOp::Mulh => high(a.cast_signed() as i128 * b.cast_signed() as i128),
        MulOp::Mulhsu => high(a.cast_signed() as i128 * b as i128),
        MulOp::Mulhu => ((a as u128 * b as u128) >> 64) as u64,
        MulOp::Div => div(a, b),
        MulOp::Divu => divu(a, b),
        MulOp::Rem => rem(a, b),
        MulOp::Remu => remu(a, b),
        MulOp::Mulw => sext(a.wrapping_mul(b), 32),
        MulOp::Divw => sext(div(sext(a, 32), sext(b, 32)), 32),
        MulOp::Divuw => sext(divu(low(a), low(b)), 32),
        MulOp::Remw => rem(sext(a, 32), sext(b, 32)),
        MulOp::Remuw => sext(remu(low(a), low(b)), 32),
    }
}

/// The upper half of a product.
fn high(product: i128) -> u64
    ensures { result ≡ modulo (int_shr product 64) }
{
    ((product >> 64).cast_unsigned() & 0xFFFF_FFFF_FFFF_FFFF) as u64
}

/// The quotient of signed numbers.
fn div(a: u64, b: u64) -> u64
    ensures { result ≡ mul_result Div a b }
{
    match b.cast_signed() {
        0 => u64::MAX,
        b => a.cast_signed().wrapping_div(b).cast_unsigned(),
    }
}

/// The quotient of unsigned numbers.
fn divu(a: u64, b: u64) -> u64
    ensures { result ≡ mul_result Divu a b }
{
    if b == 0 { u64::MAX } else { a / b }
}

/// The remainder of signed numbers.
fn rem(a: u64, b: u64) -> u64
    ensures { result ≡ mul_result Rem a b }
{
    match b.cast_signed() {
        0 => a,
        b => a.cast_signed().wrapping_rem(b).cast_unsigned(),
    }
}

/// The remainder of unsigned numbers.
fn remu(a: u64, b: u64) -> u64
    ensures { result ≡ mul_result Remu a b }
{
    if b == 0 { a } else { a % b }
}
