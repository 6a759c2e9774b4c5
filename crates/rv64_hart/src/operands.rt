//! Operands of instructions as numbers modulo 2^64.

ghost use Rattle.std.specs.Prelude.{◌≡◌, ◌<◌, ◌^◌};
ghost use Rattle.rv64_hart.specs.Turn.{immediate as immediate_of, offset_by, upper, even as even_of};

use ras_bits::sext;

/// A signed immediate.
pub(crate) fn immediate(imm: i16) -> u64
    ensures { result ≡ immediate_of imm }
{
    (imm as i64).cast_unsigned()
}

/// An immediate of bits 31:12, with its sign extended.
pub(crate) fn upper_imm(imm: u32) -> u64
    requires { imm < 2 ^ 20 }
    ensures { result ≡ upper imm }
{
    sext((imm as u64) << 12, 32)
}

/// A number with a signed offset.
pub(crate) fn offset(a: u64, off: i64) -> u64
    ensures { result ≡ offset_by a off }
{
    a.wrapping_add_signed(off)
}

/// An address with bit 0 cleared.
pub(crate) fn even(address: u64) -> u64
    ensures { result ≡ even_of address }
{
    address / 2 * 2
}
