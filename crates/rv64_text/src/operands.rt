//! The operands of an instruction's text.

ghost use Rattle.std.specs.Prelude.{◌≡◌, ◌≤◌, ◌<◌, ◌+◌, ◌^◌, ◌++◌, length, codes};
ghost use Rattle.std.specs.Fmt.{signed_decimal};
ghost use Rattle.ras_numbers.specs.Numbers.{hex_text};
ghost use Rattle.rv64_text.specs.Names.{register_name};
ghost use Rattle.rv64_text.specs.Operands.{IsOperand, digits_needed, operand_text};

use crate::names::register_name;
use arrayvec::ArrayVec;
use itoa::Buffer;
use ras_numbers::{address, hex_digits};

/// An operand, by the way it is written.
#[derive(Clone, Copy)]
pub enum Operand {
    /// A register, by its name.
    Register(u8),
    /// An immediate or a shift amount, in decimal.
    Immediate(i16),
    /// An offset from a base register: `8(sp)`.
    Offset(i16, u8),
    /// A base register alone: `(sp)`.
    Base(u8),
    /// Bits 31:12, in hexadecimal without leading zeros.
    Upper(u32),
    /// The number of a control and status register, in three hexadecimal digits.
    CsrNumber(u16),
    /// The immediate of an access to such a register, in decimal.
    CsrImmediate(u8),
    /// An address, in sixteen hexadecimal digits.
    Address(u64),
    /// A word that is no instruction, in eight hexadecimal digits.
    Word(u32),
}

/// Appends bytes for which there is room.
pub fn put(out: &mut ArrayVec<u8, 64>, text: &[u8])
    requires { length out.old.items + length text.now ≤ 64 }
    ensures { out.new.items ≡ out.old.items ++ text.now }
{
    match out.try_extend_from_slice(text) {
        Ok(()) => {}
        Err(_) => unreachable!(),
    }
}

/// Appends the text of an operand; it has at most 18 bytes.
pub fn put_operand(out: &mut ArrayVec<u8, 64>, operand: Operand)
    requires known { IsOperand operand }
    requires room { length out.old.items + 18 ≤ 64 }
    ensures text { out.new.items ≡ out.old.items ++ operand_text operand }
    ensures short { length out.new.items ≤ length out.old.items + 18 }
{
    match operand {
        Operand::Register(n) => put(out, register_name(n).as_bytes()),
        Operand::Immediate(imm) => put_decimal(out, imm),
        Operand::Offset(imm, base) => {
            put_decimal(out, imm);
            put_base(out, base);
        }
        Operand::Base(base) => put_base(out, base),
        Operand::Upper(imm) => put_upper(out, imm),
        Operand::CsrNumber(n) => put_hex::<3>(out, u64::from(n)),
        Operand::CsrImmediate(n) => put_decimal(out, i16::from(n)),
        Operand::Address(n) => put(out, &address(n)),
        Operand::Word(word) => put_hex::<8>(out, u64::from(word)),
    }
}

/// Appends a decimal number; it has at most 6 bytes.
fn put_decimal(out: &mut ArrayVec<u8, 64>, n: i16)
    requires { length out.old.items + 6 ≤ 64 }
    ensures text { out.new.items ≡ out.old.items ++ signed_decimal n }
    ensures short { length out.new.items ≤ length out.old.items + 6 }
{
    let mut buffer = Buffer::new();
    put(out, buffer.format(n).as_bytes());
}

/// Appends a base register in brackets; it has at most 6 bytes.
fn put_base(out: &mut ArrayVec<u8, 64>, base: u8)
    requires known { base < 32 }
    requires room { length out.old.items + 6 ≤ 64 }
    ensures text { out.new.items ≡ out.old.items ++ (codes "(" ++ register_name base ++ codes ")") }
    ensures short { length out.new.items ≤ length out.old.items + 6 }
{
    put(out, b"(");
    put(out, register_name(base).as_bytes());
    put(out, b")");
}

/// Appends `0x` and the low hexadecimal digits of a number, with leading zeros.
fn put_hex<const N: usize>(out: &mut ArrayVec<u8, 64>, n: u64)
    requires { length out.old.items + 2 + N ≤ 64 }
    ensures text { out.new.items ≡ out.old.items ++ (codes "0x" ++ hex_text N n) }
    ensures short { length out.new.items ≡ length out.old.items + 2 + N }
{
    put(out, b"0x");
    put(out, &hex_digits::<N>(n));
}

/// Appends `0x` and the hexadecimal digits of a number below 2^20, without leading zeros.
fn put_upper(out: &mut ArrayVec<u8, 64>, n: u32)
    requires below { n < 2 ^ 20 }
    requires room { length out.old.items + 7 ≤ 64 }
    ensures text { out.new.items ≡ out.old.items ++ (codes "0x" ++ hex_text (digits_needed n) n) }
    ensures short { length out.new.items ≤ length out.old.items + 7 }
{
    let digits = u64::from(n);
    if n < 1 << 4 {
        put_hex::<1>(out, digits);
    } else if n < 1 << 8 {
        put_hex::<2>(out, digits);
    } else if n < 1 << 12 {
        put_hex::<3>(out, digits);
    } else if n < 1 << 16 {
        put_hex::<4>(out, digits);
    } else {
        put_hex::<5>(out, digits);
    }
}
