//! Codewords: their check bits, and what 72 bits stand for.

ghost use Rattle.std.specs.Prelude.{◌≡◌, ◌≢◌, ℕ, ◌<◌, ◌^◌, bit_xor};
ghost use Rattle.hsiao_code.specs.Code.{check_bits, code_bits, code, flip, syndrome_of, fix};
ghost use Rattle.hsiao_code.specs.declared.codeword.Decoded.TheVariants.{Clean, Fixed, Bad};

use super::tables::{check_entry, syndrome_entry};

/// What 72 bits stand for.
#[derive(Clone, Copy, Debug, PartialEq, Eq, Drop)]
pub enum Decoded {
    /// A codeword: its data.
    Clean(u64),
    /// One flip away from a codeword: that codeword's data, and the flipped bit.
    Fixed(u64, u8),
    /// Neither.
    Bad,
}

/// The check bits of the data `v`: the xor of the columns of its set bits.
pub fn check_of(v: u64) -> u8
    ensures { result ≡ check_bits v }
{
    let mut check = 0;
    for k in 0..8u8 {
        check ^= check_entry(k, (v >> (8 * k) & 0xFF) as u8);
    }
    check
}

/// The syndrome of the 72 bits with data `v` and check bits `check`: the xor of the columns of all
/// set bits, which is 0 exactly for a codeword.
pub fn syndrome(v: u64, check: u8) -> u8
    ensures by_parts { result ≡ bit_xor (check_bits v) check }
    ensures whole { result ≡ syndrome_of (code_bits v check) }
{
    check_of(v) ^ check
}

/// What the 72 bits with data `v` and check bits `check` stand for.
///
/// A codeword is read as it is, a codeword with one flipped bit as that codeword with the bit, and a
/// codeword with two flipped bits is bad.
pub fn read_code(v: u64, check: u8) -> Decoded
    ensures exact { result ≡ fix (code_bits v check) }
    ensures clean { (d : ℕ) → d < 2 ^ 64 → code_bits v check ≡ code d → result ≡ Clean d }
    ensures one_flip { (d j : ℕ) → d < 2 ^ 64 → j < 72 → code_bits v check ≡ flip (code d) j → result ≡ Fixed d j }
    ensures two_flips { (d i j : ℕ) → d < 2 ^ 64 → i < 72 → j < 72 → i ≢ j → code_bits v check ≡ flip (flip (code d) i) j → result ≡ Bad }
{
    match syndrome_entry(syndrome(v, check)) {
        72 => Decoded::Clean(v),
        73 => Decoded::Bad,
        bit if bit < 64 => Decoded::Fixed(v ^ (1 << bit), bit),
        bit => Decoded::Fixed(v, bit),
    }
}
