//! What is written is read back.

ghost use Rattle.std.specs.Prelude.{◌≡◌, ℕ, ◌<◌, ◌^◌, ◌++◌, codes, decimal, Some};
ghost use Rattle.ras_numbers.specs.Numbers.{number_of, hex_text, address_text};

/// The decimal text of a number below 2^64 is read as that number.
pub fn decimal_reads_back()
    ensures { (n : ℕ) → n < 2 ^ 64 → number_of (decimal n) ≡ Some n }
{}

/// `0x` and the hexadecimal text of a number that has room in it, and is below 2^64, are read as
/// that number.
pub fn hex_reads_back()
    ensures { (width n : ℕ) → 0 < width → n < 16 ^ width → n < 2 ^ 64 → number_of (codes "0x" ++ hex_text width n) ≡ Some n }
{}

/// The address text of a number below 2^64 is read as that number.
pub fn address_reads_back()
    ensures { (n : ℕ) → n < 2 ^ 64 → number_of (address_text n) ≡ Some n }
{}
