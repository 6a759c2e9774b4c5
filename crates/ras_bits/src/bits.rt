//! Fields of bits in words of 64 bits.

ghost use Rattle.std.specs.Prelude.{◌≡◌, ◌+◌, ◌<◌, ◌≤◌, ◌^◌};
ghost use Rattle.ras_bits.specs.Fields.{field, with_field, sign_extended, has_odd_parity};
ghost use Rattle.ras_bits.specs.Bits.{has_bit};

/// The field of `len` bits of `v` whose lowest bit is bit `lo`.
///
/// The field is not empty and lies within the 64 bits.
pub fn get_field(v: u64, lo: u32, len: u32) -> u64
    requires some { 1 ≤ len }
    requires within { lo + len ≤ 64 }
    ensures { result ≡ field v lo len }
{
    (v >> lo) & (u64::MAX >> (64 - len))
}

/// The word `v` with `x` in place of the field of `len` bits from bit `lo` on. All other bits stay.
///
/// The field is not empty and lies within the 64 bits, and `x` fits it.
pub fn put_field(v: u64, lo: u32, len: u32, x: u64) -> u64
    requires some { 1 ≤ len }
    requires within { lo + len ≤ 64 }
    requires fits { x < 2 ^ len }
    ensures { result ≡ with_field v lo len x }
{
    v - (get_field(v, lo, len) << lo) + (x << lo)
}

/// The low `bits` bits of `v`, read as a two's complement number and widened to 64 bits.
///
/// `bits` is 1 to 64, and bit `bits - 1` is the sign.
pub fn sext(v: u64, bits: u32) -> u64
    requires some { 1 ≤ bits }
    requires within { bits ≤ 64 }
    ensures { result ≡ sign_extended v bits }
{
    let low = get_field(v, 0, bits);
    let sign = 1u64 << (bits - 1);
    if low < sign {
        low
    } else {
        (low - sign).wrapping_sub(sign)
    }
}

/// Whether an odd number of the bits of `v` is set.
pub fn parity(v: u64) -> bool
    ensures { result ≡ has_odd_parity v }
{
    v.count_ones() % 2 == 1
}

/// Whether bit `i` of `n` is set. `i` is below 64.
pub fn has_bit(n: u64, i: u32) -> bool
    requires { i < 64 }
    ensures { result ≡ has_bit n i }
{
    (n >> i) % 2 == 1
}
