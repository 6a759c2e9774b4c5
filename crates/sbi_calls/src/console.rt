//! Debug console extension, "DBCN".

ghost use Rattle.std.specs.Prelude.{◌≡◌, ℕ, ◌+◌, ◌<◌, ◌↔◌, IsSome, true};
ghost use Rattle.ras_bits.specs.Map.{is_ram};
ghost use Rattle.sbi_calls.specs.Console.{console_call, span_of};

use crate::call::{Request, SbiCall};
use ras_bits::{RAM_START, word_address};

/// The number of the extension: the letters DBCN.
pub(crate) const NUMBER: u64 = 0x4442_434E;

/// The most bytes that one console call takes.
pub const MOST_BYTES: u64 = 4096;

/// Of a byte to be written the low 8 bits of a0 are taken.
pub(crate) fn call(request: Request) -> SbiCall
    ensures { result ≡ console_call request }
{
    let Request {
        function,
        a0,
        a1,
        a2,
    } = request;
    match function {
        0 => SbiCall::ConWrite {
            n: a0,
            lo: a1,
            hi: a2,
        },
        1 => SbiCall::ConRead {
            n: a0,
            lo: a1,
            hi: a2,
        },
        2 => SbiCall::ConByte((a0 % 256) as u8),
        _ => SbiCall::Unknown,
    }
}

/// The bytes of a console call that names `n` bytes at the physical address `hi` · 2^64 + `lo`, in a
/// machine whose RAM has `words` words of 64 bits: the address of the first byte and the number of the
/// bytes taken, which is at most 4,096.
///
/// `None` exactly where the call is refused as SBI_ERR_INVALID_PARAM (-3): where `hi` isn't 0, or where
/// `n` isn't 0 and the `n` bytes don't all lie in RAM. With `n` 0 and `hi` 0 any `lo` will do.
pub fn span(n: u64, lo: u64, hi: u64, words: u32) -> Option<(u64, u64)>
    ensures value { result ≡ span_of n lo hi words }
    ensures all_in_ram { IsSome result ↔ ((hi ≡ 0) × ((i : ℕ) → i < n → is_ram words (lo + i) ≡ true)) }
{
    if hi != 0 {
        return None;
    }
    if n == 0 {
        return Some((lo, 0));
    }
    let end = word_address(words);
    if lo < RAM_START || lo >= end || end - lo < n {
        return None;
    }
    Some((lo, n.min(MOST_BYTES)))
}
