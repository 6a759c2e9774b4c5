//! Inter-processor interrupt extension, "sPI".

ghost use Rattle.std.specs.Prelude.{◌≡◌, ℕ, ◌+◌, ◌-◌, ◌^◌, ◌≤◌, ◌<◌, ◌↔◌, ◌⊎◌, IsSome, true};
ghost use Rattle.ras_bits.specs.Bits.{has_bit};
ghost use Rattle.sbi_calls.specs.Ipi.{ipi_call, moved_mask, harts_of_mask};

use crate::call::{Request, SbiCall};

/// The number of the extension: the letters sPI.
pub(crate) const NUMBER: u64 = 0x73_5049;

pub(crate) fn call(request: Request) -> SbiCall
    ensures { result ≡ ipi_call request }
{
    match request.function {
        0 => SbiCall::SendIpi {
            mask: request.a0,
            base: request.a1,
        },
        _ => SbiCall::Unknown,
    }
}

// The mask moved up by its base, where each of its bits is then one of so many harts.
fn moved_mask(mask: u64, base: u64, harts: u8) -> Option<u8>
    requires { harts ≤ 8 }
    ensures { result ≡ moved_mask mask base harts }
{
    if mask == 0 {
        return Some(0);
    }
    if base >= harts as u64 || mask >> (harts as u64 - base) != 0 {
        return None;
    }
    Some((mask << base) as u8)
}

/// The harts that `mask` and `base` select of `harts` harts, bit i for hart i. With `base` 2^64 - 1 that
/// is all of them, and else bit i of `mask` stands for hart `base` + i, as a whole number.
///
/// `None` exactly where the call is refused as SBI_ERR_INVALID_PARAM (-3): where a set bit stands for a
/// hart that isn't there. `harts` is at most 8.
pub fn selected_harts(mask: u64, base: u64, harts: u8) -> Option<u8>
    requires { harts ≤ 8 }
    ensures value { result ≡ harts_of_mask mask base harts }
    ensures all_there { IsSome result ↔ ((base ≡ 2 ^ 64 - 1) ⊎ ((i : ℕ) → has_bit mask i ≡ true → base + i < harts)) }
{
    if base == u64::MAX {
        return Some(((1u32 << harts) - 1) as u8);
    }
    moved_mask(mask, base, harts)
}
