//! System reset extension, "SRST".

ghost use Rattle.std.specs.Prelude.{◌≡◌};
ghost use Rattle.sbi_calls.specs.Reset.{reset_call, reset_stop};

use crate::call::{Request, SbiCall};
use crate::stop::GuestStop;

/// The number of the extension: the letters SRST.
pub(crate) const NUMBER: u64 = 0x5352_5354;

pub(crate) fn call(request: Request) -> SbiCall
    ensures { result ≡ reset_call request }
{
    match request.function {
        0 => SbiCall::Reset {
            kind: request.a0,
            reason: request.a1,
        },
        _ => SbiCall::Unknown,
    }
}

/// The stop of `sbi_system_reset` with this reset type and reason.
///
/// `None` exactly where the call is refused as SBI_ERR_INVALID_PARAM (-3): where the type is above 2 or
/// the reason above 1, so also for those that the specification leaves to a platform. All 64 bits of
/// both count.
pub fn reset_of(kind: u64, reason: u64) -> Option<GuestStop>
    ensures { result ≡ reset_stop kind reason }
{
    match (kind, reason) {
        (0, 0 | 1) => Some(GuestStop::Shutdown(reason as u32)),
        (1 | 2, 0 | 1) => Some(GuestStop::Reboot(kind as u32)),
        _ => None,
    }
}
