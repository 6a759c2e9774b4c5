//! Timer extension, "TIME".

ghost use Rattle.std.specs.Prelude.{◌≡◌};
ghost use Rattle.sbi_calls.specs.Time.{time_call};

use crate::call::{Request, SbiCall};

/// The number of the extension: the letters TIME.
pub(crate) const NUMBER: u64 = 0x5449_4D45;

pub(crate) fn call(request: Request) -> SbiCall
    ensures { result ≡ time_call request }
{
    match request.function {
        0 => SbiCall::SetTimer(request.a0),
        _ => SbiCall::Unknown,
    }
}
