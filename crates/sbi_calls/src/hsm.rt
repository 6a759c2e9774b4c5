//! Hart state management extension, "HSM".

ghost use Rattle.std.specs.Prelude.{◌≡◌};
ghost use Rattle.sbi_calls.specs.Hsm.{hart_state_call, status_value};

use crate::call::{Request, SbiCall};

/// The number of the extension: the letters HSM.
pub(crate) const NUMBER: u64 = 0x48_534D;

/// The status STARTED.
const STARTED: u64 = 0;

/// The status STOPPED.
const STOPPED: u64 = 1;

pub(crate) fn call(request: Request) -> SbiCall
    ensures { result ≡ hart_state_call request }
{
    match request.function {
        0 => SbiCall::HartStart {
            id: request.a0,
            entry: request.a1,
            opaque: request.a2,
        },
        1 => SbiCall::HartStop,
        2 => SbiCall::HartStatus(request.a0),
        _ => SbiCall::Unknown,
    }
}

/// The value that `sbi_hart_get_status` answers for a hart: 0 started, 1 stopped. No call leaves a hart
/// in one of the specification's other states.
pub fn status_answer(started: bool) -> u64
    ensures { result ≡ status_value started }
{
    if started { STARTED } else { STOPPED }
}
