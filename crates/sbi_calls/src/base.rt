//! Base extension.

ghost use Rattle.std.specs.Prelude.{◌≡◌, ◌≤◌, ◌≢◌};
ghost use Rattle.sbi_calls.specs.Base.{base_call, base_value};

use crate::call::{Request, SbiCall};

/// The number of the extension.
pub(crate) const NUMBER: u64 = 0x10;

/// Function 3 is `sbi_probe_extension`; the others up to 6 answer a constant.
pub(crate) fn call(request: Request) -> SbiCall
    ensures { result ≡ base_call request }
{
    match request.function {
        3 => SbiCall::Probe(request.a0),
        function if function <= 6 => SbiCall::Base(function as u8),
        _ => SbiCall::Unknown,
    }
}

/// The value that function `f` of the base extension answers: 0 the specification's version, 1 the
/// implementation's number, 2 its version, and 4, 5 and 6 mvendorid, marchid and mimpid.
///
/// `f` is at most 6 and isn't 3, which is `sbi_probe_extension`.
pub fn base_answer(f: u8) -> u64
    requires known { f ≤ 6 }
    requires constant { f ≢ 3 }
    ensures { result ≡ base_value f }
{
    match f {
        0 => 0x0200_0000,
        1 => 0x5241,
        2 => 1,
        _ => 0,
    }
}
