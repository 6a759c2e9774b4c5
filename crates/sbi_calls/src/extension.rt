//! The extensions that the firmware has, and the call that registers ask for.

ghost use Rattle.std.specs.Prelude.{◌≡◌};
ghost use Rattle.sbi_calls.specs.Extension.{extension_at, call_in, call_of, probe_value};
ghost use Rattle.sbi_calls.specs.Call.{IsServed};

use crate::call::{Request, SbiCall};
use crate::{base, console, hsm, ipi, legacy, reset, time};

/// An extension of the firmware.
#[derive(Clone, Copy)]
pub(crate) enum Extension {
    Base,
    Timer,
    SystemReset,
    DebugConsole,
    HartState,
    Ipi,
    LegacySetTimer,
    LegacyPutchar,
    LegacyGetchar,
    LegacyShutdown,
}

impl Extension {
    /// The table of numbers: the extension of this one. All 64 bits count.
    fn at(number: u64) -> Option<Extension>
        ensures { result ≡ extension_at number }
    {
        Some(match number {
            base::NUMBER => Extension::Base,
            time::NUMBER => Extension::Timer,
            reset::NUMBER => Extension::SystemReset,
            console::NUMBER => Extension::DebugConsole,
            hsm::NUMBER => Extension::HartState,
            ipi::NUMBER => Extension::Ipi,
            legacy::SET_TIMER => Extension::LegacySetTimer,
            legacy::CONSOLE_PUTCHAR => Extension::LegacyPutchar,
            legacy::CONSOLE_GETCHAR => Extension::LegacyGetchar,
            legacy::SHUTDOWN => Extension::LegacyShutdown,
            _ => return None,
        })
    }

    /// What a request asks of the extension. All 64 bits of the function count.
    fn call(self, request: Request) -> SbiCall
        ensures { result ≡ call_in self request }
    {
        match self {
            Extension::Base => base::call(request),
            Extension::Timer => time::call(request),
            Extension::SystemReset => reset::call(request),
            Extension::DebugConsole => console::call(request),
            Extension::HartState => hsm::call(request),
            Extension::Ipi => ipi::call(request),
            Extension::LegacySetTimer => SbiCall::LegacyTimer(request.a0),
            Extension::LegacyPutchar => legacy::putchar(request),
            Extension::LegacyGetchar => SbiCall::Getchar,
            Extension::LegacyShutdown => SbiCall::LegacyShutdown,
        }
    }
}

impl SbiCall {
    /// The call of a hart's registers x0 to x31: a7 has the extension, a6 the function, and a0 to a2 the
    /// arguments. All 64 bits of a7 and a6 count. A legacy call doesn't look at a6. Of a byte to be
    /// written the low 8 bits of a0 are taken.
    pub fn of(regs: &[u64; 32]) -> SbiCall
        ensures value { result ≡ call_of regs.now }
        ensures constant { IsServed result }
    {
        let request = Request {
            function: regs[16],
            a0: regs[10],
            a1: regs[11],
            a2: regs[12],
        };
        match Extension::at(regs[17]) {
            Some(extension) => extension.call(request),
            None => SbiCall::Unknown,
        }
    }
}

/// What `sbi_probe_extension` answers: 1 where the firmware has the extension, else 0. All 64 bits of
/// the number count.
pub fn probe_answer(ext: u64) -> u64
    ensures { result ≡ probe_value ext }
{
    u64::from(Extension::at(ext).is_some())
}
