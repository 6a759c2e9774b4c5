//! Legacy extensions: each is one call, which doesn't look at a6.

ghost use Rattle.std.specs.Prelude.{◌≡◌};
ghost use Rattle.sbi_calls.specs.Legacy.{putchar_call};

use crate::call::{Request, SbiCall};

pub(crate) const SET_TIMER: u64 = 0x00;

pub(crate) const CONSOLE_PUTCHAR: u64 = 0x01;

pub(crate) const CONSOLE_GETCHAR: u64 = 0x02;

pub(crate) const SHUTDOWN: u64 = 0x08;

/// Of the byte the low 8 bits of a0 are taken.
pub(crate) fn putchar(request: Request) -> SbiCall
    ensures { result ≡ putchar_call request }
{
    SbiCall::Putchar((request.a0 % 256) as u8)
}
