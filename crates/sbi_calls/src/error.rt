//! The errors of calls.

ghost use Rattle.std.specs.Prelude.{◌≡◌};
ghost use Rattle.sbi_calls.specs.Error.{error_code};

/// The error that a refused call answers in a0.
#[derive(Clone, Copy, Debug, PartialEq, Eq)]
pub enum SbiError {
    /// SBI_ERR_NOT_SUPPORTED: the firmware has no such call.
    NotSupported,
    /// SBI_ERR_INVALID_PARAM: an argument has a value that the call doesn't take.
    InvalidParam,
    /// SBI_ERR_INVALID_ADDRESS: an address isn't one that the call can take.
    InvalidAddress,
    /// SBI_ERR_ALREADY_AVAILABLE: what the call is to start is started.
    AlreadyAvailable,
}

impl SbiError {
    /// The code in a0, as a number in two's complement: -2, -3, -5 and -6. A call that isn't refused
    /// answers 0 there.
    pub fn code(self) -> u64
        ensures { result ≡ error_code self }
    {
        let code: i64 = match self {
            SbiError::NotSupported => -2,
            SbiError::InvalidParam => -3,
            SbiError::InvalidAddress => -5,
            SbiError::AlreadyAvailable => -6,
        };
        code.cast_unsigned()
    }
}
