//! What a hart asks for, and the call that it comes to.

/// What the registers of an ECALL hand over: the function in a6, and the arguments in a0 to a2.
#[derive(Clone, Copy)]
pub(crate) struct Request {
    pub(crate) function: u64,
    pub(crate) a0: u64,
    pub(crate) a1: u64,
    pub(crate) a2: u64,
}

/// A call to the firmware, with its arguments.
#[derive(Clone, Copy, Debug, PartialEq, Eq)]
pub enum SbiCall {
    /// Base extension: the function of this number, other than `sbi_probe_extension`.
    Base(u8),
    /// `sbi_probe_extension`: the number of the extension asked for.
    Probe(u64),
    /// `sbi_set_timer`: the time.
    SetTimer(u64),
    /// Legacy `sbi_set_timer`: the time.
    LegacyTimer(u64),
    /// Legacy `sbi_console_putchar`: the byte.
    Putchar(u8),
    /// Legacy `sbi_console_getchar`.
    Getchar,
    /// Legacy `sbi_shutdown`.
    LegacyShutdown,
    /// `sbi_system_reset`: the reset type and the reset reason.
    Reset { kind: u64, reason: u64 },
    /// `sbi_debug_console_write`: the number of bytes, and the low and the high word of their address.
    ConWrite { n: u64, lo: u64, hi: u64 },
    /// `sbi_debug_console_read`: the number of bytes, and the low and the high word of their address.
    ConRead { n: u64, lo: u64, hi: u64 },
    /// `sbi_debug_console_write_byte`: the byte.
    ConByte(u8),
    /// `sbi_hart_start`: the hart, where it begins, and what it finds in a1.
    HartStart { id: u64, entry: u64, opaque: u64 },
    /// `sbi_hart_stop`.
    HartStop,
    /// `sbi_hart_get_status`: the hart.
    HartStatus(u64),
    /// `sbi_send_ipi`: a bit for each hart, and the hart that bit 0 stands for.
    SendIpi { mask: u64, base: u64 },
    /// Any other call, which the firmware doesn't support.
    Unknown,
}
