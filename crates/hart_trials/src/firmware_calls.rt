//! Calls to the firmware, by their registers.

use sbi_calls::{
    GuestStop, SbiCall, SbiError, base_answer, probe_answer, reset_of, selected_harts, span,
    status_answer,
};

/// The letters TIME.
const TIMER: u64 = 0x5449_4D45;

/// The letters SRST.
const SYSTEM_RESET: u64 = 0x5352_5354;

/// The letters DBCN.
const DEBUG_CONSOLE: u64 = 0x4442_434E;

/// The letters HSM.
const HART_STATE: u64 = 0x48_534D;

/// The letters sPI.
const IPI: u64 = 0x73_5049;

/// a7 and a6, and the call that they ask for with 0x123, 0x456 and 0x789 in a0 to a2.
#[derive(Clone, Copy)]
struct Called {
    extension: u64,
    function: u64,
    call: SbiCall,
}

#[test]
fn each_call_by_its_registers(rt: HostRuntime) {
    let rows = [
        Called {
            extension: 0x10,
            function: 2,
            call: SbiCall::Base(2),
        },
        Called {
            extension: 0x10,
            function: 3,
            call: SbiCall::Probe(0x123),
        },
        Called {
            extension: 0x10,
            function: 7,
            call: SbiCall::Unknown,
        },
        Called {
            extension: TIMER,
            function: 0,
            call: SbiCall::SetTimer(0x123),
        },
        Called {
            extension: TIMER + (1 << 32),
            function: 0,
            call: SbiCall::Unknown,
        },
        Called {
            extension: SYSTEM_RESET,
            function: 0,
            call: SbiCall::Reset {
                kind: 0x123,
                reason: 0x456,
            },
        },
        Called {
            extension: DEBUG_CONSOLE,
            function: 0,
            call: SbiCall::ConWrite {
                n: 0x123,
                lo: 0x456,
                hi: 0x789,
            },
        },
        Called {
            extension: DEBUG_CONSOLE,
            function: 1,
            call: SbiCall::ConRead {
                n: 0x123,
                lo: 0x456,
                hi: 0x789,
            },
        },
        Called {
            extension: DEBUG_CONSOLE,
            function: 2,
            call: SbiCall::ConByte(0x23),
        },
        Called {
            extension: HART_STATE,
            function: 0,
            call: SbiCall::HartStart {
                id: 0x123,
                entry: 0x456,
                opaque: 0x789,
            },
        },
        Called {
            extension: HART_STATE,
            function: 1,
            call: SbiCall::HartStop,
        },
        Called {
            extension: HART_STATE,
            function: 2,
            call: SbiCall::HartStatus(0x123),
        },
        Called {
            extension: HART_STATE,
            function: 3,
            call: SbiCall::Unknown,
        },
        Called {
            extension: IPI,
            function: 0,
            call: SbiCall::SendIpi {
                mask: 0x123,
                base: 0x456,
            },
        },
        Called {
            extension: IPI,
            function: 1 << 32,
            call: SbiCall::Unknown,
        },
        Called {
            extension: 0x00,
            function: 9,
            call: SbiCall::LegacyTimer(0x123),
        },
        Called {
            extension: 0x01,
            function: 9,
            call: SbiCall::Putchar(0x23),
        },
        Called {
            extension: 0x02,
            function: 9,
            call: SbiCall::Getchar,
        },
        Called {
            extension: 0x03,
            function: 0,
            call: SbiCall::Unknown,
        },
        Called {
            extension: 0x08,
            function: 9,
            call: SbiCall::LegacyShutdown,
        },
    ];
    for row in rows {
        let mut registers = [0; 32];
        registers[10] = 0x123;
        registers[11] = 0x456;
        registers[12] = 0x789;
        registers[16] = row.function;
        registers[17] = row.extension;
        assert_eq!(rt; SbiCall::of(&registers), row.call, "{:#x}", row.extension);
    }
}

#[test]
fn answers_of_the_base_extension(rt: HostRuntime) {
    assert_eq!(rt; [base_answer(0), base_answer(1)], [0x0200_0000, 0x5241]);
    assert_eq!(rt; [base_answer(2), base_answer(4)], [1, 0]);
    for extension in [
        0x10,
        TIMER,
        SYSTEM_RESET,
        DEBUG_CONSOLE,
        HART_STATE,
        IPI,
        0,
        1,
        2,
        8,
    ] {
        assert_eq!(rt; probe_answer(extension), 1, "{extension:#x}");
    }
    for extension in [3, 9, TIMER + (1 << 32), IPI + (1 << 32)] {
        assert_eq!(rt; probe_answer(extension), 0, "{extension:#x}");
    }
}

#[test]
fn errors_and_states_of_harts_as_numbers(rt: HostRuntime) {
    let errors = [
        (SbiError::NotSupported, -2),
        (SbiError::InvalidParam, -3),
        (SbiError::InvalidAddress, -5),
        (SbiError::AlreadyAvailable, -6),
    ];
    for (error, code) in errors {
        assert_eq!(rt; error.code().cast_signed(), code, "{error:?}");
    }
    assert_eq!(rt; [status_answer(true), status_answer(false)], [0, 1]);
}

/// A mask of harts with its base, how many harts there are, and which of them are selected.
#[derive(Clone, Copy)]
struct Selection {
    mask: u64,
    base: u64,
    harts: u8,
    selected: Option<u8>,
}

#[test]
fn harts_of_a_mask(rt: HostRuntime) {
    let rows = [
        Selection {
            mask: 0b1001,
            base: 0,
            harts: 4,
            selected: Some(0b1001),
        },
        Selection {
            mask: 0b11,
            base: 2,
            harts: 4,
            selected: Some(0b1100),
        },
        Selection {
            mask: 0b11,
            base: 3,
            harts: 4,
            selected: None,
        },
        Selection {
            mask: 1 << 63,
            base: 0,
            harts: 4,
            selected: None,
        },
        Selection {
            mask: 0b10,
            base: u64::MAX,
            harts: 3,
            selected: Some(0b111),
        },
        Selection {
            mask: 0b10,
            base: u64::MAX - 1,
            harts: 4,
            selected: None,
        },
        Selection {
            mask: 0,
            base: 9,
            harts: 1,
            selected: Some(0),
        },
    ];
    for row in rows {
        let selected = selected_harts(row.mask, row.base, row.harts);
        assert_eq!(rt; selected, row.selected, "{:#x} {:#x}", row.mask, row.base);
    }
}

/// The arguments of a console call, where RAM has 1,024 words, and the address and the number of the bytes taken.
#[derive(Clone, Copy)]
struct Span {
    n: u64,
    low: u64,
    high: u64,
    taken: Option<(u64, u64)>,
}

#[test]
fn bytes_of_a_console_call(rt: HostRuntime) {
    let rows = [
        Span {
            n: 8192,
            low: 0x8000_0000,
            high: 0,
            taken: Some((0x8000_0000, 4096)),
        },
        Span {
            n: 8193,
            low: 0x8000_0000,
            high: 0,
            taken: None,
        },
        Span {
            n: 1,
            low: 0x8000_1FFF,
            high: 0,
            taken: Some((0x8000_1FFF, 1)),
        },
        Span {
            n: 1,
            low: 0x8000_2000,
            high: 0,
            taken: None,
        },
        Span {
            n: 1,
            low: 0x7FFF_FFFF,
            high: 0,
            taken: None,
        },
        Span {
            n: 1,
            low: 0x8000_0000,
            high: 1,
            taken: None,
        },
        Span {
            n: 0,
            low: 0x1234,
            high: 0,
            taken: Some((0x1234, 0)),
        },
        Span {
            n: 0,
            low: 0x8000_0000,
            high: 1,
            taken: None,
        },
        Span {
            n: u64::MAX,
            low: u64::MAX,
            high: 0,
            taken: None,
        },
    ];
    for Span {
        n,
        low,
        high,
        taken,
    } in rows {
        assert_eq!(rt; span(n, low, high, 1024), taken, "{n} {low:#x} {high}");
    }
}

/// The type and the reason of a reset, and the stop.
#[derive(Clone, Copy)]
struct Reset {
    kind: u64,
    reason: u64,
    stop: Option<GuestStop>,
}

#[test]
fn stops_of_a_reset(rt: HostRuntime) {
    let rows = [
        Reset {
            kind: 0,
            reason: 1,
            stop: Some(GuestStop::Shutdown(1)),
        },
        Reset {
            kind: 0,
            reason: 2,
            stop: None,
        },
        Reset {
            kind: 1,
            reason: 1,
            stop: Some(GuestStop::Reboot(1)),
        },
        Reset {
            kind: 2,
            reason: 0,
            stop: Some(GuestStop::Reboot(2)),
        },
        Reset {
            kind: 3,
            reason: 0,
            stop: None,
        },
        Reset {
            kind: 1 << 32,
            reason: 0,
            stop: None,
        },
    ];
    for Reset { kind, reason, stop } in rows {
        assert_eq!(rt; reset_of(kind, reason), stop, "{kind:#x} {reason:#x}");
    }
}
