//! Supervisor registers, traps and interrupts, by rows from the manual.

use ras_bits::Mode;
use rv64_csr::{CsrParts, Csrs};

const USER: Mode = Mode::User;

const SUPERVISOR: Mode = Mode::Supervisor;

const SSTATUS: u16 = 0x100;

const SIE: u16 = 0x104;

const STVEC: u16 = 0x105;

const SCOUNTEREN: u16 = 0x106;

const SEPC: u16 = 0x141;

const SCAUSE: u16 = 0x142;

const STVAL: u16 = 0x143;

const SIP: u16 = 0x144;

const SATP: u16 = 0x180;

/// A register of S mode, and what it reads after all ones were written to it.
#[derive(Clone, Copy)]
struct Ones {
    number: u16,
    reads: u64,
}

const ALL_ONES: [Ones; 10] = [
    Ones {
        number: SSTATUS, // SIE, SPIE, SPP, SUM, MXR, and UXL 2
        reads: 0x2_000C_0122,
    },
    Ones {
        number: SIE, // SSIE, STIE, SEIE
        reads: 0x222,
    },
    Ones {
        number: STVEC, // bit 1 reads 0
        reads: 0xFFFF_FFFF_FFFF_FFFD,
    },
    Ones {
        number: SCOUNTEREN, // CY, TM, IR
        reads: 7,
    },
    Ones {
        number: 0x140, // sscratch
        reads: 0xFFFF_FFFF_FFFF_FFFF,
    },
    Ones {
        number: SEPC, // bits 1:0 read 0
        reads: 0xFFFF_FFFF_FFFF_FFFC,
    },
    Ones {
        number: SCAUSE,
        reads: 0xFFFF_FFFF_FFFF_FFFF,
    },
    Ones {
        number: STVAL,
        reads: 0xFFFF_FFFF_FFFF_FFFF,
    },
    Ones {
        number: SIP, // SSIP
        reads: 0x2,
    },
    Ones {
        number: SATP, // mode 15 changes nothing
        reads: 0,
    },
];

#[test]
fn all_ones_written_and_read_back(rt: HostRuntime) {
    for Ones { number, reads } in ALL_ONES {
        let mut csrs = Csrs::new();
        assert!(rt; !csrs.write(number, USER, u64::MAX), "{number:#x}");
        assert!(rt; csrs.write(number, SUPERVISOR, u64::MAX), "{number:#x}");
        assert_eq!(rt; csrs.read(number, USER, 0), None, "{number:#x}");
        assert_eq!(rt;
            csrs.read(number, SUPERVISOR, 0),
            Some(reads),
            "{number:#x}"
        );
    }
    // no register, and one of M mode
    let mut csrs = Csrs::new();
    for number in [0x101, 0x300] {
        assert_eq!(rt; csrs.read(number, SUPERVISOR, 0), None, "{number:#x}");
        assert!(rt; !csrs.write(number, SUPERVISOR, 0), "{number:#x}");
    }
}

/// A counter in step 70 after one instruction, and its bit of scounteren.
#[derive(Clone, Copy)]
struct Counter {
    number: u16,
    opened_by: u64,
    closed_by: u64,
    reads: u64,
}

#[test]
fn counters_are_read_only_and_opened_by_scounteren(rt: HostRuntime) {
    let rows = [
        Counter {
            number: 0xC00, // cycle
            opened_by: 1,
            closed_by: 6,
            reads: 70,
        },
        Counter {
            number: 0xC01, // time
            opened_by: 2,
            closed_by: 5,
            reads: 70,
        },
        Counter {
            number: 0xC02, // instret
            opened_by: 4,
            closed_by: 3,
            reads: 1,
        },
    ];
    for row in rows {
        let mut csrs = Csrs::new();
        csrs.retire();
        csrs.write(SCOUNTEREN, SUPERVISOR, row.closed_by);
        assert_eq!(rt; csrs.read(row.number, SUPERVISOR, 70), Some(row.reads));
        assert_eq!(rt; csrs.read(row.number, USER, 70), None);
        csrs.write(SCOUNTEREN, SUPERVISOR, row.opened_by);
        assert_eq!(rt; csrs.read(row.number, USER, 70), Some(row.reads));
        assert!(rt; !csrs.write(row.number, SUPERVISOR, 0));
    }
}

#[test]
fn satp_takes_bare_and_sv39(rt: HostRuntime) {
    let sv39 = (8 << 60) | (0xABCD << 44) | 0x80001;
    let mut csrs = Csrs::new();
    csrs.write(SATP, SUPERVISOR, sv39);
    for other in [1, 9, 10] {
        assert!(rt; csrs.write(SATP, SUPERVISOR, (other << 60) | 1), "{other}");
        assert_eq!(rt; csrs.satp(), sv39, "{other}");
    }
    csrs.write(SATP, SUPERVISOR, 0x123);
    assert_eq!(rt; csrs.satp(), 0x123);
}

/// A trap, and where it goes with stvec vectored at 0x80001000.
#[derive(Clone, Copy)]
struct Trap {
    cause: u64,
    value: u64,
    goes_to: u64,
}

#[test]
fn trap_entry_by_cause(rt: HostRuntime) {
    let interrupt = 1 << 63;
    let rows = [
        Trap {
            cause: 2, // illegal instruction: its bits
            value: 0xFFFF_FFFF,
            goes_to: 0x8000_1000,
        },
        Trap {
            cause: 13, // load page fault: the address
            value: 0x1000,
            goes_to: 0x8000_1000,
        },
        Trap {
            cause: interrupt + 1, // software
            value: 0,
            goes_to: 0x8000_1004,
        },
        Trap {
            cause: interrupt + 5, // timer
            value: 0,
            goes_to: 0x8000_1014,
        },
        Trap {
            cause: interrupt + 9, // external
            value: 0,
            goes_to: 0x8000_1024,
        },
    ];
    for Trap {
        cause,
        value,
        goes_to,
    } in rows {
        let mut csrs = Csrs::new();
        csrs.write(SSTATUS, SUPERVISOR, 0x2);
        csrs.write(STVEC, SUPERVISOR, 0x8000_1000);
        let direct = csrs.enter(cause, value, 0x8000_0100, SUPERVISOR);
        assert_eq!(rt; direct, 0x8000_1000, "{cause:#x}");
        let sstatus = csrs.read(SSTATUS, SUPERVISOR, 0);
        assert_eq!(rt; sstatus, Some(0x2_0000_0120), "{cause:#x}");
        csrs.write(STVEC, SUPERVISOR, 0x8000_1001);
        let vectored = csrs.enter(cause, value, 0x8000_0104, USER);
        assert_eq!(rt; vectored, goes_to, "{cause:#x}");
        let parts = csrs.parts();
        assert_eq!(rt; parts.sstatus, 0x2_0000_0000, "{cause:#x}");
        assert_eq!(rt; parts.sepc, 0x8000_0104, "{cause:#x}");
        assert_eq!(rt; [parts.scause, parts.stval], [cause, value], "{cause:#x}");
    }
}

/// sstatus before and after SRET, and the mode that it goes to.
#[derive(Clone, Copy)]
struct Return {
    before: u64,
    after: u64,
    mode: Mode,
}

#[test]
fn sret_takes_back_the_mode(rt: HostRuntime) {
    let rows = [
        Return {
            before: 0x120,
            after: 0x2_0000_0022,
            mode: SUPERVISOR,
        },
        Return {
            before: 0x100,
            after: 0x2_0000_0020,
            mode: SUPERVISOR,
        },
        Return {
            before: 0x020,
            after: 0x2_0000_0022,
            mode: USER,
        },
        Return {
            before: 0x002,
            after: 0x2_0000_0020,
            mode: USER,
        },
    ];
    for Return {
        before,
        after,
        mode,
    } in rows {
        let mut csrs = Csrs::new();
        csrs.write(SSTATUS, SUPERVISOR, before);
        csrs.write(SEPC, SUPERVISOR, 0x8000_0204);
        assert_eq!(rt; csrs.sret(), (mode, 0x8000_0204), "{before:#x}");
        assert_eq!(rt;
            csrs.read(SSTATUS, SUPERVISOR, 0),
            Some(after),
            "{before:#x}"
        );
    }
}

/// The registers before a step whose number is `now`, where the timer is 100, and the interrupt that is taken.
#[derive(Clone, Copy)]
struct Pending {
    sstatus: u64,
    sie: u64,
    sip: u64,
    now: u64,
    mode: Mode,
    taken: Option<u64>,
}

#[test]
fn interrupts_taken(rt: HostRuntime) {
    let software = Some((1 << 63) + 1);
    let timer = Some((1 << 63) + 5);
    let all = Pending {
        sstatus: 0,
        sie: 0x222,
        sip: 0x2,
        now: 100,
        mode: USER,
        taken: software,
    };
    let rows = [
        Pending { now: 99, ..all },
        Pending {
            sip: 0,
            taken: timer,
            ..all
        },
        Pending {
            sip: 0,
            now: 99,
            taken: None,
            ..all
        },
        Pending {
            sie: 0x202,
            sip: 0,
            taken: None,
            ..all
        },
        Pending {
            sie: 0x220,
            now: 99,
            taken: None,
            ..all
        },
        Pending {
            sstatus: 0x20,
            mode: SUPERVISOR,
            taken: None,
            ..all
        },
        Pending {
            sstatus: 0x2,
            mode: SUPERVISOR,
            ..all
        },
        Pending {
            sstatus: 0x2,
            sie: 0x020,
            mode: SUPERVISOR,
            taken: timer,
            ..all
        },
    ];
    for row in rows {
        let mut csrs = Csrs::new();
        csrs.set_timer(100);
        csrs.write(SSTATUS, SUPERVISOR, row.sstatus);
        csrs.write(SIE, SUPERVISOR, row.sie);
        csrs.write(SIP, SUPERVISOR, row.sip);
        assert_eq!(rt; csrs.pending(row.now, row.mode), row.taken);
    }
    let mut csrs = Csrs::new();
    csrs.set_timer(100);
    assert_eq!(rt; csrs.read(SIP, SUPERVISOR, 99), Some(0));
    assert_eq!(rt; csrs.read(SIP, SUPERVISOR, 100), Some(0x20));
}

#[test]
fn parts_make_the_same_file(rt: HostRuntime) {
    let mut csrs = Csrs::new();
    for Ones { number, .. } in ALL_ONES {
        csrs.write(number, SUPERVISOR, u64::MAX);
    }
    csrs.set_timer(100);
    csrs.retire();
    let parts = csrs.parts();
    assert_eq!(rt; (csrs.sum(), csrs.mxr()), (true, true));
    assert_eq!(rt; [parts.sstatus, parts.ssip], [0x2_000C_0122, 2]);
    assert_eq!(rt; [parts.timer, parts.retired], [100, 1]);
    let again = Csrs::from_parts(&parts).map(|same| same.parts());
    assert_eq!(rt; again, Some(parts));
    let refused = [
        CsrParts {
            sstatus: 0xC_0122,
            ..parts
        },
        CsrParts {
            stvec: 0x2,
            ..parts
        },
        CsrParts { ssip: 1, ..parts },
        CsrParts {
            satp: 9 << 60,
            ..parts
        },
    ];
    for parts in refused {
        assert!(rt; Csrs::from_parts(&parts).is_none(), "{parts:?}");
    }
}
