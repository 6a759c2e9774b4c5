//! Traps and interrupts of one hart over plain words, by hand from the manuals.

use crate::hart_guest::{DATA, Guest, WENT, WORD_1, WORD_8, hart_at};
use ras_bits::{Mode, RAM_START};
use rv64_hart::Console;
use std::test::Fail;

/// Where a hart starts, a0, the instruction at word 0, and scause and stval afterwards.
#[derive(Clone, Copy)]
struct Trapped {
    entry: u64,
    a0: u64,
    word: u32,
    cause: u64,
    value: u64,
}

// RAM has four words.
#[test]
fn each_exception_by_hand(rt: HostRuntime) -> Result<(), Fail> {
    let a = WORD_1;
    let end = RAM_START + 0x20;
    let rows = [
        Trapped {
            entry: RAM_START,
            a0: a,
            word: 0x0020_02EF, // jal t0,2
            cause: 0,
            value: RAM_START + 2,
        },
        Trapped {
            entry: end,
            a0: a,
            word: 0,
            cause: 1,
            value: end,
        },
        Trapped {
            entry: RAM_START,
            a0: a,
            word: 0x0000_0000,
            cause: 2,
            value: 0,
        },
        Trapped {
            entry: RAM_START,
            a0: a,
            word: 0x0010_0073, // ebreak
            cause: 3,
            value: RAM_START,
        },
        Trapped {
            entry: RAM_START,
            a0: a,
            word: 0x0045_3283, // ld t0,4(a0)
            cause: 4,
            value: a + 4,
        },
        Trapped {
            entry: RAM_START,
            a0: a + 4,
            word: 0x1005_32AF, // lr.d t0,(a0)
            cause: 4,
            value: a + 4,
        },
        Trapped {
            entry: RAM_START,
            a0: a,
            word: 0xFF75_0283, // lb t0,-9(a0)
            cause: 5,
            value: RAM_START - 1,
        },
        Trapped {
            entry: RAM_START,
            a0: end,
            word: 0x1005_32AF, // lr.d t0,(a0)
            cause: 5,
            value: end,
        },
        Trapped {
            entry: RAM_START,
            a0: end,
            word: 0x00A5_10A3, // sh a0,1(a0)
            cause: 6,
            value: end + 1,
        },
        Trapped {
            entry: RAM_START,
            a0: a + 4,
            word: 0x18A5_32AF, // sc.d t0,a0,(a0)
            cause: 6,
            value: a + 4,
        },
        Trapped {
            entry: RAM_START,
            a0: a + 2,
            word: 0x00A5_22AF, // amoadd.w t0,a0,(a0)
            cause: 6,
            value: a + 2,
        },
        Trapped {
            entry: RAM_START,
            a0: end,
            word: 0x00A5_3023, // sd a0,0(a0)
            cause: 7,
            value: end,
        },
        Trapped {
            entry: RAM_START,
            a0: end,
            word: 0x18A5_22AF, // sc.w t0,a0,(a0)
            cause: 7,
            value: end,
        },
        Trapped {
            entry: RAM_START,
            a0: end,
            word: 0x00A5_32AF, // amoadd.d t0,a0,(a0)
            cause: 7,
            value: end,
        },
    ];
    let mut console = Console::make(rt.alloc())?;
    for Trapped {
        entry,
        a0,
        word,
        cause,
        value,
    } in rows {
        let mut guest = Guest::make(rt.alloc(), 4, &[word], a0)?;
        guest.put(1, DATA);
        if entry % 4 == 0 {
            guest.hart = hart_at(entry, a0);
        }
        assert_eq!(rt; guest.run(1, &mut console), WENT, "{word:#x}");
        assert_eq!(rt; guest.trap(), [0, cause, value, entry], "{word:#x}");
        assert_eq!(rt; guest.status(), [0x100, 0], "{word:#x}");
        assert_eq!(rt; guest.registers(), [0, 0, a0, 0], "{word:#x}");
        assert_eq!(rt; guest.word(1), DATA, "{word:#x}");
    }
    Ok(())
}

/// Goes to U mode at `USER`, with traps to `HANDLER`, which stands in a0 at first.
const TO_USER: [u32; 4] = [
    0x1055_1073, // csrrw zero,stvec,a0
    0xFF85_0313, // addi t1,a0,-8
    0x1413_1073, // csrrw zero,sepc,t1
    0x1020_0073, // sret
];

const USER: u64 = RAM_START + 0x18;

const HANDLER: u64 = RAM_START + 0x20;

/// An instruction in U mode, and its scause and stval.
#[derive(Clone, Copy)]
struct UserTrap {
    word: u32,
    cause: u64,
    value: u64,
}

// The handler goes back at once.
#[test]
fn traps_from_user_mode_and_back(rt: HostRuntime) -> Result<(), Fail> {
    let rows = [
        UserTrap {
            word: 0x0000_0073, // ecall
            cause: 8,
            value: 0,
        },
        UserTrap {
            word: 0x0010_0073, // ebreak
            cause: 3,
            value: USER,
        },
        UserTrap {
            word: 0x1020_0073, // sret
            cause: 2,
            value: 0x1020_0073,
        },
        UserTrap {
            word: 0x1000_22F3, // csrrs t0,sstatus,zero
            cause: 2,
            value: 0x1000_22F3,
        },
    ];
    let mut console = Console::make(rt.alloc())?;
    for UserTrap { word, cause, value } in rows {
        let mut guest = Guest::make(rt.alloc(), 8, &TO_USER, HANDLER)?;
        guest.put(3, u64::from(word));
        guest.put(4, 0x1020_0073); // sret
        guest.run(4, &mut console);
        assert_eq!(rt; guest.hart.mode(), Mode::User);
        assert_eq!(rt; guest.trap(), [USER, 0, 0, USER]);
        assert_eq!(rt; guest.run(1, &mut console), WENT, "{word:#x}");
        assert_eq!(rt; guest.hart.mode(), Mode::Supervisor, "{word:#x}");
        assert_eq!(rt; guest.trap(), [HANDLER, cause, value, USER], "{word:#x}");
        assert_eq!(rt; guest.status(), [0, 4], "{word:#x}");
        guest.run(1, &mut console);
        assert_eq!(rt; guest.hart.mode(), Mode::User, "{word:#x}");
        assert_eq!(rt; guest.trap(), [USER, cause, value, USER], "{word:#x}");
    }
    Ok(())
}

/// Sets the timer to 100, stvec to 0x80000101, sie to 32 and sstatus to 0x120 from word 8 on, whose address stands in a0 at
/// first, and returns to word 8, which is no instruction.
const TO_INTERRUPTS: [u32; 12] = [
    0x0005_0313, // addi t1,a0,0
    0x0003_3503, // ld a0,0(t1)
    0x0000_0073, // ecall
    0x0083_3283, // ld t0,8(t1)
    0x1052_9073, // csrrw zero,stvec,t0
    0x0103_3283, // ld t0,16(t1)
    0x1042_9073, // csrrw zero,sie,t0
    0x0183_3283, // ld t0,24(t1)
    0x1002_9073, // csrrw zero,sstatus,t0
    0x1413_1073, // csrrw zero,sepc,t1
    0x0000_0293, // addi t0,zero,0
    0x1020_0073, // sret
];

/// A step, and the pc, scause and stval after it.
#[derive(Clone, Copy)]
struct Interrupted {
    now: u64,
    pc: u64,
    cause: u64,
    value: u64,
}

#[test]
fn an_interrupt_is_taken_before_the_fetch(rt: HostRuntime) -> Result<(), Fail> {
    let rows = [
        Interrupted {
            now: 99, // word 8 is fetched
            pc: 0x8000_0100,
            cause: 2,
            value: 100,
        },
        Interrupted {
            now: 100,
            pc: 0x8000_0114,
            cause: (1 << 63) + 5,
            value: 0,
        },
    ];
    let mut console = Console::make(rt.alloc())?;
    for Interrupted {
        now,
        pc,
        cause,
        value,
    } in rows {
        let mut guest = Guest::make(rt.alloc(), 16, &TO_INTERRUPTS, WORD_8)?;
        guest.put(8, 100);
        guest.put(9, 0x8000_0101);
        guest.put(10, 32);
        guest.put(11, 0x120);
        guest.run(12, &mut console);
        assert_eq!(rt; guest.step(now, &[], &mut console), WENT, "{now}");
        assert_eq!(rt; guest.trap(), [pc, cause, value, WORD_8], "{now}");
        assert_eq!(rt; guest.status(), [0x120, 11], "{now}");
        assert_eq!(rt; guest.hart.mode(), Mode::Supervisor, "{now}");
    }
    Ok(())
}
