//! Several harts that share plain words: reservations, and the firmware calls that name other harts.

use crate::hart_guest::{INVALID_PARAM, WENT, instruction};
use poison_mem::{Bus, FlatMem, NoLog};
use ras_bits::{NoMemory, RAM_START};
use rv64_hart::{Console, Effect, Harts, TurnEnd};
use std::alloc::Global;
use std::test::Fail;

/// What a firmware call answers where the address isn't one.
const INVALID_ADDRESS: u64 = 0xFFFF_FFFF_FFFF_FFFB;

/// What a firmware call answers where the hart is started.
const ALREADY_AVAILABLE: u64 = 0xFFFF_FFFF_FFFF_FFFA;

/// The letters HSM.
const HART_STATE: u64 = 0x48_534D;

/// The letters sPI.
const INTERRUPTS: u64 = 0x73_5049;

/// Starts hart 1 at `STORES` with word 16 in a1, reserves word 32, and then stores there conditionally.
const RESERVES: [u32; 17] = [
    0x0000_0417, // auipc s0,0
    0x0404_0593, // addi a1,s0,0x40
    0x0804_3603, // ld a2,0x80(s0)
    0x0010_0513, // addi a0,zero,1
    0x0884_3883, // ld a7,0x88(s0)
    0x0000_0813, // addi a6,zero,0
    0x0000_0073, // ecall
    0x1004_0493, // addi s1,s0,0x100
    0x1004_B2AF, // lr.d t0,(s1)
    0x1804_B2AF, // sc.d t0,zero,(s1)
    0,
    0,
    0,
    0,
    0,
    0,
    0x00A5_B023, // sd a0,0(a1), where hart 1 is started
];

/// Loads the five registers of a firmware call from word 4 on, and makes the call, again and again.
const CALLS: [u32; 8] = [
    0x0000_0417, // auipc s0,0
    0x0204_3883, // ld a7,0x20(s0)
    0x0284_3803, // ld a6,0x28(s0)
    0x0304_3503, // ld a0,0x30(s0)
    0x0384_3583, // ld a1,0x38(s0)
    0x0404_3603, // ld a2,0x40(s0)
    0x0000_0073, // ecall
    0xFE9F_F06F, // jal zero,-24
];

/// Two harts whose first one is at the first instruction of a program that stands at the start of a memory of 64 words.
fn two_harts(alloc: Global, program: &[u32]) -> Result<Harts<FlatMem>, NoMemory> {
    let memory = FlatMem::make(alloc, 64)?;
    let mut harts = Harts::make(alloc, memory, 2, RAM_START)?;
    for w in 0..64 {
        let i = 2 * w as usize;
        let high = instruction(program, i + 1) << 32;
        put(&mut harts, w, instruction(program, i) | high);
    }
    Ok(harts)
}

/// Sets a word.
fn put(harts: &mut Harts<FlatMem>, w: u32, value: u64) {
    let memory = harts.memory_mut();
    if w < memory.words() {
        memory.load(w, value);
    }
}

/// `n` steps of a hart, and the end of the last one. A hart that isn't there makes none.
fn steps(harts: &mut Harts<FlatMem>, i: u8, n: u64, console: &mut Console) -> TurnEnd {
    let mut end = WENT;
    let mut place = 0;
    for now in 0..n {
        if i < harts.count() {
            end = harts.step(i, &mut NoLog, now, &[], &mut place, console);
        }
    }
    end
}

/// Register `x` of a hart, 0 where there is none.
fn register(harts: &Harts<FlatMem>, i: u8, x: u8) -> u64 {
    if i < harts.count() && x < 32 {
        harts.hart(i).x(x)
    } else {
        0
    }
}

/// Where hart 1 stores after hart 0 reserved word 32, at 0x100, and what SC then gives.
#[derive(Clone, Copy)]
struct Stored {
    offset: u64,
    failed: u64,
}

#[test]
fn another_harts_store_to_the_reserved_word_makes_sc_fail(rt: HostRuntime) -> Result<(), Fail> {
    let rows = [
        Stored {
            offset: 0x100,
            failed: 1,
        },
        Stored {
            offset: 0x108,
            failed: 0,
        },
        Stored {
            offset: 0xF8,
            failed: 0,
        },
    ];
    let mut console = Console::make(rt.alloc())?;
    for Stored { offset, failed } in rows {
        let mut harts = two_harts(rt.alloc(), &RESERVES)?;
        put(&mut harts, 16, RAM_START + offset);
        put(&mut harts, 17, HART_STATE);
        steps(&mut harts, 0, 9, &mut console);
        assert_eq!(rt; steps(&mut harts, 1, 1, &mut console), WENT, "{offset:#x}");
        assert_eq!(rt; steps(&mut harts, 0, 1, &mut console), WENT, "{offset:#x}");
        assert_eq!(rt; register(&harts, 0, 5), failed, "{offset:#x}");
        assert_eq!(rt; register(&harts, 1, 10), 1, "{offset:#x}");
    }
    Ok(())
}

/// A call of hart 0 of two, how its step ends, and a0 and a1 afterwards.
#[derive(Clone, Copy, Debug)]
struct Called {
    extension: u64,
    function: u64,
    arguments: [u64; 3],
    end: TurnEnd,
    a0: u64,
    a1: u64,
}

/// A call that leaves all other harts as they are.
fn answered(extension: u64, function: u64, arguments: [u64; 3], a0: u64, a1: u64) -> Called {
    Called {
        extension,
        function,
        arguments,
        end: WENT,
        a0,
        a1,
    }
}

// Hart 1 is started by the last row of HSM.
#[test]
fn calls_that_name_harts_by_hand(rt: HostRuntime) -> Result<(), Fail> {
    let last = u64::MAX;
    let rows = [
        answered(HART_STATE, 0, [2, RAM_START, 7], INVALID_PARAM, 0),
        answered(
            HART_STATE,
            0,
            [0x1_0000_0001, RAM_START, 7],
            INVALID_PARAM,
            0,
        ),
        answered(HART_STATE, 0, [0, 2, 7], ALREADY_AVAILABLE, 0),
        answered(HART_STATE, 0, [1, RAM_START + 2, 7], INVALID_ADDRESS, 0),
        answered(HART_STATE, 0, [1, RAM_START + 0x200, 7], INVALID_ADDRESS, 0),
        answered(HART_STATE, 2, [0, 9, 9], 0, 0),
        answered(HART_STATE, 2, [1, 9, 9], 0, 1),
        answered(HART_STATE, 2, [2, 9, 9], INVALID_PARAM, 0),
        answered(INTERRUPTS, 0, [4, 0, 9], INVALID_PARAM, 0),
        answered(INTERRUPTS, 0, [1, 2, 9], INVALID_PARAM, 0),
        Called {
            extension: INTERRUPTS,
            function: 0,
            arguments: [3, 0, 9],
            end: TurnEnd::Went(Effect::Ipi(1)),
            a0: 0,
            a1: 0,
        },
        Called {
            extension: HART_STATE,
            function: 0,
            arguments: [1, RAM_START + 8, 7],
            end: TurnEnd::Went(Effect::Start {
                hart: 1,
                entry: RAM_START + 8,
                opaque: 7,
            }),
            a0: 0,
            a1: 0,
        },
        answered(HART_STATE, 0, [1, RAM_START + 8, 7], ALREADY_AVAILABLE, 0),
        Called {
            extension: INTERRUPTS,
            function: 0,
            arguments: [1, 1, 9],
            end: TurnEnd::Went(Effect::Ipi(2)),
            a0: 0,
            a1: 0,
        },
        Called {
            extension: INTERRUPTS,
            function: 0,
            arguments: [0x80, last, 9],
            end: TurnEnd::Went(Effect::Ipi(3)),
            a0: 0,
            a1: 0,
        },
        Called {
            extension: HART_STATE,
            function: 1,
            arguments: [9, 9, 9],
            end: TurnEnd::Went(Effect::StopSelf),
            a0: 0,
            a1: 0,
        },
    ];
    let mut console = Console::make(rt.alloc())?;
    let mut harts = two_harts(rt.alloc(), &CALLS)?;
    for row in rows {
        put(&mut harts, 4, row.extension);
        put(&mut harts, 5, row.function);
        for i in 0..3 {
            put(&mut harts, 6 + i, row.arguments[i as usize]);
        }
        // A jump, or at first an AUIPC; five loads; and the call.
        assert_eq!(rt; steps(&mut harts, 0, 7, &mut console), row.end, "{row:?}");
        assert_eq!(rt; register(&harts, 0, 10), row.a0, "{row:?}");
        assert_eq!(rt; register(&harts, 0, 11), row.a1, "{row:?}");
    }
    // Hart 0 is stopped now, behind its call, and hart 1 is as it was started but for the interrupts.
    let (first, second) = (0, 1);
    assert!(rt; is_so(&harts, first, false, RAM_START + 0x1C, 2));
    assert!(rt; is_so(&harts, second, true, RAM_START + 8, 2));
    assert_eq!(rt; [register(&harts, 1, 10), register(&harts, 1, 11)], [1, 7]);
    assert_eq!(rt; steps(&mut harts, 0, 3, &mut console), WENT);
    assert!(rt; is_so(&harts, first, false, RAM_START + 0x1C, 2));
    Ok(())
}

/// Whether a hart is started, at this pc, with this SSIP.
fn is_so(harts: &Harts<FlatMem>, i: u8, started: bool, pc: u64, ssip: u64) -> bool {
    if i >= harts.count() {
        return false;
    }
    let state = harts.hart(i).state();
    state.started == started && state.pc == pc && state.csr.ssip == ssip
}
