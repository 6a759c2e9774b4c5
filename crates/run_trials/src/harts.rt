//! Runs with a second hart, by turns and under a schedule.

use crate::runs::{BAD, CONSUMED, Left, PRINTS_H, Run, Shown, USUAL, first_unlike_of};
use poison_mem::UseKind;
use ras_machine::{Settings, Stop};
use std::test::Fail;

/// Starts hart 1 at the program behind it, which prints `H` and shuts down, and jumps to itself: auipc a1,0;
/// addi a1,a1,40; li a0,1; li a6,0; lui a7,0x485; addi a7,a7,0x34D; ecall; j 0
const START_OTHER: [u32; 15] = [
    0x00000597, 0x02858593, 0x00100513, 0x00000813, 0x004858B7, 0x34D88893, 0x00000073, 0x0000006F,
    0x00000000, 0x00000000, 0x04800513, 0x00100893, 0x00000073, 0x00800893, 0x00000073,
];

/// The two harts take turns.
const BY_TURNS: Run = Run {
    program: &START_OTHER,
    settings: Settings { harts: 2, ..USUAL },
    steps: 22,
    harts: &[
        CALLED,
        Left {
            pc: 0x8000_003C,
            a0: 0,
            a7: 8,
        },
    ],
    ..PRINTS_H
};

/// Hart 0 goes in a circle behind its call, which succeeded.
const CALLED: Left = Left {
    pc: 0x8000_001C,
    a0: 0,
    a7: 0x48_534D,
};

const RUNS: &[Run] = &[
    BY_TURNS,
    // All turns are hart 0's.
    Run {
        schedule: &[0],
        settings: Settings {
            harts: 2,
            budget: 50,
            ..USUAL
        },
        stop: Stop::Budget,
        steps: 50,
        console: b"",
        harts: &[
            CALLED,
            Left {
                pc: 0x8000_0028,
                a0: 1,
                a7: 0,
            },
        ],
        ..BY_TURNS
    },
    // There is no other hart.
    Run {
        settings: Settings { budget: 9, ..USUAL },
        stop: Stop::Budget,
        steps: 9,
        console: b"",
        harts: &[Left {
            a0: 0xFFFF_FFFF_FFFF_FFFD,
            ..CALLED
        }],
        ..BY_TURNS
    },
    // The other hart's first instruction is poison. Its number is in bits 15:8 of the info.
    Run {
        script: b"flip 0 0x80000028 3\nflip 0 0x80000028 9",
        stop: Stop::Consumed {
            w: 5,
            use_kind: UseKind::Fetch,
            pc: 0x8000_0028,
        },
        steps: 13,
        consumption: Some((256, 0x8000_0028)),
        console: b"",
        records: &[
            Shown {
                address: 0x8000_0028,
                ..BAD
            },
            Shown {
                address: 0x8000_0028,
                ..CONSUMED
            },
        ],
        harts: &[],
        ..BY_TURNS
    },
];

#[test]
fn two_harts_end_as_they_should(rt: HostRuntime) -> Result<(), Fail> {
    assert_eq!(rt; first_unlike_of(rt.alloc(), RUNS)?, None);
    Ok(())
}
