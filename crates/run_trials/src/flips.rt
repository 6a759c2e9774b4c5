//! Short programs under flips, and without them.

use crate::runs::{BAD, CONSUMED, CORRECTED, PRINTS_H, Run, Shown, USUAL, first_unlike_of};
use poison_mem::UseKind;
use ras_machine::{Settings, Stop};
use std::test::Fail;

/// Stores `H` as a doubleword at 0x80000040, loads it, prints it and shuts down.
const STORE_WORD: [u32; 8] = [
    0x00000297, 0x04800513, 0x04A2B023, 0x0402B503, 0x00100893, 0x00000073, 0x00800893, 0x00000073,
];

/// The same with a store of a byte.
const STORE_BYTE: [u32; 8] = [
    0x00000297, 0x04800513, 0x04A28023, 0x0402B503, 0x00100893, 0x00000073, 0x00800893, 0x00000073,
];

/// Writes 16 bytes from 0x80000040 on by the debug console extension, and shuts down.
const WRITE: [u32; 8] = [
    0x00000597, 0x04058593, 0x01000513, 0x444248B7, 0x34E88893, 0x00000073, 0x00800893, 0x00000073,
];

/// Sets satp to the table at 0x80001000, and then jumps to itself.
const PAGED: [u32; 7] = [
    0x00800293, 0x03C29293, 0x00080337, 0x00130313, 0x0062E2B3, 0x18029073, 0x0000006F,
];

/// Adds a0 to the word at 0x80000040: auipc t0,0; addi t0,t0,64; amoadd.d a0,zero,(t0)
const ADD: [u32; 3] = [0x00000297, 0x04028293, 0x0002B52F];

/// The leaf for the second gigabyte.
const LEAF: [(usize, u64); 1] = [(0x1010, 0x2000_00CF)];

const RUNS: &[Run] = &[
    PRINTS_H,
    Run {
        settings: Settings { budget: 0, ..USUAL },
        stop: Stop::Budget,
        steps: 0,
        console: b"",
        ..PRINTS_H
    },
    Run {
        settings: Settings { budget: 3, ..USUAL },
        stop: Stop::Budget,
        steps: 3,
        ..PRINTS_H
    },
    Run {
        script: b"flip 0 0x80000000 3",
        records: &[CORRECTED],
        ..PRINTS_H
    },
    Run {
        script: b"flip 0 0x80000008 3\nflip 0 0x80000008 9",
        stop: Stop::Consumed {
            w: 1,
            use_kind: UseKind::Fetch,
            pc: 0x8000_0008,
        },
        steps: 2,
        consumption: Some((0, 0x8000_0008)),
        console: b"",
        records: &[
            Shown {
                address: 0x8000_0008,
                ..BAD
            },
            Shown {
                address: 0x8000_0008,
                ..CONSUMED
            },
        ],
        ..PRINTS_H
    },
    // The line is held then.
    Run {
        script: b"flip 1 0x80000008 3\nflip 1 0x80000008 9",
        ..PRINTS_H
    },
    Run {
        script: b"flip 0 0x80000000 3\nflip 0 0x80000000 3",
        ..PRINTS_H
    },
    // A store of the whole word heals it, and one of a byte doesn't.
    Run {
        program: &STORE_WORD,
        script: b"flip 0 0x80000040 3\nflip 0 0x80000040 9",
        steps: 8,
        records: &[Shown {
            address: 0x8000_0040,
            ..BAD
        }],
        ..PRINTS_H
    },
    Run {
        program: &STORE_BYTE,
        script: b"flip 0 0x80000040 3\nflip 0 0x80000040 9",
        stop: Stop::Consumed {
            w: 8,
            use_kind: UseKind::Load,
            pc: 0x8000_000C,
        },
        steps: 3,
        consumption: Some((2, 0x8000_000C)),
        console: b"",
        records: &[
            Shown {
                address: 0x8000_0040,
                ..BAD
            },
            Shown {
                address: 0x8000_0040,
                ..CONSUMED
            },
        ],
        ..PRINTS_H
    },
    Run {
        program: &ADD,
        script: b"flip 0 0x80000040 3\nflip 0 0x80000040 9",
        stop: Stop::Consumed {
            w: 8,
            use_kind: UseKind::Amo,
            pc: 0x8000_0008,
        },
        steps: 2,
        consumption: Some((3, 0x8000_0008)),
        console: b"",
        records: &[
            Shown {
                address: 0x8000_0040,
                ..BAD
            },
            Shown {
                address: 0x8000_0040,
                ..CONSUMED
            },
        ],
        ..PRINTS_H
    },
    Run {
        program: &WRITE,
        script: b"flip 0 0x80000048 3\nflip 0 0x80000048 9",
        stop: Stop::Consumed {
            w: 9,
            use_kind: UseKind::Sbi,
            pc: 0x8000_0014,
        },
        steps: 5,
        consumption: Some((4, 0x8000_0014)),
        console: b"",
        records: &[
            Shown {
                address: 0x8000_0048,
                ..BAD
            },
            Shown {
                address: 0x8000_0048,
                ..CONSUMED
            },
        ],
        ..PRINTS_H
    },
    Run {
        program: &WRITE,
        steps: 8,
        console: &[0; 16],
        ..PRINTS_H
    },
    Run {
        program: &PAGED,
        far: &LEAF,
        script: b"flip 0 0x80001010 3\nflip 0 0x80001010 9",
        stop: Stop::Consumed {
            w: 514,
            use_kind: UseKind::Walk,
            pc: 0x8000_0018,
        },
        steps: 6,
        consumption: Some((1, 0x8000_0018)),
        console: b"",
        records: &[
            Shown {
                address: 0x8000_1010,
                ..BAD
            },
            Shown {
                address: 0x8000_1010,
                ..CONSUMED
            },
        ],
        ..PRINTS_H
    },
    Run {
        program: &PAGED,
        far: &LEAF,
        settings: Settings {
            budget: 100,
            ..USUAL
        },
        stop: Stop::Budget,
        steps: 100,
        console: b"",
        ..PRINTS_H
    },
];

#[test]
fn flips_end_as_they_should(rt: HostRuntime) -> Result<(), Fail> {
    assert_eq!(rt; first_unlike_of(rt.alloc(), RUNS)?, None);
    Ok(())
}
