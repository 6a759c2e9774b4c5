//! Runs under injections and writes of control registers, with the drain and the patrol.

use crate::runs::{CORRECTED, PRINTS_H, Run, Shown, USUAL, first_unlike_of};
use ras_machine::{Settings, Stop};
use std::test::Fail;

/// Jumps to itself.
const CIRCLE: [u32; 1] = [0x0000006F];

/// A program that goes on and on.
const GOES_ON: Run = Run {
    program: &CIRCLE,
    stop: Stop::Budget,
    steps: 8,
    console: b"",
    settings: DRAINED,
    ..PRINTS_H
};

/// Eight steps with a drain, which marks in step 2 and clears in step 3, and so on.
const DRAINED: Settings = Settings {
    poll: 4,
    budget: 8,
    ..USUAL
};

/// The injected error.
const INJECTED: Shown = Shown {
    corrected: 0,
    classes: (false, false, true),
    address: 0x8000_0100,
    ..CORRECTED
};

const RUNS: &[Run] = &[
    Run {
        script: b"inject 2 0 0 uec 3 0x80000100",
        settings: USUAL,
        stop: Stop::Injected { bank: 0, rec: 0 },
        steps: 5,
        records: &[INJECTED],
        ..GOES_ON
    },
    Run {
        script: b"inject 1 0 0 uec 3 0x80000100",
        stop: Stop::Injected { bank: 0, rec: 0 },
        steps: 4,
        records: &[INJECTED],
        ..PRINTS_H
    },
    // The record logs nothing.
    Run {
        script: b"control 0 0 0 0\nflip 0 0x80000000 3",
        ..PRINTS_H
    },
    // An event comes after the mark, so the record is left to the next clear.
    Run {
        script: b"flip 0 0x80000000 3\ninject 0 0 0 ce 3 0x80000100",
        records: &[Shown {
            corrected: 2,
            several: true,
            ..CORRECTED
        }],
        polled: 1,
        ..GOES_ON
    },
    // Corrected errors aren't signalled, so the record is left to the stop.
    Run {
        script: b"control 0 0 0 3\nflip 0 0x80000000 3",
        records: &[CORRECTED],
        ..GOES_ON
    },
    // The patrol scrubs word 100 in step 100, and the script scrubs it again.
    Run {
        script: b"flip 10 0x80000320 1\nflip 101 0x80000320 2\nscrub 102 0x80000320",
        settings: Settings {
            poll: 0,
            patrol: 1,
            budget: 200,
            ..USUAL
        },
        steps: 200,
        records: &[Shown {
            rec: 1,
            corrected: 2,
            several: true,
            address: 0x8000_0320,
            ..CORRECTED
        }],
        ..GOES_ON
    },
    // The record keeps the first event of the greatest class.
    Run {
        script: b"inject 0 0 0 ce 1 0x80000100\ninject 1 0 0 ued 1 0x80000108\ninject 2 0 0 ce 1 0x80000110",
        settings: Settings {
            poll: 0,
            budget: 5,
            ..USUAL
        },
        steps: 5,
        records: &[Shown {
            corrected: 2,
            classes: (true, true, false),
            address: 0x8000_0108,
            ..CORRECTED
        }],
        status: Some(0x0002_0000_0005_0407),
        ..GOES_ON
    },
];

#[test]
fn errors_are_told_as_they_should(rt: HostRuntime) -> Result<(), Fail> {
    assert_eq!(rt; first_unlike_of(rt.alloc(), RUNS)?, None);
    Ok(())
}
