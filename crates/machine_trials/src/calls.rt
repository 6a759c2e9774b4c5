//! What the calls of both machines show.

use crate::machines::{
    PRINT_H, USUAL, flat_of, machine_at_end, machine_of, run, run_flat, step, words_of,
};
use poison_mem::Cell;
use ras_machine::{Ending, Flat, Machine, Stop};
use std::alloc::Global;
use std::test::Fail;

const SHUTDOWN: Ending = Ending {
    stop: Stop::Shutdown(0),
    steps: 5,
};

const NO_STEP: Ending = Ending {
    stop: Stop::Budget,
    steps: 0,
};

/// Loads the doubleword at 0x80000040, prints its first byte and shuts down.
const PRINT_WORD: [u32; 6] = [
    0x00000297, 0x0402B503, 0x00100893, 0x00000073, 0x00800893, 0x00000073,
];

/// A hart: whether it is started, its pc and its a7.
#[derive(Clone, Copy, Debug, PartialEq, Eq)]
struct Stands {
    started: bool,
    pc: u64,
    a7: u64,
}

/// What a machine shows: its steps, hart 0, the first byte that it printed, the step and the word of the first third flip, how
/// many records it left, and of one word its value and how many flips it took.
#[derive(Clone, Copy, Debug, PartialEq, Eq)]
struct Shown {
    steps: u64,
    hart: Option<Stands>,
    printed: Option<u8>,
    third_flip: Option<(u64, u32)>,
    records: usize,
    value: Option<u64>,
    flips: u8,
}

fn hart_of(machine: &Machine, i: u8) -> Option<Stands> {
    if i >= machine.settings().harts {
        return None;
    }
    let hart = machine.hart(i);
    Some(Stands {
        started: hart.started(),
        pc: hart.pc(),
        a7: hart.x(17),
    })
}

fn flat_hart_of(flat: &Flat, i: u8) -> Option<Stands> {
    if i >= flat.harts() {
        return None;
    }
    let hart = flat.hart(i);
    Some(Stands {
        started: hart.started(),
        pc: hart.pc(),
        a7: hart.x(17),
    })
}

/// The value that a read of a word shows, None where it shows poison.
fn value_of(machine: &Machine, w: u32) -> Option<u64> {
    if w >= words_of(machine) {
        return None;
    }
    match machine.view(w) {
        Cell::Good(value) => Some(value),
        Cell::Poison => None,
    }
}

/// How many flips a word has taken.
fn flips_of(machine: &Machine, w: u32) -> u8 {
    if w < words_of(machine) {
        machine.cell_state(w).count
    } else {
        0
    }
}

/// What a machine shows of itself and of word `w`.
fn shown_by(machine: &Machine, w: u32) -> Shown {
    Shown {
        steps: machine.steps(),
        hart: hart_of(machine, 0),
        printed: machine.console().first().copied(),
        third_flip: machine.beyond(),
        records: machine.records().list().len(),
        value: value_of(machine, w),
        flips: flips_of(machine, w),
    }
}

/// How a program's run ends under a script, and what the machine shows then.
fn after_run(alloc: Global, program: &[u32], text: &[u8], w: u32) -> Result<(Ending, Shown), Fail> {
    let mut machine = machine_of(alloc, program)?;
    let ending = run(alloc, &mut machine, text)?;
    Ok((ending, shown_by(&machine, w)))
}

/// Two flips of a bit, which are the word again and both count, and one of another word.
const FLIPS: &[u8] = b"flip 0 0x80000000 3\nflip 0 0x80000000 3\nflip 1 0x80000010 3";

/// What a step brings, and what the machine shows then.
fn after_step(alloc: Global, w: u32) -> Result<(Option<Ending>, Shown), Fail> {
    let mut machine = machine_of(alloc, &PRINT_H)?;
    let ending = step(alloc, &mut machine, FLIPS)?;
    Ok((ending, shown_by(&machine, w)))
}

/// What the second step brings, and what the machine shows then.
fn after_two_steps(alloc: Global, w: u32) -> Result<(Option<Ending>, Shown), Fail> {
    let mut machine = machine_of(alloc, &PRINT_H)?;
    step(alloc, &mut machine, FLIPS)?;
    let ending = step(alloc, &mut machine, FLIPS)?;
    Ok((ending, shown_by(&machine, w)))
}

/// What an ended machine answers to a step, to a run, and to a step once more.
fn answers_at_end(alloc: Global) -> Result<[Option<Ending>; 3], Fail> {
    let mut machine = machine_at_end(alloc, &PRINT_H)?;
    let first = step(alloc, &mut machine, b"")?;
    let run = run(alloc, &mut machine, b"")?;
    Ok([first, Some(run), step(alloc, &mut machine, b"")?])
}

/// Whether the settings are those that the machine was made with.
fn keeps_settings(alloc: Global) -> Result<bool, Fail> {
    let machine = machine_of(alloc, &PRINT_H)?;
    Ok(machine.settings() == USUAL)
}

/// How the flat machine of two harts ends twice, where hart 0 has all turns, what it prints, and its harts.
fn flat_after_run(alloc: Global) -> Result<([Ending; 2], Option<u8>, [Option<Stands>; 2]), Fail> {
    let mut flat = flat_of(alloc, &PRINT_H, 2)?;
    let endings = [run_flat(&mut flat, &[0]), run_flat(&mut flat, &[])];
    let harts = [flat_hart_of(&flat, 0), flat_hart_of(&flat, 1)];
    Ok((endings, flat.console().first().copied(), harts))
}

/// Hart 0 behind its program.
const AT_END: Stands = Stands {
    started: true,
    pc: 0x8000_0014,
    a7: 8,
};

/// A hart that was never started.
const STOPPED: Stands = Stands {
    started: false,
    pc: 0x8000_0000,
    a7: 0,
};

#[test]
fn a_flat_machine_runs(rt: HostRuntime) -> Result<(), Fail> {
    let want = (
        [SHUTDOWN, SHUTDOWN],
        Some(b'H'),
        [Some(AT_END), Some(STOPPED)],
    );
    assert!(rt; flat_after_run(rt.alloc())? == want);
    Ok(())
}

/// What a machine shows after its program without faults.
const RAN: Shown = Shown {
    steps: 5,
    hart: Some(AT_END),
    printed: Some(b'H'),
    third_flip: None,
    records: 0,
    value: Some(0x0010_0893_0480_0513),
    flips: 0,
};

#[test]
fn a_machine_runs(rt: HostRuntime) -> Result<(), Fail> {
    assert_eq!(rt; after_run(rt.alloc(), &PRINT_H, b"", 0)?, (SHUTDOWN, RAN));
    assert!(rt; keeps_settings(rt.alloc())?);
    Ok(())
}

/// What it shows of word 0 after its first step under these flips.
const STEPPED: Shown = Shown {
    steps: 1,
    hart: Some(Stands {
        started: true,
        pc: 0x8000_0004,
        a7: 0,
    }),
    printed: None,
    flips: 2,
    ..RAN
};

#[test]
fn a_step_is_one_step_of_the_run(rt: HostRuntime) -> Result<(), Fail> {
    assert_eq!(rt; after_step(rt.alloc(), 0)?, (None, STEPPED));
    Ok(())
}

/// And of word 2 after the second one. A flip doesn't change what a read shows.
const STEPPED_TWICE: Shown = Shown {
    steps: 2,
    hart: Some(Stands {
        started: true,
        pc: 0x8000_0008,
        a7: 1,
    }),
    value: Some(0x0000_0073),
    flips: 1,
    ..STEPPED
};

#[test]
fn the_next_step_is_the_next_of_the_run(rt: HostRuntime) -> Result<(), Fail> {
    assert_eq!(rt; after_two_steps(rt.alloc(), 2)?, (None, STEPPED_TWICE));
    Ok(())
}

// Three flips of a word are another word, one flip of which is corrected.
#[test]
fn a_third_flip_is_told(rt: HostRuntime) -> Result<(), Fail> {
    let text = b"flip 0 0x80000040 0\nflip 0 0x80000040 1\nflip 0 0x80000040 2";
    let (ending, shown) = after_run(rt.alloc(), &PRINT_WORD, text, 8)?;
    assert_eq!(rt; ending.steps, 6);
    assert_eq!(rt; shown.printed, Some(7));
    assert_eq!(rt; shown.third_flip, Some((0, 8)));
    assert_eq!(rt; shown.records, 1);
    Ok(())
}

#[test]
fn an_ended_machine_answers_its_ending_again(rt: HostRuntime) -> Result<(), Fail> {
    assert_eq!(rt; answers_at_end(rt.alloc())?, [Some(NO_STEP); 3]);
    Ok(())
}
