//! Runs under random flips and injections, beside the flat machine's.

use crate::faults::faults_of;
use crate::machines::{BUDGET, Harts, flat_after, image_of, machine_after};
use elf_load::Image;
use ras_bits::NoMemory;
use ras_machine::{Ending, Flat, Machine, Stop};
use std::alloc::Global;
use std::test::Fail;

/// Stores its own address into the first word of each of 384 lines from 0x80010000 on, adds these words up, prints a letter
/// and shuts down after 2,700 steps. The lines are more than the caches hold.
const SWEEP: [u32; 19] = [
    0x00010417, 0x000064B7, 0x008484B3, 0x00040293, 0x0052B023, 0x04028293, 0xFE929CE3, 0x00040293,
    0x00000313, 0x0002B383, 0x00730333, 0x04028293, 0xFE929AE3, 0x00F37513, 0x04150513, 0x00100893,
    0x00000073, 0x00800893, 0x00000073,
];

/// Starts hart 1 at the same sweep behind it, and goes on there too: auipc a1,0; addi a1,a1,64; li a0,1; li a6,0;
/// lui a7,0x485; addi a7,a7,0x34D; ecall; nop ..
const TWO_SWEEPS: [u32; 35] = [
    0x00000597, 0x04058593, 0x00100513, 0x00000813, 0x004858B7, 0x34D88893, 0x00000073, 0x00000013,
    0x00000013, 0x00000013, 0x00000013, 0x00000013, 0x00000013, 0x00000013, 0x00000013, 0x00000013,
    0x00010417, 0x000064B7, 0x008484B3, 0x00040293, 0x0052B023, 0x04028293, 0xFE929CE3, 0x00040293,
    0x00000313, 0x0002B383, 0x00730333, 0x04028293, 0xFE929AE3, 0x00F37513, 0x04150513, 0x00100893,
    0x00000073, 0x00800893, 0x00000073,
];

/// Whose turns are made, again and again.
const SCHEDULE: [u8; 7] = [0, 1, 1, 2, 3, 0, 1];

/// How a run went: as the flat machine's; or stopped at a word that was flipped twice or at an injection, as the flat machine
/// is after as many steps; otherwise; or with a third flip of a word, after which nothing is said.
#[derive(Clone, Copy, Debug, PartialEq, Eq)]
enum Went {
    AsFlat,
    Consumed,
    Injected,
    Otherwise,
    ThirdFlip,
}

/// A hart of both machines is the same.
fn same_hart(machine: &Machine, flat: &Flat, i: u8) -> bool {
    if i >= machine.settings().harts || i >= flat.harts() {
        return false;
    }
    machine.hart(i).same(flat.hart(i))
}

/// Both machines have the same harts and console.
fn same(machine: &Machine, flat: &Flat) -> bool {
    for i in 0..machine.settings().harts {
        if !same_hart(machine, flat, i) {
            return false;
        }
    }
    machine.console() == flat.console()
}

/// How a run went that a machine has made.
fn run_went(
    alloc: Global,
    image: &Image,
    schedule: &[u8],
    machine: &Machine,
    ending: Ending,
) -> Result<Went, NoMemory> {
    if machine.beyond().is_some() {
        return Ok(Went::ThirdFlip);
    }
    let (budget, stopped) = match ending.stop {
        Stop::Consumed { .. } => (ending.steps, Went::Consumed),
        Stop::Injected { .. } => (ending.steps, Went::Injected),
        _ => (BUDGET, Went::AsFlat),
    };
    let (flat, plain) = flat_after(alloc, image, budget, machine.settings().harts, schedule)?;
    let goes_on = plain.stop == Stop::Budget && plain.steps == budget;
    if same(machine, &flat) && (goes_on || plain == ending) {
        Ok(stopped)
    } else {
        Ok(Went::Otherwise)
    }
}

/// How a run of a program went under the faults of a number.
fn one_run(
    alloc: Global,
    program: &[u32],
    harts: Harts,
    schedule: &[u8],
    seed: u64,
) -> Result<Went, Fail> {
    let text = faults_of(alloc, seed)?;
    let image = image_of(alloc, program)?;
    let (machine, ending) = machine_after(alloc, &image, harts, schedule, text.as_slice())?;
    Ok(run_went(alloc, &image, schedule, &machine, ending)?)
}

/// How so many runs went, each under other faults.
fn runs_of(
    alloc: Global,
    program: &[u32],
    harts: Harts,
    schedule: &[u8],
    count: u64,
) -> Result<Vec<Went>, Fail> {
    let mut all = Vec::new(alloc);
    for seed in 0..count {
        all.push(one_run(alloc, program, harts, schedule, seed)?)?;
    }
    Ok(all)
}

/// How many runs went so.
fn count_of(all: &[Went], sought: Went) -> u32 {
    let mut count = 0u32;
    for went in all {
        if *went == sought {
            count = count.saturating_add(1);
        }
    }
    count
}

#[test]
fn faults_leave_a_run_as_it_is_or_stop_it(rt: HostRuntime) -> Result<(), Fail> {
    let all = runs_of(rt.alloc(), &SWEEP, Harts::One, &[], 24)?;
    assert_eq!(rt; count_of(all.as_slice(), Went::Otherwise), 0);
    assert!(rt; count_of(all.as_slice(), Went::AsFlat) > 4);
    assert!(rt; count_of(all.as_slice(), Went::Consumed) > 2);
    assert!(rt; count_of(all.as_slice(), Went::Injected) > 4);
    Ok(())
}

#[test]
fn two_harts_under_a_schedule_go_as_in_plain_memory(rt: HostRuntime) -> Result<(), Fail> {
    let all = runs_of(rt.alloc(), &TWO_SWEEPS, Harts::Two, &SCHEDULE, 12)?;
    assert_eq!(rt; count_of(all.as_slice(), Went::Otherwise), 0);
    assert!(rt; count_of(all.as_slice(), Went::AsFlat) > 1);
    assert!(rt; count_of(all.as_slice(), Went::Injected) > 1);
    Ok(())
}
