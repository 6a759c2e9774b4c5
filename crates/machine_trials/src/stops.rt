//! Programs that stop both machines.

use crate::machines::{flat_of, machine_of, run, run_flat};
use ras_machine::{Ending, Stop};
use std::alloc::Global;
use std::test::Fail;

/// Asks for a system reset of type 0 for reason 1: li a0,0; li a1,1; li a6,0; lui a7,0x53525; addi a7,a7,0x354; ecall
const FAIL: [u32; 6] = [
    0x00000513, 0x00100593, 0x00000813, 0x535258B7, 0x35488893, 0x00000073,
];

/// Asks for a system reset of type 1 for reason 0.
const REBOOT: [u32; 6] = [
    0x00100513, 0x00000593, 0x00000813, 0x535258B7, 0x35488893, 0x00000073,
];

/// Writes 4,096 bytes from 0x80000004 on by the debug console extension, again and again.
const FILL: [u32; 7] = [
    0x00001537, 0x00000597, 0x00000613, 0x444248B7, 0x34E88893, 0x00000073, 0xFE9FF06F,
];

/// How the flat machine ends with a program, and how much it prints.
fn flat_ends(alloc: Global, program: &[u32]) -> Result<(Ending, usize), Fail> {
    let mut flat = flat_of(alloc, program, 1)?;
    let ending = run_flat(&mut flat, &[]);
    Ok((ending, flat.console().len()))
}

/// How the machine ends with a program without faults, and how much it prints.
fn machine_ends(alloc: Global, program: &[u32]) -> Result<(Ending, usize), Fail> {
    let mut machine = machine_of(alloc, program)?;
    let ending = run(alloc, &mut machine, b"")?;
    Ok((ending, machine.console().len()))
}

/// A program, and how it stops both machines: after how many steps, and with how many bytes on the console.
type Row = (&'static [u32], Stop, u64, usize);

const ROWS: [Row; 3] = [
    (&FAIL, Stop::Shutdown(1), 6, 0),
    (&REBOOT, Stop::Reboot(1), 6, 0),
    // Each write takes seven steps, and 256 of them fill the console.
    (&FILL, Stop::ConsoleFull, 1_797, 1_048_576),
];

#[test]
fn programs_stop_both_machines(rt: HostRuntime) -> Result<(), Fail> {
    for (program, stop, steps, printed) in ROWS {
        let want = (Ending { stop, steps }, printed);
        assert_eq!(rt; flat_ends(rt.alloc(), program)?, want);
        assert_eq!(rt; machine_ends(rt.alloc(), program)?, want);
    }
    Ok(())
}
