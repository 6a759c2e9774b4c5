//! Lines and their replies.

use crate::sessions::{first_unlike, session_of};
use ras_bits::NoMemory;
use ras_debug::Turn;
use ras_numbers::address;
use std::alloc::Global;
use std::test::Fail;

/// Prints `H` and shuts down: li a0,72; li a7,1; ecall; li a7,8; ecall
const PRINT_H: [u32; 5] = [0x04800513, 0x00100893, 0x00000073, 0x00800893, 0x00000073];

/// Stores `H` as a byte at 0x80000040, loads the doubleword there, prints its first byte and shuts
/// down.
const STORE_BYTE: [u32; 8] = [
    0x00000297, 0x04800513, 0x04A28023, 0x0402B503, 0x00100893, 0x00000073, 0x00800893, 0x00000073,
];

/// Two flips of the word that STORE_BYTE stores to, before its first step.
const TWO_FLIPS: &[u8] = b"flip 0 0x80000040 3\nflip 0 0x80000040 9\n";

/// The word that was flipped twice is seen to be poisoned as soon as its flips came, two steps
/// before it is consumed.
const FOUND: [(&str, &str); 9] = [
    ("poison", "total 0\n"),
    ("step 1", "at 1 pc 0x0000000080000004\n"),
    ("poison", "0x0000000080000040\ntotal 1\n"),
    ("mem 0x80000040 1", "0x0000000080000040 poison\n"),
    ("step 2", "at 3 pc 0x000000008000000c\n"),
    ("poison", "0x0000000080000040\ntotal 1\n"),
    ("list 0x80000040 1", "0x0000000080000040 poison\n"),
    (
        "run",
        "stop consumed:0x0000000080000040:load:0x000000008000000c steps 3\n",
    ),
    (
        "step 5",
        "stop consumed:0x0000000080000040:load:0x000000008000000c steps 3\n",
    ),
];

#[test]
fn a_word_that_was_flipped_twice_is_found(rt: HostRuntime) -> Result<(), Fail> {
    let mut session = session_of(rt.alloc(), &STORE_BYTE, 1, TWO_FLIPS)?;
    assert_eq!(rt; first_unlike(&mut session, &FOUND), None);
    Ok(())
}

/// Hart 0 and hart 1 by turns; hart 1 was never started, and its steps are idle.
const BY_TURNS: [(&str, &str); 5] = [
    (
        "regs",
        "regs pc=0x0000000080000000\nhart 1 stopped pc=0x0000000080000000 x10=0x0000000000000001\n",
    ),
    ("break 0x80000008", "break 0x0000000080000008 set\n"),
    ("step 1", "at 1 pc 0x0000000080000000\n"),
    ("step 1", "at 2 pc 0x0000000080000004\n"),
    ("run", "break at 4 pc 0x0000000080000008\n"),
];

#[test]
fn harts_go_on_by_turns(rt: HostRuntime) -> Result<(), Fail> {
    let mut session = session_of(rt.alloc(), &PRINT_H, 2, b"")?;
    assert_eq!(rt; first_unlike(&mut session, &BY_TURNS), None);
    Ok(())
}

const COMMANDS: [(&str, &str); 14] = [
    ("", ""),
    ("  # regs", ""),
    ("regs\r", "regs pc=0x0000000080000000\n"),
    ("break 0x80000008", "break 0x0000000080000008 set\n"),
    ("break\t2147483656 ", "break 0x0000000080000008 set\n"),
    ("run", "break at 2 pc 0x0000000080000008\n"),
    (
        "regs",
        "regs pc=0x0000000080000008 x10=0x0000000000000048 x17=0x0000000000000001\n",
    ),
    (
        "mem 0x80000000 2",
        "0x0000000080000000 0x0010089304800513\n0x0000000080000008 0x0080089300000073\n",
    ),
    (
        "list 0x80000000 2",
        "0x0000000080000000 0x04800513 addi a0,zero,72\n0x0000000080000004 0x00100893 addi a7,zero,1\n",
    ),
    ("poison", "total 0\n"),
    (
        "bank 2",
        "rec 0 control 0x0000000000000057 status 0x0000000000000000 addr 0x0000000000000000 info 0x0000000000000000 suppl 0x0000000000000000 time 0x0000000000000000\n",
    ),
    ("step 1", "at 3 pc 0x000000008000000c\n"),
    ("run", "stop shutdown:0 steps 5\n"),
    ("step 1000000000", "stop shutdown:0 steps 5\n"),
];

#[test]
fn each_command_is_answered(rt: HostRuntime) -> Result<(), Fail> {
    let mut session = session_of(rt.alloc(), &PRINT_H, 1, b"")?;
    assert_eq!(rt; first_unlike(&mut session, &COMMANDS), None);
    assert!(rt; session.answer(b"regs") == Turn::More);
    assert!(rt; session.answer(b"quit") == Turn::Quit);
    assert!(rt; session.reply() == b"".as_slice());
    Ok(())
}

/// Refused lines, each with its first cause, and that nothing else changes.
const REFUSALS: [(&str, &str); 19] = [
    ("# \u{7f}", "refused: bytes\n"),
    ("go 1 2\n", "refused: bytes\n"),
    ("go 1 2", "refused: word\n"),
    ("steps x y", "refused: word\n"),
    ("step", "refused: count\n"),
    ("quit x", "refused: count\n"),
    ("mem x y", "refused: number\n"),
    ("step 18446744073709551616", "refused: number\n"),
    ("mem 0x80000004 0", "refused: address\n"),
    ("mem 0x80100000 x", "refused: address\n"),
    ("list 0x80000002 1", "refused: address\n"),
    ("break 2", "refused: address\n"),
    ("mem 0x80000000 x", "refused: number\n"),
    ("mem 0x80000000 257", "refused: range\n"),
    ("mem 0x800ffff8 2", "refused: range\n"),
    ("list 0x800ffffc 2", "refused: range\n"),
    ("step 0", "refused: range\n"),
    ("bank 3", "refused: range\n"),
    ("regs", "regs pc=0x0000000080000000\n"),
];

#[test]
fn each_refusal_has_its_cause(rt: HostRuntime) -> Result<(), Fail> {
    let mut session = session_of(rt.alloc(), &PRINT_H, 1, b"")?;
    assert_eq!(rt; first_unlike(&mut session, &REFUSALS), None);
    Ok(())
}

/// The line that sets a breakpoint.
fn break_at(alloc: Global, n: u64) -> Result<Vec<u8>, NoMemory> {
    let mut line = Vec::new(alloc);
    line.extend_from_slice(b"break ")?;
    line.extend_from_slice(&address(n))?;
    Ok(line)
}

#[test]
fn there_are_sixteen_breakpoints(rt: HostRuntime) -> Result<(), Fail> {
    let mut session = session_of(rt.alloc(), &PRINT_H, 1, b"")?;
    for n in 0..17u64 {
        let line = break_at(rt.alloc(), 4 * n)?;
        let _turn = session.answer(line.as_slice());
        assert!(rt; (session.reply() == b"refused: full\n".as_slice()) == (n == 16));
    }
    let again = [("break 60", "break 0x000000000000003c set\n")];
    assert_eq!(rt; first_unlike(&mut session, &again), None);
    Ok(())
}
