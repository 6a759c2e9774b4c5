//! Words that take flips.

use crate::helpers::told;
use ecc_memory::EccMemory;
use poison_mem::{Cell, FlipMem, NoLog, ShortLog};
use std::process::Abort;
use std::test::Fail;

/// A word that was flipped once is read as it was, and stays flipped.
fn assert_corrected<M: FlipMem>(rt: &impl Abort, memory: &mut M, log: &mut ShortLog) {
    assert!(rt; memory.words() >= 16);
    memory.load(8, 0x48);
    assert!(rt; !memory.strike(8, 3));
    assert_eq!(rt; memory.peek(1).cell(0), Cell::Good(0x48));
    assert_eq!(rt; memory.read_line(1, log).cell(0), Cell::Good(0x48));
    assert_eq!(rt; memory.cell_state(8).value, 0x40);
}

/// Flipped again the word is poison, until it is put again.
fn assert_poison<M: FlipMem>(rt: &impl Abort, memory: &mut M, log: &mut ShortLog) {
    assert!(rt; memory.words() >= 16);
    assert!(rt; !memory.strike(8, 71));
    let mut line = memory.read_line(1, log);
    assert_eq!(rt; line.cell(0), Cell::Poison);
    memory.put_line(1, &line, log);
    assert!(rt; memory.cell_state(8).mark);
    assert_eq!(rt; memory.cell_state(8).count, 0);
    line.set(0, Cell::Good(0x49));
    memory.put_line(1, &line, log);
    assert_eq!(rt; memory.read_line(1, log), line);
}

#[test]
fn one_flip_is_corrected_and_two_are_poison(rt: HostRuntime) -> Result<(), Fail> {
    let mut memory = EccMemory::make(rt.alloc(), 16)?;
    let mut log = ShortLog::new();
    assert_corrected(&rt, &mut memory, &mut log);
    assert_poison(&rt, &mut memory, &mut log);
    assert_eq!(rt; log.events().len(), 2);
    assert_eq!(rt; told(log.events()[0]), (0, 0, 1, false, 0x8000_0040, 3));
    assert_eq!(rt; told(log.events()[1]), (0, 0, 2, false, 0x8000_0040, 0));
    Ok(())
}

/// Two flips of one bit are counted, and the word is read as it was; the third flip is told, and the fourth isn't.
fn assert_counted<M: FlipMem>(rt: &impl Abort, memory: &mut M) {
    assert!(rt; memory.words() >= 8);
    memory.load(0, 0x0480_0513);
    assert!(rt; !memory.strike(0, 3));
    assert!(rt; !memory.strike(0, 3));
    let line = memory.read_line(0, &mut NoLog);
    assert_eq!(rt; line.cell(0), Cell::Good(0x0480_0513));
    assert_eq!(rt; memory.cell_state(0).count, 2);
    assert!(rt; memory.strike(0, 4));
    assert!(rt; !memory.strike(0, 5));
}

#[test]
fn a_flip_twice_over_is_counted_and_read_as_it_was(rt: HostRuntime) -> Result<(), Fail> {
    assert_counted(&rt, &mut EccMemory::make(rt.alloc(), 8)?);
    Ok(())
}

/// A word that was flipped once is put again by a scrub, so that the next one finds nothing.
fn assert_scrubbed<M: FlipMem>(rt: &impl Abort, memory: &mut M) {
    let mut log = ShortLog::new();
    assert!(rt; memory.words() >= 8);
    memory.load(7, 5);
    assert!(rt; !memory.strike(7, 64));
    memory.scrub(7, &mut log);
    assert_eq!(rt; memory.cell_state(7).count, 0);
    memory.scrub(7, &mut log);
    assert_eq!(rt; log.events().len(), 1);
    assert_eq!(rt; told(log.events()[0]), (0, 1, 1, true, 0x8000_0038, 64));
}

#[test]
fn a_scrub_puts_a_good_word_again(rt: HostRuntime) -> Result<(), Fail> {
    assert_scrubbed(&rt, &mut EccMemory::make(rt.alloc(), 8)?);
    Ok(())
}
