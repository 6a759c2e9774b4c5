//! The stack of two caches over a memory.

ghost use Rattle.std.specs.Prelude.{◌≡◌};

use crate::helpers::{ZEROS, line_of, told};
use mem_stack::{L1_SETS, L1_WAYS, L2_SETS, L2_WAYS, Stack};
use poison_mem::{Bus, Cell, CellState, FlipBus, Held, NoLog, ShortLog};
use std::process::Abort;
use std::test::Fail;

/// A word of the first cache is read and stored as if its memory weren't flipped, which a scrub finds.
fn assert_cached<B: FlipBus>(rt: &impl Abort, stack: &mut B) {
    let mut log = ShortLog::new();
    assert!(rt; stack.words() >= 16);
    stack.load(8, 7);
    assert!(rt; !stack.strike(8, 3));
    assert_eq!(rt; stack.read(8, &mut log), Cell::Good(7));
    assert!(rt; !stack.strike(8, 9));
    assert_eq!(rt; stack.read(8, &mut log), Cell::Good(7));
    stack.scrub(8, &mut log);
    assert!(rt; stack.cell_state(8).mark);
    assert_eq!(rt; stack.view(8), Cell::Good(7));
    stack.store(8, 9, 0x01, &mut log);
    assert_eq!(rt; stack.view(8), Cell::Good(9));
    assert_eq!(rt; log.events().len(), 2);
    assert_eq!(rt; told(log.events()[0]), (0, 0, 1, false, 0x8000_0040, 3));
    assert_eq!(rt; told(log.events()[1]), (0, 1, 2, true, 0x8000_0040, 0));
}

/// A codeword of zero that was flipped twice, once in its check bits, counts both.
fn assert_cell_set<B: FlipBus>(rt: &impl Abort, stack: &mut B) {
    assert!(rt; stack.words() >= 16);
    let state = CellState {
        value: 3,
        check: 0x0C,
        mark: false,
        count: 2,
    };
    stack.set_cell(9, &state);
    assert_eq!(rt; stack.cell_state(9), state);
    assert_eq!(rt; stack.view(9), Cell::Good(0));
}

#[test]
fn the_stack_loads_reads_stores_and_scrubs(rt: HostRuntime) -> Result<(), Fail> {
    assert_eq!(rt; (L1_SETS, L1_WAYS, L2_SETS, L2_WAYS), (16, 2, 64, 4));
    let mut stack = Stack::make(rt.alloc(), 64)?;
    assert_eq!(rt; stack.words(), 64);
    assert_cached(&rt, &mut stack);
    assert_cell_set(&rt, &mut stack);
    Ok(())
}

/// Line 1 with word 8 stored.
fn stored() -> Held
    ensures { result.line ≡ 1 }
{
    Held {
        line: 1,
        dirty: true,
        cells: line_of(Cell::Good(7), Cell::Good(0)),
    }
}

/// Both caches hold the line of a word that was stored.
fn assert_held(rt: &impl Abort, stack: &mut Stack) {
    let below = Held {
        line: 1,
        dirty: false,
        cells: ZEROS,
    };
    assert!(rt; stack.words() >= 16);
    stack.store(8, 7, 0xFF, &mut NoLog);
    assert_eq!(rt; stack.held(1, 1, 0), Some(stored()));
    assert_eq!(rt; stack.held(2, 1, 0), Some(below));
    assert_eq!(rt; stack.held(2, 2, 0), None);
}

/// Both caches hold nothing after all was forgotten, and what was stored is lost until its entry is there again.
fn assert_forgotten(rt: &impl Abort, stack: &mut Stack) {
    assert!(rt; stack.words() >= 16);
    stack.forget_all();
    assert_eq!(rt; stack.held(1, 1, 0), None);
    assert_eq!(rt; stack.held(2, 1, 0), None);
    assert_eq!(rt; stack.view(8), Cell::Good(0));
    stack.place_last(1, &stored());
    assert_eq!(rt; stack.held(1, 1, 0), Some(stored()));
    assert_eq!(rt; stack.view(8), Cell::Good(7));
}

#[test]
fn a_stack_tells_what_its_caches_hold(rt: HostRuntime) -> Result<(), Fail> {
    let mut stack = Stack::make(rt.alloc(), 64)?;
    assert_held(&rt, &mut stack);
    assert_forgotten(&rt, &mut stack);
    Ok(())
}
