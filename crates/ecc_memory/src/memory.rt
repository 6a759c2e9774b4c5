//! The memory.

ghost use Rattle.std.specs.Prelude.{◌≡◌, ◌%◌, ◌≤◌, ℕ, replicate, IfOk};
ghost use Rattle.poison_mem.specs.Level.{InRange};
ghost use Rattle.ras_bits.specs.declared.map.TheConstants.{MOST_WORDS};
ghost use Rattle.ecc_memory.specs.Word.{codeword_of};
ghost use Rattle.ecc_memory.specs.Lines.{memory_level};
ghost use Rattle.ecc_memory.specs.Standing.{LineStands};

use crate::lines::{put_words, read_words, shown_words};
use crate::word::{is_third, log_event, make, scrub, strike};
use crate::words::Words;
use poison_mem::{CellState, EventLog, FlipMem, Line, LineMem};
use ras_bits::NoMemory;
use std::alloc::Global;
use std::marker::Model;

/// A memory of codewords.
///
/// A read of a codeword gives its value. A read of a word one flip away from a codeword gives that codeword's value, and
/// an event. A read of any other marks the word as poison, with an event. A put makes a good word anew.
#[derive(Drop)]
pub struct EccMemory {
    cells: Words,
}

impl Model for EccMemory {
    ghost use Rattle.std.specs.Prelude.{List, length, ◌≤◌, ◌%◌, ◌≡◌};
    ghost use Rattle.poison_mem.specs.declared.cell.CellState.{CellState};
    ghost use Rattle.ras_bits.specs.declared.map.TheConstants.{MOST_WORDS};

    ghost Value = { List CellState };

    ghost view = { λ m. m.cells };

    ghost invariant = { λ m. (length m.cells ≤ MOST_WORDS) × (length m.cells % 8 ≡ 0) };
}

impl EccMemory {
    /// A memory of this many words, each the codeword of zero. The one refusal is want of memory.
    ///
    /// The number of words is a multiple of 8, at least 8 and at most [`ras_bits::MOST_WORDS`].
    pub fn make(alloc: Global, words: u32) -> Result<EccMemory, NoMemory>
        requires lines { words % 8 ≡ 0 }
        requires some { 8 ≤ words }
        requires most { words ≤ MOST_WORDS }
        ensures zero { IfOk result (λ memory. memory ≡ replicate words (codeword_of 0)) }

        // Each line stands for zeros, whatever flips are told of its words.
        ensures stands { IfOk result (λ memory. (l : ℕ) (q : ℕ → ℕ) → InRange memory_level memory l → LineStands memory l (λ _. 0) q) }
    {
        let cells = Words::make(alloc, words as usize, make(0))?;
        Ok(EccMemory { cells })
    }
}

impl LineMem for EccMemory {
    ghost use Rattle.ecc_memory.specs.Lines.{memory_level};
    ghost use Rattle.ecc_memory.specs.Standing.{HasWholeLines, LineStands};
    ghost use Rattle.ecc_memory.specs.LinesLaws.{memory_lines_keep_words, memory_keeps_lines};

    ghost level = { memory_level };

    ghost valid = { HasWholeLines };

    ghost stands = { LineStands };

    ghost keeps_words = { memory_lines_keep_words };

    ghost keeps_lines = { memory_keeps_lines };

    fn words(&self) -> u32 {
        self.cells.len() as u32
    }

    fn read_line<G: EventLog>(&mut self, l: u32, g: &mut G) -> Line {
        read_words(&mut self.cells, l, g)
    }

    fn put_line<G: EventLog>(&mut self, l: u32, cells: &Line, _g: &mut G) {
        put_words(&mut self.cells, l, cells);
    }

    fn peek(&self, l: u32) -> Line {
        shown_words(&self.cells, l)
    }
}

impl FlipMem for EccMemory {
    ghost use Rattle.ecc_memory.specs.Lines.{memory_calls};
    ghost use Rattle.ecc_memory.specs.LinesLaws.{memory_cells_keep_counts, memory_lines_keep_counts, memory_cells_keep_lines};

    ghost calls = { memory_calls };

    ghost cells_keep_counts = { memory_cells_keep_counts };

    ghost lines_keep_counts = { memory_lines_keep_counts };

    ghost cells_keep_lines = { memory_cells_keep_lines };

    fn load(&mut self, w: u32, v: u64) {
        self.cells.set(w, make(v));
    }

    fn strike(&mut self, w: u32, bit: u8) -> bool {
        let word = self.cells.get(w);
        self.cells.set(w, strike(bit, word));
        is_third(word)
    }

    fn scrub<G: EventLog>(&mut self, w: u32, g: &mut G) {
        let seen = scrub(w, self.cells.get(w));
        self.cells.set(w, seen.after);
        log_event(seen.event, g);
    }

    fn cell_state(&self, w: u32) -> CellState {
        self.cells.get(w)
    }

    fn set_cell(&mut self, w: u32, s: &CellState) {
        self.cells.set(w, *s);
    }
}
