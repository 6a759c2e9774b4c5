//! The words of the memory, in flat arrays.

ghost use Rattle.std.specs.Prelude.{◌≡◌, ◌<◌, ◌≤◌, length, slice_set, replicate, IfOk};
ghost use Rattle.ecc_memory.specs.Memory.{cell_at};
ghost use Rattle.ecc_memory.specs.Words.{word_note};

use poison_mem::CellState;
use ras_bits::NoMemory;
use std::alloc::Global;
use std::marker::Model;

/// Words of a memory: for each its data bits, its check bits, and a note of its mark and its count.
#[derive(Drop)]
pub(crate) struct Words {
    values: Vec<u64>,
    checks: Vec<u8>,
    notes: Vec<u8>,
}

impl Model for Words {
    ghost use Rattle.std.specs.Prelude.{List, length, ◌≡◌};
    ghost use Rattle.poison_mem.specs.declared.cell.CellState.{CellState};
    ghost use Rattle.ecc_memory.specs.Words.{words_by};

    ghost Value = { List CellState };

    ghost view = { λ m. words_by m.values.items m.checks.items m.notes.items };

    ghost invariant = { λ m. (length m.checks.items ≡ length m.values.items) × (length m.notes.items ≡ length m.values.items) };
}

/// The note of a word: its count below, and its mark above.
fn note(word: CellState) -> u8
    requires { word.count ≤ 3 }
    ensures { result ≡ word_note word.mark word.count }
{
    word.count + 4 * u8::from(word.mark)
}

impl Words {
    /// This many words, each the same.
    pub(crate) fn make(alloc: Global, words: usize, word: CellState) -> Result<Words, NoMemory>
        requires { word.count ≤ 3 }
        ensures { IfOk result (λ made. made ≡ replicate words word) }
    {
        let values = vec![in alloc; word.value; words]?;
        let checks = vec![in alloc; word.check; words]?;
        let notes = vec![in alloc; note(word); words]?;
        Ok(Words {
            values,
            checks,
            notes,
        })
    }

    /// How many words there are.
    #[tactic(auto, using(crate::proofs::Arrays::words_length))]
    pub(crate) fn len(&self) -> usize
        ensures { result ≡ length self.now }
    {
        self.values.len()
    }

    /// The word `w`.
    #[tactic(auto, using(crate::proofs::Arrays::words_length))]
    pub(crate) fn get(&self, w: u32) -> CellState
        requires { w < length self.now }
        ensures word { result ≡ cell_at self.now w }
        ensures counted { result.count ≤ 3 }
    {
        let w = w as usize;
        let note = self.notes[w];
        CellState {
            value: self.values[w],
            check: self.checks[w],
            mark: note / 4 % 2 == 1,
            count: note % 4,
        }
    }

    /// Gives the word `w` this state.
    #[tactic(auto, using(crate::proofs::Arrays::words_length))]
    pub(crate) fn set(&mut self, w: u32, word: CellState)
        requires inside { w < length self.old }
        requires counted { word.count ≤ 3 }
        ensures { self.new ≡ slice_set self.old w word }
    {
        let w = w as usize;
        self.values[w] = word.value;
        self.checks[w] = word.check;
        self.notes[w] = note(word);
    }
}
