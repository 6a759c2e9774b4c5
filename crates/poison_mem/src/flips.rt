//! A bus over a memory that takes flips.

ghost use Rattle.std.specs.Prelude.{◌≡◌, ◌<◌, ◌≤◌, ℕ};
ghost use Rattle.poison_mem.specs.Bus.{logged_all};
ghost use Rattle.poison_mem.specs.Cells.{CellsKeepCounts, is_third};
ghost use Rattle.poison_mem.specs.Flips.{FlipMeaning, IsFaithful, WordsKeepCounts};

use crate::bus::Bus;
use crate::cell::{Cell, CellState};
use crate::log::EventLog;

/// A bus over a memory whose words are codewords: their bits flip, and a scrub rewrites them.
///
/// No call refuses or takes memory.
pub trait FlipBus: Bus {
    /// What each call does, as functions of the state.
    ghost flips: { FlipMeaning Self };

    /// The state stands for the words that the first function gives, each flipped as often since its last whole store
    /// as the second one says.
    ghost stands: { Self → (ℕ → ℕ) → (ℕ → ℕ) → Type 0 };

    /// Sets the word `w` of the memory.
    fn load(&mut self, w: u32, v: u64)
        requires { w < Self.meaning.words self.old }
        ensures after { self.new ≡ flips.cells.load self.old w v }
        ensures words { Self.meaning.words self.new ≡ Self.meaning.words self.old };

    /// Flips a bit of the word `w`: bits 0 to 63 are its data, 64 to 71 its check bits. Answers true exactly at a third
    /// flip of a word that isn't marked.
    fn strike(&mut self, w: u32, bit: u8) -> bool
        requires word { w < Self.meaning.words self.old }
        requires bit { bit < 72 }
        ensures after { self.new ≡ flips.cells.strike self.old w bit }
        ensures third { result ≡ is_third (flips.cells.cell self.old w) }
        ensures words { Self.meaning.words self.new ≡ Self.meaning.words self.old };

    /// Reads the word `w`, with events to the record of scrubs, and rewrites it where it is good.
    fn scrub<G: EventLog>(&mut self, w: u32, g: &mut G)
        requires { w < Self.meaning.words self.old }
        ensures after { self.new ≡ (flips.cells.scrub self.old w).after }
        ensures events { g.new ≡ logged_all G.logged g.old (flips.cells.scrub self.old w).events }
        ensures words { Self.meaning.words self.new ≡ Self.meaning.words self.old };

    /// The word `w` as the memory keeps it.
    fn cell_state(&self, w: u32) -> CellState
        requires { w < Self.meaning.words self.now }
        ensures cell { result ≡ flips.cells.cell self.now w }
        ensures counted { result.count ≤ 3 };

    /// The cell that a read of the word `w` would give, without effect.
    fn view(&self, w: u32) -> Cell
        requires { w < Self.meaning.words self.now }
        ensures { result ≡ flips.view self.now w };

    /// Gives the word `w` of the memory this state. No run does so.
    fn set_cell(&mut self, w: u32, s: &CellState)
        requires word { w < Self.meaning.words self.old }
        requires counted { s.now.count ≤ 3 }
        ensures after { self.new ≡ flips.cells.set_cell self.old w s.now }
        ensures words { Self.meaning.words self.new ≡ Self.meaning.words self.old };

    /// No call changes the number of words, and of the calls of a run only a flip adds to the flips that a word counts.
    ghost cells_keep_counts: { CellsKeepCounts Self.meaning.words flips.cells };

    /// No read and no store adds to a count.
    ghost words_keep_counts: { WordsKeepCounts Self.meaning flips.cells.cell };

    /// What stands for words shows them, or poison only where two flips came, and each call keeps it so.
    ghost faithful: { IsFaithful Self.meaning flips stands };
}
