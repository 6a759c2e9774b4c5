//! A level of memory by lines, and one whose memory takes flips.

ghost use Rattle.std.specs.Prelude.{◌≡◌, ◌%◌, ◌<◌, ◌≤◌, ℕ};
ghost use Rattle.poison_mem.specs.Bus.{logged_all};
ghost use Rattle.poison_mem.specs.Cells.{CellCalls, CellsKeepCounts, is_third};
ghost use Rattle.poison_mem.specs.LevelLaws.{within as within_of, twice as twice_of};
ghost use Rattle.poison_mem.specs.Level.{Level, InRange, LinesKeepWords, KeepsLines, Within, Twice};
ghost use Rattle.poison_mem.specs.Level.{CellsKeepLines, LinesKeepCounts};

use crate::cell::CellState;
use crate::line::Line;
use crate::log::EventLog;

/// A level of memory. Line `l` is the eight words from word `8 * l` on. No call refuses or takes memory.
pub trait LineMem {
    /// What each call answers, leaves and logs, as functions of the state before and the arguments.
    ghost level: { Level Self };

    /// What holds of every reachable state.
    ghost valid: { Self → Type 0 };

    /// A line of the state stands for the words that the first function gives, each flipped as often since its last whole
    /// store as the second one says.
    ghost stands: { Self → ℕ → (ℕ → ℕ) → (ℕ → ℕ) → Type 0 };

    /// How many words there are: a multiple of 8.
    fn words(&self) -> u32
        ensures count { result ≡ level.words self.now }
        ensures whole { result % 8 ≡ 0 }
        ensures state { valid self.now };

    /// Reads the line `l`.
    fn read_line<G: EventLog>(&mut self, l: u32, g: &mut G) -> Line
        requires { InRange level self.old l }
        ensures cells { result ≡ (level.get self.old l).cells }
        ensures after { self.new ≡ (level.get self.old l).after }
        ensures events { g.new ≡ logged_all G.logged g.old (level.get self.old l).events }
        ensures words { level.words self.new ≡ level.words self.old };

    /// Puts these cells into the line `l`.
    fn put_line<G: EventLog>(&mut self, l: u32, cells: &Line, g: &mut G)
        requires { InRange level self.old l }
        ensures after { self.new ≡ (level.put self.old l cells.now).after }
        ensures events { g.new ≡ logged_all G.logged g.old (level.put self.old l cells.now).events }
        ensures words { level.words self.new ≡ level.words self.old };

    /// The visible cells of the line `l`, without effect.
    fn peek(&self, l: u32) -> Line
        requires { InRange level self.now l }
        ensures { result ≡ level.peek self.now l };

    /// No call changes the number of words.
    ghost keeps_words: { LinesKeepWords level };

    /// What is shown of a line that stands is its words, or poison only where two flips came, and each call keeps it so.
    ghost keeps_lines: { KeepsLines level valid stands };

    /// *Within*: what is shown of a line that stands is its words or poison; a read keeps every line that stands, and a
    /// put every other one.
    ghost within: { Within level valid stands } = { within_of level valid stands keeps_lines };

    /// *Twice*: poison that is shown of a line that stands comes only where two flips came.
    ghost twice: { Twice level valid stands } = { twice_of level valid stands keeps_lines };
}

/// A level over a memory whose words are codewords: their bits flip, and a scrub rewrites them.
///
/// The calls act on the memory at the bottom. No call refuses or takes memory.
pub trait FlipMem: LineMem {
    /// What each call does, as functions of the state.
    ghost calls: { CellCalls Self };

    /// Sets the word `w` of the memory.
    fn load(&mut self, w: u32, v: u64)
        requires { w < Self.level.words self.old }
        ensures after { self.new ≡ calls.load self.old w v }
        ensures words { Self.level.words self.new ≡ Self.level.words self.old };

    /// Flips a bit of the word `w`: bits 0 to 63 are its data, 64 to 71 its check bits. Answers true exactly at a third
    /// flip of a word that isn't marked.
    fn strike(&mut self, w: u32, bit: u8) -> bool
        requires word { w < Self.level.words self.old }
        requires bit { bit < 72 }
        ensures after { self.new ≡ calls.strike self.old w bit }
        ensures third { result ≡ is_third (calls.cell self.old w) }
        ensures words { Self.level.words self.new ≡ Self.level.words self.old };

    /// Reads the word `w`, with events to the record of scrubs, and rewrites it where it is good.
    fn scrub<G: EventLog>(&mut self, w: u32, g: &mut G)
        requires { w < Self.level.words self.old }
        ensures after { self.new ≡ (calls.scrub self.old w).after }
        ensures events { g.new ≡ logged_all G.logged g.old (calls.scrub self.old w).events }
        ensures words { Self.level.words self.new ≡ Self.level.words self.old };

    /// The word `w` as the memory keeps it.
    fn cell_state(&self, w: u32) -> CellState
        requires { w < Self.level.words self.now }
        ensures cell { result ≡ calls.cell self.now w }
        ensures counted { result.count ≤ 3 };

    /// Gives the word `w` of the memory this state. No run does so.
    fn set_cell(&mut self, w: u32, s: &CellState)
        requires word { w < Self.level.words self.old }
        requires counted { s.now.count ≤ 3 }
        ensures after { self.new ≡ calls.set_cell self.old w s.now }
        ensures words { Self.level.words self.new ≡ Self.level.words self.old };

    /// No call changes the number of words, and of the calls of a run only a flip adds to the flips that a word counts.
    ghost cells_keep_counts: { CellsKeepCounts Self.level.words calls };

    /// No read and no put of a line adds to a count.
    ghost lines_keep_counts: { LinesKeepCounts Self.level calls.cell };

    /// Any flip but a third one adds one flip to a line that stands; a scrub keeps each line that stands.
    ghost cells_keep_lines: { CellsKeepLines Self.level calls Self.valid Self.stands };
}
