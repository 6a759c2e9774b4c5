//! The stack.

ghost use Rattle.std.specs.Prelude.{◌≡◌, ◌<◌, ◌≤◌, ◌%◌, ℕ, replicate, slice_get, IfOk};
ghost use Rattle.ras_bits.specs.declared.map.TheConstants.{MOST_WORDS};
ghost use Rattle.mem_stack.specs.Stack.{fresh_stack, loaded_stack, stack_meaning};
ghost use Rattle.mem_stack.specs.StackEntries.{IsCacheLevel, sets_of, first_entries, second_entries, FirstHasRoomFor, SecondHasRoomFor, forgotten};
ghost use Rattle.mem_stack.specs.StackStands.{StackStands};

use ecc_memory::EccMemory;
use poison_cache::Cache;
use poison_mem::{
    Bus, CacheState, Cell, CellState, EventLog, FlipBus, FlipMem, Held, LineMem, RecordId,
};
use ras_bits::NoMemory;
use std::alloc::Global;
use std::marker::Model;

/// The sets of the first cache.
pub const L1_SETS: usize = 16;

/// The most lines that a set of the first cache holds.
pub const L1_WAYS: usize = 2;

/// The sets of the second cache.
pub const L2_SETS: usize = 64;

/// The most lines that a set of the second cache holds.
pub const L2_WAYS: usize = 4;

/// The second cache, over the memory.
pub type L2 = Cache<EccMemory, L2_SETS, L2_WAYS>;

/// The first cache, over the second.
pub type L1 = Cache<L2, L1_SETS, L1_WAYS>;

/// Two caches over a memory.
///
/// Words are read and stored through the first cache, which logs to [`RecordId::L1`]. The second one logs to
/// [`RecordId::L2`], the memory to the two records of bank 0. Loads, flips, scrubs and cells that are set act on the memory
/// alone and leave the lines of both caches.
#[derive(Drop)]
pub struct Stack {
    l1: L1,
}

impl Model for Stack {
    ghost use Rattle.std.specs.Prelude.{◌≡◌, ◌%◌};
    ghost use Rattle.mem_stack.specs.Stack.{StackLines, stack_level, LogsToOwnRecords};

    ghost Value = { StackLines };

    ghost view = { λ s. s.l1 };

    ghost invariant = { λ s. (stack_level.words s.l1 % 8 ≡ 0) × LogsToOwnRecords s.l1 };
}

impl Stack {
    /// A stack over this many words, all zero, that holds no line. The one refusal is want of memory.
    ///
    /// The number of words is a multiple of 8, at least 8 and at most [`ras_bits::MOST_WORDS`].
    pub fn make(alloc: Global, words: u32) -> Result<Stack, NoMemory>
        requires lines { words % 8 ≡ 0 }
        requires some { 8 ≤ words }
        requires most { words ≤ MOST_WORDS }
        ensures empty { IfOk result (λ stack. stack ≡ loaded_stack (replicate words 0)) }

        // It stands for zeros, whatever flips are told of its words.
        ensures stands { IfOk result (λ stack. (q : ℕ → ℕ) → StackStands stack (λ _. 0) q) }
    {
        let memory = EccMemory::make(alloc, words)?;
        let l2 = L2::make(alloc, memory, RecordId::L2.bank(), RecordId::L2.record())?;
        let l1 = L1::make(alloc, l2, RecordId::L1.bank(), RecordId::L1.record())?;
        Ok(Stack { l1 })
    }

    /// The entry `k` of the list of a set of the first cache at level 1, of the second at level 2, counted from 0 and the
    /// most recently used first; `None` exactly where the list is shorter.
    pub fn held(&self, level: u8, set: u32, k: u32) -> Option<Held>
        requires level { IsCacheLevel level }
        requires set { set < sets_of level }
        ensures first { level ≡ 1 → result ≡ slice_get (first_entries.listed self.now set) k }
        ensures second { level ≡ 2 → result ≡ slice_get (second_entries.listed self.now.below set) k }
    {
        if level == 1 {
            self.l1.held(set, k)
        } else {
            self.l1.below_held(set, k)
        }
    }

    /// Empties all lists of both caches, and writes nothing back. What was stored and not yet written back is lost.
    pub fn forget_all(&mut self)
        ensures after { self.new ≡ forgotten self.old }

        // Its memory is that of a stack that holds no line.
        ensures fresh { self.new ≡ fresh_stack self.old.below.below }
        ensures words { stack_meaning.words self.new ≡ stack_meaning.words self.old }
    {
        self.l1.forget_all();
        self.l1.below_forget_all();
    }

    /// Appends an entry to the list of its set of the first cache at level 1, of the second at level 2. The line is in
    /// range and not held by that cache, and the set has a way left.
    pub fn place_last(&mut self, level: u8, h: &Held)
        requires level { IsCacheLevel level }
        requires first { level ≡ 1 → FirstHasRoomFor self.old h.now }
        requires second { level ≡ 2 → SecondHasRoomFor self.old h.now }
        ensures first { level ≡ 1 → self.new ≡ first_entries.place_last self.old h.now }
        ensures second { level ≡ 2 → self.new ≡ record self.old { below = second_entries.place_last self.old.below h.now } }
        ensures words { stack_meaning.words self.new ≡ stack_meaning.words self.old }
    {
        if level == 1 {
            self.l1.place_last(h);
        } else {
            self.l1.below_place_last(h);
        }
    }
}

impl Bus for Stack {
    ghost use Rattle.mem_stack.specs.Stack.{stack_meaning};
    ghost use Rattle.mem_stack.specs.StackLaws.{stack_keeps_words};

    ghost meaning = { stack_meaning };

    ghost keeps_words = { stack_keeps_words };

    fn words(&self) -> u32 {
        self.l1.words()
    }

    #[inline]
    fn read<G: EventLog>(&mut self, w: u32, g: &mut G) -> Cell {
        self.l1.read_word(w, g)
    }

    fn store<G: EventLog>(&mut self, w: u32, v: u64, mask: u8, g: &mut G) {
        self.l1.store(w, v, mask, g);
    }
}

impl FlipBus for Stack {
    ghost use Rattle.std.specs.Prelude.{◌<◌, ◌^◌, List, length, slice_index, slice_set};
    ghost use Rattle.mem_stack.specs.Stack.{stack_meaning, stack_flips, loaded_stack};
    ghost use Rattle.mem_stack.specs.StackStands.{StackStands};
    ghost use Rattle.mem_stack.specs.StackLaws.{stack_cells_keep_counts, stack_words_keep_counts, stack_faithful};

    ghost flips = { stack_flips };

    ghost stands = { StackStands };

    ghost cells_keep_counts = { stack_cells_keep_counts };

    ghost words_keep_counts = { stack_words_keep_counts };

    ghost faithful = { stack_faithful };

    /// Sets the word `w` of the memory.
    fn load(&mut self, w: u32, v: u64)
        requires { w < stack_meaning.words self.old }
        ensures after { self.new ≡ stack_flips.cells.load self.old w v }
        ensures words { stack_meaning.words self.new ≡ stack_meaning.words self.old }

        // A stack that holds no line is loaded with the word.
        ensures loaded { (words : List ℕ) → self.old ≡ loaded_stack words → self.new ≡ loaded_stack (slice_set words w v) }

        // It stands for the words that it was loaded with, whatever flips are told of them.
        ensures stands { (words : List ℕ) (q : ℕ → ℕ) → self.old ≡ loaded_stack words
            → ((k : ℕ) → k < length words → slice_index words k < 2 ^ 64)
            → StackStands self.new (slice_index (slice_set words w v)) q }
    {
        self.l1.load(w, v);
    }

    fn strike(&mut self, w: u32, bit: u8) -> bool {
        self.l1.strike(w, bit)
    }

    fn scrub<G: EventLog>(&mut self, w: u32, g: &mut G) {
        self.l1.scrub(w, g);
    }

    fn cell_state(&self, w: u32) -> CellState {
        self.l1.cell_state(w)
    }

    fn set_cell(&mut self, w: u32, s: &CellState) {
        self.l1.set_cell(w, s);
    }

    fn view(&self, w: u32) -> Cell {
        let line = self.l1.peek(w / 8);
        line.cell((w % 8) as u8)
    }
}
