//! The sets of a cache, in flat arrays.

ghost use Rattle.std.specs.Prelude.{◌≡◌, ◌+◌, ◌<◌, ◌≤◌, ◌*◌, ◌%◌, ℕ, List, [], ◌∷◌, ◌++◌, length, replicate, slice_get, slice_index_or, None, IfOk};
ghost use Rattle.std.specs.Option.{option_map, is_some};
ghost use Rattle.poison_mem.specs.Line.{cell};
ghost use Rattle.poison_cache.specs.declared.sets.TheConstants.{MOST_HELD};
ghost use Rattle.poison_cache.specs.Ranks.{AreNewRanks};
ghost use Rattle.poison_cache.specs.Sets.{entry_in};
ghost use Rattle.poison_cache.specs.Recent.{line_list, line_entry, with_line_list, renewed_in, with_cells, stored_into, dirty_victim_of, with_room};

use crate::ways::{Flag, empty_all, empty_way, last_way, promote, way_of_line, way_of_rank};
use poison_mem::{Cell, Held, Line, merge};
use ras_bits::NoMemory;
use std::alloc::Global;
use std::marker::Model;

/// The most lines that a cache can hold.
pub const MOST_HELD: usize = 65_536;

/// The cells of a way that holds no line yet.
const NO_CELLS: Line = Line {
    c0: Cell::Poison,
    c1: Cell::Poison,
    c2: Cell::Poison,
    c3: Cell::Poison,
    c4: Cell::Poison,
    c5: Cell::Poison,
    c6: Cell::Poison,
    c7: Cell::Poison,
};

/// The ways of all sets: way `w` of a set stands at `set * WAYS + w` of each array. Line `l` belongs to the set `l % SETS`.
///
/// The ways of a set have the ranks 0 up, each once: 0 is the most recently used, and those that hold a line have the
/// lowest.
#[derive(Drop)]
pub(crate) struct Sets<const SETS: usize, const WAYS: usize> {
    lines: Vec<u32>,
    flags: Vec<Flag>,
    ranks: Vec<u16>,
    cells: Vec<Line>,
}

impl<const SETS: usize, const WAYS: usize> Model for Sets<SETS, WAYS> {
    ghost use Rattle.std.specs.Prelude.{List};
    ghost use Rattle.poison_mem.specs.declared.cache_state.Held.{Held};
    ghost use Rattle.poison_cache.specs.Sets.{AreSets, lists_of};

    ghost Value = { List (List Held) };

    ghost view = { λ s. lists_of SETS WAYS (record { lines = s.lines.items; flags = s.flags.items; ranks = s.ranks.items; cells = s.cells.items }) };

    ghost invariant = { λ s. AreSets SETS WAYS (record { lines = s.lines.items; flags = s.flags.items; ranks = s.ranks.items; cells = s.cells.items }) };
}

/// The first way of the set of a line.
#[inline]
fn first_way(sets: usize, ways: usize, line: u32) -> usize
    requires some { 1 ≤ sets }
    requires most { sets * ways ≤ MOST_HELD }
    ensures first { result ≡ line % sets * ways }
    ensures inside { result + ways ≤ sets * ways }
{
    line as usize % sets * ways
}

/// What a way holds.
fn held_at(lines: &[u32], flags: &[Flag], cells: &[Line], way: usize) -> Option<Held>
    requires lines { way < length lines.now }
    requires flags { way < length flags.now }
    requires cells { way < length cells.now }
    ensures { (ranks : List ℕ) → result ≡
        entry_in (record { lines = lines.now; flags = flags.now; ranks = ranks; cells = cells.now })
        way }
{
    let line = lines[way];
    let cells = cells[way];
    match flags[way] {
        Flag::Empty => None,
        Flag::Clean => Some(Held {
            line,
            dirty: false,
            cells,
        }),
        Flag::Dirty => Some(Held {
            line,
            dirty: true,
            cells,
        }),
    }
}

/// The ranks of the ways of all sets, where none was used yet.
fn new_ranks(alloc: Global, all: usize, ways: usize) -> Result<Vec<u16>, NoMemory>
    requires some { 1 ≤ ways }
    requires most { ways ≤ MOST_HELD }
    ensures { IfOk result (λ ranks. AreNewRanks all ways ranks.items) }
{
    let mut ranks = vec![in alloc; 0u16; all]?;
    for way in 0..all {
        ranks[way] = (way % ways) as u16;
    }
    Ok(ranks)
}

impl<const SETS: usize, const WAYS: usize> Sets<SETS, WAYS> {
    /// Sets that hold no line.
    pub(crate) fn make(alloc: Global) -> Result<Self, NoMemory>
        requires sets { 1 ≤ SETS }
        requires ways { 1 ≤ WAYS }
        requires most { SETS * WAYS ≤ MOST_HELD }
        ensures { IfOk result (λ s. s ≡ replicate SETS []) }
    {
        let lines = vec![in alloc; 0u32; SETS * WAYS]?;
        let flags = vec![in alloc; Flag::Empty; SETS * WAYS]?;
        let ranks = new_ranks(alloc, SETS * WAYS, WAYS)?;
        let cells = vec![in alloc; NO_CELLS; SETS * WAYS]?;
        Ok(Sets {
            lines,
            flags,
            ranks,
            cells,
        })
    }

    /// The cells of a line.
    pub(crate) fn cells(&self, l: u32) -> Option<Line>
        ensures { result ≡ option_map (λ h. h.cells) (line_entry SETS self.now l) }
    {
        let lines = &self.lines;
        let first = first_way(SETS, WAYS, l);
        match way_of_line(lines, &self.flags, first, WAYS, l) {
            Some(way) => Some(self.cells[way]),
            None => None,
        }
    }

    /// The cells of a line, which is the most recent of its set then.
    pub(crate) fn read_cells(&mut self, l: u32) -> Option<Line>
        ensures cells { result ≡ option_map (λ h. h.cells) (line_entry SETS self.old l) }
        ensures after { self.new ≡ renewed_in SETS self.old l (λ h. h) }
    {
        let lines = &self.lines;
        let first = first_way(SETS, WAYS, l);
        match way_of_line(lines, &self.flags, first, WAYS, l) {
            Some(way) => {
                promote(&mut self.ranks, first, WAYS, way);
                Some(self.cells[way])
            }
            None => None,
        }
    }

    /// One cell of a line, which is the most recent of its set then.
    #[inline]
    pub(crate) fn read_cell(&mut self, l: u32, i: u8) -> Option<Cell>
        requires { i < 8 }
        ensures cell { result ≡ option_map (λ h. cell h.cells i) (line_entry SETS self.old l) }
        ensures after { self.new ≡ renewed_in SETS self.old l (λ h. h) }
    {
        let lines = &self.lines;
        let first = first_way(SETS, WAYS, l);
        match way_of_line(lines, &self.flags, first, WAYS, l) {
            Some(way) => {
                promote(&mut self.ranks, first, WAYS, way);
                let cells = &self.cells[way];
                Some(cells.cell(i))
            }
            None => None,
        }
    }

    /// Sets the cells of a line, which is the most recent of its set then, and dirty. Answers whether it is held.
    pub(crate) fn put_cells(&mut self, l: u32, cells: &Line) -> bool
        ensures held { result ≡ is_some (line_entry SETS self.old l) }
        ensures after { self.new ≡ renewed_in SETS self.old l (λ h. with_cells h cells.now) }
    {
        let lines = &self.lines;
        let first = first_way(SETS, WAYS, l);
        match way_of_line(lines, &self.flags, first, WAYS, l) {
            Some(way) => {
                promote(&mut self.ranks, first, WAYS, way);
                self.flags[way] = Flag::Dirty;
                self.cells[way] = *cells;
                true
            }
            None => false,
        }
    }

    /// Stores into a cell of a line, which is the most recent of its set then, and dirty. Answers whether it is held.
    pub(crate) fn store_cell(&mut self, l: u32, i: u8, v: u64, mask: u8) -> bool
        requires { i < 8 }
        ensures held { result ≡ is_some (line_entry SETS self.old l) }
        ensures after { self.new ≡ renewed_in SETS self.old l (stored_into i v mask) }
    {
        let lines = &self.lines;
        let first = first_way(SETS, WAYS, l);
        match way_of_line(lines, &self.flags, first, WAYS, l) {
            Some(way) => {
                promote(&mut self.ranks, first, WAYS, way);
                self.flags[way] = Flag::Dirty;
                let cells = &mut self.cells[way];
                cells.set(i, merge(cells.cell(i), v, mask));
                true
            }
            None => false,
        }
    }

    /// Whether a line's set has no room for another entry and its last one is dirty.
    pub(crate) fn has_dirty_victim(&self, l: u32) -> bool
        ensures { result ≡ is_some (dirty_victim_of WAYS (line_list SETS self.now l)) }
    {
        let ranks = &self.ranks;
        let first = first_way(SETS, WAYS, l);
        let way = last_way(ranks, first, WAYS);
        match self.flags[way] {
            Flag::Empty | Flag::Clean => false,
            Flag::Dirty => true,
        }
    }

    /// The last entry of a line's set, where there is no room for another one and it is dirty.
    pub(crate) fn dirty_victim(&self, l: u32) -> Option<Held>
        ensures { result ≡ dirty_victim_of WAYS (line_list SETS self.now l) }
    {
        let ranks = &self.ranks;
        let first = first_way(SETS, WAYS, l);
        let way = last_way(ranks, first, WAYS);
        match self.flags[way] {
            Flag::Empty | Flag::Clean => None,
            Flag::Dirty => Some(Held {
                line: self.lines[way],
                dirty: true,
                cells: self.cells[way],
            }),
        }
    }

    /// Puts an entry in front of its set, in place of the last one where there is no room for both.
    pub(crate) fn put_first(&mut self, line: u32, dirty: bool, cells: &Line)
        requires { line_entry SETS self.old line ≡ None }
        ensures { self.new ≡
            with_line_list SETS self.old line
            (record { line = line; dirty = dirty; cells = cells.now } ∷ with_room WAYS (line_list SETS self.old line)) }
    {
        let ranks = &self.ranks;
        let first = first_way(SETS, WAYS, line);
        let way = last_way(ranks, first, WAYS);
        promote(&mut self.ranks, first, WAYS, way);
        self.lines[way] = line;
        self.flags[way] = Flag::held(dirty);
        self.cells[way] = *cells;
    }

    /// The entry `k` of the list of a set, counted from 0.
    pub(crate) fn held(&self, set: u32, k: u32) -> Option<Held>
        requires { set < SETS }
        ensures { result ≡ slice_get (slice_index_or self.now set []) k }
    {
        let ranks = &self.ranks;
        if k as usize >= WAYS {
            return None;
        }
        let way = way_of_rank(ranks, set as usize * WAYS, WAYS, k as u16);
        held_at(&self.lines, &self.flags, &self.cells, way)
    }

    /// Empties all lists.
    pub(crate) fn forget_all(&mut self)
        ensures { self.new ≡ replicate SETS [] }
    {
        empty_all(&mut self.flags);
    }

    /// Appends an entry to the list of its set.
    pub(crate) fn place_last(&mut self, held: &Held)
        requires absent { line_entry SETS self.old held.now.line ≡ None }
        requires room { length (line_list SETS self.old held.now.line) < WAYS }
        ensures { self.new ≡
            with_line_list SETS self.old held.now.line
            (line_list SETS self.old held.now.line ++ held.now ∷ []) }
    {
        let ranks = &self.ranks;
        let first = first_way(SETS, WAYS, held.line);
        let way = empty_way(ranks, &self.flags, first, WAYS);
        self.lines[way] = held.line;
        self.flags[way] = Flag::held(held.dirty);
        self.cells[way] = held.cells;
    }
}
