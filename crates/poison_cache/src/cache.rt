//! The cache.

ghost use Rattle.std.specs.Prelude.{◌≡◌, ◌*◌, ◌<◌, ◌≤◌, ◌/◌, ◌%◌, ℕ, None, [], replicate, IfOk};
ghost use Rattle.poison_mem.specs.Flips.{stored_at, renewed_at};
ghost use Rattle.poison_mem.specs.Level.{InRange};
ghost use Rattle.poison_mem.specs.Line.{cell};
ghost use Rattle.poison_mem.specs.Bus.{logged_all};
ghost use Rattle.poison_cache.specs.declared.sets.TheConstants.{MOST_HELD};
ghost use Rattle.poison_cache.specs.Recent.{line_list, line_entry, with_line_list};
ghost use Rattle.poison_cache.specs.Cache.{AreInRange, get_as, get_in, put_in, store_in};

use crate::eviction::{LogTo, make_room};
use crate::sets::Sets;
use poison_mem::{Cell, CellState, EventLog, FlipMem, Line, LineMem, merge};
use ras_bits::NoMemory;
use std::alloc::Global;
use std::marker::Model;

/// Reads a line that isn't held from below, after room was made for it.
#[tactic(auto, using(crate::proofs::Logging::logged_both))]
fn fetch<M: LineMem, G: EventLog, const SETS: usize, const WAYS: usize>(
    log_to: LogTo,
    sets: &Sets<SETS, WAYS>,
    below: &mut M,
    l: u32,
    g: &mut G,
) -> Line
    requires range { AreInRange M.level below.old (line_list SETS sets.now l) }
    requires line { InRange M.level below.old l }
    ensures cells { result ≡
        (get_as None M.level log_to WAYS (line_list SETS sets.now l) below.old l).cells }
    ensures below { below.new ≡
        (get_as None M.level log_to WAYS (line_list SETS sets.now l) below.old l).below }
    ensures events { g.new ≡
        logged_all G.logged g.old
        (get_as None M.level log_to WAYS (line_list SETS sets.now l) below.old l).events }
    ensures words { M.level.words below.new ≡ M.level.words below.old }
{
    make_room(log_to, sets, below, l, g);
    below.read_line(l, g)
}

/// Reads a line that isn't held from below, and puts it in front of its set, clean.
fn fill<M: LineMem, G: EventLog, const SETS: usize, const WAYS: usize>(
    log_to: LogTo,
    sets: &mut Sets<SETS, WAYS>,
    below: &mut M,
    l: u32,
    g: &mut G,
) -> Line
    requires range { AreInRange M.level below.old (line_list SETS sets.old l) }
    requires line { InRange M.level below.old l }
    requires absent { line_entry SETS sets.old l ≡ None }
    ensures cells { result ≡
        (get_as None M.level log_to WAYS (line_list SETS sets.old l) below.old l).cells }
    ensures sets { sets.new ≡
        with_line_list SETS sets.old l
        (get_as None M.level log_to WAYS (line_list SETS sets.old l) below.old l).entries }
    ensures below { below.new ≡
        (get_as None M.level log_to WAYS (line_list SETS sets.old l) below.old l).below }
    ensures events { g.new ≡
        logged_all G.logged g.old
        (get_as None M.level log_to WAYS (line_list SETS sets.old l) below.old l).events }
    ensures words { M.level.words below.new ≡ M.level.words below.old }
{
    let cells = fetch(log_to, sets, below, l, g);
    sets.put_first(l, false, &cells);
    cells
}

/// What the set of a line and the level below it show for the line.
fn get_line<M: LineMem, G: EventLog, const SETS: usize, const WAYS: usize>(
    log_to: LogTo,
    sets: &mut Sets<SETS, WAYS>,
    below: &mut M,
    l: u32,
    g: &mut G,
) -> Line
    requires range { AreInRange M.level below.old (line_list SETS sets.old l) }
    requires line { InRange M.level below.old l }
    ensures cells { result ≡
        (get_in M.level log_to WAYS (line_list SETS sets.old l) below.old l).cells }
    ensures sets { sets.new ≡
        with_line_list SETS sets.old l
        (get_in M.level log_to WAYS (line_list SETS sets.old l) below.old l).entries }
    ensures below { below.new ≡
        (get_in M.level log_to WAYS (line_list SETS sets.old l) below.old l).below }
    ensures events { g.new ≡
        logged_all G.logged g.old
        (get_in M.level log_to WAYS (line_list SETS sets.old l) below.old l).events }
    ensures words { M.level.words below.new ≡ M.level.words below.old }
{
    match sets.read_cells(l) {
        Some(cells) => cells,
        None => fill(log_to, sets, below, l, g),
    }
}

/// One cell of a line that isn't held, which is read from below and put in front of its set, clean.
///
/// It stands apart, so that the way of a hit is short.
#[inline(never)]
fn fill_word<M: LineMem, G: EventLog, const SETS: usize, const WAYS: usize>(
    log_to: LogTo,
    sets: &mut Sets<SETS, WAYS>,
    below: &mut M,
    w: u32,
    g: &mut G,
) -> Cell
    requires range { AreInRange M.level below.old (line_list SETS sets.old (w / 8)) }
    requires line { InRange M.level below.old (w / 8) }
    requires absent { line_entry SETS sets.old (w / 8) ≡ None }
    ensures cell { result ≡
        cell
        (get_as None M.level log_to WAYS (line_list SETS sets.old (w / 8)) below.old (w / 8)).cells
        (w % 8) }
    ensures sets { sets.new ≡
        with_line_list SETS sets.old (w / 8)
        (get_as None M.level log_to WAYS (line_list SETS sets.old (w / 8)) below.old (w / 8)).entries }
    ensures below { below.new ≡
        (get_as None M.level log_to WAYS (line_list SETS sets.old (w / 8)) below.old (w / 8)).below }
    ensures events { g.new ≡
        logged_all G.logged g.old
        (get_as None M.level log_to WAYS (line_list SETS sets.old (w / 8)) below.old (w / 8)).events }
    ensures words { M.level.words below.new ≡ M.level.words below.old }
{
    fill(log_to, sets, below, w / 8, g).cell((w % 8) as u8)
}

/// One cell of what the set of its line and the level below show.
#[inline]
fn get_word<M: LineMem, G: EventLog, const SETS: usize, const WAYS: usize>(
    log_to: LogTo,
    sets: &mut Sets<SETS, WAYS>,
    below: &mut M,
    w: u32,
    g: &mut G,
) -> Cell
    requires range { AreInRange M.level below.old (line_list SETS sets.old (w / 8)) }
    requires line { InRange M.level below.old (w / 8) }
    ensures cell { result ≡
        cell
        (get_in M.level log_to WAYS (line_list SETS sets.old (w / 8)) below.old (w / 8)).cells
        (w % 8) }
    ensures sets { sets.new ≡
        with_line_list SETS sets.old (w / 8)
        (get_in M.level log_to WAYS (line_list SETS sets.old (w / 8)) below.old (w / 8)).entries }
    ensures below { below.new ≡
        (get_in M.level log_to WAYS (line_list SETS sets.old (w / 8)) below.old (w / 8)).below }
    ensures events { g.new ≡
        logged_all G.logged g.old
        (get_in M.level log_to WAYS (line_list SETS sets.old (w / 8)) below.old (w / 8)).events }
    ensures words { M.level.words below.new ≡ M.level.words below.old }
{
    match sets.read_cell(w / 8, (w % 8) as u8) {
        Some(cell) => cell,
        None => fill_word(log_to, sets, below, w, g),
    }
}

/// The cells are put in front of the line's set, dirty.
fn put_line<M: LineMem, G: EventLog, const SETS: usize, const WAYS: usize>(
    log_to: LogTo,
    sets: &mut Sets<SETS, WAYS>,
    below: &mut M,
    l: u32,
    cells: &Line,
    g: &mut G,
)
    requires range { AreInRange M.level below.old (line_list SETS sets.old l) }
    requires line { InRange M.level below.old l }
    ensures sets { sets.new ≡
        with_line_list SETS sets.old l
        (put_in M.level log_to WAYS (line_list SETS sets.old l) below.old l cells.now).entries }
    ensures below { below.new ≡
        (put_in M.level log_to WAYS (line_list SETS sets.old l) below.old l cells.now).below }
    ensures events { g.new ≡
        logged_all G.logged g.old
        (put_in M.level log_to WAYS (line_list SETS sets.old l) below.old l cells.now).events }
    ensures words { M.level.words below.new ≡ M.level.words below.old }
{
    if !sets.put_cells(l, cells) {
        make_room(log_to, sets, below, l, g);
        sets.put_first(l, true, cells);
    }
}

/// A word of a line that isn't held is stored: the line is read from below and put in front of its set, dirty.
///
/// It stands apart, so that the way of a hit is short.
#[inline(never)]
fn store_missed<M: LineMem, G: EventLog, const SETS: usize, const WAYS: usize>(
    log_to: LogTo,
    sets: &mut Sets<SETS, WAYS>,
    below: &mut M,
    w: u32,
    v: u64,
    mask: u8,
    g: &mut G,
)
    requires range { AreInRange M.level below.old (line_list SETS sets.old (w / 8)) }
    requires line { InRange M.level below.old (w / 8) }
    requires absent { line_entry SETS sets.old (w / 8) ≡ None }
    ensures sets { sets.new ≡
        with_line_list SETS sets.old (w / 8)
        (store_in M.level log_to WAYS (line_list SETS sets.old (w / 8)) below.old w v mask).entries }
    ensures below { below.new ≡
        (store_in M.level log_to WAYS (line_list SETS sets.old (w / 8)) below.old w v mask).below }
    ensures events { g.new ≡
        logged_all G.logged g.old
        (store_in M.level log_to WAYS (line_list SETS sets.old (w / 8)) below.old w v mask).events }
    ensures words { M.level.words below.new ≡ M.level.words below.old }
{
    let i = (w % 8) as u8;
    let mut cells = fetch(log_to, sets, below, w / 8, g);
    cells.set(i, merge(cells.cell(i), v, mask));
    sets.put_first(w / 8, true, &cells);
}

/// A word of a line is stored, and the line is dirty.
fn store_word<M: LineMem, G: EventLog, const SETS: usize, const WAYS: usize>(
    log_to: LogTo,
    sets: &mut Sets<SETS, WAYS>,
    below: &mut M,
    w: u32,
    v: u64,
    mask: u8,
    g: &mut G,
)
    requires range { AreInRange M.level below.old (line_list SETS sets.old (w / 8)) }
    requires line { InRange M.level below.old (w / 8) }
    ensures sets { sets.new ≡
        with_line_list SETS sets.old (w / 8)
        (store_in M.level log_to WAYS (line_list SETS sets.old (w / 8)) below.old w v mask).entries }
    ensures below { below.new ≡
        (store_in M.level log_to WAYS (line_list SETS sets.old (w / 8)) below.old w v mask).below }
    ensures events { g.new ≡
        logged_all G.logged g.old
        (store_in M.level log_to WAYS (line_list SETS sets.old (w / 8)) below.old w v mask).events }
    ensures words { M.level.words below.new ≡ M.level.words below.old }
{
    if !sets.store_cell(w / 8, (w % 8) as u8, v, mask) {
        store_missed(log_to, sets, below, w, v, mask, g);
    }
}

/// A write-back cache of lines over a level of memory.
///
/// Line `l` belongs to set `l % SETS`, which holds at most `WAYS` lines, the most recently used first. A read or a store
/// of a line that isn't held reads it from below, a put doesn't. A full set first evicts its last line: a dirty
/// victim is written back, after an event for each of its poisoned words in rising order; a clean one is forgotten.
/// The levels don't include one another. Flips and scrubs act on the memory at the bottom and leave the lines held here.
#[derive(Drop)]
pub struct Cache<M: LineMem, const SETS: usize, const WAYS: usize> {
    pub(crate) sets: Sets<SETS, WAYS>,
    pub(crate) below: M,
    log_to: LogTo,
}

impl<M: LineMem, const SETS: usize, const WAYS: usize> Model for Cache<M, SETS, WAYS> {
    ghost use Rattle.poison_cache.specs.Cache.{CachedLines};
    ghost use Rattle.poison_cache.specs.Standing.{CacheValid};

    ghost Value = { CachedLines M };

    ghost view = { λ c. record { lists = c.sets; log_to = c.log_to; below = c.below } };

    ghost invariant = { λ c. CacheValid SETS WAYS M.level M.valid (record { lists = c.sets; log_to = c.log_to; below = c.below }) };
}

impl<M: LineMem, const SETS: usize, const WAYS: usize> Cache<M, SETS, WAYS> {
    ghost use Rattle.poison_mem.specs.Line.{cell};
    ghost use Rattle.poison_cache.specs.Cache.{cache_get, cache_store};
    ghost use Rattle.poison_cache.specs.Standing.{CacheStands};

    /// A cache that holds no line. Its events go to this bank and this record of it.
    ///
    /// The one refusal is want of memory; the level below was dropped then.
    pub fn make(alloc: Global, below: M, bank: u8, rec: u8) -> Result<Self, NoMemory>
    where
        M: Drop,
        requires sets { 1 ≤ SETS }
        requires ways { 1 ≤ WAYS }
        requires most { SETS * WAYS ≤ MOST_HELD }
        ensures empty { IfOk result (λ c. c ≡
            record {
              lists = replicate SETS [];
              log_to = record { bank = bank; rec = rec };
              below = below;
            }) }

        // Each line stands for what it does below.
        ensures stands { IfOk result (λ c. (l : ℕ) (f q : ℕ → ℕ) → M.stands below l f q → CacheStands M.stands SETS c l f q) }
    {
        // The call's contract says that the level below is in a state that can be reached.
        let _words = below.words();
        Ok(Cache {
            sets: Sets::make(alloc)?,
            below,
            log_to: LogTo { bank, rec },
        })
    }

    /// Reads the word `w`: its cell of what `read_line` gives for its line, and all else as `read_line` leaves it.
    #[inline]
    pub fn read_word<G: EventLog>(&mut self, w: u32, g: &mut G) -> Cell
        requires { w < M.level.words self.old.below }
        ensures cell { result ≡ cell (cache_get SETS WAYS M.level self.old (w / 8)).cells (w % 8) }
        ensures after { self.new ≡ (cache_get SETS WAYS M.level self.old (w / 8)).after }
        ensures events { g.new ≡
            logged_all G.logged g.old (cache_get SETS WAYS M.level self.old (w / 8)).events }
        ensures words { M.level.words self.new.below ≡ M.level.words self.old.below }
    {
        let log_to = self.log_to;
        get_word(log_to, &mut self.sets, &mut self.below, w, g)
    }

    /// Stores the bytes of `v` whose bits are set in `mask` into the word `w`. Bit i stands for byte i.
    ///
    /// The line is read as by `read_line`, and is then written back when it is evicted. Under a mask other than 0xFF
    /// poison stays poison.
    pub fn store<G: EventLog>(&mut self, w: u32, v: u64, mask: u8, g: &mut G)
        requires { w < M.level.words self.old.below }
        ensures after { self.new ≡ (cache_store SETS WAYS M.level self.old w v mask).after }
        ensures events { g.new ≡
            logged_all G.logged g.old (cache_store SETS WAYS M.level self.old w v mask).events }
        ensures words { M.level.words self.new.below ≡ M.level.words self.old.below }

        // Each line that stands still does, for the words with the stored bytes.
        ensures kept { (k : ℕ) (f q : ℕ → ℕ) → CacheStands M.stands SETS self.old k f q
            → CacheStands M.stands SETS self.new k (stored_at f w v mask) (renewed_at q w mask) }
    {
        let log_to = self.log_to;
        store_word(log_to, &mut self.sets, &mut self.below, w, v, mask, g);
    }
}

impl<M: LineMem, const SETS: usize, const WAYS: usize> LineMem for Cache<M, SETS, WAYS> {
    ghost use Rattle.poison_cache.specs.Cache.{cache_level};
    ghost use Rattle.poison_cache.specs.WordsLaws.{cache_keeps_words};
    ghost use Rattle.poison_cache.specs.Standing.{CacheValid, CacheStands};
    ghost use Rattle.poison_cache.specs.StandingLaws.{cache_keeps_lines};

    ghost level = { cache_level SETS WAYS M.level };

    ghost valid = { CacheValid SETS WAYS M.level M.valid };

    ghost stands = { CacheStands M.stands SETS };

    ghost keeps_words = { cache_keeps_words M.level M.keeps_words SETS WAYS };

    ghost keeps_lines = { cache_keeps_lines M.level M.valid M.stands M.keeps_words M.keeps_lines SETS WAYS };

    fn words(&self) -> u32 {
        self.below.words()
    }

    fn read_line<G: EventLog>(&mut self, l: u32, g: &mut G) -> Line {
        let log_to = self.log_to;
        get_line(log_to, &mut self.sets, &mut self.below, l, g)
    }

    fn put_line<G: EventLog>(&mut self, l: u32, cells: &Line, g: &mut G) {
        let log_to = self.log_to;
        put_line(log_to, &mut self.sets, &mut self.below, l, cells, g);
    }

    fn peek(&self, l: u32) -> Line {
        match self.sets.cells(l) {
            Some(cells) => cells,
            None => self.below.peek(l),
        }
    }
}

impl<M: FlipMem, const SETS: usize, const WAYS: usize> FlipMem for Cache<M, SETS, WAYS> {
    ghost use Rattle.poison_cache.specs.Cache.{cache_calls};
    ghost use Rattle.poison_cache.specs.StandingLaws.{cache_cells_keep_lines};
    ghost use Rattle.poison_cache.specs.CountsLaws.{cache_cells_keep_counts, cache_lines_keep_counts};

    ghost calls = { cache_calls M.calls };

    ghost cells_keep_counts = { cache_cells_keep_counts M.level M.calls M.cells_keep_counts SETS WAYS };

    ghost lines_keep_counts = { cache_lines_keep_counts M.level M.calls M.lines_keep_counts SETS WAYS };

    ghost cells_keep_lines = { cache_cells_keep_lines M.level M.calls M.valid M.stands M.cells_keep_counts M.keeps_lines M.cells_keep_lines SETS WAYS };

    fn load(&mut self, w: u32, v: u64) {
        self.below.load(w, v);
    }

    fn strike(&mut self, w: u32, bit: u8) -> bool {
        self.below.strike(w, bit)
    }

    fn scrub<G: EventLog>(&mut self, w: u32, g: &mut G) {
        self.below.scrub(w, g);
    }

    fn cell_state(&self, w: u32) -> CellState {
        self.below.cell_state(w)
    }

    fn set_cell(&mut self, w: u32, s: &CellState) {
        self.below.set_cell(w, s);
    }
}
