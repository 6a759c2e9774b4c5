//! The words of a line, in rising order.

ghost use Rattle.std.specs.Prelude.{◌≡◌, ◌<◌, ◌≤◌, ◌+◌, ◌*◌, length, slice_set};
ghost use Rattle.poison_mem.specs.Bus.{logged_all};
ghost use Rattle.poison_mem.specs.declared.record_id.RecordId.TheVariants.{Read};
ghost use Rattle.ras_bits.specs.declared.map.TheConstants.{MOST_WORDS};
ghost use Rattle.ecc_memory.specs.Word.{word_read, word_put};
ghost use Rattle.ecc_memory.specs.Memory.{cell_at};
ghost use Rattle.ecc_memory.specs.Lines.{shown_at, shown_line, after_reads, read_events, after_puts};

use crate::word::{log_event, put, read};
use crate::words::Words;
use poison_mem::{Cell, EventLog, Line, RecordId};

/// A line before its first word was read.
const UNREAD: Line = Line {
    c0: Cell::Poison,
    c1: Cell::Poison,
    c2: Cell::Poison,
    c3: Cell::Poison,
    c4: Cell::Poison,
    c5: Cell::Poison,
    c6: Cell::Poison,
    c7: Cell::Poison,
};

/// Reads word `w` of the memory.
pub(crate) fn read_at<G: EventLog>(cells: &mut Words, w: u32, g: &mut G) -> Cell
    requires { w < length cells.old }
    ensures cell { result ≡ (word_read Read w (cell_at cells.old w)).cell }
    ensures after { cells.new ≡ slice_set cells.old w (word_read Read w (cell_at cells.old w)).after }
    ensures events { g.new ≡ logged_all G.logged g.old (word_read Read w (cell_at cells.old w)).events }
{
    let seen = read(RecordId::Read, w, cells.get(w));
    cells.set(w, seen.after);
    log_event(seen.event, g);
    seen.cell
}

/// Reads the words of line `l`.
#[tactic(auto, using(crate::proofs::LineSteps::none_read, crate::proofs::LineSteps::none_logged))]
pub(crate) fn read_words<G: EventLog>(cells: &mut Words, l: u32, g: &mut G) -> Line
    requires range { 8 * l + 7 < length cells.old }
    requires most { length cells.old ≤ MOST_WORDS }
    ensures cells { result ≡ shown_line cells.old l }
    ensures after { cells.new ≡ after_reads cells.old l 8 }
    ensures events { g.new ≡ logged_all G.logged g.old (read_events cells.old l 8) }
    ensures length { length cells.new ≡ length cells.old }
{
    let mut line = UNREAD;
    for i in 0..8u8 {
        let cell = read_at(cells, 8 * l + i as u32, g);
        line.set(i, cell);
    }
    line
}

/// Puts a cell into word `w` of the memory.
pub(crate) fn put_at(cells: &mut Words, w: u32, cell: Cell)
    requires { w < length cells.old }
    ensures { cells.new ≡ slice_set cells.old w (word_put cell (cell_at cells.old w)) }
{
    cells.set(w, put(cell, cells.get(w)));
}

/// Puts the cells of line `l`.
#[tactic(auto, using(crate::proofs::LineSteps::none_put))]
pub(crate) fn put_words(cells: &mut Words, l: u32, line: &Line)
    requires range { 8 * l + 7 < length cells.old }
    requires most { length cells.old ≤ MOST_WORDS }
    ensures after { cells.new ≡ after_puts cells.old l line.now 8 }
    ensures length { length cells.new ≡ length cells.old }
{
    for i in 0..8u8 {
        put_at(cells, 8 * l + i as u32, line.cell(i));
    }
}

/// What a read of word `w` would show.
fn shown(cells: &Words, w: u32) -> Cell
    requires { w < length cells.now }
    ensures { result ≡ shown_at cells.now w }
{
    read(RecordId::Read, w, cells.get(w)).cell
}

/// What reads of the words of line `l` would show.
pub(crate) fn shown_words(cells: &Words, l: u32) -> Line
    requires range { 8 * l + 7 < length cells.now }
    requires most { length cells.now ≤ MOST_WORDS }
    ensures { result ≡ shown_line cells.now l }
{
    let first = 8 * l;
    Line {
        c0: shown(cells, first),
        c1: shown(cells, first + 1),
        c2: shown(cells, first + 2),
        c3: shown(cells, first + 3),
        c4: shown(cells, first + 4),
        c5: shown(cells, first + 5),
        c6: shown(cells, first + 6),
        c7: shown(cells, first + 7),
    }
}
