//! The rules of one word.

ghost use Rattle.std.specs.Prelude.{◌≡◌, ◌<◌, ◌≤◌, ◌/◌, ◌%◌, ◌^◌};
ghost use Rattle.std.specs.Option.{option_to_list};
ghost use Rattle.poison_mem.specs.Bus.{logged_all};
ghost use Rattle.hsiao_code.specs.Code.{code_bits, flip};
ghost use Rattle.poison_mem.specs.Cells.{is_third};
ghost use Rattle.ecc_memory.specs.Word.{event_of_word, corrected_event, codeword_of, word_read, word_put, word_struck, word_scrubbed};

use hsiao_code::{Decoded, check_of, read_code};
use poison_mem::{Cell, CellState, Event, EventKind, EventLog, RecordId};
use ras_bits::word_address;

/// What a read of a word shows, and what it leaves.
#[derive(Drop)]
pub(crate) struct Seen {
    pub(crate) cell: Cell,
    pub(crate) after: CellState,
    pub(crate) event: Option<Event>,
}

/// An event of word `w` for a record.
fn event_at(kind: EventKind, id: RecordId, w: u32) -> Event
    ensures { result ≡ event_of_word kind id w }
{
    Event::new(kind, id.bank(), id.record(), word_address(w))
}

/// The event of a corrected word.
fn corrected(id: RecordId, w: u32, bit: u8) -> Event
    ensures { result ≡ corrected_event id w bit }
{
    Event {
        info: u64::from(bit),
        ..event_at(EventKind::CorrectedWord, id, w)
    }
}

/// Reads word `w`, with its event for a record. A marked word is poison, a corrected one stays as it is, and a bad one is
/// marked.
#[tactic(auto, unfolding(crate::specs::Word::word_read))]
pub(crate) fn read(id: RecordId, w: u32, word: CellState) -> Seen
    ensures cell { result.cell ≡ (word_read id w word).cell }
    ensures after { result.after ≡ (word_read id w word).after }
    ensures events { option_to_list result.event ≡ (word_read id w word).events }
    ensures counted { result.after.count ≡ word.count }
{
    let (cell, mark, event) = if word.mark {
        (Cell::Poison, true, None)
    } else {
        match read_code(word.value, word.check) {
            Decoded::Clean(v) => (Cell::Good(v), false, None),
            Decoded::Fixed(v, bit) => (Cell::Good(v), false, Some(corrected(id, w, bit))),
            Decoded::Bad => (
                Cell::Poison,
                true,
                Some(event_at(EventKind::BadWord, id, w)),
            ),
        }
    };
    Seen {
        cell,
        after: CellState { mark, ..word },
        event,
    }
}

/// The codeword of a value, unmarked, with no flips counted.
pub(crate) fn make(v: u64) -> CellState
    ensures { result ≡ codeword_of v }
{
    CellState {
        value: v,
        check: check_of(v),
        mark: false,
        count: 0,
    }
}

/// A word after a cell is put: a good one makes a new codeword, poison sets the mark.
pub(crate) fn put(cell: Cell, word: CellState) -> CellState
    ensures { result ≡ word_put cell word }
{
    match cell {
        Cell::Good(v) => make(v),
        Cell::Poison => CellState {
            mark: true,
            count: 0,
            ..word
        },
    }
}

/// The data and check bits with one of the 72 bits flipped.
#[tactic(auto, using(crate::proofs::Flips::flip_in_data, crate::proofs::Flips::data_flip_keeps_check, crate::proofs::Flips::check_flip_keeps_data, crate::proofs::Flips::flip_in_check))]
fn flip(bit: u8, value: u64, check: u8) -> (u64, u8)
    requires { bit < 72 }
    ensures data_bits { result.0 ≡ flip (code_bits value check) bit % 2 ^ 64 }
    ensures check_bits { result.1 ≡ flip (code_bits value check) bit / 2 ^ 64 }
{
    if bit < 64 {
        (value ^ (1 << bit), check)
    } else {
        (value, check ^ (1 << (bit - 64)))
    }
}

/// A word after a flip of one of its 72 bits: it is counted where the word isn't marked, up to 3.
#[tactic(auto, unfolding(crate::specs::Word::word_struck))]
pub(crate) fn strike(bit: u8, word: CellState) -> CellState
    requires { bit < 72 }
    ensures after { result ≡ word_struck bit word }
    ensures counted { word.count ≤ 3 → result.count ≤ 3 }
{
    let (value, check) = flip(bit, word.value, word.check);
    let count = if word.mark {
        word.count
    } else {
        word.count.min(2) + 1
    };
    CellState {
        value,
        check,
        mark: word.mark,
        count,
    }
}

/// Scrubs word `w`: it is read, with its event for the record of scrubs, and put again where it is good.
pub(crate) fn scrub(w: u32, word: CellState) -> Seen
    ensures after { result.after ≡ (word_scrubbed w word).after }
    ensures events { option_to_list result.event ≡ (word_scrubbed w word).events }
    ensures counted { result.after.count ≤ word.count }
{
    let seen = read(RecordId::Scrub, w, word);
    Seen {
        after: match seen.cell {
            Cell::Good(_) => put(seen.cell, seen.after),
            Cell::Poison => seen.after,
        },
        ..seen
    }
}

/// Whether one more flip of a word is a third one: it counts two, and isn't marked.
pub(crate) fn is_third(word: CellState) -> bool
    ensures { result ≡ is_third word }
{
    word.count == 2 && !word.mark
}

/// Logs the event of a read, where there is one.
pub(crate) fn log_event<G: EventLog>(event: Option<Event>, g: &mut G)
    ensures { g.new ≡ logged_all G.logged g.old (option_to_list event) }
{
    match event {
        Some(e) => g.log(e),
        None => {}
    }
}
