//! What several trials need.

use poison_mem::{Cell, Event, Line};

/// A line of zeros but for its first two words.
pub(crate) fn line_of(first: Cell, second: Cell) -> Line {
    Line {
        c0: first,
        c1: second,
        ..ZEROS
    }
}

/// A line of zeros.
pub(crate) const ZEROS: Line = Line {
    c0: Cell::Good(0),
    c1: Cell::Good(0),
    c2: Cell::Good(0),
    c3: Cell::Good(0),
    c4: Cell::Good(0),
    c5: Cell::Good(0),
    c6: Cell::Good(0),
    c7: Cell::Good(0),
};

/// Where an event was logged, its code, the word's address, and what it tells of it.
pub(crate) fn told(event: Event) -> (u8, u8, u8, bool, u64, u64) {
    (
        event.bank,
        event.rec,
        event.code,
        event.scrub,
        event.addr,
        event.info,
    )
}
