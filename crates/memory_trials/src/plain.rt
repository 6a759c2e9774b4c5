//! A cache of two sets of three lines over eight lines, written again with plain lists.

ghost use Rattle.std.specs.Prelude.{◌<◌};

use crate::helpers::ZEROS;
use poison_mem::{Cell, Held, Line};
use std::alloc::Global;
use std::test::Fail;

/// A call on a cache.
#[derive(Clone, Copy)]
pub(crate) enum Call {
    ReadWord,
    ReadLine,
    Store,
    HalfStore,
    PutPoison,
    Peek,
    ForgetAll,
}

/// A random call, the line and the cell of it that it is for, and the value of a store.
#[derive(Clone, Copy)]
pub(crate) struct RandomCall {
    pub(crate) call: Call,
    pub(crate) line: u32,
    pub(crate) cell: u8,
    pub(crate) value: u64,
}

/// The call of a random number's bits 32 to 34. One in eight of the last ones forgets all.
fn call_of(random: u64) -> Call {
    match random >> 32 & 7 {
        0 => Call::ReadWord,
        1 | 2 => Call::ReadLine,
        3 => Call::Store,
        4 => Call::HalfStore,
        5 => Call::PutPoison,
        6 => Call::Peek,
        _ if random >> 40 & 7 > 0 => Call::ReadWord,
        _ => Call::ForgetAll,
    }
}

/// A cell after a store of its four low bytes.
fn half_stored(cell: Cell, value: u64) -> Cell {
    match cell {
        Cell::Good(old) => Cell::Good(old >> 32 << 32 | value & 0xFFFF_FFFF),
        Cell::Poison => Cell::Poison,
    }
}

impl RandomCall {
    /// The call of a random number.
    pub(crate) fn of(random: u64) -> RandomCall
        ensures line { result.line < 8 }
        ensures cell { result.cell < 8 }
    {
        RandomCall {
            call: call_of(random),
            line: (random % 8) as u32,
            cell: (random >> 8 & 7) as u8,
            value: random,
        }
    }

    /// Whether the call writes into its line.
    fn writes(&self) -> bool {
        matches!(self.call, Call::Store | Call::HalfStore | Call::PutPoison)
    }

    /// The cells of the call's line after it.
    pub(crate) fn written(&self, before: Line) -> Line
        requires { self.now.cell < 8 }
    {
        let mut cells = before;
        match self.call {
            Call::Store => cells.set(self.cell, Cell::Good(self.value)),
            Call::HalfStore => cells.set(self.cell, half_stored(cells.cell(self.cell), self.value)),
            Call::PutPoison => cells.set(self.cell, Cell::Poison),
            _ => (),
        }
        cells
    }
}

/// How many words of a line are poison.
fn poisoned(cells: &Line) -> usize {
    let cells = [
        cells.c0, cells.c1, cells.c2, cells.c3, cells.c4, cells.c5, cells.c6, cells.c7,
    ];
    cells.iter().filter(|cell| **cell == Cell::Poison).count()
}

/// What the sets of even and of odd lines hold, the most recently used first, and the lines below.
#[derive(Drop)]
pub(crate) struct Plain {
    pub(crate) even: Vec<Held>,
    pub(crate) odd: Vec<Held>,
    below: [Line; 8],
}

impl Plain {
    /// Nothing is held, and below are zeros.
    pub(crate) fn new(alloc: Global) -> Plain {
        Plain {
            even: Vec::new(alloc),
            odd: Vec::new(alloc),
            below: [ZEROS; 8],
        }
    }

    /// What the set of a line holds.
    fn list(&self, line: u32) -> &[Held] {
        if line % 2 == 0 {
            self.even.as_slice()
        } else {
            self.odd.as_slice()
        }
    }

    /// The list of a line's set, to be changed.
    fn list_mut(&mut self, line: u32) -> &mut Vec<Held> {
        if line % 2 == 0 {
            &mut self.even
        } else {
            &mut self.odd
        }
    }

    /// The cells of a line.
    pub(crate) fn cells(&self, line: u32) -> Line {
        match self.list(line).iter().find(|held| held.line == line) {
            Some(held) => held.cells,
            None => self.below[line as usize % 8],
        }
    }

    /// Takes a line's entry out of its list.
    fn take(&mut self, line: u32) -> Option<Held> {
        let list = self.list_mut(line);
        match list.iter().position(|held| held.line == line) {
            Some(k) if k < list.len() => Some(list.remove(k)),
            _ => None,
        }
    }

    /// Writes an entry back where it is dirty. Answers with how many events.
    fn evict(&mut self, held: &Held) -> usize {
        if !held.dirty {
            return 0;
        }
        self.below[held.line as usize % 8] = held.cells;
        poisoned(&held.cells)
    }

    /// Evicts the last entry of a line's list where that is full. Answers with how many events.
    fn make_room(&mut self, line: u32) -> usize {
        let list = self.list_mut(line);
        if list.len() < 3 {
            return 0;
        }
        match list.pop() {
            Some(victim) => self.evict(&victim),
            None => 0,
        }
    }

    /// The line of a call comes to the front of its list. Answers with how many events.
    fn renew(&mut self, call: &RandomCall) -> Result<usize, Fail>
        requires { call.now.cell < 8 }
    {
        let cells = call.written(self.cells(call.line));
        let (dirty, events) = match self.take(call.line) {
            Some(held) => (held.dirty, 0),
            None => (false, self.make_room(call.line)),
        };
        let renewed = Held {
            line: call.line,
            dirty: dirty || call.writes(),
            cells,
        };
        self.list_mut(call.line).insert(0, renewed)?;
        Ok(events)
    }

    /// Makes a call. Answers with how many events.
    pub(crate) fn make(&mut self, call: &RandomCall) -> Result<usize, Fail>
        requires { call.now.cell < 8 }
    {
        match call.call {
            Call::Peek => Ok(0),
            Call::ForgetAll => {
                self.even.clear();
                self.odd.clear();
                Ok(0)
            }
            _ => self.renew(call),
        }
    }
}
