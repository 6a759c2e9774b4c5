//! A line of eight words.

ghost use Rattle.std.specs.Prelude.{◌≡◌, ◌<◌};
ghost use Rattle.poison_mem.specs.Line.{cell, with_cell};

use crate::cell::Cell;

/// The eight cells of a line, in the order of their words.
#[derive(Clone, Copy, Debug, PartialEq, Eq)]
pub struct Line {
    /// The cell of the line's first word.
    pub c0: Cell,
    /// The cell of its second word.
    pub c1: Cell,
    /// The cell of its third word.
    pub c2: Cell,
    /// The cell of its fourth word.
    pub c3: Cell,
    /// The cell of its fifth word.
    pub c4: Cell,
    /// The cell of its sixth word.
    pub c5: Cell,
    /// The cell of its seventh word.
    pub c6: Cell,
    /// The cell of its eighth word.
    pub c7: Cell,
}

impl Line {
    /// The cell of an index, 0 to 7.
    pub fn cell(&self, i: u8) -> Cell
        requires { i < 8 }
        ensures { result ≡ cell self.now i }
    {
        match i {
            0 => self.c0,
            1 => self.c1,
            2 => self.c2,
            3 => self.c3,
            4 => self.c4,
            5 => self.c5,
            6 => self.c6,
            _ => self.c7,
        }
    }

    /// Sets the cell of an index, 0 to 7.
    pub fn set(&mut self, i: u8, c: Cell)
        requires { i < 8 }
        ensures { self.new ≡ with_cell self.old i c }
    {
        match i {
            0 => self.c0 = c,
            1 => self.c1 = c,
            2 => self.c2 = c,
            3 => self.c3 = c,
            4 => self.c4 = c,
            5 => self.c5 = c,
            6 => self.c6 = c,
            _ => self.c7 = c,
        }
    }
}
