//! The entries of a cache, as a snapshot of it needs them.

ghost use Rattle.std.specs.Prelude.{◌≡◌, ◌<◌, ℕ, slice_get};
ghost use Rattle.poison_mem.specs.CacheState.{EntryCalls, HasRoomFor, KeepsEntries};

use crate::level::LineMem;
use crate::line::Line;

/// A line that a cache holds.
#[derive(Clone, Copy, Debug, PartialEq, Eq)]
pub struct Held {
    /// The number of the line.
    pub line: u32,
    /// Whether the line is to be written back.
    pub dirty: bool,
    /// The line's cells.
    pub cells: Line,
}

/// A write-back cache as the lists of what its sets hold, the most recent first. Line `l` is held in set `l` modulo the
/// number of sets. No call refuses or takes memory. No run makes the calls that change entries: `forget_all` loses what
/// was written.
pub trait CacheState: LineMem {
    /// The number of sets, at least 1.
    ghost sets: { ℕ };

    /// The most lines that a set holds.
    ghost ways: { ℕ };

    /// The lists of the sets, and what the calls leave.
    ghost entries: { EntryCalls Self };

    /// The entry `k` of the list of a set, counted from 0; `None` exactly where the list is shorter.
    fn held(&self, set: u32, k: u32) -> Option<Held>
        requires { set < sets }
        ensures { result ≡ slice_get (entries.listed self.now set) k };

    /// Empties all lists, and writes nothing back.
    fn forget_all(&mut self)
        ensures after { self.new ≡ entries.forget_all self.old }
        ensures words { Self.level.words self.new ≡ Self.level.words self.old };

    /// Appends an entry to the list of its set. The line is in range and not held, and the set has a way left.
    fn place_last(&mut self, h: &Held)
        requires { HasRoomFor sets ways Self.level entries self.old h.now }
        ensures after { self.new ≡ entries.place_last self.old h.now }
        ensures words { Self.level.words self.new ≡ Self.level.words self.old };

    /// The calls change the lists as they say, and neither the number of words nor what holds of every reachable state.
    ghost keeps_entries: { KeepsEntries sets ways Self.level Self.valid entries };
}
