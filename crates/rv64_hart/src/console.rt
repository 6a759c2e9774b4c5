//! The bytes that a program has written.

ghost use Rattle.std.specs.Prelude.{◌≡◌, ◌+◌, ◌≤◌, ◌++◌, [], length, IfOk, if◌then◌else◌};
ghost use Rattle.rv64_hart.specs.Outcome.{has_room};
ghost use Rattle.rv64_hart.specs.declared.console.TheConstants.{CONSOLE_ROOM};

use ras_bits::NoMemory;
use std::alloc::Global;
use std::marker::Model;

/// How many bytes a console takes.
pub const CONSOLE_ROOM: usize = 1_048_576;

/// The bytes that a program has written, in order, with room for 1,048,576 of them.
#[derive(Drop)]
pub struct Console {
    written: Vec<u8>,
}

impl Model for Console {
    ghost use Rattle.rv64_hart.specs.declared.console.TheConstants.{CONSOLE_ROOM};
    ghost use Rattle.std.specs.Prelude.{ℕ, List, ◌≤◌, vec_len, vec_capacity};

    ghost Value = { List ℕ };

    ghost view = { λ a. a.written.items };

    ghost invariant = { λ a. (CONSOLE_ROOM ≤ vec_capacity a.written) × (vec_len a.written ≤ CONSOLE_ROOM) };
}

impl Console {
    /// An empty console. All its room is taken here.
    ///
    /// `NoMemory` comes for want of memory alone.
    pub fn make(alloc: Global) -> Result<Console, NoMemory>
        ensures { IfOk result (λ console. console ≡ []) }
    {
        let written = Vec::with_capacity(alloc, CONSOLE_ROOM)?;
        Ok(Console { written })
    }

    /// The bytes written so far.
    pub fn bytes(&self) -> &[u8]
        ensures { result.now ≡ self.now }
    {
        self.written.as_slice()
    }

    /// How many bytes still fit.
    pub fn room(&self) -> usize
        ensures { result + length self.now ≡ CONSOLE_ROOM }
    {
        CONSOLE_ROOM - self.written.len()
    }

    /// Empties the console, which keeps its room.
    pub fn reset(&mut self)
        ensures { self.new ≡ [] }
    {
        self.written.clear();
    }

    /// Writes bytes behind the others. They fit.
    pub fn push(&mut self, b: &[u8])
        requires { length self.old + length b.now ≤ CONSOLE_ROOM }
        ensures { self.new ≡ self.old ++ b.now }
    {
        let _ = self.written.extend_from_slice(b);
    }

    /// Writes bytes behind the others. False, and nothing changes, exactly where they don't fit.
    pub(crate) fn write(&mut self, b: &[u8]) -> bool
        ensures fits { result ≡ has_room self.old b.now }
        ensures after { self.new ≡ (if has_room self.old b.now then self.old ++ b.now else self.old) }
    {
        if self.room() < b.len() {
            return false;
        }
        self.push(b);
        true
    }
}
