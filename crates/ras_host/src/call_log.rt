//! The calls that were made on a host in memory.

ghost use Rattle.std.specs.Prelude.{◌≡◌, ℕ, ◌+◌, ◌≤◌, ◌<◌, [], ◌∷◌, IfOk, length, vec_capacity, vec_len};
ghost use Rattle.ras_host.specs.Names.{names_len};

use crate::buffer::append;
use arrayvec::ArrayVec;
use std::alloc::{AllocError, Global};

/// Which call of a host was made.
#[derive(Clone, Copy, Debug, Default, PartialEq, Eq)]
pub enum CallKind {
    #[default]
    Read,
    Create,
    Out,
    Err,
}

/// A call of which the log keeps the name elsewhere.
#[derive(Clone, Copy, Debug, Default)]
pub struct MadeCall {
    pub kind: CallKind,
    pub name_len: usize,
    pub limit: u64,
}

/// The first 64 calls whose names fit a buffer of `room` bytes, and the number of all.
#[derive(Drop)]
pub struct CallLog {
    pub made: ArrayVec<MadeCall, 64>,
    pub names: Vec<u8>,
    pub room: usize,
    pub count: u64,
    ghost counted: { length made.items ≤ count },
    ghost few: { length made.items ≤ 64 },
    ghost named: { names_len made.items ≡ length names.items },
    ghost fits: { vec_len names ≤ room },
    ghost reserved: { room ≤ vec_capacity names },
}

impl CallLog {
    ghost use Rattle.ras_host.specs.Calls.{told_calls, noted};

    /// A log of no call, with room for so many bytes of names.
    pub fn make(alloc: Global, room: usize) -> Result<CallLog, AllocError>
        ensures told { IfOk result (λ log. told_calls log ≡ record { kept = []; total = 0 }) }
        ensures room { IfOk result (λ log. log.room ≡ room) }
    {
        let names = Vec::with_capacity(alloc, room)?;
        Ok(CallLog {
            made: ArrayVec::new(),
            names,
            room,
            count: 0,
        })
    }

    /// Notes a call.
    pub fn note(&mut self, kind: CallKind, name: &str, limit: u64)
        ensures told { told_calls self.new ≡ noted self.old.room (told_calls self.old) (record { kind = kind; name = name.now; limit = limit }) }
        ensures room { self.new.room ≡ self.old.room }
    {
        self.count = self.count.saturating_add(1);
        if self.made.is_full() {
            return;
        }
        if name.len() > self.room - self.names.len() {
            return;
        }
        append(&mut self.names, name.as_bytes());
        let call = MadeCall {
            kind,
            name_len: name.len(),
            limit,
        };
        self.made.push(call);
    }
}
