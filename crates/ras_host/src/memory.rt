//! A host in memory that can be told to fail.

ghost use Rattle.std.specs.Prelude.{◌≡◌, ◌≢◌, ◌+◌, ◌-◌, ◌^◌, ◌≤◌, ◌<◌, ◌↔◌, ◌⊎◌, ◌++◌, ℕ, [], ◌∷◌, take, length, IfOk, OnOk, OnErr, IsOk, IsErr, IfSome, IsTrue, Some, None, cond, not, is_ok, option_map};
ghost use Rattle.ras_host.specs.Causes.{Rose};
ghost use Rattle.ras_host.specs.Memory.{MemoryState, told_memory, fresh, begun, failed, is_set_to_fail, read_fails, write_fails, after_read, after_out, after_err, after_create, whole, IsMade};
ghost use Rattle.ras_host.specs.Reads.{Gets, FitsIn};
ghost use Rattle.ras_host.specs.Stored.{with_file};
ghost use Rattle.ras_host.specs.Told.{Performs, Read, Create, MissCreate, Out, Err as ErrAction, Appended, bytes_of, created_of};

use crate::buffer::append;
use crate::call_log::{CallKind, CallLog};
use crate::created::CreatedFiles;
use crate::outside::{Got, Host, HostError, HostFault};
use crate::stored::{StoredFile, contents, within};
use ras_bits::NoMemory;
use std::alloc::Global;
use std::marker::Model;

/// A host in memory, which tells everything.
///
/// A call fails exactly where its number was given to `fail_at`, where it reads a missing file, or
/// where it would bring the bytes of all writes, with the names of created files, above `room`.
#[derive(Drop)]
pub struct MemoryHost {
    alloc: Global,
    files: Vec<StoredFile>,
    out: Vec<u8>,
    err: Vec<u8>,
    created: CreatedFiles,
    log: CallLog,
    failing: Vec<u64>,
    room: usize,
    used: usize,
    faults: u64,
}

impl Model for MemoryHost {
    ghost use Rattle.std.specs.Prelude.{map};
    ghost use Rattle.ras_host.specs.Memory.{MemoryState};

    ghost Value = { MemoryState };

    ghost use Rattle.ras_host.specs.Held.{IsHeld};
    ghost use Rattle.ras_host.specs.MemoryHost.{state_of};

    ghost view = { state_of };

    ghost invariant = { λ h. IsHeld h.room h.used h.out h.err h.created h.log };
}

impl MemoryHost {
    /// A host with no files, on which no call was made, with room for so many bytes of all writes.
    pub fn make(alloc: Global, room: usize) -> Result<MemoryHost, NoMemory>
        ensures { IfOk result (λ host. host ≡ fresh room) }
    {
        let out = Vec::with_capacity(alloc, room)?;
        let err = Vec::with_capacity(alloc, room)?;
        let created = CreatedFiles::make(alloc, room)?;
        let log = CallLog::make(alloc, room)?;
        Ok(MemoryHost {
            alloc,
            files: Vec::new(alloc),
            out,
            err,
            created,
            log,
            failing: Vec::new(alloc),
            room,
            used: 0,
            faults: 0,
        })
    }

    /// Adds a file, in place of an earlier one of that name.
    pub fn add_file(&mut self, name: &str, bytes: &[u8]) -> Result<(), NoMemory>
        ensures ok { OnOk result (self.new ≡ record self.old { files = with_file self.old.files name.now bytes.now }) }
        ensures err { OnErr result (self.new ≡ self.old) }
    {
        let name = String::from_str(self.alloc, name)?;
        let bytes = Vec::from_slice(self.alloc, bytes)?;
        self.files.insert(0, StoredFile { name, bytes })?;
        Ok(())
    }

    /// Lets the trait call of this number fail, counted from 0.
    pub fn fail_at(&mut self, call: u64) -> Result<(), NoMemory>
        ensures ok { OnOk result (self.new ≡ record self.old { failing = self.old.failing ++ call ∷ [] }) }
        ensures err { OnErr result (self.new ≡ self.old) }
    {
        self.failing.push(call)?;
        Ok(())
    }

    /// What was written to standard output.
    pub fn written_out(&self) -> &[u8]
        ensures { result.now ≡ self.now.out }
    {
        self.out.as_slice()
    }

    /// What was written to standard error.
    pub fn written_err(&self) -> &[u8]
        ensures { result.now ≡ self.now.err }
    {
        self.err.as_slice()
    }

    /// The bytes of the created file of that name.
    pub fn created(&self, name: &str) -> Option<&[u8]>
        ensures { option_map (λ bytes. bytes.now) result ≡ option_map (λ told. told.kept) (created_of self.now.created name.now) }
    {
        self.created.get(name)
    }

    /// The number of all trait calls that were made, which stays at 2^64 - 1.
    pub fn calls(&self) -> u64
        ensures { result ≡ self.now.calls.total }
    {
        self.log.count
    }
}

impl MemoryHost {
    // Notes a call, and says whether it was to fail.
    fn begin(&mut self, kind: CallKind, name: &str, limit: u64) -> bool
        ensures noted { self.new ≡ begun self.old (record { kind = kind; name = name.now; limit = limit }) }
        ensures appended { Appended self.old.calls self.new.calls (record { kind = kind; name = name.now; limit = limit } ∷ []) }
        ensures fails { result ≡ is_set_to_fail self.old }
        ensures out_fits { length self.new.out < 2 ^ 64 }
        ensures err_fits { length self.new.err < 2 ^ 64 }
    {
        let number = self.log.count;
        self.log.note(kind, name, limit);
        self.failing.contains(&number)
    }

    // Counts a fault.
    fn count_fault(&mut self)
        ensures counted { self.new ≡ failed self.old }
        ensures later { self.old.faults ≤ self.new.faults }
        ensures rose { Rose self.old.faults self.new.faults }
    {
        self.faults = self.faults.saturating_add(1);
    }
}

impl Host for MemoryHost {
    ghost told = { told_memory };

    ghost faults = { λ s. s.faults };

    fn read(&mut self, alloc: Global, name: &str, limit: u64) -> Result<Got, HostError>
        ensures performs { Performs (told_memory self.old) (told_memory self.new) (Read name.now limit ∷ []) }
        ensures got { IfOk result (λ got. IfSome (told_memory self.old).files (λ files. Gets (bytes_of files name.now) limit got)) }
        ensures fits { IfOk result (FitsIn limit) }
        ensures later { self.old.faults ≤ self.new.faults }
        ensures failed { result ≡ Err HostError.Failed → Rose self.old.faults self.new.faults }
        ensures exact { (result ≡ Err HostError.Failed) ↔ IsTrue (read_fails self.old name.now) }
        ensures after { self.new ≡ after_read self.old name.now limit }
    {
        if self.begin(CallKind::Read, name, limit) {
            self.count_fault();
            return Err(HostError::Failed);
        }
        match contents(self.files.as_slice(), name) {
            Some(bytes) => within(alloc, bytes, limit),
            None => {
                self.count_fault();
                Err(HostError::Failed)
            }
        }
    }

    fn create(&mut self, name: &str, bytes: &[u8]) -> Result<(), HostFault>
        ensures ok { OnOk result (Performs (told_memory self.old) (told_memory self.new) (Create name.now bytes.now ∷ [])) }
        ensures err { OnErr result (Performs (told_memory self.old) (told_memory self.new) (MissCreate name.now ∷ [])
            ⊎ ((n : ℕ) × Performs (told_memory self.old) (told_memory self.new) (Create name.now (take n bytes.now) ∷ []))) }
        ensures later { self.old.faults ≤ self.new.faults }
        ensures failed { OnErr result (Rose self.old.faults self.new.faults) }
        ensures exact { is_ok result ≡ not (write_fails self.old (length name.now + length bytes.now)) }
        ensures after { self.new ≡ after_create self.old name.now (length bytes.now) self.new.created }
        ensures made { OnOk result (IsMade self.old.created name.now (whole bytes.now) self.new.created) }
    {
        let fails = self.begin(CallKind::Create, name, 0);
        let free = self.room - self.used;
        if fails || name.len() > free || bytes.len() > free - name.len() {
            self.count_fault();
            return Err(HostFault);
        }
        self.created.put(name, bytes, bytes.len() as u64);
        self.used += name.len() + bytes.len();
        Ok(())
    }

    fn out(&mut self, bytes: &[u8]) -> Result<(), HostFault>
        ensures ok { OnOk result (Performs (told_memory self.old) (told_memory self.new) (Out bytes.now ∷ [])) }
        ensures err { OnErr result ((n : ℕ) × Performs (told_memory self.old) (told_memory self.new) (Out (take n bytes.now) ∷ [])) }
        ensures later { self.old.faults ≤ self.new.faults }
        ensures failed { OnErr result (Rose self.old.faults self.new.faults) }
        ensures exact { is_ok result ≡ not (write_fails self.old (length bytes.now)) }
        ensures after { self.new ≡ after_out self.old bytes.now }
    {
        let fails = self.begin(CallKind::Out, "", 0);
        if fails || bytes.len() > self.room - self.used {
            self.count_fault();
            return Err(HostFault);
        }
        append(&mut self.out, bytes);
        self.used += bytes.len();
        Ok(())
    }

    fn err(&mut self, bytes: &[u8]) -> Result<(), HostFault>
        ensures ok { OnOk result (Performs (told_memory self.old) (told_memory self.new) (ErrAction bytes.now ∷ [])) }
        ensures err { OnErr result ((n : ℕ) × Performs (told_memory self.old) (told_memory self.new) (ErrAction (take n bytes.now) ∷ [])) }
        ensures later { self.old.faults ≤ self.new.faults }
        ensures failed { OnErr result (Rose self.old.faults self.new.faults) }
        ensures exact { is_ok result ≡ not (write_fails self.old (length bytes.now)) }
        ensures after { self.new ≡ after_err self.old bytes.now }
    {
        let fails = self.begin(CallKind::Err, "", 0);
        if fails || bytes.len() > self.room - self.used {
            self.count_fault();
            return Err(HostFault);
        }
        append(&mut self.err, bytes);
        self.used += bytes.len();
        Ok(())
    }
}
