//! A host in memory whose calls never fail.

ghost use Rattle.std.specs.Prelude.{◌≡◌, ◌≢◌, ◌+◌, ◌-◌, ◌≤◌, ◌⊎◌, ℕ, [], ◌∷◌, take, length, IfOk, OnOk, OnErr, IsOk, IfSome, option_map};
ghost use Rattle.ras_host.specs.Causes.{Rose};
ghost use Rattle.ras_host.specs.Reads.{Gets, FitsIn};
ghost use Rattle.ras_host.specs.Steady.{SteadyState, told_steady, fresh_steady, wrote, used_by, IsMadeSteady, told_file};
ghost use Rattle.ras_host.specs.Calls.{noted};
ghost use Rattle.ras_host.specs.Stored.{with_file};
ghost use Rattle.ras_host.specs.Told.{Performs, Read, Create, MissCreate, Out, Err as ErrAction, Appended, bytes_of, created_of};

use crate::buffer::append;
use crate::call_log::{CallKind, CallLog};
use crate::created::CreatedFiles;
use crate::outside::{Got, Host, HostError, HostFault};
use crate::stored::{StoredFile, contents, within};
use ras_bits::NoMemory;
use std::alloc::Global;
use std::marker::Model;

/// A host in memory whose calls never fail.
///
/// A name that it lacks reads as an empty file. Where the bytes of all writes, with the names of
/// created files, pass `room`, it tells the prefix that fits, and the number of all. Once a
/// name does not fit, it tells of no created file any more.
#[derive(Drop)]
pub struct SteadyHost {
    alloc: Global,
    files: Vec<StoredFile>,
    out: Vec<u8>,
    out_total: u64,
    err: Vec<u8>,
    err_total: u64,
    created: CreatedFiles,
    tells_created: bool,
    log: CallLog,
    room: usize,
    used: usize,
}

impl Model for SteadyHost {
    ghost use Rattle.ras_host.specs.Steady.{SteadyState};

    ghost Value = { SteadyState };

    ghost use Rattle.ras_host.specs.SteadyHost.{steady_of, IsSteadyHeld};

    ghost view = { steady_of };

    ghost invariant = { IsSteadyHeld };
}

impl SteadyHost {
    /// A host with no files, on which no call was made, with room for so many bytes of all writes.
    pub fn make(alloc: Global, room: usize) -> Result<SteadyHost, NoMemory>
        ensures { IfOk result (λ host. host ≡ fresh_steady room) }
    {
        let out = Vec::with_capacity(alloc, room)?;
        let err = Vec::with_capacity(alloc, room)?;
        let created = CreatedFiles::make(alloc, room)?;
        let log = CallLog::make(alloc, room)?;
        Ok(SteadyHost {
            alloc,
            files: Vec::new(alloc),
            out,
            out_total: 0,
            err,
            err_total: 0,
            created,
            tells_created: true,
            log,
            room,
            used: 0,
        })
    }

    /// Adds a file, in place of an earlier one of that name.
    pub fn add_file(&mut self, name: &str, bytes: &[u8]) -> Result<(), NoMemory>
        ensures ok { OnOk result (self.new ≡ record self.old { files = with_file self.old.files name.now bytes.now }) }
        ensures err { OnErr result (self.new ≡ self.old) }
    {
        let name = String::from_str(self.alloc, name)?;
        let bytes = Vec::from_slice(self.alloc, bytes)?;
        self.files.insert(0, StoredFile { name, bytes })?;
        Ok(())
    }

    /// What was written to standard output, as far as it fits.
    pub fn written_out(&self) -> &[u8]
        ensures { result.now ≡ self.now.out.kept }
    {
        self.out.as_slice()
    }

    /// What was written to standard error, as far as it fits.
    pub fn written_err(&self) -> &[u8]
        ensures { result.now ≡ self.now.err.kept }
    {
        self.err.as_slice()
    }

    /// The bytes of the created file of that name, as far as they fit.
    pub fn created(&self, name: &str) -> Option<&[u8]>
        ensures { option_map (λ bytes. bytes.now) result ≡ option_map (λ told. told.kept) (told_file self.now name.now) }
    {
        if self.tells_created {
            self.created.get(name)
        } else {
            None
        }
    }

    /// The number of all trait calls that were made, which stays at 2^64 - 1.
    pub fn calls(&self) -> u64
        ensures { result ≡ self.now.calls.total }
    {
        self.log.count
    }
}

impl SteadyHost {
    // Notes a call.
    fn begin(&mut self, kind: CallKind, name: &str, limit: u64)
        ensures noted { self.new ≡ record self.old { calls = noted self.old.room self.old.calls (record { kind = kind; name = name.now; limit = limit }) } }
        ensures appended { Appended self.old.calls self.new.calls (record { kind = kind; name = name.now; limit = limit } ∷ []) }
    {
        self.log.note(kind, name, limit);
    }
}

// The longest prefix of the bytes that fits so much room.
fn fitting(bytes: &[u8], free: usize) -> &[u8]
    ensures items { result.now ≡ take free bytes.now }
    ensures fits { length result.now ≤ free }
{
    if bytes.len() <= free {
        bytes
    } else {
        &bytes[..free]
    }
}

impl Host for SteadyHost {
    ghost told = { told_steady };

    ghost faults = { λ _. 0 };

    fn read(&mut self, alloc: Global, name: &str, limit: u64) -> Result<Got, HostError>
        ensures performs { Performs (told_steady self.old) (told_steady self.new) (Read name.now limit ∷ []) }
        ensures got { IfOk result (λ got. IfSome (told_steady self.old).files (λ files. Gets (bytes_of files name.now) limit got)) }
        ensures fits { IfOk result (FitsIn limit) }
        ensures later { 0 ≤ 0 }
        ensures failed { result ≡ Err HostError.Failed → Rose 0 0 }
        ensures never { result ≢ Err HostError.Failed }
        ensures after { self.new ≡ record self.old { calls = noted self.old.room self.old.calls (record { kind = CallKind.Read; name = name.now; limit = limit }) } }
    {
        self.begin(CallKind::Read, name, limit);
        match contents(self.files.as_slice(), name) {
            Some(bytes) => within(alloc, bytes, limit),
            None => within(alloc, &[], limit),
        }
    }

    fn create(&mut self, name: &str, bytes: &[u8]) -> Result<(), HostFault>
        ensures ok { OnOk result (Performs (told_steady self.old) (told_steady self.new) (Create name.now bytes.now ∷ [])) }
        ensures err { OnErr result (Performs (told_steady self.old) (told_steady self.new) (MissCreate name.now ∷ [])
            ⊎ ((n : ℕ) × Performs (told_steady self.old) (told_steady self.new) (Create name.now (take n bytes.now) ∷ []))) }
        ensures later { 0 ≤ 0 }
        ensures failed { OnErr result (Rose 0 0) }
        ensures always { IsOk result }
        ensures after { self.new ≡ record self.old {
          calls = noted self.old.room self.old.calls (record { kind = CallKind.Create; name = name.now; limit = 0 });
          created = self.new.created;
          used = used_by self.old (length name.now + length bytes.now);
        } }
        ensures made { IsMadeSteady self.old name.now bytes.now self.new.created }
    {
        self.begin(CallKind::Create, name, 0);
        let free = self.room - self.used;
        if name.len() > free {
            self.tells_created = false;
            self.used = self.room;
            return Ok(());
        }
        let kept = fitting(bytes, free - name.len());
        if self.tells_created {
            self.created.put(name, kept, bytes.len() as u64);
        }
        self.used += name.len() + kept.len();
        Ok(())
    }

    fn out(&mut self, bytes: &[u8]) -> Result<(), HostFault>
        ensures ok { OnOk result (Performs (told_steady self.old) (told_steady self.new) (Out bytes.now ∷ [])) }
        ensures err { OnErr result ((n : ℕ) × Performs (told_steady self.old) (told_steady self.new) (Out (take n bytes.now) ∷ [])) }
        ensures later { 0 ≤ 0 }
        ensures failed { OnErr result (Rose 0 0) }
        ensures always { IsOk result }
        ensures after { self.new ≡ record self.old {
          calls = noted self.old.room self.old.calls (record { kind = CallKind.Out; name = []; limit = 0 });
          out = wrote self.old.out (self.old.room - self.old.used) bytes.now;
          used = used_by self.old (length bytes.now);
        } }
    {
        self.begin(CallKind::Out, "", 0);
        let kept = fitting(bytes, self.room - self.used);
        append(&mut self.out, kept);
        self.out_total = self.out_total.saturating_add(bytes.len() as u64);
        self.used += kept.len();
        Ok(())
    }

    fn err(&mut self, bytes: &[u8]) -> Result<(), HostFault>
        ensures ok { OnOk result (Performs (told_steady self.old) (told_steady self.new) (ErrAction bytes.now ∷ [])) }
        ensures err { OnErr result ((n : ℕ) × Performs (told_steady self.old) (told_steady self.new) (ErrAction (take n bytes.now) ∷ [])) }
        ensures later { 0 ≤ 0 }
        ensures failed { OnErr result (Rose 0 0) }
        ensures always { IsOk result }
        ensures after { self.new ≡ record self.old {
          calls = noted self.old.room self.old.calls (record { kind = CallKind.Err; name = []; limit = 0 });
          err = wrote self.old.err (self.old.room - self.old.used) bytes.now;
          used = used_by self.old (length bytes.now);
        } }
    {
        self.begin(CallKind::Err, "", 0);
        let kept = fitting(bytes, self.room - self.used);
        append(&mut self.err, kept);
        self.err_total = self.err_total.saturating_add(bytes.len() as u64);
        self.used += kept.len();
        Ok(())
    }
}
