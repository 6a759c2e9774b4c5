//! The outside of a runtime: the trusted edge.

ghost use Rattle.std.specs.Prelude.{◌≡◌, ℕ, ◌+◌, ◌≤◌, IfOk, IfSome};
ghost use Rattle.ras_host.specs.Causes.{Rose};
ghost use Rattle.ras_host.specs.Told.{untold};
ghost use Rattle.ras_host.specs.Reads.{Gets, FitsIn, TakesAtMost};

use crate::outside::{Got, Host, HostError, HostFault};
use std::alloc::Global;
use std::io::{Read, Write};
use std::rt::Files;
use std::{fs, io, str};

const CHUNK: usize = 8192;

/// The files, standard output and standard error of a runtime, with a count of what failed.
#[derive(Drop)]
pub struct RealHost<R: Files + Print + Eprint + Drop> {
    rt: R,
    faults: u64,
}

impl<R: Files + Print + Eprint + Drop> RealHost<R> {
    /// The host of a runtime, on which no call has failed.
    pub fn make(rt: R) -> RealHost<R>
        ensures { result.faults ≡ 0 }
    {
        RealHost { rt, faults: 0 }
    }

    // Counts a fault.
    fn count_fault(&mut self)
        ensures later { self.old.faults ≤ self.new.faults }
        ensures rose { Rose self.old.faults self.new.faults }
    {
        self.faults = self.faults.saturating_add(1);
    }
}

// Reads to the end, or one byte past `limit`, and answers what was read, where the reader's bytes are
// known.
fn read_within<R: Read>(alloc: Global, reader: &mut R, limit: u64) -> Result<Got, HostError>
    ensures fits { IfOk result (FitsIn limit) }
    ensures got { IfOk result (λ got. IfSome (R.remaining reader.old) (λ bytes. Gets bytes limit got)) }
    ensures taken { TakesAtMost (limit + 1) (R.remaining reader.old) (R.remaining reader.new) }
{
    let mut bytes = Vec::new(alloc);
    let mut left = limit;
    let mut chunk = [0u8; CHUNK];
    for _ in 0..u64::MAX {
        let wanted = if left < CHUNK as u64 {
            left as usize + 1
        } else {
            CHUNK
        };
        let taken = match reader.read(&mut chunk[..wanted]) {
            Ok(taken) => taken,
            Err(_) => return Err(HostError::Failed),
        };
        if taken == 0 {
            return Ok(Got::Whole(bytes));
        }
        if taken as u64 > left {
            return Ok(Got::Longer);
        }
        if bytes.extend_from_slice(&chunk[..taken]).is_err() {
            return Err(HostError::NoMemory);
        }
        left -= taken as u64;
    }
    Err(HostError::Failed)
}

// Makes a file of these bytes.
fn write_file<R: Files>(rt: &R, name: &str, bytes: &[u8]) -> io::Result<()> {
    let mut file = fs::create(rt, name)?;
    file.write_all(bytes)
}

fn read_file<R: Files>(alloc: Global, rt: &R, name: &str, limit: u64) -> Result<Got, HostError>
    ensures { IfOk result (FitsIn limit) }
{
    match fs::open(rt, name) {
        Ok(mut file) => read_within(alloc, &mut file, limit),
        Err(_) => Err(HostError::Failed),
    }
}

impl<R: Files + Print + Eprint + Drop> Host for RealHost<R> {
    ghost told = { λ _. untold };

    ghost faults = { λ s. s.faults };

    fn read(&mut self, alloc: Global, name: &str, limit: u64) -> Result<Got, HostError> {
        let result = read_file(alloc, &self.rt, name, limit);
        match result {
            Ok(got) => Ok(got),
            Err(HostError::NoMemory) => Err(HostError::NoMemory),
            Err(HostError::Failed) => {
                self.count_fault();
                Err(HostError::Failed)
            }
        }
    }

    fn create(&mut self, name: &str, bytes: &[u8]) -> Result<(), HostFault> {
        match write_file(&self.rt, name, bytes) {
            Ok(()) => Ok(()),
            Err(_) => {
                self.count_fault();
                Err(HostFault)
            }
        }
    }

    fn out(&mut self, bytes: &[u8]) -> Result<(), HostFault> {
        match self.rt.write_all(bytes) {
            Ok(()) => Ok(()),
            Err(_) => {
                self.count_fault();
                Err(HostFault)
            }
        }
    }

    fn err(&mut self, bytes: &[u8]) -> Result<(), HostFault> {
        if let Ok(text) = str::from_utf8(bytes)
            && self.rt.eprint(text).is_ok()
        {
            return Ok(());
        }
        self.count_fault();
        Err(HostFault)
    }
}
