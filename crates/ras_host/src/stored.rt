//! The files that a host in memory reads.

ghost use Rattle.std.specs.Prelude.{◌≡◌, ◌≢◌, map, option_map, IfOk, Err};
ghost use Rattle.ras_host.specs.Reads.{Gets, FitsIn};
ghost use Rattle.ras_host.specs.Stored.{file_of};
ghost use Rattle.ras_host.specs.Told.{contents};

use crate::outside::{Got, HostError};
use std::alloc::Global;

/// A file that a host in memory reads.
#[derive(Drop)]
pub struct StoredFile {
    pub name: String,
    pub bytes: Vec<u8>,
}

/// The bytes of the first file of that name.
pub fn contents<'a>(files: &'a [StoredFile], name: &str) -> Option<&'a [u8]>
    ensures { option_map (λ bytes. bytes.now) result ≡ contents (map file_of files.now) name.now }
{
    for file in files {
        if file.name.as_str() == name {
            return Some(file.bytes.as_slice());
        }
    }
    None
}

/// The answer of a read within a limit, for a file of these bytes.
pub fn within(alloc: Global, bytes: &[u8], limit: u64) -> Result<Got, HostError>
    ensures got { IfOk result (Gets bytes.now limit) }
    ensures fits { IfOk result (FitsIn limit) }
    ensures never { result ≢ Err HostError.Failed }
{
    if bytes.len() as u64 > limit {
        return Ok(Got::Longer);
    }
    match Vec::from_slice(alloc, bytes) {
        Ok(bytes) => Ok(Got::Whole(bytes)),
        Err(_) => Err(HostError::NoMemory),
    }
}
