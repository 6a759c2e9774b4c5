//! What the tests of the top call need.

use crate::top::ras_main;
use ras_bits::NoMemory;
use ras_host::{Host, MemoryHost};
use std::alloc::Global;

/// The bytes of instruction words, lowest byte first: a raw image.
pub fn image_of(alloc: Global, words: &[u32]) -> Result<Vec<u8>, NoMemory> {
    let mut image = Vec::new(alloc);
    for word in words {
        image.extend_from_slice(&word.to_le_bytes())?;
    }
    Ok(image)
}

/// A host with files of these names.
pub fn host_of(alloc: Global, files: &[(&str, &[u8])]) -> Result<MemoryHost, NoMemory> {
    let mut host = MemoryHost::make(alloc, 4096)?;
    for (name, bytes) in files {
        host.add_file(name, bytes)?;
    }
    Ok(host)
}

/// The status of a call whose words are separated by single blanks.
pub fn called<H: Host>(alloc: Global, line: &str, host: &mut H) -> Result<u8, NoMemory> {
    let mut words = Vec::new(alloc);
    for word in line.split(' ') {
        words.push(String::from_str(alloc, word)?)?;
    }
    Ok(ras_main(alloc, words.as_slice(), host).code)
}
