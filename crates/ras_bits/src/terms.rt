//! Types that several layers share.

use std::alloc::{AllocError, AllocFailed};

/// The answer for want of memory.
#[derive(Clone, Copy, Debug, PartialEq, Eq)]
pub struct NoMemory;

impl From<AllocError> for NoMemory {
    fn from(_refused: AllocError) -> NoMemory {
        NoMemory
    }
}

impl<T: Drop> From<AllocFailed<T>> for NoMemory {
    fn from(_refused: AllocFailed<T>) -> NoMemory {
        NoMemory
    }
}

/// The privilege mode of a hart that runs a guest (privileged manual, "Privilege Levels").
#[derive(Clone, Copy, Debug, PartialEq, Eq)]
pub enum Mode {
    /// U mode.
    User,
    /// S mode.
    Supervisor,
}

/// What an access to memory does, as far as translation and faults ask.
#[derive(Clone, Copy, Debug, PartialEq, Eq)]
pub enum Access {
    /// An instruction is fetched.
    Fetch,
    /// Data is read.
    Load,
    /// Data is written, or read and written by an atomic operation.
    Store,
}

/// Where a section lies in the record or status block that holds it (UEFI Appendix N, section
/// descriptor; ACPI, generic error data entry).
#[derive(Clone, Copy, Debug, Default, PartialEq, Eq)]
pub struct SectionAt {
    /// The section type: a GUID in the order of its bytes in memory.
    pub kind: [u8; 16],
    /// The offset of the section's first byte in what holds it.
    pub start: u32,
    /// The section's length in bytes.
    pub length: u32,
    /// The severity as the standard numbers it: 0 recoverable, 1 fatal, 2 corrected, 3 informational.
    pub severity: u32,
    /// The text that names the field-replaceable unit, where its validation bit is set.
    pub fru: Option<[u8; 20]>,
}
