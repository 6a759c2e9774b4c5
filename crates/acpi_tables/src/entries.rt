//! Entries of a status block (ACPI, "Generic Error Data Entry").

ghost use Rattle.std.specs.Prelude.{◌≡◌, ◌+◌, ◌≤◌, ◌++◌};
ghost use Rattle.arrayvec.specs.ArrayVec.{array_vec_len};
ghost use Rattle.acpi_tables.specs.Entries.{entry_bytes, entry_header};
ghost use Rattle.acpi_tables.specs.Written.{IsEntry};

use arrayvec::ArrayVec;
use byte_fields::{
    FRU_TEXT_VALID, SectionSlots, Slot, pad_to, push_bytes, put_bytes, put_u8, put_u16, put_u32,
};

/// The length of what stands before an entry's section, in bytes.
pub(crate) const ENTRY_HEADER_LENGTH: usize = 72;

pub(crate) const SECTION_TYPE: Slot = Slot {
    offset: 0,
    width: 16,
};

pub(crate) const ERROR_SEVERITY: Slot = Slot {
    offset: 16,
    width: 4,
};

pub(crate) const REVISION: Slot = Slot {
    offset: 20,
    width: 2,
};

pub(crate) const VALIDATION_BITS: Slot = Slot {
    offset: 22,
    width: 1,
};

pub(crate) const ERROR_DATA_LENGTH: Slot = Slot {
    offset: 24,
    width: 4,
};

pub(crate) const FRU_TEXT: Slot = Slot {
    offset: 44,
    width: 20,
};

/// What tells of an entry's section.
pub(crate) const SECTION: SectionSlots = SectionSlots {
    kind: SECTION_TYPE,
    length: ERROR_DATA_LENGTH,
    severity: ERROR_SEVERITY,
    valid: VALIDATION_BITS,
    fru: FRU_TEXT,
};

const ENTRY_REVISION: u16 = 0x0300;

/// An entry of a status block, with its section.
#[derive(Default, Drop)]
pub struct Entry {
    /// The section type: a GUID in the order of its bytes in memory.
    pub kind: [u8; 16],
    /// The severity: 0 recoverable, 1 fatal, 2 corrected.
    pub severity: u32,
    /// The text that names the field-replaceable unit.
    pub fru: [u8; 20],
    /// The section.
    pub body: ArrayVec<u8, 192>,
}

/// Appends an entry with its section.
pub(crate) fn push_entry(out: &mut ArrayVec<u8, 2048>, entry: &Entry)
    requires { array_vec_len out.old + 264 ≤ 2048 }
    ensures items { out.new.items ≡ out.old.items ++ entry_bytes entry.now }
    ensures len { array_vec_len out.new ≤ array_vec_len out.old + 264 }
    ensures typed { IsEntry entry.now }
{
    push_bytes(out, &entry_header(entry));
    push_bytes(out, entry.body.as_slice());
}

fn entry_header(entry: &Entry) -> [u8; 72]
    ensures bytes { result ≡ entry_header entry.now }
    ensures typed { IsEntry entry.now }
{
    let mut header = ArrayVec::<u8, 72>::new();
    put_bytes(&mut header, SECTION_TYPE, &entry.kind);
    put_u32(&mut header, ERROR_SEVERITY, entry.severity);
    put_u16(&mut header, REVISION, ENTRY_REVISION);
    put_u8(&mut header, VALIDATION_BITS, 1 << FRU_TEXT_VALID);
    put_u32(&mut header, ERROR_DATA_LENGTH, entry.body.len() as u32);
    put_bytes(&mut header, FRU_TEXT, &entry.fru);
    pad_to(&mut header, ENTRY_HEADER_LENGTH);
    header.into_inner().unwrap()
}
