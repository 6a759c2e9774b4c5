//! The line of a memory section (UEFI Appendix N, "Memory Error Section").

ghost use Rattle.std.specs.Prelude.{◌≡◌, ◌+◌, ◌≤◌, ◌++◌, length, OnOk};
ghost use Rattle.ras_read.specs.Sections.{memory_line, memory_view};

use crate::values::{push_fru, push_valid_address, push_valid_number, valid_byte, valid_word};
use byte_fields::u64_in;
use cper_sections::memory::{
    MEMORY_ERROR_TYPE, MEMORY_ERROR_TYPE_VALID, PHYSICAL_ADDRESS, PHYSICAL_ADDRESS_VALID,
    VALIDATION_BITS,
};
use std::alloc::AllocError;

/// What is valid of a memory section.
#[derive(Clone, Copy)]
pub(crate) struct MemoryView {
    address: Option<u64>,
    kind: Option<u64>,
}

/// What is valid of the memory section that begins at `start`. It has at least the 73 bytes of the standard's first edition.
pub(crate) fn read_memory(b: &[u8], start: usize) -> MemoryView
    requires { start + 73 ≤ length b.now }
    ensures { result ≡ memory_view start b.now }
{
    let validation = u64_in(b, start, VALIDATION_BITS);
    MemoryView {
        address: valid_word(
            b,
            start,
            validation,
            PHYSICAL_ADDRESS_VALID,
            PHYSICAL_ADDRESS,
        ),
        kind: valid_byte(
            b,
            start,
            validation,
            MEMORY_ERROR_TYPE_VALID,
            MEMORY_ERROR_TYPE,
        ),
    }
}

/// Appends the line of a memory section.
pub(crate) fn push_memory(
    out: &mut Vec<u8>,
    view: MemoryView,
    fru: Option<[u8; 20]>,
) -> Result<(), AllocError>
    ensures { OnOk result (out.new.items ≡ out.old.items ++ memory_line view fru) }
{
    push_valid_address(out, b"  memory address ", view.address)?;
    push_valid_number(out, b" kind ", view.kind)?;
    push_fru(out, b" fru ", fru)?;
    out.extend_from_slice(b"\n")
}
