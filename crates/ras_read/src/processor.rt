//! The line of a processor section (UEFI Appendix N, "Generic Processor Error Section").

ghost use Rattle.std.specs.Prelude.{◌≡◌, ◌+◌, ◌≤◌, ◌++◌, length, OnOk};
ghost use Rattle.ras_read.specs.Sections.{processor_line, processor_view};

use crate::values::{push_fru, push_valid_address, push_valid_number, valid_byte, valid_word};
use byte_fields::u64_in;
use cper_sections::processor::{
    ERROR_TYPE, ERROR_TYPE_VALID, INSTRUCTION_IP, INSTRUCTION_IP_VALID, LEVEL, LEVEL_VALID,
    OPERATION, OPERATION_VALID, PROCESSOR_ID, PROCESSOR_ID_VALID, TARGET_ADDRESS,
    TARGET_ADDRESS_VALID, VALIDATION_BITS,
};
use std::alloc::AllocError;

/// What is valid of a processor section.
#[derive(Clone, Copy)]
pub(crate) struct ProcessorView {
    kind: Option<u64>,
    operation: Option<u64>,
    level: Option<u64>,
    id: Option<u64>,
    target: Option<u64>,
    ip: Option<u64>,
}

/// What is valid of the processor section that begins at `start`. It has at least 192 bytes.
pub(crate) fn read_processor(b: &[u8], start: usize) -> ProcessorView
    requires { start + 192 ≤ length b.now }
    ensures { result ≡ processor_view start b.now }
{
    let validation = u64_in(b, start, VALIDATION_BITS);
    ProcessorView {
        kind: valid_byte(b, start, validation, ERROR_TYPE_VALID, ERROR_TYPE),
        operation: valid_byte(b, start, validation, OPERATION_VALID, OPERATION),
        level: valid_byte(b, start, validation, LEVEL_VALID, LEVEL),
        id: valid_word(b, start, validation, PROCESSOR_ID_VALID, PROCESSOR_ID),
        target: valid_word(b, start, validation, TARGET_ADDRESS_VALID, TARGET_ADDRESS),
        ip: valid_word(b, start, validation, INSTRUCTION_IP_VALID, INSTRUCTION_IP),
    }
}

/// Appends the line of a processor section.
pub(crate) fn push_processor(
    out: &mut Vec<u8>,
    view: &ProcessorView,
    fru: Option<[u8; 20]>,
) -> Result<(), AllocError>
    ensures { OnOk result (out.new.items ≡ out.old.items ++ processor_line view.now fru) }
{
    push_valid_number(out, b"  processor kind ", view.kind)?;
    push_valid_number(out, b" operation ", view.operation)?;
    push_valid_number(out, b" level ", view.level)?;
    push_valid_number(out, b" id ", view.id)?;
    push_valid_address(out, b" target ", view.target)?;
    push_valid_address(out, b" ip ", view.ip)?;
    push_fru(out, b" fru ", fru)?;
    out.extend_from_slice(b"\n")
}
