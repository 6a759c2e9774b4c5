//! The lines of sections (UEFI Appendix N, "Memory Error Section", "Generic Processor Error Section").

ghost use Rattle.std.specs.Prelude.{◌≡◌, ◌++◌, OnOk};
ghost use Rattle.std.specs.List.{AllByRecursion};
ghost use Rattle.ras_read.specs.Sections.{IsInside, other_line, section_line, section_lines};

use crate::memory::{push_memory, read_memory};
use crate::processor::{push_processor, read_processor};
use crate::values::push_number;
use cper_sections::{MEMORY_SECTION, PROCESSOR_SECTION, memory, processor};
use ras_bits::SectionAt;
use std::alloc::AllocError;

/// Appends the lines of sections that lie in `b`.
pub(crate) fn push_sections(
    out: &mut Vec<u8>,
    b: &[u8],
    sections: &[SectionAt],
) -> Result<(), AllocError>
    requires { AllByRecursion (IsInside b.now) sections.now }
    ensures { OnOk result (out.new.items ≡ out.old.items ++ section_lines b.now sections.now) }
{
    for section in sections {
        push_section(out, b, section)?;
    }
    Ok(())
}

#[tactic(auto, unfolding(crate::specs::Sections::section_line))]
fn push_section(out: &mut Vec<u8>, b: &[u8], section: &SectionAt) -> Result<(), AllocError>
    requires { IsInside b.now section.now }
    ensures { OnOk result (out.new.items ≡ out.old.items ++ section_line b.now section.now) }
{
    let start = section.start as usize;
    let length = section.length as usize;
    if section.kind == MEMORY_SECTION && memory::LEAST_LENGTH <= length {
        push_memory(out, read_memory(b, start), section.fru)
    } else if section.kind == PROCESSOR_SECTION && processor::LEAST_LENGTH <= length {
        push_processor(out, &read_processor(b, start), section.fru)
    } else {
        push_other(out, section)
    }
}

#[tactic(auto, unfolding(crate::specs::Sections::other_line))]
fn push_other(out: &mut Vec<u8>, section: &SectionAt) -> Result<(), AllocError>
    ensures { OnOk result (out.new.items ≡ out.old.items ++ other_line section.now) }
{
    let mut kind = [0; 32];
    hex::encode_to_slice(section.kind, &mut kind).unwrap();
    out.extend_from_slice(b"  other ")?;
    out.extend_from_slice(&kind)?;
    push_number(out, b" length ", u64::from(section.length))?;
    out.extend_from_slice(b"\n")
}
