//! What tells of a section: the descriptor of a record, or the entry of a status block.

ghost use Rattle.std.specs.Prelude.{◌≡◌};
ghost use Rattle.byte_fields.specs.Section.{TellsOfSection, fru_in, section_in};

use crate::reading::{array_in, u8_in, u32_in};
use crate::slot::Slot;
use ras_bits::{SectionAt, has_bit};

/// The bit of the validation bits that says that the text of the field-replaceable unit is there.
pub const FRU_TEXT_VALID: u32 = 1;

/// The slots that tell of a section.
#[derive(Clone, Copy, Debug, PartialEq, Eq)]
pub struct SectionSlots {
    /// The section type, 16 bytes.
    pub kind: Slot,
    /// The section's length, four bytes.
    pub length: Slot,
    /// The severity, four bytes.
    pub severity: Slot,
    /// The validation bits, one byte.
    pub valid: Slot,
    /// The text that names the field-replaceable unit, 20 bytes.
    pub fru: Slot,
}

/// The section that begins at `section_start`, as what begins at `start` tells. The slots are there.
#[tactic(auto, unfolding(crate::specs::Section::section_in))]
pub fn section_in(b: &[u8], start: usize, section_start: u32, slots: &SectionSlots) -> SectionAt
    requires { TellsOfSection slots.now start b.now }
    ensures { result ≡ section_in slots.now start section_start b.now }
{
    SectionAt {
        kind: array_in(b, start, slots.kind),
        start: section_start,
        length: u32_in(b, start, slots.length),
        severity: u32_in(b, start, slots.severity),
        fru: fru_in(b, start, slots),
    }
}

// The text, where its bit is set.
fn fru_in(b: &[u8], start: usize, slots: &SectionSlots) -> Option<[u8; 20]>
    requires { TellsOfSection slots.now start b.now }
    ensures { result ≡ fru_in slots.now start b.now }
{
    if has_bit(u64::from(u8_in(b, start, slots.valid)), FRU_TEXT_VALID) {
        Some(array_in(b, start, slots.fru))
    } else {
        None
    }
}
