//! The descriptor of a section (UEFI Appendix N, "Section Descriptor").

ghost use Rattle.std.specs.Prelude.{◌≡◌, true};
ghost use Rattle.poison_mem.specs.RecordId.{names_record};
ghost use Rattle.cper_sections.specs.Record.{section_descriptor};

use crate::fru::fru_text;
use crate::header::HEADER_LENGTH;
use crate::severity::severity_of;
use arrayvec::ArrayVec;
use byte_fields::{
    FRU_TEXT_VALID, SectionSlots, Slot, pad_to, put_bytes, put_u8, put_u16, put_u32,
};
use poison_mem::RecordView;

/// The length of a descriptor in bytes.
pub(crate) const DESCRIPTOR_LENGTH: usize = 72;

pub(crate) const SECTION_OFFSET: Slot = Slot {
    offset: 0,
    width: 4,
};

pub(crate) const SECTION_LENGTH: Slot = Slot {
    offset: 4,
    width: 4,
};

pub(crate) const REVISION: Slot = Slot {
    offset: 8,
    width: 2,
};

pub(crate) const VALIDATION_BITS: Slot = Slot {
    offset: 10,
    width: 1,
};

pub(crate) const FLAGS: Slot = Slot {
    offset: 12,
    width: 4,
};

pub(crate) const SECTION_TYPE: Slot = Slot {
    offset: 16,
    width: 16,
};

pub(crate) const SECTION_SEVERITY: Slot = Slot {
    offset: 48,
    width: 4,
};

pub(crate) const FRU_TEXT: Slot = Slot {
    offset: 52,
    width: 20,
};

/// What tells of the section.
pub(crate) const SECTION: SectionSlots = SectionSlots {
    kind: SECTION_TYPE,
    length: SECTION_LENGTH,
    severity: SECTION_SEVERITY,
    valid: VALIDATION_BITS,
    fru: FRU_TEXT,
};

/// Where the one section of a record begins.
pub(crate) const SECTION_START: u32 = (HEADER_LENGTH + DESCRIPTOR_LENGTH) as u32;

const DESCRIPTOR_REVISION: u16 = 0x0100;

// The flag of the section that the others of a record belong to.
const PRIMARY: u32 = 1;

/// The descriptor of the one section of a view's record, with its type and length. The view is of a record that there is.
pub(crate) fn section_descriptor(
    v: &RecordView,
    section_type: &[u8; 16],
    section_length: u32,
) -> [u8; 72]
    requires { names_record v.now.kept.bank v.now.kept.rec ≡ true }
    ensures { result ≡ section_descriptor v.now section_type.now section_length }
{
    let mut descriptor = ArrayVec::<u8, 72>::new();
    put_u32(&mut descriptor, SECTION_OFFSET, SECTION_START);
    put_u32(&mut descriptor, SECTION_LENGTH, section_length);
    put_u16(&mut descriptor, REVISION, DESCRIPTOR_REVISION);
    put_u8(&mut descriptor, VALIDATION_BITS, 1 << FRU_TEXT_VALID);
    put_u32(&mut descriptor, FLAGS, PRIMARY);
    put_bytes(&mut descriptor, SECTION_TYPE, section_type);
    put_u32(&mut descriptor, SECTION_SEVERITY, severity_of(v.kept.class));
    put_bytes(&mut descriptor, FRU_TEXT, &fru_text(v));
    pad_to(&mut descriptor, DESCRIPTOR_LENGTH);
    descriptor.into_inner().unwrap()
}
