//! The memory error section (UEFI Appendix N, "Memory Error Section"), whose last slots are of the standard's later edition.

ghost use Rattle.std.specs.Prelude.{◌≡◌};
ghost use Rattle.std.specs.List.{AllByRecursion};
ghost use Rattle.byte_fields.specs.Fields.{StandsAtSlot};
ghost use Rattle.cper_sections.specs.Memory.{memory_error_type, memory_fields, memory_section};

use arrayvec::ArrayVec;
use byte_fields::{Slot, pad_to, put_u8, put_u64};
use poison_mem::{Class, RecordView};

/// The type of a memory error section: A5BC1114-6F64-4EDE-B863-3E83ED7C83B1, in the order of its bytes in memory.
pub const MEMORY_SECTION: [u8; 16] = [
    0x14, 0x11, 0xBC, 0xA5, 0x64, 0x6F, 0xDE, 0x4E, 0xB8, 0x63, 0x3E, 0x83, 0xED, 0x7C, 0x83, 0xB1,
];

/// The least length of a memory section: that of the standard's first edition, in bytes.
pub const LEAST_LENGTH: usize = 73;

/// Which of the other slots are valid.
pub const VALIDATION_BITS: Slot = Slot {
    offset: 0,
    width: 8,
};

/// The physical address of the word.
pub const PHYSICAL_ADDRESS: Slot = Slot {
    offset: 16,
    width: 8,
};

/// What kind of error it is.
pub const MEMORY_ERROR_TYPE: Slot = Slot {
    offset: 72,
    width: 1,
};

/// The bit of the validation bits for the physical address.
pub const PHYSICAL_ADDRESS_VALID: u32 = 1;

/// The bit of the validation bits for the memory error type.
pub const MEMORY_ERROR_TYPE_VALID: u32 = 14;

const VALID: u64 = (1 << PHYSICAL_ADDRESS_VALID) + (1 << MEMORY_ERROR_TYPE_VALID);

const SINGLE_BIT_ECC: u8 = 2;

const MULTI_BIT_ECC: u8 = 3;

const SCRUB_CORRECTED: u8 = 13;

const SCRUB_UNCORRECTED: u8 = 14;

/// The memory error section of a record of the memory's bank, bank 0: the physical address and the memory error type.
///
/// Each field stands at its slot, as `byte_fields::fields_stand_at_their_slots` says of every format.
pub fn mem_section(v: &RecordView) -> [u8; 80]
    requires { v.now.kept.bank ≡ 0 }
    ensures bytes { result ≡ memory_section v.now }
    ensures slots { AllByRecursion (StandsAtSlot result) (memory_fields v.now) }
{
    let mut section = ArrayVec::<u8, 80>::new();
    put_u64(&mut section, VALIDATION_BITS, VALID);
    put_u64(&mut section, PHYSICAL_ADDRESS, v.kept.addr);
    put_u8(&mut section, MEMORY_ERROR_TYPE, memory_error_type(v));
    pad_to(&mut section, 80);
    section.into_inner().unwrap()
}

fn memory_error_type(v: &RecordView) -> u8
    ensures { result ≡ memory_error_type v.now }
{
    match (v.kept.rec == 0, v.kept.class) {
        (true, Class::Corrected) => SINGLE_BIT_ECC,
        (true, Class::Deferred | Class::Critical) => MULTI_BIT_ECC,
        (false, Class::Corrected) => SCRUB_CORRECTED,
        (false, Class::Deferred | Class::Critical) => SCRUB_UNCORRECTED,
    }
}
