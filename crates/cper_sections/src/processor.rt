//! The processor error section (UEFI Appendix N, "Generic Processor Error Section").

ghost use Rattle.std.specs.Prelude.{◌≡◌, ◌≤◌};
ghost use Rattle.std.specs.List.{AllByRecursion};
ghost use Rattle.byte_fields.specs.Fields.{StandsAtSlot, laid_out};
ghost use Rattle.cper_sections.specs.Processor.{cache_fields, hart_fields, hart_operation, processor_fields, processor_section};

use arrayvec::ArrayVec;
use byte_fields::{Slot, pad_to, put_u8, put_u64};
use poison_mem::{RecordView, UseKind};
use ras_bits::get_field;

/// The type of a processor error section: 9876CCAD-47B4-4BDB-B65E-16F193C4F3DB, in the order of its bytes in memory.
pub const PROCESSOR_SECTION: [u8; 16] = [
    0xAD, 0xCC, 0x76, 0x98, 0xB4, 0x47, 0xDB, 0x4B, 0xB6, 0x5E, 0x16, 0xF1, 0x93, 0xC4, 0xF3, 0xDB,
];

/// The least length of a processor section, in bytes.
pub const LEAST_LENGTH: usize = 192;

/// Which of the other slots are valid.
pub const VALIDATION_BITS: Slot = Slot {
    offset: 0,
    width: 8,
};

/// What kind of part the error is of.
pub const ERROR_TYPE: Slot = Slot {
    offset: 10,
    width: 1,
};

/// What the processor did.
pub const OPERATION: Slot = Slot {
    offset: 11,
    width: 1,
};

/// The level of the part: of a cache, counted from 0.
pub const LEVEL: Slot = Slot {
    offset: 13,
    width: 1,
};

/// The processor's own number.
pub const PROCESSOR_ID: Slot = Slot {
    offset: 152,
    width: 8,
};

/// The physical address that the operation is on.
pub const TARGET_ADDRESS: Slot = Slot {
    offset: 160,
    width: 8,
};

/// The pc.
pub const INSTRUCTION_IP: Slot = Slot {
    offset: 184,
    width: 8,
};

/// The bit of the validation bits for the error type.
pub const ERROR_TYPE_VALID: u32 = 2;

/// The bit of the validation bits for the operation.
pub const OPERATION_VALID: u32 = 3;

/// The bit of the validation bits for the level.
pub const LEVEL_VALID: u32 = 5;

/// The bit of the validation bits for the processor's number.
pub const PROCESSOR_ID_VALID: u32 = 8;

/// The bit of the validation bits for the target address.
pub const TARGET_ADDRESS_VALID: u32 = 9;

/// The bit of the validation bits for the pc.
pub const INSTRUCTION_IP_VALID: u32 = 12;

const CACHE_VALID: u64 = (1 << ERROR_TYPE_VALID) + (1 << LEVEL_VALID) + (1 << TARGET_ADDRESS_VALID);

const HART_VALID: u64 = (1 << ERROR_TYPE_VALID)
    + (1 << OPERATION_VALID)
    + (1 << PROCESSOR_ID_VALID)
    + (1 << TARGET_ADDRESS_VALID)
    + (1 << INSTRUCTION_IP_VALID);

const CACHE_ERROR: u8 = 1;

const MICRO_ARCHITECTURAL_ERROR: u8 = 8;

const DATA_READ: u8 = 1;

const INSTRUCTION_EXECUTION: u8 = 3;

/// The processor error section of a record of the caches' bank or of the hart's, bank 1 or 2. A cache tells its level and the
/// word's address, a hart its own number, what it read the word for, the word's address and its pc.
///
/// Each field stands at its slot, as `byte_fields::fields_stand_at_their_slots` says of every format.
pub fn proc_section(v: &RecordView) -> [u8; 192]
    requires some { 1 ≤ v.now.kept.bank }
    requires bank { v.now.kept.bank ≤ 2 }
    ensures bytes { result ≡ processor_section v.now }
    ensures slots { AllByRecursion (StandsAtSlot result) (processor_fields v.now) }
{
    if v.kept.bank == 2 {
        hart_section(v)
    } else {
        cache_section(v)
    }
}

fn cache_section(v: &RecordView) -> [u8; 192]
    ensures bytes { result ≡ laid_out 192 (cache_fields v.now) }
    ensures slots { AllByRecursion (StandsAtSlot result) (cache_fields v.now) }
{
    let mut section = ArrayVec::<u8, 192>::new();
    put_u64(&mut section, VALIDATION_BITS, CACHE_VALID);
    put_u8(&mut section, ERROR_TYPE, CACHE_ERROR);
    put_u8(&mut section, LEVEL, v.kept.rec);
    put_u64(&mut section, TARGET_ADDRESS, v.kept.addr);
    pad_to(&mut section, 192);
    section.into_inner().unwrap()
}

fn hart_section(v: &RecordView) -> [u8; 192]
    ensures bytes { result ≡ laid_out 192 (hart_fields v.now) }
    ensures slots { AllByRecursion (StandsAtSlot result) (hart_fields v.now) }
{
    let mut section = ArrayVec::<u8, 192>::new();
    put_u64(&mut section, VALIDATION_BITS, HART_VALID);
    put_u8(&mut section, ERROR_TYPE, MICRO_ARCHITECTURAL_ERROR);
    put_u8(&mut section, OPERATION, hart_operation(v.kept.info));
    put_u64(&mut section, PROCESSOR_ID, get_field(v.kept.info, 8, 8));
    put_u64(&mut section, TARGET_ADDRESS, v.kept.addr);
    put_u64(&mut section, INSTRUCTION_IP, v.kept.suppl);
    pad_to(&mut section, 192);
    section.into_inner().unwrap()
}

// What the hart did, by what an event of a consumption says of the use.
fn hart_operation(info: u64) -> u8
    ensures { result ≡ hart_operation info }
{
    if get_field(info, 0, 8) == u64::from(UseKind::Fetch.number()) {
        INSTRUCTION_EXECUTION
    } else {
        DATA_READ
    }
}
