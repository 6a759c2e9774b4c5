//! The error source of HEST (ACPI, "Generic Hardware Error Source"), which is polled.

ghost use Rattle.std.specs.Prelude.{◌≡◌};
ghost use Rattle.acpi_tables.specs.ErrorSource.{address_structure, error_source, notification_structure};

use arrayvec::ArrayVec;
use byte_fields::{Slot, pad_to, put_bytes, put_u8, put_u16, put_u32, put_u64};
use ras_bits::{POLLED_BLOCK_LENGTH, POLLED_POINTER};

/// The length of a source in bytes.
pub(crate) const SOURCE_LENGTH: usize = 64;

pub(crate) const SOURCE_TYPE: Slot = Slot {
    offset: 0,
    width: 2,
};

pub(crate) const RELATED_SOURCE_ID: Slot = Slot {
    offset: 4,
    width: 2,
};

pub(crate) const ENABLED: Slot = Slot {
    offset: 7,
    width: 1,
};

pub(crate) const RECORDS_TO_PREALLOCATE: Slot = Slot {
    offset: 8,
    width: 4,
};

pub(crate) const MAX_SECTIONS_PER_RECORD: Slot = Slot {
    offset: 12,
    width: 4,
};

pub(crate) const ERROR_STATUS_ADDRESS: Slot = Slot {
    offset: 20,
    width: 12,
};

pub(crate) const NOTIFICATION_STRUCTURE: Slot = Slot {
    offset: 32,
    width: 28,
};

pub(crate) const ERROR_STATUS_BLOCK_LENGTH: Slot = Slot {
    offset: 60,
    width: 4,
};

// Of the address structure.
pub(crate) const REGISTER_BIT_WIDTH: Slot = Slot {
    offset: 1,
    width: 1,
};

pub(crate) const ACCESS_SIZE: Slot = Slot {
    offset: 3,
    width: 1,
};

pub(crate) const ADDRESS: Slot = Slot {
    offset: 4,
    width: 8,
};

// Of the notification structure.
pub(crate) const NOTIFICATION_LENGTH: Slot = Slot {
    offset: 1,
    width: 1,
};

pub(crate) const POLL_INTERVAL: Slot = Slot {
    offset: 4,
    width: 4,
};

/// The type of a generic source.
pub(crate) const GENERIC_SOURCE: u16 = 9;

// What stands for no related source.
const NO_RELATED_SOURCE: u16 = 0xFFFF;

// How an address is read: as a quad word.
const QUAD_WORD: u8 = 4;

// How often the polled block is looked at, in milliseconds.
pub(crate) const POLL_MILLISECONDS: u32 = 1000;

/// The most entries that a block of this project has.
pub(crate) const MOST_ENTRIES: u32 = 5;

/// The source whose block is polled.
pub(crate) fn error_source() -> [u8; 64]
    ensures { result ≡ error_source }
{
    let mut source = ArrayVec::<u8, 64>::new();
    put_u16(&mut source, SOURCE_TYPE, GENERIC_SOURCE);
    put_u16(&mut source, RELATED_SOURCE_ID, NO_RELATED_SOURCE);
    put_u8(&mut source, ENABLED, 1);
    put_u32(&mut source, RECORDS_TO_PREALLOCATE, 1);
    put_u32(&mut source, MAX_SECTIONS_PER_RECORD, MOST_ENTRIES);
    put_bytes(
        &mut source,
        ERROR_STATUS_ADDRESS,
        &address_structure(POLLED_POINTER),
    );
    put_bytes(
        &mut source,
        NOTIFICATION_STRUCTURE,
        &notification_structure(),
    );
    put_u32(&mut source, ERROR_STATUS_BLOCK_LENGTH, POLLED_BLOCK_LENGTH);
    pad_to(&mut source, SOURCE_LENGTH);
    source.into_inner().unwrap()
}

fn address_structure(address: u64) -> [u8; 12]
    ensures { result ≡ address_structure address }
{
    let mut structure = ArrayVec::<u8, 12>::new();
    put_u8(&mut structure, REGISTER_BIT_WIDTH, 64);
    put_u8(&mut structure, ACCESS_SIZE, QUAD_WORD);
    put_u64(&mut structure, ADDRESS, address);
    pad_to(&mut structure, 12);
    structure.into_inner().unwrap()
}

fn notification_structure() -> [u8; 28]
    ensures { result ≡ notification_structure }
{
    let mut structure = ArrayVec::<u8, 28>::new();
    put_u8(&mut structure, NOTIFICATION_LENGTH, 28);
    put_u32(&mut structure, POLL_INTERVAL, POLL_MILLISECONDS);
    pad_to(&mut structure, 28);
    structure.into_inner().unwrap()
}
