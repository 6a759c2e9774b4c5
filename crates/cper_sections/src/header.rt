//! The header of a record (UEFI Appendix N, "Common Platform Error Record Header").

ghost use Rattle.std.specs.Prelude.{◌≡◌, ◌≤◌, ◌<◌, ◌^◌};
ghost use Rattle.cper_sections.specs.Record.{record_header};

use crate::severity::severity_of;
use arrayvec::ArrayVec;
use byte_fields::{Slot, pad_to, put_bytes, put_u16, put_u32, put_u64};
use poison_mem::RecordView;

/// The length of a header in bytes.
pub(crate) const HEADER_LENGTH: usize = 128;

pub(crate) const SIGNATURE_START: Slot = Slot {
    offset: 0,
    width: 4,
};

pub(crate) const REVISION: Slot = Slot {
    offset: 4,
    width: 2,
};

pub(crate) const SIGNATURE_END: Slot = Slot {
    offset: 6,
    width: 4,
};

pub(crate) const SECTION_COUNT: Slot = Slot {
    offset: 10,
    width: 2,
};

pub(crate) const ERROR_SEVERITY: Slot = Slot {
    offset: 12,
    width: 4,
};

pub(crate) const RECORD_LENGTH: Slot = Slot {
    offset: 20,
    width: 4,
};

pub(crate) const CREATOR_ID: Slot = Slot {
    offset: 64,
    width: 16,
};

pub(crate) const NOTIFICATION_TYPE: Slot = Slot {
    offset: 80,
    width: 16,
};

pub(crate) const RECORD_ID: Slot = Slot {
    offset: 96,
    width: 8,
};

/// In a record of this project the step of the kept event.
pub(crate) const PERSISTENCE: Slot = Slot {
    offset: 108,
    width: 8,
};

/// What stands at the end of the signature.
pub(crate) const END_MARK: u32 = 0xFFFF_FFFF;

const RECORD_REVISION: u16 = 0x0101;

// This project's own: 52415321-4D41-4348-8000-000000000001.
const CREATOR: [u8; 16] = [
    0x21, 0x53, 0x41, 0x52, 0x41, 0x4D, 0x48, 0x43, 0x80, 0, 0, 0, 0, 0, 0, 1,
];

// The notification of a corrected platform error: 4E292F96-D843-4A55-A8C2-D481F27EBEEE.
const PLATFORM_ERROR: [u8; 16] = [
    0x96, 0x2F, 0x29, 0x4E, 0x43, 0xD8, 0x55, 0x4A, 0xA8, 0xC2, 0xD4, 0x81, 0xF2, 0x7E, 0xBE, 0xEE,
];

/// The header of the record of a view, with its id and its whole length. It has one section.
pub(crate) fn record_header(v: &RecordView, id: u64, record_length: u32) -> [u8; 128]
    ensures bytes { result ≡ record_header v.now id record_length }
    ensures at_fits { v.now.kept.at < 2 ^ 64 }
{
    let mut header = ArrayVec::<u8, 128>::new();
    put_bytes(&mut header, SIGNATURE_START, b"CPER");
    put_u16(&mut header, REVISION, RECORD_REVISION);
    put_u32(&mut header, SIGNATURE_END, END_MARK);
    put_u16(&mut header, SECTION_COUNT, 1);
    put_u32(&mut header, ERROR_SEVERITY, severity_of(v.kept.class));
    put_u32(&mut header, RECORD_LENGTH, record_length);
    put_bytes(&mut header, CREATOR_ID, &CREATOR);
    put_bytes(&mut header, NOTIFICATION_TYPE, &PLATFORM_ERROR);
    put_u64(&mut header, RECORD_ID, id);
    put_u64(&mut header, PERSISTENCE, v.kept.at);
    pad_to(&mut header, HEADER_LENGTH);
    header.into_inner().unwrap()
}
