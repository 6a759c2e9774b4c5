//! What every table begins with (ACPI, "System Description Table Header"), and its checksum.

ghost use Rattle.std.specs.Prelude.{◌≡◌, ◌+◌, ◌-◌, ◌%◌, ◌≤◌, sum};
ghost use Rattle.arrayvec.specs.ArrayVec.{array_vec_len};
ghost use Rattle.byte_fields.specs.Fields.{with_slots};
ghost use Rattle.acpi_tables.specs.TableHeader.{checksum_of, header_fields};

use arrayvec::ArrayVec;
use byte_fields::{Slot, put_bytes, put_u8, put_u32};

pub(crate) const SIGNATURE: Slot = Slot {
    offset: 0,
    width: 4,
};

pub(crate) const LENGTH: Slot = Slot {
    offset: 4,
    width: 4,
};

pub(crate) const REVISION: Slot = Slot {
    offset: 8,
    width: 1,
};

pub(crate) const CHECKSUM: Slot = Slot {
    offset: 9,
    width: 1,
};

pub(crate) const OEM_ID: Slot = Slot {
    offset: 10,
    width: 6,
};

pub(crate) const OEM_TABLE_ID: Slot = Slot {
    offset: 16,
    width: 8,
};

pub(crate) const OEM_REVISION: Slot = Slot {
    offset: 24,
    width: 4,
};

pub(crate) const CREATOR_ID: Slot = Slot {
    offset: 28,
    width: 4,
};

pub(crate) const CREATOR_REVISION: Slot = Slot {
    offset: 32,
    width: 4,
};

/// Puts the header of a table with this signature, length and checksum. Nothing is there yet.
pub(crate) fn put_header<const N: usize>(
    table: &mut ArrayVec<u8, N>,
    signature: &[u8; 4],
    table_length: u32,
    checksum: u8,
)
    requires first { array_vec_len table.old ≤ 0 }
    requires room { 36 ≤ N }
    ensures items { table.new.items
        ≡ with_slots table.old.items (header_fields signature.now table_length checksum) }
    ensures len { array_vec_len table.new ≡ 36 }
{
    put_bytes(table, SIGNATURE, signature);
    put_u32(table, LENGTH, table_length);
    put_u8(table, REVISION, 1);
    put_u8(table, CHECKSUM, checksum);
    put_bytes(table, OEM_ID, b"RASMCH");
    put_bytes(table, OEM_TABLE_ID, b"RASMACHN");
    put_u32(table, OEM_REVISION, 1);
    put_bytes(table, CREATOR_ID, b"RASM");
    put_u32(table, CREATOR_REVISION, 1);
}

/// The sum of the bytes, modulo 256.
pub(crate) fn sum_over(bytes: &[u8]) -> u8
    ensures { result ≡ sum bytes.now % 256 }
{
    let mut total = 0u8;
    for byte in bytes {
        total = total.wrapping_add(*byte);
    }
    total
}

/// The checksum of a table whose checksum byte is 0.
pub(crate) fn checksum_over(bytes: &[u8]) -> u8
    ensures { result ≡ checksum_of bytes.now }
{
    sum_over(bytes).wrapping_neg()
}
