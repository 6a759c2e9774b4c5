//! Status blocks (ACPI, "Generic Error Status Block").

ghost use Rattle.std.specs.Prelude.{ℕ, List, [], ◌++◌, Ok, ◌≡◌, ◌≤◌, length};
ghost use Rattle.byte_fields.specs.Fields.{zeros};
ghost use Rattle.acpi_tables.specs.Blocks.{block_bytes, block_status, count_of, data_length, worst_severity};
ghost use Rattle.acpi_tables.specs.Reading.{block_of};
ghost use Rattle.acpi_tables.specs.Written.{block_view};

use crate::entries::{ENTRY_HEADER_LENGTH, Entry, push_entry};
use arrayvec::ArrayVec;
use byte_fields::{Slot, pad_to, put_u32};

/// The length of a block's header in bytes.
pub(crate) const BLOCK_HEADER_LENGTH: usize = 20;

pub(crate) const BLOCK_STATUS: Slot = Slot {
    offset: 0,
    width: 4,
};

pub(crate) const DATA_LENGTH: Slot = Slot {
    offset: 12,
    width: 4,
};

pub(crate) const ERROR_SEVERITY: Slot = Slot {
    offset: 16,
    width: 4,
};

const RECOVERABLE: u32 = 0;

const FATAL: u32 = 1;

const CORRECTED: u32 = 2;

/// Replaces what is in `out` by the status block of these entries, five at most (ACPI, "Generic Error Status Block").
///
/// A block without entries is 20 zero bytes. An entry of another severity than 0, 1 and 2 counts in the number of entries alone.
/// `read_block` reads it back, whatever follows it, since its fields stand at their slots
/// (`byte_fields::fields_stand_at_their_slots`).
pub fn status_block(entries: &[Entry], out: &mut ArrayVec<u8, 2048>)
    requires { length entries.now ≤ 5 }
    ensures bytes { out.new.items ≡ block_bytes entries.now }
    ensures empty { entries.now ≡ [] → out.new.items ≡ zeros 20 }
    ensures reads_back { (rest : List ℕ) →
        block_of (out.new.items ++ rest) ≡ Ok (block_view entries.now) }
{
    out.clear();
    put_u32(out, BLOCK_STATUS, status_of(entries));
    put_u32(out, DATA_LENGTH, length_of(entries));
    put_u32(out, ERROR_SEVERITY, worst_severity(entries));
    pad_to(out, BLOCK_HEADER_LENGTH);
    for entry in entries {
        push_entry(out, entry);
    }
}

fn count_of(severity: u32, entries: &[Entry]) -> usize
    ensures value { result ≡ count_of severity entries.now }
    ensures some { result ≤ length entries.now }
{
    let mut count = 0;
    for entry in entries {
        if entry.severity == severity {
            count += 1;
        }
    }
    count
}

fn status_of(entries: &[Entry]) -> u32
    requires { length entries.now ≤ 5 }
    ensures { result ≡ block_status entries.now }
{
    let uncorrected = count_of(RECOVERABLE, entries) + count_of(FATAL, entries);
    let corrected = count_of(CORRECTED, entries);
    u32::from(uncorrected > 0)
        + 2 * u32::from(corrected > 0)
        + 4 * u32::from(uncorrected > 1)
        + 8 * u32::from(corrected > 1)
        + 16 * entries.len() as u32
}

fn worst_severity(entries: &[Entry]) -> u32
    ensures { result ≡ worst_severity entries.now }
{
    if count_of(FATAL, entries) > 0 {
        FATAL
    } else if count_of(RECOVERABLE, entries) > 0 {
        RECOVERABLE
    } else if count_of(CORRECTED, entries) > 0 {
        CORRECTED
    } else {
        RECOVERABLE
    }
}

fn length_of(entries: &[Entry]) -> u32
    requires { length entries.now ≤ 5 }
    ensures value { result ≡ data_length entries.now }
    ensures bound { result ≤ 1320 }
{
    let mut total = 0;
    for entry in entries {
        total += (ENTRY_HEADER_LENGTH + entry.body.len()) as u32;
    }
    total
}
