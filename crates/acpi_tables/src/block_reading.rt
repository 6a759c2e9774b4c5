//! Status blocks, read back.

ghost use Rattle.std.specs.Prelude.{◌≡◌, ◌+◌, ◌≤◌, ◌<◌, ◌^◌, length};
ghost use Rattle.acpi_tables.specs.Reading.{block_of, entries_in, entry_section};

use crate::blocks::{BLOCK_HEADER_LENGTH, BLOCK_STATUS, DATA_LENGTH, ERROR_SEVERITY};
use crate::entries::{ENTRY_HEADER_LENGTH, ERROR_DATA_LENGTH, SECTION};
use crate::refused::TableRefused;
use arrayvec::ArrayVec;
use byte_fields::{section_in, u32_in};
use ras_bits::{SectionAt, get_field};

/// What a status block says.
#[derive(Drop)]
pub struct BlockView {
    /// The Block Status: bits 0 and 1 an uncorrected and a corrected error, bits 2 and 3 several of these, and from bit 4
    /// on the number of entries.
    pub status: u32,
    /// The severity of the block.
    pub severity: u32,
    /// The sections, in the order of the entries; their offsets count from the block's first byte.
    pub entries: ArrayVec<SectionAt, 16>,
}

/// Reads the status block at the front (ACPI, "Generic Error Status Block"). There are fewer than 2^32 bytes.
#[tactic(auto, unfolding(crate::specs::Reading::block_of))]
pub fn read_block(b: &[u8]) -> Result<BlockView, TableRefused>
    requires { length b.now < 2 ^ 32 }
    ensures { result ≡ block_of b.now }
{
    if b.len() < BLOCK_HEADER_LENGTH {
        return Err(TableRefused::Short);
    }
    let status = u32_in(b, 0, BLOCK_STATUS);
    let end = BLOCK_HEADER_LENGTH + u32_in(b, 0, DATA_LENGTH) as usize;
    let count = get_field(u64::from(status), 4, 10) as u32;
    if b.len() < end || count > 16 {
        return Err(TableRefused::Length);
    }
    let entries = read_entries(end, b, count)?;
    Ok(BlockView {
        status,
        severity: u32_in(b, 0, ERROR_SEVERITY),
        entries,
    })
}

// The sections of so many entries, which fill the bytes from the block's header up to the end.
fn read_entries(end: usize, b: &[u8], count: u32) -> Result<ArrayVec<SectionAt, 16>, TableRefused>
    requires few { count ≤ 16 }
    requires data { 20 ≤ end }
    requires there { end ≤ length b.now }
    requires offsets { length b.now < 2 ^ 32 }
    ensures { result ≡ entries_in end b.now count }
{
    let mut entries = ArrayVec::new();
    let mut at = BLOCK_HEADER_LENGTH;
    for i in 0..count {
        if end < at + ENTRY_HEADER_LENGTH {
            return Err(TableRefused::Entry(i));
        }
        let entry_end = at + ENTRY_HEADER_LENGTH + u32_in(b, at, ERROR_DATA_LENGTH) as usize;
        if end < entry_end {
            return Err(TableRefused::Entry(i));
        }
        entries.push(entry_section(b, at));
        at = entry_end;
    }
    if at != end {
        return Err(TableRefused::Length);
    }
    Ok(entries)
}

// The section of the entry from an offset on.
#[tactic(auto, using(crate::proofs::BlockLemmas::entry_tells))]
fn entry_section(b: &[u8], at: usize) -> SectionAt
    requires there { at + 72 ≤ length b.now }
    requires offsets { length b.now < 2 ^ 32 }
    ensures { result ≡ entry_section b.now at }
{
    section_in(b, at, (at + ENTRY_HEADER_LENGTH) as u32, &SECTION)
}
