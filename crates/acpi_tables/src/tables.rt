//! The tables HEST and BERT.

ghost use Rattle.std.specs.Prelude.{ℕ, List, ◌++◌, Ok, ◌≡◌};
ghost use Rattle.ras_bits.specs.declared.map.TheConstants.{POLLED_POINTER};
ghost use Rattle.acpi_tables.specs.TableHeader.{SumsToZero};
ghost use Rattle.acpi_tables.specs.Tables.{bert_bytes, bert_with, hest_bytes, hest_with, status_address};
ghost use Rattle.acpi_tables.specs.Reading.{bert_of, hest_of};
ghost use Rattle.acpi_tables.specs.Written.{bert_view, hest_view};

use crate::error_source::error_source;
use crate::table_header::{checksum_over, put_header};
use arrayvec::ArrayVec;
use byte_fields::{Slot, pad_to, put_bytes, put_u32, put_u64};
use ras_bits::{BOOT_REGION_LENGTH, BOOT_REGION_START};

pub(crate) const ERROR_SOURCE_COUNT: Slot = Slot {
    offset: 36,
    width: 4,
};

pub(crate) const FIRST_SOURCE: Slot = Slot {
    offset: 40,
    width: 64,
};

pub(crate) const BOOT_ERROR_REGION_LENGTH: Slot = Slot {
    offset: 36,
    width: 4,
};

pub(crate) const BOOT_ERROR_REGION: Slot = Slot {
    offset: 40,
    width: 8,
};

/// The least length of a HEST: one without sources.
pub(crate) const LEAST_HEST: usize = 40;

const HEST_LENGTH: u32 = 104;

pub(crate) const BERT_LENGTH: u32 = 48;

/// The Hardware Error Source Table (ACPI, "Hardware Error Source Table"): one generic source, whose status block is polled
/// each second. Its address stands at `POLLED_POINTER`.
pub fn hest() -> [u8; 104]
    ensures bytes { result ≡ hest_bytes }
    ensures checked { SumsToZero result }
    ensures points { status_address result ≡ POLLED_POINTER }
    ensures reads_back { (rest : List ℕ) → hest_of (result ++ rest) ≡ Ok hest_view }
{
    hest_with(checksum_over(&hest_with(0)))
}

/// The Boot Error Record Table (ACPI, "Boot Error Record Table"): a region of `BOOT_REGION_LENGTH` bytes from
/// `BOOT_REGION_START` on.
pub fn bert() -> [u8; 48]
    ensures bytes { result ≡ bert_bytes }
    ensures checked { SumsToZero result }
    ensures reads_back { (rest : List ℕ) → bert_of (result ++ rest) ≡ Ok bert_view }
{
    bert_with(checksum_over(&bert_with(0)))
}

fn hest_with(checksum: u8) -> [u8; 104]
    ensures { result ≡ hest_with checksum }
{
    let mut table = ArrayVec::<u8, 104>::new();
    put_header(&mut table, b"HEST", HEST_LENGTH, checksum);
    put_u32(&mut table, ERROR_SOURCE_COUNT, 1);
    put_bytes(&mut table, FIRST_SOURCE, &error_source());
    pad_to(&mut table, HEST_LENGTH as usize);
    table.into_inner().unwrap()
}

fn bert_with(checksum: u8) -> [u8; 48]
    ensures { result ≡ bert_with checksum }
{
    let mut table = ArrayVec::<u8, 48>::new();
    put_header(&mut table, b"BERT", BERT_LENGTH, checksum);
    put_u32(&mut table, BOOT_ERROR_REGION_LENGTH, BOOT_REGION_LENGTH);
    put_u64(&mut table, BOOT_ERROR_REGION, BOOT_REGION_START);
    pad_to(&mut table, BERT_LENGTH as usize);
    table.into_inner().unwrap()
}
