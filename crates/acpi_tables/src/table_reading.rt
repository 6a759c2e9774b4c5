//! The tables HEST and BERT, read back.

ghost use Rattle.std.specs.Prelude.{◌≡◌, ◌≤◌, length, IfOk};
ghost use Rattle.acpi_tables.specs.Reading.{bert_of, hest_of, source_count, sources_in, table_of};

use crate::error_source::{GENERIC_SOURCE, SOURCE_LENGTH, SOURCE_TYPE};
use crate::refused::TableRefused;
use crate::table_header::{LENGTH, SIGNATURE, sum_over};
use crate::tables::{
    BERT_LENGTH, BOOT_ERROR_REGION, BOOT_ERROR_REGION_LENGTH, ERROR_SOURCE_COUNT, LEAST_HEST,
};
use byte_fields::{u16_in, u32_in, u64_in};

/// What a Hardware Error Source Table says.
#[derive(Clone, Copy, Debug, PartialEq, Eq)]
pub struct HestView {
    /// The number of error sources.
    pub sources: u32,
}

/// What a Boot Error Record Table says.
#[derive(Clone, Copy, Debug, PartialEq, Eq)]
pub struct BertView {
    /// The length of the boot error region in bytes.
    pub length: u32,
    /// The physical address of the region.
    pub address: u64,
}

/// Reads the Hardware Error Source Table at the front (ACPI, "Hardware Error Source Table"), all of whose sources are
/// generic. Bytes behind the last source are ignored.
#[tactic(auto, unfolding(crate::specs::Reading::hest_of))]
pub fn read_hest(b: &[u8]) -> Result<HestView, TableRefused>
    ensures { result ≡ hest_of b.now }
{
    let end = read_table(b"HEST", LEAST_HEST, b)?;
    let sources = u32_in(b, 0, ERROR_SOURCE_COUNT);
    read_sources(end, b, sources)?;
    Ok(HestView { sources })
}

/// Reads the Boot Error Record Table at the front (ACPI, "Boot Error Record Table").
#[tactic(auto, unfolding(crate::specs::Reading::bert_of))]
pub fn read_bert(b: &[u8]) -> Result<BertView, TableRefused>
    ensures { result ≡ bert_of b.now }
{
    read_table(b"BERT", BERT_LENGTH as usize, b)?;
    Ok(BertView {
        length: u32_in(b, 0, BOOT_ERROR_REGION_LENGTH),
        address: u64_in(b, 0, BOOT_ERROR_REGION),
    })
}

// The length of the table at the front.
#[tactic(auto, unfolding(crate::specs::Reading::table_of))]
fn read_table(signature: &[u8; 4], least: usize, b: &[u8]) -> Result<usize, TableRefused>
    requires { 36 ≤ least }
    ensures exact { result ≡ table_of signature.now least b.now }
    ensures there { IfOk result (λ end. end ≤ length b.now) }
    ensures whole { IfOk result (λ _. least ≤ length b.now) }
{
    if b.len() < least {
        return Err(TableRefused::Short);
    }
    if u32_in(b, 0, SIGNATURE) != u32_in(signature, 0, SIGNATURE) {
        return Err(TableRefused::Signature);
    }
    let end = u32_in(b, 0, LENGTH) as usize;
    if end < least || b.len() < end {
        return Err(TableRefused::Length);
    }
    if sum_over(&b[..end]) != 0 {
        return Err(TableRefused::Sum);
    }
    Ok(end)
}

// Looks at so many sources, the first of which stands behind the table's header.
fn read_sources(end: usize, b: &[u8], count: u32) -> Result<(), TableRefused>
    requires { end ≤ length b.now }
    ensures { result ≡ sources_in end b.now count }
{
    for i in 0..count {
        let at = LEAST_HEST + SOURCE_LENGTH * i as usize;
        if end < at + SOURCE_LENGTH || u16_in(b, at, SOURCE_TYPE) != GENERIC_SOURCE {
            return Err(TableRefused::Source(i));
        }
    }
    Ok(())
}
