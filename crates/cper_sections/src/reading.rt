//! Records, read back.

ghost use Rattle.std.specs.Prelude.{◌≡◌, ◌+◌, ◌*◌, ◌≤◌, ◌<◌, length, OnOk};
ghost use Rattle.cper_sections.specs.Reading.{HasDescriptors, descriptor_start, header_kept, is_in_place, record_of, section_at, section_count, sections_of};

use crate::descriptor::{DESCRIPTOR_LENGTH, SECTION, SECTION_LENGTH, SECTION_OFFSET};
use crate::header::{
    END_MARK, ERROR_SEVERITY, HEADER_LENGTH, PERSISTENCE, RECORD_ID, RECORD_LENGTH, SECTION_COUNT,
    SIGNATURE_END, SIGNATURE_START,
};
use arrayvec::ArrayVec;
use byte_fields::{section_in, u16_in, u32_in, u64_in};
use ras_bits::SectionAt;

/// What a record says.
#[derive(Drop)]
pub struct Cper {
    /// The record id.
    pub id: u64,
    /// The severity of the record: 0 recoverable, 1 fatal, 2 corrected, 3 informational.
    pub severity: u32,
    /// The persistence information: in a record of this project the step of the kept event.
    pub at: u64,
    /// The length of the record in bytes.
    pub length: u32,
    /// The sections, in the order of their descriptors; their offsets count from the record's first byte.
    pub sections: ArrayVec<SectionAt, 16>,
}

/// The first rule that a record breaks, in the order of the reader's tests.
#[derive(Clone, Copy, Debug, PartialEq, Eq)]
pub enum CperRefused {
    /// There are fewer bytes than a header has.
    Short,
    /// The record doesn't begin with `CPER`.
    Signature,
    /// The mark behind the revision isn't 0xFFFFFFFF.
    EndMark,
    /// The record's length is below that of a header or passes the bytes.
    Length,
    /// There is no section or more than 16, or the descriptors pass the record's end.
    Sections,
    /// The section of this number, counted from 0, begins before the descriptors end, or passes the record's end.
    SectionPlace(u32),
}

/// Reads the record at the front (UEFI Appendix N, "Common Platform Error Record"). Bytes behind it are ignored.
#[tactic(auto, unfolding(crate::specs::Reading::record_of))]
pub fn read_record(b: &[u8]) -> Result<Cper, CperRefused>
    ensures { result ≡ record_of b.now }
{
    keep_header(b)?;
    let sections = read_sections(b)?;
    Ok(Cper {
        id: u64_in(b, 0, RECORD_ID),
        severity: u32_in(b, 0, ERROR_SEVERITY),
        at: u64_in(b, 0, PERSISTENCE),
        length: u32_in(b, 0, RECORD_LENGTH),
        sections,
    })
}

#[tactic(auto, unfolding(crate::specs::Reading::header_kept))]
fn keep_header(b: &[u8]) -> Result<(), CperRefused>
    ensures exact { result ≡ header_kept b.now }
    ensures there { OnOk result (HasDescriptors b.now) }
{
    if b.len() < HEADER_LENGTH {
        return Err(CperRefused::Short);
    }
    if u32_in(b, 0, SIGNATURE_START) != u32_in(b"CPER", 0, SIGNATURE_START) {
        return Err(CperRefused::Signature);
    }
    if u32_in(b, 0, SIGNATURE_END) != END_MARK {
        return Err(CperRefused::EndMark);
    }
    let end = u32_in(b, 0, RECORD_LENGTH) as usize;
    if end < HEADER_LENGTH || b.len() < end {
        return Err(CperRefused::Length);
    }
    let count = u16_in(b, 0, SECTION_COUNT);
    if count == 0 || count > 16 || end < descriptor_start(count) {
        return Err(CperRefused::Sections);
    }
    Ok(())
}

// Where descriptor `i` begins.
fn descriptor_start(i: u16) -> usize
    ensures { result ≡ descriptor_start i }
{
    HEADER_LENGTH + DESCRIPTOR_LENGTH * usize::from(i)
}

// The sections of all descriptors.
fn read_sections(b: &[u8]) -> Result<ArrayVec<SectionAt, 16>, CperRefused>
    requires { HasDescriptors b.now }
    ensures { result ≡ sections_of b.now }
{
    let mut sections = ArrayVec::new();
    for i in 0..u16_in(b, 0, SECTION_COUNT) {
        if !is_in_place(b, i) {
            return Err(CperRefused::SectionPlace(u32::from(i)));
        }
        sections.push(section_at(b, descriptor_start(i)));
    }
    Ok(sections)
}

// Whether section `i` begins behind the descriptors and ends before the record does.
fn is_in_place(b: &[u8], i: u16) -> bool
    requires descriptors { HasDescriptors b.now }
    requires section { i < section_count b.now }
    ensures { result ≡ is_in_place b.now i }
{
    let at = descriptor_start(i);
    let start = u32_in(b, at, SECTION_OFFSET) as usize;
    let section_end = start + u32_in(b, at, SECTION_LENGTH) as usize;
    let first = descriptor_start(u16_in(b, 0, SECTION_COUNT));
    let end = u32_in(b, 0, RECORD_LENGTH) as usize;
    first <= start && section_end <= end
}

// The section of the descriptor from an offset on.
#[tactic(auto, using(crate::proofs::SectionLemmas::descriptor_tells))]
fn section_at(b: &[u8], at: usize) -> SectionAt
    requires { at + 72 ≤ length b.now }
    ensures { result ≡ section_at b.now at }
{
    section_in(b, at, u32_in(b, at, SECTION_OFFSET), &SECTION)
}
