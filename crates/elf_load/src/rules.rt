//! The rules of an image, in the order in which they are tried.

ghost use Rattle.std.specs.Prelude.{◌≡◌, ◌≤◌, ◌+◌, ◌*◌, ◌%◌, length, OnOk};
ghost use Rattle.elf_load.specs.Headers.{e_entry, e_phoff, HasHeaders};
ghost use Rattle.elf_load.specs.Rules.{is_at_fault, is_sought, first_sought, headers_fit, file_kept, rule_kept, entry_kept, all_rules_kept, NoneFound};
ghost use Rattle.elf_load.specs.Memory.{SegmentsFit};

use crate::headers::{ProgramHeader, entry_address, header_count, is_load, program_header};
use crate::refusals::ElfRefused;
use ras_bits::{RAM_START, get_field, is_ram, u16_at, u32_at, u64_at, word_address};

// The bytes 7F 45 4C 46.
const MAGIC: u32 = 0x464C_457F;

/// What a load header is looked for by.
#[derive(Clone, Copy)]
pub enum Sought {
    /// Any load header.
    Load,
    /// One whose file part passes the end of the file.
    FilePart,
    /// One whose file part is longer than its segment.
    Sizes,
    /// One whose segment doesn't lie in RAM.
    Outside,
}

fn is_at_fault(b: &[u8], ram_words: u32, sought: Sought, header: &ProgramHeader) -> bool
    ensures { result ≡ is_at_fault b.now ram_words sought header.now }
{
    match sought {
        Sought::Load => true,
        Sought::FilePart => {
            let end = u128::from(header.p_offset) + u128::from(header.p_filesz);
            header.p_filesz != 0 && (b.len() as u128) < end
        }
        Sought::Sizes => header.p_memsz < header.p_filesz,
        Sought::Outside => {
            let end = u128::from(header.p_paddr) + u128::from(header.p_memsz);
            let ram_end = u128::from(word_address(ram_words));
            header.p_memsz != 0 && !(RAM_START <= header.p_paddr && end <= ram_end)
        }
    }
}

#[tactic(auto, unfolding(crate::specs::Rules::is_sought))]
fn is_sought(b: &[u8], ram_words: u32, sought: Sought, k: u16) -> bool
    requires file { 64 ≤ length b.now }
    requires header { e_phoff b.now + 56 * k + 56 ≤ length b.now }
    ensures { result ≡ is_sought b.now ram_words sought k }
{
    let header = program_header(b, k);
    is_load(&header) && is_at_fault(b, ram_words, sought, &header)
}

// The first load header that is sought.
fn first_sought(b: &[u8], ram_words: u32, sought: Sought) -> Option<u16>
    requires { HasHeaders b.now }
    ensures { result ≡ first_sought b.now ram_words sought }
{
    for k in 0..header_count(b) {
        if is_sought(b, ram_words, sought, k) {
            return Some(k);
        }
    }
    None
}

#[tactic(auto, unfolding(crate::specs::Rules::rule_kept), using(crate::proofs::RuleLemmas::none_found))]
fn keep_rule(b: &[u8], ram_words: u32, sought: Sought) -> Result<(), ElfRefused>
    requires { HasHeaders b.now }
    ensures exact { result ≡ rule_kept b.now ram_words sought }
    ensures none { OnOk result (NoneFound b.now ram_words sought) }
{
    let found = first_sought(b, ram_words, sought);
    match (sought, found) {
        (Sought::Load, None) => Err(ElfRefused::NoLoad),
        (Sought::Load, Some(_)) => Ok(()),
        (Sought::FilePart, Some(k)) => Err(ElfRefused::FilePart(k)),
        (Sought::Sizes, Some(k)) => Err(ElfRefused::Sizes(k)),
        (Sought::Outside, Some(k)) => Err(ElfRefused::Outside(k)),
        (Sought::FilePart | Sought::Sizes | Sought::Outside, None) => Ok(()),
    }
}

fn headers_fit(b: &[u8]) -> bool
    requires { 64 ≤ length b.now }
    ensures { result ≡ headers_fit b.now }
{
    let count = header_count(b);
    let end = u128::from(u64_at(b, 32)) + 56 * u128::from(count);
    count == 0 || (u16_at(b, 54) == 56 && end <= b.len() as u128)
}

#[tactic(auto, unfolding(crate::specs::Rules::file_kept), using(crate::proofs::RuleLemmas::headers_there))]
fn keep_file(b: &[u8]) -> Result<(), ElfRefused>
    ensures exact { result ≡ file_kept b.now }
    ensures headers { OnOk result (HasHeaders b.now) }
{
    if b.len() < 64 {
        return Err(ElfRefused::Short);
    }
    if u32_at(b, 0) != MAGIC {
        return Err(ElfRefused::Magic);
    }
    if b[4] != 2 || b[5] != 1 {
        return Err(ElfRefused::Class);
    }
    if u16_at(b, 16) != 2 {
        return Err(ElfRefused::ExecType);
    }
    if u16_at(b, 18) != 243 {
        return Err(ElfRefused::Machine);
    }
    let flags = u64::from(u32_at(b, 48));
    if get_field(flags, 0, 1) != 0 {
        return Err(ElfRefused::Compressed);
    }
    if get_field(flags, 1, 2) != 0 {
        return Err(ElfRefused::HardFloat);
    }
    if get_field(flags, 3, 1) != 0 {
        return Err(ElfRefused::Reduced);
    }
    if !headers_fit(b) {
        return Err(ElfRefused::Headers);
    }
    if header_count(b) > 64 {
        return Err(ElfRefused::TooMany);
    }
    Ok(())
}

#[tactic(auto, unfolding(crate::specs::Rules::entry_kept))]
fn keep_entry(b: &[u8], ram_words: u32) -> Result<(), ElfRefused>
    requires { 64 ≤ length b.now }
    ensures exact { result ≡ entry_kept b.now ram_words }
    ensures aligned { OnOk result (e_entry b.now % 4 ≡ 0) }
{
    let entry = entry_address(b);
    if entry % 4 == 0 && is_ram(ram_words, entry) {
        Ok(())
    } else {
        Err(ElfRefused::Entry)
    }
}

/// Tries each rule, on all headers before the next.
#[tactic(auto, unfolding(crate::specs::Rules::all_rules_kept), using(crate::proofs::RuleLemmas::segments_fit))]
pub fn keep_all(b: &[u8], ram_words: u32) -> Result<(), ElfRefused>
    ensures exact { result ≡ all_rules_kept b.now ram_words }
    ensures headers { OnOk result (HasHeaders b.now) }
    ensures segments { OnOk result (SegmentsFit b.now ram_words) }
    ensures aligned { OnOk result (e_entry b.now % 4 ≡ 0) }
{
    keep_file(b)?;
    keep_rule(b, ram_words, Sought::Load)?;
    keep_rule(b, ram_words, Sought::FilePart)?;
    keep_rule(b, ram_words, Sought::Sizes)?;
    keep_rule(b, ram_words, Sought::Outside)?;
    keep_entry(b, ram_words)
}
