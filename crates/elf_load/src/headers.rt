//! The fields of a file header and of program headers (ELF-64).

ghost use Rattle.std.specs.Prelude.{◌≡◌, ◌≤◌, ◌+◌, ◌*◌, length};
ghost use Rattle.elf_load.specs.Headers.{e_entry, e_phoff, e_phnum, program_header, header_at, is_load};

use ras_bits::{u16_at, u32_at, u64_at};

/// The fields of a program header that an image rests on, named as in the ELF-64 specification.
#[derive(Clone, Copy)]
pub struct ProgramHeader {
    pub p_type: u32,
    pub p_offset: u64,
    pub p_paddr: u64,
    pub p_filesz: u64,
    pub p_memsz: u64,
}

/// How many program headers a file has.
pub fn header_count(b: &[u8]) -> u16
    requires { 64 ≤ length b.now }
    ensures { result ≡ e_phnum b.now }
{
    u16_at(b, 56)
}

/// Where a program is entered.
pub fn entry_address(b: &[u8]) -> u64
    requires { 64 ≤ length b.now }
    ensures { result ≡ e_entry b.now }
{
    u64_at(b, 24)
}

fn header_at(b: &[u8], at: usize) -> ProgramHeader
    requires { at + 56 ≤ length b.now }
    ensures { result ≡ header_at b.now at }
{
    ProgramHeader {
        p_type: u32_at(b, at),
        p_offset: u64_at(b, at + 8),
        p_paddr: u64_at(b, at + 24),
        p_filesz: u64_at(b, at + 32),
        p_memsz: u64_at(b, at + 40),
    }
}

/// Program header `k`, counted from 0.
pub fn program_header(b: &[u8], k: u16) -> ProgramHeader
    requires file { 64 ≤ length b.now }
    requires header { e_phoff b.now + 56 * k + 56 ≤ length b.now }
    ensures { result ≡ program_header b.now k }
{
    header_at(b, u64_at(b, 32) as usize + 56 * usize::from(k))
}

/// Whether the segment of a program header is loaded.
pub fn is_load(header: &ProgramHeader) -> bool
    ensures { result ≡ is_load header.now }
{
    header.p_type == 1
}
