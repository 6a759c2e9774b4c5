//! Why an image is refused.

ghost use Rattle.std.specs.Prelude.{◌≡◌};
ghost use Rattle.elf_load.specs.declared.refusals.ElfRefused.TheVariants.{NoMemory};

use std::alloc::AllocError;
use thiserror::Error;

/// Why an image is refused: the first of these rules that it breaks, each tried on all program
/// headers before the next one. Numbers are those of program headers, counted from 0 over all of
/// them.
#[derive(Clone, Copy, Debug, PartialEq, Error)]
pub enum ElfRefused {
    /// The file has fewer than 64 bytes.
    #[error("short")]
    Short,
    /// The file doesn't begin with 7F 45 4C 46.
    #[error("magic")]
    Magic,
    /// The class isn't 64-bit (2) or the byte order isn't little-endian (1).
    #[error("class")]
    Class,
    /// `e_type` isn't that of an executable file (2).
    #[error("exectype")]
    ExecType,
    /// `e_machine` isn't RISC-V (243).
    #[error("machine")]
    Machine,
    /// Bit 0 of `e_flags` is set: compressed instructions.
    #[error("compressed")]
    Compressed,
    /// Bits 2:1 of `e_flags` aren't 0: a floating-point calling convention.
    #[error("hardfloat")]
    HardFloat,
    /// Bit 3 of `e_flags` is set: the reduced register set.
    #[error("reduced")]
    Reduced,
    /// There are program headers, and `e_phentsize` isn't 56 or they pass the end of the file.
    #[error("headers")]
    Headers,
    /// There are more than 64 program headers.
    #[error("toomany")]
    TooMany,
    /// No program header is a load header (`p_type` 1).
    #[error("noload")]
    NoLoad,
    /// The first load header whose `p_filesz` isn't 0 and whose file part passes the end of the file.
    #[error("filepart segment {0}")]
    FilePart(u16),
    /// The first load header whose `p_filesz` is above its `p_memsz`.
    #[error("sizes segment {0}")]
    Sizes(u16),
    /// The first load header whose `p_memsz` isn't 0 and whose bytes from `p_paddr` on don't all lie in
    /// RAM. A raw image that is longer than RAM is refused with number 0.
    #[error("outside segment {0}")]
    Outside(u16),
    /// `e_entry` isn't a multiple of 4 or not in RAM.
    #[error("entry")]
    Entry,
    /// Memory ran out.
    #[error("out of memory")]
    NoMemory,
}

impl From<AllocError> for ElfRefused {
    ghost from_gives = { λ _ e. e ≡ NoMemory };

    fn from(_refused: AllocError) -> ElfRefused {
        ElfRefused::NoMemory
    }
}
