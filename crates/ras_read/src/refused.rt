//! Why a file isn't printed.

ghost use Rattle.std.specs.Prelude.{◌≡◌};
ghost use Rattle.ras_read.specs.declared.refused.ReadRefused.TheVariants.{NoMemory};

use acpi_tables::TableRefused;
use cper_sections::CperRefused;
use std::alloc::AllocError;

/// The first place of a file that is refused, or want of memory.
#[derive(Clone, Copy, Debug, PartialEq, Eq)]
pub enum ReadRefused {
    /// The file isn't empty, and begins neither with `CPER` nor with `HEST`.
    Kind,
    /// The record that begins at this offset is refused.
    Bad { at: u32, why: CperRefused },
    /// The table or status block at this offset of firmware's memory is refused.
    Table { at: u32, why: TableRefused },
    /// Memory ran out.
    NoMemory,
}

impl From<AllocError> for ReadRefused {
    ghost from_gives = { λ _ e. e ≡ NoMemory };

    fn from(_refused: AllocError) -> ReadRefused {
        ReadRefused::NoMemory
    }
}
