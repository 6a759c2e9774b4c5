//! A file, printed.

ghost use Rattle.std.specs.Prelude.{◌≡◌, ◌<◌, ◌^◌, length, Ok, IfOk, IfErr};
ghost use Rattle.ras_read.specs.Files.{IsRefusalOf, file_text};

use crate::firmware::firmware_text;
use crate::records::records_text;
use crate::refused::ReadRefused;
use std::alloc::Global;

/// The text of a file: of the CPER records that it has one after the other (UEFI Appendix N, "Common Platform Error Record"), or
/// of firmware's memory, with HEST, BERT, the boot error region and the polled block (ACPI, "ACPI Platform Error Interfaces").
/// The text of an empty file is empty. A file has fewer than 2^32 bytes.
///
/// The refusal is that of the first place that fails. `NoMemory` comes for want of memory alone.
pub fn read_file(alloc: Global, b: &[u8]) -> Result<Vec<u8>, ReadRefused>
    requires { length b.now < 2 ^ 32 }
    ensures text { IfOk result (λ v. file_text b.now ≡ Ok v.items) }
    ensures refused { IfErr result (IsRefusalOf (file_text b.now)) }
{
    if b.is_empty() {
        Ok(Vec::new(alloc))
    } else if b.starts_with(b"CPER") {
        records_text(alloc, b)
    } else if b.starts_with(b"HEST") {
        firmware_text(alloc, b)
    } else {
        Err(ReadRefused::Kind)
    }
}
