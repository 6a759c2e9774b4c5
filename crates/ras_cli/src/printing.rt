//! The command `read`: a file of error records, or of firmware's memory, is printed.

ghost use Rattle.std.specs.Prelude.{◌<◌, ◌^◌, length, IfSome, Result};
ghost use Rattle.ras_host.specs.Told.{Bytes};
ghost use Rattle.ras_read.specs.Files.{IsRefusalOf};
ghost use Rattle.ras_read.specs.declared.refused.ReadRefused as declared;
ghost use Rattle.ras_cli.specs.Plan.{carried_out};
ghost use Rattle.ras_cli.specs.PrintPlan.{text_written, print_bytes, print_plan, printed};
ghost use Rattle.ras_cli.specs.Follows.{Follows, RunEnds};

use crate::files::FileKind;
use crate::inputs::read_file;
use crate::refusals::file_refused;
use crate::status::{Exit, Status};
use crate::writes::{end_written, refuse};
use ras_host::Host;
use ras_read::ReadRefused;
use std::alloc::Global;

// Writes a text to standard output, after which the program ends.
fn write_text<H: Host>(host: &mut H, text: &[u8]) -> Status
    ensures follows { Follows (H.told host.old) (H.told host.new) (text_written text.now)
        result.code }
    ensures ends { RunEnds (H.told host.old) (H.told host.new)
        (H.faults host.old) (H.faults host.new) result.code }
{
    let written = host.out(text);
    end_written(written, Exit::Ended)
}

// Writes the line for a file that is refused.
fn refuse_file<H: Host>(refusal: ReadRefused, host: &mut H) -> Status
    ensures follows { (read : Result Bytes declared.ReadRefused) → IsRefusalOf read refusal
        → IfSome (H.told host.old).files
        (λ files. Follows (H.told host.old) (H.told host.new)
        (carried_out (printed read) files) result.code) }
    ensures ends { RunEnds (H.told host.old) (H.told host.new)
        (H.faults host.old) (H.faults host.new) result.code }
{
    match refusal {
        ReadRefused::NoMemory => Exit::NoMemory.status(),
        _ => refuse(host, file_refused(refusal).as_slice()),
    }
}

// Writes the text of a file's bytes, or the line of their refusal.
fn print_bytes<H: Host>(alloc: Global, bytes: &[u8], host: &mut H) -> Status
    requires { length bytes.now < 2 ^ 32 }
    ensures follows { IfSome (H.told host.old).files
        (λ files. Follows (H.told host.old) (H.told host.new)
        (carried_out (print_bytes bytes.now) files) result.code) }
    ensures ends { RunEnds (H.told host.old) (H.told host.new)
        (H.faults host.old) (H.faults host.new) result.code }
{
    match ras_read::read_file(alloc, bytes) {
        Ok(text) => write_text(host, text.as_slice()),
        Err(refusal) => refuse_file(refusal, host),
    }
}

/// Reads a file, and writes its text to standard output: of its error records, or of firmware's
/// memory. The first place that is refused has its line written instead.
pub fn print_command<H: Host>(alloc: Global, name: &str, host: &mut H) -> Status
    ensures follows { IfSome (H.told host.old).files
        (λ files. Follows (H.told host.old) (H.told host.new)
        (carried_out (print_plan name.now) files) result.code) }
    ensures ends { RunEnds (H.told host.old) (H.told host.new)
        (H.faults host.old) (H.faults host.new) result.code }
{
    match read_file(alloc, FileKind::Printed, name, host) {
        Ok(bytes) => print_bytes(alloc, bytes.as_slice(), host),
        Err(status) => status,
    }
}
