//! Severities of records and sections.

ghost use Rattle.std.specs.Prelude.{◌≡◌, ◌<◌};
ghost use Rattle.cper_sections.specs.Severity.{severity_of};

use poison_mem::Class;

/// The severity of a class (UEFI Appendix N, "Error Severity"): 0 recoverable for a deferred error, 1 fatal for a critical
/// one, 2 for a corrected one.
pub fn severity_of(c: Class) -> u32
    ensures { result ≡ severity_of c }
{
    match c {
        Class::Deferred => 0,
        Class::Critical => 1,
        Class::Corrected => 2,
    }
}
