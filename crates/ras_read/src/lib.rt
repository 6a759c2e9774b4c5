//! The printed view of what a run leaves behind: a file of CPER records (UEFI, Appendix N), or firmware's memory with its ACPI
//! tables and status blocks. Each is printed whole, or refused by its first place that fails.
#![tactic(auto)]

mod files;
mod firmware;
mod memory;
mod processor;
mod records;
mod refused;
mod sections;
mod values;

pub use files::read_file;
pub use refused::ReadRefused;
