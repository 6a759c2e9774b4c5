//! Common Platform Error Records (UEFI, Appendix N): what a record of errors shows, as a record with one section, written
//! exactly, and records of up to 16 sections read back with the first fault named.
//!
//! No call of this crate takes memory.
#![tactic(auto)]

mod descriptor;
mod fru;
mod header;
pub mod memory;
pub mod processor;
mod reading;
mod severity;
mod writing;

pub use fru::fru_text;
pub use memory::{MEMORY_SECTION, mem_section};
pub use processor::{PROCESSOR_SECTION, proc_section};
pub use reading::{Cper, CperRefused, read_record};
pub use severity::severity_of;
pub use writing::write_record;
