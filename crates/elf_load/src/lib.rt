//! Images: which files are refused and why, and what the others leave in RAM.
//!
//! An image is an ELF-64 executable for RISC-V, or raw bytes that are loaded where RAM starts.
#![tactic(auto)]

mod headers;
mod images;
mod memory;
mod refusals;
mod rules;

pub use images::Image;
pub use refusals::ElfRefused;
