//! The ACPI tables by which firmware reports errors of hardware, and the status blocks that hold the errors
//! (ACPI, "ACPI Platform Error Interfaces"): written exactly, and read back with the first fault named.
//!
//! No call of this crate takes memory.
#![tactic(auto)]

mod block_reading;
mod blocks;
mod entries;
mod error_source;
mod refused;
mod table_header;
mod table_reading;
mod tables;

pub use block_reading::{BlockView, read_block};
pub use blocks::status_block;
pub use entries::Entry;
pub use refused::TableRefused;
pub use table_reading::{BertView, HestView, read_bert, read_hest};
pub use tables::{bert, hest};
