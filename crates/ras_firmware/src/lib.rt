//! The firmware of a machine: the drain of its error banks, the records that it emits, and the memory that it writes for the
//! operating system.
//!
//! `Records::make`, `FirmMemory::make` and `Firmware::make` take memory, and no other call does.
#![tactic(auto)]

mod drain;
mod entries;
mod firmware;
mod laws;
mod memory;
mod records;

pub use drain::{Drain, finish};
pub use firmware::Firmware;
pub use laws::{
    class_never_falls, no_event_is_lost_or_doubled, the_memory_shows_the_last_emitted_views,
    the_tables_point_at_the_blocks, without_errors_the_blocks_are_zeros,
};
pub use memory::FirmMemory;
pub use records::Records;
