//! Address translation by Sv39: the walk through the page tables of an address space (RISC-V privileged
//! manual, "Sv39: Page-Based 39-bit Virtual-Memory System" and "Virtual Address Translation Process").
//!
//! A walk reads no memory itself. It asks for one page-table entry at a time by its physical address,
//! and goes on with the entry that it is given. No call of this crate takes memory.
#![tactic(auto)]

mod entry;
mod progress;
mod request;
mod step;
mod walk;

pub use step::WalkStep;
pub use walk::Walk;
