//! Tests of the hart and of what it stands on, as tables over their public calls.
//!
//! They stand apart from the crates that they try, so that each of these is proved once. A row is for what no clause
//! promises: an example from a standard, a text, a call that takes memory.
#![tactic(auto)]

#[cfg(test)]
mod firmware_calls;
#[cfg(test)]
mod hart_calls;
#[cfg(test)]
mod hart_guest;
#[cfg(test)]
mod hart_instructions;
#[cfg(test)]
mod hart_pages;
#[cfg(test)]
mod hart_traps;
#[cfg(test)]
mod instructions;
#[cfg(test)]
mod page_walks;
#[cfg(test)]
mod several_harts;
#[cfg(test)]
mod supervisor_registers;
