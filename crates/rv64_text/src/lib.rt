//! The text of RV64IMA instructions, with the names of the manual and no pseudo-instructions.
//!
//! No call of this crate takes memory.
#![tactic(auto)]

mod names;
mod operands;
mod text;

pub use text::write_text;
