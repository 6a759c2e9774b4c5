//! The instructions of RV64IMA as words of 32 bits, both ways.
//!
//! No call of this crate takes memory.
#![tactic(auto)]

mod decoding;
mod encoding;
mod fields;
mod immediates;
mod instr;
mod table;

pub use decoding::decode;
pub use encoding::encode;
pub use instr::{AluOp, AluWOp, AmoOp, BranchOp, CsrOp, Instr, LoadOp, MulOp, StoreOp};
