//! What the instructions of RV64IMA make of the numbers in registers.
//!
//! No call of this crate takes memory.
#![tactic(auto)]

mod atomics;
mod conditions;
mod products;
mod registers;

pub use atomics::amo;
pub use conditions::branch;
pub use products::muldiv;
pub use registers::{alu, alu_w};
