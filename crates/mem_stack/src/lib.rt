//! Two write-back caches over a memory of codewords, as a bus of words that take flips.
#![tactic(auto)]

mod stack;

pub use stack::{L1, L1_SETS, L1_WAYS, L2, L2_SETS, L2_WAYS, Stack};
