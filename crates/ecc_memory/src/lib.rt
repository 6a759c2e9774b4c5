//! A memory of codewords: each word has 64 data bits and 8 check bits, a poison mark, and a count of flips.
#![tactic(auto)]

mod lines;
mod memory;
mod word;
mod words;

pub use memory::EccMemory;
