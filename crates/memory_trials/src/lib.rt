//! Tests of memory, of caches and of the stack that is made of them, over their public calls.
//!
//! They stand apart from the crates that they try, so that each of these is proved once. A row is for what no clause
//! promises: an example from a standard, a text, a call that takes memory.
#![tactic(auto)]

#[cfg(test)]
mod caches;
#[cfg(test)]
mod entries;
#[cfg(test)]
mod helpers;
#[cfg(test)]
mod memory;
#[cfg(test)]
mod plain;
#[cfg(test)]
mod random_calls;
#[cfg(test)]
mod stack;
