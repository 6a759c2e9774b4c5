//! Tests of the printed view, as tables over its public call.
//!
//! They stand apart from the crate that they try, so that it is proved once. A row is for what no clause promises: a text, a
//! call that takes memory.
#![tactic(auto)]

#[cfg(test)]
mod firmware;
#[cfg(test)]
mod helpers;
#[cfg(test)]
mod records;
