//! Tests of a debugger's session: each command and each refusal, and a word that was flipped twice,
//! found before it is consumed.
//!
//! They stand apart from the crate that they try, so that it is proved once. The expected values
//! were worked out by hand.
#![tactic(auto)]

#[cfg(test)]
mod lines;
#[cfg(test)]
mod sessions;
