//! Tests of the libraries below the program but the hart's, as tables over their public calls.
//!
//! They stand apart from the crates that they try, so that each of these is proved once. A row is for what no clause
//! promises: an example from a standard, a text, a call that takes memory.
#![tactic(auto)]

#[cfg(test)]
mod demo;
#[cfg(test)]
mod hosts;
#[cfg(test)]
mod inputs;
#[cfg(test)]
mod words;
